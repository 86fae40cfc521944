//! A formula of an explanation, with terms replaced by equal ones.

ghost use Rattle.std.specs.Prelude.{◌<◌, length, OnOk, IfOk};
ghost use Rattle.term_pool.specs.Items.{formula_in};
ghost use Rattle.term_pool.specs.Pools.{Extends};
ghost use Rattle.certificates.specs.BranchesBranch.{Branch};
ghost use Rattle.explanations.specs.Chains.{HasPositions, Keeps, IsAt, IsChain};
ghost use Rattle.explanations.specs.Replacing.{after_all};
ghost use Rattle.closing_rules.specs.Rewriting.{source_item, CanRewrite, CanBeginEach};

use base::memory::NoMemory;
use explanations::chain::Chain;
use explanations::derived::replacing::{Difference, replace};
use term_pool::pool::Pool;

/// Rewrites the formula at the index `source` of the explanation by these differences, one after another; returns the
/// index of the result. `NoMemory` if memory runs out.
pub fn rewritten(
    pool: &mut Pool,
    chain: &mut Chain,
    numbers: &[usize],
    equations: &[Option<usize>],
    differences: &[Difference],
    source: usize,
) -> Result<usize, NoMemory>
    requires source { source < length chain.old.formulas }
    requires replaced { CanRewrite pool.old chain.old numbers.now equations.now source differences.now }
    requires positions { HasPositions chain.old }
    ensures extends { Extends pool.old pool.new }
    ensures positions { OnOk result (HasPositions chain.new) }
    ensures keeps { OnOk result (Keeps chain.old chain.new) }
    ensures at { IfOk result (λ position. IsAt pool.new chain.new position (formula_in (after_all pool.old numbers.now (source_item pool.old chain.old source) differences.now))) }
    ensures chain { OnOk result ((b : Branch) → IsChain pool.old b chain.old → CanBeginEach pool.old b chain.old numbers.now differences.now → IsChain pool.new b chain.new) }
{
    let mut position = source;
    for difference in differences {
        let next = replace(pool, chain, numbers, equations, difference, position)?;
        position = next;
    }
    Ok(position)
}
