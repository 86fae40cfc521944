//! Gamma rule: instances of quantified formulas.

ghost use Rattle.std.specs.Prelude.{◌≡◌, ◌↔◌, ◌+◌, ◌<◌, IsTrue, OnOk, IfOk};
ghost use Rattle.certificates.specs.Due.{InstanceDue};
ghost use Rattle.tableau.specs.PoolBranches.{branch_in, IsFormulaNumber, IsTermNumber, IsOver};
ghost use Rattle.ematching.specs.Heads.{IsIndex};
ghost use Rattle.ematching.specs.Numbers.{term_at, formula_at};
ghost use Rattle.ematching.specs.QuantifierFree.{AreFree};
ghost use Rattle.ematching.specs.Instances.{IsNextGeneration};

use crate::applications::said::is_fresh;
use crate::applications::truths::are_all;
use base::memory::NoMemory;
use ematching::heads::HeadIndex;
use ematching::instances::quantifiers::QuantifierFree;
use ematching::matches::is_matched;
use ematching::quantified::quantified;
use std::alloc::Global;
use tableau::branch::PoolBranch;
use tableau::rules::stands::is_shallow;
use term_pool::pool::{MOST_DEPTH, Pool};

/// The greatest number of instances that may lead to a formula.
const MOST_GENERATIONS: usize = 3;

// Decides whether the second generation is the next one after the first, and within the limit.
fn is_after(before: usize, next: usize) -> bool
    ensures { IsTrue result ↔ ((before < 3) × (next ≡ before + 1)) }
{
    if before >= MOST_GENERATIONS {
        return false;
    }
    next == before + 1
}

// Decides whether `next` is the generation of an instance, for the term, of an entry with the generation `generation`.
fn is_next(pool: &Pool, branch: &PoolBranch, generation: usize, term: usize, next: usize) -> bool
    requires over { IsOver pool.now branch.now }
    requires term { IsTermNumber pool.now term }
    ensures { IsTrue result ↔ IsNextGeneration (branch_in pool.now branch.now) generation (term_at pool.now term) next }
{
    if pool.depth(term) > MOST_DEPTH {
        return false;
    }
    let Some(older) = branch.generation(pool, term) else {
        return false;
    };
    let before = generation.max(older);
    is_after(before, next)
}

/// Decides whether this instance is due: the entry with this number is universal, the term matches its trigger, the
/// formula is its instance for the term, up to renaming of bound variables, and has the generation, no entry is such an
/// instance, and the formula and the term are no deeper than a step may add. The index by head symbol and the facts on
/// quantifiers belong to the pool or to an earlier state of it.
///
/// # Errors
///
/// Only if memory runs out.
pub fn is_instance_due(
    alloc: Global,
    pool: &Pool,
    branch: &PoolBranch,
    index: &mut HeadIndex,
    quantifiers: &mut QuantifierFree,
    entry: usize,
    term: usize,
    formula: usize,
    generation: usize,
) -> Result<bool, NoMemory>
    requires over { IsOver pool.now branch.now }
    requires index { IsIndex pool.now index.old }
    requires free { AreFree pool.now quantifiers.old }
    requires term { IsTermNumber pool.now term }
    requires formula { IsFormulaNumber pool.now formula }
    ensures index { OnOk result (IsIndex pool.now index.new) }
    ensures free { OnOk result (AreFree pool.now quantifiers.new) }
    ensures exact { IfOk result (λ known. IsTrue known ↔ InstanceDue (branch_in pool.now branch.now) entry (term_at pool.now term) (formula_at pool.now formula) generation) }
{
    let Some(at) = branch.entry(entry) else {
        return Ok(false);
    };
    let Some(universal) = quantified(pool, at.formula) else {
        return Ok(false);
    };
    let is_free = quantifiers.is_free(pool, universal.body)?;
    index.grow(pool)?;
    let matched = is_matched(alloc, pool, branch, index, at.formula, term)?;
    let next = is_next(pool, branch, at.generation, term, generation);
    let fresh = is_fresh(
        alloc, pool, branch, at.formula, universal, is_free, term, formula,
    )?;
    let shallow = is_shallow(pool, formula);
    Ok(are_all(matched, next, fresh, shallow))
}
