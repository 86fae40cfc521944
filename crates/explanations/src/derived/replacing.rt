//! Replacements of terms on the right side of an equation.

ghost use Rattle.std.specs.Prelude.{◌≡◌, ℕ, length, OnOk, IfOk};
ghost use Rattle.term_pool.specs.Items.{formula_in};
ghost use Rattle.term_pool.specs.Pools.{Extends};
ghost use Rattle.certificates.specs.BranchesBranch.{Branch};
ghost use Rattle.explanations.specs.Chains.{term_at, HasPositions, Keeps, IsAt, IsChain, CanBegin};
ghost use Rattle.congruence_closure.specs.Numbers.{number_at};
ghost use Rattle.explanations.specs.Replacing.{before_it, after_it, CanReplace, after_all, CanReplaceAt, IsReplacedAt, CanBeginEach, itself_item, CanReplaceAll, CanBeginAll};

use crate::chain::{Chain, Swap};
use crate::derived::route::{between, number_of};
use crate::frame::Frame;
use base::memory::NoMemory;
use congruence_closure::proof_forest::Join;
use term_pool::pool::Pool;

/// A replacement of a term by an equal one: the nodes of the two terms, the context of the occurrence, and a route
/// from the one node to the other.
#[derive(Drop)]
pub struct Difference {
    /// The frames of the context, the outermost first.
    pub way: Vec<Frame>,
    pub from: usize,
    pub to: usize,
    pub route: Vec<Join>,
}

/// Returns an index of the source formula with the one term replaced by the other.
pub fn replace(
    pool: &mut Pool,
    chain: &mut Chain,
    numbers: &[usize],
    equations: &[Option<usize>],
    difference: &Difference,
    source: usize,
) -> Result<usize, NoMemory>
    requires source { IsAt pool.old chain.old source (formula_in (before_it pool.old numbers.now difference.now)) }
    requires replaced { CanReplace pool.old chain.old numbers.now equations.now difference.now }
    requires positions { HasPositions chain.old }
    ensures extends { Extends pool.old pool.new }
    ensures positions { OnOk result (HasPositions chain.new) }
    ensures keeps { OnOk result (Keeps chain.old chain.new) }
    ensures at { IfOk result (λ position. IsAt pool.new chain.new position (formula_in (after_it pool.old numbers.now difference.now))) }
    ensures chain { OnOk result ((b : Branch) → IsChain pool.old b chain.old → CanBegin b chain.old (term_at pool.old (number_at numbers.now difference.now.from)) → IsChain pool.new b chain.new) }
{
    let route = difference.route.as_slice();
    let equation = between(pool, chain, numbers, equations, difference.from, route)?;
    let from = number_of(numbers, difference.from);
    let to = number_of(numbers, difference.to);
    let way = difference.way.as_slice();
    chain.rewrite(pool, way, Swap { equation, from, to }, source)
}

/// Returns an index of the source formula after these replacements.
pub fn replace_each(
    pool: &mut Pool,
    chain: &mut Chain,
    numbers: &[usize],
    equations: &[Option<usize>],
    source: usize,
    differences: &[Difference],
) -> Result<usize, NoMemory>
    requires replaced { CanReplaceAt pool.old chain.old numbers.now equations.now source differences.now }
    requires positions { HasPositions chain.old }
    ensures extends { Extends pool.old pool.new }
    ensures positions { OnOk result (HasPositions chain.new) }
    ensures keeps { OnOk result (Keeps chain.old chain.new) }
    ensures at { IfOk result (IsReplacedAt pool.old chain.old numbers.now source differences.now pool.new chain.new) }
    ensures chain { OnOk result ((b : Branch) → IsChain pool.old b chain.old → CanBeginEach pool.old b chain.old numbers.now differences.now → IsChain pool.new b chain.new) }
{
    let mut position = source;
    for difference in differences {
        let next = replace(pool, chain, numbers, equations, difference, position)?;
        position = next;
    }
    Ok(position)
}

/// Returns an index of the equation of a term with its result after these replacements.
pub fn replace_all(
    pool: &mut Pool,
    chain: &mut Chain,
    numbers: &[usize],
    equations: &[Option<usize>],
    left: usize,
    differences: &[Difference],
) -> Result<usize, NoMemory>
    requires replaced { CanReplaceAll pool.old chain.old numbers.now equations.now left differences.now }
    requires positions { HasPositions chain.old }
    ensures extends { Extends pool.old pool.new }
    ensures positions { OnOk result (HasPositions chain.new) }
    ensures keeps { OnOk result (Keeps chain.old chain.new) }
    ensures at { IfOk result (λ position. IsAt pool.new chain.new position (formula_in (after_all pool.old numbers.now (itself_item pool.old left) differences.now))) }
    ensures chain { OnOk result ((b : Branch) → IsChain pool.old b chain.old → CanBeginAll pool.old b chain.old numbers.now left differences.now → IsChain pool.new b chain.new) }
{
    let itself = chain.itself(pool, left)?;
    let position = replace_each(pool, chain, numbers, equations, itself, differences)?;
    Ok(position)
}
