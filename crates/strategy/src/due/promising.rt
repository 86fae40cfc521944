//! Applications that are likely to close branches soon.

ghost use Rattle.std.specs.Prelude.{List, IfOk, IfSome};
ghost use Rattle.fol.specs.declared.shapes.Shape.{Shape};
ghost use Rattle.term_pool.specs.Pools.{Extends};
ghost use Rattle.certificates.specs.ProofTraces.{IsLate};
ghost use Rattle.tableau.specs.PoolBranches.{branch_in, IsOver};
ghost use Rattle.tableau.specs.Terms.{AreClassesOf};
ghost use Rattle.search.specs.Decisions.{IsExtensionDue};

use crate::due::extensions::{axiom_application, split_application};
use crate::ranks::guess::Guess;
use crate::ranks::{RankedSplit, URGENT, ranked_splits, value_names};
use axiom_strategy::decisions::equal_orders::equal_order;
use axioms::axiom::{Alternative, Axiom};
use base::memory::NoMemory;
use congruence_closure::branch_classes::BranchClasses;
use search::trees::application::Extension;
use std::alloc::Global;
use tableau::branch::PoolBranch;
use tableau::rules::formulas::EntryStep;
use tableau::rules::split::cases_at;
use term_pool::pool::Pool;

// The entry with the least rank below this one at which a case split is due.
#[tactic(auto, using(term_pool::proofs::GrowthLemmas::extends_then))]
fn best_split(
    alloc: Global,
    pool: &mut Pool,
    branch: &PoolBranch,
    ranked: &[RankedSplit],
    below: u32,
) -> Result<Option<usize>, NoMemory>
    requires over { IsOver pool.old branch.now }
    ensures extends { Extends pool.old pool.new }
{
    let mut best = None;
    let mut least = below;
    for split in ranked {
        if split.rank < least && cases_at(alloc, pool, branch, split.entry)?.is_some() {
            best = Some(split.entry);
            least = split.rank;
        }
    }
    Ok(best)
}

// The case split at an entry, if it is due.
fn application_at(
    alloc: Global,
    pool: &mut Pool,
    branch: &PoolBranch,
    entry: usize,
) -> Result<Option<Extension>, NoMemory>
    requires over { IsOver pool.old branch.now }
    ensures extends { Extends pool.old pool.new }
    ensures due { (shapes : List Shape) → IsLate shapes (branch_in pool.old branch.now) → IfOk result (λ found. IfSome found (IsExtensionDue shapes pool.new (branch_in pool.old branch.now))) }
{
    let Some(formulas) = cases_at(alloc, pool, branch, entry)? else {
        return Ok(None);
    };
    let step = EntryStep { entry, formulas };
    Ok(Some(split_application(branch, step)))
}

/// The case split with the least rank below this one, on a branch where nothing earlier is due; `None` if no split has
/// such a rank. `classes` are those of the branch. `NoMemory` if memory runs out.
pub(crate) fn ranked_application(
    alloc: Global,
    pool: &mut Pool,
    branch: &PoolBranch,
    classes: &BranchClasses,
    guess: Option<&Guess>,
    below: u32,
) -> Result<Option<Extension>, NoMemory>
    requires over { IsOver pool.old branch.now }
    requires classes { AreClassesOf pool.old branch.now classes.now }
    ensures extends { Extends pool.old pool.new }
    ensures due { (shapes : List Shape) → IsLate shapes (branch_in pool.old branch.now) → IfOk result (λ found. IfSome found (IsExtensionDue shapes pool.new (branch_in pool.old branch.now))) }
{
    let ranked = ranked_splits(alloc, pool, branch, classes, guess)?;
    let Some(entry) = best_split(alloc, pool, branch, ranked.as_slice(), below)? else {
        return Ok(None);
    };
    application_at(alloc, pool, branch, entry)
}

// A decision on two numbers that have one value among these.
fn equal_application(
    alloc: Global,
    pool: &mut Pool,
    branch: &PoolBranch,
    classes: &BranchClasses,
    guess: &Guess,
) -> Result<Option<Extension>, NoMemory>
    requires over { IsOver pool.old branch.now }
    requires classes { AreClassesOf pool.old branch.now classes.now }
    ensures extends { Extends pool.old pool.new }
    ensures due { (shapes : List Shape) → IfOk result (λ found. IfSome found (IsExtensionDue shapes pool.new (branch_in pool.old branch.now))) }
{
    let names = value_names(alloc, pool, branch, classes, guess)?;
    let Some(order) = equal_order(alloc, pool, branch, classes, names.as_slice())? else {
        return Ok(None);
    };
    let name = Axiom::Cases(Alternative::Trichotomy);
    let application = axiom_application(alloc, name, order.formula, order.generation)?;
    Ok(Some(application))
}

// The same, if there are values.
fn guessed_application(
    alloc: Global,
    pool: &mut Pool,
    branch: &PoolBranch,
    classes: &BranchClasses,
    guess: Option<&Guess>,
) -> Result<Option<Extension>, NoMemory>
    requires over { IsOver pool.old branch.now }
    requires classes { AreClassesOf pool.old branch.now classes.now }
    ensures extends { Extends pool.old pool.new }
    ensures due { (shapes : List Shape) → IfOk result (λ found. IfSome found (IsExtensionDue shapes pool.new (branch_in pool.old branch.now))) }
{
    match guess {
        Some(values) => equal_application(alloc, pool, branch, classes, values),
        None => Ok(None),
    }
}

/// Returns a case split that leaves at most one case neither closed nor false in the last solution of the rows, or a
/// decision on two numbers with one value in this solution; on a branch where nothing earlier is due. `None` does not
/// mean that none is due. `classes` are those of the branch. `NoMemory` if memory runs out.
pub fn promising_application(
    alloc: Global,
    pool: &mut Pool,
    branch: &PoolBranch,
    classes: &BranchClasses,
    guess: Option<&Guess>,
) -> Result<Option<Extension>, NoMemory>
    requires over { IsOver pool.old branch.now }
    requires classes { AreClassesOf pool.old branch.now classes.now }
    ensures extends { Extends pool.old pool.new }
    ensures due { (shapes : List Shape) → IsLate shapes (branch_in pool.old branch.now) → IfOk result (λ found. IfSome found (IsExtensionDue shapes pool.new (branch_in pool.old branch.now))) }
{
    if let Some(application) = ranked_application(alloc, pool, branch, classes, guess, URGENT)? {
        return Ok(Some(application));
    }
    guessed_application(alloc, pool, branch, classes, guess)
}
