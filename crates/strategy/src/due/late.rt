//! The applications that come last: case splits and cuts.

ghost use Rattle.std.specs.Prelude.{◌≡◌, ◌∷◌, [], List, IfOk, MatchOption};
ghost use Rattle.fol.specs.declared.shapes.Shape.{Shape};
ghost use Rattle.term_pool.specs.Pools.{Extends};
ghost use Rattle.certificates.specs.BranchesBranch.{IsTerm, IsGeneration};
ghost use Rattle.certificates.specs.ProofTraces.{IsLate};
ghost use Rattle.tableau.specs.PoolBranches.{branch_in, IsOver, IsTermNumber};
ghost use Rattle.tableau.specs.Terms.{AreClassesOf};
ghost use Rattle.axiom_strategy.specs.Cuts.{IsCut};
ghost use Rattle.search.specs.Applications.{term_at};
ghost use Rattle.search.specs.Decisions.{NothingLate, IsExtensionDue};

use crate::due::extensions::split_application;
use crate::due::promising::ranked_application;
use crate::ranks::guess::Guess;
use axiom_strategy::decisions::cuts::{CutStep, next_cut};
use base::memory::NoMemory;
use congruence_closure::branch_classes::BranchClasses;
use search::trees::application::{Extension, Reason};
use std::alloc::Global;
use tableau::branch::PoolBranch;
use tableau::rules::split::next_split;
use term_pool::node::{Node, One};
use term_pool::pool::Pool;

// The generation of a term of the branch.
fn generation_of(pool: &Pool, branch: &PoolBranch, term: usize) -> usize
    requires over { IsOver pool.now branch.now }
    requires term { IsTermNumber pool.now term }
    ensures { IsTerm (branch_in pool.now branch.now) (term_at pool.now term) → IsGeneration (branch_in pool.now branch.now) (term_at pool.now term) result }
{
    match branch.generation(pool, term) {
        Some(generation) => generation,
        None => 0,
    }
}

// An equation and its negation.
fn cases(alloc: Global, equation: usize, denial: usize) -> Result<Vec<usize>, NoMemory>
    ensures { IfOk result (λ formulas. formulas.items ≡ equation ∷ denial ∷ []) }
{
    let mut formulas = Vec::new(alloc);
    formulas.push(equation)?;
    formulas.push(denial)?;
    Ok(formulas)
}

// The cut on whether two terms are equal.
fn cut_application(
    alloc: Global,
    pool: &mut Pool,
    branch: &PoolBranch,
    step: CutStep,
) -> Result<Extension, NoMemory>
    requires over { IsOver pool.old branch.now }
    requires cut { IsCut pool.old (branch_in pool.old branch.now) step }
    ensures extends { Extends pool.old pool.new }
    ensures due { IfOk result (λ extension. (shapes : List Shape) → IsLate shapes (branch_in pool.old branch.now) → IsExtensionDue shapes pool.new (branch_in pool.old branch.now) extension) }
{
    let left = generation_of(pool, branch, step.left);
    let right = generation_of(pool, branch, step.right);
    let denial = pool.insert(Node::One(One::Not, step.equation))?;
    let formulas = cases(alloc, step.equation, denial)?;
    Ok(Extension {
        reason: Reason::Cut(step.left, step.right),
        generation: left.max(right),
        formulas,
    })
}

// The first case split or cut that is due on a branch where nothing earlier is due; `None` if neither is due.
fn first_late_application(
    alloc: Global,
    pool: &mut Pool,
    branch: &PoolBranch,
    classes: &BranchClasses,
) -> Result<Option<Extension>, NoMemory>
    requires over { IsOver pool.old branch.now }
    requires classes { AreClassesOf pool.old branch.now classes.now }
    ensures extends { Extends pool.old pool.new }
    ensures due { (shapes : List Shape) → IsLate shapes (branch_in pool.old branch.now) → IfOk result (λ found. MatchOption found (NothingLate (branch_in pool.old branch.now)) (IsExtensionDue shapes pool.new (branch_in pool.old branch.now))) }
{
    if let Some(split) = next_split(alloc, pool, branch, 0)? {
        return Ok(Some(split_application(branch, split)));
    }
    let Some(cut) = next_cut(alloc, pool, branch, classes)? else {
        return Ok(None);
    };
    Ok(Some(cut_application(alloc, pool, branch, cut)?))
}

/// Returns a case split or a cut on a branch where nothing earlier is due; `None` if neither is due. The split that
/// leaves the fewest open cases comes first. `classes` are those of the branch. `NoMemory` if memory runs out.
pub fn late_application(
    alloc: Global,
    pool: &mut Pool,
    branch: &PoolBranch,
    classes: &BranchClasses,
    guess: Option<&Guess>,
) -> Result<Option<Extension>, NoMemory>
    requires over { IsOver pool.old branch.now }
    requires classes { AreClassesOf pool.old branch.now classes.now }
    ensures extends { Extends pool.old pool.new }
    ensures due { (shapes : List Shape) → IsLate shapes (branch_in pool.old branch.now) → IfOk result (λ found. MatchOption found (NothingLate (branch_in pool.old branch.now)) (IsExtensionDue shapes pool.new (branch_in pool.old branch.now))) }
{
    if let Some(application) = ranked_application(alloc, pool, branch, classes, guess, u32::MAX)? {
        return Ok(Some(application));
    }
    first_late_application(alloc, pool, branch, classes)
}
