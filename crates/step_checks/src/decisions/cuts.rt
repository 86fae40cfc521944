//! Cuts on the equality of two terms.

ghost use Rattle.std.specs.Prelude.{◌↔◌, ◌<◌, length, IsTrue, IfOk};
ghost use Rattle.term_pool.specs.Pools.{Extends};
ghost use Rattle.certificates.specs.Due.{CutDue};
ghost use Rattle.certificates.specs.Decisions.{IsUndecided};
ghost use Rattle.tableau.specs.PoolBranches.{branch_in, IsTermNumber, IsOver};
ghost use Rattle.tableau.specs.Terms.{term_at, IsBranchTerm, AreClassesOf};
ghost use Rattle.axiom_strategy.specs.Cuts.{IsShallowTerm};

use crate::decisions::denials::is_denied;
use crate::decisions::indexes::are_indexes;
use crate::decisions::numbers::are_numbers;
use base::memory::NoMemory;
use congruence_closure::branch_classes::BranchClasses;
use std::alloc::Global;
use tableau::branch::PoolBranch;
use term_pool::pool::{MOST_DEPTH, Pool};

// Decides whether the term is shallow enough for the negation of an equation with it.
fn is_shallow(pool: &Pool, term: usize) -> bool
    requires { term < length pool.now }
    ensures { IsTrue result ↔ IsShallowTerm pool.now term }
{
    pool.depth(term) + 2 <= MOST_DEPTH
}

// Decides whether the equality of the two terms is open.
fn is_undecided(
    pool: &Pool,
    branch: &PoolBranch,
    classes: &BranchClasses,
    left: usize,
    right: usize,
) -> bool
    requires over { IsOver pool.now branch.now }
    requires classes { AreClassesOf pool.now branch.now classes.now }
    requires left { IsBranchTerm pool.now (branch_in pool.now branch.now) left }
    requires right { IsBranchTerm pool.now (branch_in pool.now branch.now) right }
    ensures { IsTrue result ↔ IsUndecided (branch_in pool.now branch.now) (term_at pool.now left) (term_at pool.now right) }
{
    classes.exact();
    pool.one_number();
    let one = classes.class(left);
    let other = classes.class(right);
    if one == other {
        return false;
    }
    !is_denied(pool, branch, classes, left, right)
}

/// Decides whether a cut on the equality of the two terms is due: both are indexes of aliasing memories or vectors,
/// entries do not state that both are numbers, their equality is open, and the negation of their equation is no deeper
/// than a step may add. At what time a cut may be applied, and with which generation, is not checked here. `classes`
/// are those of the branch.
///
/// # Errors
///
/// Only if memory runs out.
pub fn is_cut_due(
    alloc: Global,
    pool: &mut Pool,
    branch: &PoolBranch,
    classes: &BranchClasses,
    left: usize,
    right: usize,
) -> Result<bool, NoMemory>
    requires over { IsOver pool.old branch.now }
    requires classes { AreClassesOf pool.old branch.now classes.now }
    requires left { IsTermNumber pool.old left }
    requires right { IsTermNumber pool.old right }
    ensures extends { Extends pool.old pool.new }
    ensures exact { IfOk result (λ known. IsTrue known ↔ CutDue (branch_in pool.old branch.now) (term_at pool.old left) (term_at pool.old right)) }
{
    classes.exact();
    pool.one_number();
    let triggered = are_indexes(alloc, pool, branch, classes, left, right)?;
    if !triggered {
        return Ok(false);
    }
    if !is_undecided(pool, branch, classes, left, right) {
        return Ok(false);
    }
    if !is_shallow(pool, left) {
        return Ok(false);
    }
    if !is_shallow(pool, right) {
        return Ok(false);
    }
    let numbers = are_numbers(pool, branch, left, right)?;
    Ok(!numbers)
}
