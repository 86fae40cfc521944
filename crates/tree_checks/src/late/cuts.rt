//! Cuts on the equality of two terms.

ghost use Rattle.std.specs.Prelude.{◌↔◌, List, IsTrue, IfOk};
ghost use Rattle.fol.specs.declared.shapes.Shape.{Shape};
ghost use Rattle.term_pool.specs.Pools.{Extends};
ghost use Rattle.certificates.specs.ProofTraces.{CutApplication, IsDueApplication, IsLate};
ghost use Rattle.tableau.specs.PoolBranches.{branch_in, IsTermNumber, IsOver};
ghost use Rattle.tableau.specs.Terms.{term_at, AreClassesOf};

use base::memory::NoMemory;
use congruence_closure::branch_classes::BranchClasses;
use std::alloc::Global;
use step_checks::decisions::cuts::is_cut_due;
use step_checks::decisions::numbers::is_generation_of;
use tableau::branch::PoolBranch;
use term_pool::pool::Pool;

/// Decides whether a cut on the equality of the two terms, with this generation, is an application that is due, given
/// by `late` whether a late application may come on the branch. `classes` are those of the branch.
///
/// # Errors
///
/// Only if memory runs out.
pub fn is_cut_application_due(
    alloc: Global,
    pool: &mut Pool,
    branch: &PoolBranch,
    classes: &BranchClasses,
    left: usize,
    right: usize,
    generation: usize,
    late: bool,
) -> Result<bool, NoMemory>
    requires over { IsOver pool.old branch.now }
    requires classes { AreClassesOf pool.old branch.now classes.now }
    requires left { IsTermNumber pool.old left }
    requires right { IsTermNumber pool.old right }
    ensures extends { Extends pool.old pool.new }
    ensures exact { (shapes : List Shape) → (IsTrue late ↔ IsLate shapes (branch_in pool.old branch.now)) → IfOk result (λ known. IsTrue known ↔ IsDueApplication shapes (branch_in pool.old branch.now) (CutApplication (term_at pool.old left) (term_at pool.old right) generation)) }
    ensures shown { (shapes : List Shape) → (IsTrue late → IsLate shapes (branch_in pool.old branch.now)) → IfOk result (λ known. IsTrue known → IsDueApplication shapes (branch_in pool.old branch.now) (CutApplication (term_at pool.old left) (term_at pool.old right) generation)) }
{
    if !late {
        return Ok(false);
    }
    let fits = is_generation_of(pool, branch, left, right, generation);
    if !fits {
        return Ok(false);
    }
    let due = is_cut_due(alloc, pool, branch, classes, left, right)?;
    Ok(due)
}
