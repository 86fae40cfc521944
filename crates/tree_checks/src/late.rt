//! Decides whether a late application may come on a branch.

pub mod cuts;
pub mod early;
pub mod splits;

ghost use Rattle.std.specs.Prelude.{◌↔◌, IsTrue, OnOk, IfOk};
ghost use Rattle.term_pool.specs.Pools.{Extends};
ghost use Rattle.certificates.specs.Due.{IsNotClosed};
ghost use Rattle.certificates.specs.ProofTraces.{IsLate};
ghost use Rattle.tableau.specs.PoolBranches.{branch_in, IsOver};
ghost use Rattle.tableau.specs.Variables.{AreAbove};
ghost use Rattle.tableau.specs.Terms.{AreClassesOf};
ghost use Rattle.axiom_instances.specs.StructRows.{HasFewFields};
ghost use Rattle.tree_checks.specs.Late.{IsLateBy};

use crate::late::early::is_nothing_early;
use base::memory::NoMemory;
use closing_rules::clashes::next::next_clash;
use congruence_closure::branch_classes::BranchClasses;
use fol::shapes::Shapes;
use search::values::OpenValues;
use std::alloc::Global;
use step_checks::values::valued::is_met;
use tableau::branch::PoolBranch;
use tableau::names::variables::Variables;
use term_pool::pool::Pool;

// Decides whether nothing closes the branch up to congruence.
fn is_not_closed(
    alloc: Global,
    pool: &Pool,
    branch: &PoolBranch,
    classes: &BranchClasses,
) -> Result<bool, NoMemory>
    requires over { IsOver pool.now branch.now }
    requires classes { AreClassesOf pool.now branch.now classes.now }
    ensures { IfOk result (λ known. IsTrue known ↔ IsNotClosed (branch_in pool.now branch.now)) }
{
    let clash = next_clash(alloc, pool, branch, classes)?;
    Ok(clash.is_none())
}

/// Decides whether these values show that a late application may come on the branch: nothing that comes first is due,
/// nothing closes the branch up to congruence, and the values satisfy its rows over their classes, with their
/// representatives. The branch is then late. `classes` are those of the branch, `variables` is right for it, and each
/// struct shape has fewer than 2^32 fields.
///
/// # Errors
///
/// Only if memory runs out.
pub fn is_late_by(
    alloc: Global,
    pool: &mut Pool,
    shapes: &Shapes,
    branch: &PoolBranch,
    classes: &BranchClasses,
    variables: &mut Variables,
    values: &OpenValues,
) -> Result<bool, NoMemory>
    requires few { HasFewFields shapes.now }
    requires over { IsOver pool.old branch.now }
    requires classes { AreClassesOf pool.old branch.now classes.now }
    requires above { AreAbove pool.old branch.now.entries variables.old }
    ensures extends { Extends pool.old pool.new }
    ensures above { OnOk result (AreAbove pool.new branch.now.entries variables.new) }
    ensures exact { IfOk result (λ known. IsTrue known ↔ IsLateBy shapes.now pool.old (branch_in pool.old branch.now) values.now) }
    ensures late { IfOk result (λ known. IsTrue known → IsLate shapes.now (branch_in pool.old branch.now)) }
{
    let met = is_met(alloc, pool, branch, classes, values)?;
    if !met {
        return Ok(false);
    }
    let is_open = is_not_closed(alloc, pool, branch, classes)?;
    if !is_open {
        return Ok(false);
    }
    let nothing = is_nothing_early(alloc, pool, shapes, branch, variables)?;
    Ok(nothing)
}
