//! One step after another.

ghost use Rattle.std.specs.Prelude.{OnOk, IfOk, MatchBool};
ghost use Rattle.term_pool.specs.Pools.{Extends};
ghost use Rattle.tableau.specs.PoolBranches.{branch_in, IsOver};
ghost use Rattle.axiom_instances.specs.StructRows.{HasFewFields};
ghost use Rattle.tree_checks.specs.Kept.{IsKept};
ghost use Rattle.tree_checks.specs.Steps.{HasNumbers, IsTaken, IsNotTaken};

use crate::grown::growing::is_growing;
use crate::grown::keeping::Kept;
use crate::grown::pushing::go_on;
use crate::grown::steps::GrownStep;
use base::memory::NoMemory;
use fol::shapes::Shapes;
use std::alloc::Global;
use tableau::branch::PoolBranch;
use term_pool::pool::Pool;

/// Continues with the branch to which the step leads; returns whether there is one.
pub(crate) fn take(
    alloc: Global,
    pool: &mut Pool,
    shapes: &Shapes,
    branch: &mut PoolBranch,
    kept: &mut Kept,
    step: &GrownStep,
) -> Result<bool, NoMemory>
    requires few { HasFewFields shapes.now }
    requires over { IsOver pool.old branch.old }
    requires kept { IsKept pool.old branch.old.entries kept.old }
    requires numbers { HasNumbers pool.old step.now.extension }
    ensures extends { Extends pool.old pool.new }
    ensures over { OnOk result (IsOver pool.new branch.new) }
    ensures kept { OnOk result (IsKept pool.new branch.new.entries kept.new) }
    ensures exact { IfOk result (λ known. MatchBool known (IsTaken shapes.now pool.old (branch_in pool.old branch.old) step.now (branch_in pool.new branch.new)) (IsNotTaken shapes.now pool.old (branch_in pool.old branch.old) step.now)) }
{
    let growing = is_growing(alloc, pool, shapes, branch, kept, &step.extension)?;
    if !growing {
        return Ok(false);
    }
    let known = go_on(alloc, pool, branch, &step.extension, step.case)?;
    Ok(known)
}
