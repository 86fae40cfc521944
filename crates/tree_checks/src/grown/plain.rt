//! Steps that apply the alpha or the beta rule to an entry.

ghost use Rattle.std.specs.Prelude.{◌≡◌, ◌↔◌, List, IsTrue, IfOk};
ghost use Rattle.fol.specs.declared.shapes.Shape.{Shape};
ghost use Rattle.term_pool.specs.Pools.{Extends};
ghost use Rattle.tableau.specs.PoolBranches.{branch_in, IsOver};
ghost use Rattle.search.specs.declared.trees.application.Reason.TheVariants.{Parts, Split};
ghost use Rattle.tree_checks.specs.Steps.{HasNumbers, IsGrowing};

use crate::grown::numbers::is_own;
use base::memory::NoMemory;
use search::trees::application::Extension;
use std::alloc::Global;
use step_checks::applications::entries::{are_cases_due, are_parts_due};
use tableau::branch::PoolBranch;
use term_pool::pool::Pool;

/// Decides whether the formulas are the conjuncts of the entry with this number, and due.
pub(crate) fn are_parts_growing(
    alloc: Global,
    pool: &mut Pool,
    branch: &PoolBranch,
    extension: &Extension,
    entry: usize,
) -> Result<bool, NoMemory>
    requires over { IsOver pool.old branch.now }
    requires numbers { HasNumbers pool.old extension.now }
    requires reason { extension.now.reason ≡ Parts entry }
    ensures extends { Extends pool.old pool.new }
    ensures exact { (shapes : List Shape) → IfOk result (λ known. IsTrue known ↔ IsGrowing shapes pool.old (branch_in pool.old branch.now) extension.now) }
{
    let own = is_own(branch, entry, extension.generation);
    if !own {
        return Ok(false);
    }
    let known = are_parts_due(alloc, pool, branch, entry, extension.formulas.as_slice())?;
    Ok(known)
}

/// Decides whether the formulas are the cases of the entry with this number, and the branch may be split there.
pub(crate) fn are_cases_growing(
    alloc: Global,
    pool: &mut Pool,
    branch: &PoolBranch,
    extension: &Extension,
    entry: usize,
) -> Result<bool, NoMemory>
    requires over { IsOver pool.old branch.now }
    requires numbers { HasNumbers pool.old extension.now }
    requires reason { extension.now.reason ≡ Split entry }
    ensures extends { Extends pool.old pool.new }
    ensures exact { (shapes : List Shape) → IfOk result (λ known. IsTrue known ↔ IsGrowing shapes pool.old (branch_in pool.old branch.now) extension.now) }
{
    let own = is_own(branch, entry, extension.generation);
    if !own {
        return Ok(false);
    }
    let known = are_cases_due(alloc, pool, branch, entry, extension.formulas.as_slice())?;
    Ok(known)
}
