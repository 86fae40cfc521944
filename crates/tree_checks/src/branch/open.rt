//! Decides whether a branch is open.

ghost use Rattle.std.specs.Prelude.{◌↔◌, IsTrue, IfOk};
ghost use Rattle.term_pool.specs.Pools.{Extends};
ghost use Rattle.certificates.specs.Due.{IsSaturated};
ghost use Rattle.tableau.specs.PoolBranches.{branch_in, IsOver};
ghost use Rattle.axiom_instances.specs.StructRows.{HasFewFields};
ghost use Rattle.axiom_strategy.specs.Families.{HasVariable};
ghost use Rattle.search.specs.Decisions.{IsValued};

use base::memory::NoMemory;
use fol::shapes::Shapes;
use search::values::OpenValues;
use std::alloc::Global;
use step_checks::values::valued::is_valued;
use strategy::saturation::is_saturated;
use tableau::branch::PoolBranch;
use tableau::state::BranchState;
use term_pool::pool::Pool;

// Decides whether the values satisfy the rows and are whole for numbers.
fn are_valued(
    alloc: Global,
    pool: &Pool,
    branch: &PoolBranch,
    values: &OpenValues,
) -> Result<bool, NoMemory>
    requires { IsOver pool.now branch.now }
    ensures { IfOk result (λ known. IsTrue known ↔ IsValued pool.now (branch_in pool.now branch.now) values.now) }
{
    let mut state = BranchState::new(alloc);
    state.follow_classes(alloc, pool, branch)?;
    is_valued(alloc, pool, branch, &state.classes, values)
}

/// Decides whether the branch is open with these values, as the end of a search shows it: it is saturated, and the
/// values satisfy its rows over their classes, with their representatives, and are whole for the classes of numbers.
/// Some variable is free in none of its entries, and each struct shape has fewer than 2^32 fields.
///
/// # Errors
///
/// Only if memory runs out.
pub fn is_open(
    alloc: Global,
    pool: &mut Pool,
    shapes: &Shapes,
    branch: &PoolBranch,
    values: &OpenValues,
) -> Result<bool, NoMemory>
    requires few { HasFewFields shapes.now }
    requires over { IsOver pool.old branch.now }
    requires room { HasVariable (branch_in pool.old branch.now) }
    ensures extends { Extends pool.old pool.new }
    ensures exact { IfOk result (λ known. IsTrue known ↔ (IsSaturated shapes.now (branch_in pool.old branch.now) × IsValued pool.old (branch_in pool.old branch.now) values.now)) }
{
    if !are_valued(alloc, pool, branch, values)? {
        return Ok(false);
    }
    is_saturated(alloc, pool, shapes, branch)
}
