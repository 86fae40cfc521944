//! Decides whether values are those of a branch.

ghost use Rattle.std.specs.Prelude.{◌↔◌, IsTrue, IfOk};
ghost use Rattle.tableau.specs.PoolBranches.{branch_in, IsOver};
ghost use Rattle.tableau.specs.Terms.{AreClassesOf};
ghost use Rattle.search.specs.Decisions.{IsValued};
ghost use Rattle.step_checks.specs.Rows.{IsMet};

use crate::met_rows::rows::meets_rows;
use crate::values::are_open_values;
use crate::values::rows::valued_rows;
use base::memory::NoMemory;
use congruence_closure::branch_classes::BranchClasses;
use search::values::OpenValues;
use std::alloc::Global;
use tableau::branch::PoolBranch;
use term_pool::pool::Pool;

/// Decides whether the values satisfy the rows of the branch over their classes, with their representatives: the
/// representatives are those of the branch's classes, each class of an unknown in a row is among the values' classes,
/// and these are distinct. `classes` are the branch's.
///
/// # Errors
///
/// Only if memory runs out.
pub fn is_met(
    alloc: Global,
    pool: &Pool,
    branch: &PoolBranch,
    classes: &BranchClasses,
    values: &OpenValues,
) -> Result<bool, NoMemory>
    requires over { IsOver pool.now branch.now }
    requires classes { AreClassesOf pool.now branch.now classes.now }
    ensures { IfOk result (λ known. IsTrue known ↔ IsMet pool.now (branch_in pool.now branch.now) values.now) }
{
    pool.one_number();
    let Some(made) = valued_rows(alloc, pool, branch, classes, values)? else {
        return Ok(false);
    };
    meets_rows(alloc, &made.rows.rows, values.values.as_slice())
}

/// Decides whether the values are those of the branch, as the end of a search shows them: they satisfy its rows over
/// their classes, with their representatives, and are whole for the classes of numbers. `classes` are the branch's.
///
/// # Errors
///
/// Only if memory runs out.
pub fn is_valued(
    alloc: Global,
    pool: &Pool,
    branch: &PoolBranch,
    classes: &BranchClasses,
    values: &OpenValues,
) -> Result<bool, NoMemory>
    requires over { IsOver pool.now branch.now }
    requires classes { AreClassesOf pool.now branch.now classes.now }
    ensures { IfOk result (λ known. IsTrue known ↔ IsValued pool.now (branch_in pool.now branch.now) values.now) }
{
    pool.one_number();
    let Some(made) = valued_rows(alloc, pool, branch, classes, values)? else {
        return Ok(false);
    };
    are_open_values(
        alloc,
        pool,
        branch,
        made.names.as_slice(),
        &made.rows,
        values.values.as_slice(),
    )
}
