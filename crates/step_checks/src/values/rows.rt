//! The rows of a branch that values must satisfy.

ghost use Rattle.std.specs.Prelude.{IfOk, MatchOption};
ghost use Rattle.tableau.specs.PoolBranches.{branch_in, IsOver};
ghost use Rattle.tableau.specs.Terms.{AreClassesOf};
ghost use Rattle.step_checks.specs.Rows.{HasNoRows, AreValuedRows};

use crate::values::naming::{filled, is_naming};
use base::memory::NoMemory;
use congruence_closure::branch_classes::BranchClasses;
use row_reasoning::given::rows_over;
use row_reasoning::rows::BranchRows;
use search::values::OpenValues;
use std::alloc::Global;
use tableau::branch::PoolBranch;
use term_pool::pool::Pool;

/// The rows of a branch over the classes of values, with representatives for all numbers of the pool.
#[derive(Drop)]
pub struct ValuedRows {
    /// The representatives of the classes of the branch's terms, by the numbers of the pool.
    pub names: Vec<usize>,
    /// The rows, each with its entry, over the classes in the order in which the values have them.
    pub rows: BranchRows,
}

/// Returns the rows of the branch over the classes of the values, with their representatives. `None` if there are no
/// such rows: the representatives are not those of the branch's classes, a class occurs twice, or some row has an
/// unknown of a class that the values lack. `classes` are the branch's.
///
/// # Errors
///
/// Only if memory runs out.
pub fn valued_rows(
    alloc: Global,
    pool: &Pool,
    branch: &PoolBranch,
    classes: &BranchClasses,
    values: &OpenValues,
) -> Result<Option<ValuedRows>, NoMemory>
    requires over { IsOver pool.now branch.now }
    requires classes { AreClassesOf pool.now branch.now classes.now }
    ensures { IfOk result (λ made. MatchOption made (HasNoRows pool.now (branch_in pool.now branch.now) values.now) (AreValuedRows pool.now (branch_in pool.now branch.now) values.now)) }
{
    pool.one_number();
    let given = values.names.as_slice();
    if !is_naming(alloc, pool, branch, classes, given)? {
        return Ok(None);
    }
    let names = filled(alloc, given, pool.len())?;
    let Some(rows) = rows_over(
        alloc,
        pool,
        branch,
        names.as_slice(),
        values.classes.as_slice(),
    )?
    else {
        return Ok(None);
    };
    Ok(Some(ValuedRows { names, rows }))
}
