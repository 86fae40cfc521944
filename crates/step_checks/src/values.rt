//! Values of a branch's rows.

pub mod laws;
pub mod naming;
pub mod rows;
pub mod valued;

ghost use Rattle.std.specs.Prelude.{◌≤◌, ◌↔◌, ℕ, length, IsTrue, IfOk};
ghost use Rattle.fol.specs.FormulaData.{TermData};
ghost use Rattle.tableau.specs.PoolBranches.{branch_in, IsOver};
ghost use Rattle.row_reasoning.specs.Rows.{AreNames};
ghost use Rattle.step_checks.specs.Checked.{AreOpenValues};

use crate::met_rows::rows::meets_rows;
use base::memory::NoMemory;
use linear_arith::rows::Fraction;
use row_reasoning::rows::BranchRows;
use row_reasoning::values::bounds::next_bound;
use std::alloc::Global;
use tableau::branch::PoolBranch;
use term_pool::pool::Pool;

/// Decides whether the values satisfy the rows when substituted one after another, and are whole for the classes of
/// which an entry states that a term is a whole number. `names` gives each term of the branch the representative of its
/// class, and unknown k of the rows is the k-th of their classes. No intermediate number overflows.
///
/// # Errors
///
/// Only if memory runs out.
pub fn are_open_values(
    alloc: Global,
    pool: &Pool,
    branch: &PoolBranch,
    names: &[usize],
    rows: &BranchRows,
    values: &[Fraction],
) -> Result<bool, NoMemory>
    requires over { IsOver pool.now branch.now }
    requires named { length pool.now ≤ length names.now }
    ensures { (class : TermData → ℕ) → AreNames pool.now (branch_in pool.now branch.now) class names.now → IfOk result (λ known. IsTrue known ↔ AreOpenValues (branch_in pool.now branch.now) class rows.now values.now) }
{
    if !meets_rows(alloc, &rows.rows, values)? {
        return Ok(false);
    }
    let bound = next_bound(alloc, pool, branch, names, &rows.classes, values)?;
    Ok(bound.is_none())
}
