//! The rows of a branch over classes in a given order.

ghost use Rattle.std.specs.Prelude.{◌≤◌, ℕ, length, IfOk, MatchOption};
ghost use Rattle.fol.specs.FormulaData.{TermData};
ghost use Rattle.certificates.specs.Rows.{IsClassing};
ghost use Rattle.tableau.specs.PoolBranches.{branch_in, IsOver};
ghost use Rattle.row_reasoning.specs.Rows.{AreNames, AreDifferent, IsSetOf, HasNoRows, AreRowsOver};

use crate::rows::{BranchRows, rows_from};
use base::memory::NoMemory;
use indexmap::IndexSet;
use std::alloc::Global;
use tableau::branch::PoolBranch;
use term_pool::pool::Pool;

// The classes as a set, in their order. `None` if one occurs twice.
fn class_set(alloc: Global, given: &[usize]) -> Result<Option<IndexSet<usize>>, NoMemory>
    ensures { IfOk result (λ made. MatchOption made (AreDifferent given.now → ⊥) (λ set. IsSetOf given.now set.keys)) }
{
    let mut set = IndexSet::new(alloc);
    for class in given {
        let (_, is_new) = set.insert_full(*class)?;
        if !is_new {
            return Ok(None);
        }
    }
    Ok(Some(set))
}

/// Returns the rows of the branch over the given classes: unknown k of a row is the k-th class. `None` if the branch
/// has no rows over them: a class occurs twice, or some row has an unknown of another class. `names` gives each term of
/// the branch the representative of its class. `NoMemory` if memory runs out.
pub fn rows_over(
    alloc: Global,
    pool: &Pool,
    branch: &PoolBranch,
    names: &[usize],
    given: &[usize],
) -> Result<Option<BranchRows>, NoMemory>
    requires over { IsOver pool.now branch.now }
    requires named { length pool.now ≤ length names.now }
    ensures { (class : TermData → ℕ) → IsClassing (branch_in pool.now branch.now) class → AreNames pool.now (branch_in pool.now branch.now) class names.now → IfOk result (λ made. MatchOption made (HasNoRows (branch_in pool.now branch.now) class given.now) (AreRowsOver (branch_in pool.now branch.now) class given.now)) }
{
    let Some(classes) = class_set(alloc, given)? else {
        return Ok(None);
    };
    let made = rows_from(alloc, pool, branch, names, classes)?;
    if made.classes.len() == given.len() {
        Ok(Some(made))
    } else {
        Ok(None)
    }
}
