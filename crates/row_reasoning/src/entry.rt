//! Entries as sums.

ghost use Rattle.std.specs.Prelude.{◌≡◌, ◌<◌, ◌≤◌, ℕ, Bool, None, length, IfOk, IfSome, MatchOption};
ghost use Rattle.fol.specs.FormulaData.{TermData};
ghost use Rattle.certificates.specs.Rows.{IsEntryRow};
ghost use Rattle.tableau.specs.PoolBranches.{IsTermNumber};
ghost use Rattle.row_reasoning.specs.Sums.{IsKept, IsSumOf};
ghost use Rattle.row_reasoning.specs.Shapes.{IsNamedUnder};
ghost use Rattle.row_reasoning.specs.Entries.{formula_at, gap_of, row_with, row_over, IsRowSum, LeavesRow, IsEntrySum};

use crate::comparison::{Sides, sides_of};
use crate::memo::nothing_met;
use crate::sum::{LinearSum, constant, joined};
use crate::walk::sum_of;
use base::memory::NoMemory;
use std::alloc::Global;
use term_pool::pool::Pool;

/// A comparison as a sum that is at most 0, or equal to 0 if the comparison is an equation.
#[derive(Drop)]
pub(crate) struct EntrySum {
    pub(crate) sum: LinearSum,
    pub(crate) is_equation: bool,
}

fn gap(is_strict: bool) -> i128
    ensures { result ≡ gap_of is_strict }
{
    if is_strict { 1 } else { 0 }
}

// The lesser side minus the greater one, plus the gap. `None` if a number overflows 128 bits.
fn row_sum(
    alloc: Global,
    lesser: LinearSum,
    greater: LinearSum,
    is_strict: bool,
) -> Result<Option<LinearSum>, NoMemory>
    requires lesser { IsKept lesser }
    requires greater { IsKept greater }
    ensures is { (t u : TermData) (is_equation : Bool) → IsSumOf t lesser → IsSumOf u greater → IfOk result (λ made. MatchOption made (LeavesRow (row_with t u is_strict is_equation)) (IsRowSum (row_with t u is_strict is_equation))) }
    ensures fits { IfOk result (λ made. IfSome made IsKept) }
{
    let gap = constant(alloc, gap(is_strict));
    let Some(difference) = joined(lesser, greater, true)? else {
        return Ok(None);
    };
    joined(difference, gap, false)
}

// The sides as sums over classes. `None` if a number overflows 128 bits.
fn as_sums(
    alloc: Global,
    pool: &Pool,
    names: &[usize],
    sides: Sides,
) -> Result<Option<LinearSum>, NoMemory>
    requires lesser { IsTermNumber pool.now sides.lesser }
    requires greater { IsTermNumber pool.now sides.greater }
    requires named { length pool.now ≤ length names.now }
    ensures is { (class : TermData → ℕ) → IsNamedUnder pool.now sides.lesser class names.now → IsNamedUnder pool.now sides.greater class names.now → IfOk result (λ made. MatchOption made (LeavesRow (row_over pool.now class sides)) (IsRowSum (row_over pool.now class sides))) }
    ensures fits { IfOk result (λ made. IfSome made IsKept) }
{
    let mut memo = nothing_met(alloc);
    let Some(lesser) = sum_of(alloc, pool, names, &mut memo, sides.lesser)? else {
        return Ok(None);
    };
    let Some(greater) = sum_of(alloc, pool, names, &mut memo, sides.greater)? else {
        return Ok(None);
    };
    row_sum(alloc, lesser, greater, sides.is_strict)
}

/// The sum of the entry whose formula has this number. `None` if the formula states no comparison, or if a number of it
/// overflows 128 bits. `NoMemory` if memory runs out.
pub(crate) fn entry_sum(
    alloc: Global,
    pool: &Pool,
    names: &[usize],
    formula: usize,
) -> Result<Option<EntrySum>, NoMemory>
    requires { length pool.now ≤ length names.now }
    ensures is { (class : TermData → ℕ) → IsNamedUnder pool.now formula class names.now → IfOk result (λ made. MatchOption made (IsEntryRow class (formula_at pool.now formula) None) (IsEntrySum class (formula_at pool.now formula))) }
    ensures fits { IfOk result (λ made. IfSome made (λ e. IsKept e.sum)) }
{
    let Some(sides) = sides_of(pool, formula) else {
        return Ok(None);
    };
    let Some(sum) = as_sums(alloc, pool, names, sides)? else {
        return Ok(None);
    };
    Ok(Some(EntrySum {
        sum,
        is_equation: sides.is_equation,
    }))
}
