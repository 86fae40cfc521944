//! Decides whether rows contain all sums of two of them that an elimination makes.

ghost use Rattle.std.specs.Prelude.{◌↔◌, List, All, IsTrue, IfOk};
ghost use Rattle.linear_arith.specs.Inequality.{Inequality};
ghost use Rattle.step_checks.specs.Sums.{HasReducedSum};
ghost use Rattle.step_checks.specs.Given.{HasStageSums, HasEachSum, NoUnknownIsLeft};
ghost use Rattle.step_checks.specs.Sets.{IsSetOf};
ghost use Rattle.step_checks.specs.Stages.{AreLowers, HasUpperSums};

use crate::elimination::row_list::RowList;
use crate::elimination::row_set::RowSet;
use crate::elimination::rows::{has_none_left, is_lower, is_upper};
use crate::elimination::sums::sum_of_two;
use base::memory::NoMemory;
use linear_arith::rows::LinRow;
use std::alloc::Global;

/// Decides whether the sum of two rows fits in 128 bits and is one of the rows.
fn has_sum(
    alloc: Global,
    unknown: usize,
    upper: &LinRow,
    lower: &LinRow,
    found: &RowSet,
) -> Result<bool, NoMemory>
    ensures { (rows : List Inequality) → IsSetOf rows found.now → IfOk result (λ has. IsTrue has ↔ HasReducedSum rows unknown upper.now lower.now) }
{
    match sum_of_two(alloc, unknown, upper, lower)? {
        Some(sum) => found.has(alloc, &sum),
        None => Ok(false),
    }
}

/// The rows without some unknowns in which another one has a negative coefficient.
fn lower_rows<'a>(
    alloc: Global,
    eliminated: &[usize],
    unknown: usize,
    rows: &RowList<'a>,
) -> Result<RowList<'a>, NoMemory>
    ensures { IfOk result (AreLowers rows.now eliminated.now unknown) }
{
    let mut lowers = RowList::new(alloc);
    for i in 0..rows.len() {
        let row = rows.at(i);
        if is_lower(eliminated, unknown, row) {
            lowers.push(row)?;
        }
    }
    Ok(lowers)
}

/// Decides whether the sums of a row and each of some others are among the rows.
fn has_sums_with(
    alloc: Global,
    unknown: usize,
    upper: &LinRow,
    lowers: &RowList<'_>,
    found: &RowSet,
) -> Result<bool, NoMemory>
    ensures { (rows : List Inequality) → IsSetOf rows found.now → IfOk result (λ has. IsTrue has ↔ All (HasReducedSum rows unknown upper.now) lowers.now) }
{
    for i in 0..lowers.len() {
        if !has_sum(alloc, unknown, upper, lowers.at(i), found)? {
            return Ok(false);
        }
    }
    Ok(true)
}

/// The same for a row without some unknowns in which the other one has a positive coefficient; true for any other row.
fn has_upper_sums(
    alloc: Global,
    eliminated: &[usize],
    unknown: usize,
    upper: &LinRow,
    lowers: &RowList<'_>,
    found: &RowSet,
) -> Result<bool, NoMemory>
    ensures { (rows : List Inequality) → IsSetOf rows found.now → IfOk result (λ has. IsTrue has ↔ HasUpperSums rows eliminated.now unknown lowers.now upper.now) }
{
    if !is_upper(eliminated, unknown, upper) {
        return Ok(true);
    }
    has_sums_with(alloc, unknown, upper, lowers, found)
}

/// Decides whether the sums of each row of the stage with a positive coefficient of the unknown and each of some others
/// are among the rows.
fn have_upper_sums(
    alloc: Global,
    eliminated: &[usize],
    unknown: usize,
    uppers: &RowList<'_>,
    lowers: &RowList<'_>,
    found: &RowSet,
) -> Result<bool, NoMemory>
    ensures { (rows : List Inequality) → IsSetOf rows found.now → IfOk result (λ have. IsTrue have ↔ All (HasUpperSums rows eliminated.now unknown lowers.now) uppers.now) }
{
    for i in 0..uppers.len() {
        if !has_upper_sums(alloc, eliminated, unknown, uppers.at(i), lowers, found)? {
            return Ok(false);
        }
    }
    Ok(true)
}

/// Decides whether all sums that eliminate an unknown after others are among the rows.
fn has_stage_sums(
    alloc: Global,
    eliminated: &[usize],
    unknown: usize,
    rows: &RowList<'_>,
    found: &RowSet,
) -> Result<bool, NoMemory>
    requires { IsSetOf rows.now found.now }
    ensures { IfOk result (λ has. IsTrue has ↔ HasStageSums rows.now eliminated.now unknown) }
{
    let lowers = lower_rows(alloc, eliminated, unknown, rows)?;
    have_upper_sums(alloc, eliminated, unknown, rows, &lowers, found)
}

/// Decides whether all sums that eliminate the unknowns are among the rows.
pub(crate) fn has_each_sum(
    alloc: Global,
    unknowns: &[usize],
    rows: &RowList<'_>,
    found: &RowSet,
) -> Result<bool, NoMemory>
    requires { IsSetOf rows.now found.now }
    ensures { IfOk result (λ has. IsTrue has ↔ HasEachSum rows.now unknowns.now) }
{
    for step in 0..unknowns.len() {
        if !has_stage_sums(alloc, &unknowns[..step], unknowns[step], rows, found)? {
            return Ok(false);
        }
    }
    Ok(true)
}

/// Decides whether no unknown is left in any row that has none of these.
pub(crate) fn no_unknown_is_left(unknowns: &[usize], rows: &RowList<'_>) -> bool
    ensures { IsTrue result ↔ NoUnknownIsLeft rows.now unknowns.now }
{
    for i in 0..rows.len() {
        if !has_none_left(unknowns, rows.at(i)) {
            return false;
        }
    }
    true
}
