//! Decides whether rows are what their origins say.

ghost use Rattle.std.specs.Prelude.{◌↔◌, ◌≤◌, length, IsTrue, IfOk};
ghost use Rattle.step_checks.specs.Given.{IsGivenRow, IsOfStage, IsSumOfTwo, IsOfOrigin, AreOfOrigins};

use crate::elimination::rows::{are_same, is_without};
use crate::elimination::sums::sum_of_two;
use crate::elimination::{GivenRow, Origin, Summands};
use base::memory::NoMemory;
use linear_arith::rows::LinRow;
use std::alloc::Global;

/// Decides whether the row is that row of the system, with this many coefficients.
fn is_given_row(
    alloc: Global,
    width: usize,
    rows: &[LinRow],
    i: usize,
    row: &LinRow,
) -> Result<bool, NoMemory>
    ensures { IfOk result (λ is. IsTrue is ↔ IsGivenRow width rows.now i row.now) }
{
    let Some(given) = rows.get(i) else {
        return Ok(false);
    };
    let padded = given.padded(alloc, width)?;
    Ok(are_same(row, &padded))
}

/// Decides whether the row belongs to the stage after the elimination of the first `stage` unknowns.
fn is_of_stage(unknowns: &[usize], stage: usize, made: &GivenRow) -> bool
    requires { stage ≤ length unknowns.now }
    ensures { IsTrue result ↔ IsOfStage unknowns.now stage made.now }
{
    let is_earlier = match made.origin {
        Origin::Given(_) => true,
        Origin::Sum(of) => of.step < stage,
    };
    is_earlier && is_without(&unknowns[..stage], &made.row)
}

/// Decides whether the row is the sum of these two earlier rows.
fn is_sum_of_two(
    alloc: Global,
    unknowns: &[usize],
    before: &[GivenRow],
    of: Summands,
    row: &LinRow,
) -> Result<bool, NoMemory>
    ensures { IfOk result (λ is. IsTrue is ↔ IsSumOfTwo unknowns.now before.now of row.now) }
{
    let Some(unknown) = unknowns.get(of.step) else {
        return Ok(false);
    };
    let Some(upper) = before.get(of.upper) else {
        return Ok(false);
    };
    let Some(lower) = before.get(of.lower) else {
        return Ok(false);
    };
    if !is_of_stage(unknowns, of.step, upper) || !is_of_stage(unknowns, of.step, lower) {
        return Ok(false);
    }
    match sum_of_two(alloc, *unknown, &upper.row, &lower.row)? {
        Some(sum) => Ok(are_same(row, &sum)),
        None => Ok(false),
    }
}

/// Decides whether the row is what its origin says.
fn is_of_origin(
    alloc: Global,
    width: usize,
    rows: &[LinRow],
    unknowns: &[usize],
    before: &[GivenRow],
    made: &GivenRow,
) -> Result<bool, NoMemory>
    ensures { IfOk result (λ is. IsTrue is ↔ IsOfOrigin width rows.now unknowns.now before.now made.now.origin made.now.row) }
{
    match made.origin {
        Origin::Given(i) => is_given_row(alloc, width, rows, i, &made.row),
        Origin::Sum(of) => is_sum_of_two(alloc, unknowns, before, of, &made.row),
    }
}

/// Decides whether each row is what its origin says.
pub(crate) fn are_of_origins(
    alloc: Global,
    width: usize,
    rows: &[LinRow],
    unknowns: &[usize],
    made: &[GivenRow],
) -> Result<bool, NoMemory>
    ensures { IfOk result (λ are. IsTrue are ↔ AreOfOrigins width rows.now unknowns.now made.now) }
{
    for k in 0..made.len() {
        if !is_of_origin(alloc, width, rows, unknowns, &made[..k], &made[k])? {
            return Ok(false);
        }
    }
    Ok(true)
}
