//! Decides whether a given elimination is complete.

ghost use Rattle.std.specs.Prelude.{◌↔◌, List, All, Contains, IsTrue, IfOk};
ghost use Rattle.linear_arith.specs.Inequality.{Inequality, padded};
ghost use Rattle.step_checks.specs.Given.{IsGivenElimination};
ghost use Rattle.step_checks.specs.Sets.{IsSetOf};

use crate::elimination::GivenElimination;
use crate::elimination::origins::are_of_origins;
use crate::elimination::row_list::rows_in;
use crate::elimination::row_set::{RowSet, set_of};
use crate::elimination::rows::greatest_width;
use crate::elimination::stages::{has_each_sum, no_unknown_is_left};
use base::memory::NoMemory;
use linear_arith::rows::{LinRow, Rows};
use std::alloc::Global;

/// An elimination has fewer distinct rows than this, over all its stages.
const MOST_ROWS: usize = 5000;

/// Decides whether the given rows are among those of the elimination.
fn has_given_rows(
    alloc: Global,
    width: usize,
    given: &[LinRow],
    found: &RowSet,
) -> Result<bool, NoMemory>
    ensures { (rows : List Inequality) → IsSetOf rows found.now → IfOk result (λ has. IsTrue has ↔ All (λ row. Contains rows (padded width row)) given.now) }
{
    for row in given {
        let padded = row.padded(alloc, width)?;
        if !found.has(alloc, &padded)? {
            return Ok(false);
        }
    }
    Ok(true)
}

/// Decides whether a given elimination of the rows is complete, with fewer than 5,000 distinct rows: each of its rows
/// is what its origin says, by earlier rows; the given rows are among them; and so is the sum of any two rows of one
/// stage that eliminates the next unknown, without overflow of 128 bits in between. The rows have no unknowns but the
/// eliminated ones.
///
/// # Errors
///
/// Only if memory runs out.
pub fn is_complete_elimination(
    alloc: Global,
    rows: &Rows,
    given: &GivenElimination,
) -> Result<bool, NoMemory>
    ensures { IfOk result (λ is. IsTrue is ↔ IsGivenElimination rows.now given.now) }
{
    if given.rows.len() >= MOST_ROWS {
        return Ok(false);
    }
    let unknowns = given.unknowns.as_slice();
    let width = greatest_width(rows.as_slice());
    if !are_of_origins(
        alloc,
        width,
        rows.as_slice(),
        unknowns,
        given.rows.as_slice(),
    )? {
        return Ok(false);
    }
    let made = rows_in(alloc, given.rows.as_slice())?;
    let Some(found) = set_of(alloc, &made)? else {
        return Ok(false);
    };
    if !has_given_rows(alloc, width, rows.as_slice(), &found)? {
        return Ok(false);
    }
    if !has_each_sum(alloc, unknowns, &made, &found)? {
        return Ok(false);
    }
    Ok(no_unknown_is_left(unknowns, &made))
}
