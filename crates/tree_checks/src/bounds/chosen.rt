//! Decides whether values are chosen after an elimination of rows.

ghost use Rattle.std.specs.Prelude.{◌≡◌, ◌↔◌, All, IsTrue, IfOk, MatchOption};
ghost use Rattle.tree_checks.specs.Chosen.{AreChosenFor, width_of_first, IsWithin, ArePadded};

use base::memory::NoMemory;
use linear_arith::rows::{Fraction, LinRow, Rows};
use std::alloc::Global;
use step_checks::elimination::values::are_given_values;
use step_checks::elimination::{GivenElimination, GivenRow};

// The number of coefficients of the first row; 0 if there is none.
fn width_of_first(made: &[GivenRow]) -> usize
    ensures { result ≡ width_of_first made.now }
{
    match made {
        [] => 0,
        [one, ..] => one.row.coefficients().len(),
    }
}

// Decides whether the row has no unknown from `width` on.
fn is_within(width: usize, row: &LinRow) -> bool
    ensures { IsTrue result ↔ IsWithin width row.now }
{
    for unknown in width..row.coefficients().len() {
        if row.coefficient(unknown) != 0 {
            return false;
        }
    }
    true
}

// The rows with `width` coefficients each. `None` if one has an unknown past them.
fn padded_rows(alloc: Global, width: usize, rows: &[LinRow]) -> Result<Option<Rows>, NoMemory>
    ensures { IfOk result (λ made. MatchOption made (All (IsWithin width) rows.now → ⊥) (ArePadded width rows.now)) }
{
    let mut made = Rows::new(alloc);
    for row in rows {
        if !is_within(width, row) {
            return Ok(None);
        }
        made.push(row.padded(alloc, width)?)?;
    }
    Ok(Some(made))
}

/// Decides whether the values are chosen after the elimination, if it is complete, of rows with the numbers of these
/// and at most `most` coefficients each. Such rows differ in the zeros at their ends, of which only the greatest number
/// of coefficients counts: each row of the elimination has as many.
///
/// # Errors
///
/// Only if memory runs out.
pub(crate) fn are_chosen(
    alloc: Global,
    most: usize,
    rows: &Rows,
    given: &GivenElimination,
    values: &[Fraction],
) -> Result<bool, NoMemory>
    ensures { IfOk result (λ known. IsTrue known ↔ AreChosenFor most rows.now given.now values.now) }
{
    let width = width_of_first(given.rows.as_slice());
    if width > most {
        return Ok(false);
    }
    let Some(padded) = padded_rows(alloc, width, rows.as_slice())? else {
        return Ok(false);
    };
    let known = are_given_values(alloc, &padded, given, values)?;
    Ok(known)
}
