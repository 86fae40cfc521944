//! Values and rows.

ghost use Rattle.std.specs.Prelude.{◌↔◌, pos, ◌<ℤ◌, IsTrue, IfOk, All};
ghost use Rattle.linear_arith.specs.Answer.{IsSolution};
ghost use Rattle.linear_arith.specs.Substitution.{Meets, ArePositive};

use crate::met_rows::rest::{begun, is_true, with_value};
use base::memory::NoMemory;
use linear_arith::rows::{Fraction, LinRow, Rows};
use std::alloc::Global;

// Decides whether all denominators are at least 1.
fn are_positive(values: &[Fraction]) -> bool
    ensures { IsTrue result ↔ ArePositive values.now }
{
    values.iter().all(|value| value.denominator > 0)
}

// Decides whether the values satisfy a row.
fn meets(alloc: Global, row: &LinRow, values: &[Fraction]) -> Result<bool, NoMemory>
    requires { ArePositive values.now }
    ensures { IfOk result (λ met. IsTrue met ↔ Meets values.now row.now) }
{
    let mut rest = begun(alloc, row)?;
    for value in values {
        rest = with_value(alloc, rest, *value)?;
    }
    Ok(is_true(&rest))
}

/// Decides whether the values satisfy all rows when substituted one after another, in their order: no denominator is
/// below 1, no unknown is left in any row, and 0 is at most what is left of its bound. Of several values of one unknown
/// the first one counts. No intermediate number overflows.
///
/// # Errors
///
/// Only if memory runs out.
pub fn meets_rows(alloc: Global, rows: &Rows, values: &[Fraction]) -> Result<bool, NoMemory>
    ensures { IfOk result (λ met. IsTrue met ↔ IsSolution rows.now values.now) }
{
    if !are_positive(values) {
        return Ok(false);
    }
    for row in rows.as_slice() {
        if !meets(alloc, row, values)? {
            return Ok(false);
        }
    }
    Ok(true)
}
