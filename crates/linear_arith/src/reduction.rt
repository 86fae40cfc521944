//! Constraints divided by the greatest common divisor of their numbers.

ghost use Rattle.std.specs.Prelude.{IfOk, ◌<◌};
ghost use Rattle.linear_arith.specs.Reduction.{DividesRow, IsGcdOfRow, IsReduced, IsTimes};

use crate::numbers::{exact_quotient, greatest_common_divisor};
use crate::rows::LinRow;
use base::memory::NoMemory;
use std::alloc::Global;

/// Returns the constraint with its numbers divided by their greatest common divisor.
pub fn reduced(alloc: Global, row: LinRow) -> Result<LinRow, NoMemory>
    ensures { IfOk result (IsReduced row) }
{
    let divisor = divisor_of(&row);
    if divisor <= 1 {
        Ok(row)
    } else {
        divided(alloc, &row, divisor)
    }
}

/// Returns the greatest common divisor of a constraint's numbers; 0 if all are 0.
fn divisor_of(row: &LinRow) -> u128
    ensures { IsGcdOfRow row.now result }
{
    let mut divisor = row.bound().unsigned_abs();
    for coefficient in row.coefficients() {
        if divisor == 1 {
            return 1;
        }
        divisor = greatest_common_divisor(divisor, coefficient.unsigned_abs());
    }
    divisor
}

/// Returns the constraint with each of its numbers divided by a common divisor.
fn divided(alloc: Global, row: &LinRow, divisor: u128) -> Result<LinRow, NoMemory>
    requires nonzero { 0 < divisor }
    requires divides { DividesRow divisor row.now }
    ensures { IfOk result (λ quotient. IsTimes divisor quotient row.now) }
{
    let mut coefficients = Vec::with_capacity(alloc, row.coefficients().len())?;
    for coefficient in row.coefficients() {
        coefficients.push(exact_quotient(*coefficient, divisor))?;
    }
    Ok(LinRow::new(coefficients, exact_quotient(row.bound(), divisor)))
}
