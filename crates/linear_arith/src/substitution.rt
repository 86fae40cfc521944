//! The substitution of values in constraints.

ghost use Rattle.std.specs.Prelude.{IfOk, IfErr, IfSome, IfNone, pos, ◌<ℤ◌, ◌≢◌, ◌≡◌, ◌==◌, ℕ, ◌*ℤ◌, ◌-ℤ◌, if◌then◌else◌, slice_index_or, List, Contains};
ghost use Rattle.linear_arith.specs.Fits.{Fits};
ghost use Rattle.linear_arith.specs.Inequality.{Inequality, coefficient};
ghost use Rattle.std.specs.Option.{SomeIff};
ghost use Rattle.linear_arith.specs.Answer.{StopShows};
ghost use Rattle.linear_arith.specs.Rest.{DifferenceWithin, IsPut, IsRest, IsValueRow, PutInLeaves, ScaledLeaves};
ghost use Rattle.linear_arith.specs.Substitution.{ArePositive};
ghost use Rattle.linear_arith.specs.Values.{IsChoosing};

use crate::numbers;
use crate::numbers::{exact_quotient, greatest_common_divisor};
use crate::reduction::reduced;
use crate::rows::{Fraction, LinAnswer, LinRow};
use crate::stop::Stop;
use base::memory::NoMemory;
use std::alloc::Global;

/// Returns the constraint after the substitution of the value for its unknown: the sum of the constraint and of the
/// value as a constraint. None where it is not in 128 bits.
pub fn put_in(alloc: Global, row: &LinRow, value: &Fraction) -> Result<Option<LinRow>, NoMemory>
    requires { pos 0 <ℤ value.now.denominator }
    ensures some { IfOk result (λ made. IfSome made (IsPut row.now value.now)) }
    ensures none { IfOk result (λ made. IfNone made (PutInLeaves row.now value.now)) }
{
    let common = greatest_common_divisor(
        row.coefficient(value.unknown).unsigned_abs(),
        value.denominator.unsigned_abs(),
    );
    let factor = exact_quotient(value.denominator, common);
    let weight = exact_quotient(row.coefficient(value.unknown), common);
    let Some(coefficients) = scaled_without(alloc, row, factor, value.unknown)? else {
        return Ok(None);
    };
    let Some(bound) = difference(factor, row.bound(), weight, value.numerator) else {
        return Ok(None);
    };
    Ok(Some(reduced(alloc, LinRow::new(coefficients, bound))?))
}

/// Returns the difference of two products. None where a product or the difference is not in 128 bits.
fn difference(factor: i128, bound: i128, weight: i128, numerator: i128) -> Option<i128>
    ensures { SomeIff result (DifferenceWithin factor bound weight numerator) ((factor *ℤ bound) -ℤ (weight *ℤ numerator)) }
{
    let Some(left) = numbers::product(factor, bound) else {
        return None;
    };
    let Some(right) = numbers::product(weight, numerator) else {
        return None;
    };
    numbers::difference(left, right)
}

/// Returns the constraint's coefficients times a factor, and 0 for the unknown. None where one is not in 128 bits.
fn scaled_without(
    alloc: Global,
    row: &LinRow,
    factor: i128,
    unknown: usize,
) -> Result<Option<Vec<i128>>, NoMemory>
    ensures some { IfOk result (λ made. IfSome made (λ cs. (k : ℕ) → slice_index_or cs.items k (pos 0) ≡ (if k == unknown then pos 0 else (factor *ℤ coefficient k row.now)))) }
    ensures fits { IfOk result (λ made. IfSome made (λ cs. (k : ℕ) → k ≢ unknown → Fits (factor *ℤ coefficient k row.now))) }
    ensures none { IfOk result (λ made. IfNone made (ScaledLeaves factor unknown row.now)) }
{
    let mut coefficients = Vec::with_capacity(alloc, row.coefficients().len())?;
    for (i, number) in row.coefficients().iter().enumerate() {
        if i == unknown {
            coefficients.push(0)?;
        } else {
            let Some(product) = numbers::product(factor, *number) else {
                return Ok(None);
            };
            coefficients.push(product)?;
        }
    }
    Ok(Some(coefficients))
}

/// Returns the constraint after the substitution of all values, one after another.
pub(crate) fn put_in_all(alloc: Global, row: &LinRow, values: &[Fraction]) -> Result<LinRow, Stop>
    requires { ArePositive values.now }
    ensures ok { IfOk result (IsRest row.now values.now) }
    ensures err { (rows : List Inequality) (choosing : IsChoosing rows values.now) → Contains choosing.complete.found row.now → IfErr result (StopShows rows) }
{
    let mut left = row.try_clone(alloc)?;
    for value in values {
        if left.coefficient(value.unknown) != 0 {
            let Some(next) = put_in(alloc, &left, value)? else {
                return Err(Stop::Answered(LinAnswer::Wide(left, value_row(alloc, value)?)));
            };
            left = next;
        }
    }
    Ok(left)
}

/// Returns a value as a constraint: its denominator times its unknown is at most its numerator.
fn value_row(alloc: Global, value: &Fraction) -> Result<LinRow, NoMemory>
    ensures { IfOk result (IsValueRow value.now) }
{
    let mut coefficients = vec![in alloc; 0i128; value.unknown]?;
    coefficients.push(value.denominator)?;
    Ok(LinRow::new(coefficients, value.numerator))
}
