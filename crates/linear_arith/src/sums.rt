//! Sums of two lists of numbers by multipliers that cancel an unknown.

ghost use Rattle.std.specs.Prelude.{◌<◌, ◌≡◌, length, pos, ◌<ℤ◌, ◌+ℤ◌, ◌*ℤ◌, IfOk, IfSome, IfNone};
ghost use Rattle.std.specs.Option.{SomeIff};
ghost use Rattle.linear_arith.specs.Inequality.{coefficient};
ghost use Rattle.linear_arith.specs.Closure.{IsSumOf};
ghost use Rattle.linear_arith.specs.Elimination.{Cancels, IsMix, IsLeastMix, MixFits, MixLeaves, as_row};
ghost use Rattle.linear_arith.specs.Reduction.{IsReduced};

use crate::combination::plus_product;
use crate::numbers::{greatest_common_divisor, product, sum};
use crate::packed::Packed;
use crate::reduction::reduced;
use crate::rows::LinRow;
use base::memory::NoMemory;
use std::alloc::Global;

/// The multipliers of two constraints.
#[derive(Clone, Copy, Debug)]
pub struct Weights {
    pub first: u128,
    pub second: u128,
}

/// Returns the least positive multipliers with which a number above 0 and one below cancel.
pub fn cancelling(above: i128, below: i128) -> Weights
    ensures { pos 0 <ℤ above → below <ℤ pos 0 → Cancels above below result.first result.second }
{
    let above = above.unsigned_abs();
    let below = below.unsigned_abs();
    let common = greatest_common_divisor(above, below);
    if common == 0 {
        return Weights {
            first: 1,
            second: 1,
        };
    }
    Weights {
        first: below / common,
        second: above / common,
    }
}

/// Returns the sum of two numbers times their multipliers. None where a multiplier, a product or the sum is not in 128
/// bits.
pub fn mixed_number(weights: Weights, first: i128, second: i128) -> Option<i128>
    ensures { SomeIff result (MixFits weights.first weights.second first second)
        ((pos weights.first *ℤ first) +ℤ (pos weights.second *ℤ second)) }
{
    let Ok(first_weight) = i128::try_from(weights.first) else {
        return None;
    };
    let Ok(second_weight) = i128::try_from(weights.second) else {
        return None;
    };
    match product(first_weight, first) {
        Some(product) => plus_product(product, second_weight, second),
        None => None,
    }
}

/// Returns the same, without products for two numbers of 0 or two multipliers of 1.
fn mixed_at_once(weights: Weights, first: i128, second: i128) -> Option<i128>
    ensures some { IfSome result (λ number. number ≡ (pos weights.first *ℤ first) +ℤ (pos weights.second *ℤ second)) }
    ensures none { IfNone result (¬ (MixFits weights.first weights.second first second)) }
{
    if first == 0 && second == 0 {
        return Some(0);
    }
    if weights.first == 1 && weights.second == 1 {
        return sum(first, second);
    }
    mixed_number(weights, first, second)
}

/// Returns the sum of two lists times their multipliers, number by number. None where one is not in 128 bits.
pub fn mixed(
    alloc: Global,
    weights: Weights,
    first: &[i128],
    second: &[i128],
) -> Result<Option<Vec<i128>>, NoMemory>
    ensures some { IfOk result (λ made. IfSome made (λ ms. IsMix weights.first weights.second first.now second.now ms.items)) }
    ensures none { IfOk result (λ made. IfNone made (MixLeaves weights.first weights.second first.now second.now)) }
{
    let mut numbers = Vec::with_capacity(alloc, first.len())?;
    for k in 0..first.len() {
        let other = second.get(k).copied().unwrap_or(0);
        let Some(number) = mixed_at_once(weights, first[k], other) else {
            return Ok(None);
        };
        numbers.push(number)?;
    }
    Ok(Some(numbers))
}

/// Returns the sum of two lists of `count` numbers times their multipliers, number by number. None where one is not in
/// 128 bits.
fn mixed_lists(
    alloc: Global,
    weights: Weights,
    count: usize,
    first: &Packed,
    second: &Packed,
) -> Result<Option<Packed>, NoMemory>
    requires { length first.now ≡ count }
    ensures some { IfOk result (λ made. IfSome made (λ ms. IsMix weights.first weights.second first.now second.now ms)) }
    ensures none { IfOk result (λ made. IfNone made (MixLeaves weights.first weights.second first.now second.now)) }
{
    let mut numbers = Packed::with_room(alloc, first.room().saturating_add(second.room()))?;
    let mut left = first.walk();
    let mut right = second.walk();
    let mut k = 0;
    loop {
        let zeros = left.zeros.min(right.zeros).min(count - k);
        left.skip(zeros);
        right.skip(zeros);
        numbers.push_zeros(zeros);
        k += zeros;
        if k == count {
            return Ok(Some(numbers));
        }
        let Some(number) = mixed_at_once(weights, left.next(), right.next()) else {
            return Ok(None);
        };
        numbers.push(number)?;
        k += 1;
    }
}

/// Returns the least integers in the ratio of the sum of two lists of `count` numbers times their multipliers. None
/// where an intermediate number is not in 128 bits.
pub fn least_mixed(
    alloc: Global,
    weights: Weights,
    count: usize,
    first: &Packed,
    second: &Packed,
) -> Result<Option<Packed>, NoMemory>
    requires { length first.now ≡ count }
    ensures some { IfOk result (λ made. IfSome made (λ ms. IsLeastMix weights.first weights.second first.now second.now ms)) }
    ensures none { IfOk result (λ made. IfNone made (MixLeaves weights.first weights.second first.now second.now)) }
{
    let Some(numbers) = mixed_lists(alloc, weights, count, first, second)? else {
        return Ok(None);
    };
    Ok(Some(least(alloc, count, numbers)?))
}

/// Returns the least integers in the ratio of these `count` numbers.
fn least(alloc: Global, count: usize, numbers: Packed) -> Result<Packed, NoMemory>
    requires { length numbers ≡ count }
    ensures { IfOk result (λ ms. IsReduced (as_row numbers) (as_row ms)) }
{
    if numbers.has_one() {
        return Ok(numbers);
    }
    let row = LinRow::new(numbers.numbers(alloc, count)?, 0);
    let least = reduced(alloc, row)?.into_coefficients();
    Packed::of(alloc, least.as_slice())
}

/// Returns the sum of two constraints that cancels an unknown, divided by the greatest common divisor of its numbers.
/// It may give none, as it does where an intermediate number is not in 128 bits.
pub fn sum_of_rows(
    alloc: Global,
    unknown: usize,
    upper: &LinRow,
    lower: &LinRow,
) -> Result<Option<LinRow>, NoMemory>
    ensures { length upper.now.coefficients ≡ length lower.now.coefficients → pos 0 <ℤ coefficient unknown upper.now → coefficient unknown lower.now <ℤ pos 0 → IfOk result (λ made. IfSome made (IsSumOf unknown upper.now lower.now)) }
{
    let weights = cancelling(upper.coefficient(unknown), lower.coefficient(unknown));
    let Some(coefficients) = mixed(alloc, weights, upper.coefficients(), lower.coefficients())?
    else {
        return Ok(None);
    };
    let Some(bound) = mixed_number(weights, upper.bound(), lower.bound()) else {
        return Ok(None);
    };
    Ok(Some(reduced(alloc, LinRow::new(coefficients, bound))?))
}
