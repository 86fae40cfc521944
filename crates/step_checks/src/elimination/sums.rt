//! The sum of two rows that cancels an unknown.

ghost use Rattle.std.specs.Prelude.{◌≡◌, ℕ, pos, ◌+ℤ◌, ◌*ℤ◌, IfOk, IfSome, IfNone};
ghost use Rattle.std.specs.Option.{SomeIff};
ghost use Rattle.linear_arith.specs.Combination.{number};
ghost use Rattle.linear_arith.specs.Fits.{Fits};
ghost use Rattle.linear_arith.specs.Inequality.{Inequality};
ghost use Rattle.linear_arith.specs.Elimination.{IsMix, MixFits};
ghost use Rattle.step_checks.specs.Sums.{MixesWithin, IsReducedSum};

use base::memory::NoMemory;
use linear_arith::reduction::reduced;
use linear_arith::rows::LinRow;
use linear_arith::sums::{Weights, cancelling, mixed_number};
use std::alloc::Global;

/// Two numbers times their multipliers, added, with no product if both numbers are 0. `None` if a product or the sum
/// overflows 128 bits.
fn mixed_at(weights: Weights, first: i128, second: i128) -> Option<i128>
    requires first { Fits (pos weights.first) }
    requires second { Fits (pos weights.second) }
    ensures { SomeIff result (MixFits weights.first weights.second first second)
        ((pos weights.first *ℤ first) +ℤ (pos weights.second *ℤ second)) }
{
    if first == 0 && second == 0 {
        return Some(0);
    }
    mixed_number(weights, first, second)
}

/// A number of a list; 0 if it is missing.
fn number_at(numbers: &[i128], k: usize) -> i128
    ensures { result ≡ number k numbers.now }
{
    numbers.get(k).copied().unwrap_or(0)
}

/// Two lists times their multipliers, added number by number. `None` if a product or a sum overflows 128 bits.
fn mixed_within(
    alloc: Global,
    weights: Weights,
    first: &[i128],
    second: &[i128],
) -> Result<Option<Vec<i128>>, NoMemory>
    requires first { Fits (pos weights.first) }
    requires second { Fits (pos weights.second) }
    ensures some { IfOk result (λ made. IfSome made (λ ms. IsMix weights.first weights.second first.now second.now ms.items)) }
    ensures within { IfOk result (λ made. IfSome made (λ _. MixesWithin weights.first weights.second first.now second.now)) }
    ensures none { IfOk result (λ made. IfNone made (MixesWithin weights.first weights.second first.now second.now → ⊥)) }
{
    let mut numbers = Vec::with_capacity(alloc, first.len())?;
    for k in 0..first.len() {
        let Some(number) = mixed_at(weights, number_at(first, k), number_at(second, k)) else {
            return Ok(None);
        };
        numbers.push(number)?;
    }
    Ok(Some(numbers))
}

/// The sum of two rows with the least multipliers that cancel an unknown, divided by the greatest common divisor of its
/// numbers. `None` if the unknown's coefficients are not one positive and one negative, or if a number overflows 128
/// bits.
pub(crate) fn sum_of_two(
    alloc: Global,
    unknown: usize,
    upper: &LinRow,
    lower: &LinRow,
) -> Result<Option<LinRow>, NoMemory>
    ensures some { IfOk result (λ made. IfSome made (IsReducedSum unknown upper.now lower.now)) }
    ensures none { IfOk result (λ made. IfNone made ((row : Inequality) → IsReducedSum unknown upper.now lower.now row → ⊥)) }
{
    let above = upper.coefficient(unknown);
    let below = lower.coefficient(unknown);
    if above <= 0 || below >= 0 {
        return Ok(None);
    }
    let weights = cancelling(above, below);
    let Some(bound) = mixed_number(weights, upper.bound(), lower.bound()) else {
        return Ok(None);
    };
    let Some(coefficients) = mixed_within(
        alloc,
        weights,
        upper.coefficients(),
        lower.coefficients(),
    )?
    else {
        return Ok(None);
    };
    Ok(Some(reduced(alloc, LinRow::new(coefficients, bound))?))
}
