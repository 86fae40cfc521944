//! Numbers as lists of digits, the least one first.

ghost use Rattle.std.specs.Prelude.{◌≡◌, ◌↔◌, ◌≤◌, ◌+◌, ◌*◌, ◌^◌, IsTrue, IfOk, slice_index};
ghost use Rattle.step_checks.specs.Digits.{number_of};

use base::memory::NoMemory;
use std::alloc::Global;

// The base: each digit counts this many times the one before it.
pub(crate) const BASE: u128 = 1 << 64;

// A digit of a number; 0 past the last one.
fn digit_at(digits: &[u64], position: usize) -> u64
    ensures { result ≡ slice_index digits.now position }
{
    digits.get(position).copied().unwrap_or(0)
}

/// The product of a number and a digit.
pub(crate) fn times_digit(alloc: Global, digits: &[u64], factor: u64) -> Result<Vec<u64>, NoMemory>
    ensures { IfOk result (λ product. number_of product.items ≡ number_of digits.now * factor) }
{
    let mut product = Vec::with_capacity(alloc, digits.len())?;
    let mut carry: u64 = 0;
    for digit in digits {
        let sum = u128::from(*digit) * u128::from(factor) + u128::from(carry);
        product.push((sum % BASE) as u64)?;
        carry = (sum / BASE) as u64;
    }
    product.push(carry)?;
    Ok(product)
}

/// The number times the base.
pub(crate) fn moved_up(alloc: Global, digits: &[u64]) -> Result<Vec<u64>, NoMemory>
    ensures { IfOk result (λ moved. number_of moved.items ≡ 2 ^ 64 * number_of digits.now) }
{
    let mut moved = Vec::with_capacity(alloc, digits.len())?;
    moved.push(0)?;
    moved.extend_from_slice(digits)?;
    Ok(moved)
}

/// The sum of two numbers.
pub(crate) fn sum(alloc: Global, left: &[u64], right: &[u64]) -> Result<Vec<u64>, NoMemory>
    ensures { IfOk result (λ total. number_of total.items ≡ number_of left.now + number_of right.now) }
{
    let count = left.len().max(right.len());
    let mut total = Vec::with_capacity(alloc, count)?;
    let mut carry: u64 = 0;
    for position in 0..count {
        let sum = u128::from(digit_at(left, position))
            + u128::from(digit_at(right, position))
            + u128::from(carry);
        total.push((sum % BASE) as u64)?;
        carry = (sum / BASE) as u64;
    }
    total.push(carry)?;
    Ok(total)
}

/// Decides whether the first number is at most the second.
pub(crate) fn is_at_most(left: &[u64], right: &[u64]) -> bool
    ensures { IsTrue result ↔ (number_of left.now ≤ number_of right.now) }
{
    let mut is_at_most = true;
    for position in 0..left.len().max(right.len()) {
        let digit = digit_at(left, position);
        let other = digit_at(right, position);
        if digit != other {
            is_at_most = digit < other;
        }
    }
    is_at_most
}
