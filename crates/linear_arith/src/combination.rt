//! Linear combinations of constraints.

ghost use Rattle.std.specs.Prelude.{◌≡◌, ℕ, ◌<◌, length, pos, false, IsTrue, IfOk, ◌+ℤ◌, ◌*ℤ◌};
ghost use Rattle.std.specs.Option.{SomeIff};
ghost use Rattle.linear_arith.specs.Combination.{IsAdded, combination, CombinesWithin, number, IsAddedTo, AddedLeaves};

use crate::numbers::{fitting, product, sum};
use crate::packed::Packed;
use crate::rows::LinRow;
use base::memory::NoMemory;
use std::alloc::Global;

/// Returns the total plus a product. None where the product or the sum is not in 128 bits.
pub fn plus_product(total: i128, multiplier: i128, number: i128) -> Option<i128>
    ensures { SomeIff result (IsAdded total (multiplier *ℤ number)) (total +ℤ (multiplier *ℤ number)) }
{
    if multiplier == 0 || number == 0 {
        return fitting(total);
    }
    if multiplier == 1 {
        return match fitting(number) {
            Some(number) => sum(total, number),
            None => None,
        };
    }
    match product(multiplier, number) {
        Some(product) => sum(total, product),
        None => None,
    }
}

/// Returns the combination of constraints by multipliers, with the coefficients of the first `width` unknowns. None
/// where an intermediate product or sum is not in 128 bits.
pub fn combined(
    alloc: Global,
    width: usize,
    multipliers: &Packed,
    rows: &[LinRow],
) -> Result<Option<LinRow>, NoMemory>
    requires { length multipliers.now ≡ length rows.now }
    ensures { IfOk result (λ made. SomeIff made (CombinesWithin width multipliers.now rows.now) (combination width multipliers.now rows.now)) }
{
    let mut totals = vec![in alloc; 0i128; width]?;
    let mut bound: i128 = 0;
    let mut walk = multipliers.walk();
    let mut i = 0;
    while walk.zeros < rows.len() - i {
        let zeros = walk.zeros;
        walk.skip(zeros);
        i += zeros;
        let row = &rows[i];
        let multiplier = walk.next();
        if !add_row(&mut totals, multiplier, row) {
            return Ok(None);
        }
        let Some(more) = plus_product(bound, multiplier, row.bound()) else {
            return Ok(None);
        };
        bound = more;
        i += 1;
    }
    Ok(Some(LinRow::new(totals, bound)))
}

/// Adds a multiple of a constraint's coefficients to the totals, and returns whether each product and each sum is in
/// 128 bits. Where one is not, the totals are meaningless.
fn add_row(totals: &mut Vec<i128>, multiplier: i128, row: &LinRow) -> bool
    ensures len { length totals.new.items ≡ length totals.old.items }
    ensures added { IsTrue result → (u : ℕ) → u < length totals.old.items → IsAddedTo multiplier u row.now (number u totals.old.items) (number u totals.new.items) }
    ensures leaves { result ≡ false → AddedLeaves multiplier row.now totals.old.items }
{
    for unknown in 0..totals.len() {
        let Some(total) = plus_product(totals[unknown], multiplier, row.coefficient(unknown)) else {
            return false;
        };
        totals[unknown] = total;
    }
    true
}
