//! Rows with values substituted.

ghost use Rattle.std.specs.Prelude.{◌≡◌, ◌↔◌, ◌*◌, ◌<◌, pos, ◌<ℤ◌, unsigned_abs, length, IsTrue, IfOk};
ghost use Rattle.linear_arith.specs.Substitution.{LinearForm, form_of, put_in, IsTrueForm};
ghost use Rattle.step_checks.specs.Rests.{IsRestOf, IsWithout};

use crate::met_rows::parts::{are_zero, differ_in_sign, parts_of};
use crate::naturals::natural::BigNatural;
use base::memory::NoMemory;
use linear_arith::rows::{Fraction, LinRow};
use std::alloc::Global;

/// The rest of a row, up to a positive factor.
#[derive(Drop)]
pub(crate) struct Rest {
    /// The coefficients that are left, each of which is to be multiplied by `scale`.
    pub(crate) left: Vec<i128>,
    pub(crate) scale: BigNatural,
    /// The bound is this number minus the next one.
    pub(crate) above: BigNatural,
    pub(crate) below: BigNatural,
}

/// The rest before any substitution: the whole row. `NoMemory` if memory runs out.
pub(crate) fn begun(alloc: Global, row: &LinRow) -> Result<Rest, NoMemory>
    ensures { IfOk result (IsRestOf (form_of row.now)) }
{
    let bound = parts_of(row.bound());
    Ok(Rest {
        left: Vec::from_slice(alloc, row.coefficients())?,
        scale: BigNatural::new(alloc, 1)?,
        above: BigNatural::new(alloc, bound.above)?,
        below: BigNatural::new(alloc, bound.below)?,
    })
}

// The product of three numbers, two of them by their absolute values.
fn product(
    alloc: Global,
    scale: &BigNatural,
    first: i128,
    second: i128,
) -> Result<BigNatural, NoMemory>
    ensures { IfOk result (λ made. made ≡ scale.now * (unsigned_abs first * unsigned_abs second)) }
{
    let once = scale.times(alloc, first.unsigned_abs())?;
    once.times(alloc, second.unsigned_abs())
}

// The rest with a value substituted for an unknown that has this coefficient.
fn without(alloc: Global, rest: Rest, coefficient: i128, value: Fraction) -> Result<Rest, NoMemory>
    requires within { value.unknown < length rest.left.items }
    requires positive { pos 0 <ℤ value.denominator }
    ensures { IfOk result (IsWithout rest coefficient value) }
{
    let denominator = value.denominator.unsigned_abs();
    let Rest {
        mut left,
        scale,
        above,
        below,
    } = rest;
    left[value.unknown] = 0;
    let moved = product(alloc, &scale, coefficient, value.numerator)?;
    let scale = scale.times(alloc, denominator)?;
    let above = above.times(alloc, denominator)?;
    let below = below.times(alloc, denominator)?;
    if differ_in_sign(coefficient, value.numerator) {
        let above = above.plus(alloc, &moved)?;
        return Ok(Rest {
            left,
            scale,
            above,
            below,
        });
    }
    let below = below.plus(alloc, &moved)?;
    Ok(Rest {
        left,
        scale,
        above,
        below,
    })
}

/// The rest with a value substituted for its unknown. `NoMemory` if memory runs out.
pub(crate) fn with_value(alloc: Global, rest: Rest, value: Fraction) -> Result<Rest, NoMemory>
    requires { pos 0 <ℤ value.denominator }
    ensures { (form : LinearForm) → IsRestOf form rest → IfOk result (IsRestOf (put_in form value)) }
{
    if value.unknown >= rest.left.len() {
        return Ok(rest);
    }
    let coefficient = rest.left[value.unknown];
    if coefficient == 0 {
        return Ok(rest);
    }
    without(alloc, rest, coefficient, value)
}

/// Decides whether no unknown is left and 0 is at most the bound.
pub(crate) fn is_true(rest: &Rest) -> bool
    ensures { (form : LinearForm) → IsRestOf form rest.now → IsTrue result ↔ IsTrueForm form }
{
    if !are_zero(rest.left.as_slice()) {
        return false;
    }
    rest.below.is_at_most(&rest.above)
}
