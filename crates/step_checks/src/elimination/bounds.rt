//! Bounds on one unknown, and the value chosen between them.

ghost use Rattle.std.specs.Prelude.{◌≡◌, ◌≢◌, ◌↔◌, pos, ◌<ℤ◌, ◌≤ℤ◌, ◌*ℤ◌, IsTrue};
ghost use Rattle.step_checks.specs.Choices.{IsMetAt, AreMetAt, IsReachedAt, HasReached, IsNearest, HasNoWhole, IsBetween};

use linear_arith::numbers::{floor_quotient, greatest_common_divisor, is_product_less};
use linear_arith::rows::Fraction;

/// A bound on an unknown: the coefficient times the unknown is at most the bound.
#[derive(Clone, Copy, Debug)]
pub(crate) struct Bound {
    pub(crate) coefficient: i128,
    pub(crate) bound: i128,
}

/// Decides whether a times b is negative.
fn is_product_negative(a: i128, b: i128) -> bool
    ensures { IsTrue result ↔ ((a *ℤ b) <ℤ pos 0) }
{
    if a < 0 { b > 0 } else { a > 0 && b < 0 }
}

/// Decides whether a times b is at most c times d.
fn is_product_at_most(a: i128, b: i128, c: i128, d: i128) -> bool
    ensures { IsTrue result ↔ ((a *ℤ b) ≤ℤ (c *ℤ d)) }
{
    let a_size = a.unsigned_abs();
    let b_size = b.unsigned_abs();
    let c_size = c.unsigned_abs();
    let d_size = d.unsigned_abs();
    match (is_product_negative(a, b), is_product_negative(c, d)) {
        (false, false) => !is_product_less(c_size, d_size, a_size, b_size),
        (true, true) => !is_product_less(a_size, b_size, c_size, d_size),
        (true, false) => true,
        (false, true) => false,
    }
}

/// Decides whether the fraction satisfies the bound.
fn is_met(bound: &Bound, numerator: i128, denominator: i128) -> bool
    ensures { IsTrue result ↔ IsMetAt numerator denominator bound.now }
{
    is_product_at_most(bound.coefficient, numerator, bound.bound, denominator)
}

/// Decides whether the fraction satisfies all bounds.
fn are_met(bounds: &[Bound], numerator: i128, denominator: i128) -> bool
    ensures { IsTrue result ↔ AreMetAt bounds.now numerator denominator }
{
    for bound in bounds {
        if !is_met(bound, numerator, denominator) {
            return false;
        }
    }
    true
}

/// Decides whether the fraction attains the bound.
fn is_reached(bound: &Bound, numerator: i128, denominator: i128) -> bool
    ensures { IsTrue result ↔ IsReachedAt numerator denominator bound.now }
{
    is_product_at_most(numerator, bound.coefficient, bound.bound, denominator)
        && is_product_at_most(bound.bound, denominator, numerator, bound.coefficient)
}

/// Decides whether the fraction attains one of the bounds.
fn has_reached(bounds: &[Bound], numerator: i128, denominator: i128) -> bool
    ensures { IsTrue result ↔ HasReached bounds.now numerator denominator }
{
    for bound in bounds {
        if is_reached(bound, numerator, denominator) {
            return true;
        }
    }
    false
}

/// Decides whether no whole number that satisfies the bounds is nearer to 0 than this one. The bounds are convex, so
/// the next number towards 0 decides it.
fn is_nearest(bounds: &[Bound], number: i128) -> bool
    requires { AreMetAt bounds.now number (pos 1) }
    ensures { IsTrue result ↔ IsNearest bounds.now number }
{
    if number == 0 {
        return true;
    }
    if number > 0 {
        !are_met(bounds, number - 1, 1)
    } else {
        !are_met(bounds, number + 1, 1)
    }
}

/// Decides whether no whole number satisfies the bounds. The value satisfies them, so the whole numbers on both sides
/// of it decide it.
fn has_no_whole(bounds: &[Bound], value: &Fraction) -> bool
    requires denominator { pos 1 <ℤ value.now.denominator }
    requires met { AreMetAt bounds.now value.now.numerator value.now.denominator }
    ensures { IsTrue result ↔ HasNoWhole bounds.now }
{
    let below = floor_quotient(value.numerator, value.denominator.unsigned_abs());
    if are_met(bounds, below, 1) {
        return false;
    }
    !are_met(bounds, below + 1, 1)
}

/// Decides whether the value is a whole number that satisfies the bounds, with none nearer to 0; or, if no whole number
/// satisfies them, one of the bounds, in lowest terms, that satisfies them all.
pub(crate) fn is_between(bounds: &[Bound], value: &Fraction) -> bool
    ensures { IsTrue result ↔ IsBetween bounds.now value.now }
{
    if value.denominator <= 0 {
        return false;
    }
    if !are_met(bounds, value.numerator, value.denominator) {
        return false;
    }
    if value.denominator == 1 {
        return is_nearest(bounds, value.numerator);
    }
    let common = greatest_common_divisor(
        value.numerator.unsigned_abs(),
        value.denominator.unsigned_abs(),
    );
    if common != 1 {
        return false;
    }
    if !has_reached(bounds, value.numerator, value.denominator) {
        return false;
    }
    has_no_whole(bounds, value)
}
