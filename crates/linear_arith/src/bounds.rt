//! The choice of a value between bounds.

ghost use Rattle.std.specs.Prelude.{◌≡◌, ◌≤◌, unsigned_abs, ◌≢◌, pos, ◌<ℤ◌, ◌≤ℤ◌, ◌*ℤ◌, All, IfSome, IfNone, ◌↔◌, ◌⊎◌, IsTrue, ℤ, FitsSigned};
ghost use Rattle.std.specs.Int.{IsGcd, w128};
ghost use Rattle.linear_arith.specs.declared.bounds.Side.TheVariants.{Lower};
ghost use Rattle.linear_arith.specs.Bounds.{IsOn, IsMetAt, IsAsTight, IsTightest, AreConsistent, AreNonzero, IsBetween};

use crate::numbers::{exact_quotient, floor_quotient, greatest_common_divisor, is_product_less};
use crate::rows::Fraction;

/// A bound of an unknown: `coefficient` times the unknown is at most `bound`.
#[derive(Clone, Copy, Debug)]
pub struct Bound {
    pub coefficient: i128,
    pub bound: i128,
}

/// The side of a bound: above or below the unknown.
#[derive(Clone, Copy, Debug)]
pub enum Side {
    Upper,
    Lower,
}

/// Returns a value that meets the bounds: an integer if one does, and then 0 or the one nearest to a bound; else the
/// least upper bound. None where the least integer that meets the lower bounds is not in 128 bits.
pub fn chosen(unknown: usize, bounds: &[Bound]) -> Option<Fraction>
    requires { AreNonzero bounds.now }
    ensures unknown { IfSome result (λ value. value.unknown ≡ unknown) }
    ensures positive { IfSome result (λ value. pos 0 <ℤ value.denominator) }
    ensures met { AreConsistent bounds.now
        → IfSome result (λ value. All (IsMetAt value.numerator value.denominator) bounds.now) }
    ensures between { IfSome result (IsBetween bounds.now) }
    ensures none { IfNone result ((z : ℤ) → FitsSigned w128 z → All (λ b. IsOn Lower b → IsMetAt z (pos 1) b) bounds.now → ⊥) }
{
    let least = least_whole(bounds)?;
    let Some(upper) = tightest(bounds, Side::Upper) else {
        return Some(Fraction {
            unknown,
            numerator: least.max(0),
            denominator: 1,
        });
    };
    let greatest = floor_quotient(upper.bound, upper.coefficient.unsigned_abs());
    if greatest < least {
        return Some(quotient(unknown, upper));
    }
    Some(Fraction {
        unknown,
        numerator: nearest_to_zero(least, greatest),
        denominator: 1,
    })
}

/// Returns the least integer of 128 bits that meets the lower bounds; none where there is none.
fn least_whole(bounds: &[Bound]) -> Option<i128>
    ensures met { IfSome result (λ least. (z : ℤ) → least ≤ℤ z → All (λ b. IsOn Lower b → IsMetAt z (pos 1) b) bounds.now) }
    ensures least { IfSome result (λ least. (z : ℤ) → FitsSigned w128 z → All (λ b. IsOn Lower b → IsMetAt z (pos 1) b) bounds.now → least ≤ℤ z) }
    ensures none { IfNone result ((z : ℤ) → FitsSigned w128 z → All (λ b. IsOn Lower b → IsMetAt z (pos 1) b) bounds.now → ⊥) }
{
    match tightest(bounds, Side::Lower) {
        Some(lower) => floor_quotient(lower.bound, lower.coefficient.unsigned_abs()).checked_neg(),
        None => Some(i128::MIN),
    }
}

/// Returns the number between two that is nearest to 0.
fn nearest_to_zero(least: i128, greatest: i128) -> i128
    requires { least ≤ℤ greatest }
    ensures least { least ≤ℤ result }
    ensures greatest { result ≤ℤ greatest }
    ensures nearest { (z : ℤ) → least ≤ℤ z → z ≤ℤ greatest → unsigned_abs result ≤ unsigned_abs z }
{
    if least > 0 {
        least
    } else if greatest < 0 {
        greatest
    } else {
        0
    }
}

/// Returns the greatest value that an upper bound permits, in lowest terms.
fn quotient(unknown: usize, upper: Bound) -> Fraction
    requires { pos 0 <ℤ upper.coefficient }
    ensures unknown { result.unknown ≡ unknown }
    ensures positive { pos 0 <ℤ result.denominator }
    ensures value { result.numerator *ℤ upper.coefficient ≡ upper.bound *ℤ result.denominator }
    ensures lowest { IsGcd (unsigned_abs result.numerator) (unsigned_abs result.denominator) 1 }
{
    let common = greatest_common_divisor(
        upper.bound.unsigned_abs(),
        upper.coefficient.unsigned_abs(),
    );
    Fraction {
        unknown,
        numerator: exact_quotient(upper.bound, common),
        denominator: exact_quotient(upper.coefficient, common),
    }
}

/// Returns the tightest bound of one side, or none if that side has no bound.
fn tightest(bounds: &[Bound], side: Side) -> Option<Bound>
    ensures none { IfNone result (All (λ b. ¬ IsOn side b) bounds.now) }
    ensures some { IfSome result (IsTightest side bounds.now) }
{
    let mut best: Option<Bound> = None;
    for bound in bounds {
        if is_on(side, bound) {
            best = Some(tighter(side, best, *bound));
        }
    }
    best
}

/// Returns the tighter one of two bounds of one side, the first of which may be missing.
fn tighter(side: Side, first: Option<Bound>, second: Bound) -> Bound
    requires first { IfSome first (IsOn side) }
    requires second { IsOn side second }
    ensures on_side { IsOn side result }
    ensures one { (first ≡ Some result) ⊎ (result ≡ second) }
    ensures first { IfSome first (IsAsTight result) }
    ensures second { IsAsTight result second }
{
    match first {
        Some(first) if !is_as_tight(&second, &first) => first,
        _ => second,
    }
}

/// Decides whether a bound is on this side.
fn is_on(side: Side, bound: &Bound) -> bool
    ensures { IsTrue result ↔ IsOn side bound.now }
{
    match side {
        Side::Upper => bound.coefficient > 0,
        Side::Lower => bound.coefficient < 0,
    }
}

/// Decides whether the first bound is at least as tight as the second, on the same side.
fn is_as_tight(first: &Bound, second: &Bound) -> bool
    requires { first.now.coefficient ≢ pos 0 }
    ensures { IsTrue result ↔ IsAsTight first.now second.now }
{
    let first_size = first.coefficient.unsigned_abs();
    let second_size = second.coefficient.unsigned_abs();
    let first_bound = first.bound.unsigned_abs();
    let second_bound = second.bound.unsigned_abs();
    match (first.bound >= 0, second.bound >= 0) {
        (true, true) => !is_product_less(second_bound, first_size, first_bound, second_size),
        (true, false) => false,
        (false, true) => true,
        (false, false) => !is_product_less(first_bound, second_size, second_bound, first_size),
    }
}
