//! Arithmetic in 128 bits, common divisors, and quotients rounded down.

ghost use Rattle.std.specs.Prelude.{All, ◌+ℤ◌, ◌-ℤ◌, ◌≡◌, ◌≤◌, ◌<◌, ◌^◌, pos, ◌<ℤ◌, ◌*ℤ◌, ◌*◌, ◌↔◌, IsTrue, unsigned_abs};
ghost use Rattle.std.specs.Int.{IsGcd, ◌∣◌};
ghost use Rattle.linear_arith.specs.Floor.{IsFloor};
ghost use Rattle.linear_arith.specs.Fits.{Fits};
ghost use Rattle.std.specs.Option.{SomeIff};

/// Returns the number. None where it is -2^127, whose negation does not fit.
pub fn fitting(number: i128) -> Option<i128>
    ensures { SomeIff result (Fits number) number }
{
    if number == i128::MIN {
        None
    } else {
        Some(number)
    }
}

/// Decides whether all the numbers fit.
pub fn are_fitting(numbers: &[i128]) -> bool
    ensures { IsTrue result ↔ All Fits numbers.now }
{
    for number in numbers {
        if *number == i128::MIN {
            return false;
        }
    }
    true
}

/// Returns the sum of two numbers. None where it does not fit.
pub fn sum(first: i128, second: i128) -> Option<i128>
    ensures { SomeIff result (Fits (first +ℤ second)) (first +ℤ second) }
{
    match first.checked_add(second) {
        Some(sum) => fitting(sum),
        None => None,
    }
}

/// Returns the first number minus the second. None where the difference does not fit.
pub fn difference(first: i128, second: i128) -> Option<i128>
    ensures { SomeIff result (Fits (first -ℤ second)) (first -ℤ second) }
{
    match first.checked_sub(second) {
        Some(difference) => fitting(difference),
        None => None,
    }
}

/// Returns the product of two numbers. None where it does not fit.
pub fn product(first: i128, second: i128) -> Option<i128>
    ensures { SomeIff result (Fits (first *ℤ second)) (first *ℤ second) }
{
    match first.checked_mul(second) {
        Some(product) => fitting(product),
        None => None,
    }
}

/// Returns the greatest common divisor; 0 if both numbers are 0.
pub fn greatest_common_divisor(a: u128, b: u128) -> u128
    ensures { IsGcd a b result }
{
    if a == 1 {
        return 1;
    }
    let mut greater = a;
    let mut less = b;
    while less != 0 {
        let rest = greater % less;
        greater = less;
        less = rest;
    }
    greater
}

/// Returns the number divided by one of its divisors.
pub fn exact_quotient(number: i128, divisor: u128) -> i128
    requires nonzero { 0 < divisor }
    requires divides { divisor ∣ unsigned_abs number }
    ensures { pos divisor *ℤ result ≡ number }
{
    let size = number.unsigned_abs() / divisor;
    if number >= 0 {
        size as i128
    } else {
        -((size - 1) as i128) - 1
    }
}

/// Returns the greatest integer that is at most `number / divisor`.
pub fn floor_quotient(number: i128, divisor: u128) -> i128
    requires { 0 < divisor }
    ensures { IsFloor number divisor result }
{
    if number >= 0 {
        (number as u128 / divisor) as i128
    } else {
        -(((number.unsigned_abs() - 1) / divisor) as i128) - 1
    }
}

/// Decides whether a times b is less than c times d.
pub fn is_product_less(a: u128, b: u128, c: u128, d: u128) -> bool
    ensures { IsTrue result ↔ (a * b < c * d) }
{
    if b == 0 || c == 0 {
        return b == 0 && c != 0 && d != 0;
    }
    // This is equivalent to a/c being less than d/b. Where both have the same integer part, their fractional parts
    // decide, and the reciprocals of these are compared.
    let (mut left, mut left_by, mut right, mut right_by) = (a, c, d, b);
    loop {
        let whole = left / left_by;
        let other = right / right_by;
        if whole != other {
            return whole < other;
        }
        let left_rest = left % left_by;
        let right_rest = right % right_by;
        if right_rest == 0 {
            return false;
        }
        if left_rest == 0 {
            return true;
        }
        (left, left_by, right, right_by) = (right_by, right_rest, left_by, left_rest);
    }
}
