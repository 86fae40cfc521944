//! Numbers of 128 bits by their absolute values.

ghost use Rattle.std.specs.Prelude.{◌≡◌, ◌↔◌, ◌*◌, pos, ◌-ℤ◌, ◌*ℤ◌, neg_ℤ, unsigned_abs, IsTrue, MatchBool, All};

/// A number as the difference of two naturals: `above` minus `below`.
#[derive(Clone, Copy, Debug)]
pub(crate) struct Parts {
    pub(crate) above: u128,
    pub(crate) below: u128,
}

/// The parts of a number, one of which is 0.
pub(crate) fn parts_of(number: i128) -> Parts
    ensures { number ≡ pos result.above -ℤ pos result.below }
{
    let size = number.unsigned_abs();
    if number < 0 {
        return Parts {
            above: 0,
            below: size,
        };
    }
    Parts {
        above: size,
        below: 0,
    }
}

/// Decides whether exactly one of the numbers is negative, so that their product is the negated product of their
/// absolute values.
pub(crate) fn differ_in_sign(first: i128, second: i128) -> bool
    ensures { MatchBool result (first *ℤ second ≡ neg_ℤ (pos (unsigned_abs first * unsigned_abs second))) (first *ℤ second ≡ pos (unsigned_abs first * unsigned_abs second)) }
{
    if first < 0 { second >= 0 } else { second < 0 }
}

/// Decides whether all numbers are 0.
pub(crate) fn are_zero(numbers: &[i128]) -> bool
    ensures { IsTrue result ↔ All (λ n. n ≡ pos 0) numbers.now }
{
    numbers.iter().all(|n| *n == 0)
}
