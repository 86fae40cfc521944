//! Numbers in source text.

ghost use Rattle.std.specs.Prelude.{◌≡◌, ◌<◌, ◌≤◌, ◌^◌, IsTrue, IfSome, length, nat_lt, if◌then◌else◌};
ghost use Rattle.std.specs.Char.{IsAsciiHexdigit, digit_value};
ghost use Rattle.tokens.specs.Reading.{continues_numeral, more_number, numeral_at, suffix_of, is_hexadecimal, number_of};

use crate::token::NumberSuffix;

/// The base of a decimal numeral.
const DECIMAL: u8 = 10;

const HEXADECIMAL: u8 = 16;

/// Decides whether a numeral in the base goes on with the byte.
#[tactic(auto, unfolding(crate::specs::Reading::continues_numeral))]
fn continues_numeral(base: u8, b: u8) -> bool
    ensures { result ≡ continues_numeral base b }
{
    let is_digit = if base == HEXADECIMAL {
        b.is_ascii_hexdigit()
    } else {
        b.is_ascii_digit()
    };
    is_digit || b == b'_'
}

/// Returns the value of a decimal or hexadecimal digit.
fn digit_value(b: u8) -> u8
    requires { IsAsciiHexdigit b }
    ensures { result ≡ digit_value b }
{
    match b {
        b'0'..=b'9' => b - b'0',
        b'A'..=b'F' => b - b'A' + 10,
        _ => b - b'a' + 10,
    }
}

/// Returns the number that `before` and one more byte spell, if it is below 2^128.
#[tactic(auto, unfolding(crate::specs::Reading::more_number, crate::specs::Reading::continues_numeral))]
fn more_number(base: u8, before: u128, b: u8) -> Option<u128>
    requires { IsTrue (continues_numeral base b) }
    ensures { result ≡ (if nat_lt (more_number base before b) (2 ^ 128) then Some (more_number base before b) else None) }
{
    if b == b'_' {
        return Some(before);
    }
    before
        .checked_mul(u128::from(base))?
        .checked_add(u128::from(digit_value(b)))
}

/// Returns the number and the length of the numeral at the front of the digits, if the number is below 2^128.
fn numeral_at(base: u8, digits: &[u8]) -> Option<(u128, usize)>
    ensures value { result ≡ numeral_at base 0 0 digits.now }
    ensures within { IfSome result (λ numeral. numeral.1 ≤ length digits.now) }
{
    let mut value = 0;
    for (i, b) in digits.iter().enumerate() {
        if !continues_numeral(base, *b) {
            return Some((value, i));
        }
        value = more_number(base, value, *b)?;
    }
    Some((value, digits.len()))
}

/// Returns the suffix with this text.
#[tactic(auto, unfolding(crate::specs::Reading::suffix_of))]
fn suffix_of(text: &[u8]) -> Option<NumberSuffix>
    ensures { result ≡ suffix_of text.now }
{
    if b"".as_slice() == text {
        Some(NumberSuffix::Absent)
    } else if b"u8".as_slice() == text {
        Some(NumberSuffix::U8)
    } else if b"u16".as_slice() == text {
        Some(NumberSuffix::U16)
    } else if b"u32".as_slice() == text {
        Some(NumberSuffix::U32)
    } else if b"u64".as_slice() == text {
        Some(NumberSuffix::U64)
    } else if b"u128".as_slice() == text {
        Some(NumberSuffix::U128)
    } else if b"u256".as_slice() == text {
        Some(NumberSuffix::U256)
    } else {
        None
    }
}

/// Decides whether the run begins with `0x` and a hexadecimal digit.
#[tactic(auto, unfolding(crate::specs::Reading::is_hexadecimal))]
fn is_hexadecimal(run: &[u8]) -> bool
    ensures value { result ≡ is_hexadecimal run.now }
    ensures long { IsTrue result → 2 < length run.now }
{
    run.len() > 2 && run[0] == b'0' && run[1] == b'x' && run[2].is_ascii_hexdigit()
}

/// Returns the number that a run of letters, digits and `_` spells, if the whole run is one.
#[tactic(auto, unfolding(crate::specs::Reading::number_of))]
pub fn number_of(run: &[u8]) -> Option<(u128, NumberSuffix)>
    ensures { result ≡ number_of run.now }
{
    let (base, digits) = if is_hexadecimal(run) {
        (HEXADECIMAL, &run[2..])
    } else {
        (DECIMAL, run)
    };
    let (value, length) = numeral_at(base, digits)?;
    let suffix = suffix_of(&digits[length..])?;
    Some((value, suffix))
}
