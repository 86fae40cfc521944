//! Integer arithmetic of runs.

ghost use Rattle.std.specs.Prelude.{◌≡◌, ◌<◌, ◌%◌, ◌^◌, ℕ, suc};
ghost use Rattle.std.specs.Option.{SomeIff};
ghost use Rattle.typing_rules.specs.ConstantRuns.{calculated, compared, kept, shifted, bitwise};
ghost use Rattle.program.specs.declared.operator.Arithmetic.TheVariants.{Subtract, Divide, Remainder};
ghost use Rattle.typing_rules.specs.Fitting.{bits_of};

use base::types::Width;
use program::operator::{Arithmetic, Bitwise, Comparison, Shift};
use typing_rules::constant::ConstantValue;

/// The number of bits of an integer type.
fn bits_of(width: Width) -> u128
    ensures { result ≡ bits_of width }
{
    match width {
        Width::U8 => 8,
        Width::U16 => 16,
        Width::U32 => 32,
        Width::U64 => 64,
        Width::U128 => 128,
    }
}

/// The greatest value of an integer type.
pub fn greatest(width: Width) -> u128
    ensures { suc result ≡ 2 ^ bits_of width }
{
    match width {
        Width::U8 => 0xff,
        Width::U16 => 0xffff,
        Width::U32 => 0xffff_ffff,
        Width::U64 => 0xffff_ffff_ffff_ffff,
        Width::U128 => u128::MAX,
    }
}

/// The number, if it is a value of the integer type of this width.
pub(crate) fn kept(width: Width, value: u128) -> Option<ConstantValue>
    ensures { result ≡ kept width value }
{
    if value <= greatest(width) {
        Some(ConstantValue::Integer(width, value))
    } else {
        None
    }
}

/// The same for a number that is given only if it is below 2^128.
fn kept_known(width: Width, value: Option<u128>) -> Option<ConstantValue>
    ensures { (n : ℕ) → SomeIff value (n < 2 ^ 128) n → result ≡ kept width n }
{
    match value {
        Some(known) => kept(width, known),
        None => None,
    }
}

fn difference(width: Width, left: u128, right: u128) -> Option<ConstantValue>
    ensures { result ≡ calculated width Subtract left right }
{
    if left < right {
        None
    } else {
        kept(width, left - right)
    }
}

fn quotient(width: Width, left: u128, right: u128) -> Option<ConstantValue>
    ensures { result ≡ calculated width Divide left right }
{
    if right == 0 {
        None
    } else {
        kept(width, left / right)
    }
}

fn remainder(width: Width, left: u128, right: u128) -> Option<ConstantValue>
    ensures { result ≡ calculated width Remainder left right }
{
    if right == 0 {
        None
    } else {
        kept(width, left % right)
    }
}

pub(crate) fn calculated(
    width: Width,
    sign: Arithmetic,
    left: u128,
    right: u128,
) -> Option<ConstantValue>
    ensures { result ≡ calculated width sign left right }
{
    match sign {
        Arithmetic::Add => kept_known(width, left.checked_add(right)),
        Arithmetic::Subtract => difference(width, left, right),
        Arithmetic::Multiply => kept_known(width, left.checked_mul(right)),
        Arithmetic::Divide => quotient(width, left, right),
        Arithmetic::Remainder => remainder(width, left, right),
    }
}

pub(crate) fn bitwise(sign: Bitwise, left: u128, right: u128) -> u128
    ensures { result ≡ bitwise sign left right }
{
    match sign {
        Bitwise::BitAnd => left & right,
        Bitwise::BitOr => left | right,
        Bitwise::BitXor => left ^ right,
    }
}

/// The lowest bits of the number, as many as the width has.
fn low_bits(width: Width, value: u128) -> u128
    ensures { result ≡ value % 2 ^ bits_of width }
{
    match width {
        Width::U8 => value % 0x100,
        Width::U16 => value % 0x1_0000,
        Width::U32 => value % 0x1_0000_0000,
        Width::U64 => value % 0x1_0000_0000_0000_0000,
        Width::U128 => value,
    }
}

pub(crate) fn shifted(width: Width, sign: Shift, value: u128, by: u128) -> Option<ConstantValue>
    ensures { result ≡ shifted width sign value by }
{
    if by >= bits_of(width) {
        return None;
    }
    let moved = match sign {
        Shift::Left => low_bits(width, value << by),
        Shift::Right => value >> by,
    };
    Some(ConstantValue::Integer(width, moved))
}

pub(crate) fn compared(sign: Comparison, left: u128, right: u128) -> bool
    ensures { result ≡ compared sign left right }
{
    match sign {
        Comparison::Less => left < right,
        Comparison::LessEqual => left <= right,
        Comparison::Greater => left > right,
        Comparison::GreaterEqual => left >= right,
    }
}
