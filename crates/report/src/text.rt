//! Lines of text, and their parts.

ghost use Rattle.std.specs.Prelude.{◌≡◌, ◌≤◌, ◌∷◌, ◌++◌, [], drop, false, ◌<◌, OnOk, OnErr};
ghost use Rattle.std.specs.Fmt.{decimal, digit_glyph};
ghost use Rattle.report.specs.ReportText.{hexadecimal, whole_text};

use base::lists::Bytes;
use base::memory::NoMemory;
use std::alloc::Global;
use std::marker::Model;

/// Lines of output, each with the line feed that ends it.
#[derive(Drop)]
pub struct Lines {
    items: Vec<Bytes>,
}

impl Model for Lines {
    ghost use Rattle.std.specs.Prelude.{List, ℕ};

    ghost Value = { List (List ℕ) };

    ghost view = { λ l. l.items.items };
}

impl Lines {
    /// No lines.
    pub fn new(alloc: Global) -> Lines
        ensures { result ≡ [] }
    {
        Lines {
            items: Vec::new(alloc),
        }
    }

    /// The lines, in order.
    pub fn as_slice(&self) -> &[Bytes]
        ensures { result.now ≡ self.now }
    {
        self.items.as_slice()
    }

    /// Appends a line. After `NoMemory` the lines are unchanged.
    pub fn push(&mut self, line: Bytes) -> Result<(), NoMemory>
        ensures ok { OnOk result (self.new ≡ self.old ++ line ∷ []) }
        ensures err { OnErr result (self.new ≡ self.old) }
    {
        self.items.push(line)?;
        Ok(())
    }
}

/// Appends a number in decimal. `NoMemory` if memory runs out.
pub fn push_decimal(alloc: Global, text: &mut Bytes, number: u64) -> Result<(), NoMemory>
    ensures ok { OnOk result (text.new ≡ text.old ++ decimal number) }
    ensures err { OnErr result (text.new ≡ text.old) }
{
    let digits = number.to_string(alloc)?;
    text.extend_from_slice(digits.as_bytes())
}

/// Appends a whole number in decimal, with a sign if it is negative. `NoMemory` if memory runs out.
pub fn push_whole(alloc: Global, text: &mut Bytes, number: i128) -> Result<(), NoMemory>
    ensures { OnOk result (text.new ≡ text.old ++ whole_text number) }
{
    let digits = number.unsigned_abs().to_string(alloc)?;
    if number < 0 {
        text.extend_from_slice(b"-")?;
    }
    text.extend_from_slice(digits.as_bytes())
}

/// The ASCII digit of a number below 16, in lower case.
fn hexadecimal_digit(digit: u8) -> u8
    requires { digit < 16 }
    ensures { result ≡ digit_glyph false digit }
{
    if digit < 10 {
        b'0' + digit
    } else {
        b'a' + (digit - 10)
    }
}

/// Writes the hexadecimal digits of a number at the end of `out`, and returns the index of the first one.
fn encode_hexadecimal(number: u128, out: &mut [u8; 64]) -> usize
    ensures within { result ≤ 64 }
    ensures value { drop result out.new ≡ hexadecimal number }
{
    let mut start = 64;
    let mut rest = number;
    while start > 0 {
        start -= 1;
        out[start] = hexadecimal_digit((rest % 16) as u8);
        rest /= 16;
        if rest == 0 {
            break;
        }
    }
    start
}

/// Appends a number in hexadecimal, in lower case without leading zeros. `NoMemory` if memory runs out.
pub fn push_hexadecimal(text: &mut Bytes, number: u128) -> Result<(), NoMemory>
    ensures ok { OnOk result (text.new ≡ text.old ++ hexadecimal number) }
    ensures err { OnErr result (text.new ≡ text.old) }
{
    let mut digits = [0; 64];
    let start = encode_hexadecimal(number, &mut digits);
    text.extend_from_slice(&digits[start..])
}
