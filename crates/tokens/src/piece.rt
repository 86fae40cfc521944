//! The pieces of a text, with their lengths.

ghost use Rattle.std.specs.Prelude.{◌≡◌, ◌<◌, ◌≤◌, ◌+◌, ◌^◌, ℕ, true, false, not, ◌==◌, length, drop, take, slice_index};
ghost use Rattle.std.specs.List.{prefix_len};
ghost use Rattle.tokens.specs.Characters.{is_blank, begins_word, continues_word};
ghost use Rattle.tokens.specs.Signs.{sign_text};
ghost use Rattle.tokens.specs.Reading.{lookup, lone_signs, sign_at, quoted_end, comment_end, slash_at, word_at, number_at, found_at};

use crate::number::number_of;
use crate::token::{NumberSuffix, Punctuation};

/// The class of a piece.
#[derive(Clone, Copy)]
pub enum Class {
    /// A blank or a comment.
    Space,
    Token(TokenClass),
}

/// The class of a token, with the value and the suffix of a number or the sign.
#[derive(Clone, Copy)]
pub enum TokenClass {
    Word,
    Number(u128, NumberSuffix),
    ByteString,
    Sign(Punctuation),
}

/// A piece at the front of some bytes.
#[derive(Clone, Copy)]
pub struct Found {
    pub class: Class,
    /// The number of bytes.
    pub length: usize,
}

impl Found {
    fn new(class: Class, length: usize) -> Found
        ensures { result ≡ record { class = class; length = length } }
    {
        Found { class, length }
    }
}

/// Decides whether the byte is a space, a tab, a line feed or a carriage return.
#[tactic(auto, unfolding(crate::specs::Characters::is_blank))]
fn is_blank(b: u8) -> bool
    ensures { result ≡ is_blank b }
{
    b == b' ' || b == b'\t' || b == b'\n' || b == b'\r'
}

/// Decides whether the byte is a letter or `_`.
#[tactic(auto, unfolding(crate::specs::Characters::begins_word))]
fn begins_word(b: u8) -> bool
    ensures { result ≡ begins_word b }
{
    b.is_ascii_alphabetic() || b == b'_'
}

/// Decides whether the byte is a letter, a digit or `_`.
#[tactic(auto, unfolding(crate::specs::Characters::continues_word))]
pub fn continues_word(b: u8) -> bool
    ensures { result ≡ continues_word b }
{
    b.is_ascii_alphanumeric() || b == b'_'
}

/// Returns the byte at this index, or 0 past the end.
fn byte_or_zero(bytes: &[u8], i: usize) -> u8
    ensures { result ≡ slice_index bytes.now i }
{
    if i < bytes.len() { bytes[i] } else { 0 }
}

/// Returns the number of letters, digits and `_` at the front.
fn run_length(bytes: &[u8]) -> usize
    ensures value { result ≡ prefix_len continues_word bytes.now }
    ensures within { result ≤ length bytes.now }
{
    for (i, b) in bytes.iter().enumerate() {
        if !continues_word(*b) {
            return i;
        }
    }
    bytes.len()
}

/// Returns the number of bytes before the next line feed or the end.
fn line_length(bytes: &[u8]) -> usize
    ensures value { result ≡ prefix_len (λ b. not (b == 10)) bytes.now }
    ensures within { result ≤ length bytes.now }
{
    for (i, b) in bytes.iter().enumerate() {
        if *b == b'\n' {
            return i;
        }
    }
    bytes.len()
}

/// Returns the length of a byte string up to and including its closing quote, where `bytes` follow its first two bytes.
fn quoted_end(bytes: &[u8]) -> Option<usize>
    requires { length bytes.now + 2 < 2 ^ 64 }
    ensures { result ≡ quoted_end false 2 bytes.now }
{
    let mut escaped = false;
    for (i, b) in bytes.iter().enumerate() {
        if *b == b'\n' {
            return None;
        }
        if escaped {
            escaped = false;
        } else if *b == b'"' {
            return Some(i + 3);
        } else {
            escaped = *b == b'\\';
        }
    }
    None
}

/// Returns the length of a block comment up to and including its `*/`, where `bytes` follow its first two bytes.
fn comment_end(bytes: &[u8]) -> Option<usize>
    requires { length bytes.now + 2 < 2 ^ 64 }
    ensures { result ≡ comment_end 0 0 2 bytes.now }
{
    let mut depth: usize = 0;
    let mut last = 0;
    for (i, b) in bytes.iter().enumerate() {
        if last == b'/' && *b == b'*' {
            depth += 1;
            last = 0;
        } else if last == b'*' && *b == b'/' {
            if depth == 0 {
                return Some(i + 3);
            }
            depth -= 1;
            last = 0;
        } else {
            last = *b;
        }
    }
    None
}

/// Returns the longest sign at the front of four bytes, of which those past the end of the text are 0.
#[tactic(auto, unfolding(crate::specs::Reading::sign_at))]
fn sign_at(first: u8, second: u8, third: u8, fourth: u8) -> Option<Punctuation>
    ensures { result ≡ sign_at first second third fourth }
{
    let sign = match first {
        b'<' => match (second, third, fourth) {
            (b'<', _, _) => Punctuation::LessLess,
            (b'=', b'=', b'>') => Punctuation::LessEqualEqualGreater,
            (b'=', _, _) => Punctuation::LessEqual,
            _ => Punctuation::Less,
        },
        b'=' => match (second, third) {
            (b'=', b'>') => Punctuation::EqualEqualGreater,
            (b'=', _) => Punctuation::EqualEqual,
            _ => Punctuation::Equal,
        },
        b':' if second == b':' => Punctuation::ColonColon,
        b':' => Punctuation::Colon,
        b'.' if second == b'.' => Punctuation::PeriodPeriod,
        b'.' => Punctuation::Period,
        b'!' if second == b'=' => Punctuation::ExclaimEqual,
        b'!' => Punctuation::Exclaim,
        b'>' if second == b'=' => Punctuation::GreaterEqual,
        b'>' => Punctuation::Greater,
        b'&' if second == b'&' => Punctuation::AmpersandAmpersand,
        b'&' => Punctuation::Ampersand,
        b'|' if second == b'|' => Punctuation::PipePipe,
        b'|' => Punctuation::Pipe,
        _ => return lone_sign_at(first),
    };
    Some(sign)
}

/// Returns the sign of one byte that begins no other sign.
fn lone_sign_at(first: u8) -> Option<Punctuation>
    ensures { result ≡ lookup first lone_signs }
{
    match first {
        b'(' => Some(Punctuation::LeftParenthesis),
        b')' => Some(Punctuation::RightParenthesis),
        b'{' => Some(Punctuation::LeftBrace),
        b'}' => Some(Punctuation::RightBrace),
        b'[' => Some(Punctuation::LeftBracket),
        b']' => Some(Punctuation::RightBracket),
        b',' => Some(Punctuation::Comma),
        b';' => Some(Punctuation::Semicolon),
        b'+' => Some(Punctuation::Plus),
        b'-' => Some(Punctuation::Minus),
        b'*' => Some(Punctuation::Star),
        b'/' => Some(Punctuation::Slash),
        b'%' => Some(Punctuation::Percent),
        b'^' => Some(Punctuation::Caret),
        b'@' => Some(Punctuation::AtSign),
        b'#' => Some(Punctuation::NumberSign),
        _ => None,
    }
}

/// Returns the number of bytes that spell the sign.
fn sign_length(sign: Punctuation) -> usize
    ensures { result ≡ length (sign_text sign) }
{
    match sign {
        Punctuation::LessEqualEqualGreater => 4,
        Punctuation::EqualEqualGreater => 3,
        Punctuation::ColonColon
        | Punctuation::PeriodPeriod
        | Punctuation::EqualEqual
        | Punctuation::ExclaimEqual
        | Punctuation::LessEqual
        | Punctuation::LessLess
        | Punctuation::GreaterEqual
        | Punctuation::AmpersandAmpersand
        | Punctuation::PipePipe => 2,
        _ => 1,
    }
}

/// Returns the comment or the sign at a `/`, which these bytes follow.
#[tactic(auto, unfolding(crate::specs::Reading::slash_at))]
fn slash_at(rest: &[u8]) -> Option<Found>
    requires { length rest.now + 2 < 2 ^ 64 }
    ensures { result ≡ slash_at rest.now }
{
    match byte_or_zero(rest, 0) {
        b'/' => Some(Found::new(Class::Space, 2 + line_length(&rest[1..]))),
        b'*' => {
            let end = comment_end(&rest[1..])?;
            Some(Found::new(Class::Space, end))
        }
        _ => Some(Found::new(Class::Token(TokenClass::Sign(Punctuation::Slash)), 1)),
    }
}

/// Returns the word or byte string at a letter or `_`, which these bytes follow.
#[tactic(auto, unfolding(crate::specs::Reading::word_at))]
fn word_at(first: u8, rest: &[u8]) -> Found
    requires { length rest.now + 2 < 2 ^ 64 }
    ensures { result ≡ word_at first rest.now }
{
    if (first == b'b' || first == b'x') && byte_or_zero(rest, 0) == b'"' {
        if let Some(end) = quoted_end(&rest[1..]) {
            return Found::new(Class::Token(TokenClass::ByteString), end);
        }
    }
    Found::new(Class::Token(TokenClass::Word), 1 + run_length(rest))
}

/// Returns the number at a digit, if the run of letters, digits and `_` is one.
#[tactic(auto, unfolding(crate::specs::Reading::number_at))]
fn number_at(bytes: &[u8]) -> Option<Found>
    ensures { result ≡ number_at bytes.now }
{
    let length = run_length(bytes);
    let (value, suffix) = number_of(&bytes[..length])?;
    Some(Found::new(Class::Token(TokenClass::Number(value, suffix)), length))
}

/// Returns the piece at the front of the bytes.
#[tactic(auto, unfolding(crate::specs::Reading::found_at))]
pub fn found_at(bytes: &[u8]) -> Option<Found>
    requires { length bytes.now + 2 < 2 ^ 64 }
    ensures { result ≡ found_at bytes.now }
{
    let (first, rest) = bytes.split_first()?;
    let first = *first;
    if is_blank(first) {
        Some(Found::new(Class::Space, 1))
    } else if first == b'/' {
        slash_at(rest)
    } else if begins_word(first) {
        Some(word_at(first, rest))
    } else if first.is_ascii_digit() {
        number_at(bytes)
    } else {
        let sign = sign_at(
            first,
            byte_or_zero(rest, 0),
            byte_or_zero(rest, 1),
            byte_or_zero(rest, 2),
        )?;
        Some(Found::new(Class::Token(TokenClass::Sign(sign)), sign_length(sign)))
    }
}
