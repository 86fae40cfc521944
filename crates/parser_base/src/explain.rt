//! The reason why no tree spells the tokens.

ghost use Rattle.std.specs.Prelude.{◌≡◌, ◌-◌, length};
ghost use Rattle.parser_base.specs.ParseFault.{start_at, at_least_one, Explains, ExplainsAt};

use crate::fault::ReadFault;
use crate::marker::first_marker;
use base::memory::NoMemory;
use std::alloc::AllocFailed;
use tokens::token::Token;

/// The reason why a text was not parsed.
#[derive(Clone, Copy, Debug, PartialEq, Eq)]
pub enum ParseFault {
    /// No tree spells the tokens. The number is the byte offset of the token that is impossible there, or of the last
    /// token if more would have to follow.
    Grammar(u32),
    /// The tokens hold a marker of a form that is left out. The number is the index of the first marker.
    LeftOut(usize),
    /// Memory ran out.
    NoMemory,
}

impl From<NoMemory> for ParseFault {
    ghost use Rattle.parser_base.specs.declared.explain.ParseFault.{ParseFault};

    ghost from_gives = { λ _ fault. fault ≡ ParseFault.NoMemory };

    fn from(_error: NoMemory) -> ParseFault {
        ParseFault::NoMemory
    }
}

impl<T: Drop> From<AllocFailed<T>> for ParseFault {
    ghost use Rattle.parser_base.specs.declared.explain.ParseFault.{ParseFault};

    ghost from_gives = { λ _ fault. fault ≡ ParseFault.NoMemory };

    fn from(_error: AllocFailed<T>) -> ParseFault {
        ParseFault::NoMemory
    }
}

/// Returns the byte offset of the token with this index, or 0 if there is no such token.
pub fn start_at(tokens: &[Token], index: usize) -> u32
    ensures { result ≡ start_at tokens.now index }
{
    match tokens.get(index) {
        Some(token) => token.span.start,
        None => 0,
    }
}

/// Returns the byte offset of the first of the last `left` tokens, or of the last token if `left` is 0.
fn start_of_left(tokens: &[Token], left: usize) -> u32
    ensures { result ≡ start_at tokens.now (length tokens.now - at_least_one left) }
{
    let count = if left == 0 { 1 } else { left };
    start_at(tokens, tokens.len().saturating_sub(count))
}

/// Returns the reason why no tree was read from the tokens, if reading ended at this byte offset. A marker of a form
/// that is left out takes precedence over the position, wherever it occurs.
pub fn explain_at(tokens: &[Token], offset: u32) -> ParseFault
    ensures { ExplainsAt tokens.now offset result }
{
    match first_marker(tokens) {
        Some(index) => ParseFault::LeftOut(index),
        None => ParseFault::Grammar(offset),
    }
}

/// Returns the reason why no tree was read from the tokens.
pub fn explain(tokens: &[Token], fault: ReadFault) -> ParseFault
    ensures { Explains tokens.now fault result }
{
    match fault {
        ReadFault::NoTree { left } => explain_at(tokens, start_of_left(tokens, left)),
        ReadFault::NoMemory => ParseFault::NoMemory,
    }
}
