//! The tokens of a source.

use crate::lines::push_name;
use crate::source_lines::scan;
use base::memory::NoMemory;
use std::alloc::Global;
use tokens::token::{Token, TokenFault, TokenKind};
use tokens::weight::weight;

fn push_kind(alloc: Global, line: &mut String, kind: &TokenKind) -> Result<(), NoMemory> {
    match kind {
        TokenKind::Word(name) => {
            line.push_str("word ")?;
            push_name(line, name)
        }
        TokenKind::ByteString(name) => {
            line.push_str("bytes ")?;
            push_name(line, name)
        }
        TokenKind::Number(number) => {
            let value = number.value;
            let suffix = number.suffix;
            let text = format!(in alloc; "number {value} {suffix:?}")?;
            line.push_str(text.as_str())?;
            Ok(())
        }
        TokenKind::Punctuation(sign) => {
            let text = format!(in alloc; "{sign:?}")?;
            line.push_str(text.as_str())?;
            Ok(())
        }
    }
}

/// Writes a token, where it begins and ends, and whether it is glued to the one before it.
fn push_token(alloc: Global, lines: &mut String, token: &Token) -> Result<(), NoMemory> {
    push_kind(alloc, lines, &token.kind)?;
    let start = token.span.start;
    let end = token.span.end;
    let span = format!(in alloc; " {start} to {end}")?;
    lines.push_str(span.as_str())?;
    lines.push_str(if token.glued { " glued\n" } else { "\n" })?;
    Ok(())
}

/// The tokens of a text, each on a line, and their weight; or why it has none.
pub fn token_lines(alloc: Global, text: &str) -> Result<String, NoMemory> {
    let found = match scan(alloc, 0, text) {
        Ok(found) => found,
        Err(TokenFault::NoMemory) => return Err(NoMemory),
        Err(fault) => return Ok(format!(in alloc; "{fault}")?),
    };
    let mut lines = String::new(alloc);
    for token in found.as_slice() {
        push_token(alloc, &mut lines, token)?;
    }
    let weight = weight(&found);
    let last = format!(in alloc; "weight {weight}")?;
    lines.push_str(last.as_str())?;
    Ok(lines)
}
