//! The end of the reading of a file with its spec blocks.
//!
//! A file is read before its spec blocks, which it keeps as tokens. So if the tokens denote no source, reading may have
//! ended in a spec block before the position at which the file itself breaks off.

use crate::source::functions::{FunctionNames, names_among};
use crate::source::module::slot_of_block;
use crate::spec::denoted_block::spec_block;
use base::memory::NoMemory;
use parser_base::balanced::copy_tokens;
use parser_base::explain::ParseFault;
use parser_base::signs::{is_sign, is_word};
use std::alloc::Global;
use syntax_tree::slot::Slot;
use tokens::token::{Punctuation, Token, TokenKind};

/// Decides whether a token opens a bracket.
fn opens(kind: &TokenKind) -> bool {
    is_sign(kind, Punctuation::LeftParenthesis)
        || is_sign(kind, Punctuation::LeftBracket)
        || is_sign(kind, Punctuation::LeftBrace)
}

/// Decides whether a token closes a bracket.
fn closes(kind: &TokenKind) -> bool {
    is_sign(kind, Punctuation::RightParenthesis)
        || is_sign(kind, Punctuation::RightBracket)
        || is_sign(kind, Punctuation::RightBrace)
}

/// Returns the number of open brackets after a token, from the number before it.
fn levels_behind(open: usize, kind: &TokenKind) -> usize {
    if opens(kind) {
        open.saturating_add(1)
    } else if closes(kind) {
        open.saturating_sub(1)
    } else {
        open
    }
}

/// Returns the slot of a spec block within this many open brackets: a loop, unless the block is a member of a module.
fn slot_within(open: usize, functions: &FunctionNames, block: &[Token]) -> Slot {
    if open > 1 {
        Slot::Loop
    } else {
        slot_of_block(functions, block)
    }
}

/// Returns the tokens up to and including the first sign of this kind that leaves no bracket open, or all tokens if
/// there is none.
fn closed_by(tokens: &[Token], sign: Punctuation) -> &[Token] {
    let mut open: usize = 0;
    for (index, token) in tokens.iter().enumerate() {
        open = levels_behind(open, &token.kind);
        if open == 0 && is_sign(&token.kind, sign) {
            return &tokens[..index + 1];
        }
    }
    tokens
}

/// Returns the byte offset at which reading a spec block ends, if its tokens denote none. Markers of forms that are
/// left out are found elsewhere.
fn end_of_block(alloc: Global, block: &[Token], slot: Slot) -> Result<Option<u32>, NoMemory> {
    let tokens = copy_tokens(alloc, block)?;
    match spec_block(alloc, &tokens, slot) {
        Ok(_) => Ok(None),
        Err(ParseFault::Grammar(span)) => Ok(Some(span)),
        Err(ParseFault::LeftOut(_)) => Ok(None),
        Err(ParseFault::NoMemory) => Err(NoMemory),
    }
}

/// Returns the byte offset at which reading ends in the first spec block whose tokens denote none, if there is one.
pub fn end_of_blocks(alloc: Global, tokens: &[Token]) -> Result<Option<u32>, NoMemory> {
    let mut functions = FunctionNames::new(alloc);
    let mut open: usize = 0;
    let mut next: usize = 0;
    for (index, token) in tokens.iter().enumerate() {
        if index < next {
            continue;
        }
        let rest = &tokens[index..];
        open = levels_behind(open, &token.kind);
        if is_word(&token.kind, b"module") {
            functions = names_among(alloc, &tokens[index + 1..])?;
        } else if is_sign(&token.kind, Punctuation::NumberSign) {
            let attribute = closed_by(rest, Punctuation::RightBracket);
            next = index.saturating_add(attribute.len());
        } else if is_word(&token.kind, b"spec") {
            let block = closed_by(rest, Punctuation::RightBrace);
            let end = end_of_block(alloc, block, slot_within(open, &functions, block))?;
            if end.is_some() {
                return Ok(end);
            }
            next = index.saturating_add(block.len());
        }
    }
    Ok(None)
}
