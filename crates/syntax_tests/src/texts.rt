//! The tokens of a text are those that a tree speaks of.

use std::alloc::Global;
use std::process::Abort;
use syntax_tree::lexeme::{Lexeme, Lexemes};
use tokens::scanner::tokens;
use tokens::token::{Token, TokenKind};

fn is_kind(kind: &TokenKind, said: &TokenKind) -> bool {
    match (kind, said) {
        (TokenKind::Word(a), TokenKind::Word(b)) => a == b,
        (TokenKind::ByteString(a), TokenKind::ByteString(b)) => a == b,
        (TokenKind::Number(a), TokenKind::Number(b)) => {
            a.text == b.text && a.value == b.value && a.suffix == b.suffix
        }
        (TokenKind::Punctuation(a), TokenKind::Punctuation(b)) => a == b,
        _ => false,
    }
}

fn is_token(token: &Token, said: &Lexeme) -> bool {
    let is_placed = match said.span {
        None => true,
        Some(span) => span == token.span,
    };
    let is_glued = match said.glued {
        None => true,
        Some(glued) => glued == token.glued,
    };
    is_placed && is_glued && is_kind(&token.kind, &said.kind)
}

pub fn compares(rt: &impl Abort, alloc: Global, text: &[u8], spelled: &Lexemes) {
    assert!(rt; text.len() < 1000);
    match tokens(alloc, 0, text) {
        Ok(found) => {
            assert_eq!(rt; found.len(), spelled.as_slice().len());
            for (i, (token, said)) in found.as_slice().iter().zip(spelled.as_slice()).enumerate() {
                assert!(rt; is_token(token, said), "token {i}");
            }
        }
        Err(fault) => assert!(rt; false, "{fault:?}"),
    }
}
