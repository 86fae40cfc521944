//! Whether tokens are those that a tree speaks of.

use syntax_tree::lexeme::Lexeme;
use tokens::token::{Token, TokenKind};

fn is_kind(kind: &TokenKind, said: &TokenKind) -> bool {
    match (kind, said) {
        (TokenKind::Word(a), TokenKind::Word(b)) => a == b,
        (TokenKind::ByteString(a), TokenKind::ByteString(b)) => a == b,
        (TokenKind::Number(a), TokenKind::Number(b)) => {
            a.text == b.text && a.value == b.value && a.suffix == b.suffix
        }
        (TokenKind::Punctuation(a), TokenKind::Punctuation(b)) => a == b,
        _ => false,
    }
}

/// Whether a token is one that a tree speaks of.
fn is_token(token: &Token, said: &Lexeme) -> bool {
    let is_placed = match said.span {
        None => true,
        Some(span) => span == token.span,
    };
    let is_glued = match said.glued {
        None => true,
        Some(glued) => glued == token.glued,
    };
    is_placed && is_glued && is_kind(&token.kind, &said.kind)
}

/// Whether the tokens begin with those that a tree speaks of.
pub fn begins_with(tokens: &[Token], said: &[Lexeme]) -> bool {
    if tokens.len() < said.len() {
        return false;
    }
    for (token, lexeme) in tokens.iter().zip(said) {
        if !is_token(token, lexeme) {
            return false;
        }
    }
    true
}

/// Whether the tokens are those that a tree speaks of.
pub fn are_spelled(tokens: &[Token], said: &[Lexeme]) -> bool {
    tokens.len() == said.len() && begins_with(tokens, said)
}
