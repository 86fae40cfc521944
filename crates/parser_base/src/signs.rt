//! Readers of single tokens: signs, words and names.

ghost use Rattle.std.specs.Prelude.{◌≡◌, None, Some, is_some, MatchResult};
ghost use Rattle.std.specs.Option.{option_map};
ghost use Rattle.std.specs.List.{list_any};
ghost use Rattle.parser_base.specs.ReadFault.{Reads};
ghost use Rattle.parser_base.specs.TokenReading.{after_sign, after_word, begins_capital, begins_small, identifier_at, is_keyword, is_sign, is_word, sign_span_at, word_span_at};
ghost use Rattle.base.specs.Names.{same_name};

use crate::fault::ReadFault;
use base::span::Span;
use std::alloc::Global;
use syntax_tree::lexeme::Identifier;
use tokens::token::{Punctuation, Token, TokenKind};

/// The keywords of Move, which cannot be names.
const KEYWORDS: [&[u8]; 27] = [
    b"abort",
    b"acquires",
    b"as",
    b"break",
    b"const",
    b"continue",
    b"copy",
    b"else",
    b"false",
    b"friend",
    b"fun",
    b"has",
    b"if",
    b"let",
    b"loop",
    b"module",
    b"move",
    b"mut",
    b"native",
    b"phantom",
    b"public",
    b"return",
    b"spec",
    b"struct",
    b"true",
    b"use",
    b"while",
];

/// Decides whether a word is one of these words.
pub fn is_among(words: &[&[u8]], word: &[u8]) -> bool
    ensures { result ≡ list_any (λ other. same_name word.now other.now) words.entry.now }
{
    words.iter().any(|other| word == *other)
}

/// Decides whether a word is a keyword.
#[tactic(auto, unfolding(crate::specs::TokenReading::is_keyword))]
pub fn is_keyword(word: &[u8]) -> bool
    ensures { result ≡ is_keyword word.now }
{
    is_among(&KEYWORDS, word)
}

/// Decides whether a word begins as the name of a struct, a constant or a schema must.
pub fn begins_capital(word: &[u8]) -> bool
    ensures { result ≡ begins_capital word.now }
{
    match word.first() {
        Some(byte) => b'A' <= *byte && *byte <= b'Z',
        None => false,
    }
}

/// Decides whether a word begins as the name of a local or a parameter must.
pub fn begins_small(word: &[u8]) -> bool
    ensures { result ≡ begins_small word.now }
{
    match word.first() {
        Some(byte) => (b'a' <= *byte && *byte <= b'z') || *byte == b'_',
        None => false,
    }
}

/// Decides whether a token is this sign.
pub fn is_sign(kind: &TokenKind, sign: Punctuation) -> bool
    ensures { result ≡ is_sign sign kind.now }
{
    match kind {
        TokenKind::Punctuation(found) => *found == sign,
        _ => false,
    }
}

/// Decides whether a token is this word.
pub fn is_word(kind: &TokenKind, word: &[u8]) -> bool
    ensures { result ≡ is_word word.now kind.now }
{
    match kind {
        TokenKind::Word(found) => found.as_slice() == word,
        _ => false,
    }
}

/// Skips this sign, if it is here.
#[tactic(auto, unfolding(crate::specs::TokenReading::after_sign))]
pub fn skip_sign(tokens: &[Token], sign: Punctuation) -> Option<&[Token]>
    ensures { option_map (λ rest. rest.now) result ≡ after_sign sign tokens.now }
{
    let (token, rest) = tokens.split_first()?;
    if is_sign(&token.kind, sign) {
        Some(rest)
    } else {
        None
    }
}

/// Decides whether this sign is here.
pub fn begins_with(tokens: &[Token], sign: Punctuation) -> bool
    ensures { result ≡ is_some (after_sign sign tokens.now) }
{
    skip_sign(tokens, sign).is_some()
}

/// Reads this sign, if it is here. Returns its span and the remaining tokens.
#[tactic(auto, unfolding(crate::specs::TokenReading::sign_span_at))]
pub fn span_of_sign(tokens: &[Token], sign: Punctuation) -> Option<(Span, &[Token])>
    ensures { option_map (λ read. (read.0, read.1.now)) result ≡ sign_span_at sign tokens.now }
{
    let (token, rest) = tokens.split_first()?;
    if is_sign(&token.kind, sign) {
        Some((token.span, rest))
    } else {
        None
    }
}

/// Skips this word, if it is here.
#[tactic(auto, unfolding(crate::specs::TokenReading::after_word))]
pub fn skip_word<'a>(tokens: &'a [Token], word: &[u8]) -> Option<&'a [Token]>
    ensures { option_map (λ rest. rest.now) result ≡ after_word word.now tokens.now }
{
    let (token, rest) = tokens.split_first()?;
    if is_word(&token.kind, word) {
        Some(rest)
    } else {
        None
    }
}

/// Reads this word, if it is here. Returns its span and the remaining tokens.
#[tactic(auto, unfolding(crate::specs::TokenReading::word_span_at))]
pub fn span_of_word<'a>(tokens: &'a [Token], word: &[u8]) -> Option<(Span, &'a [Token])>
    ensures { option_map (λ read. (read.0, read.1.now)) result ≡ word_span_at word.now tokens.now }
{
    let (token, rest) = tokens.split_first()?;
    if is_word(&token.kind, word) {
        Some((token.span, rest))
    } else {
        None
    }
}

/// Skips this sign, which must be here.
pub fn expect_sign(tokens: &[Token], sign: Punctuation) -> Result<&[Token], ReadFault>
    ensures { MatchResult result (λ rest. after_sign sign tokens.now ≡ Some rest.now) (λ fault. after_sign sign tokens.now ≡ None) }
{
    skip_sign(tokens, sign).ok_or(ReadFault::NoTree { left: tokens.len() })
}

/// Skips this word, which must be here.
pub fn expect_word<'a>(tokens: &'a [Token], word: &[u8]) -> Result<&'a [Token], ReadFault>
    ensures { MatchResult result (λ rest. after_word word.now tokens.now ≡ Some rest.now) (λ fault. after_word word.now tokens.now ≡ None) }
{
    skip_word(tokens, word).ok_or(ReadFault::NoTree { left: tokens.len() })
}

/// Reads a name with its span. Returns it and the remaining tokens.
#[tactic(auto, unfolding(crate::specs::TokenReading::identifier_at))]
pub fn read_identifier(alloc: Global, tokens: &[Token]) -> Result<(Identifier, &[Token]), ReadFault>
    ensures { Reads result (λ read. (read.0, read.1.now)) (identifier_at tokens.now) }
{
    match tokens.split_first() {
        Some((token, rest)) => match &token.kind {
            TokenKind::Word(name) if !is_keyword(name.as_slice()) => {
                let identifier = Identifier {
                    text: name.try_clone(alloc)?,
                    span: token.span,
                };
                Ok((identifier, rest))
            }
            _ => Err(ReadFault::NoTree { left: tokens.len() }),
        },
        None => Err(ReadFault::NoTree { left: 0 }),
    }
}
