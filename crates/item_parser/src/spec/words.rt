//! Readers of the words at the beginning of clauses and inside them.

ghost use Rattle.std.specs.Prelude.{◌≡◌};
ghost use Rattle.std.specs.Option.{option_map};
ghost use Rattle.item_parser.specs.ClauseReading.{clause_word_at, opens_expression, opens_kind, post_at, update_at, word_of};

use base::span::Span;
use parser_base::signs::{begins_with, is_sign, is_word, skip_word};
use tokens::token::{Punctuation, Token, TokenKind};

/// The first word of a clause that is not a variable of a schema.
#[derive(Clone, Copy, Debug, PartialEq, Eq)]
pub enum ClauseWord {
    Pragma,
    Requires,
    Ensures,
    AbortsIf,
    Modifies,
    Invariant,
    Let,
    Include,
}

/// Returns the word of a clause that a token is.
#[tactic(auto, unfolding(crate::specs::ClauseReading::word_of))]
fn word_of(kind: &TokenKind) -> Option<ClauseWord>
    ensures { result ≡ word_of kind.now }
{
    if is_word(kind, b"pragma") {
        Some(ClauseWord::Pragma)
    } else if is_word(kind, b"requires") {
        Some(ClauseWord::Requires)
    } else if is_word(kind, b"ensures") {
        Some(ClauseWord::Ensures)
    } else if is_word(kind, b"aborts_if") {
        Some(ClauseWord::AbortsIf)
    } else if is_word(kind, b"modifies") {
        Some(ClauseWord::Modifies)
    } else if is_word(kind, b"invariant") {
        Some(ClauseWord::Invariant)
    } else if is_word(kind, b"let") {
        Some(ClauseWord::Let)
    } else if is_word(kind, b"include") {
        Some(ClauseWord::Include)
    } else {
        None
    }
}

/// Reads the word of a clause. Returns the word, its span and the remaining tokens.
#[tactic(auto, unfolding(crate::specs::ClauseReading::clause_word_at))]
pub fn clause_word(tokens: &[Token]) -> Option<(ClauseWord, Span, &[Token])>
    ensures { option_map (λ read. ((read.0, read.1), read.2.now)) result ≡ clause_word_at tokens.now }
{
    let (token, rest) = tokens.split_first()?;
    let word = word_of(&token.kind)?;
    Some((word, token.span, rest))
}

/// Decides whether a token can begin a spec expression.
fn opens_kind(kind: &TokenKind) -> bool
    ensures { result ≡ opens_kind kind.now }
{
    match kind {
        TokenKind::Word(_) => true,
        TokenKind::Number(_) => true,
        TokenKind::ByteString(_) => false,
        TokenKind::Punctuation(_) => {
            is_sign(kind, Punctuation::LeftParenthesis)
                || is_sign(kind, Punctuation::AtSign)
                || is_sign(kind, Punctuation::Exclaim)
        }
    }
}

/// Decides whether the first token can begin a spec expression.
#[tactic(auto, unfolding(crate::specs::ClauseReading::opens_expression))]
fn opens_expression(tokens: &[Token]) -> bool
    ensures { result ≡ opens_expression tokens.now }
{
    match tokens.first() {
        Some(token) => opens_kind(&token.kind),
        None => false,
    }
}

/// Skips `update`, if it is here as a keyword. Returns whether it is, and the remaining tokens. It is a name if what
/// follows it cannot begin an expression.
#[tactic(auto, unfolding(crate::specs::ClauseReading::update_at))]
pub fn skip_update(tokens: &[Token]) -> (bool, &[Token])
    ensures { (result.0, result.1.now) ≡ update_at tokens.now }
{
    match skip_word(tokens, b"update") {
        Some(rest) => {
            if opens_expression(rest) {
                (true, rest)
            } else {
                (false, tokens)
            }
        }
        None => (false, tokens),
    }
}

/// Skips `post`, if it is here as a keyword. Returns whether it is, and the remaining tokens. It is a name before an
/// `=`.
#[tactic(auto, unfolding(crate::specs::ClauseReading::post_at))]
pub fn skip_post(tokens: &[Token]) -> (bool, &[Token])
    ensures { (result.0, result.1.now) ≡ post_at tokens.now }
{
    match skip_word(tokens, b"post") {
        Some(rest) => {
            if begins_with(rest, Punctuation::Equal) {
                (false, tokens)
            } else {
                (true, rest)
            }
        }
        None => (false, tokens),
    }
}
