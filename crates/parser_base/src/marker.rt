//! The markers of the forms that are left out: words and other tokens that occur in no supported form.

ghost use Rattle.std.specs.Prelude.{◌≡◌};
ghost use Rattle.parser_base.specs.Markers.{marker_at, marker_text, Finds};
ghost use Rattle.parser_base.specs.MarkerReading.{is_marker};

use crate::signs::{begins_with, is_among};
use tokens::token::{NumberSuffix, Punctuation, Token, TokenKind};

/// The words that are markers whatever follows them.
const MARKER_WORDS: [&[u8]; 16] = [
    b"inline",
    b"script",
    b"enum",
    b"match",
    b"native",
    b"assume",
    b"axiom",
    b"choose",
    b"emits",
    b"apply",
    b"aborts_with",
    b"TRACE",
    b"where",
    b"package",
    b"with",
    b"u256",
];

/// Decides whether a token before these tokens is a marker.
#[tactic(auto, unfolding(crate::specs::MarkerReading::is_marker))]
fn is_marker(kind: &TokenKind, behind: &[Token]) -> bool
    ensures { result ≡ is_marker kind.now behind.now }
{
    match kind {
        TokenKind::Word(word) => {
            let word = word.as_slice();
            is_among(&MARKER_WORDS, word)
                || (word == b"assert".as_slice() && !begins_with(behind, Punctuation::Exclaim))
        }
        TokenKind::Number(literal) => matches!(literal.suffix, NumberSuffix::U256),
        TokenKind::ByteString(_) => true,
        TokenKind::Punctuation(_) => false,
    }
}

/// Finds the index of the first marker among the tokens.
pub fn first_marker(tokens: &[Token]) -> Option<usize>
    ensures { Finds tokens.now result }
{
    let mut rest = tokens;
    let mut index = 0;
    while let Some((token, behind)) = rest.split_first() {
        if is_marker(&token.kind, behind) {
            return Some(index);
        }
        index += 1;
        rest = behind;
    }
    None
}

/// Returns the text that is printed for a marker: its bytes, or the first letter of a byte string.
fn marker_text(kind: &TokenKind) -> &[u8]
    ensures { result.now ≡ marker_text kind.now }
{
    match kind {
        TokenKind::Word(word) => word.as_slice(),
        TokenKind::Number(literal) => literal.text.as_slice(),
        TokenKind::ByteString(text) => {
            let text = text.as_slice();
            &text[..text.len().min(1)]
        }
        TokenKind::Punctuation(_) => b"",
    }
}

/// Returns the text that is printed for the marker with this index, or no bytes if there is no such token.
pub fn marker_at(tokens: &[Token], index: usize) -> &[u8]
    ensures { result.now ≡ marker_at tokens.now index }
{
    match tokens.get(index) {
        Some(token) => marker_text(&token.kind),
        None => b"",
    }
}
