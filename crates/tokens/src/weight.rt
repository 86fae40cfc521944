//! The weight of a token list, an upper bound of the depth of each tree with these tokens.

ghost use Rattle.std.specs.Prelude.{◌≡◌, ◌≤◌, ◌<◌, min, length};
ghost use Rattle.tokens.specs.Weight.{greatest_weight, weight_of, opened, counted, restarted, closed, closed_by_brace, after_sign, after_token, is_counted_word, file_level};

use crate::token::{Punctuation, TokenKind, Tokens};
use std::marker::Model;

/// The least weight at which tokens are refused as too deeply nested.
pub const WEIGHT_LIMIT: u32 = 201;

/// The number of levels that a weight of at most 202 can have.
const LEVEL_COUNT: usize = 203;

/// The open levels with their counts: that of the file first, and the innermost at `depth`.
#[derive(Drop)]
struct Levels {
    counts: [u32; LEVEL_COUNT],
    depth: usize,
    weight: u32,
}

impl Model for Levels {
    ghost use Rattle.std.specs.Prelude.{◌≡◌, ◌<◌, take, reverse, slice_index};
    ghost use Rattle.tokens.specs.Weight.{Levels as LevelsInForce, weight_of};

    ghost Value = { LevelsInForce };

    ghost view = { λ s. record { innermost = slice_index s.counts s.depth; outer = reverse (take s.depth s.counts) } };

    ghost invariant = { λ s. (s.depth < 203) × (s.weight ≡ weight_of (record { innermost = slice_index s.counts s.depth; outer = reverse (take s.depth s.counts) })) };
}

impl Levels {
    /// Returns the level of the file alone.
    fn new() -> Levels
        ensures { result ≡ file_level }
    {
        Levels {
            counts: [0; LEVEL_COUNT],
            depth: 0,
            weight: 0,
        }
    }

    fn weight(&self) -> u32
        ensures { result ≡ weight_of self.now }
    {
        self.weight
    }

    fn open(&mut self)
        requires { weight_of self.old ≤ 201 }
        ensures { self.new ≡ opened self.old }
    {
        self.depth += 1;
        self.counts[self.depth] = 0;
        self.weight += 1;
    }

    fn count(&mut self)
        requires { weight_of self.old ≤ 201 }
        ensures { self.new ≡ counted self.old }
    {
        self.counts[self.depth] += 1;
        self.weight += 1;
    }

    /// Opens a `[`, which counts in the level around it.
    fn open_counted(&mut self)
        requires { weight_of self.old ≤ 200 }
        ensures { self.new ≡ opened (counted self.old) }
    {
        self.count();
        self.open();
    }

    fn restart(&mut self)
        ensures { self.new ≡ restarted self.old }
    {
        self.weight -= self.counts[self.depth];
        self.counts[self.depth] = 0;
    }

    fn close(&mut self)
        ensures { self.new ≡ closed self.old }
    {
        if self.depth > 0 {
            self.weight -= self.counts[self.depth] + 1;
            self.depth -= 1;
        }
    }

    fn close_by_brace(&mut self)
        ensures { self.new ≡ closed_by_brace self.old }
    {
        if self.depth > 0 {
            self.close();
            if self.depth <= 1 {
                self.restart();
            }
        }
    }

    fn take_sign(&mut self, sign: Punctuation)
        requires { weight_of self.old ≤ 200 }
        ensures { self.new ≡ after_sign sign self.old }
    {
        match sign {
            Punctuation::LeftParenthesis | Punctuation::LeftBrace => self.open(),
            Punctuation::LeftBracket => self.open_counted(),
            Punctuation::RightParenthesis | Punctuation::RightBracket => self.close(),
            Punctuation::RightBrace => self.close_by_brace(),
            Punctuation::Semicolon => self.restart(),
            Punctuation::Comma
            | Punctuation::Colon
            | Punctuation::ColonColon
            | Punctuation::AtSign
            | Punctuation::NumberSign => {}
            _ => self.count(),
        }
    }

    fn take_token(&mut self, kind: &TokenKind)
        requires { weight_of self.old ≤ 200 }
        ensures { self.new ≡ after_token kind.now self.old }
    {
        match kind {
            TokenKind::Punctuation(sign) => self.take_sign(*sign),
            TokenKind::Word(text) => {
                if is_counted_word(text.as_slice()) {
                    self.count();
                }
            }
            TokenKind::Number(_) | TokenKind::ByteString(_) => {}
        }
    }
}

/// Decides whether the word counts.
fn is_counted_word(text: &[u8]) -> bool
    ensures { result ≡ is_counted_word text.now }
{
    b"if".as_slice() == text
        || b"else".as_slice() == text
        || b"while".as_slice() == text
        || b"loop".as_slice() == text
        || b"return".as_slice() == text
        || b"abort".as_slice() == text
        || b"as".as_slice() == text
        || b"forall".as_slice() == text
        || b"exists".as_slice() == text
}

/// Returns the greatest weight at a token, or 201 if it is greater; 0 if there are no tokens.
///
/// Each open bracket is a level with a count, and the file is a level around all of them. The weight at a token is the
/// sum of the counts after it, plus the number of open brackets.
pub fn weight(tokens: &Tokens) -> u32
    ensures { result ≡ min WEIGHT_LIMIT (greatest_weight tokens.now) }
{
    let mut levels = Levels::new();
    let mut greatest = 0;
    for token in tokens.as_slice() {
        levels.take_token(&token.kind);
        let weight = levels.weight();
        if weight >= WEIGHT_LIMIT {
            return WEIGHT_LIMIT;
        }
        greatest = weight.max(greatest);
    }
    greatest
}
