//! Readers of the separators and the end of a comma list.

ghost use Rattle.std.specs.Prelude.{◌≡◌, ◌||◌, None, Some, MatchResult};
ghost use Rattle.parser_base.specs.TokenReading.{after_sign, before_sign};
ghost use Rattle.parser_base.specs.ListReading.{separator_at};

use crate::fault::ReadFault;
use crate::signs::{begins_with, expect_sign, skip_sign};
use tokens::token::{Punctuation, Token};

/// What follows an item of a list.
#[derive(Clone, Copy, Debug, PartialEq, Eq)]
pub enum Separator {
    /// A comma, and another item.
    Next,
    /// The end of the list.
    End,
    /// A trailing comma, and the end of the list.
    EndBehindComma,
}

/// Reads what follows an item of a list that this sign closes. Returns it and the remaining tokens.
#[tactic(auto, unfolding(crate::specs::ListReading::separator_at))]
pub fn separator_behind(
    tokens: &[Token],
    close: Punctuation,
) -> Result<(Separator, &[Token]), ReadFault>
    ensures { MatchResult result (λ read. separator_at (after_sign close) tokens.now ≡ Some (read.0, read.1.now)) (λ fault. separator_at (after_sign close) tokens.now ≡ None) }
{
    if let Some(rest) = skip_sign(tokens, close) {
        return Ok((Separator::End, rest));
    }
    let behind = expect_sign(tokens, Punctuation::Comma)?;
    match skip_sign(behind, close) {
        Some(rest) => Ok((Separator::EndBehindComma, rest)),
        None => Ok((Separator::Next, behind)),
    }
}

/// Reads what follows an item of a list that ends before this sign. Returns it and the remaining tokens.
#[tactic(auto, unfolding(crate::specs::ListReading::separator_at, crate::specs::TokenReading::before_sign))]
pub fn separator_before(
    tokens: &[Token],
    close: Punctuation,
) -> Result<(Separator, &[Token]), ReadFault>
    ensures { MatchResult result (λ read. separator_at (before_sign close) tokens.now ≡ Some (read.0, read.1.now)) (λ fault. separator_at (before_sign close) tokens.now ≡ None) }
{
    if begins_with(tokens, close) {
        return Ok((Separator::End, tokens));
    }
    let behind = expect_sign(tokens, Punctuation::Comma)?;
    if begins_with(behind, close) {
        Ok((Separator::EndBehindComma, behind))
    } else {
        Ok((Separator::Next, behind))
    }
}
