//! Readers of the leaves of spec expressions: literals, and the words of quantifiers.

ghost use Rattle.std.specs.Prelude.{◌≡◌, None, Some, MatchResult};
ghost use Rattle.std.specs.Option.{option_map};
ghost use Rattle.parser_base.specs.ReadFault.{Reads};
ghost use Rattle.parser_base.specs.ListReading.{separator_at};
ghost use Rattle.expression_parser.specs.LeafReading.{address_literal_at, has_postfix, opens_bind, pack_opened, quantifier_at, quantifier_word_at};
ghost use Rattle.expression_parser.specs.SpecReading.{binds_end};

use base::span::Span;
use parser_base::fault::ReadFault;
use parser_base::lists::Separator;
use parser_base::path::{last_name, read_address};
use parser_base::signs::{
    begins_capital, begins_with, expect_sign, is_keyword, skip_sign, skip_word, span_of_word,
};
use std::alloc::Global;
use syntax_tree::literal::Literal;
use syntax_tree::path::Path;
use syntax_tree::spec_expression::operator::Quantifier;
use tokens::token::{Punctuation, Token, TokenKind};

/// Reads an address after its `@`. Returns it and the remaining tokens.
#[tactic(auto, unfolding(crate::specs::LeafReading::address_literal_at))]
pub fn read_address_literal(
    alloc: Global,
    span: Span,
    tokens: &[Token],
) -> Result<(Literal, &[Token]), ReadFault>
    ensures { Reads result (λ read. (read.0, read.1.now)) (address_literal_at span tokens.now) }
{
    let (address, rest) = read_address(alloc, tokens)?;
    Ok((Literal::Address { span, address }, rest))
}

/// Decides whether a bind is here: a name with a type or a range.
#[tactic(auto, unfolding(crate::specs::LeafReading::opens_bind, parser_base::specs::TokenReading::identifier_at))]
fn opens_bind(tokens: &[Token]) -> bool
    ensures { result ≡ opens_bind tokens.now }
{
    let Some((token, rest)) = tokens.split_first() else {
        return false;
    };
    match &token.kind {
        TokenKind::Word(name) if !is_keyword(name.as_slice()) => {
            begins_with(rest, Punctuation::Colon) || skip_word(rest, b"in").is_some()
        }
        _ => false,
    }
}

/// Reads the word of a quantifier. Returns the quantifier, its span and the remaining tokens.
#[tactic(auto, unfolding(crate::specs::LeafReading::quantifier_word_at))]
fn span_of_quantifier(tokens: &[Token]) -> Option<(Quantifier, Span, &[Token])>
    ensures { option_map (λ read. ((read.0, read.1), read.2.now)) result ≡ quantifier_word_at tokens.now }
{
    if let Some((span, rest)) = span_of_word(tokens, b"forall") {
        return Some((Quantifier::ForAll, span, rest));
    }
    let (span, rest) = span_of_word(tokens, b"exists")?;
    Some((Quantifier::Exists, span, rest))
}

/// Reads the word of a quantifier, if a bind follows it; otherwise the word is a name. Returns the quantifier, its span
/// and the remaining tokens.
#[tactic(auto, unfolding(crate::specs::LeafReading::quantifier_at))]
pub fn read_quantifier(tokens: &[Token]) -> Option<(Quantifier, Span, &[Token])>
    ensures { option_map (λ read. ((read.0, read.1), read.2.now)) result ≡ quantifier_at tokens.now }
{
    let (quantifier, span, rest) = span_of_quantifier(tokens)?;
    if opens_bind(rest) {
        Some((quantifier, span, rest))
    } else {
        None
    }
}

/// Decides whether a field or an index follows a term.
#[tactic(auto, unfolding(crate::specs::LeafReading::has_postfix))]
pub fn has_postfix(tokens: &[Token]) -> bool
    ensures { result ≡ has_postfix tokens.now }
{
    begins_with(tokens, Punctuation::Period) || begins_with(tokens, Punctuation::LeftBracket)
}

/// Skips the `{` of a pack, if a pack is allowed and one follows this path. Returns the remaining tokens.
#[tactic(auto, unfolding(crate::specs::LeafReading::pack_opened))]
pub fn pack_opened<'a>(packs: bool, path: &Path, tokens: &'a [Token]) -> Option<&'a [Token]>
    ensures { option_map (λ rest. rest.now) result ≡ pack_opened packs path.now tokens.now }
{
    if packs && begins_capital(last_name(path)) {
        skip_sign(tokens, Punctuation::LeftBrace)
    } else {
        None
    }
}

/// Returns the tokens unchanged if binds end here: triggers or the body follow.
#[tactic(auto, unfolding(crate::specs::SpecReading::binds_end))]
fn binds_end(tokens: &[Token]) -> Option<&[Token]>
    ensures { option_map (λ rest. rest.now) result ≡ binds_end tokens.now }
{
    if begins_with(tokens, Punctuation::LeftBrace) || begins_with(tokens, Punctuation::Colon) {
        Some(tokens)
    } else {
        None
    }
}

/// Reads what follows a bind. Returns it and the remaining tokens.
#[tactic(auto, unfolding(parser_base::specs::ListReading::separator_at))]
pub fn separator_of_binds(tokens: &[Token]) -> Result<(Separator, &[Token]), ReadFault>
    ensures { MatchResult result (λ read. separator_at binds_end tokens.now ≡ Some (read.0, read.1.now)) (λ fault. separator_at binds_end tokens.now ≡ None) }
{
    if let Some(rest) = binds_end(tokens) {
        return Ok((Separator::End, rest));
    }
    let behind = expect_sign(tokens, Punctuation::Comma)?;
    match binds_end(behind) {
        Some(rest) => Ok((Separator::EndBehindComma, rest)),
        None => Ok((Separator::Next, behind)),
    }
}
