//! Readers of patterns.

ghost use Rattle.std.specs.Prelude.{◌≡◌, length};
ghost use Rattle.syntax_tree.specs.PatternData.{field_patterns_of};
ghost use Rattle.parser_base.specs.ReadFault.{Reads};
ghost use Rattle.parser_base.specs.TokenReading.{after_sign};
ghost use Rattle.parser_base.specs.ListReading.{comma_list_at, some_items_at};
ghost use Rattle.parser_base.specs.TypeReading.{type_at};
ghost use Rattle.parser_base.specs.PatternReading.{bound_by, field_pattern_at, opens_fields, pattern_at, pattern_behind, pattern_form, short_field, tuple_pattern_at, unpack_at};

use crate::fault::ReadFault;
use crate::lists::{Separator, separator_behind};
use crate::path::read_path;
use crate::signs::{
    begins_small, begins_with, expect_sign, read_identifier, skip_sign, span_of_sign,
};
use crate::types::read_maybe_arguments;
use base::span::Span;
use std::alloc::Global;
use syntax_tree::lexeme::Identifier;
use syntax_tree::path::Path;
use syntax_tree::pattern::{FieldPattern, Pattern, PatternNode};
use tokens::token::{Punctuation, Token};

/// Reads a pattern nested at most `budget` deep. Returns it and the remaining tokens.
#[cycle(read_pattern)]
#[tactic(auto, unfolding(crate::specs::PatternReading::pattern_at))]
pub fn read_pattern(
    alloc: Global,
    tokens: &[Token],
    budget: usize,
) -> Result<(Pattern, &[Token]), ReadFault>
    ensures { Reads result (λ read. (read.0, read.1.now)) (pattern_at budget tokens.now) }
{
    if budget == 0 {
        return Err(ReadFault::NoTree { left: tokens.len() });
    }
    read_pattern_form(alloc, tokens, budget - 1)
}

/// Reads a pattern with inner patterns nested at most `budget` deep.
#[cycle(read_pattern)]
#[tactic(auto, unfolding(crate::specs::PatternReading::pattern_form))]
fn read_pattern_form(
    alloc: Global,
    tokens: &[Token],
    budget: usize,
) -> Result<(Pattern, &[Token]), ReadFault>
    ensures { Reads result (λ read. (read.0, read.1.now)) (pattern_form (type_at budget) (pattern_at budget) tokens.now) }
{
    if let Some((span, rest)) = span_of_sign(tokens, Punctuation::LeftParenthesis) {
        return read_tuple_pattern(alloc, span, rest, budget);
    }
    let (path, rest) = read_path(alloc, tokens)?;
    read_pattern_behind(alloc, path, rest, budget)
}

/// Reads a pattern after the path that begins it.
#[cycle(read_pattern)]
#[tactic(auto, unfolding(crate::specs::PatternReading::pattern_behind))]
fn read_pattern_behind(
    alloc: Global,
    path: Path,
    tokens: &[Token],
    budget: usize,
) -> Result<(Pattern, &[Token]), ReadFault>
    ensures { Reads result (λ read. (read.0, read.1.now)) (pattern_behind (type_at budget) (pattern_at budget) path tokens.now) }
{
    if opens_fields(tokens) {
        return read_unpack(alloc, path, tokens, budget);
    }
    match bound_by(path) {
        Some(pattern) => Ok((pattern, tokens)),
        None => Err(ReadFault::NoTree { left: tokens.len() }),
    }
}

/// Decides whether a path begins a struct pattern: type arguments or fields follow it.
#[tactic(auto, unfolding(crate::specs::PatternReading::opens_fields))]
fn opens_fields(tokens: &[Token]) -> bool
    ensures { result ≡ opens_fields tokens.now }
{
    begins_with(tokens, Punctuation::Less) || begins_with(tokens, Punctuation::LeftBrace)
}

/// Returns the pattern that a path alone is.
fn bound_by(path: Path) -> Option<Pattern>
    ensures { result ≡ bound_by path }
{
    let Path::Name(name) = path else {
        return None;
    };
    if name.text.as_slice() == b"_".as_slice() {
        Some(Pattern {
            node: PatternNode::Ignore(name.span),
        })
    } else if begins_small(name.text.as_slice()) {
        Some(Pattern {
            node: PatternNode::Bind(name),
        })
    } else {
        None
    }
}

/// Reads patterns after an opening parenthesis.
#[cycle(read_pattern)]
#[tactic(auto, unfolding(crate::specs::PatternReading::tuple_pattern_at))]
fn read_tuple_pattern(
    alloc: Global,
    span: Span,
    tokens: &[Token],
    budget: usize,
) -> Result<(Pattern, &[Token]), ReadFault>
    ensures { Reads result (λ read. (read.0, read.1.now)) (tuple_pattern_at (pattern_at budget) span tokens.now) }
{
    let (items, last_comma, rest) = read_patterns(alloc, tokens, budget)?;
    let node = PatternNode::Tuple {
        span,
        items,
        last_comma,
    };
    Ok((Pattern { node }, rest))
}

/// Reads patterns separated by commas up to a parenthesis. Returns the patterns, whether a comma follows the last, and
/// the tokens after the parenthesis.
#[cycle(read_pattern)]
fn read_patterns(
    alloc: Global,
    tokens: &[Token],
    budget: usize,
) -> Result<(Vec<Pattern>, bool, &[Token]), ReadFault>
    ensures { Reads result (λ read. ((read.0.items, read.1), read.2.now)) (some_items_at (after_sign Punctuation.RightParenthesis) (pattern_at budget) tokens.now) }
{
    let mut items = Vec::new(alloc);
    let mut rest = tokens;
    for _ in 0..tokens.len() {
        let (item, behind) = read_pattern(alloc, rest, budget)?;
        items.push(item)?;
        match separator_behind(behind, Punctuation::RightParenthesis)? {
            (Separator::Next, behind) => rest = behind,
            (Separator::End, behind) => return Ok((items, false, behind)),
            (Separator::EndBehindComma, behind) => return Ok((items, true, behind)),
        }
    }
    Err(ReadFault::NoTree { left: 0 })
}

/// Reads the fields of a struct pattern, between braces, after its path.
#[cycle(read_pattern)]
#[tactic(auto, unfolding(crate::specs::PatternReading::unpack_at, crate::specs::ListReading::comma_list_at))]
fn read_unpack(
    alloc: Global,
    path: Path,
    tokens: &[Token],
    budget: usize,
) -> Result<(Pattern, &[Token]), ReadFault>
    ensures { Reads result (λ read. (read.0, read.1.now)) (unpack_at (type_at budget) (pattern_at budget) path tokens.now) }
{
    let (arguments, rest) = read_maybe_arguments(alloc, tokens, budget)?;
    let rest = expect_sign(rest, Punctuation::LeftBrace)?;
    let (fields, last_comma, rest) = read_field_patterns(alloc, rest, budget)?;
    let node = PatternNode::Unpack {
        path,
        arguments,
        fields,
        last_comma,
    };
    Ok((Pattern { node }, rest))
}

/// Reads any number of fields after a brace. Returns the fields, whether a comma follows the last, and the tokens after
/// the closing brace.
#[cycle(read_pattern)]
#[tactic(auto, unfolding(crate::specs::ListReading::comma_list_at))]
fn read_field_patterns(
    alloc: Global,
    tokens: &[Token],
    budget: usize,
) -> Result<(Vec<FieldPattern>, bool, &[Token]), ReadFault>
    ensures { Reads result (λ read. ((read.0.items, read.1), read.2.now)) (comma_list_at (after_sign Punctuation.RightBrace) (field_pattern_at (pattern_at budget)) tokens.now) }
{
    match skip_sign(tokens, Punctuation::RightBrace) {
        Some(rest) => Ok((Vec::new(alloc), false, rest)),
        None => read_some_field_patterns(alloc, tokens, budget),
    }
}

/// Reads one or more fields after a brace.
#[cycle(read_pattern)]
fn read_some_field_patterns(
    alloc: Global,
    tokens: &[Token],
    budget: usize,
) -> Result<(Vec<FieldPattern>, bool, &[Token]), ReadFault>
    ensures { Reads result (λ read. ((read.0.items, read.1), read.2.now)) (some_items_at (after_sign Punctuation.RightBrace) (field_pattern_at (pattern_at budget)) tokens.now) }
{
    let mut items = Vec::new(alloc);
    let mut rest = tokens;
    for _ in 0..tokens.len() {
        let (item, behind) = read_field_pattern(alloc, rest, budget)?;
        items.push(item)?;
        match separator_behind(behind, Punctuation::RightBrace)? {
            (Separator::Next, behind) => rest = behind,
            (Separator::End, behind) => return Ok((items, false, behind)),
            (Separator::EndBehindComma, behind) => return Ok((items, true, behind)),
        }
    }
    Err(ReadFault::NoTree { left: 0 })
}

/// Reads a field of a struct and its pattern.
#[cycle(read_pattern)]
#[tactic(auto, unfolding(crate::specs::PatternReading::field_pattern_at))]
fn read_field_pattern(
    alloc: Global,
    tokens: &[Token],
    budget: usize,
) -> Result<(FieldPattern, &[Token]), ReadFault>
    ensures { Reads result (λ read. (read.0, read.1.now)) (field_pattern_at (pattern_at budget) tokens.now) }
{
    let (name, rest) = read_identifier(alloc, tokens)?;
    match skip_sign(rest, Punctuation::Colon) {
        Some(behind) => {
            let (pattern, behind) = read_pattern(alloc, behind, budget)?;
            let field = FieldPattern {
                name,
                pattern: Some(pattern),
            };
            Ok((field, behind))
        }
        None => short_field(name, rest),
    }
}

/// Reads a field that is bound to the local of its name.
#[tactic(auto, unfolding(crate::specs::PatternReading::short_field))]
fn short_field(name: Identifier, tokens: &[Token]) -> Result<(FieldPattern, &[Token]), ReadFault>
    ensures { Reads result (λ read. (read.0, read.1.now)) (short_field name tokens.now) }
{
    if begins_small(name.text.as_slice()) {
        let field = FieldPattern {
            name,
            pattern: None,
        };
        Ok((field, tokens))
    } else {
        Err(ReadFault::NoTree { left: tokens.len() })
    }
}
