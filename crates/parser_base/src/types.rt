//! Readers of types.

ghost use Rattle.std.specs.Prelude.{length};
ghost use Rattle.syntax_tree.specs.TypeTreeData.{maybe_arguments_of};
ghost use Rattle.parser_base.specs.ReadFault.{Reads};
ghost use Rattle.parser_base.specs.TokenReading.{after_sign};
ghost use Rattle.parser_base.specs.ListReading.{comma_list_at, some_items_at};
ghost use Rattle.parser_base.specs.TypeReading.{arguments_at, maybe_arguments_at, named_at, reference_at, tuple_at, type_at, type_form};

use crate::fault::ReadFault;
use crate::lists::{Separator, separator_behind};
use crate::path::{is_single, read_path};
use crate::signs::{skip_sign, skip_word, span_of_sign};
use base::span::Span;
use std::alloc::Global;
use syntax_tree::types::{SourceType, SourceTypeNode, TypeArguments};
use tokens::token::{Punctuation, Token};

/// Reads a type nested at most `budget` deep. Returns it and the remaining tokens.
#[cycle(read_type)]
#[tactic(auto, unfolding(crate::specs::TypeReading::type_at))]
pub fn read_type(
    alloc: Global,
    tokens: &[Token],
    budget: usize,
) -> Result<(SourceType, &[Token]), ReadFault>
    ensures { Reads result (λ read. (read.0, read.1.now)) (type_at budget tokens.now) }
{
    if budget == 0 {
        return Err(ReadFault::NoTree { left: tokens.len() });
    }
    read_type_form(alloc, tokens, budget - 1)
}

/// Reads a type with inner types nested at most `budget` deep.
#[cycle(read_type)]
#[tactic(auto, unfolding(crate::specs::TypeReading::type_form))]
fn read_type_form(
    alloc: Global,
    tokens: &[Token],
    budget: usize,
) -> Result<(SourceType, &[Token]), ReadFault>
    ensures { Reads result (λ read. (read.0, read.1.now)) (type_form (type_at budget) tokens.now) }
{
    if let Some((span, rest)) = span_of_sign(tokens, Punctuation::Ampersand) {
        return read_reference(alloc, span, rest, budget);
    }
    if let Some((span, rest)) = span_of_sign(tokens, Punctuation::LeftParenthesis) {
        return read_tuple(alloc, span, rest, budget);
    }
    read_named(alloc, tokens, budget)
}

/// Reads a reference after its `&`.
#[cycle(read_type)]
#[tactic(auto, unfolding(crate::specs::TypeReading::reference_at))]
fn read_reference(
    alloc: Global,
    span: Span,
    tokens: &[Token],
    budget: usize,
) -> Result<(SourceType, &[Token]), ReadFault>
    ensures { Reads result (λ read. (read.0, read.1.now)) (reference_at (type_at budget) span tokens.now) }
{
    if let Some(rest) = skip_word(tokens, b"mut") {
        let (target, rest) = read_type(alloc, rest, budget)?;
        let node = SourceTypeNode::Mutable {
            span,
            target: Box::new(alloc, target)?,
        };
        return Ok((SourceType { node }, rest));
    }
    let (target, rest) = read_type(alloc, tokens, budget)?;
    let node = SourceTypeNode::Shared {
        span,
        target: Box::new(alloc, target)?,
    };
    Ok((SourceType { node }, rest))
}

/// Reads types after an opening parenthesis.
#[cycle(read_type)]
#[tactic(auto, unfolding(crate::specs::TypeReading::tuple_at, crate::specs::ListReading::comma_list_at))]
fn read_tuple(
    alloc: Global,
    span: Span,
    tokens: &[Token],
    budget: usize,
) -> Result<(SourceType, &[Token]), ReadFault>
    ensures { Reads result (λ read. (read.0, read.1.now)) (tuple_at (type_at budget) span tokens.now) }
{
    if let Some(rest) = skip_sign(tokens, Punctuation::RightParenthesis) {
        let node = SourceTypeNode::Tuple {
            span,
            items: Vec::new(alloc),
            last_comma: false,
        };
        return Ok((SourceType { node }, rest));
    }
    let (items, last_comma, rest) = read_types(
        alloc,
        Punctuation::RightParenthesis,
        tokens,
        budget,
    )?;
    let node = SourceTypeNode::Tuple {
        span,
        items,
        last_comma,
    };
    Ok((SourceType { node }, rest))
}

/// Reads a type that begins with a path.
#[cycle(read_type)]
#[tactic(auto, unfolding(crate::specs::TypeReading::named_at))]
fn read_named(
    alloc: Global,
    tokens: &[Token],
    budget: usize,
) -> Result<(SourceType, &[Token]), ReadFault>
    ensures { Reads result (λ read. (read.0, read.1.now)) (named_at (type_at budget) tokens.now) }
{
    let (path, rest) = read_path(alloc, tokens)?;
    if is_single(&path, b"u256") {
        return Err(ReadFault::NoTree { left: tokens.len() });
    }
    let (arguments, rest) = read_maybe_arguments(alloc, rest, budget)?;
    let node = SourceTypeNode::Named { path, arguments };
    Ok((SourceType { node }, rest))
}

/// Reads type arguments, if a `<` is here. Returns them and the remaining tokens.
#[cycle(read_type)]
#[tactic(auto, unfolding(crate::specs::TypeReading::maybe_arguments_at))]
pub fn read_maybe_arguments(
    alloc: Global,
    tokens: &[Token],
    budget: usize,
) -> Result<(Option<TypeArguments>, &[Token]), ReadFault>
    ensures { Reads result (λ read. (maybe_arguments_of read.0, read.1.now)) (maybe_arguments_at (type_at budget) tokens.now) }
{
    match skip_sign(tokens, Punctuation::Less) {
        Some(inside) => {
            let (arguments, rest) = read_arguments(alloc, inside, budget)?;
            Ok((Some(arguments), rest))
        }
        None => Ok((None, tokens)),
    }
}

/// Reads type arguments after their `<`. Returns them and the remaining tokens.
#[cycle(read_type)]
#[tactic(auto, unfolding(crate::specs::TypeReading::arguments_at))]
pub fn read_arguments(
    alloc: Global,
    tokens: &[Token],
    budget: usize,
) -> Result<(TypeArguments, &[Token]), ReadFault>
    ensures { Reads result (λ read. (read.0, read.1.now)) (arguments_at (type_at budget) tokens.now) }
{
    let (items, last_comma, rest) = read_types(alloc, Punctuation::Greater, tokens, budget)?;
    Ok((TypeArguments { items, last_comma }, rest))
}

/// Reads types separated by commas up to the closing sign. Returns the types, whether a comma follows the last, and the
/// tokens after the sign.
#[cycle(read_type)]
fn read_types(
    alloc: Global,
    close: Punctuation,
    tokens: &[Token],
    budget: usize,
) -> Result<(Vec<SourceType>, bool, &[Token]), ReadFault>
    ensures { Reads result (λ read. ((read.0.items, read.1), read.2.now)) (some_items_at (after_sign close) (type_at budget) tokens.now) }
{
    let mut items = Vec::new(alloc);
    let mut rest = tokens;
    for _ in 0..tokens.len() {
        let (item, behind) = read_type(alloc, rest, budget)?;
        items.push(item)?;
        match separator_behind(behind, close)? {
            (Separator::Next, behind) => rest = behind,
            (Separator::End, behind) => return Ok((items, false, behind)),
            (Separator::EndBehindComma, behind) => return Ok((items, true, behind)),
        }
    }
    Err(ReadFault::NoTree { left: 0 })
}
