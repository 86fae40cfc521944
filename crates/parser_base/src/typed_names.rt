//! Readers of names with their types: the fields of a struct, and the inputs of a function.

ghost use Rattle.std.specs.Prelude.{◌≡◌, length};
ghost use Rattle.parser_base.specs.ReadFault.{Reads};
ghost use Rattle.parser_base.specs.TokenReading.{after_sign};
ghost use Rattle.parser_base.specs.ListReading.{comma_list_at, some_items_at};
ghost use Rattle.parser_base.specs.TypeReading.{type_at};
ghost use Rattle.parser_base.specs.TypedNameReading.{fields_at, fits, inputs_at, typed_at, typed_name_at, typed_names_at};

use crate::fault::ReadFault;
use crate::lists::{Separator, separator_behind};
use crate::signs::{begins_small, expect_sign, read_identifier, skip_sign};
use crate::types::read_type;
use std::alloc::Global;
use syntax_tree::lexeme::Identifier;
use syntax_tree::member::{TypedName, TypedNames};
use tokens::token::{Punctuation, Token};

/// Reads the type after a name. Returns the name with its type, and the remaining tokens.
#[tactic(auto, unfolding(crate::specs::TypedNameReading::typed_at))]
fn read_typed(
    alloc: Global,
    name: Identifier,
    tokens: &[Token],
    budget: usize,
) -> Result<(TypedName, &[Token]), ReadFault>
    ensures { Reads result (λ read. (read.0, read.1.now)) (typed_at (type_at budget) name tokens.now) }
{
    let rest = expect_sign(tokens, Punctuation::Colon)?;
    let (annotation, rest) = read_type(alloc, rest, budget)?;
    Ok((TypedName { name, annotation }, rest))
}

/// Decides whether a name has a permitted first letter: inputs of a function begin with a to z or `_`.
fn fits(of_function: bool, word: &[u8]) -> bool
    ensures { result ≡ fits of_function word.now }
{
    if of_function {
        begins_small(word)
    } else {
        true
    }
}

/// Reads a name with its type. Returns it and the remaining tokens.
#[tactic(auto, unfolding(crate::specs::TypedNameReading::typed_name_at))]
fn read_typed_name(
    alloc: Global,
    of_function: bool,
    tokens: &[Token],
    budget: usize,
) -> Result<(TypedName, &[Token]), ReadFault>
    ensures { Reads result (λ read. (read.0, read.1.now)) (typed_name_at of_function (type_at budget) tokens.now) }
{
    let (name, rest) = read_identifier(alloc, tokens)?;
    if fits(of_function, name.text.as_slice()) {
        read_typed(alloc, name, rest, budget)
    } else {
        Err(ReadFault::NoTree { left: tokens.len() })
    }
}

/// Reads names with their types up to the closing sign. Returns the names, whether a comma follows the last, and the
/// tokens after the sign.
fn read_some_typed_names(
    alloc: Global,
    close: Punctuation,
    of_function: bool,
    tokens: &[Token],
    budget: usize,
) -> Result<(Vec<TypedName>, bool, &[Token]), ReadFault>
    ensures { Reads result (λ read. ((read.0.items, read.1), read.2.now)) (some_items_at (after_sign close) (typed_name_at of_function (type_at budget)) tokens.now) }
{
    let mut items = Vec::new(alloc);
    let mut rest = tokens;
    for _ in 0..tokens.len() {
        let (item, behind) = read_typed_name(alloc, of_function, rest, budget)?;
        items.push(item)?;
        match separator_behind(behind, close)? {
            (Separator::Next, behind) => rest = behind,
            (Separator::End, behind) => return Ok((items, false, behind)),
            (Separator::EndBehindComma, behind) => return Ok((items, true, behind)),
        }
    }
    Err(ReadFault::NoTree { left: 0 })
}

/// Reads any number of names with their types up to the closing sign.
#[tactic(auto, unfolding(crate::specs::ListReading::comma_list_at))]
fn read_typed_name_list(
    alloc: Global,
    close: Punctuation,
    of_function: bool,
    tokens: &[Token],
    budget: usize,
) -> Result<(Vec<TypedName>, bool, &[Token]), ReadFault>
    ensures { Reads result (λ read. ((read.0.items, read.1), read.2.now)) (comma_list_at (after_sign close) (typed_name_at of_function (type_at budget)) tokens.now) }
{
    if let Some(rest) = skip_sign(tokens, close) {
        return Ok((Vec::new(alloc), false, rest));
    }
    read_some_typed_names(alloc, close, of_function, tokens, budget)
}

/// Reads names with their types after the opening sign.
#[tactic(auto, unfolding(crate::specs::TypedNameReading::typed_names_at))]
fn read_typed_names(
    alloc: Global,
    close: Punctuation,
    of_function: bool,
    tokens: &[Token],
    budget: usize,
) -> Result<(TypedNames, &[Token]), ReadFault>
    ensures { Reads result (λ read. (read.0, read.1.now)) (typed_names_at close of_function (type_at budget) tokens.now) }
{
    let (items, last_comma, rest) = read_typed_name_list(
        alloc,
        close,
        of_function,
        tokens,
        budget,
    )?;
    Ok((TypedNames { items, last_comma }, rest))
}

/// Reads the fields of a struct after their brace. Returns them and the tokens after the closing brace.
#[tactic(auto, unfolding(crate::specs::TypedNameReading::fields_at))]
pub fn read_fields(
    alloc: Global,
    tokens: &[Token],
    budget: usize,
) -> Result<(TypedNames, &[Token]), ReadFault>
    ensures { Reads result (λ read. (read.0, read.1.now)) (fields_at (type_at budget) tokens.now) }
{
    read_typed_names(alloc, Punctuation::RightBrace, false, tokens, budget)
}

/// Reads the inputs of a function after their parenthesis. Returns them and the tokens after the closing one.
#[tactic(auto, unfolding(crate::specs::TypedNameReading::inputs_at))]
pub fn read_inputs(
    alloc: Global,
    tokens: &[Token],
    budget: usize,
) -> Result<(TypedNames, &[Token]), ReadFault>
    ensures { Reads result (λ read. (read.0, read.1.now)) (inputs_at (type_at budget) tokens.now) }
{
    read_typed_names(alloc, Punctuation::RightParenthesis, true, tokens, budget)
}
