//! Readers of type parameters.

ghost use Rattle.std.specs.Prelude.{length};
ghost use Rattle.parser_base.specs.ReadFault.{Reads};
ghost use Rattle.parser_base.specs.TokenReading.{after_sign};
ghost use Rattle.parser_base.specs.ListReading.{some_items_at};
ghost use Rattle.parser_base.specs.ParameterReading.{listed_parameters_at, named_parameter_at, parameter_at, parameters_at};

use crate::abilities::read_constraint;
use crate::fault::ReadFault;
use crate::lists::{Separator, separator_behind};
use crate::signs::{read_identifier, skip_sign, skip_word};
use std::alloc::Global;
use syntax_tree::member::{TypeParameter, TypeParameters};
use tokens::token::{Punctuation, Token};

/// Reads a type parameter from its name on.
#[tactic(auto, unfolding(crate::specs::ParameterReading::named_parameter_at))]
fn read_named_parameter(
    alloc: Global,
    is_phantom: bool,
    tokens: &[Token],
) -> Result<(TypeParameter, &[Token]), ReadFault>
    ensures { Reads result (λ read. (read.0, read.1.now)) (named_parameter_at is_phantom tokens.now) }
{
    let (name, rest) = read_identifier(alloc, tokens)?;
    let (abilities, rest) = read_constraint(alloc, rest)?;
    Ok((
        TypeParameter {
            is_phantom,
            name,
            abilities,
        },
        rest,
    ))
}

/// Reads a type parameter. `phantom` is allowed only before one of a struct. Returns it and the remaining tokens.
#[tactic(auto, unfolding(crate::specs::ParameterReading::parameter_at))]
fn read_parameter(
    alloc: Global,
    of_struct: bool,
    tokens: &[Token],
) -> Result<(TypeParameter, &[Token]), ReadFault>
    ensures { Reads result (λ read. (read.0, read.1.now)) (parameter_at of_struct tokens.now) }
{
    let Some(rest) = skip_word(tokens, b"phantom") else {
        return read_named_parameter(alloc, false, tokens);
    };
    if of_struct {
        read_named_parameter(alloc, true, rest)
    } else {
        Err(ReadFault::NoTree { left: tokens.len() })
    }
}

/// Reads type parameters up to the closing `>`. Returns the parameters, whether a comma follows the last, and the
/// tokens after the `>`.
fn read_parameter_list(
    alloc: Global,
    of_struct: bool,
    tokens: &[Token],
) -> Result<(Vec<TypeParameter>, bool, &[Token]), ReadFault>
    ensures { Reads result (λ read. ((read.0.items, read.1), read.2.now)) (some_items_at (after_sign Punctuation.Greater) (parameter_at of_struct) tokens.now) }
{
    let mut items = Vec::new(alloc);
    let mut rest = tokens;
    for _ in 0..tokens.len() {
        let (item, behind) = read_parameter(alloc, of_struct, rest)?;
        items.push(item)?;
        match separator_behind(behind, Punctuation::Greater)? {
            (Separator::Next, behind) => rest = behind,
            (Separator::End, behind) => return Ok((items, false, behind)),
            (Separator::EndBehindComma, behind) => return Ok((items, true, behind)),
        }
    }
    Err(ReadFault::NoTree { left: 0 })
}

/// Reads type parameters after their `<`.
#[tactic(auto, unfolding(crate::specs::ParameterReading::listed_parameters_at))]
fn read_listed_parameters(
    alloc: Global,
    of_struct: bool,
    tokens: &[Token],
) -> Result<(TypeParameters, &[Token]), ReadFault>
    ensures { Reads result (λ read. (read.0, read.1.now)) (listed_parameters_at of_struct tokens.now) }
{
    let (items, last_comma, rest) = read_parameter_list(alloc, of_struct, tokens)?;
    Ok((TypeParameters { items, last_comma }, rest))
}

/// Reads type parameters, if `<` is here. Returns them and the remaining tokens. `phantom` is allowed only before those
/// of a struct.
#[tactic(auto, unfolding(crate::specs::ParameterReading::parameters_at))]
pub fn read_parameters(
    alloc: Global,
    of_struct: bool,
    tokens: &[Token],
) -> Result<(Option<TypeParameters>, &[Token]), ReadFault>
    ensures { Reads result (λ read. (read.0, read.1.now)) (parameters_at of_struct tokens.now) }
{
    let Some(inside) = skip_sign(tokens, Punctuation::Less) else {
        return Ok((None, tokens));
    };
    let (parameters, rest) = read_listed_parameters(alloc, of_struct, inside)?;
    Ok((Some(parameters), rest))
}
