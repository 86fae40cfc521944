//! Readers of structs.

ghost use Rattle.parser_base.specs.ReadFault.{Reads};
ghost use Rattle.parser_base.specs.TypeReading.{type_at};
ghost use Rattle.item_parser.specs.StructReading.{struct_at, struct_behind_name};

use base::span::Span;
use parser_base::abilities::read_abilities;
use parser_base::fault::ReadFault;
use parser_base::parameters::read_parameters;
use parser_base::signs::{begins_capital, expect_sign, read_identifier};
use parser_base::typed_names::read_fields;
use std::alloc::Global;
use syntax_tree::lexeme::Identifier;
use syntax_tree::member::Struct;
use tokens::token::{Punctuation, Token};

/// Reads a struct after its name.
#[tactic(auto, unfolding(crate::specs::StructReading::struct_behind_name))]
fn read_struct_behind_name(
    alloc: Global,
    span: Span,
    name: Identifier,
    tokens: &[Token],
    budget: usize,
) -> Result<(Struct, &[Token]), ReadFault>
    ensures { Reads result (λ read. (read.0, read.1.now)) (struct_behind_name (type_at budget) span name tokens.now) }
{
    let (parameters, rest) = read_parameters(alloc, true, tokens)?;
    let (abilities, rest) = read_abilities(alloc, rest)?;
    let inside = expect_sign(rest, Punctuation::LeftBrace)?;
    let (fields, rest) = read_fields(alloc, inside, budget)?;
    Ok((
        Struct {
            span,
            name,
            parameters,
            abilities,
            fields,
        },
        rest,
    ))
}

/// Reads a struct after its word at `span`. Returns it and the remaining tokens. The types of its fields are nested at
/// most `budget` deep.
#[tactic(auto, unfolding(crate::specs::StructReading::struct_at))]
pub fn read_struct(
    alloc: Global,
    span: Span,
    tokens: &[Token],
    budget: usize,
) -> Result<(Struct, &[Token]), ReadFault>
    ensures { Reads result (λ read. (read.0, read.1.now)) (struct_at (type_at budget) span tokens.now) }
{
    let (name, rest) = read_identifier(alloc, tokens)?;
    if begins_capital(name.text.as_slice()) {
        read_struct_behind_name(alloc, span, name, rest, budget)
    } else {
        Err(ReadFault::NoTree { left: tokens.len() })
    }
}
