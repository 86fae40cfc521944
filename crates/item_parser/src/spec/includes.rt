//! Readers of `include` clauses.

ghost use Rattle.std.specs.Prelude.{true, length};
ghost use Rattle.parser_base.specs.ReadFault.{Reads};
ghost use Rattle.parser_base.specs.TokenReading.{after_sign};
ghost use Rattle.parser_base.specs.ListReading.{comma_list_at, some_items_at};
ghost use Rattle.parser_base.specs.TypeReading.{type_at};
ghost use Rattle.expression_parser.specs.SpecReading.{spec_at, spec_field_at};
ghost use Rattle.item_parser.specs.ClauseReading.{bindings_at, bindings_behind, given_at, include_at};

use base::span::Span;
use expression_parser::spec::expression::read_spec_expression;
use parser_base::fault::ReadFault;
use parser_base::lists::{Separator, separator_behind};
use parser_base::path::read_path;
use parser_base::signs::{expect_sign, read_identifier, skip_sign};
use parser_base::types::read_arguments;
use std::alloc::Global;
use syntax_tree::clause::{Bindings, Clause, Include};
use syntax_tree::spec_expression::SpecField;
use syntax_tree::types::TypeArguments;
use tokens::token::{Punctuation, Token};

/// Reads type arguments, if a `<` is here. Returns them and the remaining tokens.
#[tactic(auto, unfolding(crate::specs::ClauseReading::given_at))]
fn read_given(
    alloc: Global,
    tokens: &[Token],
    budget: usize,
) -> Result<(Option<TypeArguments>, &[Token]), ReadFault>
    ensures { Reads result (λ read. (read.0, read.1.now)) (given_at (type_at budget) tokens.now) }
{
    let Some(inside) = skip_sign(tokens, Punctuation::Less) else {
        return Ok((None, tokens));
    };
    let (arguments, rest) = read_arguments(alloc, inside, budget)?;
    Ok((Some(arguments), rest))
}

/// Reads the binding of one variable. Returns it and the remaining tokens.
#[tactic(auto, unfolding(expression_parser::specs::SpecReading::spec_field_at))]
fn read_binding(
    alloc: Global,
    tokens: &[Token],
    budget: usize,
) -> Result<(SpecField, &[Token]), ReadFault>
    ensures { Reads result (λ read. (read.0, read.1.now)) (spec_field_at (spec_at budget true 0) tokens.now) }
{
    let (name, rest) = read_identifier(alloc, tokens)?;
    let Some(rest) = skip_sign(rest, Punctuation::Colon) else {
        return Ok((SpecField { name, value: None }, rest));
    };
    let (value, rest) = read_spec_expression(alloc, rest, budget)?;
    Ok((
        SpecField {
            name,
            value: Some(value),
        },
        rest,
    ))
}

/// Reads the bindings of one or more variables, up to the closing brace. Returns the bindings, whether a comma follows
/// the last, and the tokens after the brace.
fn read_some_bindings(
    alloc: Global,
    tokens: &[Token],
    budget: usize,
) -> Result<(Vec<SpecField>, bool, &[Token]), ReadFault>
    ensures { Reads result (λ read. ((read.0.items, read.1), read.2.now)) (some_items_at (after_sign Punctuation.RightBrace) (spec_field_at (spec_at budget true 0)) tokens.now) }
{
    let mut items = Vec::new(alloc);
    let mut rest = tokens;
    for _ in 0..tokens.len() {
        let (item, behind) = read_binding(alloc, rest, budget)?;
        items.push(item)?;
        match separator_behind(behind, Punctuation::RightBrace)? {
            (Separator::Next, behind) => rest = behind,
            (Separator::End, behind) => return Ok((items, false, behind)),
            (Separator::EndBehindComma, behind) => return Ok((items, true, behind)),
        }
    }
    Err(ReadFault::NoTree { left: 0 })
}

/// Reads the bindings of any number of variables, up to the closing brace.
#[tactic(auto, unfolding(parser_base::specs::ListReading::comma_list_at))]
fn read_binding_list(
    alloc: Global,
    tokens: &[Token],
    budget: usize,
) -> Result<(Vec<SpecField>, bool, &[Token]), ReadFault>
    ensures { Reads result (λ read. ((read.0.items, read.1), read.2.now)) (comma_list_at (after_sign Punctuation.RightBrace) (spec_field_at (spec_at budget true 0)) tokens.now) }
{
    if let Some(rest) = skip_sign(tokens, Punctuation::RightBrace) {
        return Ok((Vec::new(alloc), false, rest));
    }
    read_some_bindings(alloc, tokens, budget)
}

/// Reads the bindings of the variables of a schema, after the opening brace.
#[tactic(auto, unfolding(crate::specs::ClauseReading::bindings_behind))]
fn read_bindings_behind(
    alloc: Global,
    tokens: &[Token],
    budget: usize,
) -> Result<(Bindings, &[Token]), ReadFault>
    ensures { Reads result (λ read. (read.0, read.1.now)) (bindings_behind budget tokens.now) }
{
    let (items, last_comma, rest) = read_binding_list(alloc, tokens, budget)?;
    Ok((Bindings { items, last_comma }, rest))
}

/// Reads the bindings of the variables of a schema, if a brace is here. Returns them and the remaining tokens.
#[tactic(auto, unfolding(crate::specs::ClauseReading::bindings_at))]
fn read_bindings(
    alloc: Global,
    tokens: &[Token],
    budget: usize,
) -> Result<(Option<Bindings>, &[Token]), ReadFault>
    ensures { Reads result (λ read. (read.0, read.1.now)) (bindings_at budget tokens.now) }
{
    let Some(inside) = skip_sign(tokens, Punctuation::LeftBrace) else {
        return Ok((None, tokens));
    };
    let (bindings, rest) = read_bindings_behind(alloc, inside, budget)?;
    Ok((Some(bindings), rest))
}

/// Reads an `include` after its word.
#[tactic(auto, unfolding(crate::specs::ClauseReading::include_at))]
pub fn read_include(
    alloc: Global,
    span: Span,
    tokens: &[Token],
    budget: usize,
) -> Result<(Clause, &[Token]), ReadFault>
    ensures { Reads result (λ read. (read.0, read.1.now)) (include_at budget span tokens.now) }
{
    let (schema, rest) = read_path(alloc, tokens)?;
    let (arguments, rest) = read_given(alloc, rest, budget)?;
    let (bindings, rest) = read_bindings(alloc, rest, budget)?;
    let rest = expect_sign(rest, Punctuation::Semicolon)?;
    let include = Include {
        span,
        schema,
        arguments,
        bindings,
    };
    Ok((Clause::Include(include), rest))
}
