//! Readers of spec blocks.

ghost use Rattle.parser_base.specs.ReadFault.{Reads};
ghost use Rattle.item_parser.specs.SpecBlockReading.{behind_spec, body_at, loop_at, module_at, named_at, schema_at, schema_behind_name, spec_block_at, spec_function_at};

use crate::spec::block::read_block;
use base::span::Span;
use expression_parser::spec::expression::read_spec_expression;
use parser_base::fault::ReadFault;
use parser_base::parameters::read_parameters;
use parser_base::signs::{begins_capital, expect_sign, expect_word, read_identifier, span_of_word};
use parser_base::typed_names::read_inputs;
use parser_base::types::read_type;
use std::alloc::Global;
use syntax_tree::clause::{Schema, Spec, SpecFunction};
use syntax_tree::lexeme::Identifier;
use syntax_tree::slot::Slot;
use syntax_tree::spec_expression::SpecExpression;
use tokens::token::{Punctuation, Token};

/// Reads the block of a struct or a function, from its name on.
#[tactic(auto, unfolding(crate::specs::SpecBlockReading::named_at))]
fn read_named(
    alloc: Global,
    slot: Slot,
    span: Span,
    tokens: &[Token],
    budget: usize,
) -> Result<(Spec, &[Token]), ReadFault>
    ensures { Reads result (λ read. (read.0, read.1.now)) (named_at slot budget span tokens.now) }
{
    let (name, rest) = read_identifier(alloc, tokens)?;
    let (clauses, rest) = read_block(alloc, slot, rest, budget)?;
    Ok((
        Spec::Named {
            span,
            name,
            clauses,
        },
        rest,
    ))
}

/// Reads the block of a module after its word.
#[tactic(auto, unfolding(crate::specs::SpecBlockReading::module_at))]
fn read_module(
    alloc: Global,
    span: Span,
    tokens: &[Token],
    budget: usize,
) -> Result<(Spec, &[Token]), ReadFault>
    ensures { Reads result (λ read. (read.0, read.1.now)) (module_at budget span tokens.now) }
{
    let (clauses, rest) = read_block(alloc, Slot::Module, tokens, budget)?;
    Ok((Spec::Module { span, clauses }, rest))
}

/// Reads the block of a loop after `spec`.
#[tactic(auto, unfolding(crate::specs::SpecBlockReading::loop_at))]
fn read_loop(
    alloc: Global,
    span: Span,
    tokens: &[Token],
    budget: usize,
) -> Result<(Spec, &[Token]), ReadFault>
    ensures { Reads result (λ read. (read.0, read.1.now)) (loop_at budget span tokens.now) }
{
    let (clauses, rest) = read_block(alloc, Slot::Loop, tokens, budget)?;
    Ok((Spec::Loop { span, clauses }, rest))
}

/// Reads a schema after its name.
#[tactic(auto, unfolding(crate::specs::SpecBlockReading::schema_behind_name))]
fn read_schema_behind_name(
    alloc: Global,
    span: Span,
    name: Identifier,
    tokens: &[Token],
    budget: usize,
) -> Result<(Spec, &[Token]), ReadFault>
    ensures { Reads result (λ read. (read.0, read.1.now)) (schema_behind_name budget span name tokens.now) }
{
    let (parameters, rest) = read_parameters(alloc, false, tokens)?;
    let (clauses, rest) = read_block(alloc, Slot::Schema, rest, budget)?;
    let schema = Schema {
        span,
        name,
        parameters,
        clauses,
    };
    Ok((Spec::Schema(schema), rest))
}

/// Reads a schema after its word.
#[tactic(auto, unfolding(crate::specs::SpecBlockReading::schema_at))]
fn read_schema(
    alloc: Global,
    span: Span,
    tokens: &[Token],
    budget: usize,
) -> Result<(Spec, &[Token]), ReadFault>
    ensures { Reads result (λ read. (read.0, read.1.now)) (schema_at budget span tokens.now) }
{
    let (name, rest) = read_identifier(alloc, tokens)?;
    if begins_capital(name.text.as_slice()) {
        read_schema_behind_name(alloc, span, name, rest, budget)
    } else {
        Err(ReadFault::NoTree { left: tokens.len() })
    }
}

/// Reads a spec expression in its braces.
#[tactic(auto, unfolding(crate::specs::SpecBlockReading::body_at))]
fn read_body(
    alloc: Global,
    tokens: &[Token],
    budget: usize,
) -> Result<(SpecExpression, &[Token]), ReadFault>
    ensures { Reads result (λ read. (read.0, read.1.now)) (body_at budget tokens.now) }
{
    let inside = expect_sign(tokens, Punctuation::LeftBrace)?;
    let (body, rest) = read_spec_expression(alloc, inside, budget)?;
    let rest = expect_sign(rest, Punctuation::RightBrace)?;
    Ok((body, rest))
}

/// Reads a spec function after its word.
#[tactic(auto, unfolding(crate::specs::SpecBlockReading::spec_function_at))]
fn read_spec_function(
    alloc: Global,
    span: Span,
    tokens: &[Token],
    budget: usize,
) -> Result<(Spec, &[Token]), ReadFault>
    ensures { Reads result (λ read. (read.0, read.1.now)) (spec_function_at budget span tokens.now) }
{
    let (name, rest) = read_identifier(alloc, tokens)?;
    let (parameters, rest) = read_parameters(alloc, false, rest)?;
    let inside = expect_sign(rest, Punctuation::LeftParenthesis)?;
    let (inputs, rest) = read_inputs(alloc, inside, budget)?;
    let rest = expect_sign(rest, Punctuation::Colon)?;
    let (result, rest) = read_type(alloc, rest, budget)?;
    let (body, rest) = read_body(alloc, rest, budget)?;
    let function = SpecFunction {
        span,
        name,
        parameters,
        inputs,
        result,
        body,
    };
    Ok((Spec::Function(function), rest))
}

/// Reads a spec block after its word.
#[tactic(auto, unfolding(crate::specs::SpecBlockReading::behind_spec))]
fn read_behind_spec(
    alloc: Global,
    slot: Slot,
    span: Span,
    tokens: &[Token],
    budget: usize,
) -> Result<(Spec, &[Token]), ReadFault>
    ensures { Reads result (λ read. (read.0, read.1.now)) (behind_spec slot budget span tokens.now) }
{
    match slot {
        Slot::Function | Slot::Struct => read_named(alloc, slot, span, tokens, budget),
        Slot::Module => read_module(alloc, span, expect_word(tokens, b"module")?, budget),
        Slot::Schema => read_schema(alloc, span, expect_word(tokens, b"schema")?, budget),
        Slot::SpecFunction => read_spec_function(alloc, span, expect_word(tokens, b"fun")?, budget),
        Slot::Loop => read_loop(alloc, span, tokens, budget),
    }
}

/// Reads a spec block of this slot. `budget` bounds the nesting of its types and expressions. Returns it and the
/// remaining tokens.
///
/// # Errors
///
/// `NoTree` if the tokens begin with no such block of at most this nesting, `NoMemory` if memory runs out.
#[tactic(auto, unfolding(crate::specs::SpecBlockReading::spec_block_at))]
pub fn read_spec_block(
    alloc: Global,
    slot: Slot,
    tokens: &[Token],
    budget: usize,
) -> Result<(Spec, &[Token]), ReadFault>
    ensures { Reads result (λ read. (read.0, read.1.now)) (spec_block_at slot budget tokens.now) }
{
    match span_of_word(tokens, b"spec") {
        Some((span, rest)) => read_behind_spec(alloc, slot, span, rest, budget),
        None => Err(ReadFault::NoTree { left: tokens.len() }),
    }
}
