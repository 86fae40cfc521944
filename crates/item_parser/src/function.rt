//! Readers of functions.

ghost use Rattle.parser_base.specs.ReadFault.{Reads};
ghost use Rattle.item_parser.specs.MemberReading.{function_at, function_behind, signature_at};

use crate::header::{read_acquires, read_entry, read_visibility};
use base::span::Span;
use expression_parser::block::read_block;
use parser_base::fault::ReadFault;
use parser_base::leaf::read_annotation;
use parser_base::parameters::read_parameters;
use parser_base::signs::{expect_sign, read_identifier, span_of_sign, span_of_word};
use parser_base::typed_names::read_inputs;
use std::alloc::Global;
use syntax_tree::lexeme::Identifier;
use syntax_tree::member::{Function, Paths, TypeParameters, TypedNames, Visibility};
use syntax_tree::types::SourceType;
use tokens::token::{Punctuation, Token};

/// The parts between the word `fun` and the body.
#[derive(Drop)]
pub struct Signature {
    pub name: Identifier,
    pub parameters: Option<TypeParameters>,
    pub inputs: TypedNames,
    pub result: Option<SourceType>,
    pub acquires: Option<Paths>,
}

/// Reads the signature of a function after its word.
#[tactic(auto, unfolding(crate::specs::MemberReading::signature_at))]
fn read_signature(
    alloc: Global,
    tokens: &[Token],
    budget: usize,
) -> Result<(Signature, &[Token]), ReadFault>
    ensures { Reads result (λ read. (read.0, read.1.now)) (signature_at budget tokens.now) }
{
    let (name, rest) = read_identifier(alloc, tokens)?;
    let (parameters, rest) = read_parameters(alloc, false, rest)?;
    let rest = expect_sign(rest, Punctuation::LeftParenthesis)?;
    let (inputs, rest) = read_inputs(alloc, rest, budget)?;
    let (result, rest) = read_annotation(alloc, rest, budget)?;
    let (acquires, rest) = read_acquires(alloc, rest)?;
    let signature = Signature {
        name,
        parameters,
        inputs,
        result,
        acquires,
    };
    Ok((signature, rest))
}

/// Reads a function after its word.
#[tactic(auto, unfolding(crate::specs::MemberReading::function_behind))]
fn read_function_behind(
    alloc: Global,
    visibility: Visibility,
    entry: Option<Span>,
    span: Span,
    tokens: &[Token],
    budget: usize,
) -> Result<(Function, &[Token]), ReadFault>
    ensures { Reads result (λ read. (read.0, read.1.now)) (function_behind budget visibility entry span tokens.now) }
{
    let (signature, rest) = read_signature(alloc, tokens, budget)?;
    let Some((brace, rest)) = span_of_sign(rest, Punctuation::LeftBrace) else {
        return Err(ReadFault::NoTree { left: rest.len() });
    };
    let (body, rest) = read_block(alloc, brace, rest, budget)?;
    let Signature {
        name,
        parameters,
        inputs,
        result,
        acquires,
    } = signature;
    let function = Function {
        visibility,
        entry,
        span,
        name,
        parameters,
        inputs,
        result,
        acquires,
        body,
    };
    Ok((function, rest))
}

/// Reads a function. Returns it and the remaining tokens.
#[tactic(auto, unfolding(crate::specs::MemberReading::function_at))]
pub fn read_function(
    alloc: Global,
    tokens: &[Token],
    budget: usize,
) -> Result<(Function, &[Token]), ReadFault>
    ensures { Reads result (λ read. (read.0, read.1.now)) (function_at budget tokens.now) }
{
    let (visibility, rest) = read_visibility(tokens)?;
    let (entry, rest) = read_entry(rest);
    match span_of_word(rest, b"fun") {
        Some((span, rest)) => read_function_behind(alloc, visibility, entry, span, rest, budget),
        None => Err(ReadFault::NoTree { left: rest.len() }),
    }
}
