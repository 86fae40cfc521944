//! Readers of constants.

ghost use Rattle.parser_base.specs.ReadFault.{Reads};
ghost use Rattle.item_parser.specs.MemberReading.{constant_at, constant_behind_name};

use base::span::Span;
use expression_parser::expression::read_expression;
use parser_base::fault::ReadFault;
use parser_base::signs::{begins_capital, expect_sign, read_identifier};
use parser_base::types::read_type;
use std::alloc::Global;
use syntax_tree::lexeme::Identifier;
use syntax_tree::member::Constant;
use tokens::token::{Punctuation, Token};

/// Reads a constant after its name.
#[tactic(auto, unfolding(crate::specs::MemberReading::constant_behind_name))]
fn read_behind_name(
    alloc: Global,
    span: Span,
    name: Identifier,
    tokens: &[Token],
    budget: usize,
) -> Result<(Constant, &[Token]), ReadFault>
    ensures { Reads result (λ read. (read.0, read.1.now)) (constant_behind_name budget span name tokens.now) }
{
    let rest = expect_sign(tokens, Punctuation::Colon)?;
    let (annotation, rest) = read_type(alloc, rest, budget)?;
    let rest = expect_sign(rest, Punctuation::Equal)?;
    let (value, rest) = read_expression(alloc, 0, rest, budget)?;
    let rest = expect_sign(rest, Punctuation::Semicolon)?;
    let constant = Constant {
        span,
        name,
        annotation,
        value,
    };
    Ok((constant, rest))
}

/// Reads a constant after its word. Returns it and the remaining tokens.
#[tactic(auto, unfolding(crate::specs::MemberReading::constant_at))]
pub fn read_constant(
    alloc: Global,
    span: Span,
    tokens: &[Token],
    budget: usize,
) -> Result<(Constant, &[Token]), ReadFault>
    ensures { Reads result (λ read. (read.0, read.1.now)) (constant_at budget span tokens.now) }
{
    let (name, rest) = read_identifier(alloc, tokens)?;
    if begins_capital(name.text.as_slice()) {
        read_behind_name(alloc, span, name, rest, budget)
    } else {
        Err(ReadFault::NoTree { left: tokens.len() })
    }
}
