//! Readers of operands: unary operators, terms, and the fields after terms.

ghost use Rattle.syntax_tree.specs.TypeTreeData.{maybe_arguments_of};
ghost use Rattle.parser_base.specs.ReadFault.{Reads};
ghost use Rattle.expression_parser.specs.ExpressionReading.{assert_at, operand_at, parenthesized_at, path_term_at, readers, term_at, vector_at, whole_fields_at};

use crate::block::read_contents;
use crate::expression::read_boxed;
use crate::lists::{read_expressions, read_field_values};
use base::span::Span;
use parser_base::fault::ReadFault;
use parser_base::leaf::{
    BehindFirst, PathForm, read_behind_first, read_cast_target, read_glued_arguments,
    read_path_form, read_plain_literal, read_prefix, read_use, span_of_assert, span_of_vector,
};
use parser_base::parentheses::several;
use parser_base::path::{read_address, read_path_of_term};
use parser_base::signs::{expect_sign, read_identifier, skip_sign, span_of_sign};
use parser_base::types::read_maybe_arguments;
use std::alloc::Global;
use syntax_tree::expression::{Block, Expression, ExpressionNode};
use syntax_tree::literal::Literal;
use tokens::token::{Punctuation, Token};

/// The level of unary operators.
const UNARY_LEVEL: usize = 13;

/// Reads an operand. Returns it and the remaining tokens.
#[cycle(expression)]
#[tactic(auto, unfolding(crate::specs::ExpressionReading::operand_at))]
pub fn read_operand(
    alloc: Global,
    tokens: &[Token],
    budget: usize,
) -> Result<(Expression, &[Token]), ReadFault>
    ensures { Reads result (λ read. (read.0, read.1.now)) (operand_at (readers budget) tokens.now) }
{
    if let Some((operator, span, rest)) = read_prefix(tokens) {
        let (operand, rest) = read_boxed(alloc, UNARY_LEVEL, rest, budget)?;
        let node = ExpressionNode::Unary {
            operator,
            span,
            operand,
        };
        return Ok((Expression { node }, rest));
    }
    if let Some((kind, span, rest)) = read_use(tokens) {
        let (local, rest) = read_identifier(alloc, rest)?;
        let node = ExpressionNode::Use { kind, span, local };
        return Ok((Expression { node }, rest));
    }
    let (term, rest) = read_term(alloc, tokens, budget)?;
    read_fields(alloc, term, rest)
}

/// Reads the fields after a term.
fn read_fields(
    alloc: Global,
    term: Expression,
    tokens: &[Token],
) -> Result<(Expression, &[Token]), ReadFault>
    ensures { Reads result (λ read. (read.0, read.1.now)) (whole_fields_at term tokens.now) }
{
    let mut base = Box::new(alloc, term)?;
    let mut rest = tokens;
    for _ in 0..tokens.len() + 1 {
        let Some(behind) = skip_sign(rest, Punctuation::Period) else {
            return Ok((Box::into_inner(base), rest));
        };
        let (field, behind) = read_identifier(alloc, behind)?;
        let node = ExpressionNode::Field { base, field };
        base = Box::new(alloc, Expression { node })?;
        rest = behind;
    }
    Err(ReadFault::NoTree { left: 0 })
}

/// Reads a term. Returns it and the remaining tokens.
#[cycle(expression)]
#[tactic(auto, unfolding(crate::specs::ExpressionReading::term_at, crate::specs::ExpressionReading::block_at))]
fn read_term(
    alloc: Global,
    tokens: &[Token],
    budget: usize,
) -> Result<(Expression, &[Token]), ReadFault>
    ensures { Reads result (λ read. (read.0, read.1.now)) (term_at (readers budget) tokens.now) }
{
    if let Some((span, rest)) = span_of_sign(tokens, Punctuation::LeftParenthesis) {
        return read_parenthesized(alloc, span, rest, budget);
    }
    if let Some((span, rest)) = span_of_sign(tokens, Punctuation::LeftBrace) {
        let (items, value, rest) = read_contents(alloc, rest, budget)?;
        let block = Block {
            span,
            spec: None,
            items,
            value,
        };
        let node = ExpressionNode::Block(Box::new(alloc, block)?);
        return Ok((Expression { node }, rest));
    }
    if let Some((span, rest)) = span_of_sign(tokens, Punctuation::AtSign) {
        let (address, rest) = read_address(alloc, rest)?;
        let node = ExpressionNode::Literal(Literal::Address { span, address });
        return Ok((Expression { node }, rest));
    }
    if let Some((literal, rest)) = read_plain_literal(alloc, tokens)? {
        let node = ExpressionNode::Literal(literal);
        return Ok((Expression { node }, rest));
    }
    if let Some((span, rest)) = span_of_vector(tokens) {
        return read_vector(alloc, span, rest, budget);
    }
    if let Some((span, rest)) = span_of_assert(tokens) {
        return read_assert(alloc, span, rest, budget);
    }
    read_path_term(alloc, tokens, budget)
}

/// Reads what is in parentheses, after the opening one.
#[cycle(expression)]
#[tactic(auto, unfolding(crate::specs::ExpressionReading::parenthesized_at))]
fn read_parenthesized(
    alloc: Global,
    span: Span,
    tokens: &[Token],
    budget: usize,
) -> Result<(Expression, &[Token]), ReadFault>
    ensures { Reads result (λ read. (read.0, read.1.now)) (parenthesized_at (readers budget) span tokens.now) }
{
    if let Some(rest) = skip_sign(tokens, Punctuation::RightParenthesis) {
        let node = ExpressionNode::Tuple {
            span,
            items: Vec::new(alloc),
            last_comma: false,
        };
        return Ok((Expression { node }, rest));
    }
    let (first, rest) = read_boxed(alloc, 0, tokens, budget)?;
    match read_behind_first(rest)? {
        (BehindFirst::Close, rest) => {
            let mut items = Vec::new(alloc);
            items.push(Box::into_inner(first))?;
            let node = ExpressionNode::Tuple {
                span,
                items,
                last_comma: false,
            };
            Ok((Expression { node }, rest))
        }
        (BehindFirst::As, rest) => {
            let (target, rest) = read_cast_target(alloc, rest, budget)?;
            let node = ExpressionNode::Cast {
                span,
                value: first,
                target,
            };
            Ok((Expression { node }, rest))
        }
        (BehindFirst::Comma, rest) => {
            let (more, last_comma, rest) = read_expressions(
                alloc,
                Punctuation::RightParenthesis,
                rest,
                budget,
            )?;
            several(span, first, more, last_comma, rest)
        }
    }
}

/// Reads a call, a pack, or a path alone.
#[cycle(expression)]
#[tactic(auto, unfolding(crate::specs::ExpressionReading::path_term_at))]
fn read_path_term(
    alloc: Global,
    tokens: &[Token],
    budget: usize,
) -> Result<(Expression, &[Token]), ReadFault>
    ensures { Reads result (λ read. (read.0, read.1.now)) (path_term_at (readers budget) tokens.now) }
{
    let (path, rest) = read_path_of_term(alloc, tokens)?;
    let (arguments, rest) = read_glued_arguments(alloc, rest, budget)?;
    match read_path_form(arguments.is_some(), &path, rest)? {
        (PathForm::Call, rest) => {
            let (values, last_comma, rest) = read_expressions(
                alloc,
                Punctuation::RightParenthesis,
                rest,
                budget,
            )?;
            let node = ExpressionNode::Call {
                function: path,
                arguments,
                values,
                last_comma,
            };
            Ok((Expression { node }, rest))
        }
        (PathForm::Pack, rest) => {
            let (fields, last_comma, rest) = read_field_values(alloc, rest, budget)?;
            let node = ExpressionNode::Pack {
                path,
                arguments,
                fields,
                last_comma,
            };
            Ok((Expression { node }, rest))
        }
        (PathForm::Alone, rest) => {
            let node = ExpressionNode::Path(path);
            Ok((Expression { node }, rest))
        }
    }
}

/// Reads a vector after its word.
#[cycle(expression)]
#[tactic(auto, unfolding(crate::specs::ExpressionReading::vector_at))]
fn read_vector(
    alloc: Global,
    span: Span,
    tokens: &[Token],
    budget: usize,
) -> Result<(Expression, &[Token]), ReadFault>
    ensures { Reads result (λ read. (read.0, read.1.now)) (vector_at (readers budget) span tokens.now) }
{
    let (arguments, rest) = read_maybe_arguments(alloc, tokens, budget)?;
    let rest = expect_sign(rest, Punctuation::LeftBracket)?;
    let (items, last_comma, rest) = read_expressions(
        alloc,
        Punctuation::RightBracket,
        rest,
        budget,
    )?;
    let node = ExpressionNode::Vector {
        span,
        arguments,
        items,
        last_comma,
    };
    Ok((Expression { node }, rest))
}

/// Reads the condition and the code after `assert!`.
#[cycle(expression)]
#[tactic(auto, unfolding(crate::specs::ExpressionReading::assert_at))]
fn read_assert(
    alloc: Global,
    span: Span,
    tokens: &[Token],
    budget: usize,
) -> Result<(Expression, &[Token]), ReadFault>
    ensures { Reads result (λ read. (read.0, read.1.now)) (assert_at (readers budget) span tokens.now) }
{
    let rest = expect_sign(tokens, Punctuation::LeftParenthesis)?;
    let (condition, rest) = read_boxed(alloc, 0, rest, budget)?;
    let rest = expect_sign(rest, Punctuation::Comma)?;
    let (code, rest) = read_boxed(alloc, 0, rest, budget)?;
    let rest = expect_sign(rest, Punctuation::RightParenthesis)?;
    let node = ExpressionNode::Assert {
        span,
        condition,
        code,
    };
    Ok((Expression { node }, rest))
}
