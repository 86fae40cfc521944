//! Readers of expressions: control forms, assignments, and operands joined by operators.

ghost use Rattle.parser_base.specs.ReadFault.{Reads};
ghost use Rattle.parser_base.specs.ChainReading.{whole_chain_at};
ghost use Rattle.parser_base.specs.OperatorReading.{joints};
ghost use Rattle.expression_parser.specs.ExpressionReading.{any_form, expression_at, expression_form, readers};

use crate::control::read_control;
use crate::term::read_operand;
use parser_base::fault::ReadFault;
use parser_base::leaf::read_control_word;
use parser_base::operator::{next_operator, right_level};
use parser_base::signs::span_of_sign;
use std::alloc::Global;
use syntax_tree::expression::{Expression, ExpressionNode};
use tokens::token::{Punctuation, Token};

/// Reads an expression of at least this level that is nested at most `budget` deep. Returns it and the remaining
/// tokens. Level 0 allows any expression; operands of operators have levels from 1 on.
#[cycle(expression)]
pub fn read_expression(
    alloc: Global,
    minimum: usize,
    tokens: &[Token],
    budget: usize,
) -> Result<(Expression, &[Token]), ReadFault>
    ensures { Reads result (λ read. (read.0, read.1.now)) (expression_at budget minimum tokens.now) }
{
    if budget == 0 {
        return Err(ReadFault::NoTree { left: tokens.len() });
    }
    read_expression_form(alloc, minimum, tokens, budget - 1)
}

/// Reads an expression of at least this level into a box. Fails as `read_expression` does, or if there is no memory for
/// the box.
#[cycle(expression)]
pub(crate) fn read_boxed(
    alloc: Global,
    minimum: usize,
    tokens: &[Token],
    budget: usize,
) -> Result<(Box<Expression>, &[Token]), ReadFault>
    ensures { Reads result (λ read. (read.0.value, read.1.now)) (expression_at budget minimum tokens.now) }
{
    let (expression, rest) = read_expression(alloc, minimum, tokens, budget)?;
    Ok((Box::new(alloc, expression)?, rest))
}

/// Reads an expression of at least this level with inner expressions nested at most `budget` deep.
#[cycle(expression)]
#[tactic(auto, unfolding(crate::specs::ExpressionReading::expression_form))]
fn read_expression_form(
    alloc: Global,
    minimum: usize,
    tokens: &[Token],
    budget: usize,
) -> Result<(Expression, &[Token]), ReadFault>
    ensures { Reads result (λ read. (read.0, read.1.now)) (expression_form (readers budget) minimum tokens.now) }
{
    if minimum == 0 {
        return read_any_form(alloc, tokens, budget);
    }
    let (operand, rest) = read_operand(alloc, tokens, budget)?;
    let operand = Box::new(alloc, operand)?;
    let (whole, rest) = read_chain(alloc, minimum, operand, rest, budget)?;
    Ok((Box::into_inner(whole), rest))
}

/// Reads a control form, an assignment, or operands joined by operators.
#[cycle(expression)]
#[tactic(auto, unfolding(crate::specs::ExpressionReading::any_form, crate::specs::ExpressionReading::behind_operand))]
fn read_any_form(
    alloc: Global,
    tokens: &[Token],
    budget: usize,
) -> Result<(Expression, &[Token]), ReadFault>
    ensures { Reads result (λ read. (read.0, read.1.now)) (any_form (readers budget) tokens.now) }
{
    if let Some((control, span, rest)) = read_control_word(tokens) {
        return read_control(alloc, control, span, rest, budget);
    }
    let (operand, rest) = read_operand(alloc, tokens, budget)?;
    let operand = Box::new(alloc, operand)?;
    if let Some((span, rest)) = span_of_sign(rest, Punctuation::Equal) {
        let (value, rest) = read_boxed(alloc, 0, rest, budget)?;
        let node = ExpressionNode::Assign {
            target: operand,
            span,
            value,
        };
        return Ok((Expression { node }, rest));
    }
    let (whole, rest) = read_chain(alloc, 1, operand, rest, budget)?;
    Ok((Box::into_inner(whole), rest))
}

/// Reads what operators of at least this level join to an operand. Returns the joined expression and the remaining
/// tokens.
#[cycle(expression)]
fn read_chain(
    alloc: Global,
    minimum: usize,
    operand: Box<Expression>,
    tokens: &[Token],
    budget: usize,
) -> Result<(Box<Expression>, &[Token]), ReadFault>
    ensures { Reads result (λ read. (read.0.value, read.1.now)) (whole_chain_at joints (expression_at budget) minimum operand.value tokens.now) }
{
    let mut left = operand;
    let mut rest = tokens;
    for _ in 0..tokens.len() + 1 {
        let Some((operator, span, behind)) = next_operator(minimum, &left, rest) else {
            return Ok((left, rest));
        };
        let (right, behind) = read_boxed(alloc, right_level(operator), behind, budget)?;
        let node = ExpressionNode::Binary {
            left,
            operator,
            span,
            right,
        };
        left = Box::new(alloc, Expression { node })?;
        rest = behind;
    }
    Err(ReadFault::NoTree { left: 0 })
}
