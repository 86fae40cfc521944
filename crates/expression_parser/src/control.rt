//! Readers of control forms.

ghost use Rattle.parser_base.specs.ReadFault.{Reads};
ghost use Rattle.expression_parser.specs.ExpressionReading.{control_form, if_at, readers, while_at};

use crate::block::read_body;
use crate::expression::read_boxed;
use base::span::Span;
use parser_base::fault::ReadFault;
use parser_base::leaf::{Control, may_begin, skip_else};
use parser_base::signs::expect_sign;
use std::alloc::Global;
use syntax_tree::expression::{Expression, ExpressionNode};
use tokens::token::{Punctuation, Token};

/// Reads a control form after its word.
#[cycle(expression)]
#[tactic(auto, unfolding(crate::specs::ExpressionReading::return_at))]
pub fn read_control(
    alloc: Global,
    control: Control,
    span: Span,
    tokens: &[Token],
    budget: usize,
) -> Result<(Expression, &[Token]), ReadFault>
    ensures { Reads result (λ read. (read.0, read.1.now)) (control_form (readers budget) control span tokens.now) }
{
    match control {
        Control::If => read_if(alloc, span, tokens, budget),
        Control::While => read_while(alloc, span, tokens, budget),
        Control::Loop => {
            let (body, rest) = read_body(alloc, false, tokens, budget)?;
            let body = Box::new(alloc, body)?;
            let node = ExpressionNode::Loop { span, body };
            Ok((Expression { node }, rest))
        }
        Control::Return if may_begin(tokens) => {
            let (value, rest) = read_boxed(alloc, 0, tokens, budget)?;
            let value = Some(value);
            let node = ExpressionNode::Return { span, value };
            Ok((Expression { node }, rest))
        }
        Control::Return => {
            let node = ExpressionNode::Return { span, value: None };
            Ok((Expression { node }, tokens))
        }
        Control::Abort => {
            let (code, rest) = read_boxed(alloc, 0, tokens, budget)?;
            let node = ExpressionNode::Abort { span, code };
            Ok((Expression { node }, rest))
        }
        Control::Break => {
            let node = ExpressionNode::Break(span);
            Ok((Expression { node }, tokens))
        }
        Control::Continue => {
            let node = ExpressionNode::Continue(span);
            Ok((Expression { node }, tokens))
        }
    }
}

/// Reads an `if` after its word.
#[cycle(expression)]
#[tactic(auto, unfolding(crate::specs::ExpressionReading::if_at, crate::specs::ExpressionReading::else_at))]
fn read_if(
    alloc: Global,
    span: Span,
    tokens: &[Token],
    budget: usize,
) -> Result<(Expression, &[Token]), ReadFault>
    ensures { Reads result (λ read. (read.0, read.1.now)) (if_at (readers budget) span tokens.now) }
{
    let rest = expect_sign(tokens, Punctuation::LeftParenthesis)?;
    let (condition, rest) = read_boxed(alloc, 0, rest, budget)?;
    let rest = expect_sign(rest, Punctuation::RightParenthesis)?;
    let (then_branch, rest) = read_boxed(alloc, 0, rest, budget)?;
    let Some(behind) = skip_else(rest) else {
        let node = ExpressionNode::If {
            span,
            condition,
            then_branch,
            else_branch: None,
        };
        return Ok((Expression { node }, rest));
    };
    let (else_branch, rest) = read_boxed(alloc, 0, behind, budget)?;
    let node = ExpressionNode::If {
        span,
        condition,
        then_branch,
        else_branch: Some(else_branch),
    };
    Ok((Expression { node }, rest))
}

/// Reads a `while` after its word.
#[cycle(expression)]
#[tactic(auto, unfolding(crate::specs::ExpressionReading::while_at))]
fn read_while(
    alloc: Global,
    span: Span,
    tokens: &[Token],
    budget: usize,
) -> Result<(Expression, &[Token]), ReadFault>
    ensures { Reads result (λ read. (read.0, read.1.now)) (while_at (readers budget) span tokens.now) }
{
    let rest = expect_sign(tokens, Punctuation::LeftParenthesis)?;
    let (condition, rest) = read_body(alloc, true, rest, budget)?;
    let condition = Box::new(alloc, condition)?;
    let rest = expect_sign(rest, Punctuation::RightParenthesis)?;
    let (body, rest) = read_boxed(alloc, 0, rest, budget)?;
    let node = ExpressionNode::While {
        span,
        condition,
        body,
    };
    Ok((Expression { node }, rest))
}
