//! Readers of binary operators.

ghost use Rattle.std.specs.Prelude.{◌≡◌};
ghost use Rattle.std.specs.Option.{option_map};
ghost use Rattle.syntax_tree.specs.ProperExpressions.{right_level};
ghost use Rattle.parser_base.specs.ChainReading.{next_operator};
ghost use Rattle.parser_base.specs.OperatorReading.{binary_of, binary_of_sign, ends_in_vector, joints, opens_arguments, operator_behind, whole_operator};

use crate::leaf::skip_glued;
use crate::path::is_single;
use base::span::Span;
use syntax_tree::expression::ending::is_path_last;
use syntax_tree::expression::level::operator_level;
use syntax_tree::expression::{Expression, ExpressionNode};
use syntax_tree::operator::BinaryOperator;
use tokens::token::{Punctuation, Token, TokenKind};

/// Returns the loosest level allowed on the right of an operator. All operators associate to the left.
pub fn right_level(operator: BinaryOperator) -> usize
    ensures { result ≡ right_level operator }
{
    operator_level(operator) + 1
}

/// Returns the operator that a sign is, or that it begins if the operator has two signs.
pub fn binary_of_sign(sign: Punctuation) -> Option<BinaryOperator>
    ensures { result ≡ binary_of_sign sign }
{
    match sign {
        Punctuation::PipePipe => Some(BinaryOperator::Or),
        Punctuation::AmpersandAmpersand => Some(BinaryOperator::And),
        Punctuation::EqualEqual => Some(BinaryOperator::Equal),
        Punctuation::ExclaimEqual => Some(BinaryOperator::NotEqual),
        Punctuation::Less => Some(BinaryOperator::Less),
        Punctuation::LessEqual => Some(BinaryOperator::LessEqual),
        Punctuation::Greater => Some(BinaryOperator::Greater),
        Punctuation::GreaterEqual => Some(BinaryOperator::GreaterEqual),
        Punctuation::Pipe => Some(BinaryOperator::BitOr),
        Punctuation::Caret => Some(BinaryOperator::BitXor),
        Punctuation::Ampersand => Some(BinaryOperator::BitAnd),
        Punctuation::LessLess => Some(BinaryOperator::ShiftLeft),
        Punctuation::Plus => Some(BinaryOperator::Add),
        Punctuation::Minus => Some(BinaryOperator::Subtract),
        Punctuation::Star => Some(BinaryOperator::Multiply),
        Punctuation::Slash => Some(BinaryOperator::Divide),
        Punctuation::Percent => Some(BinaryOperator::Remainder),
        _ => None,
    }
}

/// Returns the operator that a token is, or that it begins if the operator has two tokens.
fn binary_of(kind: &TokenKind) -> Option<BinaryOperator>
    ensures { result ≡ binary_of kind.now }
{
    match kind {
        TokenKind::Punctuation(sign) => binary_of_sign(*sign),
        _ => None,
    }
}

/// Decides whether an expression ends in the path `vector`.
fn ends_in_vector(expression: &Expression) -> bool
    ensures { result ≡ ends_in_vector expression.now }
{
    match &expression.node {
        ExpressionNode::Path(path) => is_single(path, b"vector"),
        ExpressionNode::Binary { right, .. } => ends_in_vector(right),
        ExpressionNode::Unary { operand, .. } => ends_in_vector(operand),
        ExpressionNode::Assign { .. }
        | ExpressionNode::If { .. }
        | ExpressionNode::While { .. }
        | ExpressionNode::Loop { .. }
        | ExpressionNode::Return { .. }
        | ExpressionNode::Abort { .. }
        | ExpressionNode::Break(_)
        | ExpressionNode::Continue(_)
        | ExpressionNode::Use { .. }
        | ExpressionNode::Field { .. }
        | ExpressionNode::Literal(_)
        | ExpressionNode::Call { .. }
        | ExpressionNode::Pack { .. }
        | ExpressionNode::Vector { .. }
        | ExpressionNode::Assert { .. }
        | ExpressionNode::Tuple { .. }
        | ExpressionNode::Cast { .. }
        | ExpressionNode::Block(_) => false,
    }
}

/// Decides whether a sign after an expression opens type arguments instead of being this operator.
fn opens_arguments(operator: BinaryOperator, left: &Expression, glued: bool) -> bool
    ensures { result ≡ opens_arguments operator left.now glued }
{
    match operator {
        BinaryOperator::Less => (is_path_last(left) && glued) || ends_in_vector(left),
        BinaryOperator::ShiftLeft => is_path_last(left) && glued,
        _ => false,
    }
}

/// Completes an operator after its first sign. Returns the operator, its span and the remaining tokens.
fn whole_operator(
    operator: BinaryOperator,
    span: Span,
    tokens: &[Token],
) -> (BinaryOperator, Span, &[Token])
    ensures { ((result.0, result.1), result.2.now) ≡ whole_operator operator span tokens.now }
{
    match operator {
        BinaryOperator::Greater => match skip_glued(tokens, Punctuation::Greater) {
            Some(rest) => (BinaryOperator::ShiftRight, span, rest),
            None => (operator, span, tokens),
        },
        _ => (operator, span, tokens),
    }
}

/// Reads the operator after an expression. Returns the operator, its span and the remaining tokens.
#[tactic(auto, unfolding(crate::specs::OperatorReading::operator_behind))]
fn operator_behind<'a>(
    left: &Expression,
    tokens: &'a [Token],
) -> Option<(BinaryOperator, Span, &'a [Token])>
    ensures { option_map (λ r. ((r.0, r.1), r.2.now)) result ≡ operator_behind left.now tokens.now }
{
    let (token, rest) = tokens.split_first()?;
    let operator = binary_of(&token.kind)?;
    if opens_arguments(operator, left, token.glued) {
        return None;
    }
    Some(whole_operator(operator, token.span, rest))
}

/// Reads the operator after an expression, if its level is at least `minimum`. Returns the operator, its span and the
/// remaining tokens.
#[tactic(auto, unfolding(crate::specs::ChainReading::next_operator))]
pub fn next_operator<'a>(
    minimum: usize,
    left: &Expression,
    tokens: &'a [Token],
) -> Option<(BinaryOperator, Span, &'a [Token])>
    ensures { option_map (λ r. ((r.0, r.1), r.2.now)) result ≡ next_operator joints minimum left.now tokens.now }
{
    let (operator, span, rest) = operator_behind(left, tokens)?;
    if minimum <= operator_level(operator) {
        Some((operator, span, rest))
    } else {
        None
    }
}
