//! The span of the first token of an expression.

ghost use Rattle.std.specs.Prelude.{◌≡◌};
ghost use Rattle.body_names.specs.CodeSpans.{first_span};

use crate::first_spans::{literal_span, path_span};
use base::span::Span;
use syntax_tree::expression::{Expression, ExpressionNode};

/// Returns the span of an expression's first token.
pub fn first_span(expression: &Expression) -> Span
    ensures { result ≡ first_span expression.now }
{
    match &expression.node {
        ExpressionNode::Binary { left, .. } => first_span(left),
        ExpressionNode::Assign { target, .. } => first_span(target),
        ExpressionNode::Field { base, .. } => first_span(base),
        ExpressionNode::Literal(literal) => literal_span(literal),
        ExpressionNode::Path(path) => path_span(path),
        ExpressionNode::Call { function, .. } => path_span(function),
        ExpressionNode::Pack { path, .. } => path_span(path),
        ExpressionNode::Block(block) => block.span,
        ExpressionNode::Break(span) | ExpressionNode::Continue(span) => *span,
        ExpressionNode::If { span, .. }
        | ExpressionNode::While { span, .. }
        | ExpressionNode::Loop { span, .. }
        | ExpressionNode::Return { span, .. }
        | ExpressionNode::Abort { span, .. }
        | ExpressionNode::Unary { span, .. }
        | ExpressionNode::Use { span, .. }
        | ExpressionNode::Vector { span, .. }
        | ExpressionNode::Assert { span, .. }
        | ExpressionNode::Tuple { span, .. }
        | ExpressionNode::Cast { span, .. } => *span,
    }
}
