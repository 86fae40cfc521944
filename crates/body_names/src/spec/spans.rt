//! The span of the first token of a spec expression.

ghost use Rattle.std.specs.Prelude.{◌≡◌};
ghost use Rattle.body_names.specs.SpecSpans.{first_span};

use crate::first_spans::{literal_span, path_span};
use base::span::Span;
use syntax_tree::spec_expression::{SpecExpression, SpecNode};

/// Returns the span of an expression's first token.
pub fn first_span(expression: &SpecExpression) -> Span
    ensures { result ≡ first_span expression.now }
{
    match &expression.node {
        SpecNode::Binary { left, .. } => first_span(left),
        SpecNode::Field { base, .. } | SpecNode::Index { base, .. } => first_span(base),
        SpecNode::Literal(literal) => literal_span(literal),
        SpecNode::Path(path) => path_span(path),
        SpecNode::Call { function, .. } => path_span(function),
        SpecNode::Pack { path, .. } => path_span(path),
        SpecNode::Quantified { span, .. }
        | SpecNode::If { span, .. }
        | SpecNode::Not { span, .. }
        | SpecNode::Parenthesized { span, .. } => *span,
    }
}
