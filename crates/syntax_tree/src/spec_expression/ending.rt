//! The last token of a spec expression.

ghost use Rattle.std.specs.Prelude.{◌≡◌};
ghost use Rattle.syntax_tree.specs.SpecExpressionSpelling.{ends_in_path};

use crate::spec_expression::{SpecExpression, SpecNode};

/// Decides whether the last token of a spec expression belongs to a path.
pub fn is_path_last(expression: &SpecExpression) -> bool
    ensures { result ≡ ends_in_path expression.now }
{
    match &expression.node {
        SpecNode::Path(_) => true,
        SpecNode::Binary { right, .. } => is_path_last(right),
        SpecNode::Not { operand, .. } => is_path_last(operand),
        SpecNode::Quantified { .. }
        | SpecNode::If { .. }
        | SpecNode::Field { .. }
        | SpecNode::Index { .. }
        | SpecNode::Literal(_)
        | SpecNode::Call { .. }
        | SpecNode::Pack { .. }
        | SpecNode::Parenthesized { .. } => false,
    }
}
