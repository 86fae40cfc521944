//! The last token of an expression.

ghost use Rattle.std.specs.Prelude.{◌≡◌};
ghost use Rattle.syntax_tree.specs.ExpressionSpelling.{ends_in_path};

use crate::expression::{Expression, ExpressionNode};

/// Decides whether the last token of an expression belongs to a path.
pub fn is_path_last(expression: &Expression) -> bool
    ensures { result ≡ ends_in_path expression.now }
{
    match &expression.node {
        ExpressionNode::Path(_) => true,
        ExpressionNode::Binary { right, .. } => is_path_last(right),
        ExpressionNode::Unary { operand, .. } => is_path_last(operand),
        ExpressionNode::Assign { .. }
        | ExpressionNode::If { .. }
        | ExpressionNode::While { .. }
        | ExpressionNode::Loop { .. }
        | ExpressionNode::Return { .. }
        | ExpressionNode::Abort { .. }
        | ExpressionNode::Break(_)
        | ExpressionNode::Continue(_)
        | ExpressionNode::Use { .. }
        | ExpressionNode::Field { .. }
        | ExpressionNode::Literal(_)
        | ExpressionNode::Call { .. }
        | ExpressionNode::Pack { .. }
        | ExpressionNode::Vector { .. }
        | ExpressionNode::Assert { .. }
        | ExpressionNode::Tuple { .. }
        | ExpressionNode::Cast { .. }
        | ExpressionNode::Block(_) => false,
    }
}
