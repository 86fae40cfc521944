//! Sums in code.

ghost use Rattle.std.specs.Prelude.{◌≡◌, None, Some, MatchResult};
ghost use Rattle.sum_read.specs.FormFault.{IfNotBuilt};
ghost use Rattle.sum_read.specs.Sums.{sum_of};

use crate::fault::FormFault;
use crate::term::{join, operator_of, read_literal, read_word};
use std::alloc::Global;
use sum_tree::sum::Sum;
use syntax_tree::expression::{Expression, ExpressionNode};

/// Reads an expression as a sum.
///
/// # Errors
///
/// `NotBuilt` if and only if it is not one.
#[cycle(read_sum)]
pub fn read_sum(alloc: Global, expression: &Expression) -> Result<Box<Sum>, FormFault>
    ensures { MatchResult result (λ sum. sum_of expression.now ≡ Some sum.value) (λ fault. IfNotBuilt fault (sum_of expression.now ≡ None)) }
{
    match &expression.node {
        ExpressionNode::Literal(literal) => read_literal(alloc, literal),
        ExpressionNode::Path(path) => read_word(alloc, path),
        ExpressionNode::Binary {
            left,
            operator,
            right,
            ..
        } => {
            let Some(operator) = operator_of(*operator) else {
                return Err(FormFault::NotBuilt);
            };
            let left = read_sum(alloc, left)?;
            let right = read_sum(alloc, right)?;
            Ok(join(alloc, left, operator, right)?)
        }
        ExpressionNode::Tuple {
            items,
            last_comma,
            ..
        } => {
            if *last_comma {
                return Err(FormFault::NotBuilt);
            }
            match items.split_first() {
                Some((one, rest)) => match rest.split_first() {
                    Some(_) => Err(FormFault::NotBuilt),
                    None => read_sum(alloc, one),
                },
                None => Err(FormFault::NotBuilt),
            }
        }
        ExpressionNode::Assign { .. }
        | ExpressionNode::If { .. }
        | ExpressionNode::While { .. }
        | ExpressionNode::Loop { .. }
        | ExpressionNode::Return { .. }
        | ExpressionNode::Abort { .. }
        | ExpressionNode::Break(_)
        | ExpressionNode::Continue(_)
        | ExpressionNode::Unary { .. }
        | ExpressionNode::Use { .. }
        | ExpressionNode::Field { .. }
        | ExpressionNode::Call { .. }
        | ExpressionNode::Pack { .. }
        | ExpressionNode::Vector { .. }
        | ExpressionNode::Assert { .. }
        | ExpressionNode::Cast { .. }
        | ExpressionNode::Block(_) => Err(FormFault::NotBuilt),
    }
}
