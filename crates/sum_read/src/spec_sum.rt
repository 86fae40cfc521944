//! Sums in specs.

ghost use Rattle.std.specs.Prelude.{◌≡◌, None, Some, MatchResult};
ghost use Rattle.sum_read.specs.FormFault.{IfNotBuilt};
ghost use Rattle.sum_read.specs.Sums.{spec_sum_of};

use crate::fault::FormFault;
use crate::term::{join, read_literal, read_word, spec_operator_of};
use std::alloc::Global;
use sum_tree::sum::Sum;
use syntax_tree::spec_expression::{SpecExpression, SpecNode};

/// Reads a spec expression as a sum.
///
/// # Errors
///
/// `NotBuilt` if and only if it is not one.
#[cycle(read_spec_sum)]
pub fn read_spec_sum(alloc: Global, expression: &SpecExpression) -> Result<Box<Sum>, FormFault>
    ensures { MatchResult result (λ sum. spec_sum_of expression.now ≡ Some sum.value) (λ fault. IfNotBuilt fault (spec_sum_of expression.now ≡ None)) }
{
    match &expression.node {
        SpecNode::Literal(literal) => read_literal(alloc, literal),
        SpecNode::Path(path) => read_word(alloc, path),
        SpecNode::Binary {
            left,
            operator,
            right,
            ..
        } => {
            let Some(operator) = spec_operator_of(*operator) else {
                return Err(FormFault::NotBuilt);
            };
            let left = read_spec_sum(alloc, left)?;
            let right = read_spec_sum(alloc, right)?;
            Ok(join(alloc, left, operator, right)?)
        }
        SpecNode::Parenthesized { inner, .. } => read_spec_sum(alloc, inner),
        SpecNode::Quantified { .. }
        | SpecNode::If { .. }
        | SpecNode::Not { .. }
        | SpecNode::Field { .. }
        | SpecNode::Index { .. }
        | SpecNode::Call { .. }
        | SpecNode::Pack { .. } => Err(FormFault::NotBuilt),
    }
}
