//! Conditions over sums.

ghost use Rattle.std.specs.Prelude.{◌≡◌, None, Some, MatchResult};
ghost use Rattle.sum_read.specs.FormFault.{IfNotBuilt};
ghost use Rattle.sum_read.specs.Clauses.{common_comparison, compared, comparison_of, condition_of, truth_condition};
ghost use Rattle.sum_read.specs.Sums.{spec_sum_of};

use crate::fault::FormFault;
use crate::spec_sum::read_spec_sum;
use std::alloc::Global;
use sum_tree::clause::{Comparison, Condition};
use syntax_tree::literal::Literal;
use syntax_tree::operator::BinaryOperator;
use syntax_tree::spec_expression::operator::SpecOperator;
use syntax_tree::spec_expression::{SpecExpression, SpecNode};

/// Reads a literal as a condition: `true` or `false`.
fn read_truth(literal: &Literal) -> Result<Condition, FormFault>
    ensures { MatchResult result (λ condition. truth_condition literal.now ≡ Some condition) (λ fault. IfNotBuilt fault (truth_condition literal.now ≡ None)) }
{
    match literal {
        Literal::Truth { value, .. } => {
            if *value {
                Ok(Condition::True)
            } else {
                Ok(Condition::False)
            }
        }
        Literal::Number(_) => Err(FormFault::NotBuilt),
        Literal::Address { .. } => Err(FormFault::NotBuilt),
    }
}

/// The comparison for an operator that code has too, if there is one.
fn common_comparison(operator: BinaryOperator) -> Option<Comparison>
    ensures { result ≡ common_comparison operator }
{
    match operator {
        BinaryOperator::Equal => Some(Comparison::Equal),
        BinaryOperator::Less => Some(Comparison::Less),
        BinaryOperator::Greater => Some(Comparison::Greater),
        BinaryOperator::LessEqual => Some(Comparison::LessEqual),
        BinaryOperator::GreaterEqual => Some(Comparison::GreaterEqual),
        _ => None,
    }
}

/// The comparison for an operator of specs, if there is one.
fn comparison_of(operator: SpecOperator) -> Option<Comparison>
    ensures { result ≡ comparison_of operator }
{
    match operator {
        SpecOperator::Equivalent => None,
        SpecOperator::Implies => None,
        SpecOperator::Range => None,
        SpecOperator::Common(operator) => common_comparison(operator),
    }
}

/// Reads the comparison of two sums.
fn read_compared(
    alloc: Global,
    left: &SpecExpression,
    operator: SpecOperator,
    right: &SpecExpression,
) -> Result<Condition, FormFault>
    ensures { MatchResult result (λ condition. compared (comparison_of operator) (spec_sum_of left.now) (spec_sum_of right.now) ≡ Some condition) (λ fault. IfNotBuilt fault (compared (comparison_of operator) (spec_sum_of left.now) (spec_sum_of right.now) ≡ None)) }
{
    let Some(comparison) = comparison_of(operator) else {
        return Err(FormFault::NotBuilt);
    };
    let left = read_spec_sum(alloc, left)?;
    let right = read_spec_sum(alloc, right)?;
    Ok(Condition::Compares(Box::into_inner(left), comparison, Box::into_inner(right)))
}

/// Reads a spec expression as a condition over sums.
///
/// # Errors
///
/// `NotBuilt` if and only if it is not one.
#[cycle(read_condition)]
pub fn read_condition(alloc: Global, expression: &SpecExpression) -> Result<Condition, FormFault>
    ensures { MatchResult result (λ condition. condition_of expression.now ≡ Some condition) (λ fault. IfNotBuilt fault (condition_of expression.now ≡ None)) }
{
    match &expression.node {
        SpecNode::Literal(literal) => read_truth(literal),
        SpecNode::Binary {
            left,
            operator,
            right,
            ..
        } => read_compared(alloc, left, *operator, right),
        SpecNode::Parenthesized { inner, .. } => read_condition(alloc, inner),
        SpecNode::Quantified { .. }
        | SpecNode::If { .. }
        | SpecNode::Not { .. }
        | SpecNode::Field { .. }
        | SpecNode::Index { .. }
        | SpecNode::Path(_)
        | SpecNode::Call { .. }
        | SpecNode::Pack { .. } => Err(FormFault::NotBuilt),
    }
}
