//! The precedence of the operators between two expressions.

ghost use Rattle.std.specs.Prelude.{◌≡◌};
ghost use Rattle.syntax_tree.specs.ProperExpressions.{operator_level};

use crate::operator::BinaryOperator;

/// Returns the level of an operator, from 3, the loosest, to 12, the tightest.
pub fn operator_level(operator: BinaryOperator) -> usize
    ensures { result ≡ operator_level operator }
{
    match operator {
        BinaryOperator::Or => 3,
        BinaryOperator::And => 4,
        BinaryOperator::Equal
        | BinaryOperator::NotEqual
        | BinaryOperator::Less
        | BinaryOperator::LessEqual
        | BinaryOperator::Greater
        | BinaryOperator::GreaterEqual => 5,
        BinaryOperator::BitOr => 7,
        BinaryOperator::BitXor => 8,
        BinaryOperator::BitAnd => 9,
        BinaryOperator::ShiftLeft | BinaryOperator::ShiftRight => 10,
        BinaryOperator::Add | BinaryOperator::Subtract => 11,
        BinaryOperator::Multiply | BinaryOperator::Divide | BinaryOperator::Remainder => 12,
    }
}
