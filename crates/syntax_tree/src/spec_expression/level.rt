//! The precedence of the operators of spec expressions.

ghost use Rattle.std.specs.Prelude.{◌≡◌};
ghost use Rattle.syntax_tree.specs.ProperSpecExpressions.{spec_operator_level, right_level};

use crate::expression::level::operator_level;
use crate::spec_expression::operator::SpecOperator;

/// Returns the level of an operator: the greater, the tighter it binds.
pub fn spec_operator_level(operator: SpecOperator) -> usize
    ensures { result ≡ spec_operator_level operator }
{
    match operator {
        SpecOperator::Equivalent => 1,
        SpecOperator::Implies => 2,
        SpecOperator::Range => 6,
        SpecOperator::Common(common) => operator_level(common),
    }
}

/// Returns the loosest level of the right operand of an operator.
pub fn right_level(operator: SpecOperator) -> usize
    ensures { result ≡ right_level operator }
{
    match operator {
        SpecOperator::Equivalent | SpecOperator::Implies => 2,
        SpecOperator::Range => 7,
        SpecOperator::Common(common) => operator_level(common) + 1,
    }
}
