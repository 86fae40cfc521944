//! Operators on values of constants.

ghost use Rattle.std.specs.Prelude.{◌≡◌, ◌≢◌};
ghost use Rattle.program.specs.declared.operator.BinaryOperator.TheVariants.{Equal, NotEqual};
ghost use Rattle.typing_rules.specs.ConstantRuns.{is_same, joined, negated, needed, operated};

use crate::constants::integer::{bitwise, calculated, compared, shifted};
use program::operator::BinaryOperator;
use typing_rules::constant::ConstantValue;

/// Decides whether two values are equal; none where they are of different kinds.
fn is_same(left: ConstantValue, right: ConstantValue) -> Option<bool>
    ensures { result ≡ is_same left right }
{
    match (left, right) {
        (ConstantValue::Integer(_, first), ConstantValue::Integer(_, second)) => {
            Some(first == second)
        }
        (ConstantValue::Boolean(first), ConstantValue::Boolean(second)) => Some(first == second),
        (ConstantValue::Place(first), ConstantValue::Place(second)) => Some(first == second),
        _ => None,
    }
}

fn is_equal(left: ConstantValue, right: ConstantValue) -> Option<ConstantValue>
    ensures { result ≡ operated Equal left right }
{
    match is_same(left, right) {
        Some(same) => Some(ConstantValue::Boolean(same)),
        None => None,
    }
}

fn is_other(left: ConstantValue, right: ConstantValue) -> Option<ConstantValue>
    ensures { result ≡ operated NotEqual left right }
{
    match is_same(left, right) {
        Some(same) => Some(ConstantValue::Boolean(!same)),
        None => None,
    }
}

/// An operator between two integers.
fn of_integers(
    operator: BinaryOperator,
    left: ConstantValue,
    right: ConstantValue,
) -> Option<ConstantValue>
    requires equal { operator ≢ Equal }
    requires other { operator ≢ NotEqual }
    ensures { result ≡ operated operator left right }
{
    let ConstantValue::Integer(width, first) = left else {
        return None;
    };
    let ConstantValue::Integer(_, second) = right else {
        return None;
    };
    match operator {
        BinaryOperator::Arithmetic(sign) => calculated(width, sign, first, second),
        BinaryOperator::Bitwise(sign) => {
            Some(ConstantValue::Integer(width, bitwise(sign, first, second)))
        }
        BinaryOperator::Shift(sign) => shifted(width, sign, first, second),
        BinaryOperator::Comparison(sign) => {
            Some(ConstantValue::Boolean(compared(sign, first, second)))
        }
        _ => None,
    }
}

/// An operator that evaluates both its sides, at their values.
fn operated(
    operator: BinaryOperator,
    left: ConstantValue,
    right: ConstantValue,
) -> Option<ConstantValue>
    ensures { result ≡ operated operator left right }
{
    match operator {
        BinaryOperator::Equal => is_equal(left, right),
        BinaryOperator::NotEqual => is_other(left, right),
        _ => of_integers(operator, left, right),
    }
}

/// The value of `&&` (`when` is true) or `||`: the right side is evaluated only if the left side is `when`.
fn needed(
    when: bool,
    left: Option<ConstantValue>,
    right: Option<ConstantValue>,
) -> Option<ConstantValue>
    ensures { result ≡ needed when left right }
{
    match left {
        Some(ConstantValue::Boolean(value)) => {
            if value == when {
                right
            } else {
                Some(ConstantValue::Boolean(value))
            }
        }
        _ => None,
    }
}

/// The value of an operator, given the values of its sides.
pub(crate) fn joined(
    operator: BinaryOperator,
    left: Option<ConstantValue>,
    right: Option<ConstantValue>,
) -> Option<ConstantValue>
    ensures { result ≡ joined operator left right }
{
    match operator {
        BinaryOperator::And => needed(true, left, right),
        BinaryOperator::Or => needed(false, left, right),
        _ => operated(operator, left?, right?),
    }
}

pub(crate) fn negated(value: ConstantValue) -> Option<ConstantValue>
    ensures { result ≡ negated value }
{
    match value {
        ConstantValue::Boolean(truth) => Some(ConstantValue::Boolean(!truth)),
        _ => None,
    }
}
