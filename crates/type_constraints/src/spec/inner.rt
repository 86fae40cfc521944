//! The constraints of spec expressions with one part or two.

ghost use Rattle.std.specs.Prelude.{◌≡◌, ◌++◌, ◌∷◌, [], OnOk};
ghost use Rattle.typing_rules.specs.CodeConstraints.{has};
ghost use Rattle.type_constraints.specs.Seen.{plain_type, seen_all};
ghost use Rattle.typing_rules.specs.SpecConstraints.{common_constraints, spec_binary_constraints, spec_operator_constraints, spec_unary_constraints};

use crate::constraint::{Constraint, PlainType, add, has};
use base::memory::NoMemory;
use program::operator::{BinaryOperator, SpecOperator};
use program::spec::{SpecBinary, SpecUnary};
use typing_rules::sort::{Sort, Wrap};

/// Adds the constraints of an expression with one part.
pub fn add_unary<'a>(
    constraints: &mut Vec<Constraint<'a>>,
    variable: usize,
    form: &'a SpecUnary,
    part: usize,
) -> Result<(), NoMemory>
    ensures { OnOk result (seen_all constraints.new.items ≡ seen_all constraints.old.items ++ spec_unary_constraints variable form.now part) }
{
    match form {
        SpecUnary::Not => add(
            constraints,
            &[has(part, PlainType::Bool), has(variable, PlainType::Bool)],
        ),
        SpecUnary::Field(name) => add(constraints, &[Constraint::FieldOf(variable, part, name)]),
    }
}

/// Adds the constraints that both parts and the whole have these types.
fn add_three<'a>(
    constraints: &mut Vec<Constraint<'a>>,
    variable: usize,
    left: usize,
    right: usize,
    parts: PlainType,
    whole: PlainType,
) -> Result<(), NoMemory>
    ensures { OnOk result (seen_all constraints.new.items ≡ seen_all constraints.old.items ++ has left (plain_type parts) ∷ has right (plain_type parts) ∷ has variable (plain_type whole) ∷ []) }
{
    add(
        constraints,
        &[has(left, parts), has(right, parts), has(variable, whole)],
    )
}

/// Adds the constraints of an operator that Move has too.
fn add_common<'a>(
    constraints: &mut Vec<Constraint<'a>>,
    variable: usize,
    operator: BinaryOperator,
    left: usize,
    right: usize,
) -> Result<(), NoMemory>
    ensures { OnOk result (seen_all constraints.new.items ≡ seen_all constraints.old.items ++ common_constraints variable operator left right) }
{
    match operator {
        BinaryOperator::Arithmetic(_) | BinaryOperator::Bitwise(_) | BinaryOperator::Shift(_) => {
            add_three(
                constraints,
                variable,
                left,
                right,
                PlainType::Num,
                PlainType::Num,
            )
        }
        BinaryOperator::Comparison(_) => {
            add_three(
                constraints,
                variable,
                left,
                right,
                PlainType::Num,
                PlainType::Bool,
            )
        }
        BinaryOperator::Equal | BinaryOperator::NotEqual => {
            let value = Constraint::IsOf(Sort::Value, left);
            let same = Constraint::Same(left, right);
            add(constraints, &[value, same, has(variable, PlainType::Bool)])
        }
        BinaryOperator::And | BinaryOperator::Or => {
            add_three(
                constraints,
                variable,
                left,
                right,
                PlainType::Bool,
                PlainType::Bool,
            )
        }
    }
}

fn add_operator<'a>(
    constraints: &mut Vec<Constraint<'a>>,
    variable: usize,
    operator: SpecOperator,
    left: usize,
    right: usize,
) -> Result<(), NoMemory>
    ensures { OnOk result (seen_all constraints.new.items ≡ seen_all constraints.old.items ++ spec_operator_constraints variable operator left right) }
{
    match operator {
        SpecOperator::Common(common) => add_common(constraints, variable, common, left, right),
        SpecOperator::Implies | SpecOperator::Equivalent => {
            add_three(
                constraints,
                variable,
                left,
                right,
                PlainType::Bool,
                PlainType::Bool,
            )
        }
        SpecOperator::Range => {
            add_three(
                constraints,
                variable,
                left,
                right,
                PlainType::Num,
                PlainType::Nothing,
            )
        }
    }
}

/// Adds the constraints of an expression with two parts.
pub fn add_binary<'a>(
    constraints: &mut Vec<Constraint<'a>>,
    variable: usize,
    form: &SpecBinary,
    left: usize,
    right: usize,
) -> Result<(), NoMemory>
    ensures { OnOk result (seen_all constraints.new.items ≡ seen_all constraints.old.items ++ spec_binary_constraints variable form.now left right) }
{
    match form {
        SpecBinary::Operator(operator) => add_operator(
            constraints,
            variable,
            *operator,
            left,
            right,
        ),
        SpecBinary::Index => {
            let value = Constraint::IsOf(Sort::Value, variable);
            let made = Constraint::MadeOf(left, Wrap::Vector, variable);
            add(constraints, &[value, made, has(right, PlainType::Num)])
        }
    }
}
