//! Whether constraints are over existing type variables, and return written types.

ghost use Rattle.std.specs.Prelude.{◌≤◌, ◌+◌, IsTrue};
ghost use Rattle.type_constraints.specs.Seen.{seen, seen_all, seen_form};
ghost use Rattle.type_solver.specs.Within.{AllWithin, ConstraintWithin, FormWithin, IsWritten, VariablesWithin};

use type_constraints::constraint::{Constraint, TypeForm};

/// Decides whether so many type variables, from this one on, are among the first `variables`.
fn are_within(first: usize, count: usize, variables: usize) -> bool
    ensures { IsTrue result → first + count ≤ variables }
{
    count <= variables && first <= variables - count
}

fn form_within<'a>(form: TypeForm<'a>, variables: usize) -> bool
    ensures { IsTrue result → FormWithin variables (seen_form form.entry) }
{
    match form {
        TypeForm::Plain(_) | TypeForm::Written(_) | TypeForm::Read(_) => true,
        TypeForm::Declared(_, first, count) => are_within(first, count, variables),
        TypeForm::DeclaredRead(_, first, count) => are_within(first, count, variables),
        TypeForm::Builtin(_, first, count) => are_within(first, count, variables),
        TypeForm::Applied(_, first, count) => are_within(first, count, variables),
    }
}

fn is_written<'a>(form: TypeForm<'a>) -> bool
    ensures { IsTrue result → IsWritten (seen_form form.entry) }
{
    match form {
        TypeForm::Plain(_) | TypeForm::Written(_) => true,
        _ => false,
    }
}

fn parts_within(parts: &[usize], variables: usize) -> bool
    ensures { IsTrue result → VariablesWithin variables parts.now }
{
    for part in parts {
        if *part >= variables {
            return false;
        }
    }
    true
}

/// Decides whether a constraint is over the first `variables` type variables alone, and returns only a written type.
fn is_within<'a>(constraint: Constraint<'a>, variables: usize) -> bool
    ensures { IsTrue result → ConstraintWithin variables (seen constraint.entry) }
{
    match constraint {
        Constraint::Same(a, b) | Constraint::Alike(a, b) => a < variables && b < variables,
        Constraint::Has(variable, form) => variable < variables && form_within(form, variables),
        Constraint::MadeOf(variable, _, from) => variable < variables && from < variables,
        Constraint::TupleOf(variable, parts) => variable < variables
            && parts_within(parts, variables),
        Constraint::IsOf(_, variable) => variable < variables,
        Constraint::Takes(variable, form) => variable < variables && form_within(form, variables),
        Constraint::Returns(variable, form) => variable < variables && is_written(form),
        Constraint::FieldOf(variable, from, _) => variable < variables && from < variables,
        Constraint::TargetOf(variable, from) => variable < variables && from < variables,
        Constraint::Through(variable) | Constraint::Behind(variable) => variable < variables,
        Constraint::Barred => true,
    }
}

/// Decides whether constraints are over the first `variables` type variables alone, and return only written types.
pub fn all_within<'a>(constraints: &[Constraint<'a>], variables: usize) -> bool
    ensures { IsTrue result → AllWithin variables (seen_all constraints.now) }
{
    for constraint in constraints {
        if !is_within(*constraint, variables) {
            return false;
        }
    }
    true
}
