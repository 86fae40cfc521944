//! The equation of each constraint, given the heads before it.

ghost use Rattle.std.specs.Prelude.{◌≡◌, ◌<◌, IfOk, length, map};
ghost use Rattle.type_constraints.specs.Seen.{seen, seen_form};
ghost use Rattle.typing_rules.specs.Constraint as D;
ghost use Rattle.typing_rules.specs.Rules.{TypeReading};
ghost use Rattle.unification.specs.Slots.{Fits};
ghost use Rattle.unification.specs.declared.type_variables.slots.Term.{Term as TermData};
ghost use Rattle.type_solver.specs.Plain.{ArePlain};
ghost use Rattle.type_solver.specs.Within.{ConstraintWithin, FormWithin, VariablesWithin};
ghost use Rattle.type_solver.specs.Equations.{Keeps, Emits, reading_of};

use crate::constraints::{alike, behind, takes, target_of, through};
use crate::equation::Equation;
use crate::fields::field;
use crate::forms::form_term;
use crate::plain::PlainTypes;
use crate::returned::returns;
use crate::words::{sort_word, wrap_word};
use base::memory::NoMemory;
use base::types::StructId;
use program::declaration::Struct;
use program::table::Table;
use std::alloc::Global;
use type_constraints::constraint::{Constraint, TypeForm};
use unification::type_variables::signature::group_terms;
use unification::type_variables::slots::{Group, Slot, Term};

/// What constraints look up: the structs, the types of the language itself, and whether types are read as specifications
/// read them.
#[derive(Clone, Copy)]
pub struct Tables<'a> {
    pub structs: &'a Table<StructId, Struct>,
    pub types: &'a PlainTypes,
    pub is_spec: bool,
}

/// The equation that the variable has the type that a rule names.
fn has<'a>(
    alloc: Global,
    types: &'a PlainTypes,
    slots: &mut Vec<Slot<'a>>,
    variable: usize,
    form: TypeForm<'a>,
) -> Result<Equation<'a>, NoMemory>
    requires types { ArePlain types.now }
    requires fits { Fits slots.old.items }
    requires variable { variable < length slots.old.items }
    requires form { FormWithin (length slots.old.items) (seen_form form) }
    ensures keeps { IfOk result (λ q. Keeps slots.old.items slots.new.items) }
    ensures emits { IfOk result (λ q. (w : TypeReading) → Emits w slots.old.items slots.new.items (D.Has variable (seen_form form.entry)) q) }
{
    let term = form_term(alloc, types, slots, form)?;
    Ok(Equation::Equal(Term::Variable(variable), term))
}

/// Type variables as terms.
fn variable_terms<'a>(alloc: Global, parts: &[usize]) -> Result<Vec<Term<'a>>, NoMemory>
    ensures { IfOk result (λ terms. terms.items ≡ map TermData.Variable parts.now) }
{
    let mut terms = Vec::new(alloc);
    for part in parts {
        terms.push(Term::Variable(*part))?;
    }
    Ok(terms)
}

/// The equation that the variable has the tuple of the types of these.
fn tuple_of<'a>(
    alloc: Global,
    slots: &mut Vec<Slot<'a>>,
    variable: usize,
    parts: &[usize],
) -> Result<Equation<'a>, NoMemory>
    requires fits { Fits slots.old.items }
    requires variable { variable < length slots.old.items }
    requires parts { VariablesWithin (length slots.old.items) parts.now }
    ensures keeps { IfOk result (λ q. Keeps slots.old.items slots.new.items) }
    ensures emits { IfOk result (λ q. (w : TypeReading) → Emits w slots.old.items slots.new.items (D.TupleOf variable parts.now) q) }
{
    let terms = variable_terms(alloc, parts)?;
    let term = group_terms(slots, Group::Tuple, &terms)?;
    Ok(Equation::Equal(Term::Variable(variable), term))
}

/// Returns the equation of a constraint.
pub fn emit<'a>(
    alloc: Global,
    tables: Tables<'a>,
    slots: &mut Vec<Slot<'a>>,
    constraint: Constraint<'a>,
) -> Result<Equation<'a>, NoMemory>
    requires types { ArePlain tables.types.now }
    requires fits { Fits slots.old.items }
    requires within { ConstraintWithin (length slots.old.items) (seen constraint) }
    ensures keeps { IfOk result (λ q. Keeps slots.old.items slots.new.items) }
    ensures emits { IfOk result (λ q. Emits (reading_of tables.entry) slots.old.items slots.new.items (seen constraint.entry) q) }
{
    match constraint {
        Constraint::Same(a, b) => Ok(Equation::Equal(Term::Variable(a), Term::Variable(b))),
        Constraint::Has(variable, form) => has(alloc, tables.types, slots, variable, form),
        Constraint::MadeOf(variable, wrap, from) => {
            Ok(Equation::Equal(Term::Variable(variable), Term::Made(wrap_word(wrap), from)))
        }
        Constraint::TupleOf(variable, parts) => tuple_of(alloc, slots, variable, parts),
        Constraint::IsOf(sort, variable) => Ok(Equation::Sorted(sort_word(sort), variable)),
        Constraint::Alike(left, right) => Ok(alike(slots, left, right)),
        Constraint::Takes(variable, form) => takes(alloc, tables.types, slots, variable, form),
        Constraint::Returns(variable, form) => returns(alloc, tables.types, slots, variable, form),
        Constraint::FieldOf(variable, from, name) => {
            field(alloc, tables, slots, variable, from, name)
        }
        Constraint::TargetOf(variable, from) => Ok(target_of(slots, variable, from)),
        Constraint::Through(variable) => Ok(through(slots, variable)),
        Constraint::Behind(variable) => Ok(behind(slots, variable)),
        Constraint::Barred => Ok(Equation::Never),
    }
}
