//! Constraints on type variables.

ghost use Rattle.std.specs.Prelude.{◌≡◌, ◌<◌, ◌≤◌, ◌+◌, IsTrue, IfOk, length};
ghost use Rattle.unification.specs.Sorts.{is_of};
ghost use Rattle.unification.specs.Slots.{Typing, value, Fits, TermWithin};
ghost use Rattle.unification.specs.Grown.{Grows};
ghost use Rattle.unification.specs.Instances.{instance, arguments};

use crate::type_variables::joins::{ask_sort, equate};
use crate::type_variables::open::add_bound;
use crate::type_variables::signature::{Parameters, instance};
use crate::type_variables::slots::{Slot, Sort, Term};
use base::types::TypeTerm;
use std::alloc::{AllocError, Global};

/// Adds the constraint that a type variable has the type of a term; false where no typing is left.
pub fn has<'a>(
    alloc: Global,
    slots: &mut Vec<Slot<'a>>,
    variable: usize,
    term: Term<'a>,
) -> Result<bool, AllocError>
    requires fits { Fits slots.old.items }
    requires variable { variable < length slots.old.items }
    requires term { TermWithin (length slots.old.items) term }
    ensures { IfOk result (λ answer. Grows slots.old.items (λ t. t variable ≡ value t term.entry) slots.new.items (λ t. IsTrue answer)) }
{
    equate(alloc, slots, variable, term)
}

/// Adds the constraint that the type of a type variable is of a sort; false where no typing is left.
pub fn is_of<'a>(slots: &mut Vec<Slot<'a>>, variable: usize, sort: Sort) -> bool
    requires fits { Fits slots.old.items }
    requires variable { variable < length slots.old.items }
    ensures { Grows slots.old.items (λ t. IsTrue (is_of sort (t variable))) slots.new.items (λ t. IsTrue result) }
{
    ask_sort(slots, variable, sort)
}

/// Adds the constraint that a type variable has a written type with type variables substituted for its first type
/// parameters; false where no typing is left.
pub fn has_instance<'a>(
    alloc: Global,
    slots: &mut Vec<Slot<'a>>,
    variable: usize,
    of: &'a TypeTerm,
    parameters: Parameters,
) -> Result<bool, AllocError>
    requires fits { Fits slots.old.items }
    requires variable { variable < length slots.old.items }
    requires parameters { parameters.base + parameters.count ≤ length slots.old.items }
    ensures { IfOk result (λ answer. Grows slots.old.items (λ t. t variable ≡ instance (arguments t parameters.base parameters.count) of.now) slots.new.items (λ t. IsTrue answer)) }
{
    let term = instance(alloc, slots, of, parameters)?;
    has(alloc, slots, variable, term)
}

/// Adds the constraint that two terms have one type; false where no typing is left.
pub fn one<'a>(
    alloc: Global,
    slots: &mut Vec<Slot<'a>>,
    left: Term<'a>,
    right: Term<'a>,
) -> Result<bool, AllocError>
    requires fits { Fits slots.old.items }
    requires left { TermWithin (length slots.old.items) left }
    requires right { TermWithin (length slots.old.items) right }
    ensures { IfOk result (λ answer. Grows slots.old.items (λ t. value t left.entry ≡ value t right.entry) slots.new.items (λ t. IsTrue answer)) }
{
    match left {
        Term::Variable(variable) => has(alloc, slots, variable, right),
        _ => one_of(alloc, slots, left, right),
    }
}

fn one_of<'a>(
    alloc: Global,
    slots: &mut Vec<Slot<'a>>,
    left: Term<'a>,
    right: Term<'a>,
) -> Result<bool, AllocError>
    requires fits { Fits slots.old.items }
    requires left { TermWithin (length slots.old.items) left }
    requires right { TermWithin (length slots.old.items) right }
    ensures { IfOk result (λ answer. Grows slots.old.items (λ t. value t left.entry ≡ value t right.entry) slots.new.items (λ t. IsTrue answer)) }
{
    let variable = slots.len();
    add_bound(slots, left)?;
    has(alloc, slots, variable, right)
}
