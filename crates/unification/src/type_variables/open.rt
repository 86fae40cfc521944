//! Open type variables, and type variables that are added with their types.

ghost use Rattle.std.specs.Prelude.{◌≡◌, ◌<◌, ◌≤◌, ◌+◌, ℕ, IfOk, OnOk, length};
ghost use Rattle.unification.specs.Slots.{Typing, value, Meets, Fits, TermWithin};
ghost use Rattle.unification.specs.Grown.{Grows};

use crate::type_variables::slots::{Slot, Sort, Term};
use std::alloc::{AllocError, Global};

/// So many type variables of which nothing is known.
pub fn open_slots<'a>(alloc: Global, variables: usize) -> Result<Vec<Slot<'a>>, AllocError>
    ensures same_length { IfOk result (λ slots. length slots.items ≡ variables) }
    ensures fits { IfOk result (λ slots. Fits slots.items) }
    ensures start { IfOk result (λ slots. (t : Typing) → Meets slots.items t) }
{
    let mut slots = Vec::new(alloc);
    for i in 0..variables {
        slots.push(Slot::Open(Sort::Any))?;
    }
    Ok(slots)
}

/// Adds a type variable with the type of a term.
pub fn add_bound<'a>(slots: &mut Vec<Slot<'a>>, term: Term<'a>) -> Result<(), AllocError>
    requires fits { Fits slots.old.items }
    requires term { TermWithin (length slots.old.items) term }
    ensures grows { OnOk result (Grows slots.old.items (λ t. Unit {0}) slots.new.items (λ t. Unit {0})) }
    ensures has { OnOk result ((t : Typing) → Meets slots.new.items t → t (length slots.old.items) ≡ value t term.entry) }
    ensures one { OnOk result (length slots.new.items ≡ length slots.old.items + 1) }
{
    slots.push(Slot::Bound(term))?;
    Ok(())
}
