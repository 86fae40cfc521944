//! Default types for open slots.

ghost use Rattle.std.specs.Prelude.{◌≡◌, ◌<◌, ℕ, IsTrue, true, false, length, slice_index, IfOk};
ghost use Rattle.unification.specs.declared.type_variables.slots.Sort.TheVariants.{Any, Integer};
ghost use Rattle.unification.specs.declared.type_variables.slots.Slot.TheVariants.{Open};
ghost use Rattle.unification.specs.Roots.{AreRoots};
ghost use Rattle.unification.specs.Given.{GivesOne, Gives, AnyVariable, IsDropped};

use crate::type_variables::slots::{Slot, Sort, Term};
use base::memory::NoMemory;
use base::types::TypeTerm;
use std::alloc::Global;

/// Decides whether the slot is an open integer type.
pub fn is_open_integer<'a>(slot: Slot<'a>) -> bool
    ensures yes { result ≡ true → slot.entry ≡ Open Integer }
    ensures no { result ≡ false → slot.entry ≡ Open Integer → ⊥ }
{
    match slot {
        Slot::Open(sort) => matches!(&sort, Sort::Integer),
        Slot::Bound(_) => false,
    }
}

fn is_open_any<'a>(slot: Slot<'a>) -> bool
    ensures yes { result ≡ true → slot.entry ≡ Open Any }
    ensures no { result ≡ false → slot.entry ≡ Open Any → ⊥ }
{
    match slot {
        Slot::Open(sort) => matches!(&sort, Sort::Any),
        Slot::Bound(_) => false,
    }
}

/// The slot with this type, if it is an open integer type.
fn with_integer<'a>(slot: Slot<'a>, integer: &'a TypeTerm) -> Slot<'a>
    ensures { GivesOne Integer integer.now slot.entry result }
{
    if is_open_integer(slot) {
        Slot::Bound(Term::Closed(integer))
    } else {
        slot
    }
}

/// Returns the slots with this type for each open integer type.
pub fn with_integers<'a>(
    alloc: Global,
    slots: &[Slot<'a>],
    integer: &'a TypeTerm,
) -> Result<Vec<Slot<'a>>, NoMemory>
    ensures { IfOk result (λ given. Gives slots.now given.items Integer integer.now AnyVariable) }
{
    let mut given = Vec::new(alloc);
    for slot in slots {
        given.push(with_integer(*slot, integer))?;
    }
    Ok(given)
}

/// Gives the type `()` to each open slot of any type that is the representative of a dropped variable.
fn give_units<'a>(slots: &mut [Slot<'a>], roots: &[usize], dropped: &[usize], unit: &'a TypeTerm)
    requires roots { AreRoots slots.old roots.now (length slots.old) }
    requires within { (k : ℕ) → k < length dropped.now → slice_index dropped.now k < length slots.old }
    ensures { Gives slots.old slots.new Any unit.now (IsDropped roots.now dropped.now (length dropped.now)) }
{
    for variable in dropped {
        let at = roots[*variable];
        if is_open_any(slots[at]) {
            slots[at] = Slot::Bound(Term::Closed(unit));
        }
    }
}

/// Returns the slots with `()` for each open slot of any type that is the representative of a dropped variable.
pub fn with_units<'a>(
    slots: Vec<Slot<'a>>,
    roots: &[usize],
    dropped: &[usize],
    unit: &'a TypeTerm,
) -> Vec<Slot<'a>>
    requires roots { AreRoots slots.items roots.now (length slots.items) }
    requires within { (k : ℕ) → k < length dropped.now → slice_index dropped.now k < length slots.items }
    ensures { Gives slots.entry.items result.items Any unit.now (IsDropped roots.now dropped.now (length dropped.now)) }
{
    let mut given = slots;
    give_units(&mut given, roots, dropped, unit);
    given
}
