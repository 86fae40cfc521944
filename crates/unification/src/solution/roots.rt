//! The representatives of unified type variables.

ghost use Rattle.std.specs.Prelude.{◌≡◌, ◌<◌, length, IfOk, MatchOption};
ghost use Rattle.unification.specs.Slots.{Fits, IsRoot};
ghost use Rattle.unification.specs.Roots.{IsRootOf, AreRoots};

use crate::type_variables::slots::{Slot, Term};
use base::memory::NoMemory;
use std::alloc::Global;

/// The type variable that a slot refers to as one of the same type.
fn link<'a>(slot: Slot<'a>) -> Option<usize>
    ensures { MatchOption result (IsRoot slot.entry) (λ next. slot.entry ≡ Slot.Bound (Term.Variable next)) }
{
    match slot {
        Slot::Open(_) => None,
        Slot::Bound(term) => match term {
            Term::Variable(next) => Some(next),
            _ => None,
        },
    }
}

/// The representative of this type variable, given those of the variables before it.
fn root_of<'a>(slots: &[Slot<'a>], roots: &[usize], variable: usize) -> usize
    requires fits { Fits slots.now }
    requires roots { AreRoots slots.now roots.now variable }
    requires within { variable < length slots.now }
    ensures { IsRootOf slots.now variable result }
{
    match link(slots[variable]) {
        None => variable,
        Some(next) => roots[next],
    }
}

/// Returns the representative of each type variable. Variables refer to smaller ones, so that one pass finds them all.
pub fn all_roots<'a>(alloc: Global, slots: &[Slot<'a>]) -> Result<Vec<usize>, NoMemory>
    requires { Fits slots.now }
    ensures { IfOk result (λ roots. AreRoots slots.now roots.items (length slots.now)) }
{
    let mut roots = Vec::new(alloc);
    for variable in 0..slots.len() {
        let root = root_of(slots, &roots, variable);
        roots.push(root)?;
    }
    Ok(roots)
}
