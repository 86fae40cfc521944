//! Decides whether code that was read has typings.

ghost use Rattle.std.specs.Prelude.{IfOk};
ghost use Rattle.unification.specs.Slots.{Fits};
ghost use Rattle.typing_rules.specs.Answers.{System};
ghost use Rattle.body_types.specs.Plain.{AreCodeTypes};
ghost use Rattle.body_types.specs.Typable.{IsKnownOf, IsWalkOf, TypableSays};

use crate::code::plain::CodeTypes;
use base::memory::NoMemory;
use std::alloc::Global;
use type_solver::code_systems::systems::Walk;
use type_solver::walk::{Progress, Reading};
use unification::solution::choice::{Defaulted, with_defaults};
use unification::type_variables::slots::Slot;

/// What is known of code that has typings: the number of its type variables, what is known of their types with default
/// integer types, and how far it was read.
#[derive(Drop)]
pub struct Typable<'a> {
    pub variables: usize,
    pub defaulted: Defaulted<'a>,
    pub progress: Progress,
}

/// The same, from slots that know the typings.
fn from_slots<'a>(
    alloc: Global,
    types: &'a CodeTypes,
    variables: usize,
    slots: Vec<Slot<'a>>,
    progress: Progress,
) -> Result<Option<Typable<'a>>, NoMemory>
    requires types { AreCodeTypes types.now }
    requires fits { Fits slots.items }
    ensures { IfOk result (λ found. (s : System) → IsKnownOf s variables slots.entry.items progress → TypableSays s found) }
{
    match with_defaults(alloc, &slots, &types.plain.int_64)? {
        None => Ok(None),
        Some(defaulted) => Ok(Some(Typable {
            variables,
            defaulted,
            progress,
        })),
    }
}

/// Returns what is known of code that was read, if it has typings.
pub fn known_typings<'a>(
    alloc: Global,
    types: &'a CodeTypes,
    walk: Walk<'a>,
) -> Result<Option<Typable<'a>>, NoMemory>
    requires types { AreCodeTypes types.now }
    requires known { (s : System) × IsWalkOf s walk }
    ensures { IfOk result (λ found. (s : System) → IsWalkOf s walk.entry → TypableSays s found) }
{
    let Walk {
        variables,
        slots,
        progress,
    } = walk;
    match progress.reading {
        Reading::Whole => from_slots(alloc, types, variables, slots, progress),
        Reading::Stopped => from_slots(alloc, types, variables, slots, progress),
        Reading::Clash => Ok(None),
    }
}
