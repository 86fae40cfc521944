//! The kinds of the types of type variables.

ghost use Rattle.std.specs.Prelude.{◌<◌, length};
ghost use Rattle.unification.specs.Slots.{Fits};
ghost use Rattle.type_solver.specs.Equations.{Keeps, KindSaid};

use unification::type_variables::heads::{KindSeen, kind_seen};
use unification::type_variables::slots::Slot;

/// Returns what is known of the kind of the type of a variable.
pub fn kind_at<'a>(slots: &mut Vec<Slot<'a>>, variable: usize) -> KindSeen<'a>
    requires fits { Fits slots.old.items }
    requires within { variable < length slots.old.items }
    ensures said { KindSaid slots.old.items slots.new.items variable result }
    ensures keeps { Keeps slots.old.items slots.new.items }
{
    kind_seen(slots, variable)
}
