//! The abilities of the types of locals.

ghost use Rattle.std.specs.Prelude.{◌+◌, ◌≤◌, All, IfOk, length};
ghost use Rattle.program.specs.declared.program.Program.{Program};
ghost use Rattle.ability_rules.specs.Bodies.{IsJudgedBody};
ghost use Rattle.ability_rules.specs.Entries.{IsListed};
ghost use Rattle.ability_rules.specs.Locals.{AreLocalAbilities};

use crate::required::body::{JudgedBody, known};
use base::memory::NoMemory;
use program::declaration::{AbilitySet, Function};
use std::alloc::Global;

/// Returns the abilities of the types of a function's locals, by their numbers.
pub fn local_abilities<'a>(
    alloc: Global,
    function: &Function,
    judged: JudgedBody<'a>,
) -> Result<Vec<AbilitySet>, NoMemory>
    requires within { length function.now.body.nodes + length function.now.locals ≤ length judged.variables.now }
    requires known { All (IsListed judged.table.now) judged.variables.now }
    ensures { IfOk result (λ sets. (program : Program) → IsJudgedBody program function.now judged.entry.variables.now judged.entry.table.now → AreLocalAbilities program function.now sets.items) }
{
    let first = function.body.len();
    let mut sets = Vec::new(alloc);
    for local in 0..function.locals.as_slice().len() {
        let of = known(judged, first + local);
        sets.push(of.abilities)?;
    }
    Ok(sets)
}
