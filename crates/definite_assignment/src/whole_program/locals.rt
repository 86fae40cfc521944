//! The abilities of the types of a typed function's locals.

ghost use Rattle.std.specs.Prelude.{IfOk};
ghost use Rattle.ability_rules.specs.Locals.{AreLocalAbilities};
ghost use Rattle.definite_assignment.specs.KnownState.{IsTypedBy};

use crate::whole_program::known::FunctionTypes;
use ability_rules::required::body::JudgedBody;
use ability_rules::required::declared::given_abilities;
use ability_rules::required::entry::judge_types;
use ability_rules::required::locals::local_abilities;
use base::memory::NoMemory;
use program::declaration::{AbilitySet, Function};
use program::program::Program;
use std::alloc::Global;

/// Returns the abilities of the types of a function's locals, by their numbers.
pub(crate) fn abilities_of(
    alloc: Global,
    program: &Program,
    function: &Function,
    known: FunctionTypes<'_>,
) -> Result<Vec<AbilitySet>, NoMemory>
    requires { IsTypedBy program.now function.now known }
    ensures { IfOk result (λ sets. AreLocalAbilities program.now function.now sets.items) }
{
    let parameters = function.type_parameters.as_slice();
    let given = given_abilities(alloc, parameters)?;
    let constraints = given.as_slice();
    let table = judge_types(alloc, &program.structs, constraints, known.pool, 0)?;
    let judged = JudgedBody {
        variables: known.types,
        table: &table,
    };
    local_abilities(alloc, function, judged)
}
