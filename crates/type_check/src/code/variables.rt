//! The types of the type variables of all functions.

ghost use Rattle.std.specs.Prelude.{IfOk};
ghost use Rattle.program.specs.declared.declaration.Function.{Function};
ghost use Rattle.program.specs.declared.program.Program.{Program};
ghost use Rattle.ability_rules.specs.KnownTypes.{AreKnown, IsListed};
ghost use Rattle.type_check.specs.Functions.{AreTypings, IsTypingOf};

use crate::code::functions::FunctionTyping;
use ability_rules::polymorphic_recursion::known::VariableTypes;
use base::memory::NoMemory;
use std::alloc::Global;

/// What the typing of a function determines of its type variables.
fn types_of<'a>(typing: &'a FunctionTyping) -> VariableTypes<'a>
    ensures { (program : Program) (f : Function) → IsTypingOf program f typing.now → IsListed program f result }
{
    VariableTypes {
        pool: &typing.pool,
        types: typing.variables.as_slice(),
        read: typing.read,
    }
}

/// Returns for each function the types of those of its type variables that have one; also for an ambiguous function,
/// and none for one without a typing.
pub fn variable_types<'a>(
    alloc: Global,
    typings: &'a [FunctionTyping],
) -> Result<Vec<VariableTypes<'a>>, NoMemory>
    ensures { IfOk result (λ known. (program : Program) → AreTypings program typings.now → AreKnown program known.items) }
{
    let mut known = Vec::new(alloc);
    for number in 0..typings.len() {
        let types = types_of(&typings[number]);
        known.push(types)?;
    }
    Ok(known)
}
