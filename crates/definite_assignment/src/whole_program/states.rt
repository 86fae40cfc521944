//! The states of the locals of all functions of a program.

ghost use Rattle.std.specs.Prelude.{IfOk};
ghost use Rattle.definite_assignment.specs.WholeProgramStates.{HasStates, HaveStates};
ghost use Rattle.definite_assignment.specs.KnownState.{AreTypedBy, IsTypedBy};

use crate::points::states::{LocalStates, local_states};
use crate::whole_program::known::FunctionTypes;
use crate::whole_program::locals::abilities_of;
use base::memory::NoMemory;
use program::declaration::Function;
use program::program::Program;
use std::alloc::Global;

/// The states of a function's locals at its nodes.
fn function_states(
    alloc: Global,
    program: &Program,
    function: &Function,
    known: FunctionTypes<'_>,
) -> Result<LocalStates, NoMemory>
    requires { IsTypedBy program.now function.now known }
    ensures { IfOk result (λ states. HasStates program.now function.now states) }
{
    let types = abilities_of(alloc, program, function, known)?;
    let sets = types.as_slice();
    let parameters = function.parameters.as_slice().len();
    local_states(alloc, sets, parameters, &function.body)
}

/// Returns the states of the locals of each function at its nodes, in the order of the program, given the types of each
/// function's type variables. Time and memory grow with the nodes of each function, once for each 64 of its locals, and
/// with the types in its pool.
pub fn program_states(
    alloc: Global,
    program: &Program,
    known: &[FunctionTypes<'_>],
) -> Result<Vec<LocalStates>, NoMemory>
    requires { AreTypedBy program.now known.now }
    ensures { IfOk result (λ states. HaveStates program.now states.items) }
{
    let mut states = Vec::new(alloc);
    for number in 0..known.len() {
        if let Some((_, function)) = program.functions.entry(number) {
            let own = function_states(alloc, program, function, known[number])?;
            states.push(own)?;
        }
    }
    Ok(states)
}
