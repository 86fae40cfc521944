//! The typings of all functions, each with a pool of its own.

ghost use Rattle.std.specs.Prelude.{◌≡◌, Some, None, map, replicate, IfOk};
ghost use Rattle.typing_rules.specs.CodeSystems.{function_setting};
ghost use Rattle.typing_rules.specs.Settings.{variable_count};
ghost use Rattle.body_types.specs.Plain.{AreCodeTypes};
ghost use Rattle.type_check.specs.Functions.{AreTypings, IsTypingOf, variables_of, read_of};

use base::memory::NoMemory;
use body_types::code::plain::CodeTypes;
use body_types::code::typing::{CodeTyping, function_typing};
use program::declaration::Function;
use program::program::Program;
use std::alloc::Global;
use type_solver::code_systems::counts::variable_count;
use type_solver::code_systems::systems::function_setting;
use typing_rules::type_pool::TypePool;

/// The typing of a function, with the types of its type variables in a pool of its own.
#[derive(Drop)]
pub struct FunctionTyping {
    pub pool: TypePool,
    pub typing: CodeTyping,
    /// For each type variable the number of its type in the pool, if it has one.
    pub variables: Vec<Option<usize>>,
    /// The number of nodes that are read, which are the first ones, if there are typings.
    pub read: usize,
}

/// No number for any type variable of a function.
fn no_variables(
    alloc: Global,
    program: &Program,
    function: &Function,
) -> Result<Vec<Option<usize>>, NoMemory>
    ensures { IfOk result (λ variables. variables.items ≡ replicate (variable_count (function_setting program.now function.now)) None) }
{
    let count = variable_count(function_setting(program, function))?;
    Ok(vec![in alloc; None; count]?)
}

/// The numbers of type variables all of which have one.
fn known_variables(alloc: Global, numbers: &[usize]) -> Result<Vec<Option<usize>>, NoMemory>
    ensures { IfOk result (λ variables. variables.items ≡ map Some numbers.now) }
{
    let mut variables = Vec::new(alloc);
    for number in numbers {
        variables.push(Some(*number))?;
    }
    Ok(variables)
}

/// The numbers of type variables that have one.
fn copied_variables(
    alloc: Global,
    numbers: &[Option<usize>],
) -> Result<Vec<Option<usize>>, NoMemory>
    ensures { IfOk result (λ variables. variables.items ≡ numbers.now) }
{
    let mut variables = Vec::new(alloc);
    for number in numbers {
        variables.push(*number)?;
    }
    Ok(variables)
}

/// The numbers of the types that the type variables of a function have by its typing.
fn variables_of(
    alloc: Global,
    program: &Program,
    function: &Function,
    typing: &CodeTyping,
) -> Result<Vec<Option<usize>>, NoMemory>
    ensures { IfOk result (λ variables. variables.items ≡ variables_of (variable_count (function_setting program.now function.now)) typing.now) }
{
    match typing {
        CodeTyping::Untypable => no_variables(alloc, program, function),
        CodeTyping::Ambiguous(numbers, _) => copied_variables(alloc, numbers),
        CodeTyping::Typed(numbers, _) => known_variables(alloc, numbers.as_slice()),
    }
}

/// The number of nodes that are read by a typing.
fn read_of(typing: &CodeTyping) -> usize
    ensures { result ≡ read_of typing.now }
{
    match typing {
        CodeTyping::Untypable => 0,
        CodeTyping::Ambiguous(_, judged) => judged.read,
        CodeTyping::Typed(_, judged) => judged.read,
    }
}

/// Types one function.
fn type_function(
    alloc: Global,
    types: &CodeTypes,
    program: &Program,
    function: &Function,
) -> Result<FunctionTyping, NoMemory>
    requires { AreCodeTypes types.now }
    ensures { IfOk result (λ typing. IsTypingOf program.now function.now typing) }
{
    let mut pool = TypePool::new(alloc);
    let typing = function_typing(alloc, types, program, function, &mut pool)?;
    let variables = variables_of(alloc, program, function, &typing)?;
    let read = read_of(&typing);
    Ok(FunctionTyping {
        pool,
        typing,
        variables,
        read,
    })
}

/// Returns the typings of all functions of a program, in their order.
pub fn type_functions(
    alloc: Global,
    types: &CodeTypes,
    program: &Program,
) -> Result<Vec<FunctionTyping>, NoMemory>
    requires { AreCodeTypes types.now }
    ensures { IfOk result (λ typings. AreTypings program.now typings.items) }
{
    let mut typings = Vec::new(alloc);
    for number in 0..program.functions.len() {
        if let Some((_, function)) = program.functions.entry(number) {
            let typing = type_function(alloc, types, program, function)?;
            typings.push(typing)?;
        }
    }
    Ok(typings)
}
