//! The typing of functions and constants.

ghost use Rattle.std.specs.Prelude.{◌≡◌, IfOk};
ghost use Rattle.typing_rules.specs.Answers.{System};
ghost use Rattle.typing_rules.specs.CodeSystems.{constant_system, function_system};
ghost use Rattle.unification.specs.Numbers.{Keeps};
ghost use Rattle.body_types.specs.Plain.{AreCodeTypes};
ghost use Rattle.body_types.specs.Typable.{IsTypable, IsCode, is_whole};
ghost use Rattle.body_types.specs.CodeTyped.{TypingSays};

use crate::code::dropped::dropped_variables;
use crate::code::fitting::{Judged, judge};
use crate::code::plain::CodeTypes;
use crate::code::typable::{Typable, known_typings};
use base::memory::NoMemory;
use program::code::Body;
use program::declaration::{Constant, Function};
use program::program::Program;
use program::sequence::Sequence;
use std::alloc::Global;
use type_solver::code_systems::systems::{read_constant, read_function};
use type_solver::walk::Reading;
use typing_rules::type_pool::TypePool;
use unification::solution::choice::{choose, types_of_variables};

/// The typing of a function or a constant.
#[derive(Drop)]
pub enum CodeTyping {
    /// No typing exists.
    Untypable,
    /// Typings exist, and a head is open, or the type of a type variable is not determined: for each type variable the
    /// number in the pool of its type, if it has one.
    Ambiguous(Vec<Option<usize>>, Judged),
    /// The types of all type variables, by their numbers in the pool.
    Typed(Sequence<usize>, Judged),
}

fn is_whole(reading: Reading) -> bool
    ensures { result ≡ is_whole reading }
{
    matches!(&reading, Reading::Whole)
}

/// The typing of code that has typings.
fn typing_of<'a>(
    alloc: Global,
    types: &'a CodeTypes,
    pool: &mut TypePool,
    body: &Body,
    known: Typable<'a>,
) -> Result<CodeTyping, NoMemory>
    requires types { AreCodeTypes types.now }
    requires known { (s : System) × (IsTypable s known × IsCode s body.now.nodes) }
    ensures keeps { IfOk result (λ typing. Keeps pool.old pool.new) }
    ensures says { IfOk result (λ typing. (s : System) → IsTypable s known.entry → IsCode s body.now.nodes → TypingSays s body.now.nodes pool.new typing) }
{
    let Typable {
        variables,
        defaulted,
        progress,
    } = known;
    let judged = judge(body, &defaulted, progress.count);
    let dropped = dropped_variables(alloc, body)?;
    let numbers = types_of_variables(alloc, pool, defaulted, variables, &dropped, &types.unit)?;
    if !is_whole(progress.reading) {
        return Ok(CodeTyping::Ambiguous(numbers, judged));
    }
    match choose(alloc, &numbers)? {
        None => Ok(CodeTyping::Ambiguous(numbers, judged)),
        Some(chosen) => Ok(CodeTyping::Typed(chosen, judged)),
    }
}

/// Returns the typing of a function. After `NoMemory` the pool may contain some of its types.
pub fn function_typing<'a>(
    alloc: Global,
    types: &'a CodeTypes,
    program: &'a Program,
    function: &'a Function,
    pool: &mut TypePool,
) -> Result<CodeTyping, NoMemory>
    requires { AreCodeTypes types.now }
    ensures keeps { IfOk result (λ typing. Keeps pool.old pool.new) }
    ensures says { IfOk result (TypingSays (function_system program.now function.now) function.now.body.nodes pool.new) }
{
    let walk = read_function(alloc, &types.plain, program, function)?;
    match known_typings(alloc, types, walk)? {
        None => Ok(CodeTyping::Untypable),
        Some(known) => typing_of(alloc, types, pool, &function.body, known),
    }
}

/// Returns the typing of a constant. After `NoMemory` the pool may contain some of its types.
pub fn constant_typing<'a>(
    alloc: Global,
    types: &'a CodeTypes,
    program: &'a Program,
    constant: &'a Constant,
    pool: &mut TypePool,
) -> Result<CodeTyping, NoMemory>
    requires { AreCodeTypes types.now }
    ensures keeps { IfOk result (λ typing. Keeps pool.old pool.new) }
    ensures says { IfOk result (TypingSays (constant_system program.now constant.now) constant.now.value.nodes pool.new) }
{
    let walk = read_constant(alloc, &types.plain, program, constant)?;
    match known_typings(alloc, types, walk)? {
        None => Ok(CodeTyping::Untypable),
        Some(known) => typing_of(alloc, types, pool, &constant.value, known),
    }
}
