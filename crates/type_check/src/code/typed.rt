//! The first spans where typed functions and structs break the rules on abilities and on `acquires`.

ghost use Rattle.std.specs.Prelude.{◌↔◌, IfOk, IsTrue, MatchOption};
ghost use Rattle.program.specs.declared.declaration.Function.{Function as FunctionData};
ghost use Rattle.program.specs.declared.program.Program.{Program as ProgramData};
ghost use Rattle.program.specs.Order.{IsFirstOrNone};
ghost use Rattle.typing_rules.specs.Required.{FunctionLacksAbility, StructLacksAbility};
ghost use Rattle.typing_rules.specs.Acquires.{LacksAcquires};
ghost use Rattle.typing_rules.specs.Faults.{BreaksAbility, BreaksAcquires};
ghost use Rattle.definite_assignment.specs.KnownState.{AreTypedBy, IsTypedBy};
ghost use Rattle.type_check.specs.Split.{FunctionAt, StructAt};
ghost use Rattle.type_check.specs.Functions.{AreTypings, IsTypingOf};
ghost use Rattle.type_check.specs.Typed.{HasUntyped, IsUntyped};

use crate::code::faults::span_if;
use crate::code::functions::FunctionTyping;
use ability_rules::acquires::function::lacks_acquires;
use ability_rules::required::body::JudgedBody;
use ability_rules::required::declared::{given_abilities, struct_lacks_ability};
use ability_rules::required::entry::judge_types;
use ability_rules::required::function::function_lacks_ability;
use base::memory::NoMemory;
use base::span::Span;
use body_types::code::typing::CodeTyping;
use definite_assignment::whole_program::known::FunctionTypes;
use program::declaration::Function;
use program::order::earlier;
use program::program::Program;
use std::alloc::Global;

/// The types of the type variables of a function; none where it is not typed.
fn types_of<'a>(typing: &'a FunctionTyping) -> Option<FunctionTypes<'a>>
    ensures { (program : ProgramData) (f : FunctionData) → IsTypingOf program f typing.now → MatchOption result (IsUntyped program f) (IsTypedBy program f) }
{
    match &typing.typing {
        CodeTyping::Typed(numbers, _) => Some(FunctionTypes {
            pool: &typing.pool,
            types: numbers.as_slice(),
        }),
        _ => None,
    }
}

/// Returns for each function the types of its type variables; none where some function is not typed.
pub fn function_types<'a>(
    alloc: Global,
    typings: &'a [FunctionTyping],
) -> Result<Option<Vec<FunctionTypes<'a>>>, NoMemory>
    ensures { IfOk result (λ found. (program : ProgramData) → AreTypings program typings.now → MatchOption found (HasUntyped program) (λ known. AreTypedBy program known.items)) }
{
    let mut known = Vec::new(alloc);
    for number in 0..typings.len() {
        let Some(types) = types_of(&typings[number]) else {
            return Ok(None);
        };
        known.push(types)?;
    }
    Ok(Some(known))
}

/// Decides whether an ability that a function requires is missing.
fn lacks_ability(
    alloc: Global,
    program: &Program,
    function: &Function,
    known: FunctionTypes<'_>,
) -> Result<bool, NoMemory>
    requires { IsTypedBy program.now function.now known }
    ensures { IfOk result (λ lacks. IsTrue lacks ↔ FunctionLacksAbility program.now function.now) }
{
    let parameters = function.type_parameters.as_slice();
    let given = given_abilities(alloc, parameters)?;
    let constraints = given.as_slice();
    let table = judge_types(alloc, &program.structs, constraints, known.pool, 0)?;
    let judged = JudgedBody {
        variables: known.types,
        table: &table,
    };
    function_lacks_ability(alloc, program, function, judged)
}

/// The span of the first function that requires an ability that is missing.
fn function_fault(
    alloc: Global,
    program: &Program,
    known: &[FunctionTypes<'_>],
) -> Result<Option<Span>, NoMemory>
    requires { AreTypedBy program.now known.now }
    ensures { IfOk result (IsFirstOrNone (FunctionAt program.now (λ id f. FunctionLacksAbility program.now f))) }
{
    let mut found = None;
    for number in 0..known.len() {
        if let Some((_, function)) = program.functions.entry(number) {
            let lacks = lacks_ability(alloc, program, function, known[number])?;
            let next = span_if(lacks, function.span);
            found = earlier(found, next);
        }
    }
    Ok(found)
}

/// The span of the first struct that declares an ability that a field does not allow.
fn struct_fault(alloc: Global, program: &Program) -> Result<Option<Span>, NoMemory>
    ensures { IfOk result (IsFirstOrNone (StructAt program.now (StructLacksAbility program.now))) }
{
    let mut found = None;
    for number in 0..program.structs.len() {
        if let Some((_, declaration)) = program.structs.entry(number) {
            let lacks = struct_lacks_ability(alloc, program, declaration)?;
            let next = span_if(lacks, declaration.span);
            found = earlier(found, next);
        }
    }
    Ok(found)
}

/// Finds the span of the first function or struct, in the order of the files, that lacks an ability; none where none
/// does. The types of the type variables of each function are given. The time grows with the nodes of functions and the
/// types in their pools with their parts.
pub fn ability_fault(
    alloc: Global,
    program: &Program,
    known: &[FunctionTypes<'_>],
) -> Result<Option<Span>, NoMemory>
    requires { AreTypedBy program.now known.now }
    ensures { IfOk result (IsFirstOrNone (BreaksAbility program.now)) }
{
    let functions = function_fault(alloc, program, known)?;
    let structs = struct_fault(alloc, program)?;
    Ok(earlier(functions, structs))
}

/// Finds the span of the first function, in the order of the files, that leaves a struct out of `acquires`; none where
/// none does. The types of the type variables of each function are given. The time grows with the nodes of functions
/// and the lists of the functions that each calls.
pub fn acquires_fault(
    alloc: Global,
    program: &Program,
    known: &[FunctionTypes<'_>],
) -> Result<Option<Span>, NoMemory>
    requires { AreTypedBy program.now known.now }
    ensures { IfOk result (IsFirstOrNone (BreaksAcquires program.now)) }
{
    let mut found = None;
    for number in 0..known.len() {
        if let Some((id, function)) = program.functions.entry(number) {
            let types = known[number];
            let lacks = lacks_acquires(alloc, program, id, function, types.pool, types.types)?;
            let next = span_if(lacks, function.span);
            found = earlier(found, next);
        }
    }
    Ok(found)
}
