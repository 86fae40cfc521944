//! Typing a whole program.

ghost use Rattle.std.specs.Prelude.{◌≡◌, IfOk, MatchResult};
ghost use Rattle.program.specs.declared.program.Program.{Program as ProgramData};
ghost use Rattle.declaration_cycles.specs.Circular.{HasNoCycle, schema_kind};
ghost use Rattle.program.specs.Order.{IsFirstOrNone};
ghost use Rattle.typing_rules.specs.Faults.{BreaksTyping, IsUnsettled};
ghost use Rattle.body_types.specs.Plain.{AreCodeTypes};
ghost use Rattle.definite_assignment.specs.KnownState.{AreTypedBy};
ghost use Rattle.type_check.specs.Functions.{AreTypings};
ghost use Rattle.type_check.specs.Included.{AreIncluded};
ghost use Rattle.type_check.specs.Answers.{FaultSays, IsDetermined, IsWellFormed, IsWellTyped};

use crate::code::faults::code_faults;
use crate::code::functions::{FunctionTyping, type_functions};
use crate::code::typed::{ability_fault, acquires_fault, function_types};
use crate::code::variables::variable_types;
use crate::schemas::broken::JudgedInstances;
use crate::spec::first::{JudgedSpecifications, judge_specifications};
use base::memory::NoMemory;
use base::span::Span;
use body_types::code::plain::{CodeTypes, code_types};
use definite_assignment::whole_program::flow::{FlowFault, flow_fault};
use definite_assignment::whole_program::known::FunctionTypes;
use program::order::earlier;
use program::program::Program;
use std::alloc::Global;

/// Why a program has no types, or breaks a rule on locals: the first rule that is broken, in this order and each over
/// all declarations before the next, with the span of the first declaration that breaks it.
#[derive(Clone, Copy, Debug, PartialEq, Eq)]
pub enum TypeFault {
    /// There is no typing; or a number literal does not fit its type, a run of a constant's initialiser does not
    /// return, a function has polymorphic recursion, or a field, a spec function or a schema has a type that it may not
    /// declare.
    NoTyping(Span),
    /// There are typings, and a type is not determined.
    Ambiguous(Span),
    /// A required ability is missing.
    Ability(Span),
    /// A struct that a function must list in `acquires` is not listed.
    Acquires(Span),
    /// A local may be used without a value.
    Unassigned(Span),
    /// A value whose type has no drop may be left behind.
    Undropped(Span),
    NoMemory,
}

impl From<NoMemory> for TypeFault {
    ghost use Rattle.type_check.specs.declared.typing.TypeFault.{TypeFault};

    ghost from_gives = { λ _ fault. fault ≡ TypeFault.NoMemory };

    fn from(_error: NoMemory) -> TypeFault {
        TypeFault::NoMemory
    }
}

/// The included schemas, unless there is a first span of a declaration that has no typing or is ambiguous.
fn determined_by(
    untyped: Option<Span>,
    unsettled: Option<Span>,
    instances: JudgedInstances,
) -> Result<JudgedInstances, TypeFault>
    ensures same { IfOk result (λ found. found ≡ instances) }
    ensures determined { (program : ProgramData) → IsFirstOrNone (BreaksTyping program) untyped → IsFirstOrNone (IsUnsettled program) unsettled → MatchResult result (λ _. IsDetermined program) (FaultSays program) }
{
    match (untyped, unsettled) {
        (Some(span), _) => Err(TypeFault::NoTyping(span)),
        (None, Some(span)) => Err(TypeFault::Ambiguous(span)),
        (None, None) => Ok(instances),
    }
}

/// Returns the included schemas, if all types are determined, in code and in specifications.
///
/// # Errors
///
/// `NoTyping` and `Ambiguous`, with the earlier of the first spans of code and of specifications.
fn check_determined(
    alloc: Global,
    types: &CodeTypes,
    program: &Program,
    typings: &[FunctionTyping],
) -> Result<JudgedInstances, TypeFault>
    requires types { AreCodeTypes types.now }
    requires typings { AreTypings program.now typings.now }
    requires acyclic { HasNoCycle (schema_kind program.now) }
    ensures determined { MatchResult result (λ _. IsDetermined program.now) (FaultSays program.now) }
    ensures included { IfOk result (AreIncluded program.now) }
{
    let known = variable_types(alloc, typings)?;
    let code = code_faults(alloc, types, program, typings)?;
    let specifications = judge_specifications(alloc, types, program, &known)?;
    let JudgedSpecifications { faults, instances } = specifications;
    let untyped = earlier(code.untyped, faults.untyped);
    let unsettled = earlier(code.unsettled, faults.unsettled);
    determined_by(untyped, unsettled, instances)
}

/// Checks that code keeps the rules on abilities and on `acquires`.
///
/// # Errors
///
/// `Ability`, and where none is missing `Acquires`.
fn check_abilities(
    alloc: Global,
    program: &Program,
    known: &[FunctionTypes<'_>],
) -> Result<(), TypeFault>
    requires known { AreTypedBy program.now known.now }
    requires determined { IsDetermined program.now }
    ensures { MatchResult result (λ _. IsWellTyped program.now) (FaultSays program.now) }
{
    if let Some(span) = ability_fault(alloc, program, known)? {
        return Err(TypeFault::Ability(span));
    }
    match acquires_fault(alloc, program, known)? {
        None => Ok(()),
        Some(span) => Err(TypeFault::Acquires(span)),
    }
}

/// Checks that functions keep the rules on locals.
///
/// # Errors
///
/// `Unassigned`, and where no local is used without a value `Undropped`.
fn check_locals(
    alloc: Global,
    program: &Program,
    known: &[FunctionTypes<'_>],
) -> Result<(), TypeFault>
    requires known { AreTypedBy program.now known.now }
    requires typed { IsWellTyped program.now }
    ensures { MatchResult result (λ _. IsWellFormed program.now) (FaultSays program.now) }
{
    match flow_fault(alloc, program, known)? {
        None => Ok(()),
        Some(FlowFault::Unassigned(span)) => Err(TypeFault::Unassigned(span)),
        Some(FlowFault::Undropped(span)) => Err(TypeFault::Undropped(span)),
    }
}

/// Checks the rules that presuppose that all types are determined, so that each function is typed.
fn check_typed(
    alloc: Global,
    program: &Program,
    typings: &[FunctionTyping],
) -> Result<(), TypeFault>
    requires typings { AreTypings program.now typings.now }
    requires determined { IsDetermined program.now }
    ensures { MatchResult result (λ _. IsWellFormed program.now) (FaultSays program.now) }
{
    if let Some(known) = function_types(alloc, typings)? {
        check_abilities(alloc, program, &known)?;
        check_locals(alloc, program, &known)?;
    }
    Ok(())
}

/// The types of all functions of a program, and of all clauses of included schemas.
#[derive(Drop)]
pub struct ProgramTyping {
    pub functions: Vec<FunctionTyping>,
    pub instances: JudgedInstances,
}

/// Returns the types of all functions of a program, and of included schemas. The time grows with the nodes of
/// functions, constants and clauses, those of schemas once for each list of types that they are included with, and with
/// the types in their pools with their parts.
///
/// # Errors
///
/// Each rule if and only if it is the first that is broken, with the span of the first declaration that breaks it; a
/// clause is identified by its spec block. Schemas must not include themselves.
pub fn program_typing(alloc: Global, program: &Program) -> Result<ProgramTyping, TypeFault>
    requires { HasNoCycle (schema_kind program.now) }
    ensures well { MatchResult result (λ _. IsWellFormed program.now) (FaultSays program.now) }
    ensures types { IfOk result (λ typing. AreTypings program.now typing.functions.items) }
    ensures included { IfOk result (λ typing. AreIncluded program.now typing.instances) }
{
    let types = code_types(alloc);
    let functions = type_functions(alloc, &types, program)?;
    let instances = check_determined(alloc, &types, program, &functions)?;
    check_typed(alloc, program, &functions)?;
    Ok(ProgramTyping {
        functions,
        instances,
    })
}

/// Returns the types of all functions of a program, as `program_typing` does.
///
/// # Errors
///
/// Those of `program_typing`.
pub fn type_program(alloc: Global, program: &Program) -> Result<Vec<FunctionTyping>, TypeFault>
    requires { HasNoCycle (schema_kind program.now) }
    ensures well { MatchResult result (λ _. IsWellFormed program.now) (FaultSays program.now) }
    ensures types { IfOk result (λ typings. AreTypings program.now typings.items) }
{
    let ProgramTyping { functions, .. } = program_typing(alloc, program)?;
    Ok(functions)
}
