//! The first spans where code breaks a typing rule.

ghost use Rattle.std.specs.Prelude.{◌≡◌, ◌↔◌, ℕ, IfOk, IsTrue, None, Some, false, length, slice_get, slice_index_or};
ghost use Rattle.std.specs.Bool.{Decides};
ghost use Rattle.base.specs.declared.types.FunctionId.{FunctionId as FunctionIdData};
ghost use Rattle.program.specs.declared.declaration.Function.{Function as FunctionData};
ghost use Rattle.program.specs.declared.program.Program.{Program as ProgramData};
ghost use Rattle.typing_rules.specs.Answers.{IsAmbiguous};
ghost use Rattle.typing_rules.specs.Calls.{IsWrapping};
ghost use Rattle.typing_rules.specs.CodeSystems.{function_system};
ghost use Rattle.typing_rules.specs.Faults.{fields_are_proper};
ghost use Rattle.program.specs.Order.{IsFirstOrNone};
ghost use Rattle.body_types.specs.Plain.{AreCodeTypes};
ghost use Rattle.type_check.specs.Split.{CodeBreaksTyping, CodeIsUnsettled, ConstantAt, ConstantBreaks, ConstantIsOpen, FunctionAt, FunctionBreaks, FunctionIsOpen, StructAt, StructBreaks};
ghost use Rattle.type_check.specs.Functions.{AreTypings, IsTypingOf};
ghost use Rattle.type_check.specs.CodeFaults.{AreEarlier, AreFaults, span_if};

use crate::code::functions::FunctionTyping;
use crate::code::judged::{BrokenRules, is_ambiguous, is_ill_typed};
use crate::code::variables::variable_types;
use ability_rules::polymorphic_recursion::wrapping::wrapping_functions;
use base::memory::NoMemory;
use base::span::Span;
use body_types::code::plain::CodeTypes;
use body_types::code::runs::constant_run_fails;
use body_types::code::typing::constant_typing;
use program::declaration::{Constant, Struct};
use program::order::earlier;
use program::program::Program;
use std::alloc::Global;
use type_constraints::code::written::is_proper_value;
use typing_rules::type_pool::TypePool;

/// The first span, in the order of the files, for each typing rule that functions, constants and structs break.
#[derive(Clone, Copy, Debug, PartialEq, Eq)]
pub struct CodeFaults {
    /// That of a function or a constant that has no typing, or one in which a number literal does not fit its type, of
    /// a constant whose run fails, of a function with polymorphic recursion, or of a struct with a field of a type that
    /// a field may not have.
    pub untyped: Option<Span>,
    /// That of a function or a constant that is ambiguous.
    pub unsettled: Option<Span>,
}

/// No faults.
fn no_faults() -> CodeFaults
    ensures untyped { result.untyped ≡ None }
    ensures unsettled { result.unsettled ≡ None }
{
    CodeFaults {
        untyped: None,
        unsettled: None,
    }
}

/// The span of a declaration if it breaks a rule.
pub(crate) fn span_if(is_broken: bool, span: Span) -> Option<Span>
    ensures { result ≡ span_if is_broken span }
{
    if is_broken { Some(span) } else { None }
}

/// The earlier faults of two, rule by rule.
fn both(left: CodeFaults, right: CodeFaults) -> CodeFaults
    ensures { AreEarlier left right result }
{
    CodeFaults {
        untyped: earlier(left.untyped, right.untyped),
        unsettled: earlier(left.unsettled, right.unsettled),
    }
}

/// The faults of one declaration.
fn faults_at(broken: BrokenRules, span: Span) -> CodeFaults
    ensures untyped { result.untyped ≡ span_if broken.untyped span }
    ensures unsettled { result.unsettled ≡ span_if broken.unsettled span }
{
    CodeFaults {
        untyped: span_if(broken.untyped, span),
        unsettled: span_if(broken.unsettled, span),
    }
}

/// The rules that a function with this typing breaks.
fn function_rules(typing: &FunctionTyping, wraps: bool) -> BrokenRules
    ensures untyped { (program : ProgramData) (id : FunctionIdData) (f : FunctionData) → IsTypingOf program f typing.now → (IsTrue wraps ↔ IsWrapping program id) → Decides result.untyped (FunctionBreaks program id f) }
    ensures unsettled { (program : ProgramData) (f : FunctionData) → IsTypingOf program f typing.now → Decides result.unsettled (IsAmbiguous (function_system program f)) }
{
    let ill = is_ill_typed(&typing.typing);
    BrokenRules {
        untyped: ill | wraps,
        unsettled: is_ambiguous(&typing.typing),
    }
}

/// The faults of functions. For each it is given whether it has polymorphic recursion.
fn function_faults(program: &Program, typings: &[FunctionTyping], wrapping: &[bool]) -> CodeFaults
    requires typings { AreTypings program.now typings.now }
    requires len { length wrapping.now ≡ length typings.now }
    requires wrapping { (n : ℕ) (id : FunctionIdData) (f : FunctionData) → slice_get program.now.functions n ≡ Some (id, f) → IsTrue (slice_index_or wrapping.now n false) ↔ IsWrapping program.now id }
    ensures { AreFaults (FunctionAt program.now (FunctionBreaks program.now)) (FunctionAt program.now (FunctionIsOpen program.now)) result }
{
    let mut faults = no_faults();
    for number in 0..typings.len() {
        if let Some((_, function)) = program.functions.entry(number) {
            let broken = function_rules(&typings[number], wrapping[number]);
            let found = faults_at(broken, function.span);
            faults = both(faults, found);
        }
    }
    faults
}

/// The rules that a constant breaks. Its types are in a pool of their own.
fn constant_rules(
    alloc: Global,
    types: &CodeTypes,
    program: &Program,
    constant: &Constant,
) -> Result<BrokenRules, NoMemory>
    requires { AreCodeTypes types.now }
    ensures untyped { IfOk result (λ broken. Decides broken.untyped (ConstantBreaks program.now constant.now)) }
    ensures unsettled { IfOk result (λ broken. Decides broken.unsettled (ConstantIsOpen program.now constant.now)) }
{
    let mut pool = TypePool::new(alloc);
    let typing = constant_typing(alloc, types, program, constant, &mut pool)?;
    let fails = constant_run_fails(alloc, types, program, constant)?;
    let ill = is_ill_typed(&typing);
    Ok(BrokenRules {
        untyped: ill | fails,
        unsettled: is_ambiguous(&typing),
    })
}

/// The faults of constants.
fn constant_faults(
    alloc: Global,
    types: &CodeTypes,
    program: &Program,
) -> Result<CodeFaults, NoMemory>
    requires { AreCodeTypes types.now }
    ensures { IfOk result (AreFaults (ConstantAt program.now (ConstantBreaks program.now)) (ConstantAt program.now (ConstantIsOpen program.now))) }
{
    let mut faults = no_faults();
    for number in 0..program.constants.len() {
        if let Some((_, constant)) = program.constants.entry(number) {
            let broken = constant_rules(alloc, types, program, constant)?;
            let found = faults_at(broken, constant.span);
            faults = both(faults, found);
        }
    }
    Ok(faults)
}

/// Decides whether each field of a struct has a type that a field may have.
fn are_fields_proper(program: &Program, declaration: &Struct) -> bool
    ensures { result ≡ fields_are_proper program.now declaration.now }
{
    let structs = &program.structs;
    let fields = declaration.fields.as_slice();
    fields
        .iter()
        .all(|field| is_proper_value(structs, &field.annotation))
}

/// The span of the first struct with a field of a type that a field may not have.
fn struct_fault(program: &Program) -> Option<Span>
    ensures { IsFirstOrNone (StructAt program.now (StructBreaks program.now)) result }
{
    let mut found = None;
    for number in 0..program.structs.len() {
        if let Some((_, declaration)) = program.structs.entry(number) {
            let are = are_fields_proper(program, declaration);
            let next = span_if(!are, declaration.span);
            found = earlier(found, next);
        }
    }
    found
}

/// Finds the first spans where functions, constants and structs break typing rules. The typing of each function is
/// given. The time grows with the nodes of functions and constants, the types in the pools with their parts, and the
/// types of fields.
pub fn code_faults(
    alloc: Global,
    types: &CodeTypes,
    program: &Program,
    typings: &[FunctionTyping],
) -> Result<CodeFaults, NoMemory>
    requires types { AreCodeTypes types.now }
    requires typings { AreTypings program.now typings.now }
    ensures untyped { IfOk result (λ faults. IsFirstOrNone (CodeBreaksTyping program.now) faults.untyped) }
    ensures unsettled { IfOk result (λ faults. IsFirstOrNone (CodeIsUnsettled program.now) faults.unsettled) }
{
    let known = variable_types(alloc, typings)?;
    let wrapping = wrapping_functions(alloc, program, &known)?;
    let functions = function_faults(program, typings, &wrapping);
    let constants = constant_faults(alloc, types, program)?;
    let fields = struct_fault(program);
    let later = earlier(constants.untyped, fields);
    Ok(CodeFaults {
        untyped: earlier(functions.untyped, later),
        unsettled: earlier(functions.unsettled, constants.unsettled),
    })
}
