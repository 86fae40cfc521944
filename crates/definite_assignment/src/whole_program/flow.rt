//! The first function of a program that breaks a rule on its locals.

ghost use Rattle.std.specs.Prelude.{◌≡◌, ◌↔◌, IfOk, IsTrue, Some, None, if◌then◌else◌};
ghost use Rattle.typing_rules.specs.Events.{Unassigned, Undropped};
ghost use Rattle.definite_assignment.specs.Flow.{FlowSays, FunctionBreaks, fault_of};
ghost use Rattle.definite_assignment.specs.KnownState.{AreTypedBy, IsTypedBy};

use crate::rules::{BrokenRules, broken_rules};
use crate::whole_program::known::FunctionTypes;
use crate::whole_program::locals::abilities_of;
use base::memory::NoMemory;
use base::span::Span;
use program::declaration::Function;
use program::order::earlier;
use program::program::Program;
use std::alloc::Global;

/// A rule on locals that a function breaks on some control path, with the span of the function.
#[derive(Clone, Copy, Debug, PartialEq, Eq)]
pub enum FlowFault {
    /// A local may be used without a value.
    Unassigned(Span),
    /// A value whose type has no drop may be left behind.
    Undropped(Span),
}

/// Returns which rules on its locals a function breaks.
fn function_rules(
    alloc: Global,
    program: &Program,
    function: &Function,
    known: FunctionTypes<'_>,
) -> Result<BrokenRules, NoMemory>
    requires { IsTypedBy program.now function.now known }
    ensures unassigned { IfOk result (λ broken. IsTrue broken.unassigned ↔ FunctionBreaks program.now Unassigned function.now) }
    ensures undropped { IfOk result (λ broken. IsTrue broken.undropped ↔ FunctionBreaks program.now Undropped function.now) }
{
    let types = abilities_of(alloc, program, function, known)?;
    let sets = types.as_slice();
    let parameters = function.parameters.as_slice().len();
    broken_rules(alloc, sets, parameters, &function.body)
}

/// The span of a declaration if it breaks a rule.
fn span_if(is_broken: bool, span: Span) -> Option<Span>
    ensures { result ≡ (if is_broken then Some span else None) }
{
    if is_broken { Some(span) } else { None }
}

/// The fault of a program, from the first spans of functions that break each rule.
fn first_fault(unassigned: Option<Span>, undropped: Option<Span>) -> Option<FlowFault>
    ensures { result ≡ fault_of unassigned undropped }
{
    match (unassigned, undropped) {
        (Some(span), _) => Some(FlowFault::Unassigned(span)),
        (None, Some(span)) => Some(FlowFault::Undropped(span)),
        (None, None) => None,
    }
}

/// Finds the first function, in the order of the files, that uses a local without a value on some control path; where
/// there is none, the first one that leaves a value behind, on some control path, whose type has no drop; and returns
/// its span. None where no function breaks either rule. The types of the type variables of each function are given in
/// the order of the program. The time grows with the nodes of each function, once for each 64 of its locals, and with
/// the types in its pool.
pub fn flow_fault(
    alloc: Global,
    program: &Program,
    known: &[FunctionTypes<'_>],
) -> Result<Option<FlowFault>, NoMemory>
    requires { AreTypedBy program.now known.now }
    ensures { IfOk result (λ found. FlowSays program.now found) }
{
    let mut unassigned = None;
    let mut undropped = None;
    for number in 0..known.len() {
        if let Some((_, function)) = program.functions.entry(number) {
            let broken = function_rules(alloc, program, function, known[number])?;
            let used = span_if(broken.unassigned, function.span);
            let left = span_if(broken.undropped, function.span);
            unassigned = earlier(unassigned, used);
            undropped = earlier(undropped, left);
        }
    }
    Ok(first_fault(unassigned, undropped))
}
