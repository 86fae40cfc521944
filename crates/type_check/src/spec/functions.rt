//! Spec functions that break a typing rule.

ghost use Rattle.std.specs.Prelude.{◌≡◌, ◌↔◌, List, IsTrue, IfOk};
ghost use Rattle.program.specs.Order.{IsFirstOrNone};
ghost use Rattle.typing_rules.specs.declared.type_pool.PoolType.{PoolType};
ghost use Rattle.std.specs.List.{list_all};
ghost use Rattle.typing_rules.specs.Faults.{spec_signature_is_proper};
ghost use Rattle.typing_rules.specs.ProperTypes.{is_proper_single};
ghost use Rattle.typing_rules.specs.Answers.{System, IsAmbiguous, IsUntypable};
ghost use Rattle.body_types.specs.Plain.{AreCodeTypes};
ghost use Rattle.body_types.specs.SpecTyped.{SpecTypingSays};
ghost use Rattle.type_check.specs.declared.clauses.judged.ClauseRule.TheVariants.{Typing, Settling};
ghost use Rattle.type_check.specs.SpecFaults.{FunctionBreaksAt, SpecFunctionBreaks};

use crate::spec::first::SpecFaults;
use crate::spec::spans::span_if;
use base::memory::NoMemory;
use body_types::code::plain::CodeTypes;
use body_types::spec::typing::{SpecTyping, function_typing};
use program::declaration::{SpecFunction, TypedName};
use program::order::earlier;
use program::program::Program;
use std::alloc::Global;
use type_constraints::code::written::is_proper_single;
use typing_rules::type_pool::TypePool;

/// Decides whether each of these parameters has a type that a parameter may have.
fn are_proper(program: &Program, parameters: &[TypedName]) -> bool
    ensures { result ≡ list_all (λ p. is_proper_single program.now.structs p.annotation) parameters.now }
{
    for parameter in parameters {
        if !is_proper_single(&program.structs, &parameter.annotation) {
            return false;
        }
    }
    true
}

/// Decides whether the parameters and the result of a spec function have types that they may have.
fn is_signature_proper(program: &Program, function: &SpecFunction) -> bool
    ensures { result ≡ spec_signature_is_proper program.now function.now }
{
    are_proper(program, function.parameters.as_slice())
        && is_proper_single(&program.structs, &function.result)
}

/// The rules that a spec function breaks.
#[derive(Clone, Copy)]
struct JudgedFunction {
    is_untyped: bool,
    is_unsettled: bool,
}

fn is_untypable(typing: &SpecTyping) -> bool
    ensures { (s : System) (pool : List PoolType) → SpecTypingSays s pool typing.now → IsTrue result ↔ IsUntypable s }
{
    matches!(typing, SpecTyping::Untypable)
}

fn is_ambiguous(typing: &SpecTyping) -> bool
    ensures { (s : System) (pool : List PoolType) → SpecTypingSays s pool typing.now → IsTrue result ↔ IsAmbiguous s }
{
    matches!(typing, SpecTyping::Ambiguous(_))
}

fn judge_function<'a>(
    alloc: Global,
    types: &'a CodeTypes,
    program: &'a Program,
    function: &'a SpecFunction,
) -> Result<JudgedFunction, NoMemory>
    requires { AreCodeTypes types.now }
    ensures untyped { IfOk result (λ judged. IsTrue judged.is_untyped ↔ SpecFunctionBreaks program.now Typing function.now) }
    ensures unsettled { IfOk result (λ judged. IsTrue judged.is_unsettled ↔ SpecFunctionBreaks program.now Settling function.now) }
{
    let mut pool = TypePool::new(alloc);
    let typing = function_typing(alloc, types, program, function, &mut pool)?;
    let is_proper = is_signature_proper(program, function);
    Ok(JudgedFunction {
        is_untyped: is_untypable(&typing) | !is_proper,
        is_unsettled: is_ambiguous(&typing),
    })
}

/// Finds the span of the first spec function that breaks each rule.
pub(crate) fn first_functions<'a>(
    alloc: Global,
    types: &'a CodeTypes,
    program: &'a Program,
) -> Result<SpecFaults, NoMemory>
    requires { AreCodeTypes types.now }
    ensures untyped { IfOk result (λ first. IsFirstOrNone (FunctionBreaksAt program.now Typing) first.untyped) }
    ensures unsettled { IfOk result (λ first. IsFirstOrNone (FunctionBreaksAt program.now Settling) first.unsettled) }
{
    let mut untyped = None;
    let mut unsettled = None;
    for number in 0..program.spec_functions.len() {
        if let Some((_, function)) = program.spec_functions.entry(number) {
            let judged = judge_function(alloc, types, program, function)?;
            let without = span_if(judged.is_untyped, function.span);
            let open = span_if(judged.is_unsettled, function.span);
            untyped = earlier(untyped, without);
            unsettled = earlier(unsettled, open);
        }
    }
    Ok(SpecFaults { untyped, unsettled })
}
