//! The first function of a program that uses a field of a struct of another module, or global storage at such a struct.

ghost use Rattle.std.specs.Prelude.{◌≡◌, IfOk, Some, None, if◌then◌else◌};
ghost use Rattle.std.specs.Bool.{Decides};
ghost use Rattle.program.specs.Homes.{function_home};
ghost use Rattle.program.specs.Order.{IsFirstOrNone};
ghost use Rattle.typing_rules.specs.FieldBars.{BarsUse};
ghost use Rattle.typing_rules.specs.Faults.{BreaksVisibility};
ghost use Rattle.type_solver.specs.Plain.{ArePlain};

use crate::barred_uses::function::bars_use;
use base::memory::NoMemory;
use base::span::Span;
use base::types::FunctionId;
use program::declaration::Function;
use program::home::Home;
use program::order::earlier;
use program::program::Program;
use std::alloc::Global;
use type_solver::plain::{PlainTypes, plain_types};

/// Decides whether visibility forbids an access in a function.
fn function_bars(
    alloc: Global,
    types: &PlainTypes,
    program: &Program,
    id: &FunctionId,
    function: &Function,
) -> Result<bool, NoMemory>
    requires { ArePlain types.now }
    ensures { IfOk result (λ bars. Decides bars (BarsUse program.now (function_home id.now) function.now)) }
{
    let own = Home::of_function(id).to_id(alloc)?;
    bars_use(alloc, types, program, &own, function)
}

/// The span of a declaration if it breaks a rule.
fn span_if(is_broken: bool, span: Span) -> Option<Span>
    ensures { result ≡ (if is_broken then Some span else None) }
{
    if is_broken { Some(span) } else { None }
}

/// Finds the span of the first function, in the order of the files, that uses a field of a struct of another module, or
/// global storage at such a struct or at a type parameter that has key, whether the type is written or inferred; none
/// if and only if no function does. The nodes of a function are judged in their order, as far as they have typings.
/// `NoMemory` also where `type_solver` returns it.
pub fn first_barred(alloc: Global, program: &Program) -> Result<Option<Span>, NoMemory>
    ensures { IfOk result (IsFirstOrNone (BreaksVisibility program.now)) }
{
    let types = plain_types();
    let mut found = None;
    for number in 0..program.functions.len() {
        if let Some((id, function)) = program.functions.entry(number) {
            let is_barred = function_bars(alloc, &types, program, id, function)?;
            let next = span_if(is_barred, function.span);
            found = earlier(found, next);
        }
    }
    Ok(found)
}
