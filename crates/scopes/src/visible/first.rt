//! The first declaration of a program that breaks visibility.

ghost use Rattle.std.specs.Prelude.{◌≡◌, ◌↔◌, All, IsTrue, IfOk, MatchOption, map};
ghost use Rattle.program.specs.Order.{IsFirst};
ghost use Rattle.scopes.specs.Visible.{IsBarred, IsFirstBarred, IsVerdict, IsVisible, NodeIsVisible, codes_of, constant_code, function_code};

use crate::visible::node::is_node_visible;
use base::memory::NoMemory;
use base::span::Span;
use base::types::FunctionId;
use program::code::Body;
use program::declaration::{Constant, Function, TypeParameter};
use program::home::Home;
use program::order::earlier;
use program::program::{ConstantId, ModuleId, Program};
use std::alloc::Global;

/// Decides whether each node of a body respects visibility.
fn is_body_visible(
    alloc: Global,
    program: &Program,
    own: &ModuleId,
    types: &[TypeParameter],
    body: &Body,
) -> Result<bool, NoMemory>
    ensures { IfOk result (λ visible. IsTrue visible ↔ All (NodeIsVisible program.now own.now types.now) body.now.nodes) }
{
    for index in 0..body.len() {
        if !is_node_visible(alloc, program, own, types, body.node(index))? {
            return Ok(false);
        }
    }
    Ok(true)
}

/// Returns the span of a function, if it breaks visibility.
fn barred_function(
    alloc: Global,
    program: &Program,
    id: &FunctionId,
    function: &Function,
) -> Result<Option<Span>, NoMemory>
    ensures { IfOk result (λ found. IsVerdict program.now (function_code (id.now, function.now)) found) }
{
    let own = Home::of_function(id).to_id(alloc)?;
    let types = function.type_parameters.as_slice();
    if is_body_visible(alloc, program, &own, types, &function.body)? {
        Ok(None)
    } else {
        Ok(Some(function.span))
    }
}

/// Returns the span of a constant, if its value breaks visibility.
fn barred_constant(
    alloc: Global,
    program: &Program,
    id: &ConstantId,
    constant: &Constant,
) -> Result<Option<Span>, NoMemory>
    ensures { IfOk result (λ found. IsVerdict program.now (constant_code (id.now, constant.now)) found) }
{
    let own = Home::of_constant(id).to_id(alloc)?;
    if is_body_visible(alloc, program, &own, &[], &constant.value)? {
        Ok(None)
    } else {
        Ok(Some(constant.span))
    }
}

/// Finds the first function that breaks visibility. Returns its span.
#[tactic(auto, using(crate::proofs::Among::next_entry, crate::proofs::Among::none_yet))]
fn first_function(alloc: Global, program: &Program) -> Result<Option<Span>, NoMemory>
    ensures { IfOk result (λ found. IsFirstBarred program.now (map function_code program.now.functions) found) }
{
    let mut found = None;
    for number in 0..program.functions.len() {
        if let Some((id, function)) = program.functions.entry(number) {
            let next = barred_function(alloc, program, id, function)?;
            found = earlier(found, next);
        }
    }
    Ok(found)
}

/// Finds the first constant whose value breaks visibility. Returns its span.
#[tactic(auto, using(crate::proofs::Among::next_entry, crate::proofs::Among::none_yet))]
fn first_constant(alloc: Global, program: &Program) -> Result<Option<Span>, NoMemory>
    ensures { IfOk result (λ found. IsFirstBarred program.now (map constant_code program.now.constants) found) }
{
    let mut found = None;
    for number in 0..program.constants.len() {
        if let Some((id, constant)) = program.constants.entry(number) {
            let next = barred_constant(alloc, program, id, constant)?;
            found = earlier(found, next);
        }
    }
    Ok(found)
}

/// Finds the first function or constant, in the order of the files, that breaks visibility: it calls a function that is
/// not visible in its module, packs or unpacks a struct of another module, or uses global storage at a written type
/// that is a struct of another module or a type parameter with `key`. Returns its span, or none if there is no such
/// declaration.
#[tactic(auto, using(crate::proofs::Among::answered, crate::proofs::Among::of_both))]
pub fn first_invisible(alloc: Global, program: &Program) -> Result<Option<Span>, NoMemory>
    ensures { IfOk result (λ found. MatchOption found (All (IsVisible program.now) (codes_of program.now)) (IsFirst (IsBarred program.now))) }
{
    let functions = first_function(alloc, program)?;
    let constants = first_constant(alloc, program)?;
    Ok(earlier(functions, constants))
}
