//! The visibility of what one node uses.

ghost use Rattle.std.specs.Prelude.{◌≡◌, ◌↔◌, All, IsTrue, IfOk, slice_get};
ghost use Rattle.base.specs.TypeData.{list_of_types, types_of};
ghost use Rattle.scopes.specs.Visible.{CallIsVisible, FormIsVisible, FunctionIsVisible, NodeIsVisible, friends_of};
ghost use Rattle.program.specs.StorageTypes.{TypeIsVisible, key_of};

use crate::visibility::may_call;
use base::memory::NoMemory;
use base::types::{FunctionId, TypeNode, TypeTerm};
use program::arena::Node;
use program::code::{Call, Callee, CodeBinary, CodeLeaf, CodeMany, CodeUnary};
use program::declaration::TypeParameter;
use program::home::Home;
use program::program::{ModuleId, Program};
use std::alloc::Global;

/// Returns the friends that a module names.
fn friends_of<'a>(program: &'a Program, owner: &ModuleId) -> &'a [ModuleId]
    ensures { result.now ≡ friends_of program.now owner.now }
{
    match program.modules.get(owner) {
        Some(found) => found.friends.as_slice(),
        None => &[],
    }
}

/// Decides whether a function can be called in a module.
fn is_function_visible(
    alloc: Global,
    program: &Program,
    own: &ModuleId,
    function: &FunctionId,
) -> Result<bool, NoMemory>
    ensures { IfOk result (λ visible. IsTrue visible ↔ FunctionIsVisible program.now own.now function.now) }
{
    let Some(declaration) = program.functions.get(function) else {
        return Ok(false);
    };
    let owner = Home::of_function(function).to_id(alloc)?;
    let friends = friends_of(program, &owner);
    Ok(may_call(own, &owner, declaration.visibility, friends))
}

/// Decides whether the type parameter with this number exists and has `key`.
fn has_key(types: &[TypeParameter], number: u32) -> bool
    ensures { result ≡ key_of (slice_get types.now number) }
{
    match types.get(number as usize) {
        Some(parameter) => parameter.abilities.has_key,
        None => false,
    }
}

/// Decides whether global storage can be used at this type.
fn is_type_visible(own: &ModuleId, types: &[TypeParameter], term: &TypeTerm) -> bool
    ensures { IsTrue result ↔ TypeIsVisible own.now types.now term.now }
{
    match &term.node {
        TypeNode::Struct(id, _) => Home::of_struct(id).is(own),
        TypeNode::Param(number) => !has_key(types, *number),
        _ => true,
    }
}

fn are_types_visible(own: &ModuleId, types: &[TypeParameter], terms: &[TypeTerm]) -> bool
    ensures { IsTrue result ↔ All (TypeIsVisible own.now types.now) terms.now }
{
    for term in terms {
        if !is_type_visible(own, types, term) {
            return false;
        }
    }
    true
}

fn are_listed_visible(own: &ModuleId, types: &[TypeParameter], terms: &[TypeTerm]) -> bool
    ensures { IsTrue result ↔ All (TypeIsVisible own.now types.now) (list_of_types (types_of terms.now)) }
{
    are_types_visible(own, types, terms)
}

fn is_call_visible(
    alloc: Global,
    program: &Program,
    own: &ModuleId,
    types: &[TypeParameter],
    call: &Call,
) -> Result<bool, NoMemory>
    ensures { IfOk result (λ visible. IsTrue visible ↔ CallIsVisible program.now own.now types.now call.now.callee (list_of_types call.now.types)) }
{
    match &call.callee {
        Callee::Function(function) => is_function_visible(alloc, program, own, function),
        Callee::Storage(_) => Ok(are_listed_visible(own, types, &call.types.items)),
        _ => Ok(true),
    }
}

fn is_form_visible(
    alloc: Global,
    program: &Program,
    own: &ModuleId,
    types: &[TypeParameter],
    form: &CodeMany,
) -> Result<bool, NoMemory>
    ensures { IfOk result (λ visible. IsTrue visible ↔ FormIsVisible program.now own.now types.now form.now) }
{
    match form {
        CodeMany::Call(call) => is_call_visible(alloc, program, own, types, call.get()),
        CodeMany::Pack(fields) => Ok(Home::of_struct(&fields.get().owner).is(own)),
        CodeMany::Unpack(fields) => Ok(Home::of_struct(&fields.get().owner).is(own)),
        _ => Ok(true),
    }
}

/// Decides whether a node respects visibility, its children aside.
pub(crate) fn is_node_visible(
    alloc: Global,
    program: &Program,
    own: &ModuleId,
    types: &[TypeParameter],
    node: &Node<CodeLeaf, CodeUnary, CodeBinary, CodeMany>,
) -> Result<bool, NoMemory>
    ensures { IfOk result (λ visible. IsTrue visible ↔ NodeIsVisible program.now own.now types.now node.now) }
{
    match node {
        Node::Many(form, _) => is_form_visible(alloc, program, own, types, form),
        _ => Ok(true),
    }
}
