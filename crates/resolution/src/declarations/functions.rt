//! Resolution of functions.

ghost use Rattle.std.specs.Prelude.{◌≡◌, ◌<◌, ◌^◌, false, length, map, IfOk, IfErr};
ghost use Rattle.scopes.specs.Meanings.{IfUnknown, IsMeaning, each, struct_meaning};
ghost use Rattle.resolution.specs.Parameters.{type_names_of};
ghost use Rattle.resolution.specs.Declarations.{HasUnknownInFunction, HasUnknownInHead, IsFunctionOf, IsHeadOf, acquires_meaning, parameter_name_of, result_meaning, visibility_of};

use crate::declarations::parameters::{type_names_of, type_parameters_of, typed_names};
use base::memory::NoMemory;
use base::name::Name;
use base::types::{StructId, TypeList, TypeNode, TypeTerm};
use body_names::code::body::{FunctionBody, resolve_body};
use body_names::code::context::Context;
use program::declaration::{TypeParameter, TypedName, Visibility};
use program::sequence::Sequence;
use scopes::environment::Environment;
use scopes::fault::NameFault;
use scopes::types::{TypeContext, type_named};
use std::alloc::Global;
use syntax_tree::member::{
    Function as FunctionTree, Paths, TypedName as TypedNameTree, Visibility as VisibilityTree,
};
use syntax_tree::path::Path;
use syntax_tree::types::SourceType;

/// The head of a function: all but its span, its body and its specs.
#[derive(Drop)]
pub struct Head {
    pub visibility: Visibility,
    pub type_parameters: Sequence<TypeParameter>,
    pub parameters: Sequence<TypedName>,
    /// The empty tuple if none is written.
    pub result_type: TypeTerm,
    pub acquires: Sequence<StructId>,
}

/// A function without its specs.
#[derive(Drop)]
pub struct ResolvedFunction {
    pub head: Head,
    pub body: FunctionBody,
}

fn visibility_of(visibility: VisibilityTree) -> Visibility
    ensures { result ≡ visibility_of visibility }
{
    match visibility {
        VisibilityTree::Module => Visibility::Private,
        VisibilityTree::Public(_) => Visibility::Public,
        VisibilityTree::Friends(_) => Visibility::Friend,
    }
}

/// Resolves the type of a function's result.
fn result_type(
    alloc: Global,
    context: &TypeContext<'_>,
    result_tree: &Option<SourceType>,
) -> Result<TypeTerm, NameFault>
    requires { length context.now.parameters.now < 2 ^ 32 }
    ensures { IsMeaning result (result_meaning (record { environment = context.now.environment.now; parameters = context.now.parameters.now; is_spec = context.now.is_spec }) result_tree.now) }
{
    match result_tree {
        None => Ok(TypeTerm {
            node: TypeNode::Tuple(TypeList {
                items: Vec::new(alloc),
            }),
        }),
        Some(tree) => type_named(alloc, context, tree),
    }
}

/// Returns the structs that paths name.
#[tactic(auto, using(scopes::proofs::EachLaws::each_next, scopes::proofs::EachLaws::each_none))]
fn structs_named(
    alloc: Global,
    environment: &Environment,
    paths: &[Path],
) -> Result<Sequence<StructId>, NameFault>
    ensures { IsMeaning result (each (struct_meaning environment.now) paths.now) }
{
    let mut structs = Sequence::new(alloc);
    for path in paths {
        structs.push(environment.struct_named(alloc, path)?)?;
    }
    Ok(structs)
}

/// Returns the structs in a function's `acquires`.
fn acquires(
    alloc: Global,
    environment: &Environment,
    paths: &Option<Paths>,
) -> Result<Sequence<StructId>, NameFault>
    ensures { IsMeaning result (acquires_meaning environment.now paths.now) }
{
    match paths {
        None => Ok(Sequence::new(alloc)),
        Some(paths) => structs_named(alloc, environment, &paths.items),
    }
}

fn parameter_names(alloc: Global, names: &[TypedNameTree]) -> Result<Sequence<Name>, NoMemory>
    ensures { IfOk result (λ found. found ≡ map parameter_name_of names.now) }
{
    let mut found = Sequence::new(alloc);
    for name in names {
        found.push(name.name.text.try_clone(alloc)?)?;
    }
    Ok(found)
}

/// Resolves the head of a function, whose type parameters have these names.
fn resolve_head(
    alloc: Global,
    context: &TypeContext<'_>,
    tree: &FunctionTree,
) -> Result<Head, NameFault>
    requires few { length context.now.parameters.now < 2 ^ 32 }
    requires names { context.now.parameters.now ≡ type_names_of tree.now.parameters }
    requires code { context.now.is_spec ≡ false }
    ensures resolved { IfOk result (IsHeadOf context.now.environment.now tree.now) }
    ensures unknown { IfErr result (λ fault. IfUnknown fault (HasUnknownInHead context.now.environment.now tree.now)) }
{
    let parameters = typed_names(alloc, context, &tree.inputs.items)?;
    let result_type = result_type(alloc, context, &tree.result)?;
    let acquires = acquires(alloc, context.environment, &tree.acquires)?;
    Ok(Head {
        visibility: visibility_of(tree.visibility),
        type_parameters: type_parameters_of(alloc, &tree.parameters)?,
        parameters,
        result_type,
        acquires,
    })
}

/// Resolves a function, without its specs. `Unknown` exactly if a name in its head or a use in its body has no meaning;
/// `NoMemory` if memory runs out first.
pub fn resolve_function(
    alloc: Global,
    environment: &Environment,
    tree: &FunctionTree,
) -> Result<ResolvedFunction, NameFault>
    requires few { length (type_names_of tree.now.parameters) < 2 ^ 32 }
    ensures resolved { IfOk result (IsFunctionOf environment.now tree.now) }
    ensures unknown { IfErr result (λ fault. IfUnknown fault (HasUnknownInFunction environment.now tree.now)) }
{
    let names = type_names_of(alloc, &tree.parameters)?;
    let types = TypeContext {
        environment,
        parameters: names.as_slice(),
        is_spec: false,
    };
    let head = resolve_head(alloc, &types, tree)?;
    let parameters = parameter_names(alloc, &tree.inputs.items)?;
    let context = Context { alloc, types };
    let body = resolve_body(&context, parameters, &tree.body)?;
    Ok(ResolvedFunction { head, body })
}
