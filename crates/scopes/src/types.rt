//! The meaning of types in a source.

ghost use Rattle.std.specs.Prelude.{◌≡◌, ◌<◌, ◌^◌, length, IfOk, MatchResult, None, Some, position};
ghost use Rattle.base.specs.Names.{same_name};
ghost use Rattle.scopes.specs.Meanings.{IsMeaning, word_meaning};
ghost use Rattle.scopes.specs.TypeMeanings.{TypeScope, arguments_meaning, misapplied, named_meaning, parameter_among, plain, only, tuple_of, type_meaning, types_meaning, vector_of, builtin_meaning};
ghost use Rattle.syntax_tree.specs.TypeTreeData.{source_types_of, maybe_arguments_of};

use crate::builtin::plain_type;
use crate::environment::Environment;
use crate::fault::NameFault;
use base::memory::NoMemory;
use base::name::Name;
use base::types::{TypeList, TypeNode, TypeTerm};
use std::alloc::Global;
use syntax_tree::path::Path;
use syntax_tree::types::{SourceType, SourceTypeNode, TypeArguments};

/// The context of a type.
#[derive(Clone, Copy)]
pub struct TypeContext<'a> {
    pub environment: &'a Environment,
    /// The names of the type parameters in scope.
    pub parameters: &'a [Name],
    /// Whether the type is in a specification, where `num` is a type.
    pub is_spec: bool,
}

/// Returns the only type of a list, or the list if it has none or several.
#[tactic(auto, using(crate::proofs::TypeLists::not_one))]
fn only(types: TypeList) -> Result<TypeTerm, TypeList>
    ensures { MatchResult result (λ term. only types ≡ Some term) (λ same. (only types ≡ None) × (same ≡ types)) }
{
    let mut items = types.items;
    if items.len() != 1 {
        return Err(TypeList { items });
    }
    match items.pop() {
        Some(term) => Ok(term),
        None => Err(TypeList { items }),
    }
}

/// Returns a vector of a tuple, which no typing rule allows.
fn misapplied(alloc: Global, types: TypeList) -> Result<TypeTerm, NoMemory>
    ensures { IfOk result (λ term. term ≡ misapplied types) }
{
    let node = TypeNode::Tuple(types);
    Ok(TypeTerm {
        node: TypeNode::Vector(Box::new(alloc, TypeTerm { node })?),
    })
}

/// Returns a type without type arguments, given the written ones.
#[tactic(auto, using(crate::proofs::TypeLists::plain_more))]
fn plain(alloc: Global, term: TypeTerm, types: TypeList) -> Result<TypeTerm, NoMemory>
    ensures { IfOk result (λ made. made ≡ plain term types) }
{
    if types.items.len() == 0 {
        Ok(term)
    } else {
        misapplied(alloc, types)
    }
}

/// Returns `vector` with the written type arguments.
fn vector_of(alloc: Global, types: TypeList) -> Result<TypeTerm, NoMemory>
    ensures { IfOk result (λ made. made ≡ vector_of types) }
{
    match only(types) {
        Ok(item) => Ok(TypeTerm {
            node: TypeNode::Vector(Box::new(alloc, item)?),
        }),
        Err(types) => misapplied(alloc, types),
    }
}

/// Returns the type of types in parentheses.
fn tuple_of(types: TypeList) -> TypeTerm
    ensures { result ≡ tuple_of types }
{
    match only(types) {
        Ok(term) => term,
        Err(types) => TypeTerm {
            node: TypeNode::Tuple(types),
        },
    }
}

/// Returns the index of the first parameter with this name.
fn index_of(parameters: &[Name], word: &[u8]) -> Option<usize>
    ensures { result ≡ position (same_name word.now) parameters.now }
{
    parameters.iter().position(|name| word == name.as_slice())
}

/// Returns the index of the type parameter that a path names.
fn parameter_named(parameters: &[Name], path: &Path) -> Option<usize>
    ensures { result ≡ parameter_among parameters.now path.now }
{
    match path {
        Path::Name(name) => index_of(parameters, name.text.as_slice()),
        _ => None,
    }
}

/// Returns the builtin type with this name.
fn builtin_named(
    alloc: Global,
    is_spec: bool,
    path: &Path,
    types: TypeList,
) -> Result<TypeTerm, NameFault>
    ensures { IsMeaning result (word_meaning (builtin_meaning is_spec types) path.now) }
{
    if let Path::Name(name) = path {
        if name.text.as_slice() == b"vector".as_slice() {
            return Ok(vector_of(alloc, types)?);
        }
        if let Some(term) = plain_type(is_spec, name.text.as_slice()) {
            return Ok(plain(alloc, term, types)?);
        }
    }
    Err(NameFault::Unknown)
}

/// Returns the meaning of a path as a type with these type arguments.
fn path_named(
    alloc: Global,
    context: &TypeContext<'_>,
    path: &Path,
    types: TypeList,
) -> Result<TypeTerm, NameFault>
    requires { length context.now.parameters.now < 2 ^ 32 }
    ensures { IsMeaning result (named_meaning (record { environment = context.now.environment.now; parameters = context.now.parameters.now; is_spec = context.now.is_spec }) path.now types) }
{
    if let Some(number) = parameter_named(context.parameters, path) {
        let node = TypeNode::Param(number as u32);
        return Ok(plain(alloc, TypeTerm { node }, types)?);
    }
    match context.environment.struct_named(alloc, path) {
        Ok(id) => Ok(TypeTerm {
            node: TypeNode::Struct(id, types),
        }),
        Err(NameFault::Unknown) => builtin_named(alloc, context.is_spec, path, types),
        Err(NameFault::NoMemory) => Err(NameFault::NoMemory),
    }
}

/// Returns the meaning of a type, or an error if a name in it has none.
#[cycle(type_named)]
pub fn type_named(
    alloc: Global,
    context: &TypeContext<'_>,
    source: &SourceType,
) -> Result<TypeTerm, NameFault>
    requires { length context.now.parameters.now < 2 ^ 32 }
    ensures { IsMeaning result (type_meaning (record { environment = context.now.environment.now; parameters = context.now.parameters.now; is_spec = context.now.is_spec }) source.now) }
{
    match &source.node {
        SourceTypeNode::Shared { target, .. } => {
            let target = Box::new(alloc, type_named(alloc, context, target)?)?;
            Ok(TypeTerm {
                node: TypeNode::Shared(target),
            })
        }
        SourceTypeNode::Mutable { target, .. } => {
            let target = Box::new(alloc, type_named(alloc, context, target)?)?;
            Ok(TypeTerm {
                node: TypeNode::Mutable(target),
            })
        }
        SourceTypeNode::Named { path, arguments } => {
            let types = type_arguments(alloc, context, arguments)?;
            path_named(alloc, context, path, types)
        }
        SourceTypeNode::Tuple { items, .. } => {
            let types = types_named(alloc, context, items)?;
            Ok(tuple_of(types))
        }
    }
}

/// Returns the meaning of type arguments: no types if none are written.
#[cycle(type_named)]
pub fn type_arguments(
    alloc: Global,
    context: &TypeContext<'_>,
    arguments: &Option<TypeArguments>,
) -> Result<TypeList, NameFault>
    requires { length context.now.parameters.now < 2 ^ 32 }
    ensures { IsMeaning result (arguments_meaning (record { environment = context.now.environment.now; parameters = context.now.parameters.now; is_spec = context.now.is_spec }) (maybe_arguments_of arguments.now)) }
{
    match arguments {
        None => Ok(TypeList {
            items: Vec::new(alloc),
        }),
        Some(arguments) => types_named(alloc, context, &arguments.items),
    }
}

#[cycle(type_named)]
#[tactic(auto, using(syntax_tree::proofs::Smaller::source_type_smaller, crate::proofs::TypeLists::types_all, crate::proofs::TypeLists::types_none, crate::proofs::EachLaws::each_next))]
fn types_named(
    alloc: Global,
    context: &TypeContext<'_>,
    sources: &[SourceType],
) -> Result<TypeList, NameFault>
    requires { length context.now.parameters.now < 2 ^ 32 }
    ensures { IsMeaning result (types_meaning (record { environment = context.now.environment.now; parameters = context.now.parameters.now; is_spec = context.now.is_spec }) (source_types_of sources.now)) }
{
    let mut items = Vec::new(alloc);
    for source in sources {
        items.push(type_named(alloc, context, source)?)?;
    }
    Ok(TypeList { items })
}
