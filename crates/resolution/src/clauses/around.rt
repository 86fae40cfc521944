//! The names in scope around the clauses of an owner.

ghost use Rattle.std.specs.Prelude.{◌≡◌, ◌++◌, length, map, codes, IfOk, OnOk};
ghost use Rattle.std.specs.Fmt.{decimal};
ghost use Rattle.base.specs.TypeData.{list_of_types};
ghost use Rattle.resolution.specs.Around.{around_function, around_loop, around_schema, around_spec_function, around_struct, local_around, meaning_of, names_of, numbered, parts_of_result, results_of, whole_result};

use base::memory::NoMemory;
use base::name::Name;
use base::types::{TypeList, TypeNode, TypeTerm};
use body_names::spec::outer::{Outer, OuterName};
use program::sequence::Sequence;
use program::spec::SpecName;
use scopes::scope::InScope;
use std::alloc::Global;
use syntax_tree::member::TypedName;

/// The kinds of the numbered names of an owner.
#[derive(Clone, Copy, Debug, PartialEq, Eq)]
pub enum NameKind {
    Parameter,
    Variable,
    Field,
}

fn meaning_of(kind: NameKind, number: usize) -> SpecName
    ensures { result ≡ meaning_of kind number }
{
    match kind {
        NameKind::Parameter => SpecName::Parameter(number),
        NameKind::Variable => SpecName::Variable(number),
        NameKind::Field => SpecName::Field(number),
    }
}

/// Appends names of one owner.
fn enter_names(
    alloc: Global,
    kind: NameKind,
    names: &[Name],
    into: &mut Outer,
) -> Result<(), NoMemory>
    ensures { OnOk result (into.new ≡ into.old ++ numbered kind 0 names.now) }
{
    for (number, name) in names.iter().enumerate() {
        let name = name.try_clone(alloc)?;
        let meaning = meaning_of(kind, number);
        into.enter(alloc, OuterName { name, meaning })?;
    }
    Ok(())
}

/// Returns the names of fields or parameters.
fn names_of(alloc: Global, typed: &[TypedName]) -> Result<Sequence<Name>, NoMemory>
    ensures { IfOk result (λ names. names ≡ names_of typed.now) }
{
    let mut names = Sequence::new(alloc);
    for one in typed {
        names.push(one.name.text.try_clone(alloc)?)?;
    }
    Ok(names)
}

/// Returns the name `result_1` for the ordinal 1, and so on.
fn name_of_part(alloc: Global, ordinal: usize) -> Result<Name, NoMemory>
    ensures { IfOk result (λ name. name ≡ codes "result_" ++ decimal ordinal) }
{
    let digits = ordinal.to_string(alloc)?;
    let mut spelling = Vec::from_slice(alloc, b"result_".as_slice())?;
    spelling.extend_from_slice(digits.as_bytes())?;
    Name::from_slice(alloc, spelling.as_slice())
}

/// Appends the names of the components of a result.
fn enter_parts(alloc: Global, count: usize, into: &mut Outer) -> Result<(), NoMemory>
    ensures { OnOk result (into.new ≡ into.old ++ parts_of_result count) }
{
    for number in 0..count {
        let name = name_of_part(alloc, number + 1)?;
        let meaning = SpecName::Result(number);
        into.enter(alloc, OuterName { name, meaning })?;
    }
    Ok(())
}

/// Appends the name `result`.
fn enter_whole(alloc: Global, into: &mut Outer) -> Result<(), NoMemory>
    ensures { OnOk result (into.new ≡ into.old ++ whole_result) }
{
    let name = Name::from_slice(alloc, b"result".as_slice())?;
    let meaning = SpecName::Result(0);
    into.enter(alloc, OuterName { name, meaning })
}

/// Returns the number of types.
fn count_of(types: &TypeList) -> usize
    ensures { result ≡ length (list_of_types types.now) }
{
    types.items.as_slice().len()
}

/// Returns the names of a function's results.
fn results_of(alloc: Global, result_type: &TypeTerm) -> Result<Outer, NoMemory>
    ensures { IfOk result (λ outer. outer ≡ results_of result_type.now) }
{
    let mut outer = Outer::new(alloc);
    match &result_type.node {
        TypeNode::Tuple(types) => enter_parts(alloc, count_of(types), &mut outer)?,
        TypeNode::Bool
        | TypeNode::Int(_)
        | TypeNode::Num
        | TypeNode::Address
        | TypeNode::Signer
        | TypeNode::Vector(_)
        | TypeNode::Struct(_, _)
        | TypeNode::Param(_)
        | TypeNode::Shared(_)
        | TypeNode::Mutable(_) => enter_whole(alloc, &mut outer)?,
    }
    Ok(outer)
}

/// Returns the names around the clauses of a function: its results, and then its parameters.
pub fn around_function(
    alloc: Global,
    result_type: &TypeTerm,
    inputs: &[TypedName],
) -> Result<Outer, NoMemory>
    ensures { IfOk result (λ outer. outer ≡ around_function result_type.now inputs.now) }
{
    let names = names_of(alloc, inputs)?;
    let mut outer = results_of(alloc, result_type)?;
    enter_names(alloc, NameKind::Parameter, names.as_slice(), &mut outer)?;
    Ok(outer)
}

/// Returns the names around the clauses of a struct: its fields.
pub fn around_struct(alloc: Global, fields: &[TypedName]) -> Result<Outer, NoMemory>
    ensures { IfOk result (λ outer. outer ≡ around_struct fields.now) }
{
    let names = names_of(alloc, fields)?;
    let mut outer = Outer::new(alloc);
    enter_names(alloc, NameKind::Field, names.as_slice(), &mut outer)?;
    Ok(outer)
}

/// Returns the names around the body of a spec function: its parameters.
pub fn around_spec_function(alloc: Global, inputs: &[TypedName]) -> Result<Outer, NoMemory>
    ensures { IfOk result (λ outer. outer ≡ around_spec_function inputs.now) }
{
    let names = names_of(alloc, inputs)?;
    let mut outer = Outer::new(alloc);
    enter_names(alloc, NameKind::Parameter, names.as_slice(), &mut outer)?;
    Ok(outer)
}

/// Returns the names around the clauses of a schema: its variables.
pub fn around_schema(alloc: Global, variables: &[Name]) -> Result<Outer, NoMemory>
    ensures { IfOk result (λ outer. outer ≡ around_schema variables.now) }
{
    let mut outer = Outer::new(alloc);
    enter_names(alloc, NameKind::Variable, variables, &mut outer)?;
    Ok(outer)
}

/// Appends the locals in scope.
fn enter_locals(alloc: Global, locals: &[InScope], into: &mut Outer) -> Result<(), NoMemory>
    ensures { OnOk result (into.new ≡ into.old ++ map local_around locals.now) }
{
    for local in locals {
        let name = local.name.try_clone(alloc)?;
        let meaning = SpecName::Local(local.number);
        into.enter(alloc, OuterName { name, meaning })?;
    }
    Ok(())
}

/// Returns the names around the clauses of a loop: the results of its function, and then the locals in scope at the
/// loop.
pub fn around_loop(
    alloc: Global,
    result_type: &TypeTerm,
    locals: &[InScope],
) -> Result<Outer, NoMemory>
    ensures { IfOk result (λ outer. outer ≡ around_loop result_type.now locals.now) }
{
    let mut outer = results_of(alloc, result_type)?;
    enter_locals(alloc, locals, &mut outer)?;
    Ok(outer)
}
