//! The types of names in specifications.

ghost use Rattle.std.specs.Prelude.{◌≡◌, ◌∷◌, [], List, Option, Some, slice_get};
ghost use Rattle.std.specs.Option.{option_map};
ghost use Rattle.base.specs.TypeData.{TupleType, types_of};
ghost use Rattle.typing_rules.specs.Clauses as C;
ghost use Rattle.typing_rules.specs.Instances.{spec_type};
ghost use Rattle.typing_rules.specs.SpecConstraints.{read_there};
ghost use Rattle.type_constraints.specs.Seen.{read_data};
ghost use Rattle.type_constraints.specs.SpecSettings.{allowed_of, let_of, lets_of, names_of, owner_names, owner_types};

use crate::constraint::ReadType;
use crate::spec::setting::{Allowed, LetType, Names, Owner};
use base::types::{TypeNode, TypeTerm};
use program::declaration::TypedName;
use program::spec::SpecName;

/// A written type, as it is read in the specifications of the owner.
#[tactic(auto, using(crate::proofs::SpecReading::read_plain))]
pub fn read_there<'a>(owner: Owner<'a>, of: &'a TypeTerm) -> ReadType<'a>
    ensures { read_data result ≡ read_there (owner_types owner.entry) of.now }
{
    match owner {
        Owner::Schema(_, types) => ReadType::ReadIn(of, types),
        _ => ReadType::Read(of),
    }
}

/// The type of the name with this number.
#[tactic(auto, using(crate::proofs::Named::names_at))]
fn read_name<'a>(names: &'a [TypedName], number: usize) -> Option<ReadType<'a>>
    ensures { option_map read_data result ≡ slice_get (C.spec_types_of names.now) number }
{
    match names.get(number) {
        Some(found) => Some(ReadType::Read(&found.annotation)),
        None => None,
    }
}

/// The type of the variable of a schema with this number, with these types substituted for the type parameters.
fn read_variable<'a>(
    names: &'a [TypedName],
    types: &'a [TypeTerm],
    number: usize,
) -> Option<ReadType<'a>>
    ensures { option_map read_data result ≡ option_map (λ n. read_there (types_of types.now) n.annotation) (slice_get names.now number) }
{
    match names.get(number) {
        Some(found) => Some(ReadType::ReadIn(&found.annotation, types)),
        None => None,
    }
}

/// The type with this number.
fn read_term<'a>(terms: &'a [TypeTerm], number: usize) -> Option<ReadType<'a>>
    ensures { option_map read_data result ≡ option_map spec_type (slice_get terms.now number) }
{
    match terms.get(number) {
        Some(found) => Some(ReadType::Read(found)),
        None => None,
    }
}

/// The type of the result with this number, where several are returned together.
#[tactic(auto, using(crate::proofs::Named::parts_at))]
fn read_part<'a>(terms: &'a [TypeTerm], number: usize) -> Option<ReadType<'a>>
    ensures { option_map read_data result ≡ slice_get (C.results_of (TupleType (types_of terms.now))) number }
{
    read_term(terms, number)
}

/// The type of the only result.
fn read_whole<'a>(returned: &'a TypeTerm, number: usize) -> Option<ReadType<'a>>
    ensures { option_map read_data result ≡ slice_get (spec_type returned.now ∷ []) number }
{
    if number == 0 {
        Some(ReadType::Read(returned))
    } else {
        None
    }
}

/// The type of the result with this number.
fn read_result<'a>(returned: &'a TypeTerm, number: usize) -> Option<ReadType<'a>>
    ensures { option_map read_data result ≡ slice_get (C.results_of returned.now) number }
{
    match &returned.node {
        TypeNode::Tuple(types) => read_part(&types.items, number),
        _ => read_whole(returned, number),
    }
}

/// The type of a `let`; none for one of the state at the exit if `exits` is false.
fn let_type<'a>(found: &'a LetType, exits: bool) -> Option<ReadType<'a>>
    ensures { option_map read_data result ≡ C.let_type exits (Some (Some (found.now.is_post, found.now.of))) }
{
    if found.is_post && !exits {
        None
    } else {
        Some(ReadType::Known(&found.of))
    }
}

/// The same for a clause, which may be no `let`.
fn let_known<'a>(known: &'a Option<LetType>, exits: bool) -> Option<ReadType<'a>>
    ensures { option_map read_data result ≡ C.let_type exits (Some (let_of known.now)) }
{
    match known {
        Some(found) => let_type(found, exits),
        None => None,
    }
}

/// The type of the `let` with this number.
#[tactic(auto, using(crate::proofs::Named::lets_at))]
fn let_at<'a>(lets: &'a [Option<LetType>], exits: bool, number: usize) -> Option<ReadType<'a>>
    ensures { option_map read_data result ≡ C.let_type exits (slice_get (lets_of lets.now) number) }
{
    match lets.get(number) {
        Some(found) => let_known(found, exits),
        None => None,
    }
}

fn parameter_type<'a>(owner: Owner<'a>, number: usize) -> Option<ReadType<'a>>
    ensures { (lets : List (Option C.LetType)) → option_map read_data result ≡ slice_get (owner_names owner.entry lets).parameters number }
{
    match owner {
        Owner::Function(function) => read_name(function.parameters.as_slice(), number),
        Owner::SpecFunction(function) => read_name(function.parameters.as_slice(), number),
        _ => None,
    }
}

#[tactic(auto, using(crate::proofs::Named::terms_at))]
fn local_type<'a>(owner: Owner<'a>, number: usize) -> Option<ReadType<'a>>
    ensures { (lets : List (Option C.LetType)) → option_map read_data result ≡ slice_get (owner_names owner.entry lets).locals number }
{
    match owner {
        Owner::Loop(_, locals) => read_term(locals, number),
        _ => None,
    }
}

fn result_type<'a>(owner: Owner<'a>, number: usize) -> Option<ReadType<'a>>
    ensures { (lets : List (Option C.LetType)) → option_map read_data result ≡ slice_get (owner_names owner.entry lets).results number }
{
    match owner {
        Owner::Function(function) => read_result(&function.result, number),
        Owner::Loop(returned, _) => read_result(returned, number),
        _ => None,
    }
}

#[tactic(auto, using(crate::proofs::Named::variables_at))]
fn variable_type<'a>(owner: Owner<'a>, number: usize) -> Option<ReadType<'a>>
    ensures { (lets : List (Option C.LetType)) → option_map read_data result ≡ slice_get (owner_names owner.entry lets).variables number }
{
    match owner {
        Owner::Schema(schema, types) => {
            read_variable(schema.variables.as_slice(), types, number)
        }
        _ => None,
    }
}

fn field_type<'a>(owner: Owner<'a>, number: usize) -> Option<ReadType<'a>>
    ensures { (lets : List (Option C.LetType)) → option_map read_data result ≡ slice_get (owner_names owner.entry lets).fields number }
{
    match owner {
        Owner::Struct(found) => read_name(found.fields.as_slice(), number),
        _ => None,
    }
}

/// The type of a `let`; loops and spec functions have none.
fn let_named<'a>(names: Names<'a>, exits: bool, number: usize) -> Option<ReadType<'a>>
    ensures { option_map read_data result ≡ C.let_type exits (slice_get (names_of names.entry).lets number) }
{
    match names.owner {
        Owner::Loop(_, _) | Owner::SpecFunction(_) => None,
        _ => let_at(names.lets, exits, number),
    }
}

/// Returns the type of a name, if it has one and may be used here.
pub fn named_type<'a>(names: Names<'a>, allowed: Allowed, name: SpecName) -> Option<ReadType<'a>>
    ensures { option_map read_data result ≡ C.named_by (names_of names.entry) (allowed_of allowed) name }
{
    match name {
        SpecName::Parameter(number) => parameter_type(names.owner, number),
        SpecName::Local(number) => local_type(names.owner, number),
        SpecName::Result(number) => {
            if allowed.results {
                result_type(names.owner, number)
            } else {
                None
            }
        }
        SpecName::Let(number) => let_named(names, allowed.exits, number),
        SpecName::Variable(number) => variable_type(names.owner, number),
        SpecName::Field(number) => field_type(names.owner, number),
        SpecName::Quantified(_) => None,
    }
}
