//! The abilities of types (The Move Book, "Abilities").

pub mod set;

ghost use Rattle.std.specs.Prelude.{◌≡◌, slice_get};
ghost use Rattle.base.specs.TypeData.{types_of};
ghost use Rattle.program.specs.Types.{applied, common, is_phantom, of_parameter, of_reference, of_signer, of_struct, of_type, of_value};

use crate::abilities::set::{all_abilities, both, no_abilities};
use crate::declaration::{AbilitySet, Struct, TypeParameter};
use crate::table::Table;
use base::types::{StructId, TypeNode, TypeTerm};

/// Returns the abilities of integers, of `bool` and of `address`.
fn of_value() -> AbilitySet
    ensures { result ≡ of_value }
{
    AbilitySet {
        has_copy: true,
        has_drop: true,
        has_store: true,
        has_key: false,
    }
}

/// Returns the abilities of `signer`.
fn of_signer() -> AbilitySet
    ensures { result ≡ of_signer }
{
    AbilitySet {
        has_copy: false,
        has_drop: true,
        has_store: false,
        has_key: false,
    }
}

/// Returns the abilities of references.
fn of_reference() -> AbilitySet
    ensures { result ≡ of_reference }
{
    AbilitySet {
        has_copy: true,
        has_drop: true,
        has_store: false,
        has_key: false,
    }
}

/// Returns the abilities of the type parameter with this number; none if there is no such parameter.
fn of_parameter(params: &[AbilitySet], number: u32) -> AbilitySet
    ensures { result ≡ of_parameter (slice_get params.now number) }
{
    match params.get(number as usize) {
        Some(found) => *found,
        None => no_abilities(),
    }
}

/// Returns the abilities of a struct with these declared abilities, given those that its arguments, except phantom
/// ones, have in common.
fn applied(declared: AbilitySet, common: AbilitySet) -> AbilitySet
    ensures { result ≡ applied declared common }
{
    AbilitySet {
        has_copy: declared.has_copy && common.has_copy,
        has_drop: declared.has_drop && common.has_drop,
        has_store: declared.has_store && common.has_store,
        has_key: declared.has_key && common.has_store,
    }
}

/// Decides whether there is a parameter with this number and it is phantom.
fn is_phantom(parameters: &[TypeParameter], number: usize) -> bool
    ensures { result ≡ is_phantom (slice_get parameters.now number) }
{
    match parameters.get(number) {
        Some(found) => found.is_phantom,
        None => false,
    }
}

/// Returns the abilities of a type, given the abilities of the type parameters by number. A struct that is not declared
/// has none. The function allocates nothing.
#[cycle(of_type)]
pub fn of_type(
    structs: &Table<StructId, Struct>,
    params: &[AbilitySet],
    term: &TypeTerm,
) -> AbilitySet
    ensures { result ≡ of_type structs.now params.now term.now }
{
    match &term.node {
        TypeNode::Signer => of_signer(),
        TypeNode::Vector(item) => both(of_value(), of_type(structs, params, item)),
        TypeNode::Struct(id, types) => of_struct(structs, params, id, &types.items),
        TypeNode::Param(number) => of_parameter(params, *number),
        TypeNode::Shared(_) => of_reference(),
        TypeNode::Mutable(_) => of_reference(),
        TypeNode::Tuple(types) => both(of_reference(), common(structs, params, &[], &types.items)),
        _ => of_value(),
    }
}

#[cycle(of_type)]
fn of_struct(
    structs: &Table<StructId, Struct>,
    params: &[AbilitySet],
    id: &StructId,
    types: &[TypeTerm],
) -> AbilitySet
    ensures { result ≡ of_struct structs.now params.now id.now (types_of types.now) }
{
    match structs.get(id) {
        Some(found) => {
            let parameters = found.type_parameters.as_slice();
            applied(found.abilities, common(structs, params, parameters, types))
        }
        None => no_abilities(),
    }
}

#[cycle(of_type)]
#[tactic(auto, using(crate::proofs::Common::both_joined, crate::proofs::Common::both_all, crate::proofs::Common::all_both))]
fn common(
    structs: &Table<StructId, Struct>,
    params: &[AbilitySet],
    parameters: &[TypeParameter],
    types: &[TypeTerm],
) -> AbilitySet
    ensures { result ≡ common structs.now params.now parameters.now 0 (types_of types.now) }
{
    let mut found = all_abilities();
    for (number, term) in types.iter().enumerate() {
        if !is_phantom(parameters, number) {
            found = both(found, of_type(structs, params, term));
        }
    }
    found
}
