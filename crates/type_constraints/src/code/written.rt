//! Which types may be written.

ghost use Rattle.std.specs.Prelude.{◌≡◌, ◌∷◌, List, [], length};
ghost use Rattle.std.specs.Map.{lookup};
ghost use Rattle.base.specs.TypeData.{StructType, types_of};
ghost use Rattle.program.specs.Same.{same_struct};
ghost use Rattle.typing_rules.specs.ProperTypes.{are_proper_singles, are_proper_values, has_parameters, is_proper, is_proper_single, is_proper_value};

use base::types::{StructId, TypeNode, TypeTerm};
use program::declaration::Struct;
use program::table::Table;

/// Decides whether the struct is declared with so many type parameters.
fn has_parameters(structs: &Table<StructId, Struct>, id: &StructId, count: usize) -> bool
    ensures { result ≡ has_parameters (lookup (same_struct id.now) structs.now) count }
{
    match structs.get(id) {
        Some(found) => found.type_parameters.as_slice().len() == count,
        None => false,
    }
}

/// Decides whether a field, an element or a type parameter may have this type.
#[cycle(is_proper_value)]
pub fn is_proper_value(structs: &Table<StructId, Struct>, term: &TypeTerm) -> bool
    ensures { result ≡ is_proper_value structs.now term.now }
{
    match &term.node {
        TypeNode::Vector(item) => is_proper_value(structs, item),
        TypeNode::Struct(id, types) => is_proper_struct(structs, id, &types.items),
        TypeNode::Shared(_) | TypeNode::Mutable(_) | TypeNode::Tuple(_) => false,
        _ => true,
    }
}

/// The same for a struct with these type arguments.
#[cycle(is_proper_value)]
fn is_proper_struct(structs: &Table<StructId, Struct>, id: &StructId, types: &[TypeTerm]) -> bool
    ensures { result ≡ is_proper_value structs.now (StructType id.now (types_of types.now)) }
{
    has_parameters(structs, id, types.len()) && are_proper_values(structs, types)
}

#[cycle(is_proper_value)]
#[tactic(auto, using(crate::proofs::And::and_joined, crate::proofs::And::and_true))]
fn are_proper_values(structs: &Table<StructId, Struct>, terms: &[TypeTerm]) -> bool
    ensures { result ≡ are_proper_values structs.now (types_of terms.now) }
{
    let mut are = true;
    for term in terms {
        are = are && is_proper_value(structs, term);
    }
    are
}

/// Decides whether a local may have this type.
pub fn is_proper_single(structs: &Table<StructId, Struct>, term: &TypeTerm) -> bool
    ensures { result ≡ is_proper_single structs.now term.now }
{
    match &term.node {
        TypeNode::Shared(to) => is_proper_value(structs, to),
        TypeNode::Mutable(to) => is_proper_value(structs, to),
        _ => is_proper_value(structs, term),
    }
}

#[tactic(auto, using(crate::proofs::And::and_joined, crate::proofs::And::and_true))]
fn are_proper_singles(structs: &Table<StructId, Struct>, terms: &[TypeTerm]) -> bool
    ensures { result ≡ are_proper_singles structs.now (types_of terms.now) }
{
    let mut are = true;
    for term in terms {
        are = are && is_proper_single(structs, term);
    }
    are
}

/// Decides whether a result may have this type.
pub fn is_proper(structs: &Table<StructId, Struct>, term: &TypeTerm) -> bool
    ensures { result ≡ is_proper structs.now term.now }
{
    match &term.node {
        TypeNode::Tuple(types) => are_proper_singles(structs, &types.items),
        _ => is_proper_single(structs, term),
    }
}
