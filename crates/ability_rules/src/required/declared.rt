//! Written types, and the fields of structs.

ghost use Rattle.std.specs.Prelude.{◌≡◌, ◌↔◌, IsTrue, IfOk};
ghost use Rattle.base.specs.TypeData.{StructType, types_of};
ghost use Rattle.program.specs.Types.{common};
ghost use Rattle.typing_rules.specs.Required.{StructLacksAbility, are_constrained, required_of_fields, counted_abilities, field_is_able, given_abilities};
ghost use Rattle.ability_rules.specs.Entries.{judged_type};

use crate::required::entry::{
    Judged, applied, is_phantom, meets, meets_parameter, of_reference, of_value,
};
use base::memory::NoMemory;
use base::types::{StructId, TypeNode, TypeTerm};
use program::abilities::of_type;
use program::abilities::set::{all_abilities, both, no_abilities};
use program::declaration::{AbilitySet, Struct, TypeParameter, TypedName};
use program::program::Program;
use program::table::Table;
use std::alloc::Global;

/// The judgment with these abilities, of a type that is constrained if and only if its part is.
fn made(abilities: AbilitySet, of: Judged) -> Judged
    ensures abilities { result.abilities ≡ abilities }
    ensures constrained { result.is_constrained ≡ of.is_constrained }
{
    Judged {
        abilities,
        is_constrained: of.is_constrained,
    }
}

/// Judges a written type, where type parameters have these abilities, by their numbers. It allocates nothing.
#[cycle(judge)]
pub fn judge(structs: &Table<StructId, Struct>, params: &[AbilitySet], term: &TypeTerm) -> Judged
    ensures { result ≡ judged_type structs.now params.now term.now }
{
    match &term.node {
        TypeNode::Vector(item) => {
            let inner = judge(structs, params, item);
            made(both(of_value(), inner.abilities), inner)
        }
        TypeNode::Struct(id, types) => judge_struct(structs, params, id, &types.items),
        TypeNode::Shared(to) => made(of_reference(), judge(structs, params, to)),
        TypeNode::Mutable(to) => made(of_reference(), judge(structs, params, to)),
        TypeNode::Tuple(types) => {
            let inner = judge_all(structs, params, &[], &types.items);
            made(both(of_reference(), inner.abilities), inner)
        }
        _ => Judged {
            abilities: of_type(structs, params, term),
            is_constrained: true,
        },
    }
}

#[cycle(judge)]
fn judge_struct(
    structs: &Table<StructId, Struct>,
    params: &[AbilitySet],
    id: &StructId,
    types: &[TypeTerm],
) -> Judged
    ensures { result ≡ judged_type structs.now params.now (StructType id.now (types_of types.now)) }
{
    match structs.get(id) {
        Some(found) => {
            let inner = judge_all(structs, params, found.type_parameters.as_slice(), types);
            made(applied(found.abilities, inner.abilities), inner)
        }
        None => made(no_abilities(), judge_all(structs, params, &[], types)),
    }
}

/// Judges the arguments together: the abilities that those for parameters that are not phantom have in common, and
/// whether each meets the constraint of its parameter.
#[cycle(judge)]
#[tactic(auto, using(crate::proofs::Common::both_joined, crate::proofs::Common::both_all, crate::proofs::Common::all_both, crate::proofs::Common::and_joined, crate::proofs::Common::and_true))]
fn judge_all(
    structs: &Table<StructId, Struct>,
    params: &[AbilitySet],
    parameters: &[TypeParameter],
    types: &[TypeTerm],
) -> Judged
    ensures common { result.abilities ≡ common structs.now params.now parameters.now 0 (types_of types.now) }
    ensures constrained { result.is_constrained ≡ are_constrained structs.now params.now parameters.now 0 (types_of types.now) }
{
    let mut found = all_abilities();
    let mut are = true;
    for (number, term) in types.iter().enumerate() {
        let one = judge(structs, params, term);
        are = are && (one.is_constrained && meets_parameter(parameters, number, one.abilities));
        if !is_phantom(parameters, number) {
            found = both(found, one.abilities);
        }
    }
    Judged {
        abilities: found,
        is_constrained: are,
    }
}

/// The abilities that type parameters have by their constraints.
pub fn given_abilities(
    alloc: Global,
    parameters: &[TypeParameter],
) -> Result<Vec<AbilitySet>, NoMemory>
    ensures { IfOk result (λ given. given.items ≡ given_abilities parameters.now) }
{
    let mut given = Vec::new(alloc);
    for parameter in parameters {
        given.push(parameter.abilities)?;
    }
    Ok(given)
}

/// Every ability for each type parameter.
#[tactic(auto, using(crate::proofs::Common::counted_are))]
fn counted_abilities(
    alloc: Global,
    parameters: &[TypeParameter],
) -> Result<Vec<AbilitySet>, NoMemory>
    ensures { IfOk result (λ counted. counted.items ≡ counted_abilities parameters.now) }
{
    Ok(vec![in alloc; all_abilities(); parameters.len()]?)
}

/// The abilities that a struct with these abilities requires of its fields.
fn required_of_fields(abilities: AbilitySet) -> AbilitySet
    ensures { result ≡ required_of_fields abilities }
{
    AbilitySet {
        has_copy: abilities.has_copy,
        has_drop: abilities.has_drop,
        has_store: abilities.has_store || abilities.has_key,
        has_key: false,
    }
}

fn is_field_able(
    structs: &Table<StructId, Struct>,
    declaration: &Struct,
    counted: &[AbilitySet],
    given: &[AbilitySet],
    field: &TypedName,
) -> bool
    requires counted { counted.now ≡ counted_abilities declaration.now.type_parameters }
    requires given { given.now ≡ given_abilities declaration.now.type_parameters }
    ensures { result ≡ field_is_able structs.now declaration.now field.now }
{
    let required = required_of_fields(declaration.abilities);
    meets(required, of_type(structs, counted, &field.annotation))
        && judge(structs, given, &field.annotation).is_constrained
}

/// Decides whether a struct declares an ability that a field does not allow, or a field has a type argument that does
/// not meet its constraint.
pub fn struct_lacks_ability(
    alloc: Global,
    program: &Program,
    declaration: &Struct,
) -> Result<bool, NoMemory>
    ensures { IfOk result (λ lacks. IsTrue lacks ↔ StructLacksAbility program.now declaration.now) }
{
    let parameters = declaration.type_parameters.as_slice();
    let counted = counted_abilities(alloc, parameters)?;
    let given = given_abilities(alloc, parameters)?;
    for field in declaration.fields.as_slice() {
        let is_able = is_field_able(
            &program.structs,
            declaration,
            counted.as_slice(),
            given.as_slice(),
            field,
        );
        if !is_able {
            return Ok(true);
        }
    }
    Ok(false)
}
