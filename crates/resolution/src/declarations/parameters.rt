//! Abilities, type parameters, and names with their types.

ghost use Rattle.std.specs.Prelude.{◌≡◌, ◌<◌, ◌^◌, length, map, IfOk};
ghost use Rattle.scopes.specs.Meanings.{IsMeaning};
ghost use Rattle.resolution.specs.Parameters.{abilities_of, has, listed_abilities, type_name_of, type_names_of, type_parameter_of, type_parameters_of, typed_meaning, typed_names};

use base::memory::NoMemory;
use base::name::Name;
use program::declaration::{AbilitySet, TypeParameter, TypedName};
use program::sequence::Sequence;
use scopes::fault::NameFault;
use scopes::types::{TypeContext, type_named};
use std::alloc::Global;
use syntax_tree::member::{
    Abilities, Ability, TypeParameter as TypeParameterTree, TypeParameters,
    TypedName as TypedNameTree,
};

fn has(abilities: &[Ability], ability: Ability) -> bool
    ensures { result ≡ has abilities.now ability }
{
    abilities.iter().any(|one| ability == *one)
}

/// Returns the set of the listed abilities.
pub fn abilities_of(abilities: &[Ability]) -> AbilitySet
    ensures { result ≡ abilities_of abilities.now }
{
    AbilitySet {
        has_copy: has(abilities, Ability::Copy),
        has_drop: has(abilities, Ability::Drop),
        has_store: has(abilities, Ability::Store),
        has_key: has(abilities, Ability::Key),
    }
}

/// Returns the abilities of a struct.
pub fn struct_abilities(abilities: &Option<Abilities>) -> AbilitySet
    ensures { result ≡ abilities_of (listed_abilities abilities.now) }
{
    match abilities {
        None => AbilitySet {
            has_copy: false,
            has_drop: false,
            has_store: false,
            has_key: false,
        },
        Some(abilities) => abilities_of(&abilities.items),
    }
}

fn parameters_of(
    alloc: Global,
    parameters: &[TypeParameterTree],
) -> Result<Sequence<TypeParameter>, NoMemory>
    ensures { IfOk result (λ found. found ≡ map type_parameter_of parameters.now) }
{
    let mut found = Sequence::new(alloc);
    for parameter in parameters {
        found.push(TypeParameter {
            name: parameter.name.text.try_clone(alloc)?,
            abilities: abilities_of(&parameter.abilities),
            is_phantom: parameter.is_phantom,
        })?;
    }
    Ok(found)
}

/// Returns the type parameters of a declaration.
pub fn type_parameters_of(
    alloc: Global,
    parameters: &Option<TypeParameters>,
) -> Result<Sequence<TypeParameter>, NoMemory>
    ensures { IfOk result (λ found. found ≡ type_parameters_of parameters.now) }
{
    match parameters {
        None => Ok(Sequence::new(alloc)),
        Some(parameters) => parameters_of(alloc, &parameters.items),
    }
}

fn names_of(alloc: Global, parameters: &[TypeParameterTree]) -> Result<Vec<Name>, NoMemory>
    ensures { IfOk result (λ names. names.items ≡ map type_name_of parameters.now) }
{
    let mut names = Vec::new(alloc);
    for parameter in parameters {
        names.push(parameter.name.text.try_clone(alloc)?)?;
    }
    Ok(names)
}

/// Returns the names of the type parameters of a declaration.
pub fn type_names_of(
    alloc: Global,
    parameters: &Option<TypeParameters>,
) -> Result<Vec<Name>, NoMemory>
    ensures { IfOk result (λ names. names.items ≡ type_names_of parameters.now) }
{
    match parameters {
        None => Ok(Vec::new(alloc)),
        Some(parameters) => names_of(alloc, &parameters.items),
    }
}

/// Resolves a name with its type.
fn typed_name(
    alloc: Global,
    context: &TypeContext<'_>,
    name: &TypedNameTree,
) -> Result<TypedName, NameFault>
    requires { length context.now.parameters.now < 2 ^ 32 }
    ensures { IsMeaning result (typed_meaning (record { environment = context.now.environment.now; parameters = context.now.parameters.now; is_spec = context.now.is_spec }) name.now) }
{
    let annotation = type_named(alloc, context, &name.annotation)?;
    Ok(TypedName {
        name: name.name.text.try_clone(alloc)?,
        annotation,
    })
}

/// Resolves names with their types.
#[tactic(auto, using(scopes::proofs::EachLaws::each_next, scopes::proofs::EachLaws::each_none))]
pub fn typed_names(
    alloc: Global,
    context: &TypeContext<'_>,
    names: &[TypedNameTree],
) -> Result<Sequence<TypedName>, NameFault>
    requires { length context.now.parameters.now < 2 ^ 32 }
    ensures { IsMeaning result (typed_names (record { environment = context.now.environment.now; parameters = context.now.parameters.now; is_spec = context.now.is_spec }) names.now) }
{
    let mut found = Sequence::new(alloc);
    for name in names {
        found.push(typed_name(alloc, context, name)?)?;
    }
    Ok(found)
}
