//! The values of the variables of an included schema.

ghost use Rattle.std.specs.Prelude.{◌≡◌, ◌++◌, map, IfOk, OnOk};
ghost use Rattle.scopes.specs.Meanings.{IfUnknown, IsMeaning, each};
ghost use Rattle.body_names.specs.SpecTrees.{field_of_value};
ghost use Rattle.resolution.specs.Includes.{are_variables, bindings_of, given_names, implied_binding, missing, index_of};

use base::memory::NoMemory;
use base::name::Name;
use base::span::Span;
use body_names::spec::fields::field_of;
use body_names::spec::name_list::NameList;
use program::sequence::Sequence;
use scopes::fault::NameFault;
use std::alloc::Global;
use syntax_tree::clause::Bindings;
use syntax_tree::lexeme::Identifier;
use syntax_tree::spec_expression::SpecField;

/// Returns the written bindings.
pub fn bindings_of(bindings: &Option<Bindings>) -> &[SpecField]
    ensures { result.now ≡ bindings_of bindings.now }
{
    match bindings {
        None => &[],
        Some(bindings) => &bindings.items,
    }
}

/// Returns the names that are bound.
pub fn given_names(alloc: Global, bindings: &[SpecField]) -> Result<NameList, NoMemory>
    ensures { IfOk result (λ names. names ≡ given_names bindings.now) }
{
    let mut names = NameList::new(alloc);
    for one in bindings {
        names.push(alloc, field_of(one).try_clone(alloc)?)?;
    }
    Ok(names)
}

/// Decides whether each name is one of these variables.
pub fn are_variables(variables: &NameList, names: &[Name]) -> bool
    ensures { result ≡ are_variables variables.now names.now }
{
    for name in names {
        if variables.last_index(name).is_none() {
            return false;
        }
    }
    true
}

/// Returns the binding of an unbound variable, as if its name were written at this span.
fn implied_binding(alloc: Global, span: Span, name: &Name) -> Result<SpecField, NoMemory>
    ensures { IfOk result (λ binding. binding ≡ implied_binding span name.now) }
{
    let text = name.try_clone(alloc)?;
    Ok(SpecField {
        name: Identifier { text, span },
        value: None,
    })
}

/// Appends the variables that are not among the names, and returns the bindings that they imply.
pub fn complete(
    alloc: Global,
    span: Span,
    variables: &[Name],
    names: &mut NameList,
) -> Result<Vec<SpecField>, NoMemory>
    ensures names { OnOk result (names.new ≡ names.old ++ missing names.old variables.now) }
    ensures implied { IfOk result (λ implied. implied.items ≡ map (implied_binding span) (missing names.old variables.now)) }
{
    let mut implied = Vec::new(alloc);
    for variable in variables {
        if names.last_index(variable).is_none() {
            implied.push(implied_binding(alloc, span, variable)?)?;
            names.push(alloc, variable.try_clone(alloc)?)?;
        }
    }
    Ok(implied)
}

/// Returns the index of the last expression with this name, among expressions with these names.
fn index_of(names: &NameList, roots: &[usize], name: &Name) -> Result<usize, NameFault>
    ensures { IsMeaning result (index_of names.now roots.now name.now) }
{
    match names.last_index(name) {
        None => Err(NameFault::Unknown),
        Some(span) => match roots.get(span) {
            None => Err(NameFault::Unknown),
            Some(root) => Ok(*root),
        },
    }
}

/// Returns for each variable the index of the last expression with its name, among expressions with these names.
#[tactic(auto, using(scopes::proofs::EachLaws::each_next, scopes::proofs::EachLaws::each_none))]
pub fn indices_of(
    alloc: Global,
    names: &NameList,
    roots: &[usize],
    variables: &[Name],
) -> Result<Sequence<usize>, NameFault>
    ensures { IsMeaning result (each (index_of names.now roots.now) variables.now) }
{
    let mut indices = Sequence::new(alloc);
    for variable in variables {
        indices.push(index_of(names, roots, variable)?)?;
    }
    Ok(indices)
}
