//! The owners of the spec blocks of a module.

ghost use Rattle.std.specs.Prelude.{◌≡◌, ◌<◌, ◌^◌, [], length, map, IfOk, OnOk};
ghost use Rattle.scopes.specs.MemberNames.{same_name_of_kind};
ghost use Rattle.scopes.specs.Brings.{firsts};
ghost use Rattle.scopes.specs.Declares.{form_declares, listed};
ghost use Rattle.resolution.specs.Parameters.{type_names_of};
ghost use Rattle.resolution.specs.Around.{around_function, around_struct};
ghost use Rattle.resolution.specs.Pragmas.{settings_of};
ghost use Rattle.resolution.specs.Known.{Schemas};
ghost use Rattle.resolution.specs.Owners.{member_numbers, numbered_as, outcome_of, owner_named, owner_of, owner_scope, owner_scopes, with_number};
ghost use Rattle.resolution.specs.OwnersSoFar.{AreOwnersFrom, IsOwnerAfter, fresh};

use crate::clauses::Target;
use crate::clauses::around::{around_function, around_struct};
use crate::clauses::pragmas::Settings;
use crate::declarations::parameters::type_names_of;
use crate::first::put_first;
use base::memory::NoMemory;
use base::name::Name;
use base::types::{TypeList, TypeNode, TypeTerm};
use body_names::spec::outer::Outer;
use program::table::Table;
use scopes::environment::Environment;
use scopes::fault::NameFault;
use scopes::member::{MemberKind, NameOfKind};
use scopes::modules::declares::form_declares;
use scopes::types::{TypeContext, type_named};
use std::alloc::Global;
use syntax_tree::clause::Spec;
use syntax_tree::member::{Function, Struct};
use syntax_tree::source::{SourceForm, SourceMember};

/// A possible target of spec blocks: a member of the module, or the module itself. Most members own no block.
#[derive(Drop)]
pub struct Owner {
    /// The names of its type parameters.
    pub parameters: Vec<Name>,
    /// Its clauses so far, and the names in scope in the next one.
    pub target: Target,
    /// The settings of its pragmas so far.
    pub settings: Settings,
}

// ---- by index

/// Maps the name that a member declares to the member's index, unless the name is taken.
fn number_form(
    alloc: Global,
    numbers: &mut Table<NameOfKind, usize>,
    form: &SourceForm,
    number: usize,
) -> Result<(), NoMemory>
    ensures { OnOk result (numbers.new ≡ firsts same_name_of_kind numbers.old (map (with_number number) (listed (form_declares form.now)))) }
{
    match form_declares(alloc, form)? {
        None => Ok(()),
        Some(name) => put_first(numbers, name, number),
    }
}

/// Returns the names that members declare, with the indices of the members. Of two members with the same name the first
/// counts.
pub fn member_numbers(
    alloc: Global,
    members: &[SourceMember],
) -> Result<Table<NameOfKind, usize>, NoMemory>
    ensures { IfOk result (λ numbers. numbers ≡ member_numbers members.now) }
{
    let mut numbers = Table::new(alloc);
    for (number, member) in members.iter().enumerate() {
        number_form(alloc, &mut numbers, &member.form, number)?;
    }
    Ok(numbers)
}

fn numbered_as(
    alloc: Global,
    numbers: &Table<NameOfKind, usize>,
    kind: MemberKind,
    name: &Name,
) -> Result<Option<usize>, NoMemory>
    ensures { IfOk result (λ number. number ≡ numbered_as numbers.now kind name.now) }
{
    let name = NameOfKind {
        kind,
        name: name.try_clone(alloc)?,
    };
    Ok(numbers.get(&name).copied())
}

/// Returns the index of the owner that a spec block with this name has.
fn owner_named(
    alloc: Global,
    numbers: &Table<NameOfKind, usize>,
    name: &Name,
) -> Result<Option<usize>, NoMemory>
    ensures { IfOk result (λ number. number ≡ owner_named numbers.now name.now) }
{
    match numbered_as(alloc, numbers, MemberKind::Function, name)? {
        Some(number) => Ok(Some(number)),
        None => numbered_as(alloc, numbers, MemberKind::Struct, name),
    }
}

/// Returns the index of the owner of a spec block, in a module with `count` members.
pub fn owner_of(
    alloc: Global,
    numbers: &Table<NameOfKind, usize>,
    count: usize,
    spec: &Spec,
) -> Result<Option<usize>, NoMemory>
    ensures { IfOk result (λ number. number ≡ owner_of numbers.now count spec.now) }
{
    match spec {
        Spec::Module { .. } => Ok(Some(count)),
        Spec::Named { name, .. } => owner_named(alloc, numbers, &name.text),
        Spec::Schema(_) => Ok(None),
        Spec::Function(_) => Ok(None),
        Spec::Loop { .. } => Ok(None),
    }
}

// ---- owners without clauses

/// Returns the type of a function's result, or the empty tuple if it has no meaning.
pub fn outcome_of(
    alloc: Global,
    environment: &Environment,
    parameters: &[Name],
    tree: &Function,
) -> Result<TypeTerm, NoMemory>
    requires few { length parameters.now < 2 ^ 32 }
    requires names { parameters.now ≡ type_names_of tree.now.parameters }
    ensures { IfOk result (λ outcome. outcome ≡ outcome_of environment.now tree.now) }
{
    let context = TypeContext {
        environment,
        parameters,
        is_spec: false,
    };
    if let Some(written) = &tree.result {
        match type_named(alloc, &context, written) {
            Ok(found) => return Ok(found),
            Err(NameFault::NoMemory) => return Err(NoMemory),
            Err(NameFault::Unknown) => {}
        }
    }
    Ok(TypeTerm {
        node: TypeNode::Tuple(TypeList {
            items: Vec::new(alloc),
        }),
    })
}

/// Returns an owner without clauses, with these type parameters and these names around it.
fn fresh_owner(alloc: Global, parameters: Vec<Name>, around: Outer) -> Owner
    ensures parameters { result.parameters ≡ parameters }
    ensures outer { result.target.outer ≡ around }
    ensures clauses { result.target.clauses ≡ [] }
    ensures settings { result.settings ≡ settings_of [] }
{
    Owner {
        parameters,
        target: Target::new(alloc, around),
        settings: Settings::new(),
    }
}

/// Returns the owner, without clauses, for the module itself or for a member that owns no spec blocks.
pub fn plain_owner(alloc: Global) -> Owner
    ensures parameters { result.parameters.items ≡ [] }
    ensures target { result.target ≡ fresh [] }
    ensures settings { result.settings ≡ settings_of [] }
{
    fresh_owner(alloc, Vec::new(alloc), Outer::new(alloc))
}

/// Returns the owner of a struct, without clauses.
fn struct_owner(alloc: Global, tree: &Struct) -> Result<Owner, NoMemory>
    ensures parameters { IfOk result (λ owner. owner.parameters.items ≡ type_names_of tree.now.parameters) }
    ensures target { IfOk result (λ owner. owner.target ≡ fresh (around_struct tree.now.fields.items)) }
    ensures settings { IfOk result (λ owner. owner.settings ≡ settings_of []) }
{
    let parameters = type_names_of(alloc, &tree.parameters)?;
    let around = around_struct(alloc, &tree.fields.items)?;
    Ok(fresh_owner(alloc, parameters, around))
}

/// Returns the owner of a function, without clauses. No memory holds more type parameters than 32 bits can number.
fn function_owner(
    alloc: Global,
    environment: &Environment,
    tree: &Function,
) -> Result<Owner, NoMemory>
    ensures parameters { IfOk result (λ owner. owner.parameters.items ≡ type_names_of tree.now.parameters) }
    ensures target { IfOk result (λ owner. owner.target ≡ fresh (around_function (outcome_of environment.now tree.now) tree.now.inputs.items)) }
    ensures settings { IfOk result (λ owner. owner.settings ≡ settings_of []) }
{
    let parameters = type_names_of(alloc, &tree.parameters)?;
    if parameters.len() > u32::MAX as usize {
        return Err(NoMemory);
    }
    let outcome = outcome_of(alloc, environment, &parameters, tree)?;
    let around = around_function(alloc, &outcome, &tree.inputs.items)?;
    Ok(fresh_owner(alloc, parameters, around))
}

/// Returns the owner of a member, without clauses, in a module with this meaning of names.
fn member_owner(
    alloc: Global,
    environment: &Environment,
    form: &SourceForm,
) -> Result<Owner, NoMemory>
    ensures { IfOk result (λ owner. (schemas : Schemas) → IsOwnerAfter (owner_scope environment.now schemas form.now) [] owner) }
{
    match form {
        SourceForm::Struct(tree) => struct_owner(alloc, tree),
        SourceForm::Function(tree) => function_owner(alloc, environment, tree),
        SourceForm::Use(_) => Ok(plain_owner(alloc)),
        SourceForm::Friend(_) => Ok(plain_owner(alloc)),
        SourceForm::Constant(_) => Ok(plain_owner(alloc)),
        SourceForm::Spec(_) => Ok(plain_owner(alloc)),
    }
}

/// Returns the owners of the members of a module and of the module itself, without clauses.
pub fn fresh_owners(
    alloc: Global,
    environment: &Environment,
    members: &[SourceMember],
) -> Result<Vec<Owner>, NoMemory>
    ensures { IfOk result (λ owners. (schemas : Schemas) → AreOwnersFrom (λ n. []) 0 (owner_scopes environment.now schemas members.now) owners.items) }
{
    let mut owners = Vec::new(alloc);
    for member in members {
        let owner = member_owner(alloc, environment, &member.form)?;
        owners.push(owner)?;
    }
    let own = plain_owner(alloc);
    owners.push(own)?;
    Ok(owners)
}
