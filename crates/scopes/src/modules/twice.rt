//! Duplicate declarations in a module.

ghost use Rattle.std.specs.Prelude.{◌≡◌, ◌++◌, ◌&&◌, [], map, IsTrue, IfOk, OnOk};
ghost use Rattle.base.specs.Names.{same_name};
ghost use Rattle.scopes.specs.MemberNames.{same_name_of_kind};
ghost use Rattle.scopes.specs.Brings.{form_members, form_modules};
ghost use Rattle.scopes.specs.Twice.{all_differ, are_new, declares_behind, first_twice, form_differs, name_of, owner_differs, spec_differs, type_names, typed_names};

use crate::environment::Environment;
use crate::member::NameOfKind;
use crate::modules::brings::{MemberNames, ModuleNames, push_form_members, push_form_modules};
use base::memory::NoMemory;
use base::name::Name;
use indexmap::IndexSet;
use std::alloc::Global;
use syntax_tree::clause::Spec;
use syntax_tree::member::{TypeParameter, TypeParameters, TypedNames};
use syntax_tree::source::spans::form_span;
use syntax_tree::source::{SourceForm, SourceMember};

/// Appends names to those seen, and returns whether all of them are new and different. If not, some of them may have
/// been added.
fn are_new(seen: &mut IndexSet<Name>, items: Vec<Name>) -> Result<bool, NoMemory>
    ensures new { IfOk result (λ is_new. is_new ≡ are_new same_name seen.old.keys items.items) }
    ensures seen { IfOk result (λ is_new. IsTrue is_new → seen.new.keys ≡ seen.old.keys ++ items.items) }
{
    for item in items {
        if !seen.insert(item)? {
            return Ok(false);
        }
    }
    Ok(true)
}

/// Appends names of members to those seen, and returns whether all of them are new and different. If not, some of them
/// may have been added.
fn are_new_members(
    seen: &mut IndexSet<NameOfKind>,
    items: Vec<NameOfKind>,
) -> Result<bool, NoMemory>
    ensures new { IfOk result (λ is_new. is_new ≡ are_new same_name_of_kind seen.old.keys items.items) }
    ensures seen { IfOk result (λ is_new. IsTrue is_new → seen.new.keys ≡ seen.old.keys ++ items.items) }
{
    for item in items {
        if !seen.insert(item)? {
            return Ok(false);
        }
    }
    Ok(true)
}

/// Decides whether the names are pairwise different.
fn all_differ(alloc: Global, names: Vec<Name>) -> Result<bool, NoMemory>
    ensures { IfOk result (λ differ. differ ≡ all_differ names.items) }
{
    let mut seen = IndexSet::new(alloc);
    are_new(&mut seen, names)
}

fn typed_names(alloc: Global, names: &TypedNames) -> Result<Vec<Name>, NoMemory>
    ensures { IfOk result (λ found. found.items ≡ typed_names names.now) }
{
    let mut found = Vec::new(alloc);
    for name in &names.items {
        found.push(name.name.text.try_clone(alloc)?)?;
    }
    Ok(found)
}

fn type_names(alloc: Global, types: &Option<TypeParameters>) -> Result<Vec<Name>, NoMemory>
    ensures { IfOk result (λ found. found.items ≡ type_names types.now) }
{
    match types {
        None => Ok(Vec::new(alloc)),
        Some(types) => parameter_names(alloc, &types.items),
    }
}

fn parameter_names(alloc: Global, parameters: &[TypeParameter]) -> Result<Vec<Name>, NoMemory>
    ensures { IfOk result (λ found. found.items ≡ map (λ p. p.name.text) parameters.now) }
{
    let mut found = Vec::new(alloc);
    for parameter in parameters {
        found.push(parameter.name.text.try_clone(alloc)?)?;
    }
    Ok(found)
}

/// Decides whether the type parameters of an owner have different names, and its fields or parameters too.
fn owner_differs(
    alloc: Global,
    types: &Option<TypeParameters>,
    names: &TypedNames,
) -> Result<bool, NoMemory>
    ensures { IfOk result (λ differ. differ ≡ owner_differs types.now names.now) }
{
    let types = type_names(alloc, types)?;
    if !all_differ(alloc, types)? {
        return Ok(false);
    }
    let names = typed_names(alloc, names)?;
    all_differ(alloc, names)
}

fn spec_differs(alloc: Global, spec: &Spec) -> Result<bool, NoMemory>
    ensures { IfOk result (λ differ. differ ≡ spec_differs spec.now) }
{
    match spec {
        Spec::Schema(schema) => {
            let types = type_names(alloc, &schema.parameters)?;
            all_differ(alloc, types)
        }
        Spec::Function(function) => owner_differs(alloc, &function.parameters, &function.inputs),
        _ => Ok(true),
    }
}

/// Decides whether a member has no two type parameters, and no two fields or parameters, of the same name.
fn form_differs(alloc: Global, form: &SourceForm) -> Result<bool, NoMemory>
    ensures { IfOk result (λ differ. differ ≡ form_differs form.now) }
{
    match form {
        SourceForm::Struct(member) => owner_differs(alloc, &member.parameters, &member.fields),
        SourceForm::Function(member) => owner_differs(alloc, &member.parameters, &member.inputs),
        SourceForm::Spec(spec) => spec_differs(alloc, spec),
        _ => Ok(true),
    }
}

fn module_keys(alloc: Global, names: ModuleNames) -> Result<Vec<Name>, NoMemory>
    ensures { IfOk result (λ keys. keys.items ≡ map name_of names.entries.items) }
{
    let mut keys = Vec::new(alloc);
    for (name, _) in names.entries {
        keys.push(name)?;
    }
    Ok(keys)
}

fn member_keys(alloc: Global, names: MemberNames) -> Result<Vec<NameOfKind>, NoMemory>
    ensures { IfOk result (λ keys. keys.items ≡ map name_of names.entries.items) }
{
    let mut keys = Vec::new(alloc);
    for (name, _) in names.entries {
        keys.push(name)?;
    }
    Ok(keys)
}

/// The names declared or imported so far in a module.
#[derive(Drop)]
struct Seen {
    modules: IndexSet<Name>,
    members: IndexSet<NameOfKind>,
}

/// Decides whether the names that a member gives to modules are new.
fn has_new_modules(
    alloc: Global,
    environment: &Environment,
    form: &SourceForm,
    seen: &mut IndexSet<Name>,
) -> Result<bool, NoMemory>
    ensures new { IfOk result (λ is_new. is_new ≡ are_new same_name seen.old.keys (map name_of (form_modules environment.now form.now))) }
    ensures seen { IfOk result (λ is_new. IsTrue is_new → seen.new.keys ≡ seen.old.keys ++ map name_of (form_modules environment.now form.now)) }
{
    let mut names = ModuleNames {
        entries: Vec::new(alloc),
    };
    push_form_modules(alloc, environment, form, &mut names)?;
    let keys = module_keys(alloc, names)?;
    are_new(seen, keys)
}

/// Decides whether the names that a member gives to members of modules are new.
fn has_new_members(
    alloc: Global,
    environment: &Environment,
    form: &SourceForm,
    seen: &mut IndexSet<NameOfKind>,
) -> Result<bool, NoMemory>
    ensures new { IfOk result (λ is_new. is_new ≡ are_new same_name_of_kind seen.old.keys (map name_of (form_members environment.now form.now))) }
    ensures seen { IfOk result (λ is_new. IsTrue is_new → seen.new.keys ≡ seen.old.keys ++ map name_of (form_members environment.now form.now)) }
{
    let mut names = MemberNames {
        entries: Vec::new(alloc),
    };
    push_form_members(alloc, environment, form, &mut names)?;
    let keys = member_keys(alloc, names)?;
    are_new_members(seen, keys)
}

/// Decides whether a member declares nothing a second time.
fn declares_once(
    alloc: Global,
    environment: &Environment,
    form: &SourceForm,
    seen: &mut Seen,
) -> Result<bool, NoMemory>
    ensures new { IfOk result (λ is_new. is_new ≡ declares_behind environment.now seen.old.modules.keys seen.old.members.keys form.now) }
    ensures modules { IfOk result (λ is_new. IsTrue is_new → seen.new.modules.keys ≡ seen.old.modules.keys ++ map name_of (form_modules environment.now form.now)) }
    ensures members { IfOk result (λ is_new. IsTrue is_new → seen.new.members.keys ≡ seen.old.members.keys ++ map name_of (form_members environment.now form.now)) }
{
    if !form_differs(alloc, form)? {
        return Ok(false);
    }
    if !has_new_modules(alloc, environment, form, &mut seen.modules)? {
        return Ok(false);
    }
    has_new_members(alloc, environment, form, &mut seen.members)
}

/// Finds the first member that declares something a second time. Returns the byte offset of its first token.
pub fn first_twice(
    alloc: Global,
    environment: &Environment,
    members: &[SourceMember],
) -> Result<Option<u32>, NoMemory>
    ensures { IfOk result (λ found. found ≡ first_twice environment.now [] members.now) }
{
    let mut seen = Seen {
        modules: IndexSet::new(alloc),
        members: IndexSet::new(alloc),
    };
    for member in members {
        if !declares_once(alloc, environment, &member.form, &mut seen)? {
            return Ok(Some(form_span(&member.form).start));
        }
    }
    Ok(None)
}
