//! The declarations of modules.

ghost use Rattle.std.specs.Prelude.{◌≡◌, IfOk, OnOk};
ghost use Rattle.std.specs.List.{flat_map};
ghost use Rattle.indexmap.specs.IndexSet.{insert_all};
ghost use Rattle.scopes.specs.EnvironmentData.{with_declared};
ghost use Rattle.scopes.specs.MemberNames.{same_declaration};
ghost use Rattle.scopes.specs.Declares.{form_declares, member_declares, module_declares, named, spec_declares};

use crate::environment::Environment;
use crate::fault::NameFault;
use crate::member::{Declaration, MemberId, MemberKind, NameOfKind};
use base::memory::NoMemory;
use base::name::Name;
use program::program::ModuleId;
use std::alloc::Global;
use syntax_tree::clause::Spec;
use syntax_tree::source::{SourceForm, SourceMember, SourceModule};

fn named(alloc: Global, kind: MemberKind, name: &Name) -> Result<Option<NameOfKind>, NoMemory>
    ensures { IfOk result (λ found. found ≡ named kind name.now) }
{
    Ok(Some(NameOfKind {
        kind,
        name: name.try_clone(alloc)?,
    }))
}

/// Returns the name that a spec block declares.
fn spec_declares(alloc: Global, spec: &Spec) -> Result<Option<NameOfKind>, NoMemory>
    ensures { IfOk result (λ found. found ≡ spec_declares spec.now) }
{
    match spec {
        Spec::Schema(schema) => named(alloc, MemberKind::Schema, &schema.name.text),
        Spec::Function(function) => named(alloc, MemberKind::SpecFunction, &function.name.text),
        _ => Ok(None),
    }
}

/// Returns the name that a member declares.
pub fn form_declares(alloc: Global, form: &SourceForm) -> Result<Option<NameOfKind>, NoMemory>
    ensures { IfOk result (λ found. found ≡ form_declares form.now) }
{
    match form {
        SourceForm::Use(_) => Ok(None),
        SourceForm::Friend(_) => Ok(None),
        SourceForm::Struct(member) => named(alloc, MemberKind::Struct, &member.name.text),
        SourceForm::Constant(member) => named(alloc, MemberKind::Constant, &member.name.text),
        SourceForm::Function(member) => named(alloc, MemberKind::Function, &member.name.text),
        SourceForm::Spec(spec) => spec_declares(alloc, spec),
    }
}

/// Adds the declaration of a member of a module.
fn declare_member(
    alloc: Global,
    owner: &ModuleId,
    member: &SourceMember,
    environment: &mut Environment,
) -> Result<(), NoMemory>
    ensures { OnOk result (environment.new ≡ with_declared environment.old (insert_all same_declaration environment.old.declared (member_declares owner.now member.now))) }
{
    if let Some(found) = form_declares(alloc, &member.form)? {
        let member = MemberId {
            owner: owner.try_clone(alloc)?,
            name: found.name,
        };
        environment.declare(Declaration {
            kind: found.kind,
            member,
        })?;
    }
    Ok(())
}

/// Adds the declarations of the members of a module.
fn declare_members(
    alloc: Global,
    owner: &ModuleId,
    members: &[SourceMember],
    environment: &mut Environment,
) -> Result<(), NoMemory>
    ensures { OnOk result (environment.new ≡ with_declared environment.old (insert_all same_declaration environment.old.declared (flat_map (member_declares owner.now) members.now))) }
{
    for member in members {
        declare_member(alloc, owner, member, environment)?;
    }
    Ok(())
}

/// Adds the declarations of a module, if its address is known.
pub fn declare_module(
    alloc: Global,
    module_tree: &SourceModule,
    environment: &mut Environment,
) -> Result<(), NoMemory>
    ensures { OnOk result (environment.new ≡ with_declared environment.old (insert_all same_declaration environment.old.declared (module_declares environment.old module_tree.now))) }
{
    match environment.module_named(alloc, &module_tree.name) {
        Ok(owner) => declare_members(alloc, &owner, &module_tree.members, environment),
        Err(NameFault::Unknown) => Ok(()),
        Err(NameFault::NoMemory) => Err(NoMemory),
    }
}
