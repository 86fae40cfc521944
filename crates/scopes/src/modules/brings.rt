//! The names that the members of a module bring into scope.

ghost use Rattle.std.specs.Prelude.{◌≡◌, ◌++◌, map, IfOk, OnOk};
ghost use Rattle.std.specs.List.{flat_map};
ghost use Rattle.scopes.specs.Brings.{brings_of_kind, environment_of, firsts, form_members, form_modules, member_members, member_modules, named_itself, import_brings, imported_brings, module_name_of, module_names, name_here, use_brings, with_owner};
ghost use Rattle.scopes.specs.Declares.{form_declares, listed};
ghost use Rattle.base.specs.Names.{same_name};
ghost use Rattle.scopes.specs.MemberNames.{same_name_of_kind};
ghost use Rattle.scopes.specs.EnvironmentData.{entered, with_modules, with_names};

use crate::environment::Environment;
use crate::fault::NameFault;
use crate::member::{MemberId, MemberKind, NameOfKind};
use crate::modules::declares::form_declares;
use base::memory::NoMemory;
use base::name::Name;
use program::program::ModuleId;
use std::alloc::Global;
use syntax_tree::lexeme::Identifier;
use syntax_tree::member::{Import, Imported};
use syntax_tree::source::{SourceForm, SourceMember};

/// Returns the name of an import in this module: its alias, if it has one.
fn name_here<'a>(name: &'a Name, alias: &'a Option<Identifier>) -> &'a Name
    ensures { result.now ≡ name_here name.now alias.now }
{
    match alias {
        None => name,
        Some(alias) => &alias.text,
    }
}

/// Appends the name that an import gives to the module itself, if it is of `Self`.
fn push_module_name(
    alloc: Global,
    name: &Name,
    import: &Import,
    names: &mut Vec<Name>,
) -> Result<(), NoMemory>
    ensures { OnOk result (names.new.items ≡ names.old.items ++ module_name_of name.now import.now) }
{
    if import.name.text.as_slice() == b"Self".as_slice() {
        names.push(name_here(name, &import.alias).try_clone(alloc)?)?;
    }
    Ok(())
}

/// Returns the names that a `use` gives to its module.
fn module_names(alloc: Global, name: &Name, imported: &Imported) -> Result<Vec<Name>, NoMemory>
    ensures { IfOk result (λ names. names.items ≡ module_names name.now imported.now) }
{
    let mut names = Vec::new(alloc);
    match imported {
        Imported::Module(alias) => names.push(name_here(name, alias).try_clone(alloc)?)?,
        Imported::One(import) => push_module_name(alloc, name, import, &mut names)?,
        Imported::Several(imports) => push_module_names(alloc, name, &imports.items, &mut names)?,
    }
    Ok(names)
}

fn push_module_names(
    alloc: Global,
    name: &Name,
    imports: &[Import],
    names: &mut Vec<Name>,
) -> Result<(), NoMemory>
    ensures { OnOk result (names.new.items ≡ names.old.items ++ flat_map (module_name_of name.now) imports.now) }
{
    for import in imports {
        push_module_name(alloc, name, import, names)?;
    }
    Ok(())
}

/// Names of modules in this module.
#[derive(Drop)]
pub struct ModuleNames {
    pub entries: Vec<(Name, ModuleId)>,
}

/// Names of members in this module.
#[derive(Drop)]
pub struct MemberNames {
    pub entries: Vec<(NameOfKind, MemberId)>,
}

/// Appends each name with the module as its meaning.
fn push_owned(
    alloc: Global,
    owner: &ModuleId,
    names: Vec<Name>,
    into: &mut ModuleNames,
) -> Result<(), NoMemory>
    ensures { OnOk result (into.new.entries.items ≡ into.old.entries.items ++ map (λ name. (name, owner.now)) names.items) }
{
    for name in names {
        into.entries.push((name, owner.try_clone(alloc)?))?;
    }
    Ok(())
}

/// Appends the names that a member gives to modules.
pub fn push_form_modules(
    alloc: Global,
    environment: &Environment,
    form: &SourceForm,
    into: &mut ModuleNames,
) -> Result<(), NoMemory>
    ensures { OnOk result (into.new.entries.items ≡ into.old.entries.items ++ form_modules environment.now form.now) }
{
    match form {
        SourceForm::Use(member) => match environment.module_named(alloc, &member.owner) {
            Ok(owner) => {
                let names = module_names(alloc, &member.owner.name.text, &member.imported)?;
                push_owned(alloc, &owner, names, into)
            }
            Err(NameFault::Unknown) => Ok(()),
            Err(NameFault::NoMemory) => Err(NoMemory),
        },
        _ => Ok(()),
    }
}

/// Appends the imported member of this kind, if there is one.
fn push_of_kind(
    alloc: Global,
    environment: &Environment,
    owner: &ModuleId,
    import: &Import,
    kind: MemberKind,
    into: &mut MemberNames,
) -> Result<(), NoMemory>
    ensures { OnOk result (into.new.entries.items ≡ into.old.entries.items ++ brings_of_kind environment.now owner.now import.now kind) }
{
    let owner = owner.try_clone(alloc)?;
    match environment.declared_member(alloc, kind, owner, &import.name.text) {
        Ok(member) => {
            let name = name_here(&import.name.text, &import.alias).try_clone(alloc)?;
            into.entries.push((NameOfKind { kind, name }, member))?;
            Ok(())
        }
        Err(NameFault::Unknown) => Ok(()),
        Err(NameFault::NoMemory) => Err(NoMemory),
    }
}

/// Appends the members that an import brings in.
fn push_import(
    alloc: Global,
    environment: &Environment,
    owner: &ModuleId,
    import: &Import,
    into: &mut MemberNames,
) -> Result<(), NoMemory>
    ensures { OnOk result (into.new.entries.items ≡ into.old.entries.items ++ import_brings environment.now owner.now import.now) }
{
    push_of_kind(alloc, environment, owner, import, MemberKind::Struct, into)?;
    push_of_kind(
        alloc,
        environment,
        owner,
        import,
        MemberKind::Constant,
        into,
    )?;
    push_of_kind(
        alloc,
        environment,
        owner,
        import,
        MemberKind::Function,
        into,
    )?;
    push_of_kind(
        alloc,
        environment,
        owner,
        import,
        MemberKind::SpecFunction,
        into,
    )?;
    push_of_kind(alloc, environment, owner, import, MemberKind::Schema, into)
}

fn push_imports(
    alloc: Global,
    environment: &Environment,
    owner: &ModuleId,
    imports: &[Import],
    into: &mut MemberNames,
) -> Result<(), NoMemory>
    ensures { OnOk result (into.new.entries.items ≡ into.old.entries.items ++ flat_map (import_brings environment.now owner.now) imports.now) }
{
    for import in imports {
        push_import(alloc, environment, owner, import, into)?;
    }
    Ok(())
}

fn push_imported(
    alloc: Global,
    environment: &Environment,
    owner: &ModuleId,
    imported: &Imported,
    into: &mut MemberNames,
) -> Result<(), NoMemory>
    ensures { OnOk result (into.new.entries.items ≡ into.old.entries.items ++ imported_brings environment.now owner.now imported.now) }
{
    match imported {
        Imported::Module(_) => Ok(()),
        Imported::One(import) => push_import(alloc, environment, owner, import, into),
        Imported::Several(imports) => {
            push_imports(alloc, environment, owner, &imports.items, into)
        }
    }
}

/// Appends a name that a member declares, with its own meaning.
fn push_itself(
    alloc: Global,
    environment: &Environment,
    form: &SourceForm,
    into: &mut MemberNames,
) -> Result<(), NoMemory>
    ensures { OnOk result (into.new.entries.items ≡ into.old.entries.items ++ map (named_itself environment.now.own) (listed (form_declares form.now))) }
{
    if let Some(found) = form_declares(alloc, form)? {
        let member = MemberId {
            owner: environment.own().try_clone(alloc)?,
            name: found.name.try_clone(alloc)?,
        };
        into.entries.push((found, member))?;
    }
    Ok(())
}

/// Appends the names that a member gives to members of modules.
pub fn push_form_members(
    alloc: Global,
    environment: &Environment,
    form: &SourceForm,
    into: &mut MemberNames,
) -> Result<(), NoMemory>
    ensures { OnOk result (into.new.entries.items ≡ into.old.entries.items ++ form_members environment.now form.now) }
{
    match form {
        SourceForm::Use(member) => match environment.module_named(alloc, &member.owner) {
            Ok(owner) => push_imported(alloc, environment, &owner, &member.imported, into),
            Err(NameFault::Unknown) => Ok(()),
            Err(NameFault::NoMemory) => Err(NoMemory),
        },
        _ => push_itself(alloc, environment, form, into),
    }
}

/// Appends the names that members give to modules and to members of modules.
fn push_members(
    alloc: Global,
    environment: &Environment,
    members: &[SourceMember],
    into_modules: &mut ModuleNames,
    into_members: &mut MemberNames,
) -> Result<(), NoMemory>
    ensures modules { OnOk result (into_modules.new.entries.items ≡ into_modules.old.entries.items ++ flat_map (member_modules environment.now) members.now) }
    ensures members { OnOk result (into_members.new.entries.items ≡ into_members.old.entries.items ++ flat_map (member_members environment.now) members.now) }
{
    for member in members {
        push_form_modules(alloc, environment, &member.form, into_modules)?;
        push_form_members(alloc, environment, &member.form, into_members)?;
    }
    Ok(())
}

fn bring_modules(names: ModuleNames, environment: &mut Environment) -> Result<(), NoMemory>
    ensures { OnOk result (environment.new ≡ with_modules environment.old (firsts same_name environment.old.modules names.entries.items)) }
{
    for (name, owner) in names.entries {
        environment.bring_module(name, owner)?;
    }
    Ok(())
}

fn bring_members(names: MemberNames, environment: &mut Environment) -> Result<(), NoMemory>
    ensures { OnOk result (environment.new ≡ with_names environment.old (firsts same_name_of_kind environment.old.names names.entries.items)) }
{
    for (name, member) in names.entries {
        environment.bring(name, member)?;
    }
    Ok(())
}

/// Enters a module with these members.
pub fn enter_module(
    alloc: Global,
    own: ModuleId,
    members: &[SourceMember],
    environment: &mut Environment,
) -> Result<(), NoMemory>
    ensures { OnOk result (environment.new ≡ environment_of (entered environment.old own) members.now) }
{
    environment.enter(alloc, own);
    let mut modules = ModuleNames {
        entries: Vec::new(alloc),
    };
    let mut names = MemberNames {
        entries: Vec::new(alloc),
    };
    push_members(alloc, environment, members, &mut modules, &mut names)?;
    bring_modules(modules, environment)?;
    bring_members(names, environment)
}
