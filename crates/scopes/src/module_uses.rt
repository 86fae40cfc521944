//! The modules that the `use`s of modules name.

ghost use Rattle.std.specs.Prelude.{◌≡◌, ◌++◌, length, IfOk, OnOk};
ghost use Rattle.std.specs.List.{flat_map};
ghost use Rattle.scopes.specs.MemberNames.{first_stays, same_module};
ghost use Rattle.scopes.specs.Meanings.{module_meaning};
ghost use Rattle.scopes.specs.Brings.{firsts};
ghost use Rattle.scopes.specs.Declares.{listed};
ghost use Rattle.scopes.specs.Uses.{all_uses, form_uses, member_uses, source_uses, tree_uses, uses_among, uses_in_order, uses_of};

use crate::environment::Environment;
use crate::fault::NameFault;
use crate::modules::sources::language;
use base::memory::NoMemory;
use program::program::{ModuleId, Program};
use program::sequence::Sequence;
use program::table::Table;
use std::alloc::Global;
use syntax_tree::path::ModuleName;
use syntax_tree::source::{Source, SourceForm, SourceMember, SourceModule};

/// Appends a module, if its address is known.
fn push_module(
    alloc: Global,
    environment: &Environment,
    name: &ModuleName,
    into: &mut Sequence<ModuleId>,
) -> Result<(), NoMemory>
    ensures { OnOk result (into.new ≡ into.old ++ listed (module_meaning environment.now name.now)) }
{
    match environment.module_named(alloc, name) {
        Ok(id) => into.push(id),
        Err(NameFault::Unknown) => Ok(()),
        Err(NameFault::NoMemory) => Err(NoMemory),
    }
}

/// Appends the module that a member names in a `use`.
fn push_form(
    alloc: Global,
    environment: &Environment,
    form: &SourceForm,
    into: &mut Sequence<ModuleId>,
) -> Result<(), NoMemory>
    ensures { OnOk result (into.new ≡ into.old ++ form_uses environment.now form.now) }
{
    match form {
        SourceForm::Use(import) => push_module(alloc, environment, &import.owner, into),
        _ => Ok(()),
    }
}

/// Returns the modules that the `use`s among members name.
fn uses_of_members(
    alloc: Global,
    environment: &Environment,
    members: &[SourceMember],
) -> Result<Sequence<ModuleId>, NoMemory>
    ensures { IfOk result (λ names. names ≡ flat_map (member_uses environment.now) members.now) }
{
    let mut names = Sequence::new(alloc);
    for member in members {
        push_form(alloc, environment, &member.form, &mut names)?;
    }
    Ok(names)
}

/// Adds the modules that the `use`s of a module name, unless a module of its name has been added.
fn put_first(
    uses: &mut Table<ModuleId, Sequence<ModuleId>>,
    own: ModuleId,
    names: Sequence<ModuleId>,
) -> Result<(), NoMemory>
    ensures { OnOk result (uses.new ≡ first_stays same_module uses.old own names) }
{
    let _is_new = uses.put(own, names)?;
    Ok(())
}

/// Adds the modules that the `use`s of a module name, if its address is known.
fn note_module(
    alloc: Global,
    environment: &Environment,
    tree: &SourceModule,
    uses: &mut Table<ModuleId, Sequence<ModuleId>>,
) -> Result<(), NoMemory>
    ensures { OnOk result (uses.new ≡ firsts same_module uses.old (tree_uses environment.now tree.now)) }
{
    match environment.module_named(alloc, &tree.name) {
        Ok(own) => {
            let names = uses_of_members(alloc, environment, &tree.members)?;
            put_first(uses, own, names)
        }
        Err(NameFault::Unknown) => Ok(()),
        Err(NameFault::NoMemory) => Err(NoMemory),
    }
}

fn note_modules(
    alloc: Global,
    environment: &Environment,
    trees: &[SourceModule],
    uses: &mut Table<ModuleId, Sequence<ModuleId>>,
) -> Result<(), NoMemory>
    ensures { OnOk result (uses.new ≡ firsts same_module uses.old (source_uses environment.now trees.now)) }
{
    for tree in trees {
        note_module(alloc, environment, tree, uses)?;
    }
    Ok(())
}

/// Returns the modules that the `use`s of all modules name.
fn all_uses(
    alloc: Global,
    environment: &Environment,
    sources: &[Source],
) -> Result<Table<ModuleId, Sequence<ModuleId>>, NoMemory>
    ensures { IfOk result (λ uses. uses ≡ all_uses environment.now sources.now) }
{
    let mut uses = Table::new(alloc);
    for source in sources {
        note_modules(alloc, environment, source.modules.as_slice(), &mut uses)?;
    }
    Ok(uses)
}

/// Copies names.
fn copy(alloc: Global, names: &[ModuleId]) -> Result<Sequence<ModuleId>, NoMemory>
    ensures { IfOk result (λ copied. copied ≡ names.now) }
{
    let mut copied = Sequence::new(alloc);
    for name in names {
        copied.push(name.try_clone(alloc)?)?;
    }
    Ok(copied)
}

/// Returns the modules that the `use`s of the module with this name name.
fn uses_among(
    alloc: Global,
    uses: &Table<ModuleId, Sequence<ModuleId>>,
    own: &ModuleId,
) -> Result<Sequence<ModuleId>, NoMemory>
    ensures { IfOk result (λ names. names ≡ uses_among uses.now own.now) }
{
    match uses.get(own) {
        Some(names) => copy(alloc, names.as_slice()),
        None => Ok(Sequence::new(alloc)),
    }
}

/// Returns the modules that the `use`s of the modules of a program name, in the order of these modules.
fn uses_in_order(
    alloc: Global,
    all: &Table<ModuleId, Sequence<ModuleId>>,
    program: &Program,
) -> Result<Vec<Sequence<ModuleId>>, NoMemory>
    ensures { IfOk result (λ uses. uses.items ≡ uses_in_order all.now program.now) }
{
    let mut uses = Vec::new(alloc);
    for number in 0..program.modules.len() {
        if let Some((own, _)) = program.modules.entry(number) {
            uses.push(uses_among(alloc, all, own)?)?;
        }
    }
    Ok(uses)
}

/// Returns for each module of the program, in order, the modules that its `use`s name in the sources. If two modules
/// have the same name, the first one counts. A `use` with an unknown address names none.
pub fn uses_of(
    alloc: Global,
    sources: &[Source],
    program: &Program,
) -> Result<Vec<Sequence<ModuleId>>, NoMemory>
    ensures uses { IfOk result (λ uses. uses.items ≡ uses_of sources.now program.now) }
    ensures count { IfOk result (λ uses. length uses.items ≡ length program.now.modules) }
{
    let environment = language(alloc)?;
    let all = all_uses(alloc, &environment, sources)?;
    uses_in_order(alloc, &all, program)
}
