//! Resolution of `use`s and friends.

ghost use Rattle.std.specs.Prelude.{◌≡◌, Some, IfOk};
ghost use Rattle.std.specs.List.{list_all};
ghost use Rattle.scopes.specs.Meanings.{IsMeaning, module_meaning};
ghost use Rattle.scopes.specs.Program.{is_among};
ghost use Rattle.resolution.specs.Imports.{among_these, declares, declares_any, import_is_known, imports_are_known, use_is_known};

use base::memory::NoMemory;
use base::name::Name;
use indexmap::IndexSet;
use program::program::ModuleId;
use scopes::environment::Environment;
use scopes::fault::NameFault;
use scopes::member::MemberKind;
use std::alloc::Global;
use syntax_tree::member::{Friend, Import, Imported, Use};

/// Decides whether a module declares this name with this kind.
fn declares(
    alloc: Global,
    environment: &Environment,
    owner: &ModuleId,
    name: &Name,
    kind: MemberKind,
) -> Result<bool, NoMemory>
    ensures { IfOk result (λ found. found ≡ declares environment.now owner.now name.now kind) }
{
    match environment.declared_member(alloc, kind, owner.try_clone(alloc)?, name) {
        Ok(_) => Ok(true),
        Err(NameFault::Unknown) => Ok(false),
        Err(NameFault::NoMemory) => Err(NoMemory),
    }
}

/// Decides whether a module declares this name with any kind.
fn declares_any(
    alloc: Global,
    environment: &Environment,
    owner: &ModuleId,
    name: &Name,
) -> Result<bool, NoMemory>
    ensures { IfOk result (λ found. found ≡ declares_any environment.now owner.now name.now) }
{
    if declares(alloc, environment, owner, name, MemberKind::Struct)? {
        return Ok(true);
    }
    if declares(alloc, environment, owner, name, MemberKind::Constant)? {
        return Ok(true);
    }
    if declares(alloc, environment, owner, name, MemberKind::Function)? {
        return Ok(true);
    }
    if declares(alloc, environment, owner, name, MemberKind::SpecFunction)? {
        return Ok(true);
    }
    declares(alloc, environment, owner, name, MemberKind::Schema)
}

/// Decides whether an import names the module itself or one of its declarations.
fn import_is_known(
    alloc: Global,
    environment: &Environment,
    owner: &ModuleId,
    import: &Import,
) -> Result<bool, NoMemory>
    ensures { IfOk result (λ known. known ≡ import_is_known environment.now owner.now import.now) }
{
    if import.name.text.as_slice() == b"Self".as_slice() {
        return Ok(true);
    }
    declares_any(alloc, environment, owner, &import.name.text)
}

fn all_are_known(
    alloc: Global,
    environment: &Environment,
    owner: &ModuleId,
    imports: &[Import],
) -> Result<bool, NoMemory>
    ensures { IfOk result (λ known. known ≡ list_all (import_is_known environment.now owner.now) imports.now) }
{
    for import in imports {
        if !import_is_known(alloc, environment, owner, import)? {
            return Ok(false);
        }
    }
    Ok(true)
}

fn imports_are_known(
    alloc: Global,
    environment: &Environment,
    owner: &ModuleId,
    imported: &Imported,
) -> Result<bool, NoMemory>
    ensures { IfOk result (λ known. known ≡ imports_are_known environment.now owner.now imported.now) }
{
    match imported {
        Imported::Module(_) => Ok(true),
        Imported::One(import) => import_is_known(alloc, environment, owner, import),
        Imported::Several(imports) => all_are_known(alloc, environment, owner, &imports.items),
    }
}

fn is_among(modules: &IndexSet<ModuleId>, owner: &ModuleId) -> bool
    ensures { result ≡ is_among modules.now.keys (Some owner.now) }
{
    modules.contains(owner)
}

/// Decides whether a `use` names one of these modules, and each of its imports something in it.
pub fn use_is_known(
    alloc: Global,
    environment: &Environment,
    modules: &IndexSet<ModuleId>,
    tree: &Use,
) -> Result<bool, NoMemory>
    ensures { IfOk result (λ known. known ≡ use_is_known environment.now modules.now.keys tree.now) }
{
    match environment.module_named(alloc, &tree.owner) {
        Ok(owner) => {
            if !is_among(modules, &owner) {
                return Ok(false);
            }
            imports_are_known(alloc, environment, &owner, &tree.imported)
        }
        Err(NameFault::Unknown) => Ok(false),
        Err(NameFault::NoMemory) => Err(NoMemory),
    }
}

/// Returns the module that a friend names, if it is among these.
pub fn resolve_friend(
    alloc: Global,
    environment: &Environment,
    modules: &IndexSet<ModuleId>,
    tree: &Friend,
) -> Result<ModuleId, NameFault>
    ensures { IsMeaning result (among_these modules.now.keys (module_meaning environment.now tree.now.owner)) }
{
    let owner = environment.module_named(alloc, &tree.owner)?;
    if !is_among(modules, &owner) {
        return Err(NameFault::Unknown);
    }
    Ok(owner)
}
