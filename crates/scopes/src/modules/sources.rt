//! Duplicate declarations in a program.

ghost use Rattle.std.specs.Prelude.{◌≡◌, ◌++◌, ◌<◌, length, not, None, IsTrue, IfSome, IfOk, OnOk};
ghost use Rattle.std.specs.List.{flat_map};
ghost use Rattle.indexmap.specs.IndexSet.{insert_all, insert_key};
ghost use Rattle.scopes.specs.Builtins.{builtin_declarations};
ghost use Rattle.scopes.specs.Meanings.{module_meaning};
ghost use Rattle.scopes.specs.EnvironmentData.{with_declared};
ghost use Rattle.scopes.specs.MemberNames.{same_declaration};
ghost use Rattle.scopes.specs.Declares.{module_declares};
ghost use Rattle.scopes.specs.Program.{builtin_declaration, builtin_modules, declaring, first_twice_of, is_among, language, module_of, modules_of, twice_in_source, twice_in_sources};

use crate::addresses::Addresses;
use crate::environment::Environment;
use crate::fault::NameFault;
use crate::member::{Declaration, MemberId, MemberKind};
use crate::modules::declares::declare_module;
use crate::modules::twice::first_twice;
use base::memory::NoMemory;
use base::name::Name;
use indexmap::IndexSet;
use program::program::ModuleId;
use std::alloc::Global;
use syntax_tree::source::{Source, SourceModule};

/// Adds the declarations of the modules of a source.
pub fn declare_modules(
    alloc: Global,
    modules: &[SourceModule],
    environment: &mut Environment,
) -> Result<(), NoMemory>
    ensures { OnOk result (environment.new ≡ with_declared environment.old (insert_all same_declaration environment.old.declared (flat_map (module_declares environment.old) modules.now))) }
{
    for module_tree in modules {
        declare_module(alloc, module_tree, environment)?;
    }
    Ok(())
}

/// Adds a builtin function.
fn declare_function(
    alloc: Global,
    owner: &[u8],
    name: &[u8],
    environment: &mut Environment,
) -> Result<(), NoMemory>
    ensures { OnOk result (environment.new ≡ with_declared environment.old (insert_key same_declaration environment.old.declared (builtin_declaration owner.now name.now))) }
{
    let owner = ModuleId {
        address: 1,
        name: Name::from_slice(alloc, owner)?,
    };
    let member = MemberId {
        owner,
        name: Name::from_slice(alloc, name)?,
    };
    environment.declare(Declaration {
        kind: MemberKind::Function,
        member,
    })?;
    Ok(())
}

/// Adds the builtin functions.
fn declare_builtins(alloc: Global, environment: &mut Environment) -> Result<(), NoMemory>
    ensures { OnOk result (environment.new ≡ with_declared environment.old (insert_all same_declaration environment.old.declared builtin_declarations)) }
{
    declare_function(alloc, b"vector", b"empty", environment)?;
    declare_function(alloc, b"vector", b"length", environment)?;
    declare_function(alloc, b"vector", b"borrow", environment)?;
    declare_function(alloc, b"vector", b"push_back", environment)?;
    declare_function(alloc, b"vector", b"borrow_mut", environment)?;
    declare_function(alloc, b"vector", b"pop_back", environment)?;
    declare_function(alloc, b"vector", b"destroy_empty", environment)?;
    declare_function(alloc, b"vector", b"swap", environment)?;
    declare_function(alloc, b"signer", b"address_of", environment)
}

/// Returns the environment with the builtin declarations only.
pub fn language(alloc: Global) -> Result<Environment, NoMemory>
    ensures { IfOk result (λ environment. environment ≡ language) }
{
    let own = ModuleId {
        address: 1,
        name: Name::from_slice(alloc, b"vector")?,
    };
    let mut environment = Environment::new(alloc, Addresses::standard(alloc)?, own);
    declare_builtins(alloc, &mut environment)?;
    Ok(environment)
}

/// Decides whether no module seen so far has the same address and name, and marks the module as seen. A module with an
/// unknown address is not compared.
fn is_new_module(
    alloc: Global,
    environment: &Environment,
    module_tree: &SourceModule,
    seen: &mut IndexSet<ModuleId>,
) -> Result<bool, NoMemory>
    ensures new { IfOk result (λ is_new. is_new ≡ not (is_among seen.old.keys (module_meaning environment.now module_tree.now.name))) }
    ensures seen { IfOk result (λ is_new. IsTrue is_new → seen.new.keys ≡ seen.old.keys ++ module_of environment.now module_tree.now) }
{
    match environment.module_named(alloc, &module_tree.name) {
        Ok(id) => Ok(seen.insert(id)?),
        Err(NameFault::Unknown) => Ok(true),
        Err(NameFault::NoMemory) => Err(NoMemory),
    }
}

/// Finds the first duplicate declaration among those of a source. Returns the byte offset of its first token.
pub fn twice_in_source(
    alloc: Global,
    environment: &Environment,
    modules: &[SourceModule],
    seen: &mut IndexSet<ModuleId>,
) -> Result<Option<u32>, NoMemory>
    ensures found { IfOk result (λ found. found ≡ twice_in_source environment.now seen.old.keys modules.now) }
    ensures seen { IfOk result (λ found. (found ≡ None) → seen.new.keys ≡ seen.old.keys ++ modules_of environment.now modules.now) }
{
    for module_tree in modules {
        if !is_new_module(alloc, environment, module_tree, seen)? {
            return Ok(Some(module_tree.span.start));
        }
        if let Some(span) = first_twice(alloc, environment, &module_tree.members)? {
            return Ok(Some(span));
        }
    }
    Ok(None)
}

/// Adds the declarations of the modules of sources.
fn declare_sources(
    alloc: Global,
    sources: &[Source],
    environment: &mut Environment,
) -> Result<(), NoMemory>
    ensures { OnOk result (environment.new ≡ with_declared environment.old (insert_all same_declaration environment.old.declared (flat_map (flat_map (module_declares environment.old)) sources.now))) }
{
    for source in sources {
        declare_modules(alloc, source.modules.as_slice(), environment)?;
    }
    Ok(())
}

/// Returns the environment with the builtin declarations and those of the modules of sources.
pub fn declaring(alloc: Global, sources: &[Source]) -> Result<Environment, NoMemory>
    ensures { IfOk result (λ environment. environment ≡ declaring sources.now) }
{
    let mut environment = language(alloc)?;
    declare_sources(alloc, sources, &mut environment)?;
    Ok(environment)
}

/// Returns the builtin modules.
fn builtin_modules(alloc: Global) -> Result<IndexSet<ModuleId>, NoMemory>
    ensures { IfOk result (λ modules. modules.keys ≡ builtin_modules) }
{
    let mut modules = IndexSet::new(alloc);
    modules.insert(ModuleId {
        address: 1,
        name: Name::from_slice(alloc, b"vector")?,
    })?;
    modules.insert(ModuleId {
        address: 1,
        name: Name::from_slice(alloc, b"signer")?,
    })?;
    Ok(modules)
}

/// Finds the first duplicate declaration, given the modules seen before. Returns the index of its file and the byte
/// offset of its first token.
fn twice_behind(
    alloc: Global,
    environment: &Environment,
    sources: &[Source],
    seen: IndexSet<ModuleId>,
) -> Result<Option<(usize, u32)>, NoMemory>
    ensures found { IfOk result (λ found. found ≡ twice_in_sources environment.now seen.keys 0 sources.now) }
    ensures within { IfOk result (λ found. IfSome found (λ at. at.0 < length sources.now)) }
{
    let mut seen = seen;
    for (number, source) in sources.iter().enumerate() {
        let modules = source.modules.as_slice();
        if let Some(offset) = twice_in_source(alloc, environment, modules, &mut seen)? {
            return Ok(Some((number, offset)));
        }
    }
    Ok(None)
}

/// Finds the first duplicate declaration in files. Returns the index of its file and the byte offset of its first
/// token.
pub fn first_twice_of(alloc: Global, sources: &[Source]) -> Result<Option<(usize, u32)>, NoMemory>
    ensures found { IfOk result (λ found. found ≡ first_twice_of sources.now) }
    ensures within { IfOk result (λ found. IfSome found (λ at. at.0 < length sources.now)) }
{
    let environment = declaring(alloc, sources)?;
    twice_behind(alloc, &environment, sources, builtin_modules(alloc)?)
}
