//! Resolution of modules.

ghost use Rattle.std.specs.Prelude.{◌≡◌, [], ◌∷◌, ◌++◌, length, Some, IfErr, OnOk};
ghost use Rattle.resolution.specs.Faults.{IsFaultAmong};
ghost use Rattle.resolution.specs.Items.{AreKnown, items_behind, items_in, module_items, source_items};
ghost use Rattle.resolution.specs.Known.{KnownData};
ghost use Rattle.resolution.specs.Modules.{IsKnown, IsWithin};
ghost use Rattle.resolution.specs.Owners.{blocks_of, settings_in};
ghost use Rattle.resolution.specs.OwnersSoFar.{AreNumbers, AreOwners, blocks_before};
ghost use Rattle.resolution.specs.Parts.{EnteredOf, here_of};
ghost use Rattle.resolution.specs.Programs.{ModuleTree, declarations_from, declarations_in, module_declarations, source_declarations};

use crate::clauses::pragmas::Settings;
use crate::declared::{Declared, DeclaredForm};
use crate::fault::DeclarationFault;
use crate::known::Known;
use crate::members::ModuleContext;
use crate::owners::{Owner, fresh_owners, member_numbers};
use crate::parts::own_members;
use crate::tables::enter_parts;
use base::span::Span;
use program::declaration::Module;
use program::program::{ModuleId, Program};
use program::sequence::Sequence;
use scopes::environment::Environment;
use scopes::fault::NameFault;
use scopes::modules::brings::enter_module;
use std::alloc::Global;
use syntax_tree::source::SourceModule;

/// Returns the settings of the pragmas of a module, which is the last of its owners.
fn settings_of_module(context: &ModuleContext<'_>, owners: &[Owner]) -> Settings
    requires { AreOwners (here_of context.now) (blocks_before (here_of context.now) context.now.members.now) owners.now }
    ensures { result ≡ settings_in (blocks_of context.now.members.now (length context.now.members.now)) }
{
    owners[context.members.len()].settings
}

/// Adds the declarations of a module to their tables, the module itself last.
fn own_module(
    context: &ModuleContext<'_>,
    at: Span,
    program: &mut Program,
) -> Result<(), DeclarationFault>
    requires { AreNumbers (here_of context.now) context.now.numbers.now }
    ensures entered { OnOk result (EnteredOf (declarations_from (here_of context.now) 0 context.now.members.now ++ ModuleTree (here_of context.now) at ∷ []) program.old program.new) }
    ensures known { OnOk result (AreKnown (items_behind (here_of context.now) [] context.now.members.now)) }
    ensures unknown { IfErr result (IsFaultAmong (items_behind (here_of context.now) [] context.now.members.now)) }
{
    let mut owners = fresh_owners(context.alloc, context.environment, context.members)?;
    let mut friends = Sequence::new(context.alloc);
    let parts = own_members(context, &mut owners, &mut friends)?;
    let of_module = settings_of_module(context, &owners);
    let owned = enter_parts(program, parts, owners, of_module)?;
    let id = context.environment.own().try_clone(context.alloc)?;
    let resolved = Module {
        span: at,
        friends,
        clauses: owned.clauses,
    };
    let declared = Declared {
        form: DeclaredForm::Module(id, resolved),
    };
    declared.put_into(program)?;
    Ok(())
}

/// Adds the declarations of a module with this address and name to their tables.
fn enter_own(
    alloc: Global,
    environment: &mut Environment,
    known: &Known,
    own: ModuleId,
    tree: &SourceModule,
    program: &mut Program,
) -> Result<(), DeclarationFault>
    ensures within { OnOk result ((k : KnownData) → IsWithin k environment.old → IsWithin k environment.new) }
    ensures entered { OnOk result ((k : KnownData) → IsWithin k environment.old → IsKnown k known.now → EnteredOf (declarations_in k tree.now (Some own)) program.old program.new) }
    ensures known { OnOk result ((k : KnownData) → IsWithin k environment.old → IsKnown k known.now → AreKnown (items_in k tree.now (Some own))) }
    ensures unknown { IfErr result (λ fault. (k : KnownData) → IsWithin k environment.old → IsKnown k known.now → IsFaultAmong (items_in k tree.now (Some own)) fault) }
{
    enter_module(alloc, own, &tree.members, environment)?;
    let numbers = member_numbers(alloc, &tree.members)?;
    let context = ModuleContext {
        alloc,
        environment,
        modules: &known.modules,
        schemas: &known.schemas,
        members: &tree.members,
        numbers: &numbers,
    };
    own_module(&context, tree.span, program)
}

/// Adds the declarations of a module to their tables.
fn enter_tree(
    alloc: Global,
    environment: &mut Environment,
    known: &Known,
    tree: &SourceModule,
    program: &mut Program,
) -> Result<(), DeclarationFault>
    ensures within { OnOk result ((k : KnownData) → IsWithin k environment.old → IsWithin k environment.new) }
    ensures entered { OnOk result ((k : KnownData) → IsWithin k environment.old → IsKnown k known.now → EnteredOf (module_declarations k tree.now) program.old program.new) }
    ensures known { OnOk result ((k : KnownData) → IsWithin k environment.old → IsKnown k known.now → AreKnown (module_items k tree.now)) }
    ensures unknown { IfErr result (λ fault. (k : KnownData) → IsWithin k environment.old → IsKnown k known.now → IsFaultAmong (module_items k tree.now) fault) }
{
    match environment.module_named(alloc, &tree.name) {
        Ok(own) => enter_own(alloc, environment, known, own, tree, program),
        Err(NameFault::Unknown) => Err(DeclarationFault::Unknown(tree.span)),
        Err(NameFault::NoMemory) => Err(DeclarationFault::NoMemory),
    }
}

/// Adds the declarations of a source to their tables.
pub fn enter_source(
    alloc: Global,
    environment: &mut Environment,
    known: &Known,
    trees: &[SourceModule],
    program: &mut Program,
) -> Result<(), DeclarationFault>
    ensures within { OnOk result ((k : KnownData) → IsWithin k environment.old → IsWithin k environment.new) }
    ensures entered { OnOk result ((k : KnownData) → IsWithin k environment.old → IsKnown k known.now → EnteredOf (source_declarations k trees.now) program.old program.new) }
    ensures known { OnOk result ((k : KnownData) → IsWithin k environment.old → IsKnown k known.now → AreKnown (source_items k trees.now)) }
    ensures unknown { IfErr result (λ fault. (k : KnownData) → IsWithin k environment.old → IsKnown k known.now → IsFaultAmong (source_items k trees.now) fault) }
{
    for tree in trees {
        enter_tree(alloc, environment, known, tree, program)?;
    }
    Ok(())
}
