//! The tables of a program, and additions to them.

ghost use Rattle.std.specs.Prelude.{◌≡◌, ℕ, length, IfOk, OnOk};
ghost use Rattle.syntax_tree.specs.SourceData.{SourceMemberData};
ghost use Rattle.resolution.specs.Items.{Here};
ghost use Rattle.resolution.specs.Owners.{blocks_of, module_scope, owner_scope, settings_in};
ghost use Rattle.resolution.specs.OwnersSoFar.{AreOwners, IsOwnerAfter, blocks_before};
ghost use Rattle.resolution.specs.Parts.{ArePartsFrom, EnteredOf, IsPartOf, function_with, struct_with};
ghost use Rattle.resolution.specs.Programs.{AreClausesOfOwner, declarations_from, form_declaration};

use crate::clauses::Target;
use crate::clauses::pragmas::Settings;
use crate::declared::Declared;
use crate::owners::Owner;
use base::memory::NoMemory;
use program::clause::Clause;
use program::declaration::{Function, Pragmas, Struct};
use program::program::Program;
use program::sequence::Sequence;

/// The clauses of an owner, and the settings of its pragmas.
#[derive(Drop)]
pub struct Owned {
    pub clauses: Sequence<Clause>,
    pub settings: Settings,
}

/// Returns the clauses of an owner, and the settings of its pragmas.
pub fn take_owned(owner: Owner) -> Owned
    ensures clauses { result.clauses ≡ owner.target.clauses }
    ensures settings { result.settings ≡ owner.settings }
{
    let Owner {
        parameters,
        target,
        settings,
    } = owner;
    drop(parameters);
    let Target { outer, clauses } = target;
    drop(outer);
    Owned { clauses, settings }
}

/// Returns a struct with its clauses.
pub fn struct_with(resolved: Struct, clauses: Sequence<Clause>) -> Struct
    ensures { result ≡ struct_with resolved clauses }
{
    let Struct {
        span,
        type_parameters,
        abilities,
        fields,
        clauses: none,
    } = resolved;
    drop(none);
    Struct {
        span,
        type_parameters,
        abilities,
        fields,
        clauses,
    }
}

/// Returns a function with its pragmas and its clauses.
pub fn function_with(resolved: Function, pragmas: Pragmas, clauses: Sequence<Clause>) -> Function
    ensures { result ≡ function_with resolved pragmas clauses }
{
    let Function {
        span,
        visibility,
        type_parameters,
        parameters,
        result: outcome,
        acquires,
        locals,
        body,
        pragmas: _,
        clauses: none,
        loop_clauses,
    } = resolved;
    drop(none);
    Function {
        span,
        visibility,
        type_parameters,
        parameters,
        result: outcome,
        acquires,
        locals,
        body,
        pragmas,
        clauses,
        loop_clauses,
    }
}

/// Adds the declaration of a member to its table, with the clauses of its owner.
fn enter_part(
    program: &mut Program,
    part: Option<Declared>,
    owner: Owner,
    of_module: Settings,
) -> Result<(), NoMemory>
    ensures { OnOk result ((w : Here) (n : ℕ) (m : SourceMemberData) → IsPartOf w n m part → IsOwnerAfter (owner_scope w.environment w.schemas m.form) (blocks_of w.members n) owner → of_module ≡ settings_in (blocks_of w.members (length w.members)) → EnteredOf (form_declaration w n m.form m.loops) program.old program.new) }
{
    let owned = take_owned(owner);
    match part {
        None => {
            drop(owned);
            Ok(())
        }
        Some(declared) => {
            let whole = declared.finished(owned, of_module);
            whole.put_into(program)?;
            Ok(())
        }
    }
}

/// Adds the declarations of the members of a module to their tables, each with the clauses of its owner. Returns the
/// owner for the module itself, which is the last of the owners.
pub fn enter_parts(
    program: &mut Program,
    parts: Vec<Option<Declared>>,
    owners: Vec<Owner>,
    of_module: Settings,
) -> Result<Owned, NoMemory>
    ensures entered { OnOk result ((w : Here) → ArePartsFrom w 0 w.members parts.items → AreOwners w (blocks_before w w.members) owners.items → of_module ≡ settings_in (blocks_of w.members (length w.members)) → EnteredOf (declarations_from w 0 w.members) program.old program.new) }
    ensures last { IfOk result (λ owned. (w : Here) → ArePartsFrom w 0 w.members parts.items → AreOwners w (blocks_before w w.members) owners.items → of_module ≡ settings_in (blocks_of w.members (length w.members)) → AreClausesOfOwner w (module_scope w.environment w.schemas) (length w.members) owned.clauses) }
{
    let mut rest = owners.into_iter();
    for part in parts {
        match rest.next() {
            Some(owner) => enter_part(program, part, owner, of_module)?,
            None => return Err(NoMemory),
        }
    }
    match rest.next() {
        Some(owner) => Ok(take_owned(owner)),
        None => Err(NoMemory),
    }
}
