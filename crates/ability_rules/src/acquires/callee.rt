//! Calls of functions.

ghost use Rattle.std.specs.Prelude.{◌≡◌, ◌↔◌, List, IsTrue, IfOk};
ghost use Rattle.std.specs.Map.{lookup};
ghost use Rattle.base.specs.declared.types.StructId.{StructId};
ghost use Rattle.program.specs.Homes.{function_home};
ghost use Rattle.program.specs.Same.{same_function};
ghost use Rattle.ability_rules.specs.Missing.{CalleeLacks, DeclaredLacks, IsSetOf, Tells, has_function};

use crate::acquires::listed::has_missing;
use crate::acquires::look::Look;
use base::memory::NoMemory;
use base::types::{FunctionId, StructId};
use program::home::Home;
use program::program::{ModuleId, Program};
use program::table::Table;
use std::alloc::Global;

fn has_function(set: &Table<FunctionId, ()>, id: &FunctionId) -> bool
    ensures { result ≡ has_function set.now id.now }
{
    set.get(id).is_some()
}

/// Decides whether a function is declared in this module.
fn is_of_module(own: &ModuleId, callee: &FunctionId) -> bool
    ensures { IsTrue result ↔ (function_home callee.now ≡ own.now) }
{
    Home::of_function(callee).is(own)
}

/// Decides whether a declared function lists a struct that is not in the set.
fn declared_lacks(program: &Program, set: &Table<StructId, ()>, callee: &FunctionId) -> bool
    ensures { (listed : List StructId) → IsSetOf set.now listed → IsTrue result ↔ DeclaredLacks listed (lookup (same_function callee.now) program.now.functions) }
{
    match program.functions.get(callee) {
        Some(found) => has_missing(set, found.acquires.as_slice()),
        None => false,
    }
}

/// Decides whether a function of this module lists a struct that is not in the set. The list of each function is
/// examined once.
pub(crate) fn callee_lacks<'a>(
    alloc: Global,
    look: Look<'a>,
    seen: &mut Table<FunctionId, ()>,
    callee: &FunctionId,
) -> Result<bool, NoMemory>
    ensures { IfOk result (Tells look.entry.program.now look.entry.own.now look.entry.listed.now seen.old seen.new (λ listed. CalleeLacks look.entry.program.now look.entry.own.now listed callee.now)) }
{
    let is_own = is_of_module(look.own, callee);
    if !is_own {
        return Ok(false);
    }
    let is_seen = has_function(seen, callee);
    if is_seen {
        return Ok(false);
    }
    let lacks = declared_lacks(look.program, look.listed, callee);
    if lacks {
        return Ok(true);
    }
    let copy = callee.try_clone(alloc)?;
    seen.put(copy, ())?;
    Ok(false)
}
