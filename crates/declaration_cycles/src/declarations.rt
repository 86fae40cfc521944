//! The modules whose members declarations name.

ghost use Rattle.std.specs.Prelude.{◌≡◌, ◌++◌, map, OnOk};
ghost use Rattle.program.specs.Homes.{struct_home};
ghost use Rattle.declaration_cycles.specs.Naming.{homes_in_constant, homes_in_function, homes_in_schema, homes_in_spec_function, homes_in_struct};

use crate::code::push_code;
use crate::specifications::{push_clauses, push_loops, push_spec};
use crate::types::{push_homes, push_homes_of_names};
use base::memory::NoMemory;
use base::types::StructId;
use program::declaration::{Constant, Function, Schema, SpecFunction, Struct};
use program::home::Home;
use std::alloc::Global;

/// Appends the modules whose members a struct names.
pub(crate) fn push_struct<'a>(
    alloc: Global,
    declaration: &'a Struct,
    into: &mut Vec<Home<'a>>,
) -> Result<(), NoMemory>
    ensures { OnOk result (into.new.items ≡ into.old.items ++ homes_in_struct declaration.now) }
{
    push_homes_of_names(alloc, declaration.fields.as_slice(), into)?;
    push_clauses(alloc, declaration.clauses.as_slice(), into)
}

/// Appends the modules whose members a constant names.
pub(crate) fn push_constant<'a>(
    alloc: Global,
    declaration: &'a Constant,
    into: &mut Vec<Home<'a>>,
) -> Result<(), NoMemory>
    ensures { OnOk result (into.new.items ≡ into.old.items ++ homes_in_constant declaration.now) }
{
    push_homes(alloc, &declaration.annotation, into)?;
    push_code(alloc, &declaration.value, into)
}

fn push_acquired<'a>(structs: &'a [StructId], into: &mut Vec<Home<'a>>) -> Result<(), NoMemory>
    ensures { OnOk result (into.new.items ≡ into.old.items ++ map struct_home structs.now) }
{
    for id in structs {
        into.push(Home::of_struct(id))?;
    }
    Ok(())
}

/// Appends the modules whose members a function names.
pub(crate) fn push_function<'a>(
    alloc: Global,
    declaration: &'a Function,
    into: &mut Vec<Home<'a>>,
) -> Result<(), NoMemory>
    ensures { OnOk result (into.new.items ≡ into.old.items ++ homes_in_function declaration.now) }
{
    push_homes_of_names(alloc, declaration.parameters.as_slice(), into)?;
    push_homes(alloc, &declaration.result, into)?;
    push_acquired(declaration.acquires.as_slice(), into)?;
    push_code(alloc, &declaration.body, into)?;
    push_clauses(alloc, declaration.clauses.as_slice(), into)?;
    push_loops(alloc, declaration.loop_clauses.as_slice(), into)
}

/// Appends the modules whose members a spec function names.
pub(crate) fn push_spec_function<'a>(
    alloc: Global,
    declaration: &'a SpecFunction,
    into: &mut Vec<Home<'a>>,
) -> Result<(), NoMemory>
    ensures { OnOk result (into.new.items ≡ into.old.items ++ homes_in_spec_function declaration.now) }
{
    push_homes_of_names(alloc, declaration.parameters.as_slice(), into)?;
    push_homes(alloc, &declaration.result, into)?;
    push_spec(alloc, &declaration.body, into)
}

/// Appends the modules whose members a schema names.
pub(crate) fn push_schema<'a>(
    alloc: Global,
    declaration: &'a Schema,
    into: &mut Vec<Home<'a>>,
) -> Result<(), NoMemory>
    ensures { OnOk result (into.new.items ≡ into.old.items ++ homes_in_schema declaration.now) }
{
    push_homes_of_names(alloc, declaration.variables.as_slice(), into)?;
    push_clauses(alloc, declaration.clauses.as_slice(), into)
}
