//! The dependencies between modules: by their `use`s, and by the members of other modules that their declarations name.

ghost use Rattle.std.specs.Prelude.{◌≡◌, ◌++◌, map, IfOk, OnOk};
ghost use Rattle.std.specs.List.{flat_map};
ghost use Rattle.program.specs.Homes.{constant_home, function_home, schema_home, struct_home};
ghost use Rattle.declaration_cycles.specs.Edges.{edge_apart, edges_apart, homes_in_module, member_edges, module_edges, number, own_home, use_edges};
ghost use Rattle.declaration_cycles.specs.Naming.{homes_in_constant, homes_in_function, homes_in_schema, homes_in_spec_function, homes_in_struct};
ghost use Rattle.scopes.specs.MemberNames.{same_module};

use crate::declarations::{
    push_constant, push_function, push_schema, push_spec_function, push_struct,
};
use crate::edges::{Edge, push_edge_apart};
use crate::specifications::push_clauses;
use base::memory::NoMemory;
use program::home::Home;
use program::program::{ModuleId, Program};
use program::sequence::Sequence;
use std::alloc::Global;

/// Returns the index of a module in its table.
fn number_of(alloc: Global, program: &Program, home: &Home<'_>) -> Result<Option<usize>, NoMemory>
    ensures { IfOk result (λ found. found ≡ number same_module program.now.modules home.now) }
{
    let id = home.to_id(alloc)?;
    Ok(program.modules.number(&id))
}

/// Appends edges to other modules.
fn push_apart(
    alloc: Global,
    program: &Program,
    from: Option<usize>,
    homes: &[Home<'_>],
    into: &mut Vec<Edge>,
) -> Result<(), NoMemory>
    ensures { OnOk result (into.new.items ≡ into.old.items ++ edges_apart program.now.modules from homes.now) }
{
    for home in homes {
        push_edge_apart(from, number_of(alloc, program, home)?, into)?;
    }
    Ok(())
}

/// Appends edges from a module to the other modules that its `use`s name.
fn push_used(
    program: &Program,
    from: usize,
    names: &[ModuleId],
    into: &mut Vec<Edge>,
) -> Result<(), NoMemory>
    ensures { OnOk result (into.new.items ≡ into.old.items ++ edges_apart program.now.modules (Some from) names.now) }
{
    for name in names {
        push_edge_apart(Some(from), program.modules.number(name), into)?;
    }
    Ok(())
}

/// Appends the edges given by the `use`s of each module.
fn push_uses(
    program: &Program,
    uses: &[Sequence<ModuleId>],
    into: &mut Vec<Edge>,
) -> Result<(), NoMemory>
    ensures { OnOk result (into.new.items ≡ into.old.items ++ use_edges program.now.modules 0 uses.now) }
{
    for (number, names) in uses.iter().enumerate() {
        push_used(program, number, names.as_slice(), into)?;
    }
    Ok(())
}

/// Appends the edges given by the clauses of modules.
fn push_module_members(
    alloc: Global,
    program: &Program,
    into: &mut Vec<Edge>,
) -> Result<(), NoMemory>
    ensures { OnOk result (into.new.items ≡ into.old.items ++ member_edges program.now.modules own_home homes_in_module program.now.modules) }
{
    for number in 0..program.modules.len() {
        if let Some((id, declaration)) = program.modules.entry(number) {
            let mut homes = Vec::new(alloc);
            push_clauses(alloc, declaration.clauses.as_slice(), &mut homes)?;
            let from = program.modules.number(id);
            push_apart(alloc, program, from, homes.as_slice(), into)?;
        }
    }
    Ok(())
}

/// Appends the edges given by structs.
fn push_struct_members(
    alloc: Global,
    program: &Program,
    into: &mut Vec<Edge>,
) -> Result<(), NoMemory>
    ensures { OnOk result (into.new.items ≡ into.old.items ++ member_edges program.now.modules struct_home homes_in_struct program.now.structs) }
{
    for number in 0..program.structs.len() {
        if let Some((id, declaration)) = program.structs.entry(number) {
            let mut homes = Vec::new(alloc);
            push_struct(alloc, declaration, &mut homes)?;
            let from = number_of(alloc, program, &Home::of_struct(id))?;
            push_apart(alloc, program, from, homes.as_slice(), into)?;
        }
    }
    Ok(())
}

/// Appends the edges given by constants.
fn push_constant_members(
    alloc: Global,
    program: &Program,
    into: &mut Vec<Edge>,
) -> Result<(), NoMemory>
    ensures { OnOk result (into.new.items ≡ into.old.items ++ member_edges program.now.modules constant_home homes_in_constant program.now.constants) }
{
    for number in 0..program.constants.len() {
        if let Some((id, declaration)) = program.constants.entry(number) {
            let mut homes = Vec::new(alloc);
            push_constant(alloc, declaration, &mut homes)?;
            let from = number_of(alloc, program, &Home::of_constant(id))?;
            push_apart(alloc, program, from, homes.as_slice(), into)?;
        }
    }
    Ok(())
}

/// Appends the edges given by functions.
fn push_function_members(
    alloc: Global,
    program: &Program,
    into: &mut Vec<Edge>,
) -> Result<(), NoMemory>
    ensures { OnOk result (into.new.items ≡ into.old.items ++ member_edges program.now.modules function_home homes_in_function program.now.functions) }
{
    for number in 0..program.functions.len() {
        if let Some((id, declaration)) = program.functions.entry(number) {
            let mut homes = Vec::new(alloc);
            push_function(alloc, declaration, &mut homes)?;
            let from = number_of(alloc, program, &Home::of_function(id))?;
            push_apart(alloc, program, from, homes.as_slice(), into)?;
        }
    }
    Ok(())
}

/// Appends the edges given by spec functions.
fn push_spec_function_members(
    alloc: Global,
    program: &Program,
    into: &mut Vec<Edge>,
) -> Result<(), NoMemory>
    ensures { OnOk result (into.new.items ≡ into.old.items ++ member_edges program.now.modules function_home homes_in_spec_function program.now.spec_functions) }
{
    for number in 0..program.spec_functions.len() {
        if let Some((id, declaration)) = program.spec_functions.entry(number) {
            let mut homes = Vec::new(alloc);
            push_spec_function(alloc, declaration, &mut homes)?;
            let from = number_of(alloc, program, &Home::of_function(id))?;
            push_apart(alloc, program, from, homes.as_slice(), into)?;
        }
    }
    Ok(())
}

/// Appends the edges given by schemas.
fn push_schema_members(
    alloc: Global,
    program: &Program,
    into: &mut Vec<Edge>,
) -> Result<(), NoMemory>
    ensures { OnOk result (into.new.items ≡ into.old.items ++ member_edges program.now.modules schema_home homes_in_schema program.now.schemas) }
{
    for number in 0..program.schemas.len() {
        if let Some((id, declaration)) = program.schemas.entry(number) {
            let mut homes = Vec::new(alloc);
            push_schema(alloc, declaration, &mut homes)?;
            let from = number_of(alloc, program, &Home::of_schema(id))?;
            push_apart(alloc, program, from, homes.as_slice(), into)?;
        }
    }
    Ok(())
}

/// Returns the edges from each module to the other modules that its `use`s name or whose members its declarations name.
pub(crate) fn module_edges(
    alloc: Global,
    program: &Program,
    uses: &[Sequence<ModuleId>],
) -> Result<Vec<Edge>, NoMemory>
    ensures { IfOk result (λ edges. edges.items ≡ module_edges program.now uses.now) }
{
    let mut edges = Vec::new(alloc);
    push_uses(program, uses, &mut edges)?;
    push_module_members(alloc, program, &mut edges)?;
    push_struct_members(alloc, program, &mut edges)?;
    push_constant_members(alloc, program, &mut edges)?;
    push_function_members(alloc, program, &mut edges)?;
    push_spec_function_members(alloc, program, &mut edges)?;
    push_schema_members(alloc, program, &mut edges)?;
    Ok(edges)
}
