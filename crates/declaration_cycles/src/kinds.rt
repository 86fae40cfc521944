//! The dependencies of structs, spec functions and schemas on others of their kind.

ghost use Rattle.std.specs.Prelude.{◌≡◌, ◌++◌, map, IfOk, OnOk};
ghost use Rattle.std.specs.List.{flat_map};
ghost use Rattle.declaration_cycles.specs.Edges.{edge, edges_to, number, schema_edges, spec_function_edges, struct_edges};
ghost use Rattle.program.specs.Same.{same_function, same_schema, same_struct};
ghost use Rattle.declaration_cycles.specs.Naming.{called_in_many, called_in_node, functions_called, included_by, included_in, schemas_included, structs_of_fields};

use crate::edges::{Edge, push_edge};
use crate::types::{Structs, push_structs_of_fields};
use base::memory::NoMemory;
use base::types::StructId;
use program::arena::Node;
use program::clause::{Clause, ClauseForm};
use program::declaration::{SpecFunction, Struct};
use program::program::Program;
use program::spec::{SpecBinary, SpecBody, SpecCallee, SpecLeaf, SpecMany, SpecUnary};
use std::alloc::Global;

/// Appends edges to structs.
fn push_structs_led_to(
    program: &Program,
    from: Option<usize>,
    structs: &[&StructId],
    into: &mut Vec<Edge>,
) -> Result<(), NoMemory>
    ensures { OnOk result (into.new.items ≡ into.old.items ++ flat_map (λ id. edge from (number same_struct program.now.structs id)) (map (λ id. id.now) structs.now)) }
{
    for id in structs {
        push_edge(from, program.structs.number(id), into)?;
    }
    Ok(())
}

/// Appends edges from a struct to those in the types of its fields.
fn push_struct_edges(
    alloc: Global,
    program: &Program,
    id: &StructId,
    declaration: &Struct,
    into: &mut Vec<Edge>,
) -> Result<(), NoMemory>
    ensures { OnOk result (into.new.items ≡ into.old.items ++ edges_to same_struct program.now.structs id.now (structs_of_fields declaration.now)) }
{
    let mut structs = Structs::new(alloc);
    push_structs_of_fields(declaration.fields.as_slice(), &mut structs)?;
    let from = program.structs.number(id);
    push_structs_led_to(program, from, structs.as_slice(), into)
}

/// Returns the edges from each struct to those in the types of its fields.
pub(crate) fn struct_edges(alloc: Global, program: &Program) -> Result<Vec<Edge>, NoMemory>
    ensures { IfOk result (λ edges. edges.items ≡ struct_edges program.now) }
{
    let mut edges = Vec::new(alloc);
    for number in 0..program.structs.len() {
        if let Some((id, declaration)) = program.structs.entry(number) {
            push_struct_edges(alloc, program, id, declaration, &mut edges)?;
        }
    }
    Ok(edges)
}

/// Appends an edge to the spec function that a node calls.
fn push_called(
    program: &Program,
    from: Option<usize>,
    node: &Node<SpecLeaf, SpecUnary, SpecBinary, SpecMany>,
    into: &mut Vec<Edge>,
) -> Result<(), NoMemory>
    ensures { OnOk result (into.new.items ≡ into.old.items ++ flat_map (λ id. edge from (number same_function program.now.spec_functions id)) (called_in_node node.now)) }
{
    if let Node::Many(form, _) = node {
        push_called_in_form(program, from, form, into)?;
    }
    Ok(())
}

fn push_called_in_form(
    program: &Program,
    from: Option<usize>,
    form: &SpecMany,
    into: &mut Vec<Edge>,
) -> Result<(), NoMemory>
    ensures { OnOk result (into.new.items ≡ into.old.items ++ flat_map (λ id. edge from (number same_function program.now.spec_functions id)) (called_in_many form.now)) }
{
    if let SpecMany::Call(call) = form {
        if let SpecCallee::Function(id) = &call.get().callee {
            push_edge(from, program.spec_functions.number(id), into)?;
        }
    }
    Ok(())
}

/// Appends edges to the spec functions that nodes call.
fn push_all_called(
    program: &Program,
    from: Option<usize>,
    body: &SpecBody,
    into: &mut Vec<Edge>,
) -> Result<(), NoMemory>
    ensures { OnOk result (into.new.items ≡ into.old.items ++ flat_map (λ id. edge from (number same_function program.now.spec_functions id)) (flat_map called_in_node body.now.nodes)) }
{
    for index in 0..body.len() {
        push_called(program, from, body.node(index), into)?;
    }
    Ok(())
}

/// Returns the edges from each spec function to those that it calls.
pub(crate) fn spec_function_edges(alloc: Global, program: &Program) -> Result<Vec<Edge>, NoMemory>
    ensures { IfOk result (λ edges. edges.items ≡ spec_function_edges program.now) }
{
    let mut edges = Vec::new(alloc);
    for number in 0..program.spec_functions.len() {
        if let Some((id, declaration)) = program.spec_functions.entry(number) {
            let from = program.spec_functions.number(id);
            push_all_called(program, from, &declaration.body, &mut edges)?;
        }
    }
    Ok(edges)
}

/// Appends an edge to the schema that a clause includes.
fn push_included_by(
    program: &Program,
    from: Option<usize>,
    form: &ClauseForm,
    into: &mut Vec<Edge>,
) -> Result<(), NoMemory>
    ensures { OnOk result (into.new.items ≡ into.old.items ++ flat_map (λ id. edge from (number same_schema program.now.schemas id)) (included_by form.now)) }
{
    if let ClauseForm::Include { schema, .. } = form {
        push_edge(from, program.schemas.number(schema), into)?;
    }
    Ok(())
}

/// Appends edges to the schemas that clauses include.
fn push_included(
    program: &Program,
    from: Option<usize>,
    clauses: &[Clause],
    into: &mut Vec<Edge>,
) -> Result<(), NoMemory>
    ensures { OnOk result (into.new.items ≡ into.old.items ++ flat_map (λ id. edge from (number same_schema program.now.schemas id)) (flat_map included_in clauses.now)) }
{
    for clause in clauses {
        push_included_by(program, from, &clause.form, into)?;
    }
    Ok(())
}

/// Returns the edges from each schema to those that it includes.
pub(crate) fn schema_edges(alloc: Global, program: &Program) -> Result<Vec<Edge>, NoMemory>
    ensures { IfOk result (λ edges. edges.items ≡ schema_edges program.now) }
{
    let mut edges = Vec::new(alloc);
    for number in 0..program.schemas.len() {
        if let Some((id, declaration)) = program.schemas.entry(number) {
            let from = program.schemas.number(id);
            push_included(program, from, declaration.clauses.as_slice(), &mut edges)?;
        }
    }
    Ok(edges)
}
