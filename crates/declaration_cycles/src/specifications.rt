//! The modules whose members occur in specifications, and the spec functions and schemas that they use.

ghost use Rattle.std.specs.Prelude.{◌≡◌, ◌++◌, OnOk};
ghost use Rattle.std.specs.List.{flat_map};
ghost use Rattle.declaration_cycles.specs.Naming.{homes_in_clause, homes_in_clauses, homes_in_domain, homes_in_form, homes_in_loops, homes_in_spec, homes_in_spec_callee, homes_in_spec_leaf, homes_in_spec_many, homes_in_spec_node};

use crate::types::{push_homes, push_homes_all, push_homes_of_fields};
use base::memory::NoMemory;
use program::arena::Node;
use program::clause::{Clause, ClauseForm, LoopClause};
use program::home::Home;
use program::spec::{
    Bind, Domain, SpecBinary, SpecBody, SpecCallee, SpecLeaf, SpecMany, SpecUnary,
};
use std::alloc::Global;

fn push_leaf<'a>(leaf: &'a SpecLeaf, into: &mut Vec<Home<'a>>) -> Result<(), NoMemory>
    ensures { OnOk result (into.new.items ≡ into.old.items ++ homes_in_spec_leaf leaf.now) }
{
    if let SpecLeaf::Constant(id) = leaf {
        into.push(Home::of_constant(id.get()))?;
    }
    Ok(())
}

fn push_callee<'a>(callee: &'a SpecCallee, into: &mut Vec<Home<'a>>) -> Result<(), NoMemory>
    ensures { OnOk result (into.new.items ≡ into.old.items ++ homes_in_spec_callee callee.now) }
{
    if let SpecCallee::Function(id) = callee {
        into.push(Home::of_function(id))?;
    }
    Ok(())
}

fn push_binds<'a>(
    alloc: Global,
    binds: &'a [Bind],
    into: &mut Vec<Home<'a>>,
) -> Result<(), NoMemory>
    ensures { OnOk result (into.new.items ≡ into.old.items ++ flat_map (λ b. homes_in_domain b.domain) binds.now) }
{
    for bind in binds {
        if let Domain::Of(term) = &bind.domain {
            push_homes(alloc, term, into)?;
        }
    }
    Ok(())
}

fn push_many<'a>(
    alloc: Global,
    form: &'a SpecMany,
    into: &mut Vec<Home<'a>>,
) -> Result<(), NoMemory>
    ensures { OnOk result (into.new.items ≡ into.old.items ++ homes_in_spec_many form.now) }
{
    match form {
        SpecMany::Call(call) => {
            let call = call.get();
            push_callee(&call.callee, into)?;
            push_homes_all(alloc, &call.types, into)
        }
        SpecMany::Pack(fields) => push_homes_of_fields(alloc, fields.get(), into),
        SpecMany::Quantified { binds, .. } => push_binds(alloc, binds.as_slice(), into),
    }
}

fn push_node<'a>(
    alloc: Global,
    node: &'a Node<SpecLeaf, SpecUnary, SpecBinary, SpecMany>,
    into: &mut Vec<Home<'a>>,
) -> Result<(), NoMemory>
    ensures { OnOk result (into.new.items ≡ into.old.items ++ homes_in_spec_node node.now) }
{
    match node {
        Node::Leaf(leaf) => push_leaf(leaf, into),
        Node::Many(form, _) => push_many(alloc, form, into),
        _ => Ok(()),
    }
}

/// Appends the modules whose members occur in spec expressions.
pub(crate) fn push_spec<'a>(
    alloc: Global,
    body: &'a SpecBody,
    into: &mut Vec<Home<'a>>,
) -> Result<(), NoMemory>
    ensures { OnOk result (into.new.items ≡ into.old.items ++ homes_in_spec body.now.nodes) }
{
    for index in 0..body.len() {
        push_node(alloc, body.node(index), into)?;
    }
    Ok(())
}

fn push_form<'a>(
    alloc: Global,
    form: &'a ClauseForm,
    into: &mut Vec<Home<'a>>,
) -> Result<(), NoMemory>
    ensures { OnOk result (into.new.items ≡ into.old.items ++ homes_in_form form.now) }
{
    match form {
        ClauseForm::Include { schema, types, .. } => {
            into.push(Home::of_schema(schema))?;
            push_homes_all(alloc, types, into)
        }
        _ => Ok(()),
    }
}

fn push_clause<'a>(
    alloc: Global,
    clause: &'a Clause,
    into: &mut Vec<Home<'a>>,
) -> Result<(), NoMemory>
    ensures { OnOk result (into.new.items ≡ into.old.items ++ homes_in_clause clause.now) }
{
    push_form(alloc, &clause.form, into)?;
    push_spec(alloc, &clause.body, into)
}

/// Appends the modules whose members occur in clauses.
pub(crate) fn push_clauses<'a>(
    alloc: Global,
    clauses: &'a [Clause],
    into: &mut Vec<Home<'a>>,
) -> Result<(), NoMemory>
    ensures { OnOk result (into.new.items ≡ into.old.items ++ homes_in_clauses clauses.now) }
{
    for clause in clauses {
        push_clause(alloc, clause, into)?;
    }
    Ok(())
}

/// Appends the modules whose members occur in clauses of loops.
pub(crate) fn push_loops<'a>(
    alloc: Global,
    clauses: &'a [LoopClause],
    into: &mut Vec<Home<'a>>,
) -> Result<(), NoMemory>
    ensures { OnOk result (into.new.items ≡ into.old.items ++ homes_in_loops clauses.now) }
{
    for clause in clauses {
        push_clause(alloc, &clause.clause, into)?;
    }
    Ok(())
}
