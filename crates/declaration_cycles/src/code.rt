//! The modules whose members occur in code.

ghost use Rattle.std.specs.Prelude.{◌≡◌, ◌++◌, OnOk};
ghost use Rattle.declaration_cycles.specs.Naming.{homes_in_binary, homes_in_callee, homes_in_code, homes_in_leaf, homes_in_many, homes_in_node, homes_in_unary};

use crate::types::{push_homes, push_homes_all, push_homes_maybe, push_homes_of_fields};
use base::memory::NoMemory;
use program::arena::Node;
use program::code::{Body, Callee, CodeBinary, CodeLeaf, CodeMany, CodeUnary};
use program::home::Home;
use std::alloc::Global;

fn push_leaf<'a>(leaf: &'a CodeLeaf, into: &mut Vec<Home<'a>>) -> Result<(), NoMemory>
    ensures { OnOk result (into.new.items ≡ into.old.items ++ homes_in_leaf leaf.now) }
{
    if let CodeLeaf::Constant(id) = leaf {
        into.push(Home::of_constant(id.get()))?;
    }
    Ok(())
}

fn push_unary<'a>(
    alloc: Global,
    form: &'a CodeUnary,
    into: &mut Vec<Home<'a>>,
) -> Result<(), NoMemory>
    ensures { OnOk result (into.new.items ≡ into.old.items ++ homes_in_unary form.now) }
{
    match form {
        CodeUnary::Cast(term) => push_homes(alloc, term.get(), into),
        CodeUnary::Declare(term) => push_homes_maybe(alloc, term, into),
        _ => Ok(()),
    }
}

fn push_binary<'a>(
    alloc: Global,
    form: &'a CodeBinary,
    into: &mut Vec<Home<'a>>,
) -> Result<(), NoMemory>
    ensures { OnOk result (into.new.items ≡ into.old.items ++ homes_in_binary form.now) }
{
    match form {
        CodeBinary::Let(term) => push_homes_maybe(alloc, term, into),
        _ => Ok(()),
    }
}

fn push_callee<'a>(callee: &'a Callee, into: &mut Vec<Home<'a>>) -> Result<(), NoMemory>
    ensures { OnOk result (into.new.items ≡ into.old.items ++ homes_in_callee callee.now) }
{
    if let Callee::Function(id) = callee {
        into.push(Home::of_function(id))?;
    }
    Ok(())
}

fn push_many<'a>(
    alloc: Global,
    form: &'a CodeMany,
    into: &mut Vec<Home<'a>>,
) -> Result<(), NoMemory>
    ensures { OnOk result (into.new.items ≡ into.old.items ++ homes_in_many form.now) }
{
    match form {
        CodeMany::Call(call) => {
            let call = call.get();
            push_callee(&call.callee, into)?;
            push_homes_all(alloc, &call.types, into)
        }
        CodeMany::Vector(types) => push_homes_all(alloc, types, into),
        CodeMany::Pack(fields) => push_homes_of_fields(alloc, fields.get(), into),
        CodeMany::Unpack(fields) => push_homes_of_fields(alloc, fields.get(), into),
        _ => Ok(()),
    }
}

fn push_node<'a>(
    alloc: Global,
    node: &'a Node<CodeLeaf, CodeUnary, CodeBinary, CodeMany>,
    into: &mut Vec<Home<'a>>,
) -> Result<(), NoMemory>
    ensures { OnOk result (into.new.items ≡ into.old.items ++ homes_in_node node.now) }
{
    match node {
        Node::Leaf(leaf) => push_leaf(leaf, into),
        Node::Unary(form, _) => push_unary(alloc, form, into),
        Node::Binary(form, _, _) => push_binary(alloc, form, into),
        Node::Many(form, _) => push_many(alloc, form, into),
        Node::If(_, _, _) => Ok(()),
    }
}

/// Appends the modules whose members occur in code.
pub(crate) fn push_code<'a>(
    alloc: Global,
    body: &'a Body,
    into: &mut Vec<Home<'a>>,
) -> Result<(), NoMemory>
    ensures { OnOk result (into.new.items ≡ into.old.items ++ homes_in_code body.now.nodes) }
{
    for index in 0..body.len() {
        push_node(alloc, body.node(index), into)?;
    }
    Ok(())
}
