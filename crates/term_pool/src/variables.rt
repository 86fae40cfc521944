//! Decides whether a variable is free in an item of a pool.

ghost use Rattle.std.specs.Prelude.{◌≡◌, ◌<◌, ◌++◌, length, nat_eq, IfOk, OnOk};
ghost use Rattle.std.specs.HashSet.{contains};
ghost use Rattle.term_pool.specs.Pools.{item_at};
ghost use Rattle.term_pool.specs.Free.{free_in_item, is_variable, binds, open_parts, IsVisit};

use crate::node::{Leaf, Node, Two};
use crate::pool::Pool;
use base::memory::NoMemory;
use std::alloc::Global;
use std::collections::HashSet;

// Decides whether a node is the variable.
fn is_variable(node: Node, variable: u32) -> bool
    ensures { result ≡ is_variable variable node }
{
    match node {
        Node::Leaf(Leaf::Var(number)) => variable == number,
        _ => false,
    }
}

// Decides whether a node with this head symbol binds the variable.
fn binds(head: Two, variable: u32) -> bool
    ensures { result ≡ binds variable head }
{
    match head {
        Two::Quantify(_, bound) => variable == bound,
        _ => false,
    }
}

// Adds the parts of a node at the end of the waiting numbers, unless the node binds the variable.
fn wait_for_parts(waiting: &mut Vec<usize>, node: Node, variable: u32) -> Result<(), NoMemory>
    ensures { OnOk result (waiting.new.items ≡ waiting.old.items ++ open_parts variable node) }
{
    match node {
        Node::Leaf(_) => {}
        Node::One(_, a) => {
            waiting.push(a)?;
        }
        Node::Two(head, a, b) => {
            if !binds(head, variable) {
                waiting.push(a)?;
                waiting.push(b)?;
            }
        }
        Node::Three(_, a, b, c) => {
            waiting.push(a)?;
            waiting.push(b)?;
            waiting.push(c)?;
        }
    }
    Ok(())
}

// Decides whether the node with this number is the variable; if not, adds its parts to the waiting numbers, unless it
// was seen before.
fn visit(
    pool: &Pool,
    variable: u32,
    seen: &mut HashSet<usize>,
    waiting: &mut Vec<usize>,
    number: usize,
) -> Result<bool, NoMemory>
    requires { number < length pool.now }
    ensures { IfOk result (IsVisit pool.now variable number (contains nat_eq seen.old) (contains nat_eq seen.new) waiting.old.items waiting.new.items) }
{
    let is_first = seen.insert(number)?;
    if !is_first {
        return Ok(false);
    }
    let Some(node) = pool.node(number) else {
        return Ok(false);
    };
    if is_variable(node, variable) {
        return Ok(true);
    }
    wait_for_parts(waiting, node, variable)?;
    Ok(false)
}

/// Decides whether the variable is free in the item with this number. It takes the time of a walk over the items below
/// it, each of them once.
pub fn is_free(alloc: Global, pool: &Pool, variable: u32, top: usize) -> Result<bool, NoMemory>
    requires { top < length pool.now }
    ensures { IfOk result (λ found. found ≡ free_in_item variable (item_at pool.now top)) }
{
    let mut seen = HashSet::new(alloc);
    let mut waiting = Vec::new(alloc);
    waiting.push(top)?;
    while let Some(number) = waiting.pop() {
        let found = visit(pool, variable, &mut seen, &mut waiting, number)?;
        if found {
            return Ok(true);
        }
    }
    Ok(false)
}
