//! The least generations of the terms of a branch.

ghost use Rattle.std.specs.Prelude.{◌≡◌, ℕ, ◌<◌, ◌≤◌, ◌++◌, Some, length, slice_get, OnOk};
ghost use Rattle.term_pool.specs.Pools.{IsMade};
ghost use Rattle.term_pool.specs.declared.node.Node.{Node};
ghost use Rattle.tableau.specs.Logs.{value_in};
ghost use Rattle.tableau.specs.Marks.{outer_parts, is_at_most, IsTurn, IsClosed, IsMarked};

use crate::log::Log;
use base::memory::NoMemory;
use std::alloc::Global;
use term_pool::node::{Node, Three, Two};
use term_pool::pool::Pool;

// Decides whether there is a value that is at most this.
fn is_at_most(value: Option<usize>, most: usize) -> bool
    ensures { result ≡ is_at_most value most }
{
    match value {
        Some(value) => value <= most,
        None => false,
    }
}

// Adds the outer parts of a node at the end of the waiting numbers.
fn wait_for_parts(waiting: &mut Vec<usize>, node: Node) -> Result<(), NoMemory>
    ensures { OnOk result (waiting.new.items ≡ waiting.old.items ++ outer_parts node) }
{
    match node {
        Node::Leaf(_) | Node::Two(Two::Quantify(_, _) | Two::ConsTrigger, _, _) => {}
        Node::One(_, a) | Node::Two(Two::Pack | Two::Field(_) | Two::Is, _, a) => {
            waiting.push(a)?;
        }
        Node::Two(_, a, b) | Node::Three(Three::SetField(_), _, a, b) => {
            waiting.push(a)?;
            waiting.push(b)?;
        }
        Node::Three(_, a, b, c) => {
            waiting.push(a)?;
            waiting.push(b)?;
            waiting.push(c)?;
        }
    }
    Ok(())
}

// Gives a number the value if it has none that is at most as great; its outer parts are then waiting.
fn take_turn(
    pool: &Pool,
    log: &mut Log,
    waiting: &mut Vec<usize>,
    number: usize,
    value: usize,
) -> Result<(), NoMemory>
    requires { number < length pool.now }
    ensures { OnOk result (IsTurn pool.now value number log.old waiting.old.items log.new waiting.new.items) }
{
    if is_at_most(log.value(number), value) {
        return Ok(());
    }
    if let Some(node) = pool.node(number) {
        log.write(pool.len(), number, value)?;
        wait_for_parts(waiting, node)?;
    }
    Ok(())
}

/// Gives the value to each number below the top one outside quantifiers that has none at most as great.
pub(crate) fn mark(
    alloc: Global,
    pool: &Pool,
    log: &mut Log,
    top: usize,
    value: usize,
) -> Result<(), NoMemory>
    requires within { top < length pool.now }
    requires closed { IsClosed pool.now log.old }
    ensures { OnOk result (IsMarked pool.now top value log.old log.new) }
{
    let mut waiting = Vec::new(alloc);
    waiting.push(top)?;
    while let Some(number) = waiting.pop() {
        take_turn(pool, log, &mut waiting, number, value)?;
    }
    Ok(())
}
