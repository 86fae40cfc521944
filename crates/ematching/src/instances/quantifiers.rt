//! The quantifier-free items of a pool.

ghost use Rattle.std.specs.Prelude.{◌≡◌, Bool, List, ◌<◌, ◌≤◌, ◌&&◌, length, OnOk, IfOk, MatchOption};
ghost use Rattle.term_pool.specs.Pools.{item_at, Extends};
ghost use Rattle.term_pool.specs.declared.node.Node.{Node};
ghost use Rattle.ematching.specs.QuantifierFree.{quantifier_free_item, is_plain, AreFree, IsNextFree};

use base::memory::NoMemory;
use std::alloc::Global;
use std::marker::Model;
use term_pool::node::{Node, Two};
use term_pool::pool::Pool;

/// For each node of a pool whether its item is quantifier-free. It visits each node once, on demand; the pool may be
/// extended. After an `Err` it must not be used.
#[derive(Drop)]
pub struct QuantifierFree {
    // By number.
    nodes: Vec<bool>,
}

impl Model for QuantifierFree {
    ghost use Rattle.std.specs.Prelude.{List, Bool};

    ghost Value = { List Bool };

    ghost view = { λ q. q.nodes.items };
}

// Decides whether the node is not a quantifier.
fn is_plain(node: Node) -> bool
    ensures { result ≡ is_plain node }
{
    match node {
        Node::Two(Two::Quantify(_, _), _, _) => false,
        _ => true,
    }
}

fn both(left: bool, right: bool) -> bool
    ensures { result ≡ left && right }
{
    left && right
}

// Whether the item of the first node that was not visited is quantifier-free.
fn next_free(pool: &Pool, nodes: &[bool]) -> Option<bool>
    requires { AreFree pool.now nodes.now }
    ensures { MatchOption result (length pool.now ≤ length nodes.now) (IsNextFree pool.now nodes.now) }
{
    let Some(node) = pool.node(nodes.len()) else {
        return None;
    };
    let own = is_plain(node);
    match node {
        Node::Leaf(_) => Some(true),
        Node::One(_, a) => Some(nodes[a]),
        Node::Two(_, a, b) => Some(both(own, both(nodes[a], nodes[b]))),
        Node::Three(_, a, b, c) => Some(both(nodes[a], both(nodes[b], nodes[c]))),
    }
}

// Visits the nodes that were added.
fn look_at_nodes(pool: &Pool, nodes: &mut Vec<bool>) -> Result<(), NoMemory>
    requires { AreFree pool.now nodes.old.items }
    ensures free { OnOk result (AreFree pool.now nodes.new.items) }
    ensures all { OnOk result (length pool.now ≤ length nodes.new.items) }
{
    while let Some(free) = next_free(pool, nodes.as_slice()) {
        nodes.push(free)?;
    }
    Ok(())
}

fn look(pool: &Pool, nodes: &mut Vec<bool>, number: usize) -> Result<bool, NoMemory>
    requires free { AreFree pool.now nodes.old.items }
    requires number { number < length pool.now }
    ensures free { OnOk result (AreFree pool.now nodes.new.items) }
    ensures is { IfOk result (λ free. free ≡ quantifier_free_item (item_at pool.now number)) }
{
    look_at_nodes(pool, nodes)?;
    Ok(nodes[number])
}

impl QuantifierFree {
    /// Returns the data before any node was visited.
    pub fn new(alloc: Global) -> QuantifierFree
        ensures { (ns : List Node) → AreFree ns result }
    {
        QuantifierFree {
            nodes: Vec::new(alloc),
        }
    }

    /// Decides whether the item with this number is quantifier-free.
    pub fn is_free(&mut self, pool: &Pool, number: usize) -> Result<bool, NoMemory>
        requires free { AreFree pool.now self.old }
        requires number { number < length pool.now }
        ensures free { OnOk result (AreFree pool.now self.new) }
        ensures is { IfOk result (λ free. free ≡ quantifier_free_item (item_at pool.now number)) }
    {
        look(pool, &mut self.nodes, number)
    }
}

/// The data of a pool remains valid for each pool that extends it.
pub fn quantifiers_stay()
    ensures { (ns ms : List Node) (xs : List Bool) → Extends ns ms → AreFree ns xs → AreFree ms xs }
{}
