//! The table of signatures.

ghost use Rattle.std.specs.Prelude.{◌≡◌, ℕ, ◌<◌, Contains, Some, length, slice_index, cond, OnOk};
ghost use Rattle.indexmap.specs.IndexMap.{get};
ghost use Rattle.term_pool.specs.NodeCodes.{same_node};
ghost use Rattle.term_pool.specs.declared.node.Node.{Node};
ghost use Rattle.congruence_closure.specs.Congruence.{IsWithin};
ghost use Rattle.congruence_closure.specs.Signatures.{class_in, signed, AreNamed};
ghost use Rattle.congruence_closure.specs.States.{AreParts, IsHonest, IsLinkedUp, AreEntered, IsUserOf, numbers_at};

use crate::classes::link::{Link, Why};
use crate::classes::lists::Numbers;
use base::memory::NoMemory;
use indexmap::IndexMap;
use term_pool::node::Node;

// The signature of a node: its head symbol with the classes of its parts.
fn signature(classes: &[usize], node: Node) -> Node
    requires { IsWithin (length classes.now) node }
    ensures { result ≡ signed (class_in classes.now) node }
{
    match node {
        Node::Leaf(head) => Node::Leaf(head),
        Node::One(head, a) => Node::One(head, classes[a]),
        Node::Two(head, a, b) => Node::Two(head, classes[a], classes[b]),
        Node::Three(head, a, b, c) => Node::Three(head, classes[a], classes[b], classes[c]),
    }
}

// The number in the table for a signature.
fn look_up(table: &IndexMap<Node, usize>, key: Node) -> Option<usize>
    ensures { result ≡ get same_node table.now key }
{
    match table.get(&key) {
        Some(number) => Some(*number),
        None => None,
    }
}

// Enters a signature in the table.
fn note(table: &mut IndexMap<Node, usize>, key: Node, number: usize) -> Result<(), NoMemory>
    ensures { OnOk result ((q : Node) → get same_node table.new q ≡ cond (same_node key q) (Some number) (get same_node table.old q)) }
{
    table.insert(key, number)?;
    Ok(())
}

// Adds a pending edge between two numbers, if they are not of one class.
fn link(
    classes: &[usize],
    waiting: &mut Vec<Link>,
    left: usize,
    right: usize,
) -> Result<(), NoMemory>
    requires left { left < length classes.now }
    requires right { right < length classes.now }
    ensures { OnOk result (IsLinkedUp (class_in classes.now) waiting.old.items waiting.new.items left right) }
{
    if classes[left] == classes[right] {
        return Ok(());
    }
    let why = Why::Alike;
    waiting.push(Link { left, right, why })?;
    Ok(())
}

/// Enters the signature of a number in the table; if it is there for a number of another class, adds a pending edge to
/// that number.
pub(crate) fn enter(
    nodes: &[Node],
    classes: &[usize],
    table: &mut IndexMap<Node, usize>,
    waiting: &mut Vec<Link>,
    number: usize,
) -> Result<(), NoMemory>
    requires one_each { length classes.now ≡ length nodes.now }
    requires parts { AreParts nodes.now (length nodes.now) }
    requires named { AreNamed (length nodes.now) (class_in classes.now) }
    requires honest { IsHonest nodes.now (class_in classes.now) (get same_node table.old) }
    requires within { number < length nodes.now }
    ensures { OnOk result (AreEntered nodes.now (class_in classes.now) (get same_node table.old) waiting.old.items (get same_node table.new) waiting.new.items (λ i. i ≡ number)) }
{
    let node = nodes[number];
    let key = signature(classes, node);
    match look_up(table, key) {
        Some(holder) => link(classes, waiting, number, holder),
        None => note(table, key, number),
    }
}

// Enters each of these numbers.
fn enter_each(
    nodes: &[Node],
    classes: &[usize],
    table: &mut IndexMap<Node, usize>,
    waiting: &mut Vec<Link>,
    numbers: &[usize],
) -> Result<(), NoMemory>
    requires one_each { length classes.now ≡ length nodes.now }
    requires parts { AreParts nodes.now (length nodes.now) }
    requires named { AreNamed (length nodes.now) (class_in classes.now) }
    requires honest { IsHonest nodes.now (class_in classes.now) (get same_node table.old) }
    requires within { (k : ℕ) → k < length numbers.now → slice_index numbers.now k < length nodes.now }
    ensures { OnOk result (AreEntered nodes.now (class_in classes.now) (get same_node table.old) waiting.old.items (get same_node table.new) waiting.new.items (Contains numbers.now)) }
{
    for number in numbers {
        enter(nodes, classes, table, waiting, *number)?;
    }
    Ok(())
}

/// Enters each node of which one of these numbers is a part.
pub(crate) fn enter_users(
    nodes: &[Node],
    classes: &[usize],
    table: &mut IndexMap<Node, usize>,
    waiting: &mut Vec<Link>,
    users: &[Numbers],
    moved: &[usize],
) -> Result<(), NoMemory>
    requires one_each { length classes.now ≡ length nodes.now }
    requires parts { AreParts nodes.now (length nodes.now) }
    requires named { AreNamed (length nodes.now) (class_in classes.now) }
    requires honest { IsHonest nodes.now (class_in classes.now) (get same_node table.old) }
    requires moved { (k : ℕ) → k < length moved.now → slice_index moved.now k < length users.now }
    requires users { (m k : ℕ) → k < length (numbers_at users.now m) → slice_index (numbers_at users.now m) k < length nodes.now }
    ensures { OnOk result (AreEntered nodes.now (class_in classes.now) (get same_node table.old) waiting.old.items (get same_node table.new) waiting.new.items (IsUserOf users.now moved.now)) }
{
    for number in moved {
        enter_each(nodes, classes, table, waiting, users[*number].as_slice())?;
    }
    Ok(())
}
