//! Items by templates: nodes over some given items.

ghost use Rattle.std.specs.Prelude.{◌≡◌, IfOk};
ghost use Rattle.term_pool.specs.Pools.{Extends, items_from};
ghost use Rattle.axiom_instances.specs.Templates.{Fits, AreItems, AreWithin, items_at, renumbered};

use base::memory::NoMemory;
use std::alloc::Global;
use term_pool::node::Node;
use term_pool::pool::Pool;

// The node with its parts renumbered.
fn renumber(numbers: &[usize], node: Node) -> Node
    requires { AreWithin numbers.now node }
    ensures { result ≡ renumbered numbers.now node }
{
    match node {
        Node::Leaf(head) => Node::Leaf(head),
        Node::One(head, a) => Node::One(head, numbers[a]),
        Node::Two(head, a, b) => Node::Two(head, numbers[a], numbers[b]),
        Node::Three(head, a, b, c) => Node::Three(head, numbers[a], numbers[b], numbers[c]),
    }
}

/// Returns the given numbers and, after them, those of the items of the nodes. A part of a node is given by its index
/// among these.
pub(crate) fn make(
    alloc: Global,
    pool: &mut Pool,
    given: &[usize],
    nodes: &[Node],
) -> Result<Vec<usize>, NoMemory>
    requires { Fits pool.old given.now nodes.now }
    ensures extends { Extends pool.old pool.new }
    ensures are { IfOk result (λ numbers. AreItems pool.new numbers.items (items_from (items_at pool.old given.now) nodes.now)) }
{
    let mut numbers = Vec::from_slice(alloc, given)?;
    for node in nodes {
        let placed = renumber(&numbers, *node);
        numbers.push(pool.insert(placed)?)?;
    }
    Ok(numbers)
}
