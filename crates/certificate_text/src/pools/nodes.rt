//! Copies of the nodes of a pool in another one, where they have new numbers.

ghost use Rattle.std.specs.Prelude.{◌≡◌, true, length, IfOk};
ghost use Rattle.term_pool.specs.Pools.{HasParts, IsMade, Extends};
ghost use Rattle.certificate_text.specs.Marks.{AreInside};
ghost use Rattle.certificate_text.specs.Nodes.{new_number, node_anew, AreNumbers};

use base::memory::NoMemory;
use std::alloc::Global;
use term_pool::node::Node;
use term_pool::pool::Pool;

/// The new number, 0 if there is none.
pub(crate) fn new_number(numbers: &[usize], number: usize) -> usize
    ensures { result ≡ new_number numbers.now number }
{
    match numbers.get(number) {
        Some(new) => *new,
        None => 0,
    }
}

fn node_anew(numbers: &[usize], node: Node) -> Node
    ensures { result ≡ node_anew numbers.now node }
{
    match node {
        Node::Leaf(head) => Node::Leaf(head),
        Node::One(head, a) => Node::One(head, new_number(numbers, a)),
        Node::Two(head, a, b) => { Node::Two(head, new_number(numbers, a), new_number(numbers, b)) }
        Node::Three(head, a, b, c) => {
            let (a, b) = (new_number(numbers, a), new_number(numbers, b));
            Node::Three(head, a, b, new_number(numbers, c))
        }
    }
}

// Inserts the copy of a node and returns its new number, or returns 0 if the node is not marked.
fn copy_node(
    made: &mut Pool,
    node: Node,
    marked: bool,
    numbers: &[usize],
) -> Result<usize, NoMemory>
    requires { marked ≡ true → HasParts made.old (length made.old) (node_anew numbers.now node) }
    ensures extends { Extends made.old made.new }
    ensures is { IfOk result (λ number. marked ≡ true → IsMade made.new number (node_anew numbers.now node)) }
{
    if !marked {
        return Ok(0);
    }
    made.insert(node_anew(numbers, node))
}

/// Returns a pool of the marked nodes, and for each old number the new one.
pub(crate) fn copy_marked(
    alloc: Global,
    pool: &Pool,
    marks: &[bool],
) -> Result<(Pool, Vec<usize>), NoMemory>
    requires len { length marks.now ≡ length pool.now }
    requires inside { AreInside pool.now 0 marks.now }
    ensures numbers { IfOk result (λ made. AreNumbers pool.now made.0 marks.now made.1.items) }
    ensures len { IfOk result (λ made. length made.1.items ≡ length pool.now) }
{
    let mut made = Pool::new(alloc);
    let mut numbers = Vec::new(alloc);
    while let Some(node) = pool.node(numbers.len()) {
        let marked = marks[numbers.len()];
        let number = copy_node(&mut made, node, marked, numbers.as_slice())?;
        numbers.push(number)?;
    }
    Ok((made, numbers))
}
