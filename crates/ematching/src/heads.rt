//! An index of the nodes of a pool by head symbol.

ghost use Rattle.std.specs.Prelude.{◌≡◌, List, None, slice_index_or, OnOk, IfOk};
ghost use Rattle.term_pool.specs.declared.node.Node.{Node};
ghost use Rattle.ematching.specs.Heads.{head_of, last_of, HasHead, IsIndex, IsIndexOf, IsIndexedMore};
ghost use Rattle.ematching.specs.Listed.{AreThose, IsSomeIndex};

use base::memory::NoMemory;
use std::alloc::Global;
use std::collections::HashMap;
use term_pool::node::{Node, Two};
use term_pool::pool::Pool;

/// The nodes of a pool, each linked to the previous one with the same head symbol. It is extended with the pool, and
/// remains valid when a branch is left. After an `Err` it must not be used.
#[derive(Drop)]
pub struct HeadIndex {
    // The last node with each head symbol.
    last: HashMap<Node, usize>,
    // By number, the previous node with the same head symbol.
    before: Vec<Option<usize>>,
}

// The head symbol of a node: the node with 0 for its parts, except for the type in a typing of a term.
pub(crate) fn head_of(node: Node) -> Node
    ensures { result ≡ head_of node }
{
    match node {
        Node::Leaf(head) => Node::Leaf(head),
        Node::One(head, _) => Node::One(head, 0),
        Node::Two(Two::Is, a, _) => Node::Two(Two::Is, a, 0),
        Node::Two(head, _, _) => Node::Two(head, 0, 0),
        Node::Three(head, _, _, _) => Node::Three(head, 0, 0, 0),
    }
}

impl HeadIndex {
    /// Returns the index of a pool without nodes, which is also that of the empty prefix of any other pool.
    pub fn new(alloc: Global) -> HeadIndex
        ensures { (ns : List Node) → IsIndex ns result }
    {
        HeadIndex {
            last: HashMap::new(alloc),
            before: Vec::new(alloc),
        }
    }

    // The nodes with the head symbol, the last one first.
    pub(crate) fn with_head(&self, alloc: Global, head: Node) -> Result<Vec<usize>, NoMemory>
        requires { IsSomeIndex self.now }
        ensures { IfOk result (λ numbers. (ns : List Node) → IsIndexOf ns self.now → AreThose (HasHead ns head) numbers.items) }
    {
        let mut numbers = Vec::new(alloc);
        let mut next = self.last(head);
        while let Some(number) = next {
            numbers.push(number)?;
            next = self.previous(number);
        }
        Ok(numbers)
    }

    // The last node with the head symbol.
    fn last(&self, head: Node) -> Option<usize>
        ensures { result ≡ last_of self.now head }
    {
        match self.last.get(&head) {
            Some(number) => Some(*number),
            None => None,
        }
    }

    // The previous node with the same head symbol as the one with this number.
    fn previous(&self, number: usize) -> Option<usize>
        ensures { result ≡ slice_index_or self.now.before.items number None }
    {
        match self.before.get(number) {
            Some(before) => *before,
            None => None,
        }
    }

    fn add(&mut self, node: Node) -> Result<(), NoMemory>
        ensures { OnOk result (IsIndexedMore node self.old self.new) }
    {
        let number = self.before.len();
        let head = head_of(node);
        let before = self.last(head);
        self.before.push(before)?;
        self.last.insert(head, number)?;
        Ok(())
    }

    /// Indexes the nodes that were added to the pool.
    pub fn grow(&mut self, pool: &Pool) -> Result<(), NoMemory>
        requires { IsIndex pool.now self.old }
        ensures { OnOk result (IsIndexOf pool.now self.new) }
    {
        while let Some(node) = pool.node(self.before.len()) {
            self.add(node)?;
        }
        Ok(())
    }
}
