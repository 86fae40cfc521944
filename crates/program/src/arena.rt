//! Trees as one list of nodes, each node after its children.

ghost use Rattle.std.specs.Prelude.{◌≡◌, ◌<◌, ◌++◌, ◌∷◌, [], length, IfOk, OnOk, OnErr, slice_get, Some};
ghost use Rattle.program.specs.Listed.{IsSound, nodes_of, subtrees};
ghost use Rattle.program.specs.Trees.{IsBelow, Stays, Tree, at, tree_of, trees};

use crate::sequence::Sequence;
use base::memory::NoMemory;
use base::span::Span;
use std::alloc::Global;
use std::marker::Model;

/// A node, with the indices of its children. There is a variant for each number of children.
#[derive(Drop)]
pub enum Node<L, U, B, M> {
    Leaf(L),
    Unary(U, usize),
    Binary(B, usize, usize),
    /// A condition and two branches.
    If(usize, usize, usize),
    Many(M, Sequence<usize>),
}

/// Nodes, each after its children and with its span.
#[derive(Drop)]
pub struct Arena<L, U, B, M> {
    nodes: Vec<Node<L, U, B, M>>,
    spans: Vec<Span>,
}

impl<L, U, B, M> Model for Arena<L, U, B, M> {
    ghost use Rattle.std.specs.Prelude.{List, ◌≡◌, length};
    ghost use Rattle.program.specs.Arenas.{ArenaData};
    ghost use Rattle.program.specs.Trees.{AreBelow};

    ghost Value = { ArenaData L U B M };

    ghost view = { λ a. record { nodes = a.nodes.items; spans = a.spans.items } };

    ghost invariant = { λ a. (AreBelow a.nodes.items) × (length a.spans.items ≡ length a.nodes.items) };
}

/// Adds a node and its span at the end. After an error both lists are unchanged.
fn push_both<N: Drop>(
    nodes: &mut Vec<N>,
    spans: &mut Vec<Span>,
    node: N,
    span: Span,
) -> Result<(), NoMemory>
    ensures nodes { OnOk result (nodes.new.items ≡ nodes.old.items ++ node ∷ []) }
    ensures spans { OnOk result (spans.new.items ≡ spans.old.items ++ span ∷ []) }
    ensures err { OnErr result ((nodes.new.items ≡ nodes.old.items) × (spans.new.items ≡ spans.old.items)) }
{
    spans.push(span)?;
    if nodes.push(node).is_err() {
        spans.pop();
        return Err(NoMemory);
    }
    Ok(())
}

impl<L: Drop, U: Drop, B: Drop, M: Drop> Arena<L, U, B, M> {
    /// Returns the empty arena.
    pub fn new(alloc: Global) -> Arena<L, U, B, M>
        ensures nodes { result.nodes ≡ [] }
        ensures spans { result.spans ≡ [] }
    {
        Arena {
            nodes: Vec::new(alloc),
            spans: Vec::new(alloc),
        }
    }

    /// The number of nodes.
    pub fn len(&self) -> usize
        ensures { result ≡ length self.now.nodes }
    {
        self.nodes.len()
    }

    /// Law: each node has a span.
    pub fn has_spans(&self)
        ensures { length self.now.spans ≡ length self.now.nodes }
    {
        let _ = &self.nodes;
    }

    fn stored(&self, index: usize) -> &Node<L, U, B, M>
        requires { index < length self.now.nodes }
        ensures node { slice_get self.now.nodes index ≡ Some result.now }
        ensures below { IsBelow index result.now }
    {
        &self.nodes[index]
    }

    /// Returns the node at an index.
    pub fn node(&self, index: usize) -> &Node<L, U, B, M>
        requires { index < length self.now.nodes }
        ensures node { slice_get self.now.nodes index ≡ Some result.now }
        ensures below { IsBelow index result.now }
        ensures tree { at (trees self.now.nodes) index ≡ tree_of (trees self.now.nodes) result.now }
    {
        self.stored(index)
    }

    /// Adds a node, whose children are in the arena, with its span, and returns its index. After `NoMemory` the nodes
    /// are unchanged.
    pub fn add(&mut self, node: Node<L, U, B, M>, span: Span) -> Result<usize, NoMemory>
        requires { IsBelow (length self.old.nodes) node }
        ensures index { IfOk result (λ index. index ≡ length self.old.nodes) }
        ensures nodes { OnOk result (self.new.nodes ≡ self.old.nodes ++ node ∷ []) }
        ensures trees { OnOk result (trees self.new.nodes ≡ trees self.old.nodes ++ tree_of (trees self.old.nodes) node ∷ []) }
        ensures stays { OnOk result (Stays self.old.nodes self.new.nodes) }
        ensures spans { OnOk result (self.new.spans ≡ self.old.spans ++ span ∷ []) }
        ensures err { OnErr result (self.new ≡ self.old) }
    {
        let index = self.nodes.len();
        push_both(&mut self.nodes, &mut self.spans, node, span)?;
        Ok(index)
    }

    /// Returns the span of the node at an index.
    pub fn span(&self, index: usize) -> Span
        requires { index < length self.now.nodes }
        ensures { slice_get self.now.spans index ≡ Some result }
    {
        self.spans[index]
    }
}

/// A law: the nodes of a tree represent the subtrees and, last, the tree itself. So no list of nodes is that of two
/// trees.
pub fn one_tree<L, U, B, M>()
    ensures trees { (tree : Tree L U B M) → IsSound tree → trees (nodes_of tree) ≡ subtrees tree }
    ensures one { (tree other : Tree L U B M)
        → IsSound tree → IsSound other → nodes_of tree ≡ nodes_of other → tree ≡ other }
{}
