//! A pool of nodes without duplicates.

ghost use Rattle.std.specs.Prelude.{◌≡◌, ◌<◌, ◌≤◌, ◌↔◌, [], length, IfOk, IsTrue, MatchOption};
ghost use Rattle.term_pool.specs.Items.{TermSort, FormulaSort, formula_in};
ghost use Rattle.term_pool.specs.Pools.{item_at, item_of, items, HasPart, HasParts, IsMade, IsNowhere, IsOneNumber, Extends};
ghost use Rattle.term_pool.specs.Forms.{IsNoDenial, IsDenialOf, IsNoEquation, IsEquationOf};
ghost use Rattle.term_pool.specs.Depths.{item_depth, counted, leaf_steps, one_steps, two_steps};

use crate::forms::{denied_part, is_formula_node, is_term_node, sides_of};
use crate::node::{Leaf, Node, One, Two};
use base::memory::NoMemory;
use indexmap::IndexMap;
use std::alloc::Global;
use std::marker::Model;

/// The greatest depth of a formula of a search.
pub const MOST_DEPTH: u32 = 2_000;

/// Terms, formulas, types and lists of such, each with a number. The parts of a node are earlier nodes, and no node
/// occurs twice: so equal terms and formulas have one number.
#[derive(Drop)]
pub struct Pool {
    // Each node with its depth; a depth above the greatest counts as one more than the greatest.
    nodes: IndexMap<Node, u32>,
}

impl Model for Pool {
    ghost use Rattle.std.specs.Prelude.{List};
    ghost use Rattle.std.specs.Map.{keys_of, values_of};
    ghost use Rattle.term_pool.specs.declared.node.Node.{Node};
    ghost use Rattle.term_pool.specs.Depths.{IsKept};

    ghost Value = { List Node };

    ghost view = { λ p. keys_of p.nodes.entries };

    ghost invariant = { λ p. IsKept (keys_of p.nodes.entries) (values_of p.nodes.entries) };
}

impl Pool {
    /// A pool without nodes.
    pub fn new(alloc: Global) -> Pool
        ensures { result ≡ [] }
    {
        Pool {
            nodes: IndexMap::new(alloc),
        }
    }

    /// The number of nodes.
    pub fn len(&self) -> usize
        ensures { result ≡ length self.now }
    {
        self.nodes.len()
    }

    /// The node with this number; its parts are earlier nodes. None if there is no such number.
    pub fn node(&self, number: usize) -> Option<Node>
        ensures { MatchOption result (length self.now ≤ number) (IsMade self.now number) }
    {
        match self.nodes.get_index(number) {
            Some((node, _)) => Some(*node),
            None => None,
        }
    }

    /// The number of a node. None if the pool does not have the node.
    pub fn find(&self, node: Node) -> Option<usize>
        ensures { MatchOption result (IsNowhere self.now node) (λ number. IsMade self.now number node) }
    {
        self.nodes.get_index_of(&node)
    }

    /// The depth of the item with this number, where a depth above 2,000 counts as 2,001.
    pub fn depth(&self, number: usize) -> u32
        requires { number < length self.now }
        ensures { result ≡ counted (item_depth (item_at self.now number)) }
    {
        match self.nodes.get_index(number) {
            Some((_, depth)) => *depth,
            None => 0,
        }
    }

    /// Decides whether a number is that of a term.
    pub fn is_term(&self, number: usize) -> bool
        ensures { IsTrue result ↔ HasPart self.now (length self.now) number TermSort }
    {
        match self.node(number) {
            Some(node) => is_term_node(node),
            None => false,
        }
    }

    /// Decides whether a number is that of a formula.
    pub fn is_formula(&self, number: usize) -> bool
        ensures { IsTrue result ↔ HasPart self.now (length self.now) number FormulaSort }
    {
        match self.node(number) {
            Some(node) => is_formula_node(node),
            None => false,
        }
    }

    /// Returns the number of the formula that the formula with this number negates; `None` if it is no negation.
    pub fn denied(&self, formula: usize) -> Option<usize>
        ensures { MatchOption result (IsNoDenial (formula_in (item_at self.now formula))) (IsDenialOf self.now formula) }
    {
        match self.node(formula) {
            Some(node) => denied_part(node),
            None => None,
        }
    }

    /// Returns the numbers of the sides of the equation with this number; `None` if the formula is no equation.
    pub fn sides(&self, formula: usize) -> Option<(usize, usize)>
        ensures { MatchOption result (IsNoEquation (formula_in (item_at self.now formula))) (IsEquationOf self.now formula) }
    {
        match self.node(formula) {
            Some(node) => sides_of(node),
            None => None,
        }
    }

    /// Returns the number of a node, and adds the node if the pool does not have it.
    pub fn insert(&mut self, node: Node) -> Result<usize, NoMemory>
        requires { HasParts self.old (length self.old) node }
        ensures extends { Extends self.old self.new }
        ensures is { IfOk result (λ number. IsMade self.new number node) }
    {
        match self.find(node) {
            Some(number) => Ok(number),
            None => self.add(node),
        }
    }

    // Adds a node at the end.
    fn add(&mut self, node: Node) -> Result<usize, NoMemory>
        requires parts { HasParts self.old (length self.old) node }
        requires nowhere { IsNowhere self.old node }
        ensures extends { Extends self.old self.new }
        ensures is { IfOk result (λ number. IsMade self.new number node) }
    {
        let number = self.nodes.len();
        let depth = self.node_depth(node);
        self.nodes.insert(node, depth)?;
        Ok(number)
    }

    // The depth of the item of a node.
    fn node_depth(&self, node: Node) -> u32
        requires { HasParts self.now (length self.now) node }
        ensures { result ≡ counted (item_depth (item_of (items self.now) node)) }
    {
        let deep = match node {
            Node::Leaf(head) => leaf_steps(head),
            Node::One(head, a) => one_steps(head) + self.depth(a),
            Node::Two(head, a, b) => two_steps(head) + self.depth(a).max(self.depth(b)),
            Node::Three(_, a, b, c) => { 1 + self.depth(a).max(self.depth(b)).max(self.depth(c)) }
        };
        deep.min(MOST_DEPTH + 1)
    }

    /// Two different numbers have different items.
    pub fn one_number(&self)
        ensures { IsOneNumber self.now }
    {
        let _nodes = &self.nodes;
    }
}

fn leaf_steps(head: Leaf) -> u32
    ensures { result ≡ leaf_steps head }
{
    match head {
        Leaf::NilTerms | Leaf::NilTriggers | Leaf::NilFormulas | Leaf::NilTypes | Leaf::NilBytes =>
            0,
        _ => 1,
    }
}

fn one_steps(head: One) -> u32
    ensures { result ≡ one_steps head }
{
    match head {
        One::ConsByte(_) => 0,
        _ => 1,
    }
}

fn two_steps(head: Two) -> u32
    ensures { result ≡ two_steps head }
{
    match head {
        Two::ConsTerm | Two::ConsTrigger | Two::ConsFormula | Two::ConsType => 0,
        _ => 1,
    }
}
