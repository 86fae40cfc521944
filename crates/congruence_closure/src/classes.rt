//! The congruence classes of nodes.

pub mod link;
mod lists;
mod state;
mod table;

ghost use Rattle.std.specs.Prelude.{◌≡◌, ◌↔◌, ℕ, ◌<◌, [], ◌∷◌, ◌++◌, Some, length, slice_get, IsTrue, IfOk};
ghost use Rattle.term_pool.specs.declared.node.Node.{Node};
ghost use Rattle.congruence_closure.specs.Congruence.{Congruent, IsWithin};
ghost use Rattle.congruence_closure.specs.Signatures.{class_in};
ghost use Rattle.congruence_closure.specs.declared.classes.link.Equation.{Equation};
ghost use Rattle.congruence_closure.specs.States.{AreClasses};

use crate::classes::link::{Equation, Link};
use crate::classes::state::State;
use base::memory::NoMemory;
use std::alloc::Global;
use std::marker::Model;
use term_pool::node::Node;

/// Nodes and equations between them, by number, with the classes of the least congruence that contains the equations,
/// and with the edges of a proof forest, which justify the classes.
#[derive(Drop)]
pub struct Classes {
    state: State,
}

impl Model for Classes {
    ghost use Rattle.term_pool.specs.NodeCodes.{same_node};
    ghost use Rattle.indexmap.specs.IndexMap.{get};
    ghost use Rattle.std.specs.Prelude.{◌≡◌, []};
    ghost use Rattle.congruence_closure.specs.States.{IsKept, ClassesData};

    ghost Value = { ClassesData };

    ghost view = { λ c. record { nodes = c.state.nodes.items; equations = c.state.equations.items; names = c.state.classes.items; links = c.state.links.items } };

    ghost invariant = { λ c. (c.state.waiting.items ≡ []) × IsKept c.state.nodes.items c.state.equations.items c.state.classes.items c.state.members.items c.state.users.items (get same_node c.state.table) c.state.links.items c.state.waiting.items };
}

impl Classes {
    /// The classes without nodes and equations.
    pub fn new(alloc: Global) -> Classes
        ensures nodes { result.nodes ≡ [] }
        ensures equations { result.equations ≡ [] }
    {
        Classes {
            state: State::new(alloc),
        }
    }

    /// The classes of these nodes and equations. The parts of each node must have smaller numbers, and the sides of
    /// each equation must be numbers of nodes.
    pub fn of(alloc: Global, nodes: &[Node], equations: &[Equation]) -> Result<Classes, NoMemory>
        requires parts { (k : ℕ) (n : Node) → slice_get nodes.now k ≡ Some n → IsWithin k n }
        requires left { (k : ℕ) (e : Equation) → slice_get equations.now k ≡ Some e → e.left < length nodes.now }
        requires right { (k : ℕ) (e : Equation) → slice_get equations.now k ≡ Some e → e.right < length nodes.now }
        ensures nodes { IfOk result (λ classes. classes.nodes ≡ nodes.now) }
        ensures equations { IfOk result (λ classes. classes.equations ≡ equations.now) }
    {
        let mut classes = Classes::new(alloc);
        for node in nodes {
            classes = classes.with_node(*node)?;
        }
        for equation in equations {
            classes = classes.with_equation(equation.left, equation.right)?;
        }
        Ok(classes)
    }

    /// Returns the classes with one more node, which has the next number; its parts must be numbers of nodes.
    pub fn with_node(self, node: Node) -> Result<Classes, NoMemory>
        requires { IsWithin (length self.nodes) node }
        ensures nodes { IfOk result (λ new. new.nodes ≡ self.nodes ++ node ∷ []) }
        ensures equations { IfOk result (λ new. new.equations ≡ self.equations) }
    {
        let mut state = self.state;
        state.add_node(node)?;
        state.settle()?;
        Ok(Classes { state })
    }

    /// Returns the classes with one more equation, whose sides must be numbers of nodes.
    pub fn with_equation(self, left: usize, right: usize) -> Result<Classes, NoMemory>
        requires left { left < length self.nodes }
        requires right { right < length self.nodes }
        ensures nodes { IfOk result (λ new. new.nodes ≡ self.nodes) }
        ensures equations { IfOk result (λ new. new.equations ≡ self.equations ++ record { left = left; right = right } ∷ []) }
    {
        let mut state = self.state;
        state.add_equation(left, right)?;
        state.settle()?;
        Ok(Classes { state })
    }

    /// The nodes, by number.
    pub fn nodes(&self) -> &[Node]
        ensures { result.now ≡ self.now.nodes }
    {
        self.state.nodes.as_slice()
    }

    /// The number of nodes.
    pub fn len(&self) -> usize
        ensures { result ≡ length self.now.nodes }
    {
        self.state.nodes.len()
    }

    /// The representative of the class of a number: a number of the class, the same one for each of them.
    pub fn class(&self, number: usize) -> usize
        requires { number < length self.now.nodes }
        ensures { result ≡ class_in self.now.names number }
    {
        self.state.classes[number]
    }

    /// Decides whether two numbers are of one class.
    pub fn are_joined(&self, left: usize, right: usize) -> bool
        requires left { left < length self.now.nodes }
        requires right { right < length self.now.nodes }
        ensures { IsTrue result ↔ Congruent self.now.nodes self.now.equations left right }
    {
        self.exact();
        self.class(left) == self.class(right)
    }

    /// The edges of the proof forest, in order. Numbers are of one class exactly when edges connect them; each edge is
    /// an equation, or joins nodes with equal head symbols whose parts are connected by the edges before it.
    pub fn links(&self) -> &[Link]
        ensures { result.now ≡ self.now.links }
    {
        self.state.links.as_slice()
    }

    /// The classes are exactly the least congruence, and the edges justify them.
    pub fn exact(&self)
        ensures { AreClasses self.now.nodes self.now.equations self.now.names self.now.links }
    {
        let _state = &self.state;
    }
}
