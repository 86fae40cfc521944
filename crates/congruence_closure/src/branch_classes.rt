//! The congruence classes of the terms of a branch.

pub mod laws;
mod leaves;
mod numbered;
mod walk;

ghost use Rattle.std.specs.Prelude.{◌≡◌, ◌↔◌, ℕ, ◌<◌, List, [], ◌∷◌, ◌++◌, length, Some, nat_eq, IsTrue, IfOk};
ghost use Rattle.indexmap.specs.IndexMap.{get};
ghost use Rattle.term_pool.specs.declared.node.Node.{Node};
ghost use Rattle.congruence_closure.specs.States.{AreClasses};
ghost use Rattle.congruence_closure.specs.Nodes.{AreNodes};
ghost use Rattle.congruence_closure.specs.Numbers.{AreNumbered, AreMadeFor, AreKnownFor, ArePutIn};
ghost use Rattle.congruence_closure.specs.Known.{IsKnown, node_in, class_of, AreKnown, IsOver, AreInEntries, AreExact, Keeps, IsEquated, TellsJoined, TellsAlike};

use crate::branch_classes::numbered::{Numbered, join, nothing};
use crate::branch_classes::walk::node_of;
use crate::classes::link::Link;
use base::memory::NoMemory;
use indexmap::IndexMap;
use std::alloc::Global;
use std::marker::Model;
use term_pool::node::Node;
use term_pool::numbers::look_up;
use term_pool::pool::Pool;

/// The congruence classes of the known terms of a pool under the equations of a branch, and of the known formulas. The
/// entries of the branch are added one by one.
#[derive(Drop)]
pub struct BranchClasses {
    // The nodes of terms and formulas.
    nodes: Numbered,
    // The node of each known number.
    known: IndexMap<usize, usize>,
    // The numbers of the formulas of the entries.
    entries: Vec<usize>,
}

impl Model for BranchClasses {
    ghost use Rattle.std.specs.Prelude.{nat_eq};
    ghost use Rattle.indexmap.specs.IndexMap.{get};
    ghost use Rattle.congruence_closure.specs.Known.{BranchClassesData, AreWithin};

    ghost Value = { BranchClassesData };

    ghost view = { λ c. record { classes = c.nodes.classes; numbers = c.nodes.numbers.items; known = c.known.entries; entries = c.entries.items } };

    ghost invariant = { λ c. AreWithin c.nodes.classes.nodes (get nat_eq c.known) };
}

// Makes an entry known, and joins its sides if it is an equation.
fn equated(
    alloc: Global,
    before: Numbered,
    known: &mut IndexMap<usize, usize>,
    pool: &Pool,
    number: usize,
) -> Result<Numbered, NoMemory>
    requires within { number < length pool.now }
    requires nodes { AreNodes before.classes.nodes }
    requires known { AreKnown pool.now before.classes.nodes [] (get nat_eq known.old) }
    requires numbered { AreNumbered pool.now before.classes.nodes before.numbers.items }
    requires made_for { AreMadeFor pool.now before.classes.nodes before.numbers.items (get nat_eq known.old) }
    ensures equated { IfOk result (λ new. IsEquated pool.now number before.classes new.classes (get nat_eq known.old) (get nat_eq known.new)) }
    ensures numbered { IfOk result (λ new. AreKnownFor pool.now number before.classes.nodes new.classes.nodes before.numbers.items new.numbers.items (get nat_eq known.new)) }
    ensures sides { IfOk result (λ new. ArePutIn pool.now new.classes.nodes new.numbers.items number before.classes.equations new.classes.equations) }
{
    let mut nodes = before;
    node_of(alloc, &mut nodes, known, pool, &[], number)?;
    match pool.sides(number) {
        Some((left, right)) => {
            let left = node_of(alloc, &mut nodes, known, pool, &[], left)?;
            let right = node_of(alloc, &mut nodes, known, pool, &[], right)?;
            join(nodes, left, right)
        }
        None => Ok(nodes),
    }
}

impl BranchClasses {
    /// The classes without entries and known numbers.
    pub fn new(alloc: Global) -> BranchClasses
        ensures over { (pool : List Node) → IsOver pool result }
        ensures inside { (pool : List Node) → AreInEntries pool result }
        ensures known { result.known ≡ [] }
        ensures entries { result.entries ≡ [] }
    {
        BranchClasses {
            nodes: nothing(alloc),
            known: IndexMap::new(alloc),
            entries: Vec::new(alloc),
        }
    }

    /// Makes a term or a formula of the pool known.
    pub fn know(self, alloc: Global, pool: &Pool, number: usize) -> Result<BranchClasses, NoMemory>
        requires over { IsOver pool.now self }
        requires within { number < length pool.now }
        ensures over { IfOk result (λ new. IsOver pool.now new) }
        ensures known { IfOk result (λ new. IsKnown new number) }
        ensures keeps { IfOk result (λ new. Keeps self new) }
        ensures entries { IfOk result (λ new. new.entries ≡ self.entries) }
    {
        let mut nodes = self.nodes;
        let mut known = self.known;
        let entries = self.entries;
        node_of(alloc, &mut nodes, &mut known, pool, &[], number)?;
        Ok(BranchClasses {
            nodes,
            known,
            entries,
        })
    }

    /// Returns the classes with one more entry, whose formula becomes known.
    pub fn with_entry(
        self,
        alloc: Global,
        pool: &Pool,
        number: usize,
    ) -> Result<BranchClasses, NoMemory>
        requires over { IsOver pool.now self }
        requires within { number < length pool.now }
        ensures over { IfOk result (λ new. IsOver pool.now new) }
        ensures known { IfOk result (λ new. IsKnown new number) }
        ensures keeps { IfOk result (λ new. Keeps self new) }
        ensures entries { IfOk result (λ new. new.entries ≡ self.entries ++ number ∷ []) }
        ensures inside { IfOk result (λ new. AreInEntries pool.now self → AreInEntries pool.now new) }
    {
        let mut known = self.known;
        let nodes = equated(alloc, self.nodes, &mut known, pool, number)?;
        let mut entries = self.entries;
        entries.push(number)?;
        Ok(BranchClasses {
            nodes,
            known,
            entries,
        })
    }

    /// Decides whether a number is known.
    pub fn is_known(&self, number: usize) -> bool
        ensures { IsTrue result ↔ IsKnown self.now number }
    {
        look_up(&self.known, number).is_some()
    }

    /// The node of a known number.
    pub fn node(&self, number: usize) -> usize
        requires { IsKnown self.now number }
        ensures found { node_in self.now number ≡ Some result }
        ensures within { result < length self.now.classes.nodes }
    {
        match look_up(&self.known, number) {
            Some(node) => node,
            None => 0,
        }
    }

    /// The representative of the class of a known term or formula: the same number exactly for two terms that are
    /// joined, and for two formulas that are equal up to the classes.
    pub fn class(&self, number: usize) -> usize
        requires { IsKnown self.now number }
        ensures { result ≡ class_of self.now number }
    {
        self.nodes.classes.class(self.node(number))
    }

    /// Decides whether two known terms are joined on the branch of the entries.
    pub fn are_joined(&self, left: usize, right: usize) -> bool
        requires left { IsKnown self.now left }
        requires right { IsKnown self.now right }
        ensures { TellsJoined self.now left right result }
    {
        self.exact();
        self.class(left) == self.class(right)
    }

    /// Decides whether two known formulas are equal up to the classes of the branch of the entries.
    pub fn are_alike(&self, left: usize, right: usize) -> bool
        requires left { IsKnown self.now left }
        requires right { IsKnown self.now right }
        ensures { TellsAlike self.now left right result }
    {
        self.exact();
        self.class(left) == self.class(right)
    }

    /// Two representatives are equal exactly when the terms are joined, or the formulas are equal up to the classes,
    /// on the branch of the entries.
    pub fn exact(&self)
        ensures { AreExact self.now }
    {
        self.nodes.classes.exact();
    }

    /// The nodes of the known terms and formulas, and of the items that occur in them.
    pub fn nodes(&self) -> &[Node]
        ensures { result.now ≡ self.now.classes.nodes }
    {
        self.nodes.classes.nodes()
    }

    /// The edges of the proof forest that joined classes of nodes, in order.
    pub fn links(&self) -> &[Link]
        ensures { result.now ≡ self.now.classes.links }
    {
        self.nodes.classes.links()
    }

    /// The number of the pool for which each node was made.
    pub fn numbers(&self) -> &[usize]
        ensures { result.now ≡ self.now.numbers }
    {
        self.nodes.numbers.as_slice()
    }

    /// The classes of the nodes are exactly the least congruence, and the edges justify them.
    pub fn shown(&self)
        ensures { AreClasses self.now.classes.nodes self.now.classes.equations self.now.classes.names self.now.classes.links }
    {
        self.nodes.classes.exact();
    }
}
