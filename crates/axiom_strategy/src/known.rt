//! A cache of the instances of each trigger.

ghost use Rattle.std.specs.Prelude.{◌≡◌, List, IfOk, OnOk};
ghost use Rattle.fol.specs.declared.shapes.Shape.{Shape};
ghost use Rattle.term_pool.specs.Pools.{Extends};
ghost use Rattle.term_pool.specs.declared.node.Node.{Node};
ghost use Rattle.axiom_instances.specs.declared.triggered.TriggeredAxiom.{TriggeredAxiom};
ghost use Rattle.axiom_instances.specs.Lists.{ListsAll};
ghost use Rattle.axiom_instances.specs.StructRows.{HasFewFields};
ghost use Rattle.axiom_strategy.specs.declared.askers.Asker.{Asker};
ghost use Rattle.axiom_strategy.specs.Askers.{IsAsker, asks_of};
ghost use Rattle.axiom_strategy.specs.Known.{AreKnownInstances, list_at};

use crate::askers::{Asker, instances_of};
use axiom_instances::triggered::TriggeredAxiom;
use base::memory::NoMemory;
use fol::shapes::Shapes;
use indexmap::IndexMap;
use std::alloc::Global;
use std::marker::Model;
use term_pool::pool::Pool;

// The instances that one trigger triggers.
#[derive(Drop)]
struct Instances {
    items: Vec<TriggeredAxiom>,
}

impl Model for Instances {
    ghost use Rattle.std.specs.Prelude.{List};
    ghost use Rattle.axiom_instances.specs.declared.triggered.TriggeredAxiom.{TriggeredAxiom};

    ghost Value = { List TriggeredAxiom };

    ghost view = { λ i. i.items.items };
}

impl Instances {
    fn as_slice(&self) -> &[TriggeredAxiom]
        ensures { result.now ≡ self.now }
    {
        self.items.as_slice()
    }
}

/// For each trigger used so far over a pool, the instances that it triggers. They are computed once, at its first use:
/// numbers stay valid when the pool is extended. After an `Err` the cache must not be used.
#[derive(Drop)]
pub struct KnownInstances {
    lists: IndexMap<Asker, Instances>,
}

impl Model for KnownInstances {
    ghost use Rattle.std.specs.Prelude.{List};
    ghost use Rattle.axiom_instances.specs.declared.triggered.TriggeredAxiom.{TriggeredAxiom};
    ghost use Rattle.axiom_strategy.specs.declared.askers.Asker.{Asker};

    ghost Value = { List (Asker × List TriggeredAxiom) };

    ghost view = { λ k. k.lists.entries };
}

impl KnownInstances {
    /// The empty cache, which is right for any pool and any struct shapes.
    pub fn new(alloc: Global) -> KnownInstances
        ensures { (shapes : List Shape) (ns : List Node) → AreKnownInstances shapes ns result }
    {
        KnownInstances {
            lists: IndexMap::new(alloc),
        }
    }

    /// Returns the index of the list of the instances that this trigger triggers; they are computed if it is new. The
    /// cache belongs to the pool, or to an earlier state of it, and to these struct shapes, each of which has fewer
    /// than 2^32 fields.
    ///
    /// # Errors
    ///
    /// Only if memory runs out.
    pub fn position_of(
        &mut self,
        alloc: Global,
        pool: &mut Pool,
        shapes: &Shapes,
        asker: Asker,
    ) -> Result<usize, NoMemory>
        requires few { HasFewFields shapes.now }
        requires asker { IsAsker pool.old asker }
        requires known { AreKnownInstances shapes.now pool.old self.old }
        ensures extends { Extends pool.old pool.new }
        ensures known { OnOk result (AreKnownInstances shapes.now pool.new self.new) }
        ensures all { IfOk result (λ position. ListsAll pool.new (list_at self.new position) (asks_of shapes.now pool.old asker)) }
    {
        if let Some(position) = self.lists.get_index_of(&asker) {
            return Ok(position);
        }
        let items = instances_of(alloc, pool, shapes, asker)?;
        let position = self.lists.len();
        self.lists.insert(asker, Instances { items })?;
        Ok(position)
    }

    /// The list at an index; the empty list for an index past the end.
    pub fn list(&self, position: usize) -> &[TriggeredAxiom]
        ensures { result.now ≡ list_at self.now position }
    {
        match self.lists.get_index(position) {
            Some((_, list)) => list.as_slice(),
            None => &[],
        }
    }
}

/// A cache that is right for a pool is right for each extension of that pool.
pub fn instances_stay()
    ensures { (shapes : List Shape) (ns ms : List Node) (kept : List (Asker × List TriggeredAxiom)) → Extends ns ms → AreKnownInstances shapes ns kept → AreKnownInstances shapes ms kept }
{}
