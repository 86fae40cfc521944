//! Triggered instances of axioms, by the numbers of a pool.

ghost use Rattle.std.specs.Prelude.{IfOk};
ghost use Rattle.term_pool.specs.Pools.{Extends};
ghost use Rattle.axiom_instances.specs.Lists.{IsReady, AddsMade};

use crate::template::make;
use axioms::axiom::Axiom;
use base::memory::NoMemory;
use std::alloc::Global;
use term_pool::node::Node;
use term_pool::pool::Pool;

/// The numbers of the terms from which an instance is made.
#[derive(Clone, Copy)]
pub enum TriggeredTerms {
    None,
    One(usize),
    Two(usize, usize),
}

/// An instance of an axiom: the number of its formula, and those of the terms from which it is made.
#[derive(Clone, Copy)]
pub struct TriggeredAxiom {
    pub name: Axiom,
    pub terms: TriggeredTerms,
    pub formula: usize,
}

/// A list of instances under construction.
#[derive(Drop)]
pub struct TriggeredList {
    pub alloc: Global,
    pub items: Vec<TriggeredAxiom>,
}

/// An axiom, and the index of its instance among the items of a template.
#[derive(Clone, Copy)]
pub struct Row {
    pub name: Axiom,
    pub position: usize,
}

/// Adds the instances of the rows at the end of the list.
pub fn ask(
    pool: &mut Pool,
    list: &mut TriggeredList,
    terms: TriggeredTerms,
    given: &[usize],
    nodes: &[Node],
    rows: &[Row],
) -> Result<(), NoMemory>
    requires { IsReady pool.old given.now nodes.now rows.now }
    ensures extends { Extends pool.old pool.new }
    ensures adds { IfOk result (λ u. AddsMade pool.old pool.new list.old.items.items list.new.items.items terms given.now nodes.now rows.now) }
{
    let numbers = make(list.alloc, pool, given, nodes)?;
    for row in rows {
        list.items.push(TriggeredAxiom {
            name: row.name,
            terms,
            formula: numbers[row.position],
        })?;
    }
    Ok(())
}
