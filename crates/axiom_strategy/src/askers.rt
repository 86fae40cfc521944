//! Triggers of axiom instances, and the first applicable instance.

ghost use Rattle.std.specs.Prelude.{length, IfOk, OnOk, MatchOption};
ghost use Rattle.term_pool.specs.Pools.{Extends};
ghost use Rattle.tableau.specs.PoolBranches.{branch_in, IsOver};
ghost use Rattle.axiom_instances.specs.Lists.{ListsAll};
ghost use Rattle.axiom_instances.specs.StructRows.{HasFewFields};
ghost use Rattle.axiom_strategy.specs.Due.{NoneDue, IsDueStep, AsksOfSome};
ghost use Rattle.axiom_strategy.specs.Askers.{IsAsker, AreAskers, asks_of, asks_at};
ghost use Rattle.axiom_strategy.specs.Known.{AreKnownInstances};

use crate::due::{AxiomStep, WantedAxioms, first_due};
use crate::known::KnownInstances;
use axiom_instances::instances::{
    always_triggered, axioms_of_item, axioms_of_read, axioms_of_type, axioms_of_type_beside,
};
use axiom_instances::struct_axioms::terms::axioms_of_term;
use axiom_instances::struct_axioms::types::axioms_of_typed_term;
use axiom_instances::triggered::TriggeredAxiom;
use axiom_instances::vector_axioms::vectors::axioms_of_vectors;
use base::memory::NoMemory;
use fol::shapes::Shapes;
use std::alloc::Global;
use tableau::branch::PoolBranch;
use term_pool::pool::Pool;

/// A trigger of axiom instances, by the numbers of its types and terms.
#[derive(Clone, Copy, PartialEq, Eq, Hash)]
pub enum Asker {
    /// The trigger that is on every branch.
    Always,
    /// A term.
    Term(usize),
    /// A type and a term, where an entry states that the term has the type, or negates this.
    Typing(usize, usize),
    /// A type that an entry gives to some term, or denies it.
    TypeAlone(usize),
    /// Such a type, and a term.
    Beside(usize, usize),
    /// A memory or a vector, and a key or an index at which it is read, or at which the one it was made of is read.
    Read(usize, usize),
    /// A type, a vector that an entry gives the type or denies it, and an index at which the vector is read.
    Item(usize, usize, usize),
    /// A type, and two vectors that entries give the type or deny it, and that an entry states to differ.
    Vectors(usize, usize, usize),
}

/// Returns the instances that a trigger triggers. `NoMemory` if memory runs out.
pub(crate) fn instances_of(
    alloc: Global,
    pool: &mut Pool,
    shapes: &Shapes,
    asker: Asker,
) -> Result<Vec<TriggeredAxiom>, NoMemory>
    requires few { HasFewFields shapes.now }
    requires asker { IsAsker pool.old asker }
    ensures extends { Extends pool.old pool.new }
    ensures all { IfOk result (λ found. ListsAll pool.new found.items (asks_of shapes.now pool.old asker)) }
{
    match asker {
        Asker::Always => always_triggered(alloc, pool),
        Asker::Term(term) => axioms_of_term(alloc, pool, shapes, term),
        Asker::Typing(of, term) => axioms_of_typed_term(alloc, pool, shapes, of, term),
        Asker::TypeAlone(of) => axioms_of_type(alloc, pool, of),
        Asker::Beside(of, term) => axioms_of_type_beside(alloc, pool, of, term),
        Asker::Read(term, key) => axioms_of_read(alloc, pool, term, key),
        Asker::Item(of, vector, position) => axioms_of_item(alloc, pool, of, vector, position),
        Asker::Vectors(of, vector, other) => axioms_of_vectors(alloc, pool, of, vector, other),
    }
}

// An instance that the trigger triggers and that is wanted and due; `None` if there is none.
pub(crate) fn next_of(
    alloc: Global,
    pool: &mut Pool,
    shapes: &Shapes,
    known: &mut KnownInstances,
    branch: &PoolBranch,
    wanted: WantedAxioms,
    asker: Asker,
) -> Result<Option<AxiomStep>, NoMemory>
    requires few { HasFewFields shapes.now }
    requires over { IsOver pool.old branch.now }
    requires asker { IsAsker pool.old asker }
    requires known { AreKnownInstances shapes.now pool.old known.old }
    ensures extends { Extends pool.old pool.new }
    ensures known { OnOk result (AreKnownInstances shapes.now pool.new known.new) }
    ensures due { IfOk result (λ found. MatchOption found (NoneDue (branch_in pool.old branch.now) wanted (asks_of shapes.now pool.old asker)) (IsDueStep pool.new (branch_in pool.old branch.now) wanted (asks_of shapes.now pool.old asker))) }
{
    let position = known.position_of(alloc, pool, shapes, asker)?;
    Ok(first_due(pool, branch, wanted, known.list(position)))
}

/// Returns the first instance that one of these triggers triggers and that is wanted and due; `None` if there is none.
/// The search starts at the index `from`; no trigger before it may have a wanted instance that is due. `known` belongs
/// to the pool, or to an earlier state of it, and each struct shape has fewer than 2^32 fields. `NoMemory` if memory
/// runs out.
pub fn next_triggered(
    alloc: Global,
    pool: &mut Pool,
    shapes: &Shapes,
    known: &mut KnownInstances,
    branch: &PoolBranch,
    wanted: WantedAxioms,
    askers: &[Asker],
    from: usize,
) -> Result<Option<AxiomStep>, NoMemory>
    requires few { HasFewFields shapes.now }
    requires over { IsOver pool.old branch.now }
    requires askers { AreAskers pool.old askers.now }
    requires known { AreKnownInstances shapes.now pool.old known.old }
    requires before { NoneDue (branch_in pool.old branch.now) wanted (AsksOfSome from (asks_at shapes.now pool.old askers.now)) }
    ensures extends { Extends pool.old pool.new }
    ensures known { OnOk result (AreKnownInstances shapes.now pool.new known.new) }
    ensures due { IfOk result (λ found. MatchOption found (NoneDue (branch_in pool.old branch.now) wanted (AsksOfSome (length askers.now) (asks_at shapes.now pool.old askers.now))) (IsDueStep pool.new (branch_in pool.old branch.now) wanted (AsksOfSome (length askers.now) (asks_at shapes.now pool.old askers.now)))) }
{
    for i in from..askers.len() {
        let asker = askers[i];
        if let Some(step) = next_of(alloc, pool, shapes, known, branch, wanted, asker)? {
            return Ok(Some(step));
        }
    }
    Ok(None)
}
