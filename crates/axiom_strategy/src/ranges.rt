//! Instances of the range axioms, which state which terms are whole numbers of a range.

ghost use Rattle.std.specs.Prelude.{◌≡◌, ◌++◌, map, IfOk, OnOk, MatchOption};
ghost use Rattle.term_pool.specs.Pools.{Extends};
ghost use Rattle.tableau.specs.PoolBranches.{branch_in, IsOver};
ghost use Rattle.tableau.specs.Terms.{AreBranchTerms};
ghost use Rattle.axiom_instances.specs.StructRows.{HasFewFields};
ghost use Rattle.axiom_strategy.specs.Due.{NoAxiom, IsAxiomStep};
ghost use Rattle.axiom_strategy.specs.Askers.{term_asker, typing_asker, range_askers};
ghost use Rattle.axiom_strategy.specs.Known.{AreKnownInstances};

use crate::askers::{Asker, next_triggered};
use crate::due::{AxiomStep, WantedAxioms};
use crate::known::KnownInstances;
use crate::typings::{Typing, typings};
use base::memory::NoMemory;
use fol::shapes::Shapes;
use std::alloc::Global;
use tableau::branch::PoolBranch;
use term_pool::pool::Pool;

// Appends a trigger for each of the terms.
fn add_terms(askers: &mut Vec<Asker>, terms: &[usize]) -> Result<(), NoMemory>
    ensures { OnOk result (askers.new.items ≡ askers.old.items ++ map term_asker terms.now) }
{
    for term in terms {
        askers.push(Asker::Term(*term))?;
    }
    Ok(())
}

// Appends a trigger for each of the types with its term.
fn add_typings(askers: &mut Vec<Asker>, typings: &[Typing]) -> Result<(), NoMemory>
    ensures { OnOk result (askers.new.items ≡ askers.old.items ++ map typing_asker typings.now) }
{
    for typing in typings {
        askers.push(Asker::Typing(typing.of, typing.term))?;
    }
    Ok(())
}

// The triggers by terms, and by types with terms. `NoMemory` if memory runs out.
pub(crate) fn range_askers(
    alloc: Global,
    terms: &[usize],
    typings: &[Typing],
) -> Result<Vec<Asker>, NoMemory>
    ensures { IfOk result (λ askers. askers.items ≡ range_askers terms.now typings.now) }
{
    let mut askers = Vec::new(alloc);
    add_terms(&mut askers, terms)?;
    add_typings(&mut askers, typings)?;
    Ok(askers)
}

/// Returns a due instance of a range axiom; `None` if none is due. `terms` are the numbers of the branch's terms,
/// `known` belongs to the pool or to an earlier state of it, and each struct shape has fewer than 2^32 fields.
/// `NoMemory` if memory runs out.
pub fn next_range_axiom(
    alloc: Global,
    pool: &mut Pool,
    shapes: &Shapes,
    known: &mut KnownInstances,
    branch: &PoolBranch,
    terms: &[usize],
) -> Result<Option<AxiomStep>, NoMemory>
    requires few { HasFewFields shapes.now }
    requires over { IsOver pool.old branch.now }
    requires terms { AreBranchTerms pool.old (branch_in pool.old branch.now) terms.now }
    requires known { AreKnownInstances shapes.now pool.old known.old }
    ensures extends { Extends pool.old pool.new }
    ensures known { OnOk result (AreKnownInstances shapes.now pool.new known.new) }
    ensures due { IfOk result (λ found. MatchOption found (NoAxiom shapes.now (branch_in pool.new branch.now) WantedAxioms.Ranges) (IsAxiomStep pool.new shapes.now (branch_in pool.new branch.now) WantedAxioms.Ranges)) }
{
    pool.one_number();
    let found = typings(alloc, pool, branch)?;
    let askers = range_askers(alloc, terms, found.as_slice())?;
    let wanted = WantedAxioms::Ranges;
    next_triggered(
        alloc,
        pool,
        shapes,
        known,
        branch,
        wanted,
        askers.as_slice(),
        0,
    )
}
