//! Instances of all axioms of the table.

ghost use Rattle.std.specs.Prelude.{length, IfOk, OnOk, MatchOption};
ghost use Rattle.term_pool.specs.Pools.{Extends};
ghost use Rattle.tableau.specs.PoolBranches.{branch_in, IsOver};
ghost use Rattle.tableau.specs.Terms.{AreBranchTerms, AreClassesOf};
ghost use Rattle.axiom_instances.specs.StructRows.{HasFewFields};
ghost use Rattle.axiom_strategy.specs.Due.{NoAxiom, IsAxiomStep};
ghost use Rattle.axiom_strategy.specs.Typings.{AreTypings};
ghost use Rattle.axiom_strategy.specs.Beside.{AreTypeAskers};
ghost use Rattle.axiom_strategy.specs.Families.{AskAll, AsksOfReads, AsksOfItems, AsksOfPairs, HasVariable, AskEverything};
ghost use Rattle.axiom_strategy.specs.Reads.{IsReadIndex};
ghost use Rattle.axiom_strategy.specs.Next.{AddsList, AddsLists};
ghost use Rattle.axiom_strategy.specs.Known.{AreKnownInstances};

use crate::askers::{Asker, next_triggered};
use crate::beside::type_askers;
use crate::due::{AxiomStep, WantedAxioms};
use crate::known::KnownInstances;
use crate::ranges::range_askers;
use crate::reads::{ReadIndex, item_askers, read_askers, read_index};
use crate::typings::{Typing, typings};
use crate::vectors::vector_askers;
use base::memory::NoMemory;
use congruence_closure::branch_classes::BranchClasses;
use fol::shapes::Shapes;
use std::alloc::Global;
use tableau::branch::PoolBranch;
use term_pool::pool::Pool;

// Appends the trigger that is on every branch and the triggers by types.
fn add_by_types(
    alloc: Global,
    askers: &mut Vec<Asker>,
    pool: &Pool,
    terms: &[usize],
    typings: &[Typing],
) -> Result<(), NoMemory>
    ensures { OnOk result (AddsList askers.old.items askers.new.items (AreTypeAskers pool.now terms.now typings.now)) }
{
    let found = type_askers(alloc, pool, terms, typings)?;
    askers.extend_from_slice(found.as_slice())?;
    Ok(())
}

// Appends the triggers by reads of what is made of another memory or vector.
fn add_by_reads(
    alloc: Global,
    askers: &mut Vec<Asker>,
    pool: &Pool,
    branch: &PoolBranch,
    classes: &BranchClasses,
    index: &ReadIndex,
    terms: &[usize],
) -> Result<(), NoMemory>
    requires over { IsOver pool.now branch.now }
    requires classes { AreClassesOf pool.now branch.now classes.now }
    requires index { IsReadIndex pool.now (branch_in pool.now branch.now) classes.now index.now }
    requires terms { AreBranchTerms pool.now (branch_in pool.now branch.now) terms.now }
    ensures { OnOk result (AddsList askers.old.items askers.new.items (λ more. AskAll pool.now (branch_in pool.now branch.now) more (AsksOfReads (branch_in pool.now branch.now)))) }
{
    let found = read_askers(alloc, pool, branch, classes, index, terms)?;
    askers.extend_from_slice(found.as_slice())?;
    Ok(())
}

// Appends the triggers by vectors that are read.
fn add_by_items(
    alloc: Global,
    askers: &mut Vec<Asker>,
    pool: &Pool,
    branch: &PoolBranch,
    classes: &BranchClasses,
    index: &ReadIndex,
    typings: &[Typing],
) -> Result<(), NoMemory>
    requires over { IsOver pool.now branch.now }
    requires classes { AreClassesOf pool.now branch.now classes.now }
    requires index { IsReadIndex pool.now (branch_in pool.now branch.now) classes.now index.now }
    requires typings { AreTypings pool.now (branch_in pool.now branch.now) (length branch.now.entries) typings.now }
    ensures { OnOk result (AddsList askers.old.items askers.new.items (λ more. AskAll pool.now (branch_in pool.now branch.now) more (AsksOfItems (branch_in pool.now branch.now)))) }
{
    let found = item_askers(alloc, pool, branch, classes, index, typings)?;
    askers.extend_from_slice(found.as_slice())?;
    Ok(())
}

// Appends the triggers by vectors stated to differ.
fn add_by_vectors(
    alloc: Global,
    askers: &mut Vec<Asker>,
    pool: &Pool,
    branch: &PoolBranch,
    typings: &[Typing],
) -> Result<(), NoMemory>
    requires over { IsOver pool.now branch.now }
    requires typings { AreTypings pool.now (branch_in pool.now branch.now) (length branch.now.entries) typings.now }
    ensures { OnOk result (AddsList askers.old.items askers.new.items (λ more. AskAll pool.now (branch_in pool.now branch.now) more (AsksOfPairs (branch_in pool.now branch.now)))) }
{
    let found = vector_askers(alloc, pool, branch, typings)?;
    askers.extend_from_slice(found.as_slice())?;
    Ok(())
}

// Appends the triggers by all reads.
fn add_by_index(
    alloc: Global,
    askers: &mut Vec<Asker>,
    pool: &Pool,
    branch: &PoolBranch,
    classes: &BranchClasses,
    terms: &[usize],
    typings: &[Typing],
) -> Result<(), NoMemory>
    requires over { IsOver pool.now branch.now }
    requires classes { AreClassesOf pool.now branch.now classes.now }
    requires terms { AreBranchTerms pool.now (branch_in pool.now branch.now) terms.now }
    requires typings { AreTypings pool.now (branch_in pool.now branch.now) (length branch.now.entries) typings.now }
    ensures { OnOk result (AddsLists askers.old.items askers.new.items (λ more. AskAll pool.now (branch_in pool.now branch.now) more (AsksOfReads (branch_in pool.now branch.now))) (λ more. AskAll pool.now (branch_in pool.now branch.now) more (AsksOfItems (branch_in pool.now branch.now)))) }
{
    let index = read_index(alloc, pool, branch, classes, terms)?;
    add_by_reads(alloc, askers, pool, branch, classes, &index, terms)?;
    add_by_items(alloc, askers, pool, branch, classes, &index, typings)?;
    Ok(())
}

/// Returns all triggers of axiom instances on a branch. `NoMemory` if memory runs out.
pub(crate) fn all_askers(
    alloc: Global,
    pool: &Pool,
    branch: &PoolBranch,
    classes: &BranchClasses,
    terms: &[usize],
    typings: &[Typing],
) -> Result<Vec<Asker>, NoMemory>
    requires over { IsOver pool.now branch.now }
    requires classes { AreClassesOf pool.now branch.now classes.now }
    requires terms { AreBranchTerms pool.now (branch_in pool.now branch.now) terms.now }
    requires typings { AreTypings pool.now (branch_in pool.now branch.now) (length branch.now.entries) typings.now }
    requires room { HasVariable (branch_in pool.now branch.now) }
    ensures { IfOk result (λ askers. AskEverything pool.now (branch_in pool.now branch.now) askers.items) }
{
    pool.one_number();
    let mut askers = range_askers(alloc, terms, typings)?;
    add_by_types(alloc, &mut askers, pool, terms, typings)?;
    add_by_index(alloc, &mut askers, pool, branch, classes, terms, typings)?;
    add_by_vectors(alloc, &mut askers, pool, branch, typings)?;
    Ok(askers)
}

/// Returns a due instance of an axiom of the table; `None` if none is due. `classes` are those of the branch, `terms`
/// are the numbers of its terms, `known` belongs to the pool or to an earlier state of it, some variable is free in
/// none of the branch's entries, and each struct shape has fewer than 2^32 fields. `NoMemory` if memory runs out.
pub fn next_axiom(
    alloc: Global,
    pool: &mut Pool,
    shapes: &Shapes,
    known: &mut KnownInstances,
    branch: &PoolBranch,
    classes: &BranchClasses,
    terms: &[usize],
) -> Result<Option<AxiomStep>, NoMemory>
    requires few { HasFewFields shapes.now }
    requires over { IsOver pool.old branch.now }
    requires classes { AreClassesOf pool.old branch.now classes.now }
    requires terms { AreBranchTerms pool.old (branch_in pool.old branch.now) terms.now }
    requires known { AreKnownInstances shapes.now pool.old known.old }
    requires room { HasVariable (branch_in pool.old branch.now) }
    ensures extends { Extends pool.old pool.new }
    ensures known { OnOk result (AreKnownInstances shapes.now pool.new known.new) }
    ensures due { IfOk result (λ found. MatchOption found (NoAxiom shapes.now (branch_in pool.new branch.now) WantedAxioms.All) (IsAxiomStep pool.new shapes.now (branch_in pool.new branch.now) WantedAxioms.All)) }
{
    let found = typings(alloc, pool, branch)?;
    let askers = all_askers(alloc, pool, branch, classes, terms, found.as_slice())?;
    let wanted = WantedAxioms::All;
    next_triggered(
        alloc,
        pool,
        shapes,
        known,
        branch,
        wanted,
        askers.as_slice(),
        0,
    )
}
