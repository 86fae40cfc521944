//! All due instances of the axioms in the table.

ghost use Rattle.std.specs.Prelude.{length, IfOk, OnOk};
ghost use Rattle.term_pool.specs.Pools.{Extends};
ghost use Rattle.tableau.specs.PoolBranches.{branch_in, IsOver};
ghost use Rattle.tableau.specs.Terms.{AreBranchTerms, AreClassesOf};
ghost use Rattle.axiom_instances.specs.StructRows.{HasFewFields};
ghost use Rattle.axiom_strategy.specs.Due.{AsksOfSome};
ghost use Rattle.axiom_strategy.specs.Instances.{AreInstances, IsListed};
ghost use Rattle.axiom_strategy.specs.Askers.{IsAsker, AreAskers, asks_of, asks_at};
ghost use Rattle.axiom_strategy.specs.Families.{HasVariable};
ghost use Rattle.axiom_strategy.specs.Listing.{AreDueSteps, AddsDueSteps, AreDueInstances};

use crate::askers::{Asker, instances_of};
use crate::due::{AxiomStep, WantedAxioms, step_of};
use crate::next::all_askers;
use crate::typings::typings;
use axiom_instances::triggered::TriggeredAxiom;
use base::memory::NoMemory;
use congruence_closure::branch_classes::BranchClasses;
use fol::shapes::Shapes;
use std::alloc::Global;
use tableau::branch::PoolBranch;
use term_pool::pool::Pool;

// Appends those of these instances that are due to the steps.
fn add_due(
    pool: &Pool,
    branch: &PoolBranch,
    instances: &[TriggeredAxiom],
    steps: &mut Vec<AxiomStep>,
) -> Result<(), NoMemory>
    requires over { IsOver pool.now branch.now }
    requires instances { AreInstances pool.now instances.now }
    ensures { OnOk result (AddsDueSteps pool.now (branch_in pool.now branch.now) (IsListed pool.now instances.now) steps.old.items steps.new.items) }
{
    for triggered in instances {
        let Some(step) = step_of(pool, branch, WantedAxioms::All, *triggered) else {
            continue;
        };
        steps.push(step)?;
    }
    Ok(())
}

// The same for all instances of one trigger.
fn add_due_of(
    alloc: Global,
    pool: &mut Pool,
    shapes: &Shapes,
    branch: &PoolBranch,
    asker: Asker,
    steps: &mut Vec<AxiomStep>,
) -> Result<(), NoMemory>
    requires few { HasFewFields shapes.now }
    requires over { IsOver pool.old branch.now }
    requires asker { IsAsker pool.old asker }
    ensures extends { Extends pool.old pool.new }
    ensures due { OnOk result (AddsDueSteps pool.new (branch_in pool.old branch.now) (asks_of shapes.now pool.old asker) steps.old.items steps.new.items) }
{
    let instances = instances_of(alloc, pool, shapes, asker)?;
    add_due(pool, branch, instances.as_slice(), steps)
}

// All due instances of these triggers.
fn due_of(
    alloc: Global,
    pool: &mut Pool,
    shapes: &Shapes,
    branch: &PoolBranch,
    askers: &[Asker],
) -> Result<Vec<AxiomStep>, NoMemory>
    requires few { HasFewFields shapes.now }
    requires over { IsOver pool.old branch.now }
    requires askers { AreAskers pool.old askers.now }
    ensures extends { Extends pool.old pool.new }
    ensures due { IfOk result (λ steps. AreDueSteps pool.new (branch_in pool.old branch.now) (AsksOfSome (length askers.now) (asks_at shapes.now pool.old askers.now)) steps.items) }
{
    let mut steps = Vec::new(alloc);
    for asker in askers {
        add_due_of(alloc, pool, shapes, branch, *asker, &mut steps)?;
    }
    Ok(steps)
}

/// Returns all due instances of axioms of the table, each with its number and its generation; the list is empty if none
/// is due. An instance with several triggers may occur more than once. Decisions on two numbers are no instances of the
/// table and are not listed; `decisions` finds them. `classes` are those of the branch, `terms` are the numbers of its
/// terms, some variable is free in none of its entries, and each struct shape has fewer than 2^32 fields.
///
/// # Errors
///
/// Only if memory runs out.
pub fn instances_over(
    alloc: Global,
    pool: &mut Pool,
    shapes: &Shapes,
    branch: &PoolBranch,
    classes: &BranchClasses,
    terms: &[usize],
) -> Result<Vec<AxiomStep>, NoMemory>
    requires few { HasFewFields shapes.now }
    requires over { IsOver pool.old branch.now }
    requires classes { AreClassesOf pool.old branch.now classes.now }
    requires terms { AreBranchTerms pool.old (branch_in pool.old branch.now) terms.now }
    requires room { HasVariable (branch_in pool.old branch.now) }
    ensures extends { Extends pool.old pool.new }
    ensures due { IfOk result (λ steps. AreDueInstances pool.new shapes.now (branch_in pool.new branch.now) steps.items) }
{
    let found = typings(alloc, pool, branch)?;
    let askers = all_askers(alloc, pool, branch, classes, terms, found.as_slice())?;
    due_of(alloc, pool, shapes, branch, askers.as_slice())
}
