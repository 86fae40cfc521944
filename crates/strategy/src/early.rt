//! The applications that come before all others.

pub mod ranges;

ghost use Rattle.std.specs.Prelude.{List, OnOk, IfOk, MatchOption};
ghost use Rattle.fol.specs.declared.shapes.Shape.{Shape};
ghost use Rattle.term_pool.specs.Pools.{Extends};
ghost use Rattle.certificates.specs.ProofTraces.{NothingEarly};
ghost use Rattle.tableau.specs.PoolBranches.{branch_in, IsOver};
ghost use Rattle.tableau.specs.Steps.{NoParts};
ghost use Rattle.tableau.specs.Names.{NoName};
ghost use Rattle.axiom_instances.specs.StructRows.{HasFewFields};
ghost use Rattle.axiom_strategy.specs.Due.{NoAxiom};
ghost use Rattle.axiom_strategy.specs.Known.{AreKnownInstances};
ghost use Rattle.tableau.specs.States.{IsState, Follows};
ghost use Rattle.search.specs.Decisions.{HasRoom, IsExtensionDue};
ghost use Rattle.strategy.specs.Ranges.{NoRangeSplit};

use crate::due::extensions::{
    axiom_application, name_application, parts_application, split_application,
};
use crate::early::ranges::next_range_split;
use axiom_strategy::due::WantedAxioms;
use axiom_strategy::known::KnownInstances;
use axiom_strategy::ranges::next_range_axiom;
use base::memory::NoMemory;
use fol::shapes::Shapes;
use search::trees::application::Extension;
use std::alloc::Global;
use tableau::aliasing::terms::terms;
use tableau::branch::PoolBranch;
use tableau::names::next_name;
use tableau::rules::parts::next_parts;
use tableau::state::BranchState;
use term_pool::pool::Pool;

// The alpha rule for the first entry at which it is due, from the mark on.
fn parts_due(
    alloc: Global,
    pool: &mut Pool,
    branch: &PoolBranch,
    state: &mut BranchState,
) -> Result<Option<Extension>, NoMemory>
    requires over { IsOver pool.old branch.now }
    requires state { IsState pool.old state.old }
    requires follows { Follows branch.now state.old }
    ensures extends { Extends pool.old pool.new }
    ensures state { OnOk result (IsState pool.new state.new) }
    ensures follows { OnOk result (Follows branch.now state.new) }
    ensures due { IfOk result (λ found. (shapes : List Shape) → MatchOption found (NoParts (branch_in pool.new branch.now)) (IsExtensionDue shapes pool.new (branch_in pool.new branch.now))) }
{
    let mut marks = state.marks();
    let Some(step) = next_parts(alloc, pool, branch, marks.parts)? else {
        marks.parts = branch.len();
        state.set_marks(marks);
        return Ok(None);
    };
    marks.parts = step.entry;
    state.set_marks(marks);
    Ok(Some(parts_application(branch, step)))
}

// The delta rule for the first entry at which it is due, from the mark on.
fn name_due(
    alloc: Global,
    pool: &mut Pool,
    branch: &PoolBranch,
    state: &mut BranchState,
) -> Result<Option<Extension>, NoMemory>
    requires over { IsOver pool.old branch.now }
    requires room { HasRoom (branch_in pool.old branch.now) }
    requires state { IsState pool.old state.old }
    requires follows { Follows branch.now state.old }
    ensures extends { Extends pool.old pool.new }
    ensures state { OnOk result (IsState pool.new state.new) }
    ensures follows { OnOk result (Follows branch.now state.new) }
    ensures due { IfOk result (λ found. (shapes : List Shape) → MatchOption found (NoName (branch_in pool.new branch.now)) (IsExtensionDue shapes pool.new (branch_in pool.new branch.now))) }
{
    let mut marks = state.marks();
    let Some(step) = next_name(alloc, pool, branch, &mut state.variables, marks.names)? else {
        marks.names = branch.len();
        state.set_marks(marks);
        return Ok(None);
    };
    marks.names = step.entry;
    state.set_marks(marks);
    let extension = name_application(alloc, branch, step)?;
    Ok(Some(extension))
}

// An instance of the axioms on ranges and on whole numbers.
fn range_axiom_due(
    alloc: Global,
    pool: &mut Pool,
    shapes: &Shapes,
    branch: &PoolBranch,
    known: &mut KnownInstances,
) -> Result<Option<Extension>, NoMemory>
    requires few { HasFewFields shapes.now }
    requires over { IsOver pool.old branch.now }
    requires known { AreKnownInstances shapes.now pool.old known.old }
    ensures extends { Extends pool.old pool.new }
    ensures known { OnOk result (AreKnownInstances shapes.now pool.new known.new) }
    ensures due { IfOk result (λ found. MatchOption found (NoAxiom shapes.now (branch_in pool.new branch.now) WantedAxioms.Ranges) (IsExtensionDue shapes.now pool.new (branch_in pool.new branch.now))) }
{
    let present = terms(alloc, pool, branch)?;
    let numbers = present.as_slice();
    let Some(step) = next_range_axiom(alloc, pool, shapes, known, branch, numbers)? else {
        return Ok(None);
    };
    let extension = axiom_application(alloc, step.name, step.formula, step.generation)?;
    Ok(Some(extension))
}

// The case split at the first instance of the axiom on ranges at which one is due, from the mark on.
fn range_split_due(
    alloc: Global,
    pool: &mut Pool,
    shapes: &Shapes,
    branch: &PoolBranch,
    state: &mut BranchState,
    known: &mut KnownInstances,
) -> Result<Option<Extension>, NoMemory>
    requires few { HasFewFields shapes.now }
    requires over { IsOver pool.old branch.now }
    requires state { IsState pool.old state.old }
    requires follows { Follows branch.now state.old }
    requires known { AreKnownInstances shapes.now pool.old known.old }
    ensures extends { Extends pool.old pool.new }
    ensures state { OnOk result (IsState pool.new state.new) }
    ensures follows { OnOk result (Follows branch.now state.new) }
    ensures known { OnOk result (AreKnownInstances shapes.now pool.new known.new) }
    ensures due { IfOk result (λ found. MatchOption found (NoRangeSplit (branch_in pool.new branch.now)) (IsExtensionDue shapes.now pool.new (branch_in pool.new branch.now))) }
{
    let mut marks = state.marks();
    let Some(step) = next_range_split(alloc, pool, shapes, known, branch, marks.ranges)? else {
        marks.ranges = branch.len();
        state.set_marks(marks);
        return Ok(None);
    };
    marks.ranges = step.entry;
    state.set_marks(marks);
    Ok(Some(split_application(branch, step)))
}

/// Returns an application that comes before all others: an alpha or delta rule, an instance of the axioms on ranges and
/// on whole numbers, or a case split at an instance of the axiom on ranges; `None` if none is due. `state` follows the
/// branch; no entry before its marks is visited again. `known` belongs to the pool or to an earlier state of it, and
/// each struct shape has fewer than 2^32 fields. `NoMemory` if memory runs out.
pub fn early_application(
    alloc: Global,
    pool: &mut Pool,
    shapes: &Shapes,
    branch: &PoolBranch,
    state: &mut BranchState,
    known: &mut KnownInstances,
) -> Result<Option<Extension>, NoMemory>
    requires few { HasFewFields shapes.now }
    requires over { IsOver pool.old branch.now }
    requires room { HasRoom (branch_in pool.old branch.now) }
    requires state { IsState pool.old state.old }
    requires follows { Follows branch.now state.old }
    requires known { AreKnownInstances shapes.now pool.old known.old }
    ensures extends { Extends pool.old pool.new }
    ensures state { OnOk result (IsState pool.new state.new) }
    ensures follows { OnOk result (Follows branch.now state.new) }
    ensures known { OnOk result (AreKnownInstances shapes.now pool.new known.new) }
    ensures due { IfOk result (λ found. MatchOption found (NothingEarly shapes.now (branch_in pool.old branch.now)) (IsExtensionDue shapes.now pool.new (branch_in pool.old branch.now))) }
{
    if let Some(parts) = parts_due(alloc, pool, branch, state)? {
        return Ok(Some(parts));
    }
    if let Some(name) = name_due(alloc, pool, branch, state)? {
        return Ok(Some(name));
    }
    if let Some(axiom) = range_axiom_due(alloc, pool, shapes, branch, known)? {
        return Ok(Some(axiom));
    }
    range_split_due(alloc, pool, shapes, branch, state, known)
}
