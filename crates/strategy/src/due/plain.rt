//! Applications that add instances of axioms and of quantified entries.

ghost use Rattle.std.specs.Prelude.{List, IfOk, OnOk, MatchOption};
ghost use Rattle.fol.specs.declared.shapes.Shape.{Shape};
ghost use Rattle.term_pool.specs.Pools.{Extends};
ghost use Rattle.tableau.specs.PoolBranches.{branch_in, IsOver};
ghost use Rattle.tableau.specs.Terms.{AreClassesOf};
ghost use Rattle.axiom_instances.specs.StructRows.{HasFewFields};
ghost use Rattle.ematching.specs.Heads.{IsIndex};
ghost use Rattle.axiom_strategy.specs.Due.{NoAxiom};
ghost use Rattle.axiom_strategy.specs.Known.{AreKnownInstances};
ghost use Rattle.ematching.specs.QuantifierFree.{AreFree};
ghost use Rattle.ematching.specs.Instances.{NoInstance};
ghost use Rattle.search.specs.Decisions.{HasRoom, IsExtensionDue, NothingPlain};
ghost use Rattle.strategy.specs.Plain.{NoAxiomDue};

use crate::due::extensions::{axiom_application, instance_application};
use axiom_strategy::decisions::orders::next_order;
use axiom_strategy::due::WantedAxioms;
use axiom_strategy::known::KnownInstances;
use axiom_strategy::next::next_axiom;
use axioms::axiom::{Alternative, Axiom};
use base::memory::NoMemory;
use congruence_closure::branch_classes::BranchClasses;
use ematching::heads::HeadIndex;
use ematching::instances::due::next_instance;
use ematching::instances::quantifiers::QuantifierFree;
use fol::shapes::Shapes;
use search::trees::application::Extension;
use std::alloc::Global;
use tableau::aliasing::terms::terms;
use tableau::branch::PoolBranch;
use term_pool::pool::Pool;

// An instance of an axiom of the table.
fn table_application(
    alloc: Global,
    pool: &mut Pool,
    shapes: &Shapes,
    branch: &PoolBranch,
    classes: &BranchClasses,
    known: &mut KnownInstances,
) -> Result<Option<Extension>, NoMemory>
    requires few { HasFewFields shapes.now }
    requires over { IsOver pool.old branch.now }
    requires classes { AreClassesOf pool.old branch.now classes.now }
    requires known { AreKnownInstances shapes.now pool.old known.old }
    requires room { HasRoom (branch_in pool.old branch.now) }
    ensures extends { Extends pool.old pool.new }
    ensures known { OnOk result (AreKnownInstances shapes.now pool.new known.new) }
    ensures due { IfOk result (λ found. MatchOption found (NoAxiom shapes.now (branch_in pool.old branch.now) WantedAxioms.All) (IsExtensionDue shapes.now pool.new (branch_in pool.old branch.now))) }
{
    let listed = terms(alloc, pool, branch)?;
    let numbers = listed.as_slice();
    let Some(step) = next_axiom(alloc, pool, shapes, known, branch, classes, numbers)? else {
        return Ok(None);
    };
    let application = axiom_application(alloc, step.name, step.formula, step.generation)?;
    Ok(Some(application))
}

// An instance of an axiom, of the table or as a decision on two numbers.
#[tactic(auto, using(term_pool::proofs::GrowthLemmas::extends_then))]
fn axioms_application(
    alloc: Global,
    pool: &mut Pool,
    shapes: &Shapes,
    branch: &PoolBranch,
    classes: &BranchClasses,
    known: &mut KnownInstances,
) -> Result<Option<Extension>, NoMemory>
    requires few { HasFewFields shapes.now }
    requires over { IsOver pool.old branch.now }
    requires classes { AreClassesOf pool.old branch.now classes.now }
    requires known { AreKnownInstances shapes.now pool.old known.old }
    requires room { HasRoom (branch_in pool.old branch.now) }
    ensures extends { Extends pool.old pool.new }
    ensures known { OnOk result (AreKnownInstances shapes.now pool.new known.new) }
    ensures due { IfOk result (λ found. MatchOption found (NoAxiomDue shapes.now (branch_in pool.old branch.now)) (IsExtensionDue shapes.now pool.new (branch_in pool.old branch.now))) }
{
    if let Some(found) = table_application(alloc, pool, shapes, branch, classes, known)? {
        return Ok(Some(found));
    }
    let Some(order) = next_order(alloc, pool, branch, classes)? else {
        return Ok(None);
    };
    let name = Axiom::Cases(Alternative::Trichotomy);
    let application = axiom_application(alloc, name, order.formula, order.generation)?;
    Ok(Some(application))
}

// An instance of a quantified entry.
pub(crate) fn quantified_application(
    alloc: Global,
    pool: &mut Pool,
    branch: &PoolBranch,
    index: &mut HeadIndex,
    quantifiers: &mut QuantifierFree,
) -> Result<Option<Extension>, NoMemory>
    requires over { IsOver pool.old branch.now }
    requires index { IsIndex pool.old index.old }
    requires free { AreFree pool.old quantifiers.old }
    ensures extends { Extends pool.old pool.new }
    ensures index { OnOk result (IsIndex pool.new index.new) }
    ensures free { OnOk result (AreFree pool.new quantifiers.new) }
    ensures due { (shapes : List Shape) → IfOk result (λ found. MatchOption found (NoInstance (branch_in pool.old branch.now)) (IsExtensionDue shapes pool.new (branch_in pool.old branch.now))) }
{
    let Some(step) = next_instance(alloc, pool, branch, index, quantifiers)? else {
        return Ok(None);
    };
    let application = instance_application(
        alloc,
        step.entry,
        step.term,
        step.formula,
        step.generation,
    )?;
    Ok(Some(application))
}

/// Returns an instance of an axiom or of a quantified entry; `None` if neither is due. `classes` are those of the
/// branch; the index by head symbol, and the facts on quantifiers and on instances, belong to the pool or to an earlier
/// state of it; each struct shape has fewer than 2^32 fields. `NoMemory` if memory runs out.
#[tactic(auto, using(term_pool::proofs::GrowthLemmas::extends_then))]
pub fn plain_application(
    alloc: Global,
    pool: &mut Pool,
    shapes: &Shapes,
    branch: &PoolBranch,
    classes: &BranchClasses,
    index: &mut HeadIndex,
    quantifiers: &mut QuantifierFree,
    known: &mut KnownInstances,
) -> Result<Option<Extension>, NoMemory>
    requires few { HasFewFields shapes.now }
    requires over { IsOver pool.old branch.now }
    requires classes { AreClassesOf pool.old branch.now classes.now }
    requires index { IsIndex pool.old index.old }
    requires free { AreFree pool.old quantifiers.old }
    requires known { AreKnownInstances shapes.now pool.old known.old }
    requires room { HasRoom (branch_in pool.old branch.now) }
    ensures extends { Extends pool.old pool.new }
    ensures index { OnOk result (IsIndex pool.new index.new) }
    ensures free { OnOk result (AreFree pool.new quantifiers.new) }
    ensures known { OnOk result (AreKnownInstances shapes.now pool.new known.new) }
    ensures due { IfOk result (λ found. MatchOption found (NothingPlain shapes.now (branch_in pool.old branch.now)) (IsExtensionDue shapes.now pool.new (branch_in pool.old branch.now))) }
{
    index.grow(pool)?;
    if let Some(found) = axioms_application(alloc, pool, shapes, branch, classes, known)? {
        return Ok(Some(found));
    }
    quantified_application(alloc, pool, branch, index, quantifiers)
}
