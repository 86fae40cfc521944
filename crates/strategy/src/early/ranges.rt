//! Case splits at instances of the axiom on ranges, which come before all others.

ghost use Rattle.std.specs.Prelude.{◌≡◌, ◌↔◌, IsTrue, IfOk, OnOk, MatchOption};
ghost use Rattle.term_pool.specs.Pools.{Extends};
ghost use Rattle.certificates.specs.Due.{IsRange};
ghost use Rattle.tableau.specs.PoolBranches.{branch_in, IsFormulaNumber, IsOver};
ghost use Rattle.tableau.specs.Numbers.{formula_at};
ghost use Rattle.axiom_instances.specs.StructRows.{HasFewFields};
ghost use Rattle.axiom_strategy.specs.Known.{AreKnownInstances};
ghost use Rattle.tableau.specs.States.{NoRangeSplitAt, NoRangeSplitBefore};
ghost use Rattle.strategy.specs.Ranges.{IsNoEquivalence, IsLeftSide, left_of, is_range_axiom, IsRangeInstance, ListsRange, NoRangeSplit, IsRangeSplitAt, IsRangeSplitStep};

use axiom_instances::triggered::TriggeredAxiom;
use axiom_strategy::askers::Asker;
use axiom_strategy::known::KnownInstances;
use axiom_strategy::typings::typing_of;
use axioms::axiom::{Axiom, Equivalence};
use base::memory::NoMemory;
use fol::operators::Connective;
use fol::shapes::Shapes;
use std::alloc::Global;
use tableau::branch::PoolBranch;
use tableau::rules::compounds::{Compound, compound_at};
use tableau::rules::formulas::EntryStep;
use tableau::rules::split::cases_at;
use term_pool::pool::Pool;

// ---- equivalences

// The left side of an equivalence.
fn left_of(compound: Compound) -> Option<usize>
    ensures { result ≡ left_of compound }
{
    match compound {
        Compound::Connect(Connective::Iff, left, _) => Some(left),
        _ => None,
    }
}

// The left side of a formula that is an equivalence; `None` for any other formula.
fn left_side(pool: &Pool, formula: usize) -> Option<usize>
    requires { IsFormulaNumber pool.now formula }
    ensures { MatchOption result (IsNoEquivalence (formula_at pool.now formula)) (IsLeftSide pool.now (formula_at pool.now formula)) }
{
    match compound_at(pool, formula) {
        Some(compound) => left_of(compound),
        None => None,
    }
}

// ---- instances of the axiom on ranges

fn is_range_axiom(name: Axiom) -> bool
    ensures { result ≡ is_range_axiom name }
{
    match name {
        Axiom::Exactly(Equivalence::Range) => true,
        _ => false,
    }
}

// Decides whether an instance has this number and is one of the axiom on ranges.
fn is_range_instance(instance: TriggeredAxiom, formula: usize) -> bool
    ensures { IsTrue result ↔ IsRangeInstance instance formula }
{
    if instance.formula != formula {
        return false;
    }
    is_range_axiom(instance.name)
}

// Decides whether some instance of the list has this number and is one of the axiom on ranges.
fn lists_range(instances: &[TriggeredAxiom], formula: usize) -> bool
    ensures { IsTrue result ↔ ListsRange instances.now formula }
{
    for instance in instances {
        if is_range_instance(*instance, formula) {
            return true;
        }
    }
    false
}

/// Decides whether a formula is an instance of the axiom on ranges, triggered by the type and the term on its left
/// side. `known` belongs to the pool or to an earlier state of it, and each struct shape has fewer than 2^32 fields.
/// `NoMemory` if memory runs out.
pub fn is_range(
    alloc: Global,
    pool: &mut Pool,
    shapes: &Shapes,
    known: &mut KnownInstances,
    formula: usize,
) -> Result<bool, NoMemory>
    requires few { HasFewFields shapes.now }
    requires formula { IsFormulaNumber pool.old formula }
    requires known { AreKnownInstances shapes.now pool.old known.old }
    ensures extends { Extends pool.old pool.new }
    ensures known { OnOk result (AreKnownInstances shapes.now pool.new known.new) }
    ensures is { IfOk result (λ is. IsTrue is ↔ IsRange (formula_at pool.old formula)) }
{
    let Some(left) = left_side(pool, formula) else {
        return Ok(false);
    };
    let Some(typing) = typing_of(pool, left) else {
        return Ok(false);
    };
    let asker = Asker::Typing(typing.of, typing.term);
    let position = known.position_of(alloc, pool, shapes, asker)?;
    pool.one_number();
    Ok(lists_range(known.list(position), formula))
}

// ---- case splits

// The cases of an entry that is an instance of the axiom on ranges, if a case split is due there.
fn range_cases_at(
    alloc: Global,
    pool: &mut Pool,
    shapes: &Shapes,
    known: &mut KnownInstances,
    branch: &PoolBranch,
    i: usize,
) -> Result<Option<Vec<usize>>, NoMemory>
    requires few { HasFewFields shapes.now }
    requires over { IsOver pool.old branch.now }
    requires known { AreKnownInstances shapes.now pool.old known.old }
    ensures extends { Extends pool.old pool.new }
    ensures known { OnOk result (AreKnownInstances shapes.now pool.new known.new) }
    ensures due { IfOk result (λ found. MatchOption found (NoRangeSplitAt (branch_in pool.new branch.now) i) (λ cases. IsRangeSplitAt pool.new (branch_in pool.new branch.now) i cases.items)) }
{
    let Some(entry) = branch.entry(i) else {
        return Ok(None);
    };
    if !is_range(alloc, pool, shapes, known, entry.formula)? {
        return Ok(None);
    }
    cases_at(alloc, pool, branch, i)
}

/// Returns the first entry, from this one on, that is an instance of the axiom on ranges and at which a case split is
/// due, with the numbers of its cases; `None` if there is none. `known` belongs to the pool or to an earlier state of
/// it, and each struct shape has fewer than 2^32 fields. `NoMemory` if memory runs out.
pub fn next_range_split(
    alloc: Global,
    pool: &mut Pool,
    shapes: &Shapes,
    known: &mut KnownInstances,
    branch: &PoolBranch,
    from: usize,
) -> Result<Option<EntryStep>, NoMemory>
    requires few { HasFewFields shapes.now }
    requires over { IsOver pool.old branch.now }
    requires known { AreKnownInstances shapes.now pool.old known.old }
    requires before { NoRangeSplitBefore (branch_in pool.old branch.now) from }
    ensures extends { Extends pool.old pool.new }
    ensures known { OnOk result (AreKnownInstances shapes.now pool.new known.new) }
    ensures due { IfOk result (λ found. MatchOption found (NoRangeSplit (branch_in pool.new branch.now)) (IsRangeSplitStep pool.new (branch_in pool.new branch.now))) }
{
    for i in from..branch.len() {
        if let Some(formulas) = range_cases_at(alloc, pool, shapes, known, branch, i)? {
            return Ok(Some(EntryStep { entry: i, formulas }));
        }
    }
    Ok(None)
}
