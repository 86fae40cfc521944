//! Decides whether a branch is saturated.

ghost use Rattle.std.specs.Prelude.{◌↔◌, IsTrue, IfOk, MatchBool};
ghost use Rattle.term_pool.specs.Pools.{Extends};
ghost use Rattle.certificates.specs.Due.{IsSaturated};
ghost use Rattle.tableau.specs.PoolBranches.{branch_in, IsOver};
ghost use Rattle.tableau.specs.Variables.{AreAbove};
ghost use Rattle.tableau.specs.Terms.{AreClassesOf};
ghost use Rattle.axiom_instances.specs.StructRows.{HasFewFields};
ghost use Rattle.axiom_strategy.specs.Families.{HasVariable};
ghost use Rattle.ematching.specs.Instances.{NoInstance};
ghost use Rattle.strategy.specs.Families.{IsReduced, HasAllAxioms, IsSettled};

use axiom_strategy::decisions::cuts::next_cut;
use axiom_strategy::decisions::orders::next_order;
use axiom_strategy::due::WantedAxioms;
use axiom_strategy::known::KnownInstances;
use axiom_strategy::next::next_axiom;
use base::memory::NoMemory;
use closing_rules::clashes::next::next_clash;
use congruence_closure::branch_classes::BranchClasses;
use ematching::heads::HeadIndex;
use ematching::instances::due::next_instance;
use ematching::instances::quantifiers::QuantifierFree;
use fol::shapes::Shapes;
use std::alloc::Global;
use tableau::aliasing::terms::terms;
use tableau::branch::PoolBranch;
use tableau::names::next_name;
use tableau::names::variables::Variables;
use tableau::rules::parts::next_parts;
use tableau::rules::split::next_split;
use tableau::state::BranchState;
use term_pool::pool::Pool;

// Decides whether no alpha, beta or delta rule is due at any entry.
fn is_reduced(
    alloc: Global,
    pool: &mut Pool,
    branch: &PoolBranch,
    variables: &mut Variables,
) -> Result<bool, NoMemory>
    requires over { IsOver pool.old branch.now }
    requires above { AreAbove pool.old branch.now.entries variables.old }
    ensures extends { Extends pool.old pool.new }
    ensures exact { IfOk result (λ done. MatchBool done (IsReduced (branch_in pool.old branch.now)) (IsReduced (branch_in pool.old branch.now) → ⊥)) }
{
    let parts = next_parts(alloc, pool, branch, 0)?;
    if parts.is_some() {
        return Ok(false);
    }
    let split = next_split(alloc, pool, branch, 0)?;
    if split.is_some() {
        return Ok(false);
    }
    let name = next_name(alloc, pool, branch, variables, 0)?;
    Ok(name.is_none())
}

// Decides whether no instance of an axiom is due.
fn has_all_axioms(
    alloc: Global,
    pool: &mut Pool,
    shapes: &Shapes,
    branch: &PoolBranch,
    classes: &BranchClasses,
) -> Result<bool, NoMemory>
    requires few { HasFewFields shapes.now }
    requires over { IsOver pool.old branch.now }
    requires classes { AreClassesOf pool.old branch.now classes.now }
    requires room { HasVariable (branch_in pool.old branch.now) }
    ensures extends { Extends pool.old pool.new }
    ensures exact { IfOk result (λ done. MatchBool done (HasAllAxioms shapes.now (branch_in pool.old branch.now)) (HasAllAxioms shapes.now (branch_in pool.old branch.now) → ⊥)) }
{
    let present = terms(alloc, pool, branch)?;
    let numbers = present.as_slice();
    let mut known = KnownInstances::new(alloc);
    let axiom = next_axiom(alloc, pool, shapes, &mut known, branch, classes, numbers)?;
    if axiom.is_some() {
        return Ok(false);
    }
    let order = next_order(alloc, pool, branch, classes)?;
    Ok(order.is_none())
}

// Decides whether no instance of a quantified entry is due.
fn has_all_instances(alloc: Global, pool: &mut Pool, branch: &PoolBranch) -> Result<bool, NoMemory>
    requires over { IsOver pool.old branch.now }
    ensures extends { Extends pool.old pool.new }
    ensures exact { IfOk result (λ done. MatchBool done (NoInstance (branch_in pool.old branch.now)) (NoInstance (branch_in pool.old branch.now) → ⊥)) }
{
    let mut index = HeadIndex::new(alloc);
    let mut quantifiers = QuantifierFree::new(alloc);
    index.grow(pool)?;
    let instance = next_instance(alloc, pool, branch, &mut index, &mut quantifiers)?;
    Ok(instance.is_none())
}

// Decides whether no cut is due and nothing closes the branch.
fn is_settled(
    alloc: Global,
    pool: &mut Pool,
    branch: &PoolBranch,
    classes: &BranchClasses,
) -> Result<bool, NoMemory>
    requires over { IsOver pool.old branch.now }
    requires classes { AreClassesOf pool.old branch.now classes.now }
    ensures extends { Extends pool.old pool.new }
    ensures exact { IfOk result (λ done. MatchBool done (IsSettled (branch_in pool.old branch.now)) (IsSettled (branch_in pool.old branch.now) → ⊥)) }
{
    let clash = next_clash(alloc, pool, branch, classes)?;
    if clash.is_some() {
        return Ok(false);
    }
    let cut = next_cut(alloc, pool, branch, classes)?;
    Ok(cut.is_none())
}

// Decides whether a branch is saturated, given its variables and classes.
fn is_done(
    alloc: Global,
    pool: &mut Pool,
    shapes: &Shapes,
    branch: &PoolBranch,
    state: &mut BranchState,
) -> Result<bool, NoMemory>
    requires few { HasFewFields shapes.now }
    requires over { IsOver pool.old branch.now }
    requires room { HasVariable (branch_in pool.old branch.now) }
    requires variables { AreAbove pool.old branch.now.entries state.old.variables }
    requires classes { AreClassesOf pool.old branch.now state.old.classes }
    ensures extends { Extends pool.old pool.new }
    ensures exact { IfOk result (λ done. MatchBool done (IsSaturated shapes.now (branch_in pool.old branch.now)) (IsSaturated shapes.now (branch_in pool.old branch.now) → ⊥)) }
{
    if !is_reduced(alloc, pool, branch, &mut state.variables)? {
        return Ok(false);
    }
    if !is_settled(alloc, pool, branch, &state.classes)? {
        return Ok(false);
    }
    if !has_all_axioms(alloc, pool, shapes, branch, &state.classes)? {
        return Ok(false);
    }
    has_all_instances(alloc, pool, branch)
}

/// Decides whether the branch is saturated: no extension is due except for bounds, and nothing closes it up to
/// congruence. Some variable is free in none of its entries, and each struct shape has fewer than 2^32 fields.
///
/// # Errors
///
/// Only if memory runs out.
pub fn is_saturated(
    alloc: Global,
    pool: &mut Pool,
    shapes: &Shapes,
    branch: &PoolBranch,
) -> Result<bool, NoMemory>
    requires few { HasFewFields shapes.now }
    requires over { IsOver pool.old branch.now }
    requires room { HasVariable (branch_in pool.old branch.now) }
    ensures extends { Extends pool.old pool.new }
    ensures exact { IfOk result (λ saturated. IsTrue saturated ↔ IsSaturated shapes.now (branch_in pool.old branch.now)) }
{
    let mut state = BranchState::new(alloc);
    state.follow(alloc, pool, branch)?;
    is_done(alloc, pool, shapes, branch, &mut state)
}
