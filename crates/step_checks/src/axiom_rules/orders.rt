//! Decisions on two numbers: which of them is the greater.

ghost use Rattle.std.specs.Prelude.{◌≡◌, ◌↔◌, [], IsTrue, IfOk};
ghost use Rattle.term_pool.specs.Pools.{Extends};
ghost use Rattle.certificates.specs.BranchesBranch.{Stands};
ghost use Rattle.certificates.specs.Joined.{Joined};
ghost use Rattle.certificates.specs.Decisions.{AsksDecision, AreNumbers};
ghost use Rattle.certificates.specs.Due.{IsUnordered, trichotomy_axiom};
ghost use Rattle.tableau.specs.PoolBranches.{branch_in, IsFormulaNumber, IsTermNumber, IsOver};
ghost use Rattle.tableau.specs.Numbers.{formula_at};
ghost use Rattle.tableau.specs.Terms.{term_at, IsBranchTerm, AreClassesOf};
ghost use Rattle.step_checks.specs.Orders.{IsPairDue, IsOrderOf, IsOrderDue};

use crate::axiom_rules::sides::number_sides;
use crate::decisions::indexes::are_indexes;
use crate::decisions::numbers::{are_numbers, are_said_to_differ, is_generation_of};
use axiom_strategy::decisions::orders::instance;
use base::memory::NoMemory;
use congruence_closure::branch_classes::BranchClasses;
use std::alloc::Global;
use tableau::branch::PoolBranch;
use term_pool::pool::{MOST_DEPTH, Pool};

fn is_same(left: usize, right: usize) -> bool
    ensures { IsTrue result ↔ (left ≡ right) }
{
    left == right
}

// Decides whether the formula is the instance for two terms.
fn is_instance(
    alloc: Global,
    pool: &mut Pool,
    left: usize,
    right: usize,
    formula: usize,
) -> Result<bool, NoMemory>
    requires left { IsTermNumber pool.old left }
    requires right { IsTermNumber pool.old right }
    requires formula { IsFormulaNumber pool.old formula }
    ensures extends { Extends pool.old pool.new }
    ensures exact { IfOk result (λ known. IsTrue known ↔ (formula_at pool.old formula ≡ trichotomy_axiom (term_at pool.old left) (term_at pool.old right))) }
{
    let made = instance(alloc, pool, left, right)?;
    pool.one_number();
    Ok(is_same(made, formula))
}

// Decides whether an entry is the instance for two terms.
fn is_instance_said(
    alloc: Global,
    pool: &mut Pool,
    branch: &PoolBranch,
    left: usize,
    right: usize,
) -> Result<bool, NoMemory>
    requires over { IsOver pool.old branch.now }
    requires left { IsTermNumber pool.old left }
    requires right { IsTermNumber pool.old right }
    ensures extends { Extends pool.old pool.new }
    ensures exact { IfOk result (λ known. IsTrue known ↔ Stands (branch_in pool.old branch.now) (trichotomy_axiom (term_at pool.old left) (term_at pool.old right))) }
{
    let made = instance(alloc, pool, left, right)?;
    Ok(branch.stands(pool, made))
}

// ---- whether the instance is triggered

// Decides whether the terms are in different classes.
fn are_apart(
    pool: &Pool,
    branch: &PoolBranch,
    classes: &BranchClasses,
    left: usize,
    right: usize,
) -> bool
    requires over { IsOver pool.now branch.now }
    requires classes { AreClassesOf pool.now branch.now classes.now }
    requires left { IsBranchTerm pool.now (branch_in pool.now branch.now) left }
    requires right { IsBranchTerm pool.now (branch_in pool.now branch.now) right }
    ensures { IsTrue result ↔ (Joined (branch_in pool.now branch.now) (term_at pool.now left) (term_at pool.now right) → ⊥) }
{
    classes.exact();
    pool.one_number();
    let one = classes.class(left);
    let other = classes.class(right);
    if one == other {
        return false;
    }
    true
}

// Decides whether it is open which of the two terms is the greater.
fn are_unordered(
    alloc: Global,
    pool: &mut Pool,
    branch: &PoolBranch,
    classes: &BranchClasses,
    left: usize,
    right: usize,
) -> Result<bool, NoMemory>
    requires over { IsOver pool.old branch.now }
    requires classes { AreClassesOf pool.old branch.now classes.now }
    requires left { IsBranchTerm pool.old (branch_in pool.old branch.now) left }
    requires right { IsBranchTerm pool.old (branch_in pool.old branch.now) right }
    ensures extends { Extends pool.old pool.new }
    ensures exact { IfOk result (λ known. IsTrue known ↔ IsUnordered (branch_in pool.old branch.now) (term_at pool.old left) (term_at pool.old right)) }
{
    if !are_apart(pool, branch, classes, left, right) {
        return Ok(false);
    }
    let turned = is_instance_said(alloc, pool, branch, right, left)?;
    Ok(!turned)
}

// Decides whether a decision on the two terms is triggered.
fn are_triggered(
    alloc: Global,
    pool: &mut Pool,
    branch: &PoolBranch,
    classes: &BranchClasses,
    left: usize,
    right: usize,
) -> Result<bool, NoMemory>
    requires over { IsOver pool.old branch.now }
    requires classes { AreClassesOf pool.old branch.now classes.now }
    requires left { IsTermNumber pool.old left }
    requires right { IsTermNumber pool.old right }
    ensures extends { Extends pool.old pool.new }
    ensures exact { IfOk result (λ known. IsTrue known ↔ AsksDecision (branch_in pool.old branch.now) (term_at pool.old left) (term_at pool.old right)) }
{
    let indexes = are_indexes(alloc, pool, branch, classes, left, right)?;
    if indexes {
        return Ok(true);
    }
    are_said_to_differ(pool, branch, left, right)
}

// Decides whether a decision on the two terms is triggered and both are numbers.
fn are_triggered_numbers(
    alloc: Global,
    pool: &mut Pool,
    branch: &PoolBranch,
    classes: &BranchClasses,
    left: usize,
    right: usize,
) -> Result<bool, NoMemory>
    requires over { IsOver pool.old branch.now }
    requires classes { AreClassesOf pool.old branch.now classes.now }
    requires left { IsTermNumber pool.old left }
    requires right { IsTermNumber pool.old right }
    ensures extends { Extends pool.old pool.new }
    ensures exact { IfOk result (λ known. IsTrue known ↔ (AsksDecision (branch_in pool.old branch.now) (term_at pool.old left) (term_at pool.old right) × AreNumbers (branch_in pool.old branch.now) (term_at pool.old left) (term_at pool.old right))) }
{
    let triggered = are_triggered(alloc, pool, branch, classes, left, right)?;
    if !triggered {
        return Ok(false);
    }
    are_numbers(pool, branch, left, right)
}

// Decides whether a decision on the two terms is triggered, both are numbers, and it is open which is the greater.
fn is_pair_due(
    alloc: Global,
    pool: &mut Pool,
    branch: &PoolBranch,
    classes: &BranchClasses,
    left: usize,
    right: usize,
) -> Result<bool, NoMemory>
    requires over { IsOver pool.old branch.now }
    requires classes { AreClassesOf pool.old branch.now classes.now }
    requires left { IsBranchTerm pool.old (branch_in pool.old branch.now) left }
    requires right { IsBranchTerm pool.old (branch_in pool.old branch.now) right }
    ensures extends { Extends pool.old pool.new }
    ensures exact { IfOk result (λ known. IsTrue known ↔ IsPairDue (branch_in pool.old branch.now) (term_at pool.old left) (term_at pool.old right)) }
{
    let unordered = are_unordered(alloc, pool, branch, classes, left, right)?;
    if !unordered {
        return Ok(false);
    }
    are_triggered_numbers(alloc, pool, branch, classes, left, right)
}

// Decides whether the formula is the instance for such a pair.
fn is_order_of(
    alloc: Global,
    pool: &mut Pool,
    branch: &PoolBranch,
    classes: &BranchClasses,
    left: usize,
    right: usize,
    formula: usize,
) -> Result<bool, NoMemory>
    requires over { IsOver pool.old branch.now }
    requires classes { AreClassesOf pool.old branch.now classes.now }
    requires left { IsBranchTerm pool.old (branch_in pool.old branch.now) left }
    requires right { IsBranchTerm pool.old (branch_in pool.old branch.now) right }
    requires formula { IsFormulaNumber pool.old formula }
    ensures extends { Extends pool.old pool.new }
    ensures exact { IfOk result (λ known. IsTrue known ↔ IsOrderOf (branch_in pool.old branch.now) (term_at pool.old left) (term_at pool.old right) (formula_at pool.old formula)) }
{
    let same = is_instance(alloc, pool, left, right, formula)?;
    if !same {
        return Ok(false);
    }
    is_pair_due(alloc, pool, branch, classes, left, right)
}

/// Decides whether the formula is an instance of the trichotomy axiom (two numbers are equal, or one of them is at
/// least 1 less than the other) that is due with this generation.
pub(crate) fn is_order_due(
    alloc: Global,
    pool: &mut Pool,
    branch: &PoolBranch,
    classes: &BranchClasses,
    formula: usize,
    generation: usize,
) -> Result<bool, NoMemory>
    requires over { IsOver pool.old branch.now }
    requires classes { AreClassesOf pool.old branch.now classes.now }
    requires formula { IsFormulaNumber pool.old formula }
    ensures extends { Extends pool.old pool.new }
    ensures exact { IfOk result (λ known. IsTrue known ↔ IsOrderDue (branch_in pool.old branch.now) (formula_at pool.old formula) generation) }
{
    if branch.stands(pool, formula) {
        return Ok(false);
    }
    if pool.depth(formula) > MOST_DEPTH {
        return Ok(false);
    }
    let Some((left, right)) = number_sides(pool, formula) else {
        return Ok(false);
    };
    if !is_generation_of(pool, branch, left, right, generation) {
        return Ok(false);
    }
    is_order_of(alloc, pool, branch, classes, left, right, formula)
}
