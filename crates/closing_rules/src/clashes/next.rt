//! The search for a clash of a branch up to congruence.

ghost use Rattle.std.specs.Prelude.{◌↔◌, nat_eq, IsTrue, IfOk, MatchOption};
ghost use Rattle.indexmap.specs.IndexMap.{get};
ghost use Rattle.certificates.specs.Due.{IsNotClosed};
ghost use Rattle.tableau.specs.PoolBranches.{branch_in, IsFormulaNumber, IsOver};
ghost use Rattle.congruence_closure.specs.Known.{IsKnown};
ghost use Rattle.tableau.specs.Numbers.{formula_at};
ghost use Rattle.tableau.specs.Terms.{AreClassesOf};
ghost use Rattle.closing_rules.specs.Clashes.{EquatesJoined, IsClashOf, IsNotClosedAt};
ghost use Rattle.closing_rules.specs.Indexes.{AreEntriesByClass};

use crate::clashes::clash::Clash;
use crate::clashes::forms::is_false_form;
use crate::clashes::index::entries_by_class;
use base::memory::NoMemory;
use congruence_closure::branch_classes::BranchClasses;
use indexmap::IndexMap;
use std::alloc::Global;
use tableau::branch::PoolBranch;
use term_pool::numbers::look_up;
use term_pool::pool::Pool;

// Decides whether the formula equates two congruent terms.
fn equates_joined(pool: &Pool, branch: &PoolBranch, classes: &BranchClasses, formula: usize) -> bool
    requires over { IsOver pool.now branch.now }
    requires classes { AreClassesOf pool.now branch.now classes.now }
    requires formula { IsFormulaNumber pool.now formula }
    requires known { IsKnown classes.now formula }
    ensures { IsTrue result ↔ EquatesJoined (branch_in pool.now branch.now) (formula_at pool.now formula) }
{
    pool.one_number();
    match pool.sides(formula) {
        Some((left, right)) => classes.are_joined(left, right),
        None => false,
    }
}

// The clash at the entry with this number, whose formula is false by its form or a negation.
fn clash_at(
    pool: &Pool,
    branch: &PoolBranch,
    classes: &BranchClasses,
    by_class: &IndexMap<usize, usize>,
    i: usize,
) -> Option<Clash>
    requires over { IsOver pool.now branch.now }
    requires classes { AreClassesOf pool.now branch.now classes.now }
    requires by_class { AreEntriesByClass branch.now classes.now (get nat_eq by_class.now) }
    ensures { MatchOption result (IsNotClosedAt (branch_in pool.now branch.now) i) (IsClashOf (branch_in pool.now branch.now)) }
{
    pool.one_number();
    classes.exact();
    let Some(entry) = branch.entry(i) else {
        return None;
    };
    if is_false_form(pool, entry.formula) {
        return Some(Clash::False(i));
    }
    let Some(inner) = pool.denied(entry.formula) else {
        return None;
    };
    if equates_joined(pool, branch, classes, inner) {
        return Some(Clash::Differing(i));
    }
    match look_up(by_class, classes.class(inner)) {
        Some(said) => Some(Clash::Opposed(said, i)),
        None => None,
    }
}

/// Finds a clash of a branch up to congruence; `None` if there is none. `classes` are those of its entries. The running
/// time is linear in the number of entries. `NoMemory` if memory runs out.
pub fn next_clash(
    alloc: Global,
    pool: &Pool,
    branch: &PoolBranch,
    classes: &BranchClasses,
) -> Result<Option<Clash>, NoMemory>
    requires over { IsOver pool.now branch.now }
    requires classes { AreClassesOf pool.now branch.now classes.now }
    ensures { IfOk result (λ found. MatchOption found (IsNotClosed (branch_in pool.now branch.now)) (IsClashOf (branch_in pool.now branch.now))) }
{
    pool.one_number();
    let by_class = entries_by_class(alloc, branch, classes)?;
    for i in 0..branch.len() {
        if let Some(clash) = clash_at(pool, branch, classes, &by_class, i) {
            return Ok(Some(clash));
        }
    }
    Ok(None)
}
