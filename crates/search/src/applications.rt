//! A step of the search: it applies a rule that is due, or ends the search.

ghost use Rattle.std.specs.Prelude.{◌≡◌, ◌↔◌, ℕ, ◌+◌, List, length, vec_len, IsTrue, IfOk, OnOk};
ghost use Rattle.fol.specs.declared.shapes.Shape.{Shape};
ghost use Rattle.term_pool.specs.Pools.{Extends};
ghost use Rattle.term_pool.specs.declared.node.Node.{Node};
ghost use Rattle.tableau.specs.PoolBranches.{branch_in};
ghost use Rattle.search.specs.Applications.{is_fork};
ghost use Rattle.search.specs.declared.trees.tree.SearchTree.{SearchTree};
ghost use Rattle.search.specs.Decisions.{LeavesShort, IsExtensionDue, IsClosingDue, ShowsStop};
ghost use Rattle.search.specs.Ends.{Claim, IsGoing, Shows, ShowsEnd, FallsIn};

use crate::budget::{take_step, take_steps};
use crate::deciders::Deciders;
use crate::decisions::{Decision, Stop, decide};
use crate::end::End;
use crate::trees::application::{Closing, Extension, is_fork};
use crate::trees::tree::{SearchTree, close, grow};
use base::memory::NoMemory;
use base::steps::Steps;
use certificates::branch::MOST_ENTRIES;
use std::alloc::Global;
use std::sync::ledger::Ledger;
use term_pool::pool::Pool;

// Decides whether the branches that the extension leaves do not exceed the maximal length.
fn fits(tree: &SearchTree, extension: &Extension) -> bool
    ensures { IsTrue result ↔ LeavesShort (is_fork extension.now.reason) (length tree.now.branch.entries) (length extension.now.formulas.items) }
{
    let len = tree.branch.len();
    if is_fork(extension.reason) {
        len < MOST_ENTRIES
    } else {
        len <= MOST_ENTRIES && extension.formulas.len() <= MOST_ENTRIES - len
    }
}

// Applies an extension that is due.
fn take<D: Deciders, L: Ledger>(
    alloc: Global,
    deciders: &D,
    pool: &Pool,
    tree: &mut SearchTree,
    extension: Extension,
    steps: &mut Steps<L>,
    left: &mut u64,
) -> Result<Option<End>, NoMemory>
    ghost sought: { Claim }
    requires going { IsGoing (D.shapes deciders.now) sought left.old pool.now tree.old }
    requires due { IsExtensionDue (D.shapes deciders.now) pool.now (branch_in pool.now tree.old.branch) extension }
    ensures shown { IfOk result (Shows (D.shapes deciders.now) sought left.new pool.now tree.new) }
    ensures counted { steps.new + left.new ≡ steps.old + left.old }
    ensures falls { IfOk result (FallsIn left.old left.new (vec_len tree.old.waiting) (vec_len tree.new.waiting)) }
{
    if !fits(tree, &extension) {
        return Ok(Some(End::Full));
    }
    if !take_step(steps, left) {
        return Ok(Some(End::Spent));
    }
    grow(alloc, pool, tree, extension)?;
    Ok(None)
}

// Applies a closing that is due.
fn close_branch<D: Deciders, L: Ledger>(
    alloc: Global,
    deciders: &D,
    pool: &Pool,
    tree: &mut SearchTree,
    closing: Closing,
    steps: &mut Steps<L>,
    left: &mut u64,
) -> Result<Option<End>, NoMemory>
    ghost sought: { Claim }
    requires going { IsGoing (D.shapes deciders.now) sought left.old pool.now tree.old }
    requires due { IsClosingDue (D.shapes deciders.now) pool.now (branch_in pool.now tree.old.branch) closing }
    ensures shown { IfOk result (Shows (D.shapes deciders.now) sought left.new pool.now tree.new) }
    ensures counted { steps.new + left.new ≡ steps.old + left.old }
    ensures falls { IfOk result (FallsIn left.old left.new (vec_len tree.old.waiting) (vec_len tree.new.waiting)) }
{
    let taken = take_steps(steps, left, closing.chain.len());
    if taken < closing.chain.len() {
        return Ok(Some(End::SpentInChain(closing, taken)));
    }
    if close(alloc, pool, tree, closing)? {
        Ok(None)
    } else {
        Ok(Some(End::Proved))
    }
}

// The end of a search that stops at a branch.
fn end_at(stop: Stop) -> End
    ensures { (shapes : List Shape) (claim : Claim) (left : ℕ) (ns : List Node) (t : SearchTree) → IsGoing shapes claim left ns t → ShowsStop shapes ns (branch_in ns t.branch) stop → ShowsEnd shapes claim left ns t result }
{
    match stop {
        Stop::Open(values) => End::Open(values),
        Stop::Wide(first, second) => End::Wide(first, second),
        Stop::TooManyRows(rows) => End::TooManyRows(rows),
        Stop::Full => End::Full,
    }
}

/// Applies one rule that is due; returns an end if no branch is left or no rule is applied.
pub(crate) fn move_on<D: Deciders, L: Ledger>(
    alloc: Global,
    deciders: &mut D,
    pool: &mut Pool,
    tree: &mut SearchTree,
    steps: &mut Steps<L>,
    left: &mut u64,
) -> Result<Option<End>, NoMemory>
    ghost sought: { Claim }
    requires knows { D.knows deciders.old pool.old }
    requires going { IsGoing (D.shapes deciders.old) sought left.old pool.old tree.old }
    ensures extends { Extends pool.old pool.new }
    ensures knows { OnOk result (D.knows deciders.new pool.new) }
    ensures shapes { OnOk result (D.shapes deciders.new ≡ D.shapes deciders.old) }
    ensures shown { IfOk result (Shows (D.shapes deciders.old) sought left.new pool.new tree.new) }
    ensures counted { steps.new + left.new ≡ steps.old + left.old }
    ensures falls { IfOk result (FallsIn left.old left.new (vec_len tree.old.waiting) (vec_len tree.new.waiting)) }
{
    match decide(alloc, deciders, pool, &tree.branch)? {
        Decision::Grows(extension) => take(alloc, deciders, pool, tree, extension, steps, left),
        Decision::Closes(closing) => {
            close_branch(alloc, deciders, pool, tree, closing, steps, left)
        }
        Decision::Stops(stop) => Ok(Some(end_at(stop))),
    }
}
