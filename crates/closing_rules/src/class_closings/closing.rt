//! Closings of a branch by a clash up to congruence, with an explanation if the clash needs one.

ghost use Rattle.std.specs.Prelude.{◌≤◌, List, length, IfOk};
ghost use Rattle.fol.specs.declared.shapes.Shape.{Shape};
ghost use Rattle.term_pool.specs.Pools.{Extends};
ghost use Rattle.certificates.specs.Closes.{most_entries};
ghost use Rattle.certificates.specs.BranchesBranch.{formulas};
ghost use Rattle.certificates.specs.Names.{above_all};
ghost use Rattle.tableau.specs.PoolBranches.{branch_in, IsOver};
ghost use Rattle.congruence_closure.specs.Known.{AreInEntries};
ghost use Rattle.tableau.specs.Terms.{AreClassesOf};
ghost use Rattle.closing_rules.specs.Clashes.{AreOpposed, DeniesJoined, IsClashOf};
ghost use Rattle.search.specs.Decisions.{ShowsClosing};

use crate::clashes::clash::Clash;
use crate::clashes::literal::next_literal;
use crate::clashes::next::next_clash;
use crate::class_closings::depth::{are_low, is_shallow};
use crate::class_closings::entries::{chain_of, denied_by, formula_of, sides_of};
use crate::class_closings::history::history_of;
use crate::class_closings::linked::{alike_answer, equation_answer};
use crate::closings::literal::literal_closing;
use base::memory::NoMemory;
use congruence_closure::branch_classes::BranchClasses;
use explanations::derived::difference::Graph;
use search::deciders::ClosingAnswer;
use std::alloc::Global;
use tableau::branch::PoolBranch;
use term_pool::pool::Pool;

// The closing of a branch in which this entry negates an equation of two congruent terms.
fn differing(
    alloc: Global,
    pool: &mut Pool,
    branch: &PoolBranch,
    classes: &BranchClasses,
    variable: u32,
    entry: usize,
) -> Result<ClosingAnswer, NoMemory>
    requires over { IsOver pool.old branch.now }
    requires classes { AreClassesOf pool.old branch.now classes.now }
    requires inside { AreInEntries pool.old classes.now }
    requires variable { above_all (formulas (branch_in pool.old branch.now)) ≤ variable }
    requires differs { DeniesJoined (branch_in pool.old branch.now) entry }
    ensures extends { Extends pool.old pool.new }
    ensures shown { IfOk result (λ answer. (shapes : List Shape) → ShowsClosing shapes pool.new (branch_in pool.old branch.now) answer) }
{
    if !are_low(pool, branch) {
        return Ok(ClosingAnswer::TooLong);
    }
    pool.one_number();
    classes.exact();
    classes.shown();
    let equation = denied_by(pool, branch, entry);
    let sides = sides_of(pool, equation);
    let one = classes.node(sides.0);
    let other = classes.node(sides.1);
    let nodes = classes.nodes();
    let links = classes.links();
    let numbers = classes.numbers();
    let history = history_of(alloc, classes)?;
    let mut chain = chain_of(alloc, branch, variable)?;
    let graph = Graph {
        nodes,
        links,
        history: &history,
        numbers,
    };
    equation_answer(alloc, pool, &mut chain, graph, one, other, entry)
}

// The closing of a branch in which the second entry negates a formula that is the first one's up to congruence.
fn opposed(
    alloc: Global,
    pool: &mut Pool,
    branch: &PoolBranch,
    classes: &BranchClasses,
    variable: u32,
    said: usize,
    denied: usize,
) -> Result<ClosingAnswer, NoMemory>
    requires over { IsOver pool.old branch.now }
    requires classes { AreClassesOf pool.old branch.now classes.now }
    requires inside { AreInEntries pool.old classes.now }
    requires variable { above_all (formulas (branch_in pool.old branch.now)) ≤ variable }
    requires opposed { AreOpposed (branch_in pool.old branch.now) said denied }
    ensures extends { Extends pool.old pool.new }
    ensures shown { IfOk result (λ answer. (shapes : List Shape) → ShowsClosing shapes pool.new (branch_in pool.old branch.now) answer) }
{
    if !are_low(pool, branch) {
        return Ok(ClosingAnswer::TooLong);
    }
    let formula = formula_of(branch, said);
    if !is_shallow(pool, formula) {
        return Ok(ClosingAnswer::TooLong);
    }
    pool.one_number();
    classes.exact();
    classes.shown();
    let inner = denied_by(pool, branch, denied);
    let one = classes.node(formula);
    let other = classes.node(inner);
    let nodes = classes.nodes();
    let links = classes.links();
    let numbers = classes.numbers();
    let history = history_of(alloc, classes)?;
    let mut chain = chain_of(alloc, branch, variable)?;
    let graph = Graph {
        nodes,
        links,
        history: &history,
        numbers,
    };
    alike_answer(alloc, pool, &mut chain, graph, one, other, said, denied)
}

// The closing of a branch by this clash.
fn clash_closing(
    alloc: Global,
    pool: &mut Pool,
    branch: &PoolBranch,
    classes: &BranchClasses,
    variable: u32,
    clash: Clash,
) -> Result<ClosingAnswer, NoMemory>
    requires over { IsOver pool.old branch.now }
    requires classes { AreClassesOf pool.old branch.now classes.now }
    requires inside { AreInEntries pool.old classes.now }
    requires short { length branch.now.entries ≤ most_entries }
    requires variable { above_all (formulas (branch_in pool.old branch.now)) ≤ variable }
    requires clash { IsClashOf (branch_in pool.old branch.now) clash }
    ensures extends { Extends pool.old pool.new }
    ensures shown { IfOk result (λ answer. (shapes : List Shape) → ShowsClosing shapes pool.new (branch_in pool.old branch.now) answer) }
{
    match clash {
        Clash::Opposed(said, denied) => {
            opposed(alloc, pool, branch, classes, variable, said, denied)
        }
        Clash::Differing(entry) => differing(alloc, pool, branch, classes, variable, entry),
        Clash::False(_) => {
            let closing = literal_closing(alloc, pool, branch, clash);
            Ok(ClosingAnswer::Closes(closing))
        }
    }
}

/// Finds a closing of a branch up to congruence, for any shapes: a clash of its entries, with an explanation if it
/// needs one. The result is `TooLong` if the explanation is too long, or if a clash needs one and an entry is deeper
/// than a step may add. `classes` are those of the branch's entries and of nothing else; `variable` is greater than all
/// variables of the branch.
///
/// # Errors
///
/// Only if memory runs out.
pub fn closing(
    alloc: Global,
    pool: &mut Pool,
    branch: &PoolBranch,
    classes: &BranchClasses,
    variable: u32,
) -> Result<ClosingAnswer, NoMemory>
    requires over { IsOver pool.old branch.now }
    requires classes { AreClassesOf pool.old branch.now classes.now }
    requires inside { AreInEntries pool.old classes.now }
    requires short { length branch.now.entries ≤ most_entries }
    requires variable { above_all (formulas (branch_in pool.old branch.now)) ≤ variable }
    ensures extends { Extends pool.old pool.new }
    ensures shown { IfOk result (λ answer. (shapes : List Shape) → ShowsClosing shapes pool.new (branch_in pool.old branch.now) answer) }
{
    if let Some(literal) = next_literal(pool, branch) {
        let closing = literal_closing(alloc, pool, branch, literal);
        return Ok(ClosingAnswer::Closes(closing));
    }
    let Some(clash) = next_clash(alloc, pool, branch, classes)? else {
        return Ok(ClosingAnswer::Open);
    };
    clash_closing(alloc, pool, branch, classes, variable, clash)
}
