//! The result for rows of a branch that have no solution.

ghost use Rattle.std.specs.Prelude.{◌≡◌, ◌≤◌, List, length, map, nat_eq, IfOk};
ghost use Rattle.indexmap.specs.IndexMap.{get};
ghost use Rattle.fol.specs.declared.shapes.Shape.{Shape};
ghost use Rattle.linear_arith.specs.Combination.{IsContradiction};
ghost use Rattle.term_pool.specs.Pools.{Extends};
ghost use Rattle.congruence_closure.specs.Histories.{IsHistory};
ghost use Rattle.certificates.specs.BranchesBranch.{formulas};
ghost use Rattle.certificates.specs.Names.{above_all};
ghost use Rattle.tableau.specs.PoolBranches.{branch_in, IsOver};
ghost use Rattle.congruence_closure.specs.Known.{AreInEntries};
ghost use Rattle.tableau.specs.Terms.{formula_number, AreClassesOf};
ghost use Rattle.closing_rules.specs.Eliminations.{AreNamedRows};
ghost use Rattle.closing_rules.specs.Rewritings.{AreRewritingsOf, CoverRows};
ghost use Rattle.closing_rules.specs.Settings.{IsSetting};
ghost use Rattle.closing_rules.specs.Ends.{ShowsEnd};

use crate::class_closings::depth::are_low;
use crate::closings::rows::rows_closing;
use crate::row_closings::cited::cited_entries;
use crate::row_closings::positions::positions;
use crate::row_closings::rewriting::{Rewriting, rewritings};
use base::memory::NoMemory;
use congruence_closure::branch_classes::BranchClasses;
use congruence_closure::proof_forest::History;
use explanations::chain::Chain;
use indexmap::IndexMap;
use row_reasoning::closings::chosen::chosen_terms;
use row_reasoning::differences::choice::Choice;
use row_reasoning::rows::BranchRows;
use search::trees::application::Closing;
use std::alloc::Global;
use tableau::aliasing::terms::terms;
use tableau::branch::PoolBranch;
use term_pool::pool::Pool;

/// The result for rows that have no solution.
#[derive(Drop)]
pub enum RowsEnd {
    /// This closing closes the branch.
    Closes(Closing),
    /// The closing would make the branch longer than the maximal length, or needs an entry that exceeds the maximal
    /// depth of a formula.
    TooLong,
}

// The numbers of the formulas of a branch.
fn formula_numbers(alloc: Global, branch: &PoolBranch) -> Result<Vec<usize>, NoMemory>
    ensures { IfOk result (λ numbers. numbers.items ≡ map formula_number branch.now.entries) }
{
    let mut numbers = Vec::new(alloc);
    for number in 0..branch.len() {
        let Some(entry) = branch.entry(number) else {
            continue;
        };
        numbers.push(entry.formula)?;
    }
    Ok(numbers)
}

// The result, given the rewritings of the entries of the combined rows.
fn closed_with(
    alloc: Global,
    pool: &mut Pool,
    branch: &PoolBranch,
    choice: Choice<'_>,
    variable: u32,
    rows: &BranchRows,
    multipliers: &[i128],
    rewritings: &[Rewriting],
) -> Result<RowsEnd, NoMemory>
    requires setting { IsSetting pool.old branch.now choice.classes.now choice.names.now (get nat_eq choice.chosen.now) rows.now multipliers.now variable }
    requires history { IsHistory choice.classes.now.classes.links (length choice.classes.now.classes.links) choice.history.now }
    requires rewritings { AreRewritingsOf pool.old branch.now choice.classes.now choice.names.now (get nat_eq choice.chosen.now) rewritings.now }
    requires cover { CoverRows rows.now.origins.items multipliers.now rewritings.now }
    ensures extends { Extends pool.old pool.new }
    ensures shown { (shapes : List Shape) → IfOk result (ShowsEnd shapes pool.new (branch_in pool.old branch.now)) }
{
    let entries = formula_numbers(alloc, branch)?;
    let mut chain = Chain::of(alloc, entries.as_slice(), variable)?;
    let found = positions(alloc, pool, &mut chain, branch, choice, rewritings)?;
    let origins = rows.origins.as_slice();
    match rows_closing(alloc, &chain, origins, multipliers, found.as_slice())? {
        Some(closing) => Ok(RowsEnd::Closes(closing)),
        None => Ok(RowsEnd::TooLong),
    }
}

// The result, given these chosen terms.
fn closed_by(
    alloc: Global,
    pool: &mut Pool,
    branch: &PoolBranch,
    choice: Choice<'_>,
    variable: u32,
    rows: &BranchRows,
    multipliers: &[i128],
) -> Result<RowsEnd, NoMemory>
    requires setting { IsSetting pool.old branch.now choice.classes.now choice.names.now (get nat_eq choice.chosen.now) rows.now multipliers.now variable }
    requires history { IsHistory choice.classes.now.classes.links (length choice.classes.now.classes.links) choice.history.now }
    ensures extends { Extends pool.old pool.new }
    ensures shown { (shapes : List Shape) → IfOk result (ShowsEnd shapes pool.new (branch_in pool.old branch.now)) }
{
    let origins = rows.origins.as_slice();
    let cited = cited_entries(alloc, branch.len(), origins, multipliers)?;
    let mut sums = IndexMap::new(alloc);
    match rewritings(alloc, pool, branch, choice, &mut sums, cited.as_slice())? {
        Some(found) => {
            let rewritings = found.as_slice();
            let end = closed_with(
                alloc,
                pool,
                branch,
                choice,
                variable,
                rows,
                multipliers,
                rewritings,
            )?;
            Ok(end)
        }
        None => Ok(RowsEnd::TooLong),
    }
}

/// Returns the closing of a branch whose rows have no solution: these multipliers combine them to a contradiction.
/// `classes` are those of the branch's entries and of nothing else, `history` is theirs, and `variable` is greater than
/// all variables of the branch. `NoMemory` if memory runs out.
pub fn close_rows(
    alloc: Global,
    pool: &mut Pool,
    branch: &PoolBranch,
    classes: &BranchClasses,
    history: &History,
    variable: u32,
    names: &[usize],
    rows: &BranchRows,
    multipliers: &[i128],
) -> Result<RowsEnd, NoMemory>
    requires over { IsOver pool.old branch.now }
    requires classes { AreClassesOf pool.old branch.now classes.now }
    requires inside { AreInEntries pool.old classes.now }
    requires history { IsHistory classes.now.classes.links (length classes.now.classes.links) history.now }
    requires variable { above_all (formulas (branch_in pool.old branch.now)) ≤ variable }
    requires rows { AreNamedRows pool.old (branch_in pool.old branch.now) names.now rows.now }
    requires contradiction { IsContradiction rows.now.rows multipliers.now }
    ensures extends { Extends pool.old pool.new }
    ensures shown { (shapes : List Shape) → IfOk result (ShowsEnd shapes pool.new (branch_in pool.old branch.now)) }
{
    if !are_low(pool, branch) {
        return Ok(RowsEnd::TooLong);
    }
    let terms = terms(alloc, pool, branch)?;
    let chosen = chosen_terms(alloc, pool, names, terms.as_slice())?;
    pool.one_number();
    classes.exact();
    classes.shown();
    let choice = Choice {
        classes,
        history,
        names,
        chosen: &chosen,
    };
    let end = closed_by(alloc, pool, branch, choice, variable, rows, multipliers)?;
    Ok(end)
}
