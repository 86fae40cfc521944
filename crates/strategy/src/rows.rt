//! The elimination of a branch's rows, and the closing of the branch if they have no solution.

ghost use Rattle.std.specs.Prelude.{◌≤◌, List, IfOk};
ghost use Rattle.fol.specs.declared.shapes.Shape.{Shape};
ghost use Rattle.linear_arith.specs.Combination.{IsContradiction};
ghost use Rattle.term_pool.specs.Pools.{Extends};
ghost use Rattle.certificates.specs.BranchesBranch.{formulas};
ghost use Rattle.certificates.specs.Names.{above_all};
ghost use Rattle.certificates.specs.Due.{IsSaturated};
ghost use Rattle.tableau.specs.PoolBranches.{branch_in, IsOver};
ghost use Rattle.congruence_closure.specs.Known.{AreInEntries};
ghost use Rattle.tableau.specs.Terms.{AreClassesOf};
ghost use Rattle.closing_rules.specs.Eliminations.{AreNamedRows};
ghost use Rattle.search.specs.Decisions.{IsLevel, ShowsRows, ShowsLeaf};
ghost use Rattle.closing_rules.specs.Ends.{ShowsEnd};

use crate::ranks::guess::{Guess, Quotient};
use base::memory::NoMemory;
use closing_rules::class_closings::history::history_of;
use closing_rules::row_closings::end::{RowsEnd, close_rows};
use closing_rules::solving::elimination::eliminate;
use closing_rules::solving::values::open_or_bound;
use congruence_closure::branch_classes::BranchClasses;
use linear_arith::rows::{Fraction, LinAnswer};
use row_reasoning::rows::BranchRows;
use search::deciders::{LeafAnswer, RowsAnswer};
use std::alloc::Global;
use tableau::branch::PoolBranch;
use term_pool::pool::Pool;

// The result for a branch whose rows these multipliers combine to a contradiction.
fn end_of(
    alloc: Global,
    pool: &mut Pool,
    branch: &PoolBranch,
    classes: &BranchClasses,
    variable: u32,
    names: &[usize],
    rows: &BranchRows,
    multipliers: &[i128],
) -> Result<RowsEnd, NoMemory>
    requires over { IsOver pool.old branch.now }
    requires classes { AreClassesOf pool.old branch.now classes.now }
    requires inside { AreInEntries pool.old classes.now }
    requires variable { above_all (formulas (branch_in pool.old branch.now)) ≤ variable }
    requires rows { AreNamedRows pool.old (branch_in pool.old branch.now) names.now rows.now }
    requires contradiction { IsContradiction rows.now.rows multipliers.now }
    ensures extends { Extends pool.old pool.new }
    ensures shown { (shapes : List Shape) → IfOk result (ShowsEnd shapes pool.new (branch_in pool.old branch.now)) }
{
    let history = history_of(alloc, classes)?;
    let end = close_rows(
        alloc,
        pool,
        branch,
        classes,
        &history,
        variable,
        names,
        rows,
        multipliers,
    )?;
    Ok(end)
}

/// The result of an elimination of the rows, with the values if it computes some.
#[derive(Drop)]
pub(crate) struct RowsFound {
    pub answer: RowsAnswer,
    pub guess: Option<Guess>,
}

// The values, by the representatives of classes.
fn guess_of(
    alloc: Global,
    names: Vec<usize>,
    rows: &BranchRows,
    values: &[Fraction],
) -> Result<Guess, NoMemory> {
    let mut guess = Guess::new(alloc, names);
    for value in values {
        if let Some(name) = rows.classes.get_index(value.unknown) {
            let quotient = Quotient {
                numerator: value.numerator,
                denominator: value.denominator,
            };
            guess.note(*name, quotient)?;
        }
    }
    Ok(guess)
}

/// Returns the result of an elimination of a branch's rows, for any shapes. `classes` are those of its entries and of
/// nothing else; `variable` is greater than all variables of the branch. `NoMemory` if memory runs out.
pub(crate) fn rows_answer(
    alloc: Global,
    pool: &mut Pool,
    branch: &PoolBranch,
    classes: &BranchClasses,
    variable: u32,
) -> Result<RowsFound, NoMemory>
    requires over { IsOver pool.old branch.now }
    requires classes { AreClassesOf pool.old branch.now classes.now }
    requires inside { AreInEntries pool.old classes.now }
    requires variable { above_all (formulas (branch_in pool.old branch.now)) ≤ variable }
    ensures extends { Extends pool.old pool.new }
    ensures shown { IfOk result (λ found. (shapes : List Shape) → ShowsRows shapes pool.new (branch_in pool.old branch.now) found.answer) }
{
    let found = eliminate(alloc, pool, branch, classes)?;
    let names = found.names;
    let rows = found.rows;
    match found.answer {
        LinAnswer::Feasible(values) => {
            let guess = guess_of(alloc, names, &rows, values.as_slice())?;
            Ok(RowsFound {
                answer: RowsAnswer::Met,
                guess: Some(guess),
            })
        }
        LinAnswer::Infeasible(multipliers) => {
            let by = multipliers.as_slice();
            let known = names.as_slice();
            let end = end_of(alloc, pool, branch, classes, variable, known, &rows, by)?;
            match end {
                RowsEnd::Closes(closing) => Ok(RowsFound {
                    answer: RowsAnswer::Closes(closing),
                    guess: None,
                }),
                RowsEnd::TooLong => Ok(RowsFound {
                    answer: RowsAnswer::TooLong,
                    guess: None,
                }),
            }
        }
        LinAnswer::Wide(first, second) => Ok(RowsFound {
            answer: RowsAnswer::Wide(first, second),
            guess: None,
        }),
        LinAnswer::TooManyRows(many) => Ok(RowsFound {
            answer: RowsAnswer::TooMany(many),
            guess: None,
        }),
    }
}

/// Returns the result for a branch on which nothing else is due, by an elimination of its rows. `classes` are those of
/// its entries and of nothing else; `variable` is greater than all variables of the branch. `NoMemory` if memory runs
/// out.
pub(crate) fn leaf_answer(
    alloc: Global,
    pool: &mut Pool,
    branch: &PoolBranch,
    classes: &BranchClasses,
    variable: u32,
) -> Result<LeafAnswer, NoMemory>
    requires over { IsOver pool.old branch.now }
    requires classes { AreClassesOf pool.old branch.now classes.now }
    requires inside { AreInEntries pool.old classes.now }
    requires level { IsLevel (branch_in pool.old branch.now) }
    requires variable { above_all (formulas (branch_in pool.old branch.now)) ≤ variable }
    ensures extends { Extends pool.old pool.new }
    ensures shown { IfOk result (λ answer. (shapes : List Shape) → IsSaturated shapes (branch_in pool.old branch.now) → ShowsLeaf shapes pool.new (branch_in pool.old branch.now) answer) }
{
    let found = eliminate(alloc, pool, branch, classes)?;
    let names = found.names;
    let rows = found.rows;
    match found.answer {
        LinAnswer::Feasible(values) => {
            let known = names.as_slice();
            let answer = open_or_bound(alloc, pool, branch, known, &rows, values)?;
            Ok(answer)
        }
        LinAnswer::Infeasible(multipliers) => {
            let by = multipliers.as_slice();
            let known = names.as_slice();
            let end = end_of(alloc, pool, branch, classes, variable, known, &rows, by)?;
            match end {
                RowsEnd::Closes(closing) => Ok(LeafAnswer::Closes(closing)),
                RowsEnd::TooLong => Ok(LeafAnswer::TooLong),
            }
        }
        LinAnswer::Wide(first, second) => Ok(LeafAnswer::Wide(first, second)),
        LinAnswer::TooManyRows(many) => Ok(LeafAnswer::TooMany(many)),
    }
}
