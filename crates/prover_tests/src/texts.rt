//! Whether the texts of searches are seen to show what the searches answer.

ghost use Rattle.std.specs.Prelude.{◌≡◌, OnOk, IfOk};
ghost use Rattle.tableau.specs.PoolBranches.{IsFormulaNumber};

use crate::searches::word_of;
use crate::structs::shapes;
use crate::words::Fault;
use certificate_text::prover::answer::{Answer, Search};
use fol::formula::Formula;
use linear_arith::rows::{Fraction, Fractions};
use search::end::End;
use search::search::Outcome;
use search::trees::application::{Extension, PoolApplication};
use search::trees::tree::SearchTree;
use search::values::OpenValues;
use std::alloc::Global;
use std::mem;
use term_pool::interning::intern_formula;
use term_pool::pool::Pool;
use tree_checks::partial::applications::GivenChain;
use tree_checks::texts::open::is_open_text;
use tree_checks::texts::partial::is_partial_text;

/// What is changed before it is asked whether a text shows an answer.
#[derive(Clone, Copy, Debug, PartialEq, Eq)]
pub(crate) enum Change {
    Nothing,
    /// It is to have one step more.
    AnotherStep,
    FirstLeftOut,
    LastLeftOut,
    /// The first turn comes once more, at the end.
    FirstTwice,
    /// Each turn has the next generation.
    NextGeneration,
    /// The first value is one less.
    OneLess,
}

/// A search that has ended, and the number of the denial of its formula.
#[derive(Drop)]
pub(crate) struct Searched {
    pool: Pool,
    denial: usize,
    text: Vec<PoolApplication>,
    end: End,
}

/// The search that gave the answer for a formula, if one ended.
pub(crate) fn search_of(formula: Box<Formula>, answer: Answer) -> Result<Searched, Fault>
    ensures { IfOk result (λ search. IsFormulaNumber search.pool search.denial) }
{
    let Answer::Ended(search) = answer else {
        return Err(Fault::Word);
    };
    let Search { mut pool, outcome } = search;
    let Outcome { end, tree } = outcome;
    let SearchTree {
        branch: _,
        waiting: _,
        text,
    } = tree;
    let denial = intern_formula(&mut pool, &Formula::not(formula))?;
    Ok(Searched {
        pool,
        denial,
        text,
        end,
    })
}

/// The word for the search's answer.
pub(crate) fn answer_of(search: &Searched) -> &'static str {
    word_of(&search.end)
}

fn steps_of(text: &[PoolApplication]) -> u64 {
    let mut steps: u64 = 0;
    for application in text {
        let more = match application {
            PoolApplication::Grown(_) => 1,
            PoolApplication::Closed(closing) => closing.chain.len() as u64,
        };
        steps = steps.saturating_add(more);
    }
    steps
}

// ---- changes

fn copied(alloc: Global, extension: &Extension) -> Result<Extension, Fault> {
    Ok(Extension {
        reason: extension.reason,
        generation: extension.generation,
        formulas: Vec::from_slice(alloc, extension.formulas.as_slice())?,
    })
}

// The first turn once more, if formulas are added by it.
fn first_again(alloc: Global, text: &[PoolApplication]) -> Result<Option<PoolApplication>, Fault> {
    match text.first() {
        Some(PoolApplication::Grown(extension)) => Ok(Some(PoolApplication::Grown(copied(
            alloc, extension,
        )?))),
        _ => Ok(None),
    }
}

fn raise_generations(text: &mut Vec<PoolApplication>) {
    for application in text.iter_mut() {
        if let PoolApplication::Grown(extension) = application {
            extension.generation = extension.generation.saturating_add(1);
        }
    }
}

fn change_text(
    alloc: Global,
    text: &mut Vec<PoolApplication>,
    change: Change,
) -> Result<(), Fault> {
    match change {
        Change::FirstLeftOut => {
            text.reverse();
            let _first = text.pop();
            text.reverse();
        }
        Change::LastLeftOut => {
            let _last = text.pop();
        }
        Change::FirstTwice => {
            if let Some(application) = first_again(alloc, text.as_slice())? {
                text.push(application)?;
            }
        }
        Change::NextGeneration => raise_generations(text),
        Change::Nothing | Change::AnotherStep | Change::OneLess => {}
    }
    Ok(())
}

fn change_values(alloc: Global, values: OpenValues, change: Change) -> Result<OpenValues, Fault> {
    let OpenValues {
        names,
        classes,
        values,
    } = values;
    if change != Change::OneLess {
        return Ok(OpenValues {
            names,
            classes,
            values,
        });
    }
    let mut less = Fractions::new(alloc);
    for value in values.as_slice() {
        let one = if less.as_slice().is_empty() {
            value.denominator
        } else {
            0
        };
        less.push(Fraction {
            unknown: value.unknown,
            numerator: value.numerator.saturating_sub(one),
            denominator: value.denominator,
        })?;
    }
    Ok(OpenValues {
        names,
        classes,
        values: less,
    })
}

// ---- what is told

// The search's text, which it has no more.
fn taken_text(
    alloc: Global,
    search: &mut Searched,
    change: Change,
) -> Result<Vec<PoolApplication>, Fault>
    ensures pool { OnOk result (search.new.pool ≡ search.old.pool) }
    ensures denial { OnOk result (search.new.denial ≡ search.old.denial) }
{
    let mut text = mem::replace(&mut search.text, Vec::new(alloc));
    change_text(alloc, &mut text, change)?;
    Ok(text)
}

/// Whether the search's text is seen to be a partial tree with as many steps as it has.
pub(crate) fn is_tree(alloc: Global, search: &mut Searched, change: Change) -> Result<bool, Fault>
    requires { IsFormulaNumber search.old.pool search.old.denial }
{
    let shapes = shapes(alloc)?;
    let text = taken_text(alloc, search, change)?;
    let mut steps = steps_of(text.as_slice());
    if change == Change::AnotherStep {
        steps = steps.saturating_add(1);
    }
    let denial = search.denial;
    let known = is_partial_text(alloc, &mut search.pool, &shapes, denial, text, &None, steps)?;
    Ok(known)
}

/// Whether the search's text is seen to show that its budget is spent.
pub(crate) fn is_spent(
    alloc: Global,
    search: &mut Searched,
    budget: u64,
    change: Change,
) -> Result<bool, Fault>
    requires { IsFormulaNumber search.old.pool search.old.denial }
{
    let shapes = shapes(alloc)?;
    let text = taken_text(alloc, search, change)?;
    let denial = search.denial;
    let chain = match mem::replace(&mut search.end, End::Spent) {
        End::SpentInChain(closing, links) => Some(GivenChain { closing, links }),
        _ => None,
    };
    let known = is_partial_text(
        alloc,
        &mut search.pool,
        &shapes,
        denial,
        text,
        &chain,
        budget,
    )?;
    Ok(known)
}

/// Whether the search's text is seen to show that a branch is open with its values.
pub(crate) fn is_open(alloc: Global, search: &mut Searched, change: Change) -> Result<bool, Fault>
    requires { IsFormulaNumber search.old.pool search.old.denial }
{
    let shapes = shapes(alloc)?;
    let text = taken_text(alloc, search, change)?;
    let denial = search.denial;
    let End::Open(values) = mem::replace(&mut search.end, End::Spent) else {
        return Err(Fault::Word);
    };
    let values = change_values(alloc, values, change)?;
    let known = is_open_text(alloc, &mut search.pool, &shapes, denial, text, &values)?;
    Ok(known)
}
