//! What the prover finds out.

ghost use Rattle.std.specs.Prelude.{◌≡◌, ◌<◌};

use crate::structs::shapes;
use base::memory::NoMemory;
use base::steps::Steps;
use certificate_text::prover::answer::Answer;
use certificate_text::prover::prove;
use fol::formula::Formula;
use linear_arith::rows::Fraction;
use search::end::End;
use std::alloc::Global;
use std::sync::ledger::{Blank, Ledger};
use strategy::deciders::FormulaDeciders;

/// What the prover answers for a formula within a budget.
pub(crate) fn found<L: Ledger>(
    alloc: Global,
    formula: &Formula,
    budget: u64,
    blank: Blank,
) -> Result<Answer, NoMemory>
    requires name { blank.name ≡ L.name }
    requires parts { blank.parts ≡ L.parts }
    requires some { 0 < L.parts }
{
    let mut steps = Steps::<L>::new(blank);
    let shapes = shapes(alloc)?;
    let mut deciders = FormulaDeciders::new(alloc, &shapes);
    let answer = prove(alloc, &mut deciders, formula, budget, &mut steps)?;
    Ok(answer)
}

/// The word for the end of a search.
pub(crate) fn word_of(end: &End) -> &'static str {
    match end {
        End::Proved => "proved",
        End::Open(_) => "open",
        End::Spent => "spent",
        End::SpentInChain(_, _) => "spent in a chain",
        End::Wide(_, _) => "wide",
        End::TooManyRows(_) => "too many rows",
        End::Full => "full",
    }
}

/// The word for an answer.
pub(crate) fn word(answer: &Answer) -> &'static str {
    match answer {
        Answer::Ended(search) => word_of(&search.outcome.end),
        Answer::TooLong(_, _) => "too long",
        Answer::WideNumeral(_) => "wide numeral",
    }
}

/// How many turns the text of the search has.
pub(crate) fn applications(answer: &Answer) -> usize {
    match answer {
        Answer::Ended(search) => search.outcome.tree.text.len(),
        Answer::TooLong(search, _) => search.outcome.tree.text.len(),
        Answer::WideNumeral(_) => 0,
    }
}

/// The first of the values that leave a branch open.
pub(crate) fn first_value(answer: &Answer) -> Option<Fraction> {
    let Answer::Ended(search) = answer else {
        return None;
    };
    let End::Open(values) = &search.outcome.end else {
        return None;
    };
    match values.values.as_slice().first() {
        Some(value) => Some(*value),
        None => None,
    }
}
