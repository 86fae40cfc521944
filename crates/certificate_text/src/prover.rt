//! The search for a proof of a formula.

pub mod answer;

ghost use Rattle.std.specs.Prelude.{◌≡◌, ℕ, ◌+◌, ◌≤◌, true, List, IfOk};
ghost use Rattle.fol.specs.declared.shapes.Shape.{Shape};
ghost use Rattle.search.specs.Ends.{Claim};
ghost use Rattle.certificate_text.specs.Answers.{AreAll, is_proved, HasSameApplications, IsReadable, IsSearched, Shows};

use crate::lengths::certificate::certificate_len;
use crate::lengths::items::lengths;
use crate::pools::compact::compact;
use crate::prover::answer::{Answer, Search};
use crate::trees::laws::numbers_fit;
use base::memory::NoMemory;
use base::steps::Steps;
use fol::formula::Formula;
use search::deciders::Deciders;
use search::end::End;
use search::search::{Outcome, search};
use search::trees::tree::SearchTree;
use std::alloc::Global;
use std::sync::ledger::Ledger;
use substitution::wide_numerals::wide_numeral;
use tableau::branch::PoolBranch;
use term_pool::interning::intern_formula;
use term_pool::node::{Node, One};
use term_pool::pool::Pool;

/// The greatest number of bytes of a certificate.
pub const MOST_BYTES: u64 = 4_194_304;

fn is_proved(end: &End) -> bool
    ensures { result ≡ is_proved end.now }
{
    match end {
        End::Proved => true,
        _ => false,
    }
}

// The search with a pool of the nodes that its trace needs, and without its branches, which are not needed after the
// formula is proved.
fn compacted(alloc: Global, search: Search) -> Result<Search, NoMemory>
    ensures { IfOk result (HasSameApplications search) }
{
    let Search { pool, outcome } = search;
    let Outcome { end, tree } = outcome;
    let SearchTree {
        branch: _,
        waiting: _,
        mut text,
    } = tree;
    let pool = compact(alloc, &pool, text.as_mut_slice())?;
    let tree = SearchTree {
        branch: PoolBranch::new(alloc),
        waiting: Vec::new(alloc),
        text,
    };
    Ok(Search {
        pool,
        outcome: Outcome { end, tree },
    })
}

// The answer of a search that has ended.
fn answer_of(alloc: Global, search: Search) -> Result<Answer, NoMemory>
    requires { IsReadable search }
    ensures { (shapes : List Shape) (sought : Claim) (before after : ℕ) → IsSearched shapes sought before after search → IfOk result (Shows shapes sought before after) }
{
    if !is_proved(&search.outcome.end) {
        return Ok(Answer::Ended(search));
    }
    let compacted = compacted(alloc, search)?;
    answer_of_proof(alloc, compacted)
}

// The answer of a search that has proved its formula.
fn answer_of_proof(alloc: Global, search: Search) -> Result<Answer, NoMemory>
    requires readable { IsReadable search }
    requires proved { is_proved search.outcome.end ≡ true }
    ensures { (shapes : List Shape) (sought : Claim) (before after : ℕ) → IsSearched shapes sought before after search → IfOk result (Shows shapes sought before after) }
{
    let lens = lengths(alloc, &search.pool)?;
    let text = search.outcome.tree.text.as_slice();
    let len = certificate_len(&search.pool, lens.as_slice(), text);
    if len > MOST_BYTES {
        Ok(Answer::TooLong(search, len))
    } else {
        Ok(Answer::Ended(search))
    }
}

/// Searches for a proof of the formula, with deciders that know nothing yet, in at most `budget` steps, each of which
/// it counts. The answer carries the evidence for its case.
///
/// # Errors
///
/// Only if memory ran out.
pub fn prove<D: Deciders, L: Ledger>(
    alloc: Global,
    deciders: &mut D,
    formula: &Formula,
    budget: u64,
    steps: &mut Steps<L>,
) -> Result<Answer, NoMemory>
    ghost sought: { Claim }
    requires sought { sought ≡ record { formula = formula.now; budget = budget } }
    requires knows { AreAll (D.knows deciders.old) }
    ensures shown { IfOk result (Shows (D.shapes deciders.old) sought steps.old steps.new) }
    ensures most { steps.new ≤ steps.old + budget }
{
    if let Some(numeral) = wide_numeral(formula) {
        return Ok(Answer::WideNumeral(numeral));
    }
    let mut pool = Pool::new(alloc);
    let number = intern_formula(&mut pool, formula)?;
    let denial = pool.insert(Node::One(One::Not, number))?;
    numbers_fit();
    let outcome = search(alloc, deciders, &mut pool, denial, budget, steps)?;
    answer_of(alloc, Search { pool, outcome })
}
