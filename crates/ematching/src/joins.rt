//! Matches of a trigger: a join over its terms, which are matched one after another with terms of the branch.

ghost use Rattle.std.specs.Prelude.{◌≡◌, [], ◌∷◌, OnOk};
ghost use Rattle.certificates.specs.BranchesBranch.{Branch};
ghost use Rattle.tableau.specs.PoolBranches.{IsTermNumber};
ghost use Rattle.ematching.specs.Numbers.{AreAll, term_at};
ghost use Rattle.ematching.specs.Fits.{IsFilling, IsGrown};
ghost use Rattle.ematching.specs.Rows.{IsNumbered, IsRow, patterns_in};
ghost use Rattle.ematching.specs.Joins.{IsWanted, IsReady, IsAdded, AreJoined, AreJoinedAt};

use crate::fits::fits;
use crate::found::Found;
use crate::rows::Row;
use base::memory::NoMemory;
use std::alloc::Global;
use tableau::log::Log;
use term_pool::pool::Pool;

/// The variable whose values are sought.
#[derive(Clone, Copy)]
pub(crate) struct Wanted {
    pub(crate) variable: u32,
    // Its number in the pool.
    pub(crate) number: usize,
}

/// A pattern, and a term that it may match.
#[derive(Clone, Copy)]
pub(crate) struct Candidate {
    pub(crate) pattern: usize,
    pub(crate) term: usize,
}

// Adds the recorded value of the variable, if there is one.
fn add_value(wanted: Wanted, values: &Log, found: &mut Found) -> Result<(), NoMemory>
    ensures { OnOk result (IsAdded values.now wanted.number found.old found.new) }
{
    match values.value(wanted.number) {
        Some(value) => found.insert(value),
        None => Ok(()),
    }
}

/// Finds the values of the variable for which the patterns match terms of the branch, consistently with the recorded
/// matches. The recursion is as deep as the number of patterns.
#[cycle(join)]
pub(crate) fn join(
    alloc: Global,
    pool: &Pool,
    bound: &[u32],
    wanted: Wanted,
    rows: &[Row],
    values: &mut Log,
    found: &mut Found,
) -> Result<(), NoMemory>
    requires wanted { IsWanted pool.now bound.now wanted }
    requires rows { AreAll (IsNumbered pool.now) rows.now }
    requires filling { IsFilling pool.now bound.now values.old [] }
    requires ready { IsReady values.old wanted (patterns_in pool.now rows.now) }
    ensures values { OnOk result (values.new ≡ values.old) }
    ensures joined { OnOk result ((b : Branch) → AreAll (IsRow pool.now b bound.now) rows.now → AreJoined pool.now b bound.now wanted.variable values.old (patterns_in pool.now rows.now) found.old found.new) }
{
    pool.one_number();
    let Some((row, rest)) = rows.split_first() else {
        return add_value(wanted, values, found);
    };
    let mark = values.len();
    for term in &row.candidates {
        let candidate = Candidate {
            pattern: row.pattern,
            term: *term,
        };
        join_candidate(alloc, pool, bound, wanted, candidate, rest, values, found)?;
        values.truncate(mark);
    }
    Ok(())
}

// The same with one more pattern before the others, which must match this term. It may leave further matches recorded.
#[cycle(join)]
fn join_candidate(
    alloc: Global,
    pool: &Pool,
    bound: &[u32],
    wanted: Wanted,
    candidate: Candidate,
    rest: &[Row],
    values: &mut Log,
    found: &mut Found,
) -> Result<(), NoMemory>
    requires wanted { IsWanted pool.now bound.now wanted }
    requires pattern { IsTermNumber pool.now candidate.pattern }
    requires term { IsTermNumber pool.now candidate.term }
    requires rest { AreAll (IsNumbered pool.now) rest.now }
    requires filling { IsFilling pool.now bound.now values.old [] }
    requires ready { IsReady values.old wanted (term_at pool.now candidate.pattern ∷ patterns_in pool.now rest.now) }
    ensures grown { OnOk result (IsGrown values.old values.new) }
    ensures joined { OnOk result ((b : Branch) → AreAll (IsRow pool.now b bound.now) rest.now → AreJoinedAt pool.now b bound.now wanted.variable values.old candidate (patterns_in pool.now rest.now) found.old found.new) }
{
    pool.one_number();
    let is_fit = fits(
        alloc,
        pool,
        bound,
        values,
        candidate.pattern,
        candidate.term,
    )?;
    if !is_fit {
        return Ok(());
    }
    join(alloc, pool, bound, wanted, rest, values, found)
}
