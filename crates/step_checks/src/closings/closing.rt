//! Rule applications that close a branch.

ghost use Rattle.std.specs.Prelude.{◌≡◌, ◌↔◌, ◌+◌, ◌≤◌, List, length, map, IsTrue, IfOk};
ghost use Rattle.fol.specs.declared.shapes.Shape.{Shape};
ghost use Rattle.certificates.specs.Branch.{entries_of, IsCounted};
ghost use Rattle.certificates.specs.CertView.{close_of_node};
ghost use Rattle.certificates.specs.Closes.{most_entries};
ghost use Rattle.certificates.specs.BranchesBranch.{formulas};
ghost use Rattle.certificates.specs.ProofTraces.{ClosesBranch};
ghost use Rattle.tableau.specs.PoolBranches.{branch_in, IsOver};
ghost use Rattle.explanations.specs.Chains.{step_in};
ghost use Rattle.step_checks.specs.Links.{AreNamed};

use crate::closings::adding::{are_shallow, read_added};
use crate::closings::links::are_links;
use base::memory::NoMemory;
use certificates::branch::{Branch, MOST_ENTRIES, extend};
use certificates::closing::closes;
use fol::formula::Formula;
use search::trees::application::Closing;
use std::alloc::Global;
use tableau::branch::PoolBranch;
use term_pool::pool::Pool;

// Decides whether this many entries and steps do not exceed the maximal length of a branch.
fn is_short(entries: usize, links: usize) -> bool
    ensures { IsTrue result ↔ (entries + links ≤ most_entries) }
{
    if entries > MOST_ENTRIES {
        return false;
    }
    links <= MOST_ENTRIES - entries
}

// A branch for the checker with these entries. Its formula is not used.
fn line_of<'a>(any: &'a Formula, entries: &'a [Formula]) -> Branch<'a>
    requires { length entries.now ≤ most_entries }
    ensures counted { IsCounted result }
    ensures entries { entries_of result ≡ entries.now }
{
    let mut line = Branch::begun(any);
    line.truncate(0);
    let _ = extend(&mut line, entries);
    line
}

/// Decides whether the closing closes the branch: each step of its explanation is valid and adds a new formula, the
/// explanation does not exceed the maximal length of a branch, and the closing rule applies to the formulas that
/// result. The numbers in the explanation are those of formulas. `entries` are the trees of the branch's entries; the
/// caller keeps them, so that a branch is not read for each application.
///
/// # Errors
///
/// Only if memory runs out.
pub fn is_closing_due(
    alloc: Global,
    pool: &Pool,
    branch: &PoolBranch,
    entries: &[Formula],
    closing: &Closing,
) -> Result<bool, NoMemory>
    requires over { IsOver pool.now branch.now }
    requires entries { entries.now ≡ formulas (branch_in pool.now branch.now) }
    requires named { AreNamed pool.now closing.now.chain.items }
    ensures { (shapes : List Shape) → IfOk result (λ known. IsTrue known ↔ ClosesBranch shapes (branch_in pool.now branch.now) (map (step_in pool.now) closing.now.chain.items) (close_of_node closing.now.by)) }
{
    let steps = closing.chain.as_slice();
    if !is_short(entries.len(), steps.len()) {
        return Ok(false);
    }
    if !are_shallow(pool, steps) {
        return Ok(false);
    }
    let trees = read_added(alloc, pool, steps)?;
    let any = Formula::any_of(Vec::new(alloc));
    let mut line = line_of(&any, entries);
    let linked = are_links(alloc, pool, branch, &mut line, steps, trees.as_slice())?;
    if !linked {
        return Ok(false);
    }
    Ok(closes(&line, &closing.by))
}
