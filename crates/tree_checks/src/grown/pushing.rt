//! A branch continues as one of those that a step leaves.

ghost use Rattle.std.specs.Prelude.{true, false, OnOk, IfOk, MatchBool};
ghost use Rattle.tableau.specs.PoolBranches.{IsOver};
ghost use Rattle.tableau.specs.Numbers.{AreFormulas};
ghost use Rattle.search.specs.Applications.{is_fork};
ghost use Rattle.search.specs.Trees.{entries_of};
ghost use Rattle.tree_checks.specs.Entries.{cases_by, IsGoneOn, IsAtEnd, IsLonger};

use base::memory::NoMemory;
use certificates::branch::MOST_ENTRIES;
use search::trees::application::{Extension, is_fork, origin_of};
use search::trees::tree::{entry_with, push_all};
use std::alloc::Global;
use tableau::branch::PoolBranch;
use term_pool::pool::Pool;

// Continues with all formulas, if there is no other case and the branch may have that many entries.
fn go_straight(
    alloc: Global,
    pool: &Pool,
    branch: &mut PoolBranch,
    extension: &Extension,
    case: usize,
) -> Result<bool, NoMemory>
    requires over { IsOver pool.now branch.old }
    requires formulas { AreFormulas pool.now extension.now.formulas.items }
    ensures over { OnOk result (IsOver pool.now branch.new) }
    ensures longer { OnOk result (IsLonger branch.old.entries branch.new.entries) }
    ensures exact { IfOk result (λ known. MatchBool known (IsGoneOn (cases_by false (entries_of extension.now)) case branch.old.entries branch.new.entries) (IsAtEnd (cases_by false (entries_of extension.now)) case branch.old.entries)) }
{
    let len = branch.len();
    if case != 0 {
        return Ok(false);
    }
    if len > MOST_ENTRIES || extension.formulas.len() > MOST_ENTRIES - len {
        return Ok(false);
    }
    push_all(alloc, pool, branch, extension)?;
    Ok(true)
}

// Continues with only the formula of this case, if there is one and the branch may have another entry.
fn go_aside(
    alloc: Global,
    pool: &Pool,
    branch: &mut PoolBranch,
    extension: &Extension,
    case: usize,
) -> Result<bool, NoMemory>
    requires over { IsOver pool.now branch.old }
    requires formulas { AreFormulas pool.now extension.now.formulas.items }
    ensures over { OnOk result (IsOver pool.now branch.new) }
    ensures longer { OnOk result (IsLonger branch.old.entries branch.new.entries) }
    ensures exact { IfOk result (λ known. MatchBool known (IsGoneOn (cases_by true (entries_of extension.now)) case branch.old.entries branch.new.entries) (IsAtEnd (cases_by true (entries_of extension.now)) case branch.old.entries)) }
{
    if case >= extension.formulas.len() {
        return Ok(false);
    }
    if branch.len() >= MOST_ENTRIES {
        return Ok(false);
    }
    let formula = extension.formulas[case];
    let entry = entry_with(formula, extension.generation, origin_of(extension.reason));
    branch.push(alloc, pool, entry)?;
    Ok(true)
}

/// Continues with the case of the formulas that has this number, if there is one and the branch does not get too long.
///
/// # Errors
///
/// Only if memory runs out.
pub fn go_on(
    alloc: Global,
    pool: &Pool,
    branch: &mut PoolBranch,
    extension: &Extension,
    case: usize,
) -> Result<bool, NoMemory>
    requires over { IsOver pool.now branch.old }
    requires formulas { AreFormulas pool.now extension.now.formulas.items }
    ensures over { OnOk result (IsOver pool.now branch.new) }
    ensures longer { OnOk result (IsLonger branch.old.entries branch.new.entries) }
    ensures exact { IfOk result (λ known. MatchBool known (IsGoneOn (cases_by (is_fork extension.now.reason) (entries_of extension.now)) case branch.old.entries branch.new.entries) (IsAtEnd (cases_by (is_fork extension.now.reason) (entries_of extension.now)) case branch.old.entries)) }
{
    if is_fork(extension.reason) {
        go_aside(alloc, pool, branch, extension, case)
    } else {
        go_straight(alloc, pool, branch, extension, case)
    }
}
