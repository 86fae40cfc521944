//! The state of a branch follows the branch.

ghost use Rattle.std.specs.Prelude.{◌≡◌, ◌≤◌, ◌^◌, ◌↔◌, IsTrue, OnOk, IfOk};
ghost use Rattle.certificates.specs.BranchesBranch.{formulas};
ghost use Rattle.certificates.specs.Names.{above_all};
ghost use Rattle.tableau.specs.PoolBranches.{branch_in, IsOver};
ghost use Rattle.tableau.specs.Terms.{AreClassesOf};
ghost use Rattle.tableau.specs.States.{IsState};
ghost use Rattle.search.specs.Decisions.{HasRoom};

use base::memory::NoMemory;
use std::alloc::Global;
use tableau::branch::PoolBranch;
use tableau::state::BranchState;
use term_pool::pool::Pool;

/// Decides whether a number exceeds all numbers of variables.
pub(crate) fn is_past(number: u64) -> bool
    ensures { IsTrue result ↔ (2 ^ 32 ≤ number) }
{
    number > u64::from(u32::MAX)
}

/// Follows the entries of a branch, and returns the least number above all its variables. `NoMemory` if memory runs
/// out.
pub(crate) fn follow_above(
    pool: &Pool,
    branch: &PoolBranch,
    state: &mut BranchState,
) -> Result<u64, NoMemory>
    requires over { IsOver pool.now branch.now }
    requires state { IsState pool.now state.old }
    ensures state { OnOk result (IsState pool.now state.new) }
    ensures is { IfOk result (λ above. above ≡ above_all (formulas (branch_in pool.now branch.now))) }
{
    state.follow_entries(pool, branch)?;
    let above = state.variables.above_all(pool, branch)?;
    Ok(above)
}

/// Follows a branch on which some variable number is above all others, and returns one. `NoMemory` if memory runs out.
pub(crate) fn follow_with_variable(
    alloc: Global,
    pool: &Pool,
    branch: &PoolBranch,
    state: &mut BranchState,
) -> Result<u32, NoMemory>
    requires over { IsOver pool.now branch.now }
    requires state { IsState pool.now state.old }
    requires room { HasRoom (branch_in pool.now branch.now) }
    ensures state { OnOk result (IsState pool.now state.new) }
    ensures classes { OnOk result (AreClassesOf pool.now branch.now state.new.classes) }
    ensures above { IfOk result (λ variable. above_all (formulas (branch_in pool.now branch.now)) ≤ variable) }
{
    let above = follow_above(pool, branch, state)?;
    state.follow_classes(alloc, pool, branch)?;
    Ok(above as u32)
}
