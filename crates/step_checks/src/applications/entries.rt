//! Alpha rule (conjuncts) and beta rule (cases).

ghost use Rattle.std.specs.Prelude.{◌↔◌, map, IsTrue, IfOk};
ghost use Rattle.term_pool.specs.Pools.{Extends};
ghost use Rattle.certificates.specs.Due.{PartsDue, SplitDue};
ghost use Rattle.tableau.specs.PoolBranches.{branch_in, IsOver};
ghost use Rattle.tableau.specs.Numbers.{formula_at, AreFormulas};

use crate::applications::truths::are_same;
use base::memory::NoMemory;
use std::alloc::Global;
use tableau::branch::PoolBranch;
use tableau::rules::parts::parts_at;
use tableau::rules::split::cases_at;
use term_pool::pool::Pool;

/// Decides whether these are the conjuncts of the entry with this number, in order, and the alpha rule is due: some of
/// them is new, and none is deeper than a step may add.
///
/// # Errors
///
/// Only if memory runs out.
pub fn are_parts_due(
    alloc: Global,
    pool: &mut Pool,
    branch: &PoolBranch,
    entry: usize,
    formulas: &[usize],
) -> Result<bool, NoMemory>
    requires over { IsOver pool.old branch.now }
    requires formulas { AreFormulas pool.old formulas.now }
    ensures extends { Extends pool.old pool.new }
    ensures exact { IfOk result (λ known. IsTrue known ↔ PartsDue (branch_in pool.old branch.now) entry (map (formula_at pool.old) formulas.now)) }
{
    let Some(found) = parts_at(alloc, pool, branch, entry)? else {
        return Ok(false);
    };
    pool.one_number();
    Ok(are_same(found.as_slice(), formulas))
}

/// Decides whether these are the cases of the entry with this number, in order, and the beta rule is due: each of them
/// is new, and none is deeper than a step may add. At what time a split may be applied is not checked here.
///
/// # Errors
///
/// Only if memory runs out.
pub fn are_cases_due(
    alloc: Global,
    pool: &mut Pool,
    branch: &PoolBranch,
    entry: usize,
    formulas: &[usize],
) -> Result<bool, NoMemory>
    requires over { IsOver pool.old branch.now }
    requires formulas { AreFormulas pool.old formulas.now }
    ensures extends { Extends pool.old pool.new }
    ensures exact { IfOk result (λ known. IsTrue known ↔ SplitDue (branch_in pool.old branch.now) entry (map (formula_at pool.old) formulas.now)) }
{
    let Some(found) = cases_at(alloc, pool, branch, entry)? else {
        return Ok(false);
    };
    pool.one_number();
    Ok(are_same(found.as_slice(), formulas))
}
