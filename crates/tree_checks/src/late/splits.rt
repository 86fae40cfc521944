//! Case splits of a branch.

ghost use Rattle.std.specs.Prelude.{◌↔◌, map, IsTrue, IfOk};
ghost use Rattle.term_pool.specs.Pools.{Extends};
ghost use Rattle.certificates.specs.ProofTraces.{SplitApplication, IsDueApplication, IsLate};
ghost use Rattle.tableau.specs.PoolBranches.{branch_in, IsOver};
ghost use Rattle.tableau.specs.Numbers.{formula_at, AreFormulas};
ghost use Rattle.axiom_instances.specs.StructRows.{HasFewFields};
ghost use Rattle.tree_checks.specs.Late.{IsRangeEntry};

use axiom_strategy::known::KnownInstances;
use base::memory::NoMemory;
use fol::shapes::Shapes;
use std::alloc::Global;
use step_checks::applications::entries::are_cases_due;
use strategy::early::ranges::is_range;
use tableau::branch::PoolBranch;
use term_pool::pool::Pool;

/// Decides whether the entry with this number is an instance of the axiom on ranges. Each struct shape has fewer than
/// 2^32 fields.
///
/// # Errors
///
/// Only if memory runs out.
pub fn is_range_entry(
    alloc: Global,
    pool: &mut Pool,
    shapes: &Shapes,
    branch: &PoolBranch,
    i: usize,
) -> Result<bool, NoMemory>
    requires few { HasFewFields shapes.now }
    requires over { IsOver pool.old branch.now }
    ensures extends { Extends pool.old pool.new }
    ensures exact { IfOk result (λ given. IsTrue given ↔ IsRangeEntry (branch_in pool.old branch.now) i) }
{
    let Some(entry) = branch.entry(i) else {
        return Ok(false);
    };
    let mut known = KnownInstances::new(alloc);
    let given = is_range(alloc, pool, shapes, &mut known, entry.formula)?;
    Ok(given)
}

/// Decides whether a split of the branch at the entry with this number, into these cases, is an application that is
/// due, given by `late` whether a late application may come on the branch: a split at an instance of the axiom on
/// ranges need not be late. Each struct shape has fewer than 2^32 fields.
///
/// # Errors
///
/// Only if memory runs out.
pub fn is_split_application_due(
    alloc: Global,
    pool: &mut Pool,
    shapes: &Shapes,
    branch: &PoolBranch,
    entry: usize,
    formulas: &[usize],
    late: bool,
) -> Result<bool, NoMemory>
    requires few { HasFewFields shapes.now }
    requires over { IsOver pool.old branch.now }
    requires formulas { AreFormulas pool.old formulas.now }
    ensures extends { Extends pool.old pool.new }
    ensures exact { (IsTrue late ↔ IsLate shapes.now (branch_in pool.old branch.now)) → IfOk result (λ known. IsTrue known ↔ IsDueApplication shapes.now (branch_in pool.old branch.now) (SplitApplication entry (map (formula_at pool.old) formulas.now))) }
    ensures shown { (IsTrue late → IsLate shapes.now (branch_in pool.old branch.now)) → IfOk result (λ known. IsTrue known → IsDueApplication shapes.now (branch_in pool.old branch.now) (SplitApplication entry (map (formula_at pool.old) formulas.now))) }
{
    let due = are_cases_due(alloc, pool, branch, entry, formulas)?;
    if !due {
        return Ok(false);
    }
    if late {
        return Ok(true);
    }
    let range = is_range_entry(alloc, pool, shapes, branch, entry)?;
    Ok(range)
}
