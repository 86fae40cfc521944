//! The depth of a branch's entries.

ghost use Rattle.std.specs.Prelude.{map, MatchBool};
ghost use Rattle.tableau.specs.PoolBranches.{branch_in, IsFormulaNumber, IsOver};
ghost use Rattle.tableau.specs.Numbers.{formula_at};
ghost use Rattle.tableau.specs.Terms.{formula_number};
ghost use Rattle.certificates.specs.Due.{IsShallow};
ghost use Rattle.explanations.specs.BranchGraphs.{IsLow, AreLow};
ghost use Rattle.closing_rules.specs.Depths.{IsDeep, HasDeep};

use tableau::branch::PoolBranch;
use term_pool::pool::{MOST_DEPTH, Pool};

/// Decides whether a formula is no deeper than a step may add.
pub(crate) fn is_shallow(pool: &Pool, formula: usize) -> bool
    requires { IsFormulaNumber pool.now formula }
    ensures { MatchBool result (IsShallow (formula_at pool.now formula)) (IsDeep (formula_at pool.now formula)) }
{
    if pool.depth(formula) > MOST_DEPTH {
        return false;
    }
    true
}

// Decides whether a formula is no deeper than a step may add, or negates one that is not.
fn is_low(pool: &Pool, formula: usize) -> bool
    requires { IsFormulaNumber pool.now formula }
    ensures { MatchBool result (IsLow (formula_at pool.now formula)) (IsDeep (formula_at pool.now formula)) }
{
    if is_shallow(pool, formula) {
        return true;
    }
    match pool.denied(formula) {
        Some(inner) => is_shallow(pool, inner),
        None => false,
    }
}

/// Decides whether each entry of a branch is no deeper than a step may add, or negates a formula that is not.
pub(crate) fn are_low(pool: &Pool, branch: &PoolBranch) -> bool
    requires { IsOver pool.now branch.now }
    ensures { MatchBool result (AreLow pool.now (map formula_number branch.now.entries)) (HasDeep (branch_in pool.now branch.now)) }
{
    for i in 0..branch.len() {
        let Some(entry) = branch.entry(i) else {
            continue;
        };
        if !is_low(pool, entry.formula) {
            return false;
        }
    }
    true
}
