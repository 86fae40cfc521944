//! Tests whether formulas are new on a branch, and shallow.

ghost use Rattle.std.specs.Prelude.{◌≡◌, ◌↔◌, map, All, IsTrue};
ghost use Rattle.certificates.specs.BranchesBranch.{IsNew};
ghost use Rattle.certificates.specs.Due.{HasNew, IsShallow};
ghost use Rattle.tableau.specs.PoolBranches.{branch_in, IsFormulaNumber, IsOver};
ghost use Rattle.tableau.specs.Numbers.{formula_at, AreFormulas};

use crate::branch::PoolBranch;
use term_pool::pool::{MOST_DEPTH, Pool};

/// Decides whether a formula is no deeper than a step may add.
pub fn is_shallow(pool: &Pool, formula: usize) -> bool
    requires { IsFormulaNumber pool.now formula }
    ensures { IsTrue result ↔ IsShallow (formula_at pool.now formula) }
{
    if pool.depth(formula) > MOST_DEPTH {
        return false;
    }
    true
}

/// Decides whether no formula is deeper than a step may add.
pub fn are_shallow(pool: &Pool, formulas: &[usize]) -> bool
    requires { AreFormulas pool.now formulas.now }
    ensures { IsTrue result ↔ All IsShallow (map (formula_at pool.now) formulas.now) }
{
    for formula in formulas {
        if pool.depth(*formula) > MOST_DEPTH {
            return false;
        }
    }
    true
}

/// Decides whether some formula is new on the branch.
pub fn has_new(pool: &Pool, branch: &PoolBranch, formulas: &[usize]) -> bool
    requires over { IsOver pool.now branch.now }
    requires formulas { AreFormulas pool.now formulas.now }
    ensures { IsTrue result ↔ HasNew (branch_in pool.now branch.now) (map (formula_at pool.now) formulas.now) }
{
    for formula in formulas {
        if !branch.stands(pool, *formula) {
            return true;
        }
    }
    false
}

// Decides whether each formula is new on the branch.
pub(crate) fn are_new(pool: &Pool, branch: &PoolBranch, formulas: &[usize]) -> bool
    requires over { IsOver pool.now branch.now }
    requires formulas { AreFormulas pool.now formulas.now }
    ensures { IsTrue result ↔ All (IsNew (branch_in pool.now branch.now)) (map (formula_at pool.now) formulas.now) }
{
    for formula in formulas {
        if branch.stands(pool, *formula) {
            return false;
        }
    }
    true
}
