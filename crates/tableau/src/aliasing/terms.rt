//! The terms of a branch.

ghost use Rattle.std.specs.Prelude.{◌<◌, ◌↔◌, length, IsTrue, IfOk};
ghost use Rattle.tableau.specs.PoolBranches.{branch_in, IsOver};
ghost use Rattle.tableau.specs.Terms.{IsBranchTerm, AreBranchTerms};

use crate::branch::PoolBranch;
use base::memory::NoMemory;
use std::alloc::Global;
use term_pool::pool::Pool;

/// Decides whether a number is that of a term of the branch.
pub fn is_term(pool: &Pool, branch: &PoolBranch, number: usize) -> bool
    requires { IsOver pool.now branch.now }
    ensures { IsTrue result ↔ IsBranchTerm pool.now (branch_in pool.now branch.now) number }
{
    if !pool.is_term(number) {
        return false;
    }
    match branch.generation(pool, number) {
        Some(_) => true,
        None => false,
    }
}

/// The numbers of the terms of a branch. It takes time linear in the pool's length.
pub fn terms(alloc: Global, pool: &Pool, branch: &PoolBranch) -> Result<Vec<usize>, NoMemory>
    requires { IsOver pool.now branch.now }
    ensures { IfOk result (λ terms. AreBranchTerms pool.now (branch_in pool.now branch.now) terms.items) }
{
    let mut terms = Vec::new(alloc);
    for number in 0..pool.len() {
        if is_term(pool, branch, number) {
            terms.push(number)?;
        }
    }
    Ok(terms)
}
