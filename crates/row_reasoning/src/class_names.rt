//! Representatives of the congruence classes of the terms of a branch.

ghost use Rattle.std.specs.Prelude.{IfOk};
ghost use Rattle.tableau.specs.PoolBranches.{branch_in, IsOver};
ghost use Rattle.tableau.specs.Terms.{AreBranchTerms, AreClassesOf};
ghost use Rattle.row_reasoning.specs.Names.{IsNaming};

use base::memory::NoMemory;
use congruence_closure::branch_classes::BranchClasses;
use std::alloc::Global;
use tableau::branch::PoolBranch;
use term_pool::pool::Pool;

/// Returns, for each number of the pool, the representative of a congruence class: two terms of the branch have the
/// same representative exactly if the branch's classes join them. `terms` are the numbers of the branch's terms, and
/// `classes` are the branch's classes. The running time is linear in the length of the pool. `NoMemory` if memory runs
/// out.
pub fn class_names(
    alloc: Global,
    pool: &Pool,
    branch: &PoolBranch,
    classes: &BranchClasses,
    terms: &[usize],
) -> Result<Vec<usize>, NoMemory>
    requires over { IsOver pool.now branch.now }
    requires classes { AreClassesOf pool.now branch.now classes.now }
    requires terms { AreBranchTerms pool.now (branch_in pool.now branch.now) terms.now }
    ensures { IfOk result (λ names. IsNaming pool.now (branch_in pool.now branch.now) names.items) }
{
    pool.one_number();
    classes.exact();
    let mut names = Vec::new(alloc);
    names.resize(pool.len(), 0)?;
    for number in terms {
        names[*number] = classes.class(*number);
    }
    Ok(names)
}
