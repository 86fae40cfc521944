//! The Fourier-Motzkin elimination of a branch's rows over its classes.

ghost use Rattle.std.specs.Prelude.{IfOk};
ghost use Rattle.tableau.specs.PoolBranches.{branch_in, IsOver};
ghost use Rattle.tableau.specs.Terms.{AreClassesOf};
ghost use Rattle.closing_rules.specs.Eliminations.{IsElimination};

use base::memory::NoMemory;
use congruence_closure::branch_classes::BranchClasses;
use linear_arith::rows::LinAnswer;
use linear_arith::solve;
use row_reasoning::class_names::class_names;
use row_reasoning::rows::{BranchRows, branch_rows};
use row_reasoning::values::laws::rows_fit;
use std::alloc::Global;
use tableau::aliasing::terms::terms;
use tableau::branch::PoolBranch;
use term_pool::pool::Pool;

/// The result of an elimination of a branch's rows.
#[derive(Drop)]
pub struct Elimination {
    /// The representatives of the classes of the branch's terms, by their numbers in the pool.
    pub names: Vec<usize>,
    /// The rows over these classes, each with its entry.
    pub rows: BranchRows,
    pub answer: LinAnswer,
}

/// Eliminates the unknowns of a branch's rows, one for each class of its terms. `classes` are those of the branch's
/// entries. `NoMemory` if memory runs out.
pub fn eliminate(
    alloc: Global,
    pool: &Pool,
    branch: &PoolBranch,
    classes: &BranchClasses,
) -> Result<Elimination, NoMemory>
    requires over { IsOver pool.now branch.now }
    requires classes { AreClassesOf pool.now branch.now classes.now }
    ensures { IfOk result (IsElimination pool.now (branch_in pool.now branch.now)) }
{
    let terms = terms(alloc, pool, branch)?;
    let names = class_names(alloc, pool, branch, classes, terms.as_slice())?;
    let rows = branch_rows(alloc, pool, branch, names.as_slice())?;
    rows_fit();
    let answer = solve(alloc, &rows.rows)?;
    Ok(Elimination {
        names,
        rows,
        answer,
    })
}
