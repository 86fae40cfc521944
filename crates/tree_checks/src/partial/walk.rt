//! The open branches while a trace is read.

ghost use Rattle.std.specs.Prelude.{◌≡◌, ◌<◌, true, [], ◌∷◌, OnOk, IfOk, MatchBool};
ghost use Rattle.certificates.specs.BranchesBranch.{formulas};
ghost use Rattle.tableau.specs.PoolBranches.{branch_in, IsFormulaNumber, IsOver};
ghost use Rattle.tableau.specs.Numbers.{AreFormulas};
ghost use Rattle.search.specs.Trees.{waiting_in};
ghost use Rattle.tree_checks.specs.Steps.{first_branch};
ghost use Rattle.tree_checks.specs.Walks.{opened, waiting_of, AreFirstTrees, IsWalk, GoesOn, GoesNowhere};

use crate::grown::first_branch;
use crate::grown::keeping::{Kept, nothing_kept};
use crate::grown::pushing::go_on;
use base::memory::NoMemory;
use fol::formula::Formula;
use search::trees::application::{Extension, is_fork};
use search::trees::tree::{Waiting, push_waiting};
use std::alloc::Global;
use tableau::branch::PoolBranch;
use term_pool::pool::Pool;
use term_pool::reading::read_formula;

/// The current branch and the pending ones.
#[derive(Drop)]
pub struct Walk {
    /// Whether there is a current branch. Otherwise no branch is open.
    pub is_open: bool,
    pub branch: PoolBranch,
    /// The pending branches. The last one is the next.
    pub waiting: Vec<Waiting>,
    pub kept: Kept,
    /// The trees of the current branch's first entries, which are read when an application is to close it.
    pub trees: Vec<Formula>,
}

/// The walk on which only the branch with just this formula is open.
///
/// # Errors
///
/// Only if memory runs out.
pub fn begin(alloc: Global, pool: &Pool, formula: usize) -> Result<Walk, NoMemory>
    requires { IsFormulaNumber pool.now formula }
    ensures walk { IfOk result (λ walk. IsWalk pool.now walk) }
    ensures now_open { IfOk result (λ walk. opened pool.now walk ≡ first_branch pool.now formula ∷ []) }
{
    let branch = first_branch(alloc, pool, formula)?;
    Ok(Walk {
        is_open: true,
        branch,
        waiting: Vec::new(alloc),
        kept: nothing_kept(alloc),
        trees: Vec::new(alloc),
    })
}

// Reads the trees of the added entries.
fn read_trees(
    alloc: Global,
    pool: &Pool,
    branch: &PoolBranch,
    trees: &mut Vec<Formula>,
) -> Result<(), NoMemory>
    requires { AreFirstTrees pool.now branch.now.entries trees.old.items }
    ensures { OnOk result (trees.new.items ≡ formulas (branch_in pool.now branch.now)) }
{
    while let Some(entry) = branch.entry(trees.len()) {
        trees.push(read_formula(alloc, pool, entry.formula)?)?;
    }
    Ok(())
}

/// Reads the trees of all entries of the current branch.
pub(crate) fn read(alloc: Global, pool: &Pool, walk: &mut Walk) -> Result<(), NoMemory>
    requires { IsWalk pool.now walk.old }
    ensures walk { OnOk result (IsWalk pool.now walk.new) }
    ensures trees { OnOk result (walk.new.trees.items ≡ formulas (branch_in pool.now walk.new.branch)) }
    ensures branch { walk.new.branch ≡ walk.old.branch }
    ensures waiting { walk.new.waiting ≡ walk.old.waiting }
    ensures is_open { walk.new.is_open ≡ walk.old.is_open }
{
    read_trees(alloc, pool, &walk.branch, &mut walk.trees)?;
    Ok(())
}

/// Continues with the first branch that the extension leaves, and makes the others pending; returns false if there are
/// none or one is too long.
pub(crate) fn advance(
    alloc: Global,
    pool: &Pool,
    walk: &mut Walk,
    extension: &Extension,
) -> Result<bool, NoMemory>
    requires walk { IsWalk pool.now walk.old }
    requires is_open { walk.old.is_open ≡ true }
    requires formulas { AreFormulas pool.now extension.now.formulas.items }
    ensures walk { OnOk result (IsWalk pool.now walk.new) }
    ensures exact { IfOk result (λ known. MatchBool known (GoesOn pool.now walk.old extension.now walk.new) (GoesNowhere pool.now walk.old extension.now)) }
{
    let mark = walk.branch.len();
    let known = go_on(alloc, pool, &mut walk.branch, extension, 0)?;
    if !known {
        return Ok(false);
    }
    if !is_fork(extension.reason) {
        return Ok(true);
    }
    push_waiting(&mut walk.waiting, mark, extension)?;
    Ok(true)
}

/// Continues with the next pending branch. If there is none, no branch is open.
pub(crate) fn resume(alloc: Global, pool: &Pool, walk: &mut Walk) -> Result<(), NoMemory>
    requires walk { IsWalk pool.now walk.old }
    ensures walk { OnOk result (IsWalk pool.now walk.new) }
    ensures now_open { OnOk result (opened pool.now walk.new ≡ waiting_in pool.now walk.old.branch.entries (waiting_of walk.old)) }
{
    let Some(next) = walk.waiting.pop() else {
        walk.is_open = false;
        return Ok(());
    };
    walk.is_open = true;
    walk.branch.truncate(next.mark);
    walk.kept.variables.truncate(next.mark);
    walk.trees.truncate(next.mark);
    walk.branch.push(alloc, pool, next.entry)?;
    Ok(())
}
