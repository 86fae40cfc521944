//! The search.

ghost use Rattle.std.specs.Prelude.{◌≡◌, ◌+◌, ◌≤◌, IfOk};
ghost use Rattle.fol.specs.FormulaData.{FormulaData, NotFormula};
ghost use Rattle.term_pool.specs.Pools.{Extends};
ghost use Rattle.tableau.specs.PoolBranches.{IsFormulaNumber};
ghost use Rattle.tableau.specs.Numbers.{formula_at};
ghost use Rattle.search.specs.Ends.{Claim, IsOutcome, TellsDeep};

use crate::applications::move_on;
use crate::deciders::Deciders;
use crate::end::End;
use crate::trees::tree::{SearchTree, begin};
use base::memory::NoMemory;
use base::steps::Steps;
use std::alloc::Global;
use std::sync::ledger::Ledger;
use term_pool::node::{Node, One};
use term_pool::pool::{MOST_DEPTH, Pool};

/// The outcome of a search, with the tree that justifies it.
#[derive(Drop)]
pub struct Outcome {
    pub end: End,
    pub tree: SearchTree,
}

// Decides whether the negated formula is deeper than a step may add.
fn is_too_deep(pool: &Pool, denial: usize) -> bool
    requires { IsFormulaNumber pool.now denial }
    ensures { (p : FormulaData) → formula_at pool.now denial ≡ NotFormula p → TellsDeep p result }
{
    match pool.node(denial) {
        Some(Node::One(One::Not, formula)) => pool.depth(formula) > MOST_DEPTH,
        _ => pool.depth(denial) > MOST_DEPTH,
    }
}

/// Searches for a proof of the formula whose negation has the number `denial`. It takes at most `budget` steps, and
/// counts as many as the tree of the outcome has, with those of an explanation in which the budget ends. A formula that
/// is deeper than a step may add is not searched, and its outcome is `Full`. `NoMemory` if memory runs out.
pub fn search<D: Deciders, L: Ledger>(
    alloc: Global,
    deciders: &mut D,
    pool: &mut Pool,
    denial: usize,
    budget: u64,
    steps: &mut Steps<L>,
) -> Result<Outcome, NoMemory>
    ghost sought: { Claim }
    requires knows { D.knows deciders.old pool.old }
    requires denial { IsFormulaNumber pool.old denial }
    requires denied { formula_at pool.old denial ≡ NotFormula sought.formula }
    requires budget { budget ≡ sought.budget }
    ensures extends { Extends pool.old pool.new }
    ensures shown { IfOk result (IsOutcome (D.shapes deciders.old) sought steps.old steps.new pool.new) }
    ensures most { steps.new ≤ steps.old + budget }
{
    let mut tree = begin(alloc, pool, denial)?;
    if is_too_deep(pool, denial) {
        return Ok(Outcome {
            end: End::Full,
            tree,
        });
    }
    let mut left = budget;
    loop {
        if let Some(end) = move_on(alloc, deciders, pool, &mut tree, steps, &mut left)? {
            return Ok(Outcome { end, tree });
        }
    }
}
