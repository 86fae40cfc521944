//! Decides whether given steps lead to a branch of a formula.

mod axiom;
mod bound;
mod cut;
pub mod growing;
mod instance;
pub mod keeping;
pub mod laws;
mod naming;
mod numbers;
mod orders;
mod plain;
pub mod pushing;
mod reading;
pub mod steps;
mod taking;

ghost use Rattle.std.specs.Prelude.{◌≡◌, All, IfOk, IfSome, MatchOption};
ghost use Rattle.fol.specs.FormulaData.{FormulaData, NotFormula};
ghost use Rattle.term_pool.specs.Pools.{Extends};
ghost use Rattle.tableau.specs.PoolBranches.{branch_in, IsFormulaNumber, IsOver};
ghost use Rattle.tableau.specs.Numbers.{formula_at};
ghost use Rattle.axiom_instances.specs.StructRows.{HasFewFields};
ghost use Rattle.tree_checks.specs.Grown.{IsGrown};
ghost use Rattle.tree_checks.specs.Steps.{first_branch, AreNumbered, LeadsTo, LeadsNowhere};

use crate::grown::keeping::nothing_kept;
use crate::grown::steps::GrownStep;
use crate::grown::taking::take;
use base::memory::NoMemory;
use certificates::branches::origin::Origin;
use fol::shapes::Shapes;
use search::trees::tree::entry_with;
use std::alloc::Global;
use tableau::branch::PoolBranch;
use term_pool::pool::Pool;

/// The branch whose one entry is the formula with this number.
///
/// # Errors
///
/// Only if memory runs out.
pub fn first_branch(alloc: Global, pool: &Pool, formula: usize) -> Result<PoolBranch, NoMemory>
    requires { IsFormulaNumber pool.now formula }
    ensures over { IfOk result (λ branch. IsOver pool.now branch) }
    ensures is { IfOk result (λ branch. branch_in pool.now branch ≡ first_branch pool.now formula) }
{
    let mut branch = PoolBranch::new(alloc);
    branch.push(alloc, pool, entry_with(formula, 0, Origin::Other))?;
    Ok(branch)
}

/// Returns the branch to which the steps lead, one after another, from the branch with only the negation of a formula:
/// each step adds what is due, with its generation, whatever the time, and continues with one of the branches left,
/// which does not exceed the maximal length. `None` if a step is not of this kind, or adds an axiom instance while no
/// variable number is left above those of the branch. The numbers in `steps` are those of formulas and terms, and each
/// struct shape has fewer than 2^32 fields. The result is a branch of the negated formula.
///
/// # Errors
///
/// Only if memory runs out.
pub fn is_grown(
    alloc: Global,
    pool: &mut Pool,
    shapes: &Shapes,
    denial: usize,
    steps: &[GrownStep],
) -> Result<Option<PoolBranch>, NoMemory>
    requires few { HasFewFields shapes.now }
    requires denial { IsFormulaNumber pool.old denial }
    requires numbers { AreNumbered pool.old steps.now }
    ensures extends { Extends pool.old pool.new }
    ensures over { IfOk result (λ found. IfSome found (λ branch. IsOver pool.new branch)) }
    ensures exact { IfOk result (λ found. MatchOption found (LeadsNowhere shapes.now pool.old (first_branch pool.old denial) steps.now) (λ branch. LeadsTo shapes.now pool.old (first_branch pool.old denial) steps.now (branch_in pool.new branch))) }
    ensures grown { (p : FormulaData) → formula_at pool.old denial ≡ NotFormula p → IfOk result (λ found. IfSome found (λ branch. IsGrown shapes.now p (branch_in pool.new branch))) }
{
    let mut kept = nothing_kept(alloc);
    let mut branch = first_branch(alloc, pool, denial)?;
    for step in steps {
        let known = take(alloc, pool, shapes, &mut branch, &mut kept, step)?;
        if !known {
            return Ok(None);
        }
    }
    Ok(Some(branch))
}
