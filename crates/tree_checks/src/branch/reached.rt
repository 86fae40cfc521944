//! Decides whether steps lead to an open branch of a formula.

ghost use Rattle.std.specs.Prelude.{◌≡◌, ◌↔◌, IsTrue, IfOk};
ghost use Rattle.fol.specs.FormulaData.{FormulaData, NotFormula};
ghost use Rattle.term_pool.specs.Pools.{Extends};
ghost use Rattle.tableau.specs.PoolBranches.{branch_in, IsFormulaNumber, IsOver};
ghost use Rattle.tableau.specs.Numbers.{formula_at};
ghost use Rattle.axiom_instances.specs.StructRows.{HasFewFields};
ghost use Rattle.tree_checks.specs.Steps.{first_branch, AreNumbered};
ghost use Rattle.tree_checks.specs.Reached.{HasNumberLeft, LeadsToOpen, IsOpenGrown};

use crate::branch::open::is_open;
use crate::grown::is_grown;
use crate::grown::steps::GrownStep;
use base::memory::NoMemory;
use fol::shapes::Shapes;
use search::values::OpenValues;
use std::alloc::Global;
use tableau::branch::PoolBranch;
use tableau::names::variables::Variables;
use term_pool::pool::Pool;

// Decides whether a variable number is left above those of the branch.
fn has_number_left(alloc: Global, pool: &Pool, branch: &PoolBranch) -> Result<bool, NoMemory>
    requires { IsOver pool.now branch.now }
    ensures { IfOk result (λ known. IsTrue known ↔ HasNumberLeft (branch_in pool.now branch.now)) }
{
    let mut variables = Variables::new(alloc);
    let above = variables.above_all(pool, branch)?;
    let known = above <= u64::from(u32::MAX);
    Ok(known)
}

/// Decides whether the steps lead, one after another, from the branch with only the negation of a formula to one that
/// is open with these values: it is saturated, and the values satisfy its rows over their classes, with their
/// representatives, and are whole for the classes of numbers. The formula then has an open branch in the sense of
/// analytic tableaux.
///
/// If a variable of the branch has the greatest number, the result is false. The check covers neither the other
/// branches nor whether and when a search takes these steps. The numbers in `steps` are those of formulas and terms,
/// and each struct shape has fewer than 2^32 fields.
///
/// # Errors
///
/// Only if memory runs out.
pub fn is_open_branch(
    alloc: Global,
    pool: &mut Pool,
    shapes: &Shapes,
    denial: usize,
    steps: &[GrownStep],
    values: &OpenValues,
) -> Result<bool, NoMemory>
    requires few { HasFewFields shapes.now }
    requires denial { IsFormulaNumber pool.old denial }
    requires numbers { AreNumbered pool.old steps.now }
    ensures extends { Extends pool.old pool.new }
    ensures exact { IfOk result (λ known. IsTrue known ↔ LeadsToOpen shapes.now pool.old (first_branch pool.old denial) steps.now values.now) }
    ensures open { (p : FormulaData) → formula_at pool.old denial ≡ NotFormula p → IfOk result (λ known. IsTrue known → IsOpenGrown shapes.now p values.now.values) }
{
    let Some(branch) = is_grown(alloc, pool, shapes, denial, steps)? else {
        return Ok(false);
    };
    if !has_number_left(alloc, pool, &branch)? {
        return Ok(false);
    }
    pool.one_number();
    is_open(alloc, pool, shapes, &branch, values)
}
