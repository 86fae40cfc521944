//! Checks whether a trace leaves a branch open.

ghost use Rattle.std.specs.Prelude.{◌≡◌, IsTrue, IfOk};
ghost use Rattle.fol.specs.FormulaData.{FormulaData, NotFormula};
ghost use Rattle.term_pool.specs.Pools.{Extends};
ghost use Rattle.tableau.specs.PoolBranches.{IsFormulaNumber};
ghost use Rattle.tableau.specs.Numbers.{formula_at};
ghost use Rattle.axiom_instances.specs.StructRows.{HasFewFields};
ghost use Rattle.tree_checks.specs.Reached.{IsOpenGrown};

use crate::branch::reached::is_open_branch;
use crate::texts::numbers::are_steps_numbered;
use crate::texts::steps::steps_to_open;
use base::memory::NoMemory;
use fol::shapes::Shapes;
use search::trees::application::PoolApplication;
use search::values::OpenValues;
use std::alloc::Global;
use term_pool::pool::Pool;

/// Returns true only if the formula has an open branch in the sense of analytic tableaux, and `values` are values of
/// its rows. The branch checked is the first one that the trace of a search leaves open, starting with the branch that
/// has only the negation of the formula.
///
/// If a variable of the branch has the greatest number, the result is false. Each struct shape has fewer than 2^32
/// fields.
///
/// # Errors
///
/// Only if memory runs out.
pub fn is_open_text(
    alloc: Global,
    pool: &mut Pool,
    shapes: &Shapes,
    denial: usize,
    text: Vec<PoolApplication>,
    values: &OpenValues,
) -> Result<bool, NoMemory>
    requires few { HasFewFields shapes.now }
    requires denial { IsFormulaNumber pool.old denial }
    ensures extends { Extends pool.old pool.new }
    ensures open { (p : FormulaData) → formula_at pool.old denial ≡ NotFormula p → IfOk result (λ known. IsTrue known → IsOpenGrown shapes.now p values.now.values) }
{
    let Some(steps) = steps_to_open(alloc, text)? else {
        return Ok(false);
    };
    let steps = steps.as_slice();
    if !are_steps_numbered(pool, steps) {
        return Ok(false);
    }
    is_open_branch(alloc, pool, shapes, denial, steps, values)
}
