//! Decides whether a trace is a partial tableau.

pub mod applications;
pub mod ending;
pub mod stepping;
mod timely;
pub mod walk;

ghost use Rattle.std.specs.Prelude.{◌≡◌, ◌↔◌, [], ◌∷◌, IsTrue, IfOk};
ghost use Rattle.fol.specs.FormulaData.{FormulaData, NotFormula};
ghost use Rattle.term_pool.specs.Pools.{Extends};
ghost use Rattle.tableau.specs.PoolBranches.{IsFormulaNumber};
ghost use Rattle.tableau.specs.Numbers.{formula_at};
ghost use Rattle.axiom_instances.specs.StructRows.{HasFewFields};
ghost use Rattle.tree_checks.specs.Steps.{first_branch};
ghost use Rattle.tree_checks.specs.Partial.{IsTreeNumbered, IsPartialBy, ShowsPartial};

use crate::partial::applications::GivenTree;
use crate::partial::ending::ends;
use crate::partial::stepping::{steps_of, take};
use crate::partial::walk::begin;
use base::memory::NoMemory;
use fol::shapes::Shapes;
use std::alloc::Global;
use term_pool::pool::Pool;

/// Decides whether the trace is a valid partial tableau of `budget` steps, starting with the branch that has only the
/// negation of a formula: each application is due on the current branch, may come there by its grounds, and leaves no
/// branch that is too long, or closes the current branch. A closing is no step, but each step of its explanation is
/// one. The trace may end within the explanation of a closing of the current branch. Axiom instances and bounds are
/// valid only while a variable number is left above those of the branch. The numbers in `tree` are those of formulas
/// and terms, and each struct shape has fewer than 2^32 fields. The applications are then a partial tableau of the
/// negated formula.
///
/// # Errors
///
/// Only if memory runs out.
pub fn is_partial_tree(
    alloc: Global,
    pool: &mut Pool,
    shapes: &Shapes,
    denial: usize,
    tree: &GivenTree,
    budget: u64,
) -> Result<bool, NoMemory>
    requires few { HasFewFields shapes.now }
    requires denial { IsFormulaNumber pool.old denial }
    requires numbers { IsTreeNumbered pool.old tree.now }
    ensures extends { Extends pool.old pool.new }
    ensures exact { IfOk result (λ known. IsTrue known ↔ IsPartialBy shapes.now pool.old (first_branch pool.old denial ∷ []) tree.now budget) }
    ensures partial { (p : FormulaData) → formula_at pool.old denial ≡ NotFormula p → IfOk result (λ known. IsTrue known → ShowsPartial shapes.now pool.old p tree.now budget) }
{
    let mut walk = begin(alloc, pool, denial)?;
    let mut left = budget;
    let applications = tree.applications.as_slice();
    for application in applications {
        let steps = steps_of(application);
        if steps > left {
            return Ok(false);
        }
        left -= steps;
        pool.one_number();
        let known = take(alloc, pool, shapes, &mut walk, application)?;
        if !known {
            return Ok(false);
        }
    }
    let ended = ends(alloc, pool, &mut walk, &tree.chain, left)?;
    Ok(ended)
}
