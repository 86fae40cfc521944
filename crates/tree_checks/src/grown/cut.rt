//! Steps that cut on the equality of two terms.

ghost use Rattle.std.specs.Prelude.{◌≡◌, ◌↔◌, List, IsTrue, OnOk, IfOk};
ghost use Rattle.fol.specs.FormulaData.{EqFormula};
ghost use Rattle.fol.specs.declared.shapes.Shape.{Shape};
ghost use Rattle.axioms.specs.Forms.{DifferFormula};
ghost use Rattle.term_pool.specs.Pools.{Extends};
ghost use Rattle.tableau.specs.PoolBranches.{branch_in, IsFormulaNumber, IsTermNumber, IsOver};
ghost use Rattle.tableau.specs.Numbers.{formula_at};
ghost use Rattle.tableau.specs.Terms.{term_at};
ghost use Rattle.search.specs.declared.trees.application.Reason.TheVariants.{Cut};
ghost use Rattle.tree_checks.specs.Kept.{IsKept};
ghost use Rattle.tree_checks.specs.Steps.{HasNumbers, IsGrowing};

use crate::grown::keeping::Kept;
use crate::grown::numbers::pair;
use crate::grown::reading::{is_comparison, is_denial};
use base::memory::NoMemory;
use fol::operators::Comparison;
use search::trees::application::Extension;
use std::alloc::Global;
use step_checks::decisions::cuts::is_cut_due;
use step_checks::decisions::numbers::is_generation_of;
use tableau::branch::PoolBranch;
use term_pool::pool::Pool;

// Decides whether the formulas state that the terms are equal, and that they differ.
fn are_cut_sides(pool: &Pool, left: usize, right: usize, equation: usize, denial: usize) -> bool
    requires left { IsTermNumber pool.now left }
    requires right { IsTermNumber pool.now right }
    requires equation { IsFormulaNumber pool.now equation }
    requires denial { IsFormulaNumber pool.now denial }
    ensures { IsTrue result ↔ ((formula_at pool.now equation ≡ EqFormula (term_at pool.now left) (term_at pool.now right)) × (formula_at pool.now denial ≡ DifferFormula (term_at pool.now left) (term_at pool.now right))) }
{
    if !is_comparison(pool, equation, Comparison::Eq, left, right) {
        return false;
    }
    is_denial(pool, denial, equation)
}

/// Decides whether the formulas state that the terms are equal and that they differ, and the cut is due with its
/// generation.
pub(crate) fn is_cut_growing(
    alloc: Global,
    pool: &mut Pool,
    branch: &PoolBranch,
    kept: &mut Kept,
    extension: &Extension,
    left: usize,
    right: usize,
) -> Result<bool, NoMemory>
    requires over { IsOver pool.old branch.now }
    requires kept { IsKept pool.old branch.now.entries kept.old }
    requires numbers { HasNumbers pool.old extension.now }
    requires reason { extension.now.reason ≡ Cut left right }
    ensures extends { Extends pool.old pool.new }
    ensures kept { OnOk result (IsKept pool.new branch.now.entries kept.new) }
    ensures exact { (shapes : List Shape) → IfOk result (λ known. IsTrue known ↔ IsGrowing shapes pool.old (branch_in pool.old branch.now) extension.now) }
{
    let Some((equation, denial)) = pair(extension.formulas.as_slice()) else {
        return Ok(false);
    };
    let sides = are_cut_sides(pool, left, right, equation, denial);
    if !sides {
        return Ok(false);
    }
    let fits = is_generation_of(pool, branch, left, right, extension.generation);
    if !fits {
        return Ok(false);
    }
    kept.state.follow_classes(alloc, pool, branch)?;
    let known = is_cut_due(alloc, pool, branch, &kept.state.classes, left, right)?;
    Ok(known)
}
