//! Steps that split at a bound on a whole number.

ghost use Rattle.std.specs.Prelude.{◌≡◌, ◌↔◌, List, IsTrue, IfOk};
ghost use Rattle.base.specs.TypeData.{NumType};
ghost use Rattle.fol.specs.FormulaData.{IsFormula};
ghost use Rattle.fol.specs.declared.shapes.Shape.{Shape};
ghost use Rattle.term_pool.specs.Pools.{Extends};
ghost use Rattle.certificates.specs.BranchesBranch.{Says};
ghost use Rattle.tableau.specs.PoolBranches.{branch_in, IsTermNumber, IsOver};
ghost use Rattle.tableau.specs.Terms.{term_at};
ghost use Rattle.search.specs.declared.trees.application.Reason.TheVariants.{Bound};
ghost use Rattle.tree_checks.specs.Steps.{HasNumbers, IsGrowing};

use crate::grown::numbers::{is_own, pair};
use crate::grown::orders::are_bounds;
use crate::grown::reading::is_same;
use base::memory::NoMemory;
use search::trees::application::Extension;
use tableau::branch::PoolBranch;
use term_pool::node::{Leaf, Node, Two};
use term_pool::pool::Pool;

// Decides whether the entry with this number states that the term is a whole number.
fn is_said(
    pool: &mut Pool,
    branch: &PoolBranch,
    entry: usize,
    term: usize,
) -> Result<bool, NoMemory>
    requires over { IsOver pool.old branch.now }
    requires term { IsTermNumber pool.old term }
    ensures extends { Extends pool.old pool.new }
    ensures exact { IfOk result (λ known. IsTrue known ↔ Says (branch_in pool.old branch.now) entry (IsFormula NumType (term_at pool.old term))) }
{
    let of = pool.insert(Node::Leaf(Leaf::TypeNum))?;
    let formula = pool.insert(Node::Two(Two::Is, of, term))?;
    pool.one_number();
    let Some(at) = branch.entry(entry) else {
        return Ok(false);
    };
    Ok(is_same(at.formula, formula))
}

/// Decides whether the formulas are the sides of the bound, and the entry with this number states that the term is a
/// whole number.
pub(crate) fn are_bounds_growing(
    pool: &mut Pool,
    branch: &PoolBranch,
    extension: &Extension,
    entry: usize,
    term: usize,
    number: i128,
) -> Result<bool, NoMemory>
    requires over { IsOver pool.old branch.now }
    requires numbers { HasNumbers pool.old extension.now }
    requires reason { extension.now.reason ≡ Bound entry term number }
    ensures extends { Extends pool.old pool.new }
    ensures exact { (shapes : List Shape) → IfOk result (λ known. IsTrue known ↔ IsGrowing shapes pool.old (branch_in pool.old branch.now) extension.now) }
{
    let own = is_own(branch, entry, extension.generation);
    if !own {
        return Ok(false);
    }
    let Some((below, above)) = pair(extension.formulas.as_slice()) else {
        return Ok(false);
    };
    let bounds = are_bounds(pool, term, number, below, above);
    if !bounds {
        return Ok(false);
    }
    let known = is_said(pool, branch, entry, term)?;
    Ok(known)
}
