//! Steps that add an instance of a quantified formula (gamma rule).

ghost use Rattle.std.specs.Prelude.{◌≡◌, ◌↔◌, List, IsTrue, OnOk, IfOk};
ghost use Rattle.fol.specs.declared.shapes.Shape.{Shape};
ghost use Rattle.tableau.specs.PoolBranches.{branch_in, IsOver};
ghost use Rattle.search.specs.declared.trees.application.Reason.TheVariants.{Instance};
ghost use Rattle.tree_checks.specs.Kept.{IsKept};
ghost use Rattle.tree_checks.specs.Steps.{HasNumbers, IsGrowing};

use crate::grown::keeping::Kept;
use crate::grown::numbers::only;
use base::memory::NoMemory;
use search::trees::application::Extension;
use std::alloc::Global;
use step_checks::applications::universals::is_instance_due;
use tableau::branch::PoolBranch;
use term_pool::pool::Pool;

/// Decides whether the formula is the instance, for the term, of the entry with this number, and is due with its
/// generation.
pub(crate) fn is_instance_growing(
    alloc: Global,
    pool: &Pool,
    branch: &PoolBranch,
    kept: &mut Kept,
    extension: &Extension,
    entry: usize,
    term: usize,
) -> Result<bool, NoMemory>
    requires over { IsOver pool.now branch.now }
    requires kept { IsKept pool.now branch.now.entries kept.old }
    requires numbers { HasNumbers pool.now extension.now }
    requires reason { extension.now.reason ≡ Instance entry term }
    ensures kept { OnOk result (IsKept pool.now branch.now.entries kept.new) }
    ensures exact { (shapes : List Shape) → IfOk result (λ known. IsTrue known ↔ IsGrowing shapes pool.now (branch_in pool.now branch.now) extension.now) }
{
    let Some(formula) = only(extension.formulas.as_slice()) else {
        return Ok(false);
    };
    let known = is_instance_due(
        alloc,
        pool,
        branch,
        &mut kept.heads,
        &mut kept.quantifiers,
        entry,
        term,
        formula,
        extension.generation,
    )?;
    Ok(known)
}
