//! Steps that name the variable of an existential formula (delta rule).

ghost use Rattle.std.specs.Prelude.{◌≡◌, ◌↔◌, List, IsTrue, OnOk, IfOk};
ghost use Rattle.fol.specs.declared.shapes.Shape.{Shape};
ghost use Rattle.tableau.specs.PoolBranches.{branch_in, IsOver};
ghost use Rattle.search.specs.declared.trees.application.Reason.TheVariants.{Name};
ghost use Rattle.tree_checks.specs.Kept.{IsKept};
ghost use Rattle.tree_checks.specs.Steps.{HasNumbers, IsGrowing};

use crate::grown::keeping::Kept;
use crate::grown::numbers::{is_own, only};
use base::memory::NoMemory;
use search::trees::application::Extension;
use std::alloc::Global;
use step_checks::applications::names::is_name_due;
use tableau::branch::PoolBranch;
use term_pool::pool::Pool;

/// Decides whether the formula is the body, for the variable, of the entry with this number, and the Skolem name is
/// due.
pub(crate) fn is_name_growing(
    alloc: Global,
    pool: &Pool,
    branch: &PoolBranch,
    kept: &mut Kept,
    extension: &Extension,
    entry: u32,
    variable: u32,
) -> Result<bool, NoMemory>
    requires over { IsOver pool.now branch.now }
    requires kept { IsKept pool.now branch.now.entries kept.old }
    requires numbers { HasNumbers pool.now extension.now }
    requires reason { extension.now.reason ≡ Name entry variable }
    ensures kept { OnOk result (IsKept pool.now branch.now.entries kept.new) }
    ensures exact { (shapes : List Shape) → IfOk result (λ known. IsTrue known ↔ IsGrowing shapes pool.now (branch_in pool.now branch.now) extension.now) }
{
    let position = entry as usize;
    let own = is_own(branch, position, extension.generation);
    if !own {
        return Ok(false);
    }
    let Some(formula) = only(extension.formulas.as_slice()) else {
        return Ok(false);
    };
    let known = is_name_due(
        alloc,
        pool,
        branch,
        &mut kept.variables,
        position,
        variable,
        formula,
    )?;
    Ok(known)
}
