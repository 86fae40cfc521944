//! Steps that add an instance of an axiom.

ghost use Rattle.std.specs.Prelude.{◌≡◌, ◌↔◌, ◌≤◌, ◌^◌, IsTrue, OnOk, IfOk};
ghost use Rattle.term_pool.specs.Pools.{Extends};
ghost use Rattle.tableau.specs.PoolBranches.{branch_in, IsOver};
ghost use Rattle.axiom_instances.specs.StructRows.{HasFewFields};
ghost use Rattle.search.specs.declared.trees.application.Reason.TheVariants.{Axiom as FromAxiom};
ghost use Rattle.tree_checks.specs.Kept.{IsKept};
ghost use Rattle.tree_checks.specs.Steps.{HasNumbers, IsGrowing};

use crate::grown::keeping::Kept;
use crate::grown::numbers::only;
use axiom_strategy::due::AxiomStep;
use axioms::axiom::Axiom;
use base::memory::NoMemory;
use fol::shapes::Shapes;
use search::trees::application::Extension;
use std::alloc::Global;
use step_checks::axiom_rules::triggered::is_axiom_due;
use tableau::aliasing::terms::terms;
use tableau::branch::PoolBranch;
use term_pool::pool::Pool;

// Decides whether a number exceeds all numbers of variables.
fn is_past(number: u64) -> bool
    ensures { IsTrue result ↔ (2 ^ 32 ≤ number) }
{
    number > u64::from(u32::MAX)
}

/// Decides whether the formula is an instance of the axiom that is due with its generation, on a branch with a variable
/// number left.
pub(crate) fn is_axiom_growing(
    alloc: Global,
    pool: &mut Pool,
    shapes: &Shapes,
    branch: &PoolBranch,
    kept: &mut Kept,
    extension: &Extension,
    name: Axiom,
) -> Result<bool, NoMemory>
    requires few { HasFewFields shapes.now }
    requires over { IsOver pool.old branch.now }
    requires kept { IsKept pool.old branch.now.entries kept.old }
    requires numbers { HasNumbers pool.old extension.now }
    requires reason { extension.now.reason ≡ FromAxiom name }
    ensures extends { Extends pool.old pool.new }
    ensures kept { OnOk result (IsKept pool.new branch.now.entries kept.new) }
    ensures exact { IfOk result (λ known. IsTrue known ↔ IsGrowing shapes.now pool.old (branch_in pool.old branch.now) extension.now) }
{
    let Some(formula) = only(extension.formulas.as_slice()) else {
        return Ok(false);
    };
    let above = kept.variables.above_all(pool, branch)?;
    let crowded = is_past(above);
    if crowded {
        return Ok(false);
    }
    kept.state.follow_classes(alloc, pool, branch)?;
    let present = terms(alloc, pool, branch)?;
    let numbers = present.as_slice();
    let step = AxiomStep {
        name,
        formula,
        generation: extension.generation,
    };
    let known = is_axiom_due(
        alloc,
        pool,
        shapes,
        branch,
        &kept.state.classes,
        numbers,
        step,
    )?;
    Ok(known)
}
