//! Instances of the table of axioms.

ghost use Rattle.std.specs.Prelude.{◌≡◌, ◌↔◌, Contains, IsTrue, IfOk};
ghost use Rattle.term_pool.specs.Pools.{Extends};
ghost use Rattle.certificates.specs.Table.{Asks};
ghost use Rattle.tableau.specs.PoolBranches.{branch_in, IsFormulaNumber, IsOver};
ghost use Rattle.tableau.specs.Numbers.{formula_at};
ghost use Rattle.tableau.specs.Terms.{AreBranchTerms, AreClassesOf};
ghost use Rattle.axiom_instances.specs.StructRows.{HasFewFields};
ghost use Rattle.axiom_strategy.specs.Due.{IsDue};
ghost use Rattle.axiom_strategy.specs.Families.{HasVariable};

use axiom_strategy::due::AxiomStep;
use axiom_strategy::listing::instances_over;
use axioms::axiom::Axiom;
use base::memory::NoMemory;
use congruence_closure::branch_classes::BranchClasses;
use fol::shapes::Shapes;
use std::alloc::Global;
use tableau::branch::PoolBranch;
use term_pool::pool::Pool;

fn is_same_axiom(left: Axiom, right: Axiom) -> bool
    ensures { IsTrue result ↔ (left ≡ right) }
{
    left == right
}

fn is_same_step(left: AxiomStep, right: AxiomStep) -> bool
    ensures { IsTrue result ↔ (left ≡ right) }
{
    if !is_same_axiom(left.name, right.name) {
        return false;
    }
    left.formula == right.formula && left.generation == right.generation
}

// Decides whether the step is among these.
fn is_among(steps: &[AxiomStep], sought: AxiomStep) -> bool
    ensures { IsTrue result ↔ Contains steps.now sought }
{
    for step in steps {
        if is_same_step(*step, sought) {
            return true;
        }
    }
    false
}

/// Decides whether the formula is an instance of the axiom that the table triggers and that is due with this
/// generation.
pub(crate) fn is_listed(
    alloc: Global,
    pool: &mut Pool,
    shapes: &Shapes,
    branch: &PoolBranch,
    classes: &BranchClasses,
    terms: &[usize],
    sought: AxiomStep,
) -> Result<bool, NoMemory>
    requires few { HasFewFields shapes.now }
    requires over { IsOver pool.old branch.now }
    requires classes { AreClassesOf pool.old branch.now classes.now }
    requires terms { AreBranchTerms pool.old (branch_in pool.old branch.now) terms.now }
    requires room { HasVariable (branch_in pool.old branch.now) }
    requires formula { IsFormulaNumber pool.old sought.formula }
    ensures extends { Extends pool.old pool.new }
    ensures exact { IfOk result (λ known. IsTrue known ↔ IsDue (branch_in pool.old branch.now) (Asks shapes.now (branch_in pool.old branch.now)) sought.name (formula_at pool.old sought.formula) sought.generation) }
{
    let steps = instances_over(alloc, pool, shapes, branch, classes, terms)?;
    pool.one_number();
    Ok(is_among(steps.as_slice(), sought))
}
