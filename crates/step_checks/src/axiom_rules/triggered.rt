//! Instances of axioms.

ghost use Rattle.std.specs.Prelude.{◌≡◌, ◌↔◌, IsTrue, IfOk};
ghost use Rattle.axioms.specs.declared.axiom.Axiom.TheVariants.{Cases};
ghost use Rattle.axioms.specs.declared.axiom.Alternative.TheVariants.{Trichotomy};
ghost use Rattle.term_pool.specs.Pools.{Extends};
ghost use Rattle.certificates.specs.Due.{AxiomDue};
ghost use Rattle.tableau.specs.PoolBranches.{branch_in, IsFormulaNumber, IsOver};
ghost use Rattle.tableau.specs.Numbers.{formula_at};
ghost use Rattle.tableau.specs.Terms.{AreBranchTerms, AreClassesOf};
ghost use Rattle.axiom_instances.specs.StructRows.{HasFewFields};
ghost use Rattle.axiom_strategy.specs.Families.{HasVariable};
ghost use Rattle.step_checks.specs.Orders.{IsDecisionDue};

use crate::axiom_rules::listed::is_listed;
use crate::axiom_rules::orders::is_order_due;
use axiom_strategy::due::AxiomStep;
use axioms::axiom::{Alternative, Axiom};
use base::memory::NoMemory;
use congruence_closure::branch_classes::BranchClasses;
use fol::shapes::Shapes;
use std::alloc::Global;
use tableau::branch::PoolBranch;
use term_pool::pool::Pool;

fn is_trichotomy(name: Axiom) -> bool
    ensures { IsTrue result ↔ (name ≡ Cases Trichotomy) }
{
    match name {
        Axiom::Cases(Alternative::Trichotomy) => true,
        _ => false,
    }
}

// Decides whether the instance is a decision on two numbers that is due.
fn is_decision_due(
    alloc: Global,
    pool: &mut Pool,
    branch: &PoolBranch,
    classes: &BranchClasses,
    step: AxiomStep,
) -> Result<bool, NoMemory>
    requires over { IsOver pool.old branch.now }
    requires classes { AreClassesOf pool.old branch.now classes.now }
    requires formula { IsFormulaNumber pool.old step.formula }
    ensures extends { Extends pool.old pool.new }
    ensures exact { IfOk result (λ known. IsTrue known ↔ IsDecisionDue (branch_in pool.old branch.now) step.name (formula_at pool.old step.formula) step.generation) }
{
    if !is_trichotomy(step.name) {
        return Ok(false);
    }
    is_order_due(alloc, pool, branch, classes, step.formula, step.generation)
}

/// Decides whether this instance of an axiom is due with its generation: the table of axioms triggers it, or it is a
/// decision on two numbers, and it is new and no deeper than a step may add. `classes` are those of the branch, `terms`
/// are the numbers of its terms, some variable is free in none of its entries, and each struct shape has fewer than
/// 2^32 fields.
///
/// # Errors
///
/// Only if memory runs out.
pub fn is_axiom_due(
    alloc: Global,
    pool: &mut Pool,
    shapes: &Shapes,
    branch: &PoolBranch,
    classes: &BranchClasses,
    terms: &[usize],
    step: AxiomStep,
) -> Result<bool, NoMemory>
    requires few { HasFewFields shapes.now }
    requires over { IsOver pool.old branch.now }
    requires classes { AreClassesOf pool.old branch.now classes.now }
    requires terms { AreBranchTerms pool.old (branch_in pool.old branch.now) terms.now }
    requires room { HasVariable (branch_in pool.old branch.now) }
    requires formula { IsFormulaNumber pool.old step.formula }
    ensures extends { Extends pool.old pool.new }
    ensures exact { IfOk result (λ known. IsTrue known ↔ AxiomDue shapes.now (branch_in pool.old branch.now) step.name (formula_at pool.old step.formula) step.generation) }
{
    let listed = is_listed(alloc, pool, shapes, branch, classes, terms, step)?;
    if listed {
        return Ok(true);
    }
    is_decision_due(alloc, pool, branch, classes, step)
}
