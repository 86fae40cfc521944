//! Equations of a term with itself.

ghost use Rattle.std.specs.Prelude.{◌≡◌, ◌↔◌, IsTrue, IfOk, MatchOption};
ghost use Rattle.axioms.specs.declared.axiom.Axiom.TheVariants.{Equal};
ghost use Rattle.axioms.specs.declared.axiom.Equation.TheVariants.{Itself};
ghost use Rattle.certificates.specs.ProofTraces.{IsItself};
ghost use Rattle.tableau.specs.PoolBranches.{branch_in, IsFormulaNumber, IsOver};
ghost use Rattle.tableau.specs.Numbers.{formula_at};
ghost use Rattle.step_checks.specs.Inside.{AreInsideMarks};
ghost use Rattle.step_checks.specs.Links.{both_sides, IsNotReflexive, IsReflexiveAt};

use crate::closings::inside::InsideMarks;
use base::memory::NoMemory;
use fol::operators::Comparison;
use std::alloc::Global;
use tableau::branch::PoolBranch;
use term_pool::node::{Node, Two};
use term_pool::pool::Pool;

// The term on both sides of the equation that a node is.
fn both_sides(node: Node) -> Option<usize>
    ensures { result ≡ both_sides node }
{
    match node {
        Node::Two(Two::Compare(Comparison::Eq), left, right) => {
            if left == right { Some(left) } else { None }
        }
        _ => None,
    }
}

// The term of which the formula states that it equals itself.
fn own_term(pool: &Pool, formula: usize) -> Option<usize>
    requires { IsFormulaNumber pool.now formula }
    ensures { MatchOption result (IsNotReflexive (formula_at pool.now formula)) (IsReflexiveAt pool.now (formula_at pool.now formula)) }
{
    pool.one_number();
    match pool.node(formula) {
        Some(node) => both_sides(node),
        None => None,
    }
}

// Decides whether the formula states that a term that occurs in an entry equals itself.
pub(crate) fn is_itself(
    alloc: Global,
    pool: &Pool,
    branch: &PoolBranch,
    inside: &mut InsideMarks,
    formula: usize,
) -> Result<bool, NoMemory>
    requires over { IsOver pool.now branch.now }
    requires inside { AreInsideMarks pool.now branch.now inside.old }
    requires formula { IsFormulaNumber pool.now formula }
    ensures inside { AreInsideMarks pool.now branch.now inside.new }
    ensures exact { IfOk result (λ known. IsTrue known ↔ IsItself (branch_in pool.now branch.now) (Equal Itself) (formula_at pool.now formula)) }
{
    let Some(term) = own_term(pool, formula) else {
        return Ok(false);
    };
    let known = inside.stands(alloc, pool, branch, term)?;
    Ok(known)
}
