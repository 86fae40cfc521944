//! Comparisons and numerals, given by number.

ghost use Rattle.std.specs.Prelude.{◌≡◌, ◌↔◌, IsTrue, MatchOption};
ghost use Rattle.fol.specs.FormulaData.{CompareFormula, NotFormula};
ghost use Rattle.certificates.specs.Linear.{numeral_of};
ghost use Rattle.tableau.specs.PoolBranches.{IsFormulaNumber, IsTermNumber};
ghost use Rattle.tableau.specs.Numbers.{formula_at};
ghost use Rattle.tableau.specs.Terms.{term_at};
ghost use Rattle.tree_checks.specs.Sides.{sides_of, IsNoComparison, IsComparison};

use axiom_instances::reading::{TermForm, term_form};
use fol::operators::{Comparison, Constant};
use tableau::rules::compounds::{Compound, compound_at};
use term_pool::node::{Node, Two};
use term_pool::pool::Pool;

/// A comparison, and the numbers of its sides.
#[derive(Clone, Copy)]
pub(crate) struct Sides {
    pub(crate) operator: Comparison,
    pub(crate) left: usize,
    pub(crate) right: usize,
}

fn sides_of(node: Node) -> Option<Sides>
    ensures { result ≡ sides_of node }
{
    match node {
        Node::Two(Two::Compare(operator), left, right) => Some(Sides {
            operator,
            left,
            right,
        }),
        _ => None,
    }
}

/// The sides of a formula; `None` if it is no comparison.
pub(crate) fn sides_at(pool: &Pool, formula: usize) -> Option<Sides>
    requires { IsFormulaNumber pool.now formula }
    ensures { MatchOption result (IsNoComparison (formula_at pool.now formula)) (IsComparison pool.now (formula_at pool.now formula)) }
{
    match pool.node(formula) {
        Some(node) => sides_of(node),
        None => None,
    }
}

/// Decides whether the two numbers are equal.
pub(crate) fn is_same(left: usize, right: usize) -> bool
    ensures { IsTrue result ↔ (left ≡ right) }
{
    left == right
}

fn is_same_operator(left: Comparison, right: Comparison) -> bool
    ensures { IsTrue result ↔ (left ≡ right) }
{
    left == right
}

/// Decides whether the formula is this comparison of the terms.
pub(crate) fn is_comparison(
    pool: &Pool,
    formula: usize,
    operator: Comparison,
    left: usize,
    right: usize,
) -> bool
    requires formula { IsFormulaNumber pool.now formula }
    requires left { IsTermNumber pool.now left }
    requires right { IsTermNumber pool.now right }
    ensures { IsTrue result ↔ (formula_at pool.now formula ≡ CompareFormula operator (term_at pool.now left) (term_at pool.now right)) }
{
    pool.one_number();
    let Some(sides) = sides_at(pool, formula) else {
        return false;
    };
    if !is_same_operator(sides.operator, operator) {
        return false;
    }
    if !is_same(sides.left, left) {
        return false;
    }
    is_same(sides.right, right)
}

/// Decides whether the formula negates the other one.
pub(crate) fn is_denial(pool: &Pool, formula: usize, of: usize) -> bool
    requires formula { IsFormulaNumber pool.now formula }
    requires of { IsFormulaNumber pool.now of }
    ensures { IsTrue result ↔ (formula_at pool.now formula ≡ NotFormula (formula_at pool.now of)) }
{
    pool.one_number();
    match compound_at(pool, formula) {
        Some(Compound::Not(inner)) => is_same(inner, of),
        _ => false,
    }
}

/// The value of the term with this number; `None` if it is no numeral.
pub(crate) fn numeral_at(pool: &Pool, term: usize) -> Option<i128>
    ensures { result ≡ numeral_of (term_at pool.now term) }
{
    match term_form(pool, term) {
        TermForm::Constant(Constant::Num(value)) => Some(value),
        _ => None,
    }
}
