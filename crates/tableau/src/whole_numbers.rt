//! Terms that formulas state to be whole numbers.

ghost use Rattle.std.specs.Prelude.{◌≡◌, MatchOption};
ghost use Rattle.base.specs.TypeData.{NumType};
ghost use Rattle.fol.specs.FormulaData.{TermData, IsFormula};
ghost use Rattle.tableau.specs.PoolBranches.{IsFormulaNumber};
ghost use Rattle.tableau.specs.Numbers.{formula_at};
ghost use Rattle.tableau.specs.WholeNumbers.{is_num_node, typed_parts, IsNumberSaid};

use term_pool::node::{Leaf, Node, Two};
use term_pool::pool::Pool;

// Decides whether a node is the type of whole numbers.
fn is_num_node(node: Node) -> bool
    ensures { result ≡ is_num_node node }
{
    match node {
        Node::Leaf(Leaf::TypeNum) => true,
        _ => false,
    }
}

// The type and the term of a formula stating that a term has a type.
fn typed_parts(node: Node) -> Option<(usize, usize)>
    ensures { result ≡ typed_parts node }
{
    match node {
        Node::Two(Two::Is, of, term) => Some((of, term)),
        _ => None,
    }
}

/// Returns the term that a formula states to be a whole number; `None` if the formula states this of no term.
pub fn number_said(pool: &Pool, formula: usize) -> Option<usize>
    requires { IsFormulaNumber pool.now formula }
    ensures { MatchOption result ((t : TermData) → formula_at pool.now formula ≡ IsFormula NumType t → ⊥) (IsNumberSaid pool.now formula) }
{
    let Some(node) = pool.node(formula) else {
        return None;
    };
    let Some((of, term)) = typed_parts(node) else {
        return None;
    };
    let Some(of_node) = pool.node(of) else {
        return None;
    };
    if is_num_node(of_node) {
        return Some(term);
    }
    None
}
