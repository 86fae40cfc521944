//! Compound formulas.

ghost use Rattle.std.specs.Prelude.{◌≡◌, MatchOption};
ghost use Rattle.fol.specs.FormulaData.{NoFormulas};
ghost use Rattle.term_pool.specs.Items.{formulas_in};
ghost use Rattle.term_pool.specs.Pools.{item_at};
ghost use Rattle.tableau.specs.PoolBranches.{IsFormulaNumber};
ghost use Rattle.tableau.specs.Numbers.{formula_at, IsFirst};
ghost use Rattle.tableau.specs.Compounds.{HasNoConnective, IsCompound, compound_of};

use fol::operators::{Connective, Junction};
use term_pool::node::{Node, One, Two};
use term_pool::pool::Pool;

/// A compound formula: a connective and the numbers of its operands.
#[derive(Clone, Copy)]
pub enum Compound {
    /// The junction of a list of formulas.
    Join(Junction, usize),
    Not(usize),
    Connect(Connective, usize, usize),
}

// The compound formula at the node.
fn compound_of(node: Node) -> Option<Compound>
    ensures { result ≡ compound_of node }
{
    match node {
        Node::One(One::Join(operator), list) => Some(Compound::Join(operator, list)),
        Node::One(One::Not, inner) => Some(Compound::Not(inner)),
        Node::Two(Two::Connect(operator), left, right) => {
            Some(Compound::Connect(operator, left, right))
        }
        _ => None,
    }
}

/// The compound formula with this number; none if it is an atom or quantified.
pub fn compound_at(pool: &Pool, formula: usize) -> Option<Compound>
    requires { IsFormulaNumber pool.now formula }
    ensures { MatchOption result (HasNoConnective (formula_at pool.now formula)) (IsCompound pool.now (formula_at pool.now formula)) }
{
    match pool.node(formula) {
        Some(node) => compound_of(node),
        None => None,
    }
}

// The numbers of the first formula of a list and of the rest.
pub(crate) fn first(pool: &Pool, list: usize) -> Option<(usize, usize)>
    ensures { MatchOption result (formulas_in (item_at pool.now list) ≡ NoFormulas) (IsFirst pool.now list) }
{
    match pool.node(list) {
        Some(Node::Two(Two::ConsFormula, first, rest)) => Some((first, rest)),
        _ => None,
    }
}
