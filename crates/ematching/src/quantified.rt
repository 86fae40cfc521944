//! Universal formulas.

ghost use Rattle.std.specs.Prelude.{◌≡◌, MatchOption};
ghost use Rattle.tableau.specs.PoolBranches.{IsFormulaNumber};
ghost use Rattle.ematching.specs.Numbers.{formula_at};
ghost use Rattle.ematching.specs.Quantified.{quantifier_of, IsQuantified, IsNotQuantified, IsQuantifier, HasNoQuantifier};

use fol::operators::Quantifier;
use term_pool::node::{Node, Two};
use term_pool::pool::Pool;

/// A universal formula, by number: a universal quantification, or a negated existential one.
#[derive(Clone, Copy)]
pub struct Universal {
    pub variable: u32,
    /// The number of its triggers.
    pub triggers: usize,
    /// The number of its body.
    pub body: usize,
    /// Whether it is a negated existential quantification.
    pub is_denied: bool,
}

// The quantification at the node, if it is by this quantifier; for an existential one the body is negated.
fn quantifier_of(quantifier: Quantifier, node: Node) -> Option<Universal>
    ensures { result ≡ quantifier_of quantifier node }
{
    match (quantifier, node) {
        (
            Quantifier::ForAll,
            Node::Two(Two::Quantify(Quantifier::ForAll, variable), triggers, body),
        ) => Some(Universal {
            variable,
            triggers,
            body,
            is_denied: false,
        }),
        (
            Quantifier::Exists,
            Node::Two(Two::Quantify(Quantifier::Exists, variable), triggers, body),
        ) => Some(Universal {
            variable,
            triggers,
            body,
            is_denied: true,
        }),
        _ => None,
    }
}

// The outermost quantification of the formula, if it is by this quantifier.
fn quantifier_at(pool: &Pool, quantifier: Quantifier, formula: usize) -> Option<Universal>
    requires { IsFormulaNumber pool.now formula }
    ensures { MatchOption result (HasNoQuantifier quantifier (formula_at pool.now formula)) (IsQuantifier pool.now quantifier (formula_at pool.now formula)) }
{
    match pool.node(formula) {
        Some(node) => quantifier_of(quantifier, node),
        None => None,
    }
}

/// The universal formula with this number; a negated existential formula is universal, with a negated body. None if
/// the formula is not universal.
pub fn quantified(pool: &Pool, formula: usize) -> Option<Universal>
    requires { IsFormulaNumber pool.now formula }
    ensures { MatchOption result (IsNotQuantified (formula_at pool.now formula)) (IsQuantified pool.now (formula_at pool.now formula)) }
{
    match pool.denied(formula) {
        Some(inner) => quantifier_at(pool, Quantifier::Exists, inner),
        None => quantifier_at(pool, Quantifier::ForAll, formula),
    }
}
