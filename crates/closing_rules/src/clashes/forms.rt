//! Formulas that cannot be true by their form.

ghost use Rattle.std.specs.Prelude.{◌≡◌, ◌↔◌, IsTrue};
ghost use Rattle.fol.specs.declared.operators.Constant.TheVariants.{False};
ghost use Rattle.fol.specs.declared.operators.Junction.TheVariants.{AllOf, AnyOf};
ghost use Rattle.fol.specs.FormulaData.{ConstantTerm, HoldsFormula, JoinFormula, NoFormulas};
ghost use Rattle.certificates.specs.Closes.{IsFalseForm, IsFalseNegated};
ghost use Rattle.term_pool.specs.Items.{formulas_in};
ghost use Rattle.term_pool.specs.Pools.{item_at};
ghost use Rattle.tableau.specs.PoolBranches.{IsFormulaNumber};
ghost use Rattle.tableau.specs.Numbers.{formula_at};
ghost use Rattle.closing_rules.specs.Forms.{held_part, is_false_node, any_part, all_part, is_no_first, IsReflexive};

use fol::operators::{Constant, Junction};
use term_pool::node::{Leaf, Node, One, Two};
use term_pool::pool::Pool;

// The term that a node states to be true.
fn held_part(node: Node) -> Option<usize>
    ensures { result ≡ held_part node }
{
    match node {
        Node::One(One::Holds, term) => Some(term),
        _ => None,
    }
}

// Decides whether a node is the truth value false.
fn is_false_node(node: Node) -> bool
    ensures { result ≡ is_false_node node }
{
    match node {
        Node::Leaf(Leaf::Constant(Constant::False)) => true,
        _ => false,
    }
}

// The list of the disjuncts of a node.
fn any_part(node: Node) -> Option<usize>
    ensures { result ≡ any_part node }
{
    match node {
        Node::One(One::Join(Junction::AnyOf), list) => Some(list),
        _ => None,
    }
}

// The list of the conjuncts of a node.
fn all_part(node: Node) -> Option<usize>
    ensures { result ≡ all_part node }
{
    match node {
        Node::One(One::Join(Junction::AllOf), list) => Some(list),
        _ => None,
    }
}

// Decides whether a node is no list of formulas with a first one.
fn is_no_first(node: Node) -> bool
    ensures { result ≡ is_no_first node }
{
    match node {
        Node::Two(Two::ConsFormula, _, _) => false,
        _ => true,
    }
}

// Decides whether a list is empty.
fn is_empty(pool: &Pool, list: usize) -> bool
    ensures { IsTrue result ↔ (formulas_in (item_at pool.now list) ≡ NoFormulas) }
{
    match pool.node(list) {
        Some(node) => is_no_first(node),
        None => true,
    }
}

// Decides whether the formula is the empty disjunction.
fn is_no_case(pool: &Pool, formula: usize) -> bool
    requires { IsFormulaNumber pool.now formula }
    ensures { IsTrue result ↔ (formula_at pool.now formula ≡ JoinFormula AnyOf NoFormulas) }
{
    let Some(node) = pool.node(formula) else {
        return false;
    };
    match any_part(node) {
        Some(list) => is_empty(pool, list),
        None => false,
    }
}

// Decides whether the formula is the empty conjunction.
fn is_no_part(pool: &Pool, formula: usize) -> bool
    requires { IsFormulaNumber pool.now formula }
    ensures { IsTrue result ↔ (formula_at pool.now formula ≡ JoinFormula AllOf NoFormulas) }
{
    let Some(node) = pool.node(formula) else {
        return false;
    };
    match all_part(node) {
        Some(list) => is_empty(pool, list),
        None => false,
    }
}

// Decides whether the formula states that false is true.
fn holds_false(pool: &Pool, formula: usize) -> bool
    requires { IsFormulaNumber pool.now formula }
    ensures { IsTrue result ↔ (formula_at pool.now formula ≡ HoldsFormula (ConstantTerm False)) }
{
    let Some(node) = pool.node(formula) else {
        return false;
    };
    let Some(term) = held_part(node) else {
        return false;
    };
    let Some(held) = pool.node(term) else {
        return false;
    };
    is_false_node(held)
}

// Decides whether the formula is the equation of a term with itself.
fn is_reflexive(pool: &Pool, formula: usize) -> bool
    requires { IsFormulaNumber pool.now formula }
    ensures { IsTrue result ↔ IsReflexive (formula_at pool.now formula) }
{
    pool.one_number();
    match pool.sides(formula) {
        Some((left, right)) => left == right,
        None => false,
    }
}

// Decides whether the negation of the formula cannot be true by its form.
fn is_false_denied(pool: &Pool, formula: usize) -> bool
    requires { IsFormulaNumber pool.now formula }
    ensures { IsTrue result ↔ IsFalseNegated (formula_at pool.now formula) }
{
    if is_no_part(pool, formula) {
        return true;
    }
    is_reflexive(pool, formula)
}

/// Decides whether the formula cannot be true by its form.
pub(crate) fn is_false_form(pool: &Pool, formula: usize) -> bool
    requires { IsFormulaNumber pool.now formula }
    ensures { IsTrue result ↔ IsFalseForm (formula_at pool.now formula) }
{
    if is_no_case(pool, formula) {
        return true;
    }
    if holds_false(pool, formula) {
        return true;
    }
    match pool.denied(formula) {
        Some(inner) => is_false_denied(pool, inner),
        None => false,
    }
}
