//! The axioms that state an equivalence.

ghost use Rattle.std.specs.Prelude.{◌≡◌, ◌↔◌, ◌∷◌, [], IsTrue, Some};
ghost use Rattle.fol.specs.FormulaData.{TermData, ConstantTerm, MaxTerm, TrueTerm, FalseTerm, EqFormula, LeFormula};
ghost use Rattle.axioms.specs.Forms.{number, WholeFormula};
ghost use Rattle.axioms.specs.Equivalences.{greatest, IsEquivalence};

use crate::axiom::Equivalence;
use crate::forms::{is_constant, is_from_zero, is_numeral, is_whole};
use base::types::{TypeNode, TypeTerm, Width};
use fol::formula::{Formula, FormulaNode, Term};
use fol::operators::{Comparison, Constant, Junction};
use fol::same::same_term;

/// Decides whether the axiom states that the two formulas are equivalent.
pub fn is_equivalence(name: Equivalence, left: &Formula, right: &Formula) -> bool
    ensures { IsTrue result ↔ IsEquivalence name left.now right.now }
{
    match name {
        Equivalence::Range => is_range(left, right),
        Equivalence::BoolTyped => is_bool_typed(left, right),
    }
}

#[tactic(auto, using(fol::specs::FormulaData::formulas_of_injective))]
fn is_range(left: &Formula, right: &Formula) -> bool
    ensures { IsTrue result ↔ IsEquivalence Equivalence.Range left.now right.now }
{
    match (&left.node, &right.node) {
        (FormulaNode::Is(of, term), FormulaNode::Join(Junction::AllOf, parts)) => {
            are_range(parts.as_slice(), of, term)
        }
        _ => false,
    }
}

// Decides whether the formulas state that the term is a whole number from 0 to the greatest of the type.
fn are_range(parts: &[Formula], of: &TypeTerm, term: &Term) -> bool
    ensures { IsTrue result
        ↔ ((most : TermData) × (greatest of.now ≡ Some most) × (parts.now ≡ WholeFormula term.now ∷ LeFormula (number 0) term.now ∷ LeFormula term.now most ∷ [])) }
{
    parts.len() == 3
        && is_whole(&parts[0], term)
        && is_from_zero(&parts[1], term)
        && is_up_to_greatest(&parts[2], term, of)
}

// Decides whether the formula states that the term is at most the greatest of the type.
fn is_up_to_greatest(formula: &Formula, term: &Term, of: &TypeTerm) -> bool
    ensures { IsTrue result
        ↔ ((most : TermData) × (greatest of.now ≡ Some most) × (formula.now ≡ LeFormula term.now most)) }
{
    match &formula.node {
        FormulaNode::Compare(Comparison::Le, inner, most) => {
            same_term(inner, term) && is_greatest(most, of)
        }
        _ => false,
    }
}

// Decides whether the term is the greatest value of the type.
fn is_greatest(term: &Term, of: &TypeTerm) -> bool
    ensures { IsTrue result ↔ (greatest of.now ≡ Some term.now) }
{
    match &of.node {
        TypeNode::Int(Width::U8) => is_numeral(term, 0xff),
        TypeNode::Int(Width::U16) => is_numeral(term, 0xffff),
        TypeNode::Int(Width::U32) => is_numeral(term, 0xffff_ffff),
        TypeNode::Int(Width::U64) => is_numeral(term, 0xffff_ffff_ffff_ffff),
        TypeNode::Int(Width::U128) | TypeNode::Address | TypeNode::Signer => is_max(term),
        _ => false,
    }
}

fn is_max(term: &Term) -> bool
    ensures { IsTrue result ↔ (term.now ≡ MaxTerm) }
{
    is_constant(term, Constant::Max)
}

#[tactic(auto, using(fol::specs::FormulaData::formulas_of_injective))]
fn is_bool_typed(left: &Formula, right: &Formula) -> bool
    ensures { IsTrue result ↔ IsEquivalence Equivalence.BoolTyped left.now right.now }
{
    match (&left.node, &right.node) {
        (FormulaNode::Is(of, term), FormulaNode::Join(Junction::AnyOf, cases)) => {
            matches!(&of.node, TypeNode::Bool) && are_truths(cases.as_slice(), term)
        }
        _ => false,
    }
}

// Decides whether the formulas state that the term is `True` and that it is `False`.
fn are_truths(cases: &[Formula], term: &Term) -> bool
    ensures { IsTrue result ↔ (cases.now ≡ EqFormula term.now TrueTerm ∷ EqFormula term.now FalseTerm ∷ []) }
{
    cases.len() == 2
        && is_equal_to(&cases[0], term, Constant::True)
        && is_equal_to(&cases[1], term, Constant::False)
}

fn is_equal_to(formula: &Formula, term: &Term, constant: Constant) -> bool
    ensures { IsTrue result ↔ (formula.now ≡ EqFormula term.now (ConstantTerm constant)) }
{
    match &formula.node {
        FormulaNode::Compare(Comparison::Eq, left, right) => {
            same_term(left, term) && is_constant(right, constant)
        }
        _ => false,
    }
}
