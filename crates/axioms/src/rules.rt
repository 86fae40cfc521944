//! The axioms that state an implication.

ghost use Rattle.std.specs.Prelude.{◌≡◌, ◌↔◌, ◌∷◌, [], IsTrue};
ghost use Rattle.base.specs.TypeData.{TypeData, IntType, VectorType};
ghost use Rattle.fol.specs.FormulaData.{TermData, LenTerm, AtTerm, LeFormula, IsFormula, NotFormula, AllOfFormula, formulas_of};
ghost use Rattle.base.specs.declared.types.Width.{Width};
ghost use Rattle.axioms.specs.Forms.{number, LessFormula, WholeFormula, VectorFormula};
ghost use Rattle.axioms.specs.Rules.{IsBitOperator, most_items, IsRule};

use crate::axiom::Rule;
use crate::forms::{is_int_type, is_numeral, is_outside, is_typed, is_unary, is_vector};
use base::types::{TypeNode, TypeTerm};
use fol::formula::{Formula, FormulaNode, Term, TermNode};
use fol::operators::{Binary, Comparison, Junction, Ternary, Unary};
use fol::same::same_term;

/// Decides whether the axiom states that the first formula implies the second.
pub fn is_rule(name: Rule, premise: &Formula, conclusion: &Formula) -> bool
    ensures { IsTrue result ↔ IsRule name premise.now conclusion.now }
{
    match name {
        Rule::ItemTyped => is_item_typed(premise, conclusion),
        Rule::LenBounded => is_len_bounded(premise, conclusion),
        Rule::SetTyped => is_set_typed(premise, conclusion),
        Rule::PushTyped => is_push_typed(premise, conclusion),
        Rule::PopTyped => is_pop_typed(premise, conclusion),
        Rule::BitsTyped => is_bits_typed(premise, conclusion),
        Rule::ShrTyped => is_shr_typed(premise, conclusion),
    }
}

#[tactic(auto, using(fol::specs::FormulaData::formulas_of_injective))]
fn is_item_typed(premise: &Formula, conclusion: &Formula) -> bool
    ensures { IsTrue result ↔ IsRule Rule.ItemTyped premise.now conclusion.now }
{
    match &conclusion.node {
        FormulaNode::Join(Junction::AnyOf, cases) => are_item_cases(premise, cases.as_slice()),
        _ => false,
    }
}

// Decides whether the formulas are the cases of an item of the vector in the premise.
fn are_item_cases(premise: &Formula, cases: &[Formula]) -> bool
    ensures { IsTrue result
        ↔ ((a : TypeData) × (v : TermData) × (i : TermData) × (premise.now ≡ VectorFormula a v) × (cases.now ≡ LessFormula i (number 0) ∷ LeFormula (LenTerm v) i ∷ NotFormula (WholeFormula i) ∷ IsFormula a (AtTerm v i) ∷ [])) }
{
    if cases.len() != 4 {
        return false;
    }
    let last = &cases[3];
    match &last.node {
        FormulaNode::Is(of, item) => match &item.node {
            TermNode::Binary(Binary::At, vector, position) => {
                is_vector(premise, of, vector)
                    && is_outside(&cases[0], &cases[1], &cases[2], vector, position)
            }
            _ => false,
        },
        _ => false,
    }
}

fn is_len_bounded(premise: &Formula, conclusion: &Formula) -> bool
    ensures { IsTrue result ↔ IsRule Rule.LenBounded premise.now conclusion.now }
{
    match &conclusion.node {
        FormulaNode::Compare(Comparison::Le, length, most) => match &length.node {
            TermNode::Unary(Unary::Len, vector) => {
                is_numeral(most, 0xffff_ffff_ffff_ffff) && is_some_vector(premise, vector)
            }
            _ => false,
        },
        _ => false,
    }
}

// Decides whether the formula states that the term is a vector.
fn is_some_vector(formula: &Formula, term: &Term) -> bool
    ensures { IsTrue result ↔ ((a : TypeData) × (formula.now ≡ VectorFormula a term.now)) }
{
    match &formula.node {
        FormulaNode::Is(of, found) => {
            matches!(&of.node, TypeNode::Vector(_)) && same_term(found, term)
        }
        _ => false,
    }
}

fn is_set_typed(premise: &Formula, conclusion: &Formula) -> bool
    ensures { IsTrue result ↔ IsRule Rule.SetTyped premise.now conclusion.now }
{
    match &conclusion.node {
        FormulaNode::Is(of, set) => match &set.node {
            TermNode::Ternary(Ternary::Set, vector, _, item) => {
                is_vector_and_item(premise, of, vector, item)
            }
            _ => false,
        },
        _ => false,
    }
}

// Decides whether the formula states that the one term is a vector of this type and the other one has its item type.
#[tactic(auto, using(fol::specs::FormulaData::formulas_of_injective))]
fn is_vector_and_item(formula: &Formula, of: &TypeTerm, vector: &Term, item: &Term) -> bool
    ensures { IsTrue result
        ↔ ((a : TypeData) × (of.now ≡ VectorType a) × (formula.now ≡ AllOfFormula (formulas_of (VectorFormula a vector.now ∷ IsFormula a item.now ∷ [])))) }
{
    match (&formula.node, &of.node) {
        (FormulaNode::Join(Junction::AllOf, parts), TypeNode::Vector(inner)) => {
            are_vector_and_item(parts.as_slice(), inner, vector, item)
        }
        _ => false,
    }
}

fn are_vector_and_item(parts: &[Formula], of: &TypeTerm, vector: &Term, item: &Term) -> bool
    ensures { IsTrue result
        ↔ (parts.now ≡ VectorFormula of.now vector.now ∷ IsFormula of.now item.now ∷ []) }
{
    parts.len() == 2 && is_vector(&parts[0], of, vector) && is_typed(&parts[1], of, item)
}

fn is_push_typed(premise: &Formula, conclusion: &Formula) -> bool
    ensures { IsTrue result ↔ IsRule Rule.PushTyped premise.now conclusion.now }
{
    match &conclusion.node {
        FormulaNode::Is(of, pushed) => match &pushed.node {
            TermNode::Binary(Binary::Push, vector, item) => {
                is_vector_with_room(premise, of, vector, item)
            }
            _ => false,
        },
        _ => false,
    }
}

// Decides whether the formula states that the one term is a vector of this type with room, and the other one has its
// item type.
#[tactic(auto, using(fol::specs::FormulaData::formulas_of_injective))]
fn is_vector_with_room(formula: &Formula, of: &TypeTerm, vector: &Term, item: &Term) -> bool
    ensures { IsTrue result
        ↔ ((a : TypeData) × (of.now ≡ VectorType a) × (formula.now ≡ AllOfFormula (formulas_of (VectorFormula a vector.now ∷ IsFormula a item.now ∷ LessFormula (LenTerm vector.now) (number most_items) ∷ [])))) }
{
    match (&formula.node, &of.node) {
        (FormulaNode::Join(Junction::AllOf, parts), TypeNode::Vector(inner)) => {
            are_vector_with_room(parts.as_slice(), inner, vector, item)
        }
        _ => false,
    }
}

fn are_vector_with_room(parts: &[Formula], of: &TypeTerm, vector: &Term, item: &Term) -> bool
    ensures { IsTrue result
        ↔ (parts.now ≡ VectorFormula of.now vector.now ∷ IsFormula of.now item.now ∷ LessFormula (LenTerm vector.now) (number most_items) ∷ []) }
{
    parts.len() == 3
        && is_vector(&parts[0], of, vector)
        && is_typed(&parts[1], of, item)
        && is_room(&parts[2], vector)
}

// Decides whether the formula states that the vector has fewer items than a vector may have.
fn is_room(formula: &Formula, vector: &Term) -> bool
    ensures { IsTrue result
        ↔ (formula.now ≡ LessFormula (LenTerm vector.now) (number most_items)) }
{
    match &formula.node {
        FormulaNode::Not(inner) => is_full(inner, vector),
        _ => false,
    }
}

fn is_full(formula: &Formula, vector: &Term) -> bool
    ensures { IsTrue result
        ↔ (formula.now ≡ LeFormula (number most_items) (LenTerm vector.now)) }
{
    match &formula.node {
        FormulaNode::Compare(Comparison::Le, most, length) => {
            is_numeral(most, 0xffff_ffff_ffff_ffff) && is_unary(length, Unary::Len, vector)
        }
        _ => false,
    }
}

fn is_pop_typed(premise: &Formula, conclusion: &Formula) -> bool
    ensures { IsTrue result ↔ IsRule Rule.PopTyped premise.now conclusion.now }
{
    match &conclusion.node {
        FormulaNode::Is(of, popped) => match &popped.node {
            TermNode::Unary(Unary::Pop, vector) => {
                matches!(&of.node, TypeNode::Vector(_)) && is_typed(premise, of, vector)
            }
            _ => false,
        },
        _ => false,
    }
}

fn is_bits_typed(premise: &Formula, conclusion: &Formula) -> bool
    ensures { IsTrue result ↔ IsRule Rule.BitsTyped premise.now conclusion.now }
{
    match &conclusion.node {
        FormulaNode::Is(of, term) => match &term.node {
            TermNode::Binary(operator, left, right) => {
                is_bit_operator(*operator) && are_both_int(premise, of, left, right)
            }
            _ => false,
        },
        _ => false,
    }
}

fn is_bit_operator(operator: Binary) -> bool
    ensures { IsTrue result ↔ IsBitOperator operator }
{
    matches!(operator, Binary::And | Binary::Or | Binary::Xor)
}

// Decides whether the type is one of unsigned integers, and the formula states that the two terms have it.
#[tactic(auto, using(fol::specs::FormulaData::formulas_of_injective))]
fn are_both_int(formula: &Formula, of: &TypeTerm, left: &Term, right: &Term) -> bool
    ensures { IsTrue result
        ↔ ((w : Width) × (of.now ≡ IntType w) × (formula.now ≡ AllOfFormula (formulas_of (IsFormula (IntType w) left.now ∷ IsFormula (IntType w) right.now ∷ [])))) }
{
    match (&formula.node, &of.node) {
        (FormulaNode::Join(Junction::AllOf, parts), TypeNode::Int(_)) => {
            are_both_typed(parts.as_slice(), of, left, right)
        }
        _ => false,
    }
}

fn are_both_typed(parts: &[Formula], of: &TypeTerm, left: &Term, right: &Term) -> bool
    ensures { IsTrue result
        ↔ (parts.now ≡ IsFormula of.now left.now ∷ IsFormula of.now right.now ∷ []) }
{
    parts.len() == 2 && is_typed(&parts[0], of, left) && is_typed(&parts[1], of, right)
}

fn is_shr_typed(premise: &Formula, conclusion: &Formula) -> bool
    ensures { IsTrue result ↔ IsRule Rule.ShrTyped premise.now conclusion.now }
{
    match &conclusion.node {
        FormulaNode::Is(of, term) => match &term.node {
            TermNode::Binary(Binary::Shr(width), left, _) => {
                is_int_type(of, *width) && is_typed(premise, of, left)
            }
            _ => false,
        },
        _ => false,
    }
}
