//! The axioms that state a disjunction.

ghost use Rattle.std.specs.Prelude.{◌≡◌, ◌↔◌, ◌∷◌, [], ℕ, IsTrue, false};
ghost use Rattle.fol.specs.FormulaData.{TermData, VarTerm, SubTerm, LenTerm, AtTerm, IfTerm, FormulaData, EqFormula, LeFormula, NotFormula, AllOfFormula, NoTriggers, triggers_of, formulas_of};
ghost use Rattle.substitution.specs.Free.{free_in_term};
ghost use Rattle.base.specs.TypeData.{TypeData};
ghost use Rattle.axioms.specs.Forms.{number, LessFormula, DifferFormula, VectorFormula};
ghost use Rattle.axioms.specs.Alternatives.{DifferAtFormula, IsAlternative};

use crate::axiom::Alternative;
use crate::forms::{is_compare, is_no_whole, is_numeral, is_outside, is_unary, is_untyped};
use base::types::TypeNode;
use fol::formula::{Formula, FormulaNode, Term, TermNode, Trigger};
use fol::operators::{Binary, Comparison, Junction, Quantifier, Ternary, Unary};
use fol::same::{same_formula, same_term};
use substitution::free::is_free_in_term;

/// Decides whether the axiom states that some of the formulas is true.
pub fn are_alternative(name: Alternative, cases: &[Formula]) -> bool
    ensures { IsTrue result ↔ IsAlternative name cases.now }
{
    match name {
        Alternative::AtSet => are_at_set(cases),
        Alternative::SameItems => are_same_items(cases),
        Alternative::Choice => are_choice(cases),
        Alternative::Trichotomy => are_trichotomy(cases),
    }
}

fn are_at_set(cases: &[Formula]) -> bool
    ensures { IsTrue result ↔ IsAlternative Alternative.AtSet cases.now }
{
    if cases.len() != 4 {
        return false;
    }
    let last = &cases[3];
    match &last.node {
        FormulaNode::Compare(Comparison::Eq, left, right) => {
            is_at_set(&cases[0], &cases[1], &cases[2], left, right)
        }
        _ => false,
    }
}

// Decides whether the terms are the item at an index where a vector was updated, and the new item, and the formulas
// state that the index is out of range.
fn is_at_set(below: &Formula, above: &Formula, other: &Formula, left: &Term, right: &Term) -> bool
    ensures { IsTrue result
        ↔ IsAlternative Alternative.AtSet (below.now ∷ above.now ∷ other.now ∷ EqFormula left.now right.now ∷ []) }
{
    match &left.node {
        TermNode::Binary(Binary::At, set, position) => match &set.node {
            TermNode::Ternary(Ternary::Set, vector, at, item) => {
                same_term(at, position)
                    && same_term(item, right)
                    && is_outside(below, above, other, vector, position)
            }
            _ => false,
        },
        _ => false,
    }
}

fn are_same_items(cases: &[Formula]) -> bool
    ensures { IsTrue result ↔ IsAlternative Alternative.SameItems cases.now }
{
    if cases.len() != 5 {
        return false;
    }
    let equal = &cases[2];
    match &equal.node {
        FormulaNode::Compare(Comparison::Eq, left, right) => {
            are_no_vectors(&cases[0], &cases[1], left, right)
                && is_other_len(&cases[3], left, right)
                && is_differ_at(&cases[4], left, right)
        }
        _ => false,
    }
}

// Decides whether the formulas state that the terms are not both vectors of one type.
fn are_no_vectors(first: &Formula, second: &Formula, left: &Term, right: &Term) -> bool
    ensures { IsTrue result
        ↔ ((a : TypeData) × (first.now ≡ NotFormula (VectorFormula a left.now)) × (second.now ≡ NotFormula (VectorFormula a right.now))) }
{
    match &first.node {
        FormulaNode::Not(inner) => match &inner.node {
            FormulaNode::Is(of, found) => {
                matches!(&of.node, TypeNode::Vector(_))
                    && same_term(found, left)
                    && is_untyped(second, of, right)
            }
            _ => false,
        },
        _ => false,
    }
}

// Decides whether the formula states that the lengths of the vectors differ.
fn is_other_len(formula: &Formula, left: &Term, right: &Term) -> bool
    ensures { IsTrue result ↔ (formula.now ≡ DifferFormula (LenTerm left.now) (LenTerm right.now)) }
{
    match &formula.node {
        FormulaNode::Not(inner) => is_same_len(inner, left, right),
        _ => false,
    }
}

fn is_same_len(formula: &Formula, left: &Term, right: &Term) -> bool
    ensures { IsTrue result ↔ (formula.now ≡ EqFormula (LenTerm left.now) (LenTerm right.now)) }
{
    match &formula.node {
        FormulaNode::Compare(Comparison::Eq, a, b) => {
            is_unary(a, Unary::Len, left) && is_unary(b, Unary::Len, right)
        }
        _ => false,
    }
}

// Decides whether the formula states that the vectors differ at an index, for a bound variable that is free in
// neither.
fn is_differ_at(formula: &Formula, left: &Term, right: &Term) -> bool
    ensures { IsTrue result
        ↔ ((i : ℕ) × (free_in_term i left.now ≡ false) × (free_in_term i right.now ≡ false) × (formula.now ≡ DifferAtFormula i left.now right.now)) }
{
    match &formula.node {
        FormulaNode::Quantify(Quantifier::Exists, position, triggers, body) => {
            are_no_triggers(triggers.as_slice())
                && !is_free_in_term(*position, left)
                && !is_free_in_term(*position, right)
                && is_difference(body, *position, left, right)
        }
        _ => false,
    }
}

fn are_no_triggers(triggers: &[Trigger]) -> bool
    ensures { IsTrue result ↔ (triggers_of triggers.now ≡ NoTriggers) }
{
    match triggers.split_first() {
        None => true,
        Some(_) => false,
    }
}

#[tactic(auto, using(fol::specs::FormulaData::formulas_of_injective))]
fn is_difference(formula: &Formula, position: u32, left: &Term, right: &Term) -> bool
    ensures { IsTrue result
        ↔ (formula.now ≡ AllOfFormula (formulas_of (LeFormula (number 0) (VarTerm position) ∷ LessFormula (VarTerm position) (LenTerm left.now) ∷ DifferFormula (AtTerm left.now (VarTerm position)) (AtTerm right.now (VarTerm position)) ∷ []))) }
{
    match &formula.node {
        FormulaNode::Join(Junction::AllOf, parts) => {
            are_difference(parts.as_slice(), position, left, right)
        }
        _ => false,
    }
}

fn are_difference(parts: &[Formula], position: u32, left: &Term, right: &Term) -> bool
    ensures { IsTrue result
        ↔ (parts.now ≡ LeFormula (number 0) (VarTerm position) ∷ LessFormula (VarTerm position) (LenTerm left.now) ∷ DifferFormula (AtTerm left.now (VarTerm position)) (AtTerm right.now (VarTerm position)) ∷ []) }
{
    parts.len() == 3
        && is_position_from_zero(&parts[0], position)
        && is_position_below_len(&parts[1], position, left)
        && is_other_item(&parts[2], position, left, right)
}

fn is_variable(term: &Term, number: u32) -> bool
    ensures { IsTrue result ↔ (term.now ≡ VarTerm number) }
{
    match &term.node {
        TermNode::Var(found) => *found == number,
        _ => false,
    }
}

fn is_position_from_zero(formula: &Formula, position: u32) -> bool
    ensures { IsTrue result ↔ (formula.now ≡ LeFormula (number 0) (VarTerm position)) }
{
    match &formula.node {
        FormulaNode::Compare(Comparison::Le, zero, found) => {
            is_numeral(zero, 0) && is_variable(found, position)
        }
        _ => false,
    }
}

fn is_position_below_len(formula: &Formula, position: u32, vector: &Term) -> bool
    ensures { IsTrue result ↔ (formula.now ≡ LessFormula (VarTerm position) (LenTerm vector.now)) }
{
    match &formula.node {
        FormulaNode::Not(inner) => is_len_at_most(inner, vector, position),
        _ => false,
    }
}

fn is_len_at_most(formula: &Formula, vector: &Term, position: u32) -> bool
    ensures { IsTrue result ↔ (formula.now ≡ LeFormula (LenTerm vector.now) (VarTerm position)) }
{
    match &formula.node {
        FormulaNode::Compare(Comparison::Le, length, found) => {
            is_unary(length, Unary::Len, vector) && is_variable(found, position)
        }
        _ => false,
    }
}

fn is_other_item(formula: &Formula, position: u32, left: &Term, right: &Term) -> bool
    ensures { IsTrue result
        ↔ (formula.now ≡ DifferFormula (AtTerm left.now (VarTerm position)) (AtTerm right.now (VarTerm position))) }
{
    match &formula.node {
        FormulaNode::Not(inner) => is_same_item(inner, position, left, right),
        _ => false,
    }
}

fn is_same_item(formula: &Formula, position: u32, left: &Term, right: &Term) -> bool
    ensures { IsTrue result
        ↔ (formula.now ≡ EqFormula (AtTerm left.now (VarTerm position)) (AtTerm right.now (VarTerm position))) }
{
    match &formula.node {
        FormulaNode::Compare(Comparison::Eq, a, b) => {
            is_item_at(a, left, position) && is_item_at(b, right, position)
        }
        _ => false,
    }
}

// Decides whether the term is the item of the vector at the index given by the variable.
fn is_item_at(term: &Term, vector: &Term, position: u32) -> bool
    ensures { IsTrue result ↔ (term.now ≡ AtTerm vector.now (VarTerm position)) }
{
    match &term.node {
        TermNode::Binary(Binary::At, found, at) => {
            same_term(found, vector) && is_variable(at, position)
        }
        _ => false,
    }
}

fn are_choice(cases: &[Formula]) -> bool
    ensures { IsTrue result ↔ IsAlternative Alternative.Choice cases.now }
{
    cases.len() == 2 && are_both_choices(&cases[0], &cases[1])
}

// Decides whether the formulas are the two cases of a choice.
#[tactic(auto, using(fol::specs::FormulaData::formulas_of_injective))]
fn are_both_choices(first: &Formula, second: &Formula) -> bool
    ensures { IsTrue result
        ↔ ((p : FormulaData) × (t : TermData) × (u : TermData) × (first.now ≡ AllOfFormula (formulas_of (p ∷ EqFormula (IfTerm p t u) t ∷ []))) × (second.now ≡ AllOfFormula (formulas_of (NotFormula p ∷ EqFormula (IfTerm p t u) u ∷ [])))) }
{
    match &first.node {
        FormulaNode::Join(Junction::AllOf, yes) => is_second_choice(yes.as_slice(), second),
        _ => false,
    }
}

// Decides whether the formulas are the parts of the first case of a choice, and its second case.
#[tactic(auto, using(fol::specs::FormulaData::formulas_of_injective))]
fn is_second_choice(yes: &[Formula], second: &Formula) -> bool
    ensures { IsTrue result
        ↔ ((p : FormulaData) × (t : TermData) × (u : TermData) × (yes.now ≡ p ∷ EqFormula (IfTerm p t u) t ∷ []) × (second.now ≡ AllOfFormula (formulas_of (NotFormula p ∷ EqFormula (IfTerm p t u) u ∷ [])))) }
{
    match &second.node {
        FormulaNode::Join(Junction::AllOf, no) => are_choice_parts(yes, no.as_slice()),
        _ => false,
    }
}

fn are_choice_parts(yes: &[Formula], no: &[Formula]) -> bool
    ensures { IsTrue result
        ↔ ((p : FormulaData) × (t : TermData) × (u : TermData) × (yes.now ≡ p ∷ EqFormula (IfTerm p t u) t ∷ []) × (no.now ≡ NotFormula p ∷ EqFormula (IfTerm p t u) u ∷ [])) }
{
    if yes.len() != 2 || no.len() != 2 {
        return false;
    }
    let chosen = &yes[1];
    match &chosen.node {
        FormulaNode::Compare(Comparison::Eq, choice, result_of) => {
            is_choice(choice, &yes[0], result_of, &no[0], &no[1])
        }
        _ => false,
    }
}

// Decides whether the term is a choice by the condition with the other term as its first branch, and the formulas
// state that the condition is false and that the choice is equal to its second branch.
fn is_choice(
    choice: &Term,
    condition: &Formula,
    taken: &Term,
    denied: &Formula,
    other: &Formula,
) -> bool
    ensures { IsTrue result
        ↔ ((u : TermData) × (choice.now ≡ IfTerm condition.now taken.now u) × (denied.now ≡ NotFormula condition.now) × (other.now ≡ EqFormula choice.now u)) }
{
    match &choice.node {
        TermNode::If(found, first, second) => {
            same_formula(found, condition)
                && same_term(first, taken)
                && is_not(denied, condition)
                && is_compare(other, Comparison::Eq, choice, second)
        }
        _ => false,
    }
}

fn is_not(formula: &Formula, inner: &Formula) -> bool
    ensures { IsTrue result ↔ (formula.now ≡ NotFormula inner.now) }
{
    match &formula.node {
        FormulaNode::Not(found) => same_formula(found, inner),
        _ => false,
    }
}

fn are_trichotomy(cases: &[Formula]) -> bool
    ensures { IsTrue result ↔ IsAlternative Alternative.Trichotomy cases.now }
{
    if cases.len() != 5 {
        return false;
    }
    let equal = &cases[2];
    match &equal.node {
        FormulaNode::Compare(Comparison::Eq, left, right) => {
            is_no_whole(&cases[0], left)
                && is_no_whole(&cases[1], right)
                && is_less(&cases[3], left, right)
                && is_less(&cases[4], right, left)
        }
        _ => false,
    }
}

// Decides whether the formula states that the first term is at most the second minus 1.
fn is_less(formula: &Formula, lesser: &Term, greater: &Term) -> bool
    ensures { IsTrue result
        ↔ (formula.now ≡ LeFormula lesser.now (SubTerm greater.now (number 1))) }
{
    match &formula.node {
        FormulaNode::Compare(Comparison::Le, left, right) => {
            same_term(left, lesser) && is_predecessor(right, greater)
        }
        _ => false,
    }
}

// Decides whether the term is another one minus 1.
fn is_predecessor(term: &Term, of: &Term) -> bool
    ensures { IsTrue result ↔ (term.now ≡ SubTerm of.now (number 1)) }
{
    match &term.node {
        TermNode::Binary(Binary::Sub, whole, one) => same_term(whole, of) && is_numeral(one, 1),
        _ => false,
    }
}
