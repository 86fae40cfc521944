//! The axioms of other forms.

ghost use Rattle.std.specs.Prelude.{◌≡◌, ◌↔◌, ◌∷◌, [], IsTrue};
ghost use Rattle.fol.specs.FormulaData.{TermData, ConstantTerm, LenTerm, AddTerm, SubTerm, LeFormula, HoldsFormula, NotFormula};
ghost use Rattle.fol.specs.declared.operators.Constant.{Constant};
ghost use Rattle.axioms.specs.Forms.{number};
ghost use Rattle.axioms.specs.Facts.{IsWhole, IsFromOne, multiple, IsFact};

use crate::axiom::Fact;
use crate::forms::{is_binary, is_constant, is_int_type, is_multiple, is_numeral};
use base::types::TypeNode;
use fol::formula::{Formula, FormulaNode, Term, TermNode};
use fol::operators::{Binary, Comparison, Constant, Junction, Unary};
use fol::same::same_term;

/// Decides whether the formula is an instance of the axiom.
pub fn is_fact(name: Fact, formula: &Formula) -> bool
    ensures { IsTrue result ↔ IsFact name formula.now }
{
    match name {
        Fact::LenFromZero => is_len_from_zero(formula),
        Fact::QuotientBounds => is_quotient_bounds(formula),
        Fact::MaxBound => is_max_bound(formula),
        Fact::Whole => is_whole_by_form(formula),
        Fact::EmptyTyped => is_empty_typed(formula),
        Fact::ShlTyped => is_shl_typed(formula),
        Fact::NothingUntyped => is_nothing_untyped(formula),
        Fact::TruthsDiffer => is_truths_differ(formula),
        Fact::TrueHolds => is_held(formula, Constant::True),
        Fact::FalseFails => is_failed(formula, Constant::False),
        Fact::NothingFails => is_failed(formula, Constant::Nothing),
    }
}

fn is_len_from_zero(formula: &Formula) -> bool
    ensures { IsTrue result ↔ IsFact Fact.LenFromZero formula.now }
{
    match &formula.node {
        FormulaNode::Compare(Comparison::Le, zero, length) => {
            is_numeral(zero, 0) && is_some_len(length)
        }
        _ => false,
    }
}

fn is_some_len(term: &Term) -> bool
    ensures { IsTrue result ↔ ((v : TermData) × (term.now ≡ LenTerm v)) }
{
    match &term.node {
        TermNode::Unary(Unary::Len, _) => true,
        _ => false,
    }
}

#[tactic(auto, using(fol::specs::FormulaData::formulas_of_injective))]
fn is_quotient_bounds(formula: &Formula) -> bool
    ensures { IsTrue result ↔ IsFact Fact.QuotientBounds formula.now }
{
    match &formula.node {
        FormulaNode::Join(Junction::AllOf, parts) => are_quotient_bounds(parts.as_slice()),
        _ => false,
    }
}

fn are_quotient_bounds(parts: &[Formula]) -> bool
    ensures { IsTrue result
        ↔ ((c : Constant) × (t : TermData) × IsFromOne c × (parts.now ≡ LeFormula (multiple (ConstantTerm c) t) t ∷ LeFormula t (SubTerm (AddTerm (multiple (ConstantTerm c) t) (ConstantTerm c)) (number 1)) ∷ [])) }
{
    if parts.len() != 2 {
        return false;
    }
    let first = &parts[0];
    match &first.node {
        FormulaNode::Compare(Comparison::Le, product, whole) => {
            are_bounds_of(product, &parts[1], whole)
        }
        _ => false,
    }
}

// Decides whether the term is a numeral from 1 times the quotient of the other term by it, and the formula states that
// the other term is below the next multiple.
fn are_bounds_of(product: &Term, upper: &Formula, whole: &Term) -> bool
    ensures { IsTrue result
        ↔ ((c : Constant) × IsFromOne c × (product.now ≡ multiple (ConstantTerm c) whole.now) × (upper.now ≡ LeFormula whole.now (SubTerm (AddTerm (multiple (ConstantTerm c) whole.now) (ConstantTerm c)) (number 1)))) }
{
    match &product.node {
        TermNode::Binary(Binary::Mul, by, _) => {
            is_from_one(by)
                && is_multiple(product, by, whole)
                && is_upper_bound(upper, product, by, whole)
        }
        _ => false,
    }
}

// Decides whether the term is a numeral from 1.
fn is_from_one(term: &Term) -> bool
    ensures { IsTrue result ↔ ((c : Constant) × IsFromOne c × (term.now ≡ ConstantTerm c)) }
{
    match &term.node {
        TermNode::Constant(constant) => is_constant_from_one(*constant),
        _ => false,
    }
}

fn is_constant_from_one(constant: Constant) -> bool
    ensures { IsTrue result ↔ IsFromOne constant }
{
    match constant {
        Constant::Num(i) => i >= 1,
        Constant::Max => true,
        Constant::Wide(u) => u >= 1,
        _ => false,
    }
}

// Decides whether the formula states that the term is at most the product plus one more factor, minus 1.
fn is_upper_bound(formula: &Formula, product: &Term, by: &Term, whole: &Term) -> bool
    ensures { IsTrue result
        ↔ (formula.now ≡ LeFormula whole.now (SubTerm (AddTerm product.now by.now) (number 1))) }
{
    match &formula.node {
        FormulaNode::Compare(Comparison::Le, found, bound) => {
            same_term(found, whole) && is_sum_less_one(bound, product, by)
        }
        _ => false,
    }
}

fn is_sum_less_one(term: &Term, left: &Term, right: &Term) -> bool
    ensures { IsTrue result ↔ (term.now ≡ SubTerm (AddTerm left.now right.now) (number 1)) }
{
    match &term.node {
        TermNode::Binary(Binary::Sub, sum, one) => {
            is_binary(sum, Binary::Add, left, right) && is_numeral(one, 1)
        }
        _ => false,
    }
}

fn is_max_bound(formula: &Formula) -> bool
    ensures { IsTrue result ↔ IsFact Fact.MaxBound formula.now }
{
    match &formula.node {
        FormulaNode::Compare(Comparison::Le, low, max) => {
            is_numeral(low, 0x4000_0000_0000_0000_0000_0000_0000_0000)
                && is_constant(max, Constant::Max)
        }
        _ => false,
    }
}

fn is_whole_by_form(formula: &Formula) -> bool
    ensures { IsTrue result ↔ IsFact Fact.Whole formula.now }
{
    match &formula.node {
        FormulaNode::Is(of, term) => matches!(&of.node, TypeNode::Num) && is_arithmetic(term),
        _ => false,
    }
}

/// Decides whether the term is a whole number by its form.
pub fn is_arithmetic(term: &Term) -> bool
    ensures { IsTrue result ↔ IsWhole term.now }
{
    match &term.node {
        TermNode::Constant(constant) => matches!(*constant, Constant::Num(_) | Constant::Max),
        TermNode::Unary(operator, _) => matches!(*operator, Unary::Len),
        TermNode::Binary(operator, _, _) => {
            !matches!(*operator, Binary::Select | Binary::At | Binary::Push)
        }
        _ => false,
    }
}

fn is_empty_typed(formula: &Formula) -> bool
    ensures { IsTrue result ↔ IsFact Fact.EmptyTyped formula.now }
{
    match &formula.node {
        FormulaNode::Is(of, vector) => {
            matches!(&of.node, TypeNode::Vector(_)) && is_constant(vector, Constant::Empty)
        }
        _ => false,
    }
}

fn is_shl_typed(formula: &Formula) -> bool
    ensures { IsTrue result ↔ IsFact Fact.ShlTyped formula.now }
{
    match &formula.node {
        FormulaNode::Is(of, term) => match &term.node {
            TermNode::Binary(Binary::Shl(width), _, _) => is_int_type(of, *width),
            _ => false,
        },
        _ => false,
    }
}

fn is_nothing_untyped(formula: &Formula) -> bool
    ensures { IsTrue result ↔ IsFact Fact.NothingUntyped formula.now }
{
    match &formula.node {
        FormulaNode::Not(inner) => match &inner.node {
            FormulaNode::Is(_, term) => is_constant(term, Constant::Nothing),
            _ => false,
        },
        _ => false,
    }
}

fn is_truths_differ(formula: &Formula) -> bool
    ensures { IsTrue result ↔ IsFact Fact.TruthsDiffer formula.now }
{
    match &formula.node {
        FormulaNode::Not(inner) => match &inner.node {
            FormulaNode::Compare(Comparison::Eq, left, right) => {
                is_constant(left, Constant::True) && is_constant(right, Constant::False)
            }
            _ => false,
        },
        _ => false,
    }
}

// Decides whether the formula states that the constant holds.
fn is_held(formula: &Formula, constant: Constant) -> bool
    ensures { IsTrue result ↔ (formula.now ≡ HoldsFormula (ConstantTerm constant)) }
{
    match &formula.node {
        FormulaNode::Holds(term) => is_constant(term, constant),
        _ => false,
    }
}

// Decides whether the formula states that the constant does not hold.
fn is_failed(formula: &Formula, constant: Constant) -> bool
    ensures { IsTrue result ↔ (formula.now ≡ NotFormula (HoldsFormula (ConstantTerm constant))) }
{
    match &formula.node {
        FormulaNode::Not(inner) => is_held(inner, constant),
        _ => false,
    }
}
