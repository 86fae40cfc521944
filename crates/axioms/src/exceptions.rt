//! The axioms that state that two terms are equal unless a formula is true.

ghost use Rattle.std.specs.Prelude.{◌≡◌, ◌↔◌, IsTrue};
ghost use Rattle.fol.specs.FormulaData.{LenTerm, SubTerm, EqFormula, LeFormula};
ghost use Rattle.axioms.specs.Forms.{number};
ghost use Rattle.axioms.specs.Exceptions.{IsException};

use crate::axiom::Exception;
use crate::forms::{is_binary, is_compare, is_numeral, is_unary};
use fol::formula::{Formula, FormulaNode, Term, TermNode};
use fol::operators::{Binary, Comparison, Ternary, Unary};
use fol::same::same_term;

/// Decides whether the axiom states that the two terms are equal unless the formula is true.
pub fn is_exception(name: Exception, unless: &Formula, left: &Term, right: &Term) -> bool
    ensures { IsTrue result ↔ IsException name unless.now left.now right.now }
{
    match name {
        Exception::SelectOther => is_select_other(unless, left, right),
        Exception::AtOtherPushed => is_at_other_pushed(unless, left, right),
        Exception::LenPopped => is_len_popped(unless, left, right),
        Exception::AtPopped => is_at_popped(unless, left, right),
        Exception::AtOtherSet => is_at_other_set(unless, left, right),
    }
}

fn is_select_other(unless: &Formula, left: &Term, right: &Term) -> bool
    ensures { IsTrue result ↔ IsException Exception.SelectOther unless.now left.now right.now }
{
    match &left.node {
        TermNode::Binary(Binary::Select, stored, key) => match &stored.node {
            TermNode::Ternary(Ternary::Store, memory, at, _) => {
                is_compare(unless, Comparison::Eq, at, key)
                    && is_binary(right, Binary::Select, memory, key)
            }
            _ => false,
        },
        _ => false,
    }
}

fn is_at_other_pushed(unless: &Formula, left: &Term, right: &Term) -> bool
    ensures { IsTrue result ↔ IsException Exception.AtOtherPushed unless.now left.now right.now }
{
    match &left.node {
        TermNode::Binary(Binary::At, pushed, position) => match &pushed.node {
            TermNode::Binary(Binary::Push, vector, _) => {
                is_len(unless, position, vector) && is_binary(right, Binary::At, vector, position)
            }
            _ => false,
        },
        _ => false,
    }
}

// Decides whether the formula states that the term is the length of the vector.
fn is_len(formula: &Formula, term: &Term, vector: &Term) -> bool
    ensures { IsTrue result ↔ (formula.now ≡ EqFormula term.now (LenTerm vector.now)) }
{
    match &formula.node {
        FormulaNode::Compare(Comparison::Eq, found, length) => {
            same_term(found, term) && is_unary(length, Unary::Len, vector)
        }
        _ => false,
    }
}

fn is_len_popped(unless: &Formula, left: &Term, right: &Term) -> bool
    ensures { IsTrue result ↔ IsException Exception.LenPopped unless.now left.now right.now }
{
    match &left.node {
        TermNode::Unary(Unary::Len, popped) => match &popped.node {
            TermNode::Unary(Unary::Pop, vector) => {
                is_empty(unless, vector) && is_last_position(right, vector)
            }
            _ => false,
        },
        _ => false,
    }
}

// Decides whether the formula states that the vector has no items.
fn is_empty(formula: &Formula, vector: &Term) -> bool
    ensures { IsTrue result ↔ (formula.now ≡ LeFormula (LenTerm vector.now) (number 0)) }
{
    match &formula.node {
        FormulaNode::Compare(Comparison::Le, length, zero) => {
            is_unary(length, Unary::Len, vector) && is_numeral(zero, 0)
        }
        _ => false,
    }
}

// Decides whether the term is the length of the vector minus 1.
fn is_last_position(term: &Term, vector: &Term) -> bool
    ensures { IsTrue result ↔ (term.now ≡ SubTerm (LenTerm vector.now) (number 1)) }
{
    match &term.node {
        TermNode::Binary(Binary::Sub, length, one) => {
            is_unary(length, Unary::Len, vector) && is_numeral(one, 1)
        }
        _ => false,
    }
}

fn is_at_popped(unless: &Formula, left: &Term, right: &Term) -> bool
    ensures { IsTrue result ↔ IsException Exception.AtPopped unless.now left.now right.now }
{
    match &left.node {
        TermNode::Binary(Binary::At, popped, position) => match &popped.node {
            TermNode::Unary(Unary::Pop, vector) => {
                is_from_last_position(unless, vector, position)
                    && is_binary(right, Binary::At, vector, position)
            }
            _ => false,
        },
        _ => false,
    }
}

// Decides whether the formula states that the term is at least the length of the vector minus 1.
fn is_from_last_position(formula: &Formula, vector: &Term, term: &Term) -> bool
    ensures { IsTrue result ↔ (formula.now ≡ LeFormula (SubTerm (LenTerm vector.now) (number 1)) term.now) }
{
    match &formula.node {
        FormulaNode::Compare(Comparison::Le, low, found) => {
            is_last_position(low, vector) && same_term(found, term)
        }
        _ => false,
    }
}

fn is_at_other_set(unless: &Formula, left: &Term, right: &Term) -> bool
    ensures { IsTrue result ↔ IsException Exception.AtOtherSet unless.now left.now right.now }
{
    match &left.node {
        TermNode::Binary(Binary::At, set, position) => match &set.node {
            TermNode::Ternary(Ternary::Set, vector, at, _) => {
                is_compare(unless, Comparison::Eq, at, position)
                    && is_binary(right, Binary::At, vector, position)
            }
            _ => false,
        },
        _ => false,
    }
}
