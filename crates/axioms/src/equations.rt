//! The axioms that state that two terms are equal.

ghost use Rattle.std.specs.Prelude.{◌≡◌, ◌↔◌, IsTrue};
ghost use Rattle.fol.specs.FormulaData.{LenTerm, AddTerm, SubTerm, MulTerm, DivTerm};
ghost use Rattle.axioms.specs.Forms.{number};
ghost use Rattle.axioms.specs.Equations.{IsEquation};

use crate::axiom::Equation;
use crate::forms::{is_binary, is_constant, is_multiple, is_numeral, is_unary};
use fol::formula::{Term, TermNode};
use fol::operators::{Binary, Constant, Ternary, Unary};
use fol::same::same_term;

/// Decides whether the axiom states that the two terms are equal.
pub fn is_equation(name: Equation, left: &Term, right: &Term) -> bool
    ensures { IsTrue result ↔ IsEquation name left.now right.now }
{
    match name {
        Equation::Itself => same_term(left, right),
        Equation::SelectStored => is_select_stored(left, right),
        Equation::SelectBlank => is_select_blank(left, right),
        Equation::LenEmpty => is_len_empty(left, right),
        Equation::LenPush => is_len_push(left, right),
        Equation::AtPushed => is_at_pushed(left, right),
        Equation::LenSet => is_len_set(left, right),
        Equation::Remainder => is_remainder(left, right),
        Equation::DivByZero => is_div_by_zero(left, right),
        Equation::MulTurned => is_mul_turned(left, right),
        Equation::MulByOne => is_mul_by_one(left, right),
        Equation::MulByZero => is_mul_by_zero(left, right),
    }
}

fn is_select_stored(left: &Term, right: &Term) -> bool
    ensures { IsTrue result ↔ IsEquation Equation.SelectStored left.now right.now }
{
    match &left.node {
        TermNode::Binary(Binary::Select, memory, key) => match &memory.node {
            TermNode::Ternary(Ternary::Store, _, stored_at, value) => {
                same_term(stored_at, key) && same_term(value, right)
            }
            _ => false,
        },
        _ => false,
    }
}

fn is_select_blank(left: &Term, right: &Term) -> bool
    ensures { IsTrue result ↔ IsEquation Equation.SelectBlank left.now right.now }
{
    match &left.node {
        TermNode::Binary(Binary::Select, memory, _) => {
            is_constant(memory, Constant::Blank) && is_constant(right, Constant::Nothing)
        }
        _ => false,
    }
}

fn is_len_empty(left: &Term, right: &Term) -> bool
    ensures { IsTrue result ↔ IsEquation Equation.LenEmpty left.now right.now }
{
    match &left.node {
        TermNode::Unary(Unary::Len, vector) => {
            is_constant(vector, Constant::Empty) && is_numeral(right, 0)
        }
        _ => false,
    }
}

fn is_len_push(left: &Term, right: &Term) -> bool
    ensures { IsTrue result ↔ IsEquation Equation.LenPush left.now right.now }
{
    match &left.node {
        TermNode::Unary(Unary::Len, pushed) => match &pushed.node {
            TermNode::Binary(Binary::Push, vector, _) => is_next_len(right, vector),
            _ => false,
        },
        _ => false,
    }
}

// Decides whether the term is the length of the vector plus 1.
fn is_next_len(term: &Term, vector: &Term) -> bool
    ensures { IsTrue result ↔ (term.now ≡ AddTerm (LenTerm vector.now) (number 1)) }
{
    match &term.node {
        TermNode::Binary(Binary::Add, length, one) => {
            is_unary(length, Unary::Len, vector) && is_numeral(one, 1)
        }
        _ => false,
    }
}

fn is_at_pushed(left: &Term, right: &Term) -> bool
    ensures { IsTrue result ↔ IsEquation Equation.AtPushed left.now right.now }
{
    match &left.node {
        TermNode::Binary(Binary::At, pushed, position) => match &pushed.node {
            TermNode::Binary(Binary::Push, vector, item) => {
                is_unary(position, Unary::Len, vector) && same_term(item, right)
            }
            _ => false,
        },
        _ => false,
    }
}

fn is_len_set(left: &Term, right: &Term) -> bool
    ensures { IsTrue result ↔ IsEquation Equation.LenSet left.now right.now }
{
    match &left.node {
        TermNode::Unary(Unary::Len, set) => match &set.node {
            TermNode::Ternary(Ternary::Set, vector, _, _) => is_unary(right, Unary::Len, vector),
            _ => false,
        },
        _ => false,
    }
}

fn is_remainder(left: &Term, right: &Term) -> bool
    ensures { IsTrue result ↔ IsEquation Equation.Remainder left.now right.now }
{
    match &left.node {
        TermNode::Binary(Binary::Mod, whole, by) => is_rest(right, whole, by),
        _ => false,
    }
}

// Decides whether the term is the remainder of the two terms by its definition: the first minus the second times their
// quotient.
fn is_rest(term: &Term, whole: &Term, by: &Term) -> bool
    ensures { IsTrue result ↔ (term.now ≡ SubTerm whole.now (MulTerm by.now (DivTerm whole.now by.now))) }
{
    match &term.node {
        TermNode::Binary(Binary::Sub, from, product) => {
            same_term(from, whole) && is_multiple(product, by, whole)
        }
        _ => false,
    }
}

fn is_div_by_zero(left: &Term, right: &Term) -> bool
    ensures { IsTrue result ↔ IsEquation Equation.DivByZero left.now right.now }
{
    match &left.node {
        TermNode::Binary(Binary::Div, _, by) => is_numeral(by, 0) && is_numeral(right, 0),
        _ => false,
    }
}

fn is_mul_turned(left: &Term, right: &Term) -> bool
    ensures { IsTrue result ↔ IsEquation Equation.MulTurned left.now right.now }
{
    match &left.node {
        TermNode::Binary(Binary::Mul, a, b) => is_binary(right, Binary::Mul, b, a),
        _ => false,
    }
}

fn is_mul_by_one(left: &Term, right: &Term) -> bool
    ensures { IsTrue result ↔ IsEquation Equation.MulByOne left.now right.now }
{
    match (&left.node, &right.node) {
        (TermNode::Binary(Binary::Mul, a, one), TermNode::Binary(Binary::Add, b, zero)) => {
            is_numeral(one, 1) && is_numeral(zero, 0) && same_term(a, b)
        }
        _ => false,
    }
}

fn is_mul_by_zero(left: &Term, right: &Term) -> bool
    ensures { IsTrue result ↔ IsEquation Equation.MulByZero left.now right.now }
{
    match &left.node {
        TermNode::Binary(Binary::Mul, _, zero) => is_numeral(zero, 0) && is_numeral(right, 0),
        _ => false,
    }
}
