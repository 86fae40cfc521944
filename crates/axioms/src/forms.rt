//! Tests of the forms of terms and formulas with given parts.

ghost use Rattle.std.specs.Prelude.{◌≡◌, ◌↔◌, IsTrue};
ghost use Rattle.base.specs.TypeData.{IntType, NumType, VectorType};
ghost use Rattle.fol.specs.FormulaData.{NumTerm, ConstantTerm, UnaryTerm, BinaryTerm, LenTerm, CompareFormula, LeFormula, IsFormula, NotFormula};
ghost use Rattle.axioms.specs.Forms.{number, LessFormula, WholeFormula};
ghost use Rattle.axioms.specs.Facts.{multiple};

use base::same::same_type;
use base::types::{TypeNode, TypeTerm, Width};
use fol::formula::{Formula, FormulaNode, Term, TermNode};
use fol::operators::{Binary, Comparison, Constant, Unary};
use fol::same::same_term;

/// Decides whether the term is the constant.
pub fn is_constant(term: &Term, constant: Constant) -> bool
    ensures { IsTrue result ↔ (term.now ≡ ConstantTerm constant) }
{
    match &term.node {
        TermNode::Constant(found) => *found == constant,
        _ => false,
    }
}

/// Decides whether the term is the numeral of the number.
pub fn is_numeral(term: &Term, number: i128) -> bool
    ensures { IsTrue result ↔ (term.now ≡ NumTerm number) }
{
    match &term.node {
        TermNode::Constant(Constant::Num(i)) => *i == number,
        _ => false,
    }
}

/// Decides whether the term is the operator applied to the part.
pub fn is_unary(term: &Term, operator: Unary, part: &Term) -> bool
    ensures { IsTrue result ↔ (term.now ≡ UnaryTerm operator part.now) }
{
    match &term.node {
        TermNode::Unary(found, a) => *found == operator && same_term(a, part),
        _ => false,
    }
}

/// Decides whether the term is the operator applied to the two parts.
pub fn is_binary(term: &Term, operator: Binary, left: &Term, right: &Term) -> bool
    ensures { IsTrue result ↔ (term.now ≡ BinaryTerm operator left.now right.now) }
{
    match &term.node {
        TermNode::Binary(found, a, b) => {
            *found == operator && same_term(a, left) && same_term(b, right)
        }
        _ => false,
    }
}

/// Decides whether the formula is the comparison of the two terms.
pub fn is_compare(formula: &Formula, comparison: Comparison, left: &Term, right: &Term) -> bool
    ensures { IsTrue result ↔ (formula.now ≡ CompareFormula comparison left.now right.now) }
{
    match &formula.node {
        FormulaNode::Compare(found, a, b) => {
            *found == comparison && same_term(a, left) && same_term(b, right)
        }
        _ => false,
    }
}

/// Decides whether the formula states that the term has the type.
pub fn is_typed(formula: &Formula, of: &TypeTerm, term: &Term) -> bool
    ensures { IsTrue result ↔ (formula.now ≡ IsFormula of.now term.now) }
{
    match &formula.node {
        FormulaNode::Is(found, a) => same_type(found, of) && same_term(a, term),
        _ => false,
    }
}

/// Decides whether the formula states that the term is a whole number.
pub fn is_whole(formula: &Formula, term: &Term) -> bool
    ensures { IsTrue result ↔ (formula.now ≡ IsFormula NumType term.now) }
{
    match &formula.node {
        FormulaNode::Is(of, a) => matches!(&of.node, TypeNode::Num) && same_term(a, term),
        _ => false,
    }
}

/// Decides whether the formula states that the term is a vector of items of the type.
pub fn is_vector(formula: &Formula, item: &TypeTerm, term: &Term) -> bool
    ensures { IsTrue result ↔ (formula.now ≡ IsFormula (VectorType item.now) term.now) }
{
    match &formula.node {
        FormulaNode::Is(of, a) => is_vector_type(of, item) && same_term(a, term),
        _ => false,
    }
}

fn is_vector_type(of: &TypeTerm, item: &TypeTerm) -> bool
    ensures { IsTrue result ↔ (of.now ≡ VectorType item.now) }
{
    match &of.node {
        TypeNode::Vector(found) => same_type(found, item),
        _ => false,
    }
}

/// Decides whether the term is the number times the quotient of the other one by it.
pub fn is_multiple(term: &Term, by: &Term, whole: &Term) -> bool
    ensures { IsTrue result ↔ (term.now ≡ multiple by.now whole.now) }
{
    match &term.node {
        TermNode::Binary(Binary::Mul, factor, quotient) => {
            same_term(factor, by) && is_binary(quotient, Binary::Div, whole, by)
        }
        _ => false,
    }
}

/// Decides whether the type is that of unsigned integers of the width.
pub fn is_int_type(of: &TypeTerm, width: Width) -> bool
    ensures { IsTrue result ↔ (of.now ≡ IntType width) }
{
    match &of.node {
        TypeNode::Int(found) => *found == width,
        _ => false,
    }
}

/// Decides whether the formula states that the term does not have the type.
pub fn is_untyped(formula: &Formula, of: &TypeTerm, term: &Term) -> bool
    ensures { IsTrue result ↔ (formula.now ≡ NotFormula (IsFormula of.now term.now)) }
{
    match &formula.node {
        FormulaNode::Not(inner) => is_typed(inner, of, term),
        _ => false,
    }
}

/// Decides whether the formula states that the term is no whole number.
pub fn is_no_whole(formula: &Formula, term: &Term) -> bool
    ensures { IsTrue result ↔ (formula.now ≡ NotFormula (WholeFormula term.now)) }
{
    match &formula.node {
        FormulaNode::Not(inner) => is_whole(inner, term),
        _ => false,
    }
}

/// Decides whether the formulas state that the index is below 0, that it is at least the length of the vector, and
/// that it is no whole number.
pub fn is_outside(
    below: &Formula,
    above: &Formula,
    other: &Formula,
    vector: &Term,
    position: &Term,
) -> bool
    ensures { IsTrue result
        ↔ ((below.now ≡ LessFormula position.now (number 0)) × (above.now ≡ LeFormula (LenTerm vector.now) position.now) × (other.now ≡ NotFormula (WholeFormula position.now))) }
{
    is_below_zero(below, position)
        && is_from_len(above, vector, position)
        && is_no_whole(other, position)
}

fn is_below_zero(formula: &Formula, term: &Term) -> bool
    ensures { IsTrue result ↔ (formula.now ≡ LessFormula term.now (number 0)) }
{
    match &formula.node {
        FormulaNode::Not(inner) => is_from_zero(inner, term),
        _ => false,
    }
}

/// Decides whether the formula states that the term is at least 0.
pub fn is_from_zero(formula: &Formula, term: &Term) -> bool
    ensures { IsTrue result ↔ (formula.now ≡ LeFormula (number 0) term.now) }
{
    match &formula.node {
        FormulaNode::Compare(Comparison::Le, zero, found) => {
            is_numeral(zero, 0) && same_term(found, term)
        }
        _ => false,
    }
}

/// Decides whether the formula states that the term is at least the length of the vector.
pub fn is_from_len(formula: &Formula, vector: &Term, term: &Term) -> bool
    ensures { IsTrue result ↔ (formula.now ≡ LeFormula (LenTerm vector.now) term.now) }
{
    match &formula.node {
        FormulaNode::Compare(Comparison::Le, length, found) => {
            is_unary(length, Unary::Len, vector) && same_term(found, term)
        }
        _ => false,
    }
}
