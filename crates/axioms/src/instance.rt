//! Decides whether a formula is an instance of an axiom. It builds nothing, and takes the time of a walk along the
//! formula and the shapes.

ghost use Rattle.std.specs.Prelude.{◌≡◌, ◌↔◌, ◌∷◌, [], IsTrue};
ghost use Rattle.fol.specs.FormulaData.{TermData, FormulaData, EqFormula};
ghost use Rattle.fol.specs.Validity.{Valid};
ghost use Rattle.axioms.specs.Exceptions.{IsException};
ghost use Rattle.axioms.specs.Axioms.{IsEqual, IsEqualUnless, HasCases, IsImplied, IsExactly, IsAxiom};

use crate::alternatives::are_alternative;
use crate::axiom::{Alternative, Axiom, Equation, Equivalence, Exception, Rule};
use crate::equations::is_equation;
use crate::equivalences::is_equivalence;
use crate::exceptions::is_exception;
use crate::facts::is_fact;
use crate::rules::is_rule;
use crate::structs::is_struct_axiom;
use fol::formula::{Formula, FormulaNode};
use fol::operators::{Comparison, Connective, Junction};
use fol::shapes::Shapes;

/// Decides whether the formula is an instance of the axiom over these shapes of structs: `exact`. If so, it is true
/// for all values of its variables and all types of its type parameters: `valid`.
#[tactic(auto, using(crate::proofs::AxiomTruth::axiom_valid))]
pub fn is_axiom(shapes: &Shapes, name: Axiom, formula: &Formula) -> bool
    ensures exact { IsTrue result ↔ IsAxiom shapes.now name formula.now }
    ensures valid { IsTrue result → Valid shapes.now formula.now }
{
    is_named(shapes, name, formula)
}

fn is_named(shapes: &Shapes, name: Axiom, formula: &Formula) -> bool
    ensures { IsTrue result ↔ IsAxiom shapes.now name formula.now }
{
    match name {
        Axiom::Equal(of) => is_equal(of, formula),
        Axiom::EqualUnless(of) => is_equal_unless(of, formula),
        Axiom::Cases(of) => has_cases(of, formula),
        Axiom::Implied(of) => is_implied(of, formula),
        Axiom::Exactly(of) => is_exactly(of, formula),
        Axiom::Plain(of) => is_fact(of, formula),
        Axiom::OfStruct(of) => is_struct_axiom(shapes, of, formula),
    }
}

fn is_equal(name: Equation, formula: &Formula) -> bool
    ensures { IsTrue result ↔ IsEqual name formula.now }
{
    match &formula.node {
        FormulaNode::Compare(Comparison::Eq, left, right) => is_equation(name, left, right),
        _ => false,
    }
}

#[tactic(auto, using(fol::specs::FormulaData::formulas_of_injective))]
fn is_equal_unless(name: Exception, formula: &Formula) -> bool
    ensures { IsTrue result ↔ IsEqualUnless name formula.now }
{
    match &formula.node {
        FormulaNode::Join(Junction::AnyOf, cases) => are_equal_unless(name, cases.as_slice()),
        _ => false,
    }
}

fn are_equal_unless(name: Exception, cases: &[Formula]) -> bool
    ensures { IsTrue result
        ↔ ((q : FormulaData) × (l : TermData) × (r : TermData) × IsException name q l r × (cases.now ≡ q ∷ EqFormula l r ∷ [])) }
{
    if cases.len() != 2 {
        return false;
    }
    let last = &cases[1];
    match &last.node {
        FormulaNode::Compare(Comparison::Eq, left, right) => {
            is_exception(name, &cases[0], left, right)
        }
        _ => false,
    }
}

#[tactic(auto, using(fol::specs::FormulaData::formulas_of_injective))]
fn has_cases(name: Alternative, formula: &Formula) -> bool
    ensures { IsTrue result ↔ HasCases name formula.now }
{
    match &formula.node {
        FormulaNode::Join(Junction::AnyOf, cases) => are_alternative(name, cases.as_slice()),
        _ => false,
    }
}

fn is_implied(name: Rule, formula: &Formula) -> bool
    ensures { IsTrue result ↔ IsImplied name formula.now }
{
    match &formula.node {
        FormulaNode::Connect(Connective::Implies, left, right) => is_rule(name, left, right),
        _ => false,
    }
}

fn is_exactly(name: Equivalence, formula: &Formula) -> bool
    ensures { IsTrue result ↔ IsExactly name formula.now }
{
    match &formula.node {
        FormulaNode::Connect(Connective::Iff, left, right) => is_equivalence(name, left, right),
        _ => false,
    }
}
