//! Numerals of a formula that are too great for the arithmetic of the search.

ghost use Rattle.std.specs.Prelude.{◌++◌, ℕ, List, MatchOption};
ghost use Rattle.fol.specs.FormulaData.{terms_of, triggers_of, formulas_of};
ghost use Rattle.substitution.specs.Numerals.{numerals_of_constant, numerals_of_term, numerals_of_terms, numerals_of_triggers, numerals_of, numerals_of_formulas, HasNoWide, IsWideAmong};

use fol::formula::{Formula, FormulaNode, Term, TermNode, Trigger};
use fol::operators::Constant;

const FIRST_WIDE: u128 = 1 << 127;

fn constant_numeral(constant: Constant) -> Option<u128>
    ensures { MatchOption result (HasNoWide (numerals_of_constant constant)) (IsWideAmong (numerals_of_constant constant)) }
{
    match constant {
        Constant::Wide(number) if number >= FIRST_WIDE && number != u128::MAX => Some(number),
        _ => None,
    }
}

// The first of the two values that is present.
fn first(left: Option<u128>, right: Option<u128>) -> Option<u128>
    ensures { (us vs : List ℕ) → MatchOption left (HasNoWide us) (IsWideAmong us) → MatchOption right (HasNoWide vs) (IsWideAmong vs) → MatchOption result (HasNoWide (us ++ vs)) (IsWideAmong (us ++ vs)) }
{
    match left {
        Some(number) => Some(number),
        None => right,
    }
}

#[cycle(numeral)]
fn term_numeral(term: &Term) -> Option<u128>
    ensures { MatchOption result (HasNoWide (numerals_of_term term.now)) (IsWideAmong (numerals_of_term term.now)) }
{
    match &term.node {
        TermNode::Var(_) => None,
        TermNode::Constant(constant) => constant_numeral(*constant),
        TermNode::Unary(_, a) | TermNode::Field(_, _, a) => term_numeral(a),
        TermNode::Binary(_, a, b) | TermNode::SetField(_, _, a, b) => {
            first(term_numeral(a), term_numeral(b))
        }
        TermNode::Ternary(_, a, b, c) => {
            first(term_numeral(a), first(term_numeral(b), term_numeral(c)))
        }
        TermNode::Pack(_, ts) => terms_numeral(ts.as_slice()),
        TermNode::If(p, a, b) => first(wide_numeral(p), first(term_numeral(a), term_numeral(b))),
    }
}

#[cycle(numeral)]
#[tactic(auto, using(fol::proofs::Smaller::term_smaller))]
fn terms_numeral(terms: &[Term]) -> Option<u128>
    ensures { MatchOption result (HasNoWide (numerals_of_terms (terms_of terms.now))) (IsWideAmong (numerals_of_terms (terms_of terms.now))) }
{
    for term in terms {
        if let Some(number) = term_numeral(term) {
            return Some(number);
        }
    }
    None
}

#[cycle(numeral)]
fn trigger_numeral(trigger: &Trigger) -> Option<u128>
    ensures { MatchOption result (HasNoWide (numerals_of_terms trigger.now)) (IsWideAmong (numerals_of_terms trigger.now)) }
{
    terms_numeral(trigger.terms.as_slice())
}

#[cycle(numeral)]
#[tactic(auto, using(fol::proofs::Smaller::trigger_smaller))]
fn triggers_numeral(triggers: &[Trigger]) -> Option<u128>
    ensures { MatchOption result (HasNoWide (numerals_of_triggers (triggers_of triggers.now))) (IsWideAmong (numerals_of_triggers (triggers_of triggers.now))) }
{
    for trigger in triggers {
        if let Some(number) = trigger_numeral(trigger) {
            return Some(number);
        }
    }
    None
}

/// Finds the first numeral of the formula from 2^127 on other than 2^128 - 1; none if there is none. The recursion is
/// as deep as the formula.
#[cycle(numeral)]
pub fn wide_numeral(formula: &Formula) -> Option<u128>
    ensures { MatchOption result (HasNoWide (numerals_of formula.now)) (IsWideAmong (numerals_of formula.now)) }
{
    match &formula.node {
        FormulaNode::Compare(_, a, b) => first(term_numeral(a), term_numeral(b)),
        FormulaNode::Is(_, a) | FormulaNode::Holds(a) => term_numeral(a),
        FormulaNode::Not(p) => wide_numeral(p),
        FormulaNode::Join(_, ps) => formulas_numeral(ps.as_slice()),
        FormulaNode::Connect(_, p, q) => first(wide_numeral(p), wide_numeral(q)),
        FormulaNode::Quantify(_, _, triggers, p) => {
            first(triggers_numeral(triggers.as_slice()), wide_numeral(p))
        }
    }
}

#[cycle(numeral)]
#[tactic(auto, using(fol::proofs::Smaller::formula_smaller))]
fn formulas_numeral(formulas: &[Formula]) -> Option<u128>
    ensures { MatchOption result (HasNoWide (numerals_of_formulas (formulas_of formulas.now))) (IsWideAmong (numerals_of_formulas (formulas_of formulas.now))) }
{
    for formula in formulas {
        if let Some(number) = wide_numeral(formula) {
            return Some(number);
        }
    }
    None
}
