//! Tests of the parts (conjuncts) and cases of an entry. They build nothing: a negation is compared by its operand.

ghost use Rattle.std.specs.Prelude.{◌≡◌, ◌↔◌, IsTrue, Some, map, [], ◌∷◌, MatchOption, ℤ};
ghost use Rattle.base.specs.TypeData.{NumType};
ghost use Rattle.fol.specs.FormulaData.{TermData, NumTerm, LeFormula, IsFormula, NotFormula};
ghost use Rattle.certificates.specs.Quantified.{AreCut, AreBounds};
ghost use Rattle.certificates.specs.Branch.{entry_formula};
ghost use Rattle.certificates.specs.Closes.{IsFalseForm, IsFalseNegated};
ghost use Rattle.certificates.specs.Parts.{parts_of, parts_of_negated, cases_of, cases_of_negated, both_of};

use crate::branch::Entry;
use crate::linear::numeral_of;
use base::types::TypeNode;
use fol::formula::{Formula, FormulaNode, Term, TermNode};
use fol::operators::{Comparison, Connective, Constant, Junction};
use fol::same::{same_formula, same_formulas, same_term};

/// Decides whether these formulas are the parts of the entry.
pub fn are_parts(entry: Entry<'_>, formulas: &[Formula]) -> bool
    ensures { IsTrue result ↔ (parts_of (entry_formula entry.entry) ≡ Some formulas.now) }
{
    match entry {
        Entry::Negated(of) => are_parts_of_negated(of, formulas),
        Entry::Plain(of) => are_parts_of(of, formulas),
    }
}

fn are_parts_of(of: &Formula, formulas: &[Formula]) -> bool
    ensures { IsTrue result ↔ (parts_of of.now ≡ Some formulas.now) }
{
    match &of.node {
        FormulaNode::Join(junction, parts) => {
            *junction == Junction::AllOf && same_formulas(formulas, parts.as_slice())
        }
        FormulaNode::Not(of) => are_parts_of_negated(of, formulas),
        _ => false,
    }
}

fn are_parts_of_negated(of: &Formula, formulas: &[Formula]) -> bool
    ensures { IsTrue result ↔ (parts_of_negated of.now ≡ Some formulas.now) }
{
    match &of.node {
        FormulaNode::Join(junction, parts) => {
            *junction == Junction::AnyOf && are_negations(formulas, parts.as_slice())
        }
        FormulaNode::Connect(Connective::Implies, left, right) => match formulas {
            [first, second] => same_formula(first, left) && is_negation(second, right),
            _ => false,
        },
        FormulaNode::Not(of) => match formulas {
            [only] => same_formula(only, of),
            _ => false,
        },
        _ => false,
    }
}

/// Decides whether the formula is the entry.
pub fn is_entry(formula: &Formula, entry: Entry<'_>) -> bool
    ensures { IsTrue result ↔ (formula.now ≡ entry_formula entry.entry) }
{
    match entry {
        Entry::Negated(of) => is_negation(formula, of),
        Entry::Plain(of) => same_formula(formula, of),
    }
}

// Decides whether the formula is the negation of another one.
fn is_negation(formula: &Formula, of: &Formula) -> bool
    ensures { IsTrue result ↔ (formula.now ≡ NotFormula of.now) }
{
    match &formula.node {
        FormulaNode::Not(inner) => same_formula(inner, of),
        _ => false,
    }
}

// Decides whether each formula is the negation of the one at its index.
fn are_negations(formulas: &[Formula], of: &[Formula]) -> bool
    ensures { IsTrue result ↔ (formulas.now ≡ map NotFormula of.now) }
{
    if formulas.len() != of.len() {
        return false;
    }
    for i in 0..formulas.len() {
        if !is_negation(&formulas[i], &of[i]) {
            return false;
        }
    }
    true
}

/// Decides whether the formula is the conjunction of two entries.
pub fn is_both_of(formula: &Formula, left: Entry<'_>, right: Entry<'_>) -> bool
    ensures { IsTrue result
        ↔ (formula.now ≡ both_of (entry_formula left.entry) (entry_formula right.entry)) }
{
    match &formula.node {
        FormulaNode::Join(junction, parts) => {
            *junction == Junction::AllOf && are_entries(parts.as_slice(), left, right)
        }
        _ => false,
    }
}

// Decides whether the formulas are two entries.
fn are_entries(formulas: &[Formula], left: Entry<'_>, right: Entry<'_>) -> bool
    ensures { IsTrue result
        ↔ (formulas.now ≡ entry_formula left.entry ∷ entry_formula right.entry ∷ []) }
{
    formulas.len() == 2 && is_entry(&formulas[0], left) && is_entry(&formulas[1], right)
}

/// Decides whether these cases are a formula and its negation.
pub fn are_cut(cases: &[Formula]) -> bool
    ensures { IsTrue result ↔ AreCut cases.now }
{
    match cases {
        [first, second] => is_negation(second, first),
        _ => false,
    }
}

/// Decides whether a formula states that a term is a whole number, and the cases bound the term by a number.
pub fn are_bounds_of(of: &Formula, cases: &[Formula]) -> bool
    ensures { IsTrue result ↔ ((t : TermData) × (of.now ≡ IsFormula NumType t) × AreBounds t cases.now) }
{
    match &of.node {
        FormulaNode::Is(kind, term) => {
            matches!(&kind.node, TypeNode::Num) && are_bounds(term, cases)
        }
        _ => false,
    }
}

fn are_bounds(term: &Term, cases: &[Formula]) -> bool
    ensures { IsTrue result ↔ AreBounds term.now cases.now }
{
    match cases {
        [first, second] => match (upper_bound(term, first), lower_bound(term, second)) {
            (Some(most), Some(least)) => most.checked_add(1) == Some(least),
            _ => false,
        },
        _ => false,
    }
}

// The upper bound that the formula states for the term, if it states one.
fn upper_bound(term: &Term, formula: &Formula) -> Option<i128>
    ensures { MatchOption result ((k : ℤ) → formula.now ≡ LeFormula term.now (NumTerm k) → ⊥) (λ k. formula.now ≡ LeFormula term.now (NumTerm k)) }
{
    match &formula.node {
        FormulaNode::Compare(Comparison::Le, left, right) if same_term(left, term) => numeral_of(
            right,
        ),
        _ => None,
    }
}

// The lower bound that the formula states for the term, if it states one.
fn lower_bound(term: &Term, formula: &Formula) -> Option<i128>
    ensures { MatchOption result ((k : ℤ) → formula.now ≡ LeFormula (NumTerm k) term.now → ⊥) (λ k. formula.now ≡ LeFormula (NumTerm k) term.now) }
{
    match &formula.node {
        FormulaNode::Compare(Comparison::Le, left, right) if same_term(right, term) => numeral_of(
            left,
        ),
        _ => None,
    }
}

/// Decides whether these are the cases of the entry.
pub fn are_cases(entry: Entry<'_>, cases: &[Formula]) -> bool
    ensures { IsTrue result ↔ (cases_of (entry_formula entry.entry) ≡ Some cases.now) }
{
    match entry {
        Entry::Negated(of) => are_cases_of_negated(of, cases),
        Entry::Plain(of) => are_cases_of(of, cases),
    }
}

fn are_cases_of(of: &Formula, cases: &[Formula]) -> bool
    ensures { IsTrue result ↔ (cases_of of.now ≡ Some cases.now) }
{
    match &of.node {
        FormulaNode::Join(junction, parts) => {
            *junction == Junction::AnyOf && same_formulas(parts.as_slice(), cases)
        }
        FormulaNode::Connect(Connective::Implies, left, right) => {
            cases.len() == 2 && is_negation(&cases[0], left) && same_formula(&cases[1], right)
        }
        FormulaNode::Connect(Connective::Iff, left, right) => {
            cases.len() == 2
                && is_both_of(&cases[0], Entry::Plain(left), Entry::Plain(right))
                && is_both_of(&cases[1], Entry::Negated(left), Entry::Negated(right))
        }
        FormulaNode::Not(of) => are_cases_of_negated(of, cases),
        _ => false,
    }
}

fn are_cases_of_negated(of: &Formula, cases: &[Formula]) -> bool
    ensures { IsTrue result ↔ (cases_of_negated of.now ≡ Some cases.now) }
{
    match &of.node {
        FormulaNode::Join(junction, parts) => {
            *junction == Junction::AllOf && are_negations(cases, parts.as_slice())
        }
        FormulaNode::Connect(Connective::Iff, one, other) => {
            cases.len() == 2
                && is_both_of(&cases[0], Entry::Plain(one), Entry::Negated(other))
                && is_both_of(&cases[1], Entry::Negated(one), Entry::Plain(other))
        }
        _ => false,
    }
}

/// Decides whether the entry is the negation of another one.
pub fn negates(entry: Entry<'_>, of: Entry<'_>) -> bool
    ensures { IsTrue result
        ↔ (entry_formula entry.entry ≡ NotFormula (entry_formula of.entry)) }
{
    match entry {
        Entry::Negated(inner) => is_entry(inner, of),
        Entry::Plain(formula) => is_negation_of(formula, of),
    }
}

fn is_negation_of(formula: &Formula, of: Entry<'_>) -> bool
    ensures { IsTrue result ↔ (formula.now ≡ NotFormula (entry_formula of.entry)) }
{
    match &formula.node {
        FormulaNode::Not(inner) => is_entry(inner, of),
        _ => false,
    }
}

/// Decides whether the entry is false by its form.
pub fn is_false(entry: Entry<'_>) -> bool
    ensures { IsTrue result ↔ IsFalseForm (entry_formula entry.entry) }
{
    match entry {
        Entry::Negated(of) => is_false_negated(of),
        Entry::Plain(formula) => is_false_form(formula),
    }
}

fn is_false_form(formula: &Formula) -> bool
    ensures { IsTrue result ↔ IsFalseForm formula.now }
{
    match &formula.node {
        FormulaNode::Join(junction, cases) => {
            *junction == Junction::AnyOf && are_none(cases.as_slice())
        }
        FormulaNode::Holds(term) => matches!(&term.node, TermNode::Constant(Constant::False)),
        FormulaNode::Not(of) => is_false_negated(of),
        _ => false,
    }
}

fn is_false_negated(of: &Formula) -> bool
    ensures { IsTrue result ↔ IsFalseNegated of.now }
{
    match &of.node {
        FormulaNode::Join(junction, parts) => {
            *junction == Junction::AllOf && are_none(parts.as_slice())
        }
        FormulaNode::Compare(Comparison::Eq, left, right) => same_term(left, right),
        _ => false,
    }
}

fn are_none(formulas: &[Formula]) -> bool
    ensures { IsTrue result ↔ (formulas.now ≡ []) }
{
    formulas.is_empty()
}
