//! Steps on quantified entries: instances for a term, and variables that are new on a branch.

ghost use Rattle.std.specs.Prelude.{◌≡◌, ◌↔◌, ◌<◌, IsTrue, false, length, get_or};
ghost use Rattle.fol.specs.FormulaData.{FormulaData};
ghost use Rattle.substitution.specs.Free.{free_in};
ghost use Rattle.certificates.specs.Branch.{entries_of, entry_formula, IsCounted};
ghost use Rattle.certificates.specs.Quantified.{dual, IsBodyWith, IsNegatedBodyWith, IsNew};

use crate::branch::{Branch, Entry, entry_at};
use fol::formula::{Formula, FormulaNode, Term};
use fol::operators::Quantifier;
use substitution::free::is_free_in;
use substitution::instance::is_instance;

/// Decides whether the formula is the instance of the entry for the term: its body, under this quantifier or negated
/// under the other one, with the term substituted for the bound variable.
pub fn is_body_with(
    quantifier: Quantifier,
    entry: Entry<'_>,
    term: &Term,
    formula: &Formula,
) -> bool
    ensures { IsTrue result ↔ IsBodyWith quantifier term.now (entry_formula entry.entry) formula.now }
{
    match entry {
        Entry::Negated(of) => is_negated_body_with(dual(quantifier), of, term, formula),
        Entry::Plain(of) => is_plain_body_with(quantifier, of, term, formula),
    }
}

fn dual(quantifier: Quantifier) -> Quantifier
    ensures { result ≡ dual quantifier }
{
    match quantifier {
        Quantifier::ForAll => Quantifier::Exists,
        Quantifier::Exists => Quantifier::ForAll,
    }
}

fn is_plain_body_with(quantifier: Quantifier, of: &Formula, term: &Term, formula: &Formula) -> bool
    ensures { IsTrue result ↔ IsBodyWith quantifier term.now of.now formula.now }
{
    match &of.node {
        FormulaNode::Quantify(by, bound, _, body) => {
            quantifier == *by && is_instance(body, *bound, term, formula)
        }
        FormulaNode::Not(inner) => is_negated_body_with(dual(quantifier), inner, term, formula),
        _ => false,
    }
}

fn is_negated_body_with(
    quantifier: Quantifier,
    of: &Formula,
    term: &Term,
    formula: &Formula,
) -> bool
    ensures { IsTrue result ↔ IsNegatedBodyWith quantifier term.now of.now formula.now }
{
    match (&of.node, &formula.node) {
        (FormulaNode::Quantify(by, bound, _, body), FormulaNode::Not(inner)) => {
            quantifier == *by && is_instance(body, *bound, term, inner)
        }
        _ => false,
    }
}

/// Decides whether the variable is free in no entry of the branch.
pub fn is_new(branch: &Branch<'_>, variable: u32) -> bool
    requires { IsCounted branch.now }
    ensures { IsTrue result ↔ IsNew variable (entries_of branch.now) }
{
    for index in 0..branch.len() {
        if !is_new_at(branch, variable, index) {
            return false;
        }
    }
    true
}

// Decides whether the variable is not free in the entry with this number.
fn is_new_at(branch: &Branch<'_>, variable: u32, index: usize) -> bool
    requires counted { IsCounted branch.now }
    requires within { index < length (entries_of branch.now) }
    ensures { (p : FormulaData) → IsTrue result ↔ (free_in variable (get_or (entries_of branch.now) index p) ≡ false) }
{
    match entry_at(branch, index) {
        Some(entry) => is_without(variable, entry),
        None => false,
    }
}

fn is_without(variable: u32, entry: Entry<'_>) -> bool
    ensures { IsTrue result ↔ (free_in variable (entry_formula entry.entry) ≡ false) }
{
    match entry {
        Entry::Negated(formula) => !is_free_in(variable, formula),
        Entry::Plain(formula) => !is_free_in(variable, formula),
    }
}
