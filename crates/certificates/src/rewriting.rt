//! Replacement of equals by equals. It builds nothing: a pattern marks the replaced occurrences of a term.

ghost use Rattle.std.specs.Prelude.{◌↔◌, IsTrue};
ghost use Rattle.fol.specs.FormulaData.{EqFormula, NotFormula};
ghost use Rattle.substitution.specs.Instances.{IsInstance};
ghost use Rattle.certificates.specs.Branch.{entry_formula};
ghost use Rattle.certificates.specs.Rewriting.{IsReplaced, IsRewriting};

use crate::branch::Entry;
use fol::formula::{Formula, FormulaNode, Term};
use fol::operators::Comparison;
use substitution::instance::is_instance;

/// A pattern: a formula with a variable at the occurrences of a term.
#[derive(Clone, Copy)]
pub struct Pattern<'a> {
    pub variable: u32,
    pub formula: &'a Formula,
}

/// Decides whether the first entry is an equation, the second the pattern with one of its sides, and the formula the
/// pattern with the other.
pub fn is_rewriting(
    pattern: Pattern<'_>,
    equation: Entry<'_>,
    entry: Entry<'_>,
    formula: &Formula,
) -> bool
    ensures { IsTrue result ↔ IsRewriting pattern.entry.variable pattern.entry.formula.now (entry_formula equation.entry) (entry_formula entry.entry) formula.now }
{
    match equation {
        Entry::Plain(of) => match &of.node {
            FormulaNode::Compare(Comparison::Eq, left, right) => {
                are_equals(pattern, left, right, entry, formula)
            }
            _ => false,
        },
        Entry::Negated(_) => false,
    }
}

fn are_equals(
    pattern: Pattern<'_>,
    left: &Term,
    right: &Term,
    entry: Entry<'_>,
    formula: &Formula,
) -> bool
    ensures { IsTrue result ↔ IsRewriting pattern.entry.variable pattern.entry.formula.now (EqFormula left.now right.now) (entry_formula entry.entry) formula.now }
{
    if is_replaced(pattern, left, right, entry, formula) {
        return true;
    }
    is_replaced(pattern, right, left, entry, formula)
}

fn is_replaced(
    pattern: Pattern<'_>,
    from: &Term,
    to: &Term,
    entry: Entry<'_>,
    formula: &Formula,
) -> bool
    ensures { IsTrue result ↔ IsReplaced pattern.entry.variable pattern.entry.formula.now from.now to.now (entry_formula entry.entry) formula.now }
{
    is_entry_with(pattern, from, entry)
        && is_instance(pattern.formula, pattern.variable, to, formula)
}

// Decides whether the entry is the pattern with the term.
fn is_entry_with(pattern: Pattern<'_>, term: &Term, entry: Entry<'_>) -> bool
    ensures { IsTrue result ↔ IsInstance pattern.entry.variable term.now pattern.entry.formula.now (entry_formula entry.entry) }
{
    match entry {
        Entry::Plain(of) => is_instance(pattern.formula, pattern.variable, term, of),
        Entry::Negated(of) => is_negation_with(pattern.variable, pattern.formula, term, of),
    }
}

fn is_negation_with(variable: u32, pattern: &Formula, term: &Term, of: &Formula) -> bool
    ensures { IsTrue result ↔ IsInstance variable term.now pattern.now (NotFormula of.now) }
{
    match &pattern.node {
        FormulaNode::Not(inner) => is_instance(inner, variable, term, of),
        _ => false,
    }
}
