//! Straight steps: those allowed on a branch whose depth is within the limit.

ghost use Rattle.std.specs.Prelude.{◌≡◌, ◌↔◌, IsTrue, Some, All};
ghost use Rattle.fol.specs.FormulaData.{FormulaData, VarTerm};
ghost use Rattle.fol.specs.declared.operators.Quantifier.TheVariants.{Exists};
ghost use Rattle.certificates.specs.Rewriting.{IsRewriting};
ghost use Rattle.certificates.specs.Quantified.{IsBodyWith, IsNew};
ghost use Rattle.certificates.specs.Branch.{entries_of, IsCounted};
ghost use Rattle.certificates.specs.Parts.{parts_of};
ghost use Rattle.certificates.specs.Closes.{added, most_deep, IsEntry, IsWithin, NamesWithin, IsAllowed, IsStep};

use crate::branch::{Branch, added_by, entry_at};
use crate::certificate::{Step, StepNode};
use crate::quantified::{is_body_with, is_new};
use crate::rewriting::{Pattern, is_rewriting};
use crate::tableau::are_parts;
use axioms::instance::is_axiom;
use fol::depth::{is_deeper, is_term_deeper};
use fol::formula::{Formula, Term, TermNode};
use fol::operators::Quantifier;
use fol::shapes::Shapes;

/// The greatest depth of a formula or term in a step.
pub const MOST_DEEP: u32 = 2_000;

/// Decides whether the step is allowed on the branch, and the depths of its formulas and terms are within the limit.
pub fn is_step(shapes: &Shapes, branch: &Branch<'_>, step: &Step) -> bool
    requires { IsCounted branch.now }
    ensures { IsTrue result ↔ IsStep shapes.now (entries_of branch.now) step.now }
{
    are_within(added_by(step), MOST_DEEP) && names_within(step) && is_allowed(shapes, branch, step)
}

/// Decides whether the depth of each formula is within the limit.
pub fn are_within(formulas: &[Formula], limit: u32) -> bool
    ensures { IsTrue result ↔ All (IsWithin limit) formulas.now }
{
    for formula in formulas {
        if !is_within(formula, limit) {
            return false;
        }
    }
    true
}

fn is_within(formula: &Formula, limit: u32) -> bool
    ensures { IsTrue result ↔ IsWithin limit formula.now }
{
    !is_deeper(formula, limit)
}

// Decides whether the depths of the formulas and terms of the step, other than those that it adds, are within the
// limit.
fn names_within(step: &Step) -> bool
    ensures { IsTrue result ↔ NamesWithin step.now }
{
    match &step.node {
        StepNode::Instance(_, term, _) => !is_term_deeper(term, MOST_DEEP),
        StepNode::Rewrite(_, _, _, formula, _) => is_within(formula, MOST_DEEP),
        StepNode::Parts(_, _) | StepNode::Axiom(_, _) | StepNode::Name(_, _, _) => true,
    }
}

fn is_allowed(shapes: &Shapes, branch: &Branch<'_>, step: &Step) -> bool
    requires { IsCounted branch.now }
    ensures { IsTrue result ↔ IsAllowed shapes.now (entries_of branch.now) step.now }
{
    match &step.node {
        StepNode::Parts(index, formulas) => are_parts_at(branch, *index, formulas.as_slice()),
        StepNode::Axiom(name, formula) => is_axiom(shapes, *name, formula),
        StepNode::Instance(index, term, formula) => {
            says_at(branch, *index, Quantifier::ForAll, term, formula)
        }
        StepNode::Rewrite(equation, index, variable, formula, made) => {
            let pattern = Pattern {
                variable: *variable,
                formula,
            };
            rewrites(branch, *equation, *index, pattern, made)
        }
        StepNode::Name(index, variable, formula) => names(branch, *index, *variable, formula),
    }
}

// Decides whether the formula is the instance of an entry for the term.
fn says_at(
    branch: &Branch<'_>,
    index: u32,
    quantifier: Quantifier,
    term: &Term,
    formula: &Formula,
) -> bool
    requires { IsCounted branch.now }
    ensures { IsTrue result
        ↔ ((q : FormulaData) × IsEntry (entries_of branch.now) index q × IsBodyWith quantifier term.now q formula.now) }
{
    match entry_at(branch, index as usize) {
        Some(entry) => is_body_with(quantifier, entry, term, formula),
        None => false,
    }
}

fn names(branch: &Branch<'_>, index: u32, variable: u32, formula: &Formula) -> bool
    requires { IsCounted branch.now }
    ensures { IsTrue result
        ↔ (((q : FormulaData) × IsEntry (entries_of branch.now) index q × IsBodyWith Exists (VarTerm variable) q formula.now) × IsNew variable (entries_of branch.now)) }
{
    let term = Term {
        node: TermNode::Var(variable),
    };
    says_at(branch, index, Quantifier::Exists, &term, formula) && is_new(branch, variable)
}

// Decides whether an entry is the pattern with one side of another, which is an equation, and the formula with the
// other side.
fn rewrites(
    branch: &Branch<'_>,
    equation: u32,
    index: u32,
    pattern: Pattern<'_>,
    formula: &Formula,
) -> bool
    requires { IsCounted branch.now }
    ensures { IsTrue result
        ↔ ((e : FormulaData) × (q : FormulaData) × IsEntry (entries_of branch.now) equation e × IsEntry (entries_of branch.now) index q × IsRewriting pattern.entry.variable pattern.entry.formula.now e q formula.now) }
{
    match entry_at(branch, equation as usize) {
        Some(equation) => match entry_at(branch, index as usize) {
            Some(entry) => is_rewriting(pattern, equation, entry, formula),
            None => false,
        },
        None => false,
    }
}

fn are_parts_at(branch: &Branch<'_>, index: u32, formulas: &[Formula]) -> bool
    requires { IsCounted branch.now }
    ensures { IsTrue result
        ↔ ((p : FormulaData) × IsEntry (entries_of branch.now) index p × (parts_of p ≡ Some formulas.now)) }
{
    match entry_at(branch, index as usize) {
        Some(entry) => are_parts(entry, formulas),
        None => false,
    }
}
