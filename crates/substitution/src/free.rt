//! Free occurrences of variables.

ghost use Rattle.std.specs.Prelude.{◌≡◌};
ghost use Rattle.fol.specs.FormulaData.{terms_of, triggers_of, formulas_of};
ghost use Rattle.substitution.specs.Free.{free_in_term, free_in_terms, free_in_triggers, free_in, free_in_formulas};

use fol::formula::{Formula, FormulaNode, Term, TermNode, Trigger};

/// Decides whether the variable occurs free in the term.
#[cycle(free)]
pub fn is_free_in_term(variable: u32, term: &Term) -> bool
    ensures { result ≡ free_in_term variable term.now }
{
    match &term.node {
        TermNode::Var(number) => variable == *number,
        TermNode::Constant(_) => false,
        TermNode::Unary(_, a) | TermNode::Field(_, _, a) => is_free_in_term(variable, a),
        TermNode::Binary(_, a, b) | TermNode::SetField(_, _, a, b) => {
            is_free_in_term(variable, a) || is_free_in_term(variable, b)
        }
        TermNode::Ternary(_, a, b, c) => {
            is_free_in_term(variable, a)
                || is_free_in_term(variable, b)
                || is_free_in_term(variable, c)
        }
        TermNode::Pack(_, ts) => is_free_in_terms(variable, ts.as_slice()),
        TermNode::If(p, a, b) => {
            is_free_in(variable, p) || is_free_in_term(variable, a) || is_free_in_term(variable, b)
        }
    }
}

#[cycle(free)]
#[tactic(auto, using(crate::proofs::FreeLaws::free_in_terms_drop, fol::proofs::Smaller::term_smaller))]
fn is_free_in_terms(variable: u32, terms: &[Term]) -> bool
    ensures { result ≡ free_in_terms variable (terms_of terms.now) }
{
    for term in terms {
        if is_free_in_term(variable, term) {
            return true;
        }
    }
    false
}

#[cycle(free)]
fn is_free_in_trigger(variable: u32, trigger: &Trigger) -> bool
    ensures { result ≡ free_in_terms variable trigger.now }
{
    is_free_in_terms(variable, trigger.terms.as_slice())
}

#[cycle(free)]
#[tactic(auto, using(crate::proofs::FreeLaws::free_in_triggers_drop, fol::proofs::Smaller::trigger_smaller))]
fn is_free_in_triggers(variable: u32, triggers: &[Trigger]) -> bool
    ensures { result ≡ free_in_triggers variable (triggers_of triggers.now) }
{
    for trigger in triggers {
        if is_free_in_trigger(variable, trigger) {
            return true;
        }
    }
    false
}

/// Decides whether the variable occurs free in the formula.
#[cycle(free)]
pub fn is_free_in(variable: u32, formula: &Formula) -> bool
    ensures { result ≡ free_in variable formula.now }
{
    match &formula.node {
        FormulaNode::Compare(_, a, b) => {
            is_free_in_term(variable, a) || is_free_in_term(variable, b)
        }
        FormulaNode::Is(_, a) | FormulaNode::Holds(a) => is_free_in_term(variable, a),
        FormulaNode::Not(p) => is_free_in(variable, p),
        FormulaNode::Join(_, ps) => is_free_in_formulas(variable, ps.as_slice()),
        FormulaNode::Connect(_, p, q) => is_free_in(variable, p) || is_free_in(variable, q),
        FormulaNode::Quantify(_, bound, triggers, p) => {
            variable != *bound
                && (is_free_in_triggers(variable, triggers.as_slice()) || is_free_in(variable, p))
        }
    }
}

#[cycle(free)]
#[tactic(auto, using(crate::proofs::FreeLaws::free_in_formulas_drop, fol::proofs::Smaller::formula_smaller))]
fn is_free_in_formulas(variable: u32, formulas: &[Formula]) -> bool
    ensures { result ≡ free_in_formulas variable (formulas_of formulas.now) }
{
    for formula in formulas {
        if is_free_in(variable, formula) {
            return true;
        }
    }
    false
}
