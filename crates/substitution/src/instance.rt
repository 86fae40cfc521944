//! Decides whether a formula is another one with a term substituted for a variable, up to alpha equivalence. It builds
//! nothing. It takes the time of a walk along both formulas, times the depth of their quantifiers.

ghost use Rattle.std.specs.Prelude.{◌≡◌, ◌↔◌, IsTrue};
ghost use Rattle.fol.specs.FormulaData.{VarTerm, terms_of, triggers_of, formulas_of};
ghost use Rattle.substitution.specs.Instances.{binders_of, StandsFor, IsTermInstance, AreTermInstances, AreTriggerInstances, IsInstanceUnder, AreInstances, IsInstance, IsTrueAlike};

use crate::binders::Binders;
use crate::free::is_free_in_term;
use base::same::same_type;
use fol::formula::{Formula, FormulaNode, Term, TermNode, Trigger};
use fol::same::same_term;

/// A substitution: the term for the free occurrences of the variable.
#[derive(Clone, Copy)]
pub struct Replacement<'a> {
    pub variable: u32,
    pub term: &'a Term,
}

/// Decides whether the formula is the body with the term substituted for the variable: `exact`. If so, it is true
/// exactly when the body is true with the term's value for the variable: `truth`.
#[tactic(auto, using(crate::proofs::InstanceTruth::instance_truth))]
pub fn is_instance(body: &Formula, variable: u32, term: &Term, formula: &Formula) -> bool
    ensures exact { IsTrue result ↔ IsInstance variable term.now body.now formula.now }
    ensures truth { IsTrue result → IsTrueAlike variable term.now body.now formula.now }
{
    is_instance_under(&Binders::Top, Replacement { variable, term }, body, formula)
}

// Decides whether the found term is the right one for the variable with this number.
fn stands_for<'a>(binders: &'a Binders<'a>, put: Replacement<'_>, number: u32, found: &Term) -> bool
    ensures { IsTrue result ↔ StandsFor (binders_of binders.now) put.entry.variable put.entry.term.now number found.now }
{
    match binders {
        Binders::Top => {
            if number == put.variable {
                same_term(found, put.term)
            } else {
                is_variable(found, number)
            }
        }
        Binders::Inside(outer, from, to) => {
            if number == *from {
                is_variable(found, *to)
            } else {
                !is_free_in_term(*to, found) && stands_for(outer, put, number, found)
            }
        }
    }
}

fn is_variable(term: &Term, number: u32) -> bool
    ensures { IsTrue result ↔ (term.now ≡ VarTerm number) }
{
    match &term.node {
        TermNode::Var(found) => *found == number,
        _ => false,
    }
}

#[cycle(instance)]
fn is_term_instance<'a>(
    binders: &'a Binders<'a>,
    put: Replacement<'_>,
    body: &Term,
    term: &Term,
) -> bool
    ensures { IsTrue result ↔ IsTermInstance (binders_of binders.now) put.entry.variable put.entry.term.now body.now term.now }
{
    match (&body.node, &term.node) {
        (TermNode::Var(number), _) => stands_for(binders, put, *number, term),
        (TermNode::Constant(a), TermNode::Constant(b)) => *a == *b,
        (TermNode::Unary(v, a), TermNode::Unary(w, b)) => {
            *v == *w && is_term_instance(binders, put, a, b)
        }
        (TermNode::Binary(v, a, b), TermNode::Binary(w, c, d)) => {
            *v == *w && is_term_instance(binders, put, a, c) && is_term_instance(binders, put, b, d)
        }
        (TermNode::Ternary(v, a, b, c), TermNode::Ternary(w, d, e, f)) => {
            *v == *w
                && is_term_instance(binders, put, a, d)
                && is_term_instance(binders, put, b, e)
                && is_term_instance(binders, put, c, f)
        }
        (TermNode::Pack(s, ts), TermNode::Pack(r, us)) => {
            same_type(s, r) && are_term_instances(binders, put, ts.as_slice(), us.as_slice())
        }
        (TermNode::Field(s, k, a), TermNode::Field(r, l, b)) => {
            *k == *l && same_type(s, r) && is_term_instance(binders, put, a, b)
        }
        (TermNode::SetField(s, k, a, b), TermNode::SetField(r, l, c, d)) => {
            *k == *l
                && same_type(s, r)
                && is_term_instance(binders, put, a, c)
                && is_term_instance(binders, put, b, d)
        }
        (TermNode::If(p, a, b), TermNode::If(q, c, d)) => {
            is_instance_under(binders, put, p, q)
                && is_term_instance(binders, put, a, c)
                && is_term_instance(binders, put, b, d)
        }
        _ => false,
    }
}

#[cycle(instance)]
#[tactic(auto, using(fol::proofs::Smaller::term_smaller))]
fn are_term_instances<'a>(
    binders: &'a Binders<'a>,
    put: Replacement<'_>,
    body: &[Term],
    terms: &[Term],
) -> bool
    ensures { IsTrue result ↔ AreTermInstances (binders_of binders.now) put.entry.variable put.entry.term.now (terms_of body.now) (terms_of terms.now) }
{
    if body.len() != terms.len() {
        return false;
    }
    for i in 0..body.len() {
        if !is_term_instance(binders, put, &body[i], &terms[i]) {
            return false;
        }
    }
    true
}

#[cycle(instance)]
fn is_trigger_instance<'a>(
    binders: &'a Binders<'a>,
    put: Replacement<'_>,
    body: &Trigger,
    trigger: &Trigger,
) -> bool
    ensures { IsTrue result ↔ AreTermInstances (binders_of binders.now) put.entry.variable put.entry.term.now body.now trigger.now }
{
    are_term_instances(
        binders,
        put,
        body.terms.as_slice(),
        trigger.terms.as_slice(),
    )
}

#[cycle(instance)]
#[tactic(auto, using(fol::proofs::Smaller::trigger_smaller))]
fn are_trigger_instances<'a>(
    binders: &'a Binders<'a>,
    put: Replacement<'_>,
    body: &[Trigger],
    triggers: &[Trigger],
) -> bool
    ensures { IsTrue result ↔ AreTriggerInstances (binders_of binders.now) put.entry.variable put.entry.term.now (triggers_of body.now) (triggers_of triggers.now) }
{
    if body.len() != triggers.len() {
        return false;
    }
    for i in 0..body.len() {
        if !is_trigger_instance(binders, put, &body[i], &triggers[i]) {
            return false;
        }
    }
    true
}

#[cycle(instance)]
fn is_instance_under<'a>(
    binders: &'a Binders<'a>,
    put: Replacement<'_>,
    body: &Formula,
    formula: &Formula,
) -> bool
    ensures { IsTrue result ↔ IsInstanceUnder (binders_of binders.now) put.entry.variable put.entry.term.now body.now formula.now }
{
    match (&body.node, &formula.node) {
        (FormulaNode::Compare(v, a, b), FormulaNode::Compare(w, c, d)) => {
            *v == *w && is_term_instance(binders, put, a, c) && is_term_instance(binders, put, b, d)
        }
        (FormulaNode::Is(s, a), FormulaNode::Is(r, b)) => {
            same_type(s, r) && is_term_instance(binders, put, a, b)
        }
        (FormulaNode::Holds(a), FormulaNode::Holds(b)) => is_term_instance(binders, put, a, b),
        (FormulaNode::Not(p), FormulaNode::Not(q)) => is_instance_under(binders, put, p, q),
        (FormulaNode::Join(v, ps), FormulaNode::Join(w, qs)) => {
            *v == *w && are_instances(binders, put, ps.as_slice(), qs.as_slice())
        }
        (FormulaNode::Connect(v, p, a), FormulaNode::Connect(w, q, c)) => {
            *v == *w
                && is_instance_under(binders, put, p, q)
                && is_instance_under(binders, put, a, c)
        }
        (FormulaNode::Quantify(v, m, ts, p), FormulaNode::Quantify(w, n, us, q)) => {
            let inside = Binders::Inside(binders, *m, *n);
            *v == *w
                && are_trigger_instances(&inside, put, ts.as_slice(), us.as_slice())
                && is_instance_under(&inside, put, p, q)
        }
        _ => false,
    }
}

#[cycle(instance)]
#[tactic(auto, using(fol::proofs::Smaller::formula_smaller))]
fn are_instances<'a>(
    binders: &'a Binders<'a>,
    put: Replacement<'_>,
    body: &[Formula],
    formulas: &[Formula],
) -> bool
    ensures { IsTrue result ↔ AreInstances (binders_of binders.now) put.entry.variable put.entry.term.now (formulas_of body.now) (formulas_of formulas.now) }
{
    if body.len() != formulas.len() {
        return false;
    }
    for i in 0..body.len() {
        if !is_instance_under(binders, put, &body[i], &formulas[i]) {
            return false;
        }
    }
    true
}
