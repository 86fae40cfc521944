//! Equality of terms and formulas.

ghost use Rattle.std.specs.Prelude.{◌≡◌, ◌↔◌, IsTrue};
ghost use Rattle.fol.specs.FormulaData.{terms_of, triggers_of, formulas_of};

use crate::formula::{Formula, FormulaNode, Term, TermNode, Trigger};
use base::same::same_type;

/// Decides whether two terms are equal.
#[cycle(same)]
pub fn same_term(left: &Term, right: &Term) -> bool
    ensures { IsTrue result ↔ (left.now ≡ right.now) }
{
    match (&left.node, &right.node) {
        (TermNode::Var(a), TermNode::Var(b)) => *a == *b,
        (TermNode::Constant(a), TermNode::Constant(b)) => *a == *b,
        (TermNode::Unary(v, a), TermNode::Unary(w, b)) => *v == *w && same_term(a, b),
        (TermNode::Binary(v, a, b), TermNode::Binary(w, c, d)) => {
            *v == *w && same_term(a, c) && same_term(b, d)
        }
        (TermNode::Ternary(v, a, b, c), TermNode::Ternary(w, d, e, f)) => {
            *v == *w && same_term(a, d) && same_term(b, e) && same_term(c, f)
        }
        (TermNode::Pack(s, a), TermNode::Pack(t, b)) => {
            same_type(s, t) && same_terms(a.as_slice(), b.as_slice())
        }
        (TermNode::Field(s, k, a), TermNode::Field(t, l, b)) => {
            *k == *l && same_type(s, t) && same_term(a, b)
        }
        (TermNode::SetField(s, k, a, b), TermNode::SetField(t, l, c, d)) => {
            *k == *l && same_type(s, t) && same_term(a, c) && same_term(b, d)
        }
        (TermNode::If(p, a, b), TermNode::If(q, c, d)) => {
            same_formula(p, q) && same_term(a, c) && same_term(b, d)
        }
        _ => false,
    }
}

/// Decides whether two lists of terms are equal.
#[cycle(same)]
#[tactic(auto, using(crate::specs::FormulaData::terms_of_injective))]
pub fn same_terms(left: &[Term], right: &[Term]) -> bool
    ensures items { IsTrue result ↔ (left.now ≡ right.now) }
    ensures whole { IsTrue result ↔ (terms_of left.now ≡ terms_of right.now) }
{
    if left.len() != right.len() {
        return false;
    }
    for (a, b) in left.iter().zip(right) {
        if !same_term(a, b) {
            return false;
        }
    }
    true
}

#[cycle(same)]
fn same_trigger(left: &Trigger, right: &Trigger) -> bool
    ensures { IsTrue result ↔ (left.now ≡ right.now) }
{
    same_terms(left.terms.as_slice(), right.terms.as_slice())
}

#[cycle(same)]
#[tactic(auto, using(crate::specs::FormulaData::triggers_of_injective))]
fn same_triggers(left: &[Trigger], right: &[Trigger]) -> bool
    ensures items { IsTrue result ↔ (left.now ≡ right.now) }
    ensures whole { IsTrue result ↔ (triggers_of left.now ≡ triggers_of right.now) }
{
    if left.len() != right.len() {
        return false;
    }
    for (a, b) in left.iter().zip(right) {
        if !same_trigger(a, b) {
            return false;
        }
    }
    true
}

/// Decides whether two formulas are equal.
#[cycle(same)]
pub fn same_formula(left: &Formula, right: &Formula) -> bool
    ensures { IsTrue result ↔ (left.now ≡ right.now) }
{
    match (&left.node, &right.node) {
        (FormulaNode::Compare(v, a, b), FormulaNode::Compare(w, c, d)) => {
            *v == *w && same_term(a, c) && same_term(b, d)
        }
        (FormulaNode::Is(s, a), FormulaNode::Is(t, b)) => same_type(s, t) && same_term(a, b),
        (FormulaNode::Holds(a), FormulaNode::Holds(b)) => same_term(a, b),
        (FormulaNode::Not(p), FormulaNode::Not(q)) => same_formula(p, q),
        (FormulaNode::Join(v, ps), FormulaNode::Join(w, qs)) => {
            *v == *w && same_formulas(ps.as_slice(), qs.as_slice())
        }
        (FormulaNode::Connect(v, p, q), FormulaNode::Connect(w, r, s)) => {
            *v == *w && same_formula(p, r) && same_formula(q, s)
        }
        (FormulaNode::Quantify(v, m, ts, p), FormulaNode::Quantify(w, n, us, q)) => {
            *v == *w
                && *m == *n
                && same_triggers(ts.as_slice(), us.as_slice())
                && same_formula(p, q)
        }
        _ => false,
    }
}

/// Decides whether two lists of formulas are equal.
#[cycle(same)]
#[tactic(auto, using(crate::specs::FormulaData::formulas_of_injective))]
pub fn same_formulas(left: &[Formula], right: &[Formula]) -> bool
    ensures items { IsTrue result ↔ (left.now ≡ right.now) }
    ensures whole { IsTrue result ↔ (formulas_of left.now ≡ formulas_of right.now) }
{
    if left.len() != right.len() {
        return false;
    }
    for (p, q) in left.iter().zip(right) {
        if !same_formula(p, q) {
            return false;
        }
    }
    true
}
