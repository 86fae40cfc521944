//! Decides whether terms and formulas are deeper than a limit, without looking deeper than the limit.

ghost use Rattle.std.specs.Prelude.{◌↔◌, ◌<◌, IsTrue};
ghost use Rattle.base.specs.TypeData.{types_of};
ghost use Rattle.fol.specs.FormulaData.{terms_of, triggers_of, formulas_of};
ghost use Rattle.fol.specs.Depth.{type_depth, types_depth, term_depth, terms_depth, triggers_depth, formula_depth, formulas_depth};

use crate::formula::{Formula, FormulaNode, Term, TermNode, Trigger};
use base::types::{TypeList, TypeNode, TypeTerm};

/// Decides whether the type is deeper than `limit`: more than so many types are nested, itself included.
#[cycle(type_depth)]
#[tactic(auto, using(crate::proofs::DepthLaws::type_depth_positive))]
pub fn is_type_deeper(of: &TypeTerm, limit: u32) -> bool
    ensures { IsTrue result ↔ (limit < type_depth of.now) }
{
    if limit == 0 {
        return true;
    }
    match &of.node {
        TypeNode::Bool
        | TypeNode::Int(_)
        | TypeNode::Num
        | TypeNode::Address
        | TypeNode::Signer
        | TypeNode::Param(_) => false,
        TypeNode::Vector(t) | TypeNode::Shared(t) | TypeNode::Mutable(t) => {
            is_type_deeper(t, limit - 1)
        }
        TypeNode::Struct(_, ts) | TypeNode::Tuple(ts) => are_types_deeper(ts, limit - 1),
    }
}

#[cycle(type_depth)]
fn are_types_deeper(types: &TypeList, limit: u32) -> bool
    ensures { IsTrue result ↔ (limit < types_depth types.now) }
{
    is_any_type_deeper(types.items.as_slice(), limit)
}

#[cycle(type_depth)]
#[tactic(auto, using(crate::proofs::DepthLaws::types_depth_drop, crate::proofs::Smaller::type_smaller))]
fn is_any_type_deeper(types: &[TypeTerm], limit: u32) -> bool
    ensures { IsTrue result ↔ (limit < types_depth (types_of types.now)) }
{
    for one in types {
        if is_type_deeper(one, limit) {
            return true;
        }
    }
    false
}

/// Decides whether the term is deeper than `limit`: more than so many terms, formulas and types are nested, itself
/// included.
#[cycle(depth)]
#[tactic(auto, using(crate::proofs::DepthLaws::term_depth_positive))]
pub fn is_term_deeper(term: &Term, limit: u32) -> bool
    ensures { IsTrue result ↔ (limit < term_depth term.now) }
{
    if limit == 0 {
        return true;
    }
    let below = limit - 1;
    match &term.node {
        TermNode::Var(_) | TermNode::Constant(_) => false,
        TermNode::Unary(_, a) => is_term_deeper(a, below),
        TermNode::Binary(_, a, b) => is_term_deeper(a, below) || is_term_deeper(b, below),
        TermNode::Ternary(_, a, b, c) => {
            is_term_deeper(a, below) || is_term_deeper(b, below) || is_term_deeper(c, below)
        }
        TermNode::Pack(of, ts) => is_type_deeper(of, below) || is_any_term_deeper(ts, below),
        TermNode::Field(of, _, a) => is_type_deeper(of, below) || is_term_deeper(a, below),
        TermNode::SetField(of, _, a, b) => {
            is_type_deeper(of, below) || is_term_deeper(a, below) || is_term_deeper(b, below)
        }
        TermNode::If(p, a, b) => {
            is_deeper(p, below) || is_term_deeper(a, below) || is_term_deeper(b, below)
        }
    }
}

#[cycle(depth)]
#[tactic(auto, using(crate::proofs::DepthLaws::terms_depth_drop, crate::proofs::Smaller::term_smaller))]
fn is_any_term_deeper(terms: &[Term], limit: u32) -> bool
    ensures { IsTrue result ↔ (limit < terms_depth (terms_of terms.now)) }
{
    for term in terms {
        if is_term_deeper(term, limit) {
            return true;
        }
    }
    false
}

#[cycle(depth)]
fn is_trigger_deeper(trigger: &Trigger, limit: u32) -> bool
    ensures { IsTrue result ↔ (limit < terms_depth trigger.now) }
{
    is_any_term_deeper(trigger.terms.as_slice(), limit)
}

#[cycle(depth)]
#[tactic(auto, using(crate::proofs::DepthLaws::triggers_depth_drop, crate::proofs::Smaller::trigger_smaller))]
fn is_any_trigger_deeper(triggers: &[Trigger], limit: u32) -> bool
    ensures { IsTrue result ↔ (limit < triggers_depth (triggers_of triggers.now)) }
{
    for trigger in triggers {
        if is_trigger_deeper(trigger, limit) {
            return true;
        }
    }
    false
}

/// Decides whether the formula is deeper than `limit`: more than so many terms, formulas and types are nested, itself
/// included.
#[cycle(depth)]
#[tactic(auto, using(crate::proofs::DepthLaws::formula_depth_positive))]
pub fn is_deeper(formula: &Formula, limit: u32) -> bool
    ensures { IsTrue result ↔ (limit < formula_depth formula.now) }
{
    if limit == 0 {
        return true;
    }
    let below = limit - 1;
    match &formula.node {
        FormulaNode::Compare(_, a, b) => is_term_deeper(a, below) || is_term_deeper(b, below),
        FormulaNode::Is(of, a) => is_type_deeper(of, below) || is_term_deeper(a, below),
        FormulaNode::Holds(a) => is_term_deeper(a, below),
        FormulaNode::Not(p) => is_deeper(p, below),
        FormulaNode::Join(_, ps) => is_any_deeper(ps, below),
        FormulaNode::Connect(_, p, q) => is_deeper(p, below) || is_deeper(q, below),
        FormulaNode::Quantify(_, _, ts, p) => {
            is_any_trigger_deeper(ts, below) || is_deeper(p, below)
        }
    }
}

#[cycle(depth)]
#[tactic(auto, using(crate::proofs::DepthLaws::formulas_depth_drop, crate::proofs::Smaller::formula_smaller))]
fn is_any_deeper(formulas: &[Formula], limit: u32) -> bool
    ensures { IsTrue result ↔ (limit < formulas_depth (formulas_of formulas.now)) }
{
    for formula in formulas {
        if is_deeper(formula, limit) {
            return true;
        }
    }
    false
}
