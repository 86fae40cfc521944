//! The lengths of types, terms and formulas, each capped at the greatest number of 64 bits.

ghost use Rattle.std.specs.Prelude.{◌≡◌, ◌+◌, ◌*◌, length};
ghost use Rattle.base.specs.TypeData.{types_of};
ghost use Rattle.fol.specs.FormulaData.{terms_of, triggers_of, formulas_of};
ghost use Rattle.certificates.specs.Lengths.{capped, type_length, types_length, constant_length, binary_length, term_length, terms_length, triggers_length, formula_length, formulas_length};

use base::types::{StructId, TypeList, TypeNode, TypeTerm};
use fol::formula::{Formula, FormulaNode, Term, TermNode, Trigger};
use fol::operators::{Binary, Constant};

/// The sum, capped at the greatest number of 64 bits.
pub fn sum(left: u64, right: u64) -> u64
    ensures { result ≡ capped (left + right) }
{
    left.saturating_add(right)
}

#[cycle(type_len)]
fn type_len(of: &TypeTerm) -> u64
    ensures { result ≡ capped (type_length of.now) }
{
    match &of.node {
        TypeNode::Bool | TypeNode::Int(_) | TypeNode::Num | TypeNode::Address | TypeNode::Signer =>
            1,
        TypeNode::Vector(t) | TypeNode::Shared(t) | TypeNode::Mutable(t) => sum(1, type_len(t)),
        TypeNode::Struct(name, ts) => sum(29, sum(names_len(name), types_len(ts))),
        TypeNode::Param(_) => 5,
        TypeNode::Tuple(ts) => sum(5, types_len(ts)),
    }
}

fn names_len(name: &StructId) -> u64
    ensures { result ≡ capped (length name.now.«module» + length name.now.name) }
{
    sum(
        name.module.as_slice().len() as u64,
        name.name.as_slice().len() as u64,
    )
}

#[cycle(type_len)]
fn types_len(types: &TypeList) -> u64
    ensures { result ≡ capped (types_length types.now) }
{
    all_types_len(types.items.as_slice())
}

#[cycle(type_len)]
#[tactic(auto, using(crate::proofs::Drops::types_length_drop, fol::proofs::Smaller::type_smaller))]
fn all_types_len(types: &[TypeTerm]) -> u64
    ensures { result ≡ capped (types_length (types_of types.now)) }
{
    let mut total = 0;
    for one in types {
        total = sum(total, type_len(one));
    }
    total
}

fn constant_len(constant: Constant) -> u64
    ensures { result ≡ constant_length constant }
{
    match constant {
        Constant::Num(_) | Constant::Wide(_) => 17,
        _ => 1,
    }
}

fn binary_len(operator: Binary) -> u64
    ensures { result ≡ binary_length operator }
{
    match operator {
        Binary::Shl(_) | Binary::Shr(_) => 2,
        _ => 1,
    }
}

/// The number of bytes of the term.
#[cycle(len)]
pub fn term_len(term: &Term) -> u64
    ensures { result ≡ capped (term_length term.now) }
{
    match &term.node {
        TermNode::Var(_) => 5,
        TermNode::Constant(constant) => constant_len(*constant),
        TermNode::Unary(_, a) => sum(1, term_len(a)),
        TermNode::Binary(operator, a, b) => {
            sum(binary_len(*operator), sum(term_len(a), term_len(b)))
        }
        TermNode::Ternary(_, a, b, c) => { sum(1, sum(term_len(a), sum(term_len(b), term_len(c)))) }
        TermNode::Pack(of, ts) => sum(5, sum(type_len(of), terms_len(ts.as_slice()))),
        TermNode::Field(of, _, a) => sum(5, sum(type_len(of), term_len(a))),
        TermNode::SetField(of, _, a, b) => {
            sum(5, sum(type_len(of), sum(term_len(a), term_len(b))))
        }
        TermNode::If(p, a, b) => sum(1, sum(formula_len(p), sum(term_len(a), term_len(b)))),
    }
}

#[cycle(len)]
#[tactic(auto, using(crate::proofs::Drops::terms_length_drop, fol::proofs::Smaller::term_smaller))]
fn terms_len(terms: &[Term]) -> u64
    ensures { result ≡ capped (terms_length (terms_of terms.now)) }
{
    let mut total = 0;
    for term in terms {
        total = sum(total, term_len(term));
    }
    total
}

#[cycle(len)]
fn trigger_len(trigger: &Trigger) -> u64
    ensures { result ≡ capped (4 + terms_length trigger.now) }
{
    sum(4, terms_len(trigger.terms.as_slice()))
}

#[cycle(len)]
#[tactic(auto, using(crate::proofs::Drops::triggers_length_drop, fol::proofs::Smaller::trigger_smaller))]
fn triggers_len(triggers: &[Trigger]) -> u64
    ensures { result ≡ capped (triggers_length (triggers_of triggers.now)) }
{
    let mut total = 0;
    for trigger in triggers {
        total = sum(total, trigger_len(trigger));
    }
    total
}

/// The number of bytes of the formula.
#[cycle(len)]
pub fn formula_len(formula: &Formula) -> u64
    ensures { result ≡ capped (formula_length formula.now) }
{
    match &formula.node {
        FormulaNode::Compare(_, a, b) => sum(1, sum(term_len(a), term_len(b))),
        FormulaNode::Is(of, a) => sum(1, sum(type_len(of), term_len(a))),
        FormulaNode::Holds(a) => sum(1, term_len(a)),
        FormulaNode::Not(p) => sum(1, formula_len(p)),
        FormulaNode::Join(_, ps) => sum(5, formulas_len(ps.as_slice())),
        FormulaNode::Connect(_, p, q) => sum(1, sum(formula_len(p), formula_len(q))),
        FormulaNode::Quantify(_, _, triggers, p) => {
            sum(9, sum(triggers_len(triggers.as_slice()), formula_len(p)))
        }
    }
}

/// The number of bytes of the formulas, without the count of the formulas that precedes them.
#[cycle(len)]
#[tactic(auto, using(crate::proofs::Drops::formulas_length_drop, fol::proofs::Smaller::formula_smaller))]
pub fn formulas_len(formulas: &[Formula]) -> u64
    ensures { result ≡ capped (formulas_length (formulas_of formulas.now)) }
{
    let mut total = 0;
    for formula in formulas {
        total = sum(total, formula_len(formula));
    }
    total
}
