//! Numbers that occur nowhere in a formula or a term, for the renaming of variables.

ghost use Rattle.std.specs.Prelude.{◌≡◌, ◌↔◌, ◌+◌, IfSome, IsTrue};
ghost use Rattle.fol.specs.FormulaData.{terms_of, triggers_of, formulas_of};
ghost use Rattle.substitution.specs.Blocks.{block_length, is_outside, term_clear, terms_clear, triggers_clear, formula_clear, formulas_clear, AreUnused};

use fol::formula::{Formula, FormulaNode, Term, TermNode, Trigger};

/// The length of a block: the number of consecutive unused numbers that are searched.
pub const BLOCK_LENGTH: u32 = 2_048;

/// The number of blocks of 32-bit numbers.
const BLOCKS: u32 = 2_097_152;

/// Returns the first number of a block none of whose numbers occurs in the formula or the term. It looks at powers of
/// two from 2,048 on first, so that numbers stay small, then at each block. It returns none only if it finds no such
/// block, which takes at least two million numbers that occur; no clause says when.
pub fn unused_from(formula: &Formula, term: &Term) -> Option<u32>
    ensures { IfSome result (λ low. AreUnused low (low + block_length) formula.now term.now) }
{
    match unused_power(formula, term) {
        Some(low) => Some(low),
        None => unused_block(formula, term),
    }
}

fn unused_power(formula: &Formula, term: &Term) -> Option<u32>
    ensures { IfSome result (λ low. AreUnused low (low + block_length) formula.now term.now) }
{
    let mut low = BLOCK_LENGTH;
    while !are_unused(low, formula, term) {
        low = low.checked_mul(2)?;
    }
    Some(low)
}

fn unused_block(formula: &Formula, term: &Term) -> Option<u32>
    ensures { IfSome result (λ low. AreUnused low (low + block_length) formula.now term.now) }
{
    for block in 0..BLOCKS {
        let low = block * BLOCK_LENGTH;
        if are_unused(low, formula, term) {
            return Some(low);
        }
    }
    None
}

fn are_unused(low: u32, formula: &Formula, term: &Term) -> bool
    ensures { IsTrue result ↔ AreUnused low (low + block_length) formula.now term.now }
{
    is_clear(low, formula) && is_term_clear(low, term)
}

// Decides whether the number is outside the block.
fn is_outside(low: u32, number: u32) -> bool
    ensures { result ≡ is_outside low (low + block_length) number }
{
    number < low || number - low >= BLOCK_LENGTH
}

// Decides whether no number of the block occurs in the term.
#[cycle(clear)]
fn is_term_clear(low: u32, term: &Term) -> bool
    ensures { result ≡ term_clear low (low + block_length) term.now }
{
    match &term.node {
        TermNode::Var(number) => is_outside(low, *number),
        TermNode::Constant(_) => true,
        TermNode::Unary(_, a) | TermNode::Field(_, _, a) => is_term_clear(low, a),
        TermNode::Binary(_, a, b) | TermNode::SetField(_, _, a, b) => {
            is_term_clear(low, a) && is_term_clear(low, b)
        }
        TermNode::Ternary(_, a, b, c) => {
            is_term_clear(low, a) && is_term_clear(low, b) && is_term_clear(low, c)
        }
        TermNode::Pack(_, ts) => are_terms_clear(low, ts.as_slice()),
        TermNode::If(p, a, b) => {
            is_clear(low, p) && is_term_clear(low, a) && is_term_clear(low, b)
        }
    }
}

#[cycle(clear)]
#[tactic(auto, using(crate::proofs::Drops::terms_clear_drop, fol::proofs::Smaller::term_smaller))]
fn are_terms_clear(low: u32, terms: &[Term]) -> bool
    ensures { result ≡ terms_clear low (low + block_length) (terms_of terms.now) }
{
    for term in terms {
        if !is_term_clear(low, term) {
            return false;
        }
    }
    true
}

#[cycle(clear)]
fn is_trigger_clear(low: u32, trigger: &Trigger) -> bool
    ensures { result ≡ terms_clear low (low + block_length) trigger.now }
{
    are_terms_clear(low, trigger.terms.as_slice())
}

#[cycle(clear)]
#[tactic(auto, using(crate::proofs::Drops::triggers_clear_drop, fol::proofs::Smaller::trigger_smaller))]
fn are_triggers_clear(low: u32, triggers: &[Trigger]) -> bool
    ensures { result ≡ triggers_clear low (low + block_length) (triggers_of triggers.now) }
{
    for trigger in triggers {
        if !is_trigger_clear(low, trigger) {
            return false;
        }
    }
    true
}

// Decides whether no number of the block occurs in the formula, free or bound.
#[cycle(clear)]
fn is_clear(low: u32, formula: &Formula) -> bool
    ensures { result ≡ formula_clear low (low + block_length) formula.now }
{
    match &formula.node {
        FormulaNode::Compare(_, a, b) => is_term_clear(low, a) && is_term_clear(low, b),
        FormulaNode::Is(_, a) | FormulaNode::Holds(a) => is_term_clear(low, a),
        FormulaNode::Not(p) => is_clear(low, p),
        FormulaNode::Join(_, ps) => are_clear(low, ps.as_slice()),
        FormulaNode::Connect(_, p, q) => is_clear(low, p) && is_clear(low, q),
        FormulaNode::Quantify(_, bound, triggers, p) => {
            is_outside(low, *bound)
                && are_triggers_clear(low, triggers.as_slice())
                && is_clear(low, p)
        }
    }
}

#[cycle(clear)]
#[tactic(auto, using(crate::proofs::Drops::formulas_clear_drop, fol::proofs::Smaller::formula_smaller))]
fn are_clear(low: u32, formulas: &[Formula]) -> bool
    ensures { result ≡ formulas_clear low (low + block_length) (formulas_of formulas.now) }
{
    for formula in formulas {
        if !is_clear(low, formula) {
            return false;
        }
    }
    true
}
