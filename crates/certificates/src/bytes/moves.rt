//! The bytes that each move adds to the encoding of its certificate.

ghost use Rattle.std.specs.Prelude.{◌≡◌};
ghost use Rattle.certificates.specs.CertView.{close_of_node};
ghost use Rattle.certificates.specs.Lengths.{capped, step_length, first_length, compared_length, bound_length, fork_length, close_length, move_length, moves_length};

use crate::bytes::lengths::{formula_len, formulas_len, sum, term_len};
use crate::certificate::{Cause, Close, Move, MoveNode, Step, StepNode};
use fol::formula::{Formula, FormulaNode};

/// The sum of the bytes that the moves add.
#[tactic(auto, using(crate::proofs::Drops::moves_length_drop))]
pub fn moves_len(moves: &[Move]) -> u64
    ensures { result ≡ capped (moves_length moves.now) }
{
    let mut total = 0;
    for made in moves {
        total = sum(total, move_len(made));
    }
    total
}

fn move_len(made: &Move) -> u64
    ensures { result ≡ capped (move_length made.now) }
{
    match &made.node {
        MoveNode::Straight(step) => step_len(step),
        MoveNode::Forked(cause, cases) => fork_len(*cause, cases.as_slice()),
        MoveNode::Closed(by) => close_len(by),
    }
}

fn step_len(step: &Step) -> u64
    ensures { result ≡ capped (step_length step.now) }
{
    match &step.node {
        StepNode::Parts(_, formulas) => sum(9, formulas_len(formulas.as_slice())),
        StepNode::Axiom(_, formula) => sum(5, formula_len(formula)),
        StepNode::Instance(_, term, formula) => sum(5, sum(term_len(term), formula_len(formula))),
        StepNode::Name(_, _, formula) | StepNode::Rewrite(_, _, _, _, formula) => {
            sum(9, formula_len(formula))
        }
    }
}

fn fork_len(cause: Cause, cases: &[Formula]) -> u64
    ensures { result ≡ capped (fork_length cause cases.now) }
{
    match cause {
        Cause::Split(_) => sum(9, formulas_len(cases)),
        Cause::Cut => sum(1, first_len(cases)),
        Cause::Bound(_) => sum(17, bound_len(cases)),
    }
}

fn first_len(cases: &[Formula]) -> u64
    ensures { result ≡ capped (first_length cases.now) }
{
    match cases.first() {
        Some(case) => formula_len(case),
        None => 0,
    }
}

// The number of bytes of the first of the two terms that the first case compares.
fn bound_len(cases: &[Formula]) -> u64
    ensures { result ≡ capped (bound_length cases.now) }
{
    match cases.first() {
        Some(case) => compared_len(case),
        None => 0,
    }
}

fn compared_len(case: &Formula) -> u64
    ensures { result ≡ capped (compared_length case.now) }
{
    match &case.node {
        FormulaNode::Compare(_, term, _) => term_len(term),
        _ => 0,
    }
}

fn close_len(by: &Close) -> u64
    ensures { result ≡ capped (close_length (close_of_node by.now)) }
{
    match by {
        Close::Linear(multiples) => sum(5, (multiples.len() as u64).saturating_mul(20)),
        Close::Clash(_, _) => 9,
        Close::False(_) => 5,
    }
}
