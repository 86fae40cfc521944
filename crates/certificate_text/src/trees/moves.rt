//! The moves of a certificate for rule applications.

ghost use Rattle.std.specs.Prelude.{◌≡◌, ◌∷◌, ◌++◌, ◌<◌, length, map, OnOk, IfOk};
ghost use Rattle.certificates.specs.CertData.{StraightMove, ForkedMove};
ghost use Rattle.certificates.specs.CertView.{step_of_node, close_of_node};
ghost use Rattle.explanations.specs.Chains.{step_in};
ghost use Rattle.search.specs.Applications.{formulas_of};
ghost use Rattle.tableau.specs.Numbers.{formula_at};
ghost use Rattle.certificate_text.specs.Moves.{first_of, move_of_extension, link_move, moves_of_closing, moves_of_application, FitsExtension, FitsLink, FitsClosing, FitsApplication};

use axioms::axiom::{Axiom, Equation};
use base::memory::NoMemory;
use certificates::certificate::{Cause, Close, Move, MoveNode, Step, StepNode};
use explanations::chain::ChainStep;
use fol::formula::Formula;
use search::trees::application::{Closing, Extension, PoolApplication, Reason};
use std::alloc::Global;
use term_pool::pool::Pool;
use term_pool::reading::{read_formula, read_term};

// The move of a straight (non-branching) step.
fn straight(step: StepNode) -> Move
    ensures { result ≡ StraightMove (step_of_node step) }
{
    Move {
        node: MoveNode::Straight(Step { node: step }),
    }
}

// The formulas that the extension adds.
fn formulas(alloc: Global, pool: &Pool, extension: &Extension) -> Result<Vec<Formula>, NoMemory>
    ensures { IfOk result (λ formulas. formulas.items ≡ formulas_of pool.now extension.now) }
{
    let mut formulas = Vec::new(alloc);
    for number in extension.formulas.as_slice() {
        formulas.push(read_formula(alloc, pool, *number)?)?;
    }
    Ok(formulas)
}

// The first formula that the extension adds.
fn first(alloc: Global, pool: &Pool, extension: &Extension) -> Result<Formula, NoMemory>
    requires { 0 < length extension.now.formulas.items }
    ensures { IfOk result (λ formula. formula ≡ first_of (formulas_of pool.now extension.now)) }
{
    read_formula(alloc, pool, extension.formulas[0])
}

// The move of a fork.
fn forked(cause: Cause, cases: Vec<Formula>) -> Move
    ensures { result ≡ ForkedMove cause cases.items }
{
    Move {
        node: MoveNode::Forked(cause, cases),
    }
}

// The move of an extension.
fn move_of_extension(alloc: Global, pool: &Pool, extension: &Extension) -> Result<Move, NoMemory>
    requires { FitsExtension extension.now }
    ensures { IfOk result (λ made. made ≡ move_of_extension pool.now extension.now) }
{
    match extension.reason {
        Reason::Parts(entry) => {
            let parts = formulas(alloc, pool, extension)?;
            Ok(straight(StepNode::Parts(entry as u32, parts)))
        }
        Reason::Name(entry, variable) => {
            let formula = first(alloc, pool, extension)?;
            Ok(straight(StepNode::Name(entry, variable, formula)))
        }
        Reason::Instance(entry, number) => {
            let term = read_term(alloc, pool, number)?;
            let formula = first(alloc, pool, extension)?;
            Ok(straight(StepNode::Instance(entry as u32, term, formula)))
        }
        Reason::Axiom(name) => {
            let formula = first(alloc, pool, extension)?;
            Ok(straight(StepNode::Axiom(name, formula)))
        }
        Reason::Split(entry) => {
            let cases = formulas(alloc, pool, extension)?;
            Ok(forked(Cause::Split(entry as u32), cases))
        }
        Reason::Cut(_, _) => {
            let cases = formulas(alloc, pool, extension)?;
            Ok(forked(Cause::Cut, cases))
        }
        Reason::Bound(entry, _, _) => {
            let cases = formulas(alloc, pool, extension)?;
            Ok(forked(Cause::Bound(entry as u32), cases))
        }
    }
}

// The move of an explanation step.
fn link_move(alloc: Global, pool: &Pool, link: ChainStep) -> Result<Move, NoMemory>
    requires { FitsLink link }
    ensures { IfOk result (λ made. made ≡ link_move pool.now link) }
{
    match link {
        ChainStep::Itself(number) => {
            let formula = read_formula(alloc, pool, number)?;
            let name = Axiom::Equal(Equation::Itself);
            Ok(straight(StepNode::Axiom(name, formula)))
        }
        ChainStep::Rewritten(rewriting) => {
            let pattern = read_formula(alloc, pool, rewriting.pattern)?;
            let formula = read_formula(alloc, pool, rewriting.formula)?;
            let equation = rewriting.equation as u32;
            let source = rewriting.source as u32;
            let variable = rewriting.variable;
            Ok(straight(StepNode::Rewrite(equation, source, variable, pattern, formula)))
        }
    }
}

// Returns a copy of the closing step.
fn copy_close(alloc: Global, by: &Close) -> Result<Close, NoMemory>
    ensures { IfOk result (λ copy. close_of_node copy ≡ close_of_node by.now) }
{
    match by {
        Close::Linear(multiples) => {
            let copy = Vec::from_slice(alloc, multiples.as_slice())?;
            Ok(Close::Linear(copy))
        }
        Close::Clash(entry, denial) => Ok(Close::Clash(*entry, *denial)),
        Close::False(entry) => Ok(Close::False(*entry)),
    }
}

// Adds at the end the moves of the explanation, and the closing move.
fn add_closing(
    moves: &mut Vec<Move>,
    alloc: Global,
    pool: &Pool,
    closing: &Closing,
) -> Result<(), NoMemory>
    requires { FitsClosing closing.now }
    ensures { OnOk result (moves.new.items ≡ moves.old.items ++ moves_of_closing pool.now closing.now) }
{
    for link in closing.chain.as_slice() {
        moves.push(link_move(alloc, pool, *link)?)?;
    }
    let by = copy_close(alloc, &closing.by)?;
    moves.push(Move {
        node: MoveNode::Closed(by),
    })?;
    Ok(())
}

/// Adds at the end the moves of a rule application.
pub(crate) fn add_moves(
    moves: &mut Vec<Move>,
    alloc: Global,
    pool: &Pool,
    application: &PoolApplication,
) -> Result<(), NoMemory>
    requires { FitsApplication application.now }
    ensures { OnOk result (moves.new.items ≡ moves.old.items ++ moves_of_application pool.now application.now) }
{
    match application {
        PoolApplication::Grown(extension) => {
            let made = move_of_extension(alloc, pool, extension)?;
            moves.push(made)?;
            Ok(())
        }
        PoolApplication::Closed(closing) => add_closing(moves, alloc, pool, closing),
    }
}
