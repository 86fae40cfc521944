//! The forms whose parts or cases a step adds: each is accepted, and refused where one of the formulas is left
//! out, and where one is another.

use certificates::certificate::{Cause, Cert, Close, Move, MoveNode, Step, StepNode};
use certificates::checker::check;
use fol::formula::{Formula, FormulaNode, Term};
use fol::operators::Connective;
use fol::shapes::Shapes;
use std::alloc::Global;
use std::panic::Expect;
use std::process::Abort;
use std::test::Fail;

// That 0 equals the variable, or that it does not.
fn equal(rt: &impl Abort, alloc: Global, variable: u32, is_true: bool) -> Formula {
    let equal = Formula::equal(
        Box::new(alloc, Term::variable(0)).expect(rt, "memory"),
        Box::new(alloc, Term::variable(variable)).expect(rt, "memory"),
    );
    if is_true {
        equal
    } else {
        not(rt, alloc, equal)
    }
}

fn not(rt: &impl Abort, alloc: Global, formula: Formula) -> Formula {
    Formula::not(Box::new(alloc, formula).expect(rt, "memory"))
}

fn pair(rt: &impl Abort, alloc: Global, first: bool, second: bool) -> Vec<Formula> {
    let mut both = Vec::new(alloc);
    both.push(equal(rt, alloc, 1, first)).expect(rt, "memory");
    both.push(equal(rt, alloc, 2, second)).expect(rt, "memory");
    both
}

fn connected(rt: &impl Abort, alloc: Global, connective: Connective) -> Formula {
    let left = Box::new(alloc, equal(rt, alloc, 1, true)).expect(rt, "memory");
    let right = Box::new(alloc, equal(rt, alloc, 2, true)).expect(rt, "memory");
    Formula {
        node: FormulaNode::Connect(connective, left, right),
    }
}

// The forms, the first four with parts, the others with cases.
fn formula_of(rt: &impl Abort, alloc: Global, form: u32) -> Formula {
    match form {
        0 => Formula::all_of(pair(rt, alloc, true, true)),
        1 => not(rt, alloc, Formula::any_of(pair(rt, alloc, true, true))),
        2 => not(rt, alloc, connected(rt, alloc, Connective::Implies)),
        3 => not(rt, alloc, equal(rt, alloc, 1, false)),
        4 => Formula::any_of(pair(rt, alloc, true, true)),
        5 => connected(rt, alloc, Connective::Implies),
        6 => not(rt, alloc, Formula::all_of(pair(rt, alloc, true, true))),
        7 => connected(rt, alloc, Connective::Iff),
        _ => not(rt, alloc, connected(rt, alloc, Connective::Iff)),
    }
}

// The parts or cases of the form.
fn formulas_of(rt: &impl Abort, alloc: Global, form: u32) -> Vec<Formula> {
    let first = matches!(form, 0 | 2 | 3 | 4 | 7 | 8);
    let second = matches!(form, 0 | 4 | 5 | 7);
    let mut formulas = pair(rt, alloc, first, second);
    if form == 3 {
        formulas.truncate(1);
    }
    if form >= 7 {
        let both = Formula::all_of(formulas);
        formulas = Vec::new(alloc);
        formulas.push(both).expect(rt, "memory");
        let other = Formula::all_of(pair(rt, alloc, !first, !second));
        formulas.push(other).expect(rt, "memory");
    }
    formulas
}

fn add(rt: &impl Abort, moves: &mut Vec<Move>, node: MoveNode) {
    moves.push(Move { node }).expect(rt, "memory");
}

// Whether a step that adds these formulas is allowed where the form is an entry. Each branch is closed by the
// first entry, that 0 is not equal to itself.
fn is_step(rt: &impl Abort, alloc: Global, form: u32, formulas: Vec<Formula>) -> bool {
    let mut cut = Vec::new(alloc);
    cut.push(formula_of(rt, alloc, form)).expect(rt, "memory");
    let denied = not(rt, alloc, formula_of(rt, alloc, form));
    cut.push(denied).expect(rt, "memory");
    let mut moves = Vec::new(alloc);
    add(rt, &mut moves, MoveNode::Forked(Cause::Cut, cut));
    let mut branches = 2;
    if form < 4 {
        let node = StepNode::Parts(1, formulas);
        add(rt, &mut moves, MoveNode::Straight(Step { node }));
    } else {
        branches = formulas.len().saturating_add(1);
        add(rt, &mut moves, MoveNode::Forked(Cause::Split(1), formulas));
    }
    for _ in 0..branches {
        add(rt, &mut moves, MoveNode::Closed(Close::False(0)));
    }
    let itself = Formula::equal(
        Box::new(alloc, Term::variable(0)).expect(rt, "memory"),
        Box::new(alloc, Term::variable(0)).expect(rt, "memory"),
    );
    check(&Shapes::new(alloc), &itself, &Cert { moves })
}

#[test]
fn each_form_has_its_own_parts_or_cases(rt: HostRuntime) -> Result<(), Fail> {
    let alloc = rt.alloc();
    for form in 0..9 {
        let whole = formulas_of(&rt, alloc, form);
        let mut short = formulas_of(&rt, alloc, form);
        drop(short.pop());
        let mut other = formulas_of(&rt, alloc, form);
        drop(other.pop());
        other.push(equal(&rt, alloc, 3, true)).expect(&rt, "memory");
        assert!(rt; is_step(&rt, alloc, form, whole), "{form}");
        assert!(rt; !is_step(&rt, alloc, form, short), "{form}, one left out");
        assert!(rt; !is_step(&rt, alloc, form, other), "{form}, another one");
    }
    Ok(())
}
