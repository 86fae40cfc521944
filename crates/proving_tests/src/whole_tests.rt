//! Parts, splits and forms that can't be true, each accepted, and refused in a form that differs in one place.

use certificates::certificate::{Cause, Cert, Close, Move, MoveNode, Step, StepNode};
use certificates::checker::check;
use fol::formula::{Formula, Term};
use fol::shapes::Shapes;
use std::alloc::Global;
use std::panic::Expect;
use std::process::Abort;
use std::test::Fail;

fn equal(rt: &impl Abort, alloc: Global, left: u32, right: u32) -> Formula {
    Formula::equal(
        Box::new(alloc, Term::variable(left)).expect(rt, "memory"),
        Box::new(alloc, Term::variable(right)).expect(rt, "memory"),
    )
}

fn holds(rt: &impl Abort, alloc: Global, value: bool) -> Formula {
    Formula::holds(Box::new(alloc, Term::truth(value)).expect(rt, "memory"))
}

fn not(rt: &impl Abort, alloc: Global, formula: Formula) -> Formula {
    Formula::not(Box::new(alloc, formula).expect(rt, "memory"))
}

// The first so many of the equations of 0 with 1 and of 0 with this variable.
fn equations(rt: &impl Abort, alloc: Global, count: usize, last: u32) -> Vec<Formula> {
    let mut formulas = Vec::new(alloc);
    formulas.push(equal(rt, alloc, 0, 1)).expect(rt, "memory");
    formulas
        .push(equal(rt, alloc, 0, last))
        .expect(rt, "memory");
    formulas.truncate(count);
    formulas
}

fn add(rt: &impl Abort, moves: &mut Vec<Move>, node: MoveNode) {
    moves.push(Move { node }).expect(rt, "memory");
}

fn add_parts(rt: &impl Abort, moves: &mut Vec<Move>, entry: u32, formulas: Vec<Formula>) {
    let node = StepNode::Parts(entry, formulas);
    add(rt, moves, MoveNode::Straight(Step { node }));
}

// An equation follows from itself, or itself. The parts of the denied implication are these, and so many
// cases follow.
fn follows(rt: &impl Abort, alloc: Global, parts: usize, cases: usize, last: u32) -> bool {
    let doubled = Formula::any_of(equations(rt, alloc, 2, 1));
    let mut either = Vec::new(alloc);
    either.push(not(rt, alloc, doubled)).expect(rt, "memory");
    either.push(equal(rt, alloc, 0, 1)).expect(rt, "memory");
    let formula = Formula::any_of(either);
    let mut shown = Vec::new(alloc);
    let doubled = Formula::any_of(equations(rt, alloc, 2, 1));
    let kept = not(rt, alloc, doubled);
    shown.push(not(rt, alloc, kept)).expect(rt, "memory");
    let denied = not(rt, alloc, equal(rt, alloc, 0, 1));
    shown.push(denied).expect(rt, "memory");
    shown.truncate(parts);
    let mut moves = Vec::new(alloc);
    add_parts(rt, &mut moves, 0, shown);
    let mut inner = Vec::new(alloc);
    inner
        .push(Formula::any_of(equations(rt, alloc, 2, 1)))
        .expect(rt, "memory");
    add_parts(rt, &mut moves, 1, inner);
    let split = equations(rt, alloc, cases, last);
    add(rt, &mut moves, MoveNode::Forked(Cause::Split(3), split));
    for _ in 0..cases {
        add(rt, &mut moves, MoveNode::Closed(Close::Clash(4, 2)));
    }
    check(&Shapes::new(alloc), &formula, &Cert { moves })
}

#[test]
fn parts_and_cases_are_all(rt: HostRuntime) -> Result<(), Fail> {
    for (parts, cases, last, accepted) in [
        (2, 2, 1, true),
        (1, 2, 1, false),
        (2, 1, 1, false),
        (2, 2, 2, false),
    ] {
        assert_eq!(rt;
            follows(&rt, rt.alloc(), parts, cases, last),
            accepted,
            "{parts} {cases} {last}"
        );
    }
    Ok(())
}

// A formula of which the negation, or what it denies, can't be true by its form where this is accepted.
fn formula_of(rt: &impl Abort, alloc: Global, number: u32) -> Formula {
    match number {
        0 => equal(rt, alloc, 0, 0),
        1 => equal(rt, alloc, 0, 1),
        2 => Formula::all_of(Vec::new(alloc)),
        3 => Formula::any_of(Vec::new(alloc)),
        4 => holds(rt, alloc, false),
        5 => holds(rt, alloc, true),
        6 => Formula::any_of(Vec::new(alloc)),
        _ => Formula::all_of(Vec::new(alloc)),
    }
}

#[test]
fn false_forms_close(rt: HostRuntime) -> Result<(), Fail> {
    let alloc = rt.alloc();
    for (number, is_denied, accepted) in [
        (0, false, true),
        (1, false, false),
        (2, false, true),
        (3, false, false),
        (4, true, true),
        (5, true, false),
        (6, true, true),
        (7, true, false),
    ] {
        let mut moves = Vec::new(alloc);
        let entry = u32::from(is_denied);
        if is_denied {
            let mut inner = Vec::new(alloc);
            inner
                .push(formula_of(&rt, alloc, number))
                .expect(&rt, "memory");
            add_parts(&rt, &mut moves, 0, inner);
        }
        add(&rt, &mut moves, MoveNode::Closed(Close::False(entry)));
        let formula = formula_of(&rt, alloc, number);
        let formula = if is_denied {
            not(&rt, alloc, formula)
        } else {
            formula
        };
        assert_eq!(rt;
            check(&Shapes::new(alloc), &formula, &Cert { moves }),
            accepted,
            "{number}"
        );
    }
    Ok(())
}
