//! Lengths counted by hand.

use axioms::axiom::{Axiom, Fact};
use base::types::{TypeNode, TypeTerm};
use certificates::bytes::cert_len::{cert_len, formula_len};
use certificates::certificate::{Cause, Cert, Close, Move, MoveNode, Multiple, Step, StepNode};
use fol::formula::{Formula, Term};
use std::alloc::Global;
use std::panic::Expect;
use std::process::Abort;
use std::test::Fail;

// The number is at most the variable.
fn least(rt: &impl Abort, alloc: Global, number: i128, variable: u32) -> Formula {
    Formula::at_most(
        Box::new(alloc, Term::number(number)).expect(rt, "memory"),
        Box::new(alloc, Term::variable(variable)).expect(rt, "memory"),
    )
}

// The variable is at most the number.
fn most(rt: &impl Abort, alloc: Global, variable: u32, number: i128) -> Formula {
    Formula::at_most(
        Box::new(alloc, Term::variable(variable)).expect(rt, "memory"),
        Box::new(alloc, Term::number(number)).expect(rt, "memory"),
    )
}

fn whole(rt: &impl Abort, alloc: Global, number: i128) -> Formula {
    let kind = TypeTerm {
        node: TypeNode::Num,
    };
    Formula::has_type(
        kind,
        Box::new(alloc, Term::number(number)).expect(rt, "memory"),
    )
}

#[test]
fn formulas_have_lengths(rt: HostRuntime) -> Result<(), Fail> {
    let alloc = rt.alloc();
    // A byte for `at most`, 17 for the numeral, 5 for the variable.
    assert_eq!(rt; formula_len(&least(&rt, alloc, 0, 5)), 23);
    // A byte for `has type`, one for the type, 17 for the numeral.
    assert_eq!(rt; formula_len(&whole(&rt, alloc, 7)), 19);
    Ok(())
}

// The certificate of these moves.
fn of_moves<const COUNT: usize>(rt: &impl Abort, alloc: Global, nodes: [MoveNode; COUNT]) -> Cert {
    let mut moves = Vec::new(alloc);
    for node in Vec::from_array(alloc, nodes).expect(rt, "memory") {
        moves.push(Move { node }).expect(rt, "memory");
    }
    Cert { moves }
}

#[test]
fn certificates_have_lengths(rt: HostRuntime) -> Result<(), Fail> {
    let alloc = rt.alloc();
    let axiom = Step {
        node: StepNode::Axiom(Axiom::Plain(Fact::Whole), whole(&rt, alloc, 7)),
    };
    let straight = of_moves(
        &rt,
        alloc,
        [
            MoveNode::Straight(axiom),
            MoveNode::Closed(Close::Clash(1, 0)),
        ],
    );
    // The format; the tag, the axiom's number, the formula; the tag and two entries.
    assert_eq!(rt; cert_len(&straight), 1 + (1 + 4 + 19) + 9);
    let mut cases = Vec::new(alloc);
    cases.push(most(&rt, alloc, 0, 3)).expect(&rt, "memory");
    cases.push(least(&rt, alloc, 4, 0)).expect(&rt, "memory");
    let mut multiples = Vec::new(alloc);
    multiples
        .push(Multiple {
            entry: 1,
            multiplier: 2,
        })
        .expect(&rt, "memory");
    let forked = of_moves(
        &rt,
        alloc,
        [
            MoveNode::Forked(Cause::Bound(0), cases),
            MoveNode::Closed(Close::Linear(multiples)),
            MoveNode::Closed(Close::False(1)),
        ],
    );
    // The format; the tag, the term and the number; the tag, the count and an entry with its multiplier;
    // the tag and an entry.
    assert_eq!(rt; cert_len(&forked), 1 + (1 + 5 + 16) + (1 + 4 + 20) + 5);
    Ok(())
}
