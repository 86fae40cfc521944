//! A certificate of more than 100,000 moves.

use axioms::axiom::{Axiom, Fact};
use base::types::{TypeNode, TypeTerm};
use certificates::bytes::cert_len::cert_len;
use certificates::certificate::{Cause, Cert, Close, Move, MoveNode, Step, StepNode};
use certificates::checker::check;
use fol::formula::{Formula, Term};
use fol::shapes::Shapes;
use std::alloc::Global;
use std::panic::Expect;
use std::process::Abort;
use std::test::Fail;

fn seven(rt: &impl Abort, alloc: Global) -> Formula {
    let kind = TypeTerm {
        node: TypeNode::Num,
    };
    Formula::has_type(kind, Box::new(alloc, Term::number(7)).expect(rt, "memory"))
}

fn add(rt: &impl Abort, moves: &mut Vec<Move>, node: MoveNode) {
    moves.push(Move { node }).expect(rt, "memory");
}

// So many steps that say that 7 is a whole number, and then a clash with the first entry.
fn add_branch(rt: &impl Abort, alloc: Global, moves: &mut Vec<Move>, count: u32) {
    for _ in 0..count {
        let node = StepNode::Axiom(Axiom::Plain(Fact::Whole), seven(rt, alloc));
        add(rt, moves, MoveNode::Straight(Step { node }));
    }
    let clash = Close::Clash(count, 0);
    add(rt, moves, MoveNode::Closed(clash));
}

// A cut on whether 7 is a whole number.
fn add_cut(rt: &impl Abort, alloc: Global, moves: &mut Vec<Move>) {
    let mut cases = Vec::new(alloc);
    cases.push(seven(rt, alloc)).expect(rt, "memory");
    let denied = Formula::not(Box::new(alloc, seven(rt, alloc)).expect(rt, "memory"));
    cases.push(denied).expect(rt, "memory");
    add(rt, moves, MoveNode::Forked(Cause::Cut, cases));
}

// Cuts one after another, of which each has this many steps in its first case.
fn long(rt: &impl Abort, alloc: Global, cuts: u32, count: u32) -> Cert {
    let mut moves = Vec::new(alloc);
    for _ in 0..cuts {
        add_cut(rt, alloc, &mut moves);
        add_branch(rt, alloc, &mut moves, count);
    }
    add_branch(rt, alloc, &mut moves, count);
    Cert { moves }
}

#[test]
fn long_certificates_are_read(rt: HostRuntime) -> Result<(), Fail> {
    let alloc = rt.alloc();
    let formula = seven(&rt, alloc);
    for (cuts, count, accepted) in [(26, 3_900, true), (200, 3_900, false)] {
        let cert = long(&rt, alloc, cuts, count);
        assert_eq!(rt;
            check(&Shapes::new(alloc), &formula, &cert),
            accepted,
            "{cuts} {count}"
        );
        assert!(rt; cert_len(&cert) > u64::from(cuts) * u64::from(count) * 24);
    }
    Ok(())
}
