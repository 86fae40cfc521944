//! Certificates worked out by hand, and what becomes of them when they are spoilt.

use axioms::axiom::{Axiom, Fact};
use base::types::{TypeNode, TypeTerm};
use certificates::certificate::{Cert, Close, Move, MoveNode, Multiple, Step, StepNode};
use certificates::checker::check;
use fol::formula::{Formula, FormulaNode, Term, TermNode};
use fol::operators::{Comparison, Connective, Constant};
use fol::shapes::Shapes;
use std::alloc::Global;
use std::panic::Expect;
use std::process::Abort;
use std::test::Fail;

fn variable(number: u32) -> Term {
    Term {
        node: TermNode::Var(number),
    }
}

fn numeral(number: i128) -> Term {
    Term {
        node: TermNode::Constant(Constant::Num(number)),
    }
}

fn at_most(rt: &impl Abort, alloc: Global, left: Term, right: Term) -> Formula {
    Formula {
        node: FormulaNode::Compare(
            Comparison::Le,
            Box::new(alloc, left).expect(rt, "memory"),
            Box::new(alloc, right).expect(rt, "memory"),
        ),
    }
}

// x at most 1 where x is at most 0.
fn weaker_bound(rt: &impl Abort, alloc: Global) -> Formula {
    Formula {
        node: FormulaNode::Connect(
            Connective::Implies,
            Box::new(alloc, at_most(rt, alloc, variable(0), numeral(0))).expect(rt, "memory"),
            Box::new(alloc, at_most(rt, alloc, variable(0), numeral(1))).expect(rt, "memory"),
        ),
    }
}

fn straight(node: StepNode) -> Move {
    Move {
        node: MoveNode::Straight(Step { node }),
    }
}

fn closed(by: Close) -> Move {
    Move {
        node: MoveNode::Closed(by),
    }
}

// The parts of its negation, and then their sum with these multipliers.
fn by_rows(rt: &impl Abort, alloc: Global, first: i128, second: i128) -> Cert {
    let mut parts = Vec::new(alloc);
    parts
        .push(at_most(rt, alloc, variable(0), numeral(0)))
        .expect(rt, "memory");
    parts
        .push(Formula {
            node: FormulaNode::Not(Box::new(
                alloc,
                at_most(rt, alloc, variable(0), numeral(1)),
            ).expect(rt, "memory")),
        })
        .expect(rt, "memory");
    let mut moves = Vec::new(alloc);
    moves
        .push(straight(StepNode::Parts(0, parts)))
        .expect(rt, "memory");
    let mut multiples = Vec::new(alloc);
    multiples
        .push(Multiple {
            entry: 1,
            multiplier: first,
        })
        .expect(rt, "memory");
    multiples
        .push(Multiple {
            entry: 2,
            multiplier: second,
        })
        .expect(rt, "memory");
    moves
        .push(closed(Close::Linear(multiples)))
        .expect(rt, "memory");
    Cert { moves }
}

#[test]
fn multipliers_decide(rt: HostRuntime) -> Result<(), Fail> {
    let shapes = Shapes::new(rt.alloc());
    let formula = weaker_bound(&rt, rt.alloc());
    for (first, second, accepted) in [(1, 1, true), (2, 1, false), (-1, -1, false), (0, 0, false)] {
        let cert = by_rows(&rt, rt.alloc(), first, second);
        assert_eq!(rt;
            check(&shapes, &formula, &cert),
            accepted,
            "{first} {second}"
        );
    }
    Ok(())
}

#[test]
fn numerals_are_whole(rt: HostRuntime) -> Result<(), Fail> {
    let shapes = Shapes::new(rt.alloc());
    for (number, accepted) in [(7, true), (8, false)] {
        let formula = whole(&rt, rt.alloc(), numeral(7));
        let mut moves = Vec::new(rt.alloc());
        moves
            .push(straight(StepNode::Axiom(
                Axiom::Plain(Fact::Whole),
                whole(&rt, rt.alloc(), numeral(number)),
            )))
            .expect(&rt, "memory");
        moves.push(closed(Close::Clash(1, 0))).expect(&rt, "memory");
        let cert = Cert { moves };
        assert_eq!(rt; check(&shapes, &formula, &cert), accepted, "{number}");
    }
    Ok(())
}

fn whole(rt: &impl Abort, alloc: Global, term: Term) -> Formula {
    Formula {
        node: FormulaNode::Is(
            TypeTerm {
                node: TypeNode::Num,
            },
            Box::new(alloc, term).expect(rt, "memory"),
        ),
    }
}
