//! Certificates as they may come from elsewhere: cut short, too long, too deep, or with what is not there.
//! Formulas are spelled as in the tests of the axioms.

use crate::axioms_tests::{pair_shapes, read};
use axioms::axiom::{Alternative, Axiom, Equation, Fact, StructAxiom};
use certificates::certificate::{Cause, Cert, Close, Move, MoveNode, Multiple, Step, StepNode};
use certificates::checker::check;
use fol::formula::{Formula, Term, TermNode};
use fol::operators::Unary;
use fol::shapes::Shapes;
use std::alloc::Global;
use std::panic::Expect;
use std::process::Abort;
use std::test::Fail;

fn spelled(rt: &impl Abort, alloc: Global, text: &str) -> Formula {
    read(alloc, text).expect(rt, "a formula")
}

fn all_spelled(rt: &impl Abort, alloc: Global, texts: &[&str]) -> Vec<Formula> {
    let mut formulas = Vec::new(alloc);
    for text in texts {
        formulas.push(spelled(rt, alloc, text)).expect(rt, "memory");
    }
    formulas
}

fn straight(node: StepNode) -> Move {
    Move {
        node: MoveNode::Straight(Step { node }),
    }
}

fn forked(cause: Cause, cases: Vec<Formula>) -> Move {
    Move {
        node: MoveNode::Forked(cause, cases),
    }
}

fn clash(first: u32, second: u32) -> Move {
    closed(Close::Clash(first, second))
}

fn closed(by: Close) -> Move {
    Move {
        node: MoveNode::Closed(by),
    }
}

// That 7 is a whole number, by its axiom.
fn seven(rt: &impl Abort, alloc: Global) -> Move {
    let formula = spelled(rt, alloc, "In7");
    straight(StepNode::Axiom(Axiom::Plain(Fact::Whole), formula))
}

// Whether the first moves of these certify that 7 is a whole number.
fn certify(rt: &impl Abort, alloc: Global, moves: Vec<Move>) -> bool {
    let formula = spelled(rt, alloc, "In7");
    check(&Shapes::new(alloc), &formula, &Cert { moves })
}

// The first moves of a certificate of `x = y` exactly where `x = y`, whose fork has these cases; there is one
// move too many.
fn of_equivalence(rt: &impl Abort, alloc: Global, count: usize, cases: &[&str]) -> Cert {
    let cases = all_spelled(rt, alloc, cases);
    let first = all_spelled(rt, alloc, &["=xy", "!=xy"]);
    let second = all_spelled(rt, alloc, &["!=xy", "=xy"]);
    let mut moves = Vec::new(alloc);
    moves
        .push(forked(Cause::Split(0), cases))
        .expect(rt, "memory");
    moves
        .push(straight(StepNode::Parts(1, first)))
        .expect(rt, "memory");
    moves.push(clash(2, 3)).expect(rt, "memory");
    moves
        .push(straight(StepNode::Parts(1, second)))
        .expect(rt, "memory");
    moves.push(clash(3, 2)).expect(rt, "memory");
    moves.push(clash(3, 2)).expect(rt, "memory");
    moves.truncate(count);
    Cert { moves }
}

#[test]
fn texts_are_whole(rt: HostRuntime) -> Result<(), Fail> {
    let alloc = rt.alloc();
    let formula = spelled(&rt, alloc, "~=xy=xy");
    for count in 0..7 {
        let cert = of_equivalence(&rt, alloc, count, &["Y2=xy!=xy", "Y2!=xy=xy"]);
        assert_eq!(rt;
            check(&Shapes::new(alloc), &formula, &cert),
            count == 5,
            "{count}"
        );
    }
    Ok(())
}

#[test]
fn each_case_of_an_equivalence_counts(rt: HostRuntime) -> Result<(), Fail> {
    let alloc = rt.alloc();
    let formula = spelled(&rt, alloc, "~=xy=xy");
    for count in [3, 5] {
        let cert = of_equivalence(&rt, alloc, count, &["Y2=xy!=xy"]);
        assert!(rt; !check(&Shapes::new(alloc), &formula, &cert), "{count}");
    }
    Ok(())
}

#[test]
fn entries_stand_on_the_branch(rt: HostRuntime) -> Result<(), Fail> {
    let alloc = rt.alloc();
    for (first, second, accepted) in [
        (1, 0, true),
        (0, 1, false),
        (1, 2, false),
        (2, 0, false),
        (u32::MAX, 0, false),
    ] {
        let mut moves = Vec::new(alloc);
        moves.push(seven(&rt, alloc)).expect(&rt, "memory");
        moves.push(clash(first, second)).expect(&rt, "memory");
        assert_eq!(rt; certify(&rt, alloc, moves), accepted, "{first} {second}");
    }
    Ok(())
}

#[test]
fn what_is_not_there_closes_nothing(rt: HostRuntime) -> Result<(), Fail> {
    let alloc = rt.alloc();
    for number in 0..6 {
        let mut multiples = Vec::new(alloc);
        multiples
            .push(Multiple {
                entry: 9,
                multiplier: 1,
            })
            .expect(&rt, "memory");
        let none = Vec::new(alloc);
        let of = spelled(&rt, alloc, "=xy");
        let again = spelled(&rt, alloc, "=xy");
        let made = match number {
            0 => straight(StepNode::Parts(9, none)),
            1 => forked(Cause::Split(9), none),
            2 => closed(Close::Linear(multiples)),
            3 => closed(Close::False(9)),
            4 => straight(StepNode::Instance(9, Term::variable(0), of)),
            _ => straight(StepNode::Rewrite(9, 0, 7, of, again)),
        };
        let mut moves = Vec::new(alloc);
        moves.push(made).expect(&rt, "memory");
        moves.push(seven(&rt, alloc)).expect(&rt, "memory");
        moves.push(clash(1, 0)).expect(&rt, "memory");
        assert!(rt; !certify(&rt, alloc, moves), "{number}");
    }
    Ok(())
}

// A branch that grows by this many entries, and then has a case of a cut where it is said.
fn grown(rt: &impl Abort, alloc: Global, count: usize, is_cut: bool) -> bool {
    let mut moves = Vec::new(alloc);
    for _ in 0..count {
        moves.push(seven(rt, alloc)).expect(rt, "memory");
    }
    if is_cut {
        let cases = all_spelled(rt, alloc, &["=xy", "!=xy"]);
        moves.push(forked(Cause::Cut, cases)).expect(rt, "memory");
        moves.push(clash(1, 0)).expect(rt, "memory");
    }
    moves.push(clash(1, 0)).expect(rt, "memory");
    certify(rt, alloc, moves)
}

#[test]
fn branches_have_at_most_4000_entries(rt: HostRuntime) -> Result<(), Fail> {
    for (count, is_cut, accepted) in [
        (1, false, true),
        (3_999, false, true),
        (4_000, false, false),
        (3_998, true, true),
        (3_999, true, false),
        (1_000_000, false, false),
    ] {
        assert_eq!(rt;
            grown(&rt, rt.alloc(), count, is_cut),
            accepted,
            "{count} {is_cut}"
        );
    }
    Ok(())
}

// A variable without its last item, this many times: a term that is one deeper.
fn popped(rt: &impl Abort, alloc: Global, times: usize) -> Box<Term> {
    let mut term = Box::new(alloc, Term::variable(0)).expect(rt, "memory");
    for _ in 0..times {
        let node = TermNode::Unary(Unary::Pop, term);
        term = Box::new(alloc, Term { node }).expect(rt, "memory");
    }
    term
}

#[test]
fn named_formulas_are_at_most_2000_deep(rt: HostRuntime) -> Result<(), Fail> {
    let alloc = rt.alloc();
    for (times, accepted) in [(1_998, true), (1_999, false), (3_000, false)] {
        let same = Formula::equal(popped(&rt, alloc, times), popped(&rt, alloc, times));
        let mut moves = Vec::new(alloc);
        moves
            .push(straight(StepNode::Axiom(Axiom::Equal(Equation::Itself), same)))
            .expect(&rt, "memory");
        moves.push(seven(&rt, alloc)).expect(&rt, "memory");
        moves.push(clash(2, 0)).expect(&rt, "memory");
        assert_eq!(rt; certify(&rt, alloc, moves), accepted, "{times}");
    }
    Ok(())
}

// A cut on a formula that is 2,000 deep names no more than that, though its second case is deeper.
#[test]
fn cuts_name_one_formula(rt: HostRuntime) -> Result<(), Fail> {
    let alloc = rt.alloc();
    for (times, accepted) in [(1_998, true), (1_999, false)] {
        let holds = Formula::holds(popped(&rt, alloc, times));
        let again = Formula::holds(popped(&rt, alloc, times));
        let mut cases = Vec::new(alloc);
        cases.push(holds).expect(&rt, "memory");
        let denied = Formula::not(Box::new(alloc, again).expect(&rt, "memory"));
        cases.push(denied).expect(&rt, "memory");
        let mut moves = Vec::new(alloc);
        moves.push(seven(&rt, alloc)).expect(&rt, "memory");
        moves.push(forked(Cause::Cut, cases)).expect(&rt, "memory");
        moves.push(clash(1, 0)).expect(&rt, "memory");
        moves.push(clash(1, 0)).expect(&rt, "memory");
        assert_eq!(rt; certify(&rt, alloc, moves), accepted, "{times}");
    }
    Ok(())
}

#[test]
fn axioms_go_by_the_shapes(rt: HostRuntime) -> Result<(), Fail> {
    let alloc = rt.alloc();
    let pairs = pair_shapes(alloc).expect(&rt, "memory");
    let none = Shapes::new(alloc);
    let field = Axiom::OfStruct(StructAxiom::FieldOfPack);
    let other = Axiom::Cases(Alternative::Choice);
    for (is_shaped, name, accepted) in [
        (true, field, true),
        (false, field, false),
        (true, other, false),
    ] {
        let formula = spelled(&rt, alloc, "=.s11Ks12xyy");
        let mut moves = Vec::new(alloc);
        let same = spelled(&rt, alloc, "=.s11Ks12xyy");
        moves
            .push(straight(StepNode::Axiom(name, same)))
            .expect(&rt, "memory");
        moves.push(clash(1, 0)).expect(&rt, "memory");
        let shapes = if is_shaped { &pairs } else { &none };
        assert_eq!(rt;
            check(shapes, &formula, &Cert { moves }),
            accepted,
            "{is_shaped}"
        );
    }
    Ok(())
}
