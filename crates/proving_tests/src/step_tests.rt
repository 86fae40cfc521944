//! Steps of certificates, each accepted, and refused in a form that differs in one place.

use base::types::{TypeNode, TypeTerm, Width};
use certificates::certificate::{Cause, Cert, Close, Move, MoveNode, Step, StepNode};
use certificates::checker::check;
use fol::formula::{Formula, Term};
use fol::shapes::Shapes;
use std::alloc::Global;
use std::panic::Expect;
use std::process::Abort;
use std::test::Fail;

// The first variable is at most the second.
fn at_most(rt: &impl Abort, alloc: Global, left: u32, right: u32) -> Formula {
    Formula::at_most(
        Box::new(alloc, Term::variable(left)).expect(rt, "memory"),
        Box::new(alloc, Term::variable(right)).expect(rt, "memory"),
    )
}

// The variable is at most the number, and at least.
fn most(rt: &impl Abort, alloc: Global, variable: u32, number: i128) -> Formula {
    Formula::at_most(
        Box::new(alloc, Term::variable(variable)).expect(rt, "memory"),
        Box::new(alloc, Term::number(number)).expect(rt, "memory"),
    )
}

fn least(rt: &impl Abort, alloc: Global, number: i128, variable: u32) -> Formula {
    Formula::at_most(
        Box::new(alloc, Term::number(number)).expect(rt, "memory"),
        Box::new(alloc, Term::variable(variable)).expect(rt, "memory"),
    )
}

fn not(rt: &impl Abort, alloc: Global, formula: Formula) -> Formula {
    Formula::not(Box::new(alloc, formula).expect(rt, "memory"))
}

fn for_all(rt: &impl Abort, alloc: Global, bound: u32, body: Formula) -> Formula {
    Formula::for_all(
        bound,
        Vec::new(alloc),
        Box::new(alloc, body).expect(rt, "memory"),
    )
}

fn exists(rt: &impl Abort, alloc: Global, bound: u32, body: Formula) -> Formula {
    Formula::exists(
        bound,
        Vec::new(alloc),
        Box::new(alloc, body).expect(rt, "memory"),
    )
}

fn copy(rt: &impl Abort, alloc: Global, formula: &Formula) -> Formula {
    formula.try_clone(alloc).expect(rt, "memory")
}

fn two(rt: &impl Abort, alloc: Global, left: Formula, right: Formula) -> Vec<Formula> {
    let mut both = Vec::new(alloc);
    both.push(left).expect(rt, "memory");
    both.push(right).expect(rt, "memory");
    both
}

fn parts(entry: u32, formulas: Vec<Formula>) -> Move {
    straight(StepNode::Parts(entry, formulas))
}

fn straight(node: StepNode) -> Move {
    Move {
        node: MoveNode::Straight(Step { node }),
    }
}

fn forked(cause: Cause, cases: Vec<Formula>) -> Move {
    Move {
        node: MoveNode::Forked(cause, cases),
    }
}

fn clash(first: u32, second: u32) -> Move {
    Move {
        node: MoveNode::Closed(Close::Clash(first, second)),
    }
}

// Whether these moves certify that the first formula implies the second. They begin with entries 2, that the
// second does not hold, and 3, that the first does.
fn certifies(
    rt: &impl Abort,
    alloc: Global,
    from: &Formula,
    to: &Formula,
    more: Vec<Move>,
) -> bool {
    let formula = Formula::any_of(two(
        rt,
        alloc,
        not(rt, alloc, copy(rt, alloc, from)),
        copy(rt, alloc, to),
    ));
    let mut moves = Vec::new(alloc);
    let doubled = not(rt, alloc, not(rt, alloc, copy(rt, alloc, from)));
    let denied = not(rt, alloc, copy(rt, alloc, to));
    moves
        .push(parts(0, two(rt, alloc, doubled, denied)))
        .expect(rt, "memory");
    let mut holds = Vec::new(alloc);
    holds.push(copy(rt, alloc, from)).expect(rt, "memory");
    moves.push(parts(1, holds)).expect(rt, "memory");
    for made in more {
        moves.push(made).expect(rt, "memory");
    }
    check(&Shapes::new(alloc), &formula, &Cert { moves })
}

// For all values of 0 some value of 1 is at least it.
#[test]
fn instances_of_entries(rt: HostRuntime) -> Result<(), Fail> {
    let a = rt.alloc();
    let all = for_all(&rt, a, 0, exists(&rt, a, 1, at_most(&rt, a, 0, 1)));
    for (entry, put, bound, left, right, accepted) in [
        (3, 2, 1, 2, 1, true),
        (3, 1, 2, 1, 2, true),
        (3, 1, 1, 1, 1, false),
        (3, 2, 1, 0, 1, false),
        (2, 2, 1, 2, 1, false),
        (9, 2, 1, 2, 1, false),
    ] {
        let shown = exists(&rt, a, bound, at_most(&rt, a, left, right));
        let mut moves = Vec::new(a);
        let instance = StepNode::Instance(entry, Term::variable(put), copy(&rt, a, &shown));
        moves.push(straight(instance)).expect(&rt, "memory");
        moves.push(clash(4, 2)).expect(&rt, "memory");
        assert_eq!(rt;
            certifies(&rt, a, &all, &shown, moves),
            accepted,
            "{entry} {put} {bound} {left} {right}"
        );
    }
    Ok(())
}

// Some value of 0 is at most 1: so some value of 2 is.
#[test]
fn names_are_new(rt: HostRuntime) -> Result<(), Fail> {
    let a = rt.alloc();
    let some = exists(&rt, a, 0, at_most(&rt, a, 0, 1));
    let shown = exists(&rt, a, 2, at_most(&rt, a, 2, 1));
    for (entry, variable, accepted) in [(3, 7, true), (3, 0, true), (3, 1, false), (2, 7, false)] {
        let mut moves = Vec::new(a);
        let name = StepNode::Name(entry, variable, at_most(&rt, a, variable, 1));
        moves.push(straight(name)).expect(&rt, "memory");
        let denied = not(&rt, a, at_most(&rt, a, variable, 1));
        let instance = StepNode::Instance(2, Term::variable(variable), denied);
        moves.push(straight(instance)).expect(&rt, "memory");
        moves.push(clash(4, 5)).expect(&rt, "memory");
        assert_eq!(rt;
            certifies(&rt, a, &some, &shown, moves),
            accepted,
            "{entry} {variable}"
        );
    }
    Ok(())
}

// A formula that is its own consequence, by cases of it and of its negation.
#[test]
fn cuts_are_of_a_formula_and_its_negation(rt: HostRuntime) -> Result<(), Fail> {
    let a = rt.alloc();
    let same = at_most(&rt, a, 0, 1);
    for (right, accepted) in [(1, true), (2, false)] {
        let cases = two(
            &rt,
            a,
            at_most(&rt, a, 0, 1),
            not(&rt, a, at_most(&rt, a, 0, right)),
        );
        let mut moves = Vec::new(a);
        moves.push(forked(Cause::Cut, cases)).expect(&rt, "memory");
        moves.push(clash(4, 2)).expect(&rt, "memory");
        moves.push(clash(3, 4)).expect(&rt, "memory");
        assert_eq!(rt; certifies(&rt, a, &same, &same, moves), accepted, "{right}");
    }
    Ok(())
}

// A whole number is at most 3 or at least 4.
#[test]
fn bounds_are_of_whole_numbers(rt: HostRuntime) -> Result<(), Fail> {
    let a = rt.alloc();
    for (is_number, next, accepted) in [(true, 4, true), (true, 5, false), (false, 4, false)] {
        let kind = TypeTerm {
            node: if is_number {
                TypeNode::Num
            } else {
                TypeNode::Int(Width::U64)
            },
        };
        let whole = Formula::has_type(kind, Box::new(a, Term::variable(0)).expect(&rt, "memory"));
        let shown = Formula::any_of(two(&rt, a, most(&rt, a, 0, 3), least(&rt, a, next, 0)));
        let mut moves = Vec::new(a);
        let neither = two(
            &rt,
            a,
            not(&rt, a, most(&rt, a, 0, 3)),
            not(&rt, a, least(&rt, a, next, 0)),
        );
        moves.push(parts(2, neither)).expect(&rt, "memory");
        let cases = two(&rt, a, most(&rt, a, 0, 3), least(&rt, a, next, 0));
        moves
            .push(forked(Cause::Bound(3), cases))
            .expect(&rt, "memory");
        moves.push(clash(6, 4)).expect(&rt, "memory");
        moves.push(clash(6, 5)).expect(&rt, "memory");
        assert_eq!(rt;
            certifies(&rt, a, &whole, &shown, moves),
            accepted,
            "{is_number} {next}"
        );
    }
    Ok(())
}

// Where 0 is equal to 1, what holds of 0 holds of 1, unless 1 is bound there.
#[test]
fn rewrites_capture_nothing(rt: HostRuntime) -> Result<(), Fail> {
    let a = rt.alloc();
    for (equation, bound, put, accepted) in [
        (4, 3, 9, true),
        (4, 1, 9, false),
        (5, 3, 9, false),
        (4, 3, 8, false),
    ] {
        let equal = Formula::equal(
            Box::new(a, Term::variable(0)).expect(&rt, "memory"),
            Box::new(a, Term::variable(1)).expect(&rt, "memory"),
        );
        let holds = for_all(&rt, a, bound, at_most(&rt, a, 0, bound));
        let shown = for_all(&rt, a, bound, at_most(&rt, a, 1, bound));
        let both = Formula::all_of(two(&rt, a, copy(&rt, a, &equal), copy(&rt, a, &holds)));
        let mut moves = Vec::new(a);
        moves
            .push(parts(3, two(&rt, a, equal, holds)))
            .expect(&rt, "memory");
        let pattern = for_all(&rt, a, bound, at_most(&rt, a, put, bound));
        let rewrite = StepNode::Rewrite(equation, 5, 9, pattern, copy(&rt, a, &shown));
        moves.push(straight(rewrite)).expect(&rt, "memory");
        moves.push(clash(6, 2)).expect(&rt, "memory");
        assert_eq!(rt;
            certifies(&rt, a, &both, &shown, moves),
            accepted,
            "{equation} {bound} {put}"
        );
    }
    Ok(())
}
