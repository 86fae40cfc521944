//! Substitutions worked out by hand.

use fol::formula::{Formula, Term, TermNode};
use fol::operators::Unary;
use fol::same::same_formula;
use std::alloc::Global;
use std::panic::Expect;
use std::process::Abort;
use std::test::Fail;
use substitution::instances::substitute::substitute;

// For each value of the bound variable the two variables are equal.
fn all_equal(rt: &impl Abort, alloc: Global, (bound, left, right): (u32, u32, u32)) -> Formula {
    let equal = Formula::equal(
        Box::new(alloc, Term::variable(left)).expect(rt, "memory"),
        Box::new(alloc, Term::variable(right)).expect(rt, "memory"),
    );
    Formula::for_all(
        bound,
        Vec::new(alloc),
        Box::new(alloc, equal).expect(rt, "memory"),
    )
}

#[test]
fn bound_variables_make_room(rt: HostRuntime) -> Result<(), Fail> {
    let alloc = rt.alloc();
    for (variable, put, from, to) in [
        (0, 2, (1, 0, 1), (1, 2, 1)),
        (0, 1, (1, 0, 1), (2_048, 1, 2_048)),
        (0, 0, (1, 0, 1), (1, 0, 1)),
        (1, 2, (1, 0, 1), (1, 0, 1)),
        (0, 1, (1, 0, 5_000), (2_048, 1, 5_000)),
        (0, 1, (1, 0, 3_000), (4_096, 1, 3_000)),
        (0, 1, (1, 0, u32::MAX), (2_048, 1, u32::MAX)),
    ] {
        let formula = all_equal(&rt, alloc, from);
        let expected = all_equal(&rt, alloc, to);
        let term = Term::variable(put);
        let made = substitute(alloc, &formula, variable, &term).expect(&rt, "memory");
        assert!(rt; same_formula(&made, &expected), "{variable} {put}");
    }
    Ok(())
}

// A variable without its last item, this many times, holds.
fn popped(rt: &impl Abort, alloc: Global, times: usize) -> Formula {
    let mut term = Box::new(alloc, Term::variable(0)).expect(rt, "memory");
    for _ in 0..times {
        let node = TermNode::Unary(Unary::Pop, term);
        term = Box::new(alloc, Term { node }).expect(rt, "memory");
    }
    Formula::holds(term)
}

#[test]
fn formulas_are_at_most_2048_deep(rt: HostRuntime) -> Result<(), Fail> {
    let alloc = rt.alloc();
    for (times, is_made) in [(2_046, true), (2_047, false)] {
        let formula = popped(&rt, alloc, times);
        let term = Term::variable(1);
        let made = substitute(alloc, &formula, 0, &term);
        assert_eq!(rt; made.is_ok(), is_made, "{times}");
    }
    Ok(())
}
