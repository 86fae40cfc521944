//! Terms of a pool that equations join, and formulas that are alike by them.

use congruence_closure::branch_classes::BranchClasses;
use fol::formula::{Formula, Term};
use std::alloc::Global;
use std::panic::Expect;
use std::process::Abort;
use std::test::Fail;
use term_pool::interning::{intern_formula, intern_term};
use term_pool::pool::Pool;

fn variable(rt: &impl Abort, alloc: Global, number: u32) -> Box<Term> {
    Box::new(alloc, Term::variable(number)).expect(rt, "memory")
}

fn sum(rt: &impl Abort, alloc: Global, left: u32, right: u32) -> Term {
    Term::sum(variable(rt, alloc, left), variable(rt, alloc, right))
}

// The numbers of the equations of two variables each.
fn equations_of(
    rt: &impl Abort,
    alloc: Global,
    pool: &mut Pool,
    equations: &[(u32, u32)],
) -> Vec<usize> {
    let mut numbers = Vec::new(alloc);
    for (left, right) in equations {
        let sides = Formula::equal(variable(rt, alloc, *left), variable(rt, alloc, *right));
        let number = intern_formula(pool, &sides).expect(rt, "memory");
        numbers.push(number).expect(rt, "memory");
    }
    numbers
}

// For each value of a variable, the sum of it and of another is at most variable 1.
fn bounded(rt: &impl Abort, alloc: Global, bound: u32, other: u32) -> Formula {
    let small = Formula::at_most(
        Box::new(alloc, sum(rt, alloc, bound, other)).expect(rt, "memory"),
        variable(rt, alloc, 1),
    );
    let body = Box::new(alloc, small).expect(rt, "memory");
    Formula::for_all(bound, Vec::new(alloc), body)
}

// The classes of a branch with these entries, where two numbers are known.
fn classes_of(
    rt: &impl Abort,
    alloc: Global,
    pool: &Pool,
    entries: &[usize],
    left: usize,
    right: usize,
) -> BranchClasses {
    let mut classes = BranchClasses::new(alloc);
    for entry in entries {
        assert!(rt; *entry < pool.len());
        classes = classes.with_entry(alloc, pool, *entry).expect(rt, "memory");
    }
    assert!(rt; left < pool.len());
    assert!(rt; right < pool.len());
    let classes = classes.know(alloc, pool, left).expect(rt, "memory");
    classes.know(alloc, pool, right).expect(rt, "memory")
}

// Whether two sums of two variables each are joined on a branch of these equations.
fn are_joined(
    rt: &impl Abort,
    alloc: Global,
    equations: &[(u32, u32)],
    left: (u32, u32),
    right: (u32, u32),
) -> bool {
    let mut pool = Pool::new(alloc);
    let entries = equations_of(rt, alloc, &mut pool, equations);
    let left = intern_term(&mut pool, &sum(rt, alloc, left.0, left.1)).expect(rt, "memory");
    let right = intern_term(&mut pool, &sum(rt, alloc, right.0, right.1)).expect(rt, "memory");
    let classes = classes_of(rt, alloc, &pool, entries.as_slice(), left, right);
    assert!(rt; classes.is_known(left));
    assert!(rt; classes.is_known(right));
    let is_one = classes.are_joined(left, right);
    assert_eq!(rt; classes.class(left) == classes.class(right), is_one);
    is_one
}

// Whether two formulas, each by its bound variable and the other one, are alike on a branch of these equations.
fn are_alike(
    rt: &impl Abort,
    alloc: Global,
    equations: &[(u32, u32)],
    left: (u32, u32),
    right: (u32, u32),
) -> bool {
    let mut pool = Pool::new(alloc);
    let entries = equations_of(rt, alloc, &mut pool, equations);
    let one = bounded(rt, alloc, left.0, left.1);
    let other = bounded(rt, alloc, right.0, right.1);
    let left = intern_formula(&mut pool, &one).expect(rt, "memory");
    let right = intern_formula(&mut pool, &other).expect(rt, "memory");
    let classes = classes_of(rt, alloc, &pool, entries.as_slice(), left, right);
    assert!(rt; classes.is_known(left));
    assert!(rt; classes.is_known(right));
    classes.are_alike(left, right)
}

#[test]
fn equations_join_terms(rt: HostRuntime) -> Result<(), Fail> {
    let alloc = rt.alloc();
    // Two sums, and whether they are joined where 0 and 1 are equal, and where 1 and 2 are too.
    for (left, right, by_one, by_both) in [
        ((0, 3), (0, 3), true, true),
        ((0, 3), (1, 3), true, true),
        ((0, 3), (2, 3), false, true),
        ((0, 2), (1, 1), false, true),
        ((0, 3), (0, 4), false, false),
        // What a sum is does not count.
        ((0, 3), (3, 0), false, false),
    ] {
        let one = are_joined(&rt, alloc, &[(0, 1)], left, right);
        let both = are_joined(&rt, alloc, &[(0, 1), (1, 2)], left, right);
        assert_eq!(rt; (one, both), (by_one, by_both), "at {left:?}, {right:?}");
    }
    Ok(())
}

#[test]
fn equations_make_formulas_alike(rt: HostRuntime) -> Result<(), Fail> {
    let alloc = rt.alloc();
    // Two formulas, and whether they are alike with no equation, and where 0 and 1 are equal.
    for (left, right, before, after) in [
        ((2, 0), (2, 0), true, true),
        ((2, 0), (2, 1), false, true),
        ((2, 0), (2, 3), false, false),
        // The variable 0 that is bound is another one.
        ((0, 0), (0, 1), false, false),
        // A bound variable has its name.
        ((2, 0), (3, 0), false, false),
    ] {
        let none = are_alike(&rt, alloc, &[], left, right);
        let one = are_alike(&rt, alloc, &[(0, 1)], left, right);
        assert_eq!(rt; (none, one), (before, after), "at {left:?}, {right:?}");
    }
    Ok(())
}
