//! Instances worked out by hand, and what is none.

use fol::formula::{Formula, Term};
use std::alloc::Global;
use std::panic::Expect;
use std::process::Abort;
use std::test::Fail;
use substitution::free::is_free_in;
use substitution::instance::is_instance;

// For each value of the bound variable the two variables are equal.
fn all_equal(rt: &impl Abort, alloc: Global, bound: u32, left: u32, right: u32) -> Formula {
    let equal = Formula::equal(
        Box::new(alloc, Term::variable(left)).expect(rt, "memory"),
        Box::new(alloc, Term::variable(right)).expect(rt, "memory"),
    );
    Formula::for_all(
        bound,
        Vec::new(alloc),
        Box::new(alloc, equal).expect(rt, "memory"),
    )
}

// A variable is put in for 0 where 0 is equal to each value of 1.
#[test]
fn instances_capture_nothing(rt: HostRuntime) -> Result<(), Fail> {
    let body = all_equal(&rt, rt.alloc(), 1, 0, 1);
    for (put, bound, left, right, accepted) in [
        (2, 1, 2, 1, true),
        (2, 3, 2, 3, true),
        (2, 2, 2, 2, false),
        (2, 1, 0, 1, false),
        (2, 1, 2, 3, false),
        (1, 1, 1, 1, false),
        (1, 3, 1, 3, true),
        (0, 1, 0, 1, true),
        (0, 0, 0, 0, false),
    ] {
        let formula = all_equal(&rt, rt.alloc(), bound, left, right);
        let term = Term::variable(put);
        assert_eq!(rt;
            is_instance(&body, 0, &term, &formula),
            accepted,
            "{put} {bound} {left} {right}"
        );
    }
    Ok(())
}

#[test]
fn bound_variables_are_not_free(rt: HostRuntime) -> Result<(), Fail> {
    let formula = all_equal(&rt, rt.alloc(), 1, 0, 1);
    for (variable, free) in [(0, true), (1, false), (2, false)] {
        assert_eq!(rt; is_free_in(variable, &formula), free, "{variable}");
    }
    Ok(())
}
