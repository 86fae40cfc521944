//! Pools of what a text of turns needs alone.

use certificate_text::pools::compact::compact;
use fol::formula::{Formula, Term};
use fol::same::same_formula;
use search::trees::application::{Extension, PoolApplication, Reason};
use std::alloc::Global;
use std::panic::Expect;
use std::process::Abort;
use std::test::Fail;
use term_pool::interning::intern_formula;
use term_pool::pool::Pool;
use term_pool::reading::read_formula;

// The number is at most the sum of the variable and itself.
fn bound(rt: &impl Abort, alloc: Global, number: i128, variable: u32) -> Formula {
    let left = Box::new(alloc, Term::variable(variable)).expect(rt, "memory");
    let right = Box::new(alloc, Term::variable(variable)).expect(rt, "memory");
    let sum = Box::new(alloc, Term::sum(left, right)).expect(rt, "memory");
    Formula::at_most(
        Box::new(alloc, Term::number(number)).expect(rt, "memory"),
        sum,
    )
}

fn application(rt: &impl Abort, alloc: Global, formula: usize) -> PoolApplication {
    let mut formulas = Vec::new(alloc);
    formulas.push(formula).expect(rt, "memory");
    PoolApplication::Grown(Extension {
        reason: Reason::Parts(0),
        generation: 0,
        formulas,
    })
}

#[test]
fn a_pool_is_left_with_what_is_named(rt: HostRuntime) -> Result<(), Fail> {
    let alloc = rt.alloc();
    let mut pool = Pool::new(alloc);
    for number in [7, 8, 9] {
        intern_formula(&mut pool, &bound(&rt, alloc, number, 0)).expect(&rt, "memory");
    }
    let named = bound(&rt, alloc, 9, 1);
    let number = intern_formula(&mut pool, &named).expect(&rt, "memory");
    let mut text = Vec::new(alloc);
    text.push(application(&rt, alloc, number))
        .expect(&rt, "memory");
    let made = compact(alloc, &pool, text.as_mut_slice()).expect(&rt, "memory");
    // The number, the variable, the sum and the whole.
    assert_eq!(rt; made.len(), 4);
    match text.get(0) {
        Some(PoolApplication::Grown(extension)) => {
            assert_eq!(rt; extension.formulas.as_slice(), [3].as_slice());
            let read = read_formula(alloc, &made, 3).expect(&rt, "memory");
            assert!(rt; same_formula(&read, &named));
        }
        _ => assert!(rt; false),
    }
    Ok(())
}
