//! The parts and the cases of the entries of a branch.

use crate::entered::{both, cases_of, connected, denied, either, holds, pair, parts_of};
use fol::formula::Formula;
use fol::operators::Connective;
use fol::same::same_formulas;
use std::alloc::Global;
use std::panic::Expect;
use std::process::Abort;
use std::test::Fail;

fn only(rt: &impl Abort, alloc: Global, formula: Formula) -> Vec<Formula> {
    let mut formulas = Vec::new(alloc);
    formulas.push(formula).expect(rt, "memory");
    formulas
}

// An entry that stands alone has these parts, and no cases.
fn assert_parts(rt: &impl Abort, alloc: Global, entry: Formula, expected: &[Formula]) {
    let entries = only(rt, alloc, entry);
    let parts = parts_of(rt, alloc, entries.as_slice()).expect(rt, "parts");
    assert!(rt; same_formulas(parts.as_slice(), expected));
    assert!(rt; cases_of(rt, alloc, entries.as_slice()).is_none());
}

// An entry that stands alone has these cases, and no parts.
fn assert_cases(rt: &impl Abort, alloc: Global, entry: Formula, expected: &[Formula]) {
    let entries = only(rt, alloc, entry);
    let cases = cases_of(rt, alloc, entries.as_slice()).expect(rt, "cases");
    assert!(rt; same_formulas(cases.as_slice(), expected));
    assert!(rt; parts_of(rt, alloc, entries.as_slice()).is_none());
}

// That the variable is false.
fn fails(rt: &impl Abort, alloc: Global, variable: u32) -> Formula {
    denied(rt, alloc, holds(rt, alloc, variable))
}

#[test]
fn conjunctions_have_parts(rt: HostRuntime) -> Result<(), Fail> {
    let alloc = rt.alloc();
    let parts = pair(&rt, alloc, holds(&rt, alloc, 1), holds(&rt, alloc, 2));
    assert_parts(&rt, alloc, both(&rt, alloc, 1, 2), parts.as_slice());
    let parts = pair(&rt, alloc, fails(&rt, alloc, 1), fails(&rt, alloc, 2));
    let entry = denied(&rt, alloc, either(&rt, alloc, 1, 2));
    assert_parts(&rt, alloc, entry, parts.as_slice());
    Ok(())
}

#[test]
fn denials_have_parts(rt: HostRuntime) -> Result<(), Fail> {
    let alloc = rt.alloc();
    let parts = pair(&rt, alloc, holds(&rt, alloc, 1), fails(&rt, alloc, 2));
    let implied = connected(&rt, alloc, Connective::Implies, 1, 2);
    assert_parts(&rt, alloc, denied(&rt, alloc, implied), parts.as_slice());
    let parts = only(&rt, alloc, holds(&rt, alloc, 1));
    let entry = denied(&rt, alloc, fails(&rt, alloc, 1));
    assert_parts(&rt, alloc, entry, parts.as_slice());
    Ok(())
}

#[test]
fn parts_are_due_until_they_all_stand(rt: HostRuntime) -> Result<(), Fail> {
    let alloc = rt.alloc();
    // The variables that stand beside a conjunction of 1 and 2, and whether its parts are due.
    for (first, second, is_due) in [(1, 3, true), (2, 2, true), (1, 2, false), (2, 1, false)] {
        let mut entries = pair(
            &rt,
            alloc,
            holds(&rt, alloc, first),
            holds(&rt, alloc, second),
        );
        entries.push(both(&rt, alloc, 1, 2)).expect(&rt, "memory");
        let parts = parts_of(&rt, alloc, entries.as_slice());
        assert_eq!(rt; parts.is_some(), is_due, "at {first}, {second}");
    }
    Ok(())
}

#[test]
fn disjunctions_have_cases(rt: HostRuntime) -> Result<(), Fail> {
    let alloc = rt.alloc();
    let cases = pair(&rt, alloc, holds(&rt, alloc, 1), holds(&rt, alloc, 2));
    assert_cases(&rt, alloc, either(&rt, alloc, 1, 2), cases.as_slice());
    let cases = pair(&rt, alloc, fails(&rt, alloc, 1), holds(&rt, alloc, 2));
    let implied = connected(&rt, alloc, Connective::Implies, 1, 2);
    assert_cases(&rt, alloc, implied, cases.as_slice());
    let cases = pair(&rt, alloc, fails(&rt, alloc, 1), fails(&rt, alloc, 2));
    let entry = denied(&rt, alloc, both(&rt, alloc, 1, 2));
    assert_cases(&rt, alloc, entry, cases.as_slice());
    Ok(())
}

#[test]
fn equivalences_have_cases(rt: HostRuntime) -> Result<(), Fail> {
    let alloc = rt.alloc();
    let neither = pair(&rt, alloc, fails(&rt, alloc, 1), fails(&rt, alloc, 2));
    let cases = pair(&rt, alloc, both(&rt, alloc, 1, 2), Formula::all_of(neither));
    let alike = connected(&rt, alloc, Connective::Iff, 1, 2);
    assert_cases(&rt, alloc, alike, cases.as_slice());
    let one = pair(&rt, alloc, holds(&rt, alloc, 1), fails(&rt, alloc, 2));
    let other = pair(&rt, alloc, fails(&rt, alloc, 1), holds(&rt, alloc, 2));
    let cases = pair(&rt, alloc, Formula::all_of(one), Formula::all_of(other));
    let alike = connected(&rt, alloc, Connective::Iff, 1, 2);
    assert_cases(&rt, alloc, denied(&rt, alloc, alike), cases.as_slice());
    Ok(())
}

#[test]
fn splits_are_due_until_a_case_stands(rt: HostRuntime) -> Result<(), Fail> {
    let alloc = rt.alloc();
    // The variable that stands beside a disjunction of 1 and 2, and whether a split is due.
    for (case, is_due) in [(0, true), (1, false), (2, false)] {
        let entries = pair(
            &rt,
            alloc,
            either(&rt, alloc, 1, 2),
            holds(&rt, alloc, case),
        );
        let cases = cases_of(&rt, alloc, entries.as_slice());
        assert_eq!(rt; cases.is_some(), is_due, "at {case}");
    }
    Ok(())
}
