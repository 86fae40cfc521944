//! Names for the variables of existential formulas, and terms put in.

use crate::entered::{denied, either, exists, for_all, name_of, names_of, put};
use fol::formula::{Formula, Term};
use fol::same::same_formula;
use std::alloc::Global;
use std::panic::Expect;
use std::process::Abort;
use std::test::Fail;
use term_pool::pool::Pool;

fn only(rt: &impl Abort, alloc: Global, formula: Formula) -> Vec<Formula> {
    let mut formulas = Vec::new(alloc);
    formulas.push(formula).expect(rt, "memory");
    formulas
}

#[test]
fn names_are_above_all_variables(rt: HostRuntime) -> Result<(), Fail> {
    let alloc = rt.alloc();
    // The bound variable, another one, and the name. Variables are numbers of 32 bits.
    for (bound, free, name) in [
        (0, 1, Some(2)),
        (1, 0, Some(2)),
        (4_294_967_294, 0, Some(u32::MAX)),
        (0, u32::MAX, None),
        (u32::MAX, 0, None),
    ] {
        let entry = exists(&rt, alloc, bound, either(&rt, alloc, bound, free));
        let entries = only(&rt, alloc, entry);
        match name_of(&rt, alloc, entries.as_slice()) {
            Some((entry, variable, said)) => {
                assert_eq!(rt; (entry, Some(variable)), (0, name), "at {bound}, {free}");
                assert!(rt; same_formula(&said, &either(&rt, alloc, variable, free)));
            }
            None => assert_eq!(rt; name, None, "at {bound}, {free}"),
        }
    }
    Ok(())
}

#[test]
fn denied_universals_get_names(rt: HostRuntime) -> Result<(), Fail> {
    let alloc = rt.alloc();
    // Not for all x is it true for all y that x or y is: the name is none of y.
    let inner = for_all(&rt, alloc, 1, either(&rt, alloc, 0, 1));
    let entry = denied(&rt, alloc, for_all(&rt, alloc, 0, inner));
    let entries = only(&rt, alloc, entry);
    let (_, variable, said) = name_of(&rt, alloc, entries.as_slice()).expect(&rt, "a name");
    assert_eq!(rt; variable, 2);
    let inner = for_all(&rt, alloc, 1, either(&rt, alloc, 2, 1));
    assert!(rt; same_formula(&said, &denied(&rt, alloc, inner)));
    Ok(())
}

#[test]
fn universals_get_none(rt: HostRuntime) -> Result<(), Fail> {
    let alloc = rt.alloc();
    let mut entries = only(&rt, alloc, for_all(&rt, alloc, 0, either(&rt, alloc, 0, 1)));
    let entry = denied(&rt, alloc, exists(&rt, alloc, 0, either(&rt, alloc, 0, 1)));
    entries.push(entry).expect(&rt, "memory");
    assert!(rt; name_of(&rt, alloc, entries.as_slice()).is_none());
    Ok(())
}

#[test]
fn entries_are_named_once(rt: HostRuntime) -> Result<(), Fail> {
    let alloc = rt.alloc();
    let first = exists(&rt, alloc, 0, either(&rt, alloc, 0, 5));
    let said = either(&rt, alloc, 6, 5);
    let other = exists(&rt, alloc, 1, either(&rt, alloc, 1, 0));
    // How many entries are kept, and the entry that is named then, with the name.
    for (kept, name) in [(3, Some((2, 7))), (2, None), (1, Some((0, 6))), (0, None)] {
        let (whole, part) = names_of(&rt, alloc, &first, &said, &other, kept);
        assert_eq!(rt; whole, Some((2, 7)));
        assert_eq!(rt; part, name, "at {kept}");
    }
    Ok(())
}

#[test]
fn terms_are_put_in_where_variables_are_free(rt: HostRuntime) -> Result<(), Fail> {
    let alloc = rt.alloc();
    // The variable, what is put in for it, and what then stands at the free place of variable 0.
    for (variable, term, free) in [(0, 7, 7), (0, 0, 0), (1, 7, 0), (2, 7, 0)] {
        let mut pool = Pool::new(alloc);
        let given = for_all(&rt, alloc, 1, either(&rt, alloc, 1, 0));
        let made = put(
            &rt,
            alloc,
            &mut pool,
            &given,
            variable,
            &Term::variable(term),
        );
        let expected = for_all(&rt, alloc, 1, either(&rt, alloc, 1, free));
        assert!(rt; same_formula(&made, &expected), "at {variable}, {term}");
    }
    Ok(())
}
