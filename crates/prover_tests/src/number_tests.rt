//! Formulas that are put into a pool: where they have one number, and what is read off by it.

use base::name::Name;
use base::types::{StructId, TypeList, TypeNode, TypeTerm};
use fol::formula::{Formula, Term, Trigger};
use fol::same::same_formula;
use std::alloc::Global;
use std::panic::Expect;
use std::process::Abort;
use std::test::Fail;
use term_pool::interning::intern_formula;
use term_pool::pool::Pool;
use term_pool::reading::read_formula;

// The type `vector<0x2::bank::Coin>`.
fn coins(rt: &impl Abort, alloc: Global) -> TypeTerm {
    let id = StructId {
        address: 2,
        module: Name::from_slice(alloc, b"bank").expect(rt, "memory"),
        name: Name::from_slice(alloc, b"Coin").expect(rt, "memory"),
    };
    let items = Vec::new(alloc);
    let coin = TypeTerm {
        node: TypeNode::Struct(id, TypeList { items }),
    };
    TypeTerm {
        node: TypeNode::Vector(Box::new(alloc, coin).expect(rt, "memory")),
    }
}

// For each value of variable 0, found as it stands, it is a vector of coins or the sum of the number and variable 1 is
// at most it.
fn formula(rt: &impl Abort, alloc: Global, number: i128) -> Formula {
    let sum = Term::sum(
        Box::new(alloc, Term::number(number)).expect(rt, "memory"),
        Box::new(alloc, Term::variable(1)).expect(rt, "memory"),
    );
    let small = Formula::at_most(
        Box::new(alloc, sum).expect(rt, "memory"),
        Box::new(alloc, Term::variable(0)).expect(rt, "memory"),
    );
    let typed = Formula::has_type(
        coins(rt, alloc),
        Box::new(alloc, Term::variable(0)).expect(rt, "memory"),
    );
    let mut cases = Vec::new(alloc);
    cases.push(typed).expect(rt, "memory");
    cases.push(small).expect(rt, "memory");
    let mut terms = Vec::new(alloc);
    terms.push(Term::variable(0)).expect(rt, "memory");
    let mut triggers = Vec::new(alloc);
    triggers.push(Trigger { terms }).expect(rt, "memory");
    let body = Formula::any_of(cases);
    Formula::for_all(0, triggers, Box::new(alloc, body).expect(rt, "memory"))
}

#[test]
fn equal_formulas_have_one_number(rt: HostRuntime) -> Result<(), Fail> {
    let mut pool = Pool::new(rt.alloc());
    let first = intern_formula(&mut pool, &formula(&rt, rt.alloc(), 7)).expect(&rt, "memory");
    let len = pool.len();
    let again = intern_formula(&mut pool, &formula(&rt, rt.alloc(), 7)).expect(&rt, "memory");
    assert_eq!(rt; again, first);
    assert_eq!(rt; pool.len(), len);
    let other = intern_formula(&mut pool, &formula(&rt, rt.alloc(), -7)).expect(&rt, "memory");
    assert!(rt; other != first);
    // The number, the sum, the comparison, the two cells of the list up to it, the disjunction and the whole.
    assert_eq!(rt; pool.len().checked_sub(len), Some(7));
    Ok(())
}

#[test]
fn formulas_are_read_off_by_number(rt: HostRuntime) -> Result<(), Fail> {
    let mut pool = Pool::new(rt.alloc());
    for number in [7, -7, i128::MAX, i128::MIN] {
        let given = formula(&rt, rt.alloc(), number);
        let position = intern_formula(&mut pool, &given).expect(&rt, "memory");
        let read = read_formula(rt.alloc(), &pool, position).expect(&rt, "memory");
        assert!(rt; same_formula(&read, &given));
    }
    Ok(())
}

#[test]
fn depths_are_counted(rt: HostRuntime) -> Result<(), Fail> {
    let mut pool = Pool::new(rt.alloc());
    // Quantifier, disjunction, comparison, sum, number.
    let position = intern_formula(&mut pool, &formula(&rt, rt.alloc(), 7)).expect(&rt, "memory");
    assert_eq!(rt; pool.depth(position), 5);
    Ok(())
}
