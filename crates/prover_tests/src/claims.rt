//! The formulas.

use base::types::{TypeNode, TypeTerm};
use fol::formula::{Formula, FormulaNode, Term, TermNode, Trigger, Triggers};
use fol::operators::{Binary, Connective, Ternary};
use std::alloc::Global;
use std::panic::Expect;
use std::process::Abort;

/// What is claimed. The variable x is a whole number where it is said to be one, and any value elsewhere.
#[derive(Clone, Copy, Debug)]
pub(crate) enum Claim {
    /// Not both: x is at most 0, and 1 is at most x.
    NotBoth,
    /// Where v was stored last, v is selected.
    StoredLast,
    /// x is at most 0.
    AtMostZero,
    /// Where x is a whole number, twice x is not 1.
    NotHalf,
    /// x is at most 2^127.
    AtMostWide,
    /// At equal keys a memory holds equal values.
    SameRead,
    /// What a memory holds at a key is true at an equal one.
    TrueThere,
    /// What is true of all values that a memory holds is true of those of an equal one.
    TrueOfAll,
    /// What is true at each key is true at one.
    TrueAtOne,
    /// What is true at one key is true at each.
    TrueAtEach,
    /// Of two truths one is, whichever is named first.
    EitherWay,
}

fn boxed(rt: &impl Abort, alloc: Global, term: Term) -> Box<Term> {
    Box::new(alloc, term).expect(rt, "memory")
}

fn variable(rt: &impl Abort, alloc: Global, number: u32) -> Box<Term> {
    boxed(rt, alloc, Term::variable(number))
}

fn number(rt: &impl Abort, alloc: Global, value: i128) -> Box<Term> {
    boxed(rt, alloc, Term::number(value))
}

fn denied(rt: &impl Abort, alloc: Global, formula: Formula) -> Formula {
    Formula::not(Box::new(alloc, formula).expect(rt, "memory"))
}

fn at_most_zero(rt: &impl Abort, alloc: Global) -> Formula {
    Formula::at_most(variable(rt, alloc, 0), number(rt, alloc, 0))
}

fn not_both(rt: &impl Abort, alloc: Global) -> Formula {
    let mut both = Vec::new(alloc);
    both.push(at_most_zero(rt, alloc)).expect(rt, "memory");
    let above = Formula::at_most(number(rt, alloc, 1), variable(rt, alloc, 0));
    both.push(above).expect(rt, "memory");
    denied(rt, alloc, Formula::all_of(both))
}

// The memory, the key and the value are variables.
fn stored_last(rt: &impl Abort, alloc: Global) -> Formula {
    let memory = variable(rt, alloc, 0);
    let value = variable(rt, alloc, 2);
    let written = TermNode::Ternary(Ternary::Store, memory, variable(rt, alloc, 1), value);
    let stored = boxed(rt, alloc, Term { node: written });
    let read = TermNode::Binary(Binary::Select, stored, variable(rt, alloc, 1));
    let selected = boxed(rt, alloc, Term { node: read });
    Formula::equal(selected, variable(rt, alloc, 2))
}

fn not_half(rt: &impl Abort, alloc: Global) -> Formula {
    let of = TypeTerm {
        node: TypeNode::Num,
    };
    let whole = Formula::has_type(of, variable(rt, alloc, 0));
    let twice = Term::product(number(rt, alloc, 2), variable(rt, alloc, 0));
    let above = Formula::at_most(number(rt, alloc, 1), boxed(rt, alloc, twice));
    let again = Term::product(number(rt, alloc, 2), variable(rt, alloc, 0));
    let below = Formula::at_most(boxed(rt, alloc, again), number(rt, alloc, 1));
    let mut some = Vec::new(alloc);
    some.push(denied(rt, alloc, whole)).expect(rt, "memory");
    some.push(denied(rt, alloc, above)).expect(rt, "memory");
    some.push(denied(rt, alloc, below)).expect(rt, "memory");
    Formula::any_of(some)
}

fn at_most_wide(rt: &impl Abort, alloc: Global) -> Formula {
    let most = boxed(rt, alloc, Term::natural(1 << 127));
    Formula::at_most(variable(rt, alloc, 0), most)
}

// What the memory holds at the key, both of them variables.
fn read(rt: &impl Abort, alloc: Global, memory: u32, key: u32) -> Box<Term> {
    let memory = variable(rt, alloc, memory);
    let node = TermNode::Binary(Binary::Select, memory, variable(rt, alloc, key));
    boxed(rt, alloc, Term { node })
}

fn implied(rt: &impl Abort, alloc: Global, premise: Formula, claim: Formula) -> Formula {
    let premise = Box::new(alloc, premise).expect(rt, "memory");
    let claim = Box::new(alloc, claim).expect(rt, "memory");
    Formula {
        node: FormulaNode::Connect(Connective::Implies, premise, claim),
    }
}

// The claim, where the first two variables are equal.
fn if_equal(rt: &impl Abort, alloc: Global, claim: Formula) -> Formula {
    let equal = Formula::equal(variable(rt, alloc, 0), variable(rt, alloc, 1));
    implied(rt, alloc, equal, claim)
}

// What the memory holds is true at each key.
fn all_true(rt: &impl Abort, alloc: Global, memory: u32, triggers: Triggers) -> Formula {
    let body = Formula::holds(read(rt, alloc, memory, 2));
    let body = Box::new(alloc, body).expect(rt, "memory");
    Formula::for_all(2, triggers, body)
}

// A read of the first variable at the bound one.
fn read_trigger(rt: &impl Abort, alloc: Global) -> Triggers {
    let memory = variable(rt, alloc, 0);
    let node = TermNode::Binary(Binary::Select, memory, variable(rt, alloc, 2));
    let mut terms = Vec::new(alloc);
    terms.push(Term { node }).expect(rt, "memory");
    let mut triggers = Vec::new(alloc);
    triggers.push(Trigger { terms }).expect(rt, "memory");
    triggers
}

// That one of two variables is true.
fn either(rt: &impl Abort, alloc: Global, first: u32, second: u32) -> Formula {
    let mut some = Vec::new(alloc);
    some.push(Formula::holds(variable(rt, alloc, first)))
        .expect(rt, "memory");
    some.push(Formula::holds(variable(rt, alloc, second)))
        .expect(rt, "memory");
    Formula::any_of(some)
}

fn same_read(rt: &impl Abort, alloc: Global) -> Formula {
    let left = read(rt, alloc, 2, 0);
    let right = read(rt, alloc, 2, 1);
    if_equal(rt, alloc, Formula::equal(left, right))
}

fn true_there(rt: &impl Abort, alloc: Global) -> Formula {
    let here = Formula::holds(read(rt, alloc, 2, 0));
    let there = Formula::holds(read(rt, alloc, 2, 1));
    let follows = implied(rt, alloc, here, there);
    if_equal(rt, alloc, follows)
}

fn true_of_all(rt: &impl Abort, alloc: Global) -> Formula {
    let here = all_true(rt, alloc, 0, Vec::new(alloc));
    let there = all_true(rt, alloc, 1, Vec::new(alloc));
    let follows = implied(rt, alloc, here, there);
    if_equal(rt, alloc, follows)
}

fn true_at_one(rt: &impl Abort, alloc: Global) -> Formula {
    let each = all_true(rt, alloc, 0, read_trigger(rt, alloc));
    let one = Formula::holds(read(rt, alloc, 0, 1));
    implied(rt, alloc, each, one)
}

fn true_at_each(rt: &impl Abort, alloc: Global) -> Formula {
    let one = Formula::holds(read(rt, alloc, 0, 1));
    let each = all_true(rt, alloc, 0, read_trigger(rt, alloc));
    implied(rt, alloc, one, each)
}

fn either_way(rt: &impl Abort, alloc: Global) -> Formula {
    let first = either(rt, alloc, 0, 1);
    let second = either(rt, alloc, 1, 0);
    implied(rt, alloc, first, second)
}

/// The formula that says so.
pub(crate) fn formula_of(rt: &impl Abort, alloc: Global, claim: Claim) -> Formula {
    match claim {
        Claim::NotBoth => not_both(rt, alloc),
        Claim::StoredLast => stored_last(rt, alloc),
        Claim::AtMostZero => at_most_zero(rt, alloc),
        Claim::NotHalf => not_half(rt, alloc),
        Claim::AtMostWide => at_most_wide(rt, alloc),
        Claim::SameRead => same_read(rt, alloc),
        Claim::TrueThere => true_there(rt, alloc),
        Claim::TrueOfAll => true_of_all(rt, alloc),
        Claim::TrueAtOne => true_at_one(rt, alloc),
        Claim::TrueAtEach => true_at_each(rt, alloc),
        Claim::EitherWay => either_way(rt, alloc),
    }
}
