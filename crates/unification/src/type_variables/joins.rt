//! Unification of type variables and terms.

ghost use Rattle.std.specs.Prelude.{◌≡◌, ◌<◌, ◌≤◌, ◌+◌, ℕ, IsTrue, IfOk, length};
ghost use Rattle.unification.specs.Sorts.{is_of};
ghost use Rattle.unification.specs.Slots.{Typing, value, Meets, Fits, Becomes, slot_at, IsMade, IsRoot, TermFits, TermWithin, term_work, work};
ghost use Rattle.unification.specs.Asks.{EachHas, AsksWithin, Has, ask_work, asks_work};

use crate::type_variables::parts::{ask, ask_parts};
use crate::type_variables::roots::root;
use crate::type_variables::slots::{Ask, Slot, Sort, Term};
use crate::type_variables::sorts::{both, term_is};
use base::same::same_type;
use base::types::TypeTerm;
use std::alloc::{AllocError, Global};

/// Gives an open type variable a type. False where the type is not of its sort.
fn put<'a>(slots: &mut [Slot<'a>], at: usize, sort: Sort, term: Term<'a>) -> bool
    requires fits { Fits slots.old }
    requires within { at < length slots.old }
    requires open { slot_at slots.old at ≡ Slot.Open sort }
    requires made { IsMade term }
    requires term { TermFits (length slots.old) at term }
    ensures becomes { Becomes slots.old (λ t. t at ≡ value t term.entry) slots.new (λ t. IsTrue result) }
    ensures less { work slots.new + 1 ≤ work slots.old + term_work term.entry }
{
    if term_is(term, sort) {
        slots[at] = Slot::Bound(term);
        true
    } else {
        false
    }
}

/// Restricts the type of a representative to a sort.
fn narrow<'a>(slots: &mut [Slot<'a>], at: usize, sort: Sort) -> bool
    requires fits { Fits slots.old }
    requires within { at < length slots.old }
    requires root { IsRoot (slot_at slots.old at) }
    ensures becomes { Becomes slots.old (λ t. IsTrue (is_of sort (t at))) slots.new (λ t. IsTrue result) }
    ensures less { work slots.new ≤ work slots.old }
{
    let slot = slots[at];
    match slot {
        Slot::Open(other) => {
            slots[at] = Slot::Open(both(other, sort));
            true
        }
        Slot::Bound(term) => term_is(term, sort),
    }
}

/// Unifies the written type of a type variable with another type.
fn join_closed<'a>(
    slots: &mut [Slot<'a>],
    asks: &mut Vec<Ask<'a>>,
    at: usize,
    of: &'a TypeTerm,
    term: Term<'a>,
) -> Result<bool, AllocError>
    requires fits { Fits slots.old }
    requires within { at < length slots.old }
    requires bound { slot_at slots.old at ≡ Slot.Bound (Term.Closed of) }
    requires made { IsMade term }
    requires term { TermFits (length slots.old) at term }
    requires asks { AsksWithin (length slots.old) asks.old.items }
    ensures becomes { IfOk result (λ answer. Becomes slots.old (λ t. (t at ≡ value t term.entry) × EachHas t asks.old.items) slots.new (λ t. IsTrue answer × EachHas t asks.new.items)) }
    ensures asks { IfOk result (λ answer. AsksWithin (length slots.new) asks.new.items) }
    ensures less { IfOk result (λ answer. work slots.new + asks_work asks.new.items + 1 ≤ work slots.old + asks_work asks.old.items + term_work term.entry) }
{
    match term {
        Term::Closed(other) => Ok(same_type(of, other)),
        _ => {
            let variables = slots.len();
            slots[at] = Slot::Bound(term);
            ask_parts(asks, term, Term::Closed(of), variables)
        }
    }
}

/// Unifies the type of a type variable with another type.
fn join<'a>(
    slots: &mut [Slot<'a>],
    asks: &mut Vec<Ask<'a>>,
    at: usize,
    left: Term<'a>,
    term: Term<'a>,
) -> Result<bool, AllocError>
    requires fits { Fits slots.old }
    requires within { at < length slots.old }
    requires bound { slot_at slots.old at ≡ Slot.Bound left }
    requires left { IsMade left }
    requires made { IsMade term }
    requires term { TermFits (length slots.old) at term }
    requires asks { AsksWithin (length slots.old) asks.old.items }
    ensures becomes { IfOk result (λ answer. Becomes slots.old (λ t. (t at ≡ value t term.entry) × EachHas t asks.old.items) slots.new (λ t. IsTrue answer × EachHas t asks.new.items)) }
    ensures asks { IfOk result (λ answer. AsksWithin (length slots.new) asks.new.items) }
    ensures less { IfOk result (λ answer. work slots.new + asks_work asks.new.items + 1 ≤ work slots.old + asks_work asks.old.items + term_work term.entry) }
{
    match left {
        Term::Closed(of) => join_closed(slots, asks, at, of, term),
        _ => ask_parts(asks, left, term, slots.len()),
    }
}

/// Binds a representative to a term.
fn bind_root<'a>(
    slots: &mut [Slot<'a>],
    asks: &mut Vec<Ask<'a>>,
    at: usize,
    term: Term<'a>,
) -> Result<bool, AllocError>
    requires fits { Fits slots.old }
    requires within { at < length slots.old }
    requires root { IsRoot (slot_at slots.old at) }
    requires made { IsMade term }
    requires term { TermFits (length slots.old) at term }
    requires asks { AsksWithin (length slots.old) asks.old.items }
    ensures becomes { IfOk result (λ answer. Becomes slots.old (λ t. (t at ≡ value t term.entry) × EachHas t asks.old.items) slots.new (λ t. IsTrue answer × EachHas t asks.new.items)) }
    ensures asks { IfOk result (λ answer. AsksWithin (length slots.new) asks.new.items) }
    ensures less { IfOk result (λ answer. work slots.new + asks_work asks.new.items + 1 ≤ work slots.old + asks_work asks.old.items + term_work term.entry) }
{
    let slot = slots[at];
    match slot {
        Slot::Open(sort) => Ok(put(slots, at, sort, term)),
        Slot::Bound(other) => join(slots, asks, at, other, term),
    }
}

/// Unifies an open type variable with one below it.
fn link_open<'a>(slots: &mut [Slot<'a>], low: usize, high: usize, sort: Sort) -> bool
    requires fits { Fits slots.old }
    requires below { low < high }
    requires within { high < length slots.old }
    requires root { IsRoot (slot_at slots.old low) }
    requires open { slot_at slots.old high ≡ Slot.Open sort }
    ensures becomes { Becomes slots.old (λ t. t low ≡ t high) slots.new (λ t. IsTrue result) }
    ensures less { work slots.new + 1 ≤ work slots.old }
{
    slots[high] = Slot::Bound(Term::Variable(low));
    narrow(slots, low, sort)
}

/// Unifies a bound type variable with one below it.
fn link_bound<'a>(
    slots: &mut [Slot<'a>],
    asks: &mut Vec<Ask<'a>>,
    low: usize,
    high: usize,
    term: Term<'a>,
) -> Result<bool, AllocError>
    requires fits { Fits slots.old }
    requires below { low < high }
    requires within { high < length slots.old }
    requires low { IsRoot (slot_at slots.old low) }
    requires bound { slot_at slots.old high ≡ Slot.Bound term }
    requires made { IsMade term }
    requires asks { AsksWithin (length slots.old) asks.old.items }
    ensures becomes { IfOk result (λ answer. Becomes slots.old (λ t. (t low ≡ t high) × EachHas t asks.old.items) slots.new (λ t. IsTrue answer × EachHas t asks.new.items)) }
    ensures asks { IfOk result (λ answer. AsksWithin (length slots.new) asks.new.items) }
    ensures less { IfOk result (λ answer. work slots.new + asks_work asks.new.items + 1 ≤ work slots.old + asks_work asks.old.items) }
{
    slots[high] = Slot::Bound(Term::Variable(low));
    bind_root(slots, asks, low, term)
}

/// Unifies a type variable with one below it.
fn link<'a>(
    slots: &mut [Slot<'a>],
    asks: &mut Vec<Ask<'a>>,
    low: usize,
    high: usize,
) -> Result<bool, AllocError>
    requires fits { Fits slots.old }
    requires below { low < high }
    requires within { high < length slots.old }
    requires low { IsRoot (slot_at slots.old low) }
    requires high { IsRoot (slot_at slots.old high) }
    requires asks { AsksWithin (length slots.old) asks.old.items }
    ensures becomes { IfOk result (λ answer. Becomes slots.old (λ t. (t low ≡ t high) × EachHas t asks.old.items) slots.new (λ t. IsTrue answer × EachHas t asks.new.items)) }
    ensures asks { IfOk result (λ answer. AsksWithin (length slots.new) asks.new.items) }
    ensures less { IfOk result (λ answer. work slots.new + asks_work asks.new.items + 1 ≤ work slots.old + asks_work asks.old.items) }
{
    let slot = slots[high];
    match slot {
        Slot::Open(sort) => Ok(link_open(slots, low, high, sort)),
        Slot::Bound(term) => link_bound(slots, asks, low, high, term),
    }
}

/// Unifies two representatives.
fn meet<'a>(
    slots: &mut [Slot<'a>],
    asks: &mut Vec<Ask<'a>>,
    a: usize,
    b: usize,
) -> Result<bool, AllocError>
    requires fits { Fits slots.old }
    requires a { a < length slots.old }
    requires b { b < length slots.old }
    requires root_a { IsRoot (slot_at slots.old a) }
    requires root_b { IsRoot (slot_at slots.old b) }
    requires asks { AsksWithin (length slots.old) asks.old.items }
    ensures becomes { IfOk result (λ answer. Becomes slots.old (λ t. (t a ≡ t b) × EachHas t asks.old.items) slots.new (λ t. IsTrue answer × EachHas t asks.new.items)) }
    ensures asks { IfOk result (λ answer. AsksWithin (length slots.new) asks.new.items) }
    ensures less { IfOk result (λ answer. work slots.new + asks_work asks.new.items ≤ work slots.old + asks_work asks.old.items) }
{
    if a < b {
        link(slots, asks, a, b)
    } else if b < a {
        link(slots, asks, b, a)
    } else {
        Ok(true)
    }
}

/// Unifies two type variables.
fn meet_variables<'a>(
    slots: &mut [Slot<'a>],
    asks: &mut Vec<Ask<'a>>,
    left: usize,
    right: usize,
) -> Result<bool, AllocError>
    requires fits { Fits slots.old }
    requires left { left < length slots.old }
    requires right { right < length slots.old }
    requires asks { AsksWithin (length slots.old) asks.old.items }
    ensures becomes { IfOk result (λ answer. Becomes slots.old (λ t. (t left ≡ t right) × EachHas t asks.old.items) slots.new (λ t. IsTrue answer × EachHas t asks.new.items)) }
    ensures asks { IfOk result (λ answer. AsksWithin (length slots.new) asks.new.items) }
    ensures less { IfOk result (λ answer. work slots.new + asks_work asks.new.items ≤ work slots.old + asks_work asks.old.items) }
{
    let a = root(slots, left);
    let b = root(slots, right);
    meet(slots, asks, a, b)
}

/// Binds a type variable to a term that is no type variable.
fn bind<'a>(
    slots: &mut [Slot<'a>],
    asks: &mut Vec<Ask<'a>>,
    variable: usize,
    term: Term<'a>,
) -> Result<bool, AllocError>
    requires fits { Fits slots.old }
    requires within { variable < length slots.old }
    requires made { IsMade term }
    requires term { TermWithin (length slots.old) term }
    requires asks { AsksWithin (length slots.old) asks.old.items }
    ensures becomes { IfOk result (λ answer. Becomes slots.old (λ t. (t variable ≡ value t term.entry) × EachHas t asks.old.items) slots.new (λ t. IsTrue answer × EachHas t asks.new.items)) }
    ensures asks { IfOk result (λ answer. AsksWithin (length slots.new) asks.new.items) }
    ensures less { IfOk result (λ answer. work slots.new + asks_work asks.new.items + 1 ≤ work slots.old + asks_work asks.old.items + term_work term.entry) }
{
    let at = root(slots, variable);
    bind_root(slots, asks, at, term)
}

/// Solves one equation, which may leave others to solve.
fn step<'a>(
    slots: &mut [Slot<'a>],
    asks: &mut Vec<Ask<'a>>,
    ask: Ask<'a>,
) -> Result<bool, AllocError>
    requires fits { Fits slots.old }
    requires variable { ask.variable < length slots.old }
    requires term { TermWithin (length slots.old) ask.term }
    requires asks { AsksWithin (length slots.old) asks.old.items }
    ensures becomes { IfOk result (λ answer. Becomes slots.old (λ t. Has t ask.entry × EachHas t asks.old.items) slots.new (λ t. IsTrue answer × EachHas t asks.new.items)) }
    ensures asks { IfOk result (λ answer. AsksWithin (length slots.new) asks.new.items) }
    ensures less { IfOk result (λ answer. work slots.new + asks_work asks.new.items + 1 ≤ work slots.old + asks_work asks.old.items + ask_work ask.entry) }
{
    let term = ask.term;
    match term {
        Term::Variable(other) => meet_variables(slots, asks, ask.variable, other),
        _ => bind(slots, asks, ask.variable, term),
    }
}

/// Solves all equations.
fn run<'a>(slots: &mut [Slot<'a>], asks: &mut Vec<Ask<'a>>) -> Result<bool, AllocError>
    requires fits { Fits slots.old }
    requires asks { AsksWithin (length slots.old) asks.old.items }
    ensures { IfOk result (λ answer. Becomes slots.old (λ t. EachHas t asks.old.items) slots.new (λ t. IsTrue answer)) }
{
    while let Some(ask) = asks.pop() {
        if !step(slots, asks, ask)? {
            return Ok(false);
        }
    }
    Ok(true)
}

/// Unifies a type variable with a term.
pub fn equate<'a>(
    alloc: Global,
    slots: &mut [Slot<'a>],
    variable: usize,
    term: Term<'a>,
) -> Result<bool, AllocError>
    requires fits { Fits slots.old }
    requires variable { variable < length slots.old }
    requires term { TermWithin (length slots.old) term }
    ensures { IfOk result (λ answer. Becomes slots.old (λ t. t variable ≡ value t term.entry) slots.new (λ t. IsTrue answer)) }
{
    let mut asks = Vec::new(alloc);
    ask(&mut asks, variable, term, slots.len())?;
    run(slots, &mut asks)
}

/// Restricts the type of a type variable to a sort.
pub fn ask_sort<'a>(slots: &mut [Slot<'a>], variable: usize, sort: Sort) -> bool
    requires fits { Fits slots.old }
    requires within { variable < length slots.old }
    ensures { Becomes slots.old (λ t. IsTrue (is_of sort (t variable))) slots.new (λ t. IsTrue result) }
{
    let at = root(slots, variable);
    narrow(slots, at, sort)
}
