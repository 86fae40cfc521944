//! The number of the type of each type variable.

ghost use Rattle.std.specs.Prelude.{◌≡◌, ◌<◌, ◌≤◌, ◌+◌, length, map, All, IfOk};
ghost use Rattle.base.specs.TypeData.{TypeData, types_of};
ghost use Rattle.unification.specs.Slots.{wrapped, grouped, Fits, TermWithin, slot_at};
ghost use Rattle.unification.specs.Ranks.{EachIn, EachLed};
ghost use Rattle.typing_rules.specs.Sorts.{made};
ghost use Rattle.typing_rules.specs.Pools.{type_at, types};
ghost use Rattle.unification.specs.Numbers.{Keeps, number_at, PartsSay, IsInPool, TermSays, NumberSays, IsOrder, AreNumbers, TableSays};

use crate::solution::pooled::{add_made, add_struct, add_tuple, add_type};
use crate::type_variables::slots::{Group, Slot, Term, Wrap};
use base::memory::NoMemory;
use program::sequence::Sequence;
use std::alloc::Global;
use typing_rules::type_pool::TypePool;

/// The same type constructor, as the typing rules name it.
fn wrap_of(wrap: Wrap) -> typing_rules::sort::Wrap
    ensures { (t : TypeData) → made result t ≡ wrapped wrap t }
{
    match wrap {
        Wrap::Vector => typing_rules::sort::Wrap::Vector,
        Wrap::Shared => typing_rules::sort::Wrap::Shared,
        Wrap::Mutable => typing_rules::sort::Wrap::Mutable,
    }
}

/// The numbers of so many consecutive type variables, from this one on; none where one of them has none.
pub fn part_numbers(
    alloc: Global,
    numbers: &[Option<usize>],
    first: usize,
    count: usize,
) -> Result<Option<Sequence<usize>>, NoMemory>
    requires { first + count ≤ length numbers.now }
    ensures { IfOk result (PartsSay numbers.now first count) }
{
    let mut parts = Sequence::new(alloc);
    for i in 0..count {
        match numbers[first + i] {
            None => return Ok(None),
            Some(number) => parts.push(number)?,
        }
    }
    Ok(Some(parts))
}

fn add_group<'a>(
    alloc: Global,
    pool: &mut TypePool,
    group: Group<'a>,
    parts: Sequence<usize>,
) -> Result<usize, NoMemory>
    requires { All (λ n. n < length pool.old) parts }
    ensures keeps { IfOk result (λ number. Keeps pool.old pool.new) }
    ensures within { IfOk result (λ number. number < length pool.new) }
    ensures is { IfOk result (λ number. type_at (types pool.new) number ≡ grouped group.entry (types_of (map (type_at (types pool.old)) parts))) }
{
    match group {
        Group::Struct(id) => add_struct(alloc, pool, id, parts),
        Group::Tuple => add_tuple(pool, parts),
    }
}

fn add_parts<'a>(
    alloc: Global,
    pool: &mut TypePool,
    numbers: &[Option<usize>],
    group: Group<'a>,
    first: usize,
    count: usize,
) -> Result<Option<usize>, NoMemory>
    requires within { first + count ≤ length numbers.now }
    requires parts { EachIn (λ q. IsInPool pool.old (number_at numbers.now q)) (Term.Grouped group first count) }
    ensures keeps { IfOk result (λ found. Keeps pool.old pool.new) }
    ensures says { IfOk result (TermSays pool.old pool.new numbers.now (Term.Grouped group.entry first count)) }
{
    match part_numbers(alloc, numbers, first, count)? {
        None => Ok(None),
        Some(parts) => Ok(Some(add_group(alloc, pool, group, parts)?)),
    }
}

fn add_wrapped(
    pool: &mut TypePool,
    numbers: &[Option<usize>],
    wrap: Wrap,
    variable: usize,
) -> Result<Option<usize>, NoMemory>
    requires within { variable < length numbers.now }
    requires part { IsInPool pool.old (number_at numbers.now variable) }
    ensures keeps { IfOk result (λ found. Keeps pool.old pool.new) }
    ensures says { IfOk result (TermSays pool.old pool.new numbers.now (Term.Made wrap variable)) }
{
    match numbers[variable] {
        None => Ok(None),
        Some(number) => Ok(Some(add_made(pool, wrap_of(wrap), number)?)),
    }
}

/// The number of the type of a term, from those of its type variables; none where one of them has none.
fn term_number<'a>(
    alloc: Global,
    pool: &mut TypePool,
    numbers: &[Option<usize>],
    term: Term<'a>,
) -> Result<Option<usize>, NoMemory>
    requires within { TermWithin (length numbers.now) term }
    requires parts { EachIn (λ q. IsInPool pool.old (number_at numbers.now q)) term }
    ensures keeps { IfOk result (λ found. Keeps pool.old pool.new) }
    ensures says { IfOk result (TermSays pool.old pool.new numbers.now term.entry) }
{
    match term {
        Term::Variable(variable) => Ok(numbers[variable]),
        Term::Closed(of) => Ok(Some(add_type(alloc, pool, of)?)),
        Term::Made(wrap, variable) => add_wrapped(pool, numbers, wrap, variable),
        Term::Grouped(group, first, count) => add_parts(alloc, pool, numbers, group, first, count),
    }
}

/// The number of the type of a type variable, given the numbers of those that it refers to; none where its type is not
/// forced.
fn variable_number<'a>(
    alloc: Global,
    pool: &mut TypePool,
    slots: &[Slot<'a>],
    numbers: &[Option<usize>],
    variable: usize,
) -> Result<Option<usize>, NoMemory>
    requires fits { Fits slots.now }
    requires within { variable < length slots.now }
    requires numbers { length numbers.now ≡ length slots.now }
    requires parts { EachLed (λ q. NumberSays slots.now pool.old q (number_at numbers.now q)) (slot_at slots.now variable) }
    ensures keeps { IfOk result (λ found. Keeps pool.old pool.new) }
    ensures says { IfOk result (NumberSays slots.now pool.new variable) }
{
    let slot = slots[variable];
    match slot {
        Slot::Open(_) => Ok(None),
        Slot::Bound(term) => term_number(alloc, pool, numbers, term),
    }
}

/// No number for any of so many type variables.
fn no_numbers(alloc: Global, count: usize) -> Result<Vec<Option<usize>>, NoMemory>
    ensures { IfOk result (λ numbers. length numbers.items ≡ count) }
{
    let mut numbers = Vec::new(alloc);
    for _ in 0..count {
        numbers.push(None)?;
    }
    Ok(numbers)
}

/// For each type variable the number of its type, where it is forced: in one pass along an order in which each variable
/// comes after those that it refers to.
fn number_variables<'a>(
    alloc: Global,
    pool: &mut TypePool,
    slots: &[Slot<'a>],
    order: &[usize],
) -> Result<Vec<Option<usize>>, NoMemory>
    requires fits { Fits slots.now }
    requires order { IsOrder slots.now order.now }
    ensures keeps { IfOk result (λ numbers. Keeps pool.old pool.new) }
    ensures are { IfOk result (λ numbers. AreNumbers slots.now pool.new order.now numbers.items (length order.now)) }
{
    let mut numbers = no_numbers(alloc, slots.len())?;
    for top in 0..order.len() {
        let variable = order[top];
        let number = variable_number(alloc, pool, slots, &numbers, variable)?;
        numbers[variable] = number;
    }
    Ok(numbers)
}

/// Returns for each of the first so many type variables the number of its type, and none where the type is not forced.
/// After `NoMemory` the pool may contain some of the types.
pub fn table<'a>(
    alloc: Global,
    pool: &mut TypePool,
    slots: &[Slot<'a>],
    order: &[usize],
    variables: usize,
) -> Result<Vec<Option<usize>>, NoMemory>
    requires fits { Fits slots.now }
    requires order { IsOrder slots.now order.now }
    requires variables { variables ≤ length slots.now }
    ensures keeps { IfOk result (λ numbers. Keeps pool.old pool.new) }
    ensures says { IfOk result (λ numbers. TableSays slots.now variables pool.new numbers.items) }
{
    let mut numbers = number_variables(alloc, pool, slots, order)?;
    numbers.truncate(variables);
    Ok(numbers)
}
