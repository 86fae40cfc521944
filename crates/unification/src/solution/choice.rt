//! The solution with defaults: first the default integer type, then `()` for dropped values.

ghost use Rattle.std.specs.Prelude.{◌≡◌, ◌<◌, ◌≤◌, ℕ, true, false, length, slice_index, IfOk, MatchOption};
ghost use Rattle.base.specs.TypeData.{IntType};
ghost use Rattle.unification.specs.Slots.{Fits, slot_at};
ghost use Rattle.unification.specs.declared.type_variables.slots.Sort.TheVariants.{Integer};
ghost use Rattle.unification.specs.declared.type_variables.slots.Slot.TheVariants.{Open};
ghost use Rattle.typing_rules.specs.Sorts.{is_integer};
ghost use Rattle.typing_rules.specs.Settings.{u64_type, unit_type};
ghost use Rattle.unification.specs.Numbers.{Keeps};
ghost use Rattle.unification.specs.Given.{WidthOf};
ghost use Rattle.unification.specs.Choices.{NoOpenInteger, IsSound, DefaultsSay, WidthSays, TypesSay, LeavesNoTyping, TypesAsKnown, ChoiceSays};

use crate::ranks::{Ranking, ranks};
use crate::solution::given::{is_open_integer, with_integers, with_units};
use crate::solution::numbers::{part_numbers, table};
use crate::solution::roots::all_roots;
use crate::type_variables::slots::{Slot, Term};
use base::memory::NoMemory;
use base::types::{TypeNode, TypeTerm, Width};
use program::sequence::Sequence;
use std::alloc::Global;
use typing_rules::type_pool::TypePool;

/// What is known of type variables once integer types have their default: the slots, the representative of each
/// variable, and an order in which each variable comes after those that it refers to.
#[derive(Drop)]
pub struct Defaulted<'a> {
    pub slots: Vec<Slot<'a>>,
    pub roots: Vec<usize>,
    pub ranking: Ranking,
}

/// Decides whether an integer type is open.
pub fn has_open_integer<'a>(slots: &[Slot<'a>]) -> bool
    ensures no { result ≡ false → NoOpenInteger slots.now }
    ensures yes { result ≡ true → (p : ℕ) × ((p < length slots.now) × (slot_at slots.now p ≡ Open Integer)) }
{
    for variable in 0..slots.len() {
        if is_open_integer(slots[variable]) {
            return true;
        }
    }
    false
}

/// Gives each open integer type the default `u64`, which is `integer`; none where there is no typing.
pub fn with_defaults<'a>(
    alloc: Global,
    slots: &[Slot<'a>],
    integer: &'a TypeTerm,
) -> Result<Option<Defaulted<'a>>, NoMemory>
    requires fits { Fits slots.now }
    requires integer { integer.now ≡ u64_type }
    ensures { IfOk result (DefaultsSay slots.now) }
{
    match ranks(alloc, slots)? {
        None => Ok(None),
        Some(ranking) => {
            let roots = all_roots(alloc, slots)?;
            let slots = with_integers(alloc, slots, integer)?;
            Ok(Some(Defaulted {
                slots,
                roots,
                ranking,
            }))
        }
    }
}

fn written_width(of: &TypeTerm) -> Option<Width>
    ensures { MatchOption result (is_integer of.now ≡ false) (λ width. of.now ≡ IntType width) }
{
    match &of.node {
        TypeNode::Int(width) => Some(*width),
        _ => None,
    }
}

fn slot_width<'a>(slot: Slot<'a>) -> Option<Width>
    ensures { WidthOf slot.entry result }
{
    match slot {
        Slot::Bound(term) => match term {
            Term::Closed(of) => written_width(of),
            _ => None,
        },
        Slot::Open(_) => None,
    }
}

/// The width of the type of a variable's representative.
fn width_at<'a>(slots: &[Slot<'a>], roots: &[usize], variable: usize) -> Option<Width>
    requires within { variable < length roots.now }
    requires root { slice_index roots.now variable < length slots.now }
    ensures { WidthOf (slot_at slots.now (slice_index roots.now variable)) result }
{
    slot_width(slots[roots[variable]])
}

/// The width of the type of a type variable, if it is an integer type.
pub fn integer_width<'a>(defaulted: &Defaulted<'a>, variable: usize) -> Option<Width>
    requires sound { IsSound defaulted.now }
    requires within { variable < length defaulted.now.slots.items }
    ensures { WidthSays defaulted.now variable result }
{
    width_at(&defaulted.slots, &defaulted.roots, variable)
}

/// Returns for each of the first so many type variables the number of its type, once dropped values whose type is not
/// determined have type `()`; none where its type is still not forced. After `NoMemory` the pool may contain some of
/// the types.
pub fn types_of_variables<'a>(
    alloc: Global,
    pool: &mut TypePool,
    defaulted: Defaulted<'a>,
    variables: usize,
    dropped: &[usize],
    unit: &'a TypeTerm,
) -> Result<Vec<Option<usize>>, NoMemory>
    requires sound { IsSound defaulted }
    requires variables { variables ≤ length defaulted.slots.items }
    requires dropped { (k : ℕ) → k < length dropped.now → slice_index dropped.now k < variables }
    requires unit { unit.now ≡ unit_type }
    ensures keeps { IfOk result (λ numbers. Keeps pool.old pool.new) }
    ensures says { IfOk result (λ numbers. TypesSay defaulted.entry dropped.now variables pool.new numbers.items) }
{
    let Defaulted {
        slots,
        roots,
        ranking,
    } = defaulted;
    let given = with_units(slots, &roots, dropped, unit);
    table(alloc, pool, &given, &ranking.order, variables)
}

/// Returns for each of the first so many type variables the number of its type, for systems without defaults: no
/// default integer type, and no dropped value. None for a variable whose type is not forced; none at all where there is
/// no typing. After `NoMemory` the pool may contain some of the types.
pub fn types_without_defaults<'a>(
    alloc: Global,
    pool: &mut TypePool,
    slots: &[Slot<'a>],
    variables: usize,
) -> Result<Option<Vec<Option<usize>>>, NoMemory>
    requires fits { Fits slots.now }
    requires variables { variables ≤ length slots.now }
    ensures keeps { IfOk result (λ found. Keeps pool.old pool.new) }
    ensures says { IfOk result (λ found. MatchOption found (LeavesNoTyping slots.now) (λ numbers. TypesAsKnown slots.now variables pool.new numbers.items)) }
{
    match ranks(alloc, slots)? {
        None => Ok(None),
        Some(ranking) => {
            let numbers = table(alloc, pool, slots, &ranking.order, variables)?;
            Ok(Some(numbers))
        }
    }
}

/// The numbers of the types of all type variables, if all of them are forced.
pub fn choose(alloc: Global, numbers: &[Option<usize>]) -> Result<Option<Sequence<usize>>, NoMemory>
    ensures { IfOk result (ChoiceSays numbers.now) }
{
    part_numbers(alloc, numbers, 0, numbers.len())
}
