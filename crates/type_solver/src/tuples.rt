//! What is known of the parts of tuples.

ghost use Rattle.std.specs.Prelude.{◌≡◌, ◌<◌, ◌≤◌, ◌+◌, ℕ, IfOk, OnOk, IfSome, IsNone, length};
ghost use Rattle.base.specs.TypeData.{TypesData, TupleType, types_of};
ghost use Rattle.unification.specs.Slots.{Typing, value, list_at, Meets, Fits, TermWithin, IsMade, IsRoot, slot_at};
ghost use Rattle.type_solver.specs.Equations.{Keeps};
ghost use Rattle.type_solver.specs.Tuples.{TupleIs, TupleSeen, PartsWithin};

use base::memory::NoMemory;
use base::types::{TypeNode, TypeTerm};
use unification::type_variables::open::add_bound;
use unification::type_variables::roots::root;
use unification::type_variables::slots::{Group, Slot, Term};

/// The type variables of the parts of a tuple: so many consecutive ones, from this one on.
#[derive(Clone, Copy)]
pub struct Parts {
    pub first: usize,
    pub count: usize,
}

/// Adds consecutive type variables with written types.
fn add_types<'a>(slots: &mut Vec<Slot<'a>>, types: &'a [TypeTerm]) -> Result<(), NoMemory>
    requires fits { Fits slots.old.items }
    ensures keeps { OnOk result (Keeps slots.old.items slots.new.items) }
    ensures have { OnOk result ((t : Typing) → Meets slots.new.items t → list_at t (length slots.old.items) (length types.now) ≡ types.now) }
    ensures count { OnOk result (length slots.new.items ≡ length slots.old.items + length types.now) }
{
    for of in types {
        add_bound(slots, Term::Closed(of))?;
    }
    Ok(())
}

/// The types of the parts of a tuple.
pub fn tuple_types<'a>(of: &'a TypeTerm) -> Option<&'a [TypeTerm]>
    ensures some { IfSome result (λ types. of.now ≡ TupleType (types_of types.now)) }
    ensures none { IsNone result → (types : TypesData) → of.now ≡ TupleType types → ⊥ }
{
    match &of.node {
        TypeNode::Tuple(types) => Some(types.items.as_slice()),
        _ => None,
    }
}

/// The parts of a written type that is a tuple; type variables are added for them.
fn closed_tuple<'a>(slots: &mut Vec<Slot<'a>>, of: &'a TypeTerm) -> Result<Option<Parts>, NoMemory>
    requires fits { Fits slots.old.items }
    ensures keeps { IfOk result (λ parts. Keeps slots.old.items slots.new.items) }
    ensures is { IfOk result (λ parts. (t : Typing) → Meets slots.new.items t → TupleIs t of.now parts) }
    ensures within { IfOk result (λ parts. PartsWithin (length slots.new.items) parts) }
{
    match tuple_types(of) {
        None => Ok(None),
        Some(types) => {
            let first = slots.len();
            add_types(slots, types)?;
            Ok(Some(Parts {
                first,
                count: types.len(),
            }))
        }
    }
}

fn group_tuple<'a>(group: Group<'a>, first: usize, count: usize) -> Option<Parts>
    ensures is { (t : Typing) → TupleIs t (value t (Term.Grouped group.entry first count)) result }
    ensures within { (n : ℕ) → first + count ≤ n → PartsWithin n result }
{
    match group {
        Group::Struct(_) => None,
        Group::Tuple => Some(Parts { first, count }),
    }
}

/// The parts of a term that is a tuple and no type variable.
fn made_tuple<'a>(slots: &mut Vec<Slot<'a>>, term: Term<'a>) -> Result<Option<Parts>, NoMemory>
    requires fits { Fits slots.old.items }
    requires made { IsMade term }
    requires within { TermWithin (length slots.old.items) term }
    ensures keeps { IfOk result (λ parts. Keeps slots.old.items slots.new.items) }
    ensures is { IfOk result (λ parts. (t : Typing) → Meets slots.new.items t → TupleIs t (value t term.entry) parts) }
    ensures within { IfOk result (λ parts. PartsWithin (length slots.new.items) parts) }
{
    match term {
        Term::Closed(of) => closed_tuple(slots, of),
        Term::Grouped(group, first, count) => Ok(group_tuple(group, first, count)),
        _ => Ok(None),
    }
}

/// The representative of a type variable.
fn root_in<'a>(slots: &mut Vec<Slot<'a>>, variable: usize) -> usize
    requires fits { Fits slots.old.items }
    requires within { variable < length slots.old.items }
    ensures keeps { Keeps slots.old.items slots.new.items }
    ensures within { result < length slots.new.items }
    ensures root { IsRoot (slot_at slots.new.items result) }
    ensures same { (t : Typing) → Meets slots.new.items t → t variable ≡ t result }
{
    root(slots, variable)
}

/// Returns the parts of the type of a variable that is known to be a tuple. Type variables are added for those of a
/// written one.
pub fn tuple_at<'a>(slots: &mut Vec<Slot<'a>>, variable: usize) -> Result<Option<Parts>, NoMemory>
    requires fits { Fits slots.old.items }
    requires within { variable < length slots.old.items }
    ensures keeps { IfOk result (λ parts. Keeps slots.old.items slots.new.items) }
    ensures seen { IfOk result (λ parts. TupleSeen slots.new.items variable parts) }
    ensures within { IfOk result (λ parts. PartsWithin (length slots.new.items) parts) }
{
    let at = root_in(slots, variable);
    let slot = slots[at];
    match slot {
        Slot::Open(_) => Ok(None),
        Slot::Bound(term) => made_tuple(slots, term),
    }
}
