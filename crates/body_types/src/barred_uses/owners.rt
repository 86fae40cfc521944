//! The struct that the type of a variable is, or points at.

ghost use Rattle.std.specs.Prelude.{◌≡◌, ◌<◌, ℕ, length, slice_index};
ghost use Rattle.std.specs.Option.{option_copied};
ghost use Rattle.unification.specs.Slots.{Fits, slot_at};
ghost use Rattle.unification.specs.Ranks.{IsRank};
ghost use Rattle.typing_rules.specs.Sorts.{behind, struct_in};
ghost use Rattle.unification.specs.Roots.{AreRoots};
ghost use Rattle.body_types.specs.Owners.{GroupIs, MadeOwner, OwnerSays, SlotIs, SlotOwner};

use base::types::{StructId, TypeNode, TypeTerm};
use unification::type_variables::slots::{Group, Slot, Term, Wrap};

fn written_struct<'a>(of: &'a TypeTerm) -> Option<&'a StructId>
    ensures { option_copied result ≡ struct_in of.now }
{
    match &of.node {
        TypeNode::Struct(id, _) => Some(id),
        _ => None,
    }
}

/// The struct that a written type is, or points at.
fn written_owner<'a>(of: &'a TypeTerm) -> Option<&'a StructId>
    ensures { option_copied result ≡ struct_in (behind of.now) }
{
    match &of.node {
        TypeNode::Struct(id, _) => Some(id),
        TypeNode::Shared(to) => written_struct(to),
        TypeNode::Mutable(to) => written_struct(to),
        _ => None,
    }
}

fn group_struct<'a>(group: Group<'a>) -> Option<&'a StructId>
    ensures { GroupIs group.entry (option_copied result) }
{
    match group {
        Group::Struct(id) => Some(id),
        Group::Tuple => None,
    }
}

/// The struct that the type of a slot is.
fn slot_struct<'a>(slot: Slot<'a>) -> Option<&'a StructId>
    ensures { SlotIs slot.entry (option_copied result) }
{
    match slot {
        Slot::Open(_) => None,
        Slot::Bound(term) => match term {
            Term::Variable(_) => None,
            Term::Closed(of) => written_struct(of),
            Term::Made(_, _) => None,
            Term::Grouped(group, _, _) => group_struct(group),
        },
    }
}

/// The struct that a reference to the type of a variable points at.
fn made_owner<'a>(
    slots: &[Slot<'a>],
    roots: &[usize],
    wrap: Wrap,
    to: usize,
) -> Option<&'a StructId>
    requires to { to < length roots.now }
    requires root { slice_index roots.now to < length slots.now }
    ensures { MadeOwner (slot_at slots.now (slice_index roots.now to)) wrap (option_copied result) }
{
    match wrap {
        Wrap::Vector => None,
        Wrap::Shared => slot_struct(slots[roots[to]]),
        Wrap::Mutable => slot_struct(slots[roots[to]]),
    }
}

/// The struct that the type of a slot is, or points at.
fn slot_owner<'a>(slots: &[Slot<'a>], roots: &[usize], at: usize) -> Option<&'a StructId>
    requires fits { Fits slots.now }
    requires roots { AreRoots slots.now roots.now (length slots.now) }
    requires within { at < length slots.now }
    ensures { SlotOwner slots.now roots.now (slot_at slots.now at) (option_copied result) }
{
    let slot = slots[at];
    match slot {
        Slot::Open(_) => None,
        Slot::Bound(term) => match term {
            Term::Variable(_) => None,
            Term::Closed(of) => written_owner(of),
            Term::Made(wrap, to) => made_owner(slots, roots, wrap, to),
            Term::Grouped(group, _, _) => group_struct(group),
        },
    }
}

/// Finds the struct that the type of a variable is, or points at, in all typings that meet the slots; none where in one
/// of them there is none.
pub(crate) fn owner_at<'a>(
    slots: &[Slot<'a>],
    roots: &[usize],
    variable: usize,
) -> Option<&'a StructId>
    requires fits { Fits slots.now }
    requires roots { AreRoots slots.now roots.now (length slots.now) }
    requires ranked { (r : ℕ → ℕ) × IsRank slots.now r }
    requires within { variable < length slots.now }
    ensures { OwnerSays slots.now variable (option_copied result) }
{
    slot_owner(slots, roots, roots[variable])
}
