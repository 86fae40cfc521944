//! What is known of the head of a type: whether it is a reference, of which kind, and which struct it is.

ghost use Rattle.std.specs.Prelude.{◌≡◌, ◌<◌, ◌≤◌, ◌+◌, ℕ, IfOk, OnOk, length};
ghost use Rattle.base.specs.TypeData.{TypeData, StructType, types_of};
ghost use Rattle.unification.specs.Slots.{Typing, value, list_at, wrapped, Meets, Fits, Becomes, TermWithin, IsMade, IsRoot, slot_at};
ghost use Rattle.unification.specs.Grown.{Grows};
ghost use Rattle.unification.specs.Heads.{KindOf, KindIs, KindWithin, KindOpen, StructOf, StructIs, StructWithin, StructOpen, kind_left, struct_left};

use crate::type_variables::open::add_bound;
use crate::type_variables::roots::root;
use crate::type_variables::slots::{Group, Slot, Sort, Term, Wrap};
use base::types::{StructId, TypeNode, TypeTerm};
use std::alloc::{AllocError, Global};

/// What is known of the kind of a type.
#[derive(Clone, Copy)]
pub enum KindSeen<'a> {
    /// Not known whether it is a reference.
    Unsettled,
    /// Not a reference.
    Plain,
    /// A reference of this kind to this type.
    To(Wrap, Term<'a>),
}

/// What is known of the struct that a type is.
#[derive(Clone, Copy)]
pub enum StructSeen<'a> {
    /// Not known which struct it is, if any.
    Unknown,
    /// Not a struct.
    Other,
    /// This struct, with so many consecutive type variables, from this one on, as its type arguments.
    Known(&'a StructId, usize, usize),
}

/// Decides whether a sort has types of different kinds.
fn leaves_kind(sort: Sort) -> bool
    ensures { result ≡ kind_left sort }
{
    matches!(&sort, Sort::Any | Sort::Single)
}

/// Decides whether a sort has types of different structs.
fn leaves_struct(sort: Sort) -> bool
    ensures { result ≡ struct_left sort }
{
    !matches!(&sort, Sort::Integer)
}

fn wrap_kind<'a>(wrap: Wrap, part: Term<'a>) -> KindSeen<'a>
    ensures is { (t : Typing) → KindIs t (wrapped wrap (value t part.entry)) result }
    ensures within { (n : ℕ) → TermWithin n part.entry → KindWithin n result }
{
    match wrap {
        Wrap::Vector => KindSeen::Plain,
        Wrap::Shared | Wrap::Mutable => KindSeen::To(wrap, part),
    }
}

fn closed_kind<'a>(of: &'a TypeTerm) -> KindSeen<'a>
    ensures is { (t : Typing) → KindIs t of.now result }
    ensures within { (n : ℕ) → KindWithin n result }
{
    match &of.node {
        TypeNode::Shared(part) => KindSeen::To(Wrap::Shared, Term::Closed(part)),
        TypeNode::Mutable(part) => KindSeen::To(Wrap::Mutable, Term::Closed(part)),
        _ => KindSeen::Plain,
    }
}

fn made_kind<'a>(term: Term<'a>) -> KindSeen<'a>
    requires { IsMade term }
    ensures is { (t : Typing) → KindIs t (value t term.entry) result }
    ensures within { (n : ℕ) → TermWithin n term.entry → KindWithin n result }
{
    match term {
        Term::Closed(of) => closed_kind(of),
        Term::Made(wrap, part) => wrap_kind(wrap, Term::Variable(part)),
        _ => KindSeen::Plain,
    }
}

/// Returns what is known of the kind of the type of a variable.
pub fn kind_seen<'a>(slots: &mut [Slot<'a>], variable: usize) -> KindSeen<'a>
    requires fits { Fits slots.old }
    requires within { variable < length slots.old }
    ensures becomes { Becomes slots.old (λ t. Unit {0}) slots.new (λ t. Unit {0}) }
    ensures of { (t : Typing) → Meets slots.new t → KindOf t (t variable) result }
    ensures within { KindWithin (length slots.new) result }
    ensures open { KindOpen slots.new variable result }
{
    let at = root(slots, variable);
    let slot = slots[at];
    match slot {
        Slot::Open(sort) => {
            if leaves_kind(sort) {
                KindSeen::Unsettled
            } else {
                KindSeen::Plain
            }
        }
        Slot::Bound(term) => made_kind(term),
    }
}

/// Adds consecutive type variables with written types.
fn add_types<'a>(slots: &mut Vec<Slot<'a>>, types: &'a [TypeTerm]) -> Result<(), AllocError>
    requires fits { Fits slots.old.items }
    ensures grows { OnOk result (Grows slots.old.items (λ t. Unit {0}) slots.new.items (λ t. Unit {0})) }
    ensures have { OnOk result ((t : Typing) → Meets slots.new.items t → list_at t (length slots.old.items) (length types.now) ≡ types.now) }
    ensures count { OnOk result (length slots.new.items ≡ length slots.old.items + length types.now) }
{
    for of in types {
        add_bound(slots, Term::Closed(of))?;
    }
    Ok(())
}

/// Finds which struct a written type is, and adds type variables for its type arguments.
fn closed_struct<'a>(
    slots: &mut Vec<Slot<'a>>,
    of: &'a TypeTerm,
) -> Result<StructSeen<'a>, AllocError>
    requires fits { Fits slots.old.items }
    ensures grows { IfOk result (λ seen. Grows slots.old.items (λ t. Unit {0}) slots.new.items (λ t. Unit {0})) }
    ensures is { IfOk result (λ seen. (t : Typing) → Meets slots.new.items t → StructIs t of.now seen) }
    ensures within { IfOk result (λ seen. StructWithin (length slots.new.items) seen) }
{
    match &of.node {
        TypeNode::Struct(id, types) => {
            let first = slots.len();
            add_types(slots, &types.items)?;
            Ok(StructSeen::Known(id, first, types.items.len()))
        }
        _ => Ok(StructSeen::Other),
    }
}

fn group_struct<'a>(group: Group<'a>, first: usize, count: usize) -> StructSeen<'a>
    ensures is { (t : Typing) → StructIs t (value t (Term.Grouped group.entry first count)) result }
    ensures within { (n : ℕ) → first + count ≤ n → StructWithin n result }
{
    match group {
        Group::Struct(id) => StructSeen::Known(id, first, count),
        Group::Tuple => StructSeen::Other,
    }
}

fn made_struct<'a>(slots: &mut Vec<Slot<'a>>, term: Term<'a>) -> Result<StructSeen<'a>, AllocError>
    requires fits { Fits slots.old.items }
    requires made { IsMade term }
    requires within { TermWithin (length slots.old.items) term }
    ensures grows { IfOk result (λ seen. Grows slots.old.items (λ t. Unit {0}) slots.new.items (λ t. Unit {0})) }
    ensures is { IfOk result (λ seen. (t : Typing) → Meets slots.new.items t → StructIs t (value t term.entry) seen) }
    ensures within { IfOk result (λ seen. StructWithin (length slots.new.items) seen) }
{
    match term {
        Term::Closed(of) => closed_struct(slots, of),
        Term::Grouped(group, first, count) => Ok(group_struct(group, first, count)),
        _ => Ok(StructSeen::Other),
    }
}

/// The representative of a type variable.
fn root_in<'a>(slots: &mut Vec<Slot<'a>>, variable: usize) -> usize
    requires fits { Fits slots.old.items }
    requires within { variable < length slots.old.items }
    ensures grows { Grows slots.old.items (λ t. Unit {0}) slots.new.items (λ t. Unit {0}) }
    ensures within { result < length slots.new.items }
    ensures root { IsRoot (slot_at slots.new.items result) }
    ensures same { (t : Typing) → Meets slots.new.items t → t variable ≡ t result }
{
    root(slots, variable)
}

fn variable_struct<'a>(
    slots: &mut Vec<Slot<'a>>,
    variable: usize,
) -> Result<StructSeen<'a>, AllocError>
    requires fits { Fits slots.old.items }
    requires within { variable < length slots.old.items }
    ensures grows { IfOk result (λ seen. Grows slots.old.items (λ t. Unit {0}) slots.new.items (λ t. Unit {0})) }
    ensures of { IfOk result (λ seen. (t : Typing) → Meets slots.new.items t → StructOf t (t variable) seen) }
    ensures within { IfOk result (λ seen. StructWithin (length slots.new.items) seen) }
    ensures open { IfOk result (λ seen. StructOpen slots.new.items (Term.Variable variable) seen) }
{
    let at = root_in(slots, variable);
    let slot = slots[at];
    match slot {
        Slot::Open(sort) => {
            if leaves_struct(sort) {
                Ok(StructSeen::Unknown)
            } else {
                Ok(StructSeen::Other)
            }
        }
        Slot::Bound(term) => made_struct(slots, term),
    }
}

/// Returns which struct a type is, as far as it is known. Type variables are added for the type arguments of a written
/// one.
pub fn struct_seen<'a>(
    slots: &mut Vec<Slot<'a>>,
    term: Term<'a>,
) -> Result<StructSeen<'a>, AllocError>
    requires fits { Fits slots.old.items }
    requires within { TermWithin (length slots.old.items) term }
    ensures grows { IfOk result (λ seen. Grows slots.old.items (λ t. Unit {0}) slots.new.items (λ t. Unit {0})) }
    ensures of { IfOk result (λ seen. (t : Typing) → Meets slots.new.items t → StructOf t (value t term.entry) seen) }
    ensures within { IfOk result (λ seen. StructWithin (length slots.new.items) seen) }
    ensures open { IfOk result (λ seen. StructOpen slots.new.items term.entry seen) }
{
    match term {
        Term::Variable(variable) => variable_struct(slots, variable),
        _ => made_struct(slots, term),
    }
}
