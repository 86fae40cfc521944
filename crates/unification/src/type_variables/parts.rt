//! Decomposes an equation between two types into equations between their parts.

ghost use Rattle.std.specs.Prelude.{◌≡◌, ◌↔◌, ◌<◌, ◌≤◌, ◌+◌, IsTrue, false, IfOk, OnOk, IfSome, IsNone, length};
ghost use Rattle.base.specs.TypeData.{TypeData, TypesData, types_of, type_size, types_size, StructType, TupleType};
ghost use Rattle.unification.specs.Slots.{Typing, value, wrapped, grouped, list_at, TermWithin, HasParts, IsMade, term_work};
ghost use Rattle.unification.specs.Asks.{Adds, AsksWithin, Says, required_work, asks_work};

use crate::type_variables::slots::{Ask, Group, Term, Wrap};
use base::same::same_struct;
use base::types::{StructId, TypeNode, TypeTerm};
use std::alloc::AllocError;

/// The type of which this constructor makes a type, if it does.
fn wrapped_part<'a>(wrap: Wrap, of: &'a TypeTerm) -> Option<&'a TypeTerm>
    ensures some { IfSome result (λ part. of.now ≡ wrapped wrap part.now) }
    ensures none { IsNone result → (part : TypeData) → of.now ≡ wrapped wrap part → ⊥ }
    ensures less { IfSome result (λ part. type_size part.now < type_size of.now) }
{
    match (wrap, &of.node) {
        (Wrap::Vector, TypeNode::Vector(part)) => Some(part),
        (Wrap::Shared, TypeNode::Shared(part)) => Some(part),
        (Wrap::Mutable, TypeNode::Mutable(part)) => Some(part),
        _ => None,
    }
}

/// The type arguments of a type that is of this struct.
fn struct_parts<'a>(id: &StructId, of: &'a TypeTerm) -> Option<&'a [TypeTerm]>
    ensures some { IfSome result (λ parts. of.now ≡ StructType id.now (types_of parts.now)) }
    ensures none { IsNone result → (parts : TypesData) → of.now ≡ StructType id.now parts → ⊥ }
{
    match &of.node {
        TypeNode::Struct(other, types) => {
            if same_struct(id, other) {
                Some(types.items.as_slice())
            } else {
                None
            }
        }
        _ => None,
    }
}

/// The parts of a tuple.
fn tuple_parts<'a>(of: &'a TypeTerm) -> Option<&'a [TypeTerm]>
    ensures some { IfSome result (λ parts. of.now ≡ TupleType (types_of parts.now)) }
    ensures none { IsNone result → (parts : TypesData) → of.now ≡ TupleType parts → ⊥ }
{
    match &of.node {
        TypeNode::Tuple(types) => Some(types.items.as_slice()),
        _ => None,
    }
}

/// The types of which this constructor makes a type, if it does.
fn grouped_parts<'a>(group: Group<'a>, of: &'a TypeTerm) -> Option<&'a [TypeTerm]>
    ensures some { IfSome result (λ parts. of.now ≡ grouped group.entry (types_of parts.now)) }
    ensures none { IsNone result → (parts : TypesData) → of.now ≡ grouped group.entry parts → ⊥ }
{
    match group {
        Group::Struct(id) => struct_parts(id, of),
        Group::Tuple => tuple_parts(of),
    }
}

fn same_wrap(left: Wrap, right: Wrap) -> bool
    ensures { IsTrue result ↔ (left ≡ right) }
{
    left == right
}

/// Decides whether two constructors of lists of types are equal.
fn same_group<'a>(left: Group<'a>, right: Group<'a>) -> bool
    ensures one { IsTrue result → (ts : TypesData) → grouped left.entry ts ≡ grouped right.entry ts }
    ensures none { result ≡ false → (ts us : TypesData) → grouped left.entry ts ≡ grouped right.entry us → ⊥ }
{
    match (left, right) {
        (Group::Struct(a), Group::Struct(b)) => same_struct(a, b),
        (Group::Tuple, Group::Tuple) => true,
        _ => false,
    }
}

/// Adds the equation of a type variable and a term.
pub fn ask<'a>(
    asks: &mut Vec<Ask<'a>>,
    variable: usize,
    term: Term<'a>,
    variables: usize,
) -> Result<(), AllocError>
    requires variable { variable < variables }
    requires term { TermWithin variables term }
    requires within { AsksWithin variables asks.old.items }
    ensures adds { OnOk result (Adds asks.old.items (λ t. t variable ≡ value t term.entry) asks.new.items) }
    ensures within { OnOk result (AsksWithin variables asks.new.items) }
    ensures work { OnOk result (asks_work asks.new.items ≡ asks_work asks.old.items + required_work term.entry) }
{
    asks.push(Ask { variable, term })?;
    Ok(())
}

/// Adds the equation of a type variable and a written type.
fn ask_type<'a>(
    asks: &mut Vec<Ask<'a>>,
    variable: usize,
    of: &'a TypeTerm,
    variables: usize,
) -> Result<(), AllocError>
    requires variable { variable < variables }
    requires within { AsksWithin variables asks.old.items }
    ensures adds { OnOk result (Adds asks.old.items (λ t. t variable ≡ of.now) asks.new.items) }
    ensures within { OnOk result (AsksWithin variables asks.new.items) }
    ensures work { OnOk result (asks_work asks.new.items ≡ asks_work asks.old.items + type_size of.now) }
{
    ask(asks, variable, Term::Closed(of), variables)
}

/// Adds the equations of consecutive type variables and others.
fn ask_variables<'a>(
    asks: &mut Vec<Ask<'a>>,
    first: usize,
    other: usize,
    count: usize,
    variables: usize,
) -> Result<(), AllocError>
    requires first { first + count ≤ variables }
    requires other { other + count ≤ variables }
    requires within { AsksWithin variables asks.old.items }
    ensures adds { OnOk result (Adds asks.old.items (λ t. list_at t first count ≡ list_at t other count) asks.new.items) }
    ensures within { OnOk result (AsksWithin variables asks.new.items) }
    ensures work { OnOk result (asks_work asks.new.items ≡ asks_work asks.old.items + count) }
{
    for i in 0..count {
        ask(asks, first + i, Term::Variable(other + i), variables)?;
    }
    Ok(())
}

/// Adds the equations of consecutive type variables and written types.
fn ask_types<'a>(
    asks: &mut Vec<Ask<'a>>,
    first: usize,
    types: &'a [TypeTerm],
    variables: usize,
) -> Result<(), AllocError>
    requires first { first + length types.now ≤ variables }
    requires within { AsksWithin variables asks.old.items }
    ensures adds { OnOk result (Adds asks.old.items (λ t. list_at t first (length types.now) ≡ types.now) asks.new.items) }
    ensures within { OnOk result (AsksWithin variables asks.new.items) }
    ensures work { OnOk result (asks_work asks.new.items + 1 ≤ asks_work asks.old.items + types_size (types_of types.now)) }
{
    for (i, part) in types.iter().enumerate() {
        ask_type(asks, first + i, part, variables)?;
    }
    Ok(())
}

/// Decomposes the equation of a type made of a type variable, and a written type.
fn closed_part<'a>(
    asks: &mut Vec<Ask<'a>>,
    wrap: Wrap,
    part: usize,
    of: &'a TypeTerm,
    variables: usize,
) -> Result<bool, AllocError>
    requires part { part < variables }
    requires within { AsksWithin variables asks.old.items }
    ensures says { IfOk result (Says asks.old.items (λ t. wrapped wrap (t part) ≡ of.now) asks.new.items) }
    ensures within { IfOk result (λ answer. AsksWithin variables asks.new.items) }
    ensures less { IfOk result (λ answer. asks_work asks.new.items + 1 ≤ asks_work asks.old.items + type_size of.now) }
{
    match wrapped_part(wrap, of) {
        Some(inner) => {
            ask_type(asks, part, inner, variables)?;
            Ok(true)
        }
        None => Ok(false),
    }
}

/// Decomposes the equation of a type made of consecutive type variables, and a written type.
fn closed_parts<'a>(
    asks: &mut Vec<Ask<'a>>,
    group: Group<'a>,
    first: usize,
    count: usize,
    of: &'a TypeTerm,
    variables: usize,
) -> Result<bool, AllocError>
    requires first { first + count ≤ variables }
    requires within { AsksWithin variables asks.old.items }
    ensures says { IfOk result (Says asks.old.items (λ t. grouped group.entry (types_of (list_at t first count)) ≡ of.now) asks.new.items) }
    ensures within { IfOk result (λ answer. AsksWithin variables asks.new.items) }
    ensures less { IfOk result (λ answer. asks_work asks.new.items + 1 ≤ asks_work asks.old.items + type_size of.now) }
{
    match grouped_parts(group, of) {
        Some(types) => {
            if types.len() == count {
                ask_types(asks, first, types, variables)?;
                Ok(true)
            } else {
                Ok(false)
            }
        }
        None => Ok(false),
    }
}

/// Decomposes the equation of a type made of a type variable, and another type.
fn wrapped_parts<'a>(
    asks: &mut Vec<Ask<'a>>,
    wrap: Wrap,
    part: usize,
    other: Term<'a>,
    variables: usize,
) -> Result<bool, AllocError>
    requires part { part < variables }
    requires made { IsMade other }
    requires other { TermWithin variables other }
    requires within { AsksWithin variables asks.old.items }
    ensures says { IfOk result (Says asks.old.items (λ t. wrapped wrap (t part) ≡ value t other.entry) asks.new.items) }
    ensures within { IfOk result (λ answer. AsksWithin variables asks.new.items) }
    ensures less { IfOk result (λ answer. asks_work asks.new.items + 1 ≤ asks_work asks.old.items + term_work other.entry) }
{
    match other {
        Term::Made(maker, variable) => {
            if same_wrap(wrap, maker) {
                ask(asks, part, Term::Variable(variable), variables)?;
                Ok(true)
            } else {
                Ok(false)
            }
        }
        Term::Closed(of) => closed_part(asks, wrap, part, of, variables),
        _ => Ok(false),
    }
}

/// Decomposes the equation of a type made of consecutive type variables, and another type.
fn grouped_with<'a>(
    asks: &mut Vec<Ask<'a>>,
    group: Group<'a>,
    first: usize,
    count: usize,
    other: Term<'a>,
    variables: usize,
) -> Result<bool, AllocError>
    requires first { first + count ≤ variables }
    requires made { IsMade other }
    requires other { TermWithin variables other }
    requires within { AsksWithin variables asks.old.items }
    ensures says { IfOk result (Says asks.old.items (λ t. grouped group.entry (types_of (list_at t first count)) ≡ value t other.entry) asks.new.items) }
    ensures within { IfOk result (λ answer. AsksWithin variables asks.new.items) }
    ensures less { IfOk result (λ answer. asks_work asks.new.items + 1 ≤ asks_work asks.old.items + term_work other.entry) }
{
    match other {
        Term::Grouped(maker, start, number) => {
            if same_group(group, maker) && count == number {
                ask_variables(asks, first, start, count, variables)?;
                Ok(true)
            } else {
                Ok(false)
            }
        }
        Term::Closed(of) => closed_parts(asks, group, first, count, of, variables),
        _ => Ok(false),
    }
}

/// Decomposes the equation of a type made of type variables, and another type that is no type variable.
pub fn ask_parts<'a>(
    asks: &mut Vec<Ask<'a>>,
    left: Term<'a>,
    right: Term<'a>,
    variables: usize,
) -> Result<bool, AllocError>
    requires parts { HasParts left }
    requires made { IsMade right }
    requires left { TermWithin variables left }
    requires right { TermWithin variables right }
    requires within { AsksWithin variables asks.old.items }
    ensures says { IfOk result (Says asks.old.items (λ t. value t left.entry ≡ value t right.entry) asks.new.items) }
    ensures within { IfOk result (λ answer. AsksWithin variables asks.new.items) }
    ensures less { IfOk result (λ answer. asks_work asks.new.items + 1 ≤ asks_work asks.old.items + term_work right.entry) }
{
    match left {
        Term::Made(wrap, part) => wrapped_parts(asks, wrap, part, right, variables),
        Term::Grouped(group, first, count) => {
            grouped_with(asks, group, first, count, right, variables)
        }
        _ => Ok(false),
    }
}
