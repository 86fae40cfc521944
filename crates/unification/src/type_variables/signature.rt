//! Written types with type variables substituted for their type parameters.

ghost use Rattle.std.specs.Prelude.{◌≡◌, ◌<◌, ◌≤◌, ◌+◌, ℕ, false, map, IfOk, OnOk, length};
ghost use Rattle.base.specs.TypeData.{TypeData, ParamType, types_of};
ghost use Rattle.unification.specs.Slots.{Typing, value, wrapped, grouped, list_at, Meets, Fits, TermWithin};
ghost use Rattle.unification.specs.Grown.{Grows};
ghost use Rattle.unification.specs.Instances.{instance, arguments};
ghost use Rattle.unification.specs.Terms.{AllWithin};

use crate::type_variables::open::add_bound;
use crate::type_variables::slots::{Group, Slot, Term, Wrap};
use base::types::{TypeNode, TypeTerm};
use std::alloc::{AllocError, Global};

/// The type variables for the first type parameters: so many consecutive ones, from this one on.
#[derive(Clone, Copy)]
pub struct Parameters {
    pub base: usize,
    pub count: usize,
}

/// Decides whether one of the first so many type parameters occurs in a type.
#[cycle(has_parameter)]
pub fn has_parameter(of: &TypeTerm, count: usize) -> bool
    ensures { result ≡ false → (t : Typing) (base : ℕ) → instance (arguments t base count) of.now ≡ of.now }
{
    match &of.node {
        TypeNode::Param(number) => (*number as usize) < count,
        TypeNode::Vector(item) => has_parameter(item, count),
        TypeNode::Shared(to) => has_parameter(to, count),
        TypeNode::Mutable(to) => has_parameter(to, count),
        TypeNode::Struct(_, types) => have_parameter(&types.items, count),
        TypeNode::Tuple(types) => have_parameter(&types.items, count),
        _ => false,
    }
}

#[cycle(has_parameter)]
fn have_parameter(types: &[TypeTerm], count: usize) -> bool
    ensures { result ≡ false → (t : Typing) (base : ℕ) → map (instance (arguments t base count)) types.now ≡ types.now }
{
    for of in types {
        if has_parameter(of, count) {
            return true;
        }
    }
    false
}

/// A type parameter as a term: for one of the first so many, its type variable.
pub fn parameter<'a>(
    of: &'a TypeTerm,
    number: u32,
    parameters: Parameters,
    variables: usize,
) -> Term<'a>
    requires { parameters.base + parameters.count ≤ variables }
    ensures within { TermWithin variables result }
    ensures is { (t : Typing) → of.now ≡ ParamType number → value t result ≡ arguments t parameters.base parameters.count number }
{
    let number = number as usize;
    if number < parameters.count {
        Term::Variable(parameters.base + number)
    } else {
        Term::Closed(of)
    }
}

/// Adds consecutive type variables with the types of terms.
fn add_all<'a>(slots: &mut Vec<Slot<'a>>, terms: &[Term<'a>]) -> Result<(), AllocError>
    requires fits { Fits slots.old.items }
    requires within { AllWithin (length slots.old.items) terms.now }
    ensures grows { OnOk result (Grows slots.old.items (λ t. Unit {0}) slots.new.items (λ t. Unit {0})) }
    ensures have { OnOk result ((t : Typing) → Meets slots.new.items t → list_at t (length slots.old.items) (length terms.now) ≡ map (value t) terms.now) }
    ensures count { OnOk result (length slots.new.items ≡ length slots.old.items + length terms.now) }
{
    for term in terms {
        add_bound(slots, *term)?;
    }
    Ok(())
}

/// The term that a constructor makes of a type, for which a type variable is added.
pub fn wrap_term<'a>(
    slots: &mut Vec<Slot<'a>>,
    wrap: Wrap,
    term: Term<'a>,
) -> Result<Term<'a>, AllocError>
    requires fits { Fits slots.old.items }
    requires term { TermWithin (length slots.old.items) term }
    ensures grows { IfOk result (λ made. Grows slots.old.items (λ t. Unit {0}) slots.new.items (λ t. Unit {0})) }
    ensures within { IfOk result (λ made. TermWithin (length slots.new.items) made) }
    ensures is { IfOk result (λ made. (t : Typing) → Meets slots.new.items t → value t made ≡ wrapped wrap (value t term.entry)) }
{
    let variable = slots.len();
    add_bound(slots, term)?;
    Ok(Term::Made(wrap, variable))
}

/// The term that a constructor makes of types, for which type variables are added.
pub fn group_terms<'a>(
    slots: &mut Vec<Slot<'a>>,
    group: Group<'a>,
    terms: &[Term<'a>],
) -> Result<Term<'a>, AllocError>
    requires fits { Fits slots.old.items }
    requires within { AllWithin (length slots.old.items) terms.now }
    ensures grows { IfOk result (λ made. Grows slots.old.items (λ t. Unit {0}) slots.new.items (λ t. Unit {0})) }
    ensures within { IfOk result (λ made. TermWithin (length slots.new.items) made) }
    ensures is { IfOk result (λ made. (t : Typing) → Meets slots.new.items t → value t made ≡ grouped group.entry (types_of (map (value t) terms.now))) }
{
    let first = slots.len();
    add_all(slots, terms)?;
    Ok(Term::Grouped(group, first, terms.len()))
}

/// A written type with type variables substituted for its first type parameters. Type variables are added for its parts
/// in which type parameters occur.
#[cycle(instance)]
pub fn instance<'a>(
    alloc: Global,
    slots: &mut Vec<Slot<'a>>,
    of: &'a TypeTerm,
    parameters: Parameters,
) -> Result<Term<'a>, AllocError>
    requires fits { Fits slots.old.items }
    requires parameters { parameters.base + parameters.count ≤ length slots.old.items }
    ensures grows { IfOk result (λ term. Grows slots.old.items (λ t. Unit {0}) slots.new.items (λ t. Unit {0})) }
    ensures within { IfOk result (λ term. TermWithin (length slots.new.items) term) }
    ensures is { IfOk result (λ term. (t : Typing) → Meets slots.new.items t → value t term ≡ instance (arguments t parameters.base parameters.count) of.now) }
{
    if !has_parameter(of, parameters.count) {
        return Ok(Term::Closed(of));
    }
    match &of.node {
        TypeNode::Param(number) => Ok(parameter(of, *number, parameters, slots.len())),
        TypeNode::Vector(part) => {
            let term = instance(alloc, slots, part, parameters)?;
            wrap_term(slots, Wrap::Vector, term)
        }
        TypeNode::Shared(part) => {
            let term = instance(alloc, slots, part, parameters)?;
            wrap_term(slots, Wrap::Shared, term)
        }
        TypeNode::Mutable(part) => {
            let term = instance(alloc, slots, part, parameters)?;
            wrap_term(slots, Wrap::Mutable, term)
        }
        TypeNode::Struct(id, types) => {
            let terms = instances(alloc, slots, &types.items, parameters)?;
            group_terms(slots, Group::Struct(id), &terms)
        }
        TypeNode::Tuple(types) => {
            let terms = instances(alloc, slots, &types.items, parameters)?;
            group_terms(slots, Group::Tuple, &terms)
        }
        _ => Ok(Term::Closed(of)),
    }
}

/// Written types with type variables substituted for their first type parameters.
#[cycle(instance)]
fn instances<'a>(
    alloc: Global,
    slots: &mut Vec<Slot<'a>>,
    parts: &'a [TypeTerm],
    parameters: Parameters,
) -> Result<Vec<Term<'a>>, AllocError>
    requires fits { Fits slots.old.items }
    requires parameters { parameters.base + parameters.count ≤ length slots.old.items }
    ensures grows { IfOk result (λ terms. Grows slots.old.items (λ t. Unit {0}) slots.new.items (λ t. Unit {0})) }
    ensures within { IfOk result (λ terms. AllWithin (length slots.new.items) terms.items) }
    ensures are { IfOk result (λ terms. (t : Typing) → Meets slots.new.items t → map (value t) terms.items ≡ map (instance (arguments t parameters.base parameters.count)) parts.now) }
{
    let mut terms = Vec::new(alloc);
    for part in parts {
        terms.push(instance(alloc, slots, part, parameters)?)?;
    }
    Ok(terms)
}
