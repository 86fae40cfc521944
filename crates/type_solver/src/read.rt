//! Types as specifications read them, as terms of the solver.

ghost use Rattle.std.specs.Prelude.{◌≡◌, ℕ, map, IfOk, length};
ghost use Rattle.base.specs.TypeData.{ParamType, types_of};
ghost use Rattle.typing_rules.specs.Constraint.{arguments};
ghost use Rattle.typing_rules.specs.Instances.{argument_in, instance, spec_type};
ghost use Rattle.unification.specs.Slots.{Typing, value, Meets, Fits, TermWithin};
ghost use Rattle.unification.specs.Grown.{Grows};
ghost use Rattle.unification.specs.Terms.{AllWithin};
ghost use Rattle.type_solver.specs.Plain.{ArePlain};
ghost use Rattle.type_solver.specs.Equations.{Keeps, TermSaid};
ghost use Rattle.type_solver.specs.Arguments.{ArgumentsWithin, stated};

use crate::plain::PlainTypes;
use base::memory::NoMemory;
use base::types::{TypeNode, TypeTerm};
use std::alloc::{AllocError, Global};
use unification::type_variables::signature::{Parameters, group_terms, parameter, wrap_term};
use unification::type_variables::slots::{Group, Slot, Term, Wrap};

/// The types substituted for type parameters, by their numbers: types, or consecutive type variables. A type parameter
/// for which there is none is unchanged.
#[derive(Clone, Copy)]
pub enum Arguments<'a> {
    Types(&'a [TypeTerm]),
    Variables(Parameters),
}

/// The type substituted for a type parameter, among these types.
fn type_argument<'a>(of: &'a TypeTerm, number: u32, types: &'a [TypeTerm]) -> Term<'a>
    ensures within { (n : ℕ) → TermWithin n result }
    ensures is { (t : Typing) → of.now ≡ ParamType number → value t result ≡ argument_in (types_of types.now) number }
{
    match types.get(number as usize) {
        Some(found) => Term::Closed(found),
        None => Term::Closed(of),
    }
}

/// The term substituted for a type parameter.
fn argument<'a>(
    of: &'a TypeTerm,
    number: u32,
    arguments: Arguments<'a>,
    variables: usize,
) -> Term<'a>
    requires { ArgumentsWithin variables arguments }
    ensures within { TermWithin variables result }
    ensures is { (t : Typing) → of.now ≡ ParamType number → value t result ≡ stated t arguments.entry number }
{
    match arguments {
        Arguments::Types(types) => type_argument(of, number, types),
        Arguments::Variables(parameters) => parameter(of, number, parameters, variables),
    }
}

/// A written type as specifications read it, with these arguments substituted for its type parameters. Type variables
/// are added for its parts.
#[cycle(read_term)]
fn read_term<'a>(
    alloc: Global,
    plain: &'a PlainTypes,
    slots: &mut Vec<Slot<'a>>,
    of: &'a TypeTerm,
    arguments: Arguments<'a>,
) -> Result<Term<'a>, AllocError>
    requires plain { ArePlain plain.now }
    requires fits { Fits slots.old.items }
    requires arguments { ArgumentsWithin (length slots.old.items) arguments }
    ensures grows { IfOk result (λ term. Grows slots.old.items (λ t. Unit {0}) slots.new.items (λ t. Unit {0})) }
    ensures within { IfOk result (λ term. TermWithin (length slots.new.items) term) }
    ensures is { IfOk result (λ term. (t : Typing) → Meets slots.new.items t → value t term ≡ instance (stated t arguments.entry) (spec_type of.now)) }
{
    match &of.node {
        TypeNode::Int(_) => Ok(Term::Closed(&plain.number)),
        TypeNode::Param(number) => Ok(argument(of, *number, arguments, slots.len())),
        TypeNode::Shared(part) => read_term(alloc, plain, slots, part, arguments),
        TypeNode::Mutable(part) => read_term(alloc, plain, slots, part, arguments),
        TypeNode::Vector(part) => {
            let term = read_term(alloc, plain, slots, part, arguments)?;
            wrap_term(slots, Wrap::Vector, term)
        }
        TypeNode::Struct(id, types) => {
            let terms = read_terms(alloc, plain, slots, &types.items, arguments)?;
            group_terms(slots, Group::Struct(id), &terms)
        }
        TypeNode::Tuple(types) => {
            let terms = read_terms(alloc, plain, slots, &types.items, arguments)?;
            group_terms(slots, Group::Tuple, &terms)
        }
        _ => Ok(Term::Closed(of)),
    }
}

/// Written types, each read in this way.
#[cycle(read_term)]
fn read_terms<'a>(
    alloc: Global,
    plain: &'a PlainTypes,
    slots: &mut Vec<Slot<'a>>,
    parts: &'a [TypeTerm],
    arguments: Arguments<'a>,
) -> Result<Vec<Term<'a>>, AllocError>
    requires plain { ArePlain plain.now }
    requires fits { Fits slots.old.items }
    requires arguments { ArgumentsWithin (length slots.old.items) arguments }
    ensures grows { IfOk result (λ terms. Grows slots.old.items (λ t. Unit {0}) slots.new.items (λ t. Unit {0})) }
    ensures within { IfOk result (λ terms. AllWithin (length slots.new.items) terms.items) }
    ensures are { IfOk result (λ terms. (t : Typing) → Meets slots.new.items t → map (value t) terms.items ≡ map (λ of. instance (stated t arguments.entry) (spec_type of)) parts.now) }
{
    let mut terms = Vec::new(alloc);
    for part in parts {
        terms.push(read_term(alloc, plain, slots, part, arguments)?)?;
    }
    Ok(terms)
}

/// The same, as what is known of the term.
pub fn read<'a>(
    alloc: Global,
    plain: &'a PlainTypes,
    slots: &mut Vec<Slot<'a>>,
    of: &'a TypeTerm,
    arguments: Arguments<'a>,
) -> Result<Term<'a>, NoMemory>
    requires plain { ArePlain plain.now }
    requires fits { Fits slots.old.items }
    requires arguments { ArgumentsWithin (length slots.old.items) arguments }
    ensures keeps { IfOk result (λ term. Keeps slots.old.items slots.new.items) }
    ensures said { IfOk result (λ term. TermSaid slots.old.items slots.new.items term (λ t. instance (stated t arguments.entry) (spec_type of.now))) }
{
    Ok(read_term(alloc, plain, slots, of, arguments)?)
}
