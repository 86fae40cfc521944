//! Types as rules name them, as terms of the solver.

ghost use Rattle.std.specs.Prelude.{◌≤◌, ◌+◌, IfOk, length};
ghost use Rattle.type_constraints.specs.Seen.{builtin_type, read_data, seen_form};
ghost use Rattle.typing_rules.specs.Constraint.{arguments, form_type};
ghost use Rattle.typing_rules.specs.Instances.{instance};
ghost use Rattle.unification.specs.Slots.{value, wrapped, Fits, TermWithin};
ghost use Rattle.unification.specs.declared.type_variables.slots.Wrap.{Wrap as TheWrap};
ghost use Rattle.type_solver.specs.Plain.{ArePlain};
ghost use Rattle.type_solver.specs.Within.{FormWithin};
ghost use Rattle.type_solver.specs.Equations.{Keeps, TermSaid};

use crate::plain::{PlainTypes, plain_term};
use crate::read::{Arguments, read};
use base::memory::NoMemory;
use base::types::TypeTerm;
use std::alloc::Global;
use type_constraints::constraint::{BuiltinType, ReadType, TypeForm};
use unification::type_variables::signature::{Parameters, instance, wrap_term};
use unification::type_variables::slots::{Group, Slot, Term, Wrap};

/// The term that a constructor makes of a term.
fn made<'a>(slots: &mut Vec<Slot<'a>>, wrap: Wrap, term: Term<'a>) -> Result<Term<'a>, NoMemory>
    requires fits { Fits slots.old.items }
    requires term { TermWithin (length slots.old.items) term }
    ensures keeps { IfOk result (λ made. Keeps slots.old.items slots.new.items) }
    ensures said { IfOk result (λ made. TermSaid slots.old.items slots.new.items made (λ t. wrapped wrap (value t term.entry))) }
{
    Ok(wrap_term(slots, wrap, term)?)
}

/// The one type parameter. `NoMemory` where there is none, which no constraint brings about.
fn item<'a>(slots: &mut Vec<Slot<'a>>, parameters: Parameters) -> Result<Term<'a>, NoMemory>
    requires fits { Fits slots.old.items }
    requires parameters { parameters.base + parameters.count ≤ length slots.old.items }
    ensures keeps { IfOk result (λ term. Keeps slots.old.items slots.new.items) }
    ensures said { IfOk result (λ term. TermSaid slots.old.items slots.new.items term (λ t. arguments t parameters.base parameters.count 0)) }
{
    if parameters.count == 0 {
        return Err(NoMemory);
    }
    Ok(Term::Variable(parameters.base))
}

/// The term that a constructor makes of the one type parameter.
fn made_item<'a>(
    slots: &mut Vec<Slot<'a>>,
    wrap: Wrap,
    parameters: Parameters,
) -> Result<Term<'a>, NoMemory>
    requires fits { Fits slots.old.items }
    requires parameters { parameters.base + parameters.count ≤ length slots.old.items }
    ensures keeps { IfOk result (λ term. Keeps slots.old.items slots.new.items) }
    ensures said { IfOk result (λ term. TermSaid slots.old.items slots.new.items term (λ t. wrapped wrap (arguments t parameters.base parameters.count 0))) }
{
    let of = item(slots, parameters)?;
    made(slots, wrap, of)
}

/// The term that a constructor makes of a vector of the one type parameter.
fn made_vector<'a>(
    slots: &mut Vec<Slot<'a>>,
    wrap: Wrap,
    parameters: Parameters,
) -> Result<Term<'a>, NoMemory>
    requires fits { Fits slots.old.items }
    requires parameters { parameters.base + parameters.count ≤ length slots.old.items }
    ensures keeps { IfOk result (λ term. Keeps slots.old.items slots.new.items) }
    ensures said { IfOk result (λ term. TermSaid slots.old.items slots.new.items term (λ t. wrapped wrap (wrapped TheWrap.Vector (arguments t parameters.base parameters.count 0)))) }
{
    let of = made_item(slots, Wrap::Vector, parameters)?;
    made(slots, wrap, of)
}

/// A type in a signature of the language itself, as a term.
fn builtin<'a>(
    types: &'a PlainTypes,
    slots: &mut Vec<Slot<'a>>,
    of: BuiltinType,
    parameters: Parameters,
) -> Result<Term<'a>, NoMemory>
    requires types { ArePlain types.now }
    requires fits { Fits slots.old.items }
    requires parameters { parameters.base + parameters.count ≤ length slots.old.items }
    ensures keeps { IfOk result (λ term. Keeps slots.old.items slots.new.items) }
    ensures said { IfOk result (λ term. TermSaid slots.old.items slots.new.items term (λ t. instance (arguments t parameters.base parameters.count) (builtin_type of))) }
{
    match of {
        BuiltinType::Plain(plain) => Ok(plain_term(types, plain)),
        BuiltinType::Signer => Ok(Term::Closed(&types.signer)),
        BuiltinType::SharedSigner => made(slots, Wrap::Shared, Term::Closed(&types.signer)),
        BuiltinType::Item => item(slots, parameters),
        BuiltinType::SharedItem => made_item(slots, Wrap::Shared, parameters),
        BuiltinType::MutableItem => made_item(slots, Wrap::Mutable, parameters),
        BuiltinType::Vector => made_item(slots, Wrap::Vector, parameters),
        BuiltinType::SharedVector => made_vector(slots, Wrap::Shared, parameters),
        BuiltinType::MutableVector => made_vector(slots, Wrap::Mutable, parameters),
    }
}

/// A type of a declaration, as a term.
pub fn declared<'a>(
    alloc: Global,
    slots: &mut Vec<Slot<'a>>,
    of: &'a TypeTerm,
    parameters: Parameters,
) -> Result<Term<'a>, NoMemory>
    requires fits { Fits slots.old.items }
    requires parameters { parameters.base + parameters.count ≤ length slots.old.items }
    ensures keeps { IfOk result (λ term. Keeps slots.old.items slots.new.items) }
    ensures said { IfOk result (λ term. TermSaid slots.old.items slots.new.items term (λ t. instance (arguments t parameters.base parameters.count) of.now)) }
{
    Ok(instance(alloc, slots, of, parameters)?)
}

/// A type in a specification, as a term.
fn read_form<'a>(
    alloc: Global,
    types: &'a PlainTypes,
    slots: &mut Vec<Slot<'a>>,
    of: ReadType<'a>,
) -> Result<Term<'a>, NoMemory>
    requires types { ArePlain types.now }
    requires fits { Fits slots.old.items }
    ensures keeps { IfOk result (λ term. Keeps slots.old.items slots.new.items) }
    ensures said { IfOk result (λ term. TermSaid slots.old.items slots.new.items term (λ t. read_data of.entry)) }
{
    match of {
        ReadType::Known(known) => Ok(Term::Closed(known)),
        ReadType::Read(written) => read(alloc, types, slots, written, Arguments::Types(&[])),
        ReadType::ReadIn(written, given) => {
            read(alloc, types, slots, written, Arguments::Types(given))
        }
    }
}

/// A type as a rule names it, as a term.
pub fn form_term<'a>(
    alloc: Global,
    types: &'a PlainTypes,
    slots: &mut Vec<Slot<'a>>,
    form: TypeForm<'a>,
) -> Result<Term<'a>, NoMemory>
    requires types { ArePlain types.now }
    requires fits { Fits slots.old.items }
    requires within { FormWithin (length slots.old.items) (seen_form form) }
    ensures keeps { IfOk result (λ term. Keeps slots.old.items slots.new.items) }
    ensures said { IfOk result (λ term. TermSaid slots.old.items slots.new.items term (λ t. form_type t (seen_form form.entry))) }
{
    match form {
        TypeForm::Plain(plain) => Ok(plain_term(types, plain)),
        TypeForm::Written(of) => Ok(Term::Closed(of)),
        TypeForm::Read(of) => read_form(alloc, types, slots, of),
        TypeForm::Declared(of, base, count) => {
            declared(alloc, slots, of, Parameters { base, count })
        }
        TypeForm::DeclaredRead(of, base, count) => {
            let parameters = Parameters { base, count };
            read(alloc, types, slots, of, Arguments::Variables(parameters))
        }
        TypeForm::Builtin(of, base, count) => {
            builtin(types, slots, of, Parameters { base, count })
        }
        TypeForm::Applied(id, first, count) => {
            Ok(Term::Grouped(Group::Struct(id), first, count))
        }
    }
}
