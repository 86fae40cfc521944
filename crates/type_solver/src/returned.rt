//! The equations of returned values.

ghost use Rattle.std.specs.Prelude.{◌≡◌, ◌<◌, ◌≤◌, ◌+◌, ℕ, List, IfOk, length, true};
ghost use Rattle.type_constraints.specs.Seen.{seen_form};
ghost use Rattle.base.specs.TypeData.{TypeData, TupleType, types_of};
ghost use Rattle.typing_rules.specs.Constraint as D;
ghost use Rattle.typing_rules.specs.Rules.{TypeReading};
ghost use Rattle.unification.specs.Slots.{Fits, TermWithin};
ghost use Rattle.unification.specs.Heads.{KindWithin};
ghost use Rattle.unification.specs.Terms.{AllWithin};
ghost use Rattle.unification.specs.declared.type_variables.slots.Slot.{Slot as SlotData};
ghost use Rattle.unification.specs.declared.type_variables.heads.KindSeen.{KindSeen as KindData};
ghost use Rattle.type_solver.specs.Plain.{ArePlain};
ghost use Rattle.type_solver.specs.Within.{IsWritten};
ghost use Rattle.type_solver.specs.Equations.{Keeps, KindSaid, Emits};
ghost use Rattle.type_solver.specs.Tuples.{is_shared, TupleSaid, PartAt, PartSaid, PartsSaid};

use crate::constraints::takes;
use crate::equation::Equation;
use crate::kinds::kind_at;
use crate::plain::PlainTypes;
use crate::tuples::{Parts, tuple_at, tuple_types};
use base::memory::NoMemory;
use base::types::{TypeNode, TypeTerm};
use std::alloc::Global;
use type_constraints::constraint::TypeForm;
use unification::type_variables::heads::KindSeen;
use unification::type_variables::signature::{group_terms, wrap_term};
use unification::type_variables::slots::{Group, Slot, Term, Wrap};

fn is_shared(of: &TypeTerm) -> bool
    ensures { result ≡ is_shared of.now }
{
    matches!(&of.node, TypeNode::Shared(_))
}

/// The type of a returned part that is a reference of this kind, where a shared reference is returned.
fn lent_to<'a>(
    slots: &mut Vec<Slot<'a>>,
    wrap: Wrap,
    variable: usize,
    to: Term<'a>,
) -> Result<Term<'a>, NoMemory>
    requires fits { Fits slots.old.items }
    requires variable { variable < length slots.old.items }
    requires to { TermWithin (length slots.old.items) to }
    ensures keeps { IfOk result (λ term. Keeps slots.old.items slots.new.items) }
    ensures within { IfOk result (λ term. TermWithin (length slots.new.items) term) }
    ensures said { IfOk result (λ term. (before seen : List SlotData) (e i : ℕ) (wanted : TypeData) → PartAt before seen e i variable → KindSaid seen slots.old.items variable (KindData.To wrap to.entry) → is_shared wanted ≡ true → PartSaid before slots.new.items e i variable wanted term) }
{
    match wrap {
        Wrap::Mutable => {
            let shared = wrap_term(slots, Wrap::Shared, to)?;
            Ok(shared)
        }
        Wrap::Vector => Ok(Term::Variable(variable)),
        Wrap::Shared => Ok(Term::Variable(variable)),
    }
}

/// The type of a returned part whose kind is known, where a shared reference is returned.
fn lent_as<'a>(
    slots: &mut Vec<Slot<'a>>,
    kind: KindSeen<'a>,
    variable: usize,
) -> Result<Term<'a>, NoMemory>
    requires fits { Fits slots.old.items }
    requires variable { variable < length slots.old.items }
    requires kind { KindWithin (length slots.old.items) kind }
    ensures keeps { IfOk result (λ term. Keeps slots.old.items slots.new.items) }
    ensures within { IfOk result (λ term. TermWithin (length slots.new.items) term) }
    ensures said { IfOk result (λ term. (before seen : List SlotData) (e i : ℕ) (wanted : TypeData) → PartAt before seen e i variable → KindSaid seen slots.old.items variable kind.entry → is_shared wanted ≡ true → PartSaid before slots.new.items e i variable wanted term) }
{
    match kind {
        KindSeen::Unsettled => Ok(Term::Variable(variable)),
        KindSeen::Plain => Ok(Term::Variable(variable)),
        KindSeen::To(wrap, to) => lent_to(slots, wrap, variable, to),
    }
}

/// The type of a returned part where this type is returned: a shared reference instead of a mutable one if it is lent.
fn lent_part<'a>(
    slots: &mut Vec<Slot<'a>>,
    variable: usize,
    wanted: &TypeTerm,
) -> Result<Term<'a>, NoMemory>
    requires fits { Fits slots.old.items }
    requires variable { variable < length slots.old.items }
    ensures keeps { IfOk result (λ term. Keeps slots.old.items slots.new.items) }
    ensures within { IfOk result (λ term. TermWithin (length slots.new.items) term) }
    ensures said { IfOk result (λ term. (before : List SlotData) (e i : ℕ) → PartAt before slots.old.items e i variable → PartSaid before slots.new.items e i variable wanted.now term) }
{
    if !is_shared(wanted) {
        return Ok(Term::Variable(variable));
    }
    let kind = kind_at(slots, variable);
    lent_as(slots, kind, variable)
}

/// The type of each returned part, where these types are returned.
fn lent_parts<'a>(
    alloc: Global,
    slots: &mut Vec<Slot<'a>>,
    parts: Parts,
    types: &[TypeTerm],
    variables: usize,
) -> Result<Vec<Term<'a>>, NoMemory>
    requires fits { Fits slots.old.items }
    requires count { parts.count ≡ length types.now }
    requires within { parts.first + parts.count ≤ variables }
    requires variables { variables ≤ length slots.old.items }
    ensures keeps { IfOk result (λ terms. Keeps slots.old.items slots.new.items) }
    ensures within { IfOk result (λ terms. AllWithin (length slots.new.items) terms.items) }
    ensures said { IfOk result (λ terms. (before : List SlotData) (e : ℕ) → TupleSaid before slots.old.items e parts → PartsSaid before slots.new.items e 0 parts.first types.now terms.items) }
{
    let mut terms = Vec::new(alloc);
    for (i, of) in types.iter().enumerate() {
        terms.push(lent_part(slots, parts.first + i, of)?)?;
    }
    Ok(terms)
}

/// The equation of a returned tuple of the types of these variables, where this tuple is returned.
fn returns_parts<'a>(
    alloc: Global,
    slots: &mut Vec<Slot<'a>>,
    variable: usize,
    parts: Parts,
    of: &'a TypeTerm,
    types: &[TypeTerm],
) -> Result<Equation<'a>, NoMemory>
    requires fits { Fits slots.old.items }
    requires variable { variable < length slots.old.items }
    requires parts { parts.first + parts.count ≤ length slots.old.items }
    requires types { of.now ≡ TupleType (types_of types.now) }
    ensures keeps { IfOk result (λ q. Keeps slots.old.items slots.new.items) }
    ensures emits { IfOk result (λ q. (w : TypeReading) (before : List SlotData) → TupleSaid before slots.old.items variable parts → Emits w before slots.new.items (D.Returns variable (D.Written of.now)) q) }
{
    if parts.count != types.len() {
        return Ok(Equation::Equal(Term::Variable(variable), Term::Closed(of)));
    }
    let variables = slots.len();
    let terms = lent_parts(alloc, slots, parts, types, variables)?;
    let term = group_terms(slots, Group::Tuple, &terms)?;
    Ok(Equation::Equal(term, Term::Closed(of)))
}

/// The equation of a returned value where this tuple is returned.
fn returns_tuple<'a>(
    alloc: Global,
    slots: &mut Vec<Slot<'a>>,
    variable: usize,
    of: &'a TypeTerm,
    types: &[TypeTerm],
) -> Result<Equation<'a>, NoMemory>
    requires fits { Fits slots.old.items }
    requires variable { variable < length slots.old.items }
    requires types { of.now ≡ TupleType (types_of types.now) }
    ensures keeps { IfOk result (λ q. Keeps slots.old.items slots.new.items) }
    ensures emits { IfOk result (λ q. (w : TypeReading) → Emits w slots.old.items slots.new.items (D.Returns variable (D.Written of.now)) q) }
{
    let seen = tuple_at(slots, variable)?;
    match seen {
        None => Ok(Equation::Equal(Term::Variable(variable), Term::Closed(of))),
        Some(parts) => returns_parts(alloc, slots, variable, parts, of, types),
    }
}

/// The equation of a returned value where this written type is returned.
fn returns_written<'a>(
    alloc: Global,
    types: &'a PlainTypes,
    slots: &mut Vec<Slot<'a>>,
    variable: usize,
    of: &'a TypeTerm,
) -> Result<Equation<'a>, NoMemory>
    requires types { ArePlain types.now }
    requires fits { Fits slots.old.items }
    requires variable { variable < length slots.old.items }
    ensures keeps { IfOk result (λ q. Keeps slots.old.items slots.new.items) }
    ensures emits { IfOk result (λ q. (w : TypeReading) → Emits w slots.old.items slots.new.items (D.Returns variable (D.Written of.now)) q) }
{
    match tuple_types(of) {
        None => takes(alloc, types, slots, variable, TypeForm::Written(of)),
        Some(parts) => returns_tuple(alloc, slots, variable, of, parts),
    }
}

/// The equation of a returned value where this type, which is a written one, is returned. `NoMemory` where it is one in a
/// specification, which returns nothing.
pub fn returns<'a>(
    alloc: Global,
    types: &'a PlainTypes,
    slots: &mut Vec<Slot<'a>>,
    variable: usize,
    form: TypeForm<'a>,
) -> Result<Equation<'a>, NoMemory>
    requires types { ArePlain types.now }
    requires fits { Fits slots.old.items }
    requires variable { variable < length slots.old.items }
    requires written { IsWritten (seen_form form) }
    ensures keeps { IfOk result (λ q. Keeps slots.old.items slots.new.items) }
    ensures emits { IfOk result (λ q. (w : TypeReading) → Emits w slots.old.items slots.new.items (D.Returns variable (seen_form form.entry)) q) }
{
    match form {
        TypeForm::Written(of) => returns_written(alloc, types, slots, variable, of),
        TypeForm::Read(_) => Err(NoMemory),
        _ => takes(alloc, types, slots, variable, form),
    }
}
