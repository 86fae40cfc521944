//! Constraints on fields of structs.

ghost use Rattle.std.specs.Prelude.{◌≡◌, ◌<◌, ◌≤◌, ◌+◌, ℕ, List, IfOk, length};
ghost use Rattle.std.specs.Map.{lookup};
ghost use Rattle.std.specs.Option.{option_copied};
ghost use Rattle.program.specs.Same.{same_struct};
ghost use Rattle.typing_rules.specs.Constraint as D;
ghost use Rattle.typing_rules.specs.Constraint.{arguments};
ghost use Rattle.typing_rules.specs.Instances.{instance, read_type};
ghost use Rattle.typing_rules.specs.Rules.{field_of};
ghost use Rattle.unification.specs.Slots.{Fits, TermWithin};
ghost use Rattle.unification.specs.declared.type_variables.slots.Slot.{Slot as SlotData};
ghost use Rattle.unification.specs.declared.type_variables.slots.Term.{Term as TermData};
ghost use Rattle.unification.specs.Heads.{StructWithin};
ghost use Rattle.type_solver.specs.Equations.{Keeps, KindSaid, Emits, TermSaid, reading_of};
ghost use Rattle.type_solver.specs.Plain.{ArePlain};
ghost use Rattle.type_solver.specs.Owners.{OwnerSays, OwnerSaid, StructSaid};

use crate::emit::Tables;
use crate::equation::Equation;
use crate::forms::declared;
use crate::kinds::kind_at;
use crate::plain::PlainTypes;
use crate::read::{Arguments, read};
use base::memory::NoMemory;
use base::name::Name;
use base::types::{StructId, TypeTerm};
use program::declaration::Struct;
use program::table::Table;
use std::alloc::Global;
use type_constraints::code::structs::field_named;
use unification::type_variables::heads::{KindSeen, StructSeen, struct_seen};
use unification::type_variables::signature::Parameters;
use unification::type_variables::slots::{Slot, Term};

/// The type of the field of this name of a struct.
fn field_type<'a>(
    structs: &'a Table<StructId, Struct>,
    id: &StructId,
    name: &Name,
) -> Option<&'a TypeTerm>
    ensures { option_copied result ≡ field_of (lookup (same_struct id.now) structs.now) name.now }
{
    match structs.get(id) {
        Some(found) => field_named(found.fields.as_slice(), name),
        None => None,
    }
}

/// The type of a variable, or the type that it points at if it is a reference. None where it is not known whether it is
/// a reference.
fn owner<'a>(seen: KindSeen<'a>, variable: usize) -> Option<Term<'a>>
    ensures { (old new : List SlotData) → KindSaid old new variable seen.entry → variable < length old → OwnerSays old new variable result }
{
    match seen {
        KindSeen::Unsettled => None,
        KindSeen::Plain => Some(Term::Variable(variable)),
        KindSeen::To(_, to) => Some(to),
    }
}

/// The type of a field, whose type parameters are type variables, as a term.
fn field_term<'a>(
    alloc: Global,
    types: &'a PlainTypes,
    is_spec: bool,
    slots: &mut Vec<Slot<'a>>,
    of: &'a TypeTerm,
    parameters: Parameters,
) -> Result<Term<'a>, NoMemory>
    requires types { ArePlain types.now }
    requires fits { Fits slots.old.items }
    requires parameters { parameters.base + parameters.count ≤ length slots.old.items }
    ensures keeps { IfOk result (λ term. Keeps slots.old.items slots.new.items) }
    ensures said { IfOk result (λ term. TermSaid slots.old.items slots.new.items term (λ t. instance (arguments t parameters.base parameters.count) (read_type is_spec of.now))) }
{
    if is_spec {
        read(alloc, types, slots, of, Arguments::Variables(parameters))
    } else {
        declared(alloc, slots, of, parameters)
    }
}

/// The equation that the variable is the type of the field of this name, where this struct is known of the owner.
fn field_in<'a>(
    alloc: Global,
    tables: Tables<'a>,
    slots: &mut Vec<Slot<'a>>,
    seen: StructSeen<'a>,
    variable: usize,
    name: &Name,
) -> Result<Equation<'a>, NoMemory>
    requires types { ArePlain tables.types.now }
    requires fits { Fits slots.old.items }
    requires variable { variable < length slots.old.items }
    requires seen { StructWithin (length slots.old.items) seen }
    ensures keeps { IfOk result (λ q. Keeps slots.old.items slots.new.items) }
    ensures emits { IfOk result (λ q. (old : List SlotData) (from : ℕ) (owner : TermData) → StructSaid old slots.old.items from owner seen.entry → from < length old → Emits (reading_of tables.entry) old slots.new.items (D.FieldOf variable from name.now) q) }
{
    match seen {
        StructSeen::Unknown => Ok(Equation::Unsettled),
        StructSeen::Other => Ok(Equation::Never),
        StructSeen::Known(id, base, count) => match field_type(tables.structs, id, name) {
            None => Ok(Equation::Never),
            Some(of) => {
                let parameters = Parameters { base, count };
                let term = field_term(alloc, tables.types, tables.is_spec, slots, of, parameters)?;
                Ok(Equation::Equal(Term::Variable(variable), term))
            }
        },
    }
}

/// The equation that the variable is the type of the field of this name of a term.
fn field_of_owner<'a>(
    alloc: Global,
    tables: Tables<'a>,
    slots: &mut Vec<Slot<'a>>,
    term: Term<'a>,
    variable: usize,
    name: &Name,
) -> Result<Equation<'a>, NoMemory>
    requires types { ArePlain tables.types.now }
    requires fits { Fits slots.old.items }
    requires variable { variable < length slots.old.items }
    requires term { TermWithin (length slots.old.items) term }
    ensures keeps { IfOk result (λ q. Keeps slots.old.items slots.new.items) }
    ensures emits { IfOk result (λ q. (old : List SlotData) (from : ℕ) → OwnerSaid old slots.old.items from term.entry → from < length old → Emits (reading_of tables.entry) old slots.new.items (D.FieldOf variable from name.now) q) }
{
    let seen = struct_seen(slots, term)?;
    field_in(alloc, tables, slots, seen, variable, name)
}

/// The equation that the first variable is the type of the field of this name of the second.
pub fn field<'a>(
    alloc: Global,
    tables: Tables<'a>,
    slots: &mut Vec<Slot<'a>>,
    variable: usize,
    from: usize,
    name: &Name,
) -> Result<Equation<'a>, NoMemory>
    requires types { ArePlain tables.types.now }
    requires fits { Fits slots.old.items }
    requires variable { variable < length slots.old.items }
    requires from { from < length slots.old.items }
    ensures keeps { IfOk result (λ q. Keeps slots.old.items slots.new.items) }
    ensures emits { IfOk result (λ q. Emits (reading_of tables.entry) slots.old.items slots.new.items (D.FieldOf variable from name.now) q) }
{
    let kind = kind_at(slots, from);
    match owner(kind, from) {
        None => Ok(Equation::Unsettled),
        Some(term) => field_of_owner(alloc, tables, slots, term, variable, name),
    }
}
