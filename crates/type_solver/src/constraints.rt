//! The equations of constraints on references, given the heads before them.

ghost use Rattle.std.specs.Prelude.{◌≡◌, ◌<◌, ℕ, List, IfOk, length};
ghost use Rattle.type_constraints.specs.Seen.{seen_form};
ghost use Rattle.typing_rules.specs.Constraint as D;
ghost use Rattle.typing_rules.specs.Rules.{TypeReading};
ghost use Rattle.unification.specs.Slots.{Fits, TermWithin};
ghost use Rattle.unification.specs.declared.type_variables.slots.Slot.{Slot as SlotData};
ghost use Rattle.unification.specs.Heads.{KindWithin};
ghost use Rattle.type_solver.specs.Plain.{ArePlain};
ghost use Rattle.type_solver.specs.Within.{FormWithin};
ghost use Rattle.type_solver.specs.Equations.{Keeps, KindSaid, Emits, GivenSays, written_through};

use crate::equation::Equation;
use crate::forms::form_term;
use crate::kinds::kind_at;
use crate::plain::PlainTypes;
use base::memory::NoMemory;
use std::alloc::Global;
use type_constraints::constraint::TypeForm;
use unification::type_variables::heads::KindSeen;
use unification::type_variables::open::add_bound;
use unification::type_variables::slots::{Slot, Term, Wrap};

/// The equation that the first variable is the type that the second points at.
pub fn target_of<'a>(slots: &mut Vec<Slot<'a>>, variable: usize, from: usize) -> Equation<'a>
    requires fits { Fits slots.old.items }
    requires variable { variable < length slots.old.items }
    requires from { from < length slots.old.items }
    ensures emits { (w : TypeReading) → Emits w slots.old.items slots.new.items (D.TargetOf variable from) result }
    ensures keeps { Keeps slots.old.items slots.new.items }
{
    let seen = kind_at(slots, from);
    match seen {
        KindSeen::Unsettled => Equation::Unsettled,
        KindSeen::Plain => Equation::Never,
        KindSeen::To(_, to) => Equation::Equal(to, Term::Variable(variable)),
    }
}

/// The equation of a write through a reference of this kind.
fn written_through<'a>(wrap: Wrap) -> Equation<'a>
    ensures { result ≡ written_through wrap }
{
    match wrap {
        Wrap::Shared => Equation::Never,
        Wrap::Vector | Wrap::Mutable => Equation::Always,
    }
}

/// The equation of a write, or a mutable borrow, through the variable's type, if it is a reference.
pub fn through<'a>(slots: &mut Vec<Slot<'a>>, variable: usize) -> Equation<'a>
    requires fits { Fits slots.old.items }
    requires variable { variable < length slots.old.items }
    ensures emits { (w : TypeReading) → Emits w slots.old.items slots.new.items (D.Through variable) result }
    ensures keeps { Keeps slots.old.items slots.new.items }
{
    let seen = kind_at(slots, variable);
    match seen {
        KindSeen::Unsettled => Equation::Unsettled,
        KindSeen::Plain => Equation::Always,
        KindSeen::To(wrap, _) => written_through(wrap),
    }
}

/// The equation of a write to what the variable's type points at.
pub fn behind<'a>(slots: &mut Vec<Slot<'a>>, variable: usize) -> Equation<'a>
    requires fits { Fits slots.old.items }
    requires variable { variable < length slots.old.items }
    ensures emits { (w : TypeReading) → Emits w slots.old.items slots.new.items (D.Behind variable) result }
    ensures keeps { Keeps slots.old.items slots.new.items }
{
    let seen = kind_at(slots, variable);
    match seen {
        KindSeen::Unsettled => Equation::Unsettled,
        KindSeen::Plain => Equation::Never,
        KindSeen::To(wrap, _) => written_through(wrap),
    }
}

/// The equation of a comparison whose left side is a reference to the type of a term.
fn alike_to<'a>(to: Term<'a>, second: KindSeen<'a>, left: usize, right: usize) -> Equation<'a>
    ensures { (w : TypeReading) (old new : List SlotData) (wrap : Wrap) → KindSaid old new left (KindSeen.To wrap to.entry) → KindSaid old new right second.entry → left < length old → right < length old → Emits w old new (D.Alike left right) result }
{
    match second {
        KindSeen::Unsettled => Equation::Equal(Term::Variable(left), Term::Variable(right)),
        KindSeen::Plain => Equation::Equal(Term::Variable(left), Term::Variable(right)),
        KindSeen::To(_, other) => Equation::Equal(to, other),
    }
}

fn alike_by<'a>(
    first: KindSeen<'a>,
    second: KindSeen<'a>,
    left: usize,
    right: usize,
) -> Equation<'a>
    ensures { (w : TypeReading) (old new : List SlotData) → KindSaid old new left first.entry → KindSaid old new right second.entry → left < length old → right < length old → Emits w old new (D.Alike left right) result }
{
    match first {
        KindSeen::Unsettled => Equation::Equal(Term::Variable(left), Term::Variable(right)),
        KindSeen::Plain => Equation::Equal(Term::Variable(left), Term::Variable(right)),
        KindSeen::To(_, to) => alike_to(to, second, left, right),
    }
}

/// The equation of a comparison of values of the types of two variables.
pub fn alike<'a>(slots: &mut Vec<Slot<'a>>, left: usize, right: usize) -> Equation<'a>
    requires fits { Fits slots.old.items }
    requires left { left < length slots.old.items }
    requires right { right < length slots.old.items }
    ensures emits { (w : TypeReading) → Emits w slots.old.items slots.new.items (D.Alike left right) result }
    ensures keeps { Keeps slots.old.items slots.new.items }
{
    let first = kind_at(slots, left);
    let second = kind_at(slots, right);
    alike_by(first, second, left, right)
}

/// The equation of a mutable reference that is given.
fn lent<'a>(
    slots: &mut Vec<Slot<'a>>,
    to: Term<'a>,
    wanted: Term<'a>,
) -> Result<Equation<'a>, NoMemory>
    requires fits { Fits slots.old.items }
    requires to { TermWithin (length slots.old.items) to }
    requires wanted { TermWithin (length slots.old.items) wanted }
    ensures keeps { IfOk result (λ q. Keeps slots.old.items slots.new.items) }
    ensures says { IfOk result (λ q. (old : List SlotData) (e : ℕ) → KindSaid old slots.old.items e (KindSeen.To Wrap.Mutable to.entry) → e < length old → GivenSays old slots.new.items e wanted.entry q) }
{
    let variable = slots.len();
    add_bound(slots, wanted)?;
    Ok(Equation::Lent(to, variable))
}

/// The equation of a reference of this kind that is given.
fn given_to<'a>(
    slots: &mut Vec<Slot<'a>>,
    wrap: Wrap,
    to: Term<'a>,
    variable: usize,
    wanted: Term<'a>,
) -> Result<Equation<'a>, NoMemory>
    requires fits { Fits slots.old.items }
    requires to { TermWithin (length slots.old.items) to }
    requires variable { variable < length slots.old.items }
    requires wanted { TermWithin (length slots.old.items) wanted }
    ensures keeps { IfOk result (λ q. Keeps slots.old.items slots.new.items) }
    ensures says { IfOk result (λ q. (old : List SlotData) → KindSaid old slots.old.items variable (KindSeen.To wrap to.entry) → variable < length old → GivenSays old slots.new.items variable wanted.entry q) }
{
    match wrap {
        Wrap::Mutable => lent(slots, to, wanted),
        Wrap::Vector => Ok(Equation::Equal(Term::Variable(variable), wanted)),
        Wrap::Shared => Ok(Equation::Equal(Term::Variable(variable), wanted)),
    }
}

/// The equation of a value that is given where the type of a term is required, from what is known of its kind.
pub fn given<'a>(
    slots: &mut Vec<Slot<'a>>,
    seen: KindSeen<'a>,
    variable: usize,
    wanted: Term<'a>,
) -> Result<Equation<'a>, NoMemory>
    requires fits { Fits slots.old.items }
    requires seen { KindWithin (length slots.old.items) seen }
    requires variable { variable < length slots.old.items }
    requires wanted { TermWithin (length slots.old.items) wanted }
    ensures keeps { IfOk result (λ q. Keeps slots.old.items slots.new.items) }
    ensures says { IfOk result (λ q. (old : List SlotData) → KindSaid old slots.old.items variable seen.entry → variable < length old → GivenSays old slots.new.items variable wanted.entry q) }
{
    match seen {
        KindSeen::Unsettled => Ok(Equation::Equal(Term::Variable(variable), wanted)),
        KindSeen::Plain => Ok(Equation::Equal(Term::Variable(variable), wanted)),
        KindSeen::To(wrap, to) => given_to(slots, wrap, to, variable, wanted),
    }
}

/// The equation of a value that is given where this type is required.
pub fn takes<'a>(
    alloc: Global,
    types: &'a PlainTypes,
    slots: &mut Vec<Slot<'a>>,
    variable: usize,
    form: TypeForm<'a>,
) -> Result<Equation<'a>, NoMemory>
    requires types { ArePlain types.now }
    requires fits { Fits slots.old.items }
    requires variable { variable < length slots.old.items }
    requires form { FormWithin (length slots.old.items) (seen_form form) }
    ensures keeps { IfOk result (λ q. Keeps slots.old.items slots.new.items) }
    ensures emits { IfOk result (λ q. (w : TypeReading) → Emits w slots.old.items slots.new.items (D.Takes variable (seen_form form.entry)) q) }
{
    let wanted = form_term(alloc, types, slots, form)?;
    let seen = kind_at(slots, variable);
    given(slots, seen, variable, wanted)
}
