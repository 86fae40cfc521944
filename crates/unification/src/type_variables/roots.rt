//! The representatives of unified type variables, with path halving.

ghost use Rattle.std.specs.Prelude.{◌≡◌, ◌<◌, ◌≤◌, ℕ, MatchOption, length};
ghost use Rattle.unification.specs.Slots.{Typing, Meets, Fits, Becomes, slot_at, IsRoot, work};

use crate::type_variables::slots::{Slot, Term};

/// The type variable that a type variable refers to.
fn next_link<'a>(slots: &[Slot<'a>], at: usize) -> Option<usize>
    requires { at < length slots.now }
    ensures { MatchOption result (IsRoot (slot_at slots.now at)) (λ next. slot_at slots.now at ≡ Slot.Bound (Term.Variable next)) }
{
    let slot = slots[at];
    match slot {
        Slot::Open(_) => None,
        Slot::Bound(term) => match term {
            Term::Variable(next) => Some(next),
            _ => None,
        },
    }
}

/// Path halving: lets a type variable refer past the next one, if that refers to another. Returns the variable that it
/// then refers to.
fn halve<'a>(slots: &mut [Slot<'a>], at: usize, next: usize) -> usize
    requires fits { Fits slots.old }
    requires within { at < length slots.old }
    requires bound { slot_at slots.old at ≡ Slot.Bound (Term.Variable next) }
    ensures below { result < at }
    ensures same { (t : Typing) → Meets slots.new t → t at ≡ t result }
    ensures becomes { Becomes slots.old (λ t. Unit {0}) slots.new (λ t. Unit {0}) }
    ensures stays { (p : ℕ) → IsRoot (slot_at slots.old p) → slot_at slots.new p ≡ slot_at slots.old p }
    ensures work { work slots.new ≤ work slots.old }
{
    match next_link(slots, next) {
        None => next,
        Some(after) => {
            slots[at] = Slot::Bound(Term::Variable(after));
            after
        }
    }
}

/// Returns the representative of a type variable. Variables on the path to it then reach it in fewer steps.
pub fn root<'a>(slots: &mut [Slot<'a>], variable: usize) -> usize
    requires fits { Fits slots.old }
    requires within { variable < length slots.old }
    ensures within { result < length slots.new }
    ensures root { IsRoot (slot_at slots.new result) }
    ensures same { (t : Typing) → Meets slots.new t → t variable ≡ t result }
    ensures becomes { Becomes slots.old (λ t. Unit {0}) slots.new (λ t. Unit {0}) }
    ensures stays { (p : ℕ) → IsRoot (slot_at slots.old p) → slot_at slots.new p ≡ slot_at slots.old p }
    ensures work { work slots.new ≤ work slots.old }
{
    let mut at = variable;
    while let Some(next) = next_link(slots, at) {
        at = halve(slots, at, next);
    }
    at
}
