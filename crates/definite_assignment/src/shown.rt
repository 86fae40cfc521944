//! The effects of forms of code on the 64 locals from a number on.

ghost use Rattle.std.specs.Prelude.{◌≡◌, ◌+◌, ◌<◌, ℕ, eqb, List, [], ◌∷◌, ◌++◌, map};
ghost use Rattle.typing_rules.specs.Events.{Assigned, Declared, Moved, Overwritten, Used};
ghost use Rattle.typing_rules.specs.Flows.{Flow, Happens, Jump, Aborts, Then, Either, Turns, Scope, Broken, Continued, Returned, quiet};
ghost use Rattle.definite_assignment.specs.Sets.{has};
ghost use Rattle.definite_assignment.specs.Shown.{Means, Shows};

use crate::effects;
use crate::effects::{Effects, Step};
use crate::sets::LocalSet;

/// The set of a local, if it is one of the 64; else the empty set.
pub fn bit_of(base: usize, local: usize) -> LocalSet
    ensures { (i : ℕ) → i < 64 → has result i ≡ eqb local (base + i) }
{
    if local < base {
        return LocalSet::none();
    }
    let index = local - base;
    if index < 64 {
        LocalSet::one(index as u32)
    } else {
        LocalSet::none()
    }
}

/// Nothing happens.
pub fn quiet() -> Effects
    ensures { (base : ℕ) → Shows base result quiet }
{
    Step::none().effects()
}

/// A local is used.
pub fn used(base: usize, local: usize) -> Effects
    ensures { Shows base result (Happens (Used local ∷ [])) }
{
    let step = Step {
        needs: bit_of(base, local),
        ..Step::none()
    };
    step.effects()
}

/// The value of a local is moved out.
pub fn moved(base: usize, local: usize) -> Effects
    ensures { Shows base result (Happens (Moved local ∷ [])) }
{
    let own = bit_of(base, local);
    let step = Step {
        loses: own,
        needs: own,
        ..Step::none()
    };
    step.effects()
}

/// A local gets a value, which replaces one that it may have.
pub fn overwritten(base: usize, local: usize) -> Effects
    ensures { Shows base result (Happens (Overwritten local ∷ Assigned local ∷ [])) }
{
    let own = bit_of(base, local);
    let step = Step {
        gains: own,
        leaves: own,
        ..Step::none()
    };
    step.effects()
}

/// Locals are declared.
pub fn declared(locals: LocalSet) -> Effects
    ensures { (base : ℕ) (ls : List ℕ) → Means base locals ls → Shows base result (Happens (map Declared ls)) }
{
    let step = Step {
        loses: locals,
        ..Step::none()
    };
    step.effects()
}

/// Locals are declared and get values.
pub fn bound(locals: LocalSet) -> Effects
    ensures { (base : ℕ) (ls : List ℕ) → Means base locals ls → Shows base result (Happens (map Declared ls ++ map Assigned ls)) }
{
    let step = Step {
        gains: locals,
        ..Step::none()
    };
    step.effects()
}

/// `break`
pub fn broken() -> Effects
    ensures { (base : ℕ) → Shows base result (Jump Broken) }
{
    effects::broken()
}

/// `continue`
pub fn continued() -> Effects
    ensures { (base : ℕ) → Shows base result (Jump Continued) }
{
    effects::continued()
}

/// `return`
pub fn returned() -> Effects
    ensures { (base : ℕ) → Shows base result (Jump Returned) }
{
    effects::returned()
}

/// The run aborts.
pub fn aborted() -> Effects
    ensures { (base : ℕ) → Shows base result Aborts }
{
    Effects::over()
}

/// One piece of code, then another one.
pub fn then(first: &Effects, next: &Effects) -> Effects
    ensures { (base : ℕ) (f g : Flow) → Shows base first.now f → Shows base next.now g → Shows base result (Then f g) }
{
    first.then(next)
}

/// One piece of code or another one.
pub fn either(first: &Effects, second: &Effects) -> Effects
    ensures { (base : ℕ) (f g : Flow) → Shows base first.now f → Shows base second.now g → Shows base result (Either f g) }
{
    first.either(second)
}

/// A loop, each iteration of which is one piece of code and then a body.
pub fn turns(test: &Effects, body: &Effects) -> Effects
    ensures { (base : ℕ) (f g : Flow) → Shows base test.now f → Shows base body.now g → Shows base result (Turns f g) }
{
    test.turns(body)
}

/// Code at whose end locals end.
pub fn scope(locals: LocalSet, code: &Effects) -> Effects
    ensures { (base : ℕ) (ls : List ℕ) (f : Flow) → Means base locals ls → Shows base code.now f → Shows base result (Scope ls f) }
{
    code.scope(locals)
}
