//! The rules on the locals of a body.

ghost use Rattle.std.specs.Prelude.{◌≡◌, ◌<◌, ◌≤◌, ◌+◌, ◌&&◌, ◌||◌, ◌↔◌, ℕ, true, not, ltb, length, IfOk, IsTrue};
ghost use Rattle.typing_rules.specs.Events.{Unassigned, Undropped};
ghost use Rattle.typing_rules.specs.Pieces.{drops};
ghost use Rattle.typing_rules.specs.LocalRules.{BodyFacts, IsUnassigned, IsUndropped};
ghost use Rattle.definite_assignment.specs.Sets.{has};
ghost use Rattle.definite_assignment.specs.Verdicts.{IsWrong};

use crate::pass::{below, body_effects};
use crate::sets::LocalSet;
use base::memory::NoMemory;
use program::code::Body;
use program::declaration::AbilitySet;
use std::alloc::Global;

/// The rules on locals that a body breaks.
#[derive(Clone, Copy, Debug, PartialEq, Eq)]
pub struct BrokenRules {
    /// On some path a local is used without a value.
    pub unassigned: bool,
    /// On some path the value of a local whose type has no drop is left behind.
    pub undropped: bool,
}

impl BrokenRules {
    /// The rules that are broken here or there.
    fn or(self, other: BrokenRules) -> BrokenRules
        ensures unassigned { result.unassigned ≡ (self.unassigned || other.unassigned) }
        ensures undropped { result.undropped ≡ (self.undropped || other.undropped) }
    {
        BrokenRules {
            unassigned: self.unassigned | other.unassigned,
            undropped: self.undropped | other.undropped,
        }
    }
}

/// The locals on which a body breaks each rule.
#[derive(Clone, Copy)]
struct WrongLocals {
    unassigned: LocalSet,
    undropped: LocalSet,
}

/// Decides whether there is a local with this number whose type has no drop.
fn lacks_drop(types: &[AbilitySet], local: usize) -> bool
    ensures { result ≡ (ltb local (length types.now) && not (drops types.now local)) }
{
    match types.get(local) {
        Some(abilities) => !abilities.has_drop,
        None => false,
    }
}

/// The locals whose types have no drop.
fn undroppable(base: usize, types: &[AbilitySet]) -> LocalSet
    requires { base ≤ length types.now }
    ensures { (i : ℕ) → i < 64 → has result i ≡ (ltb (base + i) (length types.now) && not (drops types.now (base + i))) }
{
    let mut found = LocalSet::none();
    for index in 0..64u32 {
        if lacks_drop(types, base + index as usize) {
            found = found.union(LocalSet::one(index));
        }
    }
    found
}

/// The locals with a property at the start, where exactly the parameters have values.
fn at_start(lacking: LocalSet, having: LocalSet, parameters: LocalSet) -> LocalSet
    ensures { (i : ℕ) → i < 64 → has result i ≡ ((has parameters i && has having i) || (has lacking i && not (has parameters i))) }
{
    parameters.both(having).union(lacking.without(parameters))
}

/// The locals on which a body breaks each rule, among the 64 from a number on.
fn wrong_locals(
    alloc: Global,
    base: usize,
    types: &[AbilitySet],
    parameters: usize,
    body: &Body,
) -> Result<WrongLocals, NoMemory>
    requires { base ≤ length types.now }
    ensures unassigned { IfOk result (λ found. (i : ℕ) → i < 64 → (has found.unassigned i ≡ true) ↔ IsWrong Unassigned (record { types = types.now; parameters = parameters; nodes = body.now.nodes }) (base + i)) }
    ensures undropped { IfOk result (λ found. (i : ℕ) → i < 64 → (has found.undropped i ≡ true) ↔ IsWrong Undropped (record { types = types.now; parameters = parameters; nodes = body.now.nodes }) (base + i)) }
{
    let effects = body_effects(alloc, base, types, parameters, body)?;
    let given = below(base, parameters);
    let used = at_start(effects.lacking.unassigned, effects.having.unassigned, given);
    let left = at_start(effects.lacking.undropped, effects.having.undropped, given);
    Ok(WrongLocals {
        unassigned: below(base, types.len()).both(used),
        undropped: undroppable(base, types).both(left),
    })
}

/// The rules that a body breaks on the 64 locals from a number on.
fn broken_from(
    alloc: Global,
    base: usize,
    types: &[AbilitySet],
    parameters: usize,
    body: &Body,
) -> Result<BrokenRules, NoMemory>
    requires { base ≤ length types.now }
    ensures unassigned { IfOk result (λ broken. IsTrue broken.unassigned ↔ ((i : ℕ) × (i < 64) × IsWrong Unassigned (record { types = types.now; parameters = parameters; nodes = body.now.nodes }) (base + i))) }
    ensures undropped { IfOk result (λ broken. IsTrue broken.undropped ↔ ((i : ℕ) × (i < 64) × IsWrong Undropped (record { types = types.now; parameters = parameters; nodes = body.now.nodes }) (base + i))) }
{
    let wrong = wrong_locals(alloc, base, types, parameters, body)?;
    Ok(BrokenRules {
        unassigned: wrong.unassigned.is_some(),
        undropped: wrong.undropped.is_some(),
    })
}

/// Decides which rules on locals a body breaks, where `types` has the abilities of the types of its locals by their
/// numbers, and its first locals are parameters: whether on some control path a local is used without a value, and
/// whether on some control path the value of a local whose type has no drop is left behind. Time and memory grow with
/// the nodes of the body, once for each 64 locals.
pub fn broken_rules(
    alloc: Global,
    types: &[AbilitySet],
    parameters: usize,
    body: &Body,
) -> Result<BrokenRules, NoMemory>
    ensures unassigned { IfOk result (λ broken. IsTrue broken.unassigned ↔ IsUnassigned (record { types = types.now; parameters = parameters; nodes = body.now.nodes })) }
    ensures undropped { IfOk result (λ broken. IsTrue broken.undropped ↔ IsUndropped (record { types = types.now; parameters = parameters; nodes = body.now.nodes })) }
{
    let mut broken = BrokenRules {
        unassigned: false,
        undropped: false,
    };
    for group in 0..types.len() / 64 + 1 {
        let own = broken_from(alloc, group * 64, types, parameters, body)?;
        broken = broken.or(own);
    }
    Ok(broken)
}
