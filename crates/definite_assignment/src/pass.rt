//! One pass over a body: the effects of its code on the 64 locals from a number on.

ghost use Rattle.std.specs.Prelude.{◌≡◌, ◌+◌, ◌<◌, ℕ, ltb, IfOk};
ghost use Rattle.typing_rules.specs.Pieces.{pieces, whole_flow};
ghost use Rattle.typing_rules.specs.LocalRules.{BodyFacts, body_flow, first_numbers};
ghost use Rattle.definite_assignment.specs.Sets.{has};
ghost use Rattle.definite_assignment.specs.Shown.{Means, Shows};
ghost use Rattle.definite_assignment.specs.Summaries.{AllStand};

use crate::effects::Effects;
use crate::forms::node_summary;
use crate::sets::LocalSet;
use crate::shown::{quiet, scope};
use crate::summary::{Summary, summary_at};
use base::memory::NoMemory;
use program::code::Body;
use program::declaration::AbilitySet;
use std::alloc::Global;

/// Returns the summary of each node of a body.
pub fn summaries(
    alloc: Global,
    base: usize,
    types: &[AbilitySet],
    body: &Body,
) -> Result<Vec<Summary>, NoMemory>
    ensures { IfOk result (λ found. AllStand base found.items (pieces types.now body.now.nodes)) }
{
    let mut found = Vec::new(alloc);
    for index in 0..body.len() {
        let next = node_summary(base, types, &found, body.node(index));
        found.push(next)?;
    }
    Ok(found)
}

/// The locals with numbers below a bound.
pub fn below(base: usize, bound: usize) -> LocalSet
    ensures { (i : ℕ) → i < 64 → has result i ≡ ltb (base + i) bound }
{
    if bound <= base {
        return LocalSet::none();
    }
    let count = bound - base;
    if count < 64 {
        LocalSet::first(count as u32)
    } else {
        LocalSet::all()
    }
}

/// The parameters, which are the first locals.
pub fn parameters_of(base: usize, parameters: usize) -> LocalSet
    ensures { Means base result (first_numbers parameters) }
{
    below(base, parameters)
}

/// The effects of the last node of a body.
fn whole_effects(
    alloc: Global,
    base: usize,
    types: &[AbilitySet],
    body: &Body,
) -> Result<Effects, NoMemory>
    ensures { IfOk result (λ found. Shows base found (whole_flow types.now body.now.nodes)) }
{
    let found = summaries(alloc, base, types, body)?;
    let count = found.len();
    if count == 0 {
        return Ok(quiet());
    }
    Ok(summary_at(&found, count - 1).effects)
}

/// Returns the effects of a body, at whose end the parameters end.
pub fn body_effects(
    alloc: Global,
    base: usize,
    types: &[AbilitySet],
    parameters: usize,
    body: &Body,
) -> Result<Effects, NoMemory>
    ensures { IfOk result (λ found. Shows base found (body_flow (record { types = types.now; parameters = parameters; nodes = body.now.nodes }))) }
{
    let whole = whole_effects(alloc, base, types, body)?;
    Ok(scope(parameters_of(base, parameters), &whole))
}
