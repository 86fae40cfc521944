//! One pass over a body, from its end to its start: the states of the 64 locals from a number on.

pub mod entering;
pub mod states;

ghost use Rattle.std.specs.Prelude.{◌≡◌, ◌+◌, ◌<◌, ℕ, Bool, ltb, length, IfOk};
ghost use Rattle.typing_rules.specs.LocalRules.{BodyFacts};
ghost use Rattle.definite_assignment.specs.LocalEffects.{same};
ghost use Rattle.definite_assignment.specs.Views.{is_in};
ghost use Rattle.definite_assignment.specs.PointsStates.{TellsFrom};
ghost use Rattle.definite_assignment.specs.Tables.{BeginsAtEnd, IsUnreached};

use crate::outcome::Ends;
use crate::pass::{below, summaries};
use crate::points::entering::enter_parts;
use crate::sets::LocalSet;
use base::memory::NoMemory;
use program::code::Body;
use program::declaration::AbilitySet;
use std::alloc::Global;

/// The states at the start of a body: exactly the parameters have values.
fn at_start(base: usize, parameters: usize) -> Ends
    ensures { (i : ℕ) (state : Bool) → i < 64 → is_in result state i ≡ same (ltb (base + i) parameters) state }
{
    let given = below(base, parameters);
    Ends {
        lacking: LocalSet::all().without(given),
        having: given,
    }
}

/// A table in which no node is entered.
fn no_states(alloc: Global, count: usize) -> Result<Vec<Ends>, NoMemory>
    ensures { IfOk result (λ table. IsUnreached count table.items) }
{
    let mut table = Vec::new(alloc);
    for _ in 0..count {
        table.push(Ends::none())?;
    }
    Ok(table)
}

/// A table of so many nodes, the last of which is entered in the states at the start of a body.
fn at_end(
    alloc: Global,
    base: usize,
    parameters: usize,
    count: usize,
) -> Result<Vec<Ends>, NoMemory>
    ensures { IfOk result (λ table. BeginsAtEnd base parameters count table.items) }
{
    let mut table = no_states(alloc, count)?;
    if count > 0 {
        table[count - 1] = at_start(base, parameters);
    }
    Ok(table)
}

/// Returns for each node the states of the 64 locals from a number on where control reaches it, on some path. Time and
/// memory grow with the nodes.
pub fn states_from(
    alloc: Global,
    base: usize,
    types: &[AbilitySet],
    parameters: usize,
    body: &Body,
) -> Result<Vec<Ends>, NoMemory>
    ensures { IfOk result (λ table. TellsFrom (record { types = types.now; parameters = parameters; nodes = body.now.nodes }) base table.items) }
{
    let summaries = summaries(alloc, base, types, body)?;
    let mut table = at_end(alloc, base, parameters, body.len())?;
    for index in (0..body.len()).rev() {
        let states = table[index];
        enter_parts(&mut table, &summaries, body.node(index), states);
    }
    Ok(table)
}
