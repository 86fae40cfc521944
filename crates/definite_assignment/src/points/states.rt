//! The states of all locals of a body at its nodes.

ghost use Rattle.std.specs.Prelude.{◌≡◌, ◌<◌, Bool, length, IfOk};
ghost use Rattle.typing_rules.specs.LocalRules.{BodyFacts};
ghost use Rattle.definite_assignment.specs.Sets.{has};
ghost use Rattle.definite_assignment.specs.Views.{is_in};
ghost use Rattle.definite_assignment.specs.PointsStates.{AreStates, IsStateOf, may_be};

use crate::outcome::Ends;
use crate::points::states_from;
use crate::sets::LocalSet;
use base::memory::NoMemory;
use program::code::Body;
use program::declaration::AbilitySet;
use std::alloc::Global;
use std::marker::Model;

/// The state of a local where control reaches a node.
#[derive(Clone, Copy, Debug, PartialEq, Eq)]
pub enum LocalState {
    /// No path reaches the node.
    Unreached,
    /// It has no value on any path that reaches the node.
    Unassigned,
    /// It has a value on every path that reaches the node.
    Assigned,
    /// It has a value on some paths that reach the node, and none on others.
    Unsure,
}

/// The states of 64 locals for each node of a body.
#[derive(Drop)]
pub struct GroupStates {
    table: Vec<Ends>,
}

impl Model for GroupStates {
    ghost use Rattle.std.specs.Prelude.{List};
    ghost use Rattle.definite_assignment.specs.declared.outcome.Ends.{Ends};

    ghost Value = { List Ends };

    ghost view = { λ s. s.table.items };
}

/// The states of the locals of a body where control reaches its nodes, for each 64 locals in turn.
#[derive(Drop)]
pub struct LocalStates {
    groups: Vec<GroupStates>,
}

/// Decides whether a local is in a set.
fn is_among(locals: LocalSet, index: u32) -> bool
    requires { index < 64 }
    ensures { result ≡ has locals index }
{
    LocalSet::one(index).both(locals).is_some()
}

/// The state of one of 64 locals.
fn state_of(states: Ends, index: u32) -> LocalState
    requires { index < 64 }
    ensures { (had : Bool) → may_be result had ≡ is_in states had index }
{
    match (
        is_among(states.lacking, index),
        is_among(states.having, index),
    ) {
        (false, false) => LocalState::Unreached,
        (true, false) => LocalState::Unassigned,
        (false, true) => LocalState::Assigned,
        (true, true) => LocalState::Unsure,
    }
}

/// Returns the states of the locals of a body, where `types` has the abilities of their types by their numbers, and the
/// first locals are parameters. Time and memory grow with the nodes of the body, once for each 64 locals.
pub fn local_states(
    alloc: Global,
    types: &[AbilitySet],
    parameters: usize,
    body: &Body,
) -> Result<LocalStates, NoMemory>
    ensures { IfOk result (λ states. AreStates (record { types = types.now; parameters = parameters; nodes = body.now.nodes }) states) }
{
    let mut groups = Vec::new(alloc);
    for group in 0..types.len() / 64 + 1 {
        let table = states_from(alloc, group * 64, types, parameters, body)?;
        groups.push(GroupStates { table })?;
    }
    Ok(LocalStates { groups })
}

impl LocalStates {
    /// The state of a local where control reaches a node of the body to which these states belong.
    pub fn at(&self, node: usize, local: usize) -> LocalState
        ensures { (body : BodyFacts) → AreStates body self.now → node < length body.nodes → local < length body.types → IsStateOf body local node result }
    {
        match self.groups.get(local / 64) {
            Some(group) => match group.table.get(node) {
                Some(states) => state_of(*states, (local % 64) as u32),
                None => LocalState::Unreached,
            },
            None => LocalState::Unreached,
        }
    }
}
