//! The reference semantics of Move: what runs do, what clauses say of them, and when a function keeps its contract.
#![tactic(auto)]

ghost use Rattle.semantics.specs.Operations.{IsFull};
ghost use Rattle.semantics.specs.Runs.{ChangesNothingByAborts, IsSameWithMore};
ghost use Rattle.semantics.specs.TypedTrees.{TypedFunctions};

/// A law: a run that is over has the same outcome with more turns.
#[tactic(auto, using(crate::proofs::MoreTurns::same_with_more))]
pub fn same_with_more_turns()
    ensures { (functions : TypedFunctions) → IsSameWithMore functions }
{}

/// A law: a run that aborts ends in the state of its start.
#[tactic(auto, using(crate::proofs::Ends::aborts_change_nothing))]
pub fn aborts_change_nothing()
    ensures { (functions : TypedFunctions) → ChangesNothingByAborts functions }
{}

/// A law: a run that adds an item to a vector of 2^64 - 1 items is unfinished, whatever the turns.
#[tactic(auto, using(crate::proofs::Ends::full))]
pub fn longest_vector_is_full()
    ensures { IsFull }
{}
