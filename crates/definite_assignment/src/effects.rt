//! The effects of code on 64 locals, over all paths through it.

ghost use Rattle.std.specs.Prelude.{◌≡◌, ◌<◌, ◌&&◌, ◌||◌, ℕ, Bool, true, false, not};
ghost use Rattle.typing_rules.specs.Events.{Rule};
ghost use Rattle.typing_rules.specs.Flows.{Way, Onward, Broken, Continued, Returned};
ghost use Rattle.definite_assignment.specs.LocalEffects.{LocalEffect, at_some, either_of, is_onward, is_undropped, jump_of, out_ends, over, reached, same, scope_of, step_broken, step_of, stepped, then_of, to_next_of, to_out_of, turns_of};
ghost use Rattle.definite_assignment.specs.Sets.{has};
ghost use Rattle.definite_assignment.specs.Views.{is_in, may, outcome_of, view, wrong};

use crate::outcome::{Ends, Outcome};
use crate::sets::LocalSet;

/// The effects of code on locals: on those that have no value before it, and on those that have one.
#[derive(Clone, Copy)]
pub struct Effects {
    pub lacking: Outcome,
    pub having: Outcome,
}

/// A step that all paths take: the locals that get a value in it, those that lose theirs, those that must have one, and
/// those whose value is left behind.
#[derive(Clone, Copy)]
pub struct Step {
    pub gains: LocalSet,
    pub loses: LocalSet,
    pub needs: LocalSet,
    pub leaves: LocalSet,
}

impl Step {
    /// Returns a step that concerns no local.
    pub fn none() -> Step
        ensures gains { (i : ℕ) → has result.gains i ≡ false }
        ensures loses { (i : ℕ) → has result.loses i ≡ false }
        ensures needs { (i : ℕ) → has result.needs i ≡ false }
        ensures leaves { (i : ℕ) → has result.leaves i ≡ false }
    {
        let none = LocalSet::none();
        Step {
            gains: none,
            loses: none,
            needs: none,
            leaves: none,
        }
    }

    /// The effects of code that takes this step.
    pub fn effects(self) -> Effects
        ensures ends { (i : ℕ) (had : Bool) (way : Way) (state : Bool) → i < 64 → may (outcome_of result had) way state i ≡ (is_onward way && same (stepped (has self.gains i) (has self.loses i) had) state) }
        ensures broken { (i : ℕ) (had : Bool) (rule : Rule) → i < 64 → wrong (outcome_of result had) rule i ≡ step_broken (has self.needs i) (has self.leaves i) rule had }
    {
        let all = LocalSet::all();
        let none = Outcome::none();
        Effects {
            lacking: Outcome {
                onward: Ends {
                    lacking: all.without(self.gains),
                    having: self.gains,
                },
                unassigned: self.needs,
                ..none
            },
            having: Outcome {
                onward: Ends {
                    lacking: self.loses,
                    having: all.without(self.loses),
                },
                undropped: self.leaves,
                ..none
            },
        }
    }
}

/// The outcome of code from these states on.
pub fn from_states(start: Ends, code: &Effects) -> Outcome
    ensures ends { (i : ℕ) (way : Way) (state : Bool) → may result way state i ≡ at_some (λ s. is_in start s i) (λ s. may (outcome_of code.now s) way state i) }
    ensures broken { (i : ℕ) (rule : Rule) → wrong result rule i ≡ at_some (λ s. is_in start s i) (λ s. wrong (outcome_of code.now s) rule i) }
{
    let lacking = code.lacking.of(start.lacking);
    let having = code.having.of(start.having);
    lacking.union(having)
}

/// The outcome of code, followed by other code.
fn after(first: Outcome, next: &Effects) -> Outcome
    ensures ends { (i : ℕ) (way : Way) (state : Bool) → may result way state i ≡ ((not (is_onward way) && may first way state i) || at_some (λ s. may first Onward s i) (λ s. may (outcome_of next.now s) way state i)) }
    ensures broken { (i : ℕ) (rule : Rule) → wrong result rule i ≡ (wrong first rule i || at_some (λ s. may first Onward s i) (λ s. wrong (outcome_of next.now s) rule i)) }
{
    let rest = from_states(first.onward, next);
    first.away().union(rest)
}

/// The states after locals end.
fn close_ends(ends: Ends, locals: LocalSet) -> Ends
    ensures { (i : ℕ) (state : Bool) → i < 64 → is_in result state i ≡ at_some (λ s. is_in ends s i) (λ s. same (s && not (has locals i)) state) }
{
    Ends {
        lacking: ends.lacking.union(ends.having.both(locals)),
        having: ends.having.without(locals),
    }
}

/// The locals that code may exit with a value.
fn kept(outcome: Outcome) -> LocalSet
    ensures { (i : ℕ) → has result i ≡ ((may outcome Onward true i || may outcome Broken true i) || (may outcome Continued true i || may outcome Returned true i)) }
{
    let inside = outcome.onward.having.union(outcome.broken.having);
    let outside = outcome.continued.having.union(outcome.returned.having);
    inside.union(outside)
}

/// The outcome of code at whose end these locals end.
fn close(outcome: Outcome, locals: LocalSet) -> Outcome
    ensures ends { (i : ℕ) (way : Way) (state : Bool) → i < 64 → may result way state i ≡ at_some (λ s. may outcome way s i) (λ s. same (s && not (has locals i)) state) }
    ensures broken { (i : ℕ) (rule : Rule) → wrong result rule i ≡ (wrong outcome rule i || (is_undropped rule && (has locals i && ((may outcome Onward true i || may outcome Broken true i) || (may outcome Continued true i || may outcome Returned true i))))) }
{
    let left = locals.both(kept(outcome));
    Outcome {
        onward: close_ends(outcome.onward, locals),
        broken: close_ends(outcome.broken, locals),
        continued: close_ends(outcome.continued, locals),
        returned: close_ends(outcome.returned, locals),
        unassigned: outcome.unassigned,
        undropped: outcome.undropped.union(left),
    }
}

/// The outcome of a body in an iteration that goes on to the next one.
fn to_next(outcome: Outcome) -> Outcome
    ensures ends { (i : ℕ) (way : Way) (state : Bool) → may result way state i ≡ (is_onward way && (may outcome Onward state i || may outcome Continued state i)) }
    ensures broken { (i : ℕ) (rule : Rule) → wrong result rule i ≡ wrong outcome rule i }
{
    Outcome {
        onward: outcome.onward.union(outcome.continued),
        unassigned: outcome.unassigned,
        undropped: outcome.undropped,
        ..Outcome::none()
    }
}

/// The outcome of a body in the iteration in which the loop is left.
fn to_out(outcome: Outcome) -> Outcome
    ensures ends { (i : ℕ) (way : Way) (state : Bool) → may result way state i ≡ out_ends (record { ends = λ had w s. may outcome w s i; broken = λ rule had. false }) true way state }
    ensures broken { (i : ℕ) (rule : Rule) → wrong result rule i ≡ wrong outcome rule i }
{
    Outcome {
        onward: outcome.broken,
        broken: Ends::none(),
        continued: Ends::none(),
        ..outcome
    }
}

impl Effects {
    /// The effects of code that no path exits, and that breaks no rule.
    pub fn over() -> Effects
        ensures ends { (i : ℕ) (had : Bool) (way : Way) (state : Bool) → may (outcome_of result had) way state i ≡ false }
        ensures broken { (i : ℕ) (had : Bool) (rule : Rule) → wrong (outcome_of result had) rule i ≡ false }
    {
        let none = Outcome::none();
        Effects {
            lacking: none,
            having: none,
        }
    }

    /// The effects of this code, followed by other code.
    pub fn then(&self, next: &Effects) -> Effects
        ensures ends { (i : ℕ) (had : Bool) (way : Way) (state : Bool) → may (outcome_of result had) way state i ≡ (then_of (view self.now i) (view next.now i)).ends had way state }
        ensures broken { (i : ℕ) (had : Bool) (rule : Rule) → wrong (outcome_of result had) rule i ≡ (then_of (view self.now i) (view next.now i)).broken rule had }
    {
        Effects {
            lacking: after(self.lacking, next),
            having: after(self.having, next),
        }
    }

    /// The effects of this code or other code.
    pub fn either(&self, other: &Effects) -> Effects
        ensures ends { (i : ℕ) (had : Bool) (way : Way) (state : Bool) → may (outcome_of result had) way state i ≡ (either_of (view self.now i) (view other.now i)).ends had way state }
        ensures broken { (i : ℕ) (had : Bool) (rule : Rule) → wrong (outcome_of result had) rule i ≡ (either_of (view self.now i) (view other.now i)).broken rule had }
    {
        Effects {
            lacking: self.lacking.union(other.lacking),
            having: self.having.union(other.having),
        }
    }

    /// The effects of this code, at whose end these locals end.
    pub fn scope(&self, locals: LocalSet) -> Effects
        ensures ends { (i : ℕ) (had : Bool) (way : Way) (state : Bool) → i < 64 → may (outcome_of result had) way state i ≡ (scope_of (has locals i) (view self.now i)).ends had way state }
        ensures broken { (i : ℕ) (had : Bool) (rule : Rule) → i < 64 → wrong (outcome_of result had) rule i ≡ (scope_of (has locals i) (view self.now i)).broken rule had }
    {
        Effects {
            lacking: close(self.lacking, locals),
            having: close(self.having, locals),
        }
    }

    fn to_next(&self) -> Effects
        ensures ends { (i : ℕ) (had : Bool) (way : Way) (state : Bool) → may (outcome_of result had) way state i ≡ (to_next_of (view self.now i)).ends had way state }
        ensures broken { (i : ℕ) (had : Bool) (rule : Rule) → wrong (outcome_of result had) rule i ≡ (to_next_of (view self.now i)).broken rule had }
    {
        Effects {
            lacking: to_next(self.lacking),
            having: to_next(self.having),
        }
    }

    fn to_out(&self) -> Effects
        ensures ends { (i : ℕ) (had : Bool) (way : Way) (state : Bool) → may (outcome_of result had) way state i ≡ (to_out_of (view self.now i)).ends had way state }
        ensures broken { (i : ℕ) (had : Bool) (rule : Rule) → wrong (outcome_of result had) rule i ≡ (to_out_of (view self.now i)).broken rule had }
    {
        Effects {
            lacking: to_out(self.lacking),
            having: to_out(self.having),
        }
    }

    /// The effects of a loop, each iteration of which is this code and then a body.
    pub fn turns(&self, body: &Effects) -> Effects
        ensures ends { (i : ℕ) (had : Bool) (way : Way) (state : Bool) → i < 64 → may (outcome_of result had) way state i ≡ (turns_of (view self.now i) (view body.now i)).ends had way state }
        ensures broken { (i : ℕ) (had : Bool) (rule : Rule) → i < 64 → wrong (outcome_of result had) rule i ≡ (turns_of (view self.now i) (view body.now i)).broken rule had }
    {
        let last = self.then(&body.to_out());
        let (lacking, having) = turn_starts(self, body);
        Effects {
            lacking: from_states(lacking, &last),
            having: from_states(having, &last),
        }
    }
}

/// The states at the start of an iteration of a loop, each iteration of which is one piece of code and then a body: of
/// the locals that have no value before the loop, and of those that have one.
pub fn turn_starts(test: &Effects, body: &Effects) -> (Ends, Ends)
    ensures lacking { (i : ℕ) (state : Bool) → i < 64 → is_in result.0 state i ≡ reached (view test.now i) (view body.now i) false state }
    ensures having { (i : ℕ) (state : Bool) → i < 64 → is_in result.1 state i ≡ reached (view test.now i) (view body.now i) true state }
{
    let turn = test.then(&body.to_next());
    let all = LocalSet::all();
    let lacking = Ends {
        lacking: all,
        having: turn.lacking.onward.having,
    };
    let having = Ends {
        lacking: turn.having.onward.lacking,
        having: all,
    };
    (lacking, having)
}

/// All locals without a value.
fn all_lacking() -> Ends
    ensures { (i : ℕ) (state : Bool) → i < 64 → is_in result state i ≡ same false state }
{
    Ends {
        lacking: LocalSet::all(),
        having: LocalSet::none(),
    }
}

/// All locals with a value.
fn all_having() -> Ends
    ensures { (i : ℕ) (state : Bool) → i < 64 → is_in result state i ≡ same true state }
{
    Ends {
        lacking: LocalSet::none(),
        having: LocalSet::all(),
    }
}

/// The effects of `break`.
pub fn broken() -> Effects
    ensures ends { (i : ℕ) (had : Bool) (way : Way) (state : Bool) → i < 64 → may (outcome_of result had) way state i ≡ (jump_of Broken).ends had way state }
    ensures broken { (i : ℕ) (had : Bool) (rule : Rule) → wrong (outcome_of result had) rule i ≡ false }
{
    let none = Outcome::none();
    Effects {
        lacking: Outcome {
            broken: all_lacking(),
            ..none
        },
        having: Outcome {
            broken: all_having(),
            ..none
        },
    }
}

/// The effects of `continue`.
pub fn continued() -> Effects
    ensures ends { (i : ℕ) (had : Bool) (way : Way) (state : Bool) → i < 64 → may (outcome_of result had) way state i ≡ (jump_of Continued).ends had way state }
    ensures broken { (i : ℕ) (had : Bool) (rule : Rule) → wrong (outcome_of result had) rule i ≡ false }
{
    let none = Outcome::none();
    Effects {
        lacking: Outcome {
            continued: all_lacking(),
            ..none
        },
        having: Outcome {
            continued: all_having(),
            ..none
        },
    }
}

/// The effects of `return`.
pub fn returned() -> Effects
    ensures ends { (i : ℕ) (had : Bool) (way : Way) (state : Bool) → i < 64 → may (outcome_of result had) way state i ≡ (jump_of Returned).ends had way state }
    ensures broken { (i : ℕ) (had : Bool) (rule : Rule) → wrong (outcome_of result had) rule i ≡ false }
{
    let none = Outcome::none();
    Effects {
        lacking: Outcome {
            returned: all_lacking(),
            ..none
        },
        having: Outcome {
            returned: all_having(),
            ..none
        },
    }
}
