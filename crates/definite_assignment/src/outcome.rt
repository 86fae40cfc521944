//! The states in which locals may be where a path exits code.

ghost use Rattle.std.specs.Prelude.{◌≡◌, ◌<◌, ◌&&◌, ◌||◌, ℕ, Bool, true, false, not};
ghost use Rattle.typing_rules.specs.Events.{Rule};
ghost use Rattle.typing_rules.specs.Flows.{Way};
ghost use Rattle.definite_assignment.specs.LocalEffects.{is_onward};
ghost use Rattle.definite_assignment.specs.Sets.{has};
ghost use Rattle.definite_assignment.specs.Views.{is_in, may, wrong};

use crate::sets::LocalSet;

/// The locals that may have no value, and those that may have one.
#[derive(Clone, Copy)]
pub struct Ends {
    pub lacking: LocalSet,
    pub having: LocalSet,
}

/// The states in which locals may be at each kind of exit of code, and the locals on which it may break a rule.
#[derive(Clone, Copy)]
pub struct Outcome {
    pub onward: Ends,
    pub broken: Ends,
    pub continued: Ends,
    pub returned: Ends,
    pub unassigned: LocalSet,
    pub undropped: LocalSet,
}

impl Ends {
    /// Returns no state of any local.
    pub fn none() -> Ends
        ensures { (i : ℕ) (state : Bool) → is_in result state i ≡ false }
    {
        Ends {
            lacking: LocalSet::none(),
            having: LocalSet::none(),
        }
    }

    /// The states that either of two allows.
    pub fn union(self, other: Ends) -> Ends
        ensures { (i : ℕ) (state : Bool) → is_in result state i ≡ (is_in self state i || is_in other state i) }
    {
        Ends {
            lacking: self.lacking.union(other.lacking),
            having: self.having.union(other.having),
        }
    }

    /// The same states, for these locals alone.
    pub fn of(self, locals: LocalSet) -> Ends
        ensures { (i : ℕ) (state : Bool) → is_in result state i ≡ (has locals i && is_in self state i) }
    {
        Ends {
            lacking: locals.both(self.lacking),
            having: locals.both(self.having),
        }
    }
}

impl Outcome {
    /// Returns the outcome of code that has no exit and breaks no rule.
    pub fn none() -> Outcome
        ensures ends { (i : ℕ) (way : Way) (state : Bool) → may result way state i ≡ false }
        ensures broken { (i : ℕ) (rule : Rule) → wrong result rule i ≡ false }
    {
        Outcome {
            onward: Ends::none(),
            broken: Ends::none(),
            continued: Ends::none(),
            returned: Ends::none(),
            unassigned: LocalSet::none(),
            undropped: LocalSet::none(),
        }
    }

    /// The outcome of either of two pieces of code.
    pub fn union(self, other: Outcome) -> Outcome
        ensures ends { (i : ℕ) (way : Way) (state : Bool) → may result way state i ≡ (may self way state i || may other way state i) }
        ensures broken { (i : ℕ) (rule : Rule) → wrong result rule i ≡ (wrong self rule i || wrong other rule i) }
    {
        Outcome {
            onward: self.onward.union(other.onward),
            broken: self.broken.union(other.broken),
            continued: self.continued.union(other.continued),
            returned: self.returned.union(other.returned),
            unassigned: self.unassigned.union(other.unassigned),
            undropped: self.undropped.union(other.undropped),
        }
    }

    /// The same outcome, for these locals alone.
    pub fn of(self, locals: LocalSet) -> Outcome
        ensures ends { (i : ℕ) (way : Way) (state : Bool) → may result way state i ≡ (has locals i && may self way state i) }
        ensures broken { (i : ℕ) (rule : Rule) → wrong result rule i ≡ (has locals i && wrong self rule i) }
    {
        Outcome {
            onward: self.onward.of(locals),
            broken: self.broken.of(locals),
            continued: self.continued.of(locals),
            returned: self.returned.of(locals),
            unassigned: locals.both(self.unassigned),
            undropped: locals.both(self.undropped),
        }
    }

    /// The same outcome, without the paths that go on.
    pub fn away(self) -> Outcome
        ensures ends { (i : ℕ) (way : Way) (state : Bool) → may result way state i ≡ (not (is_onward way) && may self way state i) }
        ensures broken { (i : ℕ) (rule : Rule) → wrong result rule i ≡ wrong self rule i }
    {
        Outcome {
            onward: Ends::none(),
            ..self
        }
    }
}
