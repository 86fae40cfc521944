//! What it means for the events of a path that a path breaks a rule.

ghost use Rattle.std.specs.Prelude.{◌≡◌, ◌↔◌, ℕ, Bool, true, List};
ghost use Rattle.typing_rules.specs.Events.{Event, Rule, is_broken};
ghost use Rattle.typing_rules.specs.Splits.{IsBrokenBy};

/// A law: events break a rule on a local if and only if one of them, after those before it, breaks it.
pub fn broken_by_one()
    ensures { (rule : Rule) (l : ℕ) (had : Bool) (events : List Event) → (is_broken rule l had events ≡ true) ↔ IsBrokenBy rule l had events }
{}
