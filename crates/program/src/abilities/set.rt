//! Sets of abilities.

ghost use Rattle.std.specs.Prelude.{◌≡◌};
ghost use Rattle.program.specs.Sets.{all_abilities, both, no_abilities};

use crate::declaration::AbilitySet;

/// Returns the set of all abilities.
pub fn all_abilities() -> AbilitySet
    ensures { result ≡ all_abilities }
{
    AbilitySet {
        has_copy: true,
        has_drop: true,
        has_store: true,
        has_key: true,
    }
}

/// Returns the empty set of abilities.
pub fn no_abilities() -> AbilitySet
    ensures { result ≡ no_abilities }
{
    AbilitySet {
        has_copy: false,
        has_drop: false,
        has_store: false,
        has_key: false,
    }
}

/// Returns the abilities that are in both sets.
pub fn both(left: AbilitySet, right: AbilitySet) -> AbilitySet
    ensures { result ≡ both left right }
{
    AbilitySet {
        has_copy: left.has_copy && right.has_copy,
        has_drop: left.has_drop && right.has_drop,
        has_store: left.has_store && right.has_store,
        has_key: left.has_key && right.has_key,
    }
}
