//! Sets of unknowns.

ghost use Rattle.std.specs.Prelude.{◌≡◌, ◌≢◌, ◌↔◌, ◌<◌, ℕ, List, Contains, IsTrue, IfOk, IfSome, IfNone};
ghost use Rattle.std.specs.List.{AllPairs};
ghost use Rattle.step_checks.specs.Sets.{IsNumberSet};

use base::memory::NoMemory;
use std::alloc::Global;
use std::collections::BTreeSet;

/// The set of numbers that are all distinct. `None` if two of them are equal.
pub(crate) fn number_set(
    alloc: Global,
    numbers: &[usize],
) -> Result<Option<BTreeSet<usize>>, NoMemory>
    ensures some { IfOk result (λ made. IfSome made (IsNumberSet numbers.now)) }
    ensures different { IfOk result (λ made. IfSome made (λ _. AllPairs (λ first second. first ≢ second) numbers.now)) }
    ensures none { IfOk result (λ made. IfNone made (AllPairs (λ first second. first ≢ second) numbers.now → ⊥)) }
{
    let mut set = BTreeSet::new(alloc);
    for number in numbers {
        if !set.insert(*number)? {
            return Ok(None);
        }
    }
    Ok(Some(set))
}

/// Decides whether all numbers below a limit are in the set.
pub(crate) fn has_each_below(limit: usize, set: &BTreeSet<usize>) -> bool
    ensures { (numbers : List ℕ) → IsNumberSet numbers set.now → (IsTrue result ↔ ((n : ℕ) → n < limit → Contains numbers n)) }
{
    for number in 0..limit {
        if !set.contains(&number) {
            return false;
        }
    }
    true
}
