//! Steps taken from a budget.

ghost use Rattle.std.specs.Prelude.{◌≡◌, ◌+◌, ◌≤◌, true, false};

use base::steps::Steps;
use std::sync::ledger::Ledger;

/// Counts a step and returns true if one is left; else returns false.
pub(crate) fn take_step<L: Ledger>(steps: &mut Steps<L>, left: &mut u64) -> bool
    ensures taken { result ≡ true → left.new + 1 ≡ left.old }
    ensures none { result ≡ false → (left.old ≡ 0) × (left.new ≡ 0) }
    ensures counted { steps.new + left.new ≡ steps.old + left.old }
{
    if *left == 0 {
        return false;
    }
    *left -= 1;
    steps.tick();
    true
}

/// Counts `count` steps, or all that are left if they are fewer; returns how many were counted.
pub(crate) fn take_steps<L: Ledger>(steps: &mut Steps<L>, left: &mut u64, count: usize) -> usize
    ensures within { result ≤ count }
    ensures taken { left.new + result ≡ left.old }
    ensures all { (result ≡ count → ⊥) → left.new ≡ 0 }
    ensures counted { steps.new + left.new ≡ steps.old + left.old }
{
    let mut taken = 0;
    while taken < count && take_step(steps, left) {
        taken += 1;
    }
    taken
}
