//! The step count of a search against its budget.

ghost use Rattle.std.specs.Prelude.{◌≡◌, ◌+◌, true, false};

use crate::steps::Steps;
use std::sync::ledger::Ledger;

/// Counts one more step and returns true if one is left; else returns false.
pub fn take_step<L: Ledger>(steps: &mut Steps<L>, left: &mut u64) -> bool
    ensures counted { steps.new + left.new ≡ steps.old + left.old }
    ensures taken { result ≡ true → left.old ≡ left.new + 1 }
    ensures none { result ≡ false → (left.old ≡ 0) × (left.new ≡ 0) }
{
    if *left == 0 {
        return false;
    }
    *left -= 1;
    steps.tick();
    true
}
