//! Sums of numbers of nodes and of type variables.

ghost use Rattle.std.specs.Prelude.{◌≡◌, ◌+◌, IfOk};

use base::memory::NoMemory;

/// Returns the sum. `NoMemory` where it exceeds `usize`, as only with more nodes than any memory holds.
pub fn sum(left: usize, right: usize) -> Result<usize, NoMemory>
    ensures { IfOk result (λ total. total ≡ left + right) }
{
    left.checked_add(right).ok_or(NoMemory)
}
