//! Early ends of an elimination.

ghost use Rattle.std.specs.Prelude.{◌≡◌};
ghost use Rattle.std.specs.Prelude.{List, IfOk};
ghost use Rattle.linear_arith.specs.Inequality.{Inequality};
ghost use Rattle.linear_arith.specs.Answer.{StopShows};
ghost use Rattle.linear_arith.specs.Wide.{IsWide};
ghost use Rattle.linear_arith.specs.declared.stop.Stop.TheVariants.{OutOfMemory};

use crate::rows::{LinAnswer, LinRow};
use base::memory::NoMemory;
use std::alloc::{AllocError, AllocFailed, Global};

/// An answer is reached, or there is not enough memory.
#[derive(Drop)]
pub enum Stop {
    Answered(LinAnswer),
    OutOfMemory,
}

impl From<NoMemory> for Stop {
    ghost from_gives = { λ _ stop. stop ≡ OutOfMemory };

    fn from(_error: NoMemory) -> Stop {
        Stop::OutOfMemory
    }
}

impl From<AllocError> for Stop {
    ghost from_gives = { λ _ stop. stop ≡ OutOfMemory };

    fn from(_error: AllocError) -> Stop {
        Stop::OutOfMemory
    }
}

impl<T: Drop> From<AllocFailed<T>> for Stop {
    ghost from_gives = { λ _ stop. stop ≡ OutOfMemory };

    fn from(_error: AllocFailed<T>) -> Stop {
        Stop::OutOfMemory
    }
}

/// Returns the answer that the sum of two constraints is not in 128 bits.
pub fn wide(alloc: Global, first: &LinRow, second: &LinRow) -> Result<Stop, NoMemory>
    ensures { (rows : List Inequality) → IsWide rows first.now second.now → IfOk result (StopShows rows) }
{
    let first = first.try_clone(alloc)?;
    let second = second.try_clone(alloc)?;
    Ok(Stop::Answered(LinAnswer::Wide(first, second)))
}
