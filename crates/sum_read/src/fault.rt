//! Why a tree is not read.

ghost use Rattle.std.specs.Prelude.{◌≡◌};

use base::memory::NoMemory;
use std::alloc::AllocFailed;

/// Why a tree is not read.
#[derive(Clone, Copy, Debug, PartialEq, Eq)]
pub enum FormFault {
    /// The tree is not of the supported form.
    NotBuilt,
    /// Memory ran out.
    NoMemory,
}

impl From<NoMemory> for FormFault {
    ghost use Rattle.sum_read.specs.declared.fault.FormFault.{FormFault};

    ghost from_gives = { λ _ fault. fault ≡ FormFault.NoMemory };

    fn from(_error: NoMemory) -> FormFault {
        FormFault::NoMemory
    }
}

impl<T: Drop> From<AllocFailed<T>> for FormFault {
    ghost use Rattle.sum_read.specs.declared.fault.FormFault.{FormFault};

    ghost from_gives = { λ _ fault. fault ≡ FormFault.NoMemory };

    fn from(_error: AllocFailed<T>) -> FormFault {
        FormFault::NoMemory
    }
}
