//! Names without a meaning.

ghost use Rattle.std.specs.Prelude.{◌≡◌};

use base::memory::NoMemory;
use std::alloc::AllocFailed;

/// The reason why a name has no meaning.
#[derive(Clone, Copy, Debug, PartialEq, Eq)]
pub enum NameFault {
    /// The name has no declaration that it could mean.
    Unknown,
    NoMemory,
}

impl From<NoMemory> for NameFault {
    ghost use Rattle.scopes.specs.declared.fault.NameFault.{NameFault};

    ghost from_gives = { λ _ fault. fault ≡ NameFault.NoMemory };

    fn from(_error: NoMemory) -> NameFault {
        NameFault::NoMemory
    }
}

impl<T: Drop> From<AllocFailed<T>> for NameFault {
    ghost use Rattle.scopes.specs.declared.fault.NameFault.{NameFault};

    ghost from_gives = { λ _ fault. fault ≡ NameFault.NoMemory };

    fn from(_fault: AllocFailed<T>) -> NameFault {
        NameFault::NoMemory
    }
}
