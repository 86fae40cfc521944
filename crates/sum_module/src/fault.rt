//! Why a module is not read.

ghost use Rattle.std.specs.Prelude.{◌≡◌};

use base::memory::NoMemory;
use std::alloc::AllocFailed;

/// Why a module is not read.
#[derive(Clone, Copy, Debug, PartialEq, Eq)]
pub enum ModuleFault {
    /// The module or a member of it is not of the supported form: the first of these begins at this byte.
    NotBuilt(u32),
    /// Memory ran out.
    NoMemory,
}

impl From<NoMemory> for ModuleFault {
    ghost use Rattle.sum_module.specs.declared.fault.ModuleFault.{ModuleFault};

    ghost from_gives = { λ _ fault. fault ≡ ModuleFault.NoMemory };

    fn from(_error: NoMemory) -> ModuleFault {
        ModuleFault::NoMemory
    }
}

impl<T: Drop> From<AllocFailed<T>> for ModuleFault {
    ghost use Rattle.sum_module.specs.declared.fault.ModuleFault.{ModuleFault};

    ghost from_gives = { λ _ fault. fault ≡ ModuleFault.NoMemory };

    fn from(_error: AllocFailed<T>) -> ModuleFault {
        ModuleFault::NoMemory
    }
}
