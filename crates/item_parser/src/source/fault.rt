//! The reason why a spec block has no tree.

ghost use Rattle.std.specs.Prelude.{◌≡◌};
ghost use Rattle.item_parser.specs.SpecFault.{fault_of};

use base::memory::NoMemory;
use parser_base::explain::ParseFault;
use std::alloc::AllocFailed;

/// The reason why a spec block kept in a file has no tree.
#[derive(Clone, Copy, Debug, PartialEq, Eq)]
pub enum SpecFault {
    /// Its tokens denote no spec block.
    NoTree,
    /// Memory ran out.
    NoMemory,
}

impl From<NoMemory> for SpecFault {
    ghost use Rattle.item_parser.specs.declared.source.fault.SpecFault.{SpecFault};

    ghost from_gives = { λ _ fault. fault ≡ SpecFault.NoMemory };

    fn from(_error: NoMemory) -> SpecFault {
        SpecFault::NoMemory
    }
}

impl<T: Drop> From<AllocFailed<T>> for SpecFault {
    ghost use Rattle.item_parser.specs.declared.source.fault.SpecFault.{SpecFault};

    ghost from_gives = { λ _ fault. fault ≡ SpecFault.NoMemory };

    fn from(_error: AllocFailed<T>) -> SpecFault {
        SpecFault::NoMemory
    }
}

/// Returns the fault of a spec block by itself. Its position and its marker are dropped: reading may have ended before
/// it in its file, and a marker before it may take precedence.
pub fn fault_of(fault: ParseFault) -> SpecFault
    ensures { result ≡ fault_of fault }
{
    match fault {
        ParseFault::Grammar(_) => SpecFault::NoTree,
        ParseFault::LeftOut(_) => SpecFault::NoTree,
        ParseFault::NoMemory => SpecFault::NoMemory,
    }
}
