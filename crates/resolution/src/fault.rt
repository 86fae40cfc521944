//! Uses without a meaning, by the declaration that contains them.

ghost use Rattle.std.specs.Prelude.{◌≡◌};
ghost use Rattle.resolution.specs.Faults.{fault_at};

use base::memory::NoMemory;
use base::span::Span;
use scopes::fault::NameFault;
use std::alloc::AllocFailed;

/// The reason why a declaration is not resolved.
#[derive(Clone, Copy, Debug, PartialEq, Eq)]
pub enum DeclarationFault {
    /// Some use in the declaration that begins here has no meaning.
    Unknown(Span),
    NoMemory,
}

/// The reason why sources do not resolve to a program.
#[derive(Clone, Copy, Debug, PartialEq, Eq)]
pub enum ResolveFault {
    /// The first declaration with a use that has no meaning: the index of its file, and the span of its first token,
    /// attributes excluded.
    Unknown { file: usize, span: Span },
    NoMemory,
}

impl From<NoMemory> for DeclarationFault {
    ghost use Rattle.resolution.specs.declared.fault.DeclarationFault.{DeclarationFault};

    ghost from_gives = { λ _ fault. fault ≡ DeclarationFault.NoMemory };

    fn from(_error: NoMemory) -> DeclarationFault {
        DeclarationFault::NoMemory
    }
}

impl<T: Drop> From<AllocFailed<T>> for DeclarationFault {
    ghost use Rattle.resolution.specs.declared.fault.DeclarationFault.{DeclarationFault};

    ghost from_gives = { λ _ fault. fault ≡ DeclarationFault.NoMemory };

    fn from(_fault: AllocFailed<T>) -> DeclarationFault {
        DeclarationFault::NoMemory
    }
}

impl From<NoMemory> for ResolveFault {
    ghost use Rattle.resolution.specs.declared.fault.ResolveFault.{ResolveFault};

    ghost from_gives = { λ _ fault. fault ≡ ResolveFault.NoMemory };

    fn from(_error: NoMemory) -> ResolveFault {
        ResolveFault::NoMemory
    }
}

/// Returns the fault of the declaration that begins here.
pub fn fault_at(fault: NameFault, span: Span) -> DeclarationFault
    ensures { result ≡ fault_at fault span }
{
    match fault {
        NameFault::Unknown => DeclarationFault::Unknown(span),
        NameFault::NoMemory => DeclarationFault::NoMemory,
    }
}
