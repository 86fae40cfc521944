//! Why no program is read.

ghost use Rattle.std.specs.Prelude.{◌≡◌};
ghost use Rattle.front_end.specs.FileFault.{breaks};

use base::memory::NoMemory;
use base::name::Name;
use base::rule::Rule;
use base::span::Span;
use std::alloc::AllocFailed;

/// A limit that a file can exceed.
#[derive(Clone, Copy, Debug, PartialEq, Eq)]
pub enum FileLimit {
    /// The number of tokens of a file, at most 200,000.
    Tokens,
    /// The weight of the nesting of its brackets and signs, at most 200.
    Nesting,
    /// The number of parameters and locals of a function, at most 256.
    Locals,
}

/// What is wrong with a file. Offsets are in bytes, counted from 0.
#[derive(Drop, PartialEq, Eq)]
pub enum FileFault {
    /// It breaks this rule, at this offset; for `LeftOut`, with the text of the marker.
    Breaks(Rule, u32, Option<Name>),
    /// It exceeds this limit, with the count at which that is found: 201 for `Nesting`, that of the first function with
    /// too many for `Locals`.
    Passes(FileLimit, u64),
}

impl FileFault {
    /// The fault that a file breaks a rule, without a marker.
    pub fn breaks(rule: Rule, offset: u32) -> FileFault
        ensures { result ≡ breaks rule offset }
    {
        FileFault::Breaks(rule, offset, None)
    }
}

/// Why no program is read.
#[derive(Drop, PartialEq, Eq)]
pub enum ProgramFault {
    /// A fault in the file with this number, counted from 0.
    InFile(u32, FileFault),
    /// Memory ran out.
    NoMemory,
}

impl ProgramFault {
    ghost use Rattle.front_end.specs.declared.fault.ProgramFault.TheVariants.{InFile};

    /// The fault that a rule is broken at this span, in the file of the span.
    pub fn breaks(rule: Rule, span: Span) -> ProgramFault
        ensures { result ≡ InFile span.file (breaks rule span.start) }
    {
        ProgramFault::InFile(span.file, FileFault::breaks(rule, span.start))
    }
}

impl From<NoMemory> for ProgramFault {
    ghost use Rattle.front_end.specs.declared.fault.ProgramFault.{ProgramFault};

    ghost from_gives = { λ _ fault. fault ≡ ProgramFault.NoMemory };

    fn from(_error: NoMemory) -> ProgramFault {
        ProgramFault::NoMemory
    }
}

impl<T: Drop> From<AllocFailed<T>> for ProgramFault {
    ghost use Rattle.front_end.specs.declared.fault.ProgramFault.{ProgramFault};

    ghost from_gives = { λ _ fault. fault ≡ ProgramFault.NoMemory };

    fn from(_error: AllocFailed<T>) -> ProgramFault {
        ProgramFault::NoMemory
    }
}
