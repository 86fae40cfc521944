//! The environment of the verifier: where files come from, and where the report goes.

pub mod memory_sink;
pub mod memory_sources;
pub mod provided;
pub mod writing;

ghost use Rattle.std.specs.Prelude.{◌≡◌, ℕ, ◌<◌, ◌≤◌, ◌↔◌, List, [], ◌∷◌, ◌++◌, length, take, IfSome, Option};
ghost use Rattle.std.specs.FinMap as map;
ghost use Rattle.std.specs.Io.KnownBytes.{append_known};
ghost use Rattle.report.specs.Provided.{ProvidedFiles};
ghost use Rattle.report.specs.Outside.{HasFaulted, Files, IsLongFile, OnWhole, OnTooLong, OnFetchFailed, SaysTooLong, UnlessWhole, UnlessFetchFailed, IfTaken, OnWriteFailed};

use base::lists::Bytes;
use base::name::Name;

/// The greatest number of bytes of a file.
pub const FILE_LIMIT: usize = 1_048_576;

/// The result of a fetch.
#[derive(Clone, Copy, Debug, PartialEq, Eq)]
pub enum Fetched {
    /// All bytes of the file were fetched.
    Whole,
    /// The file is missing or cannot be read: a fault, which the source has counted.
    Failed,
    /// The file has more than `FILE_LIMIT` bytes.
    TooLong,
    /// Memory ran out.
    NoMemory,
}

/// Files that can be fetched by their names.
pub trait Sources {
    /// The files, if the source makes them known.
    ghost holds: { Self → Option Files } = { λ _. Rattle.std.specs.Prelude.None };

    /// The number of failed fetches, counted up to 2^64 - 1.
    ghost faults: { Self → ℕ };

    /// The number of bytes that the last fetch read; 0 before the first.
    ghost taken: { Self → ℕ };

    /// The names and the bytes of the files fetched so far, in order.
    ghost provided: { Self → ProvidedFiles };

    /// Fetches a whole file; its bytes replace the contents of `into`.
    fn fetch(&mut self, name: &Name, into: &mut Bytes) -> Fetched
        ensures same_files { holds self.new ≡ holds self.old }
        ensures bytes { OnWhole result (IfSome (holds self.old) (λ files. map.get files name.now ≡ Some into.new)) }
        ensures within { OnWhole result (length into.new ≤ FILE_LIMIT) }
        ensures emptied { UnlessWhole result (into.new ≡ []) }
        ensures hands_over { OnWhole result (provided self.new ≡ provided self.old ++ (name.now, into.new) ∷ []) }
        ensures hands_nothing { UnlessWhole result (provided self.new ≡ provided self.old) }
        ensures failed { OnFetchFailed result (HasFaulted (faults self.old) (faults self.new)) }
        ensures no_fault { UnlessFetchFailed result (faults self.new ≡ faults self.old) }
        ensures never_falls { faults self.old ≤ faults self.new }
        ensures took_more { OnTooLong result (FILE_LIMIT < taken self.new) }
        ensures too_long { IfSome (holds self.old) (λ files. SaysTooLong result (IsLongFile files name.now FILE_LIMIT)) };
}

/// The result of a write.
#[derive(Clone, Copy, Debug, PartialEq, Eq)]
pub enum Wrote {
    /// This many bytes at the front of the piece were taken.
    Taken(usize),
    /// Nothing was taken: a fault, which the sink has counted.
    Failed,
}

/// A device that takes bytes, such as standard output.
pub trait Sink {
    /// The bytes taken so far, if the sink makes them known.
    ghost taken: { Self → Option (List ℕ) };

    /// The number of failed writes, counted up to 2^64 - 1.
    ghost faults: { Self → ℕ };

    /// Takes bytes at the front of the piece: at least one, unless the piece is empty or the sink fails.
    fn write(&mut self, piece: &[u8]) -> Wrote
        ensures within { IfTaken result (λ count. count ≤ length piece.now) }
        ensures progress { IfTaken result (λ count. 0 < length piece.now → 0 < count) }
        ensures appended { IfTaken result (λ count. taken self.new ≡ append_known (taken self.old) (take count piece.now)) }
        ensures no_fault { IfTaken result (λ _. faults self.new ≡ faults self.old) }
        ensures failed { OnWriteFailed result (HasFaulted (faults self.old) (faults self.new)) }
        ensures kept { OnWriteFailed result (taken self.new ≡ taken self.old) }
        ensures never_falls { faults self.old ≤ faults self.new };
}
