//! The list of the files that a source has provided; only contracts read it.

ghost use Rattle.std.specs.Prelude.{◌≡◌, [], ◌∷◌, ◌++◌};
ghost use Rattle.std.specs.Borrow.{ftrue};
ghost use Rattle.report.specs.Provided.{ProvidedFiles};

use std::marker::{Model, PhantomData};

/// The names and the bytes of the files that a source has provided, in order. It takes no memory.
#[derive(Drop)]
pub struct ProvidedLog {
    marker: PhantomData<u8>,
    pub ghost files: { ProvidedFiles },
}

impl Model for ProvidedLog {
    ghost also_owns = { λ _. ftrue };
}

impl ProvidedLog {
    /// The list before any file is provided.
    pub fn new() -> ProvidedLog
        ensures { result.files ≡ [] }
    {
        ProvidedLog {
            marker: PhantomData,
        }
    }

    /// Adds a file with this name and these bytes.
    pub fn note(&mut self, _name: &[u8], _bytes: &[u8])
        ensures { self.new.files ≡ self.old.files ++ (_name.now, _bytes.now) ∷ [] }
    {}
}
