//! Files of the operating system as a source.

ghost use Rattle.std.specs.Prelude.{◌≡◌, ◌<◌, ◌≤◌, [], length, IfSome};
ghost use Rattle.report.specs.Outside.{OnTooLong, OnWhole};

use base::lists::Bytes;
use base::name::Name;
use report::outside::provided::ProvidedLog;
use report::outside::{FILE_LIMIT, Fetched, Sources};
use std::fs::File;
use std::io::Read;
use std::rt::Files;

/// The greatest number of bytes that one read requests.
const READ_SIZE: usize = 16_384;

/// Files of the operating system. Their contents are not known to contracts.
#[derive(Drop)]
pub struct FileSources<'a, R> {
    files: &'a R,
    faults: u64,
    taken: usize,
    provided: ProvidedLog,
}

impl<'a, R> FileSources<'a, R> {
    /// The source of the files in `files`.
    pub fn new(files: &'a R) -> FileSources<'a, R>
        ensures faults { result.faults ≡ 0 }
        ensures taken { result.taken ≡ 0 }
    {
        FileSources {
            files,
            faults: 0,
            taken: 0,
            provided: ProvidedLog::new(),
        }
    }
}

impl<R: Files> Sources for FileSources<'_, R> {
    ghost faults = { λ s. s.faults };

    ghost taken = { λ s. s.taken };

    ghost provided = { λ s. s.provided.files };

    /// Reads a file. It fails if the name is not UTF-8, or if the file cannot be opened or read.
    fn fetch(&mut self, name: &Name, into: &mut Bytes) -> Fetched {
        into.clear();
        let fetched = match open(self.files, name) {
            Some(mut file) => read_whole(&mut file, into),
            None => Fetched::Failed,
        };
        self.taken = into.len();
        if fetched == Fetched::Failed {
            self.faults = self.faults.saturating_add(1);
        }
        if fetched == Fetched::Whole {
            self.provided.note(name.as_slice(), into.as_slice());
        } else {
            into.clear();
        }
        fetched
    }
}

/// Opens the file with this name; `None` if it cannot be opened.
fn open<R: Files>(files: &R, name: &Name) -> Option<R::File> {
    let path = str::from_utf8(name.as_slice()).ok()?;
    File::open(files, path).ok()
}

/// Reads the rest of a reader into the empty `into`, up to one byte more than `FILE_LIMIT`.
pub fn read_whole<R: Read>(reader: &mut R, into: &mut Bytes) -> Fetched
    requires { into.old ≡ [] }
    ensures bytes { OnWhole result (IfSome (R.remaining reader.old) (λ bytes. into.new ≡ bytes)) }
    ensures within { OnWhole result (length into.new ≤ FILE_LIMIT) }
    ensures took_more { OnTooLong result (FILE_LIMIT < length into.new) }
    ensures too_long { OnTooLong result (IfSome (R.remaining reader.old) (λ bytes. FILE_LIMIT < length bytes)) }
{
    let mut buffer = [0u8; READ_SIZE];
    while into.len() <= FILE_LIMIT {
        let room = FILE_LIMIT + 1 - into.len();
        let size = room.min(READ_SIZE);
        match reader.read(&mut buffer[..size]) {
            Ok(0) => return Fetched::Whole,
            Ok(count) => {
                if into.extend_from_slice(&buffer[..count]).is_err() {
                    return Fetched::NoMemory;
                }
            }
            Err(_) => return Fetched::Failed,
        }
    }
    Fetched::TooLong
}
