//! What the verifier writes of a case.

ghost use Rattle.std.specs.Prelude.{◌≡◌, ◌<◌};

use crate::case_file::{Case, SourceText};
use base::lists::{Bytes, Calls, FileMap, Words};
use base::memory::NoMemory;
use base::name::Name;
use base::steps::Steps;
use driver::top::movep;
use report::outside::memory_sink::VecSink;
use report::outside::memory_sources::MapSources;
use report::status::Status;
use std::alloc::Global;
use std::marker::Brand;
use std::sync::ledger::{Blank, Ledger};

/// How many bytes the verifier may write of a case.
const ROOM: usize = 65_536;

/// The words of a case's command line: those that it has, or else the names of its sources.
fn words_of(alloc: Global, case: &Case) -> Result<Words, NoMemory> {
    let mut words = Words::new(alloc);
    match &case.words {
        Some(line) => {
            for word in line.as_str().split_whitespace() {
                words.push(Name::from_slice(alloc, word.as_bytes())?)?;
            }
        }
        None => {
            for source in case.sources.iter() {
                words.push(Name::from_slice(alloc, source.name.as_bytes())?)?;
            }
        }
    }
    Ok(words)
}

/// The sources of a case as the files that they are.
fn files_of(alloc: Global, sources: &[SourceText]) -> Result<FileMap, NoMemory> {
    let mut files = FileMap::new(alloc);
    for source in sources {
        let mut bytes = Bytes::new(alloc);
        bytes.extend_from_slice(source.text.as_bytes())?;
        files.insert(Name::from_slice(alloc, source.name.as_bytes())?, bytes)?;
    }
    Ok(files)
}

/// Verifies with a counter of search steps of its own.
fn verify<L: Ledger>(
    alloc: Global,
    words: &Words,
    sources: &mut MapSources,
    sink: &mut VecSink,
    blank: Blank,
) -> Status
    requires name { blank.name ≡ L.name }
    requires parts { blank.parts ≡ L.parts }
    requires some { 0 < L.parts }
{
    let mut steps = Steps::<L>::new(blank);
    movep(alloc, words, sources, sink, &mut steps)
}

/// The status of the verifier over a case's sources, and what it writes.
pub fn report_lines(alloc: Global, case: &Case) -> Result<String, NoMemory> {
    let words = words_of(alloc, case)?;
    let files = files_of(alloc, case.sources.as_slice())?;
    let mut sources = MapSources::new(files, Calls::new(alloc));
    let mut sink = VecSink::new(alloc, ROOM, Calls::new(alloc))?;
    let status = verify::<Brand>(alloc, &words, &mut sources, &mut sink, Blank::new(1));
    let code = status.code();
    let mut lines = format!(in alloc; "status {code}\n")?;
    match str::from_utf8(sink.bytes()) {
        Ok(text) => lines.push_str(text)?,
        Err(_) => lines.push_str("no text")?,
    }
    Ok(lines)
}
