//! The program: it verifies the files named on the command line, and reports to standard output.
#![tactic(auto)]

mod file_sources;
mod out_sink;
#[cfg(test)]
mod run_tests;
#[cfg(test)]
mod tests;
mod words;

ghost use Rattle.std.specs.Prelude.{◌≡◌, ◌<◌, ◌⊎◌};
ghost use Rattle.std.specs.Io.KnownBytes.{append_known};
ghost use Rattle.report.specs.Outside.{HasFaulted};
ghost use Rattle.report.specs.Status.{no_memory_line};

use crate::file_sources::FileSources;
use crate::out_sink::OutSink;
use crate::words::{SystemWords, collect_words};
use base::lists::Words;
use base::memory::NoMemory;
use base::steps::Steps;
use driver::top::movep;
use report::outside::writing::{SinkFault, write_piece};
use report::outside::{Sink, Sources};
use report::status::{Device, Status};
use report::status_text::no_memory_line;
use std::alloc::Global;
use std::marker::Brand;
use std::process::ExitCode;
use std::sync::ledger::{Blank, Ledger};

/// Verifies the files that the words name, with its own counter of search steps.
fn verify<S: Sources, W: Sink, L: Ledger>(
    alloc: Global,
    words: &Words,
    sources: &mut S,
    sink: &mut W,
    blank: Blank,
) -> Status
    requires name { blank.name ≡ L.name }
    requires parts { blank.parts ≡ L.parts }
    requires some { 0 < L.parts }
{
    let mut steps = Steps::<L>::new(blank);
    movep(alloc, words, sources, sink, &mut steps)
}

/// Ends a run that had no memory for its words.
fn give_up<W: Sink>(sink: &mut W) -> Status
    ensures ends { (result ≡ Status.NoMemory) ⊎ (result ≡ Status.Fault Device.Sink) }
    ensures wrote { result ≡ Status.NoMemory → W.taken sink.new ≡ append_known (W.taken sink.old) no_memory_line }
    ensures fault { result ≡ Status.Fault Device.Sink → HasFaulted (W.faults sink.old) (W.faults sink.new) }
{
    match write_piece(sink, no_memory_line()) {
        Ok(()) => Status::NoMemory,
        Err(SinkFault) => Status::Fault(Device::Sink),
    }
}

fn main(rt: HostRuntime) -> ExitCode {
    let alloc = rt.alloc();
    let mut sources = FileSources::new(&rt);
    let mut sink = OutSink::new(&rt);
    let status = match collect_words(alloc, &SystemWords::new(&rt)) {
        Ok(words) => {
            verify::<_, _, Brand>(alloc, &words, &mut sources, &mut sink, Blank::new(1))
        }
        Err(NoMemory) => give_up(&mut sink),
    };
    ExitCode::from(status.code())
}
