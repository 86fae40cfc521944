//! The top call: from the words of a command line to a report and a status.

ghost use Rattle.std.specs.Prelude.{◌≡◌, ℕ, List, Option, IfOk, IfErr};
ghost use Rattle.std.specs.List.{list_all};
ghost use Rattle.driver.specs.Causes.{Causes};
ghost use Rattle.report.specs.Provided.{ProvidedFiles};
ghost use Rattle.report.specs.Outside.{Files};
ghost use Rattle.report.specs.ReportText.{is_proved};
ghost use Rattle.report.specs.declared.status.Status.{Status};
ghost use Rattle.driver.specs.Run.{Ends, IsOutput, IsReportText, IsVerified, RunStopped, report_status};
ghost use Rattle.report.specs.Writes.{Writes};

use crate::outcome::write_stop;
use crate::stages::{FILES_LIMIT, RunStop, fetch_all, file_names, program_of};
use crate::verify::verify;
use base::lists::Words;
use base::memory::NoMemory;
use base::name::Name;
use base::steps::Steps;
use front_end::files::one_outcome;
use report::outside::writing::SinkFault;
use report::outside::{Sink, Sources};
use report::report::{FunctionRecord, FunctionVerdict, Report};
use report::report_text::report_lines;
use report::status::{Device, Status};
use report::status_text::{no_memory_line, usage_line};
use report::writing::{write_all, write_text};
use std::alloc::Global;
use std::sync::ledger::Ledger;

/// The report on the files with these names.
fn report_of<S: Sources, L: Ledger>(
    alloc: Global,
    names: &[Name],
    sources: &mut S,
    steps: &mut Steps<L>,
) -> Result<Report, RunStop>
    ensures verified { IfOk result (IsVerified (S.holds sources.old) (S.provided sources.old) (S.provided sources.new) names.now) }
    ensures stopped { IfErr result (RunStopped (S.holds sources.old) (S.provided sources.old) (S.provided sources.new) names.now (S.faults sources.old) (S.faults sources.new)) }
{
    if names.len() > FILES_LIMIT {
        return Err(RunStop::TooManyFiles(names.len() as u64));
    }
    let files = fetch_all(alloc, names, sources)?;
    let program = program_of(alloc, files.as_slice())?;
    Ok(verify(alloc, names, files.as_slice(), program.as_slice(), steps)?)
}

/// Decides whether each function is proved.
fn are_proved(functions: &[FunctionRecord]) -> bool
    ensures { result ≡ list_all (λ f. is_proved f.verdict) functions.now }
{
    functions
        .iter()
        .all(|function| function.verdict == FunctionVerdict::Proved)
}

/// The status of a run with this report.
fn status_of_report(report: &Report) -> Status
    ensures { result ≡ report_status report.now }
{
    if are_proved(report.functions.as_slice()) {
        Status::AllProved
    } else {
        Status::NotAllProved
    }
}

/// Writes a whole report, or that memory ran out, and returns the matching status.
fn write_report<W: Sink>(alloc: Global, sink: &mut W, report: &Report) -> Result<Status, SinkFault>
    ensures { Writes (IsReportText report.now) (W.taken sink.old) (W.taken sink.new) (W.faults sink.old) (W.faults sink.new) result }
{
    match report_lines(alloc, report) {
        Ok(lines) => write_all(sink, &lines, status_of_report(report)),
        Err(NoMemory) => write_text(sink, no_memory_line(), Status::NoMemory),
    }
}

/// Runs the verifier, including its output.
fn run<S: Sources, W: Sink, L: Ledger>(
    alloc: Global,
    words: &Words,
    sources: &mut S,
    sink: &mut W,
    steps: &mut Steps<L>,
) -> Result<Status, SinkFault>
    ensures { Writes (IsOutput words.now (S.holds sources.old) (S.provided sources.old) (S.provided sources.new) (S.faults sources.old) (S.faults sources.new)) (W.taken sink.old) (W.taken sink.new) (W.faults sink.old) (W.faults sink.new) result }
{
    match file_names(words) {
        Some(names) => match report_of(alloc, names, sources, steps) {
            Ok(report) => write_report(alloc, sink, &report),
            Err(stop) => write_stop(alloc, sink, names, stop),
        },
        None => write_text(sink, usage_line(), Status::BadWords),
    }
}

/// A law: the end of a run determines the cause of its status, and the cause the status, since the ends exclude each
/// other.
fn causes_of_ends()
    ensures { (words : List (List ℕ)) (known : Option Files) (provided provided_after : ProvidedFiles) (counted counted_after : ℕ) (taken taken_after : Option (List ℕ)) (failed failed_after : ℕ) (status : Status)
        → Ends (IsOutput words known provided provided_after counted counted_after) taken taken_after failed failed_after status → Causes words known provided provided_after counted counted_after status }
{
    one_outcome();
}

/// Verifies the files that the words name, and writes the report, or one line that states why there is none.
///
/// The words are those of the command line after the program's name. The status is how the run ended, and the output
/// matches it. Each status comes exactly if its cause holds in the bytes that the source provided, and, if the source
/// makes its files known and does not fail, in those files; `Fault(Source)` comes only if a fetch failed. Memory may
/// run out and the sink may fail in any run. The steps of searches are counted in `steps`.
pub fn movep<S: Sources, W: Sink, L: Ledger>(
    alloc: Global,
    words: &Words,
    sources: &mut S,
    sink: &mut W,
    steps: &mut Steps<L>,
) -> Status
    ensures ends { Ends (IsOutput words.now (S.holds sources.old) (S.provided sources.old) (S.provided sources.new) (S.faults sources.old) (S.faults sources.new)) (W.taken sink.old) (W.taken sink.new) (W.faults sink.old) (W.faults sink.new) result }
    ensures causes { Causes words.now (S.holds sources.old) (S.provided sources.old) (S.provided sources.new) (S.faults sources.old) (S.faults sources.new) result }
{
    causes_of_ends();
    match run(alloc, words, sources, sink, steps) {
        Ok(status) => status,
        Err(SinkFault) => Status::Fault(Device::Sink),
    }
}
