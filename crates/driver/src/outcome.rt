//! The end of a run without a report.

ghost use Rattle.std.specs.Prelude.{◌≡◌, IfOk};
ghost use Rattle.driver.specs.Outcome.{name_of, status_of, stop_line};
ghost use Rattle.driver.specs.Run.{IsStopText};
ghost use Rattle.report.specs.Writes.{Writes};

use crate::stages::RunStop;
use base::lists::Bytes;
use base::memory::NoMemory;
use base::name::Name;
use report::outside::Sink;
use report::outside::writing::SinkFault;
use report::status::{Device, LimitKind, Status};
use report::status_text::{
    files_limit_line, limit_line, no_memory_line, refusal_line, source_fault_line,
};
use report::writing::write_text;
use std::alloc::Global;

/// The status of a run that stopped.
pub fn status_of(stop: RunStop) -> Status
    ensures { result ≡ status_of stop }
{
    match stop {
        RunStop::TooManyFiles(count) => Status::Limit(LimitKind::Files, count),
        RunStop::SourceFault(_) => Status::Fault(Device::Source),
        RunStop::Limit(_, kind, count) => Status::Limit(kind, count),
        RunStop::Refused(refusal) => Status::Refused(refusal),
        RunStop::NoMemory => Status::NoMemory,
    }
}

/// The name of the file with this number; no bytes if there is no such file.
fn name_of(alloc: Global, names: &[Name], file: u32) -> Result<Name, NoMemory>
    ensures { IfOk result (λ name. name ≡ name_of names.now file) }
{
    match names.get(file as usize) {
        Some(name) => name.try_clone(alloc),
        None => Name::from_slice(alloc, b""),
    }
}

/// The line that states why there is no report. `NoMemory` if memory runs out.
fn stop_line(alloc: Global, names: &[Name], stop: &RunStop) -> Result<Bytes, NoMemory>
    ensures { IfOk result (λ line. line ≡ stop_line names.now stop.now) }
{
    match stop {
        RunStop::TooManyFiles(count) => files_limit_line(alloc, *count),
        RunStop::SourceFault(file) => source_fault_line(alloc, &name_of(alloc, names, *file)?),
        RunStop::Limit(file, kind, _) => limit_line(alloc, &name_of(alloc, names, *file)?, *kind),
        RunStop::Refused(refusal) => {
            refusal_line(alloc, &name_of(alloc, names, refusal.file)?, refusal)
        }
        RunStop::NoMemory => Err(NoMemory),
    }
}

/// Writes the line that states why there is no report, or that memory ran out, and returns the matching status.
/// `SinkFault` if the sink fails.
pub fn write_stop<W: Sink>(
    alloc: Global,
    sink: &mut W,
    names: &[Name],
    stop: RunStop,
) -> Result<Status, SinkFault>
    ensures { Writes (IsStopText names.now stop) (W.taken sink.old) (W.taken sink.new) (W.faults sink.old) (W.faults sink.new) result }
{
    match stop_line(alloc, names, &stop) {
        Ok(line) => write_text(sink, line.as_slice(), status_of(stop)),
        Err(NoMemory) => write_text(sink, no_memory_line(), Status::NoMemory),
    }
}
