//! Writing of lines to a sink.

ghost use Rattle.std.specs.Prelude.{◌≡◌, OnOk, OnErr};
ghost use Rattle.std.specs.Io.KnownBytes.{append_known};
ghost use Rattle.report.specs.Outside.{HasFaulted};
ghost use Rattle.report.specs.Writes.{IsJust, Writes};
ghost use Rattle.report.specs.SinkWriting.{TakesPrefix};
ghost use Rattle.report.specs.Writing.{joined};

use crate::outside::Sink;
use crate::outside::writing::{SinkFault, write_piece};
use crate::status::Status;
use crate::text::Lines;

/// Writes a text, and returns the status. `SinkFault` if the sink fails.
pub fn write_text<W: Sink>(sink: &mut W, text: &[u8], status: Status) -> Result<Status, SinkFault>
    ensures { Writes (IsJust status text.now) (W.taken sink.old) (W.taken sink.new) (W.faults sink.old) (W.faults sink.new) result }
{
    write_piece(sink, text)?;
    Ok(status)
}

/// Writes lines, with one write for each, repeated for what was not taken. After a `SinkFault` the bytes taken are a
/// prefix of the lines.
pub fn write_lines<W: Sink>(sink: &mut W, lines: &Lines) -> Result<(), SinkFault>
    ensures taken { OnOk result (W.taken sink.new ≡ append_known (W.taken sink.old) (joined lines.now)) }
    ensures no_fault { OnOk result (W.faults sink.new ≡ W.faults sink.old) }
    ensures prefix { OnErr result (TakesPrefix (W.taken sink.old) (W.taken sink.new) (joined lines.now)) }
    ensures fault { OnErr result (HasFaulted (W.faults sink.old) (W.faults sink.new)) }
{
    for line in lines.as_slice() {
        write_piece(sink, line.as_slice())?;
    }
    Ok(())
}

/// Writes lines, and returns the status. `SinkFault` if the sink fails.
pub fn write_all<W: Sink>(sink: &mut W, lines: &Lines, status: Status) -> Result<Status, SinkFault>
    ensures { Writes (IsJust status (joined lines.now)) (W.taken sink.old) (W.taken sink.new) (W.faults sink.old) (W.faults sink.new) result }
{
    write_lines(sink, lines)?;
    Ok(status)
}
