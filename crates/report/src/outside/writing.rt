//! Writing of pieces to a sink.

ghost use Rattle.std.specs.Prelude.{◌≡◌, OnOk, OnErr};
ghost use Rattle.std.specs.Io.KnownBytes.{append_known};
ghost use Rattle.report.specs.Outside.{HasFaulted};
ghost use Rattle.report.specs.SinkWriting.{TakesPrefix};

use crate::outside::{Sink, Wrote};

/// The sink failed before it took everything.
#[derive(Clone, Copy, Debug, PartialEq, Eq)]
pub struct SinkFault;

/// Writes a piece, and again what was not taken, until the sink has taken everything. `SinkFault` if the sink fails.
pub fn write_piece<W: Sink>(sink: &mut W, piece: &[u8]) -> Result<(), SinkFault>
    ensures taken { OnOk result (W.taken sink.new ≡ append_known (W.taken sink.old) piece.now) }
    ensures no_fault { OnOk result (W.faults sink.new ≡ W.faults sink.old) }
    ensures prefix { OnErr result (TakesPrefix (W.taken sink.old) (W.taken sink.new) piece.now) }
    ensures fault { OnErr result (HasFaulted (W.faults sink.old) (W.faults sink.new)) }
{
    let mut rest = piece;
    while !rest.is_empty() {
        match sink.write(rest) {
            Wrote::Taken(count) => rest = &rest[count..],
            Wrote::Failed => return Err(SinkFault),
        }
    }
    Ok(())
}
