//! Standard output as a sink.

ghost use Rattle.std.specs.Prelude.{◌≡◌};

use report::outside::{Sink, Wrote};

/// A printing device as a sink. What was written is not known to contracts.
#[derive(Drop)]
pub struct OutSink<'a, P> {
    out: &'a P,
    faults: u64,
}

impl<'a, P> OutSink<'a, P> {
    /// A sink that passes its bytes on to `out`.
    pub fn new(out: &'a P) -> OutSink<'a, P>
        ensures { result.faults ≡ 0 }
    {
        OutSink { out, faults: 0 }
    }
}

impl<P: Print> Sink for OutSink<'_, P> {
    ghost taken = { λ _. Rattle.std.specs.Prelude.None };

    ghost faults = { λ s. s.faults };

    /// Writes once. A device that takes nothing of a nonempty piece has failed.
    fn write(&mut self, piece: &[u8]) -> Wrote {
        match self.out.write_some(piece) {
            Ok(count) if count > 0 || piece.is_empty() => Wrote::Taken(count),
            _ => {
                self.faults = self.faults.saturating_add(1);
                Wrote::Failed
            }
        }
    }
}
