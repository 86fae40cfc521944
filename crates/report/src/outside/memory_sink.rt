//! A sink in memory.

ghost use Rattle.std.specs.Prelude.{◌≡◌, ◌≤◌, ◌-◌, ◌++◌, [], length, take, min, IfOk};
ghost use Rattle.report.specs.Outside.{IfTaken, OnWriteFailed};
ghost use Rattle.report.specs.MemorySink.{counted, Refuses};

use crate::outside::{Sink, Wrote};
use base::lists::Calls;
use base::memory::NoMemory;
use std::alloc::Global;
use std::marker::Model;

/// A sink that keeps the bytes that it takes, with room for a fixed number of them.
#[derive(Drop)]
pub struct VecSink {
    bytes: Vec<u8>,
    room: usize,
    fails: Calls,
    calls: u64,
    faults: u64,
}

impl Model for VecSink {
    ghost use Rattle.std.specs.Prelude.{◌≤◌, vec_len, vec_capacity};
    ghost use Rattle.report.specs.MemorySink.{SinkState};

    ghost Value = { SinkState };

    ghost view = { λ s. record { taken = s.bytes.items; room = s.room; fails = s.fails; calls = s.calls; faults = s.faults } };

    ghost invariant = { λ s. (vec_len s.bytes ≤ s.room) × (s.room ≤ vec_capacity s.bytes) };
}

impl VecSink {
    /// Returns a sink with room for this many bytes, whose memory is allocated now. The writes with the numbers in
    /// `fails`, counted from 1, fail. `NoMemory` if memory runs out.
    pub fn new(alloc: Global, room: usize, fails: Calls) -> Result<VecSink, NoMemory>
        ensures { IfOk result (λ sink. sink ≡ record { taken = []; room = room; fails = fails; calls = 0; faults = 0 }) }
    {
        Ok(VecSink {
            bytes: Vec::with_capacity(alloc, room)?,
            room,
            fails,
            calls: 0,
            faults: 0,
        })
    }

    /// The bytes taken so far.
    pub fn bytes(&self) -> &[u8]
        ensures { result.now ≡ self.now.taken }
    {
        self.bytes.as_slice()
    }
}

impl Sink for VecSink {
    ghost taken = { λ s. Rattle.std.specs.Prelude.Some s.taken };

    ghost faults = { λ s. s.faults };

    /// Takes as many bytes as there is room for. It fails if its number is in `fails`, or if there is no room for any
    /// byte of the piece.
    fn write(&mut self, piece: &[u8]) -> Wrote
        ensures count { IfTaken result (λ count. count ≡ min (length piece.now) (self.old.room - length self.old.taken)) }
        ensures taken { IfTaken result (λ count. self.new ≡ record self.old { taken = self.old.taken ++ take count piece.now; calls = counted self.old.calls }) }
        ensures accepts { IfTaken result (λ _. ¬ Refuses self.old piece.now) }
        ensures failed { OnWriteFailed result (self.new ≡ record self.old { calls = counted self.old.calls; faults = counted self.old.faults }) }
        ensures refuses { OnWriteFailed result (Refuses self.old piece.now) }
        ensures never_falls { self.old.faults ≤ self.new.faults }
    {
        self.calls = self.calls.saturating_add(1);
        let count = piece.len().min(self.room - self.bytes.len());
        let is_full = count == 0 && !piece.is_empty();
        if is_full || self.fails.contains(self.calls) {
            self.faults = self.faults.saturating_add(1);
            return Wrote::Failed;
        }
        if self.bytes.extend_from_slice(&piece[..count]).is_err() {
            unreachable!()
        }
        Wrote::Taken(count)
    }
}
