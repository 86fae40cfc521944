//! Files in memory.

ghost use Rattle.std.specs.Prelude.{◌≡◌, ◌+◌, ◌≤◌, [], ◌∷◌, ◌++◌, length};
ghost use Rattle.std.specs.FinMap as map;
ghost use Rattle.report.specs.MemorySink.{counted};
ghost use Rattle.report.specs.MemorySources.{FailsNext};
ghost use Rattle.report.specs.Outside.{IsLongFile, OnFetchFailed, OnTooLong, OnWhole, UnlessFetchFailed, UnlessWhole};

use crate::outside::provided::ProvidedLog;
use crate::outside::{FILE_LIMIT, Fetched, Sources};
use base::lists::{Bytes, Calls, FileMap};
use base::name::Name;
use std::marker::Model;

/// Files held in memory.
#[derive(Drop)]
pub struct MapSources {
    files: FileMap,
    fails: Calls,
    calls: u64,
    faults: u64,
    taken: usize,
    provided: ProvidedLog,
}

impl Model for MapSources {
    ghost use Rattle.report.specs.MemorySources.{SourcesState, state_code};

    ghost Value = { SourcesState };

    ghost coded = { state_code };

    ghost view = { λ s. record { files = s.files; fails = s.fails; calls = s.calls; faults = s.faults; taken = s.taken; provided = s.provided.files } };
}

impl MapSources {
    /// A source of these files. The fetches with the numbers in `fails`, counted from 1, fail.
    pub fn new(files: FileMap, fails: Calls) -> MapSources
        ensures { result ≡ record { files = files; fails = fails; calls = 0; faults = 0; taken = 0; provided = [] } }
    {
        MapSources {
            files,
            fails,
            calls: 0,
            faults: 0,
            taken: 0,
            provided: ProvidedLog::new(),
        }
    }
}

impl Sources for MapSources {
    ghost holds = { λ s. Rattle.std.specs.Prelude.Some s.files };

    ghost faults = { λ s. s.faults };

    ghost taken = { λ s. s.taken };

    ghost provided = { λ s. s.provided };

    /// Copies a file. It fails if its number is in `fails`, or if there is no file with this name. For a file that is
    /// too long it reads one byte more than `FILE_LIMIT`.
    fn fetch(&mut self, name: &Name, into: &mut Bytes) -> Fetched
        ensures whole { OnWhole result (map.get self.old.files name.now ≡ Rattle.std.specs.Prelude.Some into.new) }
        ensures within { OnWhole result (length into.new ≤ FILE_LIMIT) }
        ensures emptied { UnlessWhole result (into.new ≡ []) }
        ensures too_long { OnTooLong result (IsLongFile self.old.files name.now FILE_LIMIT) }
        ensures fails { OnFetchFailed result (FailsNext self.old name.now) }
        ensures answers { UnlessFetchFailed result (¬ FailsNext self.old name.now) }

        // The state after the call, by its result.
        ensures failed { OnFetchFailed result (self.new ≡ record self.old { calls = counted self.old.calls; faults = counted self.old.faults; taken = 0 }) }
        ensures took { OnWhole result (self.new ≡ record self.old { calls = counted self.old.calls; taken = length into.new; provided = self.old.provided ++ (name.now, into.new) ∷ [] }) }
        ensures took_more { OnTooLong result (self.new ≡ record self.old { calls = counted self.old.calls; taken = FILE_LIMIT + 1 }) }
        ensures no_memory { result ≡ Fetched.NoMemory → self.new ≡ record self.old { calls = counted self.old.calls; taken = 0 } }
        ensures never_falls { self.old.faults ≤ self.new.faults }
    {
        into.clear();
        self.taken = 0;
        self.calls = self.calls.saturating_add(1);
        let file = match self.files.get(name) {
            Some(file) if !self.fails.contains(self.calls) => file,
            _ => {
                self.faults = self.faults.saturating_add(1);
                return Fetched::Failed;
            }
        };
        if file.len() > FILE_LIMIT {
            self.taken = FILE_LIMIT + 1;
            return Fetched::TooLong;
        }
        if into.extend_from_slice(file.as_slice()).is_err() {
            return Fetched::NoMemory;
        }
        self.taken = into.len();
        self.provided.note(name.as_slice(), into.as_slice());
        Fetched::Whole
    }
}
