//! Runs of the verifier in memory: fetches and writes that fail, sinks that are slow, and limits.

ghost use Rattle.std.specs.Prelude.{◌≡◌, ◌<◌};

use base::lists::{Bytes, Calls, FileMap, Words};
use base::name::Name;
use base::steps::Steps;
use driver::top::movep;
use report::outside::memory_sink::VecSink;
use report::outside::memory_sources::MapSources;
use report::outside::{Sink, Wrote};
use report::status::{Device, Status};
use std::alloc::Global;
use std::marker::Brand;
use std::panic::Expect;
use std::process::Abort;
use std::sync::ledger::{Blank, Ledger};

fn words_of(rt: &impl Abort, alloc: Global, given: &[&[u8]]) -> Words {
    let mut words = Words::new(alloc);
    for word in given {
        words.push(name_of(rt, alloc, word)).expect(rt, "memory");
    }
    words
}

fn name_of(rt: &impl Abort, alloc: Global, text: &[u8]) -> Name {
    Name::from_slice(alloc, text).expect(rt, "memory")
}

fn put(rt: &impl Abort, alloc: Global, files: &mut FileMap, name: &[u8], text: &[u8]) {
    let mut bytes = Bytes::new(alloc);
    bytes.extend_from_slice(text).expect(rt, "memory");
    files
        .insert(name_of(rt, alloc, name), bytes)
        .expect(rt, "memory");
}

/// A source that holds one file `a.move`, and whose fetches with these numbers fail.
fn source_of(rt: &impl Abort, alloc: Global, text: &[u8], fails: &[u64]) -> MapSources {
    let mut files = FileMap::new(alloc);
    put(rt, alloc, &mut files, b"a.move", text);
    MapSources::new(files, Calls::from_slice(alloc, fails).expect(rt, "memory"))
}

/// A sink that takes one byte at a time, and does not tell what it took.
#[derive(Drop)]
struct SlowSink {
    inner: VecSink,
}

impl Sink for SlowSink {
    ghost taken = { λ _. Rattle.std.specs.Prelude.None };

    ghost faults = { λ s. s.inner.faults };

    fn write(&mut self, piece: &[u8]) -> Wrote {
        match piece {
            [] => Wrote::Taken(0),
            [first, ..] => self.inner.write(&[*first]),
        }
    }
}

/// Runs the verifier with a counter of its own.
fn run<W: Sink, L: Ledger>(
    alloc: Global,
    words: &Words,
    sources: &mut MapSources,
    sink: &mut W,
    blank: Blank,
) -> Status
    requires name { blank.name ≡ L.name }
    requires parts { blank.parts ≡ L.parts }
    requires some { 0 < L.parts }
{
    let mut steps = Steps::<L>::new(blank);
    movep(alloc, words, sources, sink, &mut steps)
}

/// What the verifier answers over a sink whose writes with these numbers fail, and which takes this output.
fn answer(
    rt: &impl Abort,
    alloc: Global,
    words: &Words,
    sources: MapSources,
    fails: &[u64],
    output: &[u8],
) -> Status {
    let mut sources = sources;
    let calls = Calls::from_slice(alloc, fails).expect(rt, "memory");
    let mut sink = VecSink::new(alloc, 1000, calls).expect(rt, "memory");
    let status = run::<_, Brand>(alloc, words, &mut sources, &mut sink, Blank::new(1));
    assert_eq!(rt; sink.bytes(), output);
    status
}

const SUM: &[u8] =
    b"module 0x1::m {\n    fun f(x: u64, y: u64): u64 { x + y }\n    spec f {\n        aborts_if x + y > MAX_U64;\n        ensures result == x + y;\n    }\n}\n";

const SUM_REPORT: &[u8] =
    b"0x1::m::f: proved\n  ensures a.move:5: proved\n  aborts_if a.move:4: proved\n  aborts a.move:2: proved\nproved 1 of 1\n";

#[test]
fn a_fetch_that_fails(rt: HostRuntime) {
    let alloc = rt.alloc();
    let words = words_of(&rt, alloc, &[b"a.move"]);
    let sources = source_of(&rt, alloc, SUM, &[1]);
    let output = b"fault source a.move\n";
    let status = answer(&rt, alloc, &words, sources, &[], output);
    assert!(rt; status == Status::Fault(Device::Source));
}

#[test]
fn writes_that_fail(rt: HostRuntime) {
    let alloc = rt.alloc();
    let words = words_of(&rt, alloc, &[b"a.move"]);
    // The number of the write that fails, and how many bytes the lines before it have.
    for (call, taken) in [(1u64, 0usize), (2, 18), (3, 45), (4, 74), (5, 100)] {
        let sources = source_of(&rt, alloc, SUM, &[]);
        let output = &SUM_REPORT[..taken];
        let status = answer(&rt, alloc, &words, sources, &[call], output);
        assert!(rt; status == Status::Fault(Device::Sink));
    }
}

#[test]
fn a_slow_sink_takes_all(rt: HostRuntime) {
    let alloc = rt.alloc();
    let words = words_of(&rt, alloc, &[b"a.move"]);
    let rows: [(&[u8], &[u8], u8); 2] = [
        (SUM, SUM_REPORT, 0),
        (b"module 0x1::m {", b"refused 2 Grammar a.move:1\n", 2),
    ];
    for (text, output, code) in rows {
        let mut sources = source_of(&rt, alloc, text, &[]);
        let inner = VecSink::new(alloc, 1000, Calls::new(alloc)).expect(&rt, "memory");
        let mut sink = SlowSink { inner };
        let status = run::<_, Brand>(alloc, &words, &mut sources, &mut sink, Blank::new(1));
        assert_eq!(rt; sink.inner.bytes(), output);
        assert_eq!(rt; status.code(), code);
    }
}

#[test]
fn limits(rt: HostRuntime) {
    let alloc = rt.alloc();
    let words = words_of(&rt, alloc, &[b"a.move"]);
    let rows: [(u8, usize, &[u8], u8); 6] = [
        (b' ', 1_048_576, b"proved 0 of 0\n", 0),
        (b' ', 1_048_577, b"limit bytes a.move\n", 5),
        (b'(', 200, b"refused 2 Grammar a.move:1\n", 2),
        (b'(', 201, b"limit nesting a.move\n", 5),
        (b';', 200_000, b"refused 2 Grammar a.move:1\n", 2),
        (b';', 200_001, b"limit tokens a.move\n", 5),
    ];
    for (byte, count, output, code) in rows {
        let text = vec![in alloc; byte; count].expect(&rt, "memory");
        let sources = source_of(&rt, alloc, text.as_slice(), &[]);
        let status = answer(&rt, alloc, &words, sources, &[], output);
        assert_eq!(rt; status.code(), code);
    }
}

/// A module with a function whose result is a number between so many parentheses.
fn nested(rt: &impl Abort, alloc: Global, count: usize) -> Vec<u8> {
    let mut text = Vec::from_slice(alloc, b"module 0x1::m { fun f(): u64 {").expect(rt, "memory");
    text.resize(text.len().saturating_add(count), b'(')
        .expect(rt, "memory");
    text.push(b'1').expect(rt, "memory");
    text.resize(text.len().saturating_add(count), b')')
        .expect(rt, "memory");
    text.extend_from_slice(b"} }").expect(rt, "memory");
    text
}

#[test]
fn parentheses_near_the_limit(rt: HostRuntime) {
    let alloc = rt.alloc();
    let words = words_of(&rt, alloc, &[b"a.move"]);
    let rows: [(usize, &[u8], u8); 2] = [
        (198, b"0x1::m::f: proved\nproved 1 of 1\n", 0),
        (199, b"limit nesting a.move\n", 5),
    ];
    for (count, output, code) in rows {
        let text = nested(&rt, alloc, count);
        let sources = source_of(&rt, alloc, text.as_slice(), &[]);
        let status = answer(&rt, alloc, &words, sources, &[], output);
        assert_eq!(rt; status.code(), code);
    }
}

#[test]
fn counts_of_files(rt: HostRuntime) {
    let alloc = rt.alloc();
    let rows: [(usize, &[u8], u8); 3] = [
        (0, b"proved 0 of 0\n", 0),
        (64, b"proved 0 of 0\n", 0),
        (65, b"limit files 65\n", 5),
    ];
    for (count, output, code) in rows {
        let mut words = Words::new(alloc);
        for _ in 0..count {
            words
                .push(name_of(&rt, alloc, b"a.move"))
                .expect(&rt, "memory");
        }
        let sources = source_of(&rt, alloc, b"", &[]);
        let status = answer(&rt, alloc, &words, sources, &[], output);
        assert_eq!(rt; status.code(), code);
    }
}
