//! Tests of what no contract states: which bytes come from the system and go to it, and that each call succeeds with
//! ample memory.

use crate::file_sources::{FileSources, read_whole};
use crate::give_up;
use crate::out_sink::OutSink;
use crate::words::{SystemWords, collect_words};
use base::lists::{Bytes, Calls};
use base::name::Name;
use report::outside::memory_sink::VecSink;
use report::outside::{Fetched, Sink, Sources, Wrote};
use report::status::{Device, Status};
use std::env::{Env, FillError};
use std::fmt::Display;
use std::io;
use std::io::{ErrorKind, Read};
use std::test::Fail;

/// Words of a command line, the program's name first.
#[derive(Drop)]
struct FixedWords<'a> {
    words: &'a [&'a [u8]],
}

impl Env for FixedWords<'_> {
    fn arg(&self, i: usize, buf: &mut [u8]) -> Result<usize, FillError> {
        let Some(word) = self.words.get(i) else {
            return Err(FillError::NotPresent);
        };
        if word.len() > buf.len() {
            return Err(FillError::TooLong);
        }
        buf[..word.len()].copy_from_slice(word);
        Ok(word.len())
    }

    fn var(&self, _name: &str, _buf: &mut [u8]) -> Result<usize, FillError> {
        Err(FillError::NotPresent)
    }

    fn var_at(&self, _i: usize, _buf: &mut [u8]) -> Result<usize, FillError> {
        Err(FillError::NotPresent)
    }
}

/// A device that gives one byte at a time, and may fail after the last.
#[derive(Drop)]
struct Trickle<'a> {
    rest: &'a [u8],
    fails: bool,
}

impl Read for Trickle<'_> {
    fn read(&mut self, buf: &mut [u8]) -> io::Result<usize> {
        match (self.rest, buf) {
            ([byte, rest @ ..], [first, ..]) => {
                *first = *byte;
                self.rest = rest;
                Ok(1)
            }
            _ if self.fails => Err(io::Error::from(ErrorKind::Other)),
            _ => Ok(0),
        }
    }
}

/// A device that takes at most this many bytes of each piece, and fails if it has no number.
#[derive(Drop)]
struct Narrow(Option<usize>);

impl Print for Narrow {
    fn print<D: Display + Drop>(&self, _value: D) -> io::Result<()> {
        Err(io::Error::from(ErrorKind::Unsupported))
    }

    fn println<D: Display + Drop>(&self, _value: D) -> io::Result<()> {
        Err(io::Error::from(ErrorKind::Unsupported))
    }

    fn write_all(&self, _bytes: &[u8]) -> io::Result<()> {
        Err(io::Error::from(ErrorKind::Unsupported))
    }

    fn write_some(&self, bytes: &[u8]) -> io::Result<usize> {
        match self.0 {
            Some(count) => Ok(count.min(bytes.len())),
            None => Err(io::Error::from(ErrorKind::BrokenPipe)),
        }
    }
}

#[test]
fn words_are_the_bytes_that_the_system_gave(rt: HostRuntime) -> Result<(), Fail> {
    let long = [b'x'; 1000];
    let given: [&[u8]; 5] = [b"movep", b"a.move", b"\xff\n", b"", &long];
    let fixed = FixedWords { words: &given };
    let words = collect_words(rt.alloc(), &SystemWords::new(&fixed))?;
    assert_eq!(rt; words.as_slice().len(), 4);
    for (word, want) in words.as_slice().iter().zip(&given[1..]) {
        assert_eq!(rt; word.as_slice(), *want);
    }
    Ok(())
}

#[test]
fn files_of_the_system_are_fetched(rt: HostRuntime) -> Result<(), Fail> {
    let alloc = rt.alloc();
    let mut sources = FileSources::new(&rt);
    let mut into = Bytes::new(alloc);
    let rows: [(&[u8], Fetched); 6] = [
        (b"/dev/null", Fetched::Whole),
        (b"/dev/zero", Fetched::TooLong),
        (b"/", Fetched::Failed),
        (b"/no such file", Fetched::Failed),
        (b"/dev/null\0", Fetched::Failed),
        (b"\xff", Fetched::Failed),
    ];
    for (name, answer) in rows {
        into.extend_from_slice(b"older bytes")?;
        let fetched = sources.fetch(&Name::from_slice(alloc, name)?, &mut into);
        assert_eq!(rt; fetched, answer);
        assert!(rt; into.is_empty());
    }
    Ok(())
}

#[test]
fn readers_are_read_whole_or_past_the_limit(rt: HostRuntime) -> Result<(), Fail> {
    for (length, answer) in [
        (0usize, Fetched::Whole),
        (40_000, Fetched::Whole),
        (1_048_576, Fetched::Whole),
        (1_048_577, Fetched::TooLong),
    ] {
        let bytes = vec![in rt.alloc(); b'x'; length]?;
        let mut into = Bytes::new(rt.alloc());
        assert_eq!(rt; read_whole(&mut bytes.as_slice(), &mut into), answer);
        assert_eq!(rt; into.as_slice(), bytes.as_slice());
    }
    Ok(())
}

#[test]
fn a_read_may_fail_in_mid_stream(rt: HostRuntime) {
    for (fails, answer) in [(false, Fetched::Whole), (true, Fetched::Failed)] {
        let mut reader = Trickle {
            rest: b"module",
            fails,
        };
        let mut into = Bytes::new(rt.alloc());
        assert_eq!(rt; read_whole(&mut reader, &mut into), answer);
        assert_eq!(rt; into.as_slice(), b"module".as_slice());
    }
}

#[test]
fn a_device_that_takes_nothing_has_failed(rt: HostRuntime) {
    let rows: [(Option<usize>, &[u8], Wrote); 5] = [
        (Some(9), b"line\n", Wrote::Taken(5)),
        (Some(2), b"line\n", Wrote::Taken(2)),
        (Some(0), b"line\n", Wrote::Failed),
        (Some(0), b"", Wrote::Taken(0)),
        (None, b"line\n", Wrote::Failed),
    ];
    for (count, piece, answer) in rows {
        let device = Narrow(count);
        assert_eq!(rt; OutSink::new(&device).write(piece), answer);
    }
}

#[test]
fn want_of_memory_is_known(rt: HostRuntime) -> Result<(), Fail> {
    let mut sink = VecSink::new(rt.alloc(), 100, Calls::new(rt.alloc()))?;
    assert!(rt; give_up(&mut sink) == Status::NoMemory);
    assert_eq!(rt; sink.bytes(), b"no memory\n".as_slice());
    let mut full = VecSink::new(rt.alloc(), 4, Calls::new(rt.alloc()))?;
    assert!(rt; give_up(&mut full) == Status::Fault(Device::Sink));
    Ok(())
}
