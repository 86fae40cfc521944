//! Files and a sink in memory.

use base::lists::{Bytes, Calls, FileMap};
use base::name::Name;
use report::outside::memory_sink::VecSink;
use report::outside::memory_sources::MapSources;
use report::outside::{Fetched, Sink, Sources, Wrote};
use std::alloc::Global;
use std::test::Fail;

#[test]
fn an_empty_piece_is_taken_without_room(rt: HostRuntime) -> Result<(), Fail> {
    let mut sink = VecSink::new(rt.alloc(), 0, Calls::new(rt.alloc()))?;
    assert_eq!(rt; sink.write(b""), Wrote::Taken(0));
    assert_eq!(rt; sink.write(b"x"), Wrote::Failed);
    Ok(())
}

// Three files: a short one, the longest that is fetched, and one that is too long.
fn files(alloc: Global) -> Result<FileMap, Fail> {
    let mut files = FileMap::new(alloc);
    for (name, length) in [(b"a", 3usize), (b"b", 1_048_576), (b"c", 1_048_577)] {
        let mut bytes = Bytes::new(alloc);
        bytes.extend_from_slice(vec![in alloc; b'x'; length]?.as_slice())?;
        files.insert(Name::from_slice(alloc, name)?, bytes)?;
    }
    Ok(files)
}

#[test]
fn files_in_memory_are_fetched(rt: HostRuntime) -> Result<(), Fail> {
    let alloc = rt.alloc();
    let failing = Calls::from_slice(alloc, &[2])?;
    let mut sources = MapSources::new(files(alloc)?, failing);
    let mut into = Bytes::new(alloc);
    for (name, answer, length) in [
        (b"a", Fetched::Whole, 3),
        (b"a", Fetched::Failed, 0),
        (b"b", Fetched::Whole, 1_048_576),
        (b"c", Fetched::TooLong, 0),
        (b"d", Fetched::Failed, 0),
        (b"a", Fetched::Whole, 3),
    ] {
        let name = Name::from_slice(alloc, name)?;
        assert_eq!(rt; sources.fetch(&name, &mut into), answer);
        assert_eq!(rt; into.len(), length);
    }
    Ok(())
}
