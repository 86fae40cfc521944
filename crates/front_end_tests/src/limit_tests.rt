//! Limits of files: how many locals a function has, how many tokens a file, and how deep they nest.

ghost use Rattle.std.specs.Prelude.{◌<◌, ◌^◌, length, IfOk};

use base::lists::Bytes;
use base::memory::NoMemory;
use base::rule::Rule;
use front_end::fault::{FileFault, FileLimit, ProgramFault};
use front_end::files::read_program;
use std::alloc::Global;
use std::process::Abort;
use std::test::Fail;
use sum_tree::function::SumModule;

/// The bytes of a text.
fn bytes_of(rt: &impl Abort, alloc: Global, text: &str) -> Result<Bytes, NoMemory>
    ensures { IfOk result (λ bytes. length bytes < 2 ^ 32) }
{
    assert!(rt; text.len() < 2_000_000);
    let mut bytes = Bytes::new(alloc);
    bytes.extend_from_slice(text.as_bytes())?;
    Ok(bytes)
}

/// The program of files with these texts.
fn read(
    rt: &impl Abort,
    alloc: Global,
    texts: &[&str],
) -> Result<Result<Vec<SumModule>, ProgramFault>, NoMemory> {
    let mut files = Vec::new(alloc);
    for text in texts {
        files.push(bytes_of(rt, alloc, text)?)?;
    }
    assert!(rt; files.len() < 100);
    Ok(read_program(alloc, files.as_slice()))
}

/// The files have no program, for this reason.
fn stops(
    rt: &impl Abort,
    alloc: Global,
    texts: &[&str],
    file: u32,
    fault: FileFault,
) -> Result<(), NoMemory> {
    match read(rt, alloc, texts)? {
        Ok(_) => assert!(rt; false, "a program"),
        Err(found) => assert!(rt; found == ProgramFault::InFile(file, fault)),
    }
    Ok(())
}

/// A text of a piece so many times between two others.
fn repeated(
    alloc: Global,
    front: &str,
    piece: &str,
    times: usize,
    back: &str,
) -> Result<String, NoMemory> {
    let mut text = String::new(alloc);
    text.push_str(front)?;
    for _ in 0..times {
        text.push_str(piece)?;
    }
    text.push_str(back)?;
    Ok(text)
}

/// A second file of a function with a piece so many times in its body has no program, for this reason.
fn stops_at(
    rt: &impl Abort,
    alloc: Global,
    piece: &str,
    times: usize,
    fault: FileFault,
) -> Result<(), NoMemory> {
    let head = "module 0x1::n { fun f(a: u64) { ";
    let text = repeated(alloc, head, piece, times, "} }")?;
    let texts = ["module 0x1::m { fun f(x: u64): u64 { x } }", text.as_str()];
    stops(rt, alloc, &texts, 1, fault)
}

#[test]
fn limits_of_files(rt: HostRuntime) -> Result<(), Fail> {
    let alloc = rt.alloc();
    for (piece, times, fault) in [
        ("let b = 0; ", 255, FileFault::breaks(Rule::NotBuilt, 16)),
        (
            "let b = 0; ",
            256,
            FileFault::Passes(FileLimit::Locals, 257),
        ),
        (
            "let (b, c) = d; ",
            150,
            FileFault::Passes(FileLimit::Locals, 301),
        ),
        (
            "{ let b = 0; }; ",
            256,
            FileFault::Passes(FileLimit::Locals, 257),
        ),
        ("; ", 199_985, FileFault::breaks(Rule::Grammar, 32)),
        ("; ", 199_986, FileFault::Passes(FileLimit::Tokens, 200_001)),
        ("(", 201, FileFault::Passes(FileLimit::Nesting, 201)),
    ] {
        stops_at(&rt, alloc, piece, times, fault)?;
    }
    Ok(())
}
