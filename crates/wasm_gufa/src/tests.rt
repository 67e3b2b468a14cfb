//! The worked examples, through the top call.
mod hostile;
mod limits;
mod refusals;

use crate::{Status, wasm_gufa};
use gu_outside::{MemSink, MemSource};
use std::alloc::{AllocError, Global};
use std::process::Abort;
use std::test::Fail;
use std::thread::Threads;

/// The magic number and the version.
const HEADER: &[u8; 8] = b"\x00asm\x01\x00\x00\x00";

/// The header, the type `[] -> [i32]`, one function of it, and its export as `f`.
const HEAD: &[u8; 26] =
    b"\x00asm\x01\x00\x00\x00\x01\x05\x01\x60\x00\x01\x7F\x03\x02\x01\x00\x07\x05\x01\x01f\x00\x00";

/// A code section whose size takes five bytes, and a constant 0 in two.
const PADDED: &[u8; 13] = b"\x0A\x87\x80\x80\x80\x00\x01\x05\x00\x41\x80\x00\x0B";

/// The same in its least spelling.
const LEAST: &[u8; 8] = b"\x0A\x06\x01\x04\x00\x41\x00\x0B";

/// A program with classes, virtual calls and casts. It is spelled least, and has no dead tail.
const OBJECTS: &[u8; 225] = b"\
    \x00\x61\x73\x6D\x01\x00\x00\x00\x01\x4A\x03\x4E\x07\x60\x01\x64\x02\x01\x7F\x50\x00\x5F\x01\x64\
    \x00\x00\x50\x00\x5F\x02\x64\x01\x00\x7F\x01\x4F\x01\x01\x5F\x01\x64\x00\x00\x4F\x01\x01\x5F\x01\
    \x64\x00\x00\x4F\x01\x02\x5F\x03\x64\x03\x00\x7F\x01\x7F\x01\x4F\x01\x02\x5F\x04\x64\x04\x00\x7F\
    \x01\x7F\x01\x7F\x01\x60\x01\x7F\x00\x60\x00\x00\x02\x0D\x01\x03\x65\x6E\x76\x05\x70\x72\x69\x6E\
    \x74\x00\x07\x03\x05\x04\x00\x00\x00\x08\x06\x13\x02\x64\x03\x00\xD2\x01\xFB\x00\x03\x0B\x64\x04\
    \x00\xD2\x02\xFB\x00\x04\x0B\x07\x08\x01\x04\x6D\x61\x69\x6E\x00\x04\x0A\x56\x04\x19\x01\x01\x64\
    \x05\x20\x00\xFB\x16\x05\x21\x01\x20\x01\xFB\x02\x05\x02\x20\x01\xFB\x02\x05\x02\x6C\x0B\x19\x01\
    \x01\x64\x06\x20\x00\xFB\x16\x06\x21\x01\x20\x01\xFB\x02\x06\x02\x20\x01\xFB\x02\x06\x03\x6C\x0B\
    \x10\x00\x20\x00\x20\x00\xFB\x02\x02\x00\xFB\x02\x01\x00\x14\x00\x0B\x0F\x00\x23\x00\x41\x01\x41\
    \x04\xFB\x00\x05\x10\x03\x10\x00\x0B";

const USAGE: &[u8] =
    b"usage: wasm-gufa [--workers N] [--rounds K] [--report] [--generate S] [--calls] [--allocs] [--unused]\n";

/// What a run left behind.
#[derive(Drop)]
struct Ran {
    status: Status,
    output: MemSink,
    report: MemSink,
}

/// Runs the top call with a report of ample room.
fn run(
    rt: &(impl Threads + Sync),
    alloc: Global,
    words: &[&str],
    mut input: MemSource,
    mut output: MemSink,
) -> Result<Ran, AllocError> {
    let mut report = MemSink::new(alloc, Vec::new(alloc), 4096);
    report.reserve(4096)?;
    output.reserve(65_536)?;
    let status = wasm_gufa(rt, alloc, words, &mut input, &mut output, &mut report);
    Ok(Ran {
        status,
        output,
        report,
    })
}

/// Runs it on bytes, where nothing fails.
fn run_on(rt: &(impl Threads + Sync), alloc: Global, bytes: Vec<u8>) -> Result<Ran, AllocError> {
    let input = MemSource::new(bytes, Vec::new(alloc), 65_536);
    let output = MemSink::new(alloc, Vec::new(alloc), 65_536);
    run(rt, alloc, &[], input, output)
}

/// A first text, and one behind it.
fn joined(alloc: Global, front: &[u8], back: &[u8]) -> Result<Vec<u8>, AllocError> {
    let mut bytes = Vec::from_slice(alloc, front)?;
    bytes.extend_from_slice(back)?;
    Ok(bytes)
}

/// Asserts what a run left behind.
fn expect(rt: &impl Abort, ran: &Ran, status: Status, output: &[u8], line: &[u8]) {
    assert_eq!(rt; ran.status, status);
    assert_eq!(rt; ran.output.as_slice(), output);
    assert_eq!(rt; ran.report.as_slice(), line);
}

/// Modules as they are written: each stands behind `HEADER` or `HEAD`.
#[test]
fn modules_are_written_least_and_without_dead_tails(rt: HostRuntime) -> Result<(), Fail> {
    let rows: [(&[u8], &[u8], &[u8]); 12] = [
        // No section, and a custom section alone.
        (HEADER, b"", b""),
        (HEADER, b"\x00\x03\x01a\xFF", b""),
        // A padded constant, behind a padded size.
        (HEAD, PADDED, LEAST),
        // A tail behind `return`.
        (
            HEAD,
            b"\x0A\x09\x01\x07\x00\x41\x01\x0F\x01\x1A\x0B",
            b"\x0A\x07\x01\x05\x00\x41\x01\x0F\x0B",
        ),
        // Dead code that takes operands from nothing.
        (
            HEAD,
            b"\x0A\x06\x01\x04\x00\x00\x6A\x0B",
            b"\x0A\x05\x01\x03\x00\x00\x0B",
        ),
        // A tail behind a branch inside a block.
        (
            HEAD,
            b"\x0A\x0C\x01\x0A\x00\x02\x40\x0C\x00\x01\x0B\x41\x01\x0B",
            b"\x0A\x0B\x01\x09\x00\x02\x40\x0C\x00\x0B\x41\x01\x0B",
        ),
        // An `if` with an empty second branch.
        (
            HEAD,
            b"\x0A\x0C\x01\x0A\x00\x41\x00\x04\x40\x05\x0B\x41\x01\x0B",
            b"\x0A\x0B\x01\x09\x00\x41\x00\x04\x40\x0B\x41\x01\x0B",
        ),
        // Two runs of locals of one type, and a run of none.
        (
            HEAD,
            b"\x0A\x0C\x01\x0A\x03\x01\x7F\x00\x7E\x01\x7F\x41\x00\x0B",
            b"\x0A\x08\x01\x06\x01\x02\x7F\x41\x00\x0B",
        ),
        // A mutable global of 7 that is exported and read.
        (
            HEADER,
            b"\x01\x05\x01\x60\x00\x01\x7F\x03\x02\x01\x00\x06\x06\x01\x7F\x01\x41\x07\x0B\x07\x09\x02\x01f\x00\x00\x01g\x03\x00\x0A\x06\x01\x04\x00\x23\x00\x0B",
            b"\x01\x05\x01\x60\x00\x01\x7F\x03\x02\x01\x00\x06\x06\x01\x7F\x01\x41\x07\x0B\x07\x09\x02\x01f\x00\x00\x01g\x03\x00\x0A\x06\x01\x04\x00\x23\x00\x0B",
        ),
        // A tag, and a function that throws it.
        (
            HEADER,
            b"\x01\x08\x02\x60\x00\x00\x60\x01\x7F\x00\x03\x02\x01\x00\x0D\x03\x01\x00\x01\x0A\x08\x01\x06\x00\x41\x05\x08\x00\x0B",
            b"\x01\x08\x02\x60\x00\x00\x60\x01\x7F\x00\x03\x02\x01\x00\x0D\x03\x01\x00\x01\x0A\x08\x01\x06\x00\x41\x05\x08\x00\x0B",
        ),
        // The same throw with a tail behind it.
        (
            HEADER,
            b"\x01\x08\x02\x60\x00\x00\x60\x01\x7F\x00\x03\x02\x01\x00\x0D\x03\x01\x00\x01\x0A\x0A\x01\x08\x00\x41\x05\x08\x00\x01\x1A\x0B",
            b"\x01\x08\x02\x60\x00\x00\x60\x01\x7F\x00\x03\x02\x01\x00\x0D\x03\x01\x00\x01\x0A\x08\x01\x06\x00\x41\x05\x08\x00\x0B",
        ),
        (b"", OBJECTS, OBJECTS),
    ];
    for (front, read, written) in rows {
        let ran = run_on(&rt, rt.alloc(), joined(rt.alloc(), front, read)?)?;
        let wanted = joined(rt.alloc(), front, written)?;
        expect(&rt, &ran, Status::Done, wanted.as_slice(), b"");
    }
    Ok(())
}

#[test]
fn any_word_is_usage(rt: HostRuntime) -> Result<(), Fail> {
    for word in ["x", "--", "--help", ""] {
        let bytes = joined(rt.alloc(), HEAD, PADDED)?;
        let input = MemSource::new(bytes, Vec::new(rt.alloc()), 4096);
        let output = MemSink::new(rt.alloc(), Vec::new(rt.alloc()), 4096);
        let ran = run(&rt, rt.alloc(), &[word], input, output)?;
        expect(&rt, &ran, Status::Usage, b"", USAGE);
    }
    Ok(())
}
