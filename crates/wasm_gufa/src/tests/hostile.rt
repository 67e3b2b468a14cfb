//! Hostile bytes, and objects outside that fail.

ghost use Rattle.std.specs.Prelude.{◌<◌};

use super::{HEAD, HEADER, OBJECTS, Ran, expect, joined, run, run_on};
use crate::{Status, Which, wasm_gufa};
use gu_outside::{MemSink, MemSource};
use std::alloc::{AllocError, Global};
use std::test::Fail;
use std::thread::Threads;

#[test]
fn counts_and_sizes_without_bytes_are_refused(rt: HostRuntime) -> Result<(), Fail> {
    let rows: [(&[u8], &[u8], Status, &[u8]); 3] = [
        // A count of 4,294,967,295 types, and none of them.
        (
            HEADER,
            b"\x01\x05\xFF\xFF\xFF\xFF\x0F",
            Status::Malformed { at: 15 },
            b"wasm-gufa: malformed at 15\n",
        ),
        // A section past the end.
        (
            HEADER,
            b"\x01\x7F",
            Status::Malformed { at: 9 },
            b"wasm-gufa: malformed at 9\n",
        ),
        // Locals that add up to 4,294,967,296.
        (
            HEAD,
            b"\x0A\x0E\x01\x0C\x02\xFF\xFF\xFF\xFF\x0F\x7F\x01\x7F\x41\x00\x0B",
            Status::Limit {
                which: Which::Locals,
                at: 0,
            },
            b"wasm-gufa: limit locals at 0\n",
        ),
    ];
    for (front, bytes, status, line) in rows {
        let ran = run_on(&rt, rt.alloc(), joined(rt.alloc(), front, bytes)?)?;
        expect(&rt, &ran, status, b"", line);
    }
    Ok(())
}

/// A front of a program is malformed, but where it ends behind the header, the types or the imports.
#[test]
fn fronts_of_a_program_are_refused(rt: HostRuntime) -> Result<(), Fail> {
    for length in 0..OBJECTS.len() {
        let front = &OBJECTS[..length];
        let ran = run_on(&rt, rt.alloc(), Vec::from_slice(rt.alloc(), front)?)?;
        if matches!(length, 8 | 84 | 99) {
            expect(&rt, &ran, Status::Done, front, b"");
        } else {
            assert_eq!(rt; ran.status.number(), 2);
            assert!(rt; ran.output.as_slice().is_empty());
        }
    }
    Ok(())
}

/// Runs the program in pieces, with a source and a sink that fail at these calls.
fn run_in_pieces(
    rt: &(impl Threads + Sync),
    alloc: Global,
    take: usize,
    take_fails: &[u64],
    put_fails: &[u64],
) -> Result<Ran, AllocError>
    requires { 0 < take }
{
    let bytes = Vec::from_slice(alloc, OBJECTS)?;
    let input = MemSource::new(bytes, Vec::from_slice(alloc, take_fails)?, take);
    let output = MemSink::new(alloc, Vec::from_slice(alloc, put_fails)?, 10);
    run(rt, alloc, &[], input, output)
}

#[test]
fn a_program_comes_in_pieces(rt: HostRuntime) -> Result<(), Fail> {
    for take in [1, 8, 225, 4096] {
        let ran = run_in_pieces(&rt, rt.alloc(), take, &[], &[])?;
        expect(&rt, &ran, Status::Done, OBJECTS, b"");
    }
    Ok(())
}

/// The program is 29 takes of at most 8 bytes, and one that finds the end.
#[test]
fn each_take_may_fail(rt: HostRuntime) -> Result<(), Fail> {
    for call in 1..31 {
        let ran = run_in_pieces(&rt, rt.alloc(), 8, &[call], &[])?;
        let line = b"wasm-gufa: read failed\n";
        expect(&rt, &ran, Status::ReadFault, b"", line);
    }
    Ok(())
}

/// The program is 23 puts of at most 10 bytes.
#[test]
fn each_put_may_fail(rt: HostRuntime) -> Result<(), Fail> {
    for puts in 0..23 {
        let ran = run_in_pieces(&rt, rt.alloc(), 8, &[], &[puts as u64 + 1])?;
        let line = b"wasm-gufa: write failed\n";
        expect(&rt, &ran, Status::WriteFault, &OBJECTS[..10 * puts], line);
    }
    Ok(())
}

#[test]
fn each_put_of_the_report_may_fail(rt: HostRuntime) -> Result<(), Fail> {
    let rows: [(u64, &[u8]); 6] = [
        (1, b""),
        (2, b"wasm-gufa:"),
        (3, b"wasm-gufa: malformed"),
        (4, b"wasm-gufa: malformed at "),
        (5, b"wasm-gufa: malformed at 7"),
        (6, b"wasm-gufa: malformed at 7\n"),
    ];
    for (call, line) in rows {
        let bytes = Vec::from_slice(rt.alloc(), &HEADER[..7])?;
        let mut input = MemSource::new(bytes, Vec::new(rt.alloc()), 8);
        let mut output = MemSink::new(rt.alloc(), Vec::new(rt.alloc()), 8);
        let fails = Vec::from_slice(rt.alloc(), &[call])?;
        let mut report = MemSink::new(rt.alloc(), fails, 10);
        report.reserve(4096)?;
        let status = wasm_gufa(&rt, rt.alloc(), &[], &mut input, &mut output, &mut report);
        assert_eq!(rt; status, Status::Malformed { at: 7 });
        assert_eq!(rt; report.as_slice(), line);
    }
    Ok(())
}
