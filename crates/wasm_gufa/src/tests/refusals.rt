//! Every status and every part that bytes can reach, with its line.

use super::{HEAD, HEADER, expect, joined, run_on};
use crate::{Part, Status};
use std::test::Fail;

/// Bytes behind `HEADER` or `HEAD`, the status and the line.
type Row = (&'static [u8], &'static [u8], Status, &'static [u8]);

#[test]
fn texts_that_are_no_modules_are_refused(rt: HostRuntime) -> Result<(), Fail> {
    let rows: [Row; 9] = [
        // The header without its last byte.
        (
            b"\x00asm\x01\x00\x00",
            b"",
            Status::Malformed { at: 7 },
            b"wasm-gufa: malformed at 7\n",
        ),
        // An entry whose size is one too large.
        (
            HEAD,
            b"\x0A\x06\x01\x05\x00\x41\x00\x0B",
            Status::Malformed { at: 29 },
            b"wasm-gufa: malformed at 29\n",
        ),
        // A constant of floating point.
        (
            HEAD,
            b"\x0A\x09\x01\x07\x00\x43\x00\x00\x00\x00\x0B",
            Status::OutOfProfile { at: 31, code: 0x43 },
            b"wasm-gufa: not in profile at 31, code 0x43\n",
        ),
        // A result of floating point.
        (
            HEADER,
            b"\x01\x05\x01\x60\x00\x01\x7D\x03\x02\x01\x00",
            Status::OutOfProfile { at: 14, code: 0x7D },
            b"wasm-gufa: not in profile at 14, code 0x7d\n",
        ),
        // A saturating conversion, with its number in two bytes.
        (
            HEAD,
            b"\x0A\x08\x01\x06\x00\xFC\x87\x00\x1A\x0B",
            Status::OutOfProfile {
                at: 31,
                code: 0xFC07,
            },
            b"wasm-gufa: not in profile at 31, code 0xfc07\n",
        ),
        // A table whose limits have 64 bits.
        (
            HEADER,
            b"\x02\x09\x01\x01a\x01b\x01\x70\x04\x00",
            Status::OutOfProfile { at: 17, code: 4 },
            b"wasm-gufa: not in profile at 17, code 0x4\n",
        ),
        // A function without a body.
        (
            HEAD,
            b"",
            Status::Malformed { at: 26 },
            b"wasm-gufa: malformed at 26\n",
        ),
        // A section a second time.
        (
            HEADER,
            b"\x01\x01\x00\x01\x01\x00",
            Status::Malformed { at: 11 },
            b"wasm-gufa: malformed at 11\n",
        ),
        // A name that is not UTF-8.
        (
            HEADER,
            b"\x00\x02\x01\xFF",
            Status::Malformed { at: 10 },
            b"wasm-gufa: malformed at 10\n",
        ),
    ];
    for (front, bytes, status, line) in rows {
        let ran = run_on(&rt, rt.alloc(), joined(rt.alloc(), front, bytes)?)?;
        expect(&rt, &ran, status, b"", line);
    }
    Ok(())
}

#[test]
fn modules_that_are_not_valid_are_refused(rt: HostRuntime) -> Result<(), Fail> {
    let rows: [(&[u8], Part, &[u8]); 15] = [
        // A field whose type no index has.
        (
            b"\x01\x06\x01\x5F\x01\x64\x05\x00",
            Part::Ty(0),
            b"wasm-gufa: invalid, type 0\n",
        ),
        // A supertype that is final.
        (
            b"\x01\x08\x02\x5F\x00\x50\x01\x00\x5F\x00",
            Part::Ty(1),
            b"wasm-gufa: invalid, type 1\n",
        ),
        // Types that no index has.
        (
            b"\x02\x07\x01\x01a\x01b\x00\x00",
            Part::Import(0),
            b"wasm-gufa: invalid, import 0\n",
        ),
        (
            b"\x03\x02\x01\x00\x0A\x04\x01\x02\x00\x0B",
            Part::Func(0),
            b"wasm-gufa: invalid, function 0\n",
        ),
        (
            b"\x0D\x03\x01\x00\x00",
            Part::Tag(0),
            b"wasm-gufa: invalid, tag 0\n",
        ),
        // A table of functions that are not null, without an initial value.
        (
            b"\x04\x05\x01\x64\x70\x00\x00",
            Part::Table(0),
            b"wasm-gufa: invalid, table 0\n",
        ),
        // A memory of 65,537 pages.
        (
            b"\x05\x05\x01\x00\x81\x80\x04",
            Part::Memory(0),
            b"wasm-gufa: invalid, memory 0\n",
        ),
        // A global without a value.
        (
            b"\x06\x04\x01\x7F\x00\x0B",
            Part::Global(0),
            b"wasm-gufa: invalid, global 0\n",
        ),
        // Functions that are not there.
        (
            b"\x07\x05\x01\x01f\x00\x00",
            Part::Export(0),
            b"wasm-gufa: invalid, export 0\n",
        ),
        (b"\x08\x01\x00", Part::Start, b"wasm-gufa: invalid, start\n"),
        (
            b"\x09\x05\x01\x01\x00\x01\x00",
            Part::Element(0),
            b"wasm-gufa: invalid, element 0\n",
        ),
        // Two exports of one name.
        (
            b"\x05\x03\x01\x00\x01\x07\x09\x02\x01m\x02\x00\x01m\x02\x00",
            Part::Export(1),
            b"wasm-gufa: invalid, export 1\n",
        ),
        // A segment is copied, and the number of segments is not said before.
        (
            b"\x01\x04\x01\x60\x00\x00\x03\x02\x01\x00\x05\x03\x01\x00\x01\x0A\x0E\x01\x0C\x00\x41\x00\x41\x00\x41\x00\xFC\x08\x00\x00\x0B\x0B\x03\x01\x01\x00",
            Part::Count,
            b"wasm-gufa: invalid, data count\n",
        ),
        // A local without a default is read before it is set.
        (
            b"\x01\x06\x02\x5F\x00\x60\x00\x00\x03\x02\x01\x01\x0A\x0A\x01\x08\x01\x01\x64\x00\x20\x00\x1A\x0B",
            Part::Code(0),
            b"wasm-gufa: invalid, code 0\n",
        ),
        // A segment for a memory that is not there.
        (
            b"\x0B\x06\x01\x00\x41\x00\x0B\x00",
            Part::DataSeg(0),
            b"wasm-gufa: invalid, data 0\n",
        ),
    ];
    for (bytes, part, line) in rows {
        let ran = run_on(&rt, rt.alloc(), joined(rt.alloc(), HEADER, bytes)?)?;
        expect(&rt, &ran, Status::Invalid { part }, b"", line);
    }
    Ok(())
}
