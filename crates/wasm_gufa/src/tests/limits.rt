//! Modules at the limits and past them.

use super::{HEAD, HEADER, expect, run_on};
use crate::{Status, Which};
use std::alloc::{AllocError, Global};
use std::process::Abort;
use std::test::Fail;
use std::thread::Threads;

/// A number of 32 bits in five bytes.
fn five_bytes(number: u32) -> [u8; 5] {
    [
        (number & 0x7F) as u8 | 0x80,
        (number >> 7 & 0x7F) as u8 | 0x80,
        (number >> 14 & 0x7F) as u8 | 0x80,
        (number >> 21 & 0x7F) as u8 | 0x80,
        (number >> 28 & 0x0F) as u8,
    ]
}

/// What stands in a section: a front, copies of an item, and a back.
#[derive(Clone, Copy)]
struct Content<'a> {
    front: &'a [u8],
    item: &'a [u8],
    times: u32,
    back: &'a [u8],
}

impl Content<'_> {
    fn bytes(&self, alloc: Global) -> Result<Vec<u8>, AllocError> {
        let mut bytes = Vec::from_slice(alloc, self.front)?;
        for _ in 0..self.times {
            bytes.extend_from_slice(self.item)?;
        }
        bytes.extend_from_slice(self.back)?;
        Ok(bytes)
    }
}

/// Appends a section.
fn put_section(alloc: Global, out: &mut Vec<u8>, id: u8, content: Content) -> Result<(), Fail> {
    let bytes = content.bytes(alloc)?;
    out.push(id)?;
    out.extend_from_slice(&five_bytes(u32::try_from(bytes.len())?))?;
    out.extend_from_slice(bytes.as_slice())?;
    Ok(())
}

#[test]
fn one_byte_too_many_is_a_limit(rt: HostRuntime) -> Result<(), Fail> {
    let ran = run_on(&rt, rt.alloc(), vec![in rt.alloc(); 0u8; 16_777_217]?)?;
    let status = Status::Limit {
        which: Which::Size,
        at: 16_777_216,
    };
    let line = b"wasm-gufa: limit size at 16777216\n";
    expect(&rt, &ran, status, b"", line);
    Ok(())
}

/// Asserts that a module of this section alone is refused for a limit.
fn expect_limit(
    rt: &(impl Abort + Threads + Sync),
    alloc: Global,
    id: u8,
    content: Content,
    status: Status,
    line: &[u8],
) -> Result<(), Fail> {
    let mut bytes = Vec::from_slice(alloc, HEADER)?;
    put_section(alloc, &mut bytes, id, content)?;
    let ran = run_on(rt, alloc, bytes)?;
    expect(rt, &ran, status, b"", line);
    Ok(())
}

#[test]
fn types_are_limited(rt: HostRuntime) -> Result<(), Fail> {
    let content = Content {
        front: b"\xC1\x84\x3D",
        item: b"\x5F\x00",
        times: 1_000_001,
        back: b"",
    };
    let status = Status::Limit {
        which: Which::Types,
        at: 1_000_001,
    };
    let line = b"wasm-gufa: limit types at 1000001\n";
    expect_limit(&rt, rt.alloc(), 1, content, status, line)
}

#[test]
fn functions_are_limited(rt: HostRuntime) -> Result<(), Fail> {
    let content = Content {
        front: b"\xC1\x84\x3D",
        item: b"\x00\x00\x00\x00",
        times: 1_000_001,
        back: b"",
    };
    let status = Status::Limit {
        which: Which::Funcs,
        at: 1_000_001,
    };
    let line = b"wasm-gufa: limit functions at 1000001\n";
    expect_limit(&rt, rt.alloc(), 2, content, status, line)
}

#[test]
fn globals_are_limited(rt: HostRuntime) -> Result<(), Fail> {
    let content = Content {
        front: b"\xC1\x84\x3D",
        item: b"\x00\x00\x03\x7F\x00",
        times: 1_000_001,
        back: b"",
    };
    let status = Status::Limit {
        which: Which::Globals,
        at: 1_000_001,
    };
    let line = b"wasm-gufa: limit globals at 1000001\n";
    expect_limit(&rt, rt.alloc(), 2, content, status, line)
}

#[test]
fn parts_of_types_are_limited(rt: HostRuntime) -> Result<(), Fail> {
    // The content of a type section, the limit that it exceeds, the index of the type, and the line.
    let rows: [(Content, Which, u64, &[u8]); 3] = [
        (
            Content {
                front: b"\x02\x5F\x00\x60\xE9\x07",
                item: b"\x7F",
                times: 1001,
                back: b"\x00",
            },
            Which::Params,
            1,
            b"wasm-gufa: limit parameters at 1\n",
        ),
        (
            Content {
                front: b"\x01\x60\x00\xE9\x07",
                item: b"\x7F",
                times: 1001,
                back: b"",
            },
            Which::Results,
            0,
            b"wasm-gufa: limit results at 0\n",
        ),
        (
            Content {
                front: b"\x01\x5F\x91\x4E",
                item: b"\x7F\x00",
                times: 10_001,
                back: b"",
            },
            Which::Fields,
            0,
            b"wasm-gufa: limit fields at 0\n",
        ),
    ];
    for (content, which, at, line) in rows {
        expect_limit(
            &rt,
            rt.alloc(),
            1,
            content,
            Status::Limit { which, at },
            line,
        )?;
    }
    Ok(())
}

/// Functions with 50,000 locals each, so many of them, and one with a local where this is asked.
fn with_locals(alloc: Global, funcs: u8, more: bool) -> Result<Vec<u8>, Fail> {
    let entry = b"\x06\x01\xD0\x86\x03\x7F\x0B";
    let last: &[u8] = if more { b"\x04\x01\x01\x7F\x0B" } else { b"" };
    let index: &[u8] = if more { b"\x00" } else { b"" };
    let count = [if more { funcs.saturating_add(1) } else { funcs }];
    let mut bytes = Vec::from_slice(alloc, HEADER)?;
    bytes.extend_from_slice(b"\x01\x04\x01\x60\x00\x00")?;
    for (id, item, back) in [(3, b"\x00".as_slice(), index), (10, entry.as_slice(), last)] {
        let content = Content {
            front: &count,
            item,
            times: u32::from(funcs),
            back,
        };
        put_section(alloc, &mut bytes, id, content)?;
    }
    Ok(bytes)
}

#[test]
fn locals_are_limited(rt: HostRuntime) -> Result<(), Fail> {
    let ran = run_on(&rt, rt.alloc(), with_locals(rt.alloc(), 80, false)?)?;
    assert_eq!(rt; ran.status, Status::Done);

    let ran = run_on(&rt, rt.alloc(), with_locals(rt.alloc(), 80, true)?)?;
    let status = Status::Limit {
        which: Which::ModuleLocals,
        at: 4_000_001,
    };
    let line = b"wasm-gufa: limit module locals at 4000001\n";
    expect(&rt, &ran, status, b"", line);
    Ok(())
}

/// Structure types, each below the one before it.
fn chain(alloc: Global, types: u8) -> Result<Vec<u8>, Fail> {
    let mut content = Vec::from_slice(alloc, &[types, 0x50, 0x00, 0x5F, 0x00])?;
    for above in 0..types.saturating_sub(1) {
        content.extend_from_slice(&[0x50, 0x01, above, 0x5F, 0x00])?;
    }
    let mut bytes = Vec::from_slice(alloc, HEADER)?;
    let content = Content {
        front: content.as_slice(),
        item: b"",
        times: 0,
        back: b"",
    };
    put_section(alloc, &mut bytes, 1, content)?;
    Ok(bytes)
}

#[test]
fn depth_of_types_is_limited(rt: HostRuntime) -> Result<(), Fail> {
    let ran = run_on(&rt, rt.alloc(), chain(rt.alloc(), 64)?)?;
    assert_eq!(rt; ran.status, Status::Done);

    let ran = run_on(&rt, rt.alloc(), chain(rt.alloc(), 65)?)?;
    let status = Status::Limit {
        which: Which::Depth,
        at: 64,
    };
    expect(&rt, &ran, status, b"", b"wasm-gufa: limit depth at 64\n");
    Ok(())
}

#[test]
fn nesting_is_limited(rt: HostRuntime) -> Result<(), Fail> {
    let head =
        b"\x00asm\x01\x00\x00\x00\x01\x04\x01\x60\x00\x00\x03\x02\x01\x00\x0A\xBD\x17\x01\xBA\x17\x00";
    let mut bytes = Vec::from_slice(rt.alloc(), head)?;
    for _ in 0..1000 {
        bytes.extend_from_slice(b"\x02\x40")?;
    }
    for _ in 0..1001 {
        bytes.push(0x0B)?;
    }
    let same = Vec::from_slice(rt.alloc(), bytes.as_slice())?;
    let ran = run_on(&rt, rt.alloc(), bytes)?;
    expect(&rt, &ran, Status::Done, same.as_slice(), b"");

    let mut bytes = Vec::from_slice(rt.alloc(), HEAD)?;
    bytes.extend_from_slice(b"\x0A\xD6\x0F\x01\xD3\x0F\x00")?;
    for _ in 0..1001 {
        bytes.extend_from_slice(b"\x02\x40")?;
    }
    let ran = run_on(&rt, rt.alloc(), bytes)?;
    let status = Status::Limit {
        which: Which::Nesting,
        at: 2033,
    };
    expect(
        &rt,
        &ran,
        status,
        b"",
        b"wasm-gufa: limit nesting at 2033\n",
    );
    Ok(())
}
