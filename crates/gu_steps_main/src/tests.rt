//! Modules with known bytes, from bytes to bytes, and which of them are valid.
ghost use Rattle.std.specs.Prelude.{◌≤◌};

use crate::error::StepErr;
use crate::steps::{check_times, copied, read_times};
use crate::work::{Step, Timed, Work, work_of};
use gu_bytes::{put_s32, put_u32};
use gu_model::Part;
use gu_read_parts::{ReadErr, Which};
use gu_valid::ValidErr;
use gu_write_parts::{WriteErr, put_bytes, put_size, put_sized};
use std::alloc::{AllocError, Global};
use std::process::Abort;
use std::test::Fail;
use std::thread::Threads;

/// A program with classes, virtual calls and casts.
const OBJECTS: &[u8; 225] = b"\
    \x00\x61\x73\x6D\x01\x00\x00\x00\x01\x4A\x03\x4E\x07\x60\x01\x64\x02\x01\x7F\x50\x00\x5F\x01\x64\
    \x00\x00\x50\x00\x5F\x02\x64\x01\x00\x7F\x01\x4F\x01\x01\x5F\x01\x64\x00\x00\x4F\x01\x01\x5F\x01\
    \x64\x00\x00\x4F\x01\x02\x5F\x03\x64\x03\x00\x7F\x01\x7F\x01\x4F\x01\x02\x5F\x04\x64\x04\x00\x7F\
    \x01\x7F\x01\x7F\x01\x60\x01\x7F\x00\x60\x00\x00\x02\x0D\x01\x03\x65\x6E\x76\x05\x70\x72\x69\x6E\
    \x74\x00\x07\x03\x05\x04\x00\x00\x00\x08\x06\x13\x02\x64\x03\x00\xD2\x01\xFB\x00\x03\x0B\x64\x04\
    \x00\xD2\x02\xFB\x00\x04\x0B\x07\x08\x01\x04\x6D\x61\x69\x6E\x00\x04\x0A\x56\x04\x19\x01\x01\x64\
    \x05\x20\x00\xFB\x16\x05\x21\x01\x20\x01\xFB\x02\x05\x02\x20\x01\xFB\x02\x05\x02\x6C\x0B\x19\x01\
    \x01\x64\x06\x20\x00\xFB\x16\x06\x21\x01\x20\x01\xFB\x02\x06\x02\x20\x01\xFB\x02\x06\x03\x6C\x0B\
    \x10\x00\x20\x00\x20\x00\xFB\x02\x02\x00\xFB\x02\x01\x00\x14\x00\x0B\x0F\x00\x23\x00\x41\x01\x41\
    \x04\xFB\x00\x05\x10\x03\x10\x00\x0B";

/// The same program, optimised.
const OPTIMISED: &[u8; 153] = b"\
    \x00\x61\x73\x6D\x01\x00\x00\x00\x01\x2C\x03\x60\x01\x7F\x00\x60\x00\x00\x4E\x07\x60\x01\x64\x04\
    \x01\x7F\x50\x00\x5F\x00\x50\x00\x5F\x00\x4F\x01\x03\x5F\x00\x4F\x01\x03\x5F\x00\x4F\x01\x04\x5F\
    \x00\x4F\x01\x04\x5F\x00\x02\x0D\x01\x03\x65\x6E\x76\x05\x70\x72\x69\x6E\x74\x00\x00\x03\x05\x04\
    \x02\x02\x02\x01\x06\x0F\x02\x64\x05\x00\xFB\x00\x05\x0B\x64\x06\x00\xFB\x00\x06\x0B\x07\x08\x01\
    \x04\x6D\x61\x69\x6E\x00\x04\x0A\x30\x04\x0E\x01\x01\x64\x07\x20\x00\xFB\x16\x07\x21\x01\x41\x10\
    \x0B\x08\x01\x01\x64\x08\x20\x00\x00\x0B\x09\x00\x20\x00\x10\x01\x1A\x41\x10\x0B\x0C\x00\xFB\x00\
    \x07\x10\x03\x1A\x41\x10\x10\x00\x0B";

/// A tag, and a function that throws it.
const TAGGED: &[u8; 37] = b"\
    \x00\x61\x73\x6D\x01\x00\x00\x00\x01\x08\x02\x60\x00\x00\x60\x01\x7F\x00\x03\x02\x01\x00\x0D\x03\
    \x01\x00\x01\x0A\x08\x01\x06\x00\x41\x05\x08\x00\x0B";

/// No section.
const EMPTY: &[u8; 8] = b"\x00\x61\x73\x6D\x01\x00\x00\x00";

/// Modules that are in their least spelling.
const LEAST: [&[u8]; 4] = [OBJECTS, OPTIMISED, TAGGED, EMPTY];

/// Modules, and their least spellings: a constant in two bytes, in a section whose size takes five; an
/// `if` with an empty second branch; a custom section named `a`, and nothing else.
const PADDED: [(&[u8], &[u8]); 3] = [
    (
        b"\x00\x61\x73\x6D\x01\x00\x00\x00\x01\x05\x01\x60\x00\x01\x7F\x03\x02\x01\x00\x07\x05\x01\x01\
        \x66\x00\x00\x0A\x87\x80\x80\x80\x00\x01\x05\x00\x41\x80\x00\x0B",
        b"\x00\x61\x73\x6D\x01\x00\x00\x00\x01\x05\x01\x60\x00\x01\x7F\x03\x02\x01\x00\x07\x05\x01\x01\
        \x66\x00\x00\x0A\x06\x01\x04\x00\x41\x00\x0B",
    ),
    (
        b"\x00\x61\x73\x6D\x01\x00\x00\x00\x01\x05\x01\x60\x00\x01\x7F\x03\x02\x01\x00\x07\x05\x01\x01\
        \x66\x00\x00\x0A\x0C\x01\x0A\x00\x41\x00\x04\x40\x05\x0B\x41\x01\x0B",
        b"\x00\x61\x73\x6D\x01\x00\x00\x00\x01\x05\x01\x60\x00\x01\x7F\x03\x02\x01\x00\x07\x05\x01\x01\
        \x66\x00\x00\x0A\x0B\x01\x09\x00\x41\x00\x04\x40\x0B\x41\x01\x0B",
    ),
    (
        b"\x00\x61\x73\x6D\x01\x00\x00\x00\x00\x03\x01\x61\xFF",
        EMPTY,
    ),
];

/// Whether the first module is written as the second.
fn becomes(
    rt: &(impl Threads + Sync),
    alloc: Global,
    from: &[u8],
    to: &[u8],
) -> Result<bool, StepErr> {
    let text = copied(rt, alloc, from)?;
    Ok(text.as_slice() == to)
}

#[test]
fn modules_become_their_least_spelling(rt: HostRuntime) -> Result<(), Fail> {
    for text in LEAST {
        assert!(rt; becomes(&rt, rt.alloc(), text, text)?);
    }
    for (text, least) in PADDED {
        assert!(rt; becomes(&rt, rt.alloc(), text, least)?);
    }
    Ok(())
}

/// Fronts of a program end behind the header, the types or the imports, or are refused.
#[test]
fn fronts_are_refused(rt: HostRuntime) -> Result<(), Fail> {
    let mut whole: Vec<usize> = Vec::new(rt.alloc());
    for length in 0..OBJECTS.len() {
        match copied(&rt, rt.alloc(), &OBJECTS[..length]) {
            Ok(_) => whole.push(length)?,
            Err(StepErr::Read(ReadErr::Malformed { at })) => {
                assert!(rt; at <= length as u64);
            }
            Err(_) => {
                assert!(rt; false);
            }
        }
    }
    assert_eq!(rt; whole.as_slice(), [8, 84, 99].as_slice());
    Ok(())
}

/// A code entry without locals, with blocks so deep inside each other.
fn nested(alloc: Global, depth: usize) -> Result<Vec<u8>, WriteErr> {
    let mut body = vec![in alloc; 0x00]?;
    for _ in 0..depth {
        body.extend_from_slice(&[0x02, 0x40])?;
    }
    for _ in 0..depth {
        body.push(0x0B)?;
    }
    body.push(0x0B)?;
    let mut entry = Vec::new(alloc);
    put_sized(&mut entry, body.as_slice())?;
    Ok(entry)
}

/// A module of functions without parameters and results, with these code entries.
fn module_of(alloc: Global, count: usize, entries: &[u8]) -> Result<Vec<u8>, WriteErr> {
    let mut code = Vec::new(alloc);
    put_size(&mut code, count)?;
    put_bytes(&mut code, entries)?;
    let mut funcs = Vec::new(alloc);
    put_size(&mut funcs, count)?;
    for _ in 0..count {
        funcs.push(0x00)?;
    }
    let mut text = Vec::from_slice(alloc, EMPTY)?;
    put_bytes(&mut text, &[0x01, 0x04, 0x01, 0x60, 0x00, 0x00, 0x03])?;
    put_sized(&mut text, funcs.as_slice())?;
    put_bytes(&mut text, &[0x0A])?;
    put_sized(&mut text, code.as_slice())?;
    Ok(text)
}

/// Why a module is not read.
fn refusal_of(rt: &(impl Threads + Sync), alloc: Global, text: &[u8]) -> Option<ReadErr> {
    match read_times(rt, alloc, text, 1) {
        Err(StepErr::Read(error)) => Some(error),
        _ => None,
    }
}

/// A code entry that begins with the code of an instruction that is left out of the profile.
const LEFT_OUT: [u8; 8] = [0x07, 0x00, 0x43, 0x00, 0x00, 0x00, 0x00, 0x0B];

/// The failure of the first entry counts, and 1,000 blocks may be open.
#[test]
fn the_first_entry_that_fails_is_answered(rt: HostRuntime) -> Result<(), Fail> {
    let alloc = rt.alloc();
    let deepest = nested(alloc, 1000)?;
    let text = module_of(alloc, 1, deepest.as_slice())?;
    assert_eq!(rt; refusal_of(&rt, alloc, text.as_slice()), None);

    let too_deep = nested(alloc, 1001)?;
    let mut entries = Vec::from_slice(alloc, too_deep.as_slice())?;
    entries.extend_from_slice(&LEFT_OUT)?;
    let text = module_of(alloc, 2, entries.as_slice())?;
    let limit = ReadErr::Limit {
        which: Which::Nesting,
        at: 2026,
    };
    assert_eq!(rt; refusal_of(&rt, alloc, text.as_slice()), Some(limit));

    let mut entries = Vec::from_slice(alloc, &LEFT_OUT)?;
    entries.extend_from_slice(too_deep.as_slice())?;
    let text = module_of(alloc, 2, entries.as_slice())?;
    let outside = ReadErr::OutOfProfile { at: 25, code: 0x43 };
    assert_eq!(rt; refusal_of(&rt, alloc, text.as_slice()), Some(outside));
    Ok(())
}

/// So many code entries that make and drop a constant each, one more than the one before.
fn counting(alloc: Global, count: i32) -> Result<Vec<u8>, WriteErr> {
    let mut entries = Vec::new(alloc);
    for number in 0..count {
        let mut body = vec![in alloc; 0x00, 0x41]?;
        put_s32(alloc, &mut body, number)?;
        body.extend_from_slice(&[0x1A, 0x0B])?;
        put_sized(&mut entries, body.as_slice())?;
    }
    Ok(entries)
}

/// Enough entries for several batches, in reading and in writing.
#[test]
fn batches_stay_in_order(rt: HostRuntime) -> Result<(), Fail> {
    let alloc = rt.alloc();
    let entries = counting(alloc, 30_000)?;
    let text = module_of(alloc, 30_000, entries.as_slice())?;
    assert!(rt; text.len() > 3 * 65_536);
    assert!(rt; becomes(&rt, alloc, text.as_slice(), text.as_slice())?);
    Ok(())
}

#[test]
fn words_ask_for_work(rt: HostRuntime) -> Result<(), Fail> {
    assert_eq!(rt; work_of(&["read", "3"]), Some(Work::Step(Step::Read(3))));
    assert_eq!(rt;
        work_of(&["clock", "write", "2"]),
        Some(Work::Timed(Timed::Write(2)))
    );
    assert_eq!(rt; work_of(&["lines"]), Some(Work::Lines));
    assert_eq!(rt; work_of(&["clock", "check", "2"]), None);
    assert_eq!(rt; work_of(&["write", "many"]), None);
    Ok(())
}
