mod batches;
mod code;

use super::*;
use gu_read_parts::{ReadErr, Which};
use std::alloc::{AllocError, Global};
use std::process::Abort;
use std::test::Fail;
use std::thread::Threads;

/// The magic number and the version.
const HEADER: [u8; 8] = [0x00, 0x61, 0x73, 0x6D, 0x01, 0x00, 0x00, 0x00];

/// A header, a type, a function of it and an export of that.
const FUNC: [u8; 26] = [
    0x00, 0x61, 0x73, 0x6D, 0x01, 0x00, 0x00, 0x00, 0x01, 0x05, 0x01, 0x60, 0x00, 0x01, 0x7F, 0x03,
    0x02, 0x01, 0x00, 0x07, 0x05, 0x01, 0x01, 0x66, 0x00, 0x00,
];

/// Holds that reading these bytes is answered so: `None` where a module is read.
fn answers(rt: &(impl Abort + Threads + Sync), alloc: Global, bytes: &[u8], want: Option<ReadErr>) {
    assert_eq!(rt; read_module(rt, alloc, bytes).err(), want);
}

/// The same of bytes behind others.
fn behind(
    rt: &(impl Abort + Threads + Sync),
    alloc: Global,
    front: &[u8],
    bytes: &[u8],
    want: Option<ReadErr>,
) -> Result<(), AllocError> {
    let mut text = Vec::from_slice(alloc, front)?;
    text.extend_from_slice(bytes)?;
    answers(rt, alloc, text.as_slice(), want);
    Ok(())
}

fn malformed(at: u64) -> Option<ReadErr> {
    Some(ReadErr::Malformed { at })
}

fn outside(at: u64, code: u32) -> Option<ReadErr> {
    Some(ReadErr::OutOfProfile { at, code })
}

fn limit(which: Which, at: u64) -> Option<ReadErr> {
    Some(ReadErr::Limit { which, at })
}

#[test]
fn answers_for_headers(rt: HostRuntime) -> Result<(), Fail> {
    let alloc = rt.alloc();
    behind(&rt, alloc, &[], &[], malformed(0))?;
    behind(&rt, alloc, &[], &[0x00, 0x61], malformed(2))?;
    behind(
        &rt,
        alloc,
        &[],
        &[0x00, 0x61, 0x73, 0x6D, 0x02, 0x00, 0x00, 0x00],
        malformed(4),
    )?;
    Ok(())
}

#[test]
fn answers_for_ids_of_sections(rt: HostRuntime) -> Result<(), Fail> {
    let alloc = rt.alloc();
    behind(&rt, alloc, &HEADER, &[0x0D, 0x00], malformed(10))?;
    behind(&rt, alloc, &HEADER, &[0x0E, 0x00], malformed(8))?;
    behind(
        &rt,
        alloc,
        &HEADER,
        &[0x03, 0x01, 0x00, 0x01, 0x01, 0x00],
        malformed(11),
    )?;
    behind(
        &rt,
        alloc,
        &HEADER,
        &[0x01, 0x01, 0x00, 0x01, 0x01, 0x00],
        malformed(11),
    )?;
    behind(
        &rt,
        alloc,
        &HEADER,
        &[0x0A, 0x01, 0x00, 0x0C, 0x01, 0x00],
        malformed(11),
    )?;
    behind(
        &rt,
        alloc,
        &HEADER,
        &[0x03, 0x01, 0x00, 0x0D, 0x01, 0x00],
        None,
    )?;
    behind(
        &rt,
        alloc,
        &HEADER,
        &[0x06, 0x01, 0x00, 0x0D, 0x01, 0x00],
        malformed(11),
    )?;
    Ok(())
}

#[test]
fn answers_for_sizes_and_ends_of_sections(rt: HostRuntime) -> Result<(), Fail> {
    let alloc = rt.alloc();
    behind(&rt, alloc, &HEADER, &[0x01], malformed(9))?;
    behind(&rt, alloc, &HEADER, &[0x01, 0x80], malformed(9))?;
    behind(
        &rt,
        alloc,
        &HEADER,
        &[0x01, 0x80, 0x80, 0x80, 0x80, 0x10],
        malformed(9),
    )?;
    behind(
        &rt,
        alloc,
        &HEADER,
        &[0x01, 0x81, 0x80, 0x80, 0x80, 0x00, 0x00],
        None,
    )?;
    behind(
        &rt,
        alloc,
        &HEADER,
        &[0x01, 0x81, 0x80, 0x80, 0x80, 0x80, 0x00, 0x00],
        malformed(9),
    )?;
    behind(
        &rt,
        alloc,
        &HEADER,
        &[0x01, 0x02, 0x00, 0x00],
        malformed(11),
    )?;
    behind(&rt, alloc, &HEADER, &[0x01, 0x00], malformed(10))?;
    Ok(())
}

#[test]
fn answers_for_numbers_past_their_section(rt: HostRuntime) -> Result<(), Fail> {
    let alloc = rt.alloc();
    behind(
        &rt,
        alloc,
        &HEADER,
        &[0x01, 0x01, 0x80, 0x00],
        malformed(10),
    )?;
    Ok(())
}

#[test]
fn answers_for_names(rt: HostRuntime) -> Result<(), Fail> {
    let alloc = rt.alloc();
    behind(&rt, alloc, &HEADER, &[0x00, 0x00], malformed(10))?;
    behind(&rt, alloc, &HEADER, &[0x00, 0x01, 0x00], None)?;
    behind(
        &rt,
        alloc,
        &HEADER,
        &[0x00, 0x02, 0x05, 0x61],
        malformed(10),
    )?;
    behind(
        &rt,
        alloc,
        &HEADER,
        &[0x00, 0x02, 0x01, 0xFF],
        malformed(10),
    )?;
    behind(
        &rt,
        alloc,
        &HEADER,
        &[0x00, 0x04, 0x03, 0xED, 0xA0, 0x80],
        malformed(10),
    )?;
    Ok(())
}

#[test]
fn answers_for_types(rt: HostRuntime) -> Result<(), Fail> {
    let alloc = rt.alloc();
    behind(
        &rt,
        alloc,
        &HEADER,
        &[0x01, 0x02, 0x01, 0x7D],
        outside(11, 0x7d),
    )?;
    behind(
        &rt,
        alloc,
        &HEADER,
        &[0x01, 0x02, 0x01, 0x7F],
        malformed(11),
    )?;
    behind(
        &rt,
        alloc,
        &HEADER,
        &[0x01, 0x04, 0x01, 0x60, 0x01, 0x7D],
        outside(13, 0x7d),
    )?;
    behind(
        &rt,
        alloc,
        &HEADER,
        &[0x01, 0x05, 0x01, 0x5F, 0x01, 0x64, 0x7C],
        outside(14, 0x7c),
    )?;
    behind(
        &rt,
        alloc,
        &HEADER,
        &[0x01, 0x05, 0x01, 0x5F, 0x01, 0x63, 0x40],
        malformed(14),
    )?;
    behind(
        &rt,
        alloc,
        &HEADER,
        &[0x01, 0x06, 0x01, 0x5F, 0x01, 0x63, 0xFF, 0x7F],
        malformed(14),
    )?;
    behind(
        &rt,
        alloc,
        &HEADER,
        &[0x01, 0x04, 0x01, 0x5E, 0x7F, 0x02],
        malformed(13),
    )?;
    behind(
        &rt,
        alloc,
        &HEADER,
        &[0x01, 0x03, 0x01, 0x5E, 0x78],
        malformed(13),
    )?;
    behind(
        &rt,
        alloc,
        &HEADER,
        &[0x01, 0x04, 0x01, 0x60, 0x01, 0x78],
        malformed(13),
    )?;
    behind(
        &rt,
        alloc,
        &HEADER,
        &[0x01, 0x05, 0x01, 0x4E, 0x01, 0x4E, 0x00],
        malformed(13),
    )?;
    behind(
        &rt,
        alloc,
        &HEADER,
        &[0x01, 0x04, 0x01, 0x50, 0x00, 0x7B],
        outside(13, 0x7b),
    )?;
    behind(&rt, alloc, &HEADER, &[0x01, 0x03, 0x01, 0x4E, 0x00], None)?;
    behind(
        &rt,
        alloc,
        &HEADER,
        &[0x01, 0x05, 0x01, 0x60, 0x01, 0x69, 0x00],
        None,
    )?;
    behind(
        &rt,
        alloc,
        &HEADER,
        &[0x01, 0x06, 0x01, 0x60, 0x01, 0x64, 0x74, 0x00],
        None,
    )?;
    Ok(())
}

#[test]
fn answers_for_imports(rt: HostRuntime) -> Result<(), Fail> {
    let alloc = rt.alloc();
    behind(
        &rt,
        alloc,
        &HEADER,
        &[0x02, 0x08, 0x01, 0x01, 0x61, 0x01, 0x62, 0x04, 0x00, 0x00],
        None,
    )?;
    behind(
        &rt,
        alloc,
        &HEADER,
        &[0x02, 0x08, 0x01, 0x01, 0x61, 0x01, 0x62, 0x05, 0x00, 0x00],
        malformed(15),
    )?;
    behind(
        &rt,
        alloc,
        &HEADER,
        &[
            0x02, 0x09, 0x01, 0x01, 0x61, 0x01, 0x62, 0x01, 0x70, 0x04, 0x00,
        ],
        outside(17, 0x4),
    )?;
    behind(
        &rt,
        alloc,
        &HEADER,
        &[
            0x02, 0x09, 0x01, 0x01, 0x61, 0x01, 0x62, 0x01, 0x70, 0x03, 0x00,
        ],
        malformed(17),
    )?;
    behind(
        &rt,
        alloc,
        &HEADER,
        &[0x02, 0x08, 0x01, 0x01, 0x61, 0x01, 0x62, 0x02, 0x05, 0x00],
        outside(16, 0x5),
    )?;
    behind(
        &rt,
        alloc,
        &HEADER,
        &[
            0x02, 0x09, 0x01, 0x01, 0x61, 0x01, 0x62, 0x01, 0x7F, 0x00, 0x00,
        ],
        malformed(16),
    )?;
    behind(
        &rt,
        alloc,
        &HEADER,
        &[
            0x02, 0x09, 0x01, 0x01, 0x61, 0x01, 0x62, 0x01, 0x7D, 0x00, 0x00,
        ],
        outside(16, 0x7d),
    )?;
    behind(
        &rt,
        alloc,
        &HEADER,
        &[0x02, 0x08, 0x01, 0x01, 0x61, 0x01, 0x62, 0x03, 0x7F, 0x02],
        malformed(17),
    )?;
    Ok(())
}

#[test]
fn answers_for_tables_segments_and_start(rt: HostRuntime) -> Result<(), Fail> {
    let alloc = rt.alloc();
    behind(
        &rt,
        alloc,
        &HEADER,
        &[0x04, 0x05, 0x01, 0x40, 0x01, 0x70, 0x00],
        malformed(12),
    )?;
    behind(
        &rt,
        alloc,
        &HEADER,
        &[0x04, 0x04, 0x01, 0x7E, 0x00, 0x00],
        malformed(11),
    )?;
    behind(
        &rt,
        alloc,
        &HEADER,
        &[0x09, 0x02, 0x01, 0x08],
        malformed(11),
    )?;
    behind(
        &rt,
        alloc,
        &HEADER,
        &[0x09, 0x05, 0x01, 0x81, 0x00, 0x00, 0x00],
        None,
    )?;
    behind(
        &rt,
        alloc,
        &HEADER,
        &[0x09, 0x04, 0x01, 0x01, 0x70, 0x00],
        malformed(12),
    )?;
    behind(
        &rt,
        alloc,
        &HEADER,
        &[0x09, 0x04, 0x01, 0x05, 0x7F, 0x00],
        malformed(12),
    )?;
    behind(
        &rt,
        alloc,
        &HEADER,
        &[0x0B, 0x03, 0x01, 0x01, 0x05],
        malformed(12),
    )?;
    behind(
        &rt,
        alloc,
        &HEADER,
        &[0x0B, 0x03, 0x01, 0x03, 0x00],
        malformed(11),
    )?;
    behind(
        &rt,
        alloc,
        &HEADER,
        &[0x08, 0x02, 0x00, 0x00],
        malformed(11),
    )?;
    Ok(())
}

#[test]
fn answers_for_counts_that_must_agree(rt: HostRuntime) -> Result<(), Fail> {
    let alloc = rt.alloc();
    behind(&rt, alloc, &FUNC, &[], malformed(26))?;
    behind(&rt, alloc, &FUNC, &[0x0A, 0x01, 0x00], malformed(28))?;
    behind(&rt, alloc, &HEADER, &[0x0A, 0x01, 0x00], None)?;
    behind(
        &rt,
        alloc,
        &HEADER,
        &[0x0A, 0x03, 0x01, 0x01, 0x0B],
        malformed(10),
    )?;
    behind(&rt, alloc, &HEADER, &[0x0C, 0x01, 0x01], malformed(11))?;
    behind(&rt, alloc, &HEADER, &[0x0C, 0x01, 0x00], None)?;
    behind(
        &rt,
        alloc,
        &HEADER,
        &[0x0C, 0x01, 0x01, 0x0B, 0x01, 0x00],
        malformed(13),
    )?;
    Ok(())
}
