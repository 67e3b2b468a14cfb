//! Integers of the binary format (core specification 3.0, 5.2.2 Integers). Each may be spelled with
//! more bytes than it needs, up to its width.
ghost use Rattle.std.specs.Prelude.{◌≡◌, ◌≢◌, ◌≤◌, length, IfErr};
ghost use Rattle.gu_syntax.specs.Reading.{u32_as, u32_at, s32_at, s64_at};
ghost use Rattle.gu_read_parts.specs.Gives.{Gives, left_of, item_of};

use crate::stop::{Asked, Stop};
use gu_bytes::Cursor;

/// An unsigned integer of 32 bits. It is refused, as what it is asked as, where no front of the bytes
/// spells one.
#[inline(always)]
pub fn read_u32_as(asked: Asked, bytes: &[u8]) -> Result<(u32, &[u8]), Stop>
    ensures value { Gives result (u32_as (item_of asked) bytes.now) }
    ensures inside { left_of result ≤ length bytes.now }
    ensures memory { IfErr result (λ stop. stop ≢ Stop.NoMemory) }
{
    match bytes.split_first() {
        Some((byte, rest)) if *byte < 128 => Ok((u32::from(*byte), rest)),
        _ => read_long_u32(asked, bytes),
    }
}

/// The same of more bytes than one.
#[inline(never)]
fn read_long_u32(asked: Asked, bytes: &[u8]) -> Result<(u32, &[u8]), Stop>
    ensures value { Gives result (u32_as (item_of asked) bytes.now) }
    ensures inside { left_of result ≤ length bytes.now }
    ensures memory { IfErr result (λ stop. stop ≢ Stop.NoMemory) }
{
    let mut cursor = Cursor::new(bytes);
    let Ok(value) = cursor.read_u32() else {
        return Err(Stop::at(asked, bytes));
    };
    Ok((value, &bytes[cursor.at()..]))
}

/// An unsigned integer of 32 bits, as a count or an index is (5.5.1 Indices).
#[inline(always)]
pub fn read_u32(bytes: &[u8]) -> Result<(u32, &[u8]), Stop>
    ensures value { Gives result (u32_at bytes.now) }
    ensures inside { left_of result ≤ length bytes.now }
{
    read_u32_as(Asked::Number, bytes)
}

/// A signed integer of 32 bits.
#[inline(always)]
pub fn read_s32(bytes: &[u8]) -> Result<(i32, &[u8]), Stop>
    ensures value { Gives result (s32_at bytes.now) }
    ensures inside { left_of result ≤ length bytes.now }
{
    match bytes.split_first() {
        Some((byte, rest)) if *byte < 64 => Ok((i32::from(*byte), rest)),
        _ => read_long_s32(bytes),
    }
}

/// The same of negative integers, and of more bytes than one.
#[inline(never)]
fn read_long_s32(bytes: &[u8]) -> Result<(i32, &[u8]), Stop>
    ensures value { Gives result (s32_at bytes.now) }
    ensures inside { left_of result ≤ length bytes.now }
{
    let mut cursor = Cursor::new(bytes);
    let Ok(value) = cursor.read_s32() else {
        return Err(Stop::at(Asked::Number, bytes));
    };
    Ok((value, &bytes[cursor.at()..]))
}

/// A signed integer of 64 bits.
#[inline(never)]
pub fn read_s64(bytes: &[u8]) -> Result<(i64, &[u8]), Stop>
    ensures value { Gives result (s64_at bytes.now) }
    ensures inside { left_of result ≤ length bytes.now }
{
    let mut cursor = Cursor::new(bytes);
    let Ok(value) = cursor.read_s64() else {
        return Err(Stop::at(Asked::Number, bytes));
    };
    Ok((value, &bytes[cursor.at()..]))
}
