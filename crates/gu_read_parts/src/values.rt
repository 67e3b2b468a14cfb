//! The types of values, what may be written, and limits (core specification 3.0, 5.3 Types).
ghost use Rattle.std.specs.Prelude.{◌≡◌, ◌≤◌, ◌∷◌, length};
ghost use Rattle.gu_syntax.specs.Reading.{abs_with, heap_at, ref_at, val_at};
ghost use Rattle.gu_syntax.specs.Reading.{mutable_at, limits_at};
ghost use Rattle.gu_read_parts.specs.Gives.{Gives, left_of, type_index_at};

use crate::numbers::read_u32;
use crate::part::Part;
use crate::stop::{Asked, Stop};
use gu_bytes::Cursor;
use gu_syntax::Limits;
use gu_types::{Abs, HeapType, RefType, ValType};
use std::alloc::Global;

/// The abstract heap type with this byte, if any has it (heap types).
fn abs_of(byte: u8) -> Option<Abs>
    ensures { result ≡ abs_with byte }
{
    match byte {
        0x74 => Some(Abs::NoExn),
        0x73 => Some(Abs::NoFunc),
        0x72 => Some(Abs::NoExtern),
        0x71 => Some(Abs::Bot),
        0x70 => Some(Abs::AnyFunc),
        0x6F => Some(Abs::Extern),
        0x6E => Some(Abs::Any),
        0x6D => Some(Abs::Eq),
        0x6C => Some(Abs::I31),
        0x6B => Some(Abs::AnyStruct),
        0x6A => Some(Abs::AnyArray),
        0x69 => Some(Abs::Exn),
        _ => None,
    }
}

/// A type index where a type may stand: an integer of 33 bits that is not negative (heap types).
fn read_type_index(bytes: &[u8]) -> Result<(u32, &[u8]), Stop>
    ensures value { Gives result (type_index_at bytes.now) }
    ensures inside { left_of result ≤ length bytes.now }
{
    let mut cursor = Cursor::new(bytes);
    match cursor.read_s33() {
        Ok(index) if 0 <= index => Ok((index as u32, &bytes[cursor.at()..])),
        _ => Err(Stop::at(Asked::TypeStart, bytes)),
    }
}

/// A heap type: the byte of an abstract one, or a type index (heap types).
pub fn read_heap(bytes: &[u8]) -> Result<(HeapType, &[u8]), Stop>
    ensures value { Gives result (heap_at bytes.now) }
    ensures inside { left_of result ≤ length bytes.now }
{
    let Some((byte, rest)) = bytes.split_first() else {
        return Err(Stop::at(Asked::TypeStart, bytes));
    };
    if let Some(kind) = abs_of(*byte) {
        return Ok((HeapType::Abs(kind), rest));
    }
    let (index, rest) = read_type_index(bytes)?;
    Ok((HeapType::Idx(index), rest))
}

/// A reference type: a byte for whether null is in it and a heap type, or the byte of an abstract heap
/// type alone, with null in it (reference types).
pub fn read_ref(bytes: &[u8]) -> Result<(RefType, &[u8]), Stop>
    ensures value { Gives result (ref_at bytes.now) }
    ensures inside { left_of result ≤ length bytes.now }
{
    let Some((byte, rest)) = bytes.split_first() else {
        return Err(Stop::at(Asked::TypeStart, bytes));
    };
    if *byte == 0x63 || *byte == 0x64 {
        let null = *byte == 0x63;
        let (heap, rest) = read_heap(rest)?;
        return Ok((RefType { null, heap }, rest));
    }
    match abs_of(*byte) {
        Some(kind) => {
            let heap = HeapType::Abs(kind);
            Ok((RefType { null: true, heap }, rest))
        }
        None => Err(Stop::at(Asked::TypeStart, bytes)),
    }
}

/// A value type (value types).
pub fn read_val(bytes: &[u8]) -> Result<(ValType, &[u8]), Stop>
    ensures value { Gives result (val_at bytes.now) }
    ensures inside { left_of result ≤ length bytes.now }
{
    match bytes.split_first() {
        Some((0x7F, rest)) => Ok((ValType::I32, rest)),
        Some((0x7E, rest)) => Ok((ValType::I64, rest)),
        _ => {
            let (ty, rest) = read_ref(bytes)?;
            Ok((ValType::Ref(ty), rest))
        }
    }
}

/// Whether what is declared may be written (field types, global types).
pub fn read_mutable(bytes: &[u8]) -> Result<(bool, &[u8]), Stop>
    ensures value { Gives result (mutable_at bytes.now) }
    ensures inside { left_of result ≤ length bytes.now }
{
    match bytes.split_first() {
        Some((0x00, rest)) => Ok((false, rest)),
        Some((0x01, rest)) => Ok((true, rest)),
        _ => Err(Stop::at(Asked::Fixed, bytes)),
    }
}

/// Limits: a flag, the least size, and the greatest one where the flag says so (limits).
pub fn read_limits(bytes: &[u8]) -> Result<(Limits, &[u8]), Stop>
    ensures value { Gives result (limits_at bytes.now) }
    ensures inside { left_of result ≤ length bytes.now }
{
    match bytes.split_first() {
        Some((0x00, rest)) => {
            let (least, rest) = read_u32(rest)?;
            Ok((Limits { least, most: None }, rest))
        }
        Some((0x01, rest)) => {
            let (least, rest) = read_u32(rest)?;
            let (most, rest) = read_u32(rest)?;
            let most = Some(most);
            Ok((Limits { least, most }, rest))
        }
        _ => Err(Stop::at(Asked::LimitsFlag, bytes)),
    }
}

/// A value type, as a part of the grammar.
pub struct Values;

impl Part for Values {
    ghost use Rattle.gu_syntax.specs.Reading.{val_at};

    type Value = ValType;

    ghost at = { val_at };

    fn read(_: Global, bytes: &[u8]) -> Result<(ValType, &[u8]), Stop> {
        read_val(bytes)
    }
}
