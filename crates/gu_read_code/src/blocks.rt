//! What stands before the code in a block: its type, and the catch clauses.
ghost use Rattle.std.specs.Prelude.{◌≡◌, ◌≤◌, length};
ghost use Rattle.gu_syntax.specs.Reading.{made_at, heap_at, block_ref, block_type_at};
ghost use Rattle.gu_read_parts.specs.Gives.{Gives, left_of};

use gu_read_parts::{Asked, Part, Stop, read_heap, read_u32};
use gu_syntax::{BlockType, Catch};
use gu_types::{HeapType, RefType, ValType};
use std::alloc::Global;

/// A block type (5.4.1 Control Instructions).
#[inline(always)]
pub fn read_block_type(bytes: &[u8]) -> Result<(BlockType, &[u8]), Stop>
    ensures value { Gives result (block_type_at bytes.now) }
    ensures inside { left_of result ≤ length bytes.now }
{
    match bytes.split_first() {
        Some((0x40, rest)) => Ok((BlockType::Empty, rest)),
        _ => read_any_type(bytes),
    }
}

/// The same, whatever type it is.
#[inline(never)]
fn read_any_type(bytes: &[u8]) -> Result<(BlockType, &[u8]), Stop>
    ensures value { Gives result (block_type_at bytes.now) }
    ensures inside { left_of result ≤ length bytes.now }
{
    match bytes.split_first() {
        Some((0x40, rest)) => Ok((BlockType::Empty, rest)),
        Some((0x7F, rest)) => Ok((BlockType::Val(ValType::I32), rest)),
        Some((0x7E, rest)) => Ok((BlockType::Val(ValType::I64), rest)),
        Some((0x63, rest)) => read_reference(true, rest),
        Some((0x64, rest)) => read_reference(false, rest),
        _ => {
            let (heap, rest) = read_heap(bytes)?;
            match heap {
                HeapType::Abs(_) => {
                    let ty = RefType { null: true, heap };
                    Ok((BlockType::Val(ValType::Ref(ty)), rest))
                }
                HeapType::Idx(index) => Ok((BlockType::Idx(index), rest)),
            }
        }
    }
}

/// A reference as the one result of a block.
fn read_reference(null: bool, bytes: &[u8]) -> Result<(BlockType, &[u8]), Stop>
    ensures value { Gives result (made_at (block_ref null) heap_at bytes.now) }
    ensures inside { left_of result ≤ length bytes.now }
{
    let (heap, rest) = read_heap(bytes)?;
    let ty = RefType { null, heap };
    Ok((BlockType::Val(ValType::Ref(ty)), rest))
}

/// A catch clause, as a part of the grammar (5.4.1 Control Instructions).
pub struct Catches;

impl Part for Catches {
    ghost use Rattle.gu_syntax.specs.Reading.{catch_at};

    type Value = Catch;

    ghost at = { catch_at };

    fn read(_: Global, bytes: &[u8]) -> Result<(Catch, &[u8]), Stop> {
        match bytes.split_first() {
            Some((0x00, rest)) => {
                let (tag, rest) = read_u32(rest)?;
                let (label, rest) = read_u32(rest)?;
                Ok((Catch::One(tag, label), rest))
            }
            Some((0x01, rest)) => {
                let (tag, rest) = read_u32(rest)?;
                let (label, rest) = read_u32(rest)?;
                Ok((Catch::OneRef(tag, label), rest))
            }
            Some((0x02, rest)) => {
                let (label, rest) = read_u32(rest)?;
                Ok((Catch::All(label), rest))
            }
            Some((0x03, rest)) => {
                let (label, rest) = read_u32(rest)?;
                Ok((Catch::AllRef(label), rest))
            }
            _ => Err(Stop::at(Asked::Fixed, bytes)),
        }
    }
}
