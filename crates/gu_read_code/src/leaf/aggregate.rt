//! Instructions behind FB.
ghost use Rattle.std.specs.Prelude.{◌≡◌, ◌+◌, ◌<◌, ◌≤◌, suc, length, IfOk};
ghost use Rattle.gu_syntax.specs.Instructions.{Unknown, row_or, aggregate_rows};
ghost use Rattle.gu_syntax.specs.Reading.{form_at, cast_at, cast_behind};
ghost use Rattle.gu_read_parts.specs.Gives.{Gives, left_of};
ghost use Rattle.gu_read_code.specs.Codes.{Lacks, structure_codes, array_codes};

use gu_boxed::Boxed;
use gu_read_parts::{Asked, Stop, read_heap, read_u32};
use gu_syntax::{CastBranch, Instr};
use gu_types::RefType;
use std::alloc::Global;

/// A test or a cast to a reference type, with or without null.
macro_rules! with_reference {
    ($make:path, $null:literal, $bytes:expr) => {{
        let (heap, rest) = read_heap($bytes)?;
        let ty = RefType { null: $null, heap };
        Ok(($make(ty), rest))
    }};
}

/// A branch on a cast.
macro_rules! with_cast {
    ($make:path, $alloc:expr, $bytes:expr) => {{
        let (arg, rest) = read_cast_arg($bytes)?;
        Ok(($make(Boxed::new($alloc, arg)?), rest))
    }};
}

/// Behind FB: structures (5.4.2 Reference Instructions). `left` bytes are left at the prefix.
pub fn read_structure(
    alloc: Global,
    code: u32,
    left: usize,
    bytes: &[u8],
) -> Result<(Instr, &[u8]), Stop>
    requires place { length bytes.now < left }
    ensures value { Gives result (form_at left (row_or Unknown aggregate_rows code) bytes.now) }
    ensures inside { left_of result ≤ left }
    ensures behind { IfOk result (λ x. length x.1.now ≤ length bytes.now) }
{
    match code {
        0 => with_index!(Instr::StructNew, bytes),
        1 => with_index!(Instr::StructNewDefault, bytes),
        2 => with_pair!(Instr::StructGet, bytes),
        3 => with_pair!(Instr::StructGetS, bytes),
        4 => with_pair!(Instr::StructGetU, bytes),
        5 => with_pair!(Instr::StructSet, bytes),
        _ => read_array(alloc, code, left, bytes),
    }
}

/// Behind FB: arrays.
fn read_array(alloc: Global, code: u32, left: usize, bytes: &[u8]) -> Result<(Instr, &[u8]), Stop>
    requires structure { Lacks structure_codes code }
    requires place { length bytes.now < left }
    ensures value { Gives result (form_at left (row_or Unknown aggregate_rows code) bytes.now) }
    ensures inside { left_of result ≤ left }
    ensures behind { IfOk result (λ x. length x.1.now ≤ length bytes.now) }
{
    match code {
        6 => with_index!(Instr::ArrayNew, bytes),
        7 => with_index!(Instr::ArrayNewDefault, bytes),
        8 => with_pair!(Instr::ArrayNewFixed, bytes),
        9 => with_pair!(Instr::ArrayNewData, bytes),
        10 => with_pair!(Instr::ArrayNewElem, bytes),
        11 => with_index!(Instr::ArrayGet, bytes),
        12 => with_index!(Instr::ArrayGetS, bytes),
        13 => with_index!(Instr::ArrayGetU, bytes),
        14 => with_index!(Instr::ArraySet, bytes),
        15 => Ok((Instr::ArrayLen, bytes)),
        16 => with_index!(Instr::ArrayFill, bytes),
        17 => with_pair!(Instr::ArrayCopy, bytes),
        18 => with_pair!(Instr::ArrayInitData, bytes),
        19 => with_pair!(Instr::ArrayInitElem, bytes),
        _ => read_cast(alloc, code, left, bytes),
    }
}

/// Behind FB: casts, external and unboxed references.
fn read_cast(alloc: Global, code: u32, left: usize, bytes: &[u8]) -> Result<(Instr, &[u8]), Stop>
    requires structure { Lacks structure_codes code }
    requires array { Lacks array_codes code }
    requires place { length bytes.now < left }
    ensures value { Gives result (form_at left (row_or Unknown aggregate_rows code) bytes.now) }
    ensures inside { left_of result ≤ left }
    ensures behind { IfOk result (λ x. length x.1.now ≤ length bytes.now) }
{
    match code {
        20 => with_reference!(Instr::RefTest, false, bytes),
        21 => with_reference!(Instr::RefTest, true, bytes),
        22 => with_reference!(Instr::RefCast, false, bytes),
        23 => with_reference!(Instr::RefCast, true, bytes),
        24 => with_cast!(Instr::BrOnCast, alloc, bytes),
        25 => with_cast!(Instr::BrOnCastFail, alloc, bytes),
        26 => Ok((Instr::AnyConvertExtern, bytes)),
        27 => Ok((Instr::ExternConvertAny, bytes)),
        28 => Ok((Instr::RefI31, bytes)),
        29 => Ok((Instr::I31GetS, bytes)),
        30 => Ok((Instr::I31GetU, bytes)),
        _ => Err(Stop::Refused {
            asked: Asked::Opcode,
            left,
        }),
    }
}

/// The flags, the label and the two heap types of a branch on a cast (5.4.1 Control Instructions).
fn read_cast_arg(bytes: &[u8]) -> Result<(CastBranch, &[u8]), Stop>
    ensures value { Gives result (cast_at bytes.now) }
    ensures inside { left_of result ≤ length bytes.now }
{
    match bytes.split_first() {
        Some((0x00, rest)) => read_cast_behind(false, false, rest),
        Some((0x01, rest)) => read_cast_behind(true, false, rest),
        Some((0x02, rest)) => read_cast_behind(false, true, rest),
        Some((0x03, rest)) => read_cast_behind(true, true, rest),
        _ => Err(Stop::Refused {
            asked: Asked::Fixed,
            left: bytes.len(),
        }),
    }
}

/// The label and the two heap types, where the flags say which types have null.
fn read_cast_behind(of_null: bool, to_null: bool, bytes: &[u8]) -> Result<(CastBranch, &[u8]), Stop>
    ensures value { Gives result (cast_behind of_null to_null bytes.now) }
    ensures inside { left_of result ≤ length bytes.now }
{
    let (label, rest) = read_u32(bytes)?;
    let (of_heap, rest) = read_heap(rest)?;
    let (to_heap, rest) = read_heap(rest)?;
    let arg = CastBranch {
        label,
        of: RefType {
            null: of_null,
            heap: of_heap,
        },
        to: RefType {
            null: to_null,
            heap: to_heap,
        },
    };
    Ok((arg, rest))
}
