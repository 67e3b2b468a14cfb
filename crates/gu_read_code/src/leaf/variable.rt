//! Variables and constants, and what is tried first.
ghost use Rattle.std.specs.Prelude.{◌≡◌, ◌+◌, ◌<◌, ◌≤◌, suc, length, IfOk};
ghost use Rattle.gu_syntax.specs.Reading.{leaf_at, made_at, s32_at, s64_at};
ghost use Rattle.gu_read_parts.specs.Gives.{Gives, left_of};
ghost use Rattle.gu_syntax.specs.declared.instr.Instr.TheVariants as I;

use crate::leaf::control::read_control;
use crate::leaf::prefixed::{read_operator, read_prefixed};
use gu_read_parts::{Stop, read_s32, read_s64, read_u32};
use gu_syntax::Instr;
use std::alloc::Global;

/// Variables, entries of tables, the sizes of memories, constants, and operators, of which most code
/// is (5.4.4 Variable Instructions, 5.4.5 Table Instructions, 5.4.6 Memory Instructions, 5.4.7 Numeric
/// Instructions).
#[inline(always)]
pub fn read_variable(alloc: Global, op: u8, bytes: &[u8]) -> Result<(Instr, &[u8]), Stop>
    ensures value { Gives result (leaf_at (suc (length bytes.now)) op bytes.now) }
    ensures inside { left_of result ≤ length bytes.now + 1 }
    ensures behind { IfOk result (λ x. length x.1.now ≤ length bytes.now) }
{
    match op {
        0x20 => with_index!(Instr::LocalGet, bytes),
        0x21 => with_index!(Instr::LocalSet, bytes),
        0x22 => with_index!(Instr::LocalTee, bytes),
        0x23 => with_index!(Instr::GlobalGet, bytes),
        0x24 => with_index!(Instr::GlobalSet, bytes),
        0x25 => with_index!(Instr::TableGet, bytes),
        0x26 => with_index!(Instr::TableSet, bytes),
        0x3F => with_index!(Instr::MemorySize, bytes),
        0x40 => with_index!(Instr::MemoryGrow, bytes),
        0x41 => read_i32_const(bytes),
        0x42 => read_i64_const(bytes),
        0x45..=0xC4 => read_operator(op, bytes),
        0xFB..=0xFC => read_prefixed(alloc, op, bytes),
        _ => read_control(alloc, op, bytes),
    }
}

/// A constant of 32 bits.
#[inline(always)]
fn read_i32_const(bytes: &[u8]) -> Result<(Instr, &[u8]), Stop>
    ensures value { Gives result (made_at I.I32Const s32_at bytes.now) }
    ensures inside { left_of result ≤ length bytes.now }
{
    let (value, rest) = read_s32(bytes)?;
    Ok((Instr::I32Const(value), rest))
}

/// A constant of 64 bits.
fn read_i64_const(bytes: &[u8]) -> Result<(Instr, &[u8]), Stop>
    ensures value { Gives result (made_at I.I64Const s64_at bytes.now) }
    ensures inside { left_of result ≤ length bytes.now }
{
    let (value, rest) = read_s64(bytes)?;
    Ok((Instr::I64Const(value), rest))
}
