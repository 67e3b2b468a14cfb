//! Loads and stores.
ghost use Rattle.std.specs.Prelude.{◌≡◌, ◌+◌, ◌<◌, ◌≤◌, suc, length, IfOk};
ghost use Rattle.gu_syntax.specs.Reading.{leaf_at, mem_arg_at};
ghost use Rattle.gu_read_parts.specs.Gives.{Gives, left_of};
ghost use Rattle.gu_read_code.specs.Codes.{Lacks, variable_codes, control_codes, reference_codes, load_codes};

use crate::leaf::prefixed::read_prefixed;
use gu_read_parts::{Asked, Stop, read_u32};
use gu_syntax::{Instr, MemArg};
use std::alloc::Global;

/// An instruction of a memory argument.
macro_rules! with_access {
    ($make:path, $bytes:expr) => {{
        let (arg, rest) = read_mem_arg($bytes)?;
        Ok(($make(arg), rest))
    }};
}

/// Loads (5.4.6 Memory Instructions).
pub fn read_load(alloc: Global, op: u8, bytes: &[u8]) -> Result<(Instr, &[u8]), Stop>
    requires variable { Lacks variable_codes op }
    requires control { Lacks control_codes op }
    requires reference { Lacks reference_codes op }
    ensures value { Gives result (leaf_at (suc (length bytes.now)) op bytes.now) }
    ensures inside { left_of result ≤ length bytes.now + 1 }
    ensures behind { IfOk result (λ x. length x.1.now ≤ length bytes.now) }
{
    match op {
        0x28 => with_access!(Instr::I32Load, bytes),
        0x29 => with_access!(Instr::I64Load, bytes),
        0x2C => with_access!(Instr::I32Load8S, bytes),
        0x2D => with_access!(Instr::I32Load8U, bytes),
        0x2E => with_access!(Instr::I32Load16S, bytes),
        0x2F => with_access!(Instr::I32Load16U, bytes),
        0x30 => with_access!(Instr::I64Load8S, bytes),
        0x31 => with_access!(Instr::I64Load8U, bytes),
        0x32 => with_access!(Instr::I64Load16S, bytes),
        0x33 => with_access!(Instr::I64Load16U, bytes),
        0x34 => with_access!(Instr::I64Load32S, bytes),
        0x35 => with_access!(Instr::I64Load32U, bytes),
        _ => read_store(alloc, op, bytes),
    }
}

/// Stores (5.4.6 Memory Instructions).
pub fn read_store(alloc: Global, op: u8, bytes: &[u8]) -> Result<(Instr, &[u8]), Stop>
    requires variable { Lacks variable_codes op }
    requires control { Lacks control_codes op }
    requires reference { Lacks reference_codes op }
    requires load { Lacks load_codes op }
    ensures value { Gives result (leaf_at (suc (length bytes.now)) op bytes.now) }
    ensures inside { left_of result ≤ length bytes.now + 1 }
    ensures behind { IfOk result (λ x. length x.1.now ≤ length bytes.now) }
{
    match op {
        0x36 => with_access!(Instr::I32Store, bytes),
        0x37 => with_access!(Instr::I64Store, bytes),
        0x3A => with_access!(Instr::I32Store8, bytes),
        0x3B => with_access!(Instr::I32Store16, bytes),
        0x3C => with_access!(Instr::I64Store8, bytes),
        0x3D => with_access!(Instr::I64Store16, bytes),
        0x3E => with_access!(Instr::I64Store32, bytes),
        _ => read_prefixed(alloc, op, bytes),
    }
}

/// A memory argument. 64 more on the exponent says that a memory index stands before the offset
/// (5.4.6 Memory Instructions).
fn read_mem_arg(bytes: &[u8]) -> Result<(MemArg, &[u8]), Stop>
    ensures value { Gives result (mem_arg_at bytes.now) }
    ensures inside { left_of result ≤ length bytes.now }
{
    let (flags, rest) = read_u32(bytes)?;
    if flags < 64 {
        let (offset, rest) = read_u32(rest)?;
        let arg = MemArg {
            exponent: flags,
            memory: 0,
            offset,
        };
        return Ok((arg, rest));
    }
    if flags >= 128 {
        return Err(Stop::Refused {
            asked: Asked::Number,
            left: bytes.len(),
        });
    }
    let (memory, rest) = read_u32(rest)?;
    let (offset, behind) = read_u32(rest)?;
    let arg = MemArg {
        exponent: flags - 64,
        memory,
        offset,
    };
    Ok((arg, behind))
}
