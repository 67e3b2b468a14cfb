//! Control instructions that hold no code.
ghost use Rattle.std.specs.Prelude.{◌≡◌, ◌+◌, ◌<◌, ◌≤◌, suc, length, IfOk};
ghost use Rattle.gu_syntax.specs.Instructions.{labels_of};
ghost use Rattle.gu_syntax.specs.Reading.{leaf_at, made_at, both_at, vector_at, u32_at};
ghost use Rattle.gu_read_parts.specs.Gives.{Gives, left_of};
ghost use Rattle.gu_read_code.specs.Codes.{Lacks, variable_codes};
ghost use Rattle.gu_syntax.specs.declared.instr.Instr.TheVariants as I;

use crate::leaf::reference::read_reference;
use gu_boxed::Boxed;
use gu_read_parts::{Index, Stop, read_u32, read_vector};
use gu_syntax::{BranchTable, Instr};
use std::alloc::Global;

/// Control instructions that hold no code (5.4.1 Control Instructions).
#[inline(always)]
pub fn read_control(alloc: Global, op: u8, bytes: &[u8]) -> Result<(Instr, &[u8]), Stop>
    requires variable { Lacks variable_codes op }
    ensures value { Gives result (leaf_at (suc (length bytes.now)) op bytes.now) }
    ensures inside { left_of result ≤ length bytes.now + 1 }
    ensures behind { IfOk result (λ x. length x.1.now ≤ length bytes.now) }
{
    match op {
        0x00 => Ok((Instr::Unreachable, bytes)),
        0x01 => Ok((Instr::Nop, bytes)),
        0x08 => with_index!(Instr::Throw, bytes),
        0x0A => Ok((Instr::ThrowRef, bytes)),
        0x0C => with_index!(Instr::Br, bytes),
        0x0D => with_index!(Instr::BrIf, bytes),
        0x0E => read_branches(alloc, bytes),
        0x0F => Ok((Instr::Return, bytes)),
        0x10 => with_index!(Instr::Call, bytes),
        0x11 => with_pair!(Instr::CallIndirect, bytes),
        0x12 => with_index!(Instr::ReturnCall, bytes),
        0x13 => with_pair!(Instr::ReturnCallIndirect, bytes),
        0x14 => with_index!(Instr::CallRef, bytes),
        0x15 => with_index!(Instr::ReturnCallRef, bytes),
        _ => read_reference(alloc, op, bytes),
    }
}

/// A branch to one of several labels.
#[inline(never)]
fn read_branches(alloc: Global, bytes: &[u8]) -> Result<(Instr, &[u8]), Stop>
    ensures value { Gives result (made_at (λ x. I.BrTable (labels_of x)) (both_at (vector_at u32_at) u32_at) bytes.now) }
    ensures inside { left_of result ≤ length bytes.now }
{
    let (labels, rest) = read_vector::<Index>(alloc, bytes)?;
    let (last, rest) = read_u32(rest)?;
    let table = Boxed::new(alloc, BranchTable { labels, last })?;
    Ok((Instr::BrTable(table), rest))
}
