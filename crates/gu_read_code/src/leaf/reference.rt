//! Parametric instructions, and those of references that have one byte.
ghost use Rattle.std.specs.Prelude.{◌≡◌, ◌+◌, ◌<◌, ◌≤◌, suc, length, IfOk};
ghost use Rattle.gu_syntax.specs.Reading.{leaf_at, made_at, vector_at, val_at, heap_at};
ghost use Rattle.gu_read_parts.specs.Gives.{Gives, left_of};
ghost use Rattle.gu_read_code.specs.Codes.{Lacks, variable_codes, control_codes};
ghost use Rattle.gu_syntax.specs.declared.instr.Instr.TheVariants as I;

use crate::leaf::access::read_load;
use gu_boxed::Boxed;
use gu_read_parts::{Stop, Values, read_heap, read_u32, read_vector};
use gu_syntax::Instr;
use std::alloc::Global;

/// Parametric instructions, and those of references that have one byte (5.4.2 Reference
/// Instructions, 5.4.3 Parametric Instructions).
#[inline(never)]
pub fn read_reference(alloc: Global, op: u8, bytes: &[u8]) -> Result<(Instr, &[u8]), Stop>
    requires variable { Lacks variable_codes op }
    requires control { Lacks control_codes op }
    ensures value { Gives result (leaf_at (suc (length bytes.now)) op bytes.now) }
    ensures inside { left_of result ≤ length bytes.now + 1 }
    ensures behind { IfOk result (λ x. length x.1.now ≤ length bytes.now) }
{
    match op {
        0x1A => Ok((Instr::Drop, bytes)),
        0x1B => Ok((Instr::Select, bytes)),
        0x1C => read_select_of(alloc, bytes),
        0xD0 => read_null(bytes),
        0xD1 => Ok((Instr::RefIsNull, bytes)),
        0xD2 => with_index!(Instr::RefFunc, bytes),
        0xD3 => Ok((Instr::RefEq, bytes)),
        0xD4 => Ok((Instr::RefAsNonNull, bytes)),
        0xD5 => with_index!(Instr::BrOnNull, bytes),
        0xD6 => with_index!(Instr::BrOnNonNull, bytes),
        _ => read_load(alloc, op, bytes),
    }
}

/// A choice between values of a type.
#[inline(never)]
fn read_select_of(alloc: Global, bytes: &[u8]) -> Result<(Instr, &[u8]), Stop>
    ensures value { Gives result (made_at I.SelectOf (vector_at val_at) bytes.now) }
    ensures inside { left_of result ≤ length bytes.now }
{
    let (types, rest) = read_vector::<Values>(alloc, bytes)?;
    Ok((Instr::SelectOf(Boxed::new(alloc, types)?), rest))
}

/// The null of a heap type.
fn read_null(bytes: &[u8]) -> Result<(Instr, &[u8]), Stop>
    ensures value { Gives result (made_at I.RefNull heap_at bytes.now) }
    ensures inside { left_of result ≤ length bytes.now }
{
    let (heap, rest) = read_heap(bytes)?;
    Ok((Instr::RefNull(heap), rest))
}
