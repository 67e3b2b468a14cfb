//! Instructions as a code and its immediates (core specification 3.0, 5.4 Instructions).
ghost use Rattle.std.specs.Prelude.{◌≡◌, ◌++◌, OnOk};
ghost use Rattle.gu_syntax.specs.Encoding.{encode_mem_arg, encode_cast};
ghost use Rattle.gu_write_code.specs.Layouts.{immediates_text, layout_text};

use gu_bytes::{put_s32, put_s64, put_u32};
use gu_syntax::{CastBranch, MemArg};
use gu_types::HeapType;
use gu_write_parts::{put_byte, put_heap, put_size};
use std::alloc::{AllocError, Global};

/// What stands behind a code.
#[derive(Clone, Copy)]
pub(crate) enum Immediates {
    /// Nothing.
    Nothing,
    /// An index or a count.
    Index(u32),
    /// An index, and an index or a count.
    Indices(u32, u32),
    /// A memory argument.
    Memory(MemArg),
    /// A number of 32 bits.
    Narrow(i32),
    /// A number of 64 bits.
    Wide(i64),
    /// A heap type.
    Heap(HeapType),
    /// The label and the two types of a branch on a cast.
    Cast(CastBranch),
}

/// A code and what stands behind it.
#[derive(Clone, Copy)]
pub(crate) enum Layout {
    /// A code of one byte.
    Plain(u8, Immediates),
    /// A prefix, and a number below 128.
    Prefixed(u8, u8, Immediates),
}

/// Appends a code and what stands behind it. The error says that memory ran out.
pub(crate) fn put_layout(alloc: Global, out: &mut Vec<u8>, layout: Layout) -> Result<(), AllocError>
    ensures { OnOk result (out.new.items ≡ out.old.items ++ layout_text layout) }
{
    match layout {
        Layout::Plain(code, immediates) => {
            put_byte(out, code)?;
            put_immediates(alloc, out, immediates)
        }
        Layout::Prefixed(prefix, code, immediates) => {
            put_byte(out, prefix)?;
            put_u32(alloc, out, u32::from(code))?;
            put_immediates(alloc, out, immediates)
        }
    }
}

fn put_immediates(
    alloc: Global,
    out: &mut Vec<u8>,
    immediates: Immediates,
) -> Result<(), AllocError>
    ensures { OnOk result (out.new.items ≡ out.old.items ++ immediates_text immediates) }
{
    match immediates {
        Immediates::Nothing => Ok(()),
        Immediates::Index(index) => put_u32(alloc, out, index),
        Immediates::Indices(first, second) => {
            put_u32(alloc, out, first)?;
            put_u32(alloc, out, second)
        }
        Immediates::Memory(arg) => put_mem_arg(alloc, out, arg),
        Immediates::Narrow(value) => put_s32(alloc, out, value),
        Immediates::Wide(value) => put_s64(alloc, out, value),
        Immediates::Heap(heap) => put_heap(alloc, out, heap),
        Immediates::Cast(branch) => put_cast(alloc, out, branch),
    }
}

/// Appends a memory argument, without the memory where it is the first one (5.4.6 Memory
/// Instructions).
fn put_mem_arg(alloc: Global, out: &mut Vec<u8>, arg: MemArg) -> Result<(), AllocError>
    ensures { OnOk result (out.new.items ≡ out.old.items ++ encode_mem_arg arg) }
{
    if arg.memory == 0 {
        put_u32(alloc, out, arg.exponent)?;
        return put_u32(alloc, out, arg.offset);
    }
    put_size(out, arg.exponent as usize + 64)?;
    put_u32(alloc, out, arg.memory)?;
    put_u32(alloc, out, arg.offset)
}

/// Appends the flags, the label and the two heap types of a branch on a cast (5.4.2 Reference
/// Instructions).
fn put_cast(alloc: Global, out: &mut Vec<u8>, branch: CastBranch) -> Result<(), AllocError>
    ensures { OnOk result (out.new.items ≡ out.old.items ++ encode_cast branch) }
{
    let CastBranch { label, of, to } = branch;
    put_byte(out, u8::from(of.null) + 2 * u8::from(to.null))?;
    put_u32(alloc, out, label)?;
    put_heap(alloc, out, of.heap)?;
    put_heap(alloc, out, to.heap)
}
