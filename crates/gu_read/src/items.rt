//! The items of sections (core specification 3.0, 5.5 Modules).
ghost use Rattle.std.specs.Prelude.{◌≡◌, ◌≤◌, ◌∷◌, length};
ghost use Rattle.gu_syntax.specs.Reading.{Fixed, made_at, both_at, after, bytes_at};
ghost use Rattle.gu_syntax.specs.Reading.{desc_at, import_at, ref_at, limits_at, body_at, filled_of};
ghost use Rattle.gu_syntax.specs.Reading.{table_at, global_at, kind_index, headed_at, rows_at, kind_rows};
ghost use Rattle.gu_syntax.specs.Reading.{export_at, seg_at};
ghost use Rattle.gu_read_parts.specs.Gives.{Gives, left_of};

use gu_read_code::expression;
use gu_read_parts::{
    Asked, Index, Part, Stop, read_bytes, read_limits, read_mutable, read_name, read_ref, read_u32,
    read_u32_as, read_val,
};
use gu_syntax::{Desc, Export, Global, Import, Kind, Limits, Seg, SegMode, Table};
use gu_types::List;
use std::alloc;

/// A part of the grammar behind a byte 00.
pub fn read_after_zero<P: Part>(
    alloc: alloc::Global,
    bytes: &[u8],
) -> Result<(P::Value, &[u8]), Stop>
    ensures value { Gives result (after Fixed 0x00 P.at bytes.now) }
    ensures inside { left_of result ≤ length bytes.now }
{
    match bytes.split_first() {
        Some((0x00, rest)) => P::read(alloc, rest),
        _ => Err(Stop::at(Asked::Fixed, bytes)),
    }
}

/// What is imported: a kind, and what it is of the kind (5.5.5 Import Section).
fn read_desc(alloc: alloc::Global, bytes: &[u8]) -> Result<(Desc, &[u8]), Stop>
    ensures value { Gives result (desc_at bytes.now) }
    ensures inside { left_of result ≤ length bytes.now }
{
    match bytes.split_first() {
        Some((0x00, rest)) => {
            let (ty, rest) = read_u32(rest)?;
            Ok((Desc::Func(ty), rest))
        }
        Some((0x01, rest)) => {
            let (elem, rest) = read_ref(rest)?;
            let (limits, rest) = read_limits(rest)?;
            Ok((Desc::Table(elem, limits), rest))
        }
        Some((0x02, rest)) => {
            let (limits, rest) = read_limits(rest)?;
            Ok((Desc::Memory(limits), rest))
        }
        Some((0x03, rest)) => {
            let (ty, rest) = read_val(rest)?;
            let (mutable, rest) = read_mutable(rest)?;
            Ok((Desc::Global(ty, mutable), rest))
        }
        Some((0x04, rest)) => {
            let (ty, rest) = read_after_zero::<Index>(alloc, rest)?;
            Ok((Desc::Tag(ty), rest))
        }
        _ => Err(Stop::at(Asked::Fixed, bytes)),
    }
}

/// An import, as a part of the grammar.
pub struct Imports;

impl Part for Imports {
    ghost use Rattle.gu_syntax.specs.Reading.{import_at};

    type Value = Import;

    ghost at = { import_at };

    fn read(alloc: alloc::Global, bytes: &[u8]) -> Result<(Import, &[u8]), Stop> {
        let (module, rest) = read_name(alloc, bytes)?;
        let (name, rest) = read_name(alloc, rest)?;
        let (desc, rest) = read_desc(alloc, rest)?;
        Ok((Import { module, name, desc }, rest))
    }
}

/// Limits, as a part of the grammar: a memory (5.5.8 Memory Section).
pub struct Memories;

impl Part for Memories {
    ghost use Rattle.gu_syntax.specs.Reading.{limits_at};

    type Value = Limits;

    ghost at = { limits_at };

    fn read(_: alloc::Global, bytes: &[u8]) -> Result<(Limits, &[u8]), Stop> {
        read_limits(bytes)
    }
}

/// A table with an initial value, behind the bytes 40 00 (5.5.7 Table Section).
struct Filled;

impl Part for Filled {
    ghost use Rattle.gu_syntax.specs.Reading.{made_at, both_at, ref_at, limits_at, body_at, filled_of};

    type Value = Table;

    ghost at = { made_at filled_of (both_at ref_at (both_at limits_at (body_at 1000))) };

    fn read(alloc: alloc::Global, bytes: &[u8]) -> Result<(Table, &[u8]), Stop> {
        let (elem, rest) = read_ref(bytes)?;
        let (limits, rest) = read_limits(rest)?;
        let (init, rest) = expression(alloc, rest)?;
        let init = Some(init);
        Ok((Table { elem, limits, init }, rest))
    }
}

/// A table, as a part of the grammar.
pub struct Tables;

impl Part for Tables {
    ghost use Rattle.gu_syntax.specs.Reading.{table_at};

    type Value = Table;

    ghost at = { table_at 1000 };

    fn read(alloc: alloc::Global, bytes: &[u8]) -> Result<(Table, &[u8]), Stop> {
        match bytes.split_first() {
            Some((0x40, rest)) => read_after_zero::<Filled>(alloc, rest),
            _ => {
                let (elem, rest) = read_ref(bytes)?;
                let (limits, rest) = read_limits(rest)?;
                let init = None;
                Ok((Table { elem, limits, init }, rest))
            }
        }
    }
}

/// A tag, by the index of its type, as a part of the grammar (5.5.16 Tag Section).
pub struct Tags;

impl Part for Tags {
    ghost use Rattle.gu_syntax.specs.Reading.{tag_at};

    type Value = u32;

    ghost at = { tag_at };

    fn read(alloc: alloc::Global, bytes: &[u8]) -> Result<(u32, &[u8]), Stop> {
        read_after_zero::<Index>(alloc, bytes)
    }
}

/// A global, as a part of the grammar (5.5.9 Global Section).
pub struct Globals;

impl Part for Globals {
    ghost use Rattle.gu_syntax.specs.Reading.{global_at};

    type Value = Global;

    ghost at = { global_at 1000 };

    fn read(alloc: alloc::Global, bytes: &[u8]) -> Result<(Global, &[u8]), Stop> {
        let (ty, rest) = read_val(bytes)?;
        let (mutable, rest) = read_mutable(rest)?;
        let (init, rest) = expression(alloc, rest)?;
        Ok((Global { ty, mutable, init }, rest))
    }
}

/// The kind of what is exported, and its index (5.5.10 Export Section).
fn read_kind(bytes: &[u8]) -> Result<((Kind, u32), &[u8]), Stop>
    ensures value { Gives result (headed_at Fixed (rows_at Fixed kind_rows) bytes.now) }
    ensures inside { left_of result ≤ length bytes.now }
{
    let Some((code, rest)) = bytes.split_first() else {
        return Err(Stop::at(Asked::Fixed, bytes));
    };
    let kind = match *code {
        0x00 => Kind::Func,
        0x01 => Kind::Table,
        0x02 => Kind::Memory,
        0x03 => Kind::Global,
        0x04 => Kind::Tag,
        _ => return Err(Stop::at(Asked::Fixed, bytes)),
    };
    let (index, rest) = read_u32(rest)?;
    Ok(((kind, index), rest))
}

/// An export, as a part of the grammar.
pub struct Exports;

impl Part for Exports {
    ghost use Rattle.gu_syntax.specs.Reading.{export_at};

    type Value = Export;

    ghost at = { export_at };

    fn read(alloc: alloc::Global, bytes: &[u8]) -> Result<(Export, &[u8]), Stop> {
        let (name, rest) = read_name(alloc, bytes)?;
        let ((kind, index), rest) = read_kind(rest)?;
        Ok((Export { name, kind, index }, rest))
    }
}

/// Bytes with their count, in a list of their own (5.1.3 Lists).
fn read_byte_list(alloc: alloc::Global, bytes: &[u8]) -> Result<(List<u8>, &[u8]), Stop>
    ensures value { Gives result (bytes_at bytes.now) }
    ensures inside { left_of result ≤ length bytes.now }
{
    let (front, rest) = read_bytes(bytes)?;
    Ok((List::from_vec(Vec::from_slice(alloc, front)?), rest))
}

/// A data segment, as a part of the grammar: a number for its form, and what the form has (5.5.14 Data
/// Section).
pub struct Segs;

impl Part for Segs {
    ghost use Rattle.gu_syntax.specs.Reading.{seg_at};

    type Value = Seg;

    ghost at = { seg_at 1000 };

    fn read(alloc: alloc::Global, bytes: &[u8]) -> Result<(Seg, &[u8]), Stop> {
        let (form, rest) = read_u32_as(Asked::Fixed, bytes)?;
        let (mode, rest) = match form {
            0 => {
                let (offset, rest) = expression(alloc, rest)?;
                (SegMode::Active(0, offset), rest)
            }
            1 => (SegMode::Passive, rest),
            2 => {
                let (memory, rest) = read_u32(rest)?;
                let (offset, rest) = expression(alloc, rest)?;
                (SegMode::Active(memory, offset), rest)
            }
            _ => return Err(Stop::at(Asked::Fixed, bytes)),
        };
        let (bytes, rest) = read_byte_list(alloc, rest)?;
        Ok((Seg { mode, bytes }, rest))
    }
}
