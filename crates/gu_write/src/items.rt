//! The items of the sections before the code (core specification 3.0, 5.5 Modules).
ghost use Rattle.std.specs.Prelude.{◌≡◌, ◌++◌, OnOk, IfErr};
ghost use Rattle.gu_syntax.specs.Encoding.{encode_desc, encode_table};
ghost use Rattle.gu_syntax.specs.Sections.{kind_byte};
ghost use Rattle.gu_syntax.specs.Shape.{IsShapedTable};
ghost use Rattle.gu_write_parts.specs.Limit.{BlamesEnd};

use crate::types::{put_limits, put_mutable};
use gu_bytes::put_u32;
use gu_syntax::{Desc, Export, Func, Global as GlobalItem, Import, Kind, Limits, Table};
use gu_write_code::put_body;
use gu_write_parts::{Form, WriteErr, put_byte, put_ref, put_sized, put_val};
use std::alloc::{AllocError, Global};

/// Imports: two names and what is imported (5.5.5 Import Section).
pub(crate) struct ImportForm;

impl Form<Import> for ImportForm {
    ghost use Rattle.gu_syntax.specs.Encoding.{encode_import};
    ghost use Rattle.gu_syntax.specs.Shape.{IsShapedImport};

    ghost text = { encode_import };

    ghost is_shaped = { IsShapedImport };

    fn put(alloc: Global, out: &mut Vec<u8>, import: &Import) -> Result<(), WriteErr> {
        put_sized(out, import.module.as_slice())?;
        put_sized(out, import.name.as_slice())?;
        put_desc(alloc, out, import.desc)?;
        Ok(())
    }
}

/// Appends what is imported (5.5.5 Import Section). The error says that memory ran out.
fn put_desc(alloc: Global, out: &mut Vec<u8>, desc: Desc) -> Result<(), AllocError>
    ensures { OnOk result (out.new.items ≡ out.old.items ++ encode_desc desc) }
{
    match desc {
        Desc::Func(ty) => {
            put_byte(out, 0x00)?;
            put_u32(alloc, out, ty)
        }
        Desc::Table(elem, limits) => {
            put_byte(out, 0x01)?;
            put_ref(alloc, out, elem)?;
            put_limits(alloc, out, limits)
        }
        Desc::Memory(limits) => {
            put_byte(out, 0x02)?;
            put_limits(alloc, out, limits)
        }
        Desc::Global(ty, mutable) => {
            put_byte(out, 0x03)?;
            put_val(alloc, out, ty)?;
            put_mutable(out, mutable)
        }
        Desc::Tag(ty) => {
            put_byte(out, 0x04)?;
            put_byte(out, 0x00)?;
            put_u32(alloc, out, ty)
        }
    }
}

/// Items of the function section: the indices of the functions' types (5.5.6 Function Section).
pub(crate) struct TypeIndexForm;

impl Form<Func> for TypeIndexForm {
    ghost use Rattle.gu_syntax.specs.Encoding.{encode_type_index};
    ghost use Rattle.gu_syntax.specs.Shape.{IsShapedFunc};

    ghost text = { encode_type_index };

    ghost is_shaped = { IsShapedFunc };

    fn put(alloc: Global, out: &mut Vec<u8>, func: &Func) -> Result<(), WriteErr> {
        put_u32(alloc, out, func.ty)?;
        Ok(())
    }
}

/// Tables (5.5.7 Table Section).
pub(crate) struct TableForm;

impl Form<Table> for TableForm {
    ghost use Rattle.gu_syntax.specs.Encoding.{encode_table};
    ghost use Rattle.gu_syntax.specs.Shape.{IsShapedTable};

    ghost text = { encode_table };

    ghost is_shaped = { IsShapedTable };

    fn put(alloc: Global, out: &mut Vec<u8>, table: &Table) -> Result<(), WriteErr> {
        put_table(alloc, out, table)
    }
}

/// Appends a table: its type, and where it has an initial value, two bytes before and the value behind
/// (5.5.7 Table Section).
fn put_table(alloc: Global, out: &mut Vec<u8>, table: &Table) -> Result<(), WriteErr>
    requires { IsShapedTable table.now }
    ensures ok { OnOk result (out.new.items ≡ out.old.items ++ encode_table table.now) }
    ensures too_long { IfErr result (BlamesEnd out.old.items (encode_table table.now)) }
{
    match &table.init {
        None => {
            put_ref(alloc, out, table.elem)?;
            put_limits(alloc, out, table.limits)?;
            Ok(())
        }
        Some(init) => {
            put_byte(out, 0x40)?;
            put_byte(out, 0x00)?;
            put_ref(alloc, out, table.elem)?;
            put_limits(alloc, out, table.limits)?;
            put_body(alloc, out, init)
        }
    }
}

/// Memories, by their limits (5.5.8 Memory Section).
pub(crate) struct MemoryForm;

impl Form<Limits> for MemoryForm {
    ghost use Rattle.gu_syntax.specs.Encoding.{encode_limits};
    ghost use Rattle.gu_syntax.specs.Shape.{IsShapedLimits};

    ghost text = { encode_limits };

    ghost is_shaped = { IsShapedLimits };

    fn put(alloc: Global, out: &mut Vec<u8>, limits: &Limits) -> Result<(), WriteErr> {
        put_limits(alloc, out, *limits)?;
        Ok(())
    }
}

/// Tags, by the indices of their types (5.5.16 Tag Section).
pub(crate) struct TagForm;

impl Form<u32> for TagForm {
    ghost use Rattle.gu_syntax.specs.Encoding.{encode_tag};
    ghost use Rattle.gu_syntax.specs.Shape.{FitsU32};

    ghost text = { encode_tag };

    ghost is_shaped = { FitsU32 };

    fn put(alloc: Global, out: &mut Vec<u8>, ty: &u32) -> Result<(), WriteErr> {
        put_byte(out, 0x00)?;
        put_u32(alloc, out, *ty)?;
        Ok(())
    }
}

/// Globals (5.5.9 Global Section).
pub(crate) struct GlobalForm;

impl Form<GlobalItem> for GlobalForm {
    ghost use Rattle.gu_syntax.specs.Encoding.{encode_global};
    ghost use Rattle.gu_syntax.specs.Shape.{IsShapedGlobal};

    ghost text = { encode_global };

    ghost is_shaped = { IsShapedGlobal };

    fn put(alloc: Global, out: &mut Vec<u8>, global: &GlobalItem) -> Result<(), WriteErr> {
        put_val(alloc, out, global.ty)?;
        put_mutable(out, global.mutable)?;
        put_body(alloc, out, &global.init)
    }
}

/// Exports (5.5.10 Export Section).
pub(crate) struct ExportForm;

impl Form<Export> for ExportForm {
    ghost use Rattle.gu_syntax.specs.Encoding.{encode_export};
    ghost use Rattle.gu_syntax.specs.Shape.{IsShapedExport};

    ghost text = { encode_export };

    ghost is_shaped = { IsShapedExport };

    fn put(alloc: Global, out: &mut Vec<u8>, export: &Export) -> Result<(), WriteErr> {
        put_sized(out, export.name.as_slice())?;
        put_byte(out, byte_of(export.kind))?;
        put_u32(alloc, out, export.index)?;
        Ok(())
    }
}

/// The byte of the kind of what is exported (5.5.10 Export Section).
fn byte_of(kind: Kind) -> u8
    ensures { result ≡ kind_byte kind }
{
    match kind {
        Kind::Func => 0x00,
        Kind::Table => 0x01,
        Kind::Memory => 0x02,
        Kind::Global => 0x03,
        Kind::Tag => 0x04,
    }
}
