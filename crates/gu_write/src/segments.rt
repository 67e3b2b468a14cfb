//! Element segments and data segments (core specification 3.0, 5.5.12 Element Section, 5.5.14 Data
//! Section).
ghost use Rattle.std.specs.Prelude.{◌≡◌, ◌++◌, ◌∷◌, OnOk, IfErr};
ghost use Rattle.std.specs.List.{AllByRecursion};
ghost use Rattle.gu_bytes.specs.Numbers.{least_unsigned};
ghost use Rattle.gu_syntax.specs.Encoding.{encode_vector};
ghost use Rattle.gu_syntax.specs.Shape.{FitsU32};
ghost use Rattle.gu_syntax.specs.declared.module.ElemMode.TheVariants as modes;
ghost use Rattle.gu_syntax.specs.declared.module.Items.TheVariants as items;
ghost use Rattle.gu_syntax.specs.declared.module.SegMode.TheVariants as seg_modes;
ghost use Rattle.gu_syntax.specs.Encoding.{encode_body, encode_ref, is_funcref, encode_elem_as, encode_seg_as};
ghost use Rattle.gu_syntax.specs.Shape.{IsShapedBody, IsShapedElemMode};
ghost use Rattle.gu_write_parts.specs.Limit.{BlamesEnd};

use gu_bytes::put_u32;
use gu_syntax::{Body, Elem, ElemMode, Items, Seg, SegMode};
use gu_types::{HeapType, RefType};
use gu_write_code::put_body;
use gu_write_parts::{
    Form, IndexForm, WriteErr, abstract_byte, put_byte, put_ref, put_sized, put_vector,
};
use std::alloc::Global;

/// Expressions in vectors (5.4.9 Expressions).
struct BodyForm;

impl Form<Body> for BodyForm {
    ghost use Rattle.gu_syntax.specs.Encoding.{encode_body};
    ghost use Rattle.gu_syntax.specs.Shape.{IsShapedBody};

    ghost text = { encode_body };

    ghost is_shaped = { IsShapedBody };

    fn put(alloc: Global, out: &mut Vec<u8>, body: &Body) -> Result<(), WriteErr> {
        put_body(alloc, out, body)
    }
}

/// Element segments (5.5.12 Element Section).
pub(crate) struct ElemForm;

impl Form<Elem> for ElemForm {
    ghost use Rattle.gu_syntax.specs.Encoding.{encode_elem};
    ghost use Rattle.gu_syntax.specs.Shape.{IsShapedElem};

    ghost text = { encode_elem };

    ghost is_shaped = { IsShapedElem };

    fn put(alloc: Global, out: &mut Vec<u8>, elem: &Elem) -> Result<(), WriteErr> {
        match &elem.items {
            Items::Funcs(funcs) => put_funcs(alloc, out, &elem.mode, funcs.as_slice()),
            Items::Exprs(ty, exprs) => put_exprs(alloc, out, &elem.mode, *ty, exprs.as_slice()),
        }
    }
}

/// Appends a segment of functions.
fn put_funcs(
    alloc: Global,
    out: &mut Vec<u8>,
    mode: &ElemMode,
    funcs: &[u32],
) -> Result<(), WriteErr>
    requires mode { IsShapedElemMode mode.now }
    requires funcs { AllByRecursion FitsU32 funcs.now }
    ensures ok { OnOk result (out.new.items ≡ out.old.items ++ encode_elem_as mode.now (items.Funcs funcs.now)) }
    ensures too_long { IfErr result (BlamesEnd out.old.items (encode_elem_as mode.now (items.Funcs funcs.now))) }
{
    match mode {
        ElemMode::Active(table, offset) => put_active_funcs(alloc, out, *table, offset, funcs),
        ElemMode::Passive => put_kinded_funcs(alloc, out, 0x01, funcs),
        ElemMode::Declared => put_kinded_funcs(alloc, out, 0x03, funcs),
    }
}

/// Appends a segment of functions for a table, which is left out where it is the first one.
fn put_active_funcs(
    alloc: Global,
    out: &mut Vec<u8>,
    table: u32,
    offset: &Body,
    funcs: &[u32],
) -> Result<(), WriteErr>
    requires offset { IsShapedBody offset.now }
    requires funcs { AllByRecursion FitsU32 funcs.now }
    ensures ok { OnOk result (out.new.items ≡ out.old.items ++ encode_elem_as (modes.Active table offset.now) (items.Funcs funcs.now)) }
    ensures too_long { IfErr result (BlamesEnd out.old.items (encode_elem_as (modes.Active table offset.now) (items.Funcs funcs.now))) }
{
    if table == 0 {
        put_byte(out, 0x00)?;
        put_body(alloc, out, offset)?;
        put_vector::<IndexForm, u32>(alloc, out, funcs)
    } else {
        put_byte(out, 0x02)?;
        put_u32(alloc, out, table)?;
        put_body(alloc, out, offset)?;
        put_byte(out, 0x00)?;
        put_vector::<IndexForm, u32>(alloc, out, funcs)
    }
}

/// Appends a segment of functions for no table.
fn put_kinded_funcs(
    alloc: Global,
    out: &mut Vec<u8>,
    form: u8,
    funcs: &[u32],
) -> Result<(), WriteErr>
    requires { AllByRecursion FitsU32 funcs.now }
    ensures ok { OnOk result (out.new.items ≡ out.old.items ++ form ∷ 0x00 ∷ encode_vector least_unsigned funcs.now) }
    ensures too_long { IfErr result (BlamesEnd out.old.items (form ∷ 0x00 ∷ encode_vector least_unsigned funcs.now)) }
{
    put_byte(out, form)?;
    put_byte(out, 0x00)?;
    put_vector::<IndexForm, u32>(alloc, out, funcs)
}

/// Appends a segment of expressions of a type.
fn put_exprs(
    alloc: Global,
    out: &mut Vec<u8>,
    mode: &ElemMode,
    ty: RefType,
    exprs: &[Body],
) -> Result<(), WriteErr>
    requires mode { IsShapedElemMode mode.now }
    requires exprs { AllByRecursion IsShapedBody exprs.now }
    ensures ok { OnOk result (out.new.items ≡ out.old.items ++ encode_elem_as mode.now (items.Exprs ty exprs.now)) }
    ensures too_long { IfErr result (BlamesEnd out.old.items (encode_elem_as mode.now (items.Exprs ty exprs.now))) }
{
    match mode {
        ElemMode::Active(table, offset) => put_active_exprs(alloc, out, *table, offset, ty, exprs),
        ElemMode::Passive => put_typed_exprs(alloc, out, 0x05, ty, exprs),
        ElemMode::Declared => put_typed_exprs(alloc, out, 0x07, ty, exprs),
    }
}

/// Appends a segment of expressions for a table. Where that is the first one and the expressions are of
/// the type of all functions, both are left out.
fn put_active_exprs(
    alloc: Global,
    out: &mut Vec<u8>,
    table: u32,
    offset: &Body,
    ty: RefType,
    exprs: &[Body],
) -> Result<(), WriteErr>
    requires offset { IsShapedBody offset.now }
    requires exprs { AllByRecursion IsShapedBody exprs.now }
    ensures ok { OnOk result (out.new.items ≡ out.old.items ++ encode_elem_as (modes.Active table offset.now) (items.Exprs ty exprs.now)) }
    ensures too_long { IfErr result (BlamesEnd out.old.items (encode_elem_as (modes.Active table offset.now) (items.Exprs ty exprs.now))) }
{
    if table == 0 && is_function_type(ty) {
        put_byte(out, 0x04)?;
        put_body(alloc, out, offset)?;
        put_vector::<BodyForm, Body>(alloc, out, exprs)
    } else {
        put_byte(out, 0x06)?;
        put_u32(alloc, out, table)?;
        put_body(alloc, out, offset)?;
        put_ref(alloc, out, ty)?;
        put_vector::<BodyForm, Body>(alloc, out, exprs)
    }
}

/// Whether a type is that of a table of functions.
fn is_function_type(ty: RefType) -> bool
    ensures { result ≡ is_funcref ty }
{
    match ty.heap {
        HeapType::Abs(kind) => ty.null && abstract_byte(kind) == 0x70,
        HeapType::Idx(_) => false,
    }
}

/// Appends a segment of expressions of a type for no table.
fn put_typed_exprs(
    alloc: Global,
    out: &mut Vec<u8>,
    form: u8,
    ty: RefType,
    exprs: &[Body],
) -> Result<(), WriteErr>
    requires { AllByRecursion IsShapedBody exprs.now }
    ensures ok { OnOk result (out.new.items ≡ out.old.items ++ form ∷ (encode_ref ty ++ encode_vector encode_body exprs.now)) }
    ensures too_long { IfErr result (BlamesEnd out.old.items (form ∷ (encode_ref ty ++ encode_vector encode_body exprs.now))) }
{
    put_byte(out, form)?;
    put_ref(alloc, out, ty)?;
    put_vector::<BodyForm, Body>(alloc, out, exprs)
}

/// Data segments (5.5.14 Data Section).
pub(crate) struct SegForm;

impl Form<Seg> for SegForm {
    ghost use Rattle.gu_syntax.specs.Encoding.{encode_seg};
    ghost use Rattle.gu_syntax.specs.Shape.{IsShapedSeg};

    ghost text = { encode_seg };

    ghost is_shaped = { IsShapedSeg };

    fn put(alloc: Global, out: &mut Vec<u8>, seg: &Seg) -> Result<(), WriteErr> {
        match &seg.mode {
            SegMode::Active(memory, offset) => {
                put_active_seg(alloc, out, *memory, offset, seg.bytes.as_slice())
            }
            SegMode::Passive => {
                put_byte(out, 0x01)?;
                put_sized(out, seg.bytes.as_slice())
            }
        }
    }
}

/// Appends a data segment for a memory, which is left out where it is the first one.
fn put_active_seg(
    alloc: Global,
    out: &mut Vec<u8>,
    memory: u32,
    offset: &Body,
    bytes: &[u8],
) -> Result<(), WriteErr>
    requires { IsShapedBody offset.now }
    ensures ok { OnOk result (out.new.items ≡ out.old.items ++ encode_seg_as (seg_modes.Active memory offset.now) bytes.now) }
    ensures too_long { IfErr result (BlamesEnd out.old.items (encode_seg_as (seg_modes.Active memory offset.now) bytes.now)) }
{
    if memory == 0 {
        put_byte(out, 0x00)?;
        put_body(alloc, out, offset)?;
        put_sized(out, bytes)
    } else {
        put_byte(out, 0x02)?;
        put_u32(alloc, out, memory)?;
        put_body(alloc, out, offset)?;
        put_sized(out, bytes)
    }
}
