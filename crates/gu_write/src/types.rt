//! The types of a module (core specification 3.0, 5.3 Types).
ghost use Rattle.std.specs.Prelude.{◌≡◌, ◌++◌, OnOk, IfErr};
ghost use Rattle.gu_syntax.specs.Encoding.{encode_mutable, encode_field, encode_comp, encode_sub, encode_subs, encode_limits};
ghost use Rattle.gu_syntax.specs.Shape.{IsShapedComp, IsShapedSub};
ghost use Rattle.gu_write_parts.specs.Limit.{BlamesEnd};
ghost use Rattle.gu_write.specs.Parts.{declared_text};

use gu_bytes::put_u32;
use gu_syntax::Limits;
use gu_types::{Comp, FieldType, RecGroup, Storage, SubType, ValType};
use gu_write_parts::{Form, IndexForm, ValTypeForm, WriteErr, put_byte, put_val, put_vector};
use std::alloc::{AllocError, Global};

/// Appends whether something may be written (5.3.10 Global Types). The error says that memory ran out.
#[inline(always)]
pub(crate) fn put_mutable(out: &mut Vec<u8>, mutable: bool) -> Result<(), AllocError>
    ensures { OnOk result (out.new.items ≡ out.old.items ++ encode_mutable mutable) }
{
    put_byte(out, u8::from(mutable))
}

/// Appends a field type (5.3.8 Composite Types). The error says that memory ran out.
#[inline(always)]
fn put_field(alloc: Global, out: &mut Vec<u8>, field: FieldType) -> Result<(), AllocError>
    ensures { OnOk result (out.new.items ≡ out.old.items ++ encode_field field) }
{
    match field.storage {
        Storage::Val(ty) => put_val(alloc, out, ty)?,
        Storage::I8 => put_byte(out, 0x78)?,
        Storage::I16 => put_byte(out, 0x77)?,
    }
    put_mutable(out, field.mutable)
}

/// Field types in vectors (5.3.8 Composite Types).
struct FieldForm;

impl Form<FieldType> for FieldForm {
    ghost use Rattle.gu_syntax.specs.Encoding.{encode_field};
    ghost use Rattle.gu_syntax.specs.Shape.{IsShapedField};

    ghost text = { encode_field };

    ghost is_shaped = { IsShapedField };

    fn put(alloc: Global, out: &mut Vec<u8>, field: &FieldType) -> Result<(), WriteErr> {
        put_field(alloc, out, *field)?;
        Ok(())
    }
}

/// Appends a composite type (5.3.8 Composite Types).
#[inline(always)]
fn put_comp(alloc: Global, out: &mut Vec<u8>, comp: &Comp) -> Result<(), WriteErr>
    requires { IsShapedComp comp.now }
    ensures ok { OnOk result (out.new.items ≡ out.old.items ++ encode_comp comp.now) }
    ensures too_long { IfErr result (BlamesEnd out.old.items (encode_comp comp.now)) }
{
    match comp {
        Comp::Func { params, results } => {
            put_byte(out, 0x60)?;
            put_vector::<ValTypeForm, ValType>(alloc, out, params.as_slice())?;
            put_vector::<ValTypeForm, ValType>(alloc, out, results.as_slice())
        }
        Comp::Struct(fields) => {
            put_byte(out, 0x5F)?;
            put_vector::<FieldForm, FieldType>(alloc, out, fields.as_slice())
        }
        Comp::Array(field) => {
            put_byte(out, 0x5E)?;
            put_field(alloc, out, *field)?;
            Ok(())
        }
    }
}

/// Appends a subtype; a final one without supertypes is a bare composite type (5.3.9 Recursive Types).
#[inline(always)]
fn put_sub(alloc: Global, out: &mut Vec<u8>, ty: &SubType) -> Result<(), WriteErr>
    requires { IsShapedSub ty.now }
    ensures ok { OnOk result (out.new.items ≡ out.old.items ++ encode_sub ty.now) }
    ensures too_long { IfErr result (BlamesEnd out.old.items (encode_sub ty.now)) }
{
    if ty.is_final && ty.supers.as_slice().is_empty() {
        put_comp(alloc, out, &ty.comp)
    } else {
        put_declared(alloc, out, ty)
    }
}

/// Appends a subtype with what it declares of its place among the types (5.3.9 Recursive Types).
#[inline(always)]
fn put_declared(alloc: Global, out: &mut Vec<u8>, ty: &SubType) -> Result<(), WriteErr>
    requires { IsShapedSub ty.now }
    ensures ok { OnOk result (out.new.items ≡ out.old.items ++ declared_text ty.now) }
    ensures too_long { IfErr result (BlamesEnd out.old.items (declared_text ty.now)) }
{
    put_byte(out, if ty.is_final { 0x4F } else { 0x50 })?;
    put_vector::<IndexForm, u32>(alloc, out, ty.supers.as_slice())?;
    put_comp(alloc, out, &ty.comp)
}

/// Subtypes in vectors (5.3.9 Recursive Types).
struct SubForm;

impl Form<SubType> for SubForm {
    ghost use Rattle.gu_syntax.specs.Encoding.{encode_sub};
    ghost use Rattle.gu_syntax.specs.Shape.{IsShapedSub};

    ghost text = { encode_sub };

    ghost is_shaped = { IsShapedSub };

    fn put(alloc: Global, out: &mut Vec<u8>, ty: &SubType) -> Result<(), WriteErr> {
        put_sub(alloc, out, ty)
    }
}

/// Recursion groups; a group of one is a bare subtype (5.3.9 Recursive Types).
pub(crate) struct GroupForm;

impl Form<RecGroup> for GroupForm {
    ghost use Rattle.gu_syntax.specs.Encoding.{encode_group};
    ghost use Rattle.gu_syntax.specs.Shape.{IsShapedGroup};

    ghost text = { encode_group };

    ghost is_shaped = { IsShapedGroup };

    fn put(alloc: Global, out: &mut Vec<u8>, group: &RecGroup) -> Result<(), WriteErr> {
        match group.types.as_slice() {
            [ty] => put_sub(alloc, out, ty),
            types => {
                put_byte(out, 0x4E)?;
                put_vector::<SubForm, SubType>(alloc, out, types)
            }
        }
    }
}

/// Appends limits (5.3.12 Limits). The error says that memory ran out.
pub(crate) fn put_limits(alloc: Global, out: &mut Vec<u8>, limits: Limits) -> Result<(), AllocError>
    ensures { OnOk result (out.new.items ≡ out.old.items ++ encode_limits limits) }
{
    match limits.most {
        None => {
            put_byte(out, 0x00)?;
            put_u32(alloc, out, limits.least)
        }
        Some(most) => {
            put_byte(out, 0x01)?;
            put_u32(alloc, out, limits.least)?;
            put_u32(alloc, out, most)
        }
    }
}
