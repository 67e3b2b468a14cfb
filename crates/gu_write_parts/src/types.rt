//! Value types (core specification 3.0, 5.3 Types).
ghost use Rattle.std.specs.Prelude.{◌≡◌, ◌++◌, OnOk};
ghost use Rattle.gu_syntax.specs.Types.{abs_byte};
ghost use Rattle.gu_syntax.specs.Encoding.{encode_heap, encode_ref, encode_val};

use crate::error::WriteErr;
use crate::put::{Form, put_byte};
use gu_bytes::put_s33;
use gu_types::{Abs, HeapType, RefType, ValType};
use std::alloc::{AllocError, Global};

/// The byte of an abstract heap type (5.3.3 Heap Types).
pub fn abstract_byte(kind: Abs) -> u8
    ensures { result ≡ abs_byte kind }
{
    match kind {
        Abs::NoExn => 0x74,
        Abs::NoFunc => 0x73,
        Abs::NoExtern => 0x72,
        Abs::Bot => 0x71,
        Abs::AnyFunc => 0x70,
        Abs::Extern => 0x6F,
        Abs::Any => 0x6E,
        Abs::Eq => 0x6D,
        Abs::I31 => 0x6C,
        Abs::AnyStruct => 0x6B,
        Abs::AnyArray => 0x6A,
        Abs::Exn => 0x69,
    }
}

/// Appends a heap type (5.3.3 Heap Types). The error says that memory ran out.
pub fn put_heap(alloc: Global, out: &mut Vec<u8>, heap: HeapType) -> Result<(), AllocError>
    ensures { OnOk result (out.new.items ≡ out.old.items ++ encode_heap heap) }
{
    match heap {
        HeapType::Abs(kind) => put_byte(out, abstract_byte(kind)),
        HeapType::Idx(index) => put_s33(alloc, out, i64::from(index)),
    }
}

/// Appends a reference type, a nullable abstract one as one byte (5.3.4 Reference Types). The error
/// says that memory ran out.
pub fn put_ref(alloc: Global, out: &mut Vec<u8>, ty: RefType) -> Result<(), AllocError>
    ensures { OnOk result (out.new.items ≡ out.old.items ++ encode_ref ty) }
{
    if !ty.null {
        put_byte(out, 0x64)?;
    } else if let HeapType::Idx(_) = ty.heap {
        put_byte(out, 0x63)?;
    }
    put_heap(alloc, out, ty.heap)
}

/// Appends a value type (5.3.5 Value Types). The error says that memory ran out.
pub fn put_val(alloc: Global, out: &mut Vec<u8>, ty: ValType) -> Result<(), AllocError>
    ensures { OnOk result (out.new.items ≡ out.old.items ++ encode_val ty) }
{
    match ty {
        ValType::I32 => put_byte(out, 0x7F),
        ValType::I64 => put_byte(out, 0x7E),
        ValType::Ref(ty) => put_ref(alloc, out, ty),
    }
}

/// Value types in vectors (5.3.5 Value Types).
pub struct ValTypeForm;

impl Form<ValType> for ValTypeForm {
    ghost use Rattle.gu_syntax.specs.Encoding.{encode_val};
    ghost use Rattle.gu_syntax.specs.Shape.{IsShapedVal};

    ghost text = { encode_val };

    ghost is_shaped = { IsShapedVal };

    fn put(alloc: Global, out: &mut Vec<u8>, ty: &ValType) -> Result<(), WriteErr> {
        put_val(alloc, out, *ty)?;
        Ok(())
    }
}
