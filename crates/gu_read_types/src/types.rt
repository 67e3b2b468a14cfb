//! Storage types, fields, composite types and subtypes.
ghost use Rattle.std.specs.Prelude.{◌≡◌, ◌≤◌, ◌∷◌, length};
ghost use Rattle.gu_syntax.specs.Instructions.{ref_to};
ghost use Rattle.gu_syntax.specs.Reading.{made_at, heap_at, storage_at, field_at, comp_at, sub_at, declared_at};
ghost use Rattle.gu_read_parts.specs.Gives.{Gives, left_of};
ghost use Rattle.gu_types.specs.declared.types.Storage.TheVariants as S;
ghost use Rattle.gu_types.specs.declared.types.ValType.TheVariants as V;

use gu_read_parts::{
    Asked, Index, Part, Stop, Values, read_heap, read_mutable, read_short_vector, read_val,
    read_vector,
};
use gu_types::{Comp, FieldType, RefType, ShortList, Storage, SubType, ValType};
use std::alloc::Global;

/// A storage type: a value type, or a packed one (core specification 3.0, 5.3, composite types).
#[inline(always)]
fn read_storage(bytes: &[u8]) -> Result<(Storage, &[u8]), Stop>
    ensures value { Gives result (storage_at bytes.now) }
    ensures inside { left_of result ≤ length bytes.now }
{
    match bytes.split_first() {
        Some((0x78, rest)) => Ok((Storage::I8, rest)),
        Some((0x77, rest)) => Ok((Storage::I16, rest)),
        Some((0x63, rest)) => read_reference(true, rest),
        Some((0x64, rest)) => read_reference(false, rest),
        _ => {
            let (ty, rest) = read_val(bytes)?;
            Ok((Storage::Val(ty), rest))
        }
    }
}

/// A reference to a heap type as a storage type, behind the byte that says whether null is in it. Most
/// fields are such references, which take no way through a value type (reference types).
#[inline(always)]
fn read_reference(null: bool, bytes: &[u8]) -> Result<(Storage, &[u8]), Stop>
    ensures value { Gives result (made_at S.Val (made_at V.Ref (made_at (ref_to null) heap_at)) bytes.now) }
    ensures inside { left_of result ≤ length bytes.now }
{
    let (heap, rest) = read_heap(bytes)?;
    Ok((Storage::Val(ValType::Ref(RefType { null, heap })), rest))
}

/// A field type: how it is stored, and whether it may be written (field types).
#[inline(always)]
fn read_field(bytes: &[u8]) -> Result<(FieldType, &[u8]), Stop>
    ensures value { Gives result (field_at bytes.now) }
    ensures inside { left_of result ≤ length bytes.now }
{
    let (storage, rest) = read_storage(bytes)?;
    let (mutable, rest) = read_mutable(rest)?;
    Ok((FieldType { storage, mutable }, rest))
}

/// A field type, as a part of the grammar.
struct Fields;

impl Part for Fields {
    ghost use Rattle.gu_syntax.specs.Reading.{field_at};

    type Value = FieldType;

    ghost at = { field_at };

    fn read(_: Global, bytes: &[u8]) -> Result<(FieldType, &[u8]), Stop> {
        read_field(bytes)
    }
}

/// A composite type: a code, and the types of a function, fields, or an element (composite types).
#[inline(always)]
fn read_comp(alloc: Global, bytes: &[u8]) -> Result<(Comp, &[u8]), Stop>
    ensures value { Gives result (comp_at bytes.now) }
    ensures inside { left_of result ≤ length bytes.now }
{
    match bytes.split_first() {
        Some((0x60, rest)) => {
            let (params, rest) = read_vector::<Values>(alloc, rest)?;
            let (results, rest) = read_vector::<Values>(alloc, rest)?;
            Ok((Comp::Func { params, results }, rest))
        }
        Some((0x5F, rest)) => {
            let (fields, rest) = read_short_vector::<Fields>(alloc, rest)?;
            Ok((Comp::Struct(fields), rest))
        }
        Some((0x5E, rest)) => {
            let (field, rest) = read_field(rest)?;
            Ok((Comp::Array(field), rest))
        }
        _ => Err(Stop::at(Asked::TypeStart, bytes)),
    }
}

/// The supertypes and the composite type of a subtype, behind the code that says whether it is final
/// (recursive types).
#[inline(always)]
fn read_declared(alloc: Global, is_final: bool, bytes: &[u8]) -> Result<(SubType, &[u8]), Stop>
    ensures value { Gives result (declared_at is_final bytes.now) }
    ensures inside { left_of result ≤ length bytes.now }
{
    let (supers, rest) = read_short_vector::<Index>(alloc, bytes)?;
    let (comp, rest) = read_comp(alloc, rest)?;
    let ty = SubType {
        is_final,
        supers,
        comp,
    };
    Ok((ty, rest))
}

/// A subtype. A composite type alone is final and has no supertype (recursive types).
#[inline(always)]
pub fn read_sub(alloc: Global, bytes: &[u8]) -> Result<(SubType, &[u8]), Stop>
    ensures value { Gives result (sub_at bytes.now) }
    ensures inside { left_of result ≤ length bytes.now }
{
    match bytes.split_first() {
        Some((0x50, rest)) => read_declared(alloc, false, rest),
        Some((0x4F, rest)) => read_declared(alloc, true, rest),
        _ => {
            let (comp, rest) = read_comp(alloc, bytes)?;
            let supers = ShortList::new(alloc);
            let is_final = true;
            Ok((
                SubType {
                    is_final,
                    supers,
                    comp,
                },
                rest,
            ))
        }
    }
}

/// A subtype, as a part of the grammar.
pub struct SubTypes;

impl Part for SubTypes {
    ghost use Rattle.gu_syntax.specs.Reading.{sub_at};

    type Value = SubType;

    ghost at = { sub_at };

    fn read(alloc: Global, bytes: &[u8]) -> Result<(SubType, &[u8]), Stop> {
        read_sub(alloc, bytes)
    }
}
