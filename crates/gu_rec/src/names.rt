//! The indices in a type: whether they are below an end, and the type with numbers in their place.
ghost use Rattle.std.specs.Prelude.{◌≡◌, ◌+◌, ◌<◌, ◌^◌, Some, length, IfOk, OnOk, IfErr};
ghost use Rattle.std.specs.List.{list_all};
ghost use Rattle.gu_rec.specs.Names.{heap_names, val_names, storage_names, field_names, comp_names};
ghost use Rattle.gu_types.specs.Depth.{types_of};
ghost use Rattle.gu_rec.specs.Validity.{all_below, indices_hold, IndicesHold};
ghost use Rattle.gu_rec.specs.Keys.{FirstBad};
ghost use Rattle.gu_rec.specs.Cause.{IsCause};

use crate::error::RecErr;
use gu_types::{Comp, FieldType, HeapType, Storage, SubType, TypeList, ValType};

/// Whether the index in a heap type, if any, is below an end.
fn heap_below(heap: HeapType, end: u32) -> bool
    ensures { result ≡ all_below end (heap_names heap) }
{
    match heap {
        HeapType::Abs(_) => true,
        HeapType::Idx(index) => index < end,
    }
}

/// Whether the index in a value type, if any, is below an end.
fn val_below(ty: ValType, end: u32) -> bool
    ensures { result ≡ all_below end (val_names ty) }
{
    match ty {
        ValType::I32 | ValType::I64 => true,
        ValType::Ref(reference) => heap_below(reference.heap, end),
    }
}

/// Whether the index in a field, if any, is below an end.
fn field_below(field: &FieldType, end: u32) -> bool
    ensures { result ≡ all_below end (field_names field.now) }
{
    match field.storage {
        Storage::Val(ty) => val_below(ty, end),
        Storage::I8 | Storage::I16 => true,
    }
}

/// Whether the indices in value types are below an end.
fn vals_below(types: &[ValType], end: u32) -> bool
    ensures { result ≡ list_all (λ ty. all_below end (val_names ty)) types.now }
{
    types.iter().all(|ty| val_below(*ty, end))
}

/// Whether the indices in fields are below an end.
fn fields_below(fields: &[FieldType], end: u32) -> bool
    ensures { result ≡ list_all (λ field. all_below end (field_names field)) fields.now }
{
    fields.iter().all(|field| field_below(field, end))
}

/// Whether the indices in a composite type are below an end.
#[tactic(auto, using(crate::proofs::Below::below))]
fn comp_below(comp: &Comp, end: u32) -> bool
    ensures { result ≡ all_below end (comp_names comp.now) }
{
    match comp {
        Comp::Func { params, results } => {
            vals_below(params.as_slice(), end) && vals_below(results.as_slice(), end)
        }
        Comp::Struct(fields) => fields_below(fields.as_slice(), end),
        Comp::Array(field) => field_below(field, end),
    }
}

/// Whether indices are below an end.
fn indices_below(indices: &[u32], end: u32) -> bool
    ensures { result ≡ all_below end indices.now }
{
    indices.iter().all(|index| *index < end)
}

/// Whether the indices in a type, which has an index in a group with an end, hold.
#[tactic(auto, using(crate::proofs::Below::below))]
fn type_holds(ty: &SubType, index: u32, end: u32) -> bool
    ensures { result ≡ indices_hold end index (Some ty.now) }
{
    let supers = ty.supers.as_slice();
    indices_below(supers, end)
        && comp_below(&ty.comp, end)
        && supers.len() < 2
        && indices_below(supers, index)
}

/// The first of the types from an index on, in a group with an end, whose indices do not hold.
fn first_bad(types: &[SubType], start: u32, end: u32) -> Option<u32>
    requires { start + length types.now < 2 ^ 32 }
    ensures { FirstBad types.now start end result }
{
    let mut index = start;
    for ty in types {
        if !type_holds(ty, index, end) {
            return Some(index);
        }
        index += 1;
    }
    None
}

/// The number of types, where the indices in all of them hold. `BadRef` names the first type whose
/// indices do not; `NoMemory` comes where there are 2^32 types or more.
pub(crate) fn check_indices(list: &TypeList) -> Result<u32, RecErr>
    ensures count { IfOk result (λ count. count ≡ length (types_of list.now)) }
    ensures hold { OnOk result (IndicesHold list.now) }
    ensures cause { IfErr result (IsCause list.now) }
{
    let groups = list.groups.as_slice();
    let mut start: u32 = 0;
    for group in groups {
        let types = group.types.as_slice();
        if types.len() > (u32::MAX - start) as usize {
            return Err(RecErr::NoMemory);
        }
        let end = start + types.len() as u32;
        if let Some(ty) = first_bad(types, start, end) {
            return Err(RecErr::BadRef { ty });
        }
        start = end;
    }
    Ok(start)
}
