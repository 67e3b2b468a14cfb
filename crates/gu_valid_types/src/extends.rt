//! Whether a type may declare another as its supertype (core specification 3.0, 3.2, recursive
//! types; 3.3, composite types).
ghost use Rattle.std.specs.Prelude.{◌≡◌, true, length, Some};
ghost use Rattle.std.specs.List.{list_all};
ghost use Rattle.std.specs.Cmp.Lexicographic.{pointwise};
ghost use Rattle.gu_types.specs.Depth.{types_of};
ghost use Rattle.gu_rec.specs.Names.{val_names, storage_names, field_names, comp_names};
ghost use Rattle.gu_rec.specs.Sub as sub;
ghost use Rattle.gu_rec.specs.Validity.{all_below, is_sub_storage, is_sub_field, has_fields, is_sub_comp, may_extend};

use gu_rec::Types;
use gu_types::{Comp, FieldType, Storage, SubType, ValType};

#[inline(always)]
fn val_matches(types: &Types, a: ValType, b: ValType) -> bool
    requires first { all_below (length (types_of types.now)) (val_names a) ≡ true }
    requires second { all_below (length (types_of types.now)) (val_names b) ≡ true }
    ensures { result ≡ sub.is_sub_val types.now a b }
{
    types.is_sub_val(a, b)
}

#[inline(always)]
fn storage_matches(types: &Types, a: Storage, b: Storage) -> bool
    requires first { all_below (length (types_of types.now)) (storage_names a) ≡ true }
    requires second { all_below (length (types_of types.now)) (storage_names b) ≡ true }
    ensures { result ≡ is_sub_storage types.now a b }
{
    match a {
        Storage::Val(one) => match b {
            Storage::Val(other) => val_matches(types, one, other),
            _ => false,
        },
        Storage::I8 => match b {
            Storage::I8 => true,
            _ => false,
        },
        Storage::I16 => match b {
            Storage::I16 => true,
            _ => false,
        },
    }
}

#[inline(always)]
fn field_matches(types: &Types, a: FieldType, b: FieldType) -> bool
    requires first { all_below (length (types_of types.now)) (field_names a) ≡ true }
    requires second { all_below (length (types_of types.now)) (field_names b) ≡ true }
    ensures { result ≡ is_sub_field types.now a b }
{
    if a.mutable {
        b.mutable
            && storage_matches(types, a.storage, b.storage)
            && storage_matches(types, b.storage, a.storage)
    } else {
        !b.mutable && storage_matches(types, a.storage, b.storage)
    }
}

#[inline(always)]
fn vals_match(types: &Types, a: &[ValType], b: &[ValType]) -> bool
    requires first { list_all (λ ty. all_below (length (types_of types.now)) (val_names ty)) a.now ≡ true }
    requires second { list_all (λ ty. all_below (length (types_of types.now)) (val_names ty)) b.now ≡ true }
    ensures { result ≡ pointwise (sub.is_sub_val types.now) a.now b.now }
{
    if a.len() != b.len() {
        return false;
    }
    for i in 0..a.len() {
        if !val_matches(types, a[i], b[i]) {
            return false;
        }
    }
    true
}

#[inline(always)]
fn fields_match(types: &Types, a: &[FieldType], b: &[FieldType]) -> bool
    requires first { list_all (λ field. all_below (length (types_of types.now)) (field_names field)) a.now ≡ true }
    requires second { list_all (λ field. all_below (length (types_of types.now)) (field_names field)) b.now ≡ true }
    ensures { result ≡ has_fields types.now a.now b.now }
{
    if a.len() < b.len() {
        return false;
    }
    for i in 0..b.len() {
        if !field_matches(types, a[i], b[i]) {
            return false;
        }
    }
    true
}

/// Whether the first composite type is a subtype of the second.
#[inline(always)]
fn comp_matches(types: &Types, a: &Comp, b: &Comp) -> bool
    requires first { all_below (length (types_of types.now)) (comp_names a.now) ≡ true }
    requires second { all_below (length (types_of types.now)) (comp_names b.now) ≡ true }
    ensures { result ≡ is_sub_comp types.now a.now b.now }
{
    match a {
        Comp::Func { params, results } => match b {
            Comp::Func {
                params: above_params,
                results: above_results,
            } => {
                vals_match(types, above_params.as_slice(), params.as_slice())
                    && vals_match(types, results.as_slice(), above_results.as_slice())
            }
            _ => false,
        },
        Comp::Struct(fields) => match b {
            Comp::Struct(above) => fields_match(types, fields.as_slice(), above.as_slice()),
            _ => false,
        },
        Comp::Array(field) => match b {
            Comp::Array(above) => field_matches(types, *field, *above),
            _ => false,
        },
    }
}

/// Whether a type may declare another as its supertype.
pub(crate) fn may_declare(types: &Types, ty: &SubType, above: &SubType) -> bool
    requires first { all_below (length (types_of types.now)) (comp_names ty.now.comp) ≡ true }
    requires second { all_below (length (types_of types.now)) (comp_names above.now.comp) ≡ true }
    ensures { result ≡ may_extend types.now ty.now (Some above.now) }
{
    !above.is_final && comp_matches(types, &ty.comp, &above.comp)
}
