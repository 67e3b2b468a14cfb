//! The rows of references, structures and arrays (core specification 3.0, 3.4 Instructions,
//! reference and aggregate instructions).
ghost use Rattle.std.specs.Prelude.{◌≡◌, [], ◌∷◌, Bool, option_map, option_to_list, Option};
ghost use Rattle.std.specs.List.{list_all};
ghost use Rattle.gu_model.specs.TypingContext as around;
ghost use Rattle.gu_model.specs.TypingReferences as typing;
ghost use Rattle.gu_rec.specs.Validity as rec;
ghost use Rattle.gu_valid_code.specs.Env.{context_of};
ghost use Rattle.gu_valid_code.specs.Rows.{row_of};

use crate::env::Env;
use crate::row::{Below, Few, Row, Then, plain};
use gu_syntax::Instr;
use gu_types::ValType::{I32, Ref};
use gu_types::{Abs, FieldType, HeapType, RefType, Storage, ValType};

/// A reference to an abstract heap type, which may be null.
#[inline(always)]
pub(crate) fn abs_or_null(abs: Abs) -> ValType
    ensures { result ≡ around.abs_or_null abs }
{
    Ref(RefType {
        null: true,
        heap: HeapType::Abs(abs),
    })
}

/// A reference to an abstract heap type.
#[inline(always)]
pub(crate) fn abs(abs: Abs) -> ValType
    ensures { result ≡ around.abs abs }
{
    Ref(RefType {
        null: false,
        heap: HeapType::Abs(abs),
    })
}

/// A reference to the type with an index, which may be null.
#[inline(always)]
pub(crate) fn idx_or_null(index: u32) -> ValType
    ensures { result ≡ around.idx_or_null index }
{
    Ref(RefType {
        null: true,
        heap: HeapType::Idx(index),
    })
}

/// A reference to the type with an index.
#[inline(always)]
pub(crate) fn idx(index: u32) -> ValType
    ensures { result ≡ around.idx index }
{
    Ref(RefType {
        null: false,
        heap: HeapType::Idx(index),
    })
}

/// Whether something is stored packed.
#[inline(always)]
pub(crate) fn is_packed(storage: Storage) -> bool
    ensures { result ≡ typing.is_packed storage }
{
    match storage {
        Storage::Val(_) => false,
        Storage::I8 | Storage::I16 => true,
    }
}

/// Whether the bytes of a data segment can be stored so.
fn is_numeric(storage: Storage) -> bool
    ensures { result ≡ typing.is_numeric storage }
{
    match storage {
        Storage::Val(Ref(_)) => false,
        Storage::Val(_) | Storage::I8 | Storage::I16 => true,
    }
}

/// The type of the value of a field on the stack.
#[inline(always)]
pub(crate) fn field_value(field: FieldType) -> ValType
    ensures { result ≡ typing.field_value field }
{
    match field.storage {
        Storage::Val(ty) => ty,
        Storage::I8 | Storage::I16 => I32,
    }
}

/// Whether a type has a default value.
pub(crate) fn has_default(ty: ValType) -> bool
    ensures { result ≡ around.has_default ty }
{
    match ty {
        ValType::I32 | ValType::I64 => true,
        Ref(found) => found.null,
    }
}

/// Whether a field has a default value.
fn field_default(field: FieldType) -> bool
    ensures { result ≡ typing.field_default field }
{
    has_default(field_value(field))
}

/// Whether all fields have default values.
fn all_default(fields: &[FieldType]) -> bool
    ensures { result ≡ list_all typing.field_default fields.now }
{
    fields.iter().all(|field| field_default(*field))
}

/// The row where it is allowed.
fn given<'a>(holds: bool, row: Row<'a>) -> Option<Row<'a>>
    ensures { option_map row_of result ≡ around.given holds (Some (row_of row.entry)) }
{
    if holds { Some(row) } else { None }
}

/// A reference to a function.
fn func_ref<'a>(env: &Env<'a>, func: u32) -> Option<Row<'a>>
    ensures { option_map row_of result ≡ typing.func_row (context_of env.now) func }
{
    let ty = *env.funcs.as_slice().get(func as usize)?;
    let is_declared = *env.declared.as_slice().get(func as usize)?;
    given(is_declared, plain(Few::Zero, Some(idx(ty))))
}

/// Takes a reference of any type of the tree that a reference type belongs to.
fn of_tree<'a>(env: &Env<'a>, of: RefType, given: ValType) -> Option<Row<'a>>
    ensures { option_map row_of result ≡ typing.of_tree (context_of env.now) of given }
{
    let top = env.top_of(of.heap)?;
    Some(plain(Few::One(abs_or_null(top)), Some(given)))
}

/// A field of a structure type.
#[inline(always)]
pub(crate) fn field_at(env: &Env<'_>, ty: u32, field: u32) -> Option<FieldType>
    ensures { result ≡ typing.field_of (context_of env.now) ty field }
{
    env.fields_at(ty)?.get(field as usize).copied()
}

/// Whether a data segment is there that may fill such elements.
fn fits_data(env: &Env<'_>, seg: u32, field: FieldType) -> bool
    ensures { result ≡ typing.fits_data (context_of env.now) seg field }
{
    is_numeric(field.storage) && seg < env.segs
}

/// Whether an element segment is there that may fill such elements.
fn fits_elem(env: &Env<'_>, elem: u32, field: FieldType) -> bool
    ensures { result ≡ typing.fits_elem (context_of env.now) elem field }
{
    match (env.elem(elem), field.storage) {
        (Some(from), Storage::Val(Ref(to))) => env.is_sub_ref(from, to),
        _ => false,
    }
}

/// Fills a part of an array of such elements from a part of a segment, where the segment fits them.
fn fills<'a>(ty: u32, field: FieldType, fits: bool) -> Option<Row<'a>>
    ensures { option_map row_of result ≡ typing.fills ty field fits }
{
    let top = Few::Four(idx_or_null(ty), I32, I32, I32);
    given(field.mutable && fits, plain(top, None))
}

/// Whether one storage type is below another.
fn is_sub_storage(env: &Env<'_>, below: Storage, above: Storage) -> bool
    ensures { result ≡ rec.is_sub_storage env.now.types.now below above }
{
    match (below, above) {
        (Storage::Val(below), Storage::Val(above)) => env.is_sub_val(below, above),
        (Storage::I8, Storage::I8) | (Storage::I16, Storage::I16) => true,
        _ => false,
    }
}

/// The row of an instruction on references, or of one on structures or arrays.
pub(crate) fn reference_row<'a>(env: &Env<'a>, instr: &Instr) -> Option<Row<'a>>
    ensures { option_map row_of result ≡ typing.reference_row (context_of env.now) instr.now }
{
    let eq = abs_or_null(Abs::Eq);
    let i31 = abs_or_null(Abs::I31);
    match instr {
        Instr::RefNull(heap) => {
            let null = Ref(RefType {
                null: true,
                heap: *heap,
            });
            given(env.is_valid_heap(*heap), plain(Few::Zero, Some(null)))
        }
        Instr::RefFunc(func) => func_ref(env, *func),
        Instr::RefEq => Some(plain(Few::Two(eq, eq), Some(I32))),
        Instr::RefTest(of) => of_tree(env, *of, I32),
        Instr::RefCast(of) => of_tree(env, *of, Ref(*of)),
        Instr::RefI31 => Some(plain(Few::One(I32), Some(abs(Abs::I31)))),
        Instr::I31GetS | Instr::I31GetU => Some(plain(Few::One(i31), Some(I32))),
        _ => struct_row(env, instr),
    }
}

/// The row of an instruction on structures, or of one on arrays.
fn struct_row<'a>(env: &Env<'a>, instr: &Instr) -> Option<Row<'a>>
    ensures { option_map row_of result ≡ typing.struct_row (context_of env.now) instr.now }
{
    match instr {
        Instr::StructNew(ty) => Some(Row {
            below: Below::Fields(env.fields_at(*ty)?),
            top: Few::Zero,
            then: Then::Gives(Some(idx(*ty))),
        }),
        Instr::StructNewDefault(ty) => {
            let have_defaults = all_default(env.fields_at(*ty)?);
            given(have_defaults, plain(Few::Zero, Some(idx(*ty))))
        }
        Instr::StructGet(ty, field) => {
            let found = field_at(env, *ty, *field)?;
            let row = plain(Few::One(idx_or_null(*ty)), Some(field_value(found)));
            given(!is_packed(found.storage), row)
        }
        Instr::StructGetS(ty, field) | Instr::StructGetU(ty, field) => {
            let found = field_at(env, *ty, *field)?;
            given(
                is_packed(found.storage),
                plain(Few::One(idx_or_null(*ty)), Some(I32)),
            )
        }
        Instr::StructSet(ty, field) => {
            let found = field_at(env, *ty, *field)?;
            let top = Few::Two(idx_or_null(*ty), field_value(found));
            given(found.mutable, plain(top, None))
        }
        _ => array_row(env, instr),
    }
}

/// The row of an instruction on arrays, or of one that has none here.
fn array_row<'a>(env: &Env<'a>, instr: &Instr) -> Option<Row<'a>>
    ensures { option_map row_of result ≡ typing.array_row (context_of env.now) instr.now }
{
    match instr {
        Instr::ArrayNew(ty) => {
            let found = env.elements_at(*ty)?;
            Some(plain(Few::Two(field_value(found), I32), Some(idx(*ty))))
        }
        Instr::ArrayNewDefault(ty) => {
            let found = env.elements_at(*ty)?;
            given(field_default(found), plain(Few::One(I32), Some(idx(*ty))))
        }
        Instr::ArrayNewFixed(ty, count) => Some(Row {
            below: Below::Copies(field_value(env.elements_at(*ty)?), *count),
            top: Few::Zero,
            then: Then::Gives(Some(idx(*ty))),
        }),
        Instr::ArrayGet(ty) => {
            let found = env.elements_at(*ty)?;
            let row = plain(Few::Two(idx_or_null(*ty), I32), Some(field_value(found)));
            given(!is_packed(found.storage), row)
        }
        Instr::ArrayGetS(ty) | Instr::ArrayGetU(ty) => {
            let found = env.elements_at(*ty)?;
            let row = plain(Few::Two(idx_or_null(*ty), I32), Some(I32));
            given(is_packed(found.storage), row)
        }
        Instr::ArraySet(ty) => {
            let found = env.elements_at(*ty)?;
            let top = Few::Three(idx_or_null(*ty), I32, field_value(found));
            given(found.mutable, plain(top, None))
        }
        Instr::ArrayLen => Some(plain(Few::One(abs_or_null(Abs::AnyArray)), Some(I32))),
        _ => range_row(env, instr),
    }
}

/// The row of an instruction on parts of arrays, or of one that has none here.
fn range_row<'a>(env: &Env<'a>, instr: &Instr) -> Option<Row<'a>>
    ensures { option_map row_of result ≡ typing.range_row (context_of env.now) instr.now }
{
    match instr {
        Instr::ArrayNewData(ty, seg) => {
            let found = env.elements_at(*ty)?;
            let row = plain(Few::Two(I32, I32), Some(idx(*ty)));
            given(fits_data(env, *seg, found), row)
        }
        Instr::ArrayNewElem(ty, elem) => {
            let found = env.elements_at(*ty)?;
            let row = plain(Few::Two(I32, I32), Some(idx(*ty)));
            given(fits_elem(env, *elem, found), row)
        }
        Instr::ArrayFill(ty) => {
            let found = env.elements_at(*ty)?;
            let top = Few::Four(idx_or_null(*ty), I32, field_value(found), I32);
            given(found.mutable, plain(top, None))
        }
        Instr::ArrayCopy(to, from) => {
            let into = env.elements_at(*to)?;
            let out_of = env.elements_at(*from)?;
            let fits = into.mutable && is_sub_storage(env, out_of.storage, into.storage);
            let top = Few::Five(idx_or_null(*to), I32, idx_or_null(*from), I32, I32);
            given(fits, plain(top, None))
        }
        Instr::ArrayInitData(ty, seg) => {
            let found = env.elements_at(*ty)?;
            fills(*ty, found, fits_data(env, *seg, found))
        }
        Instr::ArrayInitElem(ty, elem) => {
            let found = env.elements_at(*ty)?;
            fills(*ty, found, fits_elem(env, *elem, found))
        }
        _ => None,
    }
}
