//! Keys of closed recursion groups: a group with a number in the place of each index in it. No key
//! is ever made: it is hashed and compared as it would be.
ghost use Rattle.std.specs.Prelude.{◌≡◌, ◌+◌, ◌<◌, ◌^◌, ◌++◌, IfOk, OnOk, map, length};
ghost use Rattle.gu_types.specs.Depth.{types_of};
ghost use Rattle.gu_rec.specs.Validity.{IndicesHold};
ghost use Rattle.gu_rec.specs.Names.{rename_heap, rename_val, rename_storage, rename_field, rename_comp, rename};
ghost use Rattle.gu_rec.specs.Keys.{number_of, NumbersFit, run, LeastIndices};
ghost use Rattle.gu_rec.specs.Hashes.{feed_indices, feed_vals, feed_fields, feed_comp, feed_type, hash_of};
ghost use Rattle.gu_rec.specs.Alike.{alike_indices, alike_vals, alike_fields, alike_comps, alike_types, alike_lists};

use crate::distinct::Table;
use gu_types::{Comp, FieldType, HeapType, RecGroup, RefType, Storage, SubType, TypeList, ValType};
use std::alloc::{AllocError, Global};
use std::hash::{FoldHasher, Hash, Hasher};

/// The number that stands for an index: past the `count` positions of the group the number of the
/// earlier type, else the position in the group.
fn number(index: u32, numbers: &[u32], count: u32) -> u32
    requires { NumbersFit numbers.now count }
    ensures { result ≡ number_of numbers.now count index }
{
    if (index as usize) < numbers.len() {
        count + numbers[index as usize]
    } else {
        index - numbers.len() as u32
    }
}

fn number_heap(heap: HeapType, numbers: &[u32], count: u32) -> HeapType
    requires { NumbersFit numbers.now count }
    ensures { result ≡ rename_heap (number_of numbers.now count) heap }
{
    match heap {
        HeapType::Abs(kind) => HeapType::Abs(kind),
        HeapType::Idx(index) => HeapType::Idx(number(index, numbers, count)),
    }
}

fn number_val(ty: ValType, numbers: &[u32], count: u32) -> ValType
    requires { NumbersFit numbers.now count }
    ensures { result ≡ rename_val (number_of numbers.now count) ty }
{
    match ty {
        ValType::I32 => ValType::I32,
        ValType::I64 => ValType::I64,
        ValType::Ref(reference) => ValType::Ref(RefType {
            null: reference.null,
            heap: number_heap(reference.heap, numbers, count),
        }),
    }
}

fn number_storage(storage: Storage, numbers: &[u32], count: u32) -> Storage
    requires { NumbersFit numbers.now count }
    ensures { result ≡ rename_storage (number_of numbers.now count) storage }
{
    match storage {
        Storage::Val(ty) => Storage::Val(number_val(ty, numbers, count)),
        Storage::I8 => Storage::I8,
        Storage::I16 => Storage::I16,
    }
}

fn number_field(field: FieldType, numbers: &[u32], count: u32) -> FieldType
    requires { NumbersFit numbers.now count }
    ensures { result ≡ rename_field (number_of numbers.now count) field }
{
    FieldType {
        storage: number_storage(field.storage, numbers, count),
        mutable: field.mutable,
    }
}

/// Feeds a hasher with the numbers that stand for indices.
fn hash_indices(state: &mut FoldHasher, indices: &[u32], numbers: &[u32], count: u32)
    requires { NumbersFit numbers.now count }
    ensures { state.new ≡ feed_indices state.old (map (number_of numbers.now count) indices.now) }
{
    state.write_usize(indices.len());
    for index in indices {
        state.write_u32(number(*index, numbers, count));
    }
}

/// Feeds a hasher with value types, with numbers in the place of indices.
fn hash_vals(state: &mut FoldHasher, types: &[ValType], numbers: &[u32], count: u32)
    requires { NumbersFit numbers.now count }
    ensures { state.new ≡ feed_vals state.old (map (rename_val (number_of numbers.now count)) types.now) }
{
    state.write_usize(types.len());
    for ty in types {
        number_val(*ty, numbers, count).hash(state);
    }
}

/// Feeds a hasher with fields, with numbers in the place of indices.
fn hash_fields(state: &mut FoldHasher, fields: &[FieldType], numbers: &[u32], count: u32)
    requires { NumbersFit numbers.now count }
    ensures { state.new ≡ feed_fields state.old (map (rename_field (number_of numbers.now count)) fields.now) }
{
    state.write_usize(fields.len());
    for field in fields {
        number_field(*field, numbers, count).hash(state);
    }
}

/// Feeds a hasher with a composite type, with numbers in the place of indices.
fn hash_comp(state: &mut FoldHasher, comp: &Comp, numbers: &[u32], count: u32)
    requires { NumbersFit numbers.now count }
    ensures { state.new ≡ feed_comp state.old (rename_comp (number_of numbers.now count) comp.now) }
{
    match comp {
        Comp::Func { params, results } => {
            state.write_u8(0);
            hash_vals(state, params.as_slice(), numbers, count);
            hash_vals(state, results.as_slice(), numbers, count);
        }
        Comp::Struct(fields) => {
            state.write_u8(1);
            hash_fields(state, fields.as_slice(), numbers, count);
        }
        Comp::Array(field) => {
            state.write_u8(2);
            number_field(*field, numbers, count).hash(state);
        }
    }
}

/// Feeds a hasher with a type, with numbers in the place of indices.
fn hash_type(state: &mut FoldHasher, ty: &SubType, numbers: &[u32], count: u32)
    requires { NumbersFit numbers.now count }
    ensures { state.new ≡ feed_type state.old (rename (number_of numbers.now count) ty.now) }
{
    ty.is_final.hash(state);
    hash_indices(state, ty.supers.as_slice(), numbers, count);
    hash_comp(state, &ty.comp, numbers, count);
}

/// The hash of the key of a group of `count` types behind types that have numbers.
pub(crate) fn hash_types(types: &[SubType], numbers: &[u32], count: u32) -> u32
    requires { NumbersFit numbers.now count }
    ensures { result ≡ hash_of (map (rename (number_of numbers.now count)) types.now) }
{
    let mut state = FoldHasher::default();
    for ty in types {
        hash_type(&mut state, ty, numbers, count);
    }
    (state.finish() % (1 << 32)) as u32
}

/// Whether indices stand for the same numbers, where the first stand behind other numbers.
fn same_indices(one: &[u32], other: &[u32], earlier: &[u32], numbers: &[u32], count: u32) -> bool
    requires first { NumbersFit earlier.now count }
    requires second { NumbersFit numbers.now count }
    ensures { result ≡ alike_indices (map (number_of earlier.now count) one.now) (map (number_of numbers.now count) other.now) }
{
    if one.len() != other.len() {
        return false;
    }
    for k in 0..one.len() {
        if number(one[k], earlier, count) != number(other[k], numbers, count) {
            return false;
        }
    }
    true
}

/// Whether value types have the same key, where the first stand behind other numbers.
fn same_vals(
    one: &[ValType],
    other: &[ValType],
    earlier: &[u32],
    numbers: &[u32],
    count: u32,
) -> bool
    requires first { NumbersFit earlier.now count }
    requires second { NumbersFit numbers.now count }
    ensures { result ≡ alike_vals (map (rename_val (number_of earlier.now count)) one.now) (map (rename_val (number_of numbers.now count)) other.now) }
{
    if one.len() != other.len() {
        return false;
    }
    for k in 0..one.len() {
        if number_val(one[k], earlier, count) != number_val(other[k], numbers, count) {
            return false;
        }
    }
    true
}

/// Whether fields have the same key, where the first stand behind other numbers.
fn same_fields(
    one: &[FieldType],
    other: &[FieldType],
    earlier: &[u32],
    numbers: &[u32],
    count: u32,
) -> bool
    requires first { NumbersFit earlier.now count }
    requires second { NumbersFit numbers.now count }
    ensures { result ≡ alike_fields (map (rename_field (number_of earlier.now count)) one.now) (map (rename_field (number_of numbers.now count)) other.now) }
{
    if one.len() != other.len() {
        return false;
    }
    for k in 0..one.len() {
        if number_field(one[k], earlier, count) != number_field(other[k], numbers, count) {
            return false;
        }
    }
    true
}

/// Whether composite types have the same key, where the first stands behind other numbers.
fn same_comps(one: &Comp, other: &Comp, earlier: &[u32], numbers: &[u32], count: u32) -> bool
    requires first { NumbersFit earlier.now count }
    requires second { NumbersFit numbers.now count }
    ensures { result ≡ alike_comps (rename_comp (number_of earlier.now count) one.now) (rename_comp (number_of numbers.now count) other.now) }
{
    match (one, other) {
        (
            Comp::Func { params, results },
            Comp::Func {
                params: other_params,
                results: other_results,
            },
        ) => {
            same_vals(
                params.as_slice(),
                other_params.as_slice(),
                earlier,
                numbers,
                count,
            ) && same_vals(
                results.as_slice(),
                other_results.as_slice(),
                earlier,
                numbers,
                count,
            )
        }
        (Comp::Struct(fields), Comp::Struct(others)) => {
            same_fields(
                fields.as_slice(),
                others.as_slice(),
                earlier,
                numbers,
                count,
            )
        }
        (Comp::Array(field), Comp::Array(other)) => {
            number_field(*field, earlier, count) == number_field(*other, numbers, count)
        }
        _ => false,
    }
}

/// Whether types have the same key, where the first stands behind other numbers.
fn same_type(one: &SubType, other: &SubType, earlier: &[u32], numbers: &[u32], count: u32) -> bool
    requires first { NumbersFit earlier.now count }
    requires second { NumbersFit numbers.now count }
    ensures { result ≡ alike_types (rename (number_of earlier.now count) one.now) (rename (number_of numbers.now count) other.now) }
{
    one.is_final == other.is_final
        && same_indices(
            one.supers.as_slice(),
            other.supers.as_slice(),
            earlier,
            numbers,
            count,
        )
        && same_comps(&one.comp, &other.comp, earlier, numbers, count)
}

/// Whether two groups have the same key: one behind types that have the `earlier` numbers, and one
/// of `count` types behind types that have the `numbers`.
pub(crate) fn same_types(
    one: &[SubType],
    other: &[SubType],
    earlier: &[u32],
    numbers: &[u32],
    count: u32,
) -> bool
    requires first { NumbersFit earlier.now count }
    requires second { NumbersFit numbers.now count }
    ensures { result ≡ alike_lists (map (rename (number_of earlier.now count)) one.now) (map (rename (number_of numbers.now count)) other.now) }
{
    if one.len() != other.len() {
        return false;
    }
    for k in 0..one.len() {
        if !same_type(&one[k], &other[k], earlier, numbers, count) {
            return false;
        }
    }
    true
}

/// Puts so many numbers from one on behind others.
fn push_run(numbers: &mut Vec<u32>, first: u32, count: u32) -> Result<(), AllocError>
    requires { first + count < 2 ^ 32 }
    ensures { OnOk result (numbers.new.items ≡ numbers.old.items ++ run first count) }
{
    for k in 0..count {
        numbers.push(first + k)?;
    }
    Ok(())
}

/// The number of types in groups.
fn type_count(groups: &[RecGroup]) -> usize {
    let mut count: usize = 0;
    for group in groups {
        count = count.saturating_add(group.types.as_slice().len());
    }
    count
}

/// The least index of each type. `AllocError` only where memory is refused.
pub(crate) fn least_indices(alloc: Global, list: &TypeList) -> Result<Vec<u32>, AllocError>
    requires hold { IndicesHold list.now }
    requires fit { length (types_of list.now) < 2 ^ 32 }
    requires grouped { length list.now.groups < 2 ^ 32 }
    ensures { IfOk result (λ numbers. LeastIndices list.now numbers.items) }
{
    let groups = list.groups.as_slice();
    let mut table = Table::with_capacity(alloc, groups.len())?;
    let mut numbers: Vec<u32> = Vec::with_capacity(alloc, type_count(groups))?;
    for group in 0..groups.len() {
        let count = groups[group].types.as_slice().len() as u32;
        let first = table.first_of(groups, group, numbers.as_slice())?;
        push_run(&mut numbers, first, count)?;
    }
    Ok(numbers)
}
