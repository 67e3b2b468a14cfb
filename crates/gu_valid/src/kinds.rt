//! What the types of a module are, by their indices (core specification 3.0, 3.2 Types).
ghost use Rattle.std.specs.Prelude.{◌≡◌, ◌++◌, map, slice_get, option_map, IfOk, OnOk};
ghost use Rattle.gu_types.specs.Depth.{types_in};
ghost use Rattle.gu_model.specs.Index.{comp_as, func_of};
ghost use Rattle.gu_model.specs.Valid.{is_func_type, is_start_type, is_tag_type, is_valid_limits, is_valid_memory};
ghost use Rattle.gu_valid.specs.Kinds.{function_of, is_heap_among};

use gu_syntax::Limits;
use gu_types::{Comp, HeapType, RecGroup, SubType, ValType};
use std::alloc::{AllocError, Global};

/// The most pages that a memory may have.
const MOST_PAGES: u32 = 65_536;

/// A function type.
#[derive(Clone, Copy)]
pub(crate) struct Signature<'m> {
    /// The types of its parameters, in order.
    pub(crate) params: &'m [ValType],
    /// The types of its results, in order.
    pub(crate) results: &'m [ValType],
}

fn push_kinds<'m>(kinds: &mut Vec<&'m SubType>, group: &'m [SubType]) -> Result<(), AllocError>
    ensures { OnOk result (map (λ ty. ty.now) kinds.new.items ≡ map (λ ty. ty.now) kinds.old.items ++ group.now) }
{
    for ty in group {
        kinds.push(ty)?;
    }
    Ok(())
}

/// The types of groups, in order.
pub(crate) fn kinds_of<'m>(
    alloc: Global,
    groups: &'m [RecGroup],
) -> Result<Vec<&'m SubType>, AllocError>
    ensures { IfOk result (λ kinds. map (λ ty. ty.now) kinds.items ≡ types_in groups.now) }
{
    let mut kinds = Vec::new(alloc);
    for group in groups {
        push_kinds(&mut kinds, group.types.as_slice())?;
    }
    Ok(kinds)
}

/// The function type with an index, where it is one.
pub(crate) fn signature_at<'m>(kinds: &[&'m SubType], index: u32) -> Option<Signature<'m>>
    ensures { option_map function_of result ≡ comp_as func_of (slice_get (map (λ ty. ty.now) kinds.now) index) }
{
    let ty = kinds.get(index as usize)?;
    match &ty.comp {
        Comp::Func { params, results } => Some(Signature {
            params: params.as_slice(),
            results: results.as_slice(),
        }),
        Comp::Struct(_) | Comp::Array(_) => None,
    }
}

/// Whether the type with an index is a function type.
pub(crate) fn is_function(kinds: &[&SubType], index: u32) -> bool
    ensures { result ≡ is_func_type (comp_as func_of (slice_get (map (λ ty. ty.now) kinds.now) index)) }
{
    match signature_at(kinds, index) {
        Some(_) => true,
        None => false,
    }
}

/// Whether the type with an index is a function type without results.
pub(crate) fn is_tag(kinds: &[&SubType], index: u32) -> bool
    ensures { result ≡ is_tag_type (comp_as func_of (slice_get (map (λ ty. ty.now) kinds.now) index)) }
{
    match signature_at(kinds, index) {
        Some(found) => found.results.is_empty(),
        None => false,
    }
}

/// Whether the type with an index is a function type without parameters and results.
pub(crate) fn is_start(kinds: &[&SubType], index: u32) -> bool
    ensures { result ≡ is_start_type (comp_as func_of (slice_get (map (λ ty. ty.now) kinds.now) index)) }
{
    match signature_at(kinds, index) {
        Some(found) => found.params.is_empty() && found.results.is_empty(),
        None => false,
    }
}

/// Whether a heap type is abstract, or the index of a type.
pub(crate) fn is_heap(kinds: &[&SubType], heap: HeapType) -> bool
    ensures { result ≡ is_heap_among (map (λ ty. ty.now) kinds.now) heap }
{
    match heap {
        HeapType::Abs(_) => true,
        HeapType::Idx(index) => (index as usize) < kinds.len(),
    }
}

/// Whether the greatest size is not below the least one.
pub(crate) fn limits_hold(limits: &Limits) -> bool
    ensures { result ≡ is_valid_limits limits.now }
{
    match limits.most {
        Some(most) => limits.least <= most,
        None => true,
    }
}

/// Whether a memory's sizes hold: there are at most 65,536 pages.
pub(crate) fn memory_holds(limits: &Limits) -> bool
    ensures { result ≡ is_valid_memory limits.now }
{
    match limits.most {
        Some(most) => limits.least <= most && limits.least <= MOST_PAGES && most <= MOST_PAGES,
        None => limits.least <= MOST_PAGES,
    }
}
