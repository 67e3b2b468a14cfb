//! Items listed at the types at or above theirs.
ghost use Rattle.std.specs.Prelude.{ℕ, ◌≡◌, ◌<◌, ◌++◌, ◌∷◌, [], All, IfOk, OnOk, Some, length, replicate, slice_get, slice_index_or, true, if◌then◌else◌};
ghost use Rattle.gu_types.specs.Depth.{types_of, parent as parent_in};
ghost use Rattle.gu_links.specs.declared.grouped.Typed.{Typed as Item};
ghost use Rattle.gu_links.specs.Cells.{is_least};
ghost use Rattle.gu_links.specs.Kept.{is_below};
ghost use Rattle.gu_links.specs.Listing as listing;

use gu_contents::Facts;
use gu_types::List;
use std::alloc::{AllocError, Global};

/// An item with the index of its type.
#[derive(Clone, Copy, Debug)]
pub(crate) struct Typed {
    pub(crate) item: u32,
    pub(crate) ty: u32,
}

/// The least index of each type, by itself.
pub(crate) fn least_types(alloc: Global, f: &Facts, types: u32) -> Result<List<Typed>, AllocError>
    requires { types ≡ length (types_of f.now.types) }
    ensures { IfOk result (λ items. items ≡ listing.least_types f.now) }
{
    let mut items: List<Typed> = List::new(alloc);
    'types: for ty in 0..types {
        if f.types.canon(ty) == ty {
            items.push(Typed { item: ty, ty })?;
        }
    }
    Ok(items)
}

/// The functions that can be called by reference, each with its type. `AllocError` where memory is
/// refused or there are 2^32 functions or more.
pub(crate) fn callable_functions(
    alloc: Global,
    funcs: &[u32],
    callable: &[bool],
) -> Result<List<Typed>, AllocError>
    requires { length callable.now ≡ length funcs.now }
    ensures { IfOk result (λ items. items ≡ listing.callable_functions funcs.now callable.now) }
{
    let mut items: List<Typed> = List::new(alloc);
    'functions: for (place, ty) in funcs.iter().enumerate() {
        let Ok(item) = u32::try_from(place) else {
            return Err(AllocError);
        };
        if callable[place] {
            items.push(Typed { item, ty: *ty })?;
        }
    }
    Ok(items)
}

/// The supertype that a type declares, if any.
pub(crate) fn parent(f: &Facts, ty: u32) -> Option<u32>
    requires { ty < length (types_of f.now.types) }
    ensures { result ≡ parent_in (types_of f.now.types) ty }
{
    match f.types.get(ty) {
        None => None,
        Some(sub) => sub.supers.as_slice().first().copied(),
    }
}

/// Puts an item at the end of the list of its type and of those of all supertypes above it.
/// `AllocError` only where memory is refused.
fn put(lists: &mut Vec<List<u32>>, f: &Facts, entry: Typed) -> Result<(), AllocError>
    requires long { length lists.old.items ≡ length (types_of f.now.types) }
    requires ty { entry.ty < length (types_of f.now.types) }
    ensures long { OnOk result (length lists.new.items ≡ length lists.old.items) }
    ensures added { OnOk result ((h : ℕ) → h < length (types_of f.now.types) → is_least f.now.types h ≡ true → slice_index_or lists.new.items h [] ≡ slice_index_or lists.old.items h [] ++ (if is_below f.now.types h entry.ty then entry.item ∷ [] else [])) }
{
    let mut at = entry.ty;
    'line: loop {
        let own = f.types.canon(at) as usize;
        lists[own].push(entry.item)?;
        let Some(above) = parent(f, at) else {
            return Ok(());
        };
        at = above;
    }
}

/// So many empty lists. `AllocError` only where memory is refused.
pub(crate) fn empty_lists<T: Drop>(alloc: Global, count: usize) -> Result<Vec<List<T>>, AllocError>
    ensures { IfOk result (λ lists. lists.items ≡ replicate count []) }
{
    let mut lists: Vec<List<T>> = Vec::new(alloc);
    'lists: for _ in 0..count {
        lists.push(List::new(alloc))?;
    }
    Ok(lists)
}

/// For each type, at its least index, the items of the types at or below it, in their order.
/// `AllocError` only where memory is refused.
pub(crate) fn listed_below(
    alloc: Global,
    f: &Facts,
    types: u32,
    items: &[Typed],
) -> Result<Vec<List<u32>>, AllocError>
    requires types { types ≡ length (types_of f.now.types) }
    requires items { All (λ (entry : Item). entry.ty < length (types_of f.now.types)) items.now }
    ensures { IfOk result (λ lists. (h : ℕ) → h < length (types_of f.now.types) → is_least f.now.types h ≡ true → slice_get lists.items h ≡ Some (listing.listed f.now h items.now)) }
{
    let mut lists = empty_lists(alloc, types as usize)?;
    'items: for entry in items {
        put(&mut lists, f, *entry)?;
    }
    Ok(lists)
}
