//! The classes whose fields are written and read.
ghost use Rattle.std.specs.Prelude.{◌≡◌, ◌<◌, ◌≤◌, ℕ, true, length, IfOk};
ghost use Rattle.gu_types.specs.Depth.{depth, types_of};
ghost use Rattle.gu_solve_main.specs.Layers.{layer, IsHigher};

use anyhow::ensure;
use gu_contents::Facts;
use gu_rec::intern;
use gu_types::{Comp, FieldType, List, RecGroup, ShortList, Storage, SubType, TypeList, ValType};
use std::alloc::{AllocError, Global};

/// How many classes stand below each other, from one below the first class on.
const CHAIN: usize = 63;

/// The field of each class.
const FIELD: FieldType = FieldType {
    storage: Storage::Val(ValType::I32),
    mutable: true,
};

/// The layer of the class with an index.
fn layer_of(index: usize) -> usize
    ensures { result ≡ layer index }
{
    if index == 0 {
        0
    } else {
        (index - 1) % CHAIN + 1
    }
}

/// The supertype of the class with an index: the class before it, or the first class.
fn above(index: u32) -> Option<u32> {
    let before = index.checked_sub(1)?;
    if before % CHAIN as u32 == 0 {
        Some(0)
    } else {
        Some(before)
    }
}

/// Whether a class stands directly below the class with an index, where there are so many.
pub fn has_below(index: u32, count: u32) -> bool {
    match index.checked_add(1) {
        None => false,
        Some(next) => next < count && above(next) == Some(index),
    }
}

/// The class with an index.
fn class(alloc: Global, index: u32) -> SubType {
    let supers = match above(index) {
        None => ShortList::new(alloc),
        Some(above) => ShortList::one(alloc, above),
    };
    SubType {
        is_final: false,
        supers,
        comp: Comp::Struct(ShortList::one(alloc, FIELD)),
    }
}

/// Whether the class with an index stands in a higher layer than its supertype.
fn is_higher(index: usize, class: &SubType) -> bool
    ensures { result ≡ true → IsHigher index class.now }
{
    match class.supers.as_slice().first() {
        None => true,
        Some(above) => layer_of(*above as usize) < layer_of(index),
    }
}

/// Whether each class stands in a higher layer than its supertype. Then no class has more than 63
/// supertypes above it.
fn are_layered(classes: &[SubType]) -> bool
    ensures { result ≡ true → (i : ℕ) → depth classes.now i ≤ 63 }
{
    'classes: for index in 0..classes.len() {
        if !is_higher(index, &classes[index]) {
            return false;
        }
    }
    true
}

/// So many classes, each with one field.
fn all_classes(alloc: Global, count: u32) -> Result<Vec<SubType>, AllocError> {
    let mut all = Vec::new(alloc);
    for index in 0..count {
        all.push(class(alloc, index))?;
    }
    Ok(all)
}

/// So many classes in one group of types. No class has more than 63 supertypes above it.
pub fn classes_of(alloc: Global, count: u32) -> anyhow::Result<TypeList>
    ensures { IfOk result (λ list. (i : ℕ) → depth (types_of list) i ≤ 63) }
{
    let classes = all_classes(alloc, count)?;
    let layered = are_layered(classes.as_slice());
    ensure!(layered, "a class is too deep");
    let group = RecGroup {
        types: ShortList::from_vec(classes),
    };
    Ok(TypeList {
        groups: List::from_vec(vec![in alloc; group]?),
    })
}

/// The facts of a module with these types, and nothing else.
pub fn facts_of(alloc: Global, list: &TypeList) -> anyhow::Result<Facts<'_>>
    requires { (i : ℕ) → depth (types_of list.now) i ≤ 63 }
{
    let types = intern(alloc, list)?;
    Ok(Facts {
        types,
        funcs: List::new(alloc),
        globals: List::new(alloc),
    })
}
