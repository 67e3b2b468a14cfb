//! The heights of types, found for all of them at once.
ghost use Rattle.std.specs.Prelude.{◌≡◌, ◌<◌, ◌≤◌, ◌+◌, ℕ, Some, length, slice_get, IfOk};
ghost use Rattle.gu_types.specs.declared.types.TypeList.{TypeList as Listed};
ghost use Rattle.gu_types.specs.declared.types.HeapType.TheVariants as H;
ghost use Rattle.gu_types.specs.Depth.{types_of};
ghost use Rattle.gu_rec.specs.declared.types.Entry.{Entry as Kept};
ghost use Rattle.gu_rec.specs.Table.{IsTable, EntriesAre};
ghost use Rattle.gu_rec.specs.Heights.{HeightTo, Raise, HeightsFrom, HeightsAre, TopsAre};
ghost use Rattle.gu_rec.specs.Heights as heights;

use crate::abs::abs_height;
use crate::types::Entry;
use gu_types::{Abs, HeapType};
use std::alloc::{AllocError, Global};

/// Raises one of the heights to a number of steps, where it is less.
fn raise(heights: &mut Vec<u32>, own: usize, steps: u32)
    requires { own < length heights.old.items }
    ensures { Raise heights.old.items heights.new.items own steps }
{
    if heights[own] < steps {
        heights[own] = steps;
    }
}

/// Raises the height of the type above a type to one step more than the type's own, which is known by then. Of the
/// indices of one type only the least does so: the others would say the same.
fn raise_parent(heights: &mut Vec<u32>, least: &[u32], entries: &[Entry], from: usize)
    requires there { from < length least.now }
    requires known { (list : Listed) × (IsTable list least.now entries.now) × HeightsFrom list least.now heights.old.items (from + 1) }
    ensures { (list : Listed) → IsTable list least.now entries.now → HeightsFrom list least.now heights.old.items (from + 1) → HeightsFrom list least.now heights.new.items from }
{
    if least[from] as usize != from {
        return;
    }
    let entry = entries[from];
    let Some(above) = entry.parent else {
        return;
    };
    let steps = heights[from] + 1;
    raise(heights, least[above as usize] as usize, steps);
}

/// The height of each type, at its least index. A type's supertype has a smaller index, so the last types come first:
/// once a type is reached, all that stand below it have been. `AllocError` only where memory is refused.
pub(crate) fn type_heights(
    alloc: Global,
    least: &[u32],
    entries: &[Entry],
) -> Result<Vec<u32>, AllocError>
    requires { (list : Listed) × IsTable list least.now entries.now }
    ensures { IfOk result (λ heights. (list : Listed) → IsTable list least.now entries.now → HeightsAre list least.now heights.items) }
{
    let mut heights = vec![in alloc; 0u32; least.len()]?;
    let mut from = least.len();
    'types: while 0 < from {
        from -= 1;
        raise_parent(&mut heights, least, entries, from);
    }
    Ok(heights)
}

/// The heights of the abstract heap types that are no bottoms.
#[derive(Clone, Copy, Debug)]
pub(crate) struct Tops {
    any: u32,
    eq: u32,
    i31: u32,
    structs: u32,
    arrays: u32,
    funcs: u32,
    externs: u32,
    exns: u32,
}

impl Tops {
    /// The height of an abstract heap type, 0 of a bottom.
    pub(crate) fn height(self, kind: Abs) -> u32
        ensures { result ≡ heights.top_height self kind }
    {
        match kind {
            Abs::Any => self.any,
            Abs::Eq => self.eq,
            Abs::I31 => self.i31,
            Abs::AnyStruct => self.structs,
            Abs::AnyArray => self.arrays,
            Abs::AnyFunc => self.funcs,
            Abs::Extern => self.externs,
            Abs::Exn => self.exns,
            _ => 0,
        }
    }
}

/// The height of an abstract heap type, found from all types.
fn farthest(entries: &[Entry], top: Abs) -> u32
    requires { (i : ℕ) (entry : Kept) → slice_get entries.now i ≡ Some entry → entry.depth ≤ 63 }
    ensures small { result ≤ 66 }
    ensures to { (list : Listed) → EntriesAre (types_of list) entries.now → HeightTo list (H.Abs top) (length entries.now) result }
{
    let mut most = abs_height(HeapType::Abs(top));
    for i in 0..entries.len() {
        if let Some(edges) = entries[i].edges_from(top) {
            if most < edges {
                most = edges;
            }
        }
    }
    most
}

/// The heights of the abstract heap types, from what is kept of the types. Each type stands below `struct`, `array` or
/// `func`: `eq` is one step above the first two, `any` is one above `eq`, and no type stands below the others.
pub(crate) fn tops_of(entries: &[Entry]) -> Tops
    requires { (i : ℕ) (entry : Kept) → slice_get entries.now i ≡ Some entry → entry.depth ≤ 63 }
    ensures { (list : Listed) → EntriesAre (types_of list) entries.now → TopsAre list result }
{
    let structs = farthest(entries, Abs::AnyStruct);
    let arrays = farthest(entries, Abs::AnyArray);
    let funcs = farthest(entries, Abs::AnyFunc);
    let eq = structs.max(arrays) + 1;
    Tops {
        any: eq + 1,
        eq,
        i31: 0,
        structs,
        arrays,
        funcs,
        externs: 0,
        exns: 0,
    }
}
