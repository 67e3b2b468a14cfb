//! The tables of a `Types`, made of a list of types.
ghost use Rattle.std.specs.Prelude.{◌≡◌, ◌<◌, ◌≤◌, ◌^◌, ℕ, length, slice_get, Some, IfOk};
ghost use Rattle.gu_types.specs.Depth.{types_of, depth};
ghost use Rattle.gu_rec.specs.declared.types.Entry.{Entry as Kept};
ghost use Rattle.gu_rec.specs.Sub as sub;
ghost use Rattle.gu_rec.specs.Table.{EntriesAre, EntryFrom};
ghost use Rattle.gu_rec.specs.Validity.{IndicesHold};

use crate::types::Entry;
use gu_types::{Abs, Comp, SubType, TypeList};
use std::alloc::{AllocError, Global};

/// The abstract heap type above the concrete types of a kind.
fn kind_of(comp: &Comp) -> Abs
    ensures { result ≡ sub.kind_of comp.now }
{
    match comp {
        Comp::Func { .. } => Abs::AnyFunc,
        Comp::Struct(_) => Abs::AnyStruct,
        Comp::Array(_) => Abs::AnyArray,
    }
}

/// What is kept of a type, from what is kept of the types before it.
fn entry_of(ty: &SubType, entries: &[Entry]) -> Entry
    requires there { (s : ℕ) → slice_get ty.now.supers 0 ≡ Some s → s < length entries.now }
    requires small { (i : ℕ) (entry : Kept) → slice_get entries.now i ≡ Some entry → entry.depth ≤ 63 }
    ensures { EntryFrom ty.now entries.now (slice_get ty.now.supers 0) result }
{
    match ty.supers.as_slice().first() {
        None => Entry {
            parent: None,
            kind: kind_of(&ty.comp),
            depth: 0,
        },
        Some(above) => {
            let upper = entries[*above as usize];
            Entry {
                parent: Some(*above),
                kind: upper.kind,
                depth: upper.depth + 1,
            }
        }
    }
}

/// What is kept of each type, with room for so many from the start. `AllocError` only where memory
/// is refused.
pub(crate) fn entries_of(
    alloc: Global,
    list: &TypeList,
    room: usize,
) -> Result<Vec<Entry>, AllocError>
    requires hold { IndicesHold list.now }
    requires shallow { (i : ℕ) → depth (types_of list.now) i ≤ 63 }
    ensures { IfOk result (λ entries. EntriesAre (types_of list.now) entries.items) }
{
    let mut entries: Vec<Entry> = Vec::with_capacity(alloc, room)?;
    let groups = list.groups.as_slice();
    for group in groups {
        let types = group.types.as_slice();
        for ty in types {
            let entry = entry_of(ty, entries.as_slice());
            entries.push(entry)?;
        }
    }
    Ok(entries)
}
