//! Where the types of a module stand in its groups.
ghost use Rattle.std.specs.Prelude.{◌<◌, ◌^◌, length, IfOk};
ghost use Rattle.gu_types.specs.Depth.{types_of};
ghost use Rattle.gu_rec.specs.Table.{PlacesAre};

use gu_types::TypeList;
use std::alloc::{AllocError, Global};

/// Where a type stands in the list of a module's types (core specification 3.0, 2.5 Modules,
/// types).
#[derive(Clone, Copy, Debug)]
pub struct Place {
    /// How many recursion groups stand before its own.
    pub group: usize,
    /// How many types stand before it in its group.
    pub position: usize,
}

/// A place as it is kept, for each type, in 8 bytes.
#[derive(Clone, Copy, Debug)]
pub(crate) struct Seat {
    /// How many recursion groups stand before the type's own.
    pub(crate) group: u32,
    /// How many types stand before it in its group.
    pub(crate) position: u32,
}

/// Where each type stands, with room for so many places from the start. `AllocError` only where
/// memory is refused.
pub(crate) fn places_of(
    alloc: Global,
    list: &TypeList,
    room: usize,
) -> Result<Vec<Seat>, AllocError>
    requires few { length (types_of list.now) < 2 ^ 32 }
    requires grouped { length list.now.groups < 2 ^ 32 }
    ensures { IfOk result (λ places. PlacesAre list.now places.items) }
{
    let mut places: Vec<Seat> = Vec::with_capacity(alloc, room)?;
    let groups = list.groups.as_slice();
    for group in 0..groups.len() {
        let types = groups[group].types.as_slice();
        for position in 0..types.len() {
            places.push(Seat {
                group: group as u32,
                position: position as u32,
            })?;
        }
    }
    Ok(places)
}
