//! Parts of the grammar, vectors of them, and contents of a size that they fill.
ghost use Rattle.std.specs.Prelude.{◌≡◌, ◌≤◌, List, [], ℕ, length, IfOk};
ghost use Rattle.gu_syntax.specs.Reading.{Read, items_at, vector_at, sized_at};
ghost use Rattle.gu_read_parts.specs.Gives.{Gives, left_of};

use crate::bytes::{close, read_content};
use crate::numbers::read_u32;
use crate::stop::Stop;
use gu_types::{List, ShortList};
use std::alloc::{AllocError, Global};

/// How many items are made room for before they are read, at most.
const FEW: u32 = 64;

/// A part of the grammar.
pub trait Part {
    /// What it spells.
    type Value: Drop;

    // What the grammar reads of it at the front of a text.
    ghost at: { List ℕ → Read Self.Value };

    /// What the bytes begin with, and the bytes behind it.
    fn read(alloc: Global, bytes: &[u8]) -> Result<(Self::Value, &[u8]), Stop>
        ensures value { Gives result (at bytes.now) }
        ensures inside { left_of result ≤ length bytes.now };
}

/// An index, or another unsigned integer of 32 bits (core specification 3.0, 5.2.2 Integers, 5.5.1
/// Indices).
pub struct Index;

impl Part for Index {
    ghost use Rattle.gu_syntax.specs.Reading.{u32_at};

    type Value = u32;

    ghost at = { u32_at };

    fn read(_: Global, bytes: &[u8]) -> Result<(u32, &[u8]), Stop> {
        read_u32(bytes)
    }
}

/// So many items, one behind another. Few items have exactly the room that they need; for more than
/// that memory is taken as they are read, and never by the count.
pub fn read_items<P: Part>(
    alloc: Global,
    count: u32,
    bytes: &[u8],
) -> Result<(List<P::Value>, &[u8]), Stop>
    ensures value { Gives result (items_at P.at count bytes.now) }
    ensures inside { left_of result ≤ length bytes.now }
{
    let mut rest = bytes;
    let mut items = no_items(alloc, count)?;
    'items: for _ in 0..count {
        let (item, behind) = P::read(alloc, rest)?;
        items.push(item)?;
        rest = behind;
    }
    Ok((items, rest))
}

/// No items, with room for as many as are said to follow, if they are few.
fn no_items<T>(alloc: Global, count: u32) -> Result<List<T>, AllocError>
    ensures { IfOk result (λ items. items ≡ []) }
{
    Ok(List::from_vec(Vec::with_capacity(alloc, count.min(FEW) as usize)?))
}

/// A vector: how many items, and the items (5.1.3 Lists).
pub fn read_vector<P: Part>(alloc: Global, bytes: &[u8]) -> Result<(List<P::Value>, &[u8]), Stop>
    ensures value { Gives result (vector_at P.at bytes.now) }
    ensures inside { left_of result ≤ length bytes.now }
{
    let (count, rest) = read_u32(bytes)?;
    read_items::<P>(alloc, count, rest)
}

/// A vector that takes no memory for one item (5.1.3 Lists).
pub fn read_short_vector<P: Part>(
    alloc: Global,
    bytes: &[u8],
) -> Result<(ShortList<P::Value>, &[u8]), Stop>
    ensures value { Gives result (vector_at P.at bytes.now) }
    ensures inside { left_of result ≤ length bytes.now }
{
    let (count, rest) = read_u32(bytes)?;
    if count == 1 {
        let (item, rest) = P::read(alloc, rest)?;
        return Ok((ShortList::one(alloc, item), rest));
    }
    let (items, rest) = read_items::<P>(alloc, count, rest)?;
    Ok((ShortList::from_vec(items.into_vec()), rest))
}

/// How many bytes follow, and a content that fills them (5.5.2 Sections).
pub fn read_sized<P: Part>(alloc: Global, bytes: &[u8]) -> Result<(P::Value, &[u8]), Stop>
    ensures value { Gives result (sized_at P.at bytes.now) }
    ensures inside { left_of result ≤ length bytes.now }
{
    let (content, rest) = read_content(bytes)?;
    close(P::read(alloc, content), rest)
}
