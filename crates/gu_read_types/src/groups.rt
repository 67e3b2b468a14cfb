//! Recursion groups, and the vector of them that the type section holds.
ghost use Rattle.std.specs.Prelude.{◌≡◌, ◌≤◌, ◌∷◌, [], length, IfOk, IfErr, OnErr};
ghost use Rattle.gu_syntax.specs.Reading.{group_at, vector_at};
ghost use Rattle.gu_read_parts.specs.Gives.{Gives, left_of};
ghost use Rattle.gu_read_types.specs.ReadTypes.{PassesTypes, RefusesTypes};

use crate::types::{SubTypes, read_sub};
use gu_bytes::Cursor;
use gu_read_parts::{Part, ReadErr, Stop, read_short_vector, read_vector, refusal_ahead};
use gu_types::{RecGroup, ShortList, TypeList};
use std::alloc::Global;

/// A recursion group, which may be empty, as a part of the grammar.
pub struct Groups;

impl Part for Groups {
    ghost use Rattle.gu_syntax.specs.Reading.{group_at};

    type Value = RecGroup;

    ghost at = { group_at };

    fn read(alloc: Global, bytes: &[u8]) -> Result<(RecGroup, &[u8]), Stop> {
        read_group(alloc, bytes)
    }
}

/// A recursion group. A subtype alone is a group of one (core specification 3.0, 5.3, recursive
/// types).
#[inline(always)]
fn read_group(alloc: Global, bytes: &[u8]) -> Result<(RecGroup, &[u8]), Stop>
    ensures value { Gives result (group_at bytes.now) }
    ensures inside { left_of result ≤ length bytes.now }
{
    match bytes.split_first() {
        Some((0x4E, rest)) => {
            let (types, rest) = read_short_vector::<SubTypes>(alloc, rest)?;
            Ok((RecGroup { types }, rest))
        }
        _ => {
            let (ty, rest) = read_sub(alloc, bytes)?;
            let types = ShortList::one(alloc, ty);
            Ok((RecGroup { types }, rest))
        }
    }
}

/// Passes the vector of recursion groups at the cursor, which is the content of a type section, and
/// gives the types (5.5.4 Type Section).
///
/// `Malformed` and `OutOfProfile` exactly where no such vector stands there, at the first place, in
/// bytes from the start of the cursor's bytes, where what is asked does not stand: `OutOfProfile` where
/// a type of floating point or of vectors begins there, else `Malformed`. `Limit` does not come. After
/// an error the cursor is where it was.
pub fn read_types(alloc: Global, at: &mut Cursor<'_>) -> Result<TypeList, ReadErr>
    ensures ok { IfOk result (λ list. PassesTypes list.groups at.old at.new) }
    ensures refused { IfErr result (λ e. RefusesTypes at.old e) }
    ensures stays { OnErr result (at.new ≡ at.old) }
{
    let rest = at.rest();
    match read_vector::<Groups>(alloc, rest) {
        Ok((groups, behind)) => {
            let _ = at.bytes(rest.len() - behind.len());
            Ok(TypeList { groups })
        }
        Err(stop) => Err(refusal_ahead(at, stop)),
    }
}
