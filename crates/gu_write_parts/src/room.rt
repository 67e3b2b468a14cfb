//! Sizes that are put before their content once that is written, so that it is written in its place
//! (core specification 3.0, 5.2.2 Integers).
ghost use Rattle.std.specs.Prelude.{◌≡◌, ◌+◌, ◌≤◌, ◌++◌, length, take, drop, IfOk, OnOk};
ghost use Rattle.gu_syntax.specs.Encoding.{sized};
ghost use Rattle.gu_write_parts.specs.Room.{LeavesRoom, PutsByte};

use crate::put::{LIMIT, put_size};
use std::alloc::{AllocError, Global};

/// How many bytes the size of a section of 2 megabytes or more has.
const USUAL: usize = 4;

/// Leaves room for the size of what is appended next, and gives how many bytes it leaves: four, or
/// one where so much is there that more of them could pass the limit. The error says that memory ran
/// out.
pub fn leave_size(out: &mut Vec<u8>) -> Result<usize, AllocError>
    ensures { IfOk result (LeavesRoom out.old.items out.new.items) }
{
    let room = if out.len() <= LIMIT / 2 { USUAL } else { 1 };
    out.resize(out.len() + room, 0)?;
    Ok(room)
}

/// Puts the least spelling of how many bytes stand behind some room into the room, which is at a place.
/// What is behind it moves where the size is shorter or longer than the room. The error says that
/// memory ran out.
#[inline]
pub fn fill_size(
    alloc: Global,
    out: &mut Vec<u8>,
    place: usize,
    room: usize,
) -> Result<(), AllocError>
    requires { place + room ≤ length out.old.items }
    ensures { OnOk result (out.new.items ≡ take place out.old.items ++ sized (drop (place + room) out.old.items)) }
{
    let size = out.len() - place - room;
    if room == 1 && size < 128 {
        out[place] = size as u8;
        return Ok(());
    }
    fill_long(alloc, out, place, room)
}

/// The same, whatever the size and the room are.
#[inline(never)]
fn fill_long(alloc: Global, out: &mut Vec<u8>, place: usize, room: usize) -> Result<(), AllocError>
    requires { place + room ≤ length out.old.items }
    ensures { OnOk result (out.new.items ≡ take place out.old.items ++ sized (drop (place + room) out.old.items)) }
{
    let mut bytes = Vec::new(alloc);
    put_size(&mut bytes, out.len() - place - room)?;
    let mut at = place;
    let mut left = room;
    'bytes: for byte in bytes.as_slice() {
        left = put_at(out, at, left, *byte)?;
        at += 1;
    }
    'left: while left > 0 {
        left -= 1;
        out.remove(at);
    }
    Ok(())
}

/// Puts a byte at a place, over the first one of the room that is left there, or before what stands
/// there where no room is left. Gives how much room is left behind it.
fn put_at(out: &mut Vec<u8>, place: usize, room: usize, byte: u8) -> Result<usize, AllocError>
    requires { place + room ≤ length out.old.items }
    ensures { IfOk result (PutsByte out.old.items out.new.items place room byte) }
{
    if room == 0 {
        out.insert(place, byte)?;
        return Ok(0);
    }
    out[place] = byte;
    Ok(room - 1)
}
