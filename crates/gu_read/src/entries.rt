//! The entries of the code section, read in parallel (core specification 3.0, 5.5.13 Code Section).
//! Each thread takes the next batch of them that none has taken, finds where it ends, and reads it.
//! What was read is joined in order, and what nobody took is read at the end. The first failure in
//! order is answered. Where there is one processor, entries are read one by one.
ghost use Rattle.std.specs.Prelude.{◌≡◌, ◌<◌, ◌≤◌, ◌^◌, [], ℕ, length, IfOk};
ghost use Rattle.gu_syntax.specs.Reading.{entries_at};
ghost use Rattle.gu_parallel.specs.Parts.{Follow};
ghost use Rattle.gu_read_parts.specs.Gives.{left_of};
ghost use Rattle.gu_read.specs.Standing.{AllStandFor, GivesBy};
ghost use Rattle.gu_read.specs.Shares.{Ends, Makes};

use crate::funcs::read_run;
use crate::shares::{BATCH, Entries, PLACES, keep_large, rest_from, tys_from};
use crate::weighed::WeighedFuncs;
use gu_parallel::{Part, do_parts};
use gu_read_parts::Stop;
use rayon::current_num_threads;
use std::alloc::{AllocError, Global};
use std::thread::Threads;

/// How many bytes an entry has at least: its size, the number of its runs of locals, and the end.
const ENTRY_LEAST: usize = 3;

/// The entries of these types, one behind another, at the front of the bytes. Where they are more than
/// places can tell apart, they are read one by one.
pub fn read_entries<'a>(
    rt: &(impl Threads + Sync),
    alloc: Global,
    tys: &'a [u32],
    bytes: &'a [u8],
) -> Result<(WeighedFuncs, &'a [u8]), Stop>
    ensures value { GivesBy AllStandFor result (entries_at 1000 tys.now bytes.now) }
    ensures inside { left_of result ≤ length bytes.now }
{
    let alone = bytes.len() <= BATCH || current_num_threads(rt) < 2;
    if alone || PLACES <= tys.len() as u64 || PLACES <= bytes.len() as u64 {
        return read_run(alloc, tys, bytes);
    }
    read_shared(rt, alloc, tys, bytes)
}

/// The entries of these types, one behind another, shared by threads, of which there are no more than
/// batches. Meanwhile room is made for as many functions as there are types, but for no more than the
/// bytes can have entries.
fn read_shared<'a>(
    rt: &(impl Threads + Sync),
    alloc: Global,
    tys: &'a [u32],
    bytes: &'a [u8],
) -> Result<(WeighedFuncs, &'a [u8]), Stop>
    requires tys { length tys.now < 2 ^ 32 }
    requires bytes { length bytes.now < 2 ^ 32 }
    ensures value { GivesBy AllStandFor result (entries_at 1000 tys.now bytes.now) }
    ensures inside { left_of result ≤ length bytes.now }
{
    keep_large(alloc);
    let entries = Entries { alloc, tys, bytes };
    let count = tys.len();
    let most = count.min(bytes.len() / ENTRY_LEAST);
    let batches = bytes.len() / BATCH + 1;
    let (room, parts) = do_parts(
        rt,
        alloc,
        &entries,
        count as u64 * PLACES,
        batches,
        || -> Result<WeighedFuncs, AllocError>
            ensures { IfOk result (λ room. room ≡ []) }
        { WeighedFuncs::with_touched_room(alloc, most) },
    );
    join_parts(&entries, room?, parts?)
}

/// The functions of these parts, put into the room for them, and behind them those that are in no part,
/// which are read here: as a rule there is none.
fn join_parts<'a>(
    entries: &Entries<'a>,
    room: WeighedFuncs,
    parts: Vec<Part<Result<WeighedFuncs, Stop>>>,
) -> Result<(WeighedFuncs, &'a [u8]), Stop>
    requires none { room ≡ [] }
    requires follow { (until : ℕ) × Follow (Ends entries.now.tys.now entries.now.bytes.now) (Makes entries.now.tys.now entries.now.bytes.now) until 0 parts.items }
    ensures value { GivesBy AllStandFor result (entries_at 1000 entries.now.tys.now entries.now.bytes.now) }
    ensures inside { left_of result ≤ length entries.now.bytes.now }
{
    let mut funcs = room;
    let mut place = 0;
    'parts: for part in parts {
        funcs.append(part.made?)?;
        place = part.end;
    }
    let tys = tys_from(entries.tys, place);
    let (more, rest) = read_run(entries.alloc, tys, rest_from(entries.bytes, place))?;
    funcs.append(more)?;
    Ok((funcs, rest))
}
