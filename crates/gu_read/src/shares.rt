//! The batches of code entries that threads share and read apart (core specification 3.0, 5.5.13 Code
//! Section). Where a batch ends is found by the sizes of its entries, before they are read.
ghost use Rattle.std.specs.Prelude.{◌≡◌, ◌<◌, ◌≤◌, ◌^◌, take, length};
ghost use Rattle.gu_read.specs.Shares.{EndsAt, IsBehind, types_from, bytes_from, Ends, Makes};

use crate::funcs::read_run;
use crate::weighed::WeighedFuncs;
use gu_parallel::Work;
use gu_read_parts::{Stop, read_content};
use std::alloc::{AllocError, Global};

/// How many bytes of entries make a batch, at least, but for the last one: so few that what small
/// functions of as many bytes take has room in `ROOM`.
pub const BATCH: usize = 49_152;

/// How many bytes of memory are asked for before a batch is read. The C library maps the first such
/// block by itself, and once that was given back it takes such blocks from the memory that small blocks
/// are taken from.
const ROOM: usize = 1_048_576;

/// How many bytes of memory the C library maps by themselves at most, when it has learned to: 32 MiB, but
/// for what it adds to a block.
const LARGE: usize = 33_000_000;

/// A place is the number of an entry, so many times, and how many bytes are before the entry.
pub const PLACES: u64 = 4_294_967_296;

/// Code entries of these types, one behind another, at the front of the bytes. Their parts are batches
/// of about equal bytes, so that many small ones are not a part each.
#[derive(Clone, Copy, Debug)]
pub struct Entries<'a> {
    /// From where memory is taken.
    pub alloc: Global,
    /// The indices of their types, in order.
    pub tys: &'a [u32],
    /// The bytes from the first entry on.
    pub bytes: &'a [u8],
}

impl Work for Entries<'_> {
    type Made = Result<WeighedFuncs, Stop>;

    ghost ready = { λ entries. (length entries.tys.now < 2 ^ 32) × (length entries.bytes.now < 2 ^ 32) };

    ghost ends = { λ entries start end. Ends entries.tys.now entries.bytes.now start end };

    ghost makes = { λ entries start end made. Makes entries.tys.now entries.bytes.now start end made };

    fn end_of(&self, start: u64) -> u64 {
        end_from(self.tys, self.bytes, start)
    }

    fn make(&self, start: u64, end: u64) -> Result<WeighedFuncs, Stop> {
        make_room(self.alloc, ROOM);
        read_between(self.alloc, self.tys, self.bytes, start, end)
    }
}

/// The types from the entry on that a place is at.
pub fn tys_from(tys: &[u32], place: u64) -> &[u32]
    ensures { result.now ≡ types_from tys.now place }
{
    let number = (place / PLACES) as usize;
    let (_, rest) = tys.split_at(number.min(tys.len()));
    rest
}

/// The bytes from a place on.
pub fn rest_from(bytes: &[u8], place: u64) -> &[u8]
    ensures { result.now ≡ bytes_from bytes.now place }
{
    let offset = (place % PLACES) as usize;
    let (_, rest) = bytes.split_at(offset.min(bytes.len()));
    rest
}

/// Where the batch ends that starts at a place. Where no entry is left it ends where it starts.
fn end_from(tys: &[u32], bytes: &[u8], start: u64) -> u64
    requires tys { length tys.now < 2 ^ 32 }
    requires bytes { length bytes.now < 2 ^ 32 }
    ensures { Ends tys.now bytes.now start result }
{
    let others = tys_from(tys, start);
    if others.is_empty() {
        return start;
    }
    let rest = rest_from(bytes, start);
    let (count, behind) = pass_batch(others, rest);
    let passed = rest.len() - behind.len();
    start + count as u64 * PLACES + passed as u64
}

/// How many of the entries of these types make the first batch, and the bytes behind it. Where an
/// entry's size is not there the batch that it is in has all that follow.
fn pass_batch<'a>(tys: &[u32], bytes: &'a [u8]) -> (usize, &'a [u8])
    requires { 0 < length tys.now }
    ensures some { 0 < result.0 }
    ensures most { result.0 ≤ length tys.now }
    ensures ends { EndsAt (take result.0 tys.now) bytes.now result.1.now }
    ensures behind { IsBehind result.1.now bytes.now }
    ensures inside { length result.1.now ≤ length bytes.now }
{
    let mut rest = bytes;
    'entries: for index in 0..tys.len() {
        let Ok((_, behind)) = read_content(rest) else {
            return (tys.len(), rest);
        };
        rest = behind;
        if BATCH <= bytes.len() - rest.len() {
            return (index + 1, rest);
        }
    }
    (tys.len(), rest)
}

/// The functions between two places.
fn read_between(
    alloc: Global,
    tys: &[u32],
    bytes: &[u8],
    start: u64,
    end: u64,
) -> Result<WeighedFuncs, Stop>
    requires { Ends tys.now bytes.now start end }
    ensures { Makes tys.now bytes.now start end result }
{
    let others = tys_from(tys, start);
    let count = (end / PLACES - start / PLACES) as usize;
    let (these, _) = others.split_at(count.min(others.len()));
    let (funcs, _) = read_run(alloc, these, rest_from(bytes, start))?;
    Ok(funcs)
}

/// Asks for so many bytes of memory and gives them back, so that what is asked for next is there. Where
/// they are not to be had, nothing is different. If room were not made at once, a thread would ask the
/// system for each page that functions take, where threads wait for each other.
fn make_room(alloc: Global, bytes: usize) {
    let room: Result<Vec<u8>, AllocError> = Vec::with_capacity(alloc, bytes);
    drop(room);
}

/// Has the C library keep the memory of large blocks when they are given back, which it does once it was
/// given back the largest that it maps by itself. What a module took is then there for the next one, and
/// threads need not ask the system for it again.
pub fn keep_large(alloc: Global) {
    make_room(alloc, LARGE);
}
