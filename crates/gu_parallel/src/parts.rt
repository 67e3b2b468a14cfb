//! The parts of some work, taken by several threads and put in order.
ghost use Rattle.std.specs.Prelude.{◌≡◌, ◌<◌, ℕ, All, take, length, IfOk};
ghost use Rattle.std.specs.List.{Contains};
ghost use Rattle.std.specs.Thread.{IsSync, IsSend};
ghost use Rattle.gu_parallel.specs.Parts.{IsPartOf, Follow, Chained, Arranges};

use crate::work::Work;
use rayon::{current_num_threads, join};
use std::alloc::{AllocError, Global};
use std::sync::atomic::{AtomicU64, Ordering};
use std::thread::Threads;

/// How many threads are started for each processor but the one that this thread is on. With one for each
/// the system may leave two on one processor, and another at rest, for as long as they work.
const THREADS: usize = 2;

/// A part of some work, and what was made of it.
#[derive(Debug, Drop)]
pub struct Part<X> {
    /// The place at which it starts.
    pub start: u64,
    /// The place behind it.
    pub end: u64,
    /// What was made of it.
    pub made: X,
}

/// What `beside` gives, and parts of the work, one behind another from place 0 on. Threads share the
/// parts, two for each processor but this one's, and this one is among them once `beside` has ended; where
/// a thread cannot be started, its turns are taken in this one. No part starts at `until` or behind it. No
/// more than `most` threads are started, and none takes more than `most` turns.
///
/// As a rule the parts go as far as `until`, but no clause says so, since none knows what threads see of
/// each other: a caller looks where the last part ends, and makes what is missing. `AllocError` only
/// where memory is refused.
pub fn do_parts<R: Threads + Sync, W: Work + Sync, Y, B: FnOnce() -> Y>(
    rt: &R,
    alloc: Global,
    work: &W,
    until: u64,
    most: usize,
    beside: B,
) -> (Y, Result<Vec<Part<W::Made>>, AllocError>)
where
    W::Made: Send + Drop,
    requires ready { W.ready work.now }
    requires beside { B.pre beside }
    ensures beside { B.post beside result.0 }
    ensures parts { IfOk result.1 (λ parts. Follow (W.ends work.now) (W.makes work.now) until 0 parts.items) }
{
    let front = AtomicU64::new(0);
    let front = &front;
    let others = (current_num_threads(rt) - 1)
        .saturating_mul(THREADS)
        .min(most);
    if others == 0 {
        let answer = beside();
        let own = take_parts(alloc, work, front, until, most);
        return (answer, both_in_order(own, Ok(Vec::new(alloc))));
    }
    let (theirs, (answer, own)) = join(
        rt,
        || -> Result<Vec<Part<W::Made>>, AllocError>
            requires { IsSync R.row × IsSync W.row × W.ready work.now }
            ensures { IfOk result (λ parts. All (IsPartOf (W.ends work.entry.now) (W.makes work.entry.now) until) parts.items) }
        { share_parts(rt, alloc, work, front, until, most, others) },
        || -> (Y, Result<Vec<Part<W::Made>>, AllocError>)
            requires { W.ready work.now × B.pre beside }
            ensures answer { B.post beside result.0 }
            ensures own { IfOk result.1 (λ parts. All (IsPartOf (W.ends work.entry.now) (W.makes work.entry.now) until) parts.items) }
        {
            let answer = beside();
            (answer, take_parts(alloc, work, front, until, most))
        },
    );
    (answer, both_in_order(own, theirs))
}

/// Parts of the work that so many threads take.
#[cycle(shares)]
fn share_parts<R: Threads + Sync, W: Work + Sync>(
    rt: &R,
    alloc: Global,
    work: &W,
    front: &AtomicU64,
    until: u64,
    most: usize,
    threads: usize,
) -> Result<Vec<Part<W::Made>>, AllocError>
where
    W::Made: Send + Drop,
    requires { W.ready work.now }
    ensures { IfOk result (λ parts. All (IsPartOf (W.ends work.now) (W.makes work.now) until) parts.items) }
{
    if threads == 0 {
        return Ok(Vec::new(alloc));
    }
    if threads == 1 {
        return take_parts(alloc, work, front, until, most);
    }
    let low = threads / 2;
    let high = threads - low;
    let (a, b) = join(
        rt,
        || -> Result<Vec<Part<W::Made>>, AllocError>
            requires { IsSync R.row × IsSync W.row × IsSend W.Made.row × W.ready work.now }
            ensures { IfOk result (λ parts. All (IsPartOf (W.ends work.entry.now) (W.makes work.entry.now) until) parts.items) }
        { share_parts(rt, alloc, work, front, until, most, low) },
        || -> Result<Vec<Part<W::Made>>, AllocError>
            requires { IsSync R.row × IsSync W.row × IsSend W.Made.row × W.ready work.now }
            ensures { IfOk result (λ parts. All (IsPartOf (W.ends work.entry.now) (W.makes work.entry.now) until) parts.items) }
        { share_parts(rt, alloc, work, front, until, most, high) },
    );
    let mut all = a?;
    let mut more = b?;
    all.append(&mut more)?;
    Ok(all)
}

/// Parts of the work that this thread takes: each time the next one that none has taken.
fn take_parts<W: Work>(
    alloc: Global,
    work: &W,
    front: &AtomicU64,
    until: u64,
    most: usize,
) -> Result<Vec<Part<W::Made>>, AllocError>
where
    W::Made: Drop,
    requires { W.ready work.now }
    ensures { IfOk result (λ parts. All (IsPartOf (W.ends work.now) (W.makes work.now) until) parts.items) }
{
    let mut parts = Vec::new(alloc);
    'turns: for _ in 0..most {
        let start = front.load(Ordering::SeqCst);
        if until <= start {
            break;
        }
        let end = work.end_of(start);
        let taken = front.compare_exchange(start, end, Ordering::SeqCst, Ordering::SeqCst);
        if taken.is_ok() {
            let made = work.make(start, end);
            parts.push(Part { start, end, made })?;
        }
    }
    Ok(parts)
}

/// The parts of both in order, as far as they stand one behind another from place 0 on.
fn both_in_order<X: Drop>(
    own: Result<Vec<Part<X>>, AllocError>,
    theirs: Result<Vec<Part<X>>, AllocError>,
) -> Result<Vec<Part<X>>, AllocError>
    ensures { IfOk result (λ all. Arranges own theirs all.items) }
{
    let mut all = own?;
    let mut more = theirs?;
    all.append(&mut more)?;
    Ok(in_order(all))
}

/// These parts in order, as far as they stand one behind another from place 0 on.
fn in_order<X: Drop>(parts: Vec<Part<X>>) -> Vec<Part<X>>
    ensures chained { Chained 0 result.items }
    ensures taken { All (Contains parts.items) result.items }
{
    let mut parts = parts;
    parts.sort_unstable_by_key(|part: &Part<X>| -> u64 { part.start });
    let count = joined_len(parts.as_slice());
    parts.truncate(count);
    parts
}

/// How many of these parts, from the first on, stand one behind another from place 0 on.
fn joined_len<X>(parts: &[Part<X>]) -> usize
    ensures { Chained 0 (take result parts.now) }
{
    let mut place = 0;
    'parts: for index in 0..parts.len() {
        let part = &parts[index];
        if part.start != place {
            return index;
        }
        place = part.end;
    }
    parts.len()
}
