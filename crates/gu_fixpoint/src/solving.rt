//! Solving.
ghost use Rattle.std.specs.Prelude.{◌≡◌, ◌<◌, ◌≤◌, All, IfOk, IsNone, MatchOption, length};
ghost use Rattle.gu_cells.specs.Record.{at};
ghost use Rattle.gu_links.specs.Solutions.{IsOf, Least};
ghost use Rattle.gu_fixpoint.specs.Track.{IsTrack};

use crate::crew::{Crew, busy_workers};
use crate::hands::{run_list, seat_all, unseat};
use gu_cells::{Ceilings, Cells, Track};
use gu_contents::Content;
use gu_links::System;
use gu_solve::close_from;
use gu_types::List;
use gu_workers::Gate;
use std::alloc::{AllocError, Global};
use std::marker::Brand;
use std::thread::Threads;

/// The least solution, by one thread. `AllocError` only where memory is refused.
fn alone(alloc: Global, s: &System<'_>) -> Result<List<Content>, AllocError>
    ensures length { IfOk result (λ r. length r ≡ s.now.cells) }
    ensures are_of { IfOk result (λ r. All (IsOf s.now.facts.now s.now.longs) r) }
    ensures least { IfOk result (λ r. Least s.now.facts.now s.now.links (at r)) }
{
    let start = Vec::from_elem(alloc, Content::Empty, s.cells)?;
    close_from(alloc, s, List::from_vec(start))
}

/// The least solution, by so many workers at once, and what they did. `AllocError` only where
/// memory is refused.
fn together<N: Ceilings + Send + Sync, G: Gate>(
    rt: &(impl Threads + Sync),
    alloc: Global,
    s: &System<'_>,
    workers: u32,
    gate: &G,
) -> Result<(List<Content>, Track), AllocError>
    requires facts { (s.now.facts.now ≡ N.facts) × (s.now.longs ≡ N.longs) }
    requires some { 0 < workers }
    requires length { length N.ceilings ≡ s.now.cells }
    requires ceilings { Least N.facts s.now.links (at N.ceilings) }
    ensures length { IfOk result (λ r. length r.0 ≡ s.now.cells) }
    ensures are_of { IfOk result (λ r. All (IsOf N.facts N.longs) r.0) }
    ensures least { IfOk result (λ r. Least N.facts s.now.links (at r.0)) }
    ensures track { IfOk result (λ r. IsTrack N.facts N.longs s.now.links workers (at r.0) r.1) }
{
    let (cells, seats) = Cells::<N>::open(alloc, s.facts, &s.longs, s.cells, workers)?;
    let busy = busy_workers(s, workers);
    let crew = Crew { workers, busy };
    let mut hands = seat_all(alloc, seats, crew)?;
    run_list(rt, alloc, s, &cells, &mut hands, crew, gate);
    let seats = unseat(alloc, hands)?;
    match cells.close(seats) {
        Ok(solved) => Ok(solved),
        Err(_) => Err(AllocError),
    }
}

/// The least solution of a system, with one content for each cell, for every number of workers and
/// every gate. One worker is the worklist, and leaves no track. More raise shared cells at once, on
/// threads of their own (one with no root in its share has nothing to do, and needs no thread); then
/// the track tells what each of them did, and no pass follows them. `AllocError` only where memory
/// is refused.
pub fn solve<G: Gate>(
    rt: &(impl Threads + Sync),
    alloc: Global,
    s: &System<'_>,
    workers: u32,
    gate: &G,
) -> Result<(List<Content>, Option<Track>), AllocError>
    requires { (1 ≤ workers) × (workers ≤ 64) }
    ensures length { IfOk result (λ r. length r.0 ≡ s.now.cells) }
    ensures are_of { IfOk result (λ r. All (IsOf s.now.facts.now s.now.longs) r.0) }
    ensures least { IfOk result (λ r. Least s.now.facts.now s.now.links (at r.0)) }
    ensures track { IfOk result (λ r. MatchOption r.1 (workers ≡ 1) (λ track. (1 < workers) × IsTrack s.now.facts.now s.now.longs s.now.links workers (at r.0) track)) }
{
    if workers == 1 {
        let contents = alone(alloc, s)?;
        return Ok((contents, None));
    }
    let (contents, track) = together::<Brand, G>(rt, alloc, s, workers, gate)?;
    Ok((contents, Some(track)))
}
