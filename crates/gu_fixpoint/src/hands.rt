//! Workers in a list, one for each seat.
ghost use Rattle.std.specs.Prelude.{◌≡◌, ◌<◌, ◌≤◌, true, All, IfOk, OnOk, length, map};
ghost use Rattle.std.specs.List.{range_with_len};
ghost use Rattle.gu_cells.specs.Record.{at};
ghost use Rattle.gu_links.specs.Solutions.{AllBelong, Solves};
ghost use Rattle.gu_fixpoint.specs.Hands.{AreBusy, IsReady, HasRun, Pairs};

use crate::crew::Crew;
use gu_cells::{Ceilings, CellSeat, Cells};
use gu_links::System;
use gu_types::List;
use gu_workers::{Gate, Worker, work};
use std::alloc::{AllocError, Global};
use std::thread;
use std::thread::Threads;

/// A worker, and whether it is done.
#[derive(Drop)]
pub(crate) struct Hand<N: Ceilings> {
    pub(crate) worker: Worker<N>,
    pub(crate) done: bool,
}

/// A worker for each seat. Those that can have no work are done. `AllocError` only where memory is
/// refused.
pub(crate) fn seat_all<N: Ceilings>(
    alloc: Global,
    seats: List<CellSeat<N>>,
    crew: Crew,
) -> Result<Vec<Hand<N>>, AllocError>
    requires few { length seats ≡ crew.workers }
    ensures seats { IfOk result (λ hands. map (λ h. h.worker.seat) hands.items ≡ seats) }
    ensures indices { IfOk result (λ hands. map (λ h. h.worker.index) hands.items ≡ range_with_len 0 crew.workers) }
    ensures of { IfOk result (λ hands. All (λ h. h.worker.of ≡ crew.workers) hands.items) }
    ensures done { IfOk result (λ hands. All (λ h. h.done ≡ true → crew.busy ≤ h.worker.index) hands.items) }
{
    let mut hands = Vec::new(alloc);
    'seats: for seat in seats.into_vec() {
        let Ok(index) = u32::try_from(hands.len()) else {
            return Err(AllocError);
        };
        let of = crew.workers;
        let worker = Worker { index, of, seat };
        hands.push(Hand {
            worker,
            done: index >= crew.busy,
        })?;
    }
    Ok(hands)
}

/// The seats again, where all workers are done. `AllocError` where one is not, or memory is
/// refused.
pub(crate) fn unseat<N: Ceilings>(
    alloc: Global,
    hands: Vec<Hand<N>>,
) -> Result<List<CellSeat<N>>, AllocError>
    ensures seats { IfOk result (λ seats. map (λ h. h.worker.seat) hands.items ≡ seats) }
    ensures done { OnOk result (All (λ h. h.done ≡ true) hands.items) }
{
    let mut seats = Vec::new(alloc);
    'hands: for hand in hands {
        let Hand { worker, done } = hand;
        if !done {
            return Err(AllocError);
        }
        let Worker {
            index: _,
            of: _,
            seat,
        } = worker;
        seats.push(seat)?;
    }
    Ok(List::from_vec(seats))
}

/// The run of one worker, whose seat did nothing yet.
fn run_one<N: Ceilings, G: Gate>(
    alloc: Global,
    s: &System<'_>,
    cells: &Cells<'_, N>,
    hand: &mut Hand<N>,
    workers: u32,
    gate: &G,
)
    requires facts { (s.now.facts.now ≡ N.facts) × (s.now.longs ≡ N.longs) }
    requires some { 0 < workers }
    requires ready { IsReady workers cells.now.id hand.old.worker.of hand.old.worker.seat }
    requires cells { cells.now.cells ≡ s.now.cells }
    requires belong { AllBelong N.facts (at N.ceilings) }
    requires ceilings { Solves N.facts s.now.links (at N.ceilings) }
    ensures { HasRun N.facts s.now.links workers hand.old.worker.index hand.old.worker.seat hand.new.worker.index hand.new.done hand.new.worker.seat }
{
    hand.done = work(alloc, s, cells, &mut hand.worker, gate).is_ok();
}

/// The runs of all workers, in threads.
fn run_all<N: Ceilings + Send + Sync, G: Gate>(
    rt: &(impl Threads + Sync),
    alloc: Global,
    s: &System<'_>,
    cells: &Cells<'_, N>,
    hands: &mut [Hand<N>],
    workers: u32,
    gate: &G,
)
    requires facts { (s.now.facts.now ≡ N.facts) × (s.now.longs ≡ N.longs) }
    requires some { 0 < workers }
    requires ready { All (λ h. IsReady workers cells.now.id h.worker.of h.worker.seat) hands.old }
    requires cells { cells.now.cells ≡ s.now.cells }
    requires belong { AllBelong N.facts (at N.ceilings) }
    requires ceilings { Solves N.facts s.now.links (at N.ceilings) }
    ensures { Pairs (λ a b. HasRun N.facts s.now.links workers a.worker.index a.worker.seat b.worker.index b.done b.worker.seat) hands.old hands.new }
{
    thread::for_each_mut(
        rt,
        hands,
        workers as usize,
        &|_: usize, h: &mut Hand<N>|
            requires { IsReady workers cells.now.id h.now.worker.of h.now.worker.seat × ((s.now.facts.now ≡ N.facts) × (s.now.longs ≡ N.longs))
                × (0 < workers) × (cells.now.cells ≡ s.now.cells) × AllBelong N.facts (at N.ceilings) × Solves N.facts s.now.links (at N.ceilings) }
            ensures { HasRun N.facts s.entry.now.links workers h.entry.now.worker.index h.entry.now.worker.seat h.exit.now.worker.index h.exit.now.done h.exit.now.worker.seat }
        { run_one(alloc, s, cells, h, workers, gate) },
    );
}

/// The runs of those that can have work, in threads. The others are done, and stay as they are.
pub(crate) fn run_list<N: Ceilings + Send + Sync, G: Gate>(
    rt: &(impl Threads + Sync),
    alloc: Global,
    s: &System<'_>,
    cells: &Cells<'_, N>,
    hands: &mut Vec<Hand<N>>,
    crew: Crew,
    gate: &G,
)
    requires facts { (s.now.facts.now ≡ N.facts) × (s.now.longs ≡ N.longs) }
    requires some { 0 < crew.workers }
    requires all { length hands.old.items ≡ crew.workers }
    requires few { crew.busy ≤ crew.workers }
    requires busy { AreBusy s.now.links crew.workers crew.busy }
    requires ready { All (λ h. IsReady crew.workers cells.now.id h.worker.of h.worker.seat) hands.old.items }
    requires done { All (λ h. h.done ≡ true → crew.busy ≤ h.worker.index) hands.old.items }
    requires cells { cells.now.cells ≡ s.now.cells }
    requires belong { AllBelong N.facts (at N.ceilings) }
    requires ceilings { Solves N.facts s.now.links (at N.ceilings) }
    ensures { Pairs (λ a b. HasRun N.facts s.now.links crew.workers a.worker.index a.worker.seat b.worker.index b.done b.worker.seat) hands.old.items hands.new.items }
{
    let (first, _) = hands.as_mut_slice().split_at_mut(crew.busy as usize);
    run_all(rt, alloc, s, cells, first, crew.workers, gate);
}
