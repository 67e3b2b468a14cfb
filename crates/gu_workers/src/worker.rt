//! Workers.
ghost use Rattle.std.specs.Prelude.{◌≡◌, ◌<◌, ◌%◌, ℕ, true, OnOk, Some, length, slice_get};
ghost use Rattle.gu_contents.specs.declared.content.Content.{Content};
ghost use Rattle.gu_cells.specs.Record.{at};
ghost use Rattle.gu_cells.specs.Views.{IsSameSeat};
ghost use Rattle.gu_links.specs.declared.link.Link.TheVariants.{Root};
ghost use Rattle.gu_links.specs.Solutions.{AllBelong, Solves};
ghost use Rattle.gu_workers.specs.Work.{AsksGiven, IsWork};
ghost use Rattle.gu_worklist.specs.Left.{IsLeftOf, Keeps};
ghost use Rattle.gu_workers.specs.Steps.{Adds, Starts};

use crate::gate::Gate;
use crate::step::step;
use gu_cells::{Ceilings, CellSeat, Cells};
use gu_links::{Link, System};
use gu_worklist::Left;
use std::alloc::{AllocError, Global};

/// A worker on shared cells, one of some that raise them together. Its share are the root links
/// whose number, divided by `of`, leaves `index`.
#[derive(Drop)]
pub struct Worker<N: Ceilings> {
    /// Its number, counted from 0.
    pub index: u32,
    /// How many workers there are.
    pub of: u32,
    /// The seat from which it reads and joins.
    pub seat: CellSeat<N>,
}

/// Whether a link is a root.
fn is_root(link: &Link) -> bool
    ensures { (give : Content) (to : ℕ) → link.now ≡ Root give to → result ≡ true }
{
    matches!(link, Link::Root { .. })
}

/// Whether a link is a root of the share of a worker.
fn is_share(s: &System<'_>, index: u32, of: u32, link: usize) -> bool
    requires link { link < length s.now.links }
    requires of { 0 < of }
    ensures { (give : Content) (to : ℕ) → slice_get s.now.links link ≡ Some (Root give to) → link % of ≡ index → result ≡ true }
{
    if !is_root(&s.links.as_slice()[link]) {
        return false;
    }
    link % of as usize == index as usize
}

/// Serves a link, if it is a root of the worker's share. `AllocError` only where memory is refused.
fn start<N: Ceilings, G: Gate>(
    alloc: Global,
    s: &System<'_>,
    cells: &Cells<'_, N>,
    w: &mut Worker<N>,
    gate: &G,
    link: usize,
    left: &mut Left,
) -> Result<(), AllocError>
    requires facts { (s.now.facts.now ≡ N.facts) × (s.now.longs ≡ N.longs) }
    requires of { 0 < w.old.of }
    requires link { link < length s.now.links }
    requires cells { cells.now.cells ≡ s.now.cells }
    requires seat { w.old.seat.of ≡ cells.now.id }
    requires belong { AllBelong N.facts (at N.ceilings) }
    requires ceilings { Solves N.facts s.now.links (at N.ceilings) }
    requires left { IsLeftOf (length s.now.links) left.old }
    ensures worker { (w.new.index ≡ w.old.index) × (w.new.of ≡ w.old.of) × IsSameSeat w.old.seat w.new.seat }
    ensures left { IsLeftOf (length s.now.links) left.new }
    ensures keeps { Keeps left.old.waiting left.new.waiting }
    ensures asks { Adds (AsksGiven N.facts s.now.links) w.old.seat.entries w.new.seat.entries }
    ensures starts { OnOk result (Adds (Starts N.facts s.now.links left.new.waiting w.old.index w.old.of link) w.old.seat.entries w.new.seat.entries) }
{
    if is_share(s, w.index, w.of, link) {
        step(alloc, s, cells, w, gate, link, left)?;
    }
    Ok(())
}

/// Joins what all roots of the worker's share give, and then serves every link that reads a cell
/// that one of its joins raised, on contents that it reads after that, until none is left. Each
/// join is told to the gate before it is made. The ceilings have to solve the system: no cell rises
/// above them. `AllocError` only where memory is refused: what was joined until then is what some
/// links ask for on contents that were read.
pub fn work<N: Ceilings, G: Gate>(
    alloc: Global,
    s: &System<'_>,
    cells: &Cells<'_, N>,
    w: &mut Worker<N>,
    gate: &G,
) -> Result<(), AllocError>
    requires facts { (s.now.facts.now ≡ N.facts) × (s.now.longs ≡ N.longs) }
    requires of { 0 < w.old.of }
    requires cells { cells.now.cells ≡ s.now.cells }
    requires seat { w.old.seat.of ≡ cells.now.id }
    requires belong { AllBelong N.facts (at N.ceilings) }
    requires ceilings { Solves N.facts s.now.links (at N.ceilings) }
    ensures worker { (w.new.index ≡ w.old.index) × (w.new.of ≡ w.old.of) × IsSameSeat w.old.seat w.new.seat }
    ensures asks { Adds (AsksGiven N.facts s.now.links) w.old.seat.entries w.new.seat.entries }
    ensures work { OnOk result (Adds (IsWork N.facts s.now.links w.old.index w.old.of) w.old.seat.entries w.new.seat.entries) }
{
    let links = s.links.as_slice().len();
    let mut left = Left::new(alloc, links)?;
    'roots: for link in 0..links {
        start(alloc, s, cells, w, gate, link, &mut left)?;
    }
    'left: while let Some(link) = left.take() {
        step(alloc, s, cells, w, gate, link, &mut left)?;
    }
    Ok(())
}
