//! The work of one link: what it rests on is read, what it asks for is joined, and the readers of
//! each cell that rises are left to be served.
ghost use Rattle.std.specs.Prelude.{◌≡◌, ◌<◌, ◌≤◌, ◌∷◌, ℕ, [], All, Contains, IfOk, OnOk, Some, length, slice_get};
ghost use Rattle.gu_cells.specs.Record.{at};
ghost use Rattle.gu_cells.specs.Views.{IsSameSeat};
ghost use Rattle.gu_links.specs.declared.link.Link.{Link};
ghost use Rattle.gu_links.specs.Solutions.{AllBelong, IsReader, Solves};
ghost use Rattle.gu_links.specs.Known.{link_at, IsKnown, IsEnough};
ghost use Rattle.gu_workers.specs.Work.{AsksGiven};
ghost use Rattle.gu_worklist.specs.Left.{IsLeftOf, Keeps};
ghost use Rattle.gu_workers.specs.Known.{IsHeld, AreKnown};
ghost use Rattle.gu_workers.specs.Steps.{Adds, AreOf, IsFitting, Asks, Makes, Serves, room, weight};

use crate::gate::Gate;
use crate::worker::Worker;
use gu_cells::{Ceilings, CellSeat, Cells};
use gu_contents::Content;
use gu_links::{System, apply};
use gu_types::List;
use gu_worklist::{Left, add_readers};
use std::alloc::{AllocError, Global};

/// Reads all cells on which a link rests, on the contents that they have. `AllocError` only where
/// memory is refused.
fn look_up<N: Ceilings>(
    alloc: Global,
    s: &System<'_>,
    cells: &Cells<'_, N>,
    seat: &mut CellSeat<N>,
    link: usize,
) -> Result<Vec<(usize, Content)>, AllocError>
    requires facts { (s.now.facts.now ≡ N.facts) × (s.now.longs ≡ N.longs) }
    requires link { link < length s.now.links }
    requires cells { cells.now.cells ≡ s.now.cells }
    requires seat { seat.old.of ≡ cells.now.id }
    ensures seat { IsSameSeat seat.old seat.new }
    ensures reads { Adds (AreOf N.facts []) seat.old.entries seat.new.entries }
    ensures known { IfOk result (λ known. Adds (AreKnown N.facts known.items) seat.old.entries seat.new.entries) }
    ensures room { OnOk result (room N.facts s.now.cells seat.new.entries ≤ room N.facts s.now.cells seat.old.entries) }
    ensures held { IfOk result (λ known. IsHeld N.facts N.longs N.ceilings known.items) }
    ensures onward { IfOk result (λ known. IsKnown N.facts N.longs s.now.links (link_at s.now.links link) known.items) }
    ensures enough { IfOk result (λ known. IsEnough N.facts s.now.links (link_at s.now.links link) known.items) }
{
    let mut known = Vec::new(alloc);
    'reads: while let Some(cell) = s.next_read(link, known.as_slice()) {
        let content = cells.read(seat, cell);
        known.push((cell, content))?;
    }
    Ok(known)
}

/// What a link asks for on the contents that the cells have. `AllocError` only where memory is
/// refused.
fn ask<N: Ceilings>(
    alloc: Global,
    s: &System<'_>,
    cells: &Cells<'_, N>,
    seat: &mut CellSeat<N>,
    link: usize,
) -> Result<List<(usize, Content)>, AllocError>
    requires facts { (s.now.facts.now ≡ N.facts) × (s.now.longs ≡ N.longs) }
    requires link { link < length s.now.links }
    requires cells { cells.now.cells ≡ s.now.cells }
    requires seat { seat.old.of ≡ cells.now.id }
    requires belong { AllBelong N.facts (at N.ceilings) }
    requires ceilings { Solves N.facts s.now.links (at N.ceilings) }
    ensures seat { IsSameSeat seat.old seat.new }
    ensures reads { Adds (AreOf N.facts []) seat.old.entries seat.new.entries }
    ensures asks { IfOk result (λ asked. Adds (Asks N.facts s.now.links (link_at s.now.links link) asked) seat.old.entries seat.new.entries) }
    ensures room { OnOk result (room N.facts s.now.cells seat.new.entries ≤ room N.facts s.now.cells seat.old.entries) }
    ensures fitting { IfOk result (λ asked. All (IsFitting N.facts N.longs s.now.cells N.ceilings) asked) }
{
    let known = look_up(alloc, s, cells, seat, link)?;
    apply(alloc, s, link, known.as_slice())
}

/// Joins a content into a cell, and leaves the readers of the cell if it rose. `AllocError` only
/// where memory is refused.
fn raise<N: Ceilings, G: Gate>(
    s: &System<'_>,
    cells: &Cells<'_, N>,
    w: &mut Worker<N>,
    gate: &G,
    cell: usize,
    content: Content,
    left: &mut Left,
) -> Result<(), AllocError>
    requires facts { (s.now.facts.now ≡ N.facts) × (s.now.longs ≡ N.longs) }
    requires cells { cells.now.cells ≡ s.now.cells }
    requires seat { w.old.seat.of ≡ cells.now.id }
    requires fitting { IsFitting N.facts N.longs s.now.cells N.ceilings (cell, content) }
    requires left { IsLeftOf (length s.now.links) left.old }
    ensures worker { (w.new.index ≡ w.old.index) × (w.new.of ≡ w.old.of) × IsSameSeat w.old.seat w.new.seat }
    ensures left { IsLeftOf (length s.now.links) left.new }
    ensures keeps { Keeps left.old.waiting left.new.waiting }
    ensures are_of { Adds (AreOf N.facts ((cell, content) ∷ [])) w.old.seat.entries w.new.seat.entries }
    ensures makes { OnOk result (Adds (Makes N.facts s.now.links left.new.waiting ((cell, content) ∷ [])) w.old.seat.entries w.new.seat.entries) }
    ensures weight { OnOk result (weight N.facts s.now.cells (length s.now.links) w.new.seat.entries (length left.new.waiting) ≤ weight N.facts s.now.cells (length s.now.links) w.old.seat.entries (length left.old.waiting)) }
{
    gate.pass(w.index, cell);
    let joined = cells.join(&mut w.seat, cell, content);
    if joined.raised {
        add_readers(s, cell, left)?;
    }
    Ok(())
}

/// Makes all joins that a link asks for. `AllocError` only where memory is refused.
fn join_all<N: Ceilings, G: Gate>(
    s: &System<'_>,
    cells: &Cells<'_, N>,
    w: &mut Worker<N>,
    gate: &G,
    asked: &[(usize, Content)],
    left: &mut Left,
) -> Result<(), AllocError>
    requires facts { (s.now.facts.now ≡ N.facts) × (s.now.longs ≡ N.longs) }
    requires cells { cells.now.cells ≡ s.now.cells }
    requires seat { w.old.seat.of ≡ cells.now.id }
    requires fitting { All (IsFitting N.facts N.longs s.now.cells N.ceilings) asked.now }
    requires left { IsLeftOf (length s.now.links) left.old }
    ensures worker { (w.new.index ≡ w.old.index) × (w.new.of ≡ w.old.of) × IsSameSeat w.old.seat w.new.seat }
    ensures left { IsLeftOf (length s.now.links) left.new }
    ensures keeps { Keeps left.old.waiting left.new.waiting }
    ensures are_of { Adds (AreOf N.facts asked.now) w.old.seat.entries w.new.seat.entries }
    ensures makes { OnOk result (Adds (Makes N.facts s.now.links left.new.waiting asked.now) w.old.seat.entries w.new.seat.entries) }
    ensures weight { OnOk result (weight N.facts s.now.cells (length s.now.links) w.new.seat.entries (length left.new.waiting) ≤ weight N.facts s.now.cells (length s.now.links) w.old.seat.entries (length left.old.waiting)) }
{
    'joins: for (cell, content) in asked {
        raise(s, cells, w, gate, *cell, *content, left)?;
    }
    Ok(())
}

/// Serves a link. `AllocError` only where memory is refused.
pub(crate) fn step<N: Ceilings, G: Gate>(
    alloc: Global,
    s: &System<'_>,
    cells: &Cells<'_, N>,
    w: &mut Worker<N>,
    gate: &G,
    link: usize,
    left: &mut Left,
) -> Result<(), AllocError>
    requires facts { (s.now.facts.now ≡ N.facts) × (s.now.longs ≡ N.longs) }
    requires link { link < length s.now.links }
    requires cells { cells.now.cells ≡ s.now.cells }
    requires seat { w.old.seat.of ≡ cells.now.id }
    requires belong { AllBelong N.facts (at N.ceilings) }
    requires ceilings { Solves N.facts s.now.links (at N.ceilings) }
    requires left { IsLeftOf (length s.now.links) left.old }
    ensures worker { (w.new.index ≡ w.old.index) × (w.new.of ≡ w.old.of) × IsSameSeat w.old.seat w.new.seat }
    ensures left { IsLeftOf (length s.now.links) left.new }
    ensures keeps { Keeps left.old.waiting left.new.waiting }
    ensures asks { Adds (AsksGiven N.facts s.now.links) w.old.seat.entries w.new.seat.entries }
    ensures serves { OnOk result (Adds (Serves N.facts s.now.links left.new.waiting (link_at s.now.links link)) w.old.seat.entries w.new.seat.entries) }
    ensures weight { OnOk result (weight N.facts s.now.cells (length s.now.links) w.new.seat.entries (length left.new.waiting) ≤ weight N.facts s.now.cells (length s.now.links) w.old.seat.entries (length left.old.waiting)) }
{
    let asked = ask(alloc, s, cells, &mut w.seat, link)?;
    join_all(s, cells, w, gate, asked.as_slice(), left)
}
