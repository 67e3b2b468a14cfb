//! Cells as words of a table.
ghost use Rattle.std.specs.Prelude.{◌≡◌, ◌≢◌, ℕ, ◌+◌, ◌<◌, ◌≤◌, suc, false, IfOk, IfErr, IfSome, IfNone, length, map, All, MatchBool, [], ◌∷◌, vec_capacity};
ghost use Rattle.std.specs.Slots.{slots_items, slots_len, IsFull};
ghost use Rattle.std.specs.List.{range_with_len};
ghost use Rattle.gu_contents.specs.Order.{AtMost};
ghost use Rattle.gu_contents.specs.Join.{join as join_of};
ghost use Rattle.gu_contents.specs.Belongs.{Belongs};
ghost use Rattle.gu_cells.specs.declared.record.Entry.TheVariants.{Read, Join};
ghost use Rattle.gu_cells.specs.Record.{at, seen, BelongsTo, RecordBelongs, RecordsBelong, Appends, CoversAll, Settled};
ghost use Rattle.gu_cells.specs.Rule.{first_view, counted, new_seat, looked, now_of, records, parts, times, IsFound};
ghost use Rattle.gu_cells.specs.Views.{IsSameSeat};

use crate::record::View;
use crate::rule::{Asked, Both, Ceilings, Fork, Joins, Looks, Order, Reads};
use crate::seat::{CellSeat, Track};
use crate::sizes::Sizes;
use atomic_table::{Closed, Seat, Table};
use gu_contents::{Content, Facts, Longs, code_of, content_of, join, le};
use gu_types::List;
use std::alloc::{AllocError, Global};
use std::marker::{Brand, Model};
use std::snapshot::Snapshot;

/// Cells that threads share. Each holds a content, which rises by joins alone.
#[derive(Drop)]
pub struct Cells<'a, N: Ceilings> {
    table: Table<u64, View, Sizes, Order<N>, Global>,
    facts: &'a Facts<'a>,
    longs: &'a Longs,
    sizes: Sizes,
    alloc: Global,
}

impl<'a, N: Ceilings> Model for Cells<'a, N> {
    ghost use Rattle.gu_cells.specs.Views.{CellsView, cells_view};
    ghost use Rattle.gu_cells.specs.Rule.{IsOpened};

    ghost Value = { CellsView };

    ghost view = { λ c. cells_view c.table.shared.table_id c.sizes.cells c.sizes.seats };

    ghost invariant = { λ c. IsOpened N.facts N.longs N.ceilings c.facts.now c.longs.now c.sizes c.table.shared.key c.table.shared.table_id.words c.table.shared.table_id.slots };
}

/// What a join did: the content that it found, the one that it left, and whether they differ.
#[derive(Clone, Copy, Debug, PartialEq, Eq)]
pub struct Joined {
    /// What it found.
    pub before: Content,
    /// What it left: the join of what it found and what was asked.
    pub after: Content,
    /// Whether the two differ.
    pub raised: bool,
}

impl<'a, N: Ceilings> Cells<'a, N> {
    /// Cells that are all empty, and the first seat, before any other is split off it.
    fn make(
        alloc: Global,
        facts: &'a Facts<'a>,
        longs: &'a Longs,
        sizes: Sizes,
    ) -> Result<(Cells<'a, N>, Seat<u64, View>), AllocError>
        requires facts { facts.now ≡ N.facts }
        requires longs { longs.now ≡ N.longs }
        requires seats { 1 ≤ sizes.seats }
        requires belong { (cell : ℕ) → Belongs N.facts (at N.ceilings cell) }
        ensures cells { IfOk result (λ r. (r.0.cells ≡ sizes.cells) × (r.0.seats ≡ sizes.seats)) }
        ensures seat { IfOk result (λ r. (r.1.table_id ≡ r.0.id) × (r.1.me ≡ (first_view, []))) }
    {
        if sizes.cells == usize::MAX {
            return Err(AllocError);
        }
        let words = Vec::from_elem(alloc, 0u64, sizes.cells + 1)?;
        let (table, seat) = Table::of_words(alloc, words.as_slice(), &sizes)?;
        let cells = Cells {
            table,
            facts,
            longs,
            sizes,
            alloc,
        };
        Ok((cells, seat))
    }

    /// A new seat, whose number is the count of seats before it.
    fn split(&self, first: &mut Seat<u64, View>) -> Seat<u64, View>
        requires seat { first.old.table_id ≡ self.now.id }
        requires live { first.old.me.0.spent ≡ false }
        requires first { first.old.me.0.number ≡ 0 }
        requires room { first.old.me.0.count < self.now.seats }
        ensures old { (first.new.table_id ≡ first.old.table_id) × (first.new.me ≡ (counted first.old.me.0, first.old.me.1)) }
        ensures new { (result.table_id ≡ first.old.table_id) × (result.me ≡ (new_seat first.old.me.0, [])) }
    {
        self.table.shared.split_seat::<Fork>(first)
    }

    /// Cells that are all empty, with seats that did nothing yet. The k-th seat, counted from 0,
    /// has number k, and no call changes it. `AllocError` only where memory is refused.
    pub fn open(
        alloc: Global,
        facts: &'a Facts<'a>,
        longs: &'a Longs,
        cells: usize,
        seats: u32,
    ) -> Result<(Cells<'a, N>, List<CellSeat<N>>), AllocError>
        requires seats { 0 < seats }
        requires facts { facts.now ≡ N.facts }
        requires longs { longs.now ≡ N.longs }
        requires ceilings { length N.ceilings ≡ cells }
        requires belong { All (Belongs N.facts) N.ceilings }
        ensures cells { IfOk result (λ r. (r.0.cells ≡ cells) × (r.0.seats ≡ seats)) }
        ensures numbers { IfOk result (λ r. map (λ s. s.number) r.1 ≡ range_with_len 0 seats) }
        ensures records { IfOk result (λ r. All (λ s. s.entries ≡ []) r.1) }
        ensures of { IfOk result (λ r. All (λ s. s.of ≡ r.0.id) r.1) }
    {
        let mut list = Vec::with_capacity(alloc, seats as usize)?;
        let (opened, mut first) = Cells::make(alloc, facts, longs, Sizes { cells, seats })?;
        'others: for _ in 1..seats {
            let seat = opened.split(&mut first);
            list.push(CellSeat::of(seat))?;
        }
        list.insert(0, CellSeat::of(first))?;
        Ok((opened, List::from_vec(list)))
    }

    /// What a cell holds now: at least all that the seat has seen there, and at most the cell's
    /// ceiling. It takes no memory and never waits.
    pub fn read(&self, seat: &mut CellSeat<N>, cell: usize) -> Content
        requires seat { seat.old.of ≡ self.now.id }
        requires cell { cell < self.now.cells }
        ensures seat { IsSameSeat seat.old seat.new }
        ensures record { seat.new.entries ≡ Read cell result ∷ seat.old.entries }
        ensures seen { AtMost N.facts (seen N.facts cell seat.old.entries) result }
        ensures ceiling { AtMost N.facts result (at N.ceilings cell) }
        ensures belongs { BelongsTo N.facts N.longs result }
        ensures all { RecordBelongs N.facts N.longs seat.new.entries }
    {
        let word = self.table.shared.load::<Reads<N>>(&mut seat.seat, cell + 1);
        content_of(self.longs, word)
    }

    /// A read that decides a join, where the cell holds all that is asked.
    fn look<A: Asked>(&self, seat: &mut CellSeat<N>, cell: usize, asked: Content) -> Content
        requires asked { asked ≡ A.asked }
        requires belongs { BelongsTo N.facts N.longs asked }
        requires seat { seat.old.of ≡ self.now.id }
        requires cell { cell < self.now.cells }
        ensures seat { IsSameSeat seat.old seat.new }
        ensures record { seat.new.entries ≡ looked N.facts cell asked result seat.old.entries }
        ensures found { IsFound N.facts N.longs (at N.ceilings cell) cell seat.old.entries seat.new.entries result }
    {
        let word = self
            .table
            .shared
            .load::<Looks<N, A>>(&mut seat.seat, cell + 1);
        content_of(self.longs, word)
    }

    /// One exchange of a content for a greater one. What it found, where that was another: then
    /// nothing changed, and what was found is noted as by `look`.
    fn exchange<A: Asked>(
        &self,
        seat: &mut CellSeat<N>,
        cell: usize,
        asked: Content,
        before: Content,
        after: Content,
    ) -> Option<Content>
        requires asked { asked ≡ A.asked }
        requires belongs { BelongsTo N.facts N.longs asked }
        requires seat { seat.old.of ≡ self.now.id }
        requires cell { cell < self.now.cells }
        requires before { BelongsTo N.facts N.longs before }
        requires after { BelongsTo N.facts N.longs after × AtMost N.facts after (at N.ceilings cell) }
        requires up { AtMost N.facts before after × (before ≢ after) }
        ensures seat { IsSameSeat seat.old seat.new }
        ensures won { IfNone result ((seat.new.entries ≡ Join cell asked before after ∷ seat.old.entries) × RecordBelongs N.facts N.longs seat.new.entries) }
        ensures lost { IfSome result (λ found. (found ≢ before) × (seat.new.entries ≡ looked N.facts cell asked found seat.old.entries)) }
        ensures found { IfSome result (λ found. IsFound N.facts N.longs (at N.ceilings cell) cell seat.old.entries seat.new.entries found) }
    {
        let old = code_of(self.longs, before);
        let new = code_of(self.longs, after);
        let found = self
            .table
            .shared
            .compare_exchange::<Joins<N, A>>(&mut seat.seat, cell + 1, old, new);
        if found == old {
            None
        } else {
            Some(content_of(self.longs, found))
        }
    }

    /// Joins a content into a cell, by 71 exchanges at most: each that another thread foils finds a
    /// greater content. It takes no memory and never waits.
    pub fn join(&self, seat: &mut CellSeat<N>, cell: usize, c: Content) -> Joined
        requires seat { seat.old.of ≡ self.now.id }
        requires cell { cell < self.now.cells }
        requires belongs { BelongsTo N.facts N.longs c }
        requires ceiling { AtMost N.facts c (at N.ceilings cell) }
        ensures seat { IsSameSeat seat.old seat.new }
        ensures record { Appends cell c result.before result.after seat.old.entries seat.new.entries }
        ensures seen { AtMost N.facts (seen N.facts cell seat.old.entries) result.before }
        ensures after { result.after ≡ join_of N.facts result.before c }
        ensures raised { MatchBool result.raised (result.before ≢ result.after) (result.before ≡ result.after) }
        ensures ceiling { AtMost N.facts result.after (at N.ceilings cell) }
        ensures belong { BelongsTo N.facts N.longs result.before × BelongsTo N.facts N.longs result.after }
        ensures all { RecordBelongs N.facts N.longs seat.new.entries }
    {
        let mut before = self.look::<Brand>(seat, cell, c);
        'tries: loop {
            if le(self.facts, c, before) {
                return Joined {
                    before,
                    after: before,
                    raised: false,
                };
            }
            let after = join(self.facts, before, c);
            let Some(found) = self.exchange::<Brand>(seat, cell, c, before, after) else {
                return Joined {
                    before,
                    after,
                    raised: true,
                };
            };
            before = found;
        }
    }

    /// The first seat, after all others were joined into it.
    fn gather(&self, seats: List<CellSeat<N>>) -> Seat<u64, View>
        requires numbers { map (λ s. s.number) seats ≡ range_with_len 0 self.now.seats }
        requires of { All (λ s. s.of ≡ self.now.id) seats }
        ensures seat { (result.table_id ≡ self.now.id) × (result.me.0.spent ≡ false) × (result.me.0.number ≡ 0) }
        ensures records { records (parts result.me.0) ≡ map (λ s. s.entries) seats }
        ensures whole { (n : ℕ) → n < self.now.seats → 1 ≤ times n (parts result.me.0) }
    {
        let table = &self.table.shared;
        let mut seats = seats.into_vec();
        let CellSeat {
            seat: mut first,
            of: _,
        } = seats.remove(0);
        'others: for other in seats {
            let CellSeat { seat, of: _ } = other;
            table.join_seat::<Both>(&mut first, seat);
        }
        first
    }

    /// The contents of all cells, one for each, and what the seats did, in the order of their
    /// numbers. `Err` only where memory is refused: it hands everything back as it was.
    pub fn close(
        self,
        seats: List<CellSeat<N>>,
    ) -> Result<(List<Content>, Track), (Cells<'a, N>, List<CellSeat<N>>)>
        requires numbers { map (λ s. s.number) seats ≡ range_with_len 0 self.seats }
        requires of { All (λ s. s.of ≡ self.id) seats }
        ensures refused { IfErr result (λ r. (r.0 ≡ self.entry) × (r.1 ≡ seats)) }
        ensures length { IfOk result (λ r. length r.0 ≡ self.entry.cells) }
        ensures track { IfOk result (λ r. r.1 ≡ map (λ s. s.entries) seats) }
        ensures belong { IfOk result (λ r. All (BelongsTo N.facts N.longs) r.0) }
        ensures ceilings { IfOk result (λ r. (cell : ℕ) → AtMost N.facts (at r.0 cell) (at N.ceilings cell)) }
        ensures seen { IfOk result (λ r. CoversAll N.facts r.1 (at r.0)) }
        ensures settled { IfOk result (λ r. Settled r.1 (at r.0)) }
        ensures all { IfOk result (λ r. RecordsBelong N.facts N.longs r.1) }
    {
        let Ok(mut contents) = Vec::with_capacity(self.alloc, self.sizes.cells) else {
            return Err((self, seats));
        };
        let first = self.gather(seats);
        let of = Snapshot::of(&first);
        let Cells {
            table,
            facts: _,
            longs,
            sizes,
            alloc: _,
        } = self;
        let closed = table.close_with(first);
        take_contents(&closed, longs, sizes.cells, &mut contents);
        closed.free();
        Ok((List::from_vec(contents), Track { of }))
    }
}

/// Reads the content of each cell off the words of a closed table.
fn take_contents(
    closed: &Closed<u64, Global>,
    longs: &Longs,
    cells: usize,
    contents: &mut Vec<Content>,
)
    requires words { (slots_len closed.now.words ≡ suc cells) × IsFull closed.now.words }
    requires room { (contents.old.items ≡ []) × (cells ≤ vec_capacity contents.old) }
    ensures length { length contents.new.items ≡ cells }
    ensures each { (cell : ℕ) → cell < cells → at contents.new.items cell ≡ now_of longs.now (slots_items closed.now.words) cell }
{
    for cell in 0..cells {
        let word = closed.word(cell + 1);
        contents.push_reserved(content_of(longs, word));
    }
}
