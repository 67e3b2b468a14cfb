//! Seats, from which a thread reads and joins cells, and the track that they leave.
ghost use Rattle.std.specs.Prelude.{◌≡◌};
ghost use Rattle.gu_cells.specs.Views.{seat_view};
ghost use Rattle.gu_cells.specs.Rule.{IsOwnSeat};

use crate::record::View;
use crate::rule::Ceilings;
use atomic_table::Seat;
use std::marker::{Model, PhantomData};
use std::snapshot::Snapshot;

/// A place from which one thread at a time reads and joins cells. It has a number and a record of
/// what it read and joined, which contracts alone see. It belongs to the cells that
/// [`open`](crate::Cells::open) gave with it.
#[derive(Drop)]
pub struct CellSeat<N: Ceilings> {
    pub(crate) seat: Seat<u64, View>,
    pub(crate) of: PhantomData<N>,
}

impl<N: Ceilings> Model for CellSeat<N> {
    ghost use Rattle.gu_cells.specs.Views.{SeatView, seat_view};
    ghost use Rattle.gu_cells.specs.Rule.{IsOwnSeat};

    ghost Value = { SeatView };

    ghost view = { λ s. seat_view s.seat.table_id s.seat.me.0.number s.seat.me.0.own };

    ghost invariant = { λ s. IsOwnSeat N.facts N.longs s.seat.me.0 s.seat.me.1 };
}

impl<N: Ceilings> CellSeat<N> {
    /// A seat of a table that did nothing yet.
    pub(crate) fn of(seat: Seat<u64, View>) -> CellSeat<N>
        requires { IsOwnSeat N.facts N.longs seat.me.0 seat.me.1 }
        ensures { result ≡ seat_view seat.table_id seat.me.0.number seat.me.0.own }
    {
        CellSeat {
            seat,
            of: PhantomData,
        }
    }
}

/// What all seats of cells did, seat by seat, in the order of their numbers. Contracts alone see
/// it: a program can read nothing of it, and it takes no memory. Only
/// [`close`](crate::Cells::close) makes one.
#[derive(Drop)]
pub struct Track {
    pub(crate) of: Snapshot<Seat<u64, View>>,
}

impl Model for Track {
    ghost use Rattle.std.specs.Prelude.{List};
    ghost use Rattle.gu_cells.specs.declared.record.Entry.{Entry};
    ghost use Rattle.gu_cells.specs.Rule.{records, parts};

    ghost Value = { List (List Entry) };

    ghost view = { λ t. records (parts t.of.value.me.0) };
}
