//! The rule of the cells' table, and what each step tells its caller.
ghost use Rattle.std.specs.Prelude.{ℕ, List, []};
ghost use Rattle.gu_contents.specs.declared.content.Content.{Content};
ghost use Rattle.gu_contents.specs.declared.content.Content.TheVariants.{Empty};
ghost use Rattle.gu_contents.specs.declared.facts.Facts.{Facts};
ghost use Rattle.gu_cells.specs.NoFacts.{no_facts};
ghost use Rattle.gu_cells.specs.Rule.{Kept, Reads as Notes, Looks as Decides, Exchanges as Trades, first_view, spent_view, counted, new_seat, both};

use crate::record::View;
use crate::sizes::Sizes;
use atomic_table::{Join, Play, Split, TableRule};
use std::marker::{Brand, PhantomData};

/// What a caller knows of cells and the program need not compute: the facts and the 64-bit literals
/// that the contents belong to, and a content for each cell that it never exceeds. Contracts alone
/// see it. The caller of a function that is generic in it picks it where it calls the function at
/// `std::marker::Brand`.
pub trait Ceilings {
    ghost facts: { Facts };

    ghost longs: { List ℕ };

    ghost ceilings: { List Content };
}

impl Ceilings for Brand {
    ghost facts = { no_facts };

    ghost longs = { [] };

    ghost ceilings = { [] };
}

/// The content that a join asks, for clauses alone.
pub trait Asked {
    ghost asked: { Content };
}

impl Asked for Brand {
    ghost asked = { Empty };
}

/// The rule.
pub struct Order<N: Ceilings>(PhantomData<N>);

impl<N: Ceilings> TableRule<u64, View, Sizes> for Order<N> {
    ghost holds = { λ sizes. Kept N.facts N.longs N.ceilings sizes };

    ghost first = { λ _. first_view };
}

/// A load that reads.
pub struct Reads<N: Ceilings>(PhantomData<N>);

impl<N: Ceilings> Play<u64, View> for Reads<N> {
    ghost then = { Notes N.facts N.longs N.ceilings };
}

/// A load that reads, and may decide a join.
pub struct Looks<N: Ceilings, A: Asked>(PhantomData<(N, A)>);

impl<N: Ceilings, A: Asked> Play<u64, View> for Looks<N, A> {
    ghost then = { Decides N.facts N.longs N.ceilings A.asked };
}

/// An exchange that joins.
pub struct Joins<N: Ceilings, A: Asked>(PhantomData<(N, A)>);

impl<N: Ceilings, A: Asked> Play<u64, View> for Joins<N, A> {
    ghost then = { Trades N.facts N.longs N.ceilings A.asked };
}

/// A seat is split.
pub struct Fork;

impl Split<View> for Fork {
    ghost left = { counted };

    ghost right = { new_seat };
}

/// A seat is joined into another.
pub struct Both;

impl Join<View> for Both {
    ghost both = { both };

    ghost spent = { spent_view };
}
