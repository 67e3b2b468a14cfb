//! Two seats at one cell, on one thread.
ghost use Rattle.std.specs.Prelude.{◌≡◌, [], ◌∷◌, IfOk};
ghost use Rattle.gu_contents.specs.declared.content.Content.TheVariants.{Top};
ghost use Rattle.gu_cells.specs.Views.{IsSameSeat};

use crate::*;
use gu_contents::{Content, Facts, Longs};
use gu_rec::intern;
use gu_types::{List, TypeList};
use std::alloc::Global;
use std::marker::Brand;
use std::process::Abort;
use std::test::Fail;

/// The types of a module without any.
fn no_types(alloc: Global) -> TypeList
    ensures { result.groups ≡ [] }
{
    TypeList {
        groups: List::new(alloc),
    }
}

/// The facts of a module without types.
#[tactic(auto, using(gu_rec::proofs::Lines::few_are_shallow))]
fn facts(alloc: Global, list: &TypeList) -> Result<Facts<'_>, Fail>
    requires { list.now.groups ≡ [] }
{
    let types = intern(alloc, list)?;
    Ok(Facts {
        types,
        funcs: List::new(alloc),
        globals: List::new(alloc),
    })
}

/// What the two seats do at the cell, and what they find.
#[tactic(auto, using(crate::proofs::Topped::below_top))]
fn meet<N: Ceilings>(
    rt: &impl Abort,
    cells: &Cells<N>,
    zero: &mut CellSeat<N>,
    one: &mut CellSeat<N>,
)
    requires cells { cells.now.cells ≡ 1 }
    requires zero { zero.old.of ≡ cells.now.id }
    requires one { one.old.of ≡ cells.now.id }
    requires ceilings { N.ceilings ≡ Top ∷ [] }
    ensures zero { IsSameSeat zero.old zero.new × (zero.new.of ≡ cells.now.id) }
    ensures one { IsSameSeat one.old one.new × (one.new.of ≡ cells.now.id) }
{
    let first = cells.join(zero, 0, Content::I32(7));
    let wanted = Joined {
        before: Content::Empty,
        after: Content::I32(7),
        raised: true,
    };
    assert_eq!(rt; first, wanted);
    let found = cells.read(one, 0);
    assert_eq!(rt; found, Content::I32(7));
    let second = cells.join(one, 0, Content::I32(8));
    let wanted = Joined {
        before: Content::I32(7),
        after: Content::Many,
        raised: true,
    };
    assert_eq!(rt; second, wanted);
    let third = cells.join(zero, 0, Content::I32(9));
    let wanted = Joined {
        before: Content::Many,
        after: Content::Many,
        raised: false,
    };
    assert_eq!(rt; third, wanted);
}

/// Opens a cell with two seats, lets them meet, and closes it.
fn open_meet_close<N: Ceilings>(
    rt: &impl Abort,
    alloc: Global,
    facts: &Facts,
    longs: &Longs,
) -> Result<(), Fail>
    requires facts { facts.now ≡ N.facts }
    requires longs { longs.now ≡ N.longs }
    requires ceilings { N.ceilings ≡ Top ∷ [] }
{
    let (cells, mut seats) = Cells::<N>::open(alloc, facts, longs, 1, 2)?;
    let mut one = seats.pop().ok_or("no seat")?;
    let mut zero = seats.pop().ok_or("no seat")?;
    meet(rt, &cells, &mut zero, &mut one);
    seats.push(zero)?;
    seats.push(one)?;
    let (contents, _track) = cells.close(seats).ok().ok_or("no memory")?;
    assert_eq!(rt; contents.as_slice(), [Content::Many].as_slice());
    Ok(())
}

#[test]
fn two_seats_meet_at_a_cell(rt: HostRuntime) -> Result<(), Fail> {
    let list = no_types(rt.alloc());
    let facts = facts(rt.alloc(), &list)?;
    let longs = Longs::new(rt.alloc())?;
    open_meet_close::<Brand>(&rt, rt.alloc(), &facts, &longs)
}
