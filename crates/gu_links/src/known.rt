//! What is known of some cells.
ghost use Rattle.std.specs.Prelude.{◌≡◌, All, Contains};
ghost use Rattle.gu_contents.specs.declared.facts.Facts.{Facts};
ghost use Rattle.gu_contents.specs.Belongs.{Belongs};
ghost use Rattle.gu_links.specs.Gives.{Contents};
ghost use Rattle.gu_links.specs.Known.{Has, Item, cells_of};
ghost use Rattle.gu_links.specs.Kept.{has};

use gu_contents::Content;

/// What is known of a cell: `Empty` where nothing is. It is looked for at one place first, so that
/// cells that are asked for in the order in which they are known cost nothing to find.
pub(crate) fn content_at(known: &[(usize, Content)], near: usize, cell: usize) -> Content
    ensures value { (x : Contents) → Has known.now x → Contains (cells_of known.now) cell → result ≡ x cell }
    ensures belongs { (f : Facts) → All (λ (k : Item). Belongs f k.1) known.now → Belongs f result }
{
    if near < known.len() {
        let (there, a) = known[near];
        if there == cell {
            return a;
        }
    }
    search(known, cell)
}

/// What is known of a cell, looked for from the first on.
fn search(known: &[(usize, Content)], cell: usize) -> Content
    ensures value { (x : Contents) → Has known.now x → Contains (cells_of known.now) cell → result ≡ x cell }
    ensures belongs { (f : Facts) → All (λ (k : Item). Belongs f k.1) known.now → Belongs f result }
{
    'cells: for (other, a) in known {
        if *other == cell {
            return *a;
        }
    }
    Content::Empty
}

/// Whether a cell is in a list.
pub(crate) fn has_cell(cells: &[usize], cell: usize) -> bool
    ensures { result ≡ has cells.now cell }
{
    cells.contains(&cell)
}
