//! The work of one link: what it asks for is joined, and the readers of each cell that rises are
//! left.
ghost use Rattle.std.specs.Prelude.{◌≡◌, ◌<◌, ◌≤◌, ◌∷◌, [], All, IfOk, OnOk, length};
ghost use Rattle.gu_links.specs.Gives.{gives};
ghost use Rattle.gu_links.specs.Solutions.{at};
ghost use Rattle.gu_links.specs.Known.{link_at, Has, IsKnown, IsEnough};
ghost use Rattle.gu_worklist.specs.Left.{IsLeftOf, Keeps};
ghost use Rattle.gu_solve.specs.Steps.{IsOnTheWay, IsDue, Rises, weight};

use gu_contents::{Content, join, le};
use gu_links::{System, apply};
use gu_types::List;
use gu_worklist::{Left, add_readers};
use std::alloc::{AllocError, Global};

/// The contents of all cells on which a link rests. `AllocError` only where memory is refused.
fn look_up(
    alloc: Global,
    s: &System<'_>,
    contents: &[Content],
    link: usize,
) -> Result<Vec<(usize, Content)>, AllocError>
    requires contents { IsOnTheWay s.now.facts.now s.now.longs s.now.cells s.now.links contents.now }
    requires link { link < length s.now.links }
    ensures has { IfOk result (λ known. Has known.items (at contents.now)) }
    ensures known { IfOk result (λ known. IsKnown s.now.facts.now s.now.longs s.now.links (link_at s.now.links link) known.items) }
    ensures enough { IfOk result (λ known. IsEnough s.now.facts.now s.now.links (link_at s.now.links link) known.items) }
{
    let mut known = Vec::new(alloc);
    'reads: while let Some(cell) = s.next_read(link, known.as_slice()) {
        let content = contents[cell];
        known.push((cell, content))?;
    }
    Ok(known)
}

/// What a link asks for on the contents. `AllocError` only where memory is refused.
fn ask(
    alloc: Global,
    s: &System<'_>,
    contents: &[Content],
    link: usize,
) -> Result<List<(usize, Content)>, AllocError>
    requires contents { IsOnTheWay s.now.facts.now s.now.longs s.now.cells s.now.links contents.now }
    requires link { link < length s.now.links }
    ensures gives { IfOk result (λ asked. asked ≡ gives s.now.facts.now s.now.links (link_at s.now.links link) (at contents.now)) }
    ensures due { IfOk result (λ asked. All (IsDue s.now.facts.now s.now.longs s.now.cells s.now.links) asked) }
{
    let known = look_up(alloc, s, contents, link)?;
    apply(alloc, s, link, known.as_slice())
}

/// Joins a content into a cell, and leaves the readers of the cell if it rose. `AllocError` only
/// where memory is refused.
fn raise(
    s: &System<'_>,
    contents: &mut Vec<Content>,
    cell: usize,
    content: Content,
    left: &mut Left,
) -> Result<(), AllocError>
    requires contents { IsOnTheWay s.now.facts.now s.now.longs s.now.cells s.now.links contents.old.items }
    requires due { IsDue s.now.facts.now s.now.longs s.now.cells s.now.links (cell, content) }
    requires left { IsLeftOf (length s.now.links) left.old }
    ensures contents { OnOk result (IsOnTheWay s.now.facts.now s.now.longs s.now.cells s.now.links contents.new.items) }
    ensures left { OnOk result (IsLeftOf (length s.now.links) left.new) }
    ensures keeps { OnOk result (Keeps left.old.waiting left.new.waiting) }
    ensures rises { OnOk result (Rises s.now.facts.now s.now.links left.new.waiting ((cell, content) ∷ []) (at contents.old.items) (at contents.new.items)) }
    ensures weight { OnOk result (weight s.now.cells (length s.now.links) (at contents.new.items) (length left.new.waiting) ≤ weight s.now.cells (length s.now.links) (at contents.old.items) (length left.old.waiting)) }
{
    let before = contents[cell];
    if le(s.facts, content, before) {
        return Ok(());
    }
    contents[cell] = join(s.facts, before, content);
    add_readers(s, cell, left)
}

/// Makes all joins of a list. `AllocError` only where memory is refused.
fn raise_all(
    s: &System<'_>,
    contents: &mut Vec<Content>,
    asked: &[(usize, Content)],
    left: &mut Left,
) -> Result<(), AllocError>
    requires contents { IsOnTheWay s.now.facts.now s.now.longs s.now.cells s.now.links contents.old.items }
    requires due { All (IsDue s.now.facts.now s.now.longs s.now.cells s.now.links) asked.now }
    requires left { IsLeftOf (length s.now.links) left.old }
    ensures contents { OnOk result (IsOnTheWay s.now.facts.now s.now.longs s.now.cells s.now.links contents.new.items) }
    ensures left { OnOk result (IsLeftOf (length s.now.links) left.new) }
    ensures keeps { OnOk result (Keeps left.old.waiting left.new.waiting) }
    ensures rises { OnOk result (Rises s.now.facts.now s.now.links left.new.waiting asked.now (at contents.old.items) (at contents.new.items)) }
    ensures weight { OnOk result (weight s.now.cells (length s.now.links) (at contents.new.items) (length left.new.waiting) ≤ weight s.now.cells (length s.now.links) (at contents.old.items) (length left.old.waiting)) }
{
    'joins: for (cell, content) in asked {
        raise(s, contents, *cell, *content, left)?;
    }
    Ok(())
}

/// Joins all that a link asks for, and leaves the readers of each cell that rose. `AllocError` only
/// where memory is refused.
pub(crate) fn step(
    alloc: Global,
    s: &System<'_>,
    contents: &mut Vec<Content>,
    link: usize,
    left: &mut Left,
) -> Result<(), AllocError>
    requires contents { IsOnTheWay s.now.facts.now s.now.longs s.now.cells s.now.links contents.old.items }
    requires link { link < length s.now.links }
    requires left { IsLeftOf (length s.now.links) left.old }
    ensures contents { OnOk result (IsOnTheWay s.now.facts.now s.now.longs s.now.cells s.now.links contents.new.items) }
    ensures left { OnOk result (IsLeftOf (length s.now.links) left.new) }
    ensures keeps { OnOk result (Keeps left.old.waiting left.new.waiting) }
    ensures rises { OnOk result (Rises s.now.facts.now s.now.links left.new.waiting (gives s.now.facts.now s.now.links (link_at s.now.links link) (at contents.old.items)) (at contents.old.items) (at contents.new.items)) }
    ensures weight { OnOk result (weight s.now.cells (length s.now.links) (at contents.new.items) (length left.new.waiting) ≤ weight s.now.cells (length s.now.links) (at contents.old.items) (length left.old.waiting)) }
{
    let asked = ask(alloc, s, contents.as_slice(), link)?;
    raise_all(s, contents, asked.as_slice(), left)
}
