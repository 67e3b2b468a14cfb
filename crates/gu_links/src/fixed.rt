//! The cells on which a link rests whatever they have.
ghost use Rattle.std.specs.Prelude.{◌≡◌, [], ◌∷◌, ◌++◌, IfOk, OnOk, if◌then◌else◌};
ghost use Rattle.gu_links.specs.Kept.{has, once_onto, fixed_once};

use crate::known::has_cell;
use crate::link::Link;
use gu_types::List;
use std::alloc::{AllocError, Global};

/// One cell.
fn one(alloc: Global, cell: usize) -> Result<List<usize>, AllocError>
    ensures { IfOk result (λ cells. cells ≡ cell ∷ []) }
{
    let mut cells = List::new(alloc);
    cells.push(cell)?;
    Ok(cells)
}

/// Puts a cell at the end where it is not in the list.
fn add(cells: &mut List<usize>, cell: usize) -> Result<(), AllocError>
    ensures { OnOk result (cells.new ≡ (if has cells.old cell then cells.old else cells.old ++ cell ∷ [])) }
{
    if has_cell(cells.as_slice(), cell) {
        return Ok(());
    }
    cells.push(cell)
}

/// A cell and others, each once.
fn with(alloc: Global, first: usize, others: &[usize]) -> Result<List<usize>, AllocError>
    ensures { IfOk result (λ cells. cells ≡ once_onto (first ∷ []) others.now) }
{
    let mut cells = one(alloc, first)?;
    'cells: for cell in others {
        add(&mut cells, *cell)?;
    }
    Ok(cells)
}

/// The cells on which a link rests whatever they have, each once, in the order in which they come
/// first. `AllocError` only where memory is refused.
#[tactic(auto, unfolding(crate::specs::Kept::fixed_once))]
pub(crate) fn fixed_cells(alloc: Global, link: &Link) -> Result<List<usize>, AllocError>
    ensures { IfOk result (λ cells. cells ≡ fixed_once link.now) }
{
    match link {
        Link::Root { .. } => Ok(List::new(alloc)),
        Link::Copy { from, .. } => one(alloc, *from),
        Link::NonNull { from, .. } => one(alloc, *from),
        Link::Filter { from, .. } => one(alloc, *from),
        Link::Minus { from, .. } => one(alloc, *from),
        Link::Test { from, .. } => one(alloc, *from),
        Link::IsNull { from, .. } => one(alloc, *from),
        Link::Equal { left, right, .. } => with(alloc, *left, &[*right]),
        Link::Pack { from, .. } => one(alloc, *from),
        Link::SlotGet { object, .. } => one(alloc, *object),
        Link::SlotSet { object, from, .. } => with(alloc, *object, &[*from]),
        Link::SlotFill { object, .. } => one(alloc, *object),
        Link::SlotCopy { target, source, .. } => with(alloc, *target, &[*source]),
        Link::CallBy {
            callee,
            operands,
            ..
        } => with(alloc, *callee, operands.as_slice()),
        Link::Internalise { from, .. } => one(alloc, *from),
        Link::Externalise { from, .. } => one(alloc, *from),
        Link::Callable { .. } => Ok(List::new(alloc)),
    }
}
