//! Whether links make a system.
ghost use Rattle.std.specs.Prelude.{◌≡◌, ◌<◌, ℕ, List, true, All, IfOk};
ghost use Rattle.gu_contents.specs.Belongs.{IsCone};
ghost use Rattle.gu_types.specs.declared.types.HeapType.TheVariants.{Idx};
ghost use Rattle.gu_links.specs.Cells.{slots_of};
ghost use Rattle.gu_links.specs.Solutions.{Fits, IsOf, IsSystem, IsType};

use gu_contents::{Content, Core, Facts};
use gu_links::{Link, Numbering};
use gu_types::{Comp, HeapType};
use std::alloc::{AllocError, Global};

/// Whether links of the kinds that this program makes are a system of so many cells. `AllocError`
/// where memory is refused, or where there are more cells than a `usize` counts.
pub fn is_system(
    alloc: Global,
    facts: &Facts,
    cells: usize,
    links: &[Link],
) -> Result<bool, AllocError>
    ensures { IfOk result (λ yes. yes ≡ true → (longs : List ℕ) → IsSystem facts.now longs cells links.now) }
{
    let numbering = Numbering::new(alloc, facts)?;
    if cells < numbering.own_cells() {
        return Ok(false);
    }
    Ok(all_fit(facts, cells, links))
}

/// Whether all links are of a kind that this program makes, and fit a system of so many cells.
fn all_fit(facts: &Facts, cells: usize, links: &[Link]) -> bool
    ensures { result ≡ true → (longs : List ℕ) → All (Fits facts.now longs cells) links.now }
{
    'links: for link in links {
        if !fits(facts, cells, link) {
            return false;
        }
    }
    true
}

/// Whether a link is of a kind that this program makes, and fits a system of so many cells.
fn fits(facts: &Facts, cells: usize, link: &Link) -> bool
    ensures { result ≡ true → (longs : List ℕ) → Fits facts.now longs cells link.now }
{
    match link {
        Link::Root { give, to } => is_given(facts, *give) && *to < cells,
        Link::Copy { from, to } => *from < cells && *to < cells,
        Link::SlotGet {
            object,
            ty,
            slot,
            to,
            ..
        } => *object < cells && *to < cells && has_slot(facts, *ty, *slot),
        Link::SlotSet {
            object,
            ty,
            from,
            ..
        } => *object < cells && *from < cells && has_slot(facts, *ty, 0),
        _ => false,
    }
}

/// Whether a content is one number of 32 bits, all values, or references to a cone of the types.
fn is_given(facts: &Facts, give: Content) -> bool
    ensures { result ≡ true → (longs : List ℕ) → IsOf facts.now longs give }
{
    match give {
        Content::I32(_) | Content::Top => true,
        Content::Ref(false, Core::Cone(HeapType::Idx(head), depth)) => is_cone(facts, head, depth),
        _ => false,
    }
}

/// Whether an index is the least of its type, and classes stand so many edges below that.
fn is_cone(facts: &Facts, head: u32, depth: u32) -> bool
    ensures { result ≡ true → IsCone facts.now (Idx head) depth }
{
    if facts.types.get(head).is_none() {
        return false;
    }
    if facts.types.canon(head) != head {
        return false;
    }
    depth <= facts.types.height(HeapType::Idx(head))
}

/// Whether there is a structure type with an index that has a field.
fn has_slot(facts: &Facts, ty: u32, slot: u32) -> bool
    ensures ty { result ≡ true → IsType facts.now ty }
    ensures slot { result ≡ true → slot < slots_of facts.now.types ty }
{
    let Some(class) = facts.types.get(ty) else {
        return false;
    };
    match &class.comp {
        Comp::Struct(fields) => (slot as usize) < fields.as_slice().len(),
        _ => false,
    }
}
