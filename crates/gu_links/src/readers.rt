//! Which links read a cell.
ghost use Rattle.std.specs.Prelude.{ℕ, List as ListOf, ◌≡◌, ◌<◌, ◌≤◌, ◌^◌, true, All, IfOk, IfSome, OnOk, Some, length, slice_index};
ghost use Rattle.gu_types.specs.declared.types.HeapType.TheVariants as H;
ghost use Rattle.gu_types.specs.Depth.{types_of};
ghost use Rattle.gu_rec.specs.Sub.{distance};
ghost use Rattle.gu_contents.specs.Contents.{least_of};
ghost use Rattle.gu_links.specs.declared.link.Link.{Link as LinkOf};
ghost use Rattle.gu_links.specs.Cells as numbers;
ghost use Rattle.gu_links.specs.Kept.{has, fixed_once};
ghost use Rattle.gu_links.specs.Index.{CellsAre};
ghost use Rattle.gu_links.specs.Ways.{ReadsSlot, ReadsResult};
ghost use Rattle.gu_links.specs.Listed as listed;

use crate::grouped::{empty_lists, parent};
use crate::index::{Cells, Index, slots_of};
use crate::link::Link;
use gu_contents::Facts;
use gu_types::List;
use std::alloc::{AllocError, Global};

/// The depth of a type below which none is.
const DEEPEST: u32 = 63;

/// Where a link is listed.
#[derive(Clone, Copy, Debug)]
pub(crate) enum Place {
    /// At a cell.
    Cell(usize),
    /// At a type, by its least index.
    Type(u32),
}

/// The least index of the supertype that stands so many above a type, if one does.
fn supertype(f: &Facts, ty: u32, up: u32) -> Option<u32>
    requires { ty < length (types_of f.now.types) }
    ensures value { (above : ℕ) → distance f.now.types (H.Idx above) (H.Idx ty) ≡ Some up → result ≡ Some (least_of f.now.types above) }
    ensures in_range { IfSome result (λ above. above < length (types_of f.now.types)) }
    ensures least { IfSome result (λ above. numbers.is_least f.now.types above ≡ true) }
{
    let mut at = ty;
    'line: for _ in 0..up {
        at = parent(f, at)?;
    }
    Some(f.types.canon(at))
}

/// The function that has a cell for one of its results.
fn result_owner(f: &Facts, cells: &Cells, cell: usize) -> Option<u32>
    requires { CellsAre f.now cells.now }
    ensures value { result ≡ listed.result_owner cells.now cell }
    ensures in_range { IfSome result (λ function. function < length f.now.funcs) }
    ensures type_in_range { IfSome result (λ function. slice_index f.now.funcs function < length (types_of f.now.types)) }
{
    if cell < cells.slot_cells || cells.owners.len() <= cell {
        return None;
    }
    let function = cells.owners[cell];
    if cell < cells.results[function as usize] {
        None
    } else {
        Some(function)
    }
}

/// Where the links are listed that read a cell whatever the cells have. The results of a function
/// whose type has the most supertypes above it have no place of their own.
fn fixed_place(f: &Facts, cells: &Cells, cell: usize) -> Place
    requires { CellsAre f.now cells.now }
    ensures { result ≡ listed.fixed_place f.now cells.now cell }
{
    match result_owner(f, cells, cell) {
        None => Place::Cell(cell),
        Some(function) => {
            let ty = f.funcs.as_slice()[function as usize];
            if f.types.depth(ty) == DEEPEST {
                Place::Type(f.types.canon(ty))
            } else {
                Place::Cell(cell)
            }
        }
    }
}

/// The cell of a slot of a type.
fn slot_place(f: &Facts, cells: &Cells, ty: u32, slot: u32) -> usize
    requires cells { CellsAre f.now cells.now }
    requires few { numbers.own_cells f.now < 2 ^ 64 }
    requires ty { ty < length (types_of f.now.types) }
    requires has { slot < numbers.slots_of f.now.types ty }
    ensures { result ≡ numbers.slot_cell f.now ty slot }
{
    cells.slots[f.types.canon(ty) as usize] + slot as usize
}

/// Where a link is listed that reads the slots or results of the types at or below one.
fn place_below(f: &Facts, cells: &Cells, link: &Link) -> Option<Place>
    requires cells { CellsAre f.now cells.now }
    requires few { numbers.own_cells f.now < 2 ^ 64 }
    requires link { listed.IsBelowType f.now link.now }
    ensures { result ≡ listed.below_place f.now link.now }
{
    match link {
        Link::SlotGet { ty, slot, .. } => Some(Place::Cell(slot_place(f, cells, *ty, *slot))),
        Link::SlotCopy { from_ty, .. } => Some(Place::Cell(slot_place(f, cells, *from_ty, 0))),
        Link::CallBy { ty, .. } => Some(Place::Type(f.types.canon(*ty))),
        _ => None,
    }
}

/// The cell of the same slot of a supertype, if it has the slot.
fn above_slot(f: &Facts, cells: &Cells, cell: usize, up: u32) -> Option<Place>
    requires cells { CellsAre f.now cells.now }
    requires few { numbers.own_cells f.now < 2 ^ 64 }
    requires slot { cell < cells.now.slot_cells }
    ensures value { (ty slot : ℕ) → slot < numbers.slots_of f.now.types ty → ReadsSlot f.now ty slot cell up → result ≡ Some (listed.slot_place f.now ty slot) }
    ensures in_range { IfSome result (listed.IsPlace f.now (numbers.own_cells f.now)) }
{
    let ty = cells.owners[cell];
    let above = supertype(f, ty, up)?;
    let slot = cell - cells.slots[ty as usize];
    if slot < slots_of(f, above) {
        Some(Place::Cell(cells.slots[above as usize] + slot))
    } else {
        None
    }
}

/// The one of the 64 places by way of which links read a cell, if there is one.
pub(crate) fn place_of(f: &Facts, cells: &Cells, cell: usize, up: u32) -> Option<Place>
    requires cells { CellsAre f.now cells.now }
    requires few { numbers.own_cells f.now < 2 ^ 64 }
    ensures fixed { up ≡ 0 → result ≡ Some (listed.fixed_place f.now cells.now cell) }
    ensures slots { (ty slot : ℕ) → slot < numbers.slots_of f.now.types ty → ReadsSlot f.now ty slot cell up → result ≡ Some (listed.slot_place f.now ty slot) }
    ensures results { (links : ListOf LinkOf) (ty : ℕ) → ReadsResult f.now links ty cell up → result ≡ Some (listed.type_place f.now ty) }
    ensures in_range { (count : ℕ) → numbers.own_cells f.now ≤ count → cell < count → IfSome result (listed.IsPlace f.now count) }
{
    if up == 0 {
        return Some(fixed_place(f, cells, cell));
    }
    if cell < cells.slot_cells {
        return above_slot(f, cells, cell, up);
    }
    let function = result_owner(f, cells, cell)?;
    let ty = f.funcs.as_slice()[function as usize];
    let steps = if f.types.depth(ty) == DEEPEST {
        up
    } else {
        up - 1
    };
    Some(Place::Type(supertype(f, ty, steps)?))
}

/// The links by the cells that they read, and those that call by reference by their type.
#[derive(Drop)]
pub(crate) struct Readers {
    pub(crate) at_cells: Vec<List<usize>>,
    pub(crate) at_types: Vec<List<usize>>,
}

impl Readers {
    ghost use Rattle.gu_links.specs.Index.{IsIndexed};
    ghost use Rattle.gu_links.specs.Listed.{listed_at, IsPlace, HasLists, Adds, IsListedAt, CanBeListed, AreListed};

    /// Lists all links. `AllocError` only where memory is refused.
    pub(crate) fn new(
        alloc: Global,
        links: &[Link],
        cells: usize,
        f: &Facts,
        types: u32,
        index: &Index,
    ) -> Result<Readers, AllocError>
        requires types { types ≡ length (types_of f.now.types) }
        requires room { numbers.own_cells f.now ≤ cells }
        requires links { All (CanBeListed f.now cells) links.now }
        requires indexed { IsIndexed f.now links.now index.now }
        ensures { IfOk result (AreListed f.now cells links.now index.now.cells) }
    {
        let mut readers = Readers {
            at_cells: empty_lists(alloc, cells)?,
            at_types: empty_lists(alloc, types as usize)?,
        };
        'links: for (number, link) in links.iter().enumerate() {
            let fixed = index.fixed[number].as_slice();
            readers.list_fixed(f, &index.cells, fixed, number)?;
            readers.list_below(f, &index.cells, link, number)?;
        }
        Ok(readers)
    }

    /// Lists a link at the cells that it reads whatever they have. `AllocError` only where memory is
    /// refused.
    fn list_fixed(
        &mut self,
        f: &Facts,
        cells: &Cells,
        fixed: &[usize],
        number: usize,
    ) -> Result<(), AllocError>
        requires cells { CellsAre f.now cells.now }
        requires lists { HasLists f.now (length self.old.at_cells.items) self.old }
        requires fixed { All (λ c. c < length self.old.at_cells.items) fixed.now }
        ensures adds { OnOk result (Adds number self.old self.new) }
        ensures listed { OnOk result (All (λ c. has (listed_at self.new (listed.fixed_place f.now cells.now c)) number ≡ true) fixed.now) }
    {
        'cells: for cell in fixed {
            self.list(fixed_place(f, cells, *cell), number)?;
        }
        Ok(())
    }

    /// Lists a link at the type below which it reads, or at a slot's cell there. `AllocError` only
    /// where memory is refused.
    fn list_below(
        &mut self,
        f: &Facts,
        cells: &Cells,
        link: &Link,
        number: usize,
    ) -> Result<(), AllocError>
        requires cells { CellsAre f.now cells.now }
        requires lists { HasLists f.now (length self.old.at_cells.items) self.old }
        requires few { numbers.own_cells f.now < 2 ^ 64 }
        requires room { numbers.own_cells f.now ≤ length self.old.at_cells.items }
        requires link { listed.IsBelowType f.now link.now }
        ensures adds { OnOk result (Adds number self.old self.new) }
        ensures listed { OnOk result (IfSome (listed.below_place f.now link.now) (λ place. has (listed_at self.new place) number ≡ true)) }
    {
        match place_below(f, cells, link) {
            None => Ok(()),
            Some(place) => self.list(place, number),
        }
    }

    /// Puts a link's number at the end of the list of a place. `AllocError` only where memory is
    /// refused.
    fn list(&mut self, place: Place, number: usize) -> Result<(), AllocError>
        requires { listed.IsListAt self.old place }
        ensures adds { OnOk result (Adds number self.old self.new) }
        ensures listed { OnOk result (has (listed_at self.new place) number ≡ true) }
    {
        match place {
            Place::Cell(cell) => self.at_cells[cell].push(number),
            Place::Type(ty) => self.at_types[ty as usize].push(number),
        }
    }

    /// The links that are listed at a place.
    pub(crate) fn at(&self, place: Place) -> &[usize]
        requires { listed.IsListAt self.now place }
        ensures { result.now ≡ listed_at self.now place }
    {
        match place {
            Place::Cell(cell) => self.at_cells[cell].as_slice(),
            Place::Type(ty) => self.at_types[ty as usize].as_slice(),
        }
    }
}
