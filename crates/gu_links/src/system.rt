//! Systems of links.
ghost use Rattle.std.specs.Prelude.{ℕ, ◌≡◌, ◌≤◌, ◌^◌, true, ◌&&◌, ◌<◌, Some, length, slice_index, MatchOption};
ghost use Rattle.std.specs.List.{list_any};
ghost use Rattle.std.proofs.Props.{props};
ghost use Rattle.gu_types.specs.Depth.{types_of};
ghost use Rattle.gu_contents.specs.Belongs.{IsFunc};
ghost use Rattle.gu_links.specs.Cells as numbers;
ghost use Rattle.gu_links.specs.Over.{has_slot, names};
ghost use Rattle.gu_links.specs.Kept.{candidates, functions_below, in_reach};
ghost use Rattle.gu_links.specs.Solutions.{IsSystem};
ghost use Rattle.gu_links.specs.Index.{IsIndexed, IsHead};
ghost use Rattle.gu_links.specs.Listed.{AreListed};
ghost use Rattle.gu_links.specs.Next as next;

use crate::index::{Index, slots_of, type_count};
use crate::link::Link;
use crate::reach::Reach;
use crate::readers::{Readers, place_of};
use gu_contents::{Facts, Longs};
use gu_types::List;
use std::alloc::{AllocError, Global};
use std::slice;

/// Links between so many cells, over the facts of a module and a list of 64-bit literals, which
/// make a system of these. A link's number is its place among the links.
#[derive(Drop)]
pub struct System<'a> {
    /// The links.
    pub links: List<Link>,
    /// How many cells there are.
    pub cells: usize,
    /// What is known of the module.
    pub facts: &'a Facts<'a>,
    /// The 64-bit literals.
    pub longs: Longs,
    pub(crate) index: Index,
    pub(crate) readers: Readers,
    pub ghost system: { ∥ IsSystem facts.now longs cells links ∥₁ },
    ghost few: { numbers.own_cells facts.now < 2 ^ 64 },
    ghost indexed: { IsIndexed facts.now links index } by { Prim.hlevel props },
    ghost listed: { AreListed facts.now cells links index.cells readers } by { Prim.hlevel props },
}

impl<'a> System<'a> {
    ghost use Rattle.std.specs.Prelude.{All, Contains, IfOk, ℕ as Number};
    ghost use Rattle.gu_links.specs.Known.{link_at};
    ghost use Rattle.gu_links.specs.Ways.{IsReadBy};

    /// The system of its arguments. `AllocError` where memory is refused, or where there are 2^32
    /// types or functions or more.
    pub fn new(
        alloc: Global,
        links: List<Link>,
        cells: usize,
        facts: &'a Facts<'a>,
        longs: Longs,
    ) -> Result<System<'a>, AllocError>
        requires { IsSystem facts.now longs cells links }
        ensures links { IfOk result (λ s. s.links ≡ links) }
        ensures cells { IfOk result (λ s. s.cells ≡ cells) }
        ensures facts { IfOk result (λ s. s.facts.now ≡ facts.now) }
        ensures longs { IfOk result (λ s. s.longs ≡ longs) }
    {
        let types = type_count(facts)?;
        let index = Index::new(alloc, links.as_slice(), facts, types)?;
        let readers = Readers::new(alloc, links.as_slice(), cells, facts, types, &index)?;
        Ok(System {
            links,
            cells,
            facts,
            longs,
            index,
            readers,
        })
    }

    /// Numbers of links, among them those of all that read a cell in one of 64 ways. So all that
    /// read it are in the 64 answers together. The first way, 0, has the links that read the cell by
    /// its number. For the slot of a type, each way has those that go over the types at or below the
    /// one that stands `up` declared supertypes above. For the result of a function, each way but
    /// the first has the calls by reference at the type `up - 1` supertypes above the function's
    /// own; where 63 supertypes stand above that, no way is left for it, so the first way has the
    /// calls at it too, and each other those `up` supertypes above.
    pub fn readers(&self, cell: usize, up: u32) -> &[usize]
        requires { up ≤ 63 }
        ensures below { All (λ k. k < length self.now.links) result.now }
        ensures found { (k : Number) → k < length self.now.links → IsReadBy self.now.facts.now self.now.links cell up (link_at self.now.links k) → Contains result.now k }
    {
        if self.cells <= cell {
            return &[];
        }
        match place_of(self.facts, &self.index.cells, cell, up) {
            None => &[],
            Some(place) => self.readers.at(place),
        }
    }

    /// The types among which those of a reach are, each by its least index, in the order of these:
    /// all at or below the head, or the head alone where the reach is not deeper.
    pub(crate) fn types<'s>(&'s self, reach: &'s Reach) -> &'s [u32]
        requires { IsHead self.now.facts.now reach.now }
        ensures { result.now ≡ candidates self.now.facts.now reach.now }
    {
        if reach.depth == 0 {
            slice::from_ref(&reach.head)
        } else {
            self.index.below.types[reach.head as usize].as_slice()
        }
    }

    /// The functions that can be called by reference and whose type is at or below the head of a
    /// reach, in the order of their indices.
    pub(crate) fn functions(&self, reach: Reach) -> &[u32]
        requires { IsHead self.now.facts.now reach }
        ensures { result.now ≡ functions_below self.now.facts.now self.now.links reach.head }
    {
        self.index.below.functions[reach.head as usize].as_slice()
    }

    /// Whether a function can be called by reference.
    pub(crate) fn is_callable(&self, function: u32) -> bool
        requires { function < length self.now.facts.now.funcs }
        ensures { result ≡ list_any (names function) self.now.links }
    {
        self.index.below.callable[function as usize]
    }

    /// The cell of a slot of a type, by its least index.
    pub(crate) fn slot_cell(&self, ty: u32, slot: u32) -> usize
        requires ty { ty < length (types_of self.now.facts.now.types) }
        requires least { numbers.is_least self.now.facts.now.types ty ≡ true }
        requires has { has_slot self.now.facts.now slot ty ≡ true }
        ensures { result ≡ numbers.slot_cell self.now.facts.now ty slot }
    {
        self.index.cells.slots[ty as usize] + slot as usize
    }

    /// The cell of a parameter of a function.
    pub(crate) fn param_cell(&self, function: u32, place: usize) -> usize
        requires function { function < length self.now.facts.now.funcs }
        requires place { place < numbers.params_of self.now.facts.now function }
        ensures { result ≡ numbers.param_cell self.now.facts.now function place }
    {
        self.index.cells.params[function as usize] + place
    }

    /// The cell of a result of a function.
    pub(crate) fn out_cell(&self, function: u32, place: usize) -> usize
        requires function { function < length self.now.facts.now.funcs }
        requires place { place < numbers.results_of self.now.facts.now function }
        ensures { result ≡ numbers.out_cell self.now.facts.now function place }
    {
        self.index.cells.results[function as usize] + place
    }

    /// The type of a function.
    pub(crate) fn type_of(&self, function: u32) -> u32
        requires { IsFunc self.now.facts.now function }
        ensures value { result ≡ slice_index self.now.facts.now.funcs function }
        ensures in_range { result < length (types_of self.now.facts.now.types) }
    {
        let funcs = self.facts.funcs.as_slice();
        funcs[function as usize]
    }

    /// Whether a type is in a reach and has a slot.
    pub(crate) fn is_over(&self, reach: Reach, slot: u32, ty: u32) -> bool
        requires head { IsHead self.now.facts.now reach }
        requires ty { ty < length (types_of self.now.facts.now.types) }
        ensures { result ≡ (has_slot self.now.facts.now slot ty && in_reach self.now.facts.now (Some reach) ty) }
    {
        (slot as usize) < slots_of(self.facts, ty) && reach.covers(self.facts, ty)
    }

    /// The type that has a cell for one of its slots: the slots of all types before it have cells
    /// before this one. None where no type has it, and the cells of all slots stand before it.
    pub(crate) fn type_with(&self, cell: usize) -> Option<u32>
        ensures { MatchOption result (next.SlotsBefore self.now.facts.now cell (length (types_of self.now.facts.now.types))) (next.SlotsBefore self.now.facts.now cell) }
    {
        if cell < self.index.cells.slot_cells {
            Some(self.index.cells.owners[cell])
        } else {
            None
        }
    }

    /// The first function that has a cell or one behind it: the results of all functions before it
    /// have cells before this one. None where there is none, and so do the results of all functions.
    pub(crate) fn function_from(&self, cell: usize) -> Option<u32>
        ensures { MatchOption result (next.ResultsBefore self.now.facts.now cell (length self.now.facts.now.funcs)) (next.ResultsBefore self.now.facts.now cell) }
    {
        if cell < self.index.cells.slot_cells {
            Some(0)
        } else if cell < self.index.cells.owners.len() {
            Some(self.index.cells.owners[cell])
        } else {
            None
        }
    }
}
