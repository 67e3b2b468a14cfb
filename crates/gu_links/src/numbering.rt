//! The numbers of the cells of slots, parameters and results.
ghost use Rattle.std.specs.Prelude.{ℕ, ◌≡◌, ◌+◌, ◌<◌, Some, IfOk, IfSome, length, slice_get, slice_index};
ghost use Rattle.gu_types.specs.Depth.{types_of};
ghost use Rattle.gu_contents.specs.Contents.{least_of};
ghost use Rattle.gu_links.specs.Cells as cells;

use crate::index::{own_slots, params_of, results_of, type_count};
use gu_contents::Facts;
use std::alloc::{AllocError, Global};

/// A sum of counts of cells. `AllocError` where a `usize` does not count as many: there is no memory
/// for them.
fn sum(count: usize, more: usize) -> Result<usize, AllocError>
    ensures { IfOk result (λ sum. sum ≡ count + more) }
{
    match count.checked_add(more) {
        Some(sum) => Ok(sum),
        None => Err(AllocError),
    }
}

/// Where the cells of each type or function begin, and where those of the last one end.
#[derive(Drop)]
struct Starts {
    starts: Vec<usize>,
    end: usize,
}

/// Where the cells of the slots of each type begin. `AllocError` where memory is refused, or where
/// there are more cells than a `usize` counts.
fn slot_starts(alloc: Global, facts: &Facts) -> Result<Starts, AllocError>
    ensures long { IfOk result (λ s. length s.starts.items ≡ length (types_of facts.now.types)) }
    ensures starts { IfOk result (λ s. (k : ℕ) → k < length s.starts.items → slice_index s.starts.items k ≡ cells.slots_before facts.now k) }
    ensures end { IfOk result (λ s. s.end ≡ cells.slots_before facts.now (length (types_of facts.now.types))) }
{
    let types = type_count(facts)?;
    let mut starts = Vec::new(alloc);
    let mut end: usize = 0;
    'types: for ty in 0..types {
        starts.push(end)?;
        end = sum(end, own_slots(facts, ty))?;
    }
    Ok(Starts { starts, end })
}

/// Where the cells of the parameters of each function begin, from `first` on. `AllocError` where
/// memory is refused, or where there are more cells than a `usize` counts.
fn func_starts(alloc: Global, facts: &Facts, first: usize) -> Result<Starts, AllocError>
    requires first { first ≡ cells.slots_before facts.now (length (types_of facts.now.types)) }
    ensures long { IfOk result (λ s. length s.starts.items ≡ length facts.now.funcs) }
    ensures starts { IfOk result (λ s. (k : ℕ) → k < length s.starts.items → slice_index s.starts.items k ≡ cells.before_func facts.now k) }
    ensures end { IfOk result (λ s. s.end ≡ cells.own_cells facts.now) }
{
    let mut starts = Vec::new(alloc);
    let mut end = first;
    let types = facts.funcs.as_slice();
    for func in 0..types.len() {
        starts.push(end)?;
        let params = sum(end, params_of(facts, types[func]))?;
        end = sum(params, results_of(facts, types[func]))?;
    }
    Ok(Starts { starts, end })
}

/// The numbers of the cells that facts tell: of slots, of parameters and of results.
#[derive(Drop)]
pub struct Numbering<'a> {
    /// The facts.
    pub facts: &'a Facts<'a>,
    slots: Vec<usize>,
    funcs: Vec<usize>,
    own: usize,
    ghost slots_long: { length slots.items ≡ length (types_of facts.now.types) },
    ghost slots_are: { (k : ℕ) → k < length slots.items → slice_index slots.items k ≡ cells.slots_before facts.now k },
    ghost funcs_long: { length funcs.items ≡ length facts.now.funcs },
    ghost funcs_are: { (k : ℕ) → k < length funcs.items → slice_index funcs.items k ≡ cells.before_func facts.now k },
    ghost own_is: { own ≡ cells.own_cells facts.now },
}

impl<'a> Numbering<'a> {
    /// The numbers of the cells of facts. `AllocError` where memory is refused, or where there are
    /// more cells than a `usize` counts.
    pub fn new(alloc: Global, facts: &'a Facts<'a>) -> Result<Numbering<'a>, AllocError>
        ensures { IfOk result (λ numbering. numbering.facts.now ≡ facts.now) }
    {
        let slots = slot_starts(alloc, facts)?;
        let funcs = func_starts(alloc, facts, slots.end)?;
        Ok(Numbering {
            facts,
            slots: slots.starts,
            funcs: funcs.starts,
            own: funcs.end,
        })
    }

    /// How many cells these are. They are the first ones.
    pub fn own_cells(&self) -> usize
        ensures { result ≡ cells.own_cells self.now.facts.now }
    {
        self.own
    }

    /// The cell of a slot of a type: of a field of a structure, or of the elements of an array,
    /// which are slot 0. Indices of the same type share the cells of the least one.
    pub fn slot(&self, ty: u32, slot: u32) -> usize
        requires in_range { ty < length (types_of self.now.facts.now.types) }
        requires has_slot { slot < cells.slots_of self.now.facts.now.types (least_of self.now.facts.now.types ty) }
        ensures cell { result ≡ cells.slot_cell self.now.facts.now ty slot }
        ensures within { result < cells.own_cells self.now.facts.now }
    {
        let least = self.facts.types.canon(ty);
        self.slots[least as usize] + slot as usize
    }

    /// The cell of a parameter of a function.
    pub fn param(&self, func: u32, index: u32) -> usize
        requires in_range { func < length self.now.facts.now.funcs }
        requires has_param { index < cells.params_of self.now.facts.now func }
        ensures cell { result ≡ cells.param_cell self.now.facts.now func index }
        ensures within { result < cells.own_cells self.now.facts.now }
    {
        self.funcs[func as usize] + index as usize
    }

    /// The cell of a result of a function.
    pub fn out(&self, func: u32, index: u32) -> usize
        requires in_range { func < length self.now.facts.now.funcs }
        requires has_result { index < cells.results_of self.now.facts.now func }
        ensures cell { result ≡ cells.out_cell self.now.facts.now func index }
        ensures within { result < cells.own_cells self.now.facts.now }
    {
        let types = self.facts.funcs.as_slice();
        let params = params_of(self.facts, types[func as usize]);
        self.funcs[func as usize] + (params + index as usize)
    }
}
