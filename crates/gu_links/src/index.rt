//! What a system keeps besides its links: which types and functions stand below a type, where the
//! cells of types and functions begin, on which cells a link rests whatever they have, and which
//! links read a cell.
ghost use Rattle.std.specs.Prelude.{ℕ, ◌≡◌, ◌<◌, ◌++◌, IfOk, OnOk, length, map, replicate, slice_get, slice_index_or, true, false};
ghost use Rattle.std.specs.List.{list_any};
ghost use Rattle.gu_types.specs.Depth.{types_of};
ghost use Rattle.gu_contents.specs.Belongs.{IsFunc};
ghost use Rattle.gu_rec.specs.Keys.{run};
ghost use Rattle.gu_links.specs.Over.{names};
ghost use Rattle.gu_links.specs.Index.{owned};
ghost use Rattle.gu_links.specs.Cells as numbers;

use crate::fixed::fixed_cells;
use crate::grouped::{Typed, callable_functions, least_types, listed_below};
use crate::link::Link;
use gu_contents::Facts;
use gu_types::{Comp, List};
use std::alloc::{AllocError, Global};

/// How many slots the values of a type have.
fn comp_slots(comp: &Comp) -> usize
    ensures { result ≡ numbers.comp_slots comp.now }
{
    match comp {
        Comp::Func { .. } => 0,
        Comp::Struct(fields) => fields.as_slice().len(),
        Comp::Array(_) => 1,
    }
}

/// How many slots the values of the type with an index have, and 0 where there is none.
pub(crate) fn slots_of(f: &Facts, ty: u32) -> usize
    ensures { result ≡ numbers.slots_of f.now.types ty }
{
    match f.types.get(ty) {
        None => 0,
        Some(sub) => comp_slots(&sub.comp),
    }
}

/// How many parameters the functions of a type have.
fn comp_params(comp: &Comp) -> usize
    ensures { result ≡ numbers.comp_params comp.now }
{
    match comp {
        Comp::Func { params, .. } => params.as_slice().len(),
        _ => 0,
    }
}

/// How many results the functions of a type have.
fn comp_results(comp: &Comp) -> usize
    ensures { result ≡ numbers.comp_results comp.now }
{
    match comp {
        Comp::Func { results, .. } => results.as_slice().len(),
        _ => 0,
    }
}

/// How many parameters the functions of the type with an index have, and 0 where there is none.
pub(crate) fn params_of(f: &Facts, ty: u32) -> usize
    ensures { result ≡ numbers.count_of numbers.comp_params (slice_get (types_of f.now.types) ty) }
{
    match f.types.get(ty) {
        None => 0,
        Some(sub) => comp_params(&sub.comp),
    }
}

/// How many results the functions of the type with an index have, and 0 where there is none.
pub(crate) fn results_of(f: &Facts, ty: u32) -> usize
    ensures { result ≡ numbers.count_of numbers.comp_results (slice_get (types_of f.now.types) ty) }
{
    match f.types.get(ty) {
        None => 0,
        Some(sub) => comp_results(&sub.comp),
    }
}

/// Where the cells of types and of functions begin.
#[derive(Drop)]
pub(crate) struct Cells {
    /// The cell of the first slot, type by type.
    pub(crate) slots: Vec<usize>,
    /// The cell of the first parameter, function by function.
    pub(crate) params: Vec<usize>,
    /// The cell of the first result, function by function.
    pub(crate) results: Vec<usize>,
    /// Which type or function has the cell, for the first cells.
    pub(crate) owners: Vec<u32>,
    /// How many of these are slots.
    pub(crate) slot_cells: usize,
}

/// Which types and functions stand at or below a type.
#[derive(Drop)]
pub(crate) struct Below {
    pub(crate) types: Vec<List<u32>>,
    pub(crate) functions: Vec<List<u32>>,
    pub(crate) callable: Vec<bool>,
}

/// What a system keeps besides its links.
#[derive(Drop)]
pub(crate) struct Index {
    pub(crate) cells: Cells,
    pub(crate) below: Below,
    pub(crate) fixed: Vec<List<usize>>,
}

/// How many types there are. `AllocError` where there are 2^32.
pub(crate) fn type_count(f: &Facts) -> Result<u32, AllocError>
    ensures { IfOk result (λ count. count ≡ length (types_of f.now.types)) }
{
    let mut count: u32 = 0;
    'types: loop {
        match f.types.get(count) {
            None => return Ok(count),
            Some(_) => {}
        }
        match count.checked_add(1) {
            None => return Err(AllocError),
            Some(next) => count = next,
        }
    }
}

/// How many cells the slots of an index take: indices of the same type share those of the least.
pub(crate) fn own_slots(f: &Facts, ty: u32) -> usize
    requires { ty < length (types_of f.now.types) }
    ensures { result ≡ numbers.own_slots f.now.types ty }
{
    if f.types.canon(ty) == ty {
        slots_of(f, ty)
    } else {
        0
    }
}

/// Where the cells of the slots of each type begin, and which type has each of these cells.
#[derive(Drop)]
struct Slots {
    starts: Vec<usize>,
    owners: Vec<u32>,
}

/// Numbers the cells of slots, type by type. `AllocError` only where memory is refused.
fn slot_owners(alloc: Global, f: &Facts, types: u32) -> Result<Slots, AllocError>
    requires { types ≡ length (types_of f.now.types) }
    ensures starts { IfOk result (λ s. s.starts.items ≡ map (numbers.slots_before f.now) (run 0 types)) }
    ensures owners { IfOk result (λ s. s.owners.items ≡ owned (numbers.own_slots f.now.types) types) }
{
    let mut starts: Vec<usize> = Vec::new(alloc);
    let mut owners: Vec<u32> = Vec::new(alloc);
    'types: for ty in 0..types {
        starts.push(owners.len())?;
        own(&mut owners, ty, own_slots(f, ty))?;
    }
    Ok(Slots { starts, owners })
}

impl Cells {
    ghost use Rattle.gu_links.specs.Index.{CellsAre};

    /// Numbers the cells of slots, parameters and results. `AllocError` where memory is refused or
    /// there are 2^32 functions or more.
    pub(crate) fn new(alloc: Global, f: &Facts, types: u32) -> Result<Cells, AllocError>
        requires { types ≡ length (types_of f.now.types) }
        ensures { IfOk result (CellsAre f.now) }
    {
        let slots = slot_owners(alloc, f, types)?;
        let mut owners = slots.owners;
        let slot_cells = owners.len();
        let mut params: Vec<usize> = Vec::new(alloc);
        let mut results: Vec<usize> = Vec::new(alloc);
        let funcs = f.funcs.as_slice();
        'functions: for (place, ty) in funcs.iter().enumerate() {
            let Ok(function) = u32::try_from(place) else {
                return Err(AllocError);
            };
            params.push(owners.len())?;
            own(&mut owners, function, params_of(f, *ty))?;
            results.push(owners.len())?;
            own(&mut owners, function, results_of(f, *ty))?;
        }
        Ok(Cells {
            slots: slots.starts,
            params,
            results,
            owners,
            slot_cells,
        })
    }
}

/// Gives the next cells, so many, to a type or a function.
fn own(owners: &mut Vec<u32>, owner: u32, count: usize) -> Result<(), AllocError>
    ensures { OnOk result (owners.new.items ≡ owners.old.items ++ replicate count owner) }
{
    'cells: for _ in 0..count {
        owners.push(owner)?;
    }
    Ok(())
}

/// Which functions can be called by reference.
fn callable_flags(alloc: Global, links: &[Link], count: usize) -> Result<Vec<bool>, AllocError>
    requires { (g : ℕ) → list_any (names g) links.now ≡ true → g < count }
    ensures long { IfOk result (λ callable. length callable.items ≡ count) }
    ensures named { IfOk result (λ callable. (g : ℕ) → g < count → slice_index_or callable.items g false ≡ list_any (names g) links.now) }
{
    let mut callable: Vec<bool> = vec![in alloc; false; count]?;
    'links: for link in links {
        if let Link::Callable { function } = link {
            callable[*function as usize] = true;
        }
    }
    Ok(callable)
}

impl Below {
    ghost use Rattle.gu_links.specs.Index.{BelowAre};

    /// Lists the types and functions below each type. `AllocError` where memory is refused or there
    /// are 2^32 functions or more.
    pub(crate) fn new(
        alloc: Global,
        links: &[Link],
        f: &Facts,
        types: u32,
    ) -> Result<Below, AllocError>
        requires types { types ≡ length (types_of f.now.types) }
        requires named { (g : ℕ) → list_any (names g) links.now ≡ true → IsFunc f.now g }
        ensures { IfOk result (BelowAre f.now links.now) }
    {
        let funcs = f.funcs.as_slice();
        let callable = callable_flags(alloc, links, funcs.len())?;
        let least = least_types(alloc, f, types)?;
        let functions = callable_functions(alloc, funcs, callable.as_slice())?;
        Ok(Below {
            types: listed_below(alloc, f, types, least.as_slice())?,
            functions: listed_below(alloc, f, types, functions.as_slice())?,
            callable,
        })
    }
}

impl Index {
    ghost use Rattle.gu_links.specs.Index.{IsIndexed};

    /// All but the readers. `AllocError` where memory is refused or there are 2^32 functions or
    /// more.
    pub(crate) fn new(
        alloc: Global,
        links: &[Link],
        f: &Facts,
        types: u32,
    ) -> Result<Index, AllocError>
        requires types { types ≡ length (types_of f.now.types) }
        requires named { (g : ℕ) → list_any (names g) links.now ≡ true → IsFunc f.now g }
        ensures { IfOk result (IsIndexed f.now links.now) }
    {
        let mut fixed: Vec<List<usize>> = Vec::new(alloc);
        'links: for link in links {
            fixed.push(fixed_cells(alloc, link)?)?;
        }
        Ok(Index {
            cells: Cells::new(alloc, f, types)?,
            below: Below::new(alloc, links, f, types)?,
            fixed,
        })
    }
}
