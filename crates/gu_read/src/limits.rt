//! The limits on the parts of a module, in their order.
ghost use Rattle.std.specs.Prelude.{◌≡◌, ◌≤◌, List, length, count_by, IfOk};
ghost use Rattle.gu_types.specs.declared.types.SubType.{SubType};
ghost use Rattle.gu_read.specs.Limits.{is_func, is_global, first_above, exceeded_or, exceeded};
ghost use Rattle.gu_read.specs.Rows.{first_rows, type_rows, local_rows, depth_rows};
ghost use Rattle.gu_read.specs.Seen.{Sees};
ghost use Rattle.gu_read.specs.Limits as L;

use crate::seen::{Seen, see_types};
use crate::weighed::{WeighedModule, locals_up_to};
use gu_read_parts::Which;
use gu_syntax::{Desc, Func, Import, Module};
use std::alloc::{AllocError, Global};

/// A limit that is exceeded, and what is answered with it.
type Exceeded = Option<(Which, u64)>;

/// The first limit on its parts that a module exceeds, and what is answered with it: the count, or the
/// index of the first type or defined function that exceeds it. `AllocError` only where memory is
/// refused.
pub fn first_exceeded(alloc: Global, weighed: &WeighedModule) -> Result<Exceeded, AllocError>
    ensures { IfOk result (λ found. found ≡ exceeded weighed.now) }
{
    let module = weighed.get();
    let seen = see_types(alloc, module.types.groups.as_slice())?;
    if let Some(found) = count_limit(seen.depths.as_slice().len(), module) {
        return Ok(Some(found));
    }
    if let Some(found) = type_limit(&seen) {
        return Ok(Some(found));
    }
    if let Some(found) = weighed_limit(alloc, weighed)? {
        return Ok(Some(found));
    }
    Ok(depth_limit(&seen))
}

/// The limits on how many types, functions and globals there are.
fn count_limit(types: usize, module: &Module) -> Exceeded
    ensures { result ≡ L.first_exceeded (first_rows types «module».now) }
{
    let imports = module.imports.as_slice();
    if 1_000_000 < types {
        return Some((Which::Types, types as u64));
    }
    let funcs = imported_funcs(imports) as u64 + module.funcs.as_slice().len() as u64;
    if 1_000_000 < funcs {
        return Some((Which::Funcs, funcs));
    }
    let globals = imported_globals(imports) as u64 + module.globals.as_slice().len() as u64;
    if 1_000_000 < globals {
        return Some((Which::Globals, globals));
    }
    None
}

/// How many functions are imported.
fn imported_funcs(imports: &[Import]) -> usize
    ensures { result ≡ count_by (λ i. is_func i.desc) imports.now }
{
    let mut count = 0;
    'imports: for import in imports {
        if matches!(import.desc, Desc::Func(_)) {
            count += 1;
        }
    }
    count
}

/// How many globals are imported.
fn imported_globals(imports: &[Import]) -> usize
    ensures { result ≡ count_by (λ i. is_global i.desc) imports.now }
{
    let mut count = 0;
    'imports: for import in imports {
        if matches!(import.desc, Desc::Global(_, _)) {
            count += 1;
        }
    }
    count
}

/// The index of the first number that is more than so many.
fn first_above_in(numbers: &[usize], most: usize) -> Option<usize>
    ensures { result ≡ first_above (λ n. n) most numbers.now }
{
    'numbers: for index in 0..numbers.len() {
        if most < numbers[index] {
            return Some(index);
        }
    }
    None
}

/// The limits on the parts of one type.
fn type_limit(seen: &Seen) -> Exceeded
    ensures { (types : List SubType) → Sees seen.now types → result ≡ L.first_exceeded (type_rows types) }
{
    let fields = or_later(Which::Fields, seen.fields, None);
    let results = or_later(Which::Results, seen.results, fields);
    or_later(Which::Params, seen.params, results)
}

/// The limit on the depth of a type.
fn depth_limit(seen: &Seen) -> Exceeded
    ensures { (types : List SubType) → Sees seen.now types → result ≡ L.first_exceeded (depth_rows types) }
{
    or_later(Which::Depth, seen.deeper, None)
}

/// A limit with the index of what exceeds it first, or where nothing does what comes later.
fn or_later(which: Which, found: Option<usize>, later: Exceeded) -> Exceeded
    ensures { result ≡ exceeded_or which found later }
{
    match found {
        Some(index) => Some((which, index as u64)),
        None => later,
    }
}

/// The limits on the locals of a function and of all. They are looked at one by one only where one is
/// exceeded.
fn weighed_limit(alloc: Global, weighed: &WeighedModule) -> Result<Exceeded, AllocError>
    requires { length weighed.now.funcs ≤ 1000000 }
    ensures { IfOk result (λ found. found ≡ L.first_exceeded (local_rows weighed.now.funcs)) }
{
    if weighed.weight() <= 4_000_000 {
        return Ok(None);
    }
    local_limit(alloc, weighed.get().funcs.as_slice())
}

/// The limits on the locals of a function and of all.
fn local_limit(alloc: Global, funcs: &[Func]) -> Result<Exceeded, AllocError>
    requires { length funcs.now ≤ 1000000 }
    ensures { IfOk result (λ found. found ≡ L.first_exceeded (local_rows funcs.now)) }
{
    let mut counts = Vec::new(alloc);
    let mut total = 0;
    'funcs: for func in funcs {
        let count = locals_up_to(func);
        counts.push(count)?;
        total += count;
    }
    if let Some(index) = first_above_in(counts.as_slice(), 50_000) {
        return Ok(Some((Which::Locals, index as u64)));
    }
    if 4_000_000 < total {
        return Ok(Some((Which::ModuleLocals, total as u64)));
    }
    Ok(None)
}
