//! The steps of the work on the bytes of a module, each done some times.
ghost use Rattle.std.specs.Prelude.{◌≤◌, IfOk, OnOk, IfErr};
ghost use Rattle.gu_model.specs.Valid.{Valid};
ghost use Rattle.gu_read.specs.ReadsModule.{Reads};
ghost use Rattle.gu_steps_main.specs.Steps.{ReadsSome, Copies, Finds, Refuses};

use crate::error::StepErr;
use crate::work::Step;
use gu_read::read_module;
use gu_rec::{Types, intern};
use gu_syntax::Module;
use gu_types::{HeapType, TypeList};
use gu_valid::check_module;
use gu_write::write_module;
use std::alloc::Global;
use std::thread::Threads;

/// What a step found.
#[derive(Debug, Drop)]
pub enum Found {
    /// A module with so many functions, imported ones left out, and so many groups of types.
    Module { funcs: usize, groups: usize },
    /// That the module is valid.
    Valid,
    /// How many bytes its least spelling has.
    Length(usize),
    /// How many subtype queries are answered by yes.
    Below(u32),
    /// Its least spelling.
    Copy(Vec<u8>),
}

/// What a step finds on the module that the bytes spell.
pub fn run(
    rt: &(impl Threads + Sync),
    alloc: Global,
    step: Step,
    bytes: &[u8],
) -> Result<Found, StepErr>
    ensures finds { IfOk result (Finds step bytes.now) }
    ensures refused { IfErr result (Refuses bytes.now) }
{
    match step {
        Step::Read(times) => {
            let module = read_times(rt, alloc, bytes, times)?;
            let funcs = module.funcs.as_slice().len();
            let groups = module.types.groups.as_slice().len();
            Ok(Found::Module { funcs, groups })
        }
        Step::Check(times) => {
            check_times(rt, alloc, bytes, times)?;
            Ok(Found::Valid)
        }
        Step::Write(times) => {
            let text = write_times(rt, alloc, bytes, times)?;
            Ok(Found::Length(text.len()))
        }
        Step::Types(times) => Ok(Found::Below(ask_times(rt, alloc, bytes, times)?)),
        Step::Copy => Ok(Found::Copy(copied(rt, alloc, bytes)?)),
    }
}

/// The module that the bytes spell, read so many times, once at least.
pub fn read_times(
    rt: &(impl Threads + Sync),
    alloc: Global,
    bytes: &[u8],
    times: u32,
) -> Result<Module, StepErr>
    ensures reads { IfOk result (λ m. Reads bytes.now m) }
    ensures refused { IfErr result (Refuses bytes.now) }
{
    for _ in 1..times {
        read_module(rt, alloc, bytes)?;
    }
    Ok(read_module(rt, alloc, bytes)?)
}

/// Whether the module that the bytes spell is valid, looked at so many times, once at least.
#[tactic(auto, using(gu_read::proofs::Shallow::within_is_shallow))]
pub fn check_times(
    rt: &(impl Threads + Sync),
    alloc: Global,
    bytes: &[u8],
    times: u32,
) -> Result<(), StepErr>
    ensures valid { OnOk result (ReadsSome bytes.now Valid) }
    ensures refused { IfErr result (Refuses bytes.now) }
{
    let module = read_module(rt, alloc, bytes)?;
    for _ in 1..times {
        check_module(alloc, &module)?;
    }
    check_module(alloc, &module)?;
    Ok(())
}

/// The least spelling of the module that the bytes spell, made so many times, once at least.
pub fn write_times(
    rt: &(impl Threads + Sync),
    alloc: Global,
    bytes: &[u8],
    times: u32,
) -> Result<Vec<u8>, StepErr>
    ensures copies { IfOk result (λ text. Copies bytes.now text.items) }
    ensures refused { IfErr result (Refuses bytes.now) }
{
    let module = read_module(rt, alloc, bytes)?;
    for _ in 1..times {
        write_module(rt, alloc, &module)?;
    }
    Ok(write_module(rt, alloc, &module)?)
}

/// The least spelling of the module that the bytes spell.
pub fn copied(rt: &(impl Threads + Sync), alloc: Global, bytes: &[u8]) -> Result<Vec<u8>, StepErr>
    ensures copies { IfOk result (λ text. Copies bytes.now text.items) }
    ensures refused { IfErr result (Refuses bytes.now) }
{
    write_times(rt, alloc, bytes, 1)
}

/// How many of so many subtype queries on the types of the module that the bytes spell are answered
/// by yes. The indices that are asked for are spread over all types.
#[tactic(auto, using(gu_read::proofs::Shallow::within_is_shallow))]
pub fn ask_times(
    rt: &(impl Threads + Sync),
    alloc: Global,
    bytes: &[u8],
    times: u32,
) -> Result<u32, StepErr>
    ensures most { IfOk result (λ below. below ≤ times) }
    ensures refused { IfErr result (Refuses bytes.now) }
{
    let module = read_module(rt, alloc, bytes)?;
    let types = intern(alloc, &module.types)?;
    Ok(ask(&types, count_types(&module.types), times))
}

/// How many types there are.
fn count_types(list: &TypeList) -> u32 {
    let mut count: u32 = 0;
    for group in list.groups.as_slice() {
        let more = group.types.as_slice().len();
        count = count.saturating_add(u32::try_from(more).unwrap_or(u32::MAX));
    }
    count
}

/// The distance between the indices that are asked for one after another: a prime, so that they are
/// spread over all types.
const STRIDE: u32 = 7919;

/// How many types there are above each other at most, and how far apart the types are that are asked
/// for together.
const CHAIN: u32 = 64;

/// How many of so many subtype queries among so many types are answered by yes.
fn ask(types: &Types, count: u32, times: u32) -> u32
    ensures { result ≤ times }
{
    if count == 0 {
        return 0;
    }
    let mut below = 0;
    let mut index = 0;
    'queries: for _ in 0..times {
        index = STRIDE.wrapping_add(index) % count;
        if is_below(types, index, index - index % CHAIN) {
            below += 1;
        }
    }
    below
}

/// Whether there are types with these indices, and the first is a subtype of the second.
fn is_below(types: &Types, index: u32, above: u32) -> bool {
    if types.place(index).is_none() || types.place(above).is_none() {
        return false;
    }
    types.is_sub(HeapType::Idx(index), HeapType::Idx(above))
}
