//! The locals of a function (core specification 3.0, 5.5.13 Code Section).
ghost use Rattle.std.specs.Prelude.{[], ◌≡◌, ◌+◌, ◌<◌, ◌≤◌, ◌^◌, length, IfOk, OnOk};
ghost use Rattle.gu_syntax.specs.Expressions.{same_val};
ghost use Rattle.gu_syntax.specs.Reading.{made_at, vector_at, run_at};
ghost use Rattle.gu_read_parts.specs.Gives.{Gives, left_of};
ghost use Rattle.gu_read_code.specs.Entries.{held_runs, total};
ghost use Rattle.gu_read_code.specs.Runs.{added, behind_runs};

use gu_read_parts::{Stop, read_u32, read_val};
use gu_types::{ShortList, ValType};
use std::alloc::{AllocError, Global};

/// How many locals a tree can count.
const MOST: u64 = 0xFFFF_FFFF;

/// How many runs are made room for at first, at most.
const FEW: u32 = 4;

/// Runs of locals.
type Runs = ShortList<(u32, ValType)>;

/// The locals of a function in runs, of which none is empty and no two side by side have types that
/// are spelled alike; or `None` where there are 2^32 locals or more.
pub fn read_locals(alloc: Global, bytes: &[u8]) -> Result<(Option<Runs>, &[u8]), Stop>
    ensures value { Gives result (made_at held_runs (vector_at run_at) bytes.now) }
    ensures inside { left_of result ≤ length bytes.now }
{
    let (count, mut rest) = read_u32(bytes)?;
    let mut merged = no_runs(alloc, count)?;
    let mut counted = 0;
    'runs: for _ in 0..count {
        let (run, behind) = read_run(rest)?;
        counted += u64::from(run.0);
        add(&mut merged, counted, run)?;
        rest = behind;
    }
    if counted > MOST {
        return Ok((None, rest));
    }
    Ok((Some(merged), rest))
}

/// No runs, with room for as many as are said to follow, if they are few. A single one needs none.
fn no_runs(alloc: Global, count: u32) -> Result<Runs, AllocError>
    ensures { IfOk result (λ runs. runs ≡ []) }
{
    if count < 2 {
        return Ok(ShortList::new(alloc));
    }
    let room = count.min(FEW) as usize;
    Ok(ShortList::from_vec(Vec::with_capacity(alloc, room)?))
}

/// A run: how many locals, and their type.
fn read_run(bytes: &[u8]) -> Result<((u32, ValType), &[u8]), Stop>
    ensures value { Gives result (run_at bytes.now) }
    ensures inside { left_of result ≤ length bytes.now }
    ensures fits { IfOk result (λ x. x.0.0 < 2 ^ 32) }
{
    let (number, rest) = read_u32(bytes)?;
    let (ty, rest) = read_val(rest)?;
    Ok(((number, ty), rest))
}

/// Adds a run to merged ones, while there are no more locals than a tree can count; with this run
/// there are `counted`.
fn add(merged: &mut Runs, counted: u64, run: (u32, ValType)) -> Result<(), AllocError>
    requires { counted < 2 ^ 32 → total merged.old + run.0 ≤ counted }
    ensures { OnOk result (counted < 2 ^ 32 → merged.new ≡ added merged.old run) }
{
    if run.0 == 0 {
        return Ok(());
    }
    if counted > MOST {
        return Ok(());
    }
    join(merged, run)
}

/// Puts a run behind merged ones: it joins the last where that is of one type with it.
fn join(merged: &mut Runs, run: (u32, ValType)) -> Result<(), AllocError>
    requires { total merged.old + run.0 < 2 ^ 32 }
    ensures { OnOk result (merged.new ≡ behind_runs merged.old run) }
{
    let Some(last) = merged.pop() else {
        return merged.push(run);
    };
    if is_same(last.1, run.1) {
        return merged.push((last.0 + run.0, last.1));
    }
    merged.push(last)?;
    merged.push(run)
}

/// Whether two types are spelled alike.
fn is_same(a: ValType, b: ValType) -> bool
    ensures { result ≡ same_val a b }
{
    a == b
}
