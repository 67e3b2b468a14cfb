//! Turns of reading and writing, each timed by the clock.

use crate::work::Timed;
use gu_read::read_module;
use gu_write::write_module;
use std::alloc::Global;
use std::thread::Threads;
use std::time::{Clock, Instant};

/// Says how many nanoseconds each turn took, a line for each. What comes before and what is dropped
/// between is left out.
pub fn time_turns(
    rt: &(impl Threads + Sync + Clock + Print),
    alloc: Global,
    timed: Timed,
    bytes: &[u8],
) -> anyhow::Result<()> {
    match timed {
        Timed::Read(times) => time_reads(rt, alloc, bytes, times),
        Timed::Write(times) => time_writes(rt, alloc, bytes, times),
    }
}

/// Times so many turns of reading the module that the bytes spell.
fn time_reads(
    rt: &(impl Threads + Sync + Clock + Print),
    alloc: Global,
    bytes: &[u8],
    times: u32,
) -> anyhow::Result<()> {
    for _ in 0..times {
        let start = Instant::now(rt)?;
        let _module = read_module(rt, alloc, bytes)?;
        let nanos = start.elapsed(rt)?.as_nanos();
        println!(rt; "{nanos}")?;
    }
    Ok(())
}

/// Times so many turns of making the least spelling of the module that the bytes spell.
fn time_writes(
    rt: &(impl Threads + Sync + Clock + Print),
    alloc: Global,
    bytes: &[u8],
    times: u32,
) -> anyhow::Result<()> {
    let module = read_module(rt, alloc, bytes)?;
    for _ in 0..times {
        let start = Instant::now(rt)?;
        let _text = write_module(rt, alloc, &module)?;
        let nanos = start.elapsed(rt)?.as_nanos();
        println!(rt; "{nanos}")?;
    }
    Ok(())
}
