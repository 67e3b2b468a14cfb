//! Runs one step of the work on a module of the whole format, so that a benchmark can tell the steps
//! apart. The words on the command line say what is done. With these, the standard input is a module:
//!
//! - `read N`: it is read N times;
//! - `check N`: it is read, and its validity is looked at N times;
//! - `write N`: it is read, and its least spelling is made N times;
//! - `types N`: it is read, its types are interned, and N subtype queries are asked;
//! - `clock read N` and `clock write N`: it is read, or its least spelling is made, N times, and a line
//!   for each turn says the nanoseconds that this took by the clock;
//! - `copy`: its least spelling goes to the standard output.
//!
//! Each step is done once at least, but for the queries and what is timed. A line says what was found,
//! but for what is timed and for `copy`.
//! With `lines` each line of the standard input is a name and a module in hexadecimal digits, and a
//! line says of each whether it is valid, or why it is not. What else is refused is said on the
//! standard error, and the status is 1.
#![tactic(auto)]

mod error;
mod lines;
mod steps;
#[cfg(test)]
mod tests;
mod turns;
mod work;

use anyhow::Context;
use gu_outside::{StdSink, StdSource, put_all, read_to_limit};
use lines::{check_line, name_of};
use std::alloc::{AllocError, Global};
use std::thread::Threads;
use std::{env, io};
use steps::{Found, run};
use turns::time_turns;
use work::{Work, work_of};

/// The most bytes that a module may have.
const INPUT_LIMIT: usize = 16_777_216;

fn main(rt: HostRuntime) -> anyhow::Result<()> {
    let arguments = arguments(&rt)?;
    let words = words_of(rt.alloc(), &arguments)?;
    let work = work_of(words.as_slice()).context(
        "the words are: read N, check N, write N, types N, clock read N, clock write N, copy, or lines",
    )?;
    match work {
        Work::Step(step) => show(&rt, &run(&rt, rt.alloc(), step, input(&rt)?.as_slice())?),
        Work::Timed(timed) => time_turns(&rt, rt.alloc(), timed, input(&rt)?.as_slice()),
        Work::Lines => answer_lines(&rt),
    }
}

/// The bytes of the input.
fn input(rt: &HostRuntime) -> anyhow::Result<Vec<u8>> {
    Ok(read_to_limit(rt.alloc(), &mut StdSource::new(rt.stdin()), INPUT_LIMIT)?)
}

/// Says of the module on each line whether it is valid.
fn answer_lines(rt: &(impl Input + Print + AllocGlobal + Threads + Sync)) -> anyhow::Result<()> {
    for line in rt.lines(rt.alloc()) {
        let line = line?;
        let name = name_of(line.as_str());
        match check_line(rt, rt.alloc(), line.as_str()) {
            Ok(()) => println!(rt; "{name}: valid")?,
            Err(error) => println!(rt; "{name}: {error}")?,
        }
    }
    Ok(())
}

/// Shows what a step found.
fn show(rt: &HostRuntime, found: &Found) -> anyhow::Result<()> {
    match found {
        Found::Module { funcs, groups } => {
            println!(rt; "{funcs} functions, {groups} groups of types")?;
        }
        Found::Valid => println!(rt; "valid")?,
        Found::Length(length) => println!(rt; "{length} bytes")?,
        Found::Below(count) => println!(rt; "{count} below")?,
        Found::Copy(text) => put_all(&mut StdSink::new(rt.stdout()), text.as_slice())?,
    }
    Ok(())
}

/// The arguments without the program's name. One that is no text is an error.
fn arguments(rt: &HostRuntime) -> io::Result<Vec<String>> {
    let mut all = env::args(rt)?;
    let _name = all.next();
    Ok(all.collect(rt.alloc())?)
}

/// The arguments as words.
fn words_of(alloc: Global, arguments: &Vec<String>) -> Result<Vec<&str>, AllocError> {
    arguments.iter().map(|word| word.as_str()).collect(alloc)
}
