//! Solves systems of links that it makes itself, so that a benchmark can time the worklist and the
//! workers. The words on the command line say what is done, and then which system it is done with:
//!
//! - `close N KIND LINKS`: the worklist solves it N times;
//! - `solve WORKERS N KIND LINKS`: so many workers, 1 to 64, solve it N times;
//! - `joins WORKERS KIND LINKS`: so many workers, 2 to 64, solve it once, and their joins are counted.
//!
//! The kinds are:
//!
//! - `chains`: a number flows through 1,000 cells, one after another, in each of many chains;
//! - `stars`: a number flows from one cell into 999 others, in each of many stars;
//! - `cone`: fields are written and read through references to any of 1,000 classes, at 64 levels;
//! - `shallow`: the same, where each reference is to objects of one class, or of one class and those
//!   directly below it.
//!
//! A system is solved once at least. A line says how many links and cells it has, how many of the
//! cells have a content in the end, and how many joins were counted. What is refused is said on the
//! standard error, and the status is 1.
#![tactic(auto)]

mod classes;
mod gate;
mod links;
mod systems;
mod times;
mod work;

use anyhow::Context;
use std::alloc::{AllocError, Global};
use std::{env, io};
use times::{Found, run};
use work::work_of;

fn main(rt: HostRuntime) -> anyhow::Result<()> {
    let arguments = arguments(&rt)?;
    let words = words_of(rt.alloc(), &arguments)?;
    let work = work_of(words.as_slice()).context(
        "the words are: close N KIND LINKS, solve WORKERS N KIND LINKS, or joins WORKERS KIND LINKS",
    )?;
    let Found {
        links,
        cells,
        filled,
        joins,
    } = run(&rt, rt.alloc(), work)?;
    println!(rt; "{links} links, {cells} cells, {filled} with contents, {joins} joins counted")?;
    Ok(())
}

/// The arguments without the program's name. One that is no text is an error.
fn arguments(rt: &HostRuntime) -> io::Result<Vec<String>> {
    let mut all = env::args(rt)?;
    let _name = all.next();
    Ok(all.collect(rt.alloc())?)
}

/// The arguments as words.
fn words_of(alloc: Global, arguments: &Vec<String>) -> Result<Vec<&str>, AllocError> {
    arguments.iter().map(|word| word.as_str()).collect(alloc)
}
