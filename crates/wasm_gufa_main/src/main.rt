//! The program `wasm-gufa`: reads one WebAssembly module from the standard input, puts it optimised on
//! the standard output and a line on the standard error where it fails, and exits with the number of
//! the status.
#![tactic(auto)]

use gu_outside::{Sink, Source, StdSink, StdSource};
use std::alloc::{AllocError, Global};
use std::io::{self, ErrorKind};
use std::process::ExitCode;
use std::rt::Env;
use std::thread::Threads;
use std::{env, mem};
use wasm_gufa::{Status, fault_line, wasm_gufa_and_keep};

fn main(rt: HostRuntime) -> ExitCode {
    let mut input = StdSource::new(rt.stdin());
    let mut output = StdSink::new(rt.stdout());
    let mut report = StdSink::new(rt.stderr());
    let status = answer(&rt, &mut input, &mut output, &mut report);
    ExitCode::from(status.number())
}

/// Does the job that the words on the command line ask for, and tells a failure on the report.
fn answer<R: Source, K: Sink, L: Sink>(
    rt: &(impl Env + AllocGlobal + Threads + Sync),
    input: &mut R,
    output: &mut K,
    report: &mut L,
) -> Status {
    match arguments(rt) {
        Ok(arguments) => match words_of(rt.alloc(), &arguments) {
            Ok(words) => last_answer(rt, rt.alloc(), words.as_slice(), input, output, report),
            Err(AllocError) => refused(report, Status::NoMemory),
        },
        Err(error) => refused(report, status_of(&error)),
    }
}

/// Does the job that the words ask for, as the last that the program does: the module is forgotten,
/// since the system takes all memory back when the program ends.
fn last_answer<R: Source, K: Sink, L: Sink>(
    rt: &(impl Threads + Sync),
    alloc: Global,
    words: &[&str],
    input: &mut R,
    output: &mut K,
    report: &mut L,
) -> Status {
    let mut kept = None;
    let status = wasm_gufa_and_keep(rt, alloc, words, input, output, report, &mut kept);
    mem::forget(kept);
    status
}

/// The arguments without the program's name. One that is no text is an error.
fn arguments(rt: &(impl Env + AllocGlobal)) -> io::Result<Vec<String>> {
    let mut all = env::args(rt)?;
    let _name = all.next();
    Ok(all.collect(rt.alloc())?)
}

/// The arguments as words.
fn words_of(alloc: Global, arguments: &Vec<String>) -> Result<Vec<&str>, AllocError> {
    arguments.iter().map(|word| word.as_str()).collect(alloc)
}

/// What it is where the arguments can't be had: no word that the program knows is no text.
fn status_of(error: &io::Error) -> Status {
    match error.kind() {
        ErrorKind::OutOfMemory => Status::NoMemory,
        _ => Status::Usage,
    }
}

/// Tells a failure before any work.
fn refused<L: Sink>(report: &mut L, status: Status) -> Status {
    fault_line(report, &status);
    status
}
