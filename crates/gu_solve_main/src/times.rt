//! Systems that are solved some times.
ghost use Rattle.std.specs.Prelude.{◌≡◌, ◌≤◌, IfOk, length};
ghost use Rattle.gu_links.specs.Solutions.{at, Least};
ghost use Rattle.gu_solve_main.specs.Work.{IsRunnable};

use crate::classes::{classes_of, facts_of};
use crate::gate::Counter;
use crate::links::{Plan, plan_of};
use crate::systems::is_system;
use crate::work::{Task, Work};
use anyhow::bail;
use gu_contents::{Content, Longs};
use gu_fixpoint::solve;
use gu_links::System;
use gu_solve::close_from;
use gu_types::List;
use gu_workers::{Gate, OpenGate};
use std::alloc::{AllocError, Global};
use std::thread::Threads;

/// What was found.
#[derive(Clone, Copy, Debug)]
pub struct Found {
    /// How many links the system has.
    pub links: usize,
    /// How many cells it has.
    pub cells: usize,
    /// How many of these have a content in the least solution.
    pub filled: usize,
    /// How many joins were counted.
    pub joins: u64,
}

/// Makes a system and solves it, and tells what was found.
pub fn run(rt: &(impl Threads + Sync), alloc: Global, work: Work) -> anyhow::Result<Found>
    requires { IsRunnable work.task }
{
    let Plan {
        links,
        cells,
        classes,
    } = plan_of(alloc, work.kind, work.links)?;
    let list = classes_of(alloc, classes)?;
    let facts = facts_of(alloc, &list)?;
    let fit = is_system(alloc, &facts, cells, links.as_slice())?;
    if !fit {
        bail!("the links are no system");
    }
    let longs = Longs::new(alloc)?;
    let s = System::new(alloc, List::from_vec(links), cells, &facts, longs)?;
    let counter = Counter::new();
    let contents = solved(rt, alloc, &s, work.task, &counter)?;
    Ok(Found {
        links: s.links.as_slice().len(),
        cells,
        filled: filled(contents.as_slice()),
        joins: counter.count(),
    })
}

/// The least solution, found as the task says.
fn solved(
    rt: &(impl Threads + Sync),
    alloc: Global,
    s: &System<'_>,
    task: Task,
    counter: &Counter,
) -> Result<List<Content>, AllocError>
    requires { IsRunnable task }
    ensures { IfOk result (λ r. Least s.now.facts.now s.now.links (at r)) }
{
    match task {
        Task::Close(times) => close_times(alloc, s, times),
        Task::Solve(workers, times) => solve_times(rt, alloc, s, workers, times, &OpenGate),
        Task::Joins(workers) => solve_times(rt, alloc, s, workers, 1, counter),
    }
}

/// The least solution, found by the worklist from empty cells.
fn close(alloc: Global, s: &System<'_>) -> Result<List<Content>, AllocError>
    ensures { IfOk result (λ r. Least s.now.facts.now s.now.links (at r)) }
{
    let start = Vec::from_elem(alloc, Content::Empty, s.cells)?;
    close_from(alloc, s, List::from_vec(start))
}

/// The least solution, found so many times by the worklist, once at least.
fn close_times(alloc: Global, s: &System<'_>, times: u32) -> Result<List<Content>, AllocError>
    ensures { IfOk result (λ r. Least s.now.facts.now s.now.links (at r)) }
{
    for _ in 1..times {
        close(alloc, s)?;
    }
    close(alloc, s)
}

/// The least solution, found so many times by so many workers, once at least.
fn solve_times<G: Gate>(
    rt: &(impl Threads + Sync),
    alloc: Global,
    s: &System<'_>,
    workers: u32,
    times: u32,
    gate: &G,
) -> Result<List<Content>, AllocError>
    requires { (1 ≤ workers) × (workers ≤ 64) }
    ensures { IfOk result (λ r. Least s.now.facts.now s.now.links (at r)) }
{
    for _ in 1..times {
        solve(rt, alloc, s, workers, gate)?;
    }
    let (contents, _track) = solve(rt, alloc, s, workers, gate)?;
    Ok(contents)
}

/// How many contents are not empty.
fn filled(contents: &[Content]) -> usize
    ensures { result ≤ length contents.now }
{
    contents
        .iter()
        .filter(|content| **content != Content::Empty)
        .count()
}
