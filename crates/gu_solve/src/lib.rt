//! The least solution of a system of links, by a worklist.
#![tactic(auto)]

ghost use Rattle.std.specs.Prelude.{◌≡◌, ◌<◌, ℕ, All, Contains, IfOk, length};
ghost use Rattle.gu_links.specs.Solutions.{at, IsOf, IsUnderAll, Least};
ghost use Rattle.gu_worklist.specs.Left.{IsLeftOf};

mod step;
#[cfg(test)]
mod tests;

use crate::step::step;
use gu_contents::Content;
use gu_links::System;
use gu_types::List;
use gu_worklist::Left;
use std::alloc::{AllocError, Global};

/// All of so many links are left. `AllocError` only where memory is refused.
fn all_left(alloc: Global, links: usize) -> Result<Left, AllocError>
    ensures left { IfOk result (IsLeftOf links) }
    ensures all { IfOk result (λ left. (k : ℕ) → k < links → Contains left.waiting k) }
{
    let mut left = Left::new(alloc, links)?;
    'links: for link in 0..links {
        left.add(link)?;
    }
    Ok(left)
}

/// The least solution, from contents that are at most every solution: one content for each cell. A
/// link is applied at first, and again each time that a cell on which it can rest has risen; each
/// cell rises at most 70 times. `AllocError` only where memory is refused.
pub fn close_from(
    alloc: Global,
    s: &System<'_>,
    start: List<Content>,
) -> Result<List<Content>, AllocError>
    requires length { length start ≡ s.now.cells }
    requires are_of { All (IsOf s.now.facts.now s.now.longs) start }
    requires below { IsUnderAll s.now.facts.now s.now.links (at start) }
    ensures length { IfOk result (λ r. length r ≡ s.now.cells) }
    ensures are_of { IfOk result (λ r. All (IsOf s.now.facts.now s.now.longs) r) }
    ensures least { IfOk result (λ r. Least s.now.facts.now s.now.links (at r)) }
{
    let mut contents = start.into_vec();
    let mut left = all_left(alloc, s.links.as_slice().len())?;
    'left: while let Some(link) = left.take() {
        step(alloc, s, &mut contents, link, &mut left)?;
    }
    Ok(List::from_vec(contents))
}
