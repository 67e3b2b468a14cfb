//! The links that read a cell are left.
ghost use Rattle.std.specs.Prelude.{◌≡◌, ◌<◌, ◌≤◌, ℕ, All, Contains, OnOk, Some, length, slice_get};
ghost use Rattle.gu_links.specs.declared.link.Link.{Link};
ghost use Rattle.gu_links.specs.Solutions.{IsReader};
ghost use Rattle.gu_worklist.specs.Left.{AddsOnly, IsLeftOf, Keeps};

use crate::left::Left;
use gu_links::System;
use std::alloc::AllocError;

/// Leaves some links. `AllocError` only where memory is refused.
fn add_all(links: &[usize], left: &mut Left) -> Result<(), AllocError>
    requires links { All (λ link. link < left.old.links) links.now }
    requires left { length left.old.waiting ≤ left.old.links }
    ensures left { IsLeftOf left.old.links left.new }
    ensures added { OnOk result (All (Contains left.new.waiting) links.now) }
    ensures keeps { Keeps left.old.waiting left.new.waiting }
    ensures only { AddsOnly links.now left.old.waiting left.new.waiting }
{
    'links: for link in links {
        left.add(*link)?;
    }
    Ok(())
}

/// Leaves all links that read a cell on some contents. `AllocError` only where memory is refused.
/// It takes 64 turns, and what the lists of readers are long.
pub fn add_readers(s: &System<'_>, cell: usize, left: &mut Left) -> Result<(), AllocError>
    requires { IsLeftOf (length s.now.links) left.old }
    ensures left { IsLeftOf (length s.now.links) left.new }
    ensures readers { OnOk result ((number : ℕ) (link : Link) → slice_get s.now.links number ≡ Some link → IsReader s.now.facts.now s.now.links cell link → Contains left.new.waiting number) }
    ensures keeps { Keeps left.old.waiting left.new.waiting }
{
    'ups: for up in 0..64 {
        add_all(s.readers(cell, up), left)?;
    }
    Ok(())
}
