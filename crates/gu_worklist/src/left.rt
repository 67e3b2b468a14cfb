//! Links that are left to serve, each once.
ghost use Rattle.std.specs.Prelude.{◌≡◌, ◌<◌, ◌≤◌, ◌++◌, ◌∷◌, [], Contains, IfNone, IfOk, IfSome, OnOk, MatchOption, length};
ghost use Rattle.gu_worklist.specs.Left.{AddsOnly, Keeps};

use std::alloc::{AllocError, Global};
use std::marker::Model;

/// A stack of links in which none stands twice.
#[derive(Drop)]
pub struct Left {
    waiting: Vec<usize>,
    marked: Vec<bool>,
}

impl Model for Left {
    ghost use Rattle.std.specs.Prelude.{length};
    ghost use Rattle.gu_worklist.specs.Left.{Left as View, left_of, IsLeft};

    ghost Value = { View };

    ghost view = { λ l. left_of (length l.marked.items) l.waiting.items };

    ghost invariant = { λ l. IsLeft l.waiting.items l.marked.items };
}

impl Left {
    /// Nothing left, of so many links. `AllocError` only where memory is refused.
    pub fn new(alloc: Global, links: usize) -> Result<Left, AllocError>
        ensures links { IfOk result (λ l. l.links ≡ links) }
        ensures none { IfOk result (λ l. l.waiting ≡ []) }
    {
        let marked = Vec::from_elem(alloc, false, links)?;
        Ok(Left {
            waiting: Vec::new(alloc),
            marked,
        })
    }

    /// Leaves a link, if it is not left already. `AllocError` only where memory is refused.
    pub fn add(&mut self, link: usize) -> Result<(), AllocError>
        requires link { link < self.old.links }
        ensures links { self.new.links ≡ self.old.links }
        ensures added { OnOk result (Contains self.new.waiting link) }
        ensures keeps { Keeps self.old.waiting self.new.waiting }
        ensures only { AddsOnly (link ∷ []) self.old.waiting self.new.waiting }
        ensures few { length self.new.waiting ≤ self.new.links }
    {
        if self.marked[link] {
            return Ok(());
        }
        self.waiting.push(link)?;
        self.marked[link] = true;
        Ok(())
    }

    /// Takes the link that was left last. `None` exactly where none is left.
    pub fn take(&mut self) -> Option<usize>
        ensures links { self.new.links ≡ self.old.links }
        ensures taken { MatchOption result (self.old.waiting ≡ []) (λ link. self.old.waiting ≡ self.new.waiting ++ link ∷ []) }
        ensures none { IfNone result (self.new.waiting ≡ []) }
        ensures below { IfSome result (λ link. link < self.old.links) }
    {
        let link = self.waiting.pop()?;
        self.marked[link] = false;
        Some(link)
    }
}
