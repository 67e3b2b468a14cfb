//! The 64-bit literals of a module.
ghost use Rattle.std.specs.Prelude.{◌≡◌, [], ◌∷◌, IfOk, OnOk, OnErr, slice_index};
ghost use Rattle.gu_contents.specs.Codes.{place_in, with_literal};

use indexmap::IndexSet;
use std::alloc::{AllocError, Global};
use std::marker::Model;

/// How many literals there may be.
const MOST: usize = 4_294_967_296;

/// The distinct 64-bit literals of a module in the order in which they were seen first, with 0
/// before all. Contracts see the list of them.
#[derive(Drop)]
pub struct Longs {
    set: IndexSet<u64>,
}

impl Model for Longs {
    ghost use Rattle.std.specs.Prelude.{ℕ, List, ◌≤◌, ◌^◌, length};

    ghost Value = { List ℕ };

    ghost view = { λ longs. longs.set.keys };

    ghost invariant = { λ longs. length longs.set.keys ≤ 2 ^ 32 };
}

impl Longs {
    /// The list of 0 alone. `AllocError` only where memory is refused.
    pub fn new(alloc: Global) -> Result<Longs, AllocError>
        ensures { IfOk result (λ longs. longs ≡ 0 ∷ []) }
    {
        let mut set: IndexSet<u64> = IndexSet::new(alloc);
        set.insert(0)?;
        Ok(Longs { set })
    }

    /// Puts a literal last where it is not in the list. `AllocError` where memory is refused, or
    /// where there are 2^32 literals already: the list is then as it was.
    pub fn add(&mut self, v: u64) -> Result<(), AllocError>
        ensures ok { OnOk result (self.new ≡ with_literal self.old v) }
        ensures err { OnErr result (self.new ≡ self.old) }
    {
        if self.set.contains(&v) {
            return Ok(());
        }
        if self.set.len() >= MOST {
            return Err(AllocError);
        }
        self.set.insert(v)?;
        Ok(())
    }

    /// The place of a literal in the list, counted from 0. 0 where it is not there.
    pub(crate) fn place(&self, v: u64) -> u32
        ensures { result ≡ place_in self.now v }
    {
        self.set.get_index_of(&v).unwrap_or(0) as u32
    }

    /// The literal at a place, and 0 behind the last.
    pub(crate) fn at(&self, place: usize) -> u64
        ensures { result ≡ slice_index self.now place }
    {
        self.set.get_index(place).copied().unwrap_or(0)
    }
}
