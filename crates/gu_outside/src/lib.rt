//! Where bytes come from and where they go: the traits through which the product meets the outside,
//! the objects that meet them, and the two loops over them.
//!
//! An object of these traits tells what it did by ghost members, which contracts alone see: the bytes
//! that are left or held, where it tells them, and a count of faults that never falls. A count that
//! stands at its last value stays there, and has then risen.
#![tactic(auto)]

ghost use Rattle.std.specs.Prelude.{◌≡◌, ℕ, ◌<◌, ◌≤◌, List, length, Option, IfOk, OnErr};
ghost use Rattle.gu_outside.specs.Outside.{Rose, Moved, Added, IsEnd};

pub mod adapters;
pub mod memory;
pub mod read;
pub mod sure;
#[cfg(test)]
mod tests;
pub mod write;

pub use adapters::{StdSink, StdSource};
pub use memory::{MemSink, MemSource};
pub use read::{ReadError, read_to_limit};
pub use sure::{SureSink, SureSource};
use thiserror::Error;
pub use write::put_all;

/// The outside did not do what it was asked.
#[derive(Clone, Copy, Debug, PartialEq, Eq, Error)]
#[error("the outside did not do it")]
pub struct Failed;

/// Gives bytes in order.
pub trait Source {
    // The bytes still to come, where the source tells them.
    ghost left: { Self → Option (List ℕ) };

    // How often it failed.
    ghost faults: { Self → ℕ };

    /// Moves bytes from the front of what is left into the front of `into`, and gives their number.
    /// 0 for a piece that is not empty is the end of input. After `Failed` nothing was moved, and what
    /// `into` then holds is not said.
    fn take(&mut self, into: &mut [u8]) -> Result<usize, Failed>
        ensures most { IfOk result (λ n. n ≤ length into.old) }
        ensures moves { IfOk result (λ n. Moved (left self.old) (left self.new) into.new n) }
        ensures end { IfOk result (λ n. n ≡ 0 → 0 < length into.old → IsEnd (left self.old)) }

        ensures failed { OnErr result (Rose (faults self.old) (faults self.new)) }
        ensures stays { OnErr result (left self.new ≡ left self.old) }
        ensures never_falls { faults self.old ≤ faults self.new };
}

/// Takes bytes in order.
pub trait Sink {
    // The bytes that it took, where the sink tells them.
    ghost held: { Self → Option (List ℕ) };

    // How often it failed.
    ghost faults: { Self → ℕ };

    /// Puts the first bytes of `piece` behind what is held, and gives their number: at least 1 for a
    /// piece that is not empty. After `Failed` nothing was put.
    fn put(&mut self, piece: &[u8]) -> Result<usize, Failed>
        ensures most { IfOk result (λ n. n ≤ length piece.now) }
        ensures some { IfOk result (λ n. 0 < length piece.now → 0 < n) }
        ensures adds { IfOk result (λ n. Added (held self.old) (held self.new) piece.now n) }

        ensures failed { OnErr result (Rose (faults self.old) (faults self.new)) }
        ensures stays { OnErr result (held self.new ≡ held self.old) }
        ensures never_falls { faults self.old ≤ faults self.new };
}
