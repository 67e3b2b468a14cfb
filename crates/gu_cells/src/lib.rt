//! Cells that threads share: each holds a content, in one word, and rises by atomic joins.
#![tactic(auto)]

mod cells;
mod record;
mod rule;
mod seat;
mod sizes;
#[cfg(test)]
mod tests;

pub use cells::{Cells, Joined};
pub use record::Entry;
pub use rule::Ceilings;
pub use seat::{CellSeat, Track};
