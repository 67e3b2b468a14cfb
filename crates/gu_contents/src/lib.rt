//! What can arrive at a place of a program: the lattice of contents, over the types of a module.
#![tactic(auto)]

mod codes;
mod content;
mod facts;
mod joining;
pub mod laws;
mod longs;
mod meets;
mod numbers;
mod order;
mod same;
#[cfg(test)]
mod tests;

pub use codes::{code_of, content_of};
pub use content::{Content, Core};
pub use facts::{Facts, GlobalFact};
pub use joining::join;
pub use longs::Longs;
pub use meets::{all, equal, filter, minus, test};
pub use numbers::{extend, is_null, pack, rank};
pub use order::le;
