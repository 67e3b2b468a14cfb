//! Links between cells: what flows from one cell of a program into others, and the least solution.
#![tactic(auto)]

mod asked;
mod call;
mod convert;
mod fixed;
mod grouped;
mod index;
mod known;
pub mod laws;
mod link;
mod next;
mod numbering;
mod reach;
mod readers;
mod slots;
mod system;

pub use asked::apply;
pub use link::Link;
pub use numbering::Numbering;
pub use system::System;

#[cfg(test)]
mod system_tests;
#[cfg(test)]
mod tests;
