//! Workers, which raise shared cells until all that they woke is served.
#![tactic(auto)]

mod gate;
pub mod laws;
mod step;
mod worker;

pub use gate::{Gate, OpenGate};
pub use worker::{Worker, work};
