//! The optimiser as one call: a module from a source, its optimised text to a sink, a line on failure
//! to a second sink, and a status.
#![tactic(auto)]

#[cfg(test)]
mod tests;
mod top;

pub use gu_report::{Part, Status, Which, fault_line};
pub use top::{wasm_gufa, wasm_gufa_and_keep};
