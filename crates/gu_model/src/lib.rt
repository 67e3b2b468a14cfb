//! What a module means: validity (core specification 3.0, chapter 3 Validation), execution (chapter
//! 4 Execution), scripts of an embedder and the traces that they show, sameness of modules, and the
//! module without dead tails.
#![tactic(auto)]

pub mod laws;
mod part;
mod valid_module;

pub use part::Part;
pub use valid_module::ValidModule;
