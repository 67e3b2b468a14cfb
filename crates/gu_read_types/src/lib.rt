//! The reader of a module's types (core specification 3.0, 5.3 Types, 5.5.4 Type Section).
#![tactic(auto)]

mod groups;
#[cfg(test)]
mod tests;
mod types;

pub use groups::{Groups, read_types};
