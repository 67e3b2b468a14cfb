//! The reader of expressions and of code entries in the whole format (core specification 3.0, 5.4
//! Instructions, 5.5.13 Code Section).
#![tactic(auto)]

mod blocks;
mod bodies;
mod code;
mod entries;
mod leaf;
mod locals;
#[cfg(test)]
mod tests;

pub use bodies::{Expressions, expression, expression_on};
pub use entries::{Entry, code_entry, code_entry_on, read_entry};
