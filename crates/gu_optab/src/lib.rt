//! The integer operators of the profile, named by their rows in one table.
#![tactic(auto)]

pub mod laws;
mod op;
mod table;

pub use op::{NumOp, NumType};
pub use table::{OpTable, code_of, op_of, operands, result};

#[cfg(test)]
mod tests;
