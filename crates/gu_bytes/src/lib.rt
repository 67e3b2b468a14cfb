//! Integers as the binary format of WebAssembly spells them, and a cursor that reads them (core
//! specification 3.0, 5.2.2 Integers).
#![tactic(auto)]

mod cursor;
pub mod laws;
mod put;
#[cfg(test)]
mod tests;

pub use cursor::{Bad, Cursor};
pub use put::{put_s32, put_s33, put_s64, put_u32};
