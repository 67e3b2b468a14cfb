//! Writing the code entries and the expressions of modules in their least spelling (core specification
//! 3.0, 5.4 Instructions and 5.5.13 Code Section).
#![tactic(auto)]

mod code;
mod entry;
mod layout;
mod tables;
#[cfg(test)]
mod tests;

pub use code::put_body;
pub use entry::{write_entries, write_entry};
pub use gu_write_parts::WriteErr;
