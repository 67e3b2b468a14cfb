//! Writing modules in their least spelling (core specification 3.0, chapter 5 Binary Format).
#![tactic(auto)]

mod code;
mod entries;
mod items;
mod module;
mod segments;
#[cfg(test)]
mod tests;
mod types;

pub use gu_write_parts::WriteErr;
pub use module::write_module;
