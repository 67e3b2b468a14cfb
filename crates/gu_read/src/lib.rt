//! The reader of modules (core specification 3.0, 5.5 Modules).
#![tactic(auto)]

mod elems;
mod entries;
mod funcs;
mod items;
mod limits;
mod missing;
mod module;
mod parts;
mod reader;
mod sections;
mod seen;
mod shares;
#[cfg(test)]
mod tests;
mod weighed;

pub use reader::read_module;
