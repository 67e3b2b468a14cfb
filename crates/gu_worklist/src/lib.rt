//! The worklist of links that are left to serve.
#![tactic(auto)]

mod left;
mod readers;

pub use left::Left;
pub use readers::add_readers;
