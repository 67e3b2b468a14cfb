//! Work that several threads share part by part: each takes the next part that none has taken yet, so
//! that one that is held up keeps no other from going on.
#![tactic(auto)]

mod parts;
#[cfg(test)]
mod tests;
mod work;

pub use parts::{Part, do_parts};
pub use work::Work;
