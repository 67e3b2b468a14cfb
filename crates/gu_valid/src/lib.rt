//! Whether a module is valid (core specification 3.0, 3.5 Modules).
#![tactic(auto)]

mod bodies;
mod check;
mod constants;
mod declared;
mod error;
mod exports;
mod facts;
mod kinds;
mod needs;
mod parts;
mod segments;
mod spaces;
#[cfg(test)]
mod tests;
mod variables;

pub use check::{check_module, validate};
pub use error::ValidErr;
