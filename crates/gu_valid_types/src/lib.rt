//! Whether the types of a module are valid (core specification 3.0, 3.2 Types).
#![tactic(auto)]

mod check;
mod error;
mod extends;

pub use check::check_types;
pub use error::TypesErr;
