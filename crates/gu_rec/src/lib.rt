//! Which types of a module are the same, and which are subtypes of which (core specification 3.0, 3.3
//! Matching).
#![tactic(auto)]

mod abs;
mod build;
mod distinct;
mod error;
mod height;
mod interning;
mod key;
pub mod laws;
mod names;
mod place;
mod types;

pub use abs::abs_number;
pub use error::RecErr;
pub use interning::intern;
pub use place::Place;
pub use types::Types;
