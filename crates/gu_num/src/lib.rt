//! What the integer operators compute.
#![tactic(auto)]

mod apply;
mod binary;
mod kind;
pub mod laws;
mod unary;

pub use apply::{apply1, apply2};

#[cfg(test)]
mod tests;
