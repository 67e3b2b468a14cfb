//! The least solution of a system, by one thread or by several at once.
#![tactic(auto)]

mod crew;
mod hands;
mod solving;
#[cfg(test)]
mod tests;

pub use solving::solve;
