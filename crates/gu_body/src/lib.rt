//! Changes of function bodies that need no analysis: the code that no run comes to is removed.
#![tactic(auto)]

mod cut;

pub use cut::{cut_module, cut_tails};
