//! Whether the body of a function is typed (core specification 3.0, 3.5 Modules, functions, and
//! appendix, Validation Algorithm).
#![tactic(auto)]

mod applies;
mod body;
mod constant;
mod control;
mod env;
mod leaf;
mod locals;
mod nesting;
mod numbers;
mod objects;
mod references;
mod row;
mod scope;
mod state;
mod tables;
mod walk;

pub use body::{NoMemory, Workspace, check_code, check_code_in};
pub use constant::check_constant;
pub use env::Env;
