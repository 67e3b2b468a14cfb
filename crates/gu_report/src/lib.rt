//! What the program answers: the status of a job, its number, and the line that tells it.
#![tactic(auto)]

mod hex;
mod lines;
mod status;
#[cfg(test)]
mod tests;

pub use gu_model::Part;
pub use gu_read_parts::Which;
pub use lines::fault_line;
pub use status::Status;
