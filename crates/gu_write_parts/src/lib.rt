//! What the writers of the binary format share: their errors and their limit, sizes, vectors, names
//! and value types (core specification 3.0, chapter 5 Binary Format). After an error of a writer nothing
//! is said of what it appended.
#![tactic(auto)]

mod error;
mod put;
mod room;
mod types;

pub use error::WriteErr;
pub use put::{Form, IndexForm, LIMIT, put_byte, put_bytes, put_size, put_sized, put_vector};
pub use room::{fill_size, leave_size};
pub use types::{ValTypeForm, abstract_byte, put_heap, put_ref, put_val};
