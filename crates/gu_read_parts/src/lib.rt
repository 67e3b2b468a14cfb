//! What the readers of the binary format share: where reading stops and what that is answered as,
//! the parts of the grammar that vectors hold, numbers, names and the types of values (core
//! specification 3.0, chapter 5 Binary Format).
//!
//! Each reading function reads what stands at the front of some bytes and gives the bytes behind it.
//! Its contract says what the grammar reads there, or what it asks where reading stops.
#![tactic(auto)]

mod answer;
mod bytes;
mod numbers;
mod part;
mod stop;
#[cfg(test)]
mod tests;
mod values;

pub use answer::{ReadErr, Which, refusal, refusal_ahead};
pub use bytes::{close, pass, read_bytes, read_content, read_name, read_text};
pub use numbers::{read_s32, read_s64, read_u32, read_u32_as};
pub use part::{Index, Part, read_items, read_short_vector, read_sized, read_vector};
pub use stop::{Asked, Stop};
pub use values::{Values, read_heap, read_limits, read_mutable, read_ref, read_val};
