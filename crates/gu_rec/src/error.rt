//! Why the types of a module are not taken.
use thiserror::Error;

/// Why the types of a module were not taken.
#[derive(Debug, Drop, Error)]
pub enum RecErr {
    /// The first type that names an index not below its group's end, declares more than one
    /// supertype, or declares one whose index is not smaller than its own.
    #[error("the indices in type {ty} do not hold")]
    BadRef {
        /// Its index.
        ty: u32,
    },
    /// Memory was refused.
    #[error("out of memory")]
    NoMemory,
}
