//! Why the types of a module are not valid.
use thiserror::Error;

/// Why the types of a module are not valid.
#[derive(Debug, Drop, Error)]
pub enum TypesErr {
    /// The first type that names an index not below its group's end, declares more than one
    /// supertype, or declares one whose index is not smaller than its own.
    #[error("the indices in type {ty} do not hold")]
    BadRef {
        /// Its index.
        ty: u32,
    },
    /// All indices hold, and this is the first type whose declared supertype is final or does not
    /// match it.
    #[error("type {ty} may not declare its supertype")]
    BadSuper {
        /// Its index.
        ty: u32,
    },
    /// Memory was refused.
    #[error("out of memory")]
    NoMemory,
}
