//! Why something was not written.
use std::alloc::{AllocError, AllocFailed};
use thiserror::Error;

/// Why something was not written.
#[derive(Clone, Copy, Debug, PartialEq, Eq, Error)]
pub enum WriteErr {
    /// Its text would have more than 268,435,456 bytes.
    #[error("too long")]
    TooLong,
    /// Memory was refused. It says nothing of what was to be written.
    #[error("out of memory")]
    NoMemory,
}

impl From<AllocError> for WriteErr {
    ghost use Rattle.std.specs.Prelude.{◌≡◌};
    ghost use Rattle.gu_write_parts.specs.declared.error.WriteErr.TheVariants.{NoMemory};

    ghost from_gives = { λ _ error. error ≡ NoMemory };

    fn from(_refused: AllocError) -> WriteErr {
        WriteErr::NoMemory
    }
}

impl<T: Drop> From<AllocFailed<T>> for WriteErr {
    ghost use Rattle.std.specs.Prelude.{◌≡◌};
    ghost use Rattle.gu_write_parts.specs.declared.error.WriteErr.TheVariants.{NoMemory};

    ghost from_gives = { λ _ error. error ≡ NoMemory };

    fn from(_refused: AllocFailed<T>) -> WriteErr {
        WriteErr::NoMemory
    }
}
