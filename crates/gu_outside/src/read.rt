//! All of a source, up to a limit.

ghost use Rattle.std.specs.Prelude.{◌≡◌, ◌+◌, ◌<◌, ◌≤◌, [], length, Some, Err, IfOk, OnOk, IfSome, vec_len};
ghost use Rattle.gu_outside.specs.Outside.{Rose, TakenAtMost};
ghost use Rattle.gu_outside.specs.declared.read.ReadError.{ReadError};

use crate::{Failed, Source};
use std::alloc::{AllocError, Global};
use thiserror::Error;

/// The most bytes that are asked for at once.
const PIECE: usize = 65_536;

/// Why the bytes of a source were not read.
#[derive(Clone, Copy, Debug, PartialEq, Eq, Error)]
pub enum ReadError {
    /// The source failed.
    #[error("read failed")]
    Fault,
    /// The source gave more bytes than the limit.
    #[error("too long")]
    TooLong,
    /// The allocator refused memory for the bytes.
    #[error("no memory")]
    NoMemory,
}

impl From<Failed> for ReadError {
    ghost use Rattle.gu_outside.specs.declared.read.ReadError.TheVariants.{Fault};

    ghost from_gives = { λ _ error. error ≡ Fault };

    fn from(_failed: Failed) -> ReadError {
        ReadError::Fault
    }
}

impl From<AllocError> for ReadError {
    ghost use Rattle.gu_outside.specs.declared.read.ReadError.TheVariants.{NoMemory};

    ghost from_gives = { λ _ error. error ≡ NoMemory };

    fn from(_refused: AllocError) -> ReadError {
        ReadError::NoMemory
    }
}

/// Reads all bytes of `input` up to its end, at most `limit` of them. `TooLong` comes exactly where the
/// source gave more. At most `limit + 1` bytes are taken, whatever the answer; after an error they are
/// gone.
pub fn read_to_limit<R: Source>(
    alloc: Global,
    input: &mut R,
    limit: usize,
) -> Result<Vec<u8>, ReadError>
    ensures whole { IfOk result (λ v. IfSome (R.left input.old) (λ xs. v.items ≡ xs)) }
    ensures within { IfOk result (λ v. vec_len v ≤ limit) }
    ensures end { OnOk result (IfSome (R.left input.old) (λ _. R.left input.new ≡ Some [])) }

    ensures fault { result ≡ Err ReadError.Fault → Rose (R.faults input.old) (R.faults input.new) }
    ensures too_long { result ≡ Err ReadError.TooLong → IfSome (R.left input.old) (λ xs. limit < length xs) }

    ensures taken { TakenAtMost (R.left input.old) (R.left input.new) (limit + 1) }
    ensures never_falls { R.faults input.old ≤ R.faults input.new }
{
    let mut bytes = Vec::new(alloc);
    let mut piece = [0u8; PIECE];
    while bytes.len() <= limit {
        let asked = PIECE.min((limit - bytes.len()).saturating_add(1));
        let n = input.take(&mut piece[..asked])?;
        if n == 0 {
            return Ok(bytes);
        }
        bytes.extend_from_slice(&piece[..n])?;
    }
    Err(ReadError::TooLong)
}
