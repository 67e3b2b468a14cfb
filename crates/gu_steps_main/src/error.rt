//! Why a step was not done.
ghost use Rattle.std.specs.Prelude.{◌≡◌};
ghost use Rattle.gu_steps_main.specs.declared.error.StepErr.TheVariants as E;

use gu_read_parts::ReadErr;
use gu_rec::RecErr;
use gu_valid::ValidErr;
use gu_write::WriteErr;
use thiserror::Error;

/// Why a step was not done.
#[derive(Debug, Drop, Error)]
pub enum StepErr {
    /// The bytes spell no module within the limits.
    #[error("{0}")]
    Read(ReadErr),
    /// The module is not valid.
    #[error("{0}")]
    Check(ValidErr),
    /// Its least spelling is too long.
    #[error("{0}")]
    Write(WriteErr),
    /// The indices in its types do not hold.
    #[error("{0}")]
    Types(RecErr),
}

impl From<ReadErr> for StepErr {
    ghost from_gives = { λ read error. error ≡ E.Read read };

    fn from(error: ReadErr) -> StepErr {
        StepErr::Read(error)
    }
}

impl From<ValidErr> for StepErr {
    ghost from_gives = { λ check error. error ≡ E.Check check };

    fn from(error: ValidErr) -> StepErr {
        StepErr::Check(error)
    }
}

impl From<WriteErr> for StepErr {
    ghost from_gives = { λ write error. error ≡ E.Write write };

    fn from(error: WriteErr) -> StepErr {
        StepErr::Write(error)
    }
}

impl From<RecErr> for StepErr {
    ghost from_gives = { λ types error. error ≡ E.Types types };

    fn from(error: RecErr) -> StepErr {
        StepErr::Types(error)
    }
}
