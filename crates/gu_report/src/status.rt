//! What the program answers.

ghost use Rattle.std.specs.Prelude.{◌≡◌};
ghost use Rattle.gu_report.specs.Lines.{number_of};

use gu_model::Part;
use gu_outside::ReadError;
use gu_read_parts::{ReadErr, Which};
use gu_write_parts::WriteErr;

/// The most bytes of input, which the limit on the size of the input is told by.
const INPUT_LIMIT: u64 = 16_777_216;

/// The most bytes of output, which the limit on the output is told by.
const OUTPUT_LIMIT: u64 = 268_435_456;

/// What became of a job.
#[derive(Clone, Copy, Debug, PartialEq, Eq)]
pub enum Status {
    /// The output holds the optimised module.
    Done,
    /// The words of the command line are none that the program knows.
    Usage,
    /// The input spells no module: what the grammar asks does not stand there.
    Malformed {
        /// The place in the input, in bytes from its start.
        at: u64,
    },
    /// The input spells no module of the profile: a code of the standard stands there that is left
    /// out of it.
    OutOfProfile {
        /// The place in the input, in bytes from its start.
        at: u64,
        /// The code: one byte, or the number `0xfc00` and more for the byte FC and a number behind it.
        code: u32,
    },
    /// The input spells a module that is not valid.
    Invalid {
        /// The first part that fails.
        part: Part,
    },
    /// The input or the output goes past a limit.
    Limit {
        /// The limit.
        which: Which,
        /// The number of bytes that are allowed, the place, the count or the index that the limit is
        /// told by.
        at: u64,
    },
    /// The source failed.
    ReadFault,
    /// The sink failed. It may hold a beginning of the output.
    WriteFault,
    /// The allocator refused memory.
    NoMemory,
}

impl Status {
    /// The number that the program exits with: 0 for `Done` alone.
    pub fn number(&self) -> u8
        ensures { result ≡ number_of self.now }
    {
        match self {
            Status::Done => 0,
            Status::Usage => 1,
            Status::Malformed { .. } => 2,
            Status::OutOfProfile { .. } => 3,
            Status::Invalid { .. } => 4,
            Status::Limit { .. } => 5,
            Status::ReadFault => 6,
            Status::WriteFault => 7,
            Status::NoMemory => 8,
        }
    }
}

impl From<ReadError> for Status {
    ghost use Rattle.std.specs.Prelude.{◌≡◌};
    ghost use Rattle.gu_report.specs.Statuses.{of_source};

    ghost from_gives = { λ error status. status ≡ of_source error };

    fn from(error: ReadError) -> Status {
        match error {
            ReadError::Fault => Status::ReadFault,
            ReadError::TooLong => Status::Limit {
                which: Which::Size,
                at: INPUT_LIMIT,
            },
            ReadError::NoMemory => Status::NoMemory,
        }
    }
}

impl From<ReadErr> for Status {
    ghost use Rattle.std.specs.Prelude.{◌≡◌};
    ghost use Rattle.gu_report.specs.Statuses.{of_reader};

    ghost from_gives = { λ error status. status ≡ of_reader error };

    fn from(error: ReadErr) -> Status {
        match error {
            ReadErr::Malformed { at } => Status::Malformed { at },
            ReadErr::OutOfProfile { at, code } => Status::OutOfProfile { at, code },
            ReadErr::Limit { which, at } => Status::Limit { which, at },
            ReadErr::NoMemory => Status::NoMemory,
        }
    }
}

impl From<WriteErr> for Status {
    ghost use Rattle.std.specs.Prelude.{◌≡◌};
    ghost use Rattle.gu_report.specs.Statuses.{of_writer};

    ghost from_gives = { λ error status. status ≡ of_writer error };

    fn from(error: WriteErr) -> Status {
        match error {
            WriteErr::TooLong => Status::Limit {
                which: Which::Output,
                at: OUTPUT_LIMIT,
            },
            WriteErr::NoMemory => Status::NoMemory,
        }
    }
}
