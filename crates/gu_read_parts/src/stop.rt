//! Where reading stops.
ghost use Rattle.std.specs.Prelude.{◌≡◌, ◌+◌, ◌<◌, ◌^◌, length};
ghost use Rattle.gu_read_parts.specs.Gives.{left_at, stop_before};

use std::alloc::AllocError;

/// What the grammar asks at a place (core specification 3.0, chapter 5 Binary Format).
#[derive(Clone, Copy, Debug, PartialEq, Eq)]
pub enum Asked {
    /// A byte of the magic number or the version.
    HeaderByte,
    /// The id of a section, or the end of the text.
    SectionId,
    /// A size, whose content lies within what encloses it.
    Size,
    /// A count or another number.
    Number,
    /// Bytes with their count.
    Bytes,
    /// A flag, a kind, a mutability or a fixed byte.
    Fixed,
    /// The flag of limits.
    LimitsFlag,
    /// The first byte of a type, or a type index in its place.
    TypeStart,
    /// The code of an instruction, with the number behind FB or FC.
    Opcode,
    /// The code of an instruction that opens no block, where as many are open as may be.
    FlatOpcode,
    /// The end of a section or a code entry.
    End,
}

/// Why reading stops.
#[derive(Clone, Copy, Debug, PartialEq, Eq)]
pub enum Stop {
    /// What is asked does not stand there. This many bytes are left at the place.
    Refused { asked: Asked, left: usize },
    /// There is no memory for what was read.
    NoMemory,
}

impl Stop {
    /// What is asked at the front of these bytes does not stand there.
    pub fn at(asked: Asked, rest: &[u8]) -> Stop
        ensures { result ≡ Stop.Refused asked (length rest.now) }
    {
        Stop::Refused {
            asked,
            left: rest.len(),
        }
    }

    /// The same stop where these bytes stand behind the text that was read.
    pub fn before(self, behind: &[u8]) -> Stop
        requires { left_at self + length behind.now < 2 ^ 64 }
        ensures { result ≡ stop_before behind.now self }
    {
        match self {
            Stop::Refused { asked, left } => Stop::Refused {
                asked,
                left: left + behind.len(),
            },
            Stop::NoMemory => Stop::NoMemory,
        }
    }
}

impl From<AllocError> for Stop {
    ghost use Rattle.std.specs.Prelude.{◌≡◌};
    ghost use Rattle.gu_read_parts.specs.declared.stop.Stop.TheVariants.{NoMemory};

    ghost from_gives = { λ _ stop. stop ≡ NoMemory };

    fn from(_: AllocError) -> Stop {
        Stop::NoMemory
    }
}
