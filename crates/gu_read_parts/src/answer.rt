//! What a stop is answered as.
ghost use Rattle.std.specs.Prelude.{◌≡◌, ◌≤◌, [], ◌∷◌, length};
ghost use Rattle.gu_bytes.specs.Reading.{unsigned_at};
ghost use Rattle.gu_syntax.specs.Due.{outside, lies_in, left_out, conversion};
ghost use Rattle.gu_read_parts.specs.Due.{Answers, AnswersAhead, place_of};
ghost use Rattle.gu_read_parts.specs.Gives.{left_at, item_of};

use crate::stop::{Asked, Stop};
use gu_bytes::Cursor;
use thiserror::Error;

/// What a limit bounds.
#[derive(Clone, Copy, Debug, PartialEq, Eq)]
pub enum Which {
    /// The bytes of the input.
    Size,
    /// The blocks that are open at once in a body or a constant expression.
    Nesting,
    /// The types of the module.
    Types,
    /// The functions of the module, imported ones included.
    Funcs,
    /// The globals of the module, imported ones included.
    Globals,
    /// The parameters of a function type.
    Params,
    /// The results of a function type.
    Results,
    /// The fields of a structure type.
    Fields,
    /// The locals of a function, without its parameters.
    Locals,
    /// The locals of the module.
    ModuleLocals,
    /// The supertypes that stand above a type.
    Depth,
    /// The bytes of the output.
    Output,
}

/// Why nothing was read. Places are counted in bytes from the start of what was to be read.
#[derive(Clone, Copy, Debug, PartialEq, Eq, Error)]
pub enum ReadErr {
    /// What the grammar asks `at` this place does not stand there.
    #[error("malformed at {at}")]
    Malformed { at: u64 },
    /// A code of the standard stands `at` this place that is left out of the profile: a type or an
    /// instruction of floating point or of vectors, or limits of 64 bits.
    #[error("not in profile at {at}, code {code:#x}")]
    OutOfProfile { at: u64, code: u32 },
    /// A limit is exceeded. What `at` says depends on the limit.
    #[error("limit exceeded at {at}")]
    Limit { which: Which, at: u64 },
    /// There is no memory for what was read.
    #[error("out of memory")]
    NoMemory,
}

/// What reading some bytes is answered as where it stops: the limit on nesting where a block is opened
/// too deep, `OutOfProfile` where a code of the standard stands that is left out of the profile, else
/// `Malformed`.
pub fn refusal(bytes: &[u8], stop: Stop) -> ReadErr
    requires { left_at stop ≤ length bytes.now }
    ensures answers { Answers bytes.now stop result }
    ensures inside { place_of result ≤ length bytes.now }
{
    let Stop::Refused { asked, left } = stop else {
        return ReadErr::NoMemory;
    };
    let place = bytes.len() - left;
    let at = place as u64;
    if asked == Asked::FlatOpcode {
        return ReadErr::Limit {
            which: Which::Nesting,
            at,
        };
    }
    match code_outside(asked, &bytes[place..]) {
        Some(code) => ReadErr::OutOfProfile { at, code },
        None => ReadErr::Malformed { at },
    }
}

/// What reading at a cursor is answered as where it stops, as `refusal` says. Places are counted from
/// the start of the cursor's bytes.
pub fn refusal_ahead(cursor: &Cursor<'_>, stop: Stop) -> ReadErr
    requires { left_at stop ≤ length cursor.now.rest }
    ensures { AnswersAhead cursor.now stop result }
{
    let passed = cursor.at() as u64;
    match refusal(cursor.rest(), stop) {
        ReadErr::Malformed { at } => ReadErr::Malformed { at: passed + at },
        ReadErr::OutOfProfile { at, code } => ReadErr::OutOfProfile {
            at: passed + at,
            code,
        },
        ReadErr::Limit { which, at } => ReadErr::Limit {
            which,
            at: passed + at,
        },
        ReadErr::NoMemory => ReadErr::NoMemory,
    }
}

/// The code of the standard that is left out of the profile, where this is asked and the text goes on
/// like this.
fn code_outside(asked: Asked, rest: &[u8]) -> Option<u32>
    ensures { result ≡ outside (item_of asked) rest.now }
{
    let (code, more) = rest.split_first()?;
    let code = *code;
    let is_named = match asked {
        Asked::TypeStart => is_type_outside(code),
        Asked::LimitsFlag => is_limits_outside(code),
        Asked::Opcode if code == 0xFC => return conversion_outside(more),
        Asked::Opcode => is_instruction_outside(code),
        _ => false,
    };
    if is_named {
        Some(u32::from(code))
    } else {
        None
    }
}

/// Whether this is the code of a type of floating point or of vectors (core specification 3.0, 5.3.1
/// Number Types, 5.3.2 Vector Types).
fn is_type_outside(code: u8) -> bool
    ensures { result ≡ lies_in ((0x7B, 0x7D) ∷ []) code }
{
    matches!(code, 0x7B..=0x7D)
}

/// Whether this is the flag of limits of 64 bits that are not shared (5.3.12 Limits).
fn is_limits_outside(code: u8) -> bool
    ensures { result ≡ lies_in ((0x04, 0x05) ∷ []) code }
{
    matches!(code, 0x04..=0x05)
}

/// Whether this is the code of an instruction on floating point or on vectors (5.4 Instructions).
fn is_instruction_outside(code: u8) -> bool
    ensures { result ≡ lies_in left_out code }
{
    matches!(
        code,
        0x2A..=0x2B
            | 0x38..=0x39
            | 0x43..=0x44
            | 0x5B..=0x66
            | 0x8B..=0xA6
            | 0xA8..=0xAB
            | 0xAE..=0xBF
            | 0xFD
    )
}

/// The code of a saturating conversion, by the number behind the byte FC (5.4.7 Numeric Instructions).
fn conversion_outside(bytes: &[u8]) -> Option<u32>
    ensures { result ≡ conversion (unsigned_at 32 bytes.now) }
{
    let mut cursor = Cursor::new(bytes);
    match cursor.read_u32() {
        Ok(number) if number < 8 => Some(0xFC00 + number),
        _ => None,
    }
}
