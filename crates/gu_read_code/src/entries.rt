//! Code entries (core specification 3.0, 5.5.13 Code Section).
ghost use Rattle.std.specs.Prelude.{◌≡◌, ◌≤◌, length, IfOk, IfErr};
ghost use Rattle.gu_read_parts.specs.declared.answer.ReadErr.TheVariants.{NoMemory};
ghost use Rattle.gu_read_parts.specs.Gives.{Gives, left_of};
ghost use Rattle.gu_read_code.specs.Entries.{GivesEntry, inside_at};
ghost use Rattle.gu_syntax.specs.Reading.{entry_at};
ghost use Rattle.gu_read_code.specs.Answers.{PassesEntry, RefusesEntry};
ghost use Rattle.gu_read_code.specs.Answers.{HasEntry, HasTooMany, IsCounted};

use crate::bodies::{expression_on, new_stack};
use crate::locals::read_locals;
use gu_bytes::Cursor;
use gu_read_parts::{ReadErr, Stop, Which, close, read_content, refusal_ahead};
use gu_syntax::{Body, Instr};
use gu_types::{ShortList, ValType};
use std::alloc::Global;

/// What a code entry holds.
#[derive(Debug, Drop)]
pub enum Entry {
    /// Locals in runs, of which none is empty and no two side by side have types that are spelled
    /// alike, and a body. The locals are fewer than 2^32.
    Whole {
        /// How many locals, and their type.
        locals: ShortList<(u32, ValType)>,
        /// The instructions.
        body: Body,
    },
    /// There are 2^32 locals or more, which a tree can't count. Nothing is kept.
    TooMany,
}

/// The code entry that the bytes begin with, and the bytes behind it: its size, and the locals and
/// the body, which fill the size.
///
/// Where it stops, `Refused` says what the grammar asks there, before any answer on the number of
/// locals: the code of an instruction that opens no block at a block that is opened where 1,000 are
/// open.
pub fn code_entry(alloc: Global, bytes: &[u8]) -> Result<(Entry, &[u8]), Stop>
    ensures value { GivesEntry result (entry_at 1000 bytes.now) }
    ensures inside { left_of result ≤ length bytes.now }
{
    let mut pending = new_stack(alloc)?;
    code_entry_on(alloc, &mut pending, bytes)
}

/// The same with room that one entry leaves to the next: instructions lie on the `pending` ones until
/// their block ends, and some may be left there where it stops.
pub fn code_entry_on<'a>(
    alloc: Global,
    pending: &mut Vec<Instr>,
    bytes: &'a [u8],
) -> Result<(Entry, &'a [u8]), Stop>
    ensures value { GivesEntry result (entry_at 1000 bytes.now) }
    ensures inside { left_of result ≤ length bytes.now }
{
    let (content, rest) = read_content(bytes)?;
    close(read_inside(alloc, pending, content), rest)
}

/// What is inside the size of an entry.
fn read_inside<'a>(
    alloc: Global,
    pending: &mut Vec<Instr>,
    bytes: &'a [u8],
) -> Result<(Entry, &'a [u8]), Stop>
    ensures value { Gives result (inside_at 1000 bytes.now) }
    ensures inside { left_of result ≤ length bytes.now }
{
    let (locals, rest) = read_locals(alloc, bytes)?;
    let (body, rest) = expression_on(alloc, pending, rest)?;
    match locals {
        Some(locals) => Ok((Entry::Whole { locals, body }, rest)),
        None => Ok((Entry::TooMany, rest)),
    }
}

/// Passes one code entry and gives its locals, in runs of which none is empty and no two side by side
/// have types that are spelled alike, and its body.
///
/// An entry is read wherever one stands at the cursor that nests at most 1,000 deep and has fewer than
/// 2^32 locals. `Limit` on locals at 0 comes exactly where one stands that nests no deeper and has 2^32
/// or more. `Malformed` and `OutOfProfile` come only where none stands: `OutOfProfile` at a code of the
/// standard that is left out of the profile, else `Malformed`. `Limit` on nesting comes where none
/// stands that nests at most 1,000 deep, at the code of an instruction that opens a block where 1,000
/// are open. Each of the three names the first place from the left that does not stand, counted from
/// the start of the cursor's bytes. No other limit comes. After an error the cursor is where it was,
/// also where there is no memory.
pub fn read_entry(
    alloc: Global,
    at: &mut Cursor<'_>,
) -> Result<(ShortList<(u32, ValType)>, Body), ReadErr>
    ensures ok { IfOk result (λ x. PassesEntry x.0 x.1 at.old at.new) }
    ensures refused { IfErr result (λ err. RefusesEntry at.old err) }
    ensures complete { IfErr result (λ err. HasEntry at.old.rest → err ≡ NoMemory) }
    ensures counted { HasTooMany at.old.rest → IsCounted result }
    ensures stays { IfErr result (λ err. at.new ≡ at.old) }
{
    let bytes = at.rest();
    let (entry, rest) = match code_entry(alloc, bytes) {
        Ok(found) => found,
        Err(stop) => return Err(refusal_ahead(at, stop)),
    };
    match entry {
        Entry::Whole { locals, body } => {
            let _ = at.bytes(bytes.len() - rest.len());
            Ok((locals, body))
        }
        Entry::TooMany => Err(ReadErr::Limit {
            which: Which::Locals,
            at: 0,
        }),
    }
}
