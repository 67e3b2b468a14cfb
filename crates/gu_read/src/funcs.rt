//! Entries of the code section, read one by one (core specification 3.0, 5.5.13 Code Section).
ghost use Rattle.std.specs.Prelude.{◌≤◌, length};
ghost use Rattle.gu_syntax.specs.Reading.{func_at, entries_at};
ghost use Rattle.gu_read_parts.specs.Gives.{left_of};
ghost use Rattle.gu_read.specs.Standing.{StandsFor, AllStandFor, GivesBy};

use crate::weighed::WeighedFuncs;
use gu_read_code::{Entry, code_entry_on};
use gu_read_parts::Stop;
use gu_syntax::{Body, Func, Instr};
use gu_types::{List, ShortList, ValType};
use std::alloc::Global;

/// The entries of these types, one behind another, read one by one. What one leaves of the room that
/// its instructions lay in before their blocks ended, the next one takes.
pub fn read_run<'a>(
    alloc: Global,
    tys: &[u32],
    bytes: &'a [u8],
) -> Result<(WeighedFuncs, &'a [u8]), Stop>
    ensures value { GivesBy AllStandFor result (entries_at 1000 tys.now bytes.now) }
    ensures inside { left_of result ≤ length bytes.now }
{
    let mut funcs = WeighedFuncs::with_room(alloc, tys.len())?;
    let mut pending = Vec::new(alloc);
    let mut rest = bytes;
    'entries: for ty in tys {
        let (func, behind) = read_func(alloc, *ty, &mut pending, rest)?;
        funcs.push(func)?;
        rest = behind;
    }
    Ok((funcs, rest))
}

/// The function of a type at the front of the bytes. Where its locals are more than the tree can hold
/// another stands for it, whose locals exceed the limit as well.
fn read_func<'a>(
    alloc: Global,
    ty: u32,
    pending: &mut Vec<Instr>,
    bytes: &'a [u8],
) -> Result<(Func, &'a [u8]), Stop>
    ensures value { GivesBy StandsFor result (func_at 1000 ty bytes.now) }
    ensures inside { left_of result ≤ length bytes.now }
{
    let (entry, rest) = code_entry_on(alloc, pending, bytes)?;
    match entry {
        Entry::Whole { locals, body } => Ok((Func { ty, locals, body }, rest)),
        Entry::TooMany => {
            let mut locals = ShortList::new(alloc);
            locals.push((u32::MAX, ValType::I32))?;
            let code = List::new(alloc);
            let body = Body { code };
            Ok((Func { ty, locals, body }, rest))
        }
    }
}
