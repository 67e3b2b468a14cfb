//! The reader of modules, within its limits.
ghost use Rattle.std.specs.Prelude.{◌≡◌, IfOk, IfErr};
ghost use Rattle.gu_syntax.specs.declared.module.Module.{Module as Tree};
ghost use Rattle.gu_read_parts.specs.declared.answer.ReadErr.TheVariants as E;
ghost use Rattle.gu_read.specs.ReadsModule.{Reads, Refused};

use crate::limits::first_exceeded;
use crate::module::read_whole;
use gu_read_parts::{ReadErr, Which, refusal};
use gu_syntax::Module;
use std::alloc::Global;
use std::thread::Threads;

/// How many bytes are read, at most.
const MOST: usize = 16_777_216;

/// The module that the bytes spell (core specification 3.0, 5.5.17 Modules), where it is within the
/// limits. Places are counted in bytes from the start. It takes memory and time in the length of the
/// bytes, and the code section is read in parallel.
///
/// The limits, in the order in which they are answered: 16,777,216 bytes (answered before anything is
/// read, with that number); 1,000 blocks open at once in a body or a constant expression (answered
/// while the bytes are read, with the place of the block); and, once all bytes are read, 1,000,000
/// types, functions and globals, imported ones included (with the count), 1,000 parameters and
/// results of a function type and 10,000 fields of a structure type (with the index of the first such
/// type), 50,000 locals of a function (with its index among the defined ones), 4,000,000 locals of
/// the module (with the count), 63 supertypes above a type (with the index of the first such type).
/// `Malformed` and `OutOfProfile` come at the first place, from the left, where what the grammar asks
/// does not stand; `NoMemory` where memory is refused.
pub fn read_module(
    rt: &(impl Threads + Sync),
    alloc: Global,
    bytes: &[u8],
) -> Result<Module, ReadErr>
    ensures ok { IfOk result (λ m. Reads bytes.now m) }
    ensures refused { IfErr result (λ e. Refused bytes.now e) }
    ensures complete { (m : Tree) → Reads bytes.now m → IfErr result (λ e. e ≡ E.NoMemory) }
{
    if MOST < bytes.len() {
        return Err(ReadErr::Limit {
            which: Which::Size,
            at: MOST as u64,
        });
    }
    let weighed = match read_whole(rt, alloc, bytes) {
        Ok(weighed) => weighed,
        Err(stop) => return Err(refusal(bytes, stop)),
    };
    let Ok(found) = first_exceeded(alloc, &weighed) else {
        return Err(ReadErr::NoMemory);
    };
    match found {
        Some((which, at)) => Err(ReadErr::Limit { which, at }),
        None => Ok(weighed.into_module()),
    }
}
