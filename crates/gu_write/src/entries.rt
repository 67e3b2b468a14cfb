//! The entries of the code section (core specification 3.0, 5.5.13 Code Section) as work that several
//! threads share. A place is the number of a function, and a part is some functions in a row.
ghost use Rattle.std.specs.Prelude.{◌≡◌, ◌<◌, ◌≤◌, drop, length};
ghost use Rattle.std.specs.List.{AllByRecursion};
ghost use Rattle.gu_syntax.specs.Shape.{IsShapedFunc};
ghost use Rattle.gu_write.specs.Pieces.{IsPiece, IsPieceOf};

use gu_parallel::Work;
use gu_syntax::Func;
use gu_write_code::write_entries;
use gu_write_parts::WriteErr;
use std::alloc::Global;

/// The bytes of a piece, or why there are none.
pub(crate) type Made = Result<Vec<u8>, WriteErr>;

/// The work of a piece: instructions that stand outside blocks, and more for each function.
const PIECE_WORK: usize = 16384;

/// The work that a function is beside its instructions.
const FUNC_WORK: usize = 16;

/// How many bytes a piece has room for at first.
const PIECE_ROOM: usize = 32768;

/// Functions whose entries are made in pieces of about equal work.
#[derive(Drop)]
pub(crate) struct Entries<'a> {
    /// Where the memory of the pieces comes from.
    pub(crate) alloc: Global,
    /// The functions.
    pub(crate) funcs: &'a [Func],
}

impl Work for Entries<'_> {
    type Made = Made;

    ghost ready = { λ entries. AllByRecursion IsShapedFunc entries.funcs.now };

    ghost ends = { λ entries start end. start ≤ end };

    ghost makes = { λ entries start end made. IsPieceOf entries.funcs.now start end made };

    fn end_of(&self, start: u64) -> u64 {
        start + piece_len(funcs_from(self.funcs, start)) as u64
    }

    fn make(&self, start: u64, end: u64) -> Made {
        let rest = funcs_from(self.funcs, start);
        let count = ((end - start) as usize).min(rest.len());
        let (funcs, _) = rest.split_at(count);
        piece(self.alloc, funcs)
    }
}

/// The functions from a place on: none where that is behind the last one.
pub(crate) fn funcs_from(funcs: &[Func], start: u64) -> &[Func]
    ensures { result.now ≡ drop start funcs.now }
{
    let (_, rest) = funcs.split_at((start as usize).min(funcs.len()));
    rest
}

/// How many of these functions make the first piece.
pub(crate) fn piece_len(funcs: &[Func]) -> usize
    ensures some { 0 < length funcs.now → 0 < result }
    ensures within { result ≤ length funcs.now }
{
    let mut work = 0;
    for (index, func) in funcs.iter().enumerate() {
        work += FUNC_WORK + func.body.code.as_slice().len().min(PIECE_WORK);
        if work >= PIECE_WORK {
            return index + 1;
        }
    }
    funcs.len()
}

/// The entries of functions, one behind the other.
fn piece(alloc: Global, funcs: &[Func]) -> Made
    requires { AllByRecursion IsShapedFunc funcs.now }
    ensures { IsPiece funcs.now result }
{
    let mut out = Vec::with_capacity(alloc, PIECE_ROOM)?;
    write_entries(alloc, &mut out, funcs)?;
    Ok(out)
}
