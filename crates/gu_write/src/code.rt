//! The code section (core specification 3.0, 5.5.13 Code Section). Where several processors share its
//! entries these are made in pieces; else they are written in their place.
ghost use Rattle.std.specs.Prelude.{◌≡◌, ◌++◌, IfSome, OnOk, IfErr};
ghost use Rattle.std.specs.List.{AllByRecursion};
ghost use Rattle.gu_syntax.specs.Encoding.{section, encode_items, encode_func};
ghost use Rattle.gu_syntax.specs.Shape.{IsShapedFunc};
ghost use Rattle.gu_write_parts.specs.Limit.{BlamesEnd};
ghost use Rattle.gu_write.specs.Pieces.{ArePieces};

use crate::entries::{Made, funcs_from};
use gu_parallel::Part;
use gu_syntax::Func;
use gu_write_code::write_entries;
use gu_write_parts::{LIMIT, WriteErr, fill_size, leave_size, put_byte, put_bytes, put_size};
use std::alloc::Global;

/// Appends the code section, or nothing where there are no functions (5.5.13 Code Section). Where
/// pieces of it were made they are appended.
///
/// `TooLong` where it would end past 268,435,456 bytes.
pub(crate) fn put_code(
    alloc: Global,
    out: &mut Vec<u8>,
    funcs: &[Func],
    pieces: Option<Vec<Part<Made>>>,
) -> Result<(), WriteErr>
    requires shaped { AllByRecursion IsShapedFunc funcs.now }
    requires pieces { IfSome pieces (λ pieces. ArePieces funcs.now 0 pieces.items) }
    ensures ok { OnOk result (out.new.items ≡ out.old.items ++ section 10 encode_func funcs.now) }
    ensures too_long { IfErr result (BlamesEnd out.old.items (section 10 encode_func funcs.now)) }
{
    if funcs.is_empty() {
        return Ok(());
    }
    put_byte(out, 10)?;
    let place = out.len();
    let room = leave_size(out)?;
    put_size(out, funcs.len())?;
    match pieces {
        None => write_entries(alloc, out, funcs)?,
        Some(pieces) => put_pieces(alloc, out, funcs, pieces)?,
    }
    fill_size(alloc, out, place, room)?;
    Ok(())
}

/// Appends the entries of functions: pieces of them, in order, up to the first one that was not made,
/// whose failure is answered; and behind the last one the entries of which there is no piece.
///
/// `TooLong` too where they would end past 268,435,456 bytes.
fn put_pieces(
    alloc: Global,
    out: &mut Vec<u8>,
    funcs: &[Func],
    pieces: Vec<Part<Made>>,
) -> Result<(), WriteErr>
    requires shaped { AllByRecursion IsShapedFunc funcs.now }
    requires pieces { ArePieces funcs.now 0 pieces.items }
    ensures ok { OnOk result (out.new.items ≡ out.old.items ++ encode_items encode_func funcs.now) }
    ensures too_long { IfErr result (BlamesEnd out.old.items (encode_items encode_func funcs.now)) }
{
    let mut place = 0;
    'pieces: for piece in pieces {
        let bytes = piece.made?;
        put_bytes(out, bytes.as_slice())?;
        place = piece.end;
    }
    write_entries(alloc, out, funcs_from(funcs, place))
}

/// Makes room behind bytes for so many more, and touches it, so that the system gives its pages before
/// they are written. Where there is no memory for it, nothing is different.
pub(crate) fn make_room(out: &mut Vec<u8>, room: usize)
    ensures { out.new.items ≡ out.old.items }
{
    let len = out.len();
    let more = room.min(LIMIT);
    if out.resize(len + more, 0).is_ok() {
        out.truncate(len);
    }
}
