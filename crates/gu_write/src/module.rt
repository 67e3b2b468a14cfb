//! Modules (core specification 3.0, 5.5 Modules).
ghost use Rattle.std.specs.Prelude.{◌≡◌, ◌++◌, ◌≤◌, length, IfOk, IfSome, OnOk, IfErr};
ghost use Rattle.std.specs.List.{AllByRecursion};
ghost use Rattle.gu_syntax.specs.Encoding.{section};
ghost use Rattle.gu_syntax.specs.declared.module.Module as tree;
ghost use Rattle.gu_syntax.specs.Encoding.{encoding, encode_start, encode_count};
ghost use Rattle.gu_syntax.specs.Module.{Spells};
ghost use Rattle.gu_syntax.specs.Shape.{IsShaped};
ghost use Rattle.gu_write_parts.specs.Limit.{BlamesLength, BlamesEnd};
ghost use Rattle.gu_write.specs.Parts.{types_text, values_text, front_text};
ghost use Rattle.gu_write.specs.Pieces.{ArePieces};

use crate::code::{make_room, put_code};
use crate::entries::{Entries, Made, piece_len};
use crate::items::{
    ExportForm, GlobalForm, ImportForm, MemoryForm, TableForm, TagForm, TypeIndexForm,
};
use crate::segments::{ElemForm, SegForm};
use crate::types::GroupForm;
use gu_bytes::put_u32;
use gu_parallel::{Part, do_parts};
use gu_syntax::Module;
use gu_syntax::laws::one_reading;
use gu_write_parts::{
    Form, LIMIT, WriteErr, fill_size, leave_size, put_byte, put_size, put_sized, put_vector,
};
use rayon::current_num_threads;
use std::alloc::Global;
use std::thread::Threads;

/// The first bytes of a module: its magic and its version (5.5.17 Modules).
const HEADER: [u8; 8] = [0x00, 0x61, 0x73, 0x6D, 0x01, 0x00, 0x00, 0x00];

/// For how many bytes of each function there is room behind what is before the code.
const FUNC_ROOM: usize = 32;

/// The one least text of a module, at most 268,435,456 bytes: it spells the module and no other (core
/// specification 3.0, 5.5.17 Modules). Threads share its code, where that is large, two for each
/// processor but one: this one too, once it has written what is before the code. What none of them takes
/// of the code is written in this one at the end.
///
/// `TooLong` exactly where the text has more than 268,435,456 bytes.
pub fn write_module(
    rt: &(impl Threads + Sync),
    alloc: Global,
    m: &Module,
) -> Result<Vec<u8>, WriteErr>
    requires { IsShaped m.now }
    ensures text { IfOk result (λ bytes. bytes.items ≡ encoding m.now) }
    ensures short { IfOk result (λ bytes. length bytes.items ≤ 268435456) }
    ensures spells { IfOk result (λ bytes. Spells bytes.items m.now) }
    ensures only { IfOk result (λ bytes. (n : tree.Module) → Spells bytes.items n → n ≡ m.now) }
    ensures too_long { IfErr result (BlamesLength (encoding m.now)) }
{
    one_reading();
    let (before, pieces) = put_front(rt, alloc, m)?;
    let mut out = before;
    put_code(alloc, &mut out, m.funcs.as_slice(), pieces)?;
    put_section::<SegForm, _>(alloc, &mut out, 11, m.segs.as_slice())?;
    if out.len() > LIMIT {
        return Err(WriteErr::TooLong);
    }
    Ok(out)
}

/// What is before the code, and at the same time pieces of the code, where there are several processors
/// and the code is large.
///
/// `TooLong` where that would end past 268,435,456 bytes.
fn put_front<R: Threads + Sync>(
    rt: &R,
    alloc: Global,
    m: &Module,
) -> Result<(Vec<u8>, Option<Vec<Part<Made>>>), WriteErr>
    requires { IsShaped m.now }
    ensures text { IfOk result (λ made. made.0.items ≡ front_text m.now) }
    ensures pieces { IfOk result (λ made. IfSome made.1 (λ pieces. ArePieces m.now.funcs 0 pieces.items)) }
    ensures too_long { IfErr result (BlamesLength (front_text m.now)) }
{
    let funcs = m.funcs.as_slice();
    let count = funcs.len();
    if current_num_threads(rt) < 2 || piece_len(funcs) == count {
        return Ok((front(alloc, m, 0)?, None));
    }
    let entries = Entries { alloc, funcs };
    let (before, pieces) = do_parts(
        rt,
        alloc,
        &entries,
        count as u64,
        count,
        || -> Made
            requires { IsShaped m.now }
            ensures text { IfOk result (λ out. out.items ≡ front_text m.entry.now) }
            ensures too_long { IfErr result (BlamesLength (front_text m.entry.now)) }
        { front(alloc, m, count.saturating_mul(FUNC_ROOM)) },
    );
    Ok((before?, Some(pieces?)))
}

/// What is before the code, with room behind it for so many more bytes.
///
/// `TooLong` where it would end past 268,435,456 bytes.
fn front(alloc: Global, m: &Module, room: usize) -> Made
    requires { IsShaped m.now }
    ensures text { IfOk result (λ out. out.items ≡ front_text m.now) }
    ensures too_long { IfErr result (BlamesLength (front_text m.now)) }
{
    let mut out = Vec::from_slice(alloc, &HEADER)?;
    put_types(alloc, &mut out, m)?;
    put_values(alloc, &mut out, m)?;
    if room > 0 {
        make_room(&mut out, room);
    }
    Ok(out)
}

/// Appends the sections up to the tags.
fn put_types(alloc: Global, out: &mut Vec<u8>, m: &Module) -> Result<(), WriteErr>
    requires { IsShaped m.now }
    ensures ok { OnOk result (out.new.items ≡ out.old.items ++ types_text m.now) }
    ensures too_long { IfErr result (BlamesEnd out.old.items (types_text m.now)) }
{
    put_section::<GroupForm, _>(alloc, out, 1, m.types.groups.as_slice())?;
    put_section::<ImportForm, _>(alloc, out, 2, m.imports.as_slice())?;
    put_section::<TypeIndexForm, _>(alloc, out, 3, m.funcs.as_slice())?;
    put_section::<TableForm, _>(alloc, out, 4, m.tables.as_slice())?;
    put_section::<MemoryForm, _>(alloc, out, 5, m.memories.as_slice())?;
    put_section::<TagForm, _>(alloc, out, 13, m.tags.as_slice())
}

/// Appends the sections from the globals up to the code.
fn put_values(alloc: Global, out: &mut Vec<u8>, m: &Module) -> Result<(), WriteErr>
    requires { IsShaped m.now }
    ensures ok { OnOk result (out.new.items ≡ out.old.items ++ values_text m.now) }
    ensures too_long { IfErr result (BlamesEnd out.old.items (values_text m.now)) }
{
    put_section::<GlobalForm, _>(alloc, out, 6, m.globals.as_slice())?;
    put_section::<ExportForm, _>(alloc, out, 7, m.exports.as_slice())?;
    put_start(alloc, out, m.start)?;
    put_section::<ElemForm, _>(alloc, out, 9, m.elems.as_slice())?;
    put_count(alloc, out, m.has_count, m.segs.as_slice().len())
}

/// Appends a section, or nothing where there are no items (5.5.2 Sections).
fn put_section<F: Form<T>, T>(
    alloc: Global,
    out: &mut Vec<u8>,
    id: u8,
    items: &[T],
) -> Result<(), WriteErr>
    requires { AllByRecursion F.is_shaped items.now }
    ensures ok { OnOk result (out.new.items ≡ out.old.items ++ section id F.text items.now) }
    ensures too_long { IfErr result (BlamesEnd out.old.items (section id F.text items.now)) }
{
    if items.is_empty() {
        return Ok(());
    }
    put_byte(out, id)?;
    let place = out.len();
    let room = leave_size(out)?;
    put_vector::<F, T>(alloc, out, items)?;
    fill_size(alloc, out, place, room)?;
    Ok(())
}

/// Appends the start section, or nothing where there is no such function (5.5.11 Start Section).
fn put_start(alloc: Global, out: &mut Vec<u8>, start: Option<u32>) -> Result<(), WriteErr>
    ensures ok { OnOk result (out.new.items ≡ out.old.items ++ encode_start start) }
    ensures too_long { IfErr result (BlamesEnd out.old.items (encode_start start)) }
{
    match start {
        None => Ok(()),
        Some(func) => {
            let mut content = Vec::new(alloc);
            put_u32(alloc, &mut content, func)?;
            put_byte(out, 0x08)?;
            put_sized(out, content.as_slice())
        }
    }
}

/// Appends the data count section, or nothing where the module does not say how many data segments
/// there are (5.5.15 Data Count Section).
fn put_count(
    alloc: Global,
    out: &mut Vec<u8>,
    has_count: bool,
    count: usize,
) -> Result<(), WriteErr>
    ensures ok { OnOk result (out.new.items ≡ out.old.items ++ encode_count has_count count) }
    ensures too_long { IfErr result (BlamesEnd out.old.items (encode_count has_count count)) }
{
    if !has_count {
        return Ok(());
    }
    let mut content = Vec::new(alloc);
    put_size(&mut content, count)?;
    put_byte(out, 0x0C)?;
    put_sized(out, content.as_slice())
}
