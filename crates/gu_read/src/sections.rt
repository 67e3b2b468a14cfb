//! Sections: an id, a size and a content, and custom sections behind them (core specification 3.0,
//! 5.5.2 Sections, 5.5.3 Custom Section).
ghost use Rattle.std.specs.Prelude.{◌≡◌, ◌≤◌, ◌∷◌, [], length, None};
ghost use Rattle.gu_syntax.specs.Reading.{Size, HeaderByte, fixed_at, name_at, rest_at, both_at, made_at};
ghost use Rattle.gu_syntax.specs.Reading.{sized_at, custom_of, customs_at, section_at, list_at};
ghost use Rattle.gu_syntax.specs.Reading.{u32_at, some, entries_at, bodies_at, segs_at};
ghost use Rattle.gu_syntax.specs.Module.{header};
ghost use Rattle.gu_read_parts.specs.Gives.{Gives, GivesRest, left_of, left_behind};
ghost use Rattle.gu_read.specs.Standing.{AllStandFor, GivesBy, GivesPast};

use crate::entries::read_entries;
use crate::items::Segs;
use crate::weighed::WeighedFuncs;
use gu_read_parts::{
    Asked, Index, Part, Stop, close, pass, read_content, read_items, read_text, read_u32,
    read_vector,
};
use gu_syntax::Seg;
use gu_types::List;
use std::alloc::Global;
use std::thread::Threads;

/// The magic number and the version (5.5.17 Modules).
const HEADER: [u8; 8] = [0x00, 0x61, 0x73, 0x6D, 0x01, 0x00, 0x00, 0x00];

/// Passes the magic number and the version.
pub fn pass_header(bytes: &[u8]) -> Result<&[u8], Stop>
    ensures value { GivesRest result (fixed_at HeaderByte header bytes.now) }
    ensures inside { left_behind result ≤ length bytes.now }
{
    let mut rest = bytes;
    'header: for byte in &HEADER {
        rest = pass(Asked::HeaderByte, *byte, rest)?;
    }
    Ok(rest)
}

/// Passes custom sections while there are any.
pub fn pass_customs(bytes: &[u8]) -> Result<&[u8], Stop>
    ensures value { GivesPast result (customs_at bytes.now) }
    ensures inside { left_behind result ≤ length bytes.now }
{
    let mut rest = bytes;
    'customs: while let Some((0x00, behind)) = rest.split_first() {
        rest = pass_custom(behind)?;
    }
    Ok(rest)
}

/// Passes a custom section, behind its id: a size, and a name and bytes that fill it.
fn pass_custom(bytes: &[u8]) -> Result<&[u8], Stop>
    ensures value { GivesPast result (sized_at (made_at custom_of (both_at name_at rest_at)) bytes.now) }
    ensures inside { left_behind result ≤ length bytes.now }
{
    let (content, rest) = read_content(bytes)?;
    match read_text(content) {
        Ok(_) => Ok(rest),
        Err(stop) => Err(stop.before(rest)),
    }
}

/// The section with this id, whose content is a vector, and the custom sections behind it. It has no
/// items where it is absent.
pub fn read_list<P: Part>(
    alloc: Global,
    id: u8,
    bytes: &[u8],
) -> Result<(List<P::Value>, &[u8]), Stop>
    ensures value { Gives result (list_at id P.at bytes.now) }
    ensures inside { left_of result ≤ length bytes.now }
{
    match bytes.split_first() {
        Some((first, behind)) if *first == id => {
            let (content, rest) = read_content(behind)?;
            let (items, rest) = close(read_vector::<P>(alloc, content), rest)?;
            let rest = pass_customs(rest)?;
            Ok((items, rest))
        }
        _ => Ok((List::new(alloc), bytes)),
    }
}

/// The section with this id, whose content is a number, and the custom sections behind it. There is no
/// number where it is absent.
pub fn read_number(id: u8, bytes: &[u8]) -> Result<(Option<u32>, &[u8]), Stop>
    ensures value { Gives result (section_at id None (made_at some u32_at) bytes.now) }
    ensures inside { left_of result ≤ length bytes.now }
{
    match bytes.split_first() {
        Some((first, behind)) if *first == id => {
            let (content, rest) = read_content(behind)?;
            let (number, rest) = close(read_some(content), rest)?;
            let rest = pass_customs(rest)?;
            Ok((number, rest))
        }
        _ => Ok((None, bytes)),
    }
}

/// A number that is there.
fn read_some(bytes: &[u8]) -> Result<(Option<u32>, &[u8]), Stop>
    ensures value { Gives result (made_at some u32_at bytes.now) }
    ensures inside { left_of result ≤ length bytes.now }
{
    let (number, rest) = read_u32(bytes)?;
    Ok((Some(number), rest))
}

/// The code section for functions of these types, and the custom sections behind it. It has no entries
/// where it is absent (5.5.13 Code Section).
pub fn read_code<'a>(
    rt: &(impl Threads + Sync),
    alloc: Global,
    tys: &'a [u32],
    bytes: &'a [u8],
) -> Result<(WeighedFuncs, &'a [u8]), Stop>
    ensures value { GivesBy AllStandFor result (section_at 10 [] (bodies_at 1000 tys.now) bytes.now) }
    ensures inside { left_of result ≤ length bytes.now }
{
    match bytes.split_first() {
        Some((10, behind)) => {
            let (content, rest) = read_content(behind)?;
            let (funcs, rest) = close(read_bodies(rt, alloc, tys, content), rest)?;
            let rest = pass_customs(rest)?;
            Ok((funcs, rest))
        }
        _ => Ok((WeighedFuncs::new(alloc), bytes)),
    }
}

/// The content of the code section for functions of these types: how many entries, and an entry for
/// each type.
fn read_bodies<'a>(
    rt: &(impl Threads + Sync),
    alloc: Global,
    tys: &'a [u32],
    bytes: &'a [u8],
) -> Result<(WeighedFuncs, &'a [u8]), Stop>
    ensures value { GivesBy AllStandFor result (bodies_at 1000 tys.now bytes.now) }
    ensures inside { left_of result ≤ length bytes.now }
{
    let (count, rest) = read_u32(bytes)?;
    if count as usize != tys.len() {
        return Err(Stop::at(Asked::Number, bytes));
    }
    read_entries(rt, alloc, tys, rest)
}

/// The data section, and the custom sections behind it, where this many segments are said before, if a
/// number is. It has no segments where it is absent (5.5.14 Data Section).
pub fn read_data(alloc: Global, said: Option<u32>, bytes: &[u8]) -> Result<(List<Seg>, &[u8]), Stop>
    ensures value { Gives result (section_at 11 [] (segs_at 1000 said) bytes.now) }
    ensures inside { left_of result ≤ length bytes.now }
{
    match bytes.split_first() {
        Some((11, behind)) => {
            let (content, rest) = read_content(behind)?;
            let (segs, rest) = close(read_segs(alloc, said, content), rest)?;
            let rest = pass_customs(rest)?;
            Ok((segs, rest))
        }
        _ => Ok((List::new(alloc), bytes)),
    }
}

/// The content of the data section.
fn read_segs(alloc: Global, said: Option<u32>, bytes: &[u8]) -> Result<(List<Seg>, &[u8]), Stop>
    ensures value { Gives result (segs_at 1000 said bytes.now) }
    ensures inside { left_of result ≤ length bytes.now }
{
    let (count, rest) = read_u32(bytes)?;
    if let Some(number) = said
        && number != count
    {
        return Err(Stop::at(Asked::Number, bytes));
    }
    read_items::<Segs>(alloc, count, rest)
}
