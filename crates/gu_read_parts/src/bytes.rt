//! Bytes with their count, names, contents of a size, and fixed bytes.
ghost use Rattle.std.specs.Prelude.{◌≡◌, ◌≢◌, ◌+◌, ◌<◌, ◌≤◌, ◌^◌, [], ◌∷◌, length, IfOk, IfErr};
ghost use Rattle.gu_syntax.specs.Reading.{Read, Size, whole, fixed_at, bytes_at, name_at};
ghost use Rattle.gu_read_parts.specs.Gives.{Gives, GivesAs, GivesRest, left_of, left_behind};
ghost use Rattle.gu_read_parts.specs.Gives.{item_of, front_as};

use crate::numbers::read_u32_as;
use crate::stop::{Asked, Stop};
use gu_types::List;
use std::alloc::Global;

/// How many bytes follow, and so many bytes, before the bytes behind them. A count of more than there
/// are is refused, as what it is asked as, at its own place.
fn read_front(asked: Asked, bytes: &[u8]) -> Result<(&[u8], &[u8]), Stop>
    ensures value { GivesAs (λ front. front.now) result (front_as (item_of asked) bytes.now) }
    ensures inside { left_of result ≤ length bytes.now }
    ensures parts { IfOk result (λ x. length x.0.now + length x.1.now ≤ length bytes.now) }
    ensures memory { IfErr result (λ stop. stop ≢ Stop.NoMemory) }
{
    let (size, rest) = read_u32_as(asked, bytes)?;
    let size = size as usize;
    if rest.len() < size {
        return Err(Stop::at(asked, bytes));
    }
    Ok(rest.split_at(size))
}

/// How many bytes follow, and a content of so many bytes, before the bytes behind it (core
/// specification 3.0, 5.5.2 Sections, 5.5.13 Code Section). What is read of the content is to be
/// closed by `close`.
pub fn read_content(bytes: &[u8]) -> Result<(&[u8], &[u8]), Stop>
    ensures value { GivesAs (λ front. front.now) result (front_as Size bytes.now) }
    ensures inside { left_of result ≤ length bytes.now }
    ensures parts { IfOk result (λ x. length x.0.now + length x.1.now ≤ length bytes.now) }
    ensures memory { IfErr result (λ stop. stop ≢ Stop.NoMemory) }
{
    read_front(Asked::Size, bytes)
}

/// What was read of a content that is read whole, where `behind` stands behind the content. What is
/// left over of the content is refused where it begins.
pub fn close<'a, T: Drop>(
    inside: Result<(T, &'a [u8]), Stop>,
    behind: &'a [u8],
) -> Result<(T, &'a [u8]), Stop>
    requires { left_of inside + length behind.now < 2 ^ 64 }
    ensures value { (read : Read T) → Gives inside.entry read → Gives result (whole behind.entry.now read) }
    ensures inside { left_of result ≤ left_of inside.entry + length behind.entry.now }
{
    match inside {
        Ok((value, rest)) => {
            if rest.is_empty() {
                Ok((value, behind))
            } else {
                Err(Stop::Refused {
                    asked: Asked::End,
                    left: rest.len() + behind.len(),
                })
            }
        }
        Err(stop) => Err(stop.before(behind)),
    }
}

/// Bytes with their count before them, as they stand there (5.1.3 Lists).
pub fn read_bytes(bytes: &[u8]) -> Result<(&[u8], &[u8]), Stop>
    ensures value { GivesAs (λ front. front.now) result (bytes_at bytes.now) }
    ensures inside { left_of result ≤ length bytes.now }
{
    read_front(Asked::Bytes, bytes)
}

/// A name: bytes in UTF-8 with their count before them (5.2.4 Names). It is refused at its count where
/// they are not in UTF-8.
pub fn read_text(bytes: &[u8]) -> Result<(&[u8], &[u8]), Stop>
    ensures value { GivesAs (λ text. text.now) result (name_at bytes.now) }
    ensures inside { left_of result ≤ length bytes.now }
{
    let (name, rest) = read_bytes(bytes)?;
    match std::str::from_utf8(name) {
        Ok(_) => Ok((name, rest)),
        Err(_) => Err(Stop::at(Asked::Bytes, bytes)),
    }
}

/// A name, as `read_text` gives it, in a list of its own.
pub fn read_name(alloc: Global, bytes: &[u8]) -> Result<(List<u8>, &[u8]), Stop>
    ensures value { Gives result (name_at bytes.now) }
    ensures inside { left_of result ≤ length bytes.now }
{
    let (text, rest) = read_text(bytes)?;
    Ok((List::from_vec(Vec::from_slice(alloc, text)?), rest))
}

/// Passes this byte, which is refused where another stands (5.2.1 Bytes).
pub fn pass(asked: Asked, byte: u8, bytes: &[u8]) -> Result<&[u8], Stop>
    ensures value { GivesRest result (fixed_at (item_of asked) (byte ∷ []) bytes.now) }
    ensures inside { left_behind result ≤ length bytes.now }
{
    match bytes.split_first() {
        Some((first, rest)) if *first == byte => Ok(rest),
        _ => Err(Stop::at(asked, bytes)),
    }
}
