//! Appending bytes, sizes and vectors (core specification 3.0, 5.1.3 Lists, 5.2 Values).
ghost use Rattle.std.specs.Prelude.{◌≡◌, ◌++◌, [], ◌∷◌, ℕ, List, length, OnOk, IfErr};
ghost use Rattle.std.specs.List.{AllByRecursion};
ghost use Rattle.gu_bytes.specs.Numbers.{least_unsigned};
ghost use Rattle.gu_syntax.specs.Encoding.{encode_vector, sized};
ghost use Rattle.gu_write_parts.specs.Limit.{BlamesEnd};

use crate::error::WriteErr;
use gu_bytes::put_u32;
use std::alloc::{AllocError, Global};

/// The most bytes that anything is written as.
pub const LIMIT: usize = 268_435_456;

/// Appends one byte (5.2.1 Bytes). The error says that memory ran out.
pub fn put_byte(out: &mut Vec<u8>, byte: u8) -> Result<(), AllocError>
    ensures { OnOk result (out.new.items ≡ out.old.items ++ byte ∷ []) }
{
    out.push(byte)?;
    Ok(())
}

/// Appends bytes (5.2.1 Bytes).
///
/// `TooLong` where the bytes would end past 268,435,456.
pub fn put_bytes(out: &mut Vec<u8>, bytes: &[u8]) -> Result<(), WriteErr>
    ensures ok { OnOk result (out.new.items ≡ out.old.items ++ bytes.now) }
    ensures too_long { IfErr result (BlamesEnd out.old.items bytes.now) }
{
    if bytes.len() > LIMIT || out.len() > LIMIT - bytes.len() {
        return Err(WriteErr::TooLong);
    }
    out.extend_from_slice(bytes)?;
    Ok(())
}

/// Appends the least spelling of how many bytes or items follow, one to ten bytes (5.2.2 Integers).
/// The error says that memory ran out.
pub fn put_size(out: &mut Vec<u8>, size: usize) -> Result<(), AllocError>
    ensures { OnOk result (out.new.items ≡ out.old.items ++ least_unsigned size) }
{
    let mut rest = size;
    'bytes: while rest >= 128 {
        out.push((rest % 128 + 128) as u8)?;
        rest /= 128;
    }
    out.push(rest as u8)?;
    Ok(())
}

/// Appends how many bytes follow, and the bytes.
///
/// `TooLong` where they would end past 268,435,456.
pub fn put_sized(out: &mut Vec<u8>, content: &[u8]) -> Result<(), WriteErr>
    ensures ok { OnOk result (out.new.items ≡ out.old.items ++ sized content.now) }
    ensures too_long { IfErr result (BlamesEnd out.old.items (sized content.now)) }
{
    put_size(out, content.len())?;
    put_bytes(out, content)
}

/// A form in which the items of a vector are written.
pub trait Form<T> {
    ghost text: { T → List ℕ };

    ghost is_shaped: { T → Type 0 };

    /// Appends the text of an item, which is shaped.
    ///
    /// `TooLong` where it would end past 268,435,456 bytes.
    fn put(alloc: Global, out: &mut Vec<u8>, item: &T) -> Result<(), WriteErr>
        requires { is_shaped item.now }
        ensures ok { OnOk result (out.new.items ≡ out.old.items ++ text item.now) }
        ensures too_long { IfErr result (BlamesEnd out.old.items (text item.now)) };
}

/// Appends a vector: how many items, and the items (5.1.3 Lists).
///
/// `TooLong` where it would end past 268,435,456 bytes.
pub fn put_vector<F: Form<T>, T>(
    alloc: Global,
    out: &mut Vec<u8>,
    items: &[T],
) -> Result<(), WriteErr>
    requires { AllByRecursion F.is_shaped items.now }
    ensures ok { OnOk result (out.new.items ≡ out.old.items ++ encode_vector F.text items.now) }
    ensures too_long { IfErr result (BlamesEnd out.old.items (encode_vector F.text items.now)) }
{
    put_size(out, items.len())?;
    'items: for item in items {
        F::put(alloc, out, item)?;
        if out.len() > LIMIT {
            return Err(WriteErr::TooLong);
        }
    }
    Ok(())
}

/// Indices, as unsigned integers of 32 bits (5.5.1 Indices).
pub struct IndexForm;

impl Form<u32> for IndexForm {
    ghost use Rattle.gu_bytes.specs.Numbers.{least_unsigned};
    ghost use Rattle.gu_syntax.specs.Shape.{FitsU32};

    ghost text = { least_unsigned };

    ghost is_shaped = { FitsU32 };

    fn put(alloc: Global, out: &mut Vec<u8>, index: &u32) -> Result<(), WriteErr> {
        put_u32(alloc, out, *index)?;
        Ok(())
    }
}
