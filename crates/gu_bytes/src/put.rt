//! Writing integers in their least spelling (core specification 3.0, 5.2.2 Integers).
ghost use Rattle.std.specs.Prelude.{◌++◌, ◌≡◌, OnErr, OnOk};
ghost use Rattle.gu_bytes.specs.Numbers.{least_unsigned, least_signed, FitsBits};
ghost use Rattle.gu_bytes.specs.Reads.{GrowsByFront};

use std::alloc::{AllocError, Global};

/// Appends the least spelling of an unsigned integer of 32 bits, one to five bytes (core
/// specification 3.0, 5.2.2 Integers).
///
/// The error says that memory ran out; then a front of the spelling, maybe all or none of it, is
/// appended.
pub fn put_u32(alloc: Global, out: &mut Vec<u8>, v: u32) -> Result<(), AllocError>
    ensures written { OnOk result (out.new.items ≡ out.old.items ++ least_unsigned v) }
    ensures partly { OnErr result (GrowsByFront (least_unsigned v) out.old.items out.new.items) }
{
    let _ = alloc;
    put_unsigned(out, u64::from(v))
}

/// Appends the least spelling of a signed integer of 32 bits, one to five bytes (core specification
/// 3.0, 5.2.2 Integers).
///
/// The error says that memory ran out; then a front of the spelling, maybe all or none of it, is
/// appended.
pub fn put_s32(alloc: Global, out: &mut Vec<u8>, v: i32) -> Result<(), AllocError>
    ensures written { OnOk result (out.new.items ≡ out.old.items ++ least_signed v) }
    ensures partly { OnErr result (GrowsByFront (least_signed v) out.old.items out.new.items) }
{
    let _ = alloc;
    put_signed(out, i64::from(v))
}

/// Appends the least spelling of a signed integer of 33 bits, as a block type's index is spelled, one
/// to five bytes (core specification 3.0, 5.2.2 Integers). `v` is within 33 bits.
///
/// The error says that memory ran out; then a front of the spelling, maybe all or none of it, is
/// appended.
pub fn put_s33(alloc: Global, out: &mut Vec<u8>, v: i64) -> Result<(), AllocError>
    requires { FitsBits 33 v }
    ensures written { OnOk result (out.new.items ≡ out.old.items ++ least_signed v) }
    ensures partly { OnErr result (GrowsByFront (least_signed v) out.old.items out.new.items) }
{
    let _ = alloc;
    put_signed(out, v)
}

/// Appends the least spelling of a signed integer of 64 bits, one to ten bytes (core specification
/// 3.0, 5.2.2 Integers).
///
/// The error says that memory ran out; then a front of the spelling, maybe all or none of it, is
/// appended.
pub fn put_s64(alloc: Global, out: &mut Vec<u8>, v: i64) -> Result<(), AllocError>
    ensures written { OnOk result (out.new.items ≡ out.old.items ++ least_signed v) }
    ensures partly { OnErr result (GrowsByFront (least_signed v) out.old.items out.new.items) }
{
    let _ = alloc;
    put_signed(out, v)
}

fn put_unsigned(out: &mut Vec<u8>, v: u64) -> Result<(), AllocError>
    ensures written { OnOk result (out.new.items ≡ out.old.items ++ least_unsigned v) }
    ensures partly { OnErr result (GrowsByFront (least_unsigned v) out.old.items out.new.items) }
{
    let mut rest = v;
    'bytes: while rest >= 128 {
        out.push((rest % 128 + 128) as u8)?;
        rest /= 128;
    }
    out.push(rest as u8)?;
    Ok(())
}

fn put_signed(out: &mut Vec<u8>, v: i64) -> Result<(), AllocError>
    ensures written { OnOk result (out.new.items ≡ out.old.items ++ least_signed v) }
    ensures partly { OnErr result (GrowsByFront (least_signed v) out.old.items out.new.items) }
{
    let mut rest = v;
    'bytes: while rest < -64 || 64 <= rest {
        out.push((rest.rem_euclid(128) + 128) as u8)?;
        rest >>= 7;
    }
    out.push(rest.rem_euclid(128) as u8)?;
    Ok(())
}
