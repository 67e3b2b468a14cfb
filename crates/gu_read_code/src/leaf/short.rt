//! The instructions that most code is of, where they are short.
ghost use Rattle.std.specs.Prelude.{◌≡◌, ◌≤◌, suc, length, IfSome};
ghost use Rattle.gu_syntax.specs.Reading.{leaf_at, u32_at, s32_at, got};
ghost use Rattle.gu_read_code.specs.Codes.{Lacks, block_codes};

use gu_optab::op_of;
use gu_syntax::Instr;

/// An instruction of one index.
macro_rules! with_byte {
    ($make:path, $bytes:expr) => {{
        let (index, rest) = short_u32($bytes)?;
        Some(($make(index), rest))
    }};
}

/// The instruction with this code, where the bytes are those behind the code, if it is one that most
/// code is of and its number takes one byte (5.4 Instructions). `None` says nothing.
#[inline(always)]
pub fn read_short(op: u8, bytes: &[u8]) -> Option<(Instr, &[u8])>
    ensures value { IfSome result (λ x. leaf_at (suc (length bytes.now)) op bytes.now ≡ got x.0 x.1.now) }
    ensures flat { IfSome result (λ _. Lacks block_codes op) }
    ensures behind { IfSome result (λ x. length x.1.now ≤ length bytes.now) }
{
    match op {
        0x0C => with_byte!(Instr::Br, bytes),
        0x0D => with_byte!(Instr::BrIf, bytes),
        0x0F => Some((Instr::Return, bytes)),
        0x10 => with_byte!(Instr::Call, bytes),
        0x1A => Some((Instr::Drop, bytes)),
        0x20 => with_byte!(Instr::LocalGet, bytes),
        0x21 => with_byte!(Instr::LocalSet, bytes),
        0x22 => with_byte!(Instr::LocalTee, bytes),
        0x23 => with_byte!(Instr::GlobalGet, bytes),
        0x24 => with_byte!(Instr::GlobalSet, bytes),
        0x41 => {
            let (value, rest) = short_s32(bytes)?;
            Some((Instr::I32Const(value), rest))
        }
        0x45..=0xC4 => {
            let op = op_of(op)?;
            Some((Instr::Num(op), bytes))
        }
        _ => None,
    }
}

/// An index of one byte.
#[inline(always)]
fn short_u32(bytes: &[u8]) -> Option<(u32, &[u8])>
    ensures value { IfSome result (λ x. u32_at bytes.now ≡ got x.0 x.1.now) }
    ensures behind { IfSome result (λ x. length x.1.now ≤ length bytes.now) }
{
    match bytes.split_first() {
        Some((byte, rest)) if *byte < 128 => Some((u32::from(*byte), rest)),
        _ => None,
    }
}

/// A constant of one byte that is not negative.
#[inline(always)]
fn short_s32(bytes: &[u8]) -> Option<(i32, &[u8])>
    ensures value { IfSome result (λ x. s32_at bytes.now ≡ got x.0 x.1.now) }
    ensures behind { IfSome result (λ x. length x.1.now ≤ length bytes.now) }
{
    match bytes.split_first() {
        Some((byte, rest)) if *byte < 64 => Some((i32::from(*byte), rest)),
        _ => None,
    }
}
