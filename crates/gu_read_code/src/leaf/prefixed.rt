//! Operators, and instructions that have a number behind a prefix.
ghost use Rattle.std.specs.Prelude.{◌≡◌, ◌+◌, ◌<◌, ◌≤◌, suc, length, IfOk, IfSome, option_map};
ghost use Rattle.gu_bytes.specs.Reading.{unsigned_at};
ghost use Rattle.gu_syntax.specs.Reading.{leaf_at};
ghost use Rattle.gu_read_parts.specs.Gives.{Gives, left_of};
ghost use Rattle.gu_read_code.specs.Codes.{Lacks, variable_codes, control_codes, reference_codes};
ghost use Rattle.gu_read_code.specs.Codes.{load_codes, store_codes, prefix_codes};

use crate::leaf::aggregate::read_structure;
use crate::leaf::bulk::read_bulk;
use gu_bytes::Cursor;
use gu_optab::op_of;
use gu_read_parts::{Asked, Stop};
use gu_syntax::Instr;
use std::alloc::Global;

/// Instructions that have a number behind a prefix.
#[inline(never)]
pub fn read_prefixed(alloc: Global, op: u8, bytes: &[u8]) -> Result<(Instr, &[u8]), Stop>
    requires variable { Lacks variable_codes op }
    requires control { Lacks control_codes op }
    requires reference { Lacks reference_codes op }
    requires load { Lacks load_codes op }
    requires store { Lacks store_codes op }
    ensures value { Gives result (leaf_at (suc (length bytes.now)) op bytes.now) }
    ensures inside { left_of result ≤ length bytes.now + 1 }
    ensures behind { IfOk result (λ x. length x.1.now ≤ length bytes.now) }
{
    if op != 0xFB && op != 0xFC {
        return read_operator(op, bytes);
    }
    let left = bytes.len() + 1;
    let Some((code, rest)) = read_number(bytes) else {
        return Err(Stop::Refused {
            asked: Asked::Opcode,
            left,
        });
    };
    if op == 0xFB {
        read_structure(alloc, code, left, rest)
    } else {
        read_bulk(code, left, rest)
    }
}

/// The number behind a prefix, if the bytes begin with one.
#[inline(always)]
fn read_number(bytes: &[u8]) -> Option<(u32, &[u8])>
    ensures value { option_map (λ x. (x.0, x.1.now)) result ≡ unsigned_at 32 bytes.now }
    ensures inside { IfSome result (λ x. length x.1.now ≤ length bytes.now) }
{
    match bytes.split_first() {
        Some((byte, rest)) if *byte < 128 => Some((u32::from(*byte), rest)),
        _ => read_long_number(bytes),
    }
}

/// The same of more bytes than one.
#[inline(never)]
fn read_long_number(bytes: &[u8]) -> Option<(u32, &[u8])>
    ensures value { option_map (λ x. (x.0, x.1.now)) result ≡ unsigned_at 32 bytes.now }
    ensures inside { IfSome result (λ x. length x.1.now ≤ length bytes.now) }
{
    let mut cursor = Cursor::new(bytes);
    match cursor.read_u32() {
        Ok(code) => Some((code, &bytes[cursor.at()..])),
        Err(_) => None,
    }
}

/// The operators (5.4.7 Numeric Instructions).
#[inline(always)]
#[tactic(auto, using(crate::proofs::Rows::operator_leaf))]
pub fn read_operator(op: u8, bytes: &[u8]) -> Result<(Instr, &[u8]), Stop>
    requires variable { Lacks variable_codes op }
    requires control { Lacks control_codes op }
    requires reference { Lacks reference_codes op }
    requires load { Lacks load_codes op }
    requires store { Lacks store_codes op }
    requires prefix { Lacks prefix_codes op }
    ensures value { Gives result (leaf_at (suc (length bytes.now)) op bytes.now) }
    ensures inside { left_of result ≤ length bytes.now + 1 }
    ensures behind { IfOk result (λ x. length x.1.now ≤ length bytes.now) }
{
    match op_of(op) {
        Some(op) => Ok((Instr::Num(op), bytes)),
        None => Err(Stop::Refused {
            asked: Asked::Opcode,
            left: bytes.len() + 1,
        }),
    }
}
