//! The table of the operators.
ghost use Rattle.std.specs.Prelude.{◌≡◌, ◌≢◌, ◌<◌, ℕ, List, ◌==◌, position, Some, IfSome, IfNone};
ghost use Rattle.gu_optab.specs.Operators.{operators, row, row_at, operator_with};

use crate::op::NumType::{I32, I64};
use crate::op::{NumOp, NumType};
use std::marker::Model;

/// What the table says of one operator.
#[derive(Clone, Copy, Debug)]
struct Row {
    code: u8,
    operand_count: u8,
    operand_type: NumType,
    result_type: NumType,
}

/// A table of operators, one a row (core specification 3.0, 5.4, Numeric Instructions). Contracts
/// see it as the list of its rows.
#[derive(Debug, Drop)]
pub struct OpTable<const N: usize> {
    rows: [Row; N],
}

impl<const N: usize> Model for OpTable<N> {
    ghost use Rattle.std.specs.Prelude.{List, map};
    ghost use Rattle.gu_optab.specs.Operators.{Operator, row};

    ghost Value = { List Operator };

    ghost view = { λ t. map (λ r. row r.code r.operand_count r.operand_type r.result_type) t.rows };
}

/// The rows: the code, how many operands and of which type, and the type of the result.
macro_rules! operator_rows {
    () => {
        table_of! {
            0x45, 1, I32 -> I32; // 0 i32.eqz
            0x46, 2, I32 -> I32; // 1 i32.eq
            0x47, 2, I32 -> I32; // 2 i32.ne
            0x48, 2, I32 -> I32; // 3 i32.lt_s
            0x49, 2, I32 -> I32; // 4 i32.lt_u
            0x4A, 2, I32 -> I32; // 5 i32.gt_s
            0x4B, 2, I32 -> I32; // 6 i32.gt_u
            0x4C, 2, I32 -> I32; // 7 i32.le_s
            0x4D, 2, I32 -> I32; // 8 i32.le_u
            0x4E, 2, I32 -> I32; // 9 i32.ge_s
            0x4F, 2, I32 -> I32; // 10 i32.ge_u
            0x50, 1, I64 -> I32; // 11 i64.eqz
            0x51, 2, I64 -> I32; // 12 i64.eq
            0x52, 2, I64 -> I32; // 13 i64.ne
            0x53, 2, I64 -> I32; // 14 i64.lt_s
            0x54, 2, I64 -> I32; // 15 i64.lt_u
            0x55, 2, I64 -> I32; // 16 i64.gt_s
            0x56, 2, I64 -> I32; // 17 i64.gt_u
            0x57, 2, I64 -> I32; // 18 i64.le_s
            0x58, 2, I64 -> I32; // 19 i64.le_u
            0x59, 2, I64 -> I32; // 20 i64.ge_s
            0x5A, 2, I64 -> I32; // 21 i64.ge_u
            0x67, 1, I32 -> I32; // 22 i32.clz
            0x68, 1, I32 -> I32; // 23 i32.ctz
            0x69, 1, I32 -> I32; // 24 i32.popcnt
            0x6A, 2, I32 -> I32; // 25 i32.add
            0x6B, 2, I32 -> I32; // 26 i32.sub
            0x6C, 2, I32 -> I32; // 27 i32.mul
            0x6D, 2, I32 -> I32; // 28 i32.div_s
            0x6E, 2, I32 -> I32; // 29 i32.div_u
            0x6F, 2, I32 -> I32; // 30 i32.rem_s
            0x70, 2, I32 -> I32; // 31 i32.rem_u
            0x71, 2, I32 -> I32; // 32 i32.and
            0x72, 2, I32 -> I32; // 33 i32.or
            0x73, 2, I32 -> I32; // 34 i32.xor
            0x74, 2, I32 -> I32; // 35 i32.shl
            0x75, 2, I32 -> I32; // 36 i32.shr_s
            0x76, 2, I32 -> I32; // 37 i32.shr_u
            0x77, 2, I32 -> I32; // 38 i32.rotl
            0x78, 2, I32 -> I32; // 39 i32.rotr
            0x79, 1, I64 -> I64; // 40 i64.clz
            0x7A, 1, I64 -> I64; // 41 i64.ctz
            0x7B, 1, I64 -> I64; // 42 i64.popcnt
            0x7C, 2, I64 -> I64; // 43 i64.add
            0x7D, 2, I64 -> I64; // 44 i64.sub
            0x7E, 2, I64 -> I64; // 45 i64.mul
            0x7F, 2, I64 -> I64; // 46 i64.div_s
            0x80, 2, I64 -> I64; // 47 i64.div_u
            0x81, 2, I64 -> I64; // 48 i64.rem_s
            0x82, 2, I64 -> I64; // 49 i64.rem_u
            0x83, 2, I64 -> I64; // 50 i64.and
            0x84, 2, I64 -> I64; // 51 i64.or
            0x85, 2, I64 -> I64; // 52 i64.xor
            0x86, 2, I64 -> I64; // 53 i64.shl
            0x87, 2, I64 -> I64; // 54 i64.shr_s
            0x88, 2, I64 -> I64; // 55 i64.shr_u
            0x89, 2, I64 -> I64; // 56 i64.rotl
            0x8A, 2, I64 -> I64; // 57 i64.rotr
            0xA7, 1, I64 -> I32; // 58 i32.wrap_i64
            0xAC, 1, I32 -> I64; // 59 i64.extend_i32_s
            0xAD, 1, I32 -> I64; // 60 i64.extend_i32_u
            0xC0, 1, I32 -> I32; // 61 i32.extend8_s
            0xC1, 1, I32 -> I32; // 62 i32.extend16_s
            0xC2, 1, I64 -> I64; // 63 i64.extend8_s
            0xC3, 1, I64 -> I64; // 64 i64.extend16_s
            0xC4, 1, I64 -> I64; // 65 i64.extend32_s
        }
    };
}

/// The table of such rows.
macro_rules! table_of {
    ($($code:literal, $count:literal, $operand:ident -> $result:ident;)*) => {
        [$(Row {
            code: $code,
            operand_count: $count,
            operand_type: $operand,
            result_type: $result,
        }),*]
    };
}

static ROWS: [Row; 66] = operator_rows!();

impl OpTable<66> {
    /// The table of the 66 operators.
    pub fn new() -> OpTable<66>
        ensures { result ≡ operators }
    {
        OpTable {
            rows: operator_rows!(),
        }
    }
}

/// What the table says of an operator.
fn row_of(op: NumOp) -> Row
    requires { op.row < 66 }
    ensures { row result.code result.operand_count result.operand_type result.result_type ≡ row_at op.row }
{
    ROWS[usize::from(op.row)]
}

/// The code of an operator (core specification 3.0, 5.4, Numeric Instructions).
pub fn code_of(op: NumOp) -> u8
    requires row { op.row < 66 }
    ensures code { result ≡ (row_at op.row).code }
    ensures back { operator_with result ≡ Some op }
{
    row_of(op).code
}

/// How many operands an operator takes, and of which type (core specification 3.0, 3.4, Numeric
/// Instructions).
pub fn operands(op: NumOp) -> (u8, NumType)
    requires row { op.row < 66 }
    ensures { result ≡ ((row_at op.row).operand_count, (row_at op.row).operand_type) }
{
    let row = row_of(op);
    (row.operand_count, row.operand_type)
}

/// The type of an operator's result (core specification 3.0, 3.4, Numeric Instructions).
pub fn result(op: NumOp) -> NumType
    requires row { op.row < 66 }
    ensures { result ≡ (row_at op.row).result_type }
{
    row_of(op).result_type
}

/// The operator that a byte spells, or `None` where it spells none of the 66 (core specification
/// 3.0, 5.4, Numeric Instructions).
pub fn op_of(code: u8) -> Option<NumOp>
    ensures operator { result ≡ operator_with code }
    ensures found { IfSome result (λ op. (op.row < 66) × ((row_at op.row).code ≡ code)) }
    ensures none { IfNone result ((n : ℕ) → n < 66 → (row_at n).code ≢ code) }
{
    row_with(code).map(|row| NumOp { row })
}

/// The row of a code. Codes that follow one another stand in rows that do.
fn row_with(code: u8) -> Option<u8>
    ensures { result ≡ position (λ o. o.code == code) operators }
{
    match code {
        0x45..=0x5A => Some(code - 0x45),
        0x67..=0x8A => Some(code - 0x67 + 22),
        0xA7 => Some(58),
        0xAC..=0xAD => Some(code - 0xAC + 59),
        0xC0..=0xC4 => Some(code - 0xC0 + 61),
        _ => None,
    }
}
