//! The operators on numbers as the program holds them.
ghost use Rattle.std.specs.Prelude.{◌≡◌, ◌<◌, ◌^◌, [], ◌∷◌, Some, IfSome};
ghost use Rattle.gu_optab.specs.Operators.{row_at};
ghost use Rattle.gu_num.specs.Numeric.{bits, numeric, width_of};

use crate::binary::{are_related_32, are_related_64, combined_32, combined_64};
use crate::kind::{Kind, kind_of};
use crate::unary::applied;
use gu_optab::{NumOp, NumType, operands, result};

/// What an operator of one operand makes of it (core specification 3.0, 4.3.2, Integer Operations).
/// An i32 is held as its unsigned value, in the operand and in the result.
pub fn apply1(op: NumOp, a: u64) -> u64
    requires row { op.row < 66 }
    requires one_operand { (row_at op.row).operand_count ≡ 1 }
    requires operand { a < 2 ^ bits (width_of (row_at op.row).operand_type) }
    ensures value { numeric op (a ∷ []) ≡ Some result }
    ensures held { result < 2 ^ bits (width_of (row_at op.row).result_type) }
{
    let (_, operand_type) = operands(op);
    match kind_of(op) {
        Kind::One(operator) => applied(operator, operand_type, result(op), a),
        Kind::Compare(_) | Kind::Combine(_) => unreachable!(),
    }
}

/// What an operator of two operands makes of them (core specification 3.0, 4.3.2, Integer
/// Operations). An i32 is held as its unsigned value, in the operands and in the result.
///
/// `None` where the operator traps: division and remainder by 0, and the signed division of the
/// least integer by -1.
pub fn apply2(op: NumOp, a: u64, b: u64) -> Option<u64>
    requires row { op.row < 66 }
    requires two_operands { (row_at op.row).operand_count ≡ 2 }
    requires left { a < 2 ^ bits (width_of (row_at op.row).operand_type) }
    requires right { b < 2 ^ bits (width_of (row_at op.row).operand_type) }
    ensures value { result ≡ numeric op (a ∷ b ∷ []) }
    ensures held { IfSome result (λ c. c < 2 ^ bits (width_of (row_at op.row).result_type)) }
{
    let (_, operand_type) = operands(op);
    match kind_of(op) {
        Kind::One(_) => unreachable!(),
        Kind::Compare(relation) => Some(u64::from(match operand_type {
            NumType::I32 => are_related_32(relation, a as u32, b as u32),
            NumType::I64 => are_related_64(relation, a, b),
        })),
        Kind::Combine(operator) => match operand_type {
            NumType::I32 => combined_32(operator, a as u32, b as u32).map(u64::from),
            NumType::I64 => combined_64(operator, a, b),
        },
    }
}
