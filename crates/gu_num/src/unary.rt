//! Operators on one number.
ghost use Rattle.std.specs.Prelude.{◌≡◌, ◌<◌, ◌^◌};
ghost use Rattle.std.specs.Int.{cast_unsigned};
ghost use Rattle.gu_num.specs.Numeric.{bits, unary, width_of};

use crate::kind::Unary;
use gu_optab::NumType;

/// An operator on one number, from a type to a type.
pub fn applied(operator: Unary, from: NumType, to: NumType, a: u64) -> u64
    requires { a < 2 ^ bits (width_of from) }
    ensures value { result ≡ unary operator (width_of from) (width_of to) a }
    ensures held { result < 2 ^ bits (width_of to) }
{
    match operator {
        Unary::Eqz => u64::from(a == 0),
        Unary::Clz => match from {
            NumType::I32 => u64::from((a as u32).leading_zeros()),
            NumType::I64 => u64::from(a.leading_zeros()),
        },
        Unary::Ctz => match from {
            NumType::I32 => u64::from((a as u32).trailing_zeros()),
            NumType::I64 => u64::from(a.trailing_zeros()),
        },
        Unary::Popcnt => u64::from(a.count_ones()),
        Unary::Wrap | Unary::ExtendU => a % (1 << 32),
        Unary::Extend8S => held(i32::from(((a % (1 << 8)) as u8).cast_signed()), to),
        Unary::Extend16S => held(i32::from(((a % (1 << 16)) as u16).cast_signed()), to),
        Unary::Extend32S => held(((a % (1 << 32)) as u32).cast_signed(), to),
    }
}

/// A signed number as one of a type.
fn held(number: i32, to: NumType) -> u64
    ensures { result ≡ cast_unsigned (width_of to) number }
{
    match to {
        NumType::I32 => u64::from(number.cast_unsigned()),
        NumType::I64 => i64::from(number).cast_unsigned(),
    }
}
