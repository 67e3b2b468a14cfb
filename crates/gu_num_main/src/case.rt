//! A line's operator on a line's operands.
ghost use Rattle.std.specs.Prelude.{◌<◌, ◌^◌, IfSome};
ghost use Rattle.gu_num.specs.Numeric.{bits, width_of};

use gu_num::{apply1, apply2};
use gu_optab::{NumType, op_of, operands};

/// What an operator makes of its operands.
#[derive(Debug, Drop)]
pub enum Outcome {
    /// A number.
    Result(u64),
    /// A trap.
    Trap,
}

/// What the operator of a line makes of its operands, or `None` where the line has no operator with
/// as many operands of its type.
pub fn outcome_of(line: &str) -> Option<Outcome> {
    let mut words = line.split(' ');
    let op = op_of(u8::from_str_radix(words.next()?, 16).ok()?)?;
    let (count, operand_type) = operands(op);
    let a = operand(words.next()?, operand_type)?;
    match (count, words.next()) {
        (1, None) => Some(Outcome::Result(apply1(op, a))),
        (2, Some(word)) => {
            let b = operand(word, operand_type)?;
            Some(apply2(op, a, b).map_or(Outcome::Trap, Outcome::Result))
        }
        _ => None,
    }
}

/// The number of a type that a word spells.
fn operand(word: &str, operand_type: NumType) -> Option<u64>
    ensures { IfSome result (λ n. n < 2 ^ bits (width_of operand_type)) }
{
    let number = u64::from_str_radix(word, 16).ok()?;
    match operand_type {
        NumType::I32 if number > u64::from(u32::MAX) => None,
        _ => Some(number),
    }
}
