//! Operators on two numbers, at 32 bits and at 64.
ghost use Rattle.std.specs.Prelude.{◌≡◌};
ghost use Rattle.std.specs.Int.{w32, w64};
ghost use Rattle.gu_num.specs.Numeric.{holds, binary};

use crate::kind::{Binary, Relation};

/// Whether two numbers of one type are so related.
macro_rules! are_related {
    ($relation:ident, $a:ident, $b:ident) => {
        match $relation {
            Relation::Eq => $a == $b,
            Relation::Ne => $a != $b,
            Relation::LtS => $a.cast_signed() < $b.cast_signed(),
            Relation::LtU => $a < $b,
            Relation::GtS => $a.cast_signed() > $b.cast_signed(),
            Relation::GtU => $a > $b,
            Relation::LeS => $a.cast_signed() <= $b.cast_signed(),
            Relation::LeU => $a <= $b,
            Relation::GeS => $a.cast_signed() >= $b.cast_signed(),
            Relation::GeU => $a >= $b,
        }
    };
}

/// Two numbers of one type combined, or `None` for a trap.
macro_rules! combination {
    ($binary:ident, $a:ident, $b:ident, $unsigned:ident, $bits:literal) => {
        match $binary {
            Binary::Add => Some($a.wrapping_add($b)),
            Binary::Sub => Some($a.wrapping_sub($b)),
            Binary::Mul => Some($a.wrapping_mul($b)),
            Binary::DivS => divide_s!($a, $b, $unsigned),
            Binary::DivU => $a.checked_div($b),
            Binary::RemS => remainder_s!($a, $b),
            Binary::RemU => $a.checked_rem($b),
            Binary::And => Some($a & $b),
            Binary::Or => Some($a | $b),
            Binary::Xor => Some($a ^ $b),
            Binary::Shl => Some($a << ($b % $bits)),
            Binary::ShrS => Some(($a.cast_signed() >> ($b % $bits)).cast_unsigned()),
            Binary::ShrU => Some($a >> ($b % $bits)),
            Binary::Rotl => Some($a.rotate_left(($b % $bits) as u32)),
            Binary::Rotr => Some($a.rotate_right(($b % $bits) as u32)),
        }
    };
}

/// The signed quotient, rounded toward zero. That of the least number by -1 has no place.
macro_rules! divide_s {
    ($a:ident, $b:ident, $unsigned:ident) => {
        if $b == 0 || ($a == $unsigned::MAX / 2 + 1 && $b == $unsigned::MAX) {
            None
        } else {
            Some(($a.cast_signed() / $b.cast_signed()).cast_unsigned())
        }
    };
}

/// The signed remainder, which has the sign of the dividend.
macro_rules! remainder_s {
    ($a:ident, $b:ident) => {
        if $b == 0 {
            None
        } else {
            Some($a.cast_signed().wrapping_rem($b.cast_signed()).cast_unsigned())
        }
    };
}

/// Whether two numbers of 32 bits are so related.
pub fn are_related_32(relation: Relation, a: u32, b: u32) -> bool
    ensures { result ≡ holds relation w32 a b }
{
    are_related!(relation, a, b)
}

/// Whether two numbers of 64 bits are so related.
pub fn are_related_64(relation: Relation, a: u64, b: u64) -> bool
    ensures { result ≡ holds relation w64 a b }
{
    are_related!(relation, a, b)
}

/// Two numbers of 32 bits combined, or `None` for a trap.
pub fn combined_32(operator: Binary, a: u32, b: u32) -> Option<u32>
    ensures { result ≡ binary operator w32 a b }
{
    combination!(operator, a, b, u32, 32)
}

/// Two numbers of 64 bits combined, or `None` for a trap.
pub fn combined_64(operator: Binary, a: u64, b: u64) -> Option<u64>
    ensures { result ≡ binary operator w64 a b }
{
    combination!(operator, a, b, u64, 64)
}
