//! The operators by what they compute, whatever their widths.
ghost use Rattle.std.specs.Prelude.{◌≡◌, ◌<◌};
ghost use Rattle.gu_num.specs.Numeric.{kind_at};

use self::Binary::{
    Add, And, DivS, DivU, Mul, Or, RemS, RemU, Rotl, Rotr, Shl, ShrS, ShrU, Sub, Xor,
};
use self::Kind::{Combine, Compare, One};
use self::Relation::{Eq, GeS, GeU, GtS, GtU, LeS, LeU, LtS, LtU, Ne};
use self::Unary::{Clz, Ctz, Eqz, Extend8S, Extend16S, Extend32S, ExtendU, Popcnt, Wrap};
use gu_optab::NumOp;

/// What an operator computes (core specification 3.0, 4.3.2, Integer Operations).
#[derive(Clone, Copy, Debug)]
pub enum Kind {
    /// A number of one number.
    One(Unary),
    /// Whether two numbers are so related, as 1 or 0.
    Compare(Relation),
    /// A number of two numbers, or a trap.
    Combine(Binary),
}

/// An operator on one number.
#[derive(Clone, Copy, Debug)]
pub enum Unary {
    /// Whether it is 0.
    Eqz,
    /// How many zero bits it begins with.
    Clz,
    /// How many zero bits it ends with.
    Ctz,
    /// How many bits are one.
    Popcnt,
    /// Its low 32 bits.
    Wrap,
    /// Its low 32 bits, read as unsigned.
    ExtendU,
    /// Its low 8 bits, read as signed.
    Extend8S,
    /// Its low 16 bits, read as signed.
    Extend16S,
    /// Its low 32 bits, read as signed.
    Extend32S,
}

/// A relation of two numbers, read as signed (`S`) or unsigned (`U`).
#[derive(Clone, Copy, Debug)]
pub enum Relation {
    Eq,
    Ne,
    LtS,
    LtU,
    GtS,
    GtU,
    LeS,
    LeU,
    GeS,
    GeU,
}

/// An operator on two numbers, read as signed (`S`) or unsigned (`U`).
#[derive(Clone, Copy, Debug)]
pub enum Binary {
    Add,
    Sub,
    Mul,
    DivS,
    DivU,
    RemS,
    RemU,
    And,
    Or,
    Xor,
    Shl,
    ShrS,
    ShrU,
    Rotl,
    Rotr,
}

/// The rows of the table of operators: tests and relations at 32 bits and at 64, arithmetic at 32
/// bits and at 64, and the conversions.
macro_rules! rows {
    ([$($test:expr),*], [$($number:expr),*], [$($conversion:expr),*]) => {
        [$($test,)* $($test,)* $($number,)* $($number,)* $($conversion),*]
    };
}

static KINDS: [Kind; 66] = rows!(
    [
        One(Eqz),
        Compare(Eq),
        Compare(Ne),
        Compare(LtS),
        Compare(LtU),
        Compare(GtS),
        Compare(GtU),
        Compare(LeS),
        Compare(LeU),
        Compare(GeS),
        Compare(GeU)
    ],
    [
        One(Clz),
        One(Ctz),
        One(Popcnt),
        Combine(Add),
        Combine(Sub),
        Combine(Mul),
        Combine(DivS),
        Combine(DivU),
        Combine(RemS),
        Combine(RemU),
        Combine(And),
        Combine(Or),
        Combine(Xor),
        Combine(Shl),
        Combine(ShrS),
        Combine(ShrU),
        Combine(Rotl),
        Combine(Rotr)
    ],
    [
        One(Wrap),
        One(Extend32S),
        One(ExtendU),
        One(Extend8S),
        One(Extend16S),
        One(Extend8S),
        One(Extend16S),
        One(Extend32S)
    ]
);

/// What an operator computes.
pub fn kind_of(op: NumOp) -> Kind
    requires { op.row < 66 }
    ensures { result ≡ kind_at op.row }
{
    KINDS[usize::from(op.row)]
}
