//! An operator, and what it works on.

/// A number type of the profile (core specification 3.0, 2.3, Number Types).
#[derive(Clone, Copy, Debug, PartialEq, Eq, Hash)]
pub enum NumType {
    /// A number of 32 bits.
    I32,
    /// A number of 64 bits.
    I64,
}

/// An integer operator, by its row in the table of the 66 operators, counted from 0
/// (2.4, Numeric Instructions).
#[derive(Clone, Copy, Debug, PartialEq, Eq, Hash)]
pub struct NumOp {
    /// The row, below 66 in a shaped module.
    pub row: u8,
}
