//! Instructions that hold no code (core specification 3.0, 5.4 Instructions). Each function tries
//! the codes of one family and hands other codes on to the next.

/// An instruction of one index.
macro_rules! with_index {
    ($make:path, $bytes:expr) => {{
        let (index, rest) = read_u32($bytes)?;
        Ok(($make(index), rest))
    }};
}

/// An instruction of two indices.
macro_rules! with_pair {
    ($make:path, $bytes:expr) => {{
        let (first, rest) = read_u32($bytes)?;
        let (second, rest) = read_u32(rest)?;
        Ok(($make(first, second), rest))
    }};
}

mod access;
mod aggregate;
mod bulk;
mod control;
mod prefixed;
mod reference;
mod short;
mod variable;

pub use short::read_short;
pub use variable::read_variable as read_leaf;
