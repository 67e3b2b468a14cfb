//! What an instruction takes from the operands and what it puts on them (core specification 3.0, 3.1
//! Conventions, instruction types).
ghost use Rattle.std.specs.Prelude.{◌≡◌, [], option_to_list};
ghost use Rattle.gu_model.specs.TypingRows.{goes};
ghost use Rattle.gu_valid_code.specs.Rows.{few_of, row_of};

use gu_types::{FieldType, ValType};

/// A few types in order.
#[derive(Clone, Copy)]
pub(crate) enum Few {
    Zero,
    One(ValType),
    Two(ValType, ValType),
    Three(ValType, ValType, ValType),
    Four(ValType, ValType, ValType, ValType),
    Five(ValType, ValType, ValType, ValType, ValType),
}

/// Operands that stand below a few others.
#[derive(Clone, Copy)]
pub(crate) enum Below<'a> {
    /// None.
    Nothing,
    /// One of each type, in order.
    Types(&'a [ValType]),
    /// The value of each field, in order.
    Fields(&'a [FieldType]),
    /// So many of one type.
    Copies(ValType, u32),
}

/// What follows where the operands are there.
#[derive(Clone, Copy)]
pub(crate) enum Then<'a> {
    /// A result, or none.
    Gives(Option<ValType>),
    /// Results of these types.
    GivesAll(&'a [ValType]),
    /// Results of these types, and one more on top.
    GivesMore(&'a [ValType], ValType),
    /// Nothing that is reached.
    Leaves,
}

/// An instruction type: the operands, the few on top of the others, and what follows.
#[derive(Clone, Copy)]
pub(crate) struct Row<'a> {
    pub(crate) below: Below<'a>,
    pub(crate) top: Few,
    pub(crate) then: Then<'a>,
}

/// Takes a few operands, and gives a result or none.
#[inline(always)]
pub(crate) fn plain<'a>(top: Few, given: Option<ValType>) -> Row<'a>
    ensures { row_of result ≡ goes (few_of top) (option_to_list given) }
{
    Row {
        below: Below::Nothing,
        top,
        then: Then::Gives(given),
    }
}
