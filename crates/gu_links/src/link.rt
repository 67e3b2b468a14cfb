//! What flows from some cells into others.
use gu_contents::Content;
use gu_types::{List, RefType, Storage};

/// What flows into cells, from nothing or from what other cells have. A cell is a number; types,
/// fields and functions are given by their indices in the facts.
///
/// A slot is a field of a structure, by its index, or the elements of an array, which are slot 0.
/// A link through a slot goes over the types that the references in one of its cells can have, at
/// or below a type, as far as they have the slot.
#[derive(Debug, Drop)]
pub enum Link {
    /// A content flows into a cell.
    Root {
        /// The content.
        give: Content,
        /// The cell.
        to: usize,
    },
    /// A cell flows into another.
    Copy {
        /// Where it comes from.
        from: usize,
        /// Where it goes to.
        to: usize,
    },
    /// The same without null.
    NonNull {
        /// Where it comes from.
        from: usize,
        /// Where it goes to.
        to: usize,
    },
    /// What is left of a cell where its values are cast to a reference type.
    Filter {
        /// Where it comes from.
        from: usize,
        /// The reference type.
        by: RefType,
        /// Where it goes to.
        to: usize,
    },
    /// What is left of a cell where its values are no values of a reference type.
    Minus {
        /// Where it comes from.
        from: usize,
        /// The reference type.
        by: RefType,
        /// Where it goes to.
        to: usize,
    },
    /// Whether the values of a cell are values of a reference type.
    Test {
        /// Whose values are tested.
        from: usize,
        /// The reference type.
        by: RefType,
        /// Where the answer goes to.
        to: usize,
    },
    /// Whether the values of a cell are null.
    IsNull {
        /// Whose values are tested.
        from: usize,
        /// Where the answer goes to.
        to: usize,
    },
    /// Whether the values of two cells are the same.
    Equal {
        /// The values on one side.
        left: usize,
        /// The values on the other.
        right: usize,
        /// Where the answer goes to.
        to: usize,
    },
    /// What of a cell is left in a field or an element that is made of it.
    Pack {
        /// How the field or element is stored.
        storage: Storage,
        /// Where it comes from.
        from: usize,
        /// The slot's cell.
        to: usize,
    },
    /// A field or an element is read.
    SlotGet {
        /// The references to what has the slot.
        object: usize,
        /// The type that stands in the instruction.
        ty: u32,
        /// Which slot.
        slot: u32,
        /// How the slot is stored.
        storage: Storage,
        /// Whether a packed number is read with its sign.
        signed: bool,
        /// Where it goes to.
        to: usize,
    },
    /// A field or an element is written.
    SlotSet {
        /// The references to what has the slot.
        object: usize,
        /// The type that stands in the instruction.
        ty: u32,
        /// Which slot.
        slot: u32,
        /// How the slot is stored.
        storage: Storage,
        /// Where it comes from.
        from: usize,
    },
    /// A field or an element is written, with a content that rests on no cell.
    SlotFill {
        /// The references to what has the slot.
        object: usize,
        /// The type that stands in the instruction.
        ty: u32,
        /// Which slot.
        slot: u32,
        /// The content.
        give: Content,
    },
    /// Elements of arrays are copied into others.
    SlotCopy {
        /// The references to arrays that are written.
        target: usize,
        /// The type of these that stands in the instruction.
        to_ty: u32,
        /// The references to arrays that are read.
        source: usize,
        /// The type of these that stands in the instruction.
        from_ty: u32,
    },
    /// Functions are called by reference.
    CallBy {
        /// The references to functions.
        callee: usize,
        /// The function type that stands in the instruction.
        ty: u32,
        /// What is passed, in the order of the parameters.
        operands: List<usize>,
        /// Where the results go to, in their order.
        results: List<usize>,
    },
    /// External references become internal ones.
    Internalise {
        /// Where they come from.
        from: usize,
        /// Where they go to.
        to: usize,
    },
    /// Internal references become external ones.
    Externalise {
        /// Where they come from.
        from: usize,
        /// Where they go to.
        to: usize,
    },
    /// A function can be called by reference. Nothing flows.
    Callable {
        /// The function's index.
        function: u32,
    },
}
