//! What is known of the values at a place.
use gu_types::HeapType;

/// What is known of the values at a place that are references and not null.
#[derive(Clone, Copy, Debug, PartialEq, Eq)]
pub enum Core {
    /// There are none.
    Bottom,
    /// The function with an index, and nothing else.
    Func(u32),
    /// The value of the immutable global with an index, and nothing else.
    Global(u32),
    /// Values whose type is a heap type or stands below it by at most so many edges. The heap type
    /// is no bottom.
    Cone(HeapType, u32),
}

/// What is known of the values at a place. `Ref(false, Core::Bottom)` does not occur: no value is
/// `Empty`.
#[derive(Clone, Copy, Debug, PartialEq, Eq)]
pub enum Content {
    /// There are none.
    Empty,
    /// One number of 32 bits.
    I32(u32),
    /// One number of 64 bits.
    I64(u64),
    /// The number that the immutable global with an index has.
    NumGlobal(u32),
    /// Numbers.
    Many,
    /// References: whether null is among them, and what is known of the others.
    Ref(bool, Core),
    /// All values.
    Top,
}
