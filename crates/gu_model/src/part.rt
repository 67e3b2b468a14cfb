//! The parts of a module that validity is told by.

/// A part of a module, in the order in which validity goes over them (core specification 3.0, 3.5
/// Modules).
#[derive(Clone, Copy, Debug, PartialEq, Eq)]
pub enum Part {
    /// The type with this index.
    Ty(u32),
    /// The import with this number.
    Import(u32),
    /// The function with this number among the defined ones: its type.
    Func(u32),
    /// The table with this number among the defined ones.
    Table(u32),
    /// The memory with this number among the defined ones.
    Memory(u32),
    /// The tag with this number among the defined ones.
    Tag(u32),
    /// The global with this number among the defined ones.
    Global(u32),
    /// The export with this number.
    Export(u32),
    /// The start function.
    Start,
    /// The element segment with this number.
    Element(u32),
    /// The number of data segments that is said before the code.
    Count,
    /// The body of the function with this number among the defined ones.
    Code(u32),
    /// The data segment with this number.
    DataSeg(u32),
}
