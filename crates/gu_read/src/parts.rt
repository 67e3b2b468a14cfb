//! Sections that are read together.
use crate::weighed::WeighedFuncs;
use gu_syntax::{Elem, Export, Global, Limits, Seg, Table};
use gu_types::List;

/// The sections from the number of data segments on.
#[derive(Debug, Drop)]
pub struct Late {
    /// The number of data segments, where it is said.
    pub said: Option<u32>,
    /// The functions.
    pub funcs: WeighedFuncs,
    /// The data segments.
    pub segs: List<Seg>,
}

/// The sections from the tables on.
#[derive(Debug, Drop)]
pub struct Middle {
    /// The tables.
    pub tables: List<Table>,
    /// The memories.
    pub memories: List<Limits>,
    /// The tags.
    pub tags: List<u32>,
    /// The globals.
    pub globals: List<Global>,
    /// The exports.
    pub exports: List<Export>,
    /// The start function, if any.
    pub start: Option<u32>,
    /// The element segments.
    pub elems: List<Elem>,
    /// The sections behind those.
    pub late: Late,
}
