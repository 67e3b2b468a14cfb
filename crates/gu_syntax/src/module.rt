//! Modules as trees: each field is a section of the binary format, in its order.
use crate::instr::Body;
use gu_types::{List, RefType, ShortList, TypeList, ValType};

/// The sizes that a table or a memory may have (core specification 3.0, 2.3, Limits).
#[derive(Clone, Copy, Debug, PartialEq, Eq)]
pub struct Limits {
    /// The least size, in entries or in pages of 65,536 bytes.
    pub least: u32,
    /// The greatest size, in the same unit, or none.
    pub most: Option<u32>,
}

/// What is imported (2.3, External Types).
#[derive(Clone, Copy, Debug, PartialEq, Eq)]
pub enum Desc {
    /// A function of the type with this index.
    Func(u32),
    /// A table of references.
    Table(RefType, Limits),
    /// A memory.
    Memory(Limits),
    /// A global of a type, and whether it may be written.
    Global(ValType, bool),
    /// A tag of the function type with this index.
    Tag(u32),
}

/// An import (2.5, Imports).
#[derive(Debug, Drop)]
pub struct Import {
    /// The name of the module that it comes from, in UTF-8.
    pub module: List<u8>,
    /// Its name there, in UTF-8.
    pub name: List<u8>,
    /// What it is.
    pub desc: Desc,
}

/// A function that the module defines (2.5, Functions).
#[derive(Debug, Drop)]
pub struct Func {
    /// The index of its type.
    pub ty: u32,
    /// Its locals behind its parameters: how many, and of which type, run by run. In a shaped
    /// module no run is empty, and no two runs side by side have one type.
    pub locals: ShortList<(u32, ValType)>,
    /// What it does.
    pub body: Body,
}

/// A table that the module defines (2.5, Tables).
#[derive(Debug, Drop)]
pub struct Table {
    /// The type of its entries.
    pub elem: RefType,
    /// Its sizes, in entries.
    pub limits: Limits,
    /// What its entries hold at first, or null where there is none.
    pub init: Option<Body>,
}

/// A global that the module defines (2.5, Globals).
#[derive(Debug, Drop)]
pub struct Global {
    /// The type of its value.
    pub ty: ValType,
    /// Whether it may be written.
    pub mutable: bool,
    /// What it holds at first.
    pub init: Body,
}

/// What is exported (2.5, Exports).
#[derive(Clone, Copy, Debug, PartialEq, Eq)]
pub enum Kind {
    /// A function.
    Func,
    /// A table.
    Table,
    /// A memory.
    Memory,
    /// A global.
    Global,
    /// A tag.
    Tag,
}

/// An export (2.5, Exports).
#[derive(Debug, Drop)]
pub struct Export {
    /// Its name, in UTF-8.
    pub name: List<u8>,
    /// What it is.
    pub kind: Kind,
    /// Its index among the things of its kind.
    pub index: u32,
}

/// What becomes of an element segment (2.5, Element Segments, modes).
#[derive(Debug, Drop)]
pub enum ElemMode {
    /// It is copied to a table, from an offset on, at instantiation.
    Active(u32, Body),
    /// It waits for `table.init` and its kin.
    Passive,
    /// It only declares functions.
    Declared,
}

/// The items of an element segment (2.5, Element Segments).
#[derive(Debug, Drop)]
pub enum Items {
    /// References to functions, by their indices.
    Funcs(List<u32>),
    /// What expressions of a type give.
    Exprs(RefType, List<Body>),
}

/// An element segment (2.5, Element Segments).
#[derive(Debug, Drop)]
pub struct Elem {
    /// What becomes of it.
    pub mode: ElemMode,
    /// Its items in order.
    pub items: Items,
}

/// What becomes of a data segment (2.5, Data Segments, modes).
#[derive(Debug, Drop)]
pub enum SegMode {
    /// It is copied to a memory, from an offset on, at instantiation.
    Active(u32, Body),
    /// It waits for `memory.init` and its kin.
    Passive,
}

/// A data segment (2.5, Data Segments).
#[derive(Debug, Drop)]
pub struct Seg {
    /// What becomes of it.
    pub mode: SegMode,
    /// Its bytes in order.
    pub bytes: List<u8>,
}

/// A module (2.5 Modules). Functions, tables, memories, tags and globals are counted with the
/// imported ones first.
#[derive(Debug, Drop)]
pub struct Module {
    /// Its types.
    pub types: TypeList,
    /// Its imports.
    pub imports: List<Import>,
    /// The functions that it defines.
    pub funcs: List<Func>,
    /// The tables that it defines.
    pub tables: List<Table>,
    /// The memories that it defines, by their sizes in pages.
    pub memories: List<Limits>,
    /// The tags that it defines, by the indices of their function types.
    pub tags: List<u32>,
    /// The globals that it defines.
    pub globals: List<Global>,
    /// Its exports.
    pub exports: List<Export>,
    /// The function that is called at instantiation, if any.
    pub start: Option<u32>,
    /// Its element segments.
    pub elems: List<Elem>,
    /// Whether the number of data segments is said before the code.
    pub has_count: bool,
    /// Its data segments.
    pub segs: List<Seg>,
}
