//! The syntax of modules: instructions, bodies and the module tree (core specification 3.0, chapter
//! 2 Structure); and its grammar: which texts spell which modules, the one text that a module is
//! written as, and what stands at the front of a text (chapter 5 Binary Format).
#![tactic(auto)]

mod instr;
pub mod laws;
mod module;

pub use instr::{
    BlockType, Body, BranchTable, CastBranch, Catch, Choice, Guarded, Instr, MemArg, Structured,
};
pub use module::{
    Desc, Elem, ElemMode, Export, Func, Global, Import, Items, Kind, Limits, Module, Seg, SegMode,
    Table,
};
