//! The types of a module as the core specification has them, and `List` and `ShortList`, the vectors
//! that contracts see as a list (core specification 3.0, 2.3 Types).
#![tactic(auto)]

mod list;
mod short;
mod types;

pub use list::List;
pub use short::ShortList;
pub use types::{
    Abs, Comp, FieldType, HeapType, RecGroup, RefType, Storage, SubType, TypeList, ValType,
};
