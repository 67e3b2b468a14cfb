//! Types as trees. Indices count the types of a module in the order of its recursion groups.
use crate::list::List;
use crate::short::ShortList;

/// An abstract heap type (core specification 3.0, 2.3, Heap Types).
#[derive(Clone, Copy, Debug, PartialEq, Eq, Hash)]
pub enum Abs {
    /// `any`, above all internal values.
    Any,
    /// `eq`, the values that can be compared.
    Eq,
    /// `i31`, unboxed numbers.
    I31,
    /// `struct`, above all structure types.
    AnyStruct,
    /// `array`, above all array types.
    AnyArray,
    /// `none`, below all internal types.
    Bot,
    /// `func`, above all function types.
    AnyFunc,
    /// `nofunc`, below all function types.
    NoFunc,
    /// `extern`, above all external values.
    Extern,
    /// `noextern`, below all external types.
    NoExtern,
    /// `exn`, above all exceptions.
    Exn,
    /// `noexn`, below all exceptions.
    NoExn,
}

/// A heap type: an abstract one, or the index of a type of the module (2.3, Heap Types).
#[derive(Clone, Copy, Debug, PartialEq, Eq, Hash)]
pub enum HeapType {
    /// An abstract heap type.
    Abs(Abs),
    /// A type index.
    Idx(u32),
}

/// A reference type (2.3, Reference Types).
#[derive(Clone, Copy, Debug, PartialEq, Eq, Hash)]
pub struct RefType {
    /// Whether null is among its values.
    pub null: bool,
    /// What a reference that is not null leads to.
    pub heap: HeapType,
}

/// A value type of the profile, which has no floating point and no vectors (2.3, Value Types).
#[derive(Clone, Copy, Debug, PartialEq, Eq, Hash)]
pub enum ValType {
    /// A number of 32 bits.
    I32,
    /// A number of 64 bits.
    I64,
    /// A reference.
    Ref(RefType),
}

/// What a field or an element is stored as (2.3, Composite Types, storage types).
#[derive(Clone, Copy, Debug, PartialEq, Eq, Hash)]
pub enum Storage {
    /// A value.
    Val(ValType),
    /// The low 8 bits of an i32.
    I8,
    /// The low 16 bits of an i32.
    I16,
}

/// A field of a structure, or the elements of an array (2.3, Composite Types, field types).
#[derive(Clone, Copy, Debug, PartialEq, Eq, Hash)]
pub struct FieldType {
    /// What it is stored as.
    pub storage: Storage,
    /// Whether it may be written.
    pub mutable: bool,
}

/// A composite type (2.3, Composite Types).
#[derive(Debug, Drop, Clone, PartialEq, Eq, Hash)]
pub enum Comp {
    /// A function type.
    Func {
        /// The types of its parameters, in order.
        params: List<ValType>,
        /// The types of its results, in order.
        results: List<ValType>,
    },
    /// A structure type, by its fields in order.
    Struct(ShortList<FieldType>),
    /// An array type, by its elements.
    Array(FieldType),
}

/// A subtype: a composite type with what it declares of its place among the types
/// (2.3, Recursive Types, subtypes).
#[derive(Debug, Drop, Clone, PartialEq, Eq, Hash)]
pub struct SubType {
    /// Whether no type may declare it as its supertype.
    pub is_final: bool,
    /// The indices of the supertypes that it declares, at most one in a valid module.
    pub supers: ShortList<u32>,
    /// What it is.
    pub comp: Comp,
}

/// A recursion group (2.3, Recursive Types). It may be empty.
#[derive(Debug, Drop, Clone, PartialEq, Eq, Hash)]
pub struct RecGroup {
    /// Its types in order.
    pub types: ShortList<SubType>,
}

/// The types of a module, group by group (2.5, Types).
#[derive(Debug, Drop, Clone, PartialEq, Eq, Hash)]
pub struct TypeList {
    /// The recursion groups in order.
    pub groups: List<RecGroup>,
}
