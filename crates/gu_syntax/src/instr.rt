//! Instructions as trees. Each has its immediates in the order of the binary format.
use gu_boxed::Boxed;
use gu_optab::NumOp;
use gu_types::{HeapType, List, RefType, ValType};

/// The type of a block (core specification 3.0, 2.4, Control Instructions, block types).
#[derive(Clone, Copy, Debug, PartialEq, Eq)]
pub enum BlockType {
    /// No parameters and no results.
    Empty,
    /// No parameters and one result.
    Val(ValType),
    /// The index of a function type.
    Idx(u32),
}

/// Where a load or a store goes (2.4, Memory Instructions, memory arguments).
#[derive(Clone, Copy, Debug, PartialEq, Eq)]
pub struct MemArg {
    /// The alignment is 2 to this, which is below 64 in a shaped module.
    pub exponent: u32,
    /// The index of the memory.
    pub memory: u32,
    /// What is added to the address.
    pub offset: u32,
}

/// What a `try_table` does with an exception (2.4, Control Instructions, catch clauses).
#[derive(Clone, Copy, Debug, PartialEq, Eq)]
pub enum Catch {
    /// An exception of a tag: its arguments go to a label.
    One(u32, u32),
    /// An exception of a tag: its arguments and a reference to it go to a label.
    OneRef(u32, u32),
    /// Every exception: nothing goes to a label.
    All(u32),
    /// Every exception: a reference to it goes to a label.
    AllRef(u32),
}

/// An expression: instructions in order (2.4, Expressions).
#[cycle(code)]
#[derive(Debug, Drop)]
pub struct Body {
    /// The instructions, without the `end`.
    pub code: List<Instr>,
}

/// What a `block` or a `loop` has (2.4, Control Instructions, structured instructions).
#[cycle(code)]
#[derive(Debug, Drop)]
pub struct Structured {
    /// What it takes and gives.
    pub ty: BlockType,
    /// The instructions inside.
    pub body: Body,
}

/// What an `if` has (2.4, Control Instructions).
#[cycle(code)]
#[derive(Debug, Drop)]
pub struct Choice {
    /// What both bodies take and give.
    pub ty: BlockType,
    /// What is taken where the i32 is not 0.
    pub yes: Body,
    /// What is taken at 0: empty where the `else` is missing.
    pub no: Body,
}

/// What a `try_table` has (2.4, Control Instructions).
#[cycle(code)]
#[derive(Debug, Drop)]
pub struct Guarded {
    /// What it takes and gives.
    pub ty: BlockType,
    /// What is done with exceptions of the body: the first that fits.
    pub catches: List<Catch>,
    /// The instructions inside.
    pub body: Body,
}

/// What a `br_table` has (2.4, Control Instructions).
#[derive(Debug, Drop)]
pub struct BranchTable {
    /// The label for each number from 0 on.
    pub labels: List<u32>,
    /// The label for all greater numbers.
    pub last: u32,
}

/// What a `br_on_cast` or a `br_on_cast_fail` has (2.4, Reference Instructions).
#[derive(Clone, Copy, Debug, PartialEq, Eq)]
pub struct CastBranch {
    /// The label.
    pub label: u32,
    /// The type of the operand.
    pub of: RefType,
    /// The type that is asked for.
    pub to: RefType,
}

/// An instruction, named as in the text format (2.4 Instructions). It takes 16 bytes: what is longer
/// is boxed.
#[cycle(code)]
#[derive(Debug, Drop)]
pub enum Instr {
    /// Traps.
    Unreachable,
    /// Does nothing.
    Nop,
    /// A block, whose label stands behind it.
    Block(Boxed<Structured>),
    /// A loop, whose label stands before it.
    Loop(Boxed<Structured>),
    /// A choice by an i32: the second body is taken at 0, and is empty where it is missing.
    If(Boxed<Choice>),
    /// A block whose exceptions the catches take, the first that fits.
    TryTable(Boxed<Guarded>),
    /// Throws an exception of a tag.
    Throw(u32),
    /// Throws the exception that it is given.
    ThrowRef,
    /// Branches to a label.
    Br(u32),
    /// Branches to a label where an i32 is not 0.
    BrIf(u32),
    /// Branches to the label that an i32 picks, or to the last one.
    BrTable(Boxed<BranchTable>),
    /// Returns from the function.
    Return,
    /// Calls a function.
    Call(u32),
    /// Calls, by a function type, an entry of a table.
    CallIndirect(u32, u32),
    /// Calls a function in place of returning.
    ReturnCall(u32),
    /// Calls, by a function type, an entry of a table in place of returning.
    ReturnCallIndirect(u32, u32),
    /// Calls a reference to a function of a type.
    CallRef(u32),
    /// Calls a reference to a function of a type in place of returning.
    ReturnCallRef(u32),
    /// Drops an operand.
    Drop,
    /// Picks one of two numbers by an i32.
    Select,
    /// Picks one of two values of a type by an i32.
    SelectOf(Boxed<List<ValType>>),
    /// Reads a local.
    LocalGet(u32),
    /// Writes a local.
    LocalSet(u32),
    /// Writes a local and keeps the operand.
    LocalTee(u32),
    /// Reads a global.
    GlobalGet(u32),
    /// Writes a global.
    GlobalSet(u32),
    /// Reads an entry of a table.
    TableGet(u32),
    /// Writes an entry of a table.
    TableSet(u32),
    /// Copies from an element segment to a table.
    TableInit(u32, u32),
    /// Copies to a table from a table.
    TableCopy(u32, u32),
    /// Grows a table.
    TableGrow(u32),
    /// The size of a table.
    TableSize(u32),
    /// Fills a part of a table.
    TableFill(u32),
    /// Empties an element segment.
    ElemDrop(u32),
    /// Loads an i32.
    I32Load(MemArg),
    /// Loads an i64.
    I64Load(MemArg),
    /// Loads 8 bits as a signed i32.
    I32Load8S(MemArg),
    /// Loads 8 bits as an unsigned i32.
    I32Load8U(MemArg),
    /// Loads 16 bits as a signed i32.
    I32Load16S(MemArg),
    /// Loads 16 bits as an unsigned i32.
    I32Load16U(MemArg),
    /// Loads 8 bits as a signed i64.
    I64Load8S(MemArg),
    /// Loads 8 bits as an unsigned i64.
    I64Load8U(MemArg),
    /// Loads 16 bits as a signed i64.
    I64Load16S(MemArg),
    /// Loads 16 bits as an unsigned i64.
    I64Load16U(MemArg),
    /// Loads 32 bits as a signed i64.
    I64Load32S(MemArg),
    /// Loads 32 bits as an unsigned i64.
    I64Load32U(MemArg),
    /// Stores an i32.
    I32Store(MemArg),
    /// Stores an i64.
    I64Store(MemArg),
    /// Stores the low 8 bits of an i32.
    I32Store8(MemArg),
    /// Stores the low 16 bits of an i32.
    I32Store16(MemArg),
    /// Stores the low 8 bits of an i64.
    I64Store8(MemArg),
    /// Stores the low 16 bits of an i64.
    I64Store16(MemArg),
    /// Stores the low 32 bits of an i64.
    I64Store32(MemArg),
    /// The pages of a memory.
    MemorySize(u32),
    /// Grows a memory.
    MemoryGrow(u32),
    /// Copies from a data segment to a memory.
    MemoryInit(u32, u32),
    /// Empties a data segment.
    DataDrop(u32),
    /// Copies to a memory from a memory.
    MemoryCopy(u32, u32),
    /// Fills a part of a memory.
    MemoryFill(u32),
    /// A number of 32 bits.
    I32Const(i32),
    /// A number of 64 bits.
    I64Const(i64),
    /// An integer operator.
    Num(NumOp),
    /// The null of a heap type.
    RefNull(HeapType),
    /// Whether a reference is null.
    RefIsNull,
    /// A reference to a function.
    RefFunc(u32),
    /// Whether two references are the same.
    RefEq,
    /// Traps on null.
    RefAsNonNull,
    /// Branches to a label on null.
    BrOnNull(u32),
    /// Branches to a label where a reference is not null.
    BrOnNonNull(u32),
    /// Whether a reference is of a type.
    RefTest(RefType),
    /// Traps where a reference is not of a type.
    RefCast(RefType),
    /// Branches to a label where a reference of the first type is of the second.
    BrOnCast(Boxed<CastBranch>),
    /// Branches to a label where a reference of the first type is not of the second.
    BrOnCastFail(Boxed<CastBranch>),
    /// A structure of the operands.
    StructNew(u32),
    /// A structure of defaults.
    StructNewDefault(u32),
    /// Reads a field.
    StructGet(u32, u32),
    /// Reads a packed field as a signed number.
    StructGetS(u32, u32),
    /// Reads a packed field as an unsigned number.
    StructGetU(u32, u32),
    /// Writes a field.
    StructSet(u32, u32),
    /// An array of copies of one operand.
    ArrayNew(u32),
    /// An array of defaults.
    ArrayNewDefault(u32),
    /// An array of so many operands.
    ArrayNewFixed(u32, u32),
    /// An array from a data segment.
    ArrayNewData(u32, u32),
    /// An array from an element segment.
    ArrayNewElem(u32, u32),
    /// Reads an element.
    ArrayGet(u32),
    /// Reads a packed element as a signed number.
    ArrayGetS(u32),
    /// Reads a packed element as an unsigned number.
    ArrayGetU(u32),
    /// Writes an element.
    ArraySet(u32),
    /// The length of an array.
    ArrayLen,
    /// Fills a part of an array.
    ArrayFill(u32),
    /// Copies to an array of the first type from one of the second.
    ArrayCopy(u32, u32),
    /// Copies from a data segment to an array.
    ArrayInitData(u32, u32),
    /// Copies from an element segment to an array.
    ArrayInitElem(u32, u32),
    /// The internal form of an external reference.
    AnyConvertExtern,
    /// The external form of an internal reference.
    ExternConvertAny,
    /// An unboxed number of the low 31 bits of an i32.
    RefI31,
    /// An unboxed number as a signed i32.
    I31GetS,
    /// An unboxed number as an unsigned i32.
    I31GetU,
}

const _: () = prove!(size_of::<Instr>() == 16);
