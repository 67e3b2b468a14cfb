//! Which code and which immediates an instruction has (core specification 3.0, 5.4 Instructions). The
//! tables go by the kinds of instructions; one that holds a list or code is in none of them.
ghost use Rattle.std.specs.Prelude.{◌≡◌, ◌≢◌, IfSome, IfNone};
ghost use Rattle.gu_syntax.specs.Encoding.{encode_leaf};
ghost use Rattle.gu_syntax.specs.Shape.{IsShapedLeaf};
ghost use Rattle.gu_write_code.specs.Layouts.{layout_text};
ghost use Rattle.gu_write_code.specs.Kinds as kinds;
ghost use Rattle.gu_write_code.specs.Kinds.{kind_of};

use crate::layout::Immediates::{Cast, Heap, Index, Indices, Memory, Narrow, Nothing, Wide};
use crate::layout::Layout;
use crate::layout::Layout::{Plain, Prefixed};
use gu_optab::code_of;
use gu_syntax::Instr;

/// The code of an instruction and the immediates behind it; none where it holds a list.
pub(crate) fn layout_of(instr: &Instr) -> Option<Layout>
    requires { IsShapedLeaf instr.now }
    ensures known { IfSome result (λ layout. layout_text layout ≡ encode_leaf instr.now) }
    ensures listed { IfNone result (kind_of instr.now ≡ kinds.listed) }
{
    if let Some(layout) = variable(instr) {
        return Some(layout);
    }
    if let Some(layout) = control(instr) {
        return Some(layout);
    }
    if let Some(layout) = call(instr) {
        return Some(layout);
    }
    if let Some(layout) = load(instr) {
        return Some(layout);
    }
    if let Some(layout) = store(instr) {
        return Some(layout);
    }
    if let Some(layout) = structure(instr) {
        return Some(layout);
    }
    if let Some(layout) = array(instr) {
        return Some(layout);
    }
    if let Some(layout) = reference(instr) {
        return Some(layout);
    }
    bulk(instr)
}

/// Control, parametric and branching instructions (5.4.1 Control Instructions, 5.4.2 Reference
/// Instructions, 5.4.3 Parametric Instructions).
fn control(instr: &Instr) -> Option<Layout>
    ensures known { IfSome result (λ layout. layout_text layout ≡ encode_leaf instr.now) }
    ensures other { IfNone result (kind_of instr.now ≢ kinds.control) }
{
    match instr {
        Instr::Unreachable => Some(Plain(0x00, Nothing)),
        Instr::Nop => Some(Plain(0x01, Nothing)),
        Instr::Throw(tag) => Some(Plain(0x08, Index(*tag))),
        Instr::ThrowRef => Some(Plain(0x0A, Nothing)),
        Instr::Br(label) => Some(Plain(0x0C, Index(*label))),
        Instr::BrIf(label) => Some(Plain(0x0D, Index(*label))),
        Instr::Return => Some(Plain(0x0F, Nothing)),
        Instr::Drop => Some(Plain(0x1A, Nothing)),
        Instr::Select => Some(Plain(0x1B, Nothing)),
        Instr::BrOnNull(label) => Some(Plain(0xD5, Index(*label))),
        Instr::BrOnNonNull(label) => Some(Plain(0xD6, Index(*label))),
        Instr::BrOnCast(branch) => Some(Prefixed(0xFB, 24, Cast(*branch.get()))),
        Instr::BrOnCastFail(branch) => Some(Prefixed(0xFB, 25, Cast(*branch.get()))),
        _ => None,
    }
}

/// Calls (5.4.1 Control Instructions).
fn call(instr: &Instr) -> Option<Layout>
    ensures known { IfSome result (λ layout. layout_text layout ≡ encode_leaf instr.now) }
    ensures other { IfNone result (kind_of instr.now ≢ kinds.call) }
{
    match instr {
        Instr::Call(func) => Some(Plain(0x10, Index(*func))),
        Instr::CallIndirect(ty, table) => Some(Plain(0x11, Indices(*ty, *table))),
        Instr::ReturnCall(func) => Some(Plain(0x12, Index(*func))),
        Instr::ReturnCallIndirect(ty, table) => Some(Plain(0x13, Indices(*ty, *table))),
        Instr::CallRef(ty) => Some(Plain(0x14, Index(*ty))),
        Instr::ReturnCallRef(ty) => Some(Plain(0x15, Index(*ty))),
        _ => None,
    }
}

/// Variables, numbers and operators, and entries of tables (5.4.4 Variable Instructions, 5.4.7 Numeric
/// Instructions).
fn variable(instr: &Instr) -> Option<Layout>
    requires { IsShapedLeaf instr.now }
    ensures known { IfSome result (λ layout. layout_text layout ≡ encode_leaf instr.now) }
    ensures other { IfNone result (kind_of instr.now ≢ kinds.variable) }
{
    match instr {
        Instr::LocalGet(local) => Some(Plain(0x20, Index(*local))),
        Instr::LocalSet(local) => Some(Plain(0x21, Index(*local))),
        Instr::LocalTee(local) => Some(Plain(0x22, Index(*local))),
        Instr::GlobalGet(global) => Some(Plain(0x23, Index(*global))),
        Instr::GlobalSet(global) => Some(Plain(0x24, Index(*global))),
        Instr::TableGet(table) => Some(Plain(0x25, Index(*table))),
        Instr::TableSet(table) => Some(Plain(0x26, Index(*table))),
        Instr::I32Const(value) => Some(Plain(0x41, Narrow(*value))),
        Instr::I64Const(value) => Some(Plain(0x42, Wide(*value))),
        Instr::Num(op) => Some(Plain(code_of(*op), Nothing)),
        _ => None,
    }
}

/// Loads (5.4.6 Memory Instructions).
fn load(instr: &Instr) -> Option<Layout>
    ensures known { IfSome result (λ layout. layout_text layout ≡ encode_leaf instr.now) }
    ensures other { IfNone result (kind_of instr.now ≢ kinds.load) }
{
    match instr {
        Instr::I32Load(arg) => Some(Plain(0x28, Memory(*arg))),
        Instr::I64Load(arg) => Some(Plain(0x29, Memory(*arg))),
        Instr::I32Load8S(arg) => Some(Plain(0x2C, Memory(*arg))),
        Instr::I32Load8U(arg) => Some(Plain(0x2D, Memory(*arg))),
        Instr::I32Load16S(arg) => Some(Plain(0x2E, Memory(*arg))),
        Instr::I32Load16U(arg) => Some(Plain(0x2F, Memory(*arg))),
        Instr::I64Load8S(arg) => Some(Plain(0x30, Memory(*arg))),
        Instr::I64Load8U(arg) => Some(Plain(0x31, Memory(*arg))),
        Instr::I64Load16S(arg) => Some(Plain(0x32, Memory(*arg))),
        Instr::I64Load16U(arg) => Some(Plain(0x33, Memory(*arg))),
        Instr::I64Load32S(arg) => Some(Plain(0x34, Memory(*arg))),
        Instr::I64Load32U(arg) => Some(Plain(0x35, Memory(*arg))),
        _ => None,
    }
}

/// Stores, and sizes of memories (5.4.6 Memory Instructions).
fn store(instr: &Instr) -> Option<Layout>
    ensures known { IfSome result (λ layout. layout_text layout ≡ encode_leaf instr.now) }
    ensures other { IfNone result (kind_of instr.now ≢ kinds.store) }
{
    match instr {
        Instr::I32Store(arg) => Some(Plain(0x36, Memory(*arg))),
        Instr::I64Store(arg) => Some(Plain(0x37, Memory(*arg))),
        Instr::I32Store8(arg) => Some(Plain(0x3A, Memory(*arg))),
        Instr::I32Store16(arg) => Some(Plain(0x3B, Memory(*arg))),
        Instr::I64Store8(arg) => Some(Plain(0x3C, Memory(*arg))),
        Instr::I64Store16(arg) => Some(Plain(0x3D, Memory(*arg))),
        Instr::I64Store32(arg) => Some(Plain(0x3E, Memory(*arg))),
        Instr::MemorySize(memory) => Some(Plain(0x3F, Index(*memory))),
        Instr::MemoryGrow(memory) => Some(Plain(0x40, Index(*memory))),
        _ => None,
    }
}

/// References and their casts (5.4.2 Reference Instructions).
fn reference(instr: &Instr) -> Option<Layout>
    ensures known { IfSome result (λ layout. layout_text layout ≡ encode_leaf instr.now) }
    ensures other { IfNone result (kind_of instr.now ≢ kinds.reference) }
{
    match instr {
        Instr::RefNull(heap) => Some(Plain(0xD0, Heap(*heap))),
        Instr::RefIsNull => Some(Plain(0xD1, Nothing)),
        Instr::RefFunc(func) => Some(Plain(0xD2, Index(*func))),
        Instr::RefEq => Some(Plain(0xD3, Nothing)),
        Instr::RefAsNonNull => Some(Plain(0xD4, Nothing)),
        Instr::RefTest(ty) => Some(Prefixed(0xFB, 20 + u8::from(ty.null), Heap(ty.heap))),
        Instr::RefCast(ty) => Some(Prefixed(0xFB, 22 + u8::from(ty.null), Heap(ty.heap))),
        Instr::AnyConvertExtern => Some(Prefixed(0xFB, 26, Nothing)),
        Instr::ExternConvertAny => Some(Prefixed(0xFB, 27, Nothing)),
        Instr::RefI31 => Some(Prefixed(0xFB, 28, Nothing)),
        Instr::I31GetS => Some(Prefixed(0xFB, 29, Nothing)),
        Instr::I31GetU => Some(Prefixed(0xFB, 30, Nothing)),
        _ => None,
    }
}

/// Structures, and new arrays (5.4.2 Reference Instructions).
fn structure(instr: &Instr) -> Option<Layout>
    ensures known { IfSome result (λ layout. layout_text layout ≡ encode_leaf instr.now) }
    ensures other { IfNone result (kind_of instr.now ≢ kinds.structure) }
{
    match instr {
        Instr::StructNew(ty) => Some(Prefixed(0xFB, 0, Index(*ty))),
        Instr::StructNewDefault(ty) => Some(Prefixed(0xFB, 1, Index(*ty))),
        Instr::StructGet(ty, field) => Some(Prefixed(0xFB, 2, Indices(*ty, *field))),
        Instr::StructGetS(ty, field) => Some(Prefixed(0xFB, 3, Indices(*ty, *field))),
        Instr::StructGetU(ty, field) => Some(Prefixed(0xFB, 4, Indices(*ty, *field))),
        Instr::StructSet(ty, field) => Some(Prefixed(0xFB, 5, Indices(*ty, *field))),
        Instr::ArrayNew(ty) => Some(Prefixed(0xFB, 6, Index(*ty))),
        Instr::ArrayNewDefault(ty) => Some(Prefixed(0xFB, 7, Index(*ty))),
        Instr::ArrayNewFixed(ty, count) => Some(Prefixed(0xFB, 8, Indices(*ty, *count))),
        Instr::ArrayNewData(ty, segment) => Some(Prefixed(0xFB, 9, Indices(*ty, *segment))),
        Instr::ArrayNewElem(ty, elem) => Some(Prefixed(0xFB, 10, Indices(*ty, *elem))),
        _ => None,
    }
}

/// Arrays (5.4.2 Reference Instructions).
fn array(instr: &Instr) -> Option<Layout>
    ensures known { IfSome result (λ layout. layout_text layout ≡ encode_leaf instr.now) }
    ensures other { IfNone result (kind_of instr.now ≢ kinds.array) }
{
    match instr {
        Instr::ArrayGet(ty) => Some(Prefixed(0xFB, 11, Index(*ty))),
        Instr::ArrayGetS(ty) => Some(Prefixed(0xFB, 12, Index(*ty))),
        Instr::ArrayGetU(ty) => Some(Prefixed(0xFB, 13, Index(*ty))),
        Instr::ArraySet(ty) => Some(Prefixed(0xFB, 14, Index(*ty))),
        Instr::ArrayLen => Some(Prefixed(0xFB, 15, Nothing)),
        Instr::ArrayFill(ty) => Some(Prefixed(0xFB, 16, Index(*ty))),
        Instr::ArrayCopy(to, of) => Some(Prefixed(0xFB, 17, Indices(*to, *of))),
        Instr::ArrayInitData(ty, segment) => Some(Prefixed(0xFB, 18, Indices(*ty, *segment))),
        Instr::ArrayInitElem(ty, elem) => Some(Prefixed(0xFB, 19, Indices(*ty, *elem))),
        _ => None,
    }
}

/// Whole parts of memories and tables (5.4.5 Table Instructions, 5.4.6 Memory Instructions).
fn bulk(instr: &Instr) -> Option<Layout>
    ensures known { IfSome result (λ layout. layout_text layout ≡ encode_leaf instr.now) }
    ensures other { IfNone result (kind_of instr.now ≢ kinds.bulk) }
{
    match instr {
        Instr::MemoryInit(segment, memory) => Some(Prefixed(0xFC, 8, Indices(*segment, *memory))),
        Instr::DataDrop(segment) => Some(Prefixed(0xFC, 9, Index(*segment))),
        Instr::MemoryCopy(to, of) => Some(Prefixed(0xFC, 10, Indices(*to, *of))),
        Instr::MemoryFill(memory) => Some(Prefixed(0xFC, 11, Index(*memory))),
        Instr::TableInit(elem, table) => Some(Prefixed(0xFC, 12, Indices(*elem, *table))),
        Instr::ElemDrop(elem) => Some(Prefixed(0xFC, 13, Index(*elem))),
        Instr::TableCopy(to, of) => Some(Prefixed(0xFC, 14, Indices(*to, *of))),
        Instr::TableGrow(table) => Some(Prefixed(0xFC, 15, Index(*table))),
        Instr::TableSize(table) => Some(Prefixed(0xFC, 16, Index(*table))),
        Instr::TableFill(table) => Some(Prefixed(0xFC, 17, Index(*table))),
        _ => None,
    }
}
