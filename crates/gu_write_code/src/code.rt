//! Expressions (core specification 3.0, 5.4 Instructions).
ghost use Rattle.std.specs.Prelude.{◌≡◌, ◌++◌, ◌∷◌, OnOk, IfErr, IfSome};
ghost use Rattle.gu_bytes.specs.Numbers.{least_unsigned};
ghost use Rattle.gu_syntax.specs.Code.{code_of, ins_of, choice, try_table};
ghost use Rattle.gu_syntax.specs.Encoding.{encode_block_type, encode_catch, encode_leaf, encode_ins, encode_until, encode_body};
ghost use Rattle.gu_syntax.specs.Shape.{IsShapedLeaf, IsShapedCatch, IsShapedIns, IsShapedCode, IsShapedBody};
ghost use Rattle.gu_write_parts.specs.Limit.{BlamesEnd};
ghost use Rattle.gu_write_code.specs.Layouts.{block_text};

use crate::layout::put_layout;
use crate::tables::layout_of;
use gu_bytes::{put_s32, put_s33, put_u32};
use gu_optab::code_of;
use gu_syntax::{BlockType, Body, BranchTable, Catch, Choice, Guarded, Instr, Structured};
use gu_types::ValType;
use gu_write_parts::{
    Form, IndexForm, LIMIT, ValTypeForm, WriteErr, put_byte, put_val, put_vector,
};
use std::alloc::{AllocError, Global};

/// The byte that ends an expression.
const END: u8 = 0x0B;

/// The byte between the branches of an `if`.
const ELSE: u8 = 0x05;

/// Appends an expression: its instructions and the end (5.4.9 Expressions).
///
/// `TooLong` where it would end past 268,435,456 bytes. After an error nothing is said of what was
/// appended.
pub fn put_body(alloc: Global, out: &mut Vec<u8>, body: &Body) -> Result<(), WriteErr>
    requires { IsShapedBody body.now }
    ensures ok { OnOk result (out.new.items ≡ out.old.items ++ encode_body body.now) }
    ensures too_long { IfErr result (BlamesEnd out.old.items (encode_body body.now)) }
{
    put_until(alloc, out, END, body.code.as_slice())
}

/// Appends instructions, and the byte that ends them.
#[cycle(code)]
fn put_until(alloc: Global, out: &mut Vec<u8>, end: u8, instrs: &[Instr]) -> Result<(), WriteErr>
    requires { IsShapedCode (code_of instrs.now) }
    ensures ok { OnOk result (out.new.items ≡ out.old.items ++ encode_until end (code_of instrs.now)) }
    ensures too_long { IfErr result (BlamesEnd out.old.items (encode_until end (code_of instrs.now))) }
{
    'instrs: for instr in instrs {
        put_instr(alloc, out, instr)?;
        if out.len() > LIMIT {
            return Err(WriteErr::TooLong);
        }
    }
    put_byte(out, end)?;
    Ok(())
}

/// Appends an instruction (5.4 Instructions).
#[cycle(code)]
#[tactic(auto, using(gu_syntax::proofs::Shapes::shapes))]
fn put_instr(alloc: Global, out: &mut Vec<u8>, instr: &Instr) -> Result<(), WriteErr>
    requires { IsShapedIns (ins_of instr.now) }
    ensures ok { OnOk result (out.new.items ≡ out.old.items ++ encode_ins (ins_of instr.now)) }
    ensures too_long { IfErr result (BlamesEnd out.old.items (encode_ins (ins_of instr.now))) }
{
    match instr {
        Instr::Block(boxed) => {
            let Structured { ty, body } = boxed.get();
            put_block(alloc, out, 0x02, *ty, END, body)
        }
        Instr::Loop(boxed) => {
            let Structured { ty, body } = boxed.get();
            put_block(alloc, out, 0x03, *ty, END, body)
        }
        Instr::If(boxed) => put_choice(alloc, out, boxed.get()),
        Instr::TryTable(boxed) => put_guarded(alloc, out, boxed.get()),
        _ => put_leaf(alloc, out, instr),
    }
}

/// Appends an `if`; an empty second branch is left out (5.4.1 Control Instructions).
#[cycle(code)]
fn put_choice(alloc: Global, out: &mut Vec<u8>, whole: &Choice) -> Result<(), WriteErr>
    requires { IsShapedIns (choice whole.now.ty (code_of whole.now.yes.code) (code_of whole.now.no.code)) }
    ensures ok { OnOk result (out.new.items ≡ out.old.items ++ encode_ins (choice whole.now.ty (code_of whole.now.yes.code) (code_of whole.now.no.code))) }
    ensures too_long { IfErr result (BlamesEnd out.old.items (encode_ins (choice whole.now.ty (code_of whole.now.yes.code) (code_of whole.now.no.code)))) }
{
    let Choice { ty, yes, no } = whole;
    if no.code.as_slice().is_empty() {
        return put_block(alloc, out, 0x04, *ty, END, yes);
    }
    put_block(alloc, out, 0x04, *ty, ELSE, yes)?;
    put_until(alloc, out, END, no.code.as_slice())
}

/// Appends the code of a construct, its type, and its first instructions up to a byte that ends them.
#[cycle(code)]
fn put_block(
    alloc: Global,
    out: &mut Vec<u8>,
    code: u8,
    ty: BlockType,
    end: u8,
    body: &Body,
) -> Result<(), WriteErr>
    requires { IsShapedCode (code_of body.now.code) }
    ensures ok { OnOk result (out.new.items ≡ out.old.items ++ block_text code ty end (code_of body.now.code)) }
    ensures too_long { IfErr result (BlamesEnd out.old.items (block_text code ty end (code_of body.now.code))) }
{
    put_opening(alloc, out, code, ty)?;
    put_until(alloc, out, end, body.code.as_slice())
}

/// Appends a `try_table` (5.4.1 Control Instructions).
#[cycle(code)]
fn put_guarded(alloc: Global, out: &mut Vec<u8>, whole: &Guarded) -> Result<(), WriteErr>
    requires { IsShapedIns (try_table whole.now.ty whole.now.catches (code_of whole.now.body.code)) }
    ensures ok { OnOk result (out.new.items ≡ out.old.items ++ encode_ins (try_table whole.now.ty whole.now.catches (code_of whole.now.body.code))) }
    ensures too_long { IfErr result (BlamesEnd out.old.items (encode_ins (try_table whole.now.ty whole.now.catches (code_of whole.now.body.code)))) }
{
    let Guarded { ty, catches, body } = whole;
    put_opening(alloc, out, 0x1F, *ty)?;
    put_vector::<CatchForm, Catch>(alloc, out, catches.as_slice())?;
    put_until(alloc, out, END, body.code.as_slice())
}

/// Appends the code of a block and its type (5.4.1 Control Instructions). The error says that memory
/// ran out.
#[inline(always)]
fn put_opening(alloc: Global, out: &mut Vec<u8>, code: u8, ty: BlockType) -> Result<(), AllocError>
    ensures { OnOk result (out.new.items ≡ out.old.items ++ code ∷ encode_block_type ty) }
{
    put_byte(out, code)?;
    match ty {
        BlockType::Empty => put_byte(out, 0x40),
        _ => put_type(alloc, out, ty),
    }
}

/// Appends the type of a block (5.4.1 Control Instructions). The error says that memory ran out.
#[inline(never)]
fn put_type(alloc: Global, out: &mut Vec<u8>, ty: BlockType) -> Result<(), AllocError>
    ensures { OnOk result (out.new.items ≡ out.old.items ++ encode_block_type ty) }
{
    match ty {
        BlockType::Empty => put_byte(out, 0x40),
        BlockType::Val(ty) => put_val(alloc, out, ty),
        BlockType::Idx(index) => put_s33(alloc, out, i64::from(index)),
    }
}

/// Catch clauses (5.4.1 Control Instructions).
struct CatchForm;

impl Form<Catch> for CatchForm {
    ghost use Rattle.gu_syntax.specs.Encoding.{encode_catch};
    ghost use Rattle.gu_syntax.specs.Shape.{IsShapedCatch};

    ghost text = { encode_catch };

    ghost is_shaped = { IsShapedCatch };

    fn put(alloc: Global, out: &mut Vec<u8>, catch: &Catch) -> Result<(), WriteErr> {
        put_catch(alloc, out, *catch)?;
        Ok(())
    }
}

/// Appends a catch clause. The error says that memory ran out.
fn put_catch(alloc: Global, out: &mut Vec<u8>, catch: Catch) -> Result<(), AllocError>
    ensures { OnOk result (out.new.items ≡ out.old.items ++ encode_catch catch) }
{
    match catch {
        Catch::One(tag, label) => put_tagged(alloc, out, 0x00, tag, label),
        Catch::OneRef(tag, label) => put_tagged(alloc, out, 0x01, tag, label),
        Catch::All(label) => {
            put_byte(out, 0x02)?;
            put_u32(alloc, out, label)
        }
        Catch::AllRef(label) => {
            put_byte(out, 0x03)?;
            put_u32(alloc, out, label)
        }
    }
}

fn put_tagged(
    alloc: Global,
    out: &mut Vec<u8>,
    form: u8,
    tag: u32,
    label: u32,
) -> Result<(), AllocError>
    ensures { OnOk result (out.new.items ≡ out.old.items ++ form ∷ (least_unsigned tag ++ least_unsigned label)) }
{
    put_byte(out, form)?;
    put_u32(alloc, out, tag)?;
    put_u32(alloc, out, label)
}

/// The code and the index of an instruction that has one, where it is among the most common.
#[inline(always)]
fn short_layout(instr: &Instr) -> Option<(u8, u32)>
    ensures { IfSome result (λ x. encode_leaf instr.now ≡ x.0 ∷ least_unsigned x.1) }
{
    match instr {
        Instr::Br(label) => Some((0x0C, *label)),
        Instr::BrIf(label) => Some((0x0D, *label)),
        Instr::Call(func) => Some((0x10, *func)),
        Instr::LocalGet(local) => Some((0x20, *local)),
        Instr::LocalSet(local) => Some((0x21, *local)),
        Instr::LocalTee(local) => Some((0x22, *local)),
        Instr::GlobalGet(global) => Some((0x23, *global)),
        Instr::GlobalSet(global) => Some((0x24, *global)),
        _ => None,
    }
}

/// Appends an instruction that holds no code, the most common ones first (5.4 Instructions).
///
/// `TooLong` where it would end past 268,435,456 bytes.
#[inline(always)]
fn put_leaf(alloc: Global, out: &mut Vec<u8>, instr: &Instr) -> Result<(), WriteErr>
    requires { IsShapedLeaf instr.now }
    ensures ok { OnOk result (out.new.items ≡ out.old.items ++ encode_leaf instr.now) }
    ensures too_long { IfErr result (BlamesEnd out.old.items (encode_leaf instr.now)) }
{
    if let Some((code, index)) = short_layout(instr) {
        put_byte(out, code)?;
        put_u32(alloc, out, index)?;
        return Ok(());
    }
    match instr {
        Instr::I32Const(value) => {
            put_byte(out, 0x41)?;
            put_s32(alloc, out, *value)?;
            Ok(())
        }
        Instr::Num(op) => {
            put_byte(out, code_of(*op))?;
            Ok(())
        }
        _ => put_any_leaf(alloc, out, instr),
    }
}

/// The same, whatever instruction it is.
#[inline(never)]
fn put_any_leaf(alloc: Global, out: &mut Vec<u8>, instr: &Instr) -> Result<(), WriteErr>
    requires { IsShapedLeaf instr.now }
    ensures ok { OnOk result (out.new.items ≡ out.old.items ++ encode_leaf instr.now) }
    ensures too_long { IfErr result (BlamesEnd out.old.items (encode_leaf instr.now)) }
{
    if let Some(layout) = layout_of(instr) {
        put_layout(alloc, out, layout)?;
        return Ok(());
    }
    match instr {
        Instr::BrTable(boxed) => {
            let BranchTable { labels, last } = boxed.get();
            put_byte(out, 0x0E)?;
            put_vector::<IndexForm, u32>(alloc, out, labels.as_slice())?;
            put_u32(alloc, out, *last)?;
            Ok(())
        }
        Instr::SelectOf(types) => {
            put_byte(out, 0x1C)?;
            put_vector::<ValTypeForm, ValType>(alloc, out, types.get().as_slice())
        }
        _ => unreachable!(),
    }
}
