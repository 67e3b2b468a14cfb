//! Nested instructions. Reading goes down into blocks by recursion, and along the instructions of one
//! block by a loop. The instructions of all blocks that have not ended lie on one stack, those of an
//! inner block on those around it, and a block takes its own off where it ends.
ghost use Rattle.std.specs.Prelude.{◌≡◌, ◌+◌, ◌<◌, ◌≤◌, [], ◌∷◌, ◌++◌, ℕ, suc, length, take, drop, IfOk, OnOk};
ghost use Rattle.gu_syntax.specs.Code.{ins_of};
ghost use Rattle.gu_syntax.specs.Reading.{ins_at, until_at};
ghost use Rattle.gu_read_parts.specs.Gives.{GivesAs, left_of};
ghost use Rattle.gu_read_code.specs.Nested.{branch_of};

use crate::blocks::{Catches, read_block_type};
use crate::leaf::{read_leaf, read_short};
use gu_boxed::Boxed;
use gu_read_parts::{Asked, Stop, read_vector};
use gu_syntax::{Body, Choice, Guarded, Instr, Structured};
use gu_types::List;
use std::alloc::{AllocError, Global};
use std::mem;

/// The code of the end of instructions.
const END: u8 = 0x0B;

/// The code between the branches of an `if`.
const ELSE: u8 = 0x05;

/// How many instructions of an expression are moved to a place of their own at most: 64 kilobytes.
const MOVED: usize = 4096;

/// Instructions up to the code that ends them.
#[derive(Debug, Drop)]
pub struct Branch {
    /// The instructions.
    pub code: Body,
    /// Whether `else` ended them.
    pub at_else: bool,
}

/// Instructions up to `end`, or up to `else` where it may stand, where so many blocks may be open
/// inside (5.4.1 Control Instructions). They lie on the `pending` ones until they end.
#[cycle(nesting)]
pub fn read_until<'a>(
    alloc: Global,
    room: u32,
    may_split: bool,
    pending: &mut Vec<Instr>,
    bytes: &'a [u8],
) -> Result<(Branch, &'a [u8]), Stop>
    ensures value { (fuel : ℕ) → length bytes.now < fuel → GivesAs branch_of result (until_at fuel room may_split bytes.now) }
    ensures inside { left_of result ≤ length bytes.now }
    ensures kept { OnOk result (pending.new.items ≡ pending.old.items) }
{
    let from = pending.len();
    let mut rest = bytes;
    'code: while let Some((op, more)) = rest.split_first() {
        if *op == END {
            return Ok((close_branch(alloc, pending, from, false)?, more));
        }
        if may_split && *op == ELSE {
            return Ok((close_branch(alloc, pending, from, true)?, more));
        }
        if let Some((instr, behind)) = read_short(*op, more) {
            put(pending, instr)?;
            rest = behind;
            continue;
        }
        let (instr, behind) = read_instr(alloc, room, *op, pending, more)?;
        put(pending, instr)?;
        rest = behind;
    }
    Err(Stop::at(Asked::Opcode, rest))
}

/// Puts an instruction on the others.
#[inline(always)]
fn put(pending: &mut Vec<Instr>, instr: Instr) -> Result<(), AllocError>
    ensures { OnOk result (pending.new.items ≡ pending.old.items ++ instr ∷ []) }
{
    pending.push(instr)?;
    Ok(())
}

/// Takes the instructions off that lie `from` a place on, as a branch.
#[inline(never)]
fn close_branch(
    alloc: Global,
    pending: &mut Vec<Instr>,
    from: usize,
    at_else: bool,
) -> Result<Branch, AllocError>
    requires { from ≤ length pending.old.items }
    ensures code { IfOk result (λ branch. branch.code.code ≡ drop from pending.old.items) }
    ensures at_else { IfOk result (λ branch. branch.at_else ≡ at_else) }
    ensures kept { OnOk result (pending.new.items ≡ take from pending.old.items) }
{
    let code = List::from_vec(take_off(alloc, pending, from)?);
    Ok(Branch {
        code: Body { code },
        at_else,
    })
}

/// Takes the instructions off that lie `from` a place on, in no more memory than they need. Many with
/// none below them keep the place where they lie.
fn take_off(alloc: Global, pending: &mut Vec<Instr>, from: usize) -> Result<Vec<Instr>, AllocError>
    requires { from ≤ length pending.old.items }
    ensures items { IfOk result (λ instrs. instrs.items ≡ drop from pending.old.items) }
    ensures kept { OnOk result (pending.new.items ≡ take from pending.old.items) }
{
    if from > 0 || pending.len() <= MOVED {
        return pending.split_off(from);
    }
    let mut instrs = mem::replace(pending, Vec::new(alloc));
    instrs.shrink_to_fit();
    Ok(instrs)
}

/// The instruction with this code, where the bytes are those behind the code, and so many blocks may
/// be open inside. The instruction that opens one too many is refused at its code.
#[cycle(nesting)]
#[inline(always)]
fn read_instr<'a>(
    alloc: Global,
    room: u32,
    op: u8,
    pending: &mut Vec<Instr>,
    bytes: &'a [u8],
) -> Result<(Instr, &'a [u8]), Stop>
    ensures value { (fuel : ℕ) → length bytes.now < fuel → GivesAs ins_of result (ins_at (until_at fuel) room (suc (length bytes.now)) op bytes.now) }
    ensures inside { left_of result ≤ length bytes.now + 1 }
    ensures behind { IfOk result (λ x. length x.1.now ≤ length bytes.now) }
    ensures kept { OnOk result (pending.new.items ≡ pending.old.items) }
{
    match op {
        0x02 => read_block(alloc, room, pending, bytes),
        0x03 => read_loop(alloc, room, pending, bytes),
        0x04 => read_if(alloc, room, pending, bytes),
        0x1F => read_try_table(alloc, room, pending, bytes),
        _ => read_leaf(alloc, op, bytes),
    }
}

/// A block.
#[cycle(nesting)]
#[inline(always)]
fn read_block<'a>(
    alloc: Global,
    room: u32,
    pending: &mut Vec<Instr>,
    bytes: &'a [u8],
) -> Result<(Instr, &'a [u8]), Stop>
    ensures value { (fuel : ℕ) → length bytes.now < fuel → GivesAs ins_of result (ins_at (until_at fuel) room (suc (length bytes.now)) 0x02 bytes.now) }
    ensures inside { left_of result ≤ length bytes.now + 1 }
    ensures behind { IfOk result (λ x. length x.1.now ≤ length bytes.now) }
    ensures kept { OnOk result (pending.new.items ≡ pending.old.items) }
{
    if room == 0 {
        return Err(too_deep(bytes));
    }
    let (ty, rest) = read_block_type(bytes)?;
    let (inner, rest) = read_until(alloc, room - 1, false, pending, rest)?;
    let body = inner.code;
    let block = Boxed::new(alloc, Structured { ty, body })?;
    Ok((Instr::Block(block), rest))
}

/// A loop.
#[cycle(nesting)]
#[inline(always)]
fn read_loop<'a>(
    alloc: Global,
    room: u32,
    pending: &mut Vec<Instr>,
    bytes: &'a [u8],
) -> Result<(Instr, &'a [u8]), Stop>
    ensures value { (fuel : ℕ) → length bytes.now < fuel → GivesAs ins_of result (ins_at (until_at fuel) room (suc (length bytes.now)) 0x03 bytes.now) }
    ensures inside { left_of result ≤ length bytes.now + 1 }
    ensures behind { IfOk result (λ x. length x.1.now ≤ length bytes.now) }
    ensures kept { OnOk result (pending.new.items ≡ pending.old.items) }
{
    if room == 0 {
        return Err(too_deep(bytes));
    }
    let (ty, rest) = read_block_type(bytes)?;
    let (inner, rest) = read_until(alloc, room - 1, false, pending, rest)?;
    let body = inner.code;
    let block = Boxed::new(alloc, Structured { ty, body })?;
    Ok((Instr::Loop(block), rest))
}

/// An `if`, whose second branch is empty where `else` is missing.
#[cycle(nesting)]
#[inline(never)]
fn read_if<'a>(
    alloc: Global,
    room: u32,
    pending: &mut Vec<Instr>,
    bytes: &'a [u8],
) -> Result<(Instr, &'a [u8]), Stop>
    ensures value { (fuel : ℕ) → length bytes.now < fuel → GivesAs ins_of result (ins_at (until_at fuel) room (suc (length bytes.now)) 0x04 bytes.now) }
    ensures inside { left_of result ≤ length bytes.now + 1 }
    ensures behind { IfOk result (λ x. length x.1.now ≤ length bytes.now) }
    ensures kept { OnOk result (pending.new.items ≡ pending.old.items) }
{
    if room == 0 {
        return Err(too_deep(bytes));
    }
    let (ty, rest) = read_block_type(bytes)?;
    let (first, rest) = read_until(alloc, room - 1, true, pending, rest)?;
    let yes = first.code;
    if first.at_else {
        let (second, rest) = read_until(alloc, room - 1, false, pending, rest)?;
        let no = second.code;
        let choice = Boxed::new(alloc, Choice { ty, yes, no })?;
        return Ok((Instr::If(choice), rest));
    }
    let code = List::new(alloc);
    let no = Body { code };
    let choice = Boxed::new(alloc, Choice { ty, yes, no })?;
    Ok((Instr::If(choice), rest))
}

/// A block whose exceptions catch clauses take.
#[cycle(nesting)]
#[inline(never)]
fn read_try_table<'a>(
    alloc: Global,
    room: u32,
    pending: &mut Vec<Instr>,
    bytes: &'a [u8],
) -> Result<(Instr, &'a [u8]), Stop>
    ensures value { (fuel : ℕ) → length bytes.now < fuel → GivesAs ins_of result (ins_at (until_at fuel) room (suc (length bytes.now)) 0x1F bytes.now) }
    ensures inside { left_of result ≤ length bytes.now + 1 }
    ensures behind { IfOk result (λ x. length x.1.now ≤ length bytes.now) }
    ensures kept { OnOk result (pending.new.items ≡ pending.old.items) }
{
    if room == 0 {
        return Err(too_deep(bytes));
    }
    let (ty, rest) = read_block_type(bytes)?;
    let (catches, rest) = read_vector::<Catches>(alloc, rest)?;
    let (inner, rest) = read_until(alloc, room - 1, false, pending, rest)?;
    let body = inner.code;
    let guarded = Boxed::new(alloc, Guarded { ty, catches, body })?;
    Ok((Instr::TryTable(guarded), rest))
}

/// A block is opened before these bytes where as many are open as may be.
fn too_deep(bytes: &[u8]) -> Stop
    ensures { result ≡ Stop.Refused Asked.FlatOpcode (suc (length bytes.now)) }
{
    Stop::Refused {
        asked: Asked::FlatOpcode,
        left: bytes.len() + 1,
    }
}
