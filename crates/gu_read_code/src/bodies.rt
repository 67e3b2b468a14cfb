//! Expressions (core specification 3.0, 5.4 Instructions, expressions).
ghost use Rattle.std.specs.Prelude.{[], ◌≡◌, ◌≤◌, length, IfOk};
ghost use Rattle.gu_syntax.specs.Reading.{body_at};
ghost use Rattle.gu_read_parts.specs.Gives.{Gives, left_of};

use crate::code::read_until;
use gu_read_parts::{Part, Stop};
use gu_syntax::{Body, Instr};
use std::alloc::{AllocError, Global};

/// How many blocks may be open at once in an expression.
const ROOM: u32 = 1000;

/// How many instructions of an expression are made room for at first.
const FIRST: usize = 14;

/// The expression that the bytes begin with, and the bytes behind it: the body of a function, or a
/// constant expression.
///
/// Where it stops, `Refused` says what the grammar asks there: the code of an instruction that opens
/// no block at a block that is opened where 1,000 are open.
pub fn expression(alloc: Global, bytes: &[u8]) -> Result<(Body, &[u8]), Stop>
    ensures value { Gives result (body_at 1000 bytes.now) }
    ensures inside { left_of result ≤ length bytes.now }
{
    let mut pending = new_stack(alloc)?;
    expression_on(alloc, &mut pending, bytes)
}

/// A stack of no instructions, with room for some.
pub fn new_stack(alloc: Global) -> Result<Vec<Instr>, AllocError>
    ensures { IfOk result (λ stack. stack.items ≡ []) }
{
    Vec::with_capacity(alloc, FIRST)
}

/// The same with room that one expression leaves to the next: instructions lie on the `pending` ones
/// until their block ends, and some may be left there where it stops.
pub fn expression_on<'a>(
    alloc: Global,
    pending: &mut Vec<Instr>,
    bytes: &'a [u8],
) -> Result<(Body, &'a [u8]), Stop>
    ensures value { Gives result (body_at 1000 bytes.now) }
    ensures inside { left_of result ≤ length bytes.now }
{
    let (branch, rest) = read_until(alloc, ROOM, false, pending, bytes)?;
    Ok((branch.code, rest))
}

/// Expressions, as a part of the grammar.
pub struct Expressions;

impl Part for Expressions {
    ghost use Rattle.gu_syntax.specs.Reading.{body_at};

    type Value = Body;

    ghost at = { body_at 1000 };

    fn read(alloc: Global, bytes: &[u8]) -> Result<(Body, &[u8]), Stop> {
        expression(alloc, bytes)
    }
}
