//! Element segments (core specification 3.0, 5.5.12 Element Section).
ghost use Rattle.std.specs.Prelude.{◌≡◌, ◌≤◌, ◌∷◌, length};
ghost use Rattle.gu_syntax.specs.Reading.{kind_funcs_at, exprs_at, both_at, ref_at, funcs_at};
ghost use Rattle.gu_read_parts.specs.Gives.{Gives, left_of};
ghost use Rattle.gu_read.specs.Forms.{form_at};

use crate::items::read_after_zero;
use gu_read_code::{Expressions, expression};
use gu_read_parts::{Asked, Index, Part, Stop, read_ref, read_u32, read_u32_as, read_vector};
use gu_syntax::{Body, Elem, ElemMode, Items};
use gu_types::{Abs, HeapType, List, RefType};
use std::alloc::Global;

/// References to functions where the table has any type of functions.
const FUNCREF: RefType = RefType {
    null: true,
    heap: HeapType::Abs(Abs::AnyFunc),
};

/// Function indices, as a part of the grammar.
struct Funcs;

impl Part for Funcs {
    ghost use Rattle.gu_syntax.specs.Reading.{funcs_at};

    type Value = List<u32>;

    ghost at = { funcs_at };

    fn read(alloc: Global, bytes: &[u8]) -> Result<(List<u32>, &[u8]), Stop> {
        read_vector::<Index>(alloc, bytes)
    }
}

/// Function indices behind the byte of their kind.
fn read_kind_funcs(alloc: Global, bytes: &[u8]) -> Result<(List<u32>, &[u8]), Stop>
    ensures value { Gives result (kind_funcs_at bytes.now) }
    ensures inside { left_of result ≤ length bytes.now }
{
    read_after_zero::<Funcs>(alloc, bytes)
}

/// Expressions behind their type.
fn read_typed(alloc: Global, bytes: &[u8]) -> Result<((RefType, List<Body>), &[u8]), Stop>
    ensures value { Gives result (both_at ref_at (exprs_at 1000) bytes.now) }
    ensures inside { left_of result ≤ length bytes.now }
{
    let (ty, rest) = read_ref(bytes)?;
    let (exprs, rest) = read_vector::<Expressions>(alloc, rest)?;
    Ok(((ty, exprs), rest))
}

/// An element segment, as a part of the grammar: a number for its form, and what the form has. The
/// forms that leave out the table are of the first one.
pub struct Elems;

impl Part for Elems {
    ghost use Rattle.gu_syntax.specs.Reading.{elem_at};

    type Value = Elem;

    ghost at = { elem_at 1000 };

    fn read(alloc: Global, bytes: &[u8]) -> Result<(Elem, &[u8]), Stop> {
        let (form, rest) = read_u32_as(Asked::Fixed, bytes)?;
        match form {
            0 => read_funcs_of_first(alloc, rest),
            1 => {
                let (funcs, rest) = read_kind_funcs(alloc, rest)?;
                Ok((elem(ElemMode::Passive, Items::Funcs(funcs)), rest))
            }
            2 => read_funcs_of_table(alloc, rest),
            3 => {
                let (funcs, rest) = read_kind_funcs(alloc, rest)?;
                Ok((elem(ElemMode::Declared, Items::Funcs(funcs)), rest))
            }
            4 => read_exprs_of_first(alloc, rest),
            5 => {
                let ((ty, exprs), rest) = read_typed(alloc, rest)?;
                Ok((elem(ElemMode::Passive, Items::Exprs(ty, exprs)), rest))
            }
            6 => read_exprs_of_table(alloc, rest),
            7 => {
                let ((ty, exprs), rest) = read_typed(alloc, rest)?;
                Ok((elem(ElemMode::Declared, Items::Exprs(ty, exprs)), rest))
            }
            _ => Err(Stop::at(Asked::Fixed, bytes)),
        }
    }
}

/// An element segment of a mode and items.
fn elem(mode: ElemMode, items: Items) -> Elem
    ensures { result ≡ record { mode = mode; items = items } }
{
    Elem { mode, items }
}

/// An active segment of functions for the first table, behind its form.
fn read_funcs_of_first(alloc: Global, bytes: &[u8]) -> Result<(Elem, &[u8]), Stop>
    ensures value { Gives result (form_at 0 bytes.now) }
    ensures inside { left_of result ≤ length bytes.now }
{
    let (offset, rest) = expression(alloc, bytes)?;
    let (funcs, rest) = read_vector::<Index>(alloc, rest)?;
    Ok((elem(ElemMode::Active(0, offset), Items::Funcs(funcs)), rest))
}

/// An active segment of functions for a table, behind its form.
fn read_funcs_of_table(alloc: Global, bytes: &[u8]) -> Result<(Elem, &[u8]), Stop>
    ensures value { Gives result (form_at 2 bytes.now) }
    ensures inside { left_of result ≤ length bytes.now }
{
    let (table, rest) = read_u32(bytes)?;
    let (offset, rest) = expression(alloc, rest)?;
    let (funcs, rest) = read_kind_funcs(alloc, rest)?;
    Ok((
        elem(ElemMode::Active(table, offset), Items::Funcs(funcs)),
        rest,
    ))
}

/// An active segment of expressions for the first table, behind its form.
fn read_exprs_of_first(alloc: Global, bytes: &[u8]) -> Result<(Elem, &[u8]), Stop>
    ensures value { Gives result (form_at 4 bytes.now) }
    ensures inside { left_of result ≤ length bytes.now }
{
    let (offset, rest) = expression(alloc, bytes)?;
    let (exprs, rest) = read_vector::<Expressions>(alloc, rest)?;
    Ok((
        elem(ElemMode::Active(0, offset), Items::Exprs(FUNCREF, exprs)),
        rest,
    ))
}

/// An active segment of expressions for a table, behind its form.
fn read_exprs_of_table(alloc: Global, bytes: &[u8]) -> Result<(Elem, &[u8]), Stop>
    ensures value { Gives result (form_at 6 bytes.now) }
    ensures inside { left_of result ≤ length bytes.now }
{
    let (table, rest) = read_u32(bytes)?;
    let (offset, rest) = expression(alloc, rest)?;
    let ((ty, exprs), rest) = read_typed(alloc, rest)?;
    Ok((
        elem(ElemMode::Active(table, offset), Items::Exprs(ty, exprs)),
        rest,
    ))
}
