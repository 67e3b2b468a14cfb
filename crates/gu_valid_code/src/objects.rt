//! The most frequent instructions on structures, arrays and references (core specification 3.0, 3.4
//! Instructions, reference and aggregate instructions). Each goes by its row, which is not made.
ghost use Rattle.std.specs.Prelude.{◌≡◌, IfOk};
ghost use Rattle.gu_syntax.specs.declared.instr.Instr.TheVariants.{StructGet, StructSet, ArrayGet, ArraySet};
ghost use Rattle.gu_model.specs.TypingReferences as typing;
ghost use Rattle.gu_model.specs.TypingShape.{type_row};
ghost use Rattle.gu_valid_code.specs.Env.{context_of};
ghost use Rattle.gu_valid_code.specs.State.{Did};

use crate::env::Env;
use crate::references::{abs_or_null, field_at, field_value, idx_or_null, is_packed};
use crate::row::Few;
use crate::state::State;
use gu_types::RefType;
use gu_types::ValType::{self, I32};
use std::alloc::AllocError;

/// A read of a field that is not packed.
#[inline(never)]
pub(crate) fn struct_get(
    env: &Env<'_>,
    state: &mut State,
    ty: u32,
    field: u32,
) -> Result<bool, AllocError>
    ensures { IfOk result (λ typed. Did typed (type_row env.now.types.now (typing.struct_row (context_of env.now) (StructGet ty field)) state.old) state.new) }
{
    let Some(found) = field_at(env, ty, field) else {
        return Ok(false);
    };
    if is_packed(found.storage) || !state.pop_one(env, idx_or_null(ty)) {
        return Ok(false);
    }
    state.push_val(field_value(found))?;
    Ok(true)
}

/// A write of a field.
#[inline(never)]
pub(crate) fn struct_set(
    env: &Env<'_>,
    state: &mut State,
    ty: u32,
    field: u32,
) -> Result<bool, AllocError>
    ensures { IfOk result (λ typed. Did typed (type_row env.now.types.now (typing.struct_row (context_of env.now) (StructSet ty field)) state.old) state.new) }
{
    let Some(found) = field_at(env, ty, field) else {
        return Ok(false);
    };
    let operands = Few::Two(idx_or_null(ty), field_value(found));
    Ok(found.mutable && state.pop_few(env, operands))
}

/// A read of an element that is not packed.
#[inline(never)]
pub(crate) fn array_get(env: &Env<'_>, state: &mut State, ty: u32) -> Result<bool, AllocError>
    ensures { IfOk result (λ typed. Did typed (type_row env.now.types.now (typing.array_row (context_of env.now) (ArrayGet ty)) state.old) state.new) }
{
    let Some(found) = env.elements_at(ty) else {
        return Ok(false);
    };
    let operands = Few::Two(idx_or_null(ty), I32);
    if is_packed(found.storage) || !state.pop_few(env, operands) {
        return Ok(false);
    }
    state.push_val(field_value(found))?;
    Ok(true)
}

/// A write of an element.
#[inline(never)]
pub(crate) fn array_set(env: &Env<'_>, state: &mut State, ty: u32) -> Result<bool, AllocError>
    ensures { IfOk result (λ typed. Did typed (type_row env.now.types.now (typing.array_row (context_of env.now) (ArraySet ty)) state.old) state.new) }
{
    let Some(found) = env.elements_at(ty) else {
        return Ok(false);
    };
    let operands = Few::Three(idx_or_null(ty), I32, field_value(found));
    Ok(found.mutable && state.pop_few(env, operands))
}

/// A test or a cast: it takes a reference of any type of the tree that a reference type belongs to.
#[inline(never)]
pub(crate) fn cast(
    env: &Env<'_>,
    state: &mut State,
    of: RefType,
    given: ValType,
) -> Result<bool, AllocError>
    ensures { IfOk result (λ typed. Did typed (type_row env.now.types.now (typing.of_tree (context_of env.now) of given) state.old) state.new) }
{
    let Some(top) = env.top_of(of.heap) else {
        return Ok(false);
    };
    if !state.pop_one(env, abs_or_null(top)) {
        return Ok(false);
    }
    state.push_val(given)?;
    Ok(true)
}
