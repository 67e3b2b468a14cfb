//! The instructions whose results rest on their operands (core specification 3.0, 3.4 Instructions,
//! and appendix, Validation Algorithm).
ghost use Rattle.std.specs.Prelude.{◌≡◌, [], ◌∷◌, IfOk, Option, option_map, length, slice_get, false};
ghost use Rattle.std.specs.List.{list_all};
ghost use Rattle.gu_model.specs.TypingShape.{pop_kind, push, non_null, pushes, type_row};
ghost use Rattle.gu_model.specs.TypingNumbers.{operator_row};
ghost use Rattle.gu_model.specs.Typing as typing;
ghost use Rattle.gu_valid_code.specs.Env.{context_of};
ghost use Rattle.gu_valid_code.specs.State.{Did, kind_of};
ghost use Rattle.gu_valid_code.specs.Leaf as leaf;
ghost use Rattle.gu_valid_code.specs.Leaf.{sets_local};
ghost use Rattle.gu_valid_code.specs.Rows.{row_of};
ghost use Rattle.gu_valid_code.specs.Scope.{parts_of};

use crate::control::{call, calls, control_row};
use crate::env::Env;
use crate::numbers::operator;
use crate::objects::{array_get, array_set, cast, struct_get, struct_set};
use crate::references::{abs, abs_or_null, idx_or_null};
use crate::row::{Few, Row};
use crate::scope::{Scope, split_last};
use crate::state::{Operand, State, non_null, nulls, suits};
use gu_optab::NumOp;
use gu_syntax::{BranchTable, Instr};
use gu_types::Abs;
use gu_types::ValType::{self, I32, I64, Ref};
use std::alloc::AllocError;

/// What a choice without a type gives: the operands are numbers of one type, or unknown.
fn selected(first: Operand, second: Operand) -> Option<Operand>
    ensures { option_map kind_of result ≡ typing.selected (kind_of first) (kind_of second) }
{
    match (first, second) {
        (Operand::Val(I32), Operand::Val(I32)) => Some(first),
        (Operand::Val(I64), Operand::Val(I64)) => Some(first),
        (Operand::Val(I32 | I64), Operand::Bot) => Some(first),
        (Operand::Bot, Operand::Val(I32 | I64) | Operand::Bot) => Some(second),
        _ => None,
    }
}

/// A choice of these two operands.
fn select_from(state: &mut State, first: Operand, second: Operand) -> Result<bool, AllocError>
    ensures { IfOk result (λ typed. Did typed (leaf.select_from (kind_of first) (kind_of second) state.old) state.new) }
{
    let Some(given) = selected(first, second) else {
        return Ok(false);
    };
    state.push(given)?;
    Ok(true)
}

/// A choice of which the second operand was taken.
fn select_below(state: &mut State, second: Operand) -> Result<bool, AllocError>
    ensures { IfOk result (λ typed. Did typed (pop_kind state.old (λ first. leaf.select_from first (kind_of second))) state.new) }
{
    let Some(first) = state.take() else {
        return Ok(false);
    };
    select_from(state, first, second)
}

/// A choice of which the condition was taken.
fn select_by(state: &mut State) -> Result<bool, AllocError>
    ensures { IfOk result (λ typed. Did typed (pop_kind state.old leaf.select_below) state.new) }
{
    let Some(second) = state.take() else {
        return Ok(false);
    };
    select_below(state, second)
}

/// A choice without a type.
fn select(env: &Env<'_>, state: &mut State) -> Result<bool, AllocError>
    ensures { IfOk result (λ typed. Did typed (typing.type_select (context_of env.now) state.old) state.new) }
{
    if !state.pop_all(env, &[I32]) {
        return Ok(false);
    }
    select_by(state)
}

/// Whether an operand that was taken is null.
fn is_null_of(state: &mut State, found: Operand) -> Result<bool, AllocError>
    ensures { IfOk result (λ typed. Did typed (leaf.is_null_of (kind_of found) state.old) state.new) }
{
    if non_null(found).is_none() {
        return Ok(false);
    }
    state.push_val(I32)?;
    Ok(true)
}

/// Whether a reference is null.
fn is_null(state: &mut State) -> Result<bool, AllocError>
    ensures { IfOk result (λ typed. Did typed (pop_kind state.old leaf.is_null_of) state.new) }
{
    let Some(found) = state.take() else {
        return Ok(false);
    };
    is_null_of(state, found)
}

/// An operand that was taken, as a reference that is not null.
fn non_null_of(state: &mut State, found: Operand) -> Result<bool, AllocError>
    ensures { IfOk result (λ typed. Did typed (leaf.non_null_of (kind_of found) state.old) state.new) }
{
    let Some(given) = non_null(found) else {
        return Ok(false);
    };
    state.push(given)?;
    Ok(true)
}

/// A reference that is not null.
fn as_non_null(state: &mut State) -> Result<bool, AllocError>
    ensures { IfOk result (λ typed. Did typed (pop_kind state.old leaf.non_null_of) state.new) }
{
    let Some(found) = state.take() else {
        return Ok(false);
    };
    non_null_of(state, found)
}

/// A reference of one tree that becomes one of another, where it was taken.
fn convert_of(
    env: &Env<'_>,
    state: &mut State,
    from: Abs,
    to: Abs,
    found: Operand,
) -> Result<bool, AllocError>
    ensures { IfOk result (λ typed. Did typed (typing.converts (context_of env.now) from to (kind_of found) state.old) state.new) }
{
    if !suits(env, found, abs_or_null(from)) {
        return Ok(false);
    }
    let given = if nulls(found) {
        abs_or_null(to)
    } else {
        abs(to)
    };
    state.push(Operand::Val(given))?;
    Ok(true)
}

/// A reference of one tree that becomes one of another.
fn convert(env: &Env<'_>, state: &mut State, from: Abs, to: Abs) -> Result<bool, AllocError>
    ensures { IfOk result (λ typed. Did typed (pop_kind state.old (typing.converts (context_of env.now) from to)) state.new) }
{
    let Some(found) = state.take() else {
        return Ok(false);
    };
    convert_of(env, state, from, to, found)
}

/// A branch on null to a label, where the reference was taken.
fn null_branch(
    env: &Env<'_>,
    state: &mut State,
    label: &[ValType],
    found: Operand,
) -> Result<bool, AllocError>
    ensures { IfOk result (λ typed. Did typed (leaf.null_branch (context_of env.now) label.now (kind_of found) state.old) state.new) }
{
    let Some(given) = non_null(found) else {
        return Ok(false);
    };
    if !state.pop_all(env, label) {
        return Ok(false);
    }
    state.push_all(label)?;
    state.push(given)?;
    Ok(true)
}

/// A branch on null.
fn br_on_null(
    env: &Env<'_>,
    state: &mut State,
    label: Option<&[ValType]>,
) -> Result<bool, AllocError>
    ensures { IfOk result (λ typed. Did typed (typing.type_br_on_null (context_of env.now) (option_map (λ ts. ts.now) label.entry) state.old) state.new) }
{
    let Some(label) = label else {
        return Ok(false);
    };
    let Some(found) = state.take() else {
        return Ok(false);
    };
    null_branch(env, state, label, found)
}

/// A branch to a label on a reference that is not null, where the reference was taken.
fn non_null_branch(
    env: &Env<'_>,
    state: &mut State,
    ends: (&[ValType], ValType),
    found: Operand,
) -> Result<bool, AllocError>
    ensures { IfOk result (λ typed. Did typed (leaf.non_null_branch (context_of env.now) (parts_of ends.entry) (kind_of found) state.old) state.new) }
{
    let (before, last) = ends;
    let Some(given) = non_null(found) else {
        return Ok(false);
    };
    if !suits(env, given, last) || !state.pop_all(env, before) {
        return Ok(false);
    }
    state.push_all(before)?;
    Ok(true)
}

/// A branch on a reference that is not null.
fn br_on_non_null(env: &Env<'_>, state: &mut State, label: &[ValType]) -> Result<bool, AllocError>
    ensures { IfOk result (λ typed. Did typed (typing.type_br_on_non_null (context_of env.now) (Some label.now) state.old) state.new) }
{
    let Some(ends) = split_last(label) else {
        return Ok(false);
    };
    let Some(found) = state.take() else {
        return Ok(false);
    };
    non_null_branch(env, state, ends, found)
}

/// Whether a label takes so many types, and could be branched to.
fn takes(env: &Env<'_>, scope: &Scope<'_>, state: &State, count: usize, label: u32) -> bool
    ensures { result ≡ typing.takes (context_of env.now) scope.now count state.now label }
{
    match scope.label(label) {
        Some(types) => types.len() == count && state.could_pop(env, types),
        None => false,
    }
}

/// Whether each label takes so many types, and could be branched to.
fn all_take(env: &Env<'_>, scope: &Scope<'_>, state: &State, count: usize, labels: &[u32]) -> bool
    ensures { result ≡ list_all (typing.takes (context_of env.now) scope.now count state.now) labels.now }
{
    for label in labels {
        if !takes(env, scope, state, count, *label) {
            return false;
        }
    }
    true
}

/// A branch by an index in a table of labels.
fn br_table(
    env: &Env<'_>,
    scope: &Scope<'_>,
    state: &mut State,
    labels: &[u32],
    last: u32,
) -> Result<bool, AllocError>
    ensures { IfOk result (λ typed. Did typed (typing.type_br_table (context_of env.now) scope.now labels.now (slice_get scope.now.labels last) state.old) state.new) }
{
    let Some(types) = scope.label(last) else {
        return Ok(false);
    };
    if !state.pop_all(env, &[I32]) || !all_take(env, scope, state, types.len(), labels) {
        return Ok(false);
    }
    if !state.pop_all(env, types) {
        return Ok(false);
    }
    state.stop();
    Ok(true)
}

/// A read of a local, which is set.
#[inline(always)]
fn local_get(scope: &Scope<'_>, state: &mut State, local: u32) -> Result<bool, AllocError>
    ensures { IfOk result (λ typed. Did typed (typing.type_local_get scope.now local state.old) state.new) }
{
    match (scope.local(local), state.local_is_set(local)) {
        (Some(found), Some(true)) => {
            state.push_val(found)?;
            Ok(true)
        }
        _ => Ok(false),
    }
}

/// Puts an operand of a type.
#[inline(always)]
fn give(state: &mut State, given: ValType) -> Result<bool, AllocError>
    ensures { IfOk result (λ typed. Did typed (pushes (given ∷ []) state.old) state.new) }
{
    state.push_val(given)?;
    Ok(true)
}

/// Does what a row says. Whether there is one, and its operands are there.
#[inline(always)]
fn apply(env: &Env<'_>, state: &mut State, row: Option<Row<'_>>) -> Result<bool, AllocError>
    ensures { IfOk result (λ typed. Did typed (type_row env.now.types.now (option_map row_of row.entry) state.old) state.new) }
{
    match row {
        Some(row) => state.apply(env, &row),
        None => Ok(false),
    }
}

/// An integer operator.
#[inline(never)]
fn operate(env: &Env<'_>, state: &mut State, op: NumOp) -> Result<bool, AllocError>
    ensures { IfOk result (λ typed. Did typed (type_row env.now.types.now (operator_row op.row) state.old) state.new) }
{
    apply(env, state, operator(op))
}

/// A call of a function.
#[inline(never)]
fn call_func(env: &Env<'_>, state: &mut State, func: u32) -> Result<bool, AllocError>
    ensures { IfOk result (λ typed. Did typed (type_row env.now.types.now (leaf.call (context_of env.now) func) state.old) state.new) }
{
    apply(env, state, call(env, func))
}

/// A call of a reference to a function of a type.
#[inline(never)]
fn call_ref(env: &Env<'_>, state: &mut State, ty: u32) -> Result<bool, AllocError>
    ensures { IfOk result (λ typed. Did typed (type_row env.now.types.now (leaf.call_ref (context_of env.now) ty) state.old) state.new) }
{
    let Some(signature) = env.function_at(ty) else {
        return Ok(false);
    };
    state.apply(env, &calls(signature, Few::One(idx_or_null(ty))))
}

/// A branch to a label.
#[inline(never)]
fn branch(env: &Env<'_>, state: &mut State, label: Option<&[ValType]>) -> Result<bool, AllocError>
    ensures { IfOk result (λ typed. Did typed (type_row env.now.types.now (leaf.branch (option_map (λ ts. ts.now) label.entry)) state.old) state.new) }
{
    let Some(types) = label else {
        return Ok(false);
    };
    if !state.pop_all(env, types) {
        return Ok(false);
    }
    state.stop();
    Ok(true)
}

/// A branch to a label where an i32 is not 0.
#[inline(never)]
fn branch_if(
    env: &Env<'_>,
    state: &mut State,
    label: Option<&[ValType]>,
) -> Result<bool, AllocError>
    ensures { IfOk result (λ typed. Did typed (type_row env.now.types.now (leaf.branch_if (option_map (λ ts. ts.now) label.entry)) state.old) state.new) }
{
    let Some(types) = label else {
        return Ok(false);
    };
    if !state.pop_choice(env, types) {
        return Ok(false);
    }
    state.push_all(types)?;
    Ok(true)
}

/// An instruction that goes by its row.
#[inline(never)]
fn by_row(
    env: &Env<'_>,
    scope: &Scope<'_>,
    state: &mut State,
    instr: &Instr,
) -> Result<bool, AllocError>
    ensures { IfOk result (λ typed. Did typed (type_row env.now.types.now (typing.control_row (context_of env.now) scope.now instr.now) state.old) state.new) }
{
    apply(env, state, control_row(env, scope, instr))
}

/// An instruction that holds no code and sets no local. Whether it is typed. It is part of the code
/// that is called for each block that is open, so what takes room there stands in functions of its own.
#[inline(always)]
pub(crate) fn type_leaf(
    env: &Env<'_>,
    scope: &Scope<'_>,
    state: &mut State,
    instr: &Instr,
) -> Result<bool, AllocError>
    requires { sets_local instr.now ≡ false }
    ensures { IfOk result (λ typed. Did typed (typing.type_leaf (context_of env.now) scope.now instr.now state.old) state.new) }
{
    match instr {
        Instr::Drop => Ok(state.take().is_some()),
        Instr::Select => select(env, state),
        Instr::LocalGet(local) => local_get(scope, state, *local),
        Instr::I32Const(_) => give(state, I32),
        Instr::I64Const(_) => give(state, I64),
        Instr::Num(op) => operate(env, state, *op),
        Instr::Call(func) => call_func(env, state, *func),
        Instr::CallRef(ty) => call_ref(env, state, *ty),
        Instr::Br(label) => branch(env, state, scope.label(*label)),
        Instr::BrIf(label) => branch_if(env, state, scope.label(*label)),
        Instr::StructGet(ty, field) => struct_get(env, state, *ty, *field),
        Instr::StructSet(ty, field) => struct_set(env, state, *ty, *field),
        Instr::ArrayGet(ty) => array_get(env, state, *ty),
        Instr::ArraySet(ty) => array_set(env, state, *ty),
        Instr::RefCast(of) => cast(env, state, *of, Ref(*of)),
        Instr::RefTest(of) => cast(env, state, *of, I32),
        Instr::RefIsNull => is_null(state),
        Instr::RefAsNonNull => as_non_null(state),
        Instr::BrOnNull(label) => br_on_null(env, state, scope.label(*label)),
        Instr::BrOnNonNull(label) => match scope.label(*label) {
            Some(types) => br_on_non_null(env, state, types),
            None => Ok(false),
        },
        Instr::BrTable(boxed) => {
            let BranchTable { labels, last } = boxed.get();
            br_table(env, scope, state, labels.as_slice(), *last)
        }
        Instr::AnyConvertExtern => convert(env, state, Abs::Extern, Abs::Any),
        Instr::ExternConvertAny => convert(env, state, Abs::Any, Abs::Extern),
        _ => by_row(env, scope, state, instr),
    }
}
