//! Whether code is typed, block by block (core specification 3.0, appendix, Validation Algorithm).
ghost use Rattle.std.specs.Prelude.{◌≡◌, ◌∷◌, [], true, false, reverse, IfOk, option_map, Some};
ghost use Rattle.std.specs.List.{list_all};
ghost use Rattle.gu_syntax.specs.Code.{code_of, ins_of};
ghost use Rattle.gu_model.specs.TypingContext as around;
ghost use Rattle.gu_model.specs.Typing as typing;
ghost use Rattle.gu_valid_code.specs.Body.{unset, leaves, nests, first_of, second_of};
ghost use Rattle.gu_valid_code.specs.Env.{context_of, function_of};
ghost use Rattle.gu_valid_code.specs.Leaf.{sets_local};
ghost use Rattle.gu_valid_code.specs.State.{Did};

use crate::control::matches;
use crate::env::{Env, Signature};
use crate::leaf::type_leaf;
use crate::references::abs;
use crate::scope::Scope;
use crate::state::State;
use gu_syntax::{BlockType, Catch, Choice, Guarded, Instr, Structured};
use gu_types::{Abs, ValType};
use std::alloc::{AllocError, Global};
use std::slice::from_ref;

/// The function type of a block type, or `None` where it is not valid.
#[inline(always)]
fn signature_of<'a>(env: &Env<'a>, ty: &'a BlockType) -> Option<Signature<'a>>
    ensures { option_map function_of result ≡ around.type_of_block env.now.types.now ty.now }
{
    match ty {
        BlockType::Empty => Some(Signature {
            params: &[],
            results: &[],
        }),
        _ => any_signature_of(env, ty),
    }
}

/// The same, whatever type it is.
#[inline(never)]
fn any_signature_of<'a>(env: &Env<'a>, ty: &'a BlockType) -> Option<Signature<'a>>
    ensures { option_map function_of result ≡ around.type_of_block env.now.types.now ty.now }
{
    match ty {
        BlockType::Empty => Some(Signature {
            params: &[],
            results: &[],
        }),
        BlockType::Val(found) if env.is_valid_val(*found) => Some(Signature {
            params: &[],
            results: from_ref(found),
        }),
        BlockType::Val(_) => None,
        BlockType::Idx(index) => env.function_at(*index),
    }
}

/// Whether what a catch carries suits the label that it branches to.
fn reaches(
    alloc: Global,
    env: &Env<'_>,
    scope: &Scope<'_>,
    catch: &Catch,
) -> Result<bool, AllocError>
    ensures { IfOk result (λ typed. typed ≡ typing.type_catch (context_of env.now) scope.now catch.now) }
{
    let mut carried = Vec::new(alloc);
    if let Catch::One(tag, _) | Catch::OneRef(tag, _) = catch {
        let Some(signature) = env.tag(*tag) else {
            return Ok(false);
        };
        carried.extend_from_slice(signature.params)?;
    }
    if let Catch::OneRef(..) | Catch::AllRef(_) = catch {
        carried.push(abs(Abs::Exn))?;
    }
    let (Catch::One(_, label)
    | Catch::OneRef(_, label)
    | Catch::All(label)
    | Catch::AllRef(label)) = catch;
    match scope.label(*label) {
        Some(types) => Ok(matches(env, &carried, types)),
        None => Ok(false),
    }
}

/// Whether what each catch carries suits the label that it branches to.
#[inline(never)]
fn all_reach(
    alloc: Global,
    env: &Env<'_>,
    scope: &Scope<'_>,
    catches: &[Catch],
) -> Result<bool, AllocError>
    ensures { IfOk result (λ typed. typed ≡ list_all (typing.type_catch (context_of env.now) scope.now) catches.now) }
{
    for catch in catches {
        if !reaches(alloc, env, scope, catch)? {
            return Ok(false);
        }
    }
    Ok(true)
}

/// A write of a local, which is set from then on.
#[inline(always)]
fn local_set(
    env: &Env<'_>,
    scope: &Scope<'_>,
    state: &mut State,
    here: &mut Vec<u32>,
    local: u32,
) -> Result<bool, AllocError>
    ensures typed { IfOk result (λ typed. Did typed (typing.type_local_set (context_of env.now) scope.now local state.old) state.new) }
    ensures back { IfOk result (λ typed. typed ≡ true → unset (reverse here.new.items) state.new.set ≡ unset (reverse here.old.items) state.old.set) }
{
    let Some(found) = scope.local(local) else {
        return Ok(false);
    };
    if !state.pop_one(env, found) {
        return Ok(false);
    }
    state.set_local(here, local)?;
    Ok(true)
}

/// A write of a local that keeps the operand.
#[inline(always)]
fn local_tee(
    env: &Env<'_>,
    scope: &Scope<'_>,
    state: &mut State,
    here: &mut Vec<u32>,
    local: u32,
) -> Result<bool, AllocError>
    ensures typed { IfOk result (λ typed. Did typed (typing.type_local_tee (context_of env.now) scope.now local state.old) state.new) }
    ensures back { IfOk result (λ typed. typed ≡ true → unset (reverse here.new.items) state.new.set ≡ unset (reverse here.old.items) state.old.set) }
{
    let Some(found) = scope.local(local) else {
        return Ok(false);
    };
    if !state.pop_one(env, found) {
        return Ok(false);
    }
    state.set_local(here, local)?;
    state.push_val(found)?;
    Ok(true)
}

/// The code of a block, between its parameters and its results. Behind it the operands are what
/// stood round it.
#[cycle(walk)]
#[inline(always)]
fn check_inner<'a>(
    alloc: Global,
    env: &Env<'a>,
    scope: &mut Scope<'a>,
    state: &mut State,
    label: &'a [ValType],
    signature: Signature<'a>,
    code: &'a [Instr],
) -> Result<bool, AllocError>
    ensures typed { IfOk result (λ typed. typed ≡ typing.is_typed (context_of env.now) (typing.inside scope.old label.now) (code_of code.now) (typing.opened (function_of signature.entry).params state.old) (function_of signature.entry).results) }
    ensures state { IfOk result (λ typed. typed ≡ true → state.new ≡ state.old) }
    ensures scope { IfOk result (λ _. scope.new ≡ scope.old) }
{
    let outer = state.open(alloc, signature.params)?;
    scope.enter(label)?;
    let typed = check_block(alloc, env, scope, state, code, signature.results)?;
    scope.leave();
    state.close(outer);
    Ok(typed)
}

/// The code of a block, and its results behind it.
#[cycle(walk)]
#[inline(always)]
fn check_last<'a>(
    alloc: Global,
    env: &Env<'a>,
    scope: &mut Scope<'a>,
    state: &mut State,
    label: &'a [ValType],
    signature: Signature<'a>,
    code: &'a [Instr],
) -> Result<bool, AllocError>
    ensures typed { IfOk result (λ typed. Did typed (leaves (context_of env.now) scope.old label.now (function_of signature.entry) (code_of code.now) state.old) state.new) }
    ensures scope { IfOk result (λ _. scope.new ≡ scope.old) }
{
    if !check_inner(alloc, env, scope, state, label, signature, code)? {
        return Ok(false);
    }
    state.push_all(signature.results)?;
    Ok(true)
}

/// A block: it takes its parameters and puts its results. The label of a loop takes its parameters.
#[cycle(walk)]
#[inline(never)]
fn check_nested<'a>(
    alloc: Global,
    env: &Env<'a>,
    scope: &mut Scope<'a>,
    state: &mut State,
    ty: &'a BlockType,
    is_loop: bool,
    code: &'a [Instr],
) -> Result<bool, AllocError>
    ensures typed { IfOk result (λ typed. Did typed (nests (context_of env.now) scope.old ty.now is_loop (code_of code.now) state.old) state.new) }
    ensures scope { IfOk result (λ _. scope.new ≡ scope.old) }
{
    let Some(signature) = signature_of(env, ty) else {
        return Ok(false);
    };
    if !state.pop_all(env, signature.params) {
        return Ok(false);
    }
    let label = signature.label(is_loop);
    check_last(alloc, env, scope, state, label, signature, code)
}

/// The first branch of a choice, which takes an i32 besides its parameters.
#[cycle(walk)]
#[inline(never)]
fn check_first<'a>(
    alloc: Global,
    env: &Env<'a>,
    scope: &mut Scope<'a>,
    state: &mut State,
    ty: &'a BlockType,
    code: &'a [Instr],
) -> Result<bool, AllocError>
    ensures typed { IfOk result (λ typed. Did typed (first_of (context_of env.now) scope.old ty.now (code_of code.now) state.old) state.new) }
    ensures scope { IfOk result (λ _. scope.new ≡ scope.old) }
{
    let Some(signature) = signature_of(env, ty) else {
        return Ok(false);
    };
    if !state.pop_choice(env, signature.params) {
        return Ok(false);
    }
    check_inner(alloc, env, scope, state, signature.results, signature, code)
}

/// The second branch of a choice, and the results behind it.
#[cycle(walk)]
#[inline(never)]
fn check_second<'a>(
    alloc: Global,
    env: &Env<'a>,
    scope: &mut Scope<'a>,
    state: &mut State,
    ty: &'a BlockType,
    code: &'a [Instr],
) -> Result<bool, AllocError>
    ensures typed { IfOk result (λ typed. Did typed (second_of (context_of env.now) scope.old ty.now (code_of code.now) state.old) state.new) }
    ensures scope { IfOk result (λ _. scope.new ≡ scope.old) }
{
    let Some(signature) = signature_of(env, ty) else {
        return Ok(false);
    };
    check_last(alloc, env, scope, state, signature.results, signature, code)
}

/// An instruction that sets no local.
#[cycle(walk)]
#[inline(always)]
fn check_other<'a>(
    alloc: Global,
    env: &Env<'a>,
    scope: &mut Scope<'a>,
    state: &mut State,
    instr: &'a Instr,
) -> Result<bool, AllocError>
    requires { sets_local instr.now ≡ false }
    ensures typed { IfOk result (λ typed. Did typed (typing.type_ins (context_of env.now) scope.old (ins_of instr.now) state.old) state.new) }
    ensures scope { IfOk result (λ _. scope.new ≡ scope.old) }
{
    match instr {
        Instr::Block(boxed) => {
            let Structured { ty, body } = boxed.get();
            check_nested(alloc, env, scope, state, ty, false, body.code.as_slice())
        }
        Instr::Loop(boxed) => {
            let Structured { ty, body } = boxed.get();
            check_nested(alloc, env, scope, state, ty, true, body.code.as_slice())
        }
        Instr::If(boxed) => {
            let Choice { ty, yes, no } = boxed.get();
            if !check_first(alloc, env, scope, state, ty, yes.code.as_slice())? {
                return Ok(false);
            }
            check_second(alloc, env, scope, state, ty, no.code.as_slice())
        }
        Instr::TryTable(boxed) => {
            let Guarded { ty, catches, body } = boxed.get();
            if !all_reach(alloc, env, scope, catches.as_slice())? {
                return Ok(false);
            }
            check_nested(alloc, env, scope, state, ty, false, body.code.as_slice())
        }
        _ => type_leaf(env, scope, state, instr),
    }
}

/// An instruction. The locals that it sets are noted.
#[cycle(walk)]
#[inline(always)]
fn check_instr<'a>(
    alloc: Global,
    env: &Env<'a>,
    scope: &mut Scope<'a>,
    state: &mut State,
    here: &mut Vec<u32>,
    instr: &'a Instr,
) -> Result<bool, AllocError>
    ensures typed { IfOk result (λ typed. Did typed (typing.type_ins (context_of env.now) scope.old (ins_of instr.now) state.old) state.new) }
    ensures back { IfOk result (λ typed. typed ≡ true → unset (reverse here.new.items) state.new.set ≡ unset (reverse here.old.items) state.old.set) }
    ensures scope { IfOk result (λ _. scope.new ≡ scope.old) }
{
    match instr {
        Instr::LocalSet(local) => local_set(env, scope, state, here, *local),
        Instr::LocalTee(local) => local_tee(env, scope, state, here, *local),
        _ => check_other(alloc, env, scope, state, instr),
    }
}

/// Code that ends with operands of these types and no more. The locals that it sets are forgotten
/// at its end.
#[cycle(walk)]
pub(crate) fn check_block<'a>(
    alloc: Global,
    env: &Env<'a>,
    scope: &mut Scope<'a>,
    state: &mut State,
    code: &'a [Instr],
    results: &[ValType],
) -> Result<bool, AllocError>
    ensures typed { IfOk result (λ typed. typed ≡ typing.is_typed (context_of env.now) scope.old (code_of code.now) state.old results.now) }
    ensures set { IfOk result (λ typed. typed ≡ true → state.new.set ≡ state.old.set) }
    ensures scope { IfOk result (λ _. scope.new ≡ scope.old) }
{
    let mut here = Vec::new(alloc);
    for instr in code {
        if !check_instr(alloc, env, scope, state, &mut here, instr)? {
            return Ok(false);
        }
    }
    let typed = state.ends_with(env, results);
    state.forget(here);
    Ok(typed)
}
