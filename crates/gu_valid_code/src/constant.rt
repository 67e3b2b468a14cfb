//! Whether constant expressions are typed (core specification 3.0, 3.4 Instructions, constant
//! expressions).
ghost use Rattle.std.specs.Prelude.{◌≡◌, IfOk};
ghost use Rattle.gu_syntax.specs.Code.{code_of, ins_of};
ghost use Rattle.gu_model.specs.ValidConstants.{is_constant_ins, is_constant_of, is_immutable, is_constant_operator, with_globals};
ghost use Rattle.std.specs.Prelude.{slice_get, take};
ghost use Rattle.gu_valid_code.specs.Env.{context_of};

use crate::env::Env;
use crate::leaf::type_leaf;
use crate::scope::Scope;
use crate::state::State;
use gu_syntax::{Body, Instr};
use gu_types::ValType;
use std::alloc::{AllocError, Global};
use std::slice::from_ref;

/// Whether an operator is an addition, a subtraction or a multiplication.
fn is_constant_row(row: u8) -> bool
    ensures { result ≡ is_constant_operator row }
{
    row == 25 || row == 26 || row == 27 || row == 43 || row == 44 || row == 45
}

/// Whether a global is one of the first `globals`, and may not be written.
fn is_immutable_global(env: &Env<'_>, globals: u32, index: u32) -> bool
    ensures { result ≡ is_immutable (slice_get (take globals env.now.globals) index) }
{
    match env.global(index) {
        Some((_, mutable)) => index < globals && !mutable,
        None => false,
    }
}

#[tactic(auto, using(gu_syntax::proofs::Shapes::shapes))]
/// Whether an instruction may stand in a constant expression that sees the first `globals` globals.
fn is_constant(env: &Env<'_>, globals: u32, instr: &Instr) -> bool
    ensures { result ≡ is_constant_ins (with_globals globals (context_of env.now)) (ins_of instr.now) }
{
    match instr {
        Instr::I32Const(_)
        | Instr::I64Const(_)
        | Instr::RefNull(_)
        | Instr::RefFunc(_)
        | Instr::RefI31
        | Instr::StructNew(_)
        | Instr::StructNewDefault(_)
        | Instr::ArrayNew(_)
        | Instr::ArrayNewDefault(_)
        | Instr::ArrayNewFixed(..)
        | Instr::AnyConvertExtern
        | Instr::ExternConvertAny => true,
        Instr::Num(op) => is_constant_row(op.row),
        Instr::GlobalGet(index) => is_immutable_global(env, globals, *index),
        _ => false,
    }
}

/// Whether an expression is constant and gives a value of a type, where it may name the first
/// `globals` globals and no others (core specification 3.0, 3.4 Instructions, constant
/// expressions). `AllocError` only where memory is refused.
pub fn check_constant(
    alloc: Global,
    env: &Env<'_>,
    globals: u32,
    ty: ValType,
    body: &Body,
) -> Result<bool, AllocError>
    ensures { IfOk result (λ typed. typed ≡ is_constant_of (with_globals globals (context_of env.now)) ty (code_of body.now.code)) }
{
    let scope = Scope::new(alloc);
    let mut state = State::new(alloc);
    for instr in body.code.as_slice() {
        if !is_constant(env, globals, instr) || !type_leaf(env, &scope, &mut state, instr)? {
            return Ok(false);
        }
    }
    Ok(state.ends_with(env, from_ref(&ty)))
}
