//! Whether the body of a function is typed (core specification 3.0, 3.5 Modules, functions).
ghost use Rattle.std.specs.Prelude.{◌≡◌, IfOk};
ghost use Rattle.gu_model.specs.Typing as typing;
ghost use Rattle.gu_valid_code.specs.Env.{context_of};

use crate::env::Env;
use crate::locals::are_valid;
use crate::scope::Scope;
use crate::state::State;
use crate::walk::check_block;
use gu_syntax::Func;
use std::alloc::{AllocError, Global};

/// The error of a call that was refused memory.
pub type NoMemory = AllocError;

/// What the check of a body works on. The next body is checked in the same memory.
#[derive(Drop)]
pub struct Workspace<'a> {
    scope: Scope<'a>,
    state: State,
}

impl<'a> Workspace<'a> {
    /// A workspace without memory yet.
    pub fn new(alloc: Global) -> Workspace<'a> {
        Workspace {
            scope: Scope::new(alloc),
            state: State::new(alloc),
        }
    }
}

/// Whether a function's type index names a function type, the types of its locals are valid, and its
/// body is typed (core specification 3.0, 3.5 Modules, functions, by the algorithm of the appendix,
/// Validation Algorithm).
///
/// `NoMemory` only where memory is refused. The operands and the locals take memory in proportion to
/// their greatest number, and no list is copied at a block or a branch; the code is gone over by
/// recursion on the blocks that are open in one another.
pub fn check_code<'a>(alloc: Global, env: &Env<'a>, f: &'a Func) -> Result<bool, NoMemory>
    ensures typed { IfOk result (λ typed. typed ≡ typing.is_typed_func (context_of env.now) f.now) }
{
    check_code_in(alloc, env, &mut Workspace::new(alloc), f)
}

/// The same, in the memory of a workspace, whatever was checked there before.
pub fn check_code_in<'a>(
    alloc: Global,
    env: &Env<'a>,
    workspace: &mut Workspace<'a>,
    f: &'a Func,
) -> Result<bool, NoMemory>
    ensures typed { IfOk result (λ typed. typed ≡ typing.is_typed_func (context_of env.now) f.now) }
{
    let Some(signature) = env.function_at(f.ty) else {
        return Ok(false);
    };
    let runs = f.locals.as_slice();
    if !are_valid(env, runs) {
        return Ok(false);
    }
    let Workspace { scope, state } = workspace;
    scope.begin(signature, runs)?;
    state.begin(signature.params, runs)?;
    let code = f.body.code.as_slice();
    check_block(alloc, env, scope, state, code, signature.results)
}
