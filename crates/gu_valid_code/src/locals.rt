//! The locals of a function, run by run (core specification 3.0, 3.5 Modules, functions).
ghost use Rattle.std.specs.Prelude.{◌≡◌, ◌++◌, true, map, replicate, OnOk};
ghost use Rattle.std.specs.List.{list_all};
ghost use Rattle.gu_model.specs.Typing as typing;
ghost use Rattle.gu_model.specs.TypingContext as around;
ghost use Rattle.gu_valid_code.specs.Env.{context_of};

use crate::env::Env;
use crate::references::has_default;
use gu_types::ValType;
use std::alloc::AllocError;

/// Whether the types of runs of locals are valid.
pub(crate) fn are_valid(env: &Env<'_>, runs: &[(u32, ValType)]) -> bool
    ensures { result ≡ list_all (typing.valid_run (context_of env.now)) runs.now }
{
    for run in runs {
        if !env.is_valid_val(run.1) {
            return false;
        }
    }
    true
}

/// Puts a type so many times. `AllocError` only where memory is refused.
fn push_types(types: &mut Vec<ValType>, ty: ValType, count: u32) -> Result<(), AllocError>
    ensures { OnOk result (types.new.items ≡ types.old.items ++ replicate count ty) }
{
    let mut left = count;
    'copies: while left > 0 {
        types.push(ty)?;
        left -= 1;
    }
    Ok(())
}

/// Puts a flag so many times. `AllocError` only where memory is refused.
fn push_flags(flags: &mut Vec<bool>, flag: bool, count: u32) -> Result<(), AllocError>
    ensures { OnOk result (flags.new.items ≡ flags.old.items ++ replicate count flag) }
{
    let mut left = count;
    'copies: while left > 0 {
        flags.push(flag)?;
        left -= 1;
    }
    Ok(())
}

/// Puts the types of declared locals in order. `AllocError` only where memory is refused.
pub(crate) fn declare(types: &mut Vec<ValType>, runs: &[(u32, ValType)]) -> Result<(), AllocError>
    ensures { OnOk result (types.new.items ≡ types.old.items ++ typing.spread runs.now) }
{
    for run in runs {
        push_types(types, run.1, run.0)?;
    }
    Ok(())
}

/// Puts for each parameter that it is set. `AllocError` only where memory is refused.
pub(crate) fn set_params(set: &mut Vec<bool>, params: &[ValType]) -> Result<(), AllocError>
    ensures { OnOk result (set.new.items ≡ set.old.items ++ map (λ p. true) params.now) }
{
    for _param in params {
        set.push(true)?;
    }
    Ok(())
}

/// Puts for each declared local whether it is set at first: its type has a default. `AllocError`
/// only where memory is refused.
pub(crate) fn set_defaults(set: &mut Vec<bool>, runs: &[(u32, ValType)]) -> Result<(), AllocError>
    ensures { OnOk result (set.new.items ≡ set.old.items ++ map around.has_default (typing.spread runs.now)) }
{
    for run in runs {
        push_flags(set, has_default(run.1), run.0)?;
    }
    Ok(())
}
