//! The rows that rest on labels and functions (core specification 3.0, 3.4 Instructions, control
//! instructions).
ghost use Rattle.std.specs.Prelude.{◌≡◌, [], ◌∷◌, Some, option_map};
ghost use Rattle.gu_model.specs.TypingContext as around;
ghost use Rattle.gu_model.specs.TypingRows.{leaves};
ghost use Rattle.gu_model.specs.Typing as typing;
ghost use Rattle.gu_valid_code.specs.Env.{context_of, function_of};
ghost use Rattle.gu_valid_code.specs.Leaf as leaf;
ghost use Rattle.gu_valid_code.specs.Rows.{few_of, below_of, behind, row_of};

use crate::env::{Env, Signature};
use crate::numbers::plain_row;
use crate::references::{abs_or_null, idx_or_null};
use crate::row::{Below, Few, Row, Then, plain};
use crate::scope::{Scope, split_last};
use gu_syntax::{CastBranch, Instr};
use gu_types::ValType::{I32, Ref};
use gu_types::{Abs, RefType, ValType};

/// Takes operands, and what follows is not reached.
fn leaving<'a>(below: Below<'a>, top: Few) -> Row<'a>
    ensures { row_of result ≡ leaves (behind (below_of below.entry) top) }
{
    Row {
        below,
        top,
        then: Then::Leaves,
    }
}

/// A reference type less another: null is no longer among its values where it is among the other's.
fn minus(a: RefType, b: RefType) -> RefType
    ensures { result ≡ around.minus a b }
{
    RefType {
        null: a.null && !b.null,
        heap: a.heap,
    }
}

/// Whether lists of types are equally long, and each type of the first is below its partner.
pub(crate) fn matches(env: &Env<'_>, below: &[ValType], above: &[ValType]) -> bool
    ensures { result ≡ around.matches env.now.types.now below.now above.now }
{
    let mut left = below;
    let mut wants = above;
    'pairs: loop {
        match (left.split_first(), wants.split_first()) {
            (None, None) => return true,
            (Some((found, others)), Some((want, more))) => {
                if !env.is_sub_val(*found, *want) {
                    return false;
                }
                left = others;
                wants = more;
            }
            _ => return false,
        }
    }
}

/// A call: it takes the parameters, and what names the callee, and puts the results.
#[inline(always)]
pub(crate) fn calls<'a>(signature: Signature<'a>, callee: Few) -> Row<'a>
    ensures { Some (row_of result) ≡ typing.calls (few_of callee) (function_of signature.entry) }
{
    Row {
        below: Below::Types(signature.params),
        top: callee,
        then: Then::GivesAll(signature.results),
    }
}

/// A call of a function.
#[inline(always)]
pub(crate) fn call<'a>(env: &Env<'a>, func: u32) -> Option<Row<'a>>
    ensures { option_map row_of result ≡ leaf.call (context_of env.now) func }
{
    Some(calls(env.func(func)?, Few::Zero))
}

/// A call in place of returning: the results are below those of the function.
fn tail_calls<'a>(
    env: &Env<'a>,
    scope: &Scope<'a>,
    signature: Signature<'a>,
    callee: Few,
) -> Option<Row<'a>>
    ensures { option_map row_of result ≡ typing.tail_calls (context_of env.now) scope.now (few_of callee) (function_of signature.entry) }
{
    if matches(env, signature.results, scope.results()) {
        Some(leaving(Below::Types(signature.params), callee))
    } else {
        None
    }
}

/// The type of a function that an entry of a table is called as.
fn indirect<'a>(env: &Env<'a>, ty: u32, table: u32) -> Option<Signature<'a>>
    ensures { option_map function_of result ≡ typing.indirect (context_of env.now) ty table }
{
    let entries = env.table(table)?;
    if env.is_sub_val(Ref(entries), abs_or_null(Abs::AnyFunc)) {
        env.function_at(ty)
    } else {
        None
    }
}

/// A cast that branches: of what is cast, `taken` goes to the label and `left` does not.
fn casts<'a>(
    env: &Env<'a>,
    label: Option<&'a [ValType]>,
    types: (RefType, RefType),
    taken: RefType,
    left: RefType,
) -> Option<Row<'a>>
    ensures { option_map row_of result ≡ typing.casts_to (context_of env.now) (option_map (λ ts. ts.now) label.entry) types.0 types.1 taken left }
{
    let (from, to) = types;
    if !env.is_valid_heap(from.heap) || !env.is_valid_heap(to.heap) || !env.is_sub_ref(to, from) {
        return None;
    }
    let (before, last) = split_last(label?)?;
    if !env.is_sub_val(Ref(taken), last) {
        return None;
    }
    Some(Row {
        below: Below::Types(before),
        top: Few::One(Ref(from)),
        then: Then::GivesMore(before, Ref(left)),
    })
}

/// A choice of two values of one type.
fn select_of<'a>(env: &Env<'a>, types: &[ValType]) -> Option<Row<'a>>
    ensures { option_map row_of result ≡ typing.select_row (context_of env.now) types.now }
{
    match types {
        [ty] if env.is_valid_val(*ty) => Some(plain(Few::Three(*ty, *ty, I32), Some(*ty))),
        _ => None,
    }
}

/// The row of an instruction that rests on labels or functions, or of one that rests on none.
pub(crate) fn control_row<'a>(env: &Env<'a>, scope: &Scope<'a>, instr: &Instr) -> Option<Row<'a>>
    ensures { option_map row_of result ≡ typing.control_row (context_of env.now) scope.now instr.now }
{
    match instr {
        Instr::Nop => Some(plain(Few::Zero, None)),
        Instr::Unreachable => Some(leaving(Below::Nothing, Few::Zero)),
        Instr::Throw(tag) => Some(leaving(Below::Types(env.tag(*tag)?.params), Few::Zero)),
        Instr::ThrowRef => { Some(leaving(Below::Nothing, Few::One(abs_or_null(Abs::Exn)))) }
        Instr::Br(label) => Some(leaving(Below::Types(scope.label(*label)?), Few::Zero)),
        Instr::BrIf(label) => {
            let types = scope.label(*label)?;
            Some(Row {
                below: Below::Types(types),
                top: Few::One(I32),
                then: Then::GivesAll(types),
            })
        }
        Instr::BrOnCast(boxed) => {
            let CastBranch { label, of, to } = *boxed.get();
            casts(env, scope.label(label), (of, to), to, minus(of, to))
        }
        Instr::BrOnCastFail(boxed) => {
            let CastBranch { label, of, to } = *boxed.get();
            casts(env, scope.label(label), (of, to), minus(of, to), to)
        }
        Instr::Return => Some(leaving(Below::Types(scope.results()), Few::Zero)),
        Instr::SelectOf(types) => select_of(env, types.get().as_slice()),
        _ => call_row(env, scope, instr),
    }
}

/// The row of a call, or of an instruction that rests on no labels and no functions.
fn call_row<'a>(env: &Env<'a>, scope: &Scope<'a>, instr: &Instr) -> Option<Row<'a>>
    ensures { option_map row_of result ≡ typing.call_row (context_of env.now) scope.now instr.now }
{
    match instr {
        Instr::Call(func) => call(env, *func),
        Instr::CallIndirect(ty, table) => {
            Some(calls(indirect(env, *ty, *table)?, Few::One(I32)))
        }
        Instr::CallRef(ty) => { Some(calls(env.function_at(*ty)?, Few::One(idx_or_null(*ty)))) }
        Instr::ReturnCall(func) => tail_calls(env, scope, env.func(*func)?, Few::Zero),
        Instr::ReturnCallIndirect(ty, table) => {
            tail_calls(env, scope, indirect(env, *ty, *table)?, Few::One(I32))
        }
        Instr::ReturnCallRef(ty) => {
            let callee = Few::One(idx_or_null(*ty));
            tail_calls(env, scope, env.function_at(*ty)?, callee)
        }
        _ => plain_row(env, instr),
    }
}
