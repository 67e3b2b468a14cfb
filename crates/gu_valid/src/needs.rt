//! Whether a module's code needs the number of data segments (core specification 3.0, 5.5 Modules,
//! data count section).
ghost use Rattle.std.specs.Prelude.{◌≡◌, map};
ghost use Rattle.std.specs.List.{list_any};
ghost use Rattle.gu_syntax.specs.Code.{code_of, ins_of};
ghost use Rattle.gu_model.specs.ValidContext.{body_of, needs_count_body, needs_count_code, needs_count_ins};

use gu_syntax::{Body, Choice, Func, Instr};

#[cycle(needing)]
#[tactic(auto, using(gu_syntax::proofs::Shapes::shapes))]
/// Whether an instruction needs it, or one that it holds.
#[inline(always)]
fn instr_needs(instr: &Instr) -> bool
    ensures { result ≡ needs_count_ins (ins_of instr.now) }
{
    match instr {
        Instr::MemoryInit(..) => true,
        Instr::DataDrop(_) => true,
        Instr::ArrayNewData(..) => true,
        Instr::ArrayInitData(..) => true,
        Instr::Block(boxed) => code_needs(boxed.get().body.code.as_slice()),
        Instr::Loop(boxed) => code_needs(boxed.get().body.code.as_slice()),
        Instr::TryTable(boxed) => code_needs(boxed.get().body.code.as_slice()),
        Instr::If(boxed) => {
            let Choice { yes, no, .. } = boxed.get();
            code_needs(yes.code.as_slice()) || code_needs(no.code.as_slice())
        }
        _ => false,
    }
}

#[cycle(needing)]
/// Whether code needs it, code that is never reached included.
fn code_needs(code: &[Instr]) -> bool
    ensures { result ≡ needs_count_code (code_of code.now) }
{
    for instr in code {
        if instr_needs(instr) {
            return true;
        }
    }
    false
}

/// Whether one of the expressions needs it.
pub(crate) fn any_needs(bodies: &[&Body]) -> bool
    ensures { result ≡ list_any needs_count_body (map (λ b. b.now) bodies.now) }
{
    for body in bodies {
        if code_needs(body.code.as_slice()) {
            return true;
        }
    }
    false
}

/// Whether the body of a function needs it.
pub(crate) fn func_needs(func: &Func) -> bool
    ensures { result ≡ needs_count_body (body_of func.now) }
{
    code_needs(func.body.code.as_slice())
}

/// Whether the body of one of the functions needs it.
pub(crate) fn any_func_needs(funcs: &[Func]) -> bool
    ensures { result ≡ list_any needs_count_body (map body_of funcs.now) }
{
    for func in funcs {
        if func_needs(func) {
            return true;
        }
    }
    false
}
