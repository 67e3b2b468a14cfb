//! Removing the code that no run comes to.
ghost use Rattle.std.specs.Prelude.{◌≡◌, map, take};
ghost use Rattle.gu_syntax.specs.Code.{ins_of, code_of};
ghost use Rattle.gu_model.specs.Cut as dead;

use gu_model::ValidModule;
use gu_syntax::{Body, Choice, Func, Instr, Module};

/// The module without its dead tails: in each function's body, what follows the first unconditional
/// branch of each list of instructions is removed, nested lists included (core specification 3.0,
/// 3.4 Instructions, instruction sequences). Nothing else of the module changes, it stays valid, and
/// no embedder can tell it from the module that was handed in (`gu_model::laws::cut_keeps_meaning`).
/// It takes no memory.
pub fn cut_module(m: ValidModule) -> ValidModule
    ensures { result ≡ dead.cut_module m }
{
    let mut module = m.into_module();
    cut_bodies(&mut module);
    ValidModule::new(module)
}

fn cut_bodies(m: &mut Module)
    ensures { m.new ≡ dead.cut_module m.old }
{
    cut_funcs(m.funcs.as_mut_slice());
}

fn cut_funcs(funcs: &mut [Func])
    ensures { funcs.new ≡ map dead.cut_func funcs.old }
{
    'funcs: for func in funcs {
        cut_func(func);
    }
}

fn cut_func(func: &mut Func)
    ensures { func.new ≡ dead.cut_func func.old }
{
    cut_tails(&mut func.body);
}

/// Removes, in place, what follows the first unconditional branch of the body's instructions, and of
/// each list of instructions inside it (core specification 3.0, 3.4 Instructions, instruction
/// sequences). It takes no memory. Nested bodies are gone over by recursion.
#[cycle(cutting)]
pub fn cut_tails(body: &mut Body)
    ensures { code_of body.new.code ≡ dead.cut (code_of body.old.code) }
{
    let kept = cut_list(body.code.as_mut_slice());
    body.code.truncate(kept);
}

/// Cuts inside each instruction that is kept, and gives how many are.
#[cycle(cutting)]
fn cut_list(instrs: &mut [Instr]) -> usize
    ensures { code_of (take result instrs.new) ≡ dead.cut (code_of instrs.old) }
{
    let mut kept = 0;
    for instr in instrs {
        cut_instr(instr);
        kept += 1;
        if leaves(instr) {
            return kept;
        }
    }
    kept
}

#[cycle(cutting)]
#[tactic(auto, using(gu_syntax::proofs::Shapes::shapes))]
fn cut_instr(instr: &mut Instr)
    ensures { ins_of instr.new ≡ dead.cut_ins (ins_of instr.old) }
{
    match instr {
        Instr::Block(boxed) => cut_tails(&mut boxed.get_mut().body),
        Instr::Loop(boxed) => cut_tails(&mut boxed.get_mut().body),
        Instr::If(boxed) => {
            let Choice { yes, no, .. } = boxed.get_mut();
            cut_tails(yes);
            cut_tails(no);
        }
        Instr::TryTable(boxed) => cut_tails(&mut boxed.get_mut().body),
        _ => {}
    }
}

/// Whether an instruction is an unconditional branch, so that what follows it is never run.
fn leaves(instr: &Instr) -> bool
    ensures { result ≡ dead.leaves instr.now }
{
    matches!(
        instr,
        Instr::Unreachable
            | Instr::Br(_)
            | Instr::BrTable(_)
            | Instr::Return
            | Instr::ReturnCall(_)
            | Instr::ReturnCallIndirect(_, _)
            | Instr::ReturnCallRef(_)
            | Instr::Throw(_)
            | Instr::ThrowRef
    )
}

#[cfg(test)]
mod tests {
    use super::*;
    use gu_boxed::Boxed;
    use gu_syntax::{BlockType, Structured};
    use gu_types::List;
    use std::alloc::{AllocError, Global};
    use std::test::Fail;

    /// A block with a tail behind `br 0`, and a tail behind `return`.
    fn with_tails(alloc: Global) -> Result<Body, AllocError> {
        let mut inner = List::new(alloc);
        inner.push(Instr::BrIf(0))?;
        inner.push(Instr::Br(0))?;
        inner.push(Instr::Nop)?;
        let mut code = List::new(alloc);
        let ty = BlockType::Empty;
        let body = Body { code: inner };
        code.push(Instr::Block(Boxed::new(alloc, Structured { ty, body })?))?;
        code.push(Instr::Return)?;
        code.push(Instr::Unreachable)?;
        code.push(Instr::Drop)?;
        Ok(Body { code })
    }

    #[test]
    fn tails_are_cut_inside_and_outside(rt: HostRuntime) -> Result<(), Fail> {
        let mut body = with_tails(rt.alloc())?;
        cut_tails(&mut body);
        let [Instr::Block(block), Instr::Return] = body.code.as_slice() else {
            return Err("outside")?;
        };
        let inner = block.get().body.code.as_slice();
        let is_cut = matches!(inner, [Instr::BrIf(0), Instr::Br(0)]);
        assert!(rt; is_cut);
        Ok(())
    }
}
