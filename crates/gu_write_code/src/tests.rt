ghost use Rattle.std.specs.Prelude.{◌≡◌, [], ◌∷◌, IfOk};
ghost use Rattle.gu_syntax.specs.Shape.{IsShapedCode, IsShapedFunc};
ghost use Rattle.gu_syntax.specs.Code.{code_of};
ghost use Rattle.gu_types.specs.declared.types.ValType.TheVariants.{I32, I64};

use super::*;
use gu_boxed::Boxed;
use gu_syntax::{BlockType, Body, Choice, Func, Instr};
use gu_types::{List, ShortList, ValType};
use std::alloc::{AllocError, Global};
use std::test::Fail;

fn one<T: Drop>(alloc: Global, item: T) -> Result<List<T>, AllocError>
    ensures { IfOk result (λ items. items ≡ item ∷ []) }
{
    let mut items = List::new(alloc);
    items.push(item)?;
    Ok(items)
}

fn two<T: Drop>(alloc: Global, first: T, second: T) -> Result<List<T>, AllocError>
    ensures { IfOk result (λ items. items ≡ first ∷ second ∷ []) }
{
    let mut items = List::new(alloc);
    items.push(first)?;
    items.push(second)?;
    Ok(items)
}

/// Two runs of locals.
fn runs(alloc: Global) -> Result<ShortList<(u32, ValType)>, AllocError>
    ensures { IfOk result (λ runs. runs ≡ (2, I32) ∷ (1, I64) ∷ []) }
{
    let mut runs = ShortList::one(alloc, (2, ValType::I32));
    runs.push((1, ValType::I64))?;
    Ok(runs)
}

fn body(code: List<Instr>) -> Body
    ensures { result.code ≡ code }
{
    Body { code }
}

/// A function with two runs of locals and an `if` with this second branch.
fn choice(alloc: Global, no: List<Instr>) -> Result<Func, AllocError>
    requires { IsShapedCode (code_of no) }
    ensures { IfOk result IsShapedFunc }
{
    let locals = runs(alloc)?;
    let yes = body(one(alloc, Instr::Nop)?);
    let no = body(no);
    let ty = BlockType::Empty;
    let choice = Boxed::new(alloc, Choice { ty, yes, no })?;
    let code = two(alloc, Instr::LocalGet(0), Instr::If(choice))?;
    let whole = body(code);
    Ok(Func {
        ty: 0,
        locals,
        body: whole,
    })
}

fn written(alloc: Global, func: &Func) -> Result<Vec<u8>, WriteErr>
    requires { IsShapedFunc func.now }
{
    let mut out = Vec::new(alloc);
    write_entry(alloc, &mut out, func)?;
    Ok(out)
}

#[test]
fn an_empty_else_is_left_out(rt: HostRuntime) -> Result<(), Fail> {
    let func = choice(rt.alloc(), List::new(rt.alloc()))?;
    let expected = [
        0x0C, 0x02, 0x02, 0x7F, 0x01, 0x7E, 0x20, 0x00, 0x04, 0x40, 0x01, 0x0B, 0x0B,
    ];
    let out = written(rt.alloc(), &func)?;
    assert_eq!(rt; out.as_slice(), expected.as_slice());
    Ok(())
}

#[test]
fn an_else_is_written(rt: HostRuntime) -> Result<(), Fail> {
    let func = choice(rt.alloc(), one(rt.alloc(), Instr::Nop)?)?;
    let expected = [
        0x0E, 0x02, 0x02, 0x7F, 0x01, 0x7E, 0x20, 0x00, 0x04, 0x40, 0x01, 0x05, 0x01, 0x0B, 0x0B,
    ];
    let out = written(rt.alloc(), &func)?;
    assert_eq!(rt; out.as_slice(), expected.as_slice());
    Ok(())
}
