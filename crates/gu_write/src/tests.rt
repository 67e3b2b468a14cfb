ghost use Rattle.std.specs.Prelude.{◌≡◌, [], ◌∷◌, IfOk};
ghost use Rattle.gu_syntax.specs.Shape.{IsShaped, IsShapedFunc, IsShapedGroup, IsShapedExport};

use super::*;
use gu_syntax::{Body, Export, Func, Instr, Kind, Module, Seg, SegMode};
use gu_types::{Comp, List, RecGroup, ShortList, SubType, TypeList, ValType};
use std::alloc::{AllocError, Global};
use std::test::Fail;

fn one<T: Drop>(alloc: Global, item: T) -> Result<List<T>, AllocError>
    ensures { IfOk result (λ items. items ≡ item ∷ []) }
{
    let mut items = List::new(alloc);
    items.push(item)?;
    Ok(items)
}

fn body(code: List<Instr>) -> Body
    ensures { result.code ≡ code }
{
    Body { code }
}

/// A module of nothing.
fn empty(alloc: Global) -> Module
    ensures { IsShaped result }
{
    Module {
        types: TypeList {
            groups: List::new(alloc),
        },
        imports: List::new(alloc),
        funcs: List::new(alloc),
        tables: List::new(alloc),
        memories: List::new(alloc),
        tags: List::new(alloc),
        globals: List::new(alloc),
        exports: List::new(alloc),
        start: None,
        elems: List::new(alloc),
        has_count: false,
        segs: List::new(alloc),
    }
}

/// The type of functions of no parameters and one result.
fn group(alloc: Global) -> Result<RecGroup, AllocError>
    ensures { IfOk result IsShapedGroup }
{
    let params = List::new(alloc);
    let results = one(alloc, ValType::I32)?;
    let supers = ShortList::new(alloc);
    let ty = SubType {
        is_final: true,
        supers,
        comp: Comp::Func { params, results },
    };
    let types = ShortList::one(alloc, ty);
    Ok(RecGroup { types })
}

/// A function that gives 0.
fn zero(alloc: Global) -> Result<Func, AllocError>
    ensures { IfOk result IsShapedFunc }
{
    let locals = ShortList::new(alloc);
    let code = one(alloc, Instr::I32Const(0))?;
    let body = body(code);
    Ok(Func {
        ty: 0,
        locals,
        body,
    })
}

/// The export of function 0 as `f`.
fn export(alloc: Global) -> Result<Export, AllocError>
    ensures { IfOk result IsShapedExport }
{
    let name = one(alloc, b'f')?;
    Ok(Export {
        name,
        kind: Kind::Func,
        index: 0,
    })
}

#[test]
fn a_constant_has_these_bytes(rt: HostRuntime) -> Result<(), Fail> {
    let alloc = rt.alloc();
    let mut module = empty(alloc);
    let groups = one(alloc, group(alloc)?)?;
    module.types = TypeList { groups };
    module.funcs = one(alloc, zero(alloc)?)?;
    module.exports = one(alloc, export(alloc)?)?;
    let bytes = write_module(&rt, alloc, &module)?;
    let expected = [
        0x00, 0x61, 0x73, 0x6D, 0x01, 0x00, 0x00, 0x00, 0x01, 0x05, 0x01, 0x60, 0x00, 0x01, 0x7F,
        0x03, 0x02, 0x01, 0x00, 0x07, 0x05, 0x01, 0x01, 0x66, 0x00, 0x00, 0x0A, 0x06, 0x01, 0x04,
        0x00, 0x41, 0x00, 0x0B,
    ];
    assert_eq!(rt; bytes.as_slice(), expected.as_slice());
    Ok(())
}

#[test]
fn a_segment_of_the_whole_limit_is_too_long(rt: HostRuntime) -> Result<(), Fail> {
    let alloc = rt.alloc();
    let mut module = empty(alloc);
    let bytes = List::from_vec(vec![in alloc; 0u8; 268_435_456]?);
    let mode = SegMode::Passive;
    module.segs = one(alloc, Seg { mode, bytes })?;
    let is_too_long = matches!(write_module(&rt, alloc, &module), Err(WriteErr::TooLong));
    assert!(rt; is_too_long);
    Ok(())
}
