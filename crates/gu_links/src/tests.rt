//! A worked example of numbered cells.
ghost use Rattle.std.specs.Prelude.{◌≡◌, length, IfOk};
ghost use Rattle.gu_types.specs.Depth.{types_of};

use crate::Numbering;
use gu_contents::Facts;
use gu_rec::intern;
use gu_types::{Comp, FieldType, List, RecGroup, ShortList, Storage, SubType, TypeList, ValType};
use std::alloc::{AllocError, Global};
use std::test::Fail;

/// A type in a group of its own, without supertype.
fn alone(alloc: Global, comp: Comp) -> Result<RecGroup, AllocError>
    ensures { IfOk result (λ group. length group.types ≡ 1) }
{
    let ty = SubType {
        is_final: true,
        supers: ShortList::new(alloc),
        comp,
    };
    Ok(RecGroup {
        types: ShortList::one(alloc, ty),
    })
}

/// A structure of two fields.
fn pair(alloc: Global) -> Result<Comp, AllocError> {
    let number = FieldType {
        storage: Storage::Val(ValType::I32),
        mutable: true,
    };
    let byte = FieldType {
        storage: Storage::I8,
        mutable: true,
    };
    Ok(Comp::Struct(ShortList::from_vec(vec![in alloc; number, byte]?)))
}

/// The function type of two parameters and one result.
fn binary(alloc: Global) -> Result<Comp, AllocError> {
    Ok(Comp::Func {
        params: List::from_vec(vec![in alloc; ValType::I32, ValType::I32]?),
        results: List::from_vec(vec![in alloc; ValType::I64]?),
    })
}

/// A structure of two fields, an array, the same structure once more, and a function type.
fn four(alloc: Global) -> Result<TypeList, AllocError>
    ensures { IfOk result (λ list. length (types_of list) ≡ 4) }
{
    let first = alone(alloc, pair(alloc)?)?;
    let element = FieldType {
        storage: Storage::I16,
        mutable: true,
    };
    let array = alone(alloc, Comp::Array(element))?;
    let again = alone(alloc, pair(alloc)?)?;
    let function = alone(alloc, binary(alloc)?)?;
    Ok(TypeList {
        groups: List::from_vec(vec![in alloc; first, array, again, function]?),
    })
}

/// The facts of these types and of two functions of the last one.
#[tactic(auto, using(gu_rec::proofs::Lines::few_are_shallow))]
fn facts(alloc: Global, list: &TypeList) -> Result<Facts<'_>, Fail>
    requires { length (types_of list.now) ≡ 4 }
{
    let types = intern(alloc, list)?;
    Ok(Facts {
        types,
        funcs: List::from_vec(vec![in alloc; 3, 3]?),
        globals: List::new(alloc),
    })
}

#[test]
fn same_structures_share_their_cells(rt: HostRuntime) -> Result<(), Fail> {
    let list = four(rt.alloc())?;
    let facts = facts(rt.alloc(), &list)?;
    let numbering = Numbering::new(rt.alloc(), &facts)?;
    assert_eq!(rt; numbering.own_cells(), 9);
    Ok(())
}
