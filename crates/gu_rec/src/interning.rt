//! From a list of types to what is asked of them.
ghost use Rattle.std.specs.Prelude.{◌≡◌, ◌≤◌, ◌<◌, ◌^◌, ℕ, length, IfOk, OnOk, IfErr};
ghost use Rattle.gu_types.specs.Depth.{types_of, depth};
ghost use Rattle.gu_rec.specs.Validity.{IndicesHold};
ghost use Rattle.gu_rec.specs.Cause.{IsCause};

use crate::error::RecErr;
use crate::names::check_indices;
use crate::types::Types;
use gu_types::TypeList;
use std::alloc::Global;

/// The types of a module, ready to be asked, where all indices in them hold (core specification
/// 3.0, 3.2 Types). It takes memory in the size of the list. `BadRef` comes exactly where some
/// type names an index not below its group's end, declares more than one supertype, or declares
/// one whose index is not smaller than its own, and names the first such type. `NoMemory` comes
/// where memory is refused, or where there are 2^32 types or groups, or more.
pub fn intern(alloc: Global, list: &TypeList) -> Result<Types<'_>, RecErr>
    requires { (i : ℕ) → depth (types_of list.now) i ≤ 63 }
    ensures types { IfOk result (λ types. types ≡ list.now) }
    ensures hold { OnOk result (IndicesHold list.now) }
    ensures few { OnOk result (length (types_of list.now) < 2 ^ 32) }
    ensures cause { IfErr result (IsCause list.now) }
{
    check_indices(list)?;
    let Ok(types) = Types::make(alloc, list) else {
        return Err(RecErr::NoMemory);
    };
    Ok(types)
}

#[cfg(test)]
#[tactic(auto, using(crate::proofs::Lines::few_are_shallow))]
mod tests {
    use super::*;
    use gu_types::{
        Abs, Comp, FieldType, HeapType, List, RecGroup, RefType, ShortList, Storage, SubType,
        ValType,
    };
    use std::alloc::AllocError;
    use std::test::Fail;

    /// A structure with the fields given, which may declare a supertype.
    fn structure(
        alloc: Global,
        supers: &[u32],
        fields: &[FieldType],
    ) -> Result<SubType, AllocError> {
        Ok(SubType {
            is_final: true,
            supers: ShortList::from_vec(Vec::from_slice(alloc, supers)?),
            comp: Comp::Struct(ShortList::from_vec(Vec::from_slice(alloc, fields)?)),
        })
    }

    /// Two empty structures in a group.
    fn two_alike(alloc: Global) -> Result<RecGroup, AllocError>
        ensures { IfOk result (λ group. length group.types ≡ 2) }
    {
        let first = structure(alloc, &[], &[])?;
        let second = structure(alloc, &[], &[])?;
        Ok(RecGroup {
            types: ShortList::from_vec(vec![in alloc; first, second]?),
        })
    }

    /// Two empty structures in a group, one alone, and a group as the first.
    fn alike(alloc: Global) -> Result<TypeList, AllocError>
        ensures { IfOk result (λ list. length (types_of list) ≡ 5) }
    {
        let first = two_alike(alloc)?;
        let alone = RecGroup {
            types: ShortList::one(alloc, structure(alloc, &[], &[])?),
        };
        let last = two_alike(alloc)?;
        Ok(TypeList {
            groups: List::from_vec(vec![in alloc; first, alone, last]?),
        })
    }

    #[test]
    fn equal_groups_have_the_same_types(rt: HostRuntime) -> Result<(), Fail> {
        let list = alike(rt.alloc())?;
        let types = intern(rt.alloc(), &list)?;
        assert_eq!(rt; types.same(0, 3), true);
        assert_eq!(rt; types.same(1, 4), true);
        assert_eq!(rt; types.same(0, 1), false);
        assert_eq!(rt; types.same(0, 2), false);
        assert_eq!(rt; types.same(1, 3), false);
        assert_eq!(rt; types.canon(4), 1);
        assert_eq!(rt; types.canon(2), 2);
        Ok(())
    }

    #[test]
    fn a_structure_is_three_below_any(rt: HostRuntime) -> Result<(), Fail> {
        let list = alike(rt.alloc())?;
        let types = intern(rt.alloc(), &list)?;
        let any = HeapType::Abs(Abs::Any);
        assert_eq!(rt; types.distance(any, HeapType::Idx(0)), Some(3));
        assert_eq!(rt; types.distance(HeapType::Idx(0), any), None);
        assert_eq!(rt;
            types.distance(HeapType::Abs(Abs::AnyFunc), HeapType::Idx(0)),
            None
        );
        assert_eq!(rt;
            types.is_sub(HeapType::Abs(Abs::Bot), HeapType::Idx(2)),
            true
        );
        assert_eq!(rt;
            types.is_sub(HeapType::Abs(Abs::NoFunc), HeapType::Idx(2)),
            false
        );
        assert_eq!(rt; types.is_sub(HeapType::Idx(4), HeapType::Idx(1)), true);
        assert_eq!(rt; types.depth(4), 0);
        Ok(())
    }

    #[test]
    fn structures_meet_at_struct(rt: HostRuntime) -> Result<(), Fail> {
        let list = alike(rt.alloc())?;
        let types = intern(rt.alloc(), &list)?;
        let structures = HeapType::Abs(Abs::AnyStruct);
        let functions = HeapType::Abs(Abs::AnyFunc);
        let zero = HeapType::Idx(0);
        assert_eq!(rt;
            types.least_common(zero, HeapType::Idx(1)),
            Some(structures)
        );
        assert_eq!(rt;
            types.least_common(HeapType::Idx(4), HeapType::Idx(1)),
            Some(HeapType::Idx(1))
        );
        assert_eq!(rt;
            types.least_common(HeapType::Abs(Abs::Bot), HeapType::Idx(3)),
            Some(zero)
        );
        assert_eq!(rt; types.least_common(functions, zero), None);
        assert_eq!(rt; types.height(HeapType::Abs(Abs::Any)), 3);
        assert_eq!(rt; types.height(structures), 1);
        assert_eq!(rt; types.height(functions), 0);
        assert_eq!(rt; types.height(zero), 0);
        assert_eq!(rt;
            types.place(4).map(|place| (place.group, place.position)),
            Some((2, 1))
        );
        assert_eq!(rt; types.get(4).is_some(), true);
        assert_eq!(rt; types.get(5).is_some(), false);
        Ok(())
    }

    /// A group of an empty structure, one that declares supertypes, and one with a field.
    fn with_super(alloc: Global, supers: &[u32], storage: Storage) -> Result<TypeList, AllocError>
        ensures { IfOk result (λ list. length (types_of list) ≡ 3) }
    {
        let field = FieldType {
            storage,
            mutable: false,
        };
        let plain = structure(alloc, &[], &[])?;
        let below = structure(alloc, supers, &[])?;
        let wide = structure(alloc, &[], &[field])?;
        let group = RecGroup {
            types: ShortList::from_vec(vec![in alloc; plain, below, wide]?),
        };
        Ok(TypeList {
            groups: List::from_vec(vec![in alloc; group]?),
        })
    }

    fn reference(index: u32) -> Storage {
        Storage::Val(ValType::Ref(RefType {
            null: false,
            heap: HeapType::Idx(index),
        }))
    }

    /// The type that `intern` names, if it names one.
    fn named(alloc: Global, list: &TypeList) -> Option<u32>
        requires { length (types_of list.now) ≤ 64 }
    {
        match intern(alloc, list) {
            Err(RecErr::BadRef { ty }) => Some(ty),
            _ => None,
        }
    }

    #[test]
    fn the_first_bad_index_is_named(rt: HostRuntime) -> Result<(), Fail> {
        let alloc = rt.alloc();
        let missing = with_super(alloc, &[0], reference(5))?;
        assert_eq!(rt; named(alloc, &missing), Some(2));
        let number = with_super(alloc, &[0], Storage::Val(ValType::I32))?;
        assert_eq!(rt; named(alloc, &number), None);
        let own = with_super(alloc, &[1], reference(5))?;
        assert_eq!(rt; named(alloc, &own), Some(1));
        let two = with_super(alloc, &[0, 0], reference(2))?;
        assert_eq!(rt; named(alloc, &two), Some(1));
        Ok(())
    }

    #[test]
    fn a_declared_supertype_is_one_edge_up(rt: HostRuntime) -> Result<(), Fail> {
        let list = with_super(rt.alloc(), &[0], reference(1))?;
        let types = intern(rt.alloc(), &list)?;
        assert_eq!(rt; types.distance(HeapType::Idx(0), HeapType::Idx(1)), Some(1));
        assert_eq!(rt;
            types.distance(HeapType::Abs(Abs::Eq), HeapType::Idx(1)),
            Some(3)
        );
        assert_eq!(rt; types.depth(1), 1);
        let below = ValType::Ref(RefType {
            null: false,
            heap: HeapType::Idx(1),
        });
        let above = ValType::Ref(RefType {
            null: true,
            heap: HeapType::Idx(0),
        });
        assert_eq!(rt; types.is_sub_val(below, above), true);
        assert_eq!(rt; types.is_sub_val(above, below), false);
        assert_eq!(rt; types.is_sub_val(ValType::I32, above), false);
        Ok(())
    }
}
