//! The check of a module's types.
ghost use Rattle.std.specs.Prelude.{◌≡◌, ◌≤◌, ◌<◌, ◌^◌, ℕ, map, length, IfOk, OnOk, IfErr, MatchOption, true};
ghost use Rattle.gu_types.specs.Depth.{types_of, depth};
ghost use Rattle.gu_rec.specs.Validity.{IndicesHold, ValidTypes, IsFirstBadSuper, supers_hold_at};
ghost use Rattle.gu_valid_types.specs.Cause.{IsCause};

use crate::error::TypesErr;
use crate::extends::may_declare;
use gu_rec::{RecErr, Types, intern};
use gu_types::{SubType, TypeList};
use std::alloc::{AllocError, Global};

/// The types of a list, in the order of their indices.
fn in_order<'a>(alloc: Global, list: &'a TypeList) -> Result<Vec<&'a SubType>, AllocError>
    ensures { IfOk result (λ flat. map (λ ty. ty.now) flat.items ≡ types_of list.entry.now) }
{
    let mut flat: Vec<&SubType> = Vec::new(alloc);
    let groups = list.groups.as_slice();
    for group in groups {
        let types = group.types.as_slice();
        for ty in types {
            flat.push(ty)?;
        }
    }
    Ok(flat)
}

/// Whether the type at a place may declare the supertype that it declares.
fn super_holds(types: &Types, flat: &[&SubType], i: usize) -> bool
    requires hold { IndicesHold types.now }
    requires flat_is { map (λ ty. ty.now) flat.now ≡ types_of types.now }
    requires within { i < length flat.now }
    ensures { result ≡ supers_hold_at types.now i }
{
    let ty = flat[i];
    match ty.supers.as_slice().first() {
        None => true,
        Some(above) => may_declare(types, ty, flat[*above as usize]),
    }
}

/// The first type that may not declare the supertype that it declares.
fn first_bad_super(types: &Types, flat: &[&SubType]) -> Option<u32>
    requires hold { IndicesHold types.now }
    requires flat_is { map (λ ty. ty.now) flat.now ≡ types_of types.now }
    requires few { length flat.now < 2 ^ 32 }
    ensures { MatchOption result (ValidTypes types.now) (IsFirstBadSuper types.now) }
{
    for i in 0..flat.len() {
        if !super_holds(types, flat, i) {
            return Some(i as u32);
        }
    }
    None
}

/// What `intern` gives, where the types of a module are valid (core specification 3.0, 3.2 Types).
/// It takes memory in the size of the list. `BadRef` comes exactly where `intern` has it.
/// `BadSuper` comes exactly where all indices hold and some type's declared supertype is final or
/// does not match it, and names the first such type: structures have the fields of their
/// supertype first, immutable fields are covariant and mutable ones invariant, functions are
/// contravariant in parameters and covariant in results (3.3 Matching). `NoMemory` comes where
/// memory is refused, or where there are 2^32 types or groups, or more.
pub fn check_types(alloc: Global, list: &TypeList) -> Result<Types<'_>, TypesErr>
    requires { (i : ℕ) → depth (types_of list.now) i ≤ 63 }
    ensures types { IfOk result (λ types. types ≡ list.now) }
    ensures valid { OnOk result (ValidTypes list.now) }
    ensures cause { IfErr result (IsCause list.now) }
{
    let types = match intern(alloc, list) {
        Err(RecErr::BadRef { ty }) => return Err(TypesErr::BadRef { ty }),
        Err(RecErr::NoMemory) => return Err(TypesErr::NoMemory),
        Ok(types) => types,
    };
    let Ok(flat) = in_order(alloc, list) else {
        return Err(TypesErr::NoMemory);
    };
    match first_bad_super(&types, flat.as_slice()) {
        None => Ok(types),
        Some(ty) => Err(TypesErr::BadSuper { ty }),
    }
}

#[cfg(test)]
#[tactic(auto, using(gu_rec::proofs::Lines::few_are_shallow))]
mod tests {
    use super::*;
    use gu_types::{
        Comp, FieldType, HeapType, List, RecGroup, RefType, ShortList, Storage, ValType,
    };
    use std::test::Fail;

    /// A structure with the fields given, which may declare a supertype.
    fn structure(
        alloc: Global,
        supers: &[u32],
        fields: &[FieldType],
    ) -> Result<SubType, AllocError> {
        Ok(SubType {
            is_final: true,
            supers: ShortList::from_vec(Vec::from_slice(alloc, supers)?),
            comp: Comp::Struct(ShortList::from_vec(Vec::from_slice(alloc, fields)?)),
        })
    }

    /// A group of a final empty structure, one that declares supertypes, and one with a field.
    fn final_super(alloc: Global, supers: &[u32], storage: Storage) -> Result<TypeList, AllocError>
        ensures { IfOk result (λ list. length (types_of list) ≡ 3) }
    {
        let field = FieldType {
            storage,
            mutable: false,
        };
        let plain = structure(alloc, &[], &[])?;
        let below = structure(alloc, supers, &[])?;
        let wide = structure(alloc, &[], &[field])?;
        let group = RecGroup {
            types: ShortList::from_vec(vec![in alloc; plain, below, wide]?),
        };
        Ok(TypeList {
            groups: List::from_vec(vec![in alloc; group]?),
        })
    }

    /// The type that is at fault, after its kind of fault.
    fn fault(alloc: Global, list: &TypeList) -> Option<(u8, u32)>
        requires { length (types_of list.now) ≤ 64 }
    {
        match check_types(alloc, list) {
            Err(TypesErr::BadRef { ty }) => Some((0, ty)),
            Err(TypesErr::BadSuper { ty }) => Some((1, ty)),
            Err(TypesErr::NoMemory) => Some((2, 0)),
            Ok(_) => None,
        }
    }

    #[test]
    fn indices_come_before_supertypes(rt: HostRuntime) -> Result<(), Fail> {
        let alloc = rt.alloc();
        let to_five = Storage::Val(ValType::Ref(RefType {
            null: false,
            heap: HeapType::Idx(5),
        }));
        let missing = final_super(alloc, &[0], to_five)?;
        assert_eq!(rt; fault(alloc, &missing), Some((0, 2)));
        let number = final_super(alloc, &[0], Storage::Val(ValType::I32))?;
        assert_eq!(rt; fault(alloc, &number), Some((1, 1)));
        let own = final_super(alloc, &[1], to_five)?;
        assert_eq!(rt; fault(alloc, &own), Some((0, 1)));
        let none = final_super(alloc, &[], Storage::Val(ValType::I32))?;
        assert_eq!(rt; fault(alloc, &none), None);
        Ok(())
    }
}
