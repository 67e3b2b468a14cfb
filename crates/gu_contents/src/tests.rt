//! Worked examples over three structure types in a row: A, B below it, and C below that.
ghost use Rattle.std.specs.Prelude.{◌≡◌, ◌<◌, length, Contains, IfOk, IfSome};
ghost use Rattle.gu_types.specs.Depth.{types_of};
ghost use Rattle.gu_contents.specs.Belongs.{Belongs, IsListed, IsShallow};

use crate::*;
use gu_rec::intern;
use gu_types::{
    Abs, Comp, HeapType, List, RecGroup, RefType, ShortList, Storage, SubType, TypeList, ValType,
};
use std::alloc::{AllocError, Global};
use std::process::Abort;
use std::test::Fail;

const A: u32 = 0;

const B: u32 = 1;

const C: u32 = 2;

/// An empty structure in a group of its own, which may declare supertypes.
fn structure(alloc: Global, supers: &[u32]) -> Result<RecGroup, AllocError>
    ensures { IfOk result (λ group. length group.types ≡ 1) }
{
    let ty = SubType {
        is_final: false,
        supers: ShortList::from_vec(Vec::from_slice(alloc, supers)?),
        comp: Comp::Struct(ShortList::new(alloc)),
    };
    Ok(RecGroup {
        types: ShortList::one(alloc, ty),
    })
}

/// The three types.
fn three(alloc: Global) -> Result<TypeList, AllocError>
    ensures { IfOk result (λ list. length (types_of list) ≡ 3) }
{
    let a = structure(alloc, &[])?;
    let b = structure(alloc, &[A])?;
    let c = structure(alloc, &[B])?;
    Ok(TypeList {
        groups: List::from_vec(vec![in alloc; a, b, c]?),
    })
}

/// The facts of three types, without functions and globals.
#[tactic(auto, using(gu_rec::proofs::Lines::few_are_shallow))]
fn facts(alloc: Global, list: &TypeList) -> Result<Facts<'_>, Fail>
    requires { length (types_of list.now) ≡ 3 }
    ensures { IfOk result (λ f. length (types_of f.types) ≡ 3) }
{
    let types = intern(alloc, list)?;
    Ok(Facts {
        types,
        funcs: List::new(alloc),
        globals: List::new(alloc),
    })
}

/// References to a type and so many edges below it. None where no such cone belongs to the facts.
fn cone(f: &Facts, null: bool, index: u32, depth: u32) -> Option<Content>
    requires { index < length (types_of f.now.types) }
    ensures { IfSome result (Belongs f.now) }
{
    let head = HeapType::Idx(index);
    if f.types.canon(index) == index && depth <= f.types.height(head) {
        Some(Content::Ref(null, Core::Cone(head, depth)))
    } else {
        None
    }
}

/// Ends the test where a content is not the one that is wanted.
fn expect(rt: &impl Abort, got: Content, wanted: Content) {
    assert_eq!(rt; got, wanted);
}

/// A cone of a type, with null.
fn below(index: u32, edges: u32) -> Content {
    Content::Ref(true, Core::Cone(HeapType::Idx(index), edges))
}

#[test]
fn references_meet_in_a_cone(rt: HostRuntime) -> Result<(), Fail> {
    let list = three(rt.alloc())?;
    let f = facts(rt.alloc(), &list)?;
    let a = cone(&f, true, A, 0).ok_or("no cone")?;
    let b = cone(&f, false, B, 0).ok_or("no cone")?;
    expect(&rt, join(&f, b, a), below(A, 1));
    assert_eq!(rt; le(&f, b, a), false);
    expect(&rt, equal(&f, a, b), Content::I32(0));
    Ok(())
}

#[test]
fn casts_cut_a_cone(rt: HostRuntime) -> Result<(), Fail> {
    let list = three(rt.alloc())?;
    let f = facts(rt.alloc(), &list)?;
    let a = cone(&f, true, A, 2).ok_or("no cone")?;
    let to = RefType {
        null: false,
        heap: HeapType::Idx(B),
    };
    expect(
        &rt,
        filter(&f, a, to),
        Content::Ref(false, Core::Cone(HeapType::Idx(B), 1)),
    );
    expect(&rt, is_null(a), Content::Many);
    let rank_of_a = rank(Content::Ref(true, Core::Cone(HeapType::Idx(A), 2)));
    assert_eq!(rt; rank_of_a, 5);
    Ok(())
}

#[test]
fn tests_answer_no_outside_a_cone(rt: HostRuntime) -> Result<(), Fail> {
    let list = three(rt.alloc())?;
    let f = facts(rt.alloc(), &list)?;
    let a = cone(&f, false, A, 1).ok_or("no cone")?;
    let b = cone(&f, true, B, 0).ok_or("no cone")?;
    let lower = RefType {
        null: false,
        heap: HeapType::Idx(C),
    };
    let upper = RefType {
        null: true,
        heap: HeapType::Idx(A),
    };
    expect(&rt, test(&f, a, lower), Content::I32(0));
    expect(&rt, minus(&f, b, upper), Content::Empty);
    expect(&rt, all(&f, ValType::Ref(upper)), below(A, 2));
    Ok(())
}

#[test]
fn numbers_are_packed_and_extended(rt: HostRuntime) -> Result<(), Fail> {
    let list = three(rt.alloc())?;
    let f = facts(rt.alloc(), &list)?;
    let null = Content::Ref(true, Core::Bottom);
    expect(
        &rt,
        join(&f, Content::I32(1), Content::I32(2)),
        Content::Many,
    );
    expect(&rt, join(&f, Content::I32(1), null), Content::Top);
    expect(&rt, pack(Storage::I8, Content::I32(300)), Content::I32(44));
    expect(
        &rt,
        extend(Storage::I8, true, Content::I32(200)),
        Content::I32(0xFFFF_FFC8),
    );
    Ok(())
}

/// The code of a content, which gives the content back.
fn coded(rt: &impl Abort, longs: &Longs, a: Content) -> u64
    requires listed { IsListed longs.now a }
    requires shallow { IsShallow a }
{
    let code = code_of(longs, a);
    expect(rt, content_of(longs, code), a);
    code
}

/// The list of 0 and -1.
fn two_longs(alloc: Global) -> Result<Longs, AllocError>
    ensures { IfOk result (λ longs. Contains longs 0) }
{
    let mut longs = Longs::new(alloc)?;
    longs.add(u64::MAX)?;
    longs.add(0)?;
    Ok(longs)
}

#[test]
fn codes_give_back_their_contents(rt: HostRuntime) -> Result<(), Fail> {
    let longs = two_longs(rt.alloc())?;
    let any = HeapType::Abs(Abs::Any);
    let codes = [
        coded(&rt, &longs, Content::Empty),
        coded(&rt, &longs, Content::Many),
        coded(&rt, &longs, Content::Top),
        coded(&rt, &longs, Content::I32(0xFFFF_FFFF)),
        coded(&rt, &longs, Content::I64(0)),
        coded(&rt, &longs, Content::NumGlobal(999_999)),
        coded(&rt, &longs, Content::Ref(true, Core::Bottom)),
        coded(&rt, &longs, Content::Ref(false, Core::Func(999_999))),
        coded(&rt, &longs, Content::Ref(true, Core::Cone(any, 66))),
    ];
    for (i, one) in codes.iter().enumerate() {
        for other in codes.iter().skip(i + 1) {
            assert_eq!(rt; one == other, false);
        }
    }
    assert_eq!(rt; codes[0], 0);
    Ok(())
}
