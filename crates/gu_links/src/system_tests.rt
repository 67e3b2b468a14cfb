//! A worked example, over a module with no types and no functions: a number goes round.
ghost use Rattle.std.specs.Prelude.{◌≡◌, [], ◌∷◌, IfOk};
ghost use Rattle.gu_types.specs.Depth.{types_of};

use crate::{Link, System, apply};
use gu_contents::{Content, Facts, Longs};
use gu_rec::intern;
use gu_types::{List, TypeList};
use std::alloc::Global;
use std::test::Fail;

/// The types of a module with nothing in it.
fn no_types(alloc: Global) -> TypeList
    ensures { result.groups ≡ [] }
{
    TypeList {
        groups: List::new(alloc),
    }
}

/// The facts of a module with nothing in it.
#[tactic(auto, using(gu_rec::proofs::Lines::few_are_shallow))]
fn no_facts(alloc: Global, list: &TypeList) -> Result<Facts<'_>, Fail>
    requires { list.now.groups ≡ [] }
    ensures types { IfOk result (λ f. types_of f.types ≡ []) }
    ensures funcs { IfOk result (λ f. f.funcs ≡ []) }
{
    let types = intern(alloc, list)?;
    Ok(Facts {
        types,
        funcs: List::new(alloc),
        globals: List::new(alloc),
    })
}

/// 7 flows into the first of two cells, from there into the second, and from there into itself.
fn round<'a>(alloc: Global, f: &'a Facts<'a>) -> Result<System<'a>, Fail>
    requires types { types_of f.now.types ≡ [] }
    requires funcs { f.now.funcs ≡ [] }
    ensures { IfOk result (λ s. s.links ≡ Link.Root (Content.I32 7) 0 ∷ Link.Copy 0 1 ∷ Link.Copy 1 1 ∷ []) }
{
    let links = vec![in alloc;
        Link::Root {
            give: Content::I32(7),
            to: 0
        },
        Link::Copy { from: 0, to: 1 },
        Link::Copy { from: 1, to: 1 },
    ]?;
    let longs = Longs::new(alloc)?;
    let s = System::new(alloc, List::from_vec(links), 2, f, longs)?;
    Ok(s)
}

#[test]
fn a_number_goes_round(rt: HostRuntime) -> Result<(), Fail> {
    let alloc = rt.alloc();
    let list = no_types(alloc);
    let facts = no_facts(alloc, &list)?;
    let s = round(alloc, &facts)?;
    assert_eq!(rt; s.next_read(0, &[]), None);
    let asked = apply(alloc, &s, 0, &[])?;
    assert_eq!(rt; asked.as_slice(), [(0, Content::I32(7))].as_slice());
    assert_eq!(rt; s.next_read(1, &[]), Some(0));
    assert_eq!(rt; s.readers(0, 0), [1].as_slice());
    assert_eq!(rt; s.readers(1, 0), [2].as_slice());
    Ok(())
}
