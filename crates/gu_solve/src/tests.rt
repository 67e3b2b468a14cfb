//! Worked examples, over a module without types, functions and globals.
ghost use Rattle.std.specs.Prelude.{◌≡◌, ℕ, List as Items, [], All, IfOk};
ghost use Rattle.gu_contents.specs.declared.facts.Facts.{Facts};
ghost use Rattle.gu_links.specs.Solutions.{Fits};

use crate::close_from;
use gu_contents::{Content, Facts, Longs};
use gu_links::{Link, System};
use gu_rec::intern;
use gu_types::{List, TypeList};
use std::alloc::Global;
use std::test::Fail;

/// The types of a module with nothing in it.
fn no_types(alloc: Global) -> TypeList
    ensures { result.groups ≡ [] }
{
    TypeList {
        groups: List::new(alloc),
    }
}

/// The facts of a module with nothing in it.
#[tactic(auto, using(gu_rec::proofs::Lines::few_are_shallow))]
fn no_facts(alloc: Global, list: &TypeList) -> Result<Facts<'_>, Fail>
    requires { list.now.groups ≡ [] }
    ensures types { IfOk result (λ f. f.types.groups ≡ []) }
    ensures funcs { IfOk result (λ f. f.funcs ≡ []) }
{
    let types = intern(alloc, list)?;
    Ok(Facts {
        types,
        funcs: List::new(alloc),
        globals: List::new(alloc),
    })
}

/// The least solution of links over five cells, from nothing in each.
fn solved(alloc: Global, links: Vec<Link>) -> Result<List<Content>, Fail>
    requires { (f : Facts) (longs : Items ℕ) → All (Fits f longs 5) links.items }
{
    let list = no_types(alloc);
    let facts = no_facts(alloc, &list)?;
    let longs = Longs::new(alloc)?;
    let s = System::new(alloc, List::from_vec(links), 5, &facts, longs)?;
    let start = vec![in alloc; Content::Empty; 5]?;
    Ok(close_from(alloc, &s, List::from_vec(start))?)
}

// 0 → 1 → 2 → 3 → 1, with 5 put into 0
#[test]
fn a_chain_that_leads_back_has_what_enters_it(rt: HostRuntime) -> Result<(), Fail> {
    let alloc = rt.alloc();
    let links = vec![in alloc;
        Link::Copy { from: 3, to: 1 },
        Link::Copy { from: 2, to: 3 },
        Link::Copy { from: 1, to: 2 },
        Link::Copy { from: 0, to: 1 },
        Link::Root {
            give: Content::I32(5),
            to: 0
        },
    ]?;
    let five = Content::I32(5);
    let all = [five, five, five, five, Content::Empty];
    assert_eq!(rt; solved(alloc, links)?.as_slice(), all.as_slice());
    Ok(())
}

// the same, with 7 put into 3: what goes round is both numbers, what stands before it is one
#[test]
fn two_numbers_on_a_cycle_are_many(rt: HostRuntime) -> Result<(), Fail> {
    let alloc = rt.alloc();
    let links = vec![in alloc;
        Link::Root {
            give: Content::I32(5),
            to: 0
        },
        Link::Copy { from: 0, to: 1 },
        Link::Copy { from: 1, to: 2 },
        Link::Copy { from: 2, to: 3 },
        Link::Copy { from: 3, to: 1 },
        Link::Root {
            give: Content::I32(7),
            to: 3
        },
    ]?;
    let many = Content::Many;
    let all = [Content::I32(5), many, many, many, Content::Empty];
    assert_eq!(rt; solved(alloc, links)?.as_slice(), all.as_slice());
    Ok(())
}
