//! Two workers that meet, over a module without types, functions and globals.
ghost use Rattle.std.specs.Prelude.{◌≡◌, [], IfOk};

use crate::solve;
use gu_contents::{Content, Facts, Longs};
use gu_links::{Link, System};
use gu_rec::intern;
use gu_types::{List, TypeList};
use gu_workers::Gate;
use std::alloc::Global;
use std::hint::spin_loop;
use std::sync::atomic::{AtomicBool, AtomicU64, Ordering};
use std::test::Fail;

/// How often a worker looks whether the other has begun.
const TURNS: u32 = 1_000_000_000;

/// Holds each of two workers at its first pass until the other's has begun, or the turns end.
#[derive(Drop)]
struct Meeting {
    begun: AtomicU64,
    missed: AtomicBool,
}

impl Meeting {
    /// Looks whether both have begun, until they have or the turns end, which is noted.
    fn wait(&self) {
        for _ in 0..TURNS {
            if self.begun.load(Ordering::SeqCst) == 3 {
                return;
            }
            spin_loop();
        }
        self.missed.store(true, Ordering::SeqCst);
    }
}

impl Gate for Meeting {
    /// Notes that the worker has begun, and waits at its first pass.
    fn pass(&self, worker: u32, _cell: usize) {
        let own = if worker == 0 { 1 } else { 2 };
        let before = self.begun.fetch_or(own, Ordering::SeqCst);
        if before & own == 0 {
            self.wait();
        }
    }
}

/// The types of a module with nothing in it.
fn no_types(alloc: Global) -> TypeList
    ensures { result.groups ≡ [] }
{
    TypeList {
        groups: List::new(alloc),
    }
}

/// The facts of a module with nothing in it.
#[tactic(auto, using(gu_rec::proofs::Lines::few_are_shallow))]
fn no_facts(alloc: Global, list: &TypeList) -> Result<Facts<'_>, Fail>
    requires { list.now.groups ≡ [] }
    ensures types { IfOk result (λ f. f.types.groups ≡ []) }
    ensures funcs { IfOk result (λ f. f.funcs ≡ []) }
{
    let types = intern(alloc, list)?;
    Ok(Facts {
        types,
        funcs: List::new(alloc),
        globals: List::new(alloc),
    })
}

// two roots on two cells, one for each worker: no pass ends before both have begun, so the workers
// run at the same time
#[test]
fn two_workers_run_at_once(rt: HostRuntime) -> Result<(), Fail> {
    let alloc = rt.alloc();
    let list = no_types(alloc);
    let facts = no_facts(alloc, &list)?;
    let longs = Longs::new(alloc)?;
    let five = Link::Root {
        give: Content::I32(5),
        to: 0,
    };
    let seven = Link::Root {
        give: Content::I32(7),
        to: 1,
    };
    let links = List::from_vec(vec![in alloc; five, seven]?);
    let s = System::new(alloc, links, 2, &facts, longs)?;
    let meeting = Meeting {
        begun: AtomicU64::new(0),
        missed: AtomicBool::new(false),
    };
    let (contents, track) = solve(&rt, alloc, &s, 2, &meeting)?;
    let both = [Content::I32(5), Content::I32(7)];
    assert_eq!(rt; contents.as_slice(), both.as_slice());
    assert!(rt; track.is_some());
    assert!(rt; !meeting.missed.load(Ordering::SeqCst));
    Ok(())
}
