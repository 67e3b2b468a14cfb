//! The types of a module with what is asked of them.
ghost use Rattle.std.specs.Prelude.{◌≡◌, ◌<◌, ◌≤◌, ◌+◌, ◌^◌, ℕ, suc, option_map, length, IsTrue, ◌↔◌, IfOk, MatchOption, slice_get, Some};
ghost use Rattle.gu_rec.specs.Validity.{IndicesHold};
ghost use Rattle.gu_types.specs.Depth.{types_of};
ghost use Rattle.gu_types.specs.Depth as depths;
ghost use Rattle.gu_types.specs.declared.types.HeapType.TheVariants as H;
ghost use Rattle.gu_rec.specs.Closed.{SameType};
ghost use Rattle.gu_rec.specs.Tests.{eq_abs, same_type};
ghost use Rattle.gu_rec.specs.Sub as sub;
ghost use Rattle.gu_rec.specs.Sub.{IsHeapOf, IsValOf};
ghost use Rattle.gu_rec.specs.Table.{place, next_above, IsNamed};

use crate::abs::{above_abs, abs_distance, same_abs, top_of};
use crate::build::entries_of;
use crate::height::{Tops, tops_of, type_heights};
use crate::key::least_indices;
use crate::place::{Place, Seat, places_of};
use gu_types::{Abs, HeapType, SubType, TypeList, ValType};
use std::alloc::{AllocError, Global};
use std::marker::Model;

/// What is kept of a type: its declared supertype, the abstract heap type above the last of the
/// supertypes above it, and how many these are.
#[derive(Clone, Copy, Debug)]
pub(crate) struct Entry {
    pub(crate) parent: Option<u32>,
    pub(crate) kind: Abs,
    pub(crate) depth: u8,
}

impl Entry {
    /// How many edges lead from an abstract heap type down to the type.
    pub(crate) fn edges_from(self, top: Abs) -> Option<u32>
        requires { self.depth ≤ 63 }
        ensures far { result ≡ option_map (λ k. suc self.depth + k) (place (eq_abs top) (sub.abs_line self.kind)) }
        ensures small { (edges : ℕ) → result ≡ Some edges → edges ≤ 66 }
    {
        match abs_distance(top, self.kind) {
            None => None,
            Some(edges) => Some(self.depth as u32 + 1 + edges),
        }
    }
}

/// The types of a module, as `intern` made it of them. It borrows their list, which contracts see.
/// No call takes memory. Indices handed in are in range.
#[derive(Drop)]
pub struct Types<'a> {
    list: &'a TypeList,
    least: Vec<u32>,
    entries: Vec<Entry>,
    places: Vec<Seat>,
    heights: Vec<u32>,
    tops: Tops,
}

impl<'a> Model for Types<'a> {
    ghost use Rattle.gu_types.specs.declared.types.TypeList.{TypeList as Listed};
    ghost use Rattle.gu_rec.specs.Heights.{IsKept};

    ghost Value = { Listed };

    ghost view = { λ types. types.list.now };

    ghost invariant = { λ types. IsKept types.list.now types.least.items types.entries.items types.places.items types.heights.items types.tops };
}

impl<'a> Types<'a> {
    /// The tables of a list of types whose indices hold. `AllocError` only where memory is
    /// refused, or where there are 2^32 groups or more.
    pub(crate) fn make(alloc: Global, list: &'a TypeList) -> Result<Types<'a>, AllocError>
        requires hold { IndicesHold list.now }
        requires few { length (types_of list.now) < 2 ^ 32 }
        requires shallow { (i : ℕ) → depths.depth (types_of list.now) i ≤ 63 }
        ensures { IfOk result (λ types. types ≡ list.now) }
    {
        let groups = list.groups.as_slice();
        if groups.len() > u32::MAX as usize {
            return Err(AllocError);
        }
        let least = least_indices(alloc, list)?;
        let entries = entries_of(alloc, list, least.len())?;
        let places = places_of(alloc, list, least.len())?;
        let heights = type_heights(alloc, least.as_slice(), entries.as_slice())?;
        let tops = tops_of(entries.as_slice());
        Ok(Types {
            list,
            least,
            entries,
            places,
            heights,
            tops,
        })
    }

    /// Whether two indices denote one type (core specification 3.0, 3.1.2 Defined Types).
    pub fn same(&self, i: u32, j: u32) -> bool
        requires first { i < length (types_of self.now) }
        requires second { j < length (types_of self.now) }
        ensures value { result ≡ same_type self.now i self.now j }
        ensures means { IsTrue result ↔ SameType self.now i self.now j }
    {
        self.least[i as usize] == self.least[j as usize]
    }

    /// The least index that denotes the same type.
    pub fn canon(&self, i: u32) -> u32
        requires { i < length (types_of self.now) }
        ensures same { SameType self.now i self.now result }
        ensures least { (j : ℕ) → SameType self.now i self.now j → result ≤ j }
    {
        self.least[i as usize]
    }

    /// Where the type with an index stands in the list. None exactly where no type has the index.
    pub fn place(&self, i: u32) -> Option<Place>
        ensures { MatchOption result (length (types_of self.now) ≤ i) (λ at. sub.StandsAt self.now i at.group at.position) }
    {
        let places = self.places.as_slice();
        let at = i as usize;
        if at < places.len() {
            let seat = places[at];
            Some(Place {
                group: seat.group as usize,
                position: seat.position as usize,
            })
        } else {
            None
        }
    }

    /// The type with an index. None exactly where no type has the index.
    pub fn get(&self, i: u32) -> Option<&SubType>
        ensures { MatchOption result (length (types_of self.now) ≤ i) (λ ty. slice_get (types_of self.now) i ≡ Some ty.now) }
    {
        let place = self.place(i)?;
        let groups = self.list.groups.as_slice();
        let types = groups[place.group].types.as_slice();
        Some(&types[place.position])
    }

    /// How many declared supertypes stand above a type, one after another: 63 at most.
    pub fn depth(&self, i: u32) -> u32
        requires { i < length (types_of self.now) }
        ensures value { result ≡ depths.depth (types_of self.now) i }
        ensures small { result ≤ 63 }
    {
        let entry = self.entries[i as usize];
        entry.depth as u32
    }

    /// How many declared supertypes lead from a type up to another, which is among them or is the
    /// type itself: 63 at most. None where it is not.
    fn steps_up(&self, from: u32, to: u32) -> Option<u32>
        requires first { from < length (types_of self.now) }
        requires second { to < length (types_of self.now) }
        ensures { result ≡ place (sub.same_heap self.now (H.Idx to)) (sub.line self.now (H.Idx from)) }
    {
        let target = self.least[to as usize];
        let mut at = from;
        let mut steps: u32 = 0;
        'line: loop {
            if self.least[at as usize] == target {
                return Some(steps);
            }
            let entry = self.entries[at as usize];
            let Some(above) = entry.parent else {
                return None;
            };
            at = above;
            steps += 1;
        }
    }

    /// How many edges lead from the first heap type down to the second: declared supertypes, and
    /// the edges of the trees of abstract heap types, 66 at most. Neither is a bottom. None where
    /// the first does not stand above the second and is not the same.
    pub fn distance(&self, above: HeapType, below: HeapType) -> Option<u32>
        requires first { IsHeapOf self.now above }
        requires second { IsHeapOf self.now below }
        requires first_is_no_bottom { sub.IsNoBottom above }
        requires second_is_no_bottom { sub.IsNoBottom below }
        ensures { result ≡ sub.distance self.now above below }
    {
        self.edges(above, below)
    }

    /// How many edges lead from a heap type down to the farthest one below it, bottoms left out:
    /// 66 at most.
    pub fn height(&self, h: HeapType) -> u32
        requires in_range { IsHeapOf self.now h }
        requires no_bottom { sub.IsNoBottom h }
        ensures { result ≡ sub.height self.now h }
    {
        let _ = &self.list;
        match h {
            HeapType::Abs(kind) => self.tops.height(kind),
            HeapType::Idx(i) => self.heights[self.canon(i) as usize],
        }
    }

    /// The same, where a bottom stands on its own line alone.
    fn edges(&self, above: HeapType, below: HeapType) -> Option<u32>
        requires first { IsHeapOf self.now above }
        requires second { IsHeapOf self.now below }
        ensures { result ≡ place (sub.same_heap self.now above) (sub.line self.now below) }
    {
        match below {
            HeapType::Abs(kind) => match above {
                HeapType::Abs(top) => abs_distance(top, kind),
                HeapType::Idx(_) => None,
            },
            HeapType::Idx(i) => match above {
                HeapType::Abs(top) => self.entries[i as usize].edges_from(top),
                HeapType::Idx(j) => self.steps_up(i, j),
            },
        }
    }

    /// Whether two heap types are the same.
    fn same_heap(&self, a: HeapType, b: HeapType) -> bool
        requires first { IsHeapOf self.now a }
        requires second { IsHeapOf self.now b }
        ensures { result ≡ sub.same_heap self.now a b }
    {
        match a {
            HeapType::Abs(kind) => match b {
                HeapType::Abs(other) => same_abs(kind, other),
                HeapType::Idx(_) => false,
            },
            HeapType::Idx(i) => match b {
                HeapType::Abs(_) => false,
                HeapType::Idx(j) => self.same(i, j),
            },
        }
    }

    /// Whether the first heap type is a subtype of the second (core specification 3.0, 3.3
    /// Matching). At most 63 declared supertypes are passed.
    pub fn is_sub(&self, a: HeapType, b: HeapType) -> bool
        requires first { IsHeapOf self.now a }
        requires second { IsHeapOf self.now b }
        ensures value { result ≡ sub.is_sub self.now a b }
        ensures means { IsTrue result ↔ sub.IsSub self.now a b }
    {
        let _ = &self.list;
        self.stands_below(a, b)
    }

    /// The same, by the test alone.
    fn stands_below(&self, a: HeapType, b: HeapType) -> bool
        requires first { IsHeapOf self.now a }
        requires second { IsHeapOf self.now b }
        ensures { result ≡ sub.is_sub self.now a b }
    {
        match top_of(a) {
            None => self.edges(b, a).is_some(),
            Some(top) => self.same_heap(b, a) || self.edges(HeapType::Abs(top), b).is_some(),
        }
    }

    /// Whether the first value type is a subtype of the second: a null is allowed only where the
    /// other allows it (core specification 3.0, 3.3 Matching).
    pub fn is_sub_val(&self, a: ValType, b: ValType) -> bool
        requires first { IsValOf self.now a }
        requires second { IsValOf self.now b }
        ensures { result ≡ sub.is_sub_val self.now a b }
    {
        match a {
            ValType::I32 => match b {
                ValType::I32 => true,
                _ => false,
            },
            ValType::I64 => match b {
                ValType::I64 => true,
                _ => false,
            },
            ValType::Ref(one) => match b {
                ValType::Ref(other) => {
                    (!one.null || other.null) && self.is_sub(one.heap, other.heap)
                }
                _ => false,
            },
        }
    }

    /// The least common supertype of two heap types, by the least index of its type. None exactly
    /// where they have no common supertype (core specification 3.0, 3.3 Matching). The line above
    /// the first is climbed.
    pub fn least_common(&self, a: HeapType, b: HeapType) -> Option<HeapType>
        requires first { IsHeapOf self.now a }
        requires second { IsHeapOf self.now b }
        ensures { MatchOption result (sub.HaveNoCommon self.now a b) (sub.IsLeastCommon self.now a b) }
    {
        let _ = &self.list;
        match top_of(a) {
            None => self.climb(a, b),
            Some(_) => {
                if self.is_sub(a, b) {
                    Some(self.named(b))
                } else {
                    None
                }
            }
        }
    }

    /// The same, where the first is no bottom.
    fn climb(&self, from: HeapType, b: HeapType) -> Option<HeapType>
        requires first { IsHeapOf self.now from }
        requires second { IsHeapOf self.now b }
        requires no_bottom { sub.IsNoBottom from }
        ensures { MatchOption result (sub.HaveNoCommon self.now from b) (sub.IsLeastCommon self.now from b) }
    {
        let _ = &self.list;
        let mut at = from;
        'line: loop {
            if self.is_sub(b, at) {
                return Some(self.named(at));
            }
            let Some(next) = self.above(at) else {
                return None;
            };
            at = next;
        }
    }

    /// What stands directly above a heap type on its line.
    fn above(&self, heap: HeapType) -> Option<HeapType>
        requires { IsHeapOf self.now heap }
        ensures { result ≡ next_above self.now heap }
    {
        match heap {
            HeapType::Abs(kind) => match above_abs(kind) {
                None => None,
                Some(upper) => Some(HeapType::Abs(upper)),
            },
            HeapType::Idx(i) => {
                let entry = self.entries[i as usize];
                match entry.parent {
                    None => Some(HeapType::Abs(entry.kind)),
                    Some(super_index) => Some(HeapType::Idx(super_index)),
                }
            }
        }
    }

    /// The same heap type by the least index of its type.
    fn named(&self, heap: HeapType) -> HeapType
        requires { IsHeapOf self.now heap }
        ensures { IsNamed self.now heap result }
    {
        match heap {
            HeapType::Abs(_) => heap,
            HeapType::Idx(i) => HeapType::Idx(self.canon(i)),
        }
    }
}
