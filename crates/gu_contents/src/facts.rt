//! What is known of a module before its code is looked at.
ghost use Rattle.std.specs.Prelude.{ℕ, ◌≤◌};
ghost use Rattle.gu_rec.specs.Validity.{IndicesHold};
ghost use Rattle.gu_types.specs.Depth.{types_of, depth};

use crate::content::{Content, Core};
use gu_rec::Types;
use gu_types::{HeapType, List, ValType};

/// What is known of a global before the code is looked at.
#[derive(Clone, Copy, Debug, PartialEq, Eq)]
pub struct GlobalFact {
    /// Its declared type.
    pub ty: ValType,
    /// A cone that holds every reference that it can have, or `Core::Bottom`. `Core::Bottom` where
    /// it is mutable.
    pub bound: Core,
    /// What it holds. `Content::Empty` where it is mutable.
    pub value: Content,
}

/// What is known of a module before its code is looked at: its types, the type of each function
/// and each global, imported ones first. The indices in the types hold, and no type has more than
/// 63 supertypes above it.
#[derive(Drop)]
pub struct Facts<'a> {
    /// The types.
    pub types: Types<'a>,
    /// The index of each function's type.
    pub funcs: List<u32>,
    /// What is known of each global.
    pub globals: List<GlobalFact>,
    ghost hold: { IndicesHold types },
    ghost shallow: { (i : ℕ) → depth (types_of types) i ≤ 63 },
}

impl Facts<'_> {
    ghost use Rattle.std.specs.Prelude.{◌≡◌, ◌<◌, length, IfSome};
    ghost use Rattle.gu_rec.specs.Sub.{IsHeapOf, IsNoBottom};
    ghost use Rattle.gu_contents.specs.Join as joins;
    ghost use Rattle.gu_contents.specs.Belongs.{IsCone, IsFunc, CoreBelongs};
    ghost use Rattle.gu_contents.specs.Contents as contents;

    /// The heap type by the least index of its type.
    pub(crate) fn least_index(&self, heap: HeapType) -> HeapType
        requires { IsHeapOf self.now.types heap }
        ensures { result ≡ contents.least_index self.now.types heap }
    {
        match heap {
            HeapType::Abs(_) => heap,
            HeapType::Idx(i) => HeapType::Idx(self.types.canon(i)),
        }
    }

    /// The least common supertype of two heap types that are no bottoms, by its least index. None
    /// where there is none.
    pub(crate) fn common(&self, a: HeapType, b: HeapType) -> Option<HeapType>
        requires first { IsHeapOf self.now.types a }
        requires second { IsHeapOf self.now.types b }
        requires first_is_no_bottom { IsNoBottom a }
        requires second_is_no_bottom { IsNoBottom b }
        ensures value { result ≡ joins.common self.now.types a b }
        ensures range { IfSome result (IsHeapOf self.now.types) }
        ensures no_bottom { IfSome result IsNoBottom }
    {
        self.types.least_common(a, b)
    }

    /// How many edges lead from a heap type down to another, and 0 where it does not stand above:
    /// 66 at most.
    pub(crate) fn edges(&self, above: HeapType, below: HeapType) -> u32
        requires first { IsHeapOf self.now.types above }
        requires second { IsHeapOf self.now.types below }
        requires first_is_no_bottom { IsNoBottom above }
        requires second_is_no_bottom { IsNoBottom below }
        ensures value { result ≡ joins.edges self.now.types above below }
        ensures small { result ≤ 66 }
    {
        self.types.distance(above, below).unwrap_or(0)
    }

    /// The type of a function, by its least index.
    pub(crate) fn type_of_func(&self, func: u32) -> HeapType
        requires { IsFunc self.now func }
        ensures value { result ≡ contents.type_of_func self.now func }
        ensures cone { IsCone self.now result 0 }
    {
        let types = self.funcs.as_slice();
        self.least_index(HeapType::Idx(types[func as usize]))
    }

    /// A core that holds every reference that a global can have.
    pub(crate) fn bound(&self, global: u32) -> Core
        requires { global < length self.now.globals }
        ensures { result ≡ contents.bound self.now global }
    {
        let globals = self.globals.as_slice();
        let fact = globals[global as usize];
        fact.bound
    }

    /// The cone that stands for a core where it meets another, or `Core::Bottom`.
    pub fn cone_of(&self, core: Core) -> Core
        requires { CoreBelongs self.now core }
        ensures value { result ≡ contents.cone_of self.now core }
        ensures belongs { CoreBelongs self.now result }
    {
        match core {
            Core::Bottom => core,
            Core::Func(func) => Core::Cone(self.type_of_func(func), 0),
            Core::Global(global) => self.bound(global),
            Core::Cone(_, _) => core,
        }
    }
}
