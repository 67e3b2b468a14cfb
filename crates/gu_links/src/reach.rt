//! The types that a content leads to below a type.
ghost use Rattle.std.specs.Prelude.{◌≡◌, ◌<◌, Some, length, IfSome};
ghost use Rattle.gu_types.specs.Depth.{types_of};
ghost use Rattle.gu_contents.specs.Belongs.{Belongs, CoreBelongs};
ghost use Rattle.gu_contents.specs.Contents as contents;
ghost use Rattle.gu_contents.specs.Meets as meets;
ghost use Rattle.gu_links.specs.Over.{ref_to};
ghost use Rattle.gu_links.specs.Index as index;
ghost use Rattle.gu_links.specs.Kept as kept;

use gu_contents::{Content, Core, Facts, filter};
use gu_types::{HeapType, RefType};

/// The types at or below a head by at most so many edges. The head is the least index of its type.
#[derive(Clone, Copy, Debug)]
pub(crate) struct Reach {
    pub(crate) head: u32,
    pub(crate) depth: u32,
}

impl Reach {
    /// Whether the type with an index is at or below the head, by no more edges than the depth.
    /// At most 63 declared supertypes are passed.
    pub(crate) fn covers(self, f: &Facts, ty: u32) -> bool
        requires head { self.head < length (types_of f.now.types) }
        requires ty { ty < length (types_of f.now.types) }
        ensures { result ≡ kept.in_reach f.now (Some self) ty }
    {
        match f
            .types
            .distance(HeapType::Idx(self.head), HeapType::Idx(ty))
        {
            None => false,
            Some(edges) => edges <= self.depth,
        }
    }
}

/// The cone that stands for references, if it is one of types.
fn cone_reach(f: &Facts, core: Core) -> Option<Reach>
    requires { CoreBelongs f.now core }
    ensures value { result ≡ kept.reach_in (contents.cone_of f.now core) }
    ensures head { IfSome result (index.IsHead f.now) }
{
    match f.cone_of(core) {
        Core::Cone(HeapType::Idx(head), depth) => Some(Reach { head, depth }),
        _ => None,
    }
}

/// The types at or below a type that a content covers where it is filtered to references to that
/// type. None where there are none.
pub(crate) fn reach_of(f: &Facts, a: Content, ty: u32) -> Option<Reach>
    requires content { Belongs f.now a }
    requires ty { ty < length (types_of f.now.types) }
    ensures value { result ≡ kept.reach_within f.now (meets.filter f.now a (ref_to ty)) }
    ensures head { IfSome result (index.IsHead f.now) }
{
    let to = RefType {
        null: false,
        heap: HeapType::Idx(ty),
    };
    match filter(f, a, to) {
        Content::Ref(_, core) => cone_reach(f, core),
        _ => None,
    }
}

/// The functions that a content covers where it is filtered to references to a type: one alone, or
/// those of the types that it reaches.
#[derive(Clone, Copy, Debug)]
pub(crate) enum Callees {
    /// There are none.
    Nobody,
    /// One function.
    One(u32),
    /// The functions of the types of a reach.
    Under(Reach),
}

/// The functions at or below a type that a content covers where it is filtered to references to
/// that type.
pub(crate) fn callees_of(f: &Facts, a: Content, ty: u32) -> Callees
    requires content { Belongs f.now a }
    requires ty { ty < length (types_of f.now.types) }
    ensures value { result ≡ kept.callees_within f.now (meets.filter f.now a (ref_to ty)) }
    ensures range { index.AreCallees f.now result }
{
    let to = RefType {
        null: false,
        heap: HeapType::Idx(ty),
    };
    match filter(f, a, to) {
        Content::Ref(_, Core::Func(function)) => Callees::One(function),
        Content::Ref(_, core) => match cone_reach(f, core) {
            None => Callees::Nobody,
            Some(reach) => Callees::Under(reach),
        },
        _ => Callees::Nobody,
    }
}
