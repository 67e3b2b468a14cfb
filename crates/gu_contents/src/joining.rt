//! The least content that is at least two others.
ghost use Rattle.std.specs.Prelude.{◌≡◌};
ghost use Rattle.gu_rec.specs.Sub.{IsHeapOf};
ghost use Rattle.gu_contents.specs.Belongs.{Belongs, CoreBelongs, IsCone, Occurs};
ghost use Rattle.gu_contents.specs.Join as joins;
ghost use Rattle.gu_contents.specs.declared.content.Core.TheVariants as K;
ghost use Rattle.gu_contents.specs.declared.content.Content.TheVariants as C;

use crate::content::{Content, Core};
use crate::facts::Facts;
use crate::same::{same_content, same_core};
use gu_types::HeapType;

/// The least cone that is at least two cones, if their heads have a common supertype.
fn join_cones(f: &Facts, a: HeapType, d: u32, b: HeapType, e: u32) -> Option<Core>
    requires first { IsCone f.now a d }
    requires second { IsCone f.now b e }
    ensures { result ≡ joins.join_cones f.now (K.Cone a d) (K.Cone b e) }
{
    let head = f.common(a, b)?;
    let first = f.edges(head, a) + d;
    let second = f.edges(head, b) + e;
    Some(Core::Cone(head, first.max(second)))
}

/// The least core that is at least two cones or bottoms, if any is.
fn join_bounds(f: &Facts, one: Core, other: Core) -> Option<Core>
    requires first { CoreBelongs f.now one }
    requires second { CoreBelongs f.now other }
    ensures { result ≡ joins.join_cones f.now one other }
{
    match one {
        Core::Bottom => Some(other),
        Core::Cone(a, d) => match other {
            Core::Bottom => Some(one),
            Core::Cone(b, e) => join_cones(f, a, d, b, e),
            _ => None,
        },
        _ => match other {
            Core::Bottom => Some(one),
            _ => None,
        },
    }
}

/// The least core that is at least two others, if any is.
fn join_cores(f: &Facts, one: Core, other: Core) -> Option<Core>
    requires first { CoreBelongs f.now one }
    requires second { CoreBelongs f.now other }
    ensures { result ≡ joins.join_cores f.now one other }
{
    match one {
        Core::Bottom => Some(other),
        _ => match other {
            Core::Bottom => Some(one),
            _ => {
                if same_core(one, other) {
                    Some(one)
                } else {
                    join_bounds(f, f.cone_of(one), f.cone_of(other))
                }
            }
        },
    }
}

/// The least content that is at least references and another content.
#[tactic(auto, unfolding(crate::specs::Join::join))]
fn join_refs(f: &Facts, null: bool, core: Core, b: Content) -> Content
    requires first { CoreBelongs f.now core }
    requires second { Belongs f.now b }
    ensures { result ≡ joins.join f.now (C.Ref null core) b }
{
    match b {
        Content::Empty => Content::Ref(null, core),
        Content::Ref(other, second) => match join_cores(f, core, second) {
            None => Content::Top,
            Some(joined) => Content::Ref(null || other, joined),
        },
        _ => Content::Top,
    }
}

/// The least content that is at least two: `Many` for two different ones among literals and
/// numbers of globals, `Top` for a number and references, and for references those that have null
/// where one has it, in the least cone that has both in it. At most 63 declared supertypes are
/// passed, a few times.
#[tactic(auto, unfolding(crate::specs::Join::join))]
pub fn join(f: &Facts, a: Content, b: Content) -> Content
    requires first { Belongs f.now a }
    requires second { Belongs f.now b }
    ensures { result ≡ joins.join f.now a b }
{
    match a {
        Content::Empty => b,
        Content::Ref(null, core) => join_refs(f, null, core, b),
        Content::Top => match b {
            Content::Empty => a,
            _ => Content::Top,
        },
        _ => match b {
            Content::Empty => a,
            Content::Ref(_, _) => Content::Top,
            Content::Top => Content::Top,
            _ => { if same_content(a, b) { a } else { Content::Many } }
        },
    }
}
