//! Whether a content is at most another.
ghost use Rattle.std.specs.Prelude.{◌≡◌, ◌≤◌, IsTrue, ◌↔◌};
ghost use Rattle.gu_contents.specs.Belongs.{Belongs, CoreBelongs, IsCone};
ghost use Rattle.gu_contents.specs.Order as order;
ghost use Rattle.gu_contents.specs.Order.{AtMost};
ghost use Rattle.gu_contents.specs.declared.content.Core.TheVariants as K;

use crate::content::{Content, Core};
use crate::facts::Facts;
use gu_types::HeapType;

/// Whether a cone is at most a core.
fn cone_le(f: &Facts, head: HeapType, depth: u32, above: Core) -> bool
    requires first { IsCone f.now head depth }
    requires second { CoreBelongs f.now above }
    ensures { result ≡ order.cone_at_most f.now (K.Cone head depth) above }
{
    match above {
        Core::Cone(other, deep) => match f.types.distance(other, head) {
            None => false,
            Some(edges) => edges + depth <= deep,
        },
        _ => false,
    }
}

/// Whether the bound of a global is at most a core.
fn bound_le(f: &Facts, bound: Core, above: Core) -> bool
    requires first { CoreBelongs f.now bound }
    requires second { CoreBelongs f.now above }
    ensures { result ≡ order.cone_at_most f.now bound above }
{
    match bound {
        Core::Bottom => true,
        Core::Cone(head, depth) => cone_le(f, head, depth, above),
        _ => false,
    }
}

/// Whether a core is at most another.
fn core_le(f: &Facts, core: Core, above: Core) -> bool
    requires first { CoreBelongs f.now core }
    requires second { CoreBelongs f.now above }
    ensures { result ≡ order.core_at_most f.now core above }
{
    match core {
        Core::Bottom => true,
        Core::Cone(head, depth) => cone_le(f, head, depth, above),
        Core::Func(func) => match above {
            Core::Func(other) => func == other,
            _ => cone_le(f, f.type_of_func(func), 0, above),
        },
        Core::Global(global) => match above {
            Core::Global(other) => global == other,
            _ => bound_le(f, f.bound(global), above),
        },
    }
}

/// Whether the first content is at most the second: what the first says of values, the second
/// allows. At most 63 declared supertypes are passed.
#[tactic(auto, unfolding(crate::specs::Order::at_most))]
pub fn le(f: &Facts, a: Content, b: Content) -> bool
    requires first { Belongs f.now a }
    requires second { Belongs f.now b }
    ensures value { result ≡ order.at_most f.now a b }
    ensures means { IsTrue result ↔ AtMost f.now a b }
{
    match a {
        Content::Empty => true,
        Content::Top => match b {
            Content::Top => true,
            _ => false,
        },
        Content::I32(v) => match b {
            Content::I32(w) => v == w,
            Content::Many => true,
            Content::Top => true,
            _ => false,
        },
        Content::I64(v) => match b {
            Content::I64(w) => v == w,
            Content::Many => true,
            Content::Top => true,
            _ => false,
        },
        Content::NumGlobal(g) => match b {
            Content::NumGlobal(h) => g == h,
            Content::Many => true,
            Content::Top => true,
            _ => false,
        },
        Content::Many => match b {
            Content::Many => true,
            Content::Top => true,
            _ => false,
        },
        Content::Ref(null, core) => match b {
            Content::Ref(other, above) => (!null || other) && core_le(f, core, above),
            Content::Top => true,
            _ => false,
        },
    }
}
