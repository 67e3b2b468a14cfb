//! What is left of contents where values are cast, tested or compared, and all values of a type.
ghost use Rattle.std.specs.Prelude.{◌≡◌};
ghost use Rattle.gu_rec.specs.Sub.{IsHeapOf, IsValOf, IsNoBottom, top_over};
ghost use Rattle.gu_contents.specs.Belongs.{Belongs, CoreBelongs, IsCone};
ghost use Rattle.gu_contents.specs.Meets as meets;
ghost use Rattle.gu_contents.specs.Order as order;
ghost use Rattle.gu_contents.specs.Whole as whole;
ghost use Rattle.gu_contents.specs.declared.content.Core.TheVariants as K;
ghost use Rattle.gu_contents.specs.declared.content.Content.TheVariants as C;

use crate::content::{Content, Core};
use crate::facts::Facts;
use crate::same::{is_bottom, refs, same_content, same_core};
use gu_types::{HeapType, RefType, ValType};

/// All references to a heap type that are not null.
fn whole_cone(f: &Facts, heap: HeapType) -> Core
    requires { IsHeapOf f.now.types heap }
    ensures { result ≡ whole.whole f.now heap }
{
    if is_bottom(heap) {
        Core::Bottom
    } else {
        Core::Cone(f.least_index(heap), f.types.height(heap))
    }
}

/// All values of a type: `Many` for numbers.
#[tactic(auto, unfolding(crate::specs::Whole::all))]
pub fn all(f: &Facts, t: ValType) -> Content
    requires { IsValOf f.now.types t }
    ensures { result ≡ whole.all f.now t }
{
    match t {
        ValType::I32 => Content::Many,
        ValType::I64 => Content::Many,
        ValType::Ref(ty) => refs(ty.null, whole_cone(f, ty.heap)),
    }
}

/// What of a cone is at or below a heap type that is no bottom.
fn meet_cone(f: &Facts, head: HeapType, depth: u32, to: HeapType) -> Core
    requires cone { IsCone f.now head depth }
    requires heap { IsHeapOf f.now.types to }
    requires no_bottom { IsNoBottom to }
    ensures { result ≡ meets.meet_cone f.now.types (K.Cone head depth) to }
{
    if f.types.distance(to, head).is_some() {
        return Core::Cone(head, depth);
    }
    match f.types.distance(head, to) {
        None => Core::Bottom,
        Some(edges) => {
            if edges <= depth {
                let left = depth - edges;
                Core::Cone(f.least_index(to), left.min(f.types.height(to)))
            } else {
                Core::Bottom
            }
        }
    }
}

/// Whether a cone lies in the whole cone of a heap type that is no bottom.
fn is_within(f: &Facts, head: HeapType, depth: u32, to: HeapType) -> bool
    requires cone { IsCone f.now head depth }
    requires heap { IsHeapOf f.now.types to }
    requires no_bottom { IsNoBottom to }
    ensures { result ≡ order.cone_at_most f.now (K.Cone head depth) (whole.whole f.now to) }
{
    match f.types.distance(to, head) {
        None => false,
        Some(edges) => edges + depth <= f.types.height(to),
    }
}

/// What of a global is at or below a heap type that is no bottom.
fn meet_global(f: &Facts, global: u32, to: HeapType) -> Core
    requires global { CoreBelongs f.now (K.Global global) }
    requires heap { IsHeapOf f.now.types to }
    requires no_bottom { IsNoBottom to }
    ensures { result ≡ meets.meet_heap f.now (K.Global global) to }
{
    match f.bound(global) {
        Core::Cone(head, depth) => {
            if is_within(f, head, depth, to) {
                Core::Global(global)
            } else {
                meet_cone(f, head, depth, to)
            }
        }
        _ => Core::Bottom,
    }
}

/// What of a core is at or below a heap type that is no bottom.
fn meet_heap(f: &Facts, core: Core, to: HeapType) -> Core
    requires core { CoreBelongs f.now core }
    requires heap { IsHeapOf f.now.types to }
    requires no_bottom { IsNoBottom to }
    ensures { result ≡ meets.meet_heap f.now core to }
{
    match core {
        Core::Bottom => Core::Bottom,
        Core::Func(func) => {
            if f.types.distance(to, f.type_of_func(func)).is_some() {
                core
            } else {
                Core::Bottom
            }
        }
        Core::Global(global) => meet_global(f, global, to),
        Core::Cone(head, depth) => meet_cone(f, head, depth, to),
    }
}

/// What of a core is at or below a heap type.
#[tactic(auto, unfolding(crate::specs::Meets::meet))]
fn meet(f: &Facts, core: Core, to: HeapType) -> Core
    requires core { CoreBelongs f.now core }
    requires heap { IsHeapOf f.now.types to }
    ensures { result ≡ meets.meet f.now core to }
{
    if is_bottom(to) {
        Core::Bottom
    } else {
        meet_heap(f, core, to)
    }
}

/// What a cast to the reference type `to` lets through of values with the content (core
/// specification 3.0, 4.6 Instructions, `ref.cast`). `Empty` where it is nothing.
#[tactic(auto, unfolding(crate::specs::Meets::filter))]
pub fn filter(f: &Facts, a: Content, to: RefType) -> Content
    requires content { Belongs f.now a }
    requires heap { IsHeapOf f.now.types to.heap }
    ensures { result ≡ meets.filter f.now a to }
{
    match a {
        Content::Top => all(f, ValType::Ref(to)),
        Content::Ref(null, core) => refs(null && to.null, meet(f, core, to.heap)),
        _ => Content::Empty,
    }
}

/// What a cast to the reference type `by` does not let through of values with the content: null
/// goes where `by` has it, and all other references where they are all of its heap type.
#[tactic(auto, unfolding(crate::specs::Meets::minus))]
pub fn minus(f: &Facts, a: Content, by: RefType) -> Content
    requires content { Belongs f.now a }
    requires heap { IsHeapOf f.now.types by.heap }
    ensures { result ≡ meets.minus f.now a by }
{
    match a {
        Content::Ref(null, core) => {
            let rest = if same_core(meet(f, core, by.heap), core) {
                Core::Bottom
            } else {
                core
            };
            refs(null && !by.null, rest)
        }
        _ => a,
    }
}

/// What `ref.test` answers, where so much of the content is let through: 0 where nothing is, then
/// 1 where all is.
fn test_of(a: Content, through: Content) -> Content
    ensures { result ≡ meets.test_of a through }
{
    if same_content(through, Content::Empty) {
        Content::I32(0)
    } else if same_content(through, a) {
        Content::I32(1)
    } else {
        Content::Many
    }
}

/// What `ref.test` to the reference type `to` answers of values with the content (core
/// specification 3.0, 4.6 Instructions, `ref.test`). `Many` where it may be both.
#[tactic(auto, unfolding(crate::specs::Meets::test))]
pub fn test(f: &Facts, a: Content, to: RefType) -> Content
    requires content { Belongs f.now a }
    requires heap { IsHeapOf f.now.types to.heap }
    ensures { result ≡ meets.test f.now a to }
{
    match a {
        Content::Empty => a,
        _ => test_of(a, filter(f, a, to)),
    }
}

/// Whether no reference is in two cones.
fn cones_apart(f: &Facts, a: HeapType, d: u32, b: HeapType, e: u32) -> bool
    requires first { IsCone f.now a d }
    requires second { IsCone f.now b e }
    ensures { result ≡ meets.cones_apart f.now.types (K.Cone a d) (K.Cone b e) }
{
    match f.types.distance(a, b) {
        Some(edges) => d < edges,
        None => match f.types.distance(b, a) {
            Some(edges) => e < edges,
            None => true,
        },
    }
}

/// Whether no reference is in two cones or bottoms.
fn bounds_apart(f: &Facts, one: Core, other: Core) -> bool
    requires first { CoreBelongs f.now one }
    requires second { CoreBelongs f.now other }
    ensures { result ≡ meets.cones_apart f.now.types one other }
{
    match one {
        Core::Cone(a, d) => match other {
            Core::Cone(b, e) => cones_apart(f, a, d, b, e),
            _ => true,
        },
        _ => true,
    }
}

/// What `ref.eq` answers, where the references are not the same for sure.
fn equal_refs(f: &Facts, null: bool, one: Core, other_null: bool, other: Core) -> Content
    requires first { CoreBelongs f.now one }
    requires second { CoreBelongs f.now other }
    ensures { result ≡ meets.equal_refs f.now null one other_null other }
{
    if !(null && other_null) && bounds_apart(f, f.cone_of(one), f.cone_of(other)) {
        Content::I32(0)
    } else {
        Content::Many
    }
}

/// What `ref.eq` answers of references.
fn equal_cores(f: &Facts, null: bool, one: Core, other_null: bool, other: Core) -> Content
    requires first { CoreBelongs f.now one }
    requires second { CoreBelongs f.now other }
    ensures { result ≡ meets.equal_cores f.now null one other_null other }
{
    match one {
        Core::Bottom => match other {
            Core::Bottom => {
                if null && other_null {
                    Content::I32(1)
                } else {
                    equal_refs(f, null, one, other_null, other)
                }
            }
            _ => equal_refs(f, null, one, other_null, other),
        },
        Core::Global(global) => match other {
            Core::Global(second) => {
                if !null && !other_null && global == second {
                    Content::I32(1)
                } else {
                    equal_refs(f, null, one, other_null, other)
                }
            }
            _ => equal_refs(f, null, one, other_null, other),
        },
        _ => equal_refs(f, null, one, other_null, other),
    }
}

/// What `ref.eq` answers of values with the contents (core specification 3.0, 4.6
/// Instructions, `ref.eq`): `Empty` where one has none, and `Many` where it may be both.
#[tactic(auto, unfolding(crate::specs::Meets::equal))]
pub fn equal(f: &Facts, a: Content, b: Content) -> Content
    requires first { Belongs f.now a }
    requires second { Belongs f.now b }
    ensures { result ≡ meets.equal f.now a b }
{
    match a {
        Content::Empty => Content::Empty,
        Content::Ref(null, one) => match b {
            Content::Empty => Content::Empty,
            Content::Ref(other_null, other) => equal_cores(f, null, one, other_null, other),
            _ => Content::Many,
        },
        _ => match b {
            Content::Empty => Content::Empty,
            _ => Content::Many,
        },
    }
}
