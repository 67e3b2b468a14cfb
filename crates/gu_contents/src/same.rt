//! Whether two contents are the same, and references that are none.
ghost use Rattle.std.specs.Prelude.{◌≡◌, is_some};
ghost use Rattle.gu_rec.specs.Sub.{top_over};
ghost use Rattle.gu_rec.specs.Tests as tests;
ghost use Rattle.gu_contents.specs.Contents as contents;

use crate::content::{Content, Core};
use gu_rec::abs_number;
use gu_types::{Abs, HeapType};

/// Whether a heap type is the bottom of a tree.
pub(crate) fn is_bottom(heap: HeapType) -> bool
    ensures { result ≡ is_some (top_over heap) }
{
    match heap {
        HeapType::Abs(Abs::Bot) => true,
        HeapType::Abs(Abs::NoFunc) => true,
        HeapType::Abs(Abs::NoExtern) => true,
        HeapType::Abs(Abs::NoExn) => true,
        _ => false,
    }
}

/// Whether two heap types are written alike.
fn same_heap(a: HeapType, b: HeapType) -> bool
    ensures { result ≡ tests.eq_heap a b }
{
    match a {
        HeapType::Abs(kind) => match b {
            HeapType::Abs(other) => abs_number(kind) == abs_number(other),
            HeapType::Idx(_) => false,
        },
        HeapType::Idx(i) => match b {
            HeapType::Abs(_) => false,
            HeapType::Idx(j) => i == j,
        },
    }
}

/// Whether two cores are the same.
pub(crate) fn same_core(a: Core, b: Core) -> bool
    ensures { result ≡ contents.eq_core a b }
{
    match a {
        Core::Bottom => match b {
            Core::Bottom => true,
            _ => false,
        },
        Core::Func(one) => match b {
            Core::Func(other) => one == other,
            _ => false,
        },
        Core::Global(one) => match b {
            Core::Global(other) => one == other,
            _ => false,
        },
        Core::Cone(head, depth) => match b {
            Core::Cone(other, deep) => same_heap(head, other) && depth == deep,
            _ => false,
        },
    }
}

/// Whether two contents are the same.
pub(crate) fn same_content(a: Content, b: Content) -> bool
    ensures { result ≡ contents.eq_content a b }
{
    match a {
        Content::Empty => match b {
            Content::Empty => true,
            _ => false,
        },
        Content::I32(one) => match b {
            Content::I32(other) => one == other,
            _ => false,
        },
        Content::I64(one) => match b {
            Content::I64(other) => one == other,
            _ => false,
        },
        Content::NumGlobal(one) => match b {
            Content::NumGlobal(other) => one == other,
            _ => false,
        },
        Content::Many => match b {
            Content::Many => true,
            _ => false,
        },
        Content::Ref(null, core) => match b {
            Content::Ref(other, second) => null == other && same_core(core, second),
            _ => false,
        },
        Content::Top => match b {
            Content::Top => true,
            _ => false,
        },
    }
}

/// References, null among them or not: `Empty` where there are none.
pub(crate) fn refs(null: bool, core: Core) -> Content
    ensures { result ≡ contents.refs null core }
{
    match core {
        Core::Bottom => {
            if null {
                Content::Ref(true, Core::Bottom)
            } else {
                Content::Empty
            }
        }
        _ => Content::Ref(null, core),
    }
}
