//! The trees of abstract heap types (core specification 3.0, 2.3 Types, heap types).
ghost use Rattle.std.specs.Prelude.{◌≡◌};
ghost use Rattle.gu_rec.specs.Tests as tests;
ghost use Rattle.gu_rec.specs.Tests.{eq_abs};
ghost use Rattle.gu_rec.specs.Sub.{abs_line, top_over};
ghost use Rattle.gu_rec.specs.Table.{place};
ghost use Rattle.gu_rec.specs.Table as table;
ghost use Rattle.gu_rec.specs.Heights as heights;

use gu_types::{Abs, HeapType};

/// A number below 12 for each abstract heap type, to tell them apart.
pub fn abs_number(kind: Abs) -> u8
    ensures { result ≡ tests.abs_number kind }
{
    match kind {
        Abs::Any => 0,
        Abs::Eq => 1,
        Abs::I31 => 2,
        Abs::AnyStruct => 3,
        Abs::AnyArray => 4,
        Abs::Bot => 5,
        Abs::AnyFunc => 6,
        Abs::NoFunc => 7,
        Abs::Extern => 8,
        Abs::NoExtern => 9,
        Abs::Exn => 10,
        Abs::NoExn => 11,
    }
}

/// Whether two abstract heap types are the same.
pub(crate) fn same_abs(a: Abs, b: Abs) -> bool
    ensures { result ≡ eq_abs a b }
{
    abs_number(a) == abs_number(b)
}

/// How many edges lead from the first abstract heap type down to the second, in its tree without
/// the bottom. None where it does not stand above.
pub(crate) fn abs_distance(above: Abs, below: Abs) -> Option<u32>
    ensures { result ≡ place (eq_abs above) (abs_line below) }
{
    if same_abs(above, below) {
        return Some(0);
    }
    match below {
        Abs::Eq => {
            if same_abs(above, Abs::Any) {
                return Some(1);
            }
            None
        }
        Abs::I31 | Abs::AnyStruct | Abs::AnyArray => {
            if same_abs(above, Abs::Eq) {
                return Some(1);
            }
            if same_abs(above, Abs::Any) {
                return Some(2);
            }
            None
        }
        _ => None,
    }
}

/// The top of the tree that has a heap type as its bottom, if any has.
pub(crate) fn top_of(heap: HeapType) -> Option<Abs>
    ensures { result ≡ top_over heap }
{
    match heap {
        HeapType::Abs(Abs::Bot) => Some(Abs::Any),
        HeapType::Abs(Abs::NoFunc) => Some(Abs::AnyFunc),
        HeapType::Abs(Abs::NoExtern) => Some(Abs::Extern),
        HeapType::Abs(Abs::NoExn) => Some(Abs::Exn),
        _ => None,
    }
}

/// The abstract heap type directly above another in its tree, bottoms left out.
pub(crate) fn above_abs(kind: Abs) -> Option<Abs>
    ensures { result ≡ table.above_abs kind }
{
    match kind {
        Abs::Eq => Some(Abs::Any),
        Abs::I31 | Abs::AnyStruct | Abs::AnyArray => Some(Abs::Eq),
        _ => None,
    }
}

/// How many edges lead from a heap type down to the lowest of the abstract ones in its tree
/// without the bottom.
pub(crate) fn abs_height(heap: HeapType) -> u32
    ensures { result ≡ heights.abs_height heap }
{
    match heap {
        HeapType::Abs(Abs::Any) => 2,
        HeapType::Abs(Abs::Eq) => 1,
        _ => 0,
    }
}
