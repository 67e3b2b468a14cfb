//! Contents as numbers of 64 bits.
ghost use Rattle.std.specs.Prelude.{◌≡◌, ◌<◌, ◌+◌, ◌*◌, ◌^◌, ◌≤◌, slice_index_or};
ghost use Rattle.gu_contents.specs.Belongs.{IsListed, IsShallow, IsShallowCore};
ghost use Rattle.gu_contents.specs.Codes as codes;
ghost use Rattle.gu_types.specs.declared.types.Abs.TheVariants as A;
ghost use Rattle.gu_contents.specs.declared.content.Content.TheVariants as C;

use crate::content::{Content, Core};
use crate::longs::Longs;
use gu_rec::abs_number;
use gu_types::{Abs, HeapType};

/// A tag with 32 bits above it.
fn tagged(tag: u64, rest: u32) -> u64
    requires { tag < 16 }
    ensures value { result ≡ codes.tagged tag rest }
    ensures fits { rest < 2 ^ 32 }
{
    tag + 16 * u64::from(rest)
}

/// A number for each heap type: the abstract ones come first.
fn heap_number(heap: HeapType) -> u64
    ensures value { result ≡ codes.heap_number heap }
    ensures words { codes.HeapHasWords heap }
    ensures small { result < 2 ^ 33 }
{
    match heap {
        HeapType::Abs(kind) => u64::from(abs_number(kind)),
        HeapType::Idx(i) => {
            let index = tagged(0, i);
            12 + index / 16
        }
    }
}

/// The code of a core, with 1 for null among the references and 0 without it.
fn core_code(null: u64, core: Core) -> u64
    requires bit { null ≤ 1 }
    requires shallow { IsShallowCore core }
    ensures value { result ≡ codes.core_code null core }
    ensures words { codes.CoreHasWords core }
{
    match core {
        Core::Bottom => 6 + null,
        Core::Func(func) => tagged(8 + null, func),
        Core::Global(global) => tagged(10 + null, global),
        Core::Cone(head, depth) => {
            let number = heap_number(head);
            12 + null + 16 * (u64::from(depth) + 128 * number)
        }
    }
}

/// The code of a content, and that its numbers are of 32 bits.
#[tactic(auto, unfolding(crate::specs::Codes::code))]
fn coded(l: &Longs, a: Content) -> u64
    requires { IsShallow a }
    ensures value { result ≡ codes.code l.now a }
    ensures words { codes.HasWords a }
{
    match a {
        Content::Empty => 0,
        Content::Many => 1,
        Content::Top => 2,
        Content::I32(v) => tagged(3, v),
        Content::I64(v) => tagged(4, l.place(v)),
        Content::NumGlobal(global) => tagged(5, global),
        Content::Ref(null, core) => {
            let bit = if null { 1 } else { 0 };
            core_code(bit, core)
        }
    }
}

/// The code of a content: `content_of` gives the content back, so different contents have
/// different codes. The code of `Empty` is 0. A 64-bit literal is one of the list, and no cone is
/// deeper than 66. It takes constant time.
pub fn code_of(l: &Longs, a: Content) -> u64
    requires listed { IsListed l.now a }
    requires shallow { IsShallow a }
    ensures value { result ≡ codes.code l.now a }
    ensures back { codes.content l.now result ≡ a }
    ensures nothing { a ≡ C.Empty → result ≡ 0 }
{
    coded(l, a)
}

/// The low 32 bits of a number.
fn word(rest: u64) -> u32
    ensures { result ≡ codes.word rest }
{
    (rest % 4_294_967_296) as u32
}

/// The abstract heap type with a number.
fn kind_at(number: u64) -> Abs
    ensures { result ≡ slice_index_or codes.kinds number A.Any }
{
    match number {
        0 => Abs::Any,
        1 => Abs::Eq,
        2 => Abs::I31,
        3 => Abs::AnyStruct,
        4 => Abs::AnyArray,
        5 => Abs::Bot,
        6 => Abs::AnyFunc,
        7 => Abs::NoFunc,
        8 => Abs::Extern,
        9 => Abs::NoExtern,
        10 => Abs::Exn,
        11 => Abs::NoExn,
        _ => Abs::Any,
    }
}

/// The heap type with a number.
fn heap_at(number: u64) -> HeapType
    ensures { result ≡ codes.heap_at number }
{
    if number < 12 {
        HeapType::Abs(kind_at(number))
    } else {
        HeapType::Idx(word(number - 12))
    }
}

/// The cone that stands above a tag.
fn cone_at(rest: u64) -> Core
    ensures { result ≡ codes.cone_at rest }
{
    Core::Cone(heap_at(rest / 128), (rest % 128) as u32)
}

/// What a tag and what stands above it code.
fn content_at(l: &Longs, tag: u64, rest: u64) -> Content
    ensures { result ≡ codes.content_at l.now tag rest }
{
    match tag {
        0 => Content::Empty,
        1 => Content::Many,
        2 => Content::Top,
        3 => Content::I32(word(rest)),
        4 => Content::I64(l.at(rest as usize)),
        5 => Content::NumGlobal(word(rest)),
        6 => Content::Ref(false, Core::Bottom),
        7 => Content::Ref(true, Core::Bottom),
        8 => Content::Ref(false, Core::Func(word(rest))),
        9 => Content::Ref(true, Core::Func(word(rest))),
        10 => Content::Ref(false, Core::Global(word(rest))),
        11 => Content::Ref(true, Core::Global(word(rest))),
        12 => Content::Ref(false, cone_at(rest)),
        13 => Content::Ref(true, cone_at(rest)),
        _ => Content::Empty,
    }
}

/// The content with a code. What it gives for a number that is no code means nothing. It takes
/// constant time.
#[tactic(auto, unfolding(crate::specs::Codes::content))]
pub fn content_of(l: &Longs, w: u64) -> Content
    ensures { result ≡ codes.content l.now w }
{
    content_at(l, w % 16, w / 16)
}
