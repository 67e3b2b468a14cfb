//! What becomes of contents without looking at the facts of a module.
ghost use Rattle.std.specs.Prelude.{◌≡◌, ◌≤◌};
ghost use Rattle.gu_contents.specs.Belongs.{IsShallow, IsShallowCore};
ghost use Rattle.gu_contents.specs.Meets as meets;
ghost use Rattle.gu_contents.specs.Numbers as packed;
ghost use Rattle.gu_contents.specs.Rank as ranks;

use crate::content::{Content, Core};
use gu_types::Storage;

/// The content of a field or an element that is stored as `s` where a value with the content is
/// stored there: its low bits, where it is packed (core specification 3.0, 4.2 Runtime
/// Structure, packed fields).
#[tactic(auto, unfolding(crate::specs::Numbers::pack))]
pub fn pack(s: Storage, a: Content) -> Content
    ensures { result ≡ packed.pack s a }
{
    match s {
        Storage::Val(_) => a,
        Storage::I8 => match a {
            Content::I32(v) => Content::I32(v % 256),
            Content::NumGlobal(_) => Content::Many,
            _ => a,
        },
        Storage::I16 => match a {
            Content::I32(v) => Content::I32(v % 65536),
            Content::NumGlobal(_) => Content::Many,
            _ => a,
        },
    }
}

/// A number of 8 bits as an i32 with the same value, the highest bit its sign.
fn extend_byte(v: u32) -> u32
    ensures { result ≡ packed.signed 7 (packed.low 8 v) }
{
    let low = v % 256;
    if low < 128 { low } else { low + 0xFFFF_FF00 }
}

/// A number of 16 bits as an i32 with the same value, the highest bit its sign.
fn extend_half(v: u32) -> u32
    ensures { result ≡ packed.signed 15 (packed.low 16 v) }
{
    let low = v % 65536;
    if low < 32768 { low } else { low + 0xFFFF_0000 }
}

/// The content of a value that is read from a field or an element that is stored as `s`, by
/// sign-extension where it is `signed`, else by zero-extension (core specification 3.0, 4.2
/// Runtime Structure, packed fields).
#[tactic(auto, unfolding(crate::specs::Numbers::extend))]
pub fn extend(s: Storage, signed: bool, a: Content) -> Content
    ensures { result ≡ packed.extend s signed a }
{
    match a {
        Content::I32(v) => match s {
            Storage::Val(_) => a,
            Storage::I8 => {
                if signed {
                    Content::I32(extend_byte(v))
                } else {
                    Content::I32(v % 256)
                }
            }
            Storage::I16 => {
                if signed {
                    Content::I32(extend_half(v))
                } else {
                    Content::I32(v % 65536)
                }
            }
        },
        _ => a,
    }
}

/// What `ref.is_null` answers of a value with the content: `Empty` where there is none, and
/// `Many` where it may be both.
#[tactic(auto, unfolding(crate::specs::Meets::is_null))]
pub fn is_null(a: Content) -> Content
    ensures { result ≡ meets.is_null a }
{
    match a {
        Content::Empty => Content::Empty,
        Content::Ref(true, Core::Bottom) => Content::I32(1),
        Content::Ref(true, _) => Content::Many,
        Content::Top => Content::Many,
        _ => Content::I32(0),
    }
}

/// How high a core stands.
fn core_rank(core: Core) -> u32
    requires { IsShallowCore core }
    ensures value { result ≡ ranks.core_rank core }
    ensures small { result ≤ 68 }
{
    match core {
        Core::Bottom => 0,
        Core::Func(_) => 1,
        Core::Global(_) => 1,
        Core::Cone(_, depth) => 2 + depth,
    }
}

/// How high the content stands: each greater one stands higher. It is 70 at most.
#[tactic(auto, unfolding(crate::specs::Rank::rank))]
pub fn rank(a: Content) -> u32
    requires { IsShallow a }
    ensures value { result ≡ ranks.rank a }
    ensures small { result ≤ 70 }
{
    match a {
        Content::Empty => 0,
        Content::I32(_) => 1,
        Content::I64(_) => 1,
        Content::NumGlobal(_) => 1,
        Content::Many => 2,
        Content::Ref(null, core) => {
            let rest = core_rank(core);
            if null { 1 + rest } else { rest }
        }
        Content::Top => 70,
    }
}
