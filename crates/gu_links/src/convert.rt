//! What conversions make of contents.
ghost use Rattle.std.specs.Prelude.{◌≡◌};
ghost use Rattle.gu_links.specs.Gives as g;

use gu_contents::{Content, Core, Facts, all};
use gu_types::{Abs, HeapType, RefType, ValType};

/// A content without null.
#[tactic(auto, unfolding(crate::specs::Gives::non_null))]
pub(crate) fn non_null(a: Content) -> Content
    ensures { result ≡ g.non_null a }
{
    match a {
        Content::Ref(_, Core::Bottom) => Content::Empty,
        Content::Ref(_, core) => Content::Ref(false, core),
        _ => a,
    }
}

/// What a conversion between internal and external references makes of a content, of which all
/// but null becomes a core.
fn converted(core: Core, a: Content) -> Content
    ensures { result ≡ g.converted core a }
{
    match a {
        Content::Empty => Content::Empty,
        Content::Ref(true, Core::Bottom) => a,
        Content::Ref(null, _) => Content::Ref(null, core),
        Content::Top => Content::Ref(true, core),
        _ => Content::Ref(false, core),
    }
}

/// What becomes of external references that are made internal.
#[tactic(auto, unfolding(crate::specs::Gives::internalised, gu_contents::specs::Whole::all))]
pub(crate) fn internalised(f: &Facts, a: Content) -> Content
    ensures { result ≡ g.internalised f.now a }
{
    let any = RefType {
        null: false,
        heap: HeapType::Abs(Abs::Any),
    };
    match all(f, ValType::Ref(any)) {
        Content::Ref(_, core) => converted(core, a),
        _ => converted(Core::Bottom, a),
    }
}

/// What becomes of internal references that are made external.
#[tactic(auto, unfolding(crate::specs::Gives::externalised))]
pub(crate) fn externalised(a: Content) -> Content
    ensures { result ≡ g.externalised a }
{
    converted(Core::Cone(HeapType::Abs(Abs::Extern), 0), a)
}
