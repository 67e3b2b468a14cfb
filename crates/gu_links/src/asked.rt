//! What a link asks for on what is known.
ghost use Rattle.std.specs.Prelude.{ℕ, ◌≡◌, ◌<◌, ◌∷◌, [], All, Contains, IfOk, IfSome, MatchOption, length};
ghost use Rattle.gu_contents.specs.Belongs.{Belongs};
ghost use Rattle.gu_links.specs.Gives.{Contents};
ghost use Rattle.gu_links.specs.Applied as applied;
ghost use Rattle.gu_links.specs.Gives as g;
ghost use Rattle.gu_links.specs.Index.{IsHead, AreCallees};
ghost use Rattle.gu_links.specs.Over.{over, callees};
ghost use Rattle.gu_links.specs.Solutions.{Fits, IsType};
ghost use Rattle.gu_links.specs.Known.{Has, Item, IsKnown, IsEnough, cells_of, link_at};
ghost use Rattle.gu_links.specs.Kept as kept;

use crate::call::call_by;
use crate::convert::{externalised, internalised, non_null};
use crate::known::content_at;
use crate::link::Link;
use crate::reach::{Callees, Reach, callees_of, reach_of};
use crate::slots::{Get, Put, from_slots, into_slots, joined};
use crate::system::System;
use gu_contents::{Content, equal, filter, is_null, minus, pack, test};
use gu_types::List;
use std::alloc::{AllocError, Global};

/// One join.
fn one(alloc: Global, to: usize, a: Content) -> Result<List<(usize, Content)>, AllocError>
    ensures { IfOk result (λ asked. asked ≡ (to, a) ∷ []) }
{
    let mut asked = List::new(alloc);
    asked.push((to, a))?;
    Ok(asked)
}

/// The types that are reached by the references in a cell that is known, at or below a type.
pub(crate) fn reached(
    s: &System<'_>,
    object: usize,
    ty: u32,
    known: &[(usize, Content)],
) -> Option<Reach>
    requires ty { IsType s.now.facts.now ty }
    requires belong { All (λ (k : Item). Belongs s.now.facts.now k.1) known.now }
    requires object { Contains (cells_of known.now) object }
    ensures head { IfSome result (IsHead s.now.facts.now) }
    ensures over { (x : Contents) → Has known.now x → (slot : ℕ) → over s.now.facts.now (x object) ty slot ≡ kept.over_reach s.now.facts.now result slot }
{
    reach_of(s.facts, content_at(known, 0, object), ty)
}

/// The functions that the references in a cell that is known lead to, at or below a type.
pub(crate) fn called(s: &System<'_>, callee: usize, ty: u32, known: &[(usize, Content)]) -> Callees
    requires ty { IsType s.now.facts.now ty }
    requires belong { All (λ (k : Item). Belongs s.now.facts.now k.1) known.now }
    requires callee { Contains (cells_of known.now) callee }
    ensures range { AreCallees s.now.facts.now result }
    ensures callees { (x : Contents) → Has known.now x → callees s.now.facts.now s.now.links (x callee) ty ≡ kept.callable s.now.facts.now s.now.links result }
{
    callees_of(s.facts, content_at(known, 0, callee), ty)
}

/// The join that a link from cells into a cell asks for on what is known. None for those links that
/// go over types or functions, or ask for nothing.
#[tactic(auto, unfolding(crate::specs::Gives::gives))]
fn flow(s: &System<'_>, link: &Link, known: &[(usize, Content)]) -> Option<(usize, Content)>
    requires { applied.IsReady s.now.facts.now s.now.longs s.now.cells s.now.links link.now known.now }
    ensures { MatchOption result (applied.GoesOver link.now) (λ asked. (x : Contents) → Has known.now x → asked ∷ [] ≡ g.gives s.now.facts.now s.now.links link.now x) }
{
    let f = s.facts;
    match link {
        Link::Root { give, to } => Some((*to, *give)),
        Link::Copy { from, to } => Some((*to, content_at(known, 0, *from))),
        Link::NonNull { from, to } => Some((*to, non_null(content_at(known, 0, *from)))),
        Link::Filter { from, by, to } => Some((*to, filter(f, content_at(known, 0, *from), *by))),
        Link::Minus { from, by, to } => Some((*to, minus(f, content_at(known, 0, *from), *by))),
        Link::Test { from, by, to } => Some((*to, test(f, content_at(known, 0, *from), *by))),
        Link::IsNull { from, to } => Some((*to, is_null(content_at(known, 0, *from)))),
        Link::Equal { left, right, to } => {
            let first = content_at(known, 0, *left);
            Some((*to, equal(f, first, content_at(known, 1, *right))))
        }
        Link::Pack { storage, from, to } => Some((
            *to,
            pack(*storage, content_at(known, 0, *from)),
        )),
        Link::Internalise { from, to } => Some((*to, internalised(f, content_at(known, 0, *from)))),
        Link::Externalise { from, to } => Some((*to, externalised(content_at(known, 0, *from)))),
        _ => None,
    }
}

/// What a link that writes slots asks for on what is known: which content is to be joined into which
/// slots. None for a link that writes none.
#[tactic(auto, unfolding(crate::specs::Gives::gives))]
fn written(s: &System<'_>, link: &Link, known: &[(usize, Content)]) -> Option<Put>
    requires { applied.IsReady s.now.facts.now s.now.longs s.now.cells s.now.links link.now known.now }
    ensures head { IfSome result (λ put. IfSome put.reach (IsHead s.now.facts.now)) }
    ensures gives { MatchOption result (applied.GoesOver link.now → applied.ReadsOrCalls link.now) (λ put. (x : Contents) → Has known.now x → applied.put s.now.facts.now put ≡ g.gives s.now.facts.now s.now.links link.now x) }
{
    match link {
        Link::SlotSet {
            object,
            ty,
            slot,
            storage,
            from,
        } => Some(Put {
            reach: reached(s, *object, *ty, known),
            slot: *slot,
            a: pack(*storage, content_at(known, 1, *from)),
        }),
        Link::SlotFill {
            object,
            ty,
            slot,
            give,
        } => Some(Put {
            reach: reached(s, *object, *ty, known),
            slot: *slot,
            a: *give,
        }),
        Link::SlotCopy {
            target,
            to_ty,
            source,
            from_ty,
        } => Some(Put {
            reach: reached(s, *target, *to_ty, known),
            slot: 0,
            a: joined(s, reached(s, *source, *from_ty, known), known),
        }),
        _ => None,
    }
}

/// The joins that a link asks for on what is known, where it reads slots or calls by reference, or
/// asks for nothing.
#[tactic(auto, unfolding(crate::specs::Gives::gives))]
fn go_over(
    alloc: Global,
    s: &System<'_>,
    link: &Link,
    known: &[(usize, Content)],
) -> Result<List<(usize, Content)>, AllocError>
    requires kind { applied.ReadsOrCalls link.now }
    requires ready { applied.IsReady s.now.facts.now s.now.longs s.now.cells s.now.links link.now known.now }
    ensures { IfOk result (λ asked. (x : Contents) → Has known.now x → asked ≡ g.gives s.now.facts.now s.now.links link.now x) }
{
    match link {
        Link::SlotGet {
            object,
            ty,
            slot,
            storage,
            signed,
            to,
        } => {
            let get = Get {
                slot: *slot,
                storage: *storage,
                signed: *signed,
                to: *to,
            };
            from_slots(alloc, s, reached(s, *object, *ty, known), get, known)
        }
        Link::CallBy {
            callee,
            ty,
            operands,
            results,
        } => {
            let callees = called(s, *callee, *ty, known);
            let (passed, given) = (operands.as_slice(), results.as_slice());
            call_by(alloc, s, callees, passed, given, known)
        }
        _ => Ok(List::new(alloc)),
    }
}

/// The joins that a link asks for on what is known, where that is enough.
fn apply_to(
    alloc: Global,
    s: &System<'_>,
    link: &Link,
    known: &[(usize, Content)],
) -> Result<List<(usize, Content)>, AllocError>
    requires { applied.IsReady s.now.facts.now s.now.longs s.now.cells s.now.links link.now known.now }
    ensures { IfOk result (λ asked. (x : Contents) → Has known.now x → asked ≡ g.gives s.now.facts.now s.now.links link.now x) }
{
    if let Some((to, a)) = flow(s, link, known) {
        return one(alloc, to, a);
    }
    if let Some(put) = written(s, link, known) {
        return into_slots(alloc, s, put);
    }
    go_over(alloc, s, link, known)
}

/// The joins that a link asks for on what is known of all cells on which it rests, in the order in
/// which it goes over types and functions. `AllocError` only where memory is refused.
pub fn apply(
    alloc: Global,
    s: &System<'_>,
    link: usize,
    known: &[(usize, Content)],
) -> Result<List<(usize, Content)>, AllocError>
    requires link { link < length s.now.links }
    requires known { IsKnown s.now.facts.now s.now.longs s.now.links (link_at s.now.links link) known.now }
    requires enough { IsEnough s.now.facts.now s.now.links (link_at s.now.links link) known.now }
    ensures { IfOk result (λ asked. (x : Contents) → Has known.now x → asked ≡ g.gives s.now.facts.now s.now.links (link_at s.now.links link) x) }
{
    let links = s.links.as_slice();
    apply_to(alloc, s, &links[link], known)
}
