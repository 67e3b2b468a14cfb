//! What links through slots ask for.
ghost use Rattle.std.specs.Prelude.{◌≡◌, ◌<◌, true, All, Contains, IfOk, IfSome, Some, length};
ghost use Rattle.gu_types.specs.Depth.{types_of};
ghost use Rattle.gu_contents.specs.Belongs.{Belongs};
ghost use Rattle.gu_links.specs.Cells as numbers;
ghost use Rattle.gu_links.specs.Over.{has_slot};
ghost use Rattle.gu_links.specs.Gives.{Contents};
ghost use Rattle.gu_links.specs.Gives as g;
ghost use Rattle.gu_links.specs.Known.{Has, Item, cells_of};
ghost use Rattle.gu_links.specs.Kept as kept;
ghost use Rattle.gu_links.specs.Index.{IsHead};
ghost use Rattle.gu_links.specs.Applied as applied;

use crate::known::content_at;
use crate::reach::Reach;
use crate::system::System;
use gu_contents::{Content, extend, join};
use gu_types::{List, Storage};
use std::alloc::{AllocError, Global};

/// What is to be joined into the cells of a slot, of the types of a reach, if there are types.
#[derive(Clone, Copy, Debug)]
pub(crate) struct Put {
    pub(crate) reach: Option<Reach>,
    pub(crate) slot: u32,
    pub(crate) a: Content,
}

/// A content for the cell of a slot of each type of a reach that has the slot.
fn into_reach(
    alloc: Global,
    s: &System<'_>,
    reach: Reach,
    slot: u32,
    a: Content,
) -> Result<List<(usize, Content)>, AllocError>
    requires { IsHead s.now.facts.now reach }
    ensures { IfOk result (λ asked. asked ≡ g.into_slots s.now.facts.now slot a (kept.over_reach s.now.facts.now (Some reach) slot)) }
{
    let mut asked = List::new(alloc);
    'types: for ty in s.types(&reach) {
        if s.is_over(reach, slot, *ty) {
            asked.push((s.slot_cell(*ty, slot), a))?;
        }
    }
    Ok(asked)
}

/// What is joined into a slot of each type that has it.
#[tactic(auto, using(crate::proofs::Walks::nothing_reached))]
pub(crate) fn into_slots(
    alloc: Global,
    s: &System<'_>,
    put: Put,
) -> Result<List<(usize, Content)>, AllocError>
    requires { IfSome put.reach (IsHead s.now.facts.now) }
    ensures { IfOk result (λ asked. asked ≡ applied.put s.now.facts.now put) }
{
    match put.reach {
        None => Ok(List::new(alloc)),
        Some(reach) => into_reach(alloc, s, reach, put.slot, put.a),
    }
}

/// How a slot is read.
#[derive(Clone, Copy, Debug)]
pub(crate) struct Get {
    pub(crate) slot: u32,
    pub(crate) storage: Storage,
    pub(crate) signed: bool,
    pub(crate) to: usize,
}

/// What a slot of a type has, which is known.
fn slot_content(
    s: &System<'_>,
    ty: u32,
    slot: u32,
    near: usize,
    known: &[(usize, Content)],
) -> Content
    requires ty { ty < length (types_of s.now.facts.now.types) }
    requires least { numbers.is_least s.now.facts.now.types ty ≡ true }
    requires slot { has_slot s.now.facts.now slot ty ≡ true }
    requires known { Contains (cells_of known.now) (numbers.slot_cell s.now.facts.now ty slot) }
    ensures value { (x : Contents) → Has known.now x → result ≡ g.slot_of s.now.facts.now x slot ty }
    ensures belongs { All (λ (k : Item). Belongs s.now.facts.now k.1) known.now → Belongs s.now.facts.now result }
{
    content_at(known, near, s.slot_cell(ty, slot))
}

/// What a link that reads a slot asks for, over the types of a reach.
fn from_reach(
    alloc: Global,
    s: &System<'_>,
    reach: Reach,
    get: Get,
    known: &[(usize, Content)],
) -> Result<List<(usize, Content)>, AllocError>
    requires head { IsHead s.now.facts.now reach }
    requires known { All (λ t. Contains (cells_of known.now) (numbers.slot_cell s.now.facts.now t get.slot)) (kept.over_reach s.now.facts.now (Some reach) get.slot) }
    ensures { IfOk result (λ asked. (x : Contents) → Has known.now x → asked ≡ applied.from_slots s.now.facts.now x get (kept.over_reach s.now.facts.now (Some reach) get.slot)) }
{
    let mut asked = List::new(alloc);
    let mut near: usize = 1;
    'types: for ty in s.types(&reach) {
        if s.is_over(reach, get.slot, *ty) {
            let a = slot_content(s, *ty, get.slot, near, known);
            asked.push((get.to, extend(get.storage, get.signed, a)))?;
            near = near.saturating_add(1);
        }
    }
    Ok(asked)
}

/// All elements of the arrays of the types of a reach, joined.
fn joined_reach(s: &System<'_>, reach: Reach, known: &[(usize, Content)]) -> Content
    requires head { IsHead s.now.facts.now reach }
    requires known { All (λ t. Contains (cells_of known.now) (numbers.slot_cell s.now.facts.now t 0)) (kept.over_reach s.now.facts.now (Some reach) 0) }
    requires belong { All (λ (k : Item). Belongs s.now.facts.now k.1) known.now }
    ensures value { (x : Contents) → Has known.now x → result ≡ g.joined s.now.facts.now x (kept.over_reach s.now.facts.now (Some reach) 0) }
    ensures belongs { Belongs s.now.facts.now result }
{
    let mut elements = Content::Empty;
    let mut near: usize = 2;
    'types: for ty in s.types(&reach) {
        if s.is_over(reach, 0, *ty) {
            elements = join(s.facts, elements, slot_content(s, *ty, 0, near, known));
            near = near.saturating_add(1);
        }
    }
    elements
}

/// The same where there may be no types.
#[tactic(auto, using(crate::proofs::Walks::nothing_reached))]
pub(crate) fn from_slots(
    alloc: Global,
    s: &System<'_>,
    reach: Option<Reach>,
    get: Get,
    known: &[(usize, Content)],
) -> Result<List<(usize, Content)>, AllocError>
    requires head { IfSome reach (IsHead s.now.facts.now) }
    requires known { All (λ t. Contains (cells_of known.now) (numbers.slot_cell s.now.facts.now t get.slot)) (kept.over_reach s.now.facts.now reach get.slot) }
    ensures { IfOk result (λ asked. (x : Contents) → Has known.now x → asked ≡ applied.from_slots s.now.facts.now x get (kept.over_reach s.now.facts.now reach get.slot)) }
{
    match reach {
        None => Ok(List::new(alloc)),
        Some(reach) => from_reach(alloc, s, reach, get, known),
    }
}

/// All elements of the arrays of the types of a reach, joined, if there are types.
#[tactic(auto, using(crate::proofs::Walks::nothing_reached))]
pub(crate) fn joined(s: &System<'_>, reach: Option<Reach>, known: &[(usize, Content)]) -> Content
    requires head { IfSome reach (IsHead s.now.facts.now) }
    requires known { All (λ t. Contains (cells_of known.now) (numbers.slot_cell s.now.facts.now t 0)) (kept.over_reach s.now.facts.now reach 0) }
    requires belong { All (λ (k : Item). Belongs s.now.facts.now k.1) known.now }
    ensures { (x : Contents) → Has known.now x → result ≡ g.joined s.now.facts.now x (kept.over_reach s.now.facts.now reach 0) }
{
    match reach {
        None => Content::Empty,
        Some(reach) => joined_reach(s, reach, known),
    }
}
