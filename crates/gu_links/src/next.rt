//! Which cell a link reads next.
ghost use Rattle.std.specs.Prelude.{ℕ, ◌≡◌, ◌<◌, ◌≤◌, ◌∷◌, ◌++◌, [], true, None, Some, All, Contains, IfNone, IfSome, flat_map, length, map, slice_get, take};
ghost use Rattle.std.specs.List.Sorted.{IsNonDecreasingBy};
ghost use Rattle.gu_types.specs.Depth.{types_of};
ghost use Rattle.gu_contents.specs.Belongs.{Belongs, IsFunc};
ghost use Rattle.gu_links.specs.Cells.{is_least, out_cells, slot_cell};
ghost use Rattle.gu_links.specs.Kept.{over_reach, callable, fixed_once, fixed_reads, further_reads};
ghost use Rattle.gu_links.specs.declared.reach.Callees.TheVariants.{Under};
ghost use Rattle.gu_links.specs.Index.{IsHead, AreCallees};
ghost use Rattle.gu_links.specs.Next as next;
ghost use Rattle.gu_contents.specs.declared.content.Content.{Content as Held};
ghost use Rattle.gu_links.specs.Gives.{Contents, reads};
ghost use Rattle.gu_links.specs.Solutions.{Fits, IsOf};
ghost use Rattle.gu_links.specs.Known.{Has, Item, IsKnown, IsEnough, asked_for, cells_of, link_at};

use crate::asked::{called, reached};
use crate::index::results_of;
use crate::known::has_cell;
use crate::link::Link;
use crate::reach::{Callees, Reach};
use crate::system::System;
use gu_contents::Content;

/// The cells that are asked for next: those behind one, or all, but for those that are fixed.
#[derive(Clone, Copy, Debug)]
struct Rest<'a> {
    fixed: &'a [usize],
    first: usize,
}

impl Rest<'_> {
    /// Whether a cell is one of them.
    fn has(self, cell: usize) -> bool
        ensures { result ≡ next.is_rest self.entry.fixed.now self.entry.first cell }
    {
        self.first <= cell && !has_cell(self.fixed, cell)
    }
}

/// The cell of a slot of a type, if the type is in a reach and has the slot, and the cell is one of
/// the rest.
fn own_slot(s: &System<'_>, ty: u32, reach: Reach, slot: u32, rest: Rest<'_>) -> Option<usize>
    requires head { IsHead s.now.facts.now reach }
    requires ty { ty < length (types_of s.now.facts.now.types) }
    requires least { is_least s.now.facts.now.types ty ≡ true }
    ensures { result ≡ next.first_slot s.now.facts.now reach slot (next.is_rest rest.entry.fixed.now rest.entry.first) (ty ∷ []) }
{
    if !s.is_over(reach, slot, ty) {
        return None;
    }
    let cell = s.slot_cell(ty, slot);
    if rest.has(cell) { Some(cell) } else { None }
}

/// The first cell of a slot of some types in a reach that is one of the rest.
fn slot_in(s: &System<'_>, types: &[u32], reach: Reach, slot: u32, rest: Rest<'_>) -> Option<usize>
    requires head { IsHead s.now.facts.now reach }
    requires types { All (λ t. t < length (types_of s.now.facts.now.types)) types.now }
    requires least { All (λ t. is_least s.now.facts.now.types t ≡ true) types.now }
    ensures { result ≡ next.first_slot s.now.facts.now reach slot (next.is_rest rest.entry.fixed.now rest.entry.first) types.now }
{
    'types: for ty in types {
        if let Some(cell) = own_slot(s, *ty, reach, slot, rest) {
            return Some(cell);
        }
    }
    None
}

/// The next cell of a slot of the types of a reach.
fn slot_after(s: &System<'_>, reach: Reach, slot: u32, rest: Rest<'_>) -> Option<usize>
    requires { IsHead s.now.facts.now reach }
    ensures { result ≡ next.first_of (next.is_rest rest.entry.fixed.now rest.entry.first) (map (λ t. slot_cell s.now.facts.now t slot) (over_reach s.now.facts.now (Some reach) slot)) }
{
    match s.type_with(rest.first) {
        None => None,
        Some(ty) => {
            let types = s.types(&reach);
            let from = place_of(types, ty);
            slot_in(s, &types[from..], reach, slot, rest)
        }
    }
}

/// The next cell of a result of a function.
fn result_after(s: &System<'_>, function: u32, rest: Rest<'_>) -> Option<usize>
    requires { IsFunc s.now.facts.now function }
    ensures { result ≡ next.first_of (next.is_rest rest.entry.fixed.now rest.entry.first) (out_cells s.now.facts.now function) }
{
    let count = results_of(s.facts, s.type_of(function));
    if count == 0 {
        return None;
    }
    let start = rest.first.saturating_sub(s.out_cell(function, 0));
    'places: for place in start..count {
        let cell = s.out_cell(function, place);
        if rest.has(cell) {
            return Some(cell);
        }
    }
    None
}

/// The next cell of a result of a function, if its type is in a reach.
fn own_result(s: &System<'_>, function: u32, reach: Reach, rest: Rest<'_>) -> Option<usize>
    requires head { IsHead s.now.facts.now reach }
    requires function { IsFunc s.now.facts.now function }
    ensures { result ≡ next.first_result s.now.facts.now reach (next.is_rest rest.entry.fixed.now rest.entry.first) (function ∷ []) }
{
    if reach.covers(s.facts, s.type_of(function)) {
        result_after(s, function, rest)
    } else {
        None
    }
}

/// The first cell of a result of some functions in a reach that is one of the rest.
fn result_in(s: &System<'_>, functions: &[u32], reach: Reach, rest: Rest<'_>) -> Option<usize>
    requires head { IsHead s.now.facts.now reach }
    requires functions { All (IsFunc s.now.facts.now) functions.now }
    ensures { result ≡ next.first_result s.now.facts.now reach (next.is_rest rest.entry.fixed.now rest.entry.first) functions.now }
{
    'functions: for function in functions {
        if let Some(cell) = own_result(s, *function, reach, rest) {
            return Some(cell);
        }
    }
    None
}

/// The next cell of a result of the functions of a reach.
fn result_under(s: &System<'_>, reach: Reach, rest: Rest<'_>) -> Option<usize>
    requires { IsHead s.now.facts.now reach }
    ensures { result ≡ next.first_of (next.is_rest rest.entry.fixed.now rest.entry.first) (flat_map (out_cells s.now.facts.now) (callable s.now.facts.now s.now.links (Under reach))) }
{
    match s.function_from(rest.first) {
        None => None,
        Some(function) => {
            let functions = s.functions(reach);
            let from = place_of(functions, function);
            result_in(s, &functions[from..], reach, rest)
        }
    }
}

/// The next cell of a result of functions that can be called by reference.
fn result_next(s: &System<'_>, callees: Callees, rest: Rest<'_>) -> Option<usize>
    requires { AreCallees s.now.facts.now callees }
    ensures { result ≡ next.first_of (next.is_rest rest.entry.fixed.now rest.entry.first) (flat_map (out_cells s.now.facts.now) (callable s.now.facts.now s.now.links callees)) }
{
    match callees {
        Callees::Nobody => None,
        Callees::One(function) => {
            if s.is_callable(function) {
                result_after(s, function, rest)
            } else {
                None
            }
        }
        Callees::Under(reach) => result_under(s, reach, rest),
    }
}

/// The next cell of a slot of the types of a reach, if there are types.
#[tactic(auto, using(crate::proofs::Walks::nothing_reached))]
fn slot_next(s: &System<'_>, reach: Option<Reach>, slot: u32, rest: Rest<'_>) -> Option<usize>
    requires { IfSome reach (IsHead s.now.facts.now) }
    ensures { result ≡ next.first_of (next.is_rest rest.entry.fixed.now rest.entry.first) (map (λ t. slot_cell s.now.facts.now t slot) (over_reach s.now.facts.now reach slot)) }
{
    match reach {
        None => None,
        Some(reach) => slot_after(s, reach, slot, rest),
    }
}

/// The next of the cells on which a link rests besides those that are fixed, which are known.
fn further_next(
    s: &System<'_>,
    link: &Link,
    known: &[(usize, Content)],
    rest: Rest<'_>,
) -> Option<usize>
    requires fits { Fits s.now.facts.now s.now.longs s.now.cells link.now }
    requires belong { All (λ (k : Item). Belongs s.now.facts.now k.1) known.now }
    requires fixed { All (Contains (cells_of known.now)) (fixed_reads link.now) }
    ensures { (x : Contents) → Has known.now x → result ≡ next.first_of (next.is_rest rest.entry.fixed.now rest.entry.first) (further_reads s.now.facts.now s.now.links link.now x) }
{
    match link {
        Link::SlotGet {
            object,
            ty,
            slot,
            ..
        } => slot_next(s, reached(s, *object, *ty, known), *slot, rest),
        Link::SlotCopy {
            source,
            from_ty,
            ..
        } => slot_next(s, reached(s, *source, *from_ty, known), 0, rest),
        Link::CallBy { callee, ty, .. } => result_next(s, called(s, *callee, *ty, known), rest),
        _ => None,
    }
}

/// The next of the cells on which a link rests, each once and the fixed ones first.
fn next_asked(
    s: &System<'_>,
    link: &Link,
    fixed: &[usize],
    known: &[(usize, Content)],
) -> Option<usize>
    requires fits { Fits s.now.facts.now s.now.longs s.now.cells link.now }
    requires fixed { fixed.now ≡ fixed_once link.now }
    requires known { IsKnown s.now.facts.now s.now.longs s.now.links link.now known.now }
    ensures { (x : Contents) → Has known.now x → result ≡ slice_get (asked_for s.now.facts.now s.now.links link.now x) (length known.now) }
{
    if known.len() < fixed.len() {
        return Some(fixed[known.len()]);
    }
    let mut first = 0;
    if known.len() > fixed.len() {
        let (last, _) = known[known.len() - 1];
        first = last + 1;
    }
    let rest = Rest { fixed, first };
    further_next(s, link, known, rest)
}

/// How many numbers of a list that rises are less than another.
fn place_of(rising: &[u32], number: u32) -> usize
    requires { IsNonDecreasingBy (λ (n : ℕ). n) rising.now }
    ensures within { result ≤ length rising.now }
    ensures less { All (λ n. n < number) (take result rising.now) }
{
    rising.partition_point(|n| *n < number)
}

impl System<'_> {
    /// The next cell on which a link rests, where some are known: what is known are the cells that
    /// earlier calls named for this link, from none on, in that order. No cell is named twice. None
    /// exactly where all are known on which the link rests.
    pub fn next_read(&self, link: usize, known: &[(usize, Content)]) -> Option<usize>
        requires link { link < length self.now.links }
        requires known { IsKnown self.now.facts.now self.now.longs self.now.links (link_at self.now.links link) known.now }
        ensures read { IfSome result (λ c. (x : Contents) → Has known.now x → Contains (reads self.now.facts.now self.now.links (link_at self.now.links link) x) c) }
        ensures new { IfSome result (λ c. Contains (cells_of known.now) c → ⊥) }
        ensures below { IfSome result (λ c. c < self.now.cells) }
        ensures onward { IfSome result (λ c. (a : Held) → IsOf self.now.facts.now self.now.longs a → IsKnown self.now.facts.now self.now.longs self.now.links (link_at self.now.links link) (known.now ++ (c, a) ∷ [])) }
        ensures enough { IfNone result (IsEnough self.now.facts.now self.now.links (link_at self.now.links link) known.now) }
        ensures more { IsEnough self.now.facts.now self.now.links (link_at self.now.links link) known.now → result ≡ None }
    {
        let fixed = self.index.fixed[link].as_slice();
        next_asked(self, &self.links.as_slice()[link], fixed, known)
    }
}
