//! The recursion groups that have the key of no group before them, found by the hashes of the keys.
ghost use Rattle.std.specs.Prelude.{◌≡◌, ℕ, ◌+◌, ◌<◌, ◌≤◌, ◌^◌, ◌↔◌, ◌++◌, ◌∷◌, [], IsTrue, length, map, slice_index, slice_set, MatchOption, IfOk, OnOk};
ghost use Rattle.gu_types.specs.declared.types.RecGroup.{RecGroup as Grouped};
ghost use Rattle.gu_rec.specs.Keys.{NumbersFit, key, key_at, types_at, bucket_of, Chains, IsAbsent, IsFoundAt, FirstIs};
ghost use Rattle.gu_rec.specs.Hashes.{hash_of};

use crate::key::{hash_types, same_types};
use gu_types::{RecGroup, SubType};
use std::alloc::{AllocError, Global};

/// A group that has the key of no group before it.
#[derive(Clone, Copy, Debug)]
pub(crate) struct Distinct {
    /// Its place among the groups.
    pub(crate) group: u32,
    /// How many distinct groups there were up to the last one before it in its bucket.
    pub(crate) before: u32,
    /// The hash of its key.
    pub(crate) hash: u32,
    /// The index of its first type.
    pub(crate) start: u32,
}

impl Distinct {
    /// Whether the group has the key of some types behind types that have numbers.
    fn has_key(self, groups: &[RecGroup], types: &[SubType], numbers: &[u32]) -> bool
        requires at { self.group < length groups.now }
        requires start { self.start ≤ length numbers.now }
        requires few { length types.now < 2 ^ 32 }
        requires fit { NumbersFit numbers.now (length types.now) }
        ensures { IsTrue result ↔ (key_at groups.now numbers.now self ≡ key numbers.now types.now) }
    {
        let earlier = &numbers[..self.start as usize];
        let own = groups[self.group as usize].types.as_slice();
        same_types(own, types, earlier, numbers, types.len() as u32)
    }
}

/// The distinct groups so far. The hashes are shared out evenly among the buckets, in order, and the
/// groups of a bucket lead each to the last one before it there.
#[derive(Drop)]
pub(crate) struct Table {
    distinct: Vec<Distinct>,
    /// How many distinct groups there are up to the last one in each bucket, or 0.
    lasts: Vec<u32>,
}

impl Table {
    /// A table with room for so many groups. `AllocError` only where memory is refused.
    pub(crate) fn with_capacity(alloc: Global, count: usize) -> Result<Table, AllocError>
        requires { count < 2 ^ 32 }
        ensures empty { IfOk result (λ table. table.distinct.items ≡ []) }
        ensures some { IfOk result (λ table. 0 < length table.lasts.items) }
        ensures few { IfOk result (λ table. length table.lasts.items < 2 ^ 32) }
        ensures zeros { IfOk result (λ table. (bucket : ℕ) → slice_index table.lasts.items bucket ≡ 0) }
    {
        let distinct = Vec::with_capacity(alloc, count)?;
        let lasts = vec![in alloc; 0u32; count.max(1)]?;
        Ok(Table { distinct, lasts })
    }

    /// The bucket of a hash.
    fn bucket(&self, hash: u32) -> usize
        requires some { 0 < length self.now.lasts.items }
        requires few { length self.now.lasts.items < 2 ^ 32 }
        ensures value { result ≡ bucket_of (length self.now.lasts.items) hash }
        ensures within { result < length self.now.lasts.items }
    {
        ((hash as u64 * self.lasts.len() as u64) >> 32) as usize
    }

    /// The index at which the distinct group begins that has the key of some types behind types
    /// that have numbers.
    fn find(
        &self,
        groups: &[RecGroup],
        types: &[SubType],
        numbers: &[u32],
        hash: u32,
    ) -> Option<u32>
        requires few { length types.now < 2 ^ 32 }
        requires fit { NumbersFit numbers.now (length types.now) }
        requires hashed { hash ≡ hash_of (key numbers.now types.now) }
        requires chains { Chains groups.now numbers.now self.now.distinct.items self.now.lasts.items }
        ensures { MatchOption result (IsAbsent groups.now numbers.now self.now.distinct.items (key numbers.now types.now)) (IsFoundAt groups.now numbers.now self.now.distinct.items (key numbers.now types.now)) }
    {
        let mut up_to = self.lasts[self.bucket(hash)];
        while up_to > 0 {
            let earlier = self.distinct[up_to as usize - 1];
            if earlier.hash == hash && earlier.has_key(groups, types, numbers) {
                return Some(earlier.start);
            }
            up_to = earlier.before;
        }
        None
    }

    /// Puts a group last. `AllocError` only where memory is refused.
    fn push(&mut self, group: u32, start: u32, hash: u32) -> Result<(), AllocError>
        requires some { 0 < length self.old.lasts.items }
        requires few { length self.old.lasts.items < 2 ^ 32 }
        requires room { length self.old.distinct.items + 1 < 2 ^ 32 }
        ensures distinct { OnOk result (self.new.distinct.items ≡ self.old.distinct.items ++ record { group = group; before = slice_index self.old.lasts.items (bucket_of (length self.old.lasts.items) hash); hash = hash; start = start } ∷ []) }
        ensures lasts { OnOk result (self.new.lasts.items ≡ slice_set self.old.lasts.items (bucket_of (length self.old.lasts.items) hash) (length self.old.distinct.items + 1)) }
    {
        let bucket = self.bucket(hash);
        let before = self.lasts[bucket];
        self.distinct.push(Distinct {
            group,
            before,
            hash,
            start,
        })?;
        self.lasts[bucket] = self.distinct.len() as u32;
        Ok(())
    }

    /// The index at which the first group begins that has the key of the group at a place, behind
    /// types that have numbers: that of an earlier group, or its own where its key is new.
    /// `AllocError` only where memory is refused.
    pub(crate) fn first_of(
        &mut self,
        groups: &[RecGroup],
        group: usize,
        numbers: &[u32],
    ) -> Result<u32, AllocError>
        requires at { group < length groups.now }
        requires grouped { length groups.now < 2 ^ 32 }
        requires behind { length self.old.distinct.items ≤ group }
        requires started { length numbers.now < 2 ^ 32 }
        requires few { length (types_at groups.now group) < 2 ^ 32 }
        requires fit { NumbersFit numbers.now (length (types_at groups.now group)) }
        requires chains { Chains groups.now numbers.now self.old.distinct.items self.old.lasts.items }
        ensures chains { OnOk result (Chains groups.now numbers.now self.new.distinct.items self.new.lasts.items) }
        ensures first { IfOk result (λ first. FirstIs groups.now numbers.now self.old.distinct.items group first self.new.distinct.items) }
    {
        let types = groups[group].types.as_slice();
        let hash = hash_types(types, numbers, types.len() as u32);
        if let Some(first) = self.find(groups, types, numbers, hash) {
            return Ok(first);
        }
        let start = numbers.len() as u32;
        self.push(group as u32, start, hash)?;
        Ok(start)
    }
}
