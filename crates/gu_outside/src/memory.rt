//! A source and a sink in memory, which fail at the calls that their maker lists.

ghost use Rattle.std.specs.Prelude.{◌≡◌, ℕ, ◌+◌, ◌-◌, ◌<◌, ◌≤◌, ◌↔◌, ◌⊎◌, min, max, List, [], ◌++◌, length, take, drop, Option, Some, None, IfOk, OnOk, OnErr, IsErr, IsTrue, Contains, vec_len, vec_capacity};
ghost use Rattle.gu_outside.specs.Outside.{next_count};
ghost use Rattle.gu_outside.specs.Memory.{Supply, Store};

use crate::{Failed, Sink, Source};
use std::alloc::{AllocError, Global};
use std::marker::Model;

/// When an object in memory fails, and how many bytes it moves at most in a call.
#[derive(Drop)]
struct Script {
    fails: Vec<u64>,
    calls: u64,
    faults: u64,
    piece: usize,
}

impl Script {
    /// A script before its first call.
    fn new(fails: Vec<u64>, piece: usize) -> Script
        ensures { result ≡ record { fails = fails; calls = 0; faults = 0; piece = piece } }
    {
        Script {
            fails,
            calls: 0,
            faults: 0,
            piece,
        }
    }

    /// Counts a call, and says whether it is one that fails.
    fn begins_failing(&mut self) -> bool
        ensures listed { IsTrue result ↔ Contains self.old.fails.items (next_count self.old.calls) }
        ensures counts { self.new ≡ record self.old { calls = next_count self.old.calls } }
    {
        self.calls = self.calls.saturating_add(1);
        self.fails.as_slice().contains(&self.calls)
    }

    /// Counts a fault.
    fn fail(&mut self) -> Failed
        ensures { self.new ≡ record self.old { faults = next_count self.old.faults } }
    {
        self.faults = self.faults.saturating_add(1);
        Failed
    }
}

/// Gives bytes from memory. It fails at the listed calls, counted from 1, and moves at most `piece`
/// bytes in a call.
#[derive(Drop)]
pub struct MemSource {
    bytes: Vec<u8>,
    at: usize,
    script: Script,
}

impl Model for MemSource {
    ghost Value = { Supply };

    ghost view = { λ s. record { left = drop s.at s.bytes.items; fails = s.script.fails.items; calls = s.script.calls; faults = s.script.faults; piece = s.script.piece } };

    ghost invariant = { λ s. (s.at ≤ length s.bytes.items) × (0 < s.script.piece) };
}

impl MemSource {
    /// A source that gives `bytes`, at most `piece` in a call, and fails at the calls `fails`.
    pub fn new(bytes: Vec<u8>, fails: Vec<u64>, piece: usize) -> MemSource
        requires { 0 < piece }
        ensures { result ≡ record { left = bytes.items; fails = fails.items; calls = 0; faults = 0; piece = piece } }
    {
        MemSource {
            bytes,
            at: 0,
            script: Script::new(fails, piece),
        }
    }

    /// The bytes still to come.
    pub fn left(&self) -> &[u8]
        ensures { result.now ≡ self.now.left }
    {
        &self.bytes[self.at..]
    }
}

impl Source for MemSource {
    ghost left = { λ s. Some s.left };

    ghost faults = { λ s. s.faults };

    fn take(&mut self, into: &mut [u8]) -> Result<usize, Failed>
        // It fails exactly at the listed calls, and else moves as much as it may.
        ensures listed { IsErr result ↔ Contains self.old.fails (next_count self.old.calls) }
        ensures number { IfOk result (λ n. n ≡ min (length into.old) (min self.old.piece (length self.old.left))) }
        ensures bytes { IfOk result (λ n. take n into.new ≡ take n self.old.left) }
        ensures end { IfOk result (λ n. n ≡ 0 → 0 < length into.old → self.old.left ≡ []) }

        ensures ok { IfOk result (λ n. self.new ≡ record self.old { left = drop n self.old.left; calls = next_count self.old.calls }) }
        ensures err { OnErr result (self.new ≡ record self.old { calls = next_count self.old.calls; faults = next_count self.old.faults }) }
        ensures never_falls { self.old.faults ≤ self.new.faults }
    {
        if self.script.begins_failing() {
            return Err(self.script.fail());
        }
        let n = into
            .len()
            .min(self.script.piece)
            .min(self.bytes.len() - self.at);
        into[..n].copy_from_slice(&self.bytes[self.at..self.at + n]);
        self.at += n;
        Ok(n)
    }
}

/// Keeps bytes in memory that is reserved before. It fails at the listed calls, counted from 1, and
/// where what it is to move has no room, and moves at most `piece` bytes in a call.
#[derive(Drop)]
pub struct MemSink {
    bytes: Vec<u8>,
    room: usize,
    script: Script,
}

impl Model for MemSink {
    ghost Value = { Store };

    ghost view = { λ s. record { held = s.bytes.items; room = s.room; fails = s.script.fails.items; calls = s.script.calls; faults = s.script.faults; piece = s.script.piece } };

    ghost invariant = { λ s. (vec_len s.bytes + s.room ≤ vec_capacity s.bytes) × (0 < s.script.piece) };
}

impl MemSink {
    /// A sink that holds nothing and has no room, takes at most `piece` bytes in a call, and fails at
    /// the calls `fails`.
    pub fn new(alloc: Global, fails: Vec<u64>, piece: usize) -> MemSink
        requires { 0 < piece }
        ensures { result ≡ record { held = []; room = 0; fails = fails.items; calls = 0; faults = 0; piece = piece } }
    {
        MemSink {
            bytes: Vec::new(alloc),
            room: 0,
            script: Script::new(fails, piece),
        }
    }

    /// Makes room for at least `n` more bytes. `AllocError` comes where the allocator refuses, and the
    /// sink is then as before.
    pub fn reserve(&mut self, n: usize) -> Result<(), AllocError>
        ensures ok { OnOk result (self.new ≡ record self.old { room = max self.old.room n }) }
        ensures err { OnErr result (self.new ≡ self.old) }
    {
        self.bytes.reserve(n)?;
        self.room = self.room.max(n);
        Ok(())
    }

    /// The bytes that it holds.
    pub fn as_slice(&self) -> &[u8]
        ensures { result.now ≡ self.now.held }
    {
        self.bytes.as_slice()
    }
}

impl Sink for MemSink {
    ghost held = { λ s. Some s.held };

    ghost faults = { λ s. s.faults };

    fn put(&mut self, piece: &[u8]) -> Result<usize, Failed>
        // It fails exactly at the listed calls and past its room, and else moves as much as it may.
        ensures refused { IsErr result ↔ Contains self.old.fails (next_count self.old.calls) ⊎ (self.old.room < min (length piece.now) self.old.piece) }
        ensures number { IfOk result (λ n. n ≡ min (length piece.now) self.old.piece) }
        ensures some { IfOk result (λ n. 0 < length piece.now → 0 < n) }

        ensures ok { IfOk result (λ n. self.new ≡ record self.old { held = self.old.held ++ take n piece.now; room = self.old.room - n; calls = next_count self.old.calls }) }
        ensures err { OnErr result (self.new ≡ record self.old { calls = next_count self.old.calls; faults = next_count self.old.faults }) }
        ensures never_falls { self.old.faults ≤ self.new.faults }
    {
        let n = piece.len().min(self.script.piece);
        if self.script.begins_failing() || n > self.room {
            return Err(self.script.fail());
        }
        let Ok(()) = self.bytes.extend_from_slice(&piece[..n]) else {
            unreachable!("this room was reserved")
        };
        self.room -= n;
        Ok(n)
    }
}
