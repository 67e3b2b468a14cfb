//! A cursor over bytes, with the integers of the binary format (core specification 3.0, 5.2.2
//! Integers).
ghost use Rattle.std.specs.Prelude.{◌≡◌, ◌+◌, ◌-◌, ◌<◌, ◌≤◌, ◌^◌, [], ◌∷◌, ℕ, List, length, IfOk};
ghost use Rattle.std.specs.Prelude.{IfErr, OnErr, IfSome, Some, option_map, nat_lt, not, pos};
ghost use Rattle.gu_bytes.specs.Numbers.{FitsBits};
ghost use Rattle.gu_bytes.specs.Reading.{unsigned_at, signed_at, Moves};
ghost use Rattle.gu_bytes.specs.Reads.{Passes, PassesUnsigned, PassesSigned, Stays};
ghost use Rattle.gu_bytes.specs.Reads.{HoldsNoUnsigned, HoldsNoSigned};

use std::marker::Model;
use thiserror::Error;

/// What was to be read is not there. `at` is where the call began, in bytes from the start.
#[derive(Clone, Copy, Debug, PartialEq, Eq, Error)]
#[error("no such byte or integer at {at}")]
pub struct Bad {
    pub at: usize,
}

/// A place in some bytes, which moves forward past what is read. Contracts see it as the number of
/// bytes before it and the list of those behind it.
#[derive(Debug, Drop)]
pub struct Cursor<'a> {
    rest: &'a [u8],
    at: usize,
}

impl<'a> Model for Cursor<'a> {
    ghost use Rattle.std.specs.Prelude.{ℕ, ◌+◌, ◌<◌, ◌^◌, length};
    ghost use Rattle.gu_bytes.specs.Place.{Place};

    ghost Value = { Place };

    ghost view = { λ c. record { at = c.at; rest = c.rest.now } };

    ghost invariant = { λ c. c.at + length c.rest.now < 2 ^ 64 };
}

impl<'a> Cursor<'a> {
    /// A cursor at the first of these bytes.
    pub fn new(bytes: &'a [u8]) -> Cursor<'a>
        ensures at { result.at ≡ 0 }
        ensures rest { result.rest ≡ bytes.now }
    {
        Cursor { rest: bytes, at: 0 }
    }

    /// How many bytes the cursor has passed.
    pub fn at(&self) -> usize
        ensures { result ≡ self.now.at }
    {
        self.at
    }

    /// How many bytes are left.
    pub fn left(&self) -> usize
        ensures { result ≡ length self.now.rest }
    {
        self.rest.len()
    }

    /// The bytes that are left, which are not passed. With those that are passed they are fewer than
    /// 2^64.
    pub fn rest(&self) -> &'a [u8]
        ensures rest { result.now ≡ self.now.rest }
        ensures fits { self.now.at + length self.now.rest < 2 ^ 64 }
    {
        self.rest
    }

    /// Passes one byte and gives it (core specification 3.0, 5.2.1 Bytes).
    ///
    /// `Bad` where no byte is left; the cursor then stays.
    pub fn byte(&mut self) -> Result<u8, Bad>
        ensures byte { IfOk result (λ b. Passes (b ∷ []) self.old self.new) }
        ensures none_left { OnErr result (self.old.rest ≡ []) }
        ensures stays { IfErr result (λ bad. Stays bad self.old self.new) }
    {
        let rest = self.rest;
        match rest.split_first() {
            None => Err(Bad { at: self.at }),
            Some((byte, more)) => {
                self.pass_to(more);
                Ok(*byte)
            }
        }
    }

    /// Passes `n` bytes and gives them (core specification 3.0, 5.2.1 Bytes).
    ///
    /// `Bad` where fewer than `n` bytes are left; the cursor then stays.
    pub fn bytes(&mut self, n: usize) -> Result<&'a [u8], Bad>
        ensures bytes { IfOk result (λ front. Passes front.now self.old self.new) }
        ensures count { IfOk result (λ front. length front.now ≡ n) }
        ensures fewer_left { OnErr result (length self.old.rest < n) }
        ensures stays { IfErr result (λ bad. Stays bad self.old self.new) }
    {
        let rest = self.rest;
        if rest.len() < n {
            return Err(Bad { at: self.at });
        }
        let (front, more) = rest.split_at(n);
        self.pass_to(more);
        Ok(front)
    }

    /// Passes a spelling of an unsigned integer of 32 bits and gives the integer (core specification
    /// 3.0, 5.2.2 Integers). The spelling has at most five bytes, and need not be the least.
    ///
    /// `Bad` where no front of the rest spells one; the cursor then stays.
    pub fn read_u32(&mut self) -> Result<u32, Bad>
        ensures integer { IfOk result (λ v. PassesUnsigned 32 v self.old self.new) }
        ensures none { OnErr result (HoldsNoUnsigned 32 self.old.rest) }
        ensures stays { IfErr result (λ bad. Stays bad self.old self.new) }
        ensures decoded { Moves self.old (unsigned_at 32 self.old.rest) result self.new }
    {
        let value = self.unsigned(32)?;
        Ok(value as u32)
    }

    /// Passes a spelling of a signed integer of 32 bits and gives the integer (core specification
    /// 3.0, 5.2.2 Integers). The spelling has at most five bytes, and need not be the least.
    ///
    /// `Bad` where no front of the rest spells one; the cursor then stays.
    pub fn read_s32(&mut self) -> Result<i32, Bad>
        ensures integer { IfOk result (λ v. PassesSigned 32 v self.old self.new) }
        ensures none { OnErr result (HoldsNoSigned 32 self.old.rest) }
        ensures stays { IfErr result (λ bad. Stays bad self.old self.new) }
        ensures decoded { Moves self.old (signed_at 32 self.old.rest) result self.new }
    {
        let value = self.signed(32)?;
        Ok(value as i32)
    }

    /// Passes a spelling of a signed integer of 33 bits and gives the integer, as a block type's
    /// index is spelled (core specification 3.0, 5.2.2 Integers). The spelling has at most five
    /// bytes, and need not be the least.
    ///
    /// `Bad` where no front of the rest spells one; the cursor then stays.
    pub fn read_s33(&mut self) -> Result<i64, Bad>
        ensures integer { IfOk result (λ v. PassesSigned 33 v self.old self.new) }
        ensures none { OnErr result (HoldsNoSigned 33 self.old.rest) }
        ensures stays { IfErr result (λ bad. Stays bad self.old self.new) }
        ensures decoded { Moves self.old (signed_at 33 self.old.rest) result self.new }
    {
        self.signed(33)
    }

    /// Passes a spelling of a signed integer of 64 bits and gives the integer (core specification
    /// 3.0, 5.2.2 Integers). The spelling has at most ten bytes, and need not be the least.
    ///
    /// `Bad` where no front of the rest spells one; the cursor then stays.
    pub fn read_s64(&mut self) -> Result<i64, Bad>
        ensures integer { IfOk result (λ v. PassesSigned 64 v self.old self.new) }
        ensures none { OnErr result (HoldsNoSigned 64 self.old.rest) }
        ensures stays { IfErr result (λ bad. Stays bad self.old self.new) }
        ensures decoded { Moves self.old (signed_at 64 self.old.rest) result self.new }
    {
        self.signed(64)
    }

    #[inline(always)]
    fn unsigned(&mut self, bits: u32) -> Result<u64, Bad>
        requires low { 14 < bits }
        requires high { bits ≤ 64 }
        ensures integer { IfOk result (λ v. PassesUnsigned bits v self.old self.new) }
        ensures none { OnErr result (HoldsNoUnsigned bits self.old.rest) }
        ensures stays { IfErr result (λ bad. Stays bad self.old self.new) }
        ensures decoded { Moves self.old (unsigned_at bits self.old.rest) result self.new }
        ensures fits { IfOk result (λ v. v < 2 ^ bits) }
    {
        let rest = self.rest;
        match split_wide_unsigned(rest, bits) {
            None => Err(Bad { at: self.at }),
            Some((value, more)) => {
                self.pass_to(more);
                Ok(value)
            }
        }
    }

    #[inline(always)]
    fn signed(&mut self, bits: u32) -> Result<i64, Bad>
        requires low { 14 < bits }
        requires high { bits ≤ 64 }
        ensures integer { IfOk result (λ v. PassesSigned bits v self.old self.new) }
        ensures none { OnErr result (HoldsNoSigned bits self.old.rest) }
        ensures stays { IfErr result (λ bad. Stays bad self.old self.new) }
        ensures decoded { Moves self.old (signed_at bits self.old.rest) result self.new }
        ensures fits { IfOk result (λ v. FitsBits bits v) }
    {
        let rest = self.rest;
        match split_wide_signed(rest, bits) {
            None => Err(Bad { at: self.at }),
            Some((value, more)) => {
                self.pass_to(more);
                Ok(value)
            }
        }
    }

    /// Goes forward to where `rest` is left.
    fn pass_to(&mut self, rest: &'a [u8])
        requires { length rest.now ≤ length self.old.rest }
        ensures rest { self.new.rest ≡ rest.entry.now }
        ensures at { self.new.at + length rest.entry.now ≡ self.old.at + length self.old.rest }
    {
        self.at += self.rest.len() - rest.len();
        self.rest = rest;
    }
}

/// The unsigned integer of many bits that the bytes begin with, and the bytes behind it. One of two
/// bytes, as most are, is read without a call.
#[inline(always)]
#[tactic(auto, using(crate::proofs::Powers::powers))]
fn split_wide_unsigned(bytes: &[u8], bits: u32) -> Option<(u64, &[u8])>
    requires low { 14 < bits }
    requires high { bits ≤ 64 }
    ensures value { option_map (λ x. (x.0, x.1.now)) result ≡ unsigned_at bits bytes.now }
    ensures fits { IfSome result (λ x. (x.0 < 2 ^ bits) × (length x.1.now < length bytes.now)) }
{
    let (byte, behind) = bytes.split_first()?;
    if *byte < 128 {
        return Some((u64::from(*byte), behind));
    }
    let (high, rest) = split_next_unsigned(behind, bits - 7)?;
    Some((128 * high + u64::from(*byte - 128), rest))
}

/// The same behind a first byte.
#[inline(always)]
#[tactic(auto, using(crate::proofs::Powers::powers))]
fn split_next_unsigned(bytes: &[u8], bits: u32) -> Option<(u64, &[u8])>
    requires low { 7 < bits }
    requires high { bits ≤ 64 }
    ensures value { option_map (λ x. (x.0, x.1.now)) result ≡ unsigned_at bits bytes.now }
    ensures fits { IfSome result (λ x. (x.0 < 2 ^ bits) × (length x.1.now < length bytes.now)) }
{
    let (byte, behind) = bytes.split_first()?;
    if *byte < 128 {
        return Some((u64::from(*byte), behind));
    }
    let (high, rest) = split_unsigned(behind, bits - 7)?;
    Some((128 * high + u64::from(*byte - 128), rest))
}

/// The unsigned integer that the bytes begin with, and the bytes behind it.
#[inline(never)]
#[tactic(auto, using(crate::proofs::Powers::powers))]
fn split_unsigned(bytes: &[u8], bits: u32) -> Option<(u64, &[u8])>
    requires { bits ≤ 64 }
    ensures value { option_map (λ x. (x.0, x.1.now)) result ≡ unsigned_at bits bytes.now }
    ensures fits { IfSome result (λ x. (x.0 < 2 ^ bits) × (length x.1.now < length bytes.now)) }
{
    let (byte, more) = bytes.split_first()?;
    if *byte < 128 {
        return if is_within(*byte, bits) {
            Some((u64::from(*byte), more))
        } else {
            None
        };
    }
    if bits <= 7 {
        return None;
    }
    let (high, rest) = split_unsigned(more, bits - 7)?;
    Some((128 * high + u64::from(*byte - 128), rest))
}

/// Whether a last byte is of so many bits.
fn is_within(byte: u8, bits: u32) -> bool
    requires { byte < 128 }
    ensures { result ≡ nat_lt byte (2 ^ bits) }
{
    bits >= 7 || byte < 1 << bits
}

/// The signed integer of many bits that the bytes begin with, and the bytes behind it. One of two
/// bytes, as most are, is read without a call.
#[inline(always)]
#[tactic(auto, using(crate::proofs::Powers::signed_powers))]
fn split_wide_signed(bytes: &[u8], bits: u32) -> Option<(i64, &[u8])>
    requires low { 14 < bits }
    requires high { bits ≤ 64 }
    ensures value { option_map (λ x. (x.0, x.1.now)) result ≡ signed_at bits bytes.now }
    ensures fits { IfSome result (λ x. FitsBits bits x.0 × (length x.1.now < length bytes.now)) }
{
    let (byte, behind) = bytes.split_first()?;
    if *byte < 64 {
        return Some((i64::from(*byte), behind));
    }
    if *byte < 128 {
        return Some((i64::from(*byte) - 128, behind));
    }
    let (high, rest) = split_next_signed(behind, bits - 7)?;
    Some((128 * high + i64::from(*byte - 128), rest))
}

/// The same behind a first byte.
#[inline(always)]
#[tactic(auto, using(crate::proofs::Powers::signed_powers))]
fn split_next_signed(bytes: &[u8], bits: u32) -> Option<(i64, &[u8])>
    requires low { 7 < bits }
    requires high { bits ≤ 64 }
    ensures value { option_map (λ x. (x.0, x.1.now)) result ≡ signed_at bits bytes.now }
    ensures fits { IfSome result (λ x. FitsBits bits x.0 × (length x.1.now < length bytes.now)) }
{
    let (byte, behind) = bytes.split_first()?;
    if *byte < 64 {
        return Some((i64::from(*byte), behind));
    }
    if *byte < 128 {
        return Some((i64::from(*byte) - 128, behind));
    }
    let (high, rest) = split_signed(behind, bits - 7)?;
    Some((128 * high + i64::from(*byte - 128), rest))
}

/// The signed integer that the bytes begin with, and the bytes behind it.
#[inline(never)]
#[tactic(auto, using(crate::proofs::Powers::powers))]
fn split_signed(bytes: &[u8], bits: u32) -> Option<(i64, &[u8])>
    requires low { 1 ≤ bits }
    requires high { bits ≤ 64 }
    ensures value { option_map (λ x. (x.0, x.1.now)) result ≡ signed_at bits bytes.now }
    ensures fits { IfSome result (λ x. FitsBits bits x.0 × (length x.1.now < length bytes.now)) }
{
    let (byte, more) = bytes.split_first()?;
    if *byte < 64 {
        return if is_positive(*byte, bits) {
            Some((i64::from(*byte), more))
        } else {
            None
        };
    }
    if *byte < 128 {
        return if is_negative(*byte, bits) {
            Some((i64::from(*byte) - 128, more))
        } else {
            None
        };
    }
    if bits <= 7 {
        return None;
    }
    let (high, rest) = split_signed(more, bits - 7)?;
    Some((128 * high + i64::from(*byte - 128), rest))
}

/// Whether a last byte with the sign bit clear is of so many bits.
fn is_positive(byte: u8, bits: u32) -> bool
    requires low { byte < 64 }
    requires bits { 1 ≤ bits }
    ensures { result ≡ nat_lt byte (2 ^ (bits - 1)) }
{
    bits >= 7 || byte < 1 << (bits - 1)
}

/// Whether a last byte with the sign bit set is of so many bits.
fn is_negative(byte: u8, bits: u32) -> bool
    requires high { 64 ≤ byte }
    requires low { byte < 128 }
    requires bits { 1 ≤ bits }
    ensures { result ≡ not (nat_lt (byte + 2 ^ (bits - 1)) 128) }
{
    bits >= 7 || 128 <= byte + (1 << (bits - 1))
}
