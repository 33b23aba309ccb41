//! Patterns of bytes, and what is filled by them.

ghost use Rattle.std.specs.Prelude.{◌≡◌, ◌+◌, ◌<◌, ◌≤◌, ◌-◌, ◌++◌, length, min, take, replicate};
ghost use Rattle.xv_base.specs.Pattern.{repeated};
ghost use Rattle.xv_base.specs.Padded.{padded_to};

use crate::unit::UnitId;
use std::marker::Model;

/// From 1 to 64 bytes, which are repeated from the start of what they fill.
#[derive(Clone, Copy, Debug, PartialEq, Eq)]
pub struct Pattern {
    padded: [u8; 64],
    count: usize,
}

impl Model for Pattern {
    ghost use Rattle.std.specs.Prelude.{ℕ, List, ◌<◌, take, length};
    ghost use Rattle.xv_base.specs.Padded.{IsPadded, padded_to};

    ghost Value = { List ℕ };

    ghost view = { λ p. take p.count p.padded };

    ghost invariant = { λ p. IsPadded 0 64 p.count p.padded × (0 < p.count) };

    ghost inverse = { λ bytes. record { padded = padded_to 0 64 bytes; count = length bytes } };

    ghost inverse_ok = { λ p h i. record { padded = h.0.blanks_follow i; count = h.0.counted i } };
}

impl Pattern {
    /// The pattern of these bytes, from 1 to 64 of them.
    pub fn new(bytes: &[u8]) -> Pattern
        requires some { 0 < length bytes.now }
        requires few { length bytes.now ≤ 64 }
        ensures { result ≡ bytes.now }
    {
        let mut padded = [0u8; 64];
        begin_with(&mut padded, bytes);
        Pattern {
            padded,
            count: bytes.len(),
        }
    }

    /// How many bytes the pattern has.
    pub fn len(&self) -> usize
        ensures exactly { result ≡ length self.now }
        ensures some { 0 < length self.now }
        ensures few { length self.now ≤ 64 }
    {
        self.count
    }

    /// The bytes of the pattern.
    pub fn bytes(&self) -> &[u8]
        ensures exactly { result.now ≡ self.now }
        ensures some { 0 < length self.now }
        ensures few { length self.now ≤ 64 }
    {
        &self.padded[..self.count]
    }

    /// Repeats the pattern from the start of `into`.
    pub fn fill(&self, into: &mut [u8])
        ensures { into.new ≡ repeated self.now (length into.old) }
    {
        repeat(self.bytes(), into);
    }
}

/// Writes the bytes to the start of zeros.
fn begin_with(padded: &mut [u8], bytes: &[u8])
    requires zeros { padded.old ≡ replicate (length padded.old) 0 }
    requires fits { length bytes.now ≤ length padded.old }
    ensures { padded.new ≡ padded_to 0 (length padded.old) bytes.now }
{
    padded[..bytes.len()].copy_from_slice(bytes);
}

/// Fills `into` with the bytes, from the first again after the last.
fn repeat(bytes: &[u8], into: &mut [u8])
    requires { 0 < length bytes.now }
    ensures { into.new ≡ repeated bytes.now (length into.old) }
{
    if let [byte] = bytes {
        // The commonest pattern by far, and much faster so.
        into.fill(*byte);
        return;
    }
    // What is filled doubles at each turn, so that bytes are copied many at once.
    let mut done = begin_repeat(bytes, into);
    while done < into.len() {
        done += copy_on(into, done);
    }
}

/// Writes the bytes to the start of `into`, as far as they fit, and answers how many.
fn begin_repeat(bytes: &[u8], into: &mut [u8]) -> usize
    ensures count { result ≡ min (length bytes.now) (length into.old) }
    ensures begun { take result into.new ≡ take result bytes.now }
    ensures size { length into.new ≡ length into.old }
{
    let count = bytes.len().min(into.len());
    into[..count].copy_from_slice(&bytes[..count]);
    count
}

/// Copies the first `done` bytes behind themselves, as far as they fit, and answers how many.
fn copy_on(into: &mut [u8], done: usize) -> usize
    requires { done ≤ length into.old }
    ensures count { result ≡ min done (length into.old - done) }
    ensures copied { take (done + result) into.new ≡ take done into.old ++ take result into.old }
    ensures size { length into.new ≡ length into.old }
{
    let (front, back) = into.split_at_mut(done);
    let count = done.min(back.len());
    back[..count].copy_from_slice(&front[..count]);
    count
}

/// A unit that does not begin as zeros.
#[derive(Clone, Copy, Debug, PartialEq, Eq)]
pub struct Init {
    pub unit: UnitId,
    pub pattern: Pattern,
}

/// One step of a guest on one unit: a write of the pattern over `len` bytes from `offset`, or a read of them.
#[derive(Clone, Copy, Debug, PartialEq, Eq)]
pub struct UnitOp {
    pub unit: UnitId,
    pub offset: u32,
    pub len: u32,
    pub write: Option<Pattern>,
}
