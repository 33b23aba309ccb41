//! A source and a sink in memory, whose calls fail by a plan.

ghost use Rattle.std.specs.Prelude.{◌≡◌, ◌↔◌, ◌<◌, ◌-◌, ◌++◌, ◌||◌, [], true, false, length, take, min, IfOk, OnOk, OnErr, is_err, nat_le};
ghost use Rattle.xv_base.specs.Calls.{after_call, fails_next, planned};

use crate::sink::Sink;
use crate::source::Source;
use std::alloc::{AllocError, Global};
use std::marker::Model;
use xv_base::{Failed, NoMemory, PlannedCalls};

/// An input in memory, which tells its bytes.
#[derive(Drop)]
pub struct MemSource {
    bytes: Vec<u8>,
    at: usize,
    piece: u32,
    plan: PlannedCalls,
}

impl Model for MemSource {
    ghost use Rattle.std.specs.Prelude.{◌<◌, ◌≤◌, length, drop};
    ghost use Rattle.xv_io.specs.Memory.{SourceState};

    ghost Value = { SourceState };

    ghost view = { λ s. record
        { left = drop s.at s.bytes.items; piece = s.piece; plan = s.plan } };

    ghost invariant = { λ s. (s.at ≤ length s.bytes.items) × (0 < s.piece) };
}

impl MemSource {
    /// The input of these bytes. A call gives at most `piece` bytes, and the calls of the numbers in `fails`,
    /// from 1, fail.
    pub fn new(
        alloc: Global,
        bytes: &[u8],
        piece: u32,
        fails: &[u32],
    ) -> Result<MemSource, NoMemory>
        requires { 0 < piece }
        ensures { IfOk result (λ s. s ≡ record
            { left = bytes.now; piece = piece; plan = planned fails.now }) }
    {
        Ok(MemSource {
            bytes: Vec::from_slice(alloc, bytes).map_err(no_memory)?,
            at: 0,
            piece,
            plan: PlannedCalls::new(alloc, fails)?,
        })
    }
}

impl Source for MemSource {
    ghost use Rattle.std.specs.Prelude.{Some};

    ghost left = { λ s. Some s.left };

    ghost faults = { λ s. s.plan.faults };

    /// Gives as many bytes as there are, fit and lie within the piece. Fails exactly where the plan has the
    /// call's number.
    fn read(&mut self, into: &mut [u8]) -> Result<usize, Failed>
        requires { 0 < length into.old }
        ensures fails { is_err result ≡ fails_next self.old.plan }
        ensures amount { IfOk result
            (λ n. n ≡ min (length self.old.left) (min self.old.piece (length into.old))) }
        ensures gives { IfOk result (λ n. self.old.left ≡ take n into.new ++ self.new.left) }
        ensures ends { IfOk result (λ n. (n ≡ 0) ↔ (self.old.left ≡ [])) }
        ensures stays { OnErr result (self.new.left ≡ self.old.left) }
        ensures plan { self.new.plan ≡ after_call (is_err result) self.old.plan }
        ensures piece { self.new.piece ≡ self.old.piece }
    {
        self.plan.begin()?;
        let n = copy_front(&self.bytes[self.at..], self.piece as usize, into);
        self.at += n;
        Ok(n)
    }
}

/// An output in memory, which tells its bytes.
#[derive(Drop)]
pub struct MemSink {
    taken: Vec<u8>,
    room: u32,
    piece: u32,
    unflushed: bool,
    plan: PlannedCalls,
}

impl Model for MemSink {
    ghost use Rattle.std.specs.Prelude.{◌<◌, ◌≤◌, vec_len, vec_capacity};
    ghost use Rattle.xv_io.specs.Memory.{SinkState};

    ghost Value = { SinkState };

    ghost view = { λ s. record
        { taken = s.taken.items; room = s.room; piece = s.piece; keeps_back = s.unflushed; plan = s.plan } };

    ghost invariant = { λ s. (vec_len s.taken ≤ s.room) × (s.room ≤ vec_capacity s.taken) × (0 < s.piece) };
}

impl MemSink {
    /// An output with room for so many bytes, all of it reserved here. A call takes at most `piece` bytes, and
    /// the calls of the numbers in `fails`, from 1, fail; writes and flushes are numbered together.
    pub fn new(alloc: Global, room: u32, piece: u32, fails: &[u32]) -> Result<MemSink, NoMemory>
        requires { 0 < piece }
        ensures { IfOk result (λ s. s ≡ record
            { taken = []; room = room; piece = piece; keeps_back = false; plan = planned fails.now }) }
    {
        Ok(MemSink {
            taken: Vec::with_capacity(alloc, room as usize).map_err(no_memory)?,
            room,
            piece,
            unflushed: false,
            plan: PlannedCalls::new(alloc, fails)?,
        })
    }

    /// The bytes taken.
    pub fn bytes(&self) -> &[u8]
        ensures { result.now ≡ self.now.taken }
    {
        &self.taken
    }
}

impl Sink for MemSink {
    ghost use Rattle.std.specs.Prelude.{Some};

    ghost taken = { λ s. Some s.taken };

    ghost faults = { λ s. s.plan.faults };

    ghost keeps_back = { λ s. s.keeps_back };

    /// Takes as many bytes as there are, as there is room for and as lie within the piece. Fails exactly where
    /// the plan has the call's number, or there is no room. Whatever it answers, bytes may be kept back from now on.
    fn write(&mut self, bytes: &[u8]) -> Result<usize, Failed>
        requires { 0 < length bytes.now }
        ensures fails { is_err result
            ≡ (fails_next self.old.plan || nat_le self.old.room (length self.old.taken)) }
        ensures some { IfOk result (λ n. 0 < n) }
        ensures amount { IfOk result
            (λ n. n ≡ min (length bytes.now) (min self.old.piece (self.old.room - length self.old.taken))) }
        ensures takes { IfOk result (λ n. self.new.taken ≡ self.old.taken ++ take n bytes.now) }
        ensures stays { OnErr result (self.new.taken ≡ self.old.taken) }
        ensures keeps_back { self.new.keeps_back ≡ true }
        ensures plan { self.new.plan ≡ after_call (is_err result) self.old.plan }
        ensures room { self.new.room ≡ self.old.room }
        ensures piece { self.new.piece ≡ self.old.piece }
    {
        self.unflushed = true;
        self.plan.begin()?;
        let free = self.room as usize - self.taken.len();
        if free == 0 {
            return Err(self.plan.fault());
        }
        let n = bytes.len().min(self.piece as usize).min(free);
        match self.taken.extend_from_slice(&bytes[..n]) {
            Ok(()) => Ok(n),
            Err(_) => unreachable!(),
        }
    }

    /// Fails exactly where the plan has the call's number, and then keeps back what it kept back before.
    fn flush(&mut self) -> Result<(), Failed>
        ensures fails { is_err result ≡ fails_next self.old.plan }
        ensures all { OnOk result (self.new.keeps_back ≡ false) }
        ensures keeps_back { OnErr result (self.new.keeps_back ≡ self.old.keeps_back) }
        ensures stays { self.new.taken ≡ self.old.taken }
        ensures plan { self.new.plan ≡ after_call (is_err result) self.old.plan }
        ensures room { self.new.room ≡ self.old.room }
        ensures piece { self.new.piece ≡ self.old.piece }
    {
        self.plan.begin()?;
        self.unflushed = false;
        Ok(())
    }
}

// Copies the first bytes, at most `piece` of them, as far as they fit.
fn copy_front(from: &[u8], piece: usize, into: &mut [u8]) -> usize
    ensures amount { result ≡ min (length from.now) (min piece (length into.old)) }
    ensures copies { take result into.new ≡ take result from.now }
{
    let n = from.len().min(piece).min(into.len());
    into[..n].copy_from_slice(&from[..n]);
    n
}

fn no_memory(_: AllocError) -> NoMemory {
    NoMemory
}
