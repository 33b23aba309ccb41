//! A wire in memory.

ghost use Rattle.std.specs.Prelude.{◌≡◌, ℕ, false, ◌+◌, ◌<◌, ◌≤◌, ◌^◌, [], ◌++◌, length, take, drop, min, IfOk, OnOk, is_err};
ghost use Rattle.xv_wire.specs.Wire.{PutBytes, TakeBytes, taken, is_planned};
ghost use Rattle.xv_wire.specs.Memory.{fresh, after, given};
ghost use Rattle.circular_buffer.specs.Buffer.{buffer};

use crate::pieces::Pieces;
use crate::plan::WirePlan;
use crate::wire::{LEAST_PUT, Wire};
use circular_buffer::HeapCircularBuffer;
use std::alloc::Global;
use std::marker::Model;
use xv_base::{Failed, NoMemory, PlannedCalls, is_listed};

/// A wire in memory, which tells its plan and what it counts.
#[derive(Drop)]
pub struct MemWire {
    bytes: HeapCircularBuffer<u8>,
    capacity: u32,
    /// How many bytes a take gives at most.
    piece: u32,
    pieces: Pieces,
    /// The puts. Its count of faults is that of the takes too.
    puts: PlannedCalls,
    /// The numbers of the pieces at which a take is to fail.
    takes: Vec<u32>,
    /// How many puts have put a piece.
    sent: u64,
}

impl Model for MemWire {
    ghost use Rattle.std.specs.Prelude.{◌≡◌, ◌<◌, ◌≤◌, length};
    ghost use Rattle.xv_wire.specs.Memory.{Pipe, IsPipe};

    ghost Value = { Pipe };

    ghost view = { λ w. record {
      capacity = w.capacity;
      piece = w.piece;
      transit = w.bytes.items;
      counted = record {
        plan = record { puts = w.puts.fails; takes = w.takes.items };
        puts = w.puts.calls;
        pieces = w.sent;
        left = w.pieces.left;
        met = w.pieces.met;
      };
      faults = w.puts.faults;
    } };

    ghost invariant = { λ w. IsPipe w.capacity w.piece w.bytes.items w.bytes.capacity w.pieces w.puts.calls w.sent };
}

impl MemWire {
    /// A wire for `capacity` bytes in transit, as many as a put has at least, whose takes give at most `piece` bytes, one or more. Nothing
    /// is in transit, and nothing is counted. The calls fail exactly by the plan.
    pub fn new(
        alloc: Global,
        capacity: u32,
        piece: u32,
        plan: WirePlan,
    ) -> Result<MemWire, NoMemory>
        requires room { LEAST_PUT ≤ capacity }
        requires some { 1 ≤ piece }
        ensures { IfOk result (λ wire. wire ≡ fresh capacity piece plan) }
    {
        let Ok(bytes) = HeapCircularBuffer::with_capacity(alloc, capacity as usize) else {
            return Err(NoMemory);
        };
        let Ok(pieces) = Pieces::new(alloc, capacity) else {
            return Err(NoMemory);
        };
        let WirePlan { puts, takes } = plan;
        Ok(MemWire {
            bytes,
            capacity,
            piece,
            pieces,
            puts: PlannedCalls::of(puts),
            takes,
            sent: 0,
        })
    }

    /// How many bytes may be in transit at once.
    pub fn capacity(&self) -> u32
        ensures { result ≡ self.now.capacity }
    {
        self.capacity
    }

    /// Appends `LEAST_PUT` bytes or more, for which there is room, to those in transit.
    pub fn put(&mut self, bytes: &[u8]) -> Result<(), Failed>
        requires wide { LEAST_PUT ≤ length bytes.now }
        requires room { length self.old.transit + length bytes.now ≤ self.old.capacity }
        requires countable { self.old.counted.puts < 2 ^ 63 }
        ensures fails { is_err result ≡ is_planned (PutBytes bytes.now) self.old.transit self.old.counted }
        ensures after { self.new ≡ after (PutBytes bytes.now) (is_err result) self.old }
        ensures sure { self.old.counted.plan.puts ≡ [] → is_err result ≡ false }
    {
        self.puts.begin()?;
        self.pieces.push(bytes.len() as u32);
        self.bytes.fill_from_slice(bytes);
        self.sent += 1;
        Ok(())
    }

    /// Moves the first bytes in transit to the start of `into`, and answers how many: the least of the wire's piece, the
    /// bytes in transit and the room.
    pub fn take(&mut self, into: &mut [u8]) -> Result<u32, Failed>
        requires { 0 < length into.old }
        ensures fails { is_err result ≡ is_planned (TakeBytes (taken result)) self.old.transit self.old.counted }
        ensures after { self.new ≡ after (TakeBytes (taken result)) (is_err result) self.old }
        ensures least { OnOk result (taken result ≡ given self.old (length into.old)) }
        ensures some { OnOk result (0 < length self.old.transit → 0 < taken result) }
        ensures gives { OnOk result (into.new ≡ take (taken result) self.old.transit ++ drop (taken result) into.old) }
        ensures sure { self.old.counted.plan.takes ≡ [] → is_err result ≡ false }
    {
        if self.fails_now() {
            self.pieces.stop();
            return Err(self.puts.fault());
        }
        let count = read_piece(&mut self.bytes, self.piece, into);
        if count > 0 {
            self.pieces.pass(count);
        }
        Ok(count)
    }

    /// Whether a take is to fail now.
    fn fails_now(&self) -> bool
        ensures { result ≡ is_planned (TakeBytes 0) self.now.transit self.now.counted }
    {
        let piece = self.sent + 1 - self.pieces.len();
        !self.bytes.is_empty() && !self.pieces.is_met() && is_listed(&self.takes, piece)
    }
}

impl Wire for MemWire {
    ghost use Rattle.xv_wire.specs.Memory.{told};

    ghost told = { told };

    ghost faults = { λ w. w.faults };

    fn capacity(&self) -> u32 {
        self.capacity()
    }

    fn put(&mut self, bytes: &[u8]) -> Result<(), Failed> {
        self.put(bytes)
    }

    fn take(&mut self, into: &mut [u8]) -> Result<u32, Failed> {
        self.take(into)
    }
}

/// Moves the first of the bytes to the start of `into`, at most a piece of them.
fn read_piece(bytes: &mut HeapCircularBuffer<u8>, piece: u32, into: &mut [u8]) -> u32
    ensures count { result ≡ min (min piece (length into.old)) (length bytes.old.items) }
    ensures read { into.new ≡ take result bytes.old.items ++ drop result into.old }
    ensures left { bytes.new ≡ buffer (drop result bytes.old.items) bytes.old.capacity }
{
    let most = into.len().min(piece as usize);
    bytes.read_into(&mut into[..most]) as u32
}
