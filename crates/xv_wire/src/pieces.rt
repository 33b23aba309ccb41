//! Where the pieces that were put begin among the bytes in transit.

ghost use Rattle.std.specs.Prelude.{◌≡◌, ℕ, false, true, ◌+◌, ◌/◌, ◌*◌, ◌<◌, ◌≤◌, ◌^◌, [], ◌∷◌, ◌++◌, length, IfOk, slice_get};
ghost use Rattle.circular_buffer.specs.Buffer.{buffer};
ghost use Rattle.xv_wire.specs.Wire.{left_past, is_inside};
ghost use Rattle.xv_wire.specs.Lengths.{AreWide, IsPart, total};

use crate::wire::LEAST_PUT;
use circular_buffer::HeapCircularBuffer;
use std::alloc::Global;
use std::marker::Model;
use xv_base::NoMemory;

/// The pieces in transit by their lengths, each of a put's least bytes or more. As many have room as fit the wire.
#[derive(Drop)]
pub struct Pieces {
    lengths: HeapCircularBuffer<u32>,
    /// How many bytes of the first piece were taken.
    taken: u32,
    /// Whether a take has failed at the first byte of the first piece.
    stopped: bool,
    /// How many bytes the pieces may have together.
    most: u32,
}

impl Model for Pieces {
    ghost use Rattle.std.specs.Prelude.{◌≡◌, ◌+◌, ◌/◌, ◌≤◌};
    ghost use Rattle.xv_wire.specs.declared.wire.TheConstants.{LEAST_PUT};
    ghost use Rattle.xv_wire.specs.Lengths.{InTransit, AreWide, IsPart, in_transit, total};

    ghost Value = { InTransit };

    ghost view = { λ p. in_transit p.lengths.items p.taken p.stopped p.most };

    ghost invariant = { λ p. AreWide p.lengths.items × IsPart p.taken p.lengths.items × (total p.lengths.items ≤ p.taken + p.most) × (p.lengths.capacity ≡ p.most / LEAST_PUT + 1) };
}

impl Pieces {
    /// No pieces, with room for as many as have so many bytes together.
    pub fn new(alloc: Global, most: u32) -> Result<Pieces, NoMemory>
        ensures { IfOk result (λ p. p ≡ record { left = []; met = false; most = most }) }
    {
        match HeapCircularBuffer::with_capacity(alloc, (most / LEAST_PUT) as usize + 1) {
            Ok(lengths) => Ok(Pieces {
                lengths,
                taken: 0,
                stopped: false,
                most,
            }),
            Err(_) => Err(NoMemory),
        }
    }

    /// How many pieces have bytes in transit.
    pub fn len(&self) -> u64
        ensures { result ≡ length self.now.left }
    {
        self.lengths.len() as u64
    }

    /// Whether a take has met the first byte of the first piece.
    pub fn is_met(&self) -> bool
        ensures { result ≡ self.now.met }
    {
        self.stopped || self.taken > 0
    }

    /// A piece of so many bytes follows.
    pub fn push(&mut self, bytes: u32)
        requires wide { LEAST_PUT ≤ bytes }
        requires room { total self.old.left + bytes ≤ self.old.most }
        ensures { self.new ≡ record self.old { left = self.old.left ++ bytes ∷ [] } }
    {
        self.lengths.push_back(bytes);
    }

    /// A take fails at the first byte.
    pub fn stop(&mut self)
        ensures { self.new ≡ record self.old { met = true } }
    {
        self.stopped = true;
    }

    /// So many bytes are taken, one or more.
    pub fn pass(&mut self, count: u32)
        requires some { 0 < count }
        requires there { count ≤ total self.old.left }
        ensures { self.new ≡ record self.old { left = left_past count self.old.left; met = is_inside count self.old.left } }
    {
        self.taken = drop_taken(&mut self.lengths, u64::from(self.taken) + u64::from(count));
        self.stopped = false;
    }
}

/// Drops the pieces that are taken whole, and answers how much of the next is taken.
fn drop_taken(lengths: &mut HeapCircularBuffer<u32>, taken: u64) -> u32
    requires wide { AreWide lengths.old.items }
    requires there { taken ≤ total lengths.old.items }
    ensures left { left_past result lengths.new.items ≡ left_past taken lengths.old.items }
    ensures inside { is_inside result lengths.new.items ≡ is_inside taken lengths.old.items }
    ensures part { IsPart result lengths.new.items }
    ensures wide { AreWide lengths.new.items }
    ensures fewer { total lengths.old.items + result ≡ total lengths.new.items + taken }
    ensures capacity { lengths.new.capacity ≡ lengths.old.capacity }
{
    let mut left = taken;
    while let Some(piece) = first(lengths) {
        if left < u64::from(piece) {
            return left as u32;
        }
        lengths.pop_front();
        left -= u64::from(piece);
    }
    left as u32
}

fn first(lengths: &HeapCircularBuffer<u32>) -> Option<u32>
    ensures { result ≡ slice_get lengths.now.items 0 }
{
    lengths.front().copied()
}
