//! Acknowledgements over the wire back.

ghost use Rattle.std.specs.Prelude.{◌≡◌, ℕ, ◌+◌, ◌-◌, ◌<◌, ◌≤◌, ◌^◌, [], ◌∷◌, ◌++◌, length, take, drop, IfOk, IfErr, IfSome, is_err, if◌then◌else◌};
ghost use Rattle.xv_streams.specs.Returned.{AckPut, AckTaken, AreCarried};
ghost use Rattle.xv_frame.specs.Fields.{word_at};

use crate::filling::fill;
use std::marker::Model;
use xv_base::{Failed, MOST_CREDIT};
use xv_frame::{HEAD_SIZE, encode_ack};
use xv_wire::Wire;

/// The wire that carries the acknowledgements.
#[derive(Drop)]
pub struct BackWire<W: Wire> {
    wire: W,
    head: [u8; HEAD_SIZE],
    count: usize,
    waiting: u32,
}

impl<W: Wire> Model for BackWire<W> {
    ghost use Rattle.std.specs.Prelude.{◌≤◌, take};
    ghost use Rattle.xv_frame.specs.declared.codes.TheConstants.{HEAD_SIZE};
    ghost use Rattle.xv_streams.specs.Returned.{Returned, returned, IsBack};

    ghost Value = { Returned };

    ghost view = { λ b. returned (take b.count b.head) (W.told b.wire) (W.faults b.wire) };

    ghost invariant = { λ b. IsBack (take b.count b.head) (W.told b.wire) b.waiting × (b.count ≤ HEAD_SIZE) };
}

impl<W: Wire> BackWire<W> {
    /// No acknowledgement is on the way over this wire, in which nothing is in transit.
    pub fn new(wire: W) -> BackWire<W>
        requires { (W.told wire).transit ≡ [] }
        ensures counts { result.counts ≡ [] }
        ensures gathered { result.gathered ≡ [] }
        ensures wire { result.wire ≡ W.told wire }
        ensures faults { result.faults ≡ W.faults wire }
    {
        BackWire {
            wire,
            head: [0; HEAD_SIZE],
            count: 0,
            waiting: 0,
        }
    }

    /// Puts an acknowledgement of `count` messages, from 1 to `MOST_CREDIT`, where it fits the wire.
    /// Errors: the wire failed, and the list is unchanged.
    pub fn put_ack(&mut self, count: u32) -> Result<(), Failed>
        requires some { 1 ≤ count }
        requires few { count ≤ MOST_CREDIT }
        requires room { length self.old.wire.transit + HEAD_SIZE ≤ self.old.wire.capacity }
        requires countable { IfSome self.old.wire.counted (λ c. c.puts < 2 ^ 63) }
        ensures { AckPut count (is_err result) self.old self.new }
    {
        let mut frame = [0; HEAD_SIZE];
        encode_ack(count, &mut frame);
        let fits = frame.len() <= self.wire.capacity() as usize;
        prove!(fits);
        match self.wire.put(&frame) {
            Ok(()) => {
                self.waiting += 1;
                Ok(())
            }
            Err(_) => Err(Failed),
        }
    }

    /// Takes the first acknowledgement, and answers its count.
    /// Errors: the wire failed; the list is unchanged, and a later call goes on with the bytes gathered.
    pub fn take_ack(&mut self) -> Result<Option<u32>, Failed>
        ensures { AckTaken result self.old self.new }
    {
        let filled = fill(&mut self.wire, &mut self.head, self.count, HEAD_SIZE);
        self.count = filled.count;
        if filled.failed {
            return Err(Failed);
        }
        if filled.count < HEAD_SIZE {
            return Ok(None);
        }
        self.count = 0;
        self.waiting -= 1;
        Ok(Some(count_of(&self.head)))
    }

    /// How many acknowledgements are on the way.
    pub fn waiting(&self) -> u32
        ensures exactly { result ≡ length self.now.counts }
        ensures carried { AreCarried self.now }
    {
        self.waiting
    }

    /// The wire as it is.
    pub fn into_wire(self) -> W
        ensures told { W.told result ≡ self.wire }
        ensures faults { W.faults result ≡ self.faults }
    {
        self.wire
    }
}

/// The count of an acknowledgement.
fn count_of(head: &[u8]) -> u32
    requires long { length head.now ≡ HEAD_SIZE }
    ensures { result ≡ word_at head.now 8 }
{
    u32::from_be_bytes([head[8], head[9], head[10], head[11]])
}
