//! What is gathered of the first frame on a stream, and how many frames are on the way.

ghost use Rattle.std.specs.Prelude.{◌≡◌, ◌+◌, ◌-◌, ◌^◌, ◌<◌, ◌≤◌, [], length, take, nat_lt, is_err, IfOk};
ghost use Rattle.xv_base.specs.Layout.{IsGood};
ghost use Rattle.xv_streams.specs.Lanes.{IsLane, FrameTaken};

use crate::framing::fill_frame;
use std::alloc::Global;
use std::marker::Model;
use xv_base::{Failed, Layout, NoMemory};
use xv_frame::HEAD_SIZE;
use xv_wire::Wire;

/// The bytes gathered of a frame that is not taken off yet, in a buffer for the greatest one.
#[derive(Drop)]
pub struct Lane {
    buffer: Vec<u8>,
    count: usize,
    waiting: u32,
}

impl Model for Lane {
    ghost use Rattle.std.specs.Prelude.{◌≤◌, length, take};
    ghost use Rattle.xv_streams.specs.Gathered.{Gathered};

    ghost Value = { Gathered };

    ghost view = { λ l. record { bytes = take l.count l.buffer.items; room = length l.buffer.items; waiting = l.waiting } };

    ghost invariant = { λ l. l.count ≤ length l.buffer.items };
}

impl Lane {
    /// A lane on which no frame is, with room for one of so many bytes.
    pub fn new(alloc: Global, room: usize) -> Result<Lane, NoMemory>
        ensures { IfOk result (λ lane. lane ≡ record { bytes = []; room = room; waiting = 0 }) }
    {
        match Vec::from_elem(alloc, 0, room) {
            Ok(buffer) => Ok(Lane {
                buffer,
                count: 0,
                waiting: 0,
            }),
            Err(_) => Err(NoMemory),
        }
    }

    /// What is gathered.
    pub fn bytes(&self) -> &[u8]
        ensures exactly { result.now ≡ self.now.bytes }
        ensures fits { length self.now.bytes ≤ self.now.room }
    {
        &self.buffer[..self.count]
    }

    /// How many frames are on the way.
    pub fn waiting(&self) -> u32
        ensures { result ≡ self.now.waiting }
    {
        self.waiting
    }

    /// A frame more is on the way.
    pub fn sent(&mut self)
        requires { self.old.waiting < 2 ^ 32 - 1 }
        ensures { self.new ≡ record self.old { waiting = self.old.waiting + 1 } }
    {
        self.waiting += 1;
    }

    /// The frame that is gathered is taken off.
    pub fn taken_off(&mut self)
        requires { 0 < self.old.waiting }
        ensures { self.new ≡ record self.old { bytes = []; waiting = self.old.waiting - 1 } }
    {
        self.count = 0;
        self.waiting -= 1;
    }

    /// Gathers the first frame that is on the way, and answers whether there is one.
    pub fn gather<W: Wire>(&mut self, wire: &mut W, layout: &Layout) -> Result<bool, Failed>
        requires good { IsGood layout.now }
        requires room { HEAD_SIZE ≤ self.old.room }
        requires lane { IsLane layout.now self.old.room self.old.bytes (W.told wire.old).transit }
        ensures taken { FrameTaken layout.now self.old.bytes self.new.bytes (is_err result) (W.told wire.old) (W.told wire.new) (W.faults wire.old) (W.faults wire.new) }
        ensures some { IfOk result (λ whole. whole ≡ nat_lt 0 (length self.new.bytes)) }
        ensures room { self.new.room ≡ self.old.room }
        ensures waiting { self.new.waiting ≡ self.old.waiting }
    {
        let filled = fill_frame(wire, &mut self.buffer, self.count, layout);
        self.count = filled.count;
        if filled.failed {
            Err(Failed)
        } else {
            Ok(filled.count > 0)
        }
    }
}
