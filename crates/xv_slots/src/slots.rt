//! Slots of one size in one block.

ghost use Rattle.std.specs.Prelude.{◌≡◌, ◌+◌, ◌*◌, ◌<◌, ◌≤◌, length, take, drop, IfOk};
ghost use Rattle.xv_slots.specs.Row.{empty, laid, put, content};

use std::alloc::Global;
use std::marker::Model;
use xv_base::NoMemory;

/// Slots of as many bytes as the width, side by side.
#[derive(Drop)]
pub struct Slots {
    width: u32,
    count: u32,
    bytes: Vec<u8>,
}

impl Model for Slots {
    ghost use Rattle.std.specs.Prelude.{◌≡◌, ◌*◌, length};
    ghost use Rattle.xv_slots.specs.Row.{Row, row_of};

    ghost Value = { Row };

    ghost view = { λ s. row_of s.width s.count s.bytes.items };

    ghost invariant = { λ s. length s.bytes.items ≡ s.count * s.width };
}

impl Slots {
    /// This many slots of this many zero bytes each. All memory is taken here.
    pub fn new(alloc: Global, count: u32, width: u32) -> Result<Slots, NoMemory>
        ensures { IfOk result (λ slots. slots ≡ empty count width) }
    {
        let Ok(bytes) = Vec::from_elem(alloc, 0, count as usize * width as usize) else {
            return Err(NoMemory);
        };
        Ok(Slots {
            width,
            count,
            bytes,
        })
    }

    /// Puts bytes into a slot, from its start on; they are not more than the width.
    pub fn put(&mut self, slot: u32, bytes: &[u8])
        requires slot_in { slot < length self.old.slots }
        requires fits { length bytes.now ≤ self.old.width }
        ensures { self.new ≡ put self.old slot bytes.now }
    {
        copy_in(&mut self.bytes, slot as usize * self.width as usize, bytes);
    }

    /// The first bytes of a slot, this many; they are not more than the width.
    pub fn part(&self, slot: u32, count: u32) -> &[u8]
        requires slot_in { slot < length self.now.slots }
        requires fits { count ≤ self.now.width }
        ensures exactly { result.now ≡ take count (content self.now slot) }
        ensures full { length result.now ≡ count }
    {
        part(
            &self.bytes,
            slot as usize * self.width as usize,
            count as usize,
        )
    }
}

/// The bytes from `at` on, `count` of them.
fn part(bytes: &[u8], at: usize, count: usize) -> &[u8]
    requires { at + count ≤ length bytes.now }
    ensures { result.now ≡ take count (drop at bytes.now) }
{
    &bytes[at..at + count]
}

/// Lays `from` over the bytes from `at` on.
fn copy_in(bytes: &mut [u8], at: usize, from: &[u8])
    requires { at + length from.now ≤ length bytes.old }
    ensures { bytes.new ≡ laid at from.now bytes.old }
{
    bytes[at..at + from.len()].copy_from_slice(from);
}
