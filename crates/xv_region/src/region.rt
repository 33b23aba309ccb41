//! The region of a disk's blocks that is being copied.

ghost use Rattle.std.specs.Prelude.{◌≡◌, ℕ, true, List, ◌+◌, ◌-◌, ◌^◌, ◌<◌, ◌≤◌, ◌++◌, ◌∷◌, [], min, length, take, drop, IfOk};
ghost use Rattle.std.specs.List.{refill};
ghost use Rattle.std.specs.Borrow.{sem};
ghost use Rattle.xv_region.specs.Copying.{fresh, is_ready, block};
ghost use Rattle.xv_region.specs.Lending.{LendsNext};

use std::alloc::Global;
use std::marker::Model;
use xv_base::NoMemory;

/// How far the copy of a disk is, and the blocks from there on that are being copied.
#[derive(Drop)]
pub struct Region {
    /// How many blocks are behind.
    cursor: u32,
    /// How many blocks the region has; 0 where there is none.
    length: u32,
    /// How many of them were read.
    read: u32,
    /// How many blocks a region has at most.
    most: u32,
    /// How many bytes a block has.
    unit_size: u32,
    /// The places of the region's blocks, one after another.
    bytes: Vec<u8>,
}

impl Model for Region {
    ghost use Rattle.xv_region.specs.Copying.{Copying, place_of, places_of, HasPlaces};

    ghost Value = { Copying };

    ghost view = { λ r. record {
      cursor = r.cursor;
      region = r.length;
      read = places_of r.unit_size r.bytes.items r.read;
      next = place_of r.unit_size r.bytes.items r.read;
      most = r.most;
      size = r.unit_size;
    } };

    ghost invariant = { λ r. HasPlaces r.cursor r.length r.read r.most r.unit_size r.bytes.items };
}

impl Region {
    /// Nothing copied and no region. All memory is taken here, for `most` blocks of `unit_size` bytes.
    pub fn new(alloc: Global, most: u32, unit_size: u32) -> Result<Region, NoMemory>
        requires { 0 < most }
        ensures { IfOk result (λ region. region ≡ fresh most unit_size) }
    {
        let Ok(bytes) = Vec::from_elem(alloc, 0, most as usize * unit_size as usize) else {
            return Err(NoMemory);
        };
        Ok(Region {
            cursor: 0,
            length: 0,
            read: 0,
            most,
            unit_size,
            bytes,
        })
    }

    /// Begins a region at the cursor, of a disk of `blocks` blocks, and answers its length: the most that it may
    /// have, or the blocks that are left where these are fewer. There is no region yet, and a block is left.
    pub fn begin(&mut self, blocks: u32) -> u32
        requires none_yet { self.old.region ≡ 0 }
        requires some_left { self.old.cursor < blocks }
        ensures length { result ≡ min self.old.most (blocks - self.old.cursor) }
        ensures some { 0 < result }
        ensures begun { self.new ≡ record self.old { region = result; read = [] } }
    {
        self.length = self.most.min(blocks - self.cursor);
        self.length
    }

    /// Lends the place of the next block, to be written; one is left to read.
    pub fn buffer(&mut self) -> &mut [u8]
        requires { length self.old.read < self.old.region }
        ensures* writes_back { sem 𝓛 (LendsNext self.entry result) }
        ensures value { result.now ≡ self.old.next }
        ensures size { length result.now ≡ self.old.size }
        // What fills the place is what stands there then.
        ensures filled { (bytes : List ℕ) → length bytes ≡ self.old.size → refill self.old.size self.old.next bytes ≡ bytes }
    {
        let from = self.read as usize * self.unit_size as usize;
        self.bytes.slice_mut(from..from + self.unit_size as usize)
    }

    /// Counts the block that stands in the place of the next as read; one is left to read.
    #[tactic(auto, using(crate::proofs::Places::length_places, crate::proofs::Places::places_more))]
    pub fn put_read(&mut self)
        requires { length self.old.read < self.old.region }
        ensures { self.new ≡ record self.old { read = self.old.read ++ self.old.next ∷ []; next = self.new.next } }
    {
        self.read += 1;
    }

    /// Whether there is a region and all of it was read.
    #[tactic(auto, using(crate::proofs::Places::length_places))]
    pub fn ready(&self) -> bool
        ensures { result ≡ is_ready self.now }
    {
        self.length > 0 && self.read == self.length
    }

    /// The block of this number among those that were read, from 0 on.
    pub fn copy(&self, i: u32) -> &[u8]
        requires { i < length self.now.read }
        ensures exactly { result.now ≡ block self.now i }
        ensures size { length result.now ≡ self.now.size }
    {
        let size = self.unit_size as usize;
        part(&self.bytes, i as usize * size, size)
    }

    /// Moves the cursor behind the region, which is read, and ends it.
    pub fn advance(&mut self)
        requires { is_ready self.old ≡ true }
        ensures { self.new ≡ record self.old { cursor = self.old.cursor + self.old.region; region = 0; read = []; next = self.new.next } }
    {
        let length = self.length;
        self.abandon();
        self.cursor += length;
    }

    /// Gives the region up, if there is one, and leaves the cursor.
    pub fn abandon(&mut self)
        ensures { self.new ≡ record self.old { region = 0; read = []; next = self.new.next } }
    {
        self.length = 0;
        self.read = 0;
    }

    /// How many blocks are behind.
    pub fn cursor(&self) -> u32
        ensures exactly { result ≡ self.now.cursor }
        ensures small { self.now.cursor + self.now.region < 2 ^ 32 }
    {
        self.cursor
    }

    /// How many blocks the region has; 0 where there is none.
    pub fn length(&self) -> u32
        ensures exactly { result ≡ self.now.region }
        ensures fits { self.now.region ≤ self.now.most }
    {
        self.length
    }

    /// How many blocks of the region were read.
    #[tactic(auto, using(crate::proofs::Places::length_places))]
    pub fn read(&self) -> u32
        ensures exactly { result ≡ length self.now.read }
        ensures within { length self.now.read ≤ self.now.region }
    {
        self.read
    }
}

/// The bytes from `from` on, `count` of them.
fn part(bytes: &[u8], from: usize, count: usize) -> &[u8]
    requires { from + count ≤ length bytes.now }
    ensures { result.now ≡ take count (drop from bytes.now) }
{
    &bytes[from..from + count]
}
