//! Units, guests, and the two answers that every layer shares.

/// A unit by its number: first the memory pages, then the blocks of disk 0, of disk 1 and so on.
#[derive(Clone, Copy, Debug, PartialEq, Eq)]
pub struct UnitId(pub u32);

/// One activity of the virtual machine, by its number.
#[derive(Clone, Copy, Debug, PartialEq, Eq)]
pub struct GuestId(pub u8);

/// Want of memory.
#[derive(Clone, Copy, Debug, PartialEq, Eq)]
pub struct NoMemory;

/// A call on the outside did not succeed; nothing that the object tells has changed.
#[derive(Clone, Copy, Debug, PartialEq, Eq)]
pub struct Failed;

/// How many blocks a disk has, and how many bytes each block.
#[derive(Clone, Copy, Debug, PartialEq, Eq)]
pub struct DiskShape {
    pub blocks: u32,
    pub block_size: u32,
}
