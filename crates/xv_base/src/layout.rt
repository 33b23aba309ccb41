//! The layout of a machine's units.

ghost use Rattle.std.specs.Prelude.{◌≡◌, ℕ, ◌+◌, ◌*◌, ◌^◌, ◌<◌, ◌≤◌, IsTrue, IsFalse, ◌-◌, IfOk, IfErr, length, take, replicate, slice_index_or};
ghost use Rattle.xv_base.specs.declared.unit.DiskShape.{DiskShape};
ghost use Rattle.xv_base.specs.Padded.{padded_to};
ghost use Rattle.xv_base.specs.Units.{shape_of, blocks_of, bytes_of, disk_at, block_at, block_size_at, bytes_before, units, all_bytes, is_page, size, disk_of, block_of, unit_of_block, blocks, block_size, max_block_size, max_size, place};
ghost use Rattle.xv_base.specs.Layout.{is_unit_size, disk_fault, layout_fault, IsGood};

use crate::disks::{
    Spot, count_blocks, count_bytes, disk_fault, is_unit_size, locate, max_block_size,
};
use crate::limits::{MOST_BYTES, MOST_DISKS, MOST_UNITS};
use crate::unit::{DiskShape, UnitId};
use std::marker::Model;

/// Why some numbers make no layout, the first of these in this order.
#[derive(Clone, Copy, Debug, PartialEq, Eq)]
pub enum LayoutFault {
    /// There is no page.
    NoPage,
    /// A size is no power of two from 16 to 4,096: that of the pages at 0, that of disk n's blocks at n + 1.
    BadSize(u8),
    /// There are more than 2^20 units.
    TooManyUnits,
    /// The units have more than 2^29 bytes.
    TooManyBytes,
}

/// How many pages there are, of which size, and the disks: at most four, with sizes that are powers of two from
/// 16 to 4,096, at most 2^20 units and 2^29 bytes in all.
#[derive(Clone, Copy, Debug, PartialEq, Eq)]
pub struct Layout {
    pages: u32,
    page_size: u32,
    padded: [DiskShape; MOST_DISKS as usize],
    count: u8,
}

impl Model for Layout {
    ghost use Rattle.std.specs.Prelude.{take, length};
    ghost use Rattle.xv_base.specs.Padded.{IsPadded, padded_to};
    ghost use Rattle.xv_base.specs.Units.{Shape, shape_of};
    ghost use Rattle.xv_base.specs.Layout.{IsGood};

    ghost Value = { Shape };

    ghost view = { λ l. shape_of l.pages l.page_size (take l.count l.padded) };

    ghost invariant = { λ l. IsPadded (record { blocks = 0; block_size = 0 }) 4 l.count l.padded × IsGood (shape_of l.pages l.page_size (take l.count l.padded)) };

    ghost inverse = { λ s. record { pages = s.pages; page_size = s.page_size; padded = padded_to (record { blocks = 0; block_size = 0 }) 4 s.disks; count = length s.disks } };

    ghost inverse_ok = { λ l h i. record { pages = l.pages; page_size = l.page_size; padded = h.0.blanks_follow i; count = h.0.counted i } };
}

impl Layout {
    /// The layout of these pages and disks, of which there are at most four; it takes no memory.
    /// Errors: the first fault of the numbers.
    pub fn new(pages: u32, page_size: u32, disks: &[DiskShape]) -> Result<Layout, LayoutFault>
        requires { length disks.now ≤ MOST_DISKS }
        ensures ok { IfOk result (λ layout. (layout ≡ shape_of pages page_size disks.now) × IsGood layout) }
        ensures fault { IfErr result (λ fault. layout_fault (shape_of pages page_size disks.now) ≡ Some fault) }
    {
        if let Some(fault) = fault_of(pages, page_size, disks) {
            return Err(fault);
        }
        let mut padded = [DiskShape {
            blocks: 0,
            block_size: 0,
        }; MOST_DISKS as usize];
        begin_with(&mut padded, disks);
        Ok(Layout {
            pages,
            page_size,
            padded,
            count: disks.len() as u8,
        })
    }

    /// The disks.
    fn shapes(&self) -> &[DiskShape]
        ensures disks { result.now ≡ self.now.disks }
        ensures good { IsGood self.now }
    {
        &self.padded[..self.count as usize]
    }

    /// How many units there are.
    pub fn units(&self) -> u32
        ensures exactly { result ≡ units self.now }
        ensures good { IsGood self.now }
    {
        self.pages + count_blocks(self.shapes()) as u32
    }

    /// How many units are memory pages.
    pub fn pages(&self) -> u32
        ensures exactly { result ≡ self.now.pages }
        ensures good { IsGood self.now }
    {
        self.pages
    }

    /// How many bytes a page has.
    pub fn page_size(&self) -> u32
        ensures exactly { result ≡ self.now.page_size }
        ensures good { IsGood self.now }
    {
        self.page_size
    }

    /// How many disks there are.
    pub fn disks(&self) -> u8
        ensures exactly { result ≡ length self.now.disks }
        ensures good { IsGood self.now }
    {
        self.count
    }

    /// How many blocks a disk has.
    pub fn blocks(&self, disk: u8) -> u32
        requires { disk < length self.now.disks }
        ensures exactly { result ≡ blocks self.now.disks disk }
        ensures good { IsGood self.now }
    {
        self.padded[disk as usize].blocks
    }

    /// How many bytes each block of a disk has.
    pub fn block_size(&self, disk: u8) -> u32
        requires { disk < length self.now.disks }
        ensures exactly { result ≡ block_size self.now.disks disk }
        ensures good { IsGood self.now }
    {
        self.padded[disk as usize].block_size
    }

    /// How many bytes a unit has.
    pub fn size(&self, unit: UnitId) -> u32
        requires { unit.0 < units self.now }
        ensures exactly { result ≡ size self.now unit.0 }
        ensures good { IsGood self.now }
    {
        if unit.0 < self.pages {
            self.page_size
        } else {
            self.spot(unit).size
        }
    }

    /// Whether a unit is a memory page.
    pub fn is_page(&self, unit: UnitId) -> bool
        requires { unit.0 < units self.now }
        ensures exactly { result ≡ is_page self.now unit.0 }
        ensures good { IsGood self.now }
    {
        unit.0 < self.pages
    }

    /// The disk of a block.
    pub fn disk_of(&self, unit: UnitId) -> u8
        requires in_range { unit.0 < units self.now }
        requires block { self.now.pages ≤ unit.0 }
        ensures exactly { result ≡ disk_of self.now unit.0 }
        ensures good { IsGood self.now }
    {
        self.spot(unit).disk
    }

    /// The number of a block on its disk.
    pub fn block_of(&self, unit: UnitId) -> u32
        requires in_range { unit.0 < units self.now }
        requires block { self.now.pages ≤ unit.0 }
        ensures exactly { result ≡ block_of self.now unit.0 }
        ensures good { IsGood self.now }
    {
        self.spot(unit).block
    }

    /// The unit of a disk's block.
    pub fn unit_of_block(&self, disk: u8, block: u32) -> UnitId
        requires disk_in { disk < length self.now.disks }
        requires block_in { block < blocks self.now.disks disk }
        ensures exactly { result.0 ≡ unit_of_block self.now disk block }
        ensures good { IsGood self.now }
    {
        let before = count_blocks(&self.shapes()[..disk as usize]);
        UnitId(self.pages + before as u32 + block)
    }

    /// The greatest size of a unit.
    pub fn max_size(&self) -> u32
        ensures exactly { result ≡ max_size self.now }
        ensures good { IsGood self.now }
    {
        self.page_size.max(max_block_size(self.shapes()))
    }

    /// How many bytes all units have.
    pub fn bytes(&self) -> u32
        ensures exactly { result ≡ all_bytes self.now }
        ensures good { IsGood self.now }
    {
        self.pages * self.page_size + count_bytes(self.shapes()) as u32
    }

    /// Where a unit's bytes begin, with all units' bytes one after another in rising order.
    pub fn place(&self, unit: UnitId) -> u32
        requires { unit.0 < units self.now }
        ensures exactly { result ≡ place self.now unit.0 }
        ensures good { IsGood self.now }
    {
        if unit.0 < self.pages {
            unit.0 * self.page_size
        } else {
            self.pages * self.page_size + self.spot(unit).place
        }
    }

    /// Where a block stands among the disks.
    fn spot(&self, unit: UnitId) -> Spot
        requires in_range { unit.0 < units self.now }
        requires block { self.now.pages ≤ unit.0 }
        ensures disk { result.disk ≡ disk_of self.now unit.0 }
        ensures block { result.block ≡ block_of self.now unit.0 }
        ensures size { result.size ≡ block_size_at self.now.disks (unit.0 - self.now.pages) }
        ensures place { result.place ≡ bytes_before self.now.disks (unit.0 - self.now.pages) }
        ensures good { IsGood self.now }
    {
        locate(self.shapes(), unit.0 - self.pages)
    }
}

/// What is wrong with these numbers, the first in the order of the faults.
fn fault_of(pages: u32, page_size: u32, disks: &[DiskShape]) -> Option<LayoutFault>
    requires { length disks.now ≤ MOST_DISKS }
    ensures { result ≡ layout_fault (shape_of pages page_size disks.now) }
{
    if pages == 0 {
        return Some(LayoutFault::NoPage);
    }
    if !is_unit_size(page_size) {
        return Some(LayoutFault::BadSize(0));
    }
    if let Some(fault) = disk_fault(disks) {
        return Some(fault);
    }
    if u64::from(pages) + count_blocks(disks) > u64::from(MOST_UNITS) {
        return Some(LayoutFault::TooManyUnits);
    }
    if u64::from(pages) * u64::from(page_size) + count_bytes(disks) > u64::from(MOST_BYTES) {
        return Some(LayoutFault::TooManyBytes);
    }
    None
}

/// Writes the disks to the start of blanks.
fn begin_with(padded: &mut [DiskShape], disks: &[DiskShape])
    requires blanks { padded.old ≡ replicate (length padded.old) (record { blocks = 0; block_size = 0 }) }
    requires fits { length disks.now ≤ length padded.old }
    ensures { padded.new ≡ padded_to (record { blocks = 0; block_size = 0 }) (length padded.old) disks.now }
{
    padded[..disks.len()].copy_from_slice(disks);
}
