//! Sums and searches over the disks of a layout.

ghost use Rattle.std.specs.Prelude.{◌≡◌, ◌+◌, ◌*◌, ◌^◌, ◌<◌, ◌≤◌, max, nat_eq, length, if◌then◌else◌};
ghost use Rattle.xv_base.specs.Units.{blocks_of, bytes_of, disk_at, block_at, block_size_at, bytes_before, max_block_size};
ghost use Rattle.xv_base.specs.Layout.{is_unit_size, disk_fault, fault_if, first_of};

use crate::layout::LayoutFault;
use crate::limits::{LEAST_SIZE, MOST_SIZE};
use crate::unit::DiskShape;

/// A block found by its number over all disks.
#[derive(Clone, Copy)]
pub struct Spot {
    /// Its disk.
    pub disk: u8,
    /// Its number there.
    pub block: u32,
    /// How many bytes it has.
    pub size: u32,
    /// How many bytes of the disks lie before it.
    pub place: u32,
}

/// Finds the block with that number over the disks.
pub fn locate(disks: &[DiskShape], block: u32) -> Spot
    requires few { length disks.now ≤ 4 }
    requires in_range { block < blocks_of disks.now }
    requires fit { bytes_of disks.now < 2 ^ 32 }
    ensures disk { result.disk ≡ disk_at disks.now block }
    ensures block { result.block ≡ block_at disks.now block }
    ensures size { result.size ≡ block_size_at disks.now block }
    ensures place { result.place ≡ bytes_before disks.now block }
{
    let mut left = block;
    let mut before = 0;
    for (i, disk) in disks.iter().enumerate() {
        if left < disk.blocks {
            return Spot {
                disk: i as u8,
                block: left,
                size: disk.block_size,
                place: before + left * disk.block_size,
            };
        }
        left -= disk.blocks;
        before += disk.blocks * disk.block_size;
    }
    unreachable!()
}

/// How many blocks the disks have.
pub fn count_blocks(disks: &[DiskShape]) -> u64
    requires { length disks.now ≤ 4 }
    ensures exactly { result ≡ blocks_of disks.now }
    ensures bounded { result ≤ 2 ^ 34 }
{
    let mut total = 0;
    for disk in disks {
        total += u64::from(disk.blocks);
    }
    total
}

/// How many bytes the disks have.
pub fn count_bytes(disks: &[DiskShape]) -> u64
    requires { bytes_of disks.now < 2 ^ 64 }
    ensures { result ≡ bytes_of disks.now }
{
    let mut total = 0;
    for disk in disks {
        total += u64::from(disk.blocks) * u64::from(disk.block_size);
    }
    total
}

/// The greatest size of a block of the disks, or 0 where they have none.
pub fn max_block_size(disks: &[DiskShape]) -> u32
    ensures { result ≡ max_block_size disks.now }
{
    let mut most = 0;
    for disk in disks {
        most = larger(most, *disk);
    }
    most
}

/// The greater of a size and that of the disk's blocks, where it has any.
fn larger(most: u32, disk: DiskShape) -> u32
    ensures { result ≡ (if nat_eq disk.blocks 0 then most else max most disk.block_size) }
{
    if disk.blocks == 0 {
        most
    } else {
        most.max(disk.block_size)
    }
}

/// Whether a unit may have this size: a power of two from 16 to 4,096.
pub fn is_unit_size(size: u32) -> bool
    ensures { result ≡ is_unit_size size }
{
    size.is_power_of_two() && LEAST_SIZE <= size && size <= MOST_SIZE
}

/// The first disk with blocks of a size that none may have.
pub fn disk_fault(disks: &[DiskShape]) -> Option<LayoutFault>
    requires { length disks.now ≤ 4 }
    ensures { result ≡ disk_fault 1 disks.now }
{
    let mut number = 1;
    for disk in disks {
        if !is_unit_size(disk.block_size) {
            return Some(LayoutFault::BadSize(number));
        }
        number += 1;
    }
    None
}
