//! The copies of the disks, as the events look at them.

ghost use Rattle.std.specs.Prelude.{◌≡◌, ◌<◌, [], length, map, get_or};
ghost use Rattle.xv_model.specs.View.{no_disk, is_copied, is_inside, is_empty, block_side, waits_for, all_copied_by, queues_empty};
ghost use Rattle.xv_source.specs.Kept.{numbers_of, IsCopyOf};

use crate::disk::DiskCopy;
use crate::source::SourceHalf;
use xv_base::{GuestId, Side};
use xv_device::UnitDevice;
use xv_filter::place;

impl DiskCopy {
    /// Whether a disk of so many blocks is behind, with no region.
    pub fn is_copied(&self, blocks: u32) -> bool
        ensures { result ≡ is_copied blocks (numbers_of self.now) }
    {
        self.region.cursor() == blocks && self.region.length() == 0
    }

    /// Whether a block lies in the region.
    pub fn is_inside(&self, block: u32) -> bool
        ensures { result ≡ is_inside (numbers_of self.now) block }
    {
        self.side(block) == Side::Inside
    }

    /// The side of a block.
    pub fn side(&self, block: u32) -> Side
        ensures { result ≡ block_side (numbers_of self.now) block }
    {
        place(self.region.cursor(), self.region.length(), block)
    }

    /// Whether a guest waits.
    #[tactic(auto, using(crate::proofs::AllDisks::waits_same))]
    pub fn holds(&self, guest: GuestId) -> bool
        ensures { result ≡ waits_for self.now.queue guest.0 }
    {
        self.queue.holds(guest)
    }

    /// Whether nobody waits.
    pub fn is_free(&self) -> bool
        ensures { result ≡ is_empty self.now.queue }
    {
        self.queue.front().is_none()
    }
}

impl<S: UnitDevice> SourceHalf<S> {
    /// The copy of a disk.
    pub(crate) fn copy(&self, disk: u8) -> &DiskCopy
        requires { disk < length self.now.disks }
        ensures numbers { numbers_of result.now ≡ get_or self.now.disks disk no_disk }
        ensures read { result.now.region.read ≡ get_or self.now.regions disk [] }
        ensures disk_in { disk < length self.now.shape.disks }
        ensures kept { IsCopyOf self.now.shape self.now.config.region disk result.now }
    {
        &self.disks[disk as usize]
    }

    /// Whether every disk is behind, with no region.
    pub(crate) fn all_copied(&self) -> bool
        ensures { result ≡ all_copied_by (map (λ s. s.blocks) self.now.shape.disks) self.now.disks }
    {
        for disk in 0..self.layout.disks() {
            if !self.copy(disk).is_copied(self.layout.blocks(disk)) {
                return false;
            }
        }
        true
    }

    /// Whether nobody waits for any disk.
    pub(crate) fn all_free(&self) -> bool
        ensures { result ≡ queues_empty self.now.disks }
    {
        for disk in 0..self.layout.disks() {
            if !self.copy(disk).is_free() {
                return false;
            }
        }
        true
    }
}
