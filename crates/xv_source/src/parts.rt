//! What the half takes memory for, all of it at the start.

ghost use Rattle.std.specs.Prelude.{◌≡◌, ◌<◌, IfSome, length, replicate, true};
ghost use Rattle.xv_base.specs.Units.{max_size};
ghost use Rattle.xv_base.specs.Layout.{IsGood};
ghost use Rattle.xv_dirty.specs.Pages.{no_pages};
ghost use Rattle.xv_outbox.specs.Messages.{fresh};
ghost use Rattle.xv_source.specs.Parts.{fresh_copies};

use crate::disk::DiskCopy;
use std::alloc::Global;
use xv_base::{Config, Layout};
use xv_dirty::DirtySet;
use xv_filter::Queue;
use xv_outbox::Outbox;
use xv_region::Region;

/// The copies, the sets of pages, the outbox, and the place of one unit.
#[derive(Drop)]
pub struct Parts {
    pub disks: Vec<DiskCopy>,
    pub dirty: DirtySet,
    pub to_send: DirtySet,
    pub outbox: Outbox,
    pub unit: Vec<u8>,
}

impl Parts {
    /// The parts of a half over this layout before anything has happened; none for want of memory.
    pub fn new(alloc: Global, layout: &Layout, config: &Config) -> Option<Parts>
        requires { 0 < config.now.region }
        ensures good { IfSome result (λ parts. IsGood layout.now) }
        ensures disks { IfSome result (λ parts. parts.disks.items ≡ fresh_copies config.now.region layout.now.disks) }
        ensures dirty { IfSome result (λ parts. parts.dirty ≡ replicate layout.now.pages true) }
        ensures to_send { IfSome result (λ parts. parts.to_send ≡ no_pages layout.now.pages) }
        ensures outbox { IfSome result (λ parts. parts.outbox ≡ fresh layout.now config.now.outbox) }
        ensures unit { IfSome result (λ parts. length parts.unit.items ≡ max_size layout.now) }
    {
        let disks = copies(alloc, layout, config.region)?;
        let Ok(dirty) = DirtySet::full(alloc, layout.pages()) else {
            return None;
        };
        let Ok(to_send) = DirtySet::empty(alloc, layout.pages()) else {
            return None;
        };
        let Ok(outbox) = Outbox::new(alloc, config.outbox, layout) else {
            return None;
        };
        let Ok(unit) = Vec::from_elem(alloc, 0, layout.max_size() as usize) else {
            return None;
        };
        Some(Parts {
            disks,
            dirty,
            to_send,
            outbox,
            unit,
        })
    }
}

/// A copy of each disk, in regions of at most so many blocks, none of which has begun; none for want of memory.
fn copies(alloc: Global, layout: &Layout, most: u32) -> Option<Vec<DiskCopy>>
    requires { 0 < most }
    ensures { IfSome result (λ disks. disks.items ≡ fresh_copies most layout.now.disks) }
{
    let mut disks = Vec::new(alloc);
    for disk in 0..layout.disks() {
        let Ok(region) = Region::new(alloc, most, layout.block_size(disk)) else {
            return None;
        };
        let queue = Queue::new();
        let Ok(()) = disks.push(DiskCopy { region, queue }) else {
            return None;
        };
    }
    Some(disks)
}
