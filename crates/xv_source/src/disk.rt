//! The copy and the queue of one disk.

use std::marker::Model;
use xv_filter::Queue;
use xv_region::Region;

/// How far the copy of a disk is, and the guests whose writes wait for it.
#[derive(Drop)]
pub struct DiskCopy {
    pub region: Region,
    pub queue: Queue,
}
