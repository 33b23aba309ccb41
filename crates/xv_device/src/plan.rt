//! The plan by which the calls of a device in memory fail.

use std::marker::Model;

/// The numbers, from 1, of the calls that are to fail, for each kind; a patch is a write.
#[derive(Drop)]
pub struct DevicePlan {
    pub reads: Vec<u32>,
    pub writes: Vec<u32>,
    pub flushes: Vec<u32>,
}

impl Model for DevicePlan {
    ghost use Rattle.xv_device.specs.Device.{Plan};

    ghost Value = { Plan };

    ghost view = { λ p. record { reads = p.reads.items; writes = p.writes.items; flushes = p.flushes.items } };
}
