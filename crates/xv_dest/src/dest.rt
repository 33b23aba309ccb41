//! The destination's half of a migration, and what may be asked of it.

ghost use Rattle.std.specs.Prelude.{◌≡◌, ◌<◌, IfOk, IfErr};
ghost use Rattle.xv_base.specs.Units.{units};
ghost use Rattle.xv_model.specs.View.{number};
ghost use Rattle.xv_dest.specs.Half.{fresh, unwritten};

use std::alloc::Global;
use std::marker::Model;
use xv_base::{Config, Layout, UnitId};
use xv_credit::Freed;
use xv_device::UnitDevice;
use xv_hold::Hold;

/// The destination's half of a migration over a device.
#[derive(Drop)]
pub struct DestHalf<T: UnitDevice> {
    pub(crate) layout: Layout,
    pub(crate) device: T,
    pub(crate) hold: Hold,
    pub(crate) freed: Freed,
    /// The bytes of one unit on their way to the hold or the device.
    pub(crate) unit: Vec<u8>,
}

impl<T: UnitDevice> Model for DestHalf<T> {
    ghost use Rattle.xv_dest.specs.Half.{Dest};
    ghost use Rattle.xv_dest.specs.Kept.{dest_of, IsKept};

    ghost Value = { Dest };

    ghost view = { λ h. dest_of h.layout (T.told h.device) (T.faults h.device) h.hold h.freed };

    ghost invariant = { λ h. IsKept h.layout (T.told h.device) h.hold h.unit.items };
}

impl<T: UnitDevice> DestHalf<T> {
    /// The destination's half of a migration over this device, to which nothing has come. All memory that it needs is
    /// taken here.
    /// Errors: want of memory, with the device as it was.
    pub fn new(alloc: Global, layout: &Layout, config: &Config, device: T) -> Result<DestHalf<T>, T>
        requires layout { (T.told device).shape ≡ layout.now }
        ensures half { IfOk result (λ half. half ≡ fresh layout.now config.now.credit (T.told device) (T.faults device)) }
        ensures back { IfErr result (λ back. back ≡ device) }
    {
        let Ok(hold) = Hold::new(alloc, config.credit, layout) else {
            return Err(device);
        };
        let Ok(unit) = Vec::from_elem(alloc, 0, layout.max_size() as usize) else {
            return Err(device);
        };
        Ok(DestHalf {
            layout: *layout,
            device,
            hold,
            freed: Freed::new(),
            unit,
        })
    }

    /// The device.
    pub fn device(&self) -> &T
        ensures told { T.told result.now ≡ self.now.told }
        ensures faults { T.faults result.now ≡ self.now.faults }
        ensures layout { self.now.told.shape ≡ self.now.shape }
    {
        &self.device
    }

    /// The device as it is.
    pub fn into_device(self) -> T
        ensures told { T.told result ≡ self.told }
        ensures faults { T.faults result ≡ self.faults }
    {
        self.device
    }

    /// The version of a unit that was written last, 0 where none was.
    pub fn version(&self, unit: UnitId) -> u32
        requires { unit.0 < units self.now.shape }
        ensures { result ≡ number self.now.applied unit.0 }
    {
        self.hold.version(unit)
    }

    /// How many messages of a unit are held.
    pub fn held(&self, unit: UnitId) -> u32
        ensures { result ≡ unwritten self.now unit.0 }
    {
        self.hold.count(unit)
    }

    /// How many messages are written and not acknowledged.
    pub fn freed(&self) -> u32
        ensures { result ≡ self.now.freed }
    {
        self.freed.count()
    }
}
