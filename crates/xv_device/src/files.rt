//! What makes devices by their names, and takes them back.

ghost use Rattle.std.specs.Prelude.{◌≡◌, ℕ, ◌≤◌, Option, None, Some, IfOk, IsErrOf};
ghost use Rattle.xv_base.specs.Calls.{CountRose};
ghost use Rattle.xv_device.specs.Files.{Pair, IsWithin, IsMade};

use crate::device::UnitDevice;
use std::alloc::Global;
use xv_base::{Init, Layout};

/// Why a device was not made.
#[derive(Clone, Copy, Debug, PartialEq, Eq)]
pub enum MakeFault {
    /// What stands behind the name could not be made or filled.
    Failed,
    /// There was no memory.
    NoMemory,
}

/// Makes the devices of a migration by their names, and takes the two back once it is over.
pub trait Files {
    /// A device that it makes; another thread may use it.
    type Device: UnitDevice + Send + Drop;

    /// The pair that was given back, if one was.
    ghost pair: { Self → Option (Pair Self.Device) };

    /// How many calls have failed.
    ghost faults: { Self → ℕ };

    /// Makes the device of this name. A unit begins with the first pattern that `init` has for it, else as zeros.
    ///
    /// Errors: `Failed` where the count of faults rose; what then stands behind the name is not said.
    fn create(
        &mut self,
        alloc: Global,
        name: &str,
        layout: &Layout,
        init: &[Init],
    ) -> Result<Self::Device, MakeFault>
        requires { IsWithin layout.now init.now }
        ensures made { IfOk result (λ device. IsMade layout.now init.now (Self.Device.told device) (Self.Device.faults device)) }
        ensures pair { pair self.new ≡ pair self.old }
        ensures failed { IsErrOf result MakeFault.Failed → CountRose (faults self.old) (faults self.new) }
        ensures quiet { ¬ IsErrOf result MakeFault.Failed → faults self.new ≡ faults self.old };

    /// Takes the source and the destination back.
    fn give_back(&mut self, source: Self::Device, dest: Self::Device)
        requires { pair self.old ≡ None }
        ensures pair { pair self.new ≡ Some (record { source = source; dest = dest }) }
        ensures quiet { faults self.new ≡ faults self.old };
}
