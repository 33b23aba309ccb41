//! What keeps the bytes of a machine's units.

ghost use Rattle.std.specs.Prelude.{◌≡◌, ℕ, length, OnOk, IfSome, is_err};
ghost use Rattle.xv_device.specs.Device.{ReadRange, PatchRange, WriteUnit, FlushAll, range_of};
ghost use Rattle.xv_device.specs.Told.{Told, MayCall, CallMade, IsSized};

use xv_base::{Failed, UnitId};

/// A content of its size for each unit of a layout, whichever call was made. A call that fails changes no content and no
/// number of writes.
pub trait UnitDevice {
    /// The layout, how many writes of each unit succeeded, and where it tells them the contents, and its plan with
    /// what it counts.
    ghost told: { Self → Told };

    /// How many calls have failed.
    ghost faults: { Self → ℕ };

    /// Reads the bytes of a unit from an offset on, as many as `into` holds.
    fn read(&mut self, unit: UnitId, offset: u32, into: &mut [u8]) -> Result<(), Failed>
        requires { MayCall (ReadRange unit.0 offset (length into.old)) (told self.old) }
        ensures made { CallMade (ReadRange unit.0 offset (length into.old)) (is_err result) (told self.old) (told self.new) (faults self.old) (faults self.new) }
        ensures gives { OnOk result (IfSome (told self.old).contents (λ contents. into.new ≡ range_of unit.0 offset (length into.old) contents)) }
        ensures sized { IsSized (told self.old) };

    /// Writes a whole unit.
    fn write(&mut self, unit: UnitId, bytes: &[u8]) -> Result<(), Failed>
        requires { MayCall (WriteUnit unit.0 bytes.now) (told self.old) }
        ensures made { CallMade (WriteUnit unit.0 bytes.now) (is_err result) (told self.old) (told self.new) (faults self.old) (faults self.new) }
        ensures sized { IsSized (told self.old) };

    /// Writes the bytes of a unit from an offset on.
    fn patch(&mut self, unit: UnitId, offset: u32, bytes: &[u8]) -> Result<(), Failed>
        requires { MayCall (PatchRange unit.0 offset bytes.now) (told self.old) }
        ensures made { CallMade (PatchRange unit.0 offset bytes.now) (is_err result) (told self.old) (told self.new) (faults self.old) (faults self.new) }
        ensures sized { IsSized (told self.old) };

    /// Makes sure of all that was written.
    fn flush(&mut self) -> Result<(), Failed>
        requires { MayCall FlushAll (told self.old) }
        ensures made { CallMade FlushAll (is_err result) (told self.old) (told self.new) (faults self.old) (faults self.new) }
        ensures sized { IsSized (told self.old) };
}
