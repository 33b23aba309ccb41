//! What carries bytes from one side to the other.

ghost use Rattle.std.specs.Prelude.{◌≡◌, ℕ, ◌<◌, ◌≤◌, length, take, min, OnOk, is_err};
ghost use Rattle.xv_wire.specs.Wire.{PutBytes, TakeBytes, taken};
ghost use Rattle.xv_wire.specs.Told.{Told, MayCall, CallMade};

use xv_base::Failed;

/// Bytes that a put has at least.
pub const LEAST_PUT: u32 = 24;

/// A pipe of bytes. A call that fails changes no byte in transit.
pub trait Wire {
    /// The capacity, the bytes in transit, and where it tells them its plan with what it counts.
    ghost told: { Self → Told };

    /// How many calls have failed.
    ghost faults: { Self → ℕ };

    /// How many bytes may be in transit at once; this never changes.
    fn capacity(&self) -> u32
        ensures { result ≡ (told self.now).capacity };

    /// Appends `LEAST_PUT` bytes or more, for which there is room, to those in transit.
    fn put(&mut self, bytes: &[u8]) -> Result<(), Failed>
        requires { MayCall (PutBytes bytes.now) (told self.old) }
        ensures { CallMade (PutBytes bytes.now) (is_err result) (told self.old) (told self.new) (faults self.old) (faults self.new) };

    /// Moves the first bytes in transit to the start of `into`, at least one where there are any, and answers how
    /// many. What stands behind them in `into` is anything.
    fn take(&mut self, into: &mut [u8]) -> Result<u32, Failed>
        requires { 0 < length into.old }
        ensures made { CallMade (TakeBytes (taken result)) (is_err result) (told self.old) (told self.new) (faults self.old) (faults self.new) }
        ensures most { taken result ≤ min (length into.old) (length (told self.old).transit) }
        ensures some { OnOk result (0 < length (told self.old).transit → 0 < taken result) }
        ensures gives { OnOk result (take (taken result) into.new ≡ take (taken result) (told self.old).transit) };
}
