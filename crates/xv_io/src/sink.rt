//! Where bytes go.

ghost use Rattle.std.specs.Prelude.{◌≡◌, ℕ, Bool, false, Option, ◌<◌, ◌≤◌, List, length, take, IfOk, OnOk, OnErr};
ghost use Rattle.xv_base.specs.Calls.{CountRose};
ghost use Rattle.xv_io.specs.Io.{TookMore};

use xv_base::Failed;

/// An output. Whether it tells its bytes never changes.
pub trait Sink {
    /// The bytes taken, where it tells them.
    ghost taken: { Self → Option (List ℕ) };

    /// How many calls have failed.
    ghost faults: { Self → ℕ };

    /// Whether it may have taken bytes that it has not handed on yet.
    ghost keeps_back: { Self → Bool };

    /// Takes the first of these bytes, between one and all, and answers how many. A call that fails takes
    /// nothing. The count of faults rises exactly there.
    fn write(&mut self, bytes: &[u8]) -> Result<usize, Failed>
        requires { 0 < length bytes.now }
        ensures some { IfOk result (λ n. 0 < n) }
        ensures fits { IfOk result (λ n. n ≤ length bytes.now) }
        ensures takes { IfOk result (λ n. TookMore (taken self.old) (taken self.new) (take n bytes.now)) }
        ensures stays { OnErr result (taken self.new ≡ taken self.old) }
        ensures failed { OnErr result (CountRose (faults self.old) (faults self.new)) }
        ensures quiet { OnOk result (faults self.new ≡ faults self.old) }
        ensures counts { faults self.old ≤ faults self.new };

    /// Hands on what it has kept back. The bytes taken stay as they are, also where it fails.
    fn flush(&mut self) -> Result<(), Failed>
        ensures all { OnOk result (keeps_back self.new ≡ false) }
        ensures stays { taken self.new ≡ taken self.old }
        ensures failed { OnErr result (CountRose (faults self.old) (faults self.new)) }
        ensures quiet { OnOk result (faults self.new ≡ faults self.old) }
        ensures counts { faults self.old ≤ faults self.new };
}
