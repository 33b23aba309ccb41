//! Where bytes come from.

ghost use Rattle.std.specs.Prelude.{◌≡◌, ℕ, Option, ◌<◌, ◌≤◌, List, length, take, IfOk, OnOk, OnErr};
ghost use Rattle.xv_base.specs.Calls.{CountRose};
ghost use Rattle.xv_io.specs.Io.{EndsAtZero, GaveFirst};

use xv_base::Failed;

/// An input. Whether it tells its bytes never changes.
pub trait Source {
    /// The bytes that are left, where it tells them.
    ghost left: { Self → Option (List ℕ) };

    /// How many calls have failed.
    ghost faults: { Self → ℕ };

    /// Reads the first bytes left, at most as many as `into` holds, into its first places, and answers how
    /// many. 0 is the end of input. A call that fails gives nothing. The count of faults rises exactly there.
    fn read(&mut self, into: &mut [u8]) -> Result<usize, Failed>
        requires { 0 < length into.old }
        ensures fits { IfOk result (λ n. n ≤ length into.old) }
        ensures gives { IfOk result (λ n. GaveFirst (left self.old) (left self.new) (take n into.new)) }
        ensures ends { IfOk result (λ n. EndsAtZero (left self.old) n) }
        ensures stays { OnErr result (left self.new ≡ left self.old) }
        ensures failed { OnErr result (CountRose (faults self.old) (faults self.new)) }
        ensures quiet { OnOk result (faults self.new ≡ faults self.old) }
        ensures counts { faults self.old ≤ faults self.new };
}
