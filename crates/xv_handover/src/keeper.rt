//! What keeps a node's value over its restarts.

ghost use Rattle.std.specs.Prelude.{◌≡◌, ℕ, Bool, true, false, OnOk, OnErr, is_err};
ghost use Rattle.xv_base.specs.Calls.{CountRose, next_count};

use xv_base::Failed;

/// Keeps one value.
pub trait Keeper<K> {
    /// The value kept.
    ghost held: { Self → K };

    /// How many calls of `keep` were made.
    ghost calls: { Self → ℕ };

    /// How many of them have failed.
    ghost faults: { Self → ℕ };

    /// A steady keeper never fails.
    ghost steady: { Self → Bool };

    /// Keeps a value. Where it fails the old value stays. The count of faults rises exactly there.
    fn keep(&mut self, value: K) -> Result<(), Failed>
        ensures keeps { OnOk result (held self.new ≡ value) }
        ensures stays { OnErr result (held self.new ≡ held self.old) }
        ensures calls { calls self.new ≡ next_count (calls self.old) }
        ensures failed { OnErr result (CountRose (faults self.old) (faults self.new)) }
        ensures quiet { OnOk result (faults self.new ≡ faults self.old) }
        ensures steady { steady self.new ≡ steady self.old }
        ensures sure { steady self.old ≡ true → is_err result ≡ false };

    /// The value kept.
    fn kept(&self) -> K
        ensures { result ≡ held self.now };
}
