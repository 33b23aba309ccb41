//! No write of a guest is lost: the laws of what a journal tells, each as the contract of a function that does nothing.

ghost use Rattle.std.specs.Prelude.{◌≡◌, true, length, drop};
ghost use Rattle.xv_model.specs.Wait.{Event};
ghost use Rattle.xv_model.specs.Effect.{Turn};
ghost use Rattle.xv_job.specs.Written.{job_of};
ghost use Rattle.xv_core.specs.Seen.{Seen};
ghost use Rattle.xv_core.specs.Keeping.{IsKept, tells};
ghost use Rattle.xv_core.specs.Stepped.{KeepsUnwritten, IsStep};
ghost use Rattle.xv_core.specs.Losing.{LosesNothing, LeavesUnwritten, read_between};

/// No migration loses a write: whatever has happened to it, also where it has failed or is cancelled.
pub fn migrations_lose_nothing()
    ensures { (m : Seen) → IsKept m → tells m.source ≡ true → tells m.dest ≡ true → LosesNothing m }
{}

/// What is kept of units that no message was written to is kept by what the journal tells.
pub fn unwritten_units_are_left()
    ensures { (start m : Seen) → IsKept m → KeepsUnwritten start m → LeavesUnwritten start m }
{}

/// What a step reads for its guest is what the unmigrated guest reads there.
pub fn steps_read_what_is_told()
    ensures { (old new : Seen) (e : Event) (a : Turn) → IsKept old → IsKept new → IsStep old e a new → tells old.source ≡ true → tells old.dest ≡ true → drop (length old.reads) new.reads ≡ read_between (job_of old.job) old.journal new.journal }
{}
