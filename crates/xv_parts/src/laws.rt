//! What holds of every migration in memory, each as the contract of a function that does nothing.

ghost use Rattle.std.specs.Prelude.{◌≡◌, ◌<◌, ℕ, ◌+◌, ◌-◌, true, ◌++◌, length, drop, Some};
ghost use Rattle.xv_device.specs.Device.{write_count};
ghost use Rattle.xv_model.specs.Job.{unit_count};
ghost use Rattle.xv_model.specs.Guest.{writes, read_bytes};
ghost use Rattle.xv_model.specs.View.{number};
ghost use Rattle.xv_model.specs.Wait.{Event, fits};
ghost use Rattle.xv_model.specs.Effect.{Turn};
ghost use Rattle.xv_model.specs.Step.{calls, call_of, step, turn, flag, is_faithful};
ghost use Rattle.xv_model.specs.Report.{source_length};
ghost use Rattle.xv_job.specs.Written.{Written, job_of};
ghost use Rattle.xv_core.specs.Seen.{Seen, view_of};
ghost use Rattle.xv_core.specs.Stepped.{IsStep};
ghost use Rattle.xv_core.specs.Keeping.{IsKept};
ghost use Rattle.xv_parts.specs.Memory.{begun_in_memory, IsInMemory};
ghost use Rattle.xv_parts.specs.Sides.{sources, dests};

/// A migration begins in memory.
pub fn begins_in_memory()
    ensures { (w : Written) → IsKept (begun_in_memory w) → IsInMemory (begun_in_memory w) }
{}

/// Every step leaves it there.
pub fn steps_stay_in_memory()
    ensures { (m n : Seen) (e : Event) (a : Turn) → IsInMemory m → fits (job_of m.job) e ≡ true → IsStep m e a n → IsKept n → IsInMemory n }
{}

/// Entries of its journal are flagged exactly where the job's faults name the number of their call.
pub fn planned_calls_fail_alone()
    ensures { (m : Seen) → IsInMemory m → is_faithful (job_of m.job) m.journal ≡ true }
{}

/// Every step is the machine's, with the flag that the job's faults give it, and makes the machine's call.
pub fn steps_are_planned()
    ensures answer { (m n : Seen) (e : Event) (a : Turn) → IsInMemory m → fits (job_of m.job) e ≡ true → IsStep m e a n → IsKept n → a ≡ turn (job_of m.job) (view_of m) e (flag (job_of m.job) (view_of m) (calls (job_of m.job) m.journal) e) }
    ensures view { (m n : Seen) (e : Event) (a : Turn) → IsInMemory m → fits (job_of m.job) e ≡ true → IsStep m e a n → IsKept n → view_of n ≡ step (job_of m.job) (view_of m) e (flag (job_of m.job) (view_of m) (calls (job_of m.job) m.journal) e) }
    ensures calls { (m n : Seen) (e : Event) (a : Turn) → IsInMemory m → fits (job_of m.job) e ≡ true → IsStep m e a n → IsKept n → calls (job_of m.job) n.journal ≡ calls (job_of m.job) m.journal ++ call_of (job_of m.job) (view_of m) e a }
{}

/// What a step reads is what the unmigrated guest reads there, and nothing where the guest read nothing.
pub fn reads_are_the_guests()
    ensures { (m n : Seen) (e : Event) (a : Turn) → IsInMemory m → fits (job_of m.job) e ≡ true → IsStep m e a n → IsKept n → drop (length m.reads) n.reads ≡ read_bytes (job_of m.job) (view_of n).history (length (view_of m).history) }
{}

/// Each side holds of each unit what the unmigrated guest's contents say, and the destination zeros of what was not written.
pub fn sides_are_the_guests()
    ensures source { (m : Seen) → IsInMemory m → m.source.told.contents ≡ Some (sources (job_of m.job) (view_of m)) }
    ensures dest { (m : Seen) → IsInMemory m → m.dest.told.contents ≡ Some (dests (job_of m.job) (view_of m)) }
{}

/// Each side has counted of each unit the writes that the history says: the source those until the switchover, the
/// destination the versions applied and the writes after it.
pub fn writes_are_the_guests()
    ensures source { (m : Seen) (unit : ℕ) → IsInMemory m → unit < unit_count (job_of m.job) → write_count m.source.told.writes unit ≡ writes (job_of m.job) (view_of m).history unit (source_length (view_of m)) }
    ensures dest { (m : Seen) (unit : ℕ) → IsInMemory m → unit < unit_count (job_of m.job) → write_count m.dest.told.writes unit ≡ number (view_of m).hold.applied unit + (writes (job_of m.job) (view_of m).history unit (length (view_of m).history) - writes (job_of m.job) (view_of m).history unit (source_length (view_of m))) }
{}
