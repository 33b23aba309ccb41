//! Laws of what a migration comes from and of its steps, each as the contract of a function that does nothing.

ghost use Rattle.std.specs.Prelude.{◌≡◌, ◌≤◌, ◌<◌, ◌^◌, ◌&&◌, true, length, drop};
ghost use Rattle.xv_model.specs.Guest.{read_bytes};
ghost use Rattle.xv_model.specs.Wait.{Event};
ghost use Rattle.xv_model.specs.Effect.{Turn};
ghost use Rattle.xv_model.specs.Step.{step, is_flagged};
ghost use Rattle.xv_model.specs.Work.{bound};
ghost use Rattle.xv_job.specs.Written.{job_of};
ghost use Rattle.xv_core.specs.Seen.{Seen, view_of};
ghost use Rattle.xv_core.specs.Stepped.{IsStep};
ghost use Rattle.xv_core.specs.Keeping.{IsKept, tells};
ghost use Rattle.xv_core.specs.Origin.{HasOrigin};

/// A migration comes from itself, after a step still from all that it came from before, and from what its origin comes from.
pub fn origins_are_kept()
    ensures itself { (m : Seen) → HasOrigin m m }
    ensures after_a_step { (start old new : Seen) (e : Event) (a : Turn) → HasOrigin start old → IsStep old e a new → HasOrigin start new }
    ensures over_another { (start old new : Seen) → HasOrigin start old → HasOrigin old new → HasOrigin start new }
{}

/// The view after a step is the machine's step of the view before.
pub fn views_are_stepped()
    ensures { (old new : Seen) (e : Event) (a : Turn) → IsStep old e a new → view_of new ≡ step (job_of old.job) (view_of old) e (is_flagged a) }
{}

/// Where both devices tell what they hold, the bytes that a step has read are those from the place where the earlier ones end:
/// what the unmigrated guest reads there.
pub fn reads_are_told_from_their_place()
    ensures { (old new : Seen) (e : Event) (a : Turn) → IsKept old → IsKept new → (tells old.source && tells old.dest) ≡ true → IsStep old e a new → drop (length old.reads) new.reads ≡ read_bytes (job_of old.job) (view_of new).history (length (view_of old).history) }
{}

/// The journal of every migration is within the bound of its job, and its length fits 32 bits.
pub fn journals_are_short()
    ensures within { (m : Seen) → IsKept m → length m.journal ≤ bound (job_of m.job) }
    ensures short { (m : Seen) → IsKept m → length m.journal < 2 ^ 32 }
{}
