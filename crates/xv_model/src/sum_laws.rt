//! The laws of a unit's numbers and of the outbox's places, each as the contract of a function that does nothing.

ghost use Rattle.std.specs.Prelude.{◌≡◌, ◌≤◌, ◌<◌, ℕ, ◌+◌, Bool, true, false, [], ◌∷◌, length, take, Some, None};
ghost use Rattle.std.specs.List.{list_all};
ghost use Rattle.xv_model.specs.Job.{Job, IsGoodJob};
ghost use Rattle.xv_model.specs.View.{View, number, disk, is_running};
ghost use Rattle.xv_model.specs.Wait.{wait, fits, next_aim, is_mirror};
ghost use Rattle.xv_model.specs.Step.{turns, play, is_run};
ghost use Rattle.xv_model.specs.Outstanding.{outstanding, of_unit};
ghost use Rattle.xv_model.specs.Report.{probe};
ghost use Rattle.xv_model.specs.Invariant.{IsViewOf};
ghost use Rattle.xv_model.specs.Worked.{view_after, totals_after, probe_after};
ghost use Rattle.xv_model.specs.Worked.VersionsEverywhere.{versions_everywhere_job, versions_everywhere_events, versions_everywhere_turns, versions_everywhere_totals};
ghost use Rattle.xv_model.specs.Worked.RoomInTheOutbox.{room_in_the_outbox_job, room_in_the_outbox_events, room_in_the_outbox_turns, room_in_the_outbox_totals};
ghost use Rattle.xv_base.specs.declared.event.Side.TheVariants.{Behind};
ghost use Rattle.xv_base.specs.declared.answer.Why.TheVariants.{Throttled};
ghost use Rattle.xv_base.specs.declared.event.Event.TheVariants.{Guest, Advance, Release, Page};

/// What a probe tells adds up: a unit's versions issued are those applied and those in the outbox, on the streams and held.
pub fn issued_versions_are_applied_or_outstanding()
    ensures probe { (job : Job) (v : View) (unit : ℕ) → IsViewOf job v → (probe job v unit).issued ≡ (probe job v unit).applied + ((probe job v unit).outbox + (probe job v unit).wires + (probe job v unit).held) }
    ensures bag { (job : Job) (v : View) (unit : ℕ) → IsViewOf job v → number v.outbox.issued unit ≡ number v.hold.applied unit + outstanding v (of_unit unit) }
{}

/// Where something goes on that makes messages, the outbox has a place for each: a write behind that is mirrored, a queued
/// write while the guest runs, a page, and each block of a region.
pub fn messages_find_places()
    ensures mirror { (job : Job) (v : View) (g : ℕ) (flag : Bool) → is_mirror (next_aim job v g) ≡ true → wait job v (Guest (record { 0 = g })) flag ≡ None → length v.outbox.messages < job.config.outbox }
    ensures release { (job : Job) (v : View) (d : ℕ) (flag : Bool) → is_running v.phase ≡ true → wait job v (Release d) flag ≡ None → length v.outbox.messages < job.config.outbox }
    ensures page { (job : Job) (v : View) (flag : Bool) → wait job v Page flag ≡ None → length v.outbox.messages < job.config.outbox }
    ensures region { (job : Job) (v : View) (d : ℕ) (flag : Bool) → wait job v (Advance d) flag ≡ None → length v.outbox.messages + (disk v d).region ≤ job.config.outbox }
{}

/// A block's four versions are in four places at once: one applied, one held that waits for the one on the stream, and
/// one in the outbox; and then all are applied.
pub fn versions_everywhere()
    ensures good { IsGoodJob versions_everywhere_job }
    ensures events_fit { list_all (λ e. fits versions_everywhere_job e.event) (play versions_everywhere_job versions_everywhere_events) ≡ true }
    ensures a_run { is_run versions_everywhere_job (play versions_everywhere_job versions_everywhere_events) ≡ true }
    ensures answers { turns versions_everywhere_job versions_everywhere_events ≡ versions_everywhere_turns }
    ensures report { totals_after versions_everywhere_job versions_everywhere_events ≡ versions_everywhere_totals }
    ensures probe_1 { probe_after versions_everywhere_job versions_everywhere_events 13 1 ≡ record { unit = record { 0 = 1 }; side = Behind; issued = 4; applied = 1; outbox = 1; wires = 1; held = 1 } }
    ensures probe_2 { probe_after versions_everywhere_job versions_everywhere_events 19 1 ≡ record { unit = record { 0 = 1 }; side = Behind; issued = 4; applied = 4; outbox = 0; wires = 0; held = 0 } }
{}

/// With two places a queued write, a write behind and a page wait while two messages stand there, and a region of two
/// blocks while one does; each goes on once there is room.
pub fn room_in_the_outbox()
    ensures good { IsGoodJob room_in_the_outbox_job }
    ensures events_fit { list_all (λ e. fits room_in_the_outbox_job e.event) (play room_in_the_outbox_job room_in_the_outbox_events) ≡ true }
    ensures a_run { is_run room_in_the_outbox_job (play room_in_the_outbox_job room_in_the_outbox_events) ≡ true }
    ensures answers { turns room_in_the_outbox_job room_in_the_outbox_events ≡ room_in_the_outbox_turns }
    ensures report { totals_after room_in_the_outbox_job room_in_the_outbox_events ≡ room_in_the_outbox_totals }
    ensures full { length (view_after room_in_the_outbox_job (take 5 room_in_the_outbox_events)).outbox.messages ≡ 2 }
    ensures release_waits { wait room_in_the_outbox_job (view_after room_in_the_outbox_job (take 5 room_in_the_outbox_events)) (Release 0) false ≡ Some Throttled }
    ensures release_goes_on { wait room_in_the_outbox_job (view_after room_in_the_outbox_job (take 8 room_in_the_outbox_events)) (Release 0) false ≡ None }
    ensures mirror { is_mirror (next_aim room_in_the_outbox_job (view_after room_in_the_outbox_job (take 11 room_in_the_outbox_events)) 1) ≡ true }
    ensures mirror_goes_on { wait room_in_the_outbox_job (view_after room_in_the_outbox_job (take 11 room_in_the_outbox_events)) (Guest (record { 0 = 1 })) false ≡ None }
    ensures one_stands { length (view_after room_in_the_outbox_job (take 16 room_in_the_outbox_events)).outbox.messages ≡ 1 }
    ensures region_waits { wait room_in_the_outbox_job (view_after room_in_the_outbox_job (take 16 room_in_the_outbox_events)) (Advance 0) false ≡ Some Throttled }
    ensures region_goes_on { wait room_in_the_outbox_job (view_after room_in_the_outbox_job (take 18 room_in_the_outbox_events)) (Advance 0) false ≡ None }
    ensures page_waits { wait room_in_the_outbox_job (view_after room_in_the_outbox_job (take 20 room_in_the_outbox_events)) Page false ≡ Some Throttled }
    ensures page_goes_on { wait room_in_the_outbox_job (view_after room_in_the_outbox_job (take 22 room_in_the_outbox_events)) Page false ≡ None }
{}
