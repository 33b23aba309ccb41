//! The laws of what a journal tells of its run, each as the contract of a function that does nothing.

ghost use Rattle.std.specs.Prelude.{◌≡◌, ◌≤◌, ◌<◌, ℕ, ◌^◌, ◌+◌, ◌&&◌, Bool, true, false, List, [], ◌∷◌, ◌++◌, length, take, Some, if◌then◌else◌};
ghost use Rattle.std.specs.List.{list_all, list_any};
ghost use Rattle.xv_model.specs.Job.{Job, IsGoodJob};
ghost use Rattle.xv_model.specs.Guest.{ended};
ghost use Rattle.xv_model.specs.View.{is_switched};
ghost use Rattle.xv_model.specs.Wait.{Event, fits, has_cancel};
ghost use Rattle.xv_model.specs.Effect.{Turn};
ghost use Rattle.xv_model.specs.Step.{Entry, step, turn, run, is_run, is_faithful, is_flagged, is_wait, play};
ghost use Rattle.xv_model.specs.Invariant.{waits_in_all};
ghost use Rattle.xv_model.specs.Work.{bound, is_finished};
ghost use Rattle.xv_model.specs.Driver.{driven};
ghost use Rattle.xv_model.specs.Growth.{happened, is_queued, is_fault, is_rest, rest};
ghost use Rattle.xv_model.specs.Journal.{is_guest, is_of, guest_entries, own_entries, other_entries, releases, releases_told, done_by, faulted_by};
ghost use Rattle.xv_model.specs.Journal.{phase_told, has_switch, has_cancelled, has_failure, is_cancelled, is_failed};
ghost use Rattle.xv_model.specs.Worked.{view_after};
ghost use Rattle.xv_model.specs.Worked.TwoGuestsQueue.{two_guests_queue_job, two_guests_queue_events};
ghost use Rattle.xv_model.specs.Worked.GuestOwnFault.{guest_own_fault_job, guest_own_fault_events};
ghost use Rattle.xv_model.specs.Worked.FirstPath.{first_path_job, first_path_events};
ghost use Rattle.xv_model.specs.Worked.FailedDestination.{failed_destination_job, failed_destination_events};
ghost use Rattle.xv_model.specs.Worked.CancelledWhileStunned.{cancelled_while_stunned_job, cancelled_while_stunned_events};
ghost use Rattle.xv_base.specs.declared.event.Phase.TheVariants.{Running, Stunned, Switched, Cancelled, Failed};
ghost use Rattle.xv_base.specs.declared.event.Event.TheVariants.{Cancel};

/// No entry of a run waits: each is of a guest, and done, queued or faulted, or of another event.
pub fn no_entry_waits()
    ensures { (job : Job) (journal : List Entry) → is_run job journal ≡ true
        → length journal ≡ guest_entries happened journal + guest_entries is_queued journal + guest_entries is_fault journal + other_entries journal }
{}

/// A run's journal is within the job's bound, and its length fits 32 bits.
pub fn journal_fits()
    ensures within { (job : Job) (journal : List Entry) → IsGoodJob job → list_all (λ e. fits job e.event) journal ≡ true
        → is_run job journal ≡ true → length journal ≤ bound job }
    ensures small { (job : Job) (journal : List Entry) → IsGoodJob job → list_all (λ e. fits job e.event) journal ≡ true
        → is_run job journal ≡ true → length journal < 2 ^ 32 }
{}

/// The phase of a run is what its journal tells: failed exactly where an entry failed, cancelled exactly where the
/// cancel happened, switched exactly where the switchover did.
pub fn journal_tells_the_phase()
    ensures told { (job : Job) (journal : List Entry) → is_run job journal ≡ true → (run job journal).phase ≡ phase_told Running journal }
    ensures failed { (job : Job) (journal : List Entry) → is_run job journal ≡ true → is_failed (run job journal).phase ≡ has_failure journal }
    ensures cancelled { (job : Job) (journal : List Entry) → is_run job journal ≡ true
        → is_cancelled (run job journal).phase ≡ has_cancelled journal }
    ensures switched { (job : Job) (journal : List Entry) → is_run job journal ≡ true → is_switched (run job journal).phase ≡ has_switch journal }
{}

/// Where no fault is planned no entry is flagged, and where none is flagged none failed.
pub fn no_fault_means_no_failure()
    ensures no_fault { (job : Job) (journal : List Entry) → job.faults ≡ [] → is_faithful job journal ≡ true
        → list_any (λ e. is_flagged e.turn) journal ≡ false }
    ensures no_flag { (journal : List Entry) → list_any (λ e. is_flagged e.turn) journal ≡ false → has_failure journal ≡ false }
{}

/// A finished run in which no call ended the migration has switched where no cancel was asked for, and is cancelled
/// where one was.
pub fn finished_runs_end_as_asked()
    ensures switched { (job : Job) (journal : List Entry) → IsGoodJob job → list_all (λ e. fits job e.event) journal ≡ true
        → is_run job journal ≡ true → has_failure journal ≡ false → has_cancel job ≡ false → is_finished job (run job journal) ≡ true
        → is_switched (run job journal).phase ≡ true }
    ensures cancelled { (job : Job) (journal : List Entry) → IsGoodJob job → list_all (λ e. fits job e.event) journal ≡ true
        → is_run job journal ≡ true → has_failure journal ≡ false → has_cancel job ≡ true → is_finished job (run job journal) ≡ true
        → is_cancelled (run job journal).phase ≡ true }
{}

/// The cancel comes where the history has just as many entries as it was asked for at, and the mark stays there.
pub fn cancel_comes_at_its_number()
    ensures history { (job : Job) (journal : List Entry) (e : Entry) → is_run job (journal ++ e ∷ []) ≡ true → e.event ≡ Cancel
        → job.config.cancel ≡ Some (length (run job journal).history) }
    ensures mark { (job : Job) (journal : List Entry) → IsGoodJob job → list_all (λ e. fits job e.event) journal ≡ true
        → is_cancelled (run job journal).phase ≡ true → job.config.cancel ≡ Some (run job journal).mark }
{}

/// A guest's own entries in a run's journal are its operations that have ended and its write that waits. The writes that
/// were queued are those that were released and the one that waits; all other operations ended by a guest's own entry.
pub fn guests_have_their_entries()
    ensures own { (job : Job) (journal : List Entry) (guest : ℕ) → IsGoodJob job → list_all (λ e. fits job e.event) journal ≡ true
        → is_run job journal ≡ true
        → own_entries guest happened journal + own_entries guest is_fault journal + own_entries guest is_queued journal ≡
        ended (run job journal).history guest + waits_in_all (run job journal).disks guest }
    ensures ended { (job : Job) (journal : List Entry) (guest : ℕ) → IsGoodJob job → list_all (λ e. fits job e.event) journal ≡ true
        → is_run job journal ≡ true
        → ended (run job journal).history guest ≡
        own_entries guest happened journal + own_entries guest is_fault journal + releases job journal guest }
    ensures queued { (job : Job) (journal : List Entry) (guest : ℕ) → IsGoodJob job → list_all (λ e. fits job e.event) journal ≡ true
        → is_run job journal ≡ true
        → own_entries guest is_queued journal ≡ releases job journal guest + waits_in_all (run job journal).disks guest }
{}

/// By outcome: a guest's operations that were done are its own entries that happened and the releases that told it; those
/// that faulted are its own faults, and the writes that were queued, do not wait and were told by no release.
pub fn outcomes_have_their_entries()
    ensures done { (job : Job) (journal : List Entry) (guest : ℕ) → IsGoodJob job → list_all (λ e. fits job e.event) journal ≡ true
        → is_run job journal ≡ true → done_by (run job journal).history guest ≡ own_entries guest happened journal + releases_told guest journal }
    ensures faulted { (job : Job) (journal : List Entry) (guest : ℕ) → IsGoodJob job → list_all (λ e. fits job e.event) journal ≡ true
        → is_run job journal ≡ true
        → faulted_by (run job journal).history guest + releases_told guest journal + waits_in_all (run job journal).disks guest ≡
        own_entries guest is_fault journal + own_entries guest is_queued journal }
{}

/// The driven run of a job without planned faults switches, or is cancelled where that was asked for.
pub fn driven_runs_end_as_asked()
    ensures switched { (job : Job) → IsGoodJob job → job.faults ≡ [] → has_cancel job ≡ false → is_switched (run job (driven job)).phase ≡ true }
    ensures cancelled { (job : Job) → IsGoodJob job → job.faults ≡ [] → has_cancel job ≡ true → is_cancelled (run job (driven job)).phase ≡ true }
{}

/// A step that does not wait is entered with its answer: the journal is a run as before, and its view is the step's.
pub fn a_step_is_entered()
    ensures runs { (job : Job) (journal : List Entry) (e : Event) (flag : Bool) → is_run job journal ≡ true
        → is_wait (turn job (run job journal) e flag) ≡ false
        → is_run job (journal ++ record { event = e; turn = turn job (run job journal) e flag } ∷ []) ≡ true }
    ensures view { (job : Job) (journal : List Entry) (e : Event) (flag : Bool) → is_wait (turn job (run job journal) e flag) ≡ false
        → run job (journal ++ record { event = e; turn = turn job (run job journal) e flag } ∷ []) ≡ step job (run job journal) e flag }
{}

/// An entry more fits where its event does, and counts as one of its own kind.
pub fn one_entry_more_is_counted()
    ensures fitting { (job : Job) (journal : List Entry) (e : Entry)
        → list_all (λ x. fits job x.event) (journal ++ e ∷ []) ≡ (list_all (λ x. fits job x.event) journal && fits job e.event) }
    ensures guests { (kind : Turn → Bool) (journal : List Entry) (e : Entry)
        → guest_entries kind (journal ++ e ∷ []) ≡ guest_entries kind journal + (if is_guest e.event && kind e.turn then 1 else 0) }
    ensures own { (guest : ℕ) (kind : Turn → Bool) (journal : List Entry) (e : Entry)
        → own_entries guest kind (journal ++ e ∷ []) ≡ own_entries guest kind journal + (if is_of guest e.event && kind e.turn then 1 else 0) }
    ensures others { (journal : List Entry) (e : Entry)
        → other_entries (journal ++ e ∷ []) ≡ other_entries journal + (if is_guest e.event then 0 else 1) }
    ensures rest { (journal : List Entry) (e : Entry) → rest (journal ++ e ∷ []) ≡ rest journal + (if is_rest e then 1 else 0) }
{}

/// Two writes are queued; one is released and has ended, the other still waits, and no other entry is a guest's.
pub fn a_queued_write_is_released()
    ensures entries { length (play two_guests_queue_job (take 9 two_guests_queue_events)) ≡ 7 }
    ensures kinds { (guest_entries happened (play two_guests_queue_job (take 9 two_guests_queue_events)) ≡ 0)
        × (guest_entries is_queued (play two_guests_queue_job (take 9 two_guests_queue_events)) ≡ 2)
        × (guest_entries is_fault (play two_guests_queue_job (take 9 two_guests_queue_events)) ≡ 0)
        × (other_entries (play two_guests_queue_job (take 9 two_guests_queue_events)) ≡ 5) }
    ensures queued { (own_entries 1 is_queued (play two_guests_queue_job (take 9 two_guests_queue_events)) ≡ 1)
        × (own_entries 0 is_queued (play two_guests_queue_job (take 9 two_guests_queue_events)) ≡ 1) }
    ensures released { (releases two_guests_queue_job (play two_guests_queue_job (take 9 two_guests_queue_events)) 1 ≡ 1)
        × (releases two_guests_queue_job (play two_guests_queue_job (take 9 two_guests_queue_events)) 0 ≡ 0) }
    ensures told { releases_told 1 (play two_guests_queue_job (take 9 two_guests_queue_events)) ≡ 1 }
    ensures ended { (ended (view_after two_guests_queue_job (take 9 two_guests_queue_events)).history 1 ≡ 1)
        × (ended (view_after two_guests_queue_job (take 9 two_guests_queue_events)).history 0 ≡ 0) }
    ensures waits { (waits_in_all (view_after two_guests_queue_job (take 9 two_guests_queue_events)).disks 1 ≡ 0)
        × (waits_in_all (view_after two_guests_queue_job (take 9 two_guests_queue_events)).disks 0 ≡ 1) }
{}

/// One guest's write faults and its read is done: two entries of its own, of which one was done and one faulted.
pub fn a_guest_has_a_fault_of_its_own()
    ensures kinds { (own_entries 0 happened (play guest_own_fault_job guest_own_fault_events) ≡ 1)
        × (own_entries 0 is_fault (play guest_own_fault_job guest_own_fault_events) ≡ 1)
        × (own_entries 0 is_queued (play guest_own_fault_job guest_own_fault_events) ≡ 0) }
    ensures outcomes { (done_by (view_after guest_own_fault_job guest_own_fault_events).history 0 ≡ 1)
        × (faulted_by (view_after guest_own_fault_job guest_own_fault_events).history 0 ≡ 1) }
    ensures goes_on { has_failure (play guest_own_fault_job guest_own_fault_events) ≡ false }
{}

/// Three migrations end each in its own way, and each journal tells it: one switches, one fails, and one is cancelled
/// with the one entry that was asked for, and its guest goes on.
pub fn journals_tell_their_ends()
    ensures switches { (has_switch (play first_path_job first_path_events) ≡ true) × (has_failure (play first_path_job first_path_events) ≡ false)
        × (phase_told Running (play first_path_job first_path_events) ≡ Switched)
        × (is_finished first_path_job (view_after first_path_job first_path_events) ≡ true) }
    ensures fails { (has_failure (play failed_destination_job failed_destination_events) ≡ true)
        × (phase_told Running (play failed_destination_job failed_destination_events) ≡ Failed) }
    ensures cancels { (has_cancelled (play cancelled_while_stunned_job cancelled_while_stunned_events) ≡ true)
        × (phase_told Running (play cancelled_while_stunned_job cancelled_while_stunned_events) ≡ Cancelled)
        × (is_finished cancelled_while_stunned_job (view_after cancelled_while_stunned_job cancelled_while_stunned_events) ≡ true) }
    ensures at { (cancelled_while_stunned_job.config.cancel ≡ Some 1)
        × ((view_after cancelled_while_stunned_job cancelled_while_stunned_events).mark ≡ 1)
        × (length (view_after cancelled_while_stunned_job cancelled_while_stunned_events).history ≡ 2) }
    ensures before { (phase_told Running (play cancelled_while_stunned_job (take 7 cancelled_while_stunned_events)) ≡ Stunned)
        × (has_cancelled (play cancelled_while_stunned_job (take 7 cancelled_while_stunned_events)) ≡ false) }
{}
