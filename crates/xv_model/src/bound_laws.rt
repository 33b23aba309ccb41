//! The laws of the work left, each as the contract of a function that does nothing.

ghost use Rattle.std.specs.Prelude.{◌≡◌, ◌≤◌, ◌+◌, Bool, true, false, List, [], ◌∷◌, length, map};
ghost use Rattle.std.specs.List.{list_all};
ghost use Rattle.xv_model.specs.Job.{Job, IsGoodJob};
ghost use Rattle.xv_model.specs.View.{View, first_view};
ghost use Rattle.xv_model.specs.Wait.{Event, fits};
ghost use Rattle.xv_model.specs.Step.{Entry, step, turn, is_wait, is_flagged, run, is_run, is_faithful, play};
ghost use Rattle.xv_model.specs.Driver.{driven};
ghost use Rattle.xv_model.specs.Invariant.{IsViewOf};
ghost use Rattle.xv_model.specs.Work.{work_left, bound, is_finished};
ghost use Rattle.xv_model.specs.Worked.{view_after};
ghost use Rattle.xv_model.specs.Worked.TwoGuestsQueue.{two_guests_queue_job, two_guests_queue_events};
ghost use Rattle.xv_model.specs.Worked.RoundsPastTheLimit.{rounds_past_the_limit_job, rounds_past_the_limit_events};
ghost use Rattle.xv_model.specs.Worked.SwitchByCreditAlone.{switch_by_credit_alone_job};
ghost use Rattle.xv_model.specs.Worked.FailedDestination.{failed_destination_job};
ghost use Rattle.xv_base.specs.declared.event.Event.TheVariants.{Guest, Begin, Read, Advance, Round, Page, Send, Deliver, Apply, Ack, Credit, Stun, Switch};

/// Every step that does not wait lowers the work left, also where its call fails.
pub fn every_step_lowers_the_work()
    ensures { (job : Job) (v : View) (e : Event) (flag : Bool) → IsGoodJob job → fits job e ≡ true → IsViewOf job v → is_wait (turn job v e flag) ≡ false → work_left job (step job v e flag) + 1 ≤ work_left job v }
{}

/// The work at the beginning is within the job's bound.
pub fn first_work()
    ensures { (job : Job) → IsGoodJob job → work_left job (first_view job) ≤ bound job }
{}

/// The journal of every run, of whatever events in whatever order, and the work left after it are together within the job's bound.
pub fn runs_are_bounded()
    ensures { (job : Job) (journal : List Entry) → IsGoodJob job → list_all (λ e. fits job e.event) journal ≡ true → is_run job journal ≡ true → length journal + work_left job (run job journal) ≤ bound job }
{}

/// Every driven run ends: it is a run of the job's events, its calls fail exactly as planned, it ends finished, and its
/// journal is within the job's bound.
pub fn driven_runs_end()
    ensures fitting { (job : Job) → IsGoodJob job → list_all (λ e. fits job e.event) (driven job) ≡ true }
    ensures runs { (job : Job) → IsGoodJob job → is_run job (driven job) ≡ true }
    ensures faithful { (job : Job) → IsGoodJob job → is_faithful job (driven job) ≡ true }
    ensures finished { (job : Job) → IsGoodJob job → is_finished job (run job (driven job)) ≡ true }
    ensures within { (job : Job) → IsGoodJob job → length (driven job) ≤ bound job }
{}

/// The premises hold of a migration with a queue, in job format 1: its run does ten of the work that there is at first, in eight entries.
pub fn work_of_two_guests_queue()
    ensures good { IsGoodJob two_guests_queue_job }
    ensures fitting { list_all (λ e. fits two_guests_queue_job e.event) (play two_guests_queue_job two_guests_queue_events) ≡ true }
    ensures runs { is_run two_guests_queue_job (play two_guests_queue_job two_guests_queue_events) ≡ true }
    ensures entries { length (play two_guests_queue_job two_guests_queue_events) ≡ 8 }
    ensures work_at_first { work_left two_guests_queue_job (first_view two_guests_queue_job) ≡ 56 }
    ensures work_after { work_left two_guests_queue_job (view_after two_guests_queue_job two_guests_queue_events) ≡ 46 }
    ensures within { bound two_guests_queue_job ≡ 136 }
{}

/// They hold of a migration with rounds beside the copy, in job format 2: its run does thirteen of the work in eleven entries.
pub fn work_of_rounds_past_the_limit()
    ensures good { IsGoodJob rounds_past_the_limit_job }
    ensures fitting { list_all (λ e. fits rounds_past_the_limit_job e.event) (play rounds_past_the_limit_job rounds_past_the_limit_events) ≡ true }
    ensures runs { is_run rounds_past_the_limit_job (play rounds_past_the_limit_job rounds_past_the_limit_events) ≡ true }
    ensures entries { length (play rounds_past_the_limit_job rounds_past_the_limit_events) ≡ 11 }
    ensures work_at_first { work_left rounds_past_the_limit_job (first_view rounds_past_the_limit_job) ≡ 34 }
    ensures work_after { work_left rounds_past_the_limit_job (view_after rounds_past_the_limit_job rounds_past_the_limit_events) ≡ 21 }
    ensures within { bound rounds_past_the_limit_job ≡ 112 }
{}

/// The driven run of a page alone ends with the switchover, after nine entries.
pub fn driven_to_the_switchover()
    ensures good { IsGoodJob switch_by_credit_alone_job }
    ensures journal { map (λ e. e.event) (driven switch_by_credit_alone_job) ≡ Round ∷ Page ∷ Send 0 ∷ Deliver 0 ∷ Apply ∷ Ack ∷ Credit ∷ Stun ∷ Switch ∷ [] }
    ensures finished { is_finished switch_by_credit_alone_job (run switch_by_credit_alone_job (driven switch_by_credit_alone_job)) ≡ true }
    ensures within { bound switch_by_credit_alone_job ≡ 88 }
{}

/// One whose first write at the destination is to fail ends there, after ten entries.
pub fn driven_to_a_failure()
    ensures good { IsGoodJob failed_destination_job }
    ensures journal { map (λ e. e.event) (driven failed_destination_job) ≡ Guest (record { 0 = 0 }) ∷ Begin 0 ∷ Read 0 ∷ Read 0 ∷ Advance 0 ∷ Send 0 ∷ Send 0 ∷ Deliver 0 ∷ Deliver 0 ∷ Apply ∷ [] }
    ensures flags { map (λ e. is_flagged e.turn) (driven failed_destination_job) ≡ false ∷ false ∷ false ∷ false ∷ false ∷ false ∷ false ∷ false ∷ false ∷ true ∷ [] }
    ensures finished { is_finished failed_destination_job (run failed_destination_job (driven failed_destination_job)) ≡ true }
    ensures within { bound failed_destination_job ≡ 128 }
{}
