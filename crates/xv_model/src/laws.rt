//! The laws of the machine, each as the contract of a function that does nothing.

ghost use Rattle.std.specs.Prelude.{◌≡◌, ◌≤◌, ◌<◌, ℕ, ◌+◌, ◌&&◌, Bool, true, false, List, [], ◌∷◌, ◌++◌, length, get_or, None, is_some, is_none, IsSomeAnd};
ghost use Rattle.std.specs.List.{list_all, list_any};
ghost use Rattle.xv_model.specs.Job.{Job, IsGoodJob, unit_count};
ghost use Rattle.xv_model.specs.View.{View, first_view, number, no_message, front_group, is_switched};
ghost use Rattle.xv_model.specs.Wait.{Event, wait, fits, has_cancel};
ghost use Rattle.xv_model.specs.Effect.{batch};
ghost use Rattle.xv_model.specs.Outstanding.{any, count, count_streams, on_the_way, outstanding, is_version, is_message};
ghost use Rattle.xv_model.specs.Step.{Entry, step, run, turn, call, calls, is_flagged, same_turn, is_run, same_truth, is_planned, is_faithful};
ghost use Rattle.xv_model.specs.Invariant.{IsViewOf};
ghost use Rattle.xv_model.specs.Guest.{content};
ghost use Rattle.xv_model.specs.Contents.{Contents, HoldsContents, first_contents, contents_after, unit_content};
ghost use Rattle.xv_model.specs.Work.{is_finished};
ghost use Rattle.xv_model.specs.Driver.{driver_events, next_event};
ghost use Rattle.xv_base.specs.declared.event.Event.TheVariants.{Send, Deliver, Apply, Ack, Credit};

/// Every migration begins in a view that meets the view invariant.
pub fn first_view_holds()
    ensures { (job : Job) → IsGoodJob job → IsViewOf job (first_view job) }
{}

/// Every step keeps the view invariant: whatever the event, whether it waits, goes on, or its call fails.
pub fn step_keeps_the_view()
    ensures { (job : Job) (v : View) (e : Event) (flag : Bool) → IsGoodJob job → fits job e ≡ true → IsViewOf job v → IsViewOf job (step job v e flag) }
{}

/// Every run, of whatever events in whatever order, ends in a view that meets the view invariant.
pub fn every_run_holds()
    ensures { (job : Job) (journal : List Entry) → IsGoodJob job → list_all (λ e. fits job e.event) journal ≡ true → IsViewOf job (run job journal) }
{}

/// The window: what is sent and not written is within the credit, and what is made and not sent within the outbox.
pub fn window_holds()
    ensures on_the_way { (job : Job) (v : View) → IsViewOf job v → on_the_way v any ≤ job.config.credit }
    ensures outbox { (job : Job) (v : View) → IsViewOf job v → length v.outbox.messages ≤ job.config.outbox }
    ensures acknowledgements { (job : Job) (v : View) → IsViewOf job v → length v.acks ≤ job.config.credit }
{}

/// Every outstanding message is of a unit that is there, of a version above the one applied and at most the one issued,
/// which is outstanding once, and was made after a beginning of the history.
pub fn outstanding_messages_are_in_range()
    ensures units { (job : Job) (v : View) (unit version : ℕ) → IsViewOf job v → 0 < outstanding v (is_version unit version) → unit < unit_count job }
    ensures above_applied { (job : Job) (v : View) (unit version : ℕ) → IsViewOf job v → 0 < outstanding v (is_version unit version) → number v.hold.applied unit < version }
    ensures issued { (job : Job) (v : View) (unit version : ℕ) → IsViewOf job v → 0 < outstanding v (is_version unit version) → version ≤ number v.outbox.issued unit }
    ensures once { (job : Job) (v : View) (unit version : ℕ) → IsViewOf job v → outstanding v (is_version unit version) ≤ 1 }
    ensures made_after { (job : Job) (v : View) (unit version at : ℕ) → IsViewOf job v → 0 < outstanding v (is_message unit version at) → at ≤ length v.history }
{}

/// Where a send goes on, it takes at least one message, all from the outbox, and there is room for them in the window.
pub fn send_fits()
    ensures some { (job : Job) (v : View) (stream : ℕ) (flag : Bool) → IsGoodJob job → IsViewOf job v → wait job v (Send stream) flag ≡ None → 1 ≤ batch job v }
    ensures of_messages { (job : Job) (v : View) (stream : ℕ) (flag : Bool) → IsGoodJob job → IsViewOf job v → wait job v (Send stream) flag ≡ None → batch job v ≤ length v.outbox.messages }
    ensures of_group { (job : Job) (v : View) (stream : ℕ) (flag : Bool) → IsGoodJob job → IsViewOf job v → wait job v (Send stream) flag ≡ None → batch job v ≤ job.group }
    ensures of_credit { (job : Job) (v : View) (stream : ℕ) (flag : Bool) → IsGoodJob job → IsViewOf job v → wait job v (Send stream) flag ≡ None → batch job v ≤ v.credit }
    ensures in_window { (job : Job) (v : View) (stream : ℕ) (flag : Bool) → IsGoodJob job → IsViewOf job v → wait job v (Send stream) flag ≡ None → count_streams any v.streams + length v.hold.held + batch job v ≤ job.config.credit }
{}

/// The group that a stream would deliver fits the hold, and each of its messages is of a unit that is there, is above
/// the version applied, stands once in the group and is not held.
pub fn front_group_fits()
    ensures in_window { (job : Job) (v : View) (stream : ℕ) → IsViewOf job v → length (front_group v stream) + length v.hold.held ≤ job.config.credit }
    ensures units { (job : Job) (v : View) (stream i : ℕ) → IsViewOf job v → i < length (front_group v stream) → (get_or (front_group v stream) i no_message).unit.0 < unit_count job }
    ensures above_applied { (job : Job) (v : View) (stream i : ℕ) → IsViewOf job v → i < length (front_group v stream) → number v.hold.applied (get_or (front_group v stream) i no_message).unit.0 < (get_or (front_group v stream) i no_message).version }
    ensures once { (job : Job) (v : View) (stream i : ℕ) → IsViewOf job v → i < length (front_group v stream) → count (is_version (get_or (front_group v stream) i no_message).unit.0 (get_or (front_group v stream) i no_message).version) (front_group v stream) ≡ 1 }
    ensures not_held { (job : Job) (v : View) (stream i : ℕ) → IsViewOf job v → i < length (front_group v stream) → count (is_version (get_or (front_group v stream) i no_message).unit.0 (get_or (front_group v stream) i no_message).version) v.hold.held ≡ 0 }
{}

/// Where a stream delivers, its front group is there, and has at least one message.
pub fn deliver_finds_a_group()
    ensures { (job : Job) (v : View) (stream : ℕ) → IsGoodJob job → IsViewOf job v → wait job v (Deliver stream) false ≡ None → 1 ≤ length (front_group v stream) }
{}

/// Where a message is written, one place more is freed than there was, and no more than the credit.
pub fn apply_fits()
    ensures { (job : Job) (v : View) (flag : Bool) → IsViewOf job v → wait job v Apply flag ≡ None → v.freed + 1 ≤ job.config.credit }
{}

/// Where an acknowledgement is sent, it is of one place up to the credit, and fits the way back.
pub fn acknowledgement_fits()
    ensures some { (job : Job) (v : View) (flag : Bool) → IsViewOf job v → wait job v Ack flag ≡ None → 1 ≤ v.freed }
    ensures within { (job : Job) (v : View) (flag : Bool) → IsViewOf job v → wait job v Ack flag ≡ None → v.freed ≤ job.config.credit }
    ensures on_the_way_back { (job : Job) (v : View) (flag : Bool) → IsViewOf job v → wait job v Ack flag ≡ None → length v.acks + 1 ≤ job.config.credit }
{}

/// Credit that comes back is of at least one place, and never makes more than the whole.
pub fn credit_fits()
    ensures some { (job : Job) (v : View) → IsViewOf job v → wait job v Credit false ≡ None → 1 ≤ number v.acks 0 }
    ensures within { (job : Job) (v : View) → IsViewOf job v → v.credit + number v.acks 0 ≤ job.config.credit }
{}

/// Never stuck: in every view that is not finished some event goes on, and the driver finds one from wherever it looks.
pub fn never_stuck()
    ensures some_goes_on { (job : Job) (v : View) → IsGoodJob job → IsViewOf job v → is_finished job v ≡ false → list_any (λ e. is_none (wait job v e false)) (driver_events job) ≡ true }
    ensures driver_finds { (job : Job) (v : View) (n : ℕ) → IsGoodJob job → IsViewOf job v → is_finished job v ≡ false → IsSomeAnd (next_event job v n) (λ e. (fits job e ≡ true) × (wait job v e false ≡ None)) }
{}

/// A finished run stays as it is: every event waits, and the driver finds none; and it finds none only there.
pub fn finished_means_nothing_goes_on()
    ensures all_wait { (job : Job) (v : View) (e : Event) (flag : Bool) → is_finished job v ≡ true → is_some (wait job v e flag) ≡ true }
    ensures driver_stops { (job : Job) (v : View) (n : ℕ) → is_finished job v ≡ true → next_event job v n ≡ None }
    ensures only_there { (job : Job) (v : View) (n : ℕ) → IsGoodJob job → IsViewOf job v → next_event job v n ≡ None → is_finished job v ≡ true }
{}

/// An entry more takes the run one step on, makes its one call after those before it, is a run where its answer is the
/// step's, and is faithful where its call fails exactly as planned.
pub fn one_entry_more()
    ensures view { (job : Job) (journal : List Entry) (e : Entry) → run job (journal ++ e ∷ []) ≡ step job (run job journal) e.event (is_flagged e.turn) }
    ensures calls { (job : Job) (journal : List Entry) (e : Entry) → calls job (journal ++ e ∷ []) ≡ calls job journal ++ call job (run job journal) e.event ∷ [] }
    ensures answer { (job : Job) (journal : List Entry) (e : Entry) → is_run job (journal ++ e ∷ []) ≡ (is_run job journal && same_turn e.turn (turn job (run job journal) e.event (is_flagged e.turn))) }
    ensures faults { (job : Job) (journal : List Entry) (e : Entry) → is_faithful job (journal ++ e ∷ []) ≡ (is_faithful job journal && same_truth (is_flagged e.turn) (is_planned job.faults (calls job journal) (call job (run job journal) e.event))) }
{}

/// A migration with a cancel number never switches, and its source keeps all that the guest does.
pub fn cancel_keeps_the_guest()
    ensures never_switched { (job : Job) (v : View) → IsViewOf job v → has_cancel job ≡ true → is_switched v.phase ≡ false }
    ensures source { (job : Job) (v : View) (c : Contents) (unit : ℕ) → IsViewOf job v → HoldsContents job v c → has_cancel job ≡ true → unit < unit_count job → unit_content c.source unit ≡ content job v.history unit (length v.history) }
    ensures no_run_switches { (job : Job) (journal : List Entry) → IsGoodJob job → list_all (λ e. fits job e.event) journal ≡ true → has_cancel job ≡ true → is_switched (run job journal).phase ≡ false }
    ensures source_of_every_run { (job : Job) (dest : List (List ℕ)) (journal : List Entry) (unit : ℕ) → IsGoodJob job → length dest ≡ unit_count job → list_all (λ e. fits job e.event) journal ≡ true → has_cancel job ≡ true → unit < unit_count job → unit_content (contents_after job (first_view job) (first_contents job dest) journal).source unit ≡ content job (run job journal).history unit (length (run job journal).history) }
{}
