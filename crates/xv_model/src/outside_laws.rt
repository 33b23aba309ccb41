//! The laws of the calls on the outside, each as the contract of a function that does nothing.

ghost use Rattle.std.specs.Prelude.{◌≡◌, ◌<◌, ℕ, ◌+◌, ◌-◌, Bool, true, List, [], ◌∷◌, ◌++◌, length, None, IfSome, if◌then◌else◌};
ghost use Rattle.std.specs.List.{list_all};
ghost use Rattle.xv_model.specs.Job.{Job, IsGoodJob};
ghost use Rattle.xv_model.specs.Guest.{writes};
ghost use Rattle.xv_model.specs.View.{View, number};
ghost use Rattle.xv_model.specs.Wait.{Event, wait, fits};
ghost use Rattle.xv_model.specs.Step.{Entry, Call, call, same_call, is_flagged, run, is_run};
ghost use Rattle.xv_model.specs.Report.{source_length};
ghost use Rattle.xv_model.specs.Invariant.{IsViewOf};
ghost use Rattle.xv_model.specs.Outside.{kind, outside, part, stream_of, IsWithin, unless_failed, calls_made, calls_of_kind, source_writes, dest_writes};

/// The outside call of an event is of the kind that is numbered.
pub fn outside_call_has_its_kind()
    ensures { (job : Job) (v : View) (e : Event) → kind (outside job v e) ≡ call job v e }
{}

/// An entry more adds its own call to the calls made, where that did not fail; and one to the number of its kind,
/// whether it failed or not.
pub fn one_call_more()
    ensures made { (job : Job) (journal : List Entry) (e : Entry) → calls_made job (journal ++ e ∷ []) ≡ calls_made job journal ++ unless_failed (is_flagged e.turn) (outside job (run job journal) e.event) }
    ensures numbered { (job : Job) (journal : List Entry) (e : Entry) (c : Call) → calls_of_kind job (journal ++ e ∷ []) c ≡ calls_of_kind job journal c + (if same_call c (call job (run job journal) e.event) then 1 else 0) }
{}

/// Where an event goes on, the part that its call is of lies within a unit that is there, and its stream is one of the job's.
pub fn outside_calls_are_in_range()
    ensures parts { (job : Job) (v : View) (e : Event) (flag : Bool) → IsGoodJob job → fits job e ≡ true → IsViewOf job v → wait job v e flag ≡ None → IfSome (part (outside job v e)) (IsWithin job) }
    ensures streams { (job : Job) (v : View) (e : Event) → fits job e ≡ true → IfSome (stream_of (outside job v e)) (λ s. s < job.config.streams) }
{}

/// In every run each side has written a unit as often as the history says: the source once for each write of the guest
/// until the switchover, the destination once for each version applied and each write of the guest afterwards.
pub fn writes_are_counted()
    ensures source { (job : Job) (journal : List Entry) (unit : ℕ) → IsGoodJob job → list_all (λ e. fits job e.event) journal ≡ true → is_run job journal ≡ true → source_writes job journal unit ≡ writes job (run job journal).history unit (source_length (run job journal)) }
    ensures dest { (job : Job) (journal : List Entry) (unit : ℕ) → IsGoodJob job → list_all (λ e. fits job e.event) journal ≡ true → is_run job journal ≡ true → dest_writes job journal unit ≡ number (run job journal).hold.applied unit + (writes job (run job journal).history unit (length (run job journal).history) - writes job (run job journal).history unit (source_length (run job journal))) }
{}
