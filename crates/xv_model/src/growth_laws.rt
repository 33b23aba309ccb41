//! The laws of the numbers of progress, each as the contract of a function that does nothing.

ghost use Rattle.std.specs.Prelude.{◌≡◌, ◌≤◌, ◌<◌, ℕ, ◌^◌, ◌+◌, Bool, true, List, [], ◌∷◌, length, map};
ghost use Rattle.std.specs.List.{list_all};
ghost use Rattle.xv_model.specs.Job.{Job, IsGoodJob, operation_count};
ghost use Rattle.xv_model.specs.View.{View};
ghost use Rattle.xv_model.specs.Wait.{Event, fits};
ghost use Rattle.xv_model.specs.Step.{Entry, step, turn, run, is_run, play};
ghost use Rattle.xv_model.specs.Invariant.{IsViewOf};
ghost use Rattle.xv_model.specs.Report.{totals};
ghost use Rattle.xv_model.specs.Growth.{copied, block_count, applied, ends, blocks_copied, applies, rest};
ghost use Rattle.xv_model.specs.Worked.{view_after};
ghost use Rattle.xv_model.specs.Worked.AfterTheSwitch.{after_the_switch_job, after_the_switch_events};

/// One step makes the numbers of progress grow by what its event and its answer say: the history by one for each
/// operation that ends, the blocks copied by the region of each advance, the messages applied by one at each apply.
pub fn step_makes_the_numbers_grow()
    ensures history { (job : Job) (v : View) (e : Event) (flag : Bool)
        → length (step job v e flag).history ≡ length v.history + ends e (turn job v e flag) }
    ensures copied { (job : Job) (v : View) (e : Event) (flag : Bool) → fits job e ≡ true → IsViewOf job v
        → copied (step job v e flag) ≡ copied v + blocks_copied e (turn job v e flag) }
    ensures applied { (job : Job) (v : View) (e : Event) (flag : Bool) → IsViewOf job v
        → applied (step job v e flag) ≡ applied v + applies e (turn job v e flag) }
{}

/// They are the numbers of the report.
pub fn report_tells_the_numbers()
    ensures history { (job : Job) (v : View) (n : ℕ) → (totals job v n).history ≡ length v.history }
    ensures copied { (job : Job) (v : View) (n : ℕ) → (totals job v n).copied ≡ copied v }
    ensures applied { (job : Job) (v : View) (n : ℕ) → (totals job v n).applied ≡ applied v }
{}

/// No more blocks are copied than there are, and no more operations have ended; both numbers fit 32 bits.
pub fn numbers_of_progress_fit()
    ensures copied { (job : Job) (v : View) → IsViewOf job v → copied v ≤ block_count job }
    ensures copied_small { (job : Job) (v : View) → IsGoodJob job → IsViewOf job v → copied v < 2 ^ 32 }
    ensures history { (job : Job) (v : View) → IsViewOf job v → length v.history ≤ operation_count job }
    ensures history_small { (job : Job) (v : View) → IsGoodJob job → IsViewOf job v → length v.history < 2 ^ 32 }
{}

/// The operations that have ended, the messages applied and the rest of the entries make up a run's journal; so the two
/// numbers are together within it.
pub fn numbers_make_up_the_journal()
    ensures parts { (job : Job) (journal : List Entry) → IsGoodJob job → list_all (λ e. fits job e.event) journal ≡ true
        → is_run job journal ≡ true → length journal ≡ length (run job journal).history + applied (run job journal) + rest journal }
    ensures within { (job : Job) (journal : List Entry) → IsGoodJob job → list_all (λ e. fits job e.event) journal ≡ true
        → is_run job journal ≡ true → length (run job journal).history + applied (run job journal) ≤ length journal }
{}

/// In a migration with a write, a copy and two messages each number grows by what its own events say, and by no other.
pub fn numbers_grow_after_the_switch()
    ensures history { map (λ e. ends e.event e.turn) (play after_the_switch_job after_the_switch_events) ≡
        1 ∷ 0 ∷ 0 ∷ 0 ∷ 0 ∷ 0 ∷ 0 ∷ 0 ∷ 0 ∷ 0 ∷ 0 ∷ 0 ∷ 0 ∷ 0 ∷ 0 ∷ 0 ∷ 1 ∷ 1 ∷ 1 ∷ [] }
    ensures copied { map (λ e. blocks_copied e.event e.turn) (play after_the_switch_job after_the_switch_events) ≡
        0 ∷ 0 ∷ 0 ∷ 1 ∷ 0 ∷ 0 ∷ 0 ∷ 0 ∷ 0 ∷ 0 ∷ 0 ∷ 0 ∷ 0 ∷ 0 ∷ 0 ∷ 0 ∷ 0 ∷ 0 ∷ 0 ∷ [] }
    ensures applied { map (λ e. applies e.event e.turn) (play after_the_switch_job after_the_switch_events) ≡
        0 ∷ 0 ∷ 0 ∷ 0 ∷ 0 ∷ 0 ∷ 0 ∷ 0 ∷ 0 ∷ 0 ∷ 1 ∷ 1 ∷ 0 ∷ 0 ∷ 0 ∷ 0 ∷ 0 ∷ 0 ∷ 0 ∷ [] }
    ensures blocks { block_count after_the_switch_job ≡ 1 }
    ensures of_the_view { (length (view_after after_the_switch_job after_the_switch_events).history ≡ 4)
        × (copied (view_after after_the_switch_job after_the_switch_events) ≡ 1)
        × (applied (view_after after_the_switch_job after_the_switch_events) ≡ 2) }
    ensures of_the_journal { (length (play after_the_switch_job after_the_switch_events) ≡ 19)
        × (rest (play after_the_switch_job after_the_switch_events) ≡ 13) }
{}
