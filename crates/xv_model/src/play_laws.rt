//! The laws of whole runs, each as the contract of a function that does nothing.

ghost use Rattle.std.specs.Prelude.{◌≡◌, ◌<◌, ℕ, true, false, List, [], ◌∷◌, length, map, take, replicate};
ghost use Rattle.std.specs.List.{list_all};
ghost use Rattle.xv_model.specs.Job.{Job, IsGoodJob};
ghost use Rattle.xv_model.specs.Guest.{content};
ghost use Rattle.xv_model.specs.View.{View, first_view, number, is_live, is_switched};
ghost use Rattle.xv_model.specs.Wait.{Event, fits};
ghost use Rattle.xv_model.specs.Step.{Entry, run, is_run, is_faithful, is_flagged, play};
ghost use Rattle.xv_model.specs.Outstanding.{outstanding, of_unit};
ghost use Rattle.xv_model.specs.Invariant.{IsViewOf, is_settled};
ghost use Rattle.xv_model.specs.Contents.{Contents, HoldsContents, first_contents, contents_after, unit_content};
ghost use Rattle.xv_model.specs.Worked.{view_after};
ghost use Rattle.xv_model.specs.Worked.VersionsEverywhere.{versions_everywhere_job, versions_everywhere_events};
ghost use Rattle.xv_model.specs.Worked.CancelledWithAQueue.{cancelled_with_a_queue_job, cancelled_with_a_queue_events};

/// Whatever events are tried in whatever order, the journal that they make is a run, its calls fail exactly as planned,
/// and its entries fit the job where the events do.
pub fn plays_are_faithful_runs()
    ensures runs { (job : Job) (events : List Event) → is_run job (play job events) ≡ true }
    ensures faithful { (job : Job) (events : List Event) → is_faithful job (play job events) ≡ true }
    ensures fitting { (job : Job) (events : List Event) → list_all (fits job) events ≡ true → list_all (λ e. fits job e.event) (play job events) ≡ true }
{}

/// A destination unit that no message wrote holds at the end of a run what it held at the start, until the switchover.
pub fn unwritten_units_stay_over_runs()
    ensures { (job : Job) (dest : List (List ℕ)) (journal : List Entry) (unit : ℕ) → IsGoodJob job → list_all (λ e. fits job e.event) journal ≡ true → is_switched (run job journal).phase ≡ false → number (run job journal).hold.applied unit ≡ 0 → unit_content (contents_after job (first_view job) (first_contents job dest) journal).dest unit ≡ unit_content dest unit }
{}

/// While the guest runs or is stunned, a block behind and a clean page of which nothing is outstanding were written, and
/// what was recorded with the last version is what the guest has there now; so both sides agree.
pub fn settled_units_are_up_to_date()
    ensures written { (job : Job) (v : View) (unit : ℕ) → IsViewOf job v → is_settled job.copy v.disks v.dirty v.to_send unit ≡ true → outstanding v (of_unit unit) ≡ 0 → 0 < number v.hold.applied unit }
    ensures recorded { (job : Job) (v : View) (unit : ℕ) → IsViewOf job v → is_live v.phase ≡ true → is_settled job.copy v.disks v.dirty v.to_send unit ≡ true → outstanding v (of_unit unit) ≡ 0 → content job v.history unit (number v.hold.recorded unit) ≡ content job v.history unit (length v.history) }
    ensures sides { (job : Job) (v : View) (c : Contents) (unit : ℕ) → IsViewOf job v → HoldsContents job v c → is_live v.phase ≡ true → is_settled job.copy v.disks v.dirty v.to_send unit ≡ true → outstanding v (of_unit unit) ≡ 0 → unit_content c.dest unit ≡ unit_content c.source unit }
{}

/// A journal with a failed call among its nine entries, of fourteen events of the job: five of them wait.
pub fn fourteen_events_make_nine_entries()
    ensures events { length cancelled_with_a_queue_events ≡ 14 }
    ensures fit { list_all (fits cancelled_with_a_queue_job) cancelled_with_a_queue_events ≡ true }
    ensures flags { map (λ e. is_flagged e.turn) (play cancelled_with_a_queue_job cancelled_with_a_queue_events) ≡ false ∷ false ∷ false ∷ false ∷ false ∷ false ∷ false ∷ true ∷ false ∷ [] }
    ensures a_run { is_run cancelled_with_a_queue_job (play cancelled_with_a_queue_job cancelled_with_a_queue_events) ≡ true }
    ensures faithful { is_faithful cancelled_with_a_queue_job (play cancelled_with_a_queue_job cancelled_with_a_queue_events) ≡ true }
{}

/// A block behind lags while three of its versions are outstanding, and is up to date once all are applied; the page, of
/// which no message was written, keeps what stood there.
pub fn a_block_comes_up_to_date()
    ensures behind { is_settled versions_everywhere_job.shape (view_after versions_everywhere_job (take 13 versions_everywhere_events)).disks (view_after versions_everywhere_job (take 13 versions_everywhere_events)).dirty (view_after versions_everywhere_job (take 13 versions_everywhere_events)).to_send 1 ≡ true }
    ensures three_outstanding { outstanding (view_after versions_everywhere_job (take 13 versions_everywhere_events)) (of_unit 1) ≡ 3 }
    ensures recorded_first { number (view_after versions_everywhere_job (take 13 versions_everywhere_events)).hold.recorded 1 ≡ 0 }
    ensures lags { unit_content (contents_after versions_everywhere_job (first_view versions_everywhere_job) (first_contents versions_everywhere_job (replicate 2 (9 ∷ []))) (play versions_everywhere_job (take 13 versions_everywhere_events))).dest 1 ≡ replicate 16 0 }
    ensures still_behind { is_settled versions_everywhere_job.shape (view_after versions_everywhere_job (take 19 versions_everywhere_events)).disks (view_after versions_everywhere_job (take 19 versions_everywhere_events)).dirty (view_after versions_everywhere_job (take 19 versions_everywhere_events)).to_send 1 ≡ true }
    ensures live { is_live (view_after versions_everywhere_job (take 19 versions_everywhere_events)).phase ≡ true }
    ensures none_outstanding { outstanding (view_after versions_everywhere_job (take 19 versions_everywhere_events)) (of_unit 1) ≡ 0 }
    ensures recorded_last { number (view_after versions_everywhere_job (take 19 versions_everywhere_events)).hold.recorded 1 ≡ 3 }
    ensures source { unit_content (contents_after versions_everywhere_job (first_view versions_everywhere_job) (first_contents versions_everywhere_job (replicate 2 (9 ∷ []))) (play versions_everywhere_job versions_everywhere_events)).source 1 ≡ replicate 16 51 }
    ensures dest { unit_content (contents_after versions_everywhere_job (first_view versions_everywhere_job) (first_contents versions_everywhere_job (replicate 2 (9 ∷ []))) (play versions_everywhere_job versions_everywhere_events)).dest 1 ≡ replicate 16 51 }
    ensures none_applied { number (view_after versions_everywhere_job (take 19 versions_everywhere_events)).hold.applied 0 ≡ 0 }
    ensures page_stays { unit_content (contents_after versions_everywhere_job (first_view versions_everywhere_job) (first_contents versions_everywhere_job (replicate 2 (9 ∷ []))) (play versions_everywhere_job versions_everywhere_events)).dest 0 ≡ 9 ∷ [] }
{}
