//! The laws of a migration that ends, and of one that has ended, each as the contract of a function that does nothing.

ghost use Rattle.std.specs.Prelude.{◌≡◌, ◌≢◌, ℕ, Bool, true, false, List, [], ◌∷◌, ◌++◌, length, take, drop, set, replicate, Some, None, is_some, if◌then◌else◌};
ghost use Rattle.std.specs.List.{list_all};
ghost use Rattle.xv_model.specs.Job.{Job, IsGoodJob};
ghost use Rattle.xv_model.specs.Guest.{writes_to};
ghost use Rattle.xv_model.specs.View.{View, first_view, disk, front, is_empty, is_live, is_switched};
ghost use Rattle.xv_model.specs.Wait.{Event, wait, fits};
ghost use Rattle.xv_model.specs.Effect.{front_gone, given_up};
ghost use Rattle.xv_model.specs.Step.{step, turn, call, is_call, is_flagged, breaks, turns, play, is_run};
ghost use Rattle.xv_model.specs.Invariant.{IsViewOf};
ghost use Rattle.xv_model.specs.Contents.{Contents, first_contents, after_operation, front_operation, step_contents, contents_after, unit_content};
ghost use Rattle.xv_model.specs.Ending.{is_guests, guest_of};
ghost use Rattle.xv_model.specs.Worked.{view_after, totals_after};
ghost use Rattle.xv_model.specs.Worked.CancelledWithAQueue.{cancelled_with_a_queue_job, cancelled_with_a_queue_events, cancelled_with_a_queue_turns, cancelled_with_a_queue_totals};
ghost use Rattle.xv_base.specs.declared.operation.Outcome.TheVariants.{Done, Faulted};
ghost use Rattle.xv_base.specs.declared.answer.Why.TheVariants.{NothingThere};
ghost use Rattle.xv_base.specs.declared.answer.Cause.{Cause};
ghost use Rattle.xv_base.specs.declared.answer.Turn.TheVariants.{Faulted as GuestFault, Failed as Broke};
ghost use Rattle.xv_base.specs.declared.event.Phase.TheVariants.{Failed};
ghost use Rattle.xv_base.specs.declared.event.Event.TheVariants.{Guest, Release};

/// Where the phase is not live it stays what it is, whatever the event: all wait but the guests' operations and the
/// writes that waited, and those change nothing but the history and the queues.
pub fn ended_migrations_stay_as_they_are()
    ensures phase { (job : Job) (v : View) (e : Event) (flag : Bool) → is_live v.phase ≡ false → (step job v e flag).phase ≡ v.phase }
    ensures waits { (job : Job) (v : View) (e : Event) (flag : Bool) → is_live v.phase ≡ false → is_guests e ≡ false → is_some (wait job v e flag) ≡ true }
    ensures all_else { (job : Job) (v : View) (e : Event) (flag : Bool) → is_live v.phase ≡ false → step job v e flag ≡ record v { history = (step job v e flag).history; disks = (step job v e flag).disks } }
    ensures cursors { (job : Job) (v : View) (e : Event) (flag : Bool) (d : ℕ) → is_live v.phase ≡ false → (disk (step job v e flag) d).cursor ≡ (disk v d).cursor }
    ensures regions { (job : Job) (v : View) (e : Event) (flag : Bool) (d : ℕ) → is_live v.phase ≡ false → (disk (step job v e flag) d).region ≡ (disk v d).region }
{}

/// Where a migration has ended and somebody waits at a disk, his write goes on: it ends in the history, it is laid on the
/// source unless its call fails, and it leaves its queue. Once switched nobody waits.
pub fn queued_writes_end_after_the_migration()
    ensures goes_on { (job : Job) (v : View) (d : ℕ) (flag : Bool) → is_live v.phase ≡ false → is_empty (disk v d).queue ≡ false → wait job v (Release d) flag ≡ None }
    ensures history { (job : Job) (v : View) (d : ℕ) (flag : Bool) → is_live v.phase ≡ false → is_empty (disk v d).queue ≡ false → (step job v (Release d) flag).history ≡ v.history ++ record { guest = (front (disk v d)).guest; outcome = if flag then Faulted else Done } ∷ [] }
    ensures queue { (job : Job) (v : View) (d : ℕ) (flag : Bool) → is_live v.phase ≡ false → is_empty (disk v d).queue ≡ false → (disk (step job v (Release d) flag) d).queue ≡ drop 1 (disk v d).queue }
    ensures other_disks { (job : Job) (v : View) (d other : ℕ) (flag : Bool) → is_live v.phase ≡ false → is_empty (disk v d).queue ≡ false → other ≢ d → disk (step job v (Release d) flag) other ≡ disk v other }
    ensures written { (job : Job) (v : View) (c : Contents) (d : ℕ) → is_live v.phase ≡ false → is_empty (disk v d).queue ≡ false → step_contents job v (Release d) false c ≡ record c { source = after_operation (front_operation job v d) c.source } }
    ensures failed { (job : Job) (v : View) (c : Contents) (d : ℕ) → is_live v.phase ≡ false → is_empty (disk v d).queue ≡ false → step_contents job v (Release d) true c ≡ c }
    ensures of_its_unit { (job : Job) (v : View) (d : ℕ) → IsViewOf job v → is_empty (disk v d).queue ≡ false → writes_to (front_operation job v d) (front (disk v d)).unit.0 ≡ true }
    ensures none_once_switched { (job : Job) (v : View) (d : ℕ) (flag : Bool) → IsViewOf job v → is_switched v.phase ≡ true → wait job v (Release d) flag ≡ Some NothingThere }
{}

/// The step that ends a migration keeps each disk's cursor and queue, and gives up its region, but that a switchover has
/// none to give up. So does every call that fails, whether it ends the migration or not, but that a queued write leaves
/// its queue.
pub fn endings_and_failures_keep_the_queues()
    ensures ended_cursors { (job : Job) (v : View) (e : Event) (flag : Bool) (d : ℕ) → is_live v.phase ≡ true → is_live (step job v e flag).phase ≡ false → (disk (step job v e flag) d).cursor ≡ (disk v d).cursor }
    ensures ended_queues { (job : Job) (v : View) (e : Event) (flag : Bool) (d : ℕ) → is_live v.phase ≡ true → is_live (step job v e flag).phase ≡ false → (disk (step job v e flag) d).queue ≡ (disk v d).queue }
    ensures ended_regions { (job : Job) (v : View) (e : Event) (flag : Bool) (d : ℕ) → is_live v.phase ≡ true → is_live (step job v e flag).phase ≡ false → is_switched (step job v e flag).phase ≡ false → (disk (step job v e flag) d).region ≡ 0 }
    ensures no_regions { (job : Job) (v : View) (d : ℕ) → IsViewOf job v → is_live v.phase ≡ false → (disk v d).region ≡ 0 }
    ensures failed_cursors { (job : Job) (v : View) (e : Event) (flag : Bool) (d : ℕ) → breaks job v e flag ≡ true → (disk (step job v e flag) d).cursor ≡ (disk v d).cursor }
    ensures failed_queues { (job : Job) (v : View) (e : Event) (flag : Bool) (d : ℕ) → breaks job v e flag ≡ true → is_guests e ≡ false → (disk (step job v e flag) d).queue ≡ (disk v d).queue }
    ensures failed_guest { (job : Job) (v : View) (g : ℕ) (flag : Bool) → breaks job v (Guest (record { 0 = g })) flag ≡ true → (step job v (Guest (record { 0 = g })) flag).disks ≡ v.disks }
    ensures failed_release { (job : Job) (v : View) (d : ℕ) → wait job v (Release d) true ≡ None → (step job v (Release d) true).disks ≡ set v.disks d (front_gone (disk v d)) }
{}

/// Where a migration has ended without the switchover, no event touches the destination; once it is switched, none touches
/// the source.
pub fn ended_migrations_act_on_one_side()
    ensures dest_stays { (job : Job) (v : View) (c : Contents) (e : Event) (flag : Bool) → is_live v.phase ≡ false → is_switched v.phase ≡ false → (step_contents job v e flag c).dest ≡ c.dest }
    ensures source_stays { (job : Job) (v : View) (c : Contents) (e : Event) (flag : Bool) → IsViewOf job v → is_switched v.phase ≡ true → (step_contents job v e flag c).source ≡ c.source }
{}

/// A call that fails is told as what it does: an event that makes none never fails; the answer that the migration failed
/// comes where it is given up as failed, and the answer of a fault where an operation ended as faulted.
pub fn failures_are_told_as_they_are()
    ensures no_call { (job : Job) (v : View) (e : Event) (flag : Bool) → is_call (call job v e) ≡ false → is_flagged (turn job v e flag) ≡ false }
    ensures failed { (job : Job) (v : View) (e : Event) (flag : Bool) (cause : Cause) → turn job v e flag ≡ Broke cause → step job v e flag ≡ given_up v Failed }
    ensures faulted { (job : Job) (v : View) (e : Event) (flag : Bool) → turn job v e flag ≡ GuestFault → (step job v e flag).history ≡ v.history ++ record { guest = guest_of v e; outcome = Faulted } ∷ [] }
{}

/// Two writes wait where a migration is cancelled: the region goes, the queue stays; then the first is done on the source
/// and the second fails there, and the guests read on. The destination keeps what stood there.
pub fn cancelled_with_a_queue()
    ensures good { IsGoodJob cancelled_with_a_queue_job }
    ensures events_fit { list_all (λ e. fits cancelled_with_a_queue_job e.event) (play cancelled_with_a_queue_job cancelled_with_a_queue_events) ≡ true }
    ensures a_run { is_run cancelled_with_a_queue_job (play cancelled_with_a_queue_job cancelled_with_a_queue_events) ≡ true }
    ensures answers { turns cancelled_with_a_queue_job cancelled_with_a_queue_events ≡ cancelled_with_a_queue_turns }
    ensures report { totals_after cancelled_with_a_queue_job cancelled_with_a_queue_events ≡ cancelled_with_a_queue_totals }
    ensures region_before { (disk (view_after cancelled_with_a_queue_job (take 6 cancelled_with_a_queue_events)) 0).region ≡ 2 }
    ensures region_after { (disk (view_after cancelled_with_a_queue_job (take 7 cancelled_with_a_queue_events)) 0).region ≡ 0 }
    ensures ended { is_live (view_after cancelled_with_a_queue_job (take 7 cancelled_with_a_queue_events)).phase ≡ false }
    ensures two_wait { length (disk (view_after cancelled_with_a_queue_job (take 7 cancelled_with_a_queue_events)) 0).queue ≡ 2 }
    ensures goes_on { wait cancelled_with_a_queue_job (view_after cancelled_with_a_queue_job (take 7 cancelled_with_a_queue_events)) (Release 0) false ≡ None }
    ensures one_waits { length (disk (view_after cancelled_with_a_queue_job (take 8 cancelled_with_a_queue_events)) 0).queue ≡ 1 }
    ensures fails { breaks cancelled_with_a_queue_job (view_after cancelled_with_a_queue_job (take 8 cancelled_with_a_queue_events)) (Release 0) true ≡ true }
    ensures history { (view_after cancelled_with_a_queue_job (take 10 cancelled_with_a_queue_events)).history ≡
        record { guest = record { 0 = 2 }; outcome = Done } ∷ record { guest = record { 0 = 0 }; outcome = Done } ∷ record { guest = record { 0 = 1 }; outcome = Faulted } ∷ [] }
    ensures source_1 { unit_content (contents_after cancelled_with_a_queue_job (first_view cancelled_with_a_queue_job) (first_contents cancelled_with_a_queue_job (replicate 5 (9 ∷ []))) (play cancelled_with_a_queue_job cancelled_with_a_queue_events)).source 1 ≡ replicate 16 170 }
    ensures source_2 { unit_content (contents_after cancelled_with_a_queue_job (first_view cancelled_with_a_queue_job) (first_contents cancelled_with_a_queue_job (replicate 5 (9 ∷ []))) (play cancelled_with_a_queue_job cancelled_with_a_queue_events)).source 2 ≡ replicate 16 0 }
    ensures reads { (contents_after cancelled_with_a_queue_job (first_view cancelled_with_a_queue_job) (first_contents cancelled_with_a_queue_job (replicate 5 (9 ∷ []))) (play cancelled_with_a_queue_job cancelled_with_a_queue_events)).reads ≡ 0 ∷ 0 ∷ 0 ∷ 0 ∷ 170 ∷ 170 ∷ [] }
    ensures dest { (contents_after cancelled_with_a_queue_job (first_view cancelled_with_a_queue_job) (first_contents cancelled_with_a_queue_job (replicate 5 (9 ∷ []))) (play cancelled_with_a_queue_job cancelled_with_a_queue_events)).dest ≡ replicate 5 (9 ∷ []) }
{}
