//! Worked migrations in which the premises of the laws hold and something moves, so that no law is about nothing.

ghost use Rattle.std.specs.Prelude.{◌≡◌, ◌≤◌, ℕ, true, false, [], ◌∷◌, length, take, replicate, Some, None};
ghost use Rattle.std.specs.List.{list_all};
ghost use Rattle.xv_model.specs.Job.{IsGoodJob, trace, unit_count};
ghost use Rattle.xv_model.specs.Guest.{ended, content, reads, writes};
ghost use Rattle.xv_model.specs.View.{first_view, front_group, number, is_stunned, is_switched};
ghost use Rattle.xv_model.specs.Wait.{wait, fits, has_cancel};
ghost use Rattle.xv_model.specs.Effect.{batch};
ghost use Rattle.xv_model.specs.Step.{play, calls, is_run, is_faithful, NoCall, SourceRead, Put, Take, DestWrite, DestFlush, AckPut, AckTake};
ghost use Rattle.xv_model.specs.Report.{source_length};
ghost use Rattle.xv_model.specs.Outside.{ReadSource, WriteSource, ReadDest, WriteDest, FlushDest, PutOn, TakeFrom, PutBack, TakeBack, outside, calls_made, calls_of_kind, source_writes, dest_writes};
ghost use Rattle.xv_model.specs.Outstanding.{any, on_the_way, outstanding, is_version, is_message};
ghost use Rattle.xv_model.specs.Contents.{first_contents, contents_after, unit_content};
ghost use Rattle.xv_model.specs.Work.{is_finished};
ghost use Rattle.xv_model.specs.Driver.{next_event};
ghost use Rattle.xv_model.specs.Worked.{view_after};
ghost use Rattle.xv_model.specs.Worked.FirstPath.{first_path_job, first_path_events};
ghost use Rattle.xv_model.specs.Worked.Groups.{groups_job, groups_events};
ghost use Rattle.xv_model.specs.Worked.Throttling.{throttling_job, throttling_events};
ghost use Rattle.xv_model.specs.Worked.CancelledWhileStunned.{cancelled_while_stunned_job, cancelled_while_stunned_events};
ghost use Rattle.xv_model.specs.Worked.FailedDestination.{failed_destination_job, failed_destination_events};
ghost use Rattle.xv_model.specs.Worked.AfterTheSwitch.{after_the_switch_job, after_the_switch_events};
ghost use Rattle.xv_base.specs.declared.answer.Why.TheVariants.{CancelDue, Throttled};
ghost use Rattle.xv_base.specs.declared.event.Event.TheVariants.{Send, Deliver, Apply, Ack, Credit, Switch, Cancel, Guest};

/// A migration from the first copy to the switchover is a run of a good job.
pub fn first_path_is_a_good_run()
    ensures good { IsGoodJob first_path_job }
    ensures events_fit { list_all (λ e. fits first_path_job e.event) (play first_path_job first_path_events) ≡ true }
    ensures a_run { is_run first_path_job (play first_path_job first_path_events) ≡ true }
    ensures entries { length (play first_path_job first_path_events) ≡ 21 }
{}

/// So is one whose messages go in groups.
pub fn groups_are_a_good_run()
    ensures good { IsGoodJob groups_job }
    ensures events_fit { list_all (λ e. fits groups_job e.event) (play groups_job groups_events) ≡ true }
    ensures a_run { is_run groups_job (play groups_job groups_events) ≡ true }
    ensures entries { length (play groups_job groups_events) ≡ 19 }
{}

/// So is one that is held back.
pub fn throttling_is_a_good_run()
    ensures good { IsGoodJob throttling_job }
    ensures events_fit { list_all (λ e. fits throttling_job e.event) (play throttling_job throttling_events) ≡ true }
    ensures a_run { is_run throttling_job (play throttling_job throttling_events) ≡ true }
    ensures entries { length (play throttling_job throttling_events) ≡ 13 }
{}

/// So is one that is cancelled.
pub fn cancelled_while_stunned_is_a_good_run()
    ensures good { IsGoodJob cancelled_while_stunned_job }
    ensures events_fit { list_all (λ e. fits cancelled_while_stunned_job e.event) (play cancelled_while_stunned_job cancelled_while_stunned_events) ≡ true }
    ensures a_run { is_run cancelled_while_stunned_job (play cancelled_while_stunned_job cancelled_while_stunned_events) ≡ true }
    ensures entries { length (play cancelled_while_stunned_job cancelled_while_stunned_events) ≡ 6 }
{}

/// So is one whose guest goes on at the destination.
pub fn after_the_switch_is_a_good_run()
    ensures good { IsGoodJob after_the_switch_job }
    ensures events_fit { list_all (λ e. fits after_the_switch_job e.event) (play after_the_switch_job after_the_switch_events) ≡ true }
    ensures a_run { is_run after_the_switch_job (play after_the_switch_job after_the_switch_events) ≡ true }
    ensures entries { length (play after_the_switch_job after_the_switch_events) ≡ 19 }
{}

/// So is one that fails.
pub fn failed_destination_is_a_good_run()
    ensures good { IsGoodJob failed_destination_job }
    ensures events_fit { list_all (λ e. fits failed_destination_job e.event) (play failed_destination_job failed_destination_events) ≡ true }
    ensures a_run { is_run failed_destination_job (play failed_destination_job failed_destination_events) ≡ true }
    ensures entries { length (play failed_destination_job failed_destination_events) ≡ 10 }
{}

/// Messages are outstanding, all are written, and then the switchover goes on.
pub fn switchover_comes_after_messages()
    ensures outstanding { outstanding (view_after first_path_job (take 11 first_path_events)) any ≡ 3 }
    ensures goes_on { wait first_path_job (view_after first_path_job (take 20 first_path_events)) Switch false ≡ None }
    ensures written { unit_content (contents_after first_path_job (first_view first_path_job) (first_contents first_path_job ((9 ∷ []) ∷ (9 ∷ []) ∷ (9 ∷ []) ∷ [])) (play first_path_job first_path_events)).dest 1 ≡ replicate 16 0 }
{}

/// The window is filled: the outbox to its limit, the streams and the hold to the credit, with groups of two.
pub fn window_is_filled()
    ensures outbox { length (view_after throttling_job (take 3 throttling_events)).outbox.messages ≡ throttling_job.config.outbox }
    ensures guest_waits { wait throttling_job (view_after throttling_job (take 3 throttling_events)) (Guest (record { 0 = 0 })) false ≡ Some Throttled }
    ensures streams { on_the_way (view_after throttling_job (take 5 throttling_events)) any ≡ throttling_job.config.credit }
    ensures send { wait groups_job (view_after groups_job (take 8 groups_events)) (Send 0) false ≡ None }
    ensures group { batch groups_job (view_after groups_job (take 8 groups_events)) ≡ 2 }
    ensures deliver { wait groups_job (view_after groups_job (take 10 groups_events)) (Deliver 0) false ≡ None }
    ensures delivered { length (front_group (view_after groups_job (take 10 groups_events)) 0) ≡ 2 }
    ensures apply { wait groups_job (view_after groups_job (take 12 groups_events)) Apply false ≡ None }
    ensures acknowledge { wait groups_job (view_after groups_job (take 15 groups_events)) Ack false ≡ None }
    ensures freed { (view_after groups_job (take 15 groups_events)).freed ≡ 3 }
    ensures credit { wait groups_job (view_after groups_job (take 16 groups_events)) Credit false ≡ None }
    ensures comes_back { number (view_after groups_job (take 16 groups_events)).acks 0 ≡ 3 }
{}

/// Before the switchover the driver finds it, and after it, where the guest has no more to do, nothing.
pub fn driver_ends_a_run()
    ensures not_finished { is_finished first_path_job (view_after first_path_job (take 20 first_path_events)) ≡ false }
    ensures finds { next_event first_path_job (view_after first_path_job (take 20 first_path_events)) 20 ≡ Some Switch }
    ensures finished { is_finished first_path_job (view_after first_path_job first_path_events) ≡ true }
    ensures finds_none { next_event first_path_job (view_after first_path_job first_path_events) 21 ≡ None }
{}

/// A stunned guest whose migration is to be cancelled stays: the switchover waits, the cancel goes on.
pub fn cancel_is_due()
    ensures asked { has_cancel cancelled_while_stunned_job ≡ true }
    ensures stunned { is_stunned (view_after cancelled_while_stunned_job (take 9 cancelled_while_stunned_events)).phase ≡ true }
    ensures switch_waits { wait cancelled_while_stunned_job (view_after cancelled_while_stunned_job (take 9 cancelled_while_stunned_events)) Switch false ≡ Some CancelDue }
    ensures cancel_goes_on { wait cancelled_while_stunned_job (view_after cancelled_while_stunned_job (take 9 cancelled_while_stunned_events)) Cancel false ≡ None }
    ensures source { take 2 (unit_content (contents_after cancelled_while_stunned_job (first_view cancelled_while_stunned_job) (first_contents cancelled_while_stunned_job ((9 ∷ []) ∷ [])) (play cancelled_while_stunned_job cancelled_while_stunned_events)).source 0) ≡ 170 ∷ 0 ∷ [] }
{}

/// The calls that a run makes, one an entry; and a run whose planned fault comes.
pub fn calls_of_a_run()
    ensures calls { calls first_path_job (play first_path_job first_path_events) ≡ NoCall ∷ SourceRead ∷ NoCall ∷ NoCall ∷ SourceRead ∷ NoCall ∷ NoCall ∷ SourceRead ∷ Put 0 ∷ Put 0 ∷ Put 0 ∷ Take 0 ∷ Take 0 ∷ Take 0 ∷ DestWrite ∷ DestWrite ∷ DestWrite ∷ AckPut ∷ AckTake ∷ NoCall ∷ DestFlush ∷ [] }
    ensures faithful { is_faithful failed_destination_job (play failed_destination_job failed_destination_events) ≡ true }
{}

/// A version is outstanding, with the length of the history that it was made after, and is gone once it is written.
pub fn a_version_is_outstanding()
    ensures version { outstanding (view_after after_the_switch_job (take 4 after_the_switch_events)) (is_version 1 1) ≡ 1 }
    ensures message { outstanding (view_after after_the_switch_job (take 4 after_the_switch_events)) (is_message 1 1 1) ≡ 1 }
    ensures issued { number (view_after after_the_switch_job (take 4 after_the_switch_events)).outbox.issued 1 ≡ 1 }
    ensures written { outstanding (view_after after_the_switch_job (take 11 after_the_switch_events)) (is_version 1 1) ≡ 0 }
    ensures applied { number (view_after after_the_switch_job (take 11 after_the_switch_events)).hold.applied 1 ≡ 1 }
{}

/// The guest's content of a block goes from zeros over its first write to its second, each of the block's size, and
/// what it reads grows with it.
pub fn contents_follow_the_history()
    ensures at_first { content after_the_switch_job (view_after after_the_switch_job after_the_switch_events).history 1 0 ≡ replicate 16 0 }
    ensures after_one { content after_the_switch_job (view_after after_the_switch_job after_the_switch_events).history 1 1 ≡ replicate 16 90 }
    ensures after_three { content after_the_switch_job (view_after after_the_switch_job after_the_switch_events).history 1 3 ≡ replicate 16 165 }
    ensures before_more { content after_the_switch_job (view_after after_the_switch_job (take 1 after_the_switch_events)).history 1 1 ≡ replicate 16 90 }
    ensures read_so_far { reads after_the_switch_job (view_after after_the_switch_job after_the_switch_events).history 2 ≡ 90 ∷ 90 ∷ [] }
    ensures read { reads after_the_switch_job (view_after after_the_switch_job after_the_switch_events).history 4 ≡ 90 ∷ 90 ∷ 165 ∷ 165 ∷ [] }
    ensures legal { (guest : ℕ) → ended (view_after after_the_switch_job after_the_switch_events).history guest ≤ length (trace after_the_switch_job guest) }
{}

/// After the switchover the source has what the guest left there, and the destination what it wrote since.
pub fn sides_part_after_the_switch()
    ensures units { unit_count after_the_switch_job ≡ 2 }
    ensures source { unit_content (contents_after after_the_switch_job (first_view after_the_switch_job) (first_contents after_the_switch_job ((9 ∷ []) ∷ (9 ∷ []) ∷ [])) (play after_the_switch_job after_the_switch_events)).source 1 ≡ replicate 16 90 }
    ensures dest { unit_content (contents_after after_the_switch_job (first_view after_the_switch_job) (first_contents after_the_switch_job ((9 ∷ []) ∷ (9 ∷ []) ∷ [])) (play after_the_switch_job after_the_switch_events)).dest 1 ≡ replicate 16 165 }
    ensures at_the_switch { unit_content (contents_after after_the_switch_job (first_view after_the_switch_job) (first_contents after_the_switch_job ((9 ∷ []) ∷ (9 ∷ []) ∷ [])) (play after_the_switch_job (take 17 after_the_switch_events))).dest 1 ≡ replicate 16 90 }
{}

/// Where one unit of the destination is written, the others keep what stood there.
pub fn unwritten_units_keep_their_contents()
    ensures units { unit_count first_path_job ≡ 3 }
    ensures running { is_switched (view_after first_path_job (take 15 first_path_events)).phase ≡ false }
    ensures none_applied { number (view_after first_path_job (take 15 first_path_events)).hold.applied 2 ≡ 0 }
    ensures stays { unit_content (contents_after first_path_job (first_view first_path_job) (first_contents first_path_job ((9 ∷ []) ∷ (9 ∷ []) ∷ (9 ∷ []) ∷ [])) (play first_path_job (take 15 first_path_events))).dest 2 ≡ 9 ∷ [] }
    ensures applied { number (view_after first_path_job (take 15 first_path_events)).hold.applied 1 ≡ 1 }
    ensures written { unit_content (contents_after first_path_job (first_view first_path_job) (first_contents first_path_job ((9 ∷ []) ∷ (9 ∷ []) ∷ (9 ∷ []) ∷ [])) (play first_path_job (take 15 first_path_events))).dest 1 ≡ replicate 16 0 }
{}

/// The calls of a run with their parts and streams: a guest's cover what it writes and reads, all others whole units.
pub fn calls_are_made_on_parts()
    ensures made { calls_made after_the_switch_job (play after_the_switch_job after_the_switch_events) ≡
        WriteSource (record { unit = 1; offset = 0; len = 16 }) ∷ ReadSource (record { unit = 1; offset = 0; len = 16 }) ∷ ReadSource (record { unit = 0; offset = 0; len = 16 })
        ∷ PutOn 0 ∷ PutOn 0 ∷ TakeFrom 0 ∷ TakeFrom 0 ∷ WriteDest (record { unit = 1; offset = 0; len = 16 }) ∷ WriteDest (record { unit = 0; offset = 0; len = 16 }) ∷ PutBack ∷ TakeBack ∷ FlushDest
        ∷ ReadDest (record { unit = 1; offset = 0; len = 2 }) ∷ WriteDest (record { unit = 1; offset = 0; len = 16 }) ∷ ReadDest (record { unit = 1; offset = 14; len = 2 }) ∷ [] }
    ensures goes_on { wait after_the_switch_job (view_after after_the_switch_job (take 19 after_the_switch_events)) (Guest (record { 0 = 0 })) false ≡ None }
    ensures on_part { outside after_the_switch_job (view_after after_the_switch_job (take 19 after_the_switch_events)) (Guest (record { 0 = 0 })) ≡ ReadDest (record { unit = 1; offset = 14; len = 2 }) }
{}

/// A call that failed is numbered, and is not among those made; the write that waited is made on the source after it.
pub fn a_failed_call_is_not_made()
    ensures made { calls_made failed_destination_job (play failed_destination_job failed_destination_events) ≡
        ReadSource (record { unit = 1; offset = 0; len = 16 }) ∷ ReadSource (record { unit = 2; offset = 0; len = 16 }) ∷ PutOn 0 ∷ TakeFrom 0 ∷ WriteSource (record { unit = 3; offset = 0; len = 16 }) ∷ [] }
    ensures numbered { calls_of_kind failed_destination_job (play failed_destination_job failed_destination_events) DestWrite ≡ 1 }
    ensures not_written { dest_writes failed_destination_job (play failed_destination_job failed_destination_events) 1 ≡ 0 }
    ensures written { source_writes failed_destination_job (play failed_destination_job failed_destination_events) 3 ≡ 1 }
{}

/// A block is written on both sides: once on the source before the switchover; on the destination once by its copy,
/// and once by the guest afterwards.
pub fn both_sides_are_written()
    ensures source { source_writes after_the_switch_job (play after_the_switch_job after_the_switch_events) 1 ≡ 1 }
    ensures until_the_switch { writes after_the_switch_job (view_after after_the_switch_job after_the_switch_events).history 1 (source_length (view_after after_the_switch_job after_the_switch_events)) ≡ 1 }
    ensures dest { dest_writes after_the_switch_job (play after_the_switch_job after_the_switch_events) 1 ≡ 2 }
    ensures applied { number (view_after after_the_switch_job after_the_switch_events).hold.applied 1 ≡ 1 }
    ensures in_all { writes after_the_switch_job (view_after after_the_switch_job after_the_switch_events).history 1 4 ≡ 2 }
    ensures page { source_writes after_the_switch_job (play after_the_switch_job after_the_switch_events) 0 ≡ 0 }
    ensures page_at_dest { dest_writes after_the_switch_job (play after_the_switch_job after_the_switch_events) 0 ≡ 1 }
{}
