//! Worked migrations, each computed from the definitions: what every event answers, and what is told in the end.

ghost use Rattle.std.specs.Prelude.{◌≡◌, [], ◌∷◌};
ghost use Rattle.xv_model.specs.Step.{turns};
ghost use Rattle.xv_model.specs.Report.{source_content, dest_content};
ghost use Rattle.xv_model.specs.Worked.{totals_after, probe_after, view_after};
ghost use Rattle.xv_base.specs.declared.event.Side.TheVariants.{Ahead, Behind, Dirty, Waiting, Clean};
ghost use Rattle.xv_model.specs.Worked.FirstPath.{first_path_job, first_path_events, first_path_turns, first_path_totals};
ghost use Rattle.xv_model.specs.Worked.WriteAhead.{write_ahead_job, write_ahead_events, write_ahead_turns, write_ahead_totals};
ghost use Rattle.xv_model.specs.Worked.WriteBehind.{write_behind_job, write_behind_events, write_behind_turns, write_behind_totals};
ghost use Rattle.xv_model.specs.Worked.WriteInside.{write_inside_job, write_inside_events, write_inside_turns, write_inside_totals};
ghost use Rattle.xv_model.specs.Worked.TwoGuestsQueue.{two_guests_queue_job, two_guests_queue_events, two_guests_queue_turns, two_guests_queue_totals};
ghost use Rattle.xv_model.specs.Worked.MirrorOvertakesCopy.{mirror_overtakes_copy_job, mirror_overtakes_copy_events, mirror_overtakes_copy_turns, mirror_overtakes_copy_totals};
ghost use Rattle.xv_model.specs.Worked.ReverseOrderOverStreams.{reverse_order_over_streams_job, reverse_order_over_streams_events, reverse_order_over_streams_turns, reverse_order_over_streams_totals};
ghost use Rattle.xv_model.specs.Worked.Throttling.{throttling_job, throttling_events, throttling_turns, throttling_totals};
ghost use Rattle.xv_model.specs.Worked.NothingThere.{nothing_there_job, nothing_there_events, nothing_there_turns, nothing_there_totals};
ghost use Rattle.xv_model.specs.Worked.PageStoredAgain.{page_stored_again_job, page_stored_again_events, page_stored_again_turns, page_stored_again_totals};
ghost use Rattle.xv_model.specs.Worked.StunLimits.{stun_limits_job, stun_limits_events, stun_limits_turns, stun_limits_totals};
ghost use Rattle.xv_model.specs.Worked.SwitchByCreditAlone.{switch_by_credit_alone_job, switch_by_credit_alone_events, switch_by_credit_alone_turns, switch_by_credit_alone_totals};
ghost use Rattle.xv_model.specs.Worked.GuestOwnFault.{guest_own_fault_job, guest_own_fault_events, guest_own_fault_turns, guest_own_fault_totals};
ghost use Rattle.xv_model.specs.Worked.FailedDestination.{failed_destination_job, failed_destination_events, failed_destination_turns, failed_destination_totals};
ghost use Rattle.xv_model.specs.Worked.CancelledWhileStunned.{cancelled_while_stunned_job, cancelled_while_stunned_events, cancelled_while_stunned_turns, cancelled_while_stunned_totals};
ghost use Rattle.xv_model.specs.Worked.AfterTheSwitch.{after_the_switch_job, after_the_switch_events, after_the_switch_turns, after_the_switch_totals};
ghost use Rattle.xv_model.specs.Worked.Groups.{groups_job, groups_events, groups_turns, groups_totals};
ghost use Rattle.xv_model.specs.Worked.RoundsBesideThePass.{rounds_beside_the_pass_job, rounds_beside_the_pass_events, rounds_beside_the_pass_turns, rounds_beside_the_pass_totals};
ghost use Rattle.xv_model.specs.Worked.RoundsPastTheLimit.{rounds_past_the_limit_job, rounds_past_the_limit_events, rounds_past_the_limit_turns, rounds_past_the_limit_totals};

/// One page and one disk, from the first copy to the switchover.
pub fn first_path()
    ensures answers { turns first_path_job first_path_events ≡ first_path_turns }
    ensures report { totals_after first_path_job first_path_events ≡ first_path_totals }
{}

/// A write ahead of the copy goes to the source alone.
pub fn write_ahead()
    ensures answers { turns write_ahead_job write_ahead_events ≡ write_ahead_turns }
    ensures report { totals_after write_ahead_job write_ahead_events ≡ write_ahead_totals }
    ensures probe_1 { probe_after write_ahead_job write_ahead_events 1 4 ≡ record { unit = record { 0 = 4 }; side = Ahead; issued = 0; applied = 0; outbox = 0; wires = 0; held = 0 } }
    ensures probe_2 { probe_after write_ahead_job write_ahead_events 13 4 ≡ record { unit = record { 0 = 4 }; side = Behind; issued = 1; applied = 0; outbox = 1; wires = 0; held = 0 } }
    ensures source_4 { source_content write_ahead_job (view_after write_ahead_job write_ahead_events) 4 ≡ 170 ∷ 170 ∷ 170 ∷ 170 ∷ 170 ∷ 170 ∷ 170 ∷ 170 ∷ 170 ∷ 170 ∷ 170 ∷ 170 ∷ 170 ∷ 170 ∷ 170 ∷ 170 ∷ [] }
{}

/// A write behind the copy is done before its mirror is.
pub fn write_behind()
    ensures answers { turns write_behind_job write_behind_events ≡ write_behind_turns }
    ensures report { totals_after write_behind_job write_behind_events ≡ write_behind_totals }
    ensures probe_1 { probe_after write_behind_job write_behind_events 4 1 ≡ record { unit = record { 0 = 1 }; side = Behind; issued = 2; applied = 0; outbox = 2; wires = 0; held = 0 } }
    ensures probe_2 { probe_after write_behind_job write_behind_events 8 1 ≡ record { unit = record { 0 = 1 }; side = Behind; issued = 2; applied = 1; outbox = 0; wires = 1; held = 0 } }
    ensures source_1 { source_content write_behind_job (view_after write_behind_job write_behind_events) 1 ≡ 187 ∷ 187 ∷ 187 ∷ 187 ∷ 187 ∷ 187 ∷ 187 ∷ 187 ∷ 187 ∷ 187 ∷ 187 ∷ 187 ∷ 187 ∷ 187 ∷ 187 ∷ 187 ∷ [] }
{}

/// A write inside the region waits until the region is behind.
pub fn write_inside()
    ensures answers { turns write_inside_job write_inside_events ≡ write_inside_turns }
    ensures report { totals_after write_inside_job write_inside_events ≡ write_inside_totals }
    ensures probe_1 { probe_after write_inside_job write_inside_events 8 2 ≡ record { unit = record { 0 = 2 }; side = Behind; issued = 2; applied = 0; outbox = 2; wires = 0; held = 0 } }
    ensures source_2 { source_content write_inside_job (view_after write_inside_job write_inside_events) 2 ≡ 204 ∷ 204 ∷ 204 ∷ 204 ∷ 204 ∷ 204 ∷ 204 ∷ 204 ∷ 204 ∷ 204 ∷ 204 ∷ 204 ∷ 204 ∷ 204 ∷ 204 ∷ 204 ∷ [] }
{}

/// Two guests wait for one block, and their writes are made in the order of joining.
pub fn two_guests_queue()
    ensures answers { turns two_guests_queue_job two_guests_queue_events ≡ two_guests_queue_turns }
    ensures report { totals_after two_guests_queue_job two_guests_queue_events ≡ two_guests_queue_totals }
    ensures probe_1 { probe_after two_guests_queue_job two_guests_queue_events 10 1 ≡ record { unit = record { 0 = 1 }; side = Behind; issued = 3; applied = 0; outbox = 3; wires = 0; held = 0 } }
    ensures source_1 { source_content two_guests_queue_job (view_after two_guests_queue_job two_guests_queue_events) 1 ≡ 17 ∷ 17 ∷ 17 ∷ 17 ∷ 17 ∷ 17 ∷ 17 ∷ 17 ∷ 17 ∷ 17 ∷ 17 ∷ 17 ∷ 17 ∷ 17 ∷ 17 ∷ 17 ∷ [] }
{}

/// A mirror that overtakes the copy is held until the copy is written.
pub fn mirror_overtakes_copy()
    ensures answers { turns mirror_overtakes_copy_job mirror_overtakes_copy_events ≡ mirror_overtakes_copy_turns }
    ensures report { totals_after mirror_overtakes_copy_job mirror_overtakes_copy_events ≡ mirror_overtakes_copy_totals }
    ensures probe_1 { probe_after mirror_overtakes_copy_job mirror_overtakes_copy_events 8 1 ≡ record { unit = record { 0 = 1 }; side = Behind; issued = 2; applied = 0; outbox = 0; wires = 1; held = 1 } }
    ensures probe_2 { probe_after mirror_overtakes_copy_job mirror_overtakes_copy_events 12 1 ≡ record { unit = record { 0 = 1 }; side = Behind; issued = 2; applied = 2; outbox = 0; wires = 0; held = 0 } }
    ensures source_1 { source_content mirror_overtakes_copy_job (view_after mirror_overtakes_copy_job mirror_overtakes_copy_events) 1 ≡ 187 ∷ 187 ∷ 187 ∷ 187 ∷ 187 ∷ 187 ∷ 187 ∷ 187 ∷ 187 ∷ 187 ∷ 187 ∷ 187 ∷ 187 ∷ 187 ∷ 187 ∷ 187 ∷ [] }
    ensures destination_1 { dest_content mirror_overtakes_copy_job (view_after mirror_overtakes_copy_job mirror_overtakes_copy_events) 1 ≡ 187 ∷ 187 ∷ 187 ∷ 187 ∷ 187 ∷ 187 ∷ 187 ∷ 187 ∷ 187 ∷ 187 ∷ 187 ∷ 187 ∷ 187 ∷ 187 ∷ 187 ∷ 187 ∷ [] }
{}

/// Three versions that arrive in reverse order are written in order.
pub fn reverse_order_over_streams()
    ensures answers { turns reverse_order_over_streams_job reverse_order_over_streams_events ≡ reverse_order_over_streams_turns }
    ensures report { totals_after reverse_order_over_streams_job reverse_order_over_streams_events ≡ reverse_order_over_streams_totals }
    ensures source_1 { source_content reverse_order_over_streams_job (view_after reverse_order_over_streams_job reverse_order_over_streams_events) 1 ≡ 221 ∷ 221 ∷ 221 ∷ 221 ∷ 221 ∷ 221 ∷ 221 ∷ 221 ∷ 221 ∷ 221 ∷ 221 ∷ 221 ∷ 221 ∷ 221 ∷ 221 ∷ 221 ∷ [] }
    ensures destination_1 { dest_content reverse_order_over_streams_job (view_after reverse_order_over_streams_job reverse_order_over_streams_events) 1 ≡ 221 ∷ 221 ∷ 221 ∷ 221 ∷ 221 ∷ 221 ∷ 221 ∷ 221 ∷ 221 ∷ 221 ∷ 221 ∷ 221 ∷ 221 ∷ 221 ∷ 221 ∷ 221 ∷ [] }
{}

/// A full outbox holds the guest and the copy back, and want of credit the outbox.
pub fn throttling()
    ensures answers { turns throttling_job throttling_events ≡ throttling_turns }
    ensures report { totals_after throttling_job throttling_events ≡ throttling_totals }
    ensures source_1 { source_content throttling_job (view_after throttling_job throttling_events) 1 ≡ 187 ∷ 187 ∷ 187 ∷ 187 ∷ 187 ∷ 187 ∷ 187 ∷ 187 ∷ 187 ∷ 187 ∷ 187 ∷ 187 ∷ 187 ∷ 187 ∷ 187 ∷ 187 ∷ [] }
{}

/// Where there is nothing to do every event waits.
pub fn nothing_there()
    ensures answers { turns nothing_there_job nothing_there_events ≡ nothing_there_turns }
    ensures report { totals_after nothing_there_job nothing_there_events ≡ nothing_there_totals }
{}

/// A page that is stored again after it was sent is sent again.
pub fn page_stored_again()
    ensures answers { turns page_stored_again_job page_stored_again_events ≡ page_stored_again_turns }
    ensures report { totals_after page_stored_again_job page_stored_again_events ≡ page_stored_again_totals }
    ensures probe_1 { probe_after page_stored_again_job page_stored_again_events 2 1 ≡ record { unit = record { 0 = 1 }; side = Waiting; issued = 0; applied = 0; outbox = 0; wires = 0; held = 0 } }
    ensures probe_2 { probe_after page_stored_again_job page_stored_again_events 5 1 ≡ record { unit = record { 0 = 1 }; side = Dirty; issued = 1; applied = 0; outbox = 1; wires = 0; held = 0 } }
    ensures probe_3 { probe_after page_stored_again_job page_stored_again_events 9 1 ≡ record { unit = record { 0 = 1 }; side = Clean; issued = 2; applied = 0; outbox = 2; wires = 0; held = 0 } }
    ensures source_1 { source_content page_stored_again_job (view_after page_stored_again_job page_stored_again_events) 1 ≡ 1 ∷ 255 ∷ 1 ∷ 2 ∷ 0 ∷ 0 ∷ 0 ∷ 0 ∷ 0 ∷ 0 ∷ 0 ∷ 0 ∷ 0 ∷ 0 ∷ 0 ∷ 0 ∷ [] }
{}

/// The stun waits for the rounds and the dirty limit.
pub fn stun_limits()
    ensures answers { turns stun_limits_job stun_limits_events ≡ stun_limits_turns }
    ensures report { totals_after stun_limits_job stun_limits_events ≡ stun_limits_totals }
    ensures source_0 { source_content stun_limits_job (view_after stun_limits_job stun_limits_events) 0 ≡ 187 ∷ 0 ∷ 0 ∷ 0 ∷ 0 ∷ 0 ∷ 0 ∷ 0 ∷ 0 ∷ 0 ∷ 0 ∷ 0 ∷ 0 ∷ 0 ∷ 0 ∷ 0 ∷ [] }
{}

/// The switchover waits until the credit is whole.
pub fn switch_by_credit_alone()
    ensures answers { turns switch_by_credit_alone_job switch_by_credit_alone_events ≡ switch_by_credit_alone_turns }
    ensures report { totals_after switch_by_credit_alone_job switch_by_credit_alone_events ≡ switch_by_credit_alone_totals }
{}

/// A guest's own write that faults is not mirrored.
pub fn guest_own_fault()
    ensures answers { turns guest_own_fault_job guest_own_fault_events ≡ guest_own_fault_turns }
    ensures report { totals_after guest_own_fault_job guest_own_fault_events ≡ guest_own_fault_totals }
    ensures probe_1 { probe_after guest_own_fault_job guest_own_fault_events 4 1 ≡ record { unit = record { 0 = 1 }; side = Behind; issued = 1; applied = 0; outbox = 1; wires = 0; held = 0 } }
{}

/// A failed write at the destination ends the migration, and the queued write goes to the source.
pub fn failed_destination()
    ensures answers { turns failed_destination_job failed_destination_events ≡ failed_destination_turns }
    ensures report { totals_after failed_destination_job failed_destination_events ≡ failed_destination_totals }
    ensures source_3 { source_content failed_destination_job (view_after failed_destination_job failed_destination_events) 3 ≡ 238 ∷ 238 ∷ 238 ∷ 238 ∷ 238 ∷ 238 ∷ 238 ∷ 238 ∷ 238 ∷ 238 ∷ 238 ∷ 238 ∷ 238 ∷ 238 ∷ 238 ∷ 238 ∷ [] }
{}

/// A cancelled migration leaves the guest with the source.
pub fn cancelled_while_stunned()
    ensures answers { turns cancelled_while_stunned_job cancelled_while_stunned_events ≡ cancelled_while_stunned_turns }
    ensures report { totals_after cancelled_while_stunned_job cancelled_while_stunned_events ≡ cancelled_while_stunned_totals }
    ensures source_0 { source_content cancelled_while_stunned_job (view_after cancelled_while_stunned_job cancelled_while_stunned_events) 0 ≡ 170 ∷ 0 ∷ 0 ∷ 0 ∷ 0 ∷ 0 ∷ 0 ∷ 0 ∷ 0 ∷ 0 ∷ 0 ∷ 0 ∷ 0 ∷ 0 ∷ 0 ∷ 0 ∷ [] }
{}

/// After the switchover the guest writes and reads at the destination.
pub fn after_the_switch()
    ensures answers { turns after_the_switch_job after_the_switch_events ≡ after_the_switch_turns }
    ensures report { totals_after after_the_switch_job after_the_switch_events ≡ after_the_switch_totals }
    ensures source_1 { source_content after_the_switch_job (view_after after_the_switch_job after_the_switch_events) 1 ≡ 90 ∷ 90 ∷ 90 ∷ 90 ∷ 90 ∷ 90 ∷ 90 ∷ 90 ∷ 90 ∷ 90 ∷ 90 ∷ 90 ∷ 90 ∷ 90 ∷ 90 ∷ 90 ∷ [] }
    ensures destination_1 { dest_content after_the_switch_job (view_after after_the_switch_job after_the_switch_events) 1 ≡ 165 ∷ 165 ∷ 165 ∷ 165 ∷ 165 ∷ 165 ∷ 165 ∷ 165 ∷ 165 ∷ 165 ∷ 165 ∷ 165 ∷ 165 ∷ 165 ∷ 165 ∷ 165 ∷ [] }
{}

/// Messages that go in groups.
pub fn groups()
    ensures answers { turns groups_job groups_events ≡ groups_turns }
    ensures report { totals_after groups_job groups_events ≡ groups_totals }
{}

/// A round of pages beside the copy of the disk.
pub fn rounds_beside_the_pass()
    ensures answers { turns rounds_beside_the_pass_job rounds_beside_the_pass_events ≡ rounds_beside_the_pass_turns }
    ensures report { totals_after rounds_beside_the_pass_job rounds_beside_the_pass_events ≡ rounds_beside_the_pass_totals }
{}

/// Rounds beside the copy may pass the limit of rounds.
pub fn rounds_past_the_limit()
    ensures answers { turns rounds_past_the_limit_job rounds_past_the_limit_events ≡ rounds_past_the_limit_turns }
    ensures report { totals_after rounds_past_the_limit_job rounds_past_the_limit_events ≡ rounds_past_the_limit_totals }
    ensures source_0 { source_content rounds_past_the_limit_job (view_after rounds_past_the_limit_job rounds_past_the_limit_events) 0 ≡ 187 ∷ 0 ∷ 0 ∷ 0 ∷ 0 ∷ 0 ∷ 0 ∷ 0 ∷ 0 ∷ 0 ∷ 0 ∷ 0 ∷ 0 ∷ 0 ∷ 0 ∷ 0 ∷ [] }
{}
