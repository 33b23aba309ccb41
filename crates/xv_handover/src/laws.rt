//! What holds over every list of events, and over every text, each as the contract of a function that does nothing.

ghost use Rattle.std.specs.Prelude.{◌≡◌, ◌≢◌, ◌≤◌, ◌↔◌, ◌⊎◌, ◌+◌, ◌++◌, [], false, ℕ, List, length, None, Some};
ghost use Rattle.xv_base.specs.declared.text.LineWhy.TheVariants.{Unended};
ghost use Rattle.xv_text.specs.Lines.{whole_lines};
ghost use Rattle.xv_text.specs.Reading.{at_line};
ghost use Rattle.xv_handover.specs.declared.world.WorldEvent.{WorldEvent};
ghost use Rattle.xv_handover.specs.declared.world.WorldEvent.TheVariants.{RestartA, RestartB, Pass};
ghost use Rattle.xv_handover.specs.declared.message.Message.{Message};
ghost use Rattle.xv_handover.specs.declared.message.Kind.TheVariants.{Abort};
ghost use Rattle.xv_handover.specs.declared.kept.KeptA.{KeptA};
ghost use Rattle.xv_handover.specs.declared.kept.KeptB.{KeptB};
ghost use Rattle.xv_handover.specs.declared.message.Reply.{Reply};
ghost use Rattle.xv_handover.specs.declared.message.Reply.TheVariants.{Done, NotNow, Failed};
ghost use Rattle.xv_handover.specs.World.{Both, side_a, first_world, step, world_after};
ghost use Rattle.xv_handover.specs.Safe.{IsSafe, IsSound, HandsOver};
ghost use Rattle.xv_handover.specs.Crash.{CrashLeaves};
ghost use Rattle.xv_handover.specs.Lines.{script_text};
ghost use Rattle.xv_handover.specs.Script.{text_fault, IsScript};
ghost use Rattle.xv_handover.specs.Program.{Running, Deed, world_of, Happens, IsProgram, left_by, events_of};

/// The nodes never both own the guest, whatever was called, delivered, lost or restarted.
pub fn never_two_owners()
    ensures { (events : List WorldEvent) → let w = world_after first_world events in IsSafe w.a w.b }
{}

/// What a message tells is true whenever it comes.
pub fn messages_stay_true()
    ensures { (events : List WorldEvent) → let w = world_after first_world events in IsSound w.a w.offered w.b w.sent }
{}

/// The event at which node B becomes the owner gives it the number of node A's offer.
pub fn owner_has_the_offered_number()
    ensures { (events : List WorldEvent) (event : WorldEvent) → let w = world_after first_world events in HandsOver w (step w event).0 }
{}

/// A call of a node, a delivery or a restart that meets its table is the event of the world, with its answer. Where the
/// keeper failed, the world is as it was.
pub fn calls_are_events()
    ensures made { (event : WorldEvent) (reply : Reply) (x y : Running) → Happens event reply x y → reply ≢ Failed → step (world_of x) event ≡ (world_of y, reply) }
    ensures failed { (event : WorldEvent) (x y : Running) → Happens event Failed x y → world_of x ≡ world_of y }
{}

/// So whatever a program does with two nodes from their beginnings, they are a world: what holds over every list of events
/// holds of them.
pub fn programs_are_worlds()
    ensures world { (x : Running) (deeds : List Deed) → IsProgram x deeds → world_after (world_of x) (events_of deeds) ≡ world_of (left_by x deeds) }
    ensures sound { (x : Running) (deeds : List Deed) → world_of x ≡ first_world → IsProgram x deeds → let w = world_of (left_by x deeds) in IsSound w.a w.offered w.b w.sent }
{}

/// A crash inside a call leaves the old value or the new one: the node wakes as after a restart alone, or as after the event,
/// whose message is lost, and a restart.
pub fn crashes_are_restarts()
    ensures a { (w : Both) (event : WorldEvent) (kept : KeptA) → CrashLeaves w.a (step w event).0.a kept
        → (record { kept = kept; offered = false } ≡ side_a (step w RestartA).0) ⊎ (record { kept = kept; offered = false } ≡ side_a (step (step w event).0 RestartA).0) }
    ensures b { (w : Both) (event : WorldEvent) (kept : KeptB) → CrashLeaves w.b (step w event).0.b kept
        → (kept ≡ (step w RestartB).0.b) ⊎ (kept ≡ (step (step w event).0 RestartB).0.b) }
{}

/// No event fails, since nothing that the nodes of a world keep is lost.
pub fn no_event_fails()
    ensures { (w : Both) (event : WorldEvent) → (step w event).1 ≢ Failed }
{}

/// A pass waits exactly where no message of its number was sent.
pub fn pass_waits_for_its_message()
    ensures { (w : Both) (number : ℕ) → ((step w (Pass number)).1 ≡ NotNow) ↔ (length w.sent ≤ number) }
{}

/// An `Abort` that is sent has the number 0.
pub fn aborts_have_number_zero()
    ensures { (w : Both) (event : WorldEvent) (sent : Message) → (step w event).1 ≡ Done (Some sent) → sent.kind ≡ Abort → sent.number ≡ 0 }
{}

/// No text of a script begins that of another: with its line `stop` it is at its end.
pub fn no_script_begins_another()
    ensures { (events others : List WorldEvent) (rest : List ℕ) → IsScript events → IsScript others → script_text events ++ rest ≡ script_text others → (events ≡ others) × (rest ≡ []) }
{}

/// A text that is cut short, wherever it is cut, is refused for the line that it misses: the one behind its whole lines. So it is
/// with each text that is accepted, and with that of each script.
pub fn cut_scripts_are_unended()
    ensures accepted { (front rest : List ℕ) → text_fault (front ++ rest) ≡ None → rest ≢ [] → text_fault front ≡ Some (at_line (length (whole_lines front) + 1) Unended) }
    ensures spelled { (events : List WorldEvent) (front rest : List ℕ) → IsScript events → script_text events ≡ front ++ rest → rest ≢ [] → text_fault front ≡ Some (at_line (length (whole_lines front) + 1) Unended) }
{}
