//! The numbers of progress after a step, from those before it.

ghost use Rattle.std.specs.Prelude.{◌≡◌, ◌+◌, ◌<◌, ◌≤◌, ◌^◌, ℕ, not};
ghost use Rattle.xv_base.specs.declared.event.Event.TheVariants.{Advance};
ghost use Rattle.xv_model.specs.Step.{is_wait};
ghost use Rattle.xv_model.specs.Growth.{ends, applies, blocks_copied};
ghost use Rattle.xv_progress.specs.Numbers.{IsFit};
ghost use Rattle.xv_shared.specs.Tallies.{once};

use crate::answers::{entered, is_done, is_fault};
use xv_base::{Event, Turn};
use xv_progress::Numbers;

/// The numbers after an event with its answer, from the last ones.
pub(crate) fn numbers_after(last: &Numbers, event: Event, turn: Turn) -> Numbers
    requires { IsFit last.now }
    ensures history { result.history ≡ last.now.history + ends event turn }
    ensures copied { result.copied ≡ last.now.copied + blocks_copied event turn }
    ensures applied { result.applied ≡ last.now.applied + applies event turn }
    ensures journal { result.journal ≡ last.now.journal + once (not (is_wait turn)) }
{
    Numbers {
        history: last.history + ended(event, turn),
        copied: last.copied + blocks(event, turn),
        applied: last.applied + applied(event, turn),
        journal: last.journal + u64::from(entered(turn)),
    }
}

/// How many operations of guests an event ends: one, of a guest's event or a release, done or faulted.
fn ended(event: Event, turn: Turn) -> u64
    ensures exactly { result ≡ ends event turn }
    ensures few { result ≤ 1 }
{
    match event {
        Event::Guest(_) | Event::Release(_) => u64::from(is_done(turn) || is_fault(turn)),
        Event::Begin(_)
        | Event::Read(_)
        | Event::Advance(_)
        | Event::Round
        | Event::Page
        | Event::Send(_)
        | Event::Deliver(_)
        | Event::Apply
        | Event::Ack
        | Event::Credit
        | Event::Stun
        | Event::Switch
        | Event::Cancel => 0,
    }
}

/// How many blocks come behind a cursor.
fn blocks(event: Event, turn: Turn) -> u64
    ensures exactly { result ≡ blocks_copied event turn }
    ensures few { result < 2 ^ 32 }
{
    match event {
        Event::Advance(_) => first_number(turn),
        Event::Guest(_)
        | Event::Begin(_)
        | Event::Read(_)
        | Event::Release(_)
        | Event::Round
        | Event::Page
        | Event::Send(_)
        | Event::Deliver(_)
        | Event::Apply
        | Event::Ack
        | Event::Credit
        | Event::Stun
        | Event::Switch
        | Event::Cancel => 0,
    }
}

/// The first number that an advance tells, which is its region's length where it happened.
fn first_number(turn: Turn) -> u64
    ensures exactly { (disk : ℕ) → result ≡ blocks_copied (Advance disk) turn }
    ensures few { result < 2 ^ 32 }
{
    match turn {
        Turn::Done(note) => u64::from(note.a),
        Turn::Queued | Turn::Faulted | Turn::Wait(_) | Turn::Failed(_) => 0,
    }
}

/// How many messages are written at the destination.
fn applied(event: Event, turn: Turn) -> u64
    ensures exactly { result ≡ applies event turn }
    ensures few { result ≤ 1 }
{
    match event {
        Event::Apply => u64::from(is_done(turn)),
        Event::Guest(_)
        | Event::Begin(_)
        | Event::Read(_)
        | Event::Advance(_)
        | Event::Release(_)
        | Event::Round
        | Event::Page
        | Event::Send(_)
        | Event::Deliver(_)
        | Event::Ack
        | Event::Credit
        | Event::Stun
        | Event::Switch
        | Event::Cancel => 0,
    }
}
