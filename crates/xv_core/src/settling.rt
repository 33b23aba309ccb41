//! What an event leaves behind beside its own effect.

ghost use Rattle.std.specs.Prelude.{◌≡◌, ◌<◌, ◌++◌, true, false, length, vec_capacity, if◌then◌else◌};
ghost use Rattle.xv_base.specs.declared.event.Phase.TheVariants.{Failed as FailedPhase};
ghost use Rattle.xv_model.specs.View.{is_running, is_stunned, is_live};
ghost use Rattle.xv_model.specs.Step.{entry_of, is_wait};
ghost use Rattle.xv_core.specs.Settling.{is_failed, Abandoned};

use xv_base::{Entry, Event, Phase, Turn};
use xv_device::UnitDevice;
use xv_source::SourceHalf;

/// Whether a phase is that in which the guest runs and the copy goes on.
pub(crate) fn is_running(phase: Phase) -> bool
    ensures { result ≡ is_running phase }
{
    match phase {
        Phase::Running => true,
        Phase::Stunned | Phase::Switched | Phase::Cancelled | Phase::Failed => false,
    }
}

/// Whether a phase is that in which the guest is stopped, and not yet taken over.
pub(crate) fn is_stunned(phase: Phase) -> bool
    ensures { result ≡ is_stunned phase }
{
    match phase {
        Phase::Stunned => true,
        Phase::Running | Phase::Switched | Phase::Cancelled | Phase::Failed => false,
    }
}

/// Whether a phase is one in which messages may move.
pub(crate) fn is_live(phase: Phase) -> bool
    ensures { result ≡ is_live phase }
{
    match phase {
        Phase::Running | Phase::Stunned => true,
        Phase::Switched | Phase::Cancelled | Phase::Failed => false,
    }
}

/// Enters an event that did not wait into the journal, for which there is room; where a call of it failed, and the
/// migration with it, gives every region up. The answer is handed on.
pub(crate) fn settle<S: UnitDevice>(
    journal: &mut Vec<Entry>,
    phase: &mut Phase,
    source: &mut SourceHalf<S>,
    event: Event,
    turn: Turn,
) -> Turn
    requires room { is_wait turn ≡ false → length journal.old.items < vec_capacity journal.old }
    ensures answer { result ≡ turn }
    ensures journal { journal.new.items ≡ journal.old.items ++ entry_of event turn }
    ensures reserved { vec_capacity journal.new ≡ vec_capacity journal.old }
    ensures phase { phase.new ≡ (if is_failed turn then FailedPhase else phase.old) }
    ensures going { is_failed turn ≡ false → source.new ≡ source.old }
    ensures given_up { is_failed turn ≡ true → Abandoned source.old source.new }
{
    enter(journal, event, turn);
    if let Turn::Failed(_) = turn {
        *phase = Phase::Failed;
        source.abandon();
        return turn;
    }
    turn
}

/// Enters an event into the journal, unless it waited.
pub(crate) fn enter(journal: &mut Vec<Entry>, event: Event, turn: Turn)
    requires room { is_wait turn ≡ false → length journal.old.items < vec_capacity journal.old }
    ensures journal { journal.new.items ≡ journal.old.items ++ entry_of event turn }
    ensures reserved { vec_capacity journal.new ≡ vec_capacity journal.old }
{
    if let Turn::Wait(_) = turn {
        return;
    }
    journal.push_reserved(Entry { event, turn });
}
