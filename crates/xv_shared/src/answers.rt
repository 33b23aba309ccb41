//! What an answer says.

ghost use Rattle.std.specs.Prelude.{◌≡◌, ◌≢◌, ◌≤◌, not};
ghost use Rattle.xv_base.specs.declared.answer.Turn.TheVariants.{Wait};
ghost use Rattle.xv_base.specs.declared.answer.Why.TheVariants.{TraceEnd};
ghost use Rattle.xv_model.specs.Step.{is_wait};
ghost use Rattle.xv_model.specs.Growth.{happened, is_queued, is_fault};
ghost use Rattle.xv_shared.specs.Tallies.{once};
ghost use Rattle.xv_shared.specs.Turns.{told, why_told};

use xv_base::{Turn, Why};

/// Whether the event happened.
pub(crate) fn is_done(turn: Turn) -> bool
    ensures { result ≡ happened turn }
{
    match turn {
        Turn::Done(_) => true,
        Turn::Queued | Turn::Faulted | Turn::Wait(_) | Turn::Failed(_) => false,
    }
}

/// Whether the guest's write waits in a queue.
pub(crate) fn is_queued(turn: Turn) -> bool
    ensures { result ≡ is_queued turn }
{
    match turn {
        Turn::Queued => true,
        Turn::Done(_) | Turn::Faulted | Turn::Wait(_) | Turn::Failed(_) => false,
    }
}

/// Whether the guest's own call failed.
pub(crate) fn is_fault(turn: Turn) -> bool
    ensures { result ≡ is_fault turn }
{
    match turn {
        Turn::Faulted => true,
        Turn::Done(_) | Turn::Queued | Turn::Wait(_) | Turn::Failed(_) => false,
    }
}

/// How many entries of the journal it makes.
pub(crate) fn entered(turn: Turn) -> u32
    ensures exactly { result ≡ once (not (is_wait turn)) }
    ensures few { result ≤ 1 }
{
    match turn {
        Turn::Wait(_) => 0,
        Turn::Done(_) | Turn::Queued | Turn::Faulted | Turn::Failed(_) => 1,
    }
}

/// The answer that a guest's worker is given.
pub(crate) fn told(turn: Turn) -> Turn
    ensures exactly { result ≡ told turn }
    ensures never { result ≢ Wait TraceEnd }
{
    match turn {
        Turn::Wait(why) => Turn::Wait(why_told(why)),
        Turn::Done(_) | Turn::Queued | Turn::Faulted | Turn::Failed(_) => turn,
    }
}

/// That all operations have ended is for the guest's pass to say.
fn why_told(why: Why) -> Why
    ensures exactly { result ≡ why_told why }
    ensures never { result ≢ TraceEnd }
{
    match why {
        Why::TraceEnd | Why::NotNow => Why::NotNow,
        Why::InQueue
        | Why::CancelDue
        | Why::Stunned
        | Why::Throttled
        | Why::NoCredit
        | Why::NothingThere => why,
    }
}
