//! What an event answers.

use crate::event::Event;

/// Why an event waits.
#[derive(Clone, Copy, Debug, PartialEq, Eq)]
pub enum Why {
    /// Every unit operation of the guest has ended.
    TraceEnd,
    /// The guest stands in a queue.
    InQueue,
    /// The cancel is due, or is still to come.
    CancelDue,
    /// The guest is stopped.
    Stunned,
    /// The outbox has no room.
    Throttled,
    /// There is no credit.
    NoCredit,
    /// There is nothing to take.
    NothingThere,
    /// The phase or the state does not allow the event.
    NotNow,
}

/// The call on the outside that ended a migration.
#[derive(Clone, Copy, Debug, PartialEq, Eq)]
pub enum Cause {
    SourceRead,
    DestWrite,
    Flush,
    Put(u8),
    Take(u8),
    AckPut,
    AckTake,
}

/// The two numbers that an event which is done tells.
#[derive(Clone, Copy, Debug, PartialEq, Eq)]
pub struct Note {
    pub a: u32,
    pub b: u32,
}

/// The answer of an event.
#[derive(Clone, Copy, Debug, PartialEq, Eq)]
pub enum Turn {
    /// It happened.
    Done(Note),
    /// The guest's write waits in a queue.
    Queued,
    /// The guest's own call on a device failed.
    Faulted,
    /// It waits, and nothing has changed.
    Wait(Why),
    /// A call on the outside failed, and the migration with it.
    Failed(Cause),
}

/// An event that did not wait, with its answer.
#[derive(Clone, Copy, Debug, PartialEq, Eq)]
pub struct Entry {
    pub event: Event,
    pub turn: Turn,
}
