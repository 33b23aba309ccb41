//! The fifteen events of the machine, its phases, and what is told of it.

use crate::unit::{GuestId, UnitId};

/// One atomic step, with the guest, disk or stream that it is of.
#[derive(Clone, Copy, Debug, PartialEq, Eq)]
pub enum Event {
    /// The guest's next unit operation.
    Guest(GuestId),
    /// A region of the disk begins.
    Begin(u8),
    /// The next block of the disk's region is read.
    Read(u8),
    /// The region's blocks are sent off, and the cursor moves behind them.
    Advance(u8),
    /// The write at the front of the disk's queue is made.
    Release(u8),
    /// A round of the dirty pages begins.
    Round,
    /// The least page of the round is read and sent off.
    Page,
    /// Messages go from the outbox to the stream.
    Send(u8),
    /// Messages come off the stream and are held.
    Deliver(u8),
    /// The first held message that is next for its unit is written.
    Apply,
    /// The messages written since are acknowledged.
    Ack,
    /// An acknowledgement gives credit back.
    Credit,
    /// The guest is stopped.
    Stun,
    /// The destination takes the guest over.
    Switch,
    /// The migration is given up.
    Cancel,
}

/// Where a migration stands.
#[derive(Clone, Copy, Debug, PartialEq, Eq)]
pub enum Phase {
    Running,
    Stunned,
    Switched,
    Cancelled,
    Failed,
}

/// Where a unit stands: a block against its disk's copy, a page against the rounds.
#[derive(Clone, Copy, Debug, PartialEq, Eq)]
pub enum Side {
    Ahead,
    Inside,
    Behind,
    Dirty,
    Waiting,
    Clean,
}

/// What is asked of one unit: its side, the versions made and written, and its messages in the outbox, on
/// the streams and held.
#[derive(Clone, Copy, Debug, PartialEq, Eq)]
pub struct Probe {
    pub unit: UnitId,
    pub side: Side,
    pub issued: u32,
    pub applied: u32,
    pub outbox: u32,
    pub wires: u32,
    pub held: u32,
}

/// The numbers of the report.
#[derive(Clone, Copy, Debug, PartialEq, Eq)]
pub struct Totals {
    pub phase: Phase,
    pub history: u32,
    pub faulted: u32,
    pub journal: u64,
    pub stun: Option<u32>,
    pub copied: u32,
    pub rounds: u32,
    pub messages: u32,
    pub mirrors: u32,
    pub applied: u32,
    pub credit: u32,
}
