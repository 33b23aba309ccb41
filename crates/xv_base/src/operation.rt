//! What a guest did, and the small records that name a message and a queued write.

use crate::unit::{GuestId, UnitId};

/// How a unit operation ended.
#[derive(Clone, Copy, Debug, PartialEq, Eq)]
pub enum Outcome {
    Done,
    Faulted,
}

/// One entry of the history: the guest's next unit operation has ended.
#[derive(Clone, Copy, Debug, PartialEq, Eq)]
pub struct Ended {
    pub guest: GuestId,
    pub outcome: Outcome,
}

/// A message without its content: the unit, its version from 1, and the length of the history when the
/// message was made.
#[derive(Clone, Copy, Debug, PartialEq, Eq)]
pub struct UnitHead {
    pub unit: UnitId,
    pub version: u32,
    pub at: u64,
}

/// A guest whose block write waits until its block is behind the copy.
#[derive(Clone, Copy, Debug, PartialEq, Eq)]
pub struct Waiting {
    pub guest: GuestId,
    pub unit: UnitId,
}
