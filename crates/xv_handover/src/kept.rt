//! What each node keeps over a restart.

/// What node A keeps: its last attempt, the number of the guest's state, and whether it has let the guest go.
#[derive(Clone, Copy, Debug, PartialEq, Eq)]
pub struct KeptA {
    pub attempt: u32,
    pub number: u32,
    pub gone: bool,
}

/// Where node B stands.
#[derive(Clone, Copy, Debug, PartialEq, Eq)]
pub enum Stage {
    /// It has at most an image.
    Idle,
    /// It has answered an offer, and waits for the word.
    Prepared,
    /// It has the guest.
    Owner,
}

/// What node B keeps. In `Idle` the attempt is the greatest that has ended.
#[derive(Clone, Copy, Debug, PartialEq, Eq)]
pub struct KeptB {
    pub stage: Stage,
    pub attempt: u32,
    pub number: u32,
}
