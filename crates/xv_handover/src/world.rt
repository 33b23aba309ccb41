//! The two nodes and every message that was ever sent.

use crate::kept::{KeptA, KeptB};
use crate::message::Message;
use std::marker::Model;

/// A call of a node, a restart of one, or a delivery.
#[derive(Clone, Copy, Debug, PartialEq, Eq)]
pub enum WorldEvent {
    WriteA,
    WriteB,
    /// An image of this number comes to node B.
    Image(u32),
    Offer,
    Withdraw,
    ResendA,
    ResendB,
    RestartA,
    RestartB,
    /// The message of this number, from 0 on, is delivered, and may be delivered again.
    Pass(u32),
}

/// Both nodes, and all messages that were sent, in order.
#[derive(Drop)]
pub struct World {
    pub a: KeptA,
    pub offered: bool,
    pub b: KeptB,
    pub sent: Vec<Message>,
}

impl Model for World {
    ghost use Rattle.xv_handover.specs.World.{Both};

    ghost Value = { Both };

    ghost view = { λ w. record { a = w.a; offered = w.offered; b = w.b; sent = w.sent.items } };
}
