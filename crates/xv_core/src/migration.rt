//! The migration over two devices and some wires.

use std::marker::Model;
use xv_base::{Entry, Phase};
use xv_dest::DestHalf;
use xv_device::UnitDevice;
use xv_guest::History;
use xv_job::Job;
use xv_source::SourceHalf;
use xv_streams::{BackWire, Streams};
use xv_wire::Wire;

/// A migration: its job, its journal, the history of its guests, and its two halves with the wires between them.
#[derive(Drop)]
pub struct Migration<S: UnitDevice, T: UnitDevice, W: Wire> {
    pub(crate) job: Job,
    pub(crate) journal: Vec<Entry>,
    pub(crate) history: History,
    pub(crate) phase: Phase,
    pub(crate) stun: Option<u32>,
    pub(crate) source: SourceHalf<S>,
    pub(crate) dest: DestHalf<T>,
    pub(crate) streams: Streams<W>,
    pub(crate) back: BackWire<W>,
    /// The bytes that the guests have read, one read after another.
    pub(crate) reads: Vec<u8>,
    /// The bytes of one read.
    pub(crate) read: Vec<u8>,
}

impl<S: UnitDevice, T: UnitDevice, W: Wire> Model for Migration<S, T, W> {
    ghost use Rattle.std.specs.Prelude.{length, vec_capacity};
    ghost use Rattle.xv_core.specs.Seen.{Seen};
    ghost use Rattle.xv_core.specs.State.{state_of, seen_of};
    ghost use Rattle.xv_core.specs.Kept.{IsState, HasRooms};

    ghost Value = { Seen };

    ghost view = { λ m. seen_of (state_of m.job m.journal.items m.history.entries m.phase m.stun m.source m.dest m.streams m.back m.reads.items) };

    ghost invariant = { λ m. IsState (state_of m.job m.journal.items m.history.entries m.phase m.stun m.source m.dest m.streams m.back m.reads.items) × HasRooms m.job m.history.room (vec_capacity m.journal) (vec_capacity m.reads) (length m.read.items) };
}
