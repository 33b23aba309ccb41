//! The history of ended unit operations.

ghost use Rattle.std.specs.Prelude.{◌≡◌, ◌<◌, ◌≤◌, ◌++◌, ◌∷◌, [], ◌==◌, length, count_by, slice_index_or, IfOk};
ghost use Rattle.xv_guest.specs.Log.{ended, entry, faulted, fault_count};

use std::alloc::Global;
use std::marker::Model;
use xv_base::{Ended, GuestId, NoMemory, Outcome};

/// How many guests a `GuestId` can name.
pub(crate) const GUESTS: usize = 256;

/// The ended unit operations in the order in which they ended, at most as many as there is room for.
#[derive(Drop)]
pub struct History {
    entries: Vec<Ended>,
    room: u32,
    counts: Vec<u32>,
    faulted: u32,
}

impl Model for History {
    ghost use Rattle.std.specs.Prelude.{vec_capacity};
    ghost use Rattle.xv_guest.specs.Log.{Log, IsCounted};

    ghost Value = { Log };

    ghost view = { λ h. record { entries = h.entries.items; room = h.room } };

    ghost invariant = { λ h. IsCounted h.entries.items h.room (vec_capacity h.entries) h.counts.items h.faulted };
}

impl History {
    /// A history without entries. All memory is taken here, for `room` entries.
    pub fn new(alloc: Global, room: u32) -> Result<History, NoMemory>
        ensures { IfOk result (λ history. history ≡ record { entries = []; room = room }) }
    {
        let Ok(entries) = Vec::with_capacity(alloc, room as usize) else {
            return Err(NoMemory);
        };
        let Ok(counts) = Vec::from_elem(alloc, 0, GUESTS) else {
            return Err(NoMemory);
        };
        Ok(History {
            entries,
            room,
            counts,
            faulted: 0,
        })
    }

    /// Appends an entry; it takes no memory.
    pub fn push(&mut self, ended: Ended)
        requires { length self.old.entries < self.old.room }
        ensures entries { self.new.entries ≡ self.old.entries ++ ended ∷ [] }
        ensures room { self.new.room ≡ self.old.room }
    {
        self.counts[ended.guest.0 as usize] += 1;
        self.faulted += fault_count(ended.outcome);
        self.entries.push_reserved(ended);
    }

    /// How many entries there is room for.
    pub fn room(&self) -> u32
        ensures { result ≡ self.now.room }
    {
        self.room
    }

    /// How many entries there are.
    pub fn len(&self) -> u32
        ensures exactly { result ≡ length self.now.entries }
        ensures fits { result ≤ self.now.room }
    {
        self.entries.len() as u32
    }

    /// The entry of this number, from 0 on.
    pub fn entry(&self, i: u32) -> Ended
        requires { i < length self.now.entries }
        ensures { result ≡ entry self.now.entries i }
    {
        self.entries[i as usize]
    }

    /// How many unit operations of this guest have ended.
    pub fn ended(&self, guest: GuestId) -> u32
        ensures { result ≡ ended self.now.entries guest.0 }
    {
        self.counts[guest.0 as usize]
    }

    /// How many unit operations have faulted.
    pub fn faulted(&self) -> u32
        ensures { result ≡ faulted self.now.entries }
    {
        self.faulted
    }
}

/// One for a fault, and nothing for what was done.
fn fault_count(outcome: Outcome) -> u32
    ensures { result ≡ fault_count outcome }
{
    match outcome {
        Outcome::Done => 0,
        Outcome::Faulted => 1,
    }
}
