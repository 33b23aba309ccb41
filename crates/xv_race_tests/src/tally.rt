//! What the passes of two guests and of the other workers have counted, and what a journal has of each.

use std::sync::ledger::Ledger;
use xv_base::{Entry, Event, GuestId, Turn};
use xv_shared::{GuestPass, Named, Pass};

/// Entries of the first guest, of the second, and of all other workers.
#[derive(Clone, Copy, Debug, PartialEq)]
pub(crate) struct Tally {
    pub(crate) first: Kinds,
    pub(crate) second: Kinds,
    pub(crate) other: u64,
}

/// Entries of one guest, by their answers.
#[derive(Clone, Copy, Debug, PartialEq)]
pub(crate) struct Kinds {
    pub(crate) done: u64,
    pub(crate) queued: u64,
    pub(crate) faulted: u64,
}

const NONE: Tally = Tally {
    first: Kinds {
        done: 0,
        queued: 0,
        faulted: 0,
    },
    second: Kinds {
        done: 0,
        queued: 0,
        faulted: 0,
    },
    other: 0,
};

impl Kinds {
    pub(crate) fn sum(&self) -> u64 {
        self.done
            .wrapping_add(self.queued)
            .wrapping_add(self.faulted)
    }

    /// With an answer more.
    fn with(self, turn: Turn) -> Kinds {
        match turn {
            Turn::Done(_) => Kinds {
                done: self.done.wrapping_add(1),
                ..self
            },
            Turn::Queued => Kinds {
                queued: self.queued.wrapping_add(1),
                ..self
            },
            Turn::Faulted => Kinds {
                faulted: self.faulted.wrapping_add(1),
                ..self
            },
            Turn::Wait(_) | Turn::Failed(_) => self,
        }
    }
}

impl Tally {
    pub(crate) fn sum(&self) -> u64 {
        self.first
            .sum()
            .wrapping_add(self.second.sum())
            .wrapping_add(self.other)
    }

    /// With an entry more.
    fn with(self, entry: Entry) -> Tally {
        match entry.event {
            Event::Guest(GuestId(0)) => Tally {
                first: self.first.with(entry.turn),
                ..self
            },
            Event::Guest(_) => Tally {
                second: self.second.with(entry.turn),
                ..self
            },
            _ => Tally {
                other: self.other.wrapping_add(1),
                ..self
            },
        }
    }
}

/// What the passes have counted.
pub(crate) fn counted<D: Named, Q: Ledger, F: Ledger, R: Ledger>(
    passes: &[Pass<D, Q, F, R>],
) -> Tally {
    let mut tally = NONE;
    for pass in passes {
        match pass {
            Pass::Guest(pass) => {
                if pass.guest() == GuestId(0) {
                    tally.first = kinds_of(pass);
                } else {
                    tally.second = kinds_of(pass);
                }
            }
            Pass::Other(pass) => tally.other = tally.other.wrapping_add(pass.number()),
        }
    }
    tally
}

fn kinds_of<D: Named, Q: Ledger, F: Ledger>(pass: &GuestPass<D, Q, F>) -> Kinds {
    Kinds {
        done: pass.done(),
        queued: pass.queued(),
        faulted: pass.faulted(),
    }
}

/// What a journal has.
pub(crate) fn entered(journal: &[Entry]) -> Tally {
    let mut tally = NONE;
    for entry in journal {
        tally = tally.with(*entry);
    }
    tally
}

/// How often the entries of a journal, from a place on, pass from one guest or worker to another.
pub(crate) fn changes(journal: &[Entry], from: usize) -> u32 {
    let mut changes: u32 = 0;
    let mut last: Option<Option<GuestId>> = None;
    for entry in journal.iter().skip(from) {
        let actor = Some(actor(entry.event));
        if last.is_some() && last != actor {
            changes = changes.saturating_add(1);
        }
        last = actor;
    }
    changes
}

/// The guest that an event is of; none of a worker that is no guest.
fn actor(event: Event) -> Option<GuestId> {
    match event {
        Event::Guest(guest) => Some(guest),
        _ => None,
    }
}
