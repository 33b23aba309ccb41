//! The queue of writes that wait for their blocks to be behind the copy.

ghost use Rattle.std.specs.Prelude.{◌≡◌, ◌<◌, ◌++◌, ◌∷◌, [], false, length, drop, slice_get, IfSome};
ghost use Rattle.xv_filter.specs.Queue.{waits_for, front, IsQueue};

use std::marker::Model;
use xv_base::{GuestId, MOST_GUESTS, UnitId, Waiting};

/// Places in a queue: one for each guest that there may be.
const PLACES: usize = MOST_GUESTS as usize;

/// Writes in order of joining, at most one of each guest.
#[derive(Debug, Drop)]
pub struct Queue {
    places: [Waiting; PLACES],
    count: usize,
}

impl Model for Queue {
    ghost use Rattle.std.specs.Prelude.{List, take, ◌≤◌};
    ghost use Rattle.xv_base.specs.declared.limits.TheConstants.{MOST_GUESTS};
    ghost use Rattle.xv_base.specs.declared.operation.Waiting.{Waiting};
    ghost use Rattle.xv_filter.specs.Queue.{IsQueue};

    ghost Value = { List Waiting };

    ghost view = { λ q. take q.count q.places };

    ghost invariant = { λ q. (q.count ≤ MOST_GUESTS) × IsQueue (take q.count q.places) };
}

impl Queue {
    /// A queue in which nobody waits.
    pub fn new() -> Queue
        ensures { result ≡ [] }
    {
        Queue {
            places: [Waiting {
                guest: GuestId(0),
                unit: UnitId(0),
            }; PLACES],
            count: 0,
        }
    }

    /// Puts a write of a guest, whose number is below `MOST_GUESTS` and who does not wait here yet, at the end.
    pub fn join(&mut self, waiting: Waiting)
        requires small { waiting.guest.0 < MOST_GUESTS }
        requires absent { waits_for self.old waiting.guest.0 ≡ false }
        ensures { self.new ≡ self.old ++ waiting ∷ [] }
    {
        self.places[self.count] = waiting;
        self.count += 1;
    }

    /// The write that joined first, or none where nobody waits.
    pub fn front(&self) -> Option<Waiting>
        ensures exactly { result ≡ slice_get self.now 0 }
        ensures first { IfSome result (λ waiting. waiting ≡ front self.now) }
    {
        if self.count == 0 {
            return None;
        }
        Some(self.places[0])
    }

    /// Takes the write that joined first out of the queue, which is not empty.
    pub fn leave(&mut self) -> Waiting
        requires { 0 < length self.old }
        ensures first { result ≡ front self.old }
        ensures rest { self.new ≡ drop 1 self.old }
    {
        let first = self.places[0];
        self.places.rotate_left(1);
        self.count -= 1;
        first
    }

    /// Whether a write of the guest waits.
    pub fn holds(&self, guest: GuestId) -> bool
        ensures exactly { result ≡ waits_for self.now guest.0 }
        ensures once { IsQueue self.now }
    {
        self.places[..self.count]
            .iter()
            .any(|waiting| waiting.guest == guest)
    }
}
