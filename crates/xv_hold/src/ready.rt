//! The slots whose messages are ready, by order of arrival.

ghost use Rattle.std.specs.Prelude.{◌≡◌, ◌+◌, ◌/◌, ◌<◌, ◌≤◌, true, None, length, drop, set, replicate, IfOk, IfSome, IfNone};
ghost use Rattle.xv_hold.specs.Tournament.{earlier, entry_of, IsWonBut, IsEarliest, NoneReady};

use std::alloc::Global;
use std::marker::Model;
use xv_base::NoMemory;

/// A slot that is ready, and the number by which its message arrived.
#[derive(Clone, Copy)]
struct Entry {
    arrival: u64,
    slot: u32,
}

/// The slots that are ready, each by the number of its message's arrival; the earliest is known at once.
///
/// It is a tournament: each slot has a place of its own in the second half of the places, and each place before
/// those has the earlier entry of the two places below it, so that place 1 has the earliest of all.
#[derive(Drop)]
pub struct ReadySlots {
    count: u32,
    places: Vec<Option<Entry>>,
}

impl Model for ReadySlots {
    ghost use Rattle.std.specs.Prelude.{ℕ, List, Option};

    ghost Value = { List (Option ℕ) };

    ghost use Rattle.xv_hold.specs.Tournament.{arrivals_of, IsTournament};

    ghost view = { λ r. arrivals_of r.count r.places.items };

    ghost invariant = { λ r. IsTournament r.count r.places.items };
}

impl ReadySlots {
    /// So many slots, none of them ready. All memory is taken here.
    pub fn new(alloc: Global, count: u32) -> Result<ReadySlots, NoMemory>
        ensures { IfOk result (λ slots. slots ≡ replicate count None) }
    {
        let Ok(places) = Vec::from_elem(alloc, None, 2 * count as usize) else {
            return Err(NoMemory);
        };
        Ok(ReadySlots { count, places })
    }

    /// Makes a slot ready with this number of arrival, or not ready.
    pub fn set(&mut self, slot: u32, arrival: Option<u64>)
        requires { slot < length self.old }
        ensures { self.new ≡ set self.old slot arrival }
    {
        let count = self.count as usize;
        let place = count + slot as usize;
        self.places[place] = entry_of(slot, arrival);
        replay(&mut self.places, count, place);
    }

    /// The slot that is ready with the least number of arrival.
    pub fn first(&self) -> Option<u32>
        ensures none { IfNone result (NoneReady self.now) }
        ensures first { IfSome result (λ slot. IsEarliest self.now slot) }
    {
        if self.count == 0 {
            return None;
        }
        match self.places[1] {
            Some(entry) => Some(entry.slot),
            None => None,
        }
    }
}

/// The entry of a slot.
fn entry_of(slot: u32, arrival: Option<u64>) -> Option<Entry>
    ensures { result ≡ entry_of slot arrival }
{
    match arrival {
        Some(arrival) => Some(Entry { arrival, slot }),
        None => None,
    }
}

/// The entry that arrived earlier, of two that may be there.
fn earlier(left: Option<Entry>, right: Option<Entry>) -> Option<Entry>
    ensures { result ≡ earlier left right }
{
    match (left, right) {
        (Some(a), Some(b)) => {
            if b.arrival < a.arrival {
                Some(b)
            } else {
                Some(a)
            }
        }
        (Some(a), None) => Some(a),
        (None, right) => right,
    }
}

/// Plays the matches above a place again, after its entry has changed.
fn replay(places: &mut [Option<Entry>], count: usize, place: usize)
    requires size { length places.old ≡ count + count }
    requires below { count ≤ place }
    requires within { place < count + count }
    requires others { IsWonBut count places.old (place / 2) }
    ensures below { drop count places.new ≡ drop count places.old }
    ensures won { IsWonBut count places.new 0 }
{
    let mut at = place;
    while at > 1 {
        at /= 2;
        let winner = earlier(places[2 * at], places[2 * at + 1]);
        // Above a match that ends as before all others do too.
        if are_same(places[at], winner) {
            return;
        }
        places[at] = winner;
    }
}

/// Whether two entries that may be there are the same.
fn are_same(left: Option<Entry>, right: Option<Entry>) -> bool
    ensures { result ≡ true → left ≡ right }
{
    match (left, right) {
        (Some(a), Some(b)) => a.arrival == b.arrival && a.slot == b.slot,
        (None, None) => true,
        (Some(_), None) => false,
        (None, Some(_)) => false,
    }
}
