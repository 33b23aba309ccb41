//! What a call's answer enters into a pass, and the bytes of its last read.

ghost use Rattle.std.specs.Prelude.{◌≡◌, ◌<◌, ◌≤◌, ◌+◌, ◌-◌, ◌^◌, length, take, drop, not, nat_lt, if◌then◌else◌};
ghost use Rattle.xv_base.specs.declared.limits.TheConstants.{MOST_PATTERN};
ghost use Rattle.xv_base.specs.declared.answer.Turn.TheVariants.{Wait};
ghost use Rattle.xv_base.specs.declared.answer.Why.TheVariants.{TraceEnd};
ghost use Rattle.xv_model.specs.Step.{is_wait};
ghost use Rattle.xv_model.specs.Growth.{happened, is_queued, is_fault};
ghost use Rattle.xv_shared.specs.Tallies.{pass_after, worker_after, guest_after, last_read, once};

use crate::answers::{entered, is_done, is_fault, is_queued};
use crate::books::{Books, count_if};
use crate::ledgers::Named;
use crate::passes::{GuestPass, WorkerPass};
use std::sync::ledger::Ledger;
use xv_base::{Turn, Why, one_more};

impl<D: Named, Q: Ledger, F: Ledger> GuestPass<D, Q, F> {
    /// Enters the answer of a call, before and after which so many bytes had been read.
    pub(crate) fn enter<R: Ledger>(
        &mut self,
        turn: Turn,
        books: &mut Books<D, Q, F, R>,
        before: usize,
        later: usize,
    )
        requires left { 0 < self.old.left }
        requires done_few { books.old.done.total < 2 ^ 32 }
        requires queued_few { books.old.queued.total < 2 ^ 32 }
        requires faulted_few { books.old.faulted.total < 2 ^ 32 }
        requires read { later ≤ before + MOST_PATTERN }
        ensures moved { self.new ≡ pass_after self.old turn before later }
        ensures done { books.new.done.total ≡ books.old.done.total + once (happened turn) }
        ensures queued { books.new.queued.total ≡ books.old.queued.total + once (is_queued turn) }
        ensures faulted { books.new.faulted.total ≡ books.old.faulted.total + once (is_fault turn) }
        ensures other { books.new.other.total ≡ books.old.other.total }
    {
        self.done = count_if(
            &mut books.done,
            &mut self.done_share,
            self.done,
            is_done(turn),
        );
        self.queued = count_if(
            &mut books.queued,
            &mut self.queued_share,
            self.queued,
            is_queued(turn),
        );
        self.faulted = count_if(
            &mut books.faulted,
            &mut self.faulted_share,
            self.faulted,
            is_fault(turn),
        );
        self.number = self.done + self.queued + self.faulted;
        self.calls = one_more(self.calls);
        self.left -= entered(turn);
        self.read_length = length_after(self.read_length, before, later);
        self.read_at = place_after(self.read_at, before, later);
    }

    /// Counts a call where no operation is left to begin, and gives its answer.
    pub(crate) fn end(&mut self) -> Turn
        requires { self.old.left ≡ 0 }
        ensures answer { result ≡ Wait TraceEnd }
        ensures moved { self.new ≡ guest_after self.old result }
    {
        self.calls = one_more(self.calls);
        Turn::Wait(Why::TraceEnd)
    }

    /// Copies the bytes of the last read out of all that were read, and answers how many they are.
    pub(crate) fn copy_read(&self, reads: &[u8], into: &mut [u8; 64]) -> u32
        ensures few { result ≤ self.now.read_length }
        ensures bytes { take result into.new ≡ last_read self.now reads.now }
        ensures exactly { result ≡ length (last_read self.now reads.now) }
    {
        let last = at_most(behind(reads, self.read_at), self.read_length as usize);
        copy(last, into)
    }
}

impl<R: Ledger> WorkerPass<R> {
    /// Enters the answer of a call.
    pub(crate) fn enter<D: Named, Q: Ledger, F: Ledger>(
        &mut self,
        turn: Turn,
        books: &mut Books<D, Q, F, R>,
    )
        requires few { books.old.other.total < 2 ^ 32 }
        ensures moved { self.new ≡ worker_after self.old turn }
        ensures done { books.new.done.total ≡ books.old.done.total }
        ensures queued { books.new.queued.total ≡ books.old.queued.total }
        ensures faulted { books.new.faulted.total ≡ books.old.faulted.total }
        ensures other { books.new.other.total ≡ books.old.other.total + once (not (is_wait turn)) }
    {
        self.steps = count_if(
            &mut books.other,
            &mut self.share,
            self.steps,
            entered(turn) == 1,
        );
        self.calls = one_more(self.calls);
    }
}

fn place_after(place: usize, before: usize, later: usize) -> usize
    ensures { result ≡ (if nat_lt before later then before else place) }
{
    if before < later { before } else { place }
}

fn length_after(long: u32, before: usize, later: usize) -> u32
    requires more { later ≤ before + MOST_PATTERN }
    requires few { long ≤ MOST_PATTERN }
    ensures exactly { result ≡ (if nat_lt before later then later - before else long) }
    ensures few { result ≤ MOST_PATTERN }
{
    if before < later {
        (later - before) as u32
    } else {
        long
    }
}

/// Copies some bytes to the front of others, and answers how many they are.
fn copy(bytes: &[u8], into: &mut [u8]) -> u32
    requires room { length bytes.now ≤ length into.old }
    requires few { length bytes.now ≤ MOST_PATTERN }
    ensures bytes { take result into.new ≡ bytes.now }
    ensures exactly { result ≡ length bytes.now }
    ensures there { length into.new ≡ length into.old }
{
    let count = bytes.len();
    into[..count].copy_from_slice(bytes);
    count as u32
}

/// The bytes from a place on.
fn behind(bytes: &[u8], place: usize) -> &[u8]
    ensures { result.now ≡ drop place bytes.now }
{
    if place < bytes.len() {
        &bytes[place..]
    } else {
        &[]
    }
}

/// So many bytes, or all.
fn at_most(bytes: &[u8], count: usize) -> &[u8]
    ensures { result.now ≡ take count bytes.now }
{
    if count < bytes.len() {
        &bytes[..count]
    } else {
        bytes
    }
}
