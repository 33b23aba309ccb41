//! The numbered calls of a journal: of each entry the call of a device or a wire that it made, and which of them its job
//! plans to fail.

use std::alloc::Global;
use xv_base::{Cause, Entry, Event, Fault, GuestId, NoMemory, Turn};
use xv_guest::History;
use xv_job::Job;
use xv_parts::Machine;

/// The kind of a call that may fail. A write of a part of a unit is a write.
#[derive(Clone, Copy, Debug, PartialEq, Eq)]
pub enum Call {
    SourceRead,
    SourceWrite,
    DestRead,
    DestWrite,
    Flush,
    Put(u8),
    Take(u8),
    AckPut,
    AckTake,
}

/// The calls of the entries of a migration's journal, in order; none where an entry made none.
/// Errors: want of memory.
pub fn calls_of(alloc: Global, machine: &Machine) -> Result<Vec<Option<Call>>, NoMemory> {
    let mut calls = Vec::new(alloc);
    let mut ended = 0u32;
    let mut switched = false;
    for entry in machine.journal() {
        let call = call_of(machine, entry, ended, switched);
        let Ok(()) = calls.push(call) else {
            return Err(NoMemory);
        };
        if ends_operation(entry) {
            ended = ended.saturating_add(1);
        }
        switched = switched || entry.event == Event::Switch && !is_flagged(entry.turn);
    }
    Ok(calls)
}

/// The call of an entry, before which so many operations have ended.
fn call_of(machine: &Machine, entry: &Entry, ended: u32, switched: bool) -> Option<Call> {
    match entry.event {
        Event::Guest(guest) => {
            if entry.turn == Turn::Queued {
                return None;
            }
            let number = ended_by(machine.history(), guest, ended);
            guest_call(machine.job(), guest, number, switched)
        }
        Event::Release(_) => Some(Call::SourceWrite),
        Event::Read(_) | Event::Page => Some(Call::SourceRead),
        Event::Send(stream) => Some(Call::Put(stream)),
        Event::Deliver(stream) => Some(Call::Take(stream)),
        Event::Apply => Some(Call::DestWrite),
        Event::Ack => Some(Call::AckPut),
        Event::Credit => Some(Call::AckTake),
        Event::Switch => Some(Call::Flush),
        Event::Begin(_) | Event::Advance(_) | Event::Round | Event::Stun | Event::Cancel => None,
    }
}

/// The call of a guest's operation of this number, from 0; none where there is no such operation.
fn guest_call(job: &Job, guest: GuestId, number: u32, switched: bool) -> Option<Call> {
    let place = usize::from(guest.0);
    if place >= job.traces.len() {
        return None;
    }
    let trace = &job.traces[place];
    if number >= trace.unit_ops() {
        return None;
    }
    let writes = trace.unit_op(number).write.is_some();
    Some(match (writes, switched) {
        (true, false) => Call::SourceWrite,
        (true, true) => Call::DestWrite,
        (false, false) => Call::SourceRead,
        (false, true) => Call::DestRead,
    })
}

/// How many of the first operations that have ended are a guest's.
fn ended_by(history: &History, guest: GuestId, first: u32) -> u32 {
    let mut count = 0u32;
    for i in 0..history.len() {
        if i < first && history.entry(i).guest == guest {
            count = count.saturating_add(1);
        }
    }
    count
}

/// Whether an entry ends an operation of a guest.
pub(crate) fn ends_operation(entry: &Entry) -> bool {
    is_guests(entry.event) && entry.turn != Turn::Queued
}

/// Whether an event is a guest's, and no part of the migration's own work.
pub(crate) fn is_guests(event: Event) -> bool {
    matches!(event, Event::Guest(_) | Event::Release(_))
}

/// Whether an answer tells that a call has failed.
fn is_flagged(turn: Turn) -> bool {
    matches!(turn, Turn::Faulted | Turn::Failed(_))
}

/// What an event answers where its call fails.
fn failure_of(event: Event) -> Option<Turn> {
    match event {
        Event::Guest(_) | Event::Release(_) => Some(Turn::Faulted),
        Event::Read(_) | Event::Page => Some(Turn::Failed(Cause::SourceRead)),
        Event::Send(stream) => Some(Turn::Failed(Cause::Put(stream))),
        Event::Deliver(stream) => Some(Turn::Failed(Cause::Take(stream))),
        Event::Apply => Some(Turn::Failed(Cause::DestWrite)),
        Event::Ack => Some(Turn::Failed(Cause::AckPut)),
        Event::Credit => Some(Turn::Failed(Cause::AckTake)),
        Event::Switch => Some(Turn::Failed(Cause::Flush)),
        Event::Begin(_) | Event::Advance(_) | Event::Round | Event::Stun | Event::Cancel => None,
    }
}

/// How many of these calls are of a kind.
pub fn count_of(calls: &[Option<Call>], call: Call) -> u32 {
    let mut count = 0u32;
    for each in calls {
        if *each == Some(call) {
            count = count.saturating_add(1);
        }
    }
    count
}

/// How many entries of a journal tell that a call has failed.
pub fn faults(journal: &[Entry]) -> u32 {
    let mut count = 0u32;
    for entry in journal {
        if is_flagged(entry.turn) {
            count = count.saturating_add(1);
        }
    }
    count
}

/// Whether a job plans the call of this kind and number, from 1, to fail.
fn is_planned(job: &Job, call: Call, number: u32) -> bool {
    job.faults.iter().any(|fault| names(fault, call, number))
}

/// Whether a planned fault names the call of this kind and number.
fn names(fault: &Fault, call: Call, number: u32) -> bool {
    let (kind, planned) = match *fault {
        Fault::SourceRead(planned) => (Call::SourceRead, planned),
        Fault::SourceWrite(planned) => (Call::SourceWrite, planned),
        Fault::DestRead(planned) => (Call::DestRead, planned),
        Fault::DestWrite(planned) => (Call::DestWrite, planned),
        Fault::Flush(planned) => (Call::Flush, planned),
        Fault::Put(stream, planned) => (Call::Put(stream), planned),
        Fault::Take(stream, planned) => (Call::Take(stream), planned),
        Fault::AckPut(planned) => (Call::AckPut, planned),
        Fault::AckTake(planned) => (Call::AckTake, planned),
    };
    kind == call && planned == number
}

/// Whether exactly the planned calls of a run have failed, where these are the calls of its entries, and each is answered as
/// its event says.
pub fn fails_as_planned(machine: &Machine, calls: &[Option<Call>]) -> bool {
    let journal = machine.journal();
    if calls.len() != journal.len() {
        return false;
    }
    for i in 0..journal.len() {
        if !is_answered(machine.job(), &journal[i], &calls[..=i]) {
            return false;
        }
    }
    true
}

/// Whether the last of these calls, an entry's, has failed exactly where it is planned, and is answered so.
fn is_answered(job: &Job, entry: &Entry, calls: &[Option<Call>]) -> bool {
    match calls.last() {
        Some(Some(call)) if is_planned(job, *call, count_of(calls, *call)) => {
            failure_of(entry.event) == Some(entry.turn)
        }
        _ => !is_flagged(entry.turn),
    }
}
