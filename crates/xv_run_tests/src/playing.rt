//! The journal of a migration, played again from the start by one thread.

use std::alloc::Global;
use std::test::Fail;
use xv_base::{Entry, Event, UnitId};
use xv_core::fits;
use xv_device::{MemDevice, UnitDevice};
use xv_io::MemSink;
use xv_job::{Job, read_job};
use xv_parts::{Machine, begin};
use xv_script::Line;
use xv_top::replay_on;

/// What is answered where a journal is played again, and whether both sides then hold the same as before.
#[derive(Drop)]
pub struct Played {
    pub answers: Vec<u8>,
    pub same: bool,
}

/// Room for the answers of a job, which has that many bytes at most.
const ROOM: u32 = 4_000_000;

/// How many bytes of an answer are taken at once.
const PIECE: u32 = 65_536;

/// Plays the journal of a migration again, on a migration of the job of the same text.
pub(crate) fn play_again(alloc: Global, text: &[u8], machine: &Machine) -> Result<Played, Fail> {
    let mut again = started(alloc, text)?;
    let answers = answers(alloc, &mut again, machine.journal());
    let same = are_alike(machine, &again);
    drop(again);
    Ok(Played {
        answers: answers?,
        same,
    })
}

/// A migration in which nothing has happened, of the job of a text.
fn started(alloc: Global, text: &[u8]) -> Result<Machine, Fail> {
    let job = job_of(alloc, text)?;
    match begin(alloc, job) {
        Ok(machine) => Ok(machine),
        Err(_) => Err(Fail::new("no memory for a migration")),
    }
}

/// Whether two migrations hold the same on both sides.
fn are_alike(one: &Machine, other: &Machine) -> bool {
    are_same(one.source(), other.source()) && are_same(one.dest(), other.dest())
}

/// What is answered where the events of a journal are played.
fn answers(alloc: Global, machine: &mut Machine, journal: &[Entry]) -> Result<Vec<u8>, Fail> {
    let mut sink = MemSink::new(alloc, ROOM, PIECE, &[])?;
    if play(machine, journal, &mut sink) {
        Ok(sink.bytes().to_vec(alloc)?)
    } else {
        Err(Fail::new("an event of no worker, or too many answers"))
    }
}

fn job_of(alloc: Global, text: &[u8]) -> Result<Job, Fail> {
    match read_job(alloc, text) {
        Ok((job, _place)) => Ok(job),
        Err(_) => Err(Fail::new("no job")),
    }
}

/// Plays the events of a journal, each a line of its own; whether all were of the job, and answered.
fn play(machine: &mut Machine, journal: &[Entry], sink: &mut MemSink) -> bool {
    for entry in journal {
        if !play_one(machine, entry.event, sink) {
            return false;
        }
    }
    true
}

fn play_one(machine: &mut Machine, event: Event, sink: &mut MemSink) -> bool {
    fits(machine.job(), event) && replay_on(machine, &[Line::Step(event)], sink).is_ok()
}

/// Whether two devices hold the same in every unit.
fn are_same(one: &MemDevice, other: &MemDevice) -> bool {
    if one.layout().units() != other.layout().units() {
        return false;
    }
    for unit in 0..one.layout().units() {
        let unit = UnitId(unit);
        if one.content(unit) != other.content(unit) {
            return false;
        }
    }
    true
}
