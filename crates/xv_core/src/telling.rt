//! What a migration tells.

ghost use Rattle.std.specs.Prelude.{◌≡◌, ◌<◌, Some, None, length, map, nat_le, nat_lt, get_or, if◌then◌else◌};
ghost use Rattle.xv_model.specs.Job.{unit_count, trace};
ghost use Rattle.xv_model.specs.Guest.{ended};
ghost use Rattle.xv_model.specs.View.{no_disk, number, is_empty, queues_empty};
ghost use Rattle.xv_model.specs.Wait.{fits};
ghost use Rattle.xv_model.specs.Report.{probe as probe_of, totals as totals_of};
ghost use Rattle.xv_model.specs.Work.{is_finished, all_ended_from};
ghost use Rattle.xv_job.specs.Written.{job_of};
ghost use Rattle.xv_core.specs.Seen.{view_of};
ghost use Rattle.xv_core.specs.Keeping.{IsKept};

use crate::migration::Migration;
use crate::settling::is_live;
use crate::starting::Parts;
use crate::sums::{copied, issued_from, made_from, written};
use xv_base::{Entry, Event, GuestId, Layout, Phase, Probe, Totals, UnitId};
use xv_device::UnitDevice;
use xv_guest::History;
use xv_job::Job;
use xv_source::SourceHalf;
use xv_wire::Wire;

/// Whether an event's guest, disk or stream is in the job.
pub fn fits(job: &Job, event: Event) -> bool
    ensures { result ≡ fits (job_of job.now) event }
{
    match event {
        Event::Guest(guest) => guest.0 < job.guests(),
        Event::Begin(disk) | Event::Read(disk) | Event::Advance(disk) | Event::Release(disk) => {
            disk < job.layout.disks()
        }
        Event::Send(stream) | Event::Deliver(stream) => stream < job.config.streams,
        Event::Round
        | Event::Page
        | Event::Apply
        | Event::Ack
        | Event::Credit
        | Event::Stun
        | Event::Switch
        | Event::Cancel => true,
    }
}

impl<S: UnitDevice, T: UnitDevice, W: Wire> Migration<S, T, W> {
    /// The job that it does.
    pub fn job(&self) -> &Job
        ensures { result.now ≡ self.now.job }
    {
        &self.job
    }

    /// The unit operations that have ended.
    pub fn history(&self) -> &History
        ensures { result.now.entries ≡ (view_of self.now).history }
    {
        &self.history
    }

    /// The events that happened, in order, with their answers.
    pub fn journal(&self) -> &[Entry]
        ensures exactly { result.now ≡ self.now.journal }
        ensures kept { IsKept self.now }
    {
        &self.journal
    }

    /// The bytes that the guests have read, one read after another.
    pub fn reads(&self) -> &[u8]
        ensures exactly { result.now ≡ self.now.reads }
        ensures kept { IsKept self.now }
    {
        &self.reads
    }

    /// Where it stands.
    pub fn phase(&self) -> Phase
        ensures { result ≡ (view_of self.now).phase }
    {
        self.phase
    }

    /// Whether no guest waits in a queue.
    pub fn queues_empty(&self) -> bool
        ensures { result ≡ queues_empty (view_of self.now).disks }
    {
        are_empty(&self.source, layout_of(&self.job).disks())
    }

    /// Whether it is over, every guest has done all, and nobody waits.
    pub fn finished(&self) -> bool
        ensures { result ≡ is_finished (job_of self.now.job) (view_of self.now) }
    {
        !is_live(self.phase) && all_ended(&self.job, &self.history) && self.queues_empty()
    }

    /// The device that the guests leave.
    pub fn source(&self) -> &S
        ensures told { S.told result.now ≡ self.now.source.told }
        ensures faults { S.faults result.now ≡ self.now.source.faults }
    {
        self.source.device()
    }

    /// The device that the guests go to.
    pub fn dest(&self) -> &T
        ensures told { T.told result.now ≡ self.now.dest.told }
        ensures faults { T.faults result.now ≡ self.now.dest.faults }
    {
        self.dest.device()
    }

    /// One unit's numbers. On the wires are those messages that are neither in the outbox nor held, of all that were made
    /// and are not written.
    pub fn probe(&self, unit: UnitId) -> Probe
        requires { unit.0 < unit_count (job_of self.now.job) }
        ensures { result ≡ probe_of (job_of self.now.job) (view_of self.now) unit.0 }
    {
        let issued = self.source.issued(unit);
        let applied = self.dest.version(unit);
        let outbox = self.source.outbox(unit);
        let held = self.dest.held(unit);
        Probe {
            unit,
            side: self.source.side(unit),
            issued,
            applied,
            outbox,
            wires: issued - applied - outbox - held,
            held,
        }
    }

    /// After how many operations the version of a unit that was written last was made, none where none was written.
    pub fn recorded(&self, unit: UnitId) -> Option<u32>
        requires { unit.0 < unit_count (job_of self.now.job) }
        ensures { result ≡ (if nat_lt 0 (number (view_of self.now).hold.applied unit.0) then Some (number (view_of self.now).hold.recorded unit.0) else None) }
    {
        match self.dest.recorded(unit) {
            Some(at) => Some(at as u32),
            None => None,
        }
    }

    /// The numbers of the report.
    pub fn totals(&self) -> Totals
        ensures { result ≡ totals_of (job_of self.now.job) (view_of self.now) (length self.now.journal) }
    {
        let layout = layout_of(&self.job);
        let pages = layout.pages();
        let units = layout.units();
        Totals {
            phase: self.phase,
            history: self.history.len(),
            faulted: self.history.faulted(),
            journal: self.journal.len() as u64,
            stun: self.stun,
            copied: copied(&self.source, layout.disks()),
            rounds: self.source.rounds(),
            messages: issued_from(&self.source, 0, units),
            mirrors: issued_from(&self.source, pages, units)
                - made_from(&self.source, pages, units),
            applied: written(&self.dest, units),
            credit: self.source.left(),
        }
    }

    /// What it was made of, as it is now: the job, and the devices and wires with all that they tell and their faults.
    pub fn into_parts(self) -> Parts<S, T, W>
        ensures job { result.job ≡ self.job }
        ensures source { result.source ≡ self.source }
        ensures dest { result.dest ≡ self.dest }
        ensures wires { map W.told result.wires ≡ map (λ w. w.told) self.wires }
        ensures wires_faults { map W.faults result.wires ≡ map (λ w. w.faults) self.wires }
        ensures back { W.told result.back ≡ self.back.told }
        ensures back_faults { W.faults result.back ≡ self.back.faults }
    {
        let wires = self.streams.into_wires();
        Parts {
            job: self.job,
            source: self.source.into_device(),
            dest: self.dest.into_device(),
            wires,
            back: self.back.into_wire(),
        }
    }
}

/// Whether no guest waits in a queue of these disks.
fn are_empty<S: UnitDevice>(source: &SourceHalf<S>, disks: u8) -> bool
    requires { disks ≡ length source.now.disks }
    ensures { result ≡ queues_empty source.now.disks }
{
    for disk in 0..disks {
        if !is_empty(source, disk) {
            return false;
        }
    }
    true
}

/// Whether no guest waits in the queue of a disk.
fn is_empty<S: UnitDevice>(source: &SourceHalf<S>, disk: u8) -> bool
    requires { disk < length source.now.disks }
    ensures { result ≡ is_empty (get_or source.now.disks disk no_disk).queue }
{
    source.front(disk).is_none()
}

/// Whether each guest's operations have all ended.
fn all_ended(job: &Job, history: &History) -> bool
    ensures { result ≡ all_ended_from 0 (job_of job.now).traces history.now.entries }
{
    for guest in 0..job.guests() {
        if !has_ended(job, history, guest) {
            return false;
        }
    }
    true
}

/// Whether all operations of a guest have ended.
fn has_ended(job: &Job, history: &History, guest: u8) -> bool
    requires { guest < length (job_of job.now).traces }
    ensures { result ≡ nat_le (length (trace (job_of job.now) guest)) (ended history.now.entries guest) }
{
    let guest = GuestId(guest);
    job.operations_of(guest) <= history.ended(guest)
}

/// The layout of both devices.
fn layout_of(job: &Job) -> &Layout
    ensures { result.now ≡ job.now.shape }
{
    &job.layout
}
