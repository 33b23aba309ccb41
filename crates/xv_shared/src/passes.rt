//! The passes: in each a worker counts what its calls made.

ghost use Rattle.std.specs.Prelude.{◌≡◌, ◌≤◌, ◌<◌, ◌^◌};
ghost use Rattle.xv_base.specs.declared.limits.TheConstants.{MOST_PATTERN};
ghost use Rattle.xv_report.specs.declared.counts.Job1.TheVariants.{Guest};
ghost use Rattle.xv_job.specs.Written.{job_of};
ghost use Rattle.xv_model.specs.Job.{guest_count};
ghost use Rattle.xv_shared.specs.Tallies.{guest_number};
ghost use Rattle.xv_shared.specs.Crews.{worker, calls, number, left};

use crate::ledgers::Named;
use std::marker::Model;
use std::sync::ledger::{Ledger, Share};
use xv_base::GuestId;
use xv_report::Job1;

/// A guest's pass. It holds one part of each of the ledgers of guests' answers.
#[derive(Drop)]
pub struct GuestPass<D: Named, Q: Ledger, F: Ledger> {
    pub(crate) guest: GuestId,
    pub(crate) calls: u64,
    pub(crate) number: u64,
    pub(crate) done: u64,
    pub(crate) queued: u64,
    pub(crate) faulted: u64,
    pub(crate) left: u32,
    pub(crate) read_at: usize,
    pub(crate) read_length: u32,
    pub(crate) done_share: Share<D>,
    pub(crate) queued_share: Share<Q>,
    pub(crate) faulted_share: Share<F>,
}

impl<D: Named, Q: Ledger, F: Ledger> Model for GuestPass<D, Q, F> {
    ghost use Rattle.std.specs.Prelude.{◌≡◌, ◌<◌, ◌≤◌, ◌+◌};
    ghost use Rattle.xv_base.specs.declared.limits.TheConstants.{MOST_PATTERN};
    ghost use Rattle.xv_job.specs.Written.{job_of};
    ghost use Rattle.xv_model.specs.Job.{guest_count};
    ghost use Rattle.xv_shared.specs.Tallies.{GuestTally, IsBacked};

    ghost Value = { GuestTally };

    ghost view = { λ p. record { guest = p.guest.0; calls = p.calls; done = p.done; queued = p.queued; faulted = p.faulted; left = p.left; read_at = p.read_at; read_length = p.read_length } };

    ghost invariant = { λ p. (p.guest.0 < guest_count (job_of D.origin.job)) × (p.number ≡ p.done + p.queued + p.faulted) × (p.read_length ≤ MOST_PATTERN) × IsBacked p.done p.done_share.parts p.done_share.amount × IsBacked p.queued p.queued_share.parts p.queued_share.amount × IsBacked p.faulted p.faulted_share.parts p.faulted_share.amount };
}

impl<D: Named, Q: Ledger, F: Ledger> GuestPass<D, Q, F> {
    /// The guest that it is of.
    pub fn guest(&self) -> GuestId
        ensures exactly { result ≡ record { 0 = self.now.guest } }
        ensures there { result.0 < guest_count (job_of D.origin.job) }
    {
        self.guest
    }

    /// The worker that it is of.
    pub fn worker(&self) -> Job1
        ensures { result ≡ Guest self.now.guest }
    {
        Job1::Guest(self.guest.0)
    }

    /// How many calls were made with it; the last value of 64 bits stays.
    pub fn calls(&self) -> u64
        ensures { result ≡ self.now.calls }
    {
        self.calls
    }

    /// How many entries of the journal its calls made.
    pub fn number(&self) -> u64
        ensures { result ≡ guest_number self.now }
    {
        self.number
    }

    /// How many of its calls were answered `Done`.
    pub fn done(&self) -> u64
        ensures { result ≡ self.now.done }
    {
        self.done
    }

    /// How many of its calls were answered `Queued`.
    pub fn queued(&self) -> u64
        ensures { result ≡ self.now.queued }
    {
        self.queued
    }

    /// How many of its calls were answered `Faulted`.
    pub fn faulted(&self) -> u64
        ensures { result ≡ self.now.faulted }
    {
        self.faulted
    }

    /// How many unit operations of its guest have not begun.
    pub fn left(&self) -> u32
        ensures { result ≡ self.now.left }
    {
        self.left
    }

    /// How long its guest's last read was that was done; 0 before the first.
    pub fn read_length(&self) -> u32
        ensures exactly { result ≡ self.now.read_length }
        ensures few { result ≤ MOST_PATTERN }
    {
        self.read_length
    }
}

/// The pass of a worker that is no guest. It holds one part of the ledger of all other entries.
#[derive(Drop)]
pub struct WorkerPass<R: Ledger> {
    pub(crate) worker: Job1,
    pub(crate) calls: u64,
    pub(crate) steps: u64,
    pub(crate) share: Share<R>,
}

impl<R: Ledger> Model for WorkerPass<R> {
    ghost use Rattle.xv_shared.specs.Tallies.{WorkerTally, IsBacked};

    ghost Value = { WorkerTally };

    ghost view = { λ p. record { worker = p.worker; calls = p.calls; steps = p.steps } };

    ghost invariant = { λ p. IsBacked p.steps p.share.parts p.share.amount };
}

impl<R: Ledger> WorkerPass<R> {
    /// The worker that it is of.
    pub fn worker(&self) -> Job1
        ensures { result ≡ self.now.worker }
    {
        self.worker
    }

    /// How many calls were made with it; the last value of 64 bits stays.
    pub fn calls(&self) -> u64
        ensures { result ≡ self.now.calls }
    {
        self.calls
    }

    /// How many entries of the journal its calls made.
    pub fn number(&self) -> u64
        ensures { result ≡ self.now.steps }
    {
        self.steps
    }
}

/// A worker's pass.
#[derive(Drop)]
pub enum Pass<D: Named, Q: Ledger, F: Ledger, R: Ledger> {
    Guest(GuestPass<D, Q, F>),
    Other(WorkerPass<R>),
}

impl<D: Named, Q: Ledger, F: Ledger, R: Ledger> Pass<D, Q, F, R> {
    /// The worker that it is of.
    pub fn worker(&self) -> Job1
        ensures { result ≡ worker self.now }
    {
        match self {
            Pass::Guest(pass) => pass.worker(),
            Pass::Other(pass) => pass.worker(),
        }
    }

    /// How many calls were made with it; the last value of 64 bits stays.
    pub fn calls(&self) -> u64
        ensures { result ≡ calls self.now }
    {
        match self {
            Pass::Guest(pass) => pass.calls(),
            Pass::Other(pass) => pass.calls(),
        }
    }

    /// How many entries of the journal its calls made.
    pub fn number(&self) -> u64
        ensures { result ≡ number self.now }
    {
        match self {
            Pass::Guest(pass) => pass.number(),
            Pass::Other(pass) => pass.number(),
        }
    }

    /// How many unit operations of its guest have not begun; none where it is no guest's.
    pub fn left(&self) -> u32
        ensures { result ≡ left self.now }
    {
        match self {
            Pass::Guest(pass) => pass.left(),
            Pass::Other(_) => 0,
        }
    }
}
