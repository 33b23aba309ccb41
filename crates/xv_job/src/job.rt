//! What a migration is asked to do.

ghost use Rattle.std.specs.Prelude.{◌≡◌, ◌<◌, ◌≤◌, length};
ghost use Rattle.xv_base.specs.declared.limits.TheConstants.{MOST_GUESTS};
ghost use Rattle.xv_model.specs.Job.{guest_count, operation_count, operation, trace};
ghost use Rattle.xv_model.specs.Work.{bound};
ghost use Rattle.xv_job.specs.Written.{job_of, IsGoodWritten};

use std::marker::Model;
use xv_base::{Config, Fault, GuestId, Init, Layout, UnitOp};
use xv_trace::Trace;

/// What a migration is asked to do: the machine, the job format, how many messages go in a group, the limits, the
/// calls that are to fail, the units that do not begin as zeros, and each guest's operations.
#[derive(Drop)]
pub struct Job {
    pub layout: Layout,
    pub format: u8,
    pub group: u32,
    pub config: Config,
    pub faults: Vec<Fault>,
    pub init: Vec<Init>,
    pub traces: Vec<Trace>,
}

impl Model for Job {
    ghost use Rattle.xv_job.specs.Written.{Written, IsGoodWritten, AreTraces, written_of};

    ghost Value = { Written };

    ghost view = { λ j. written_of j.layout j.format j.group j.config j.faults.items j.init.items j.traces.items };

    ghost invariant = { λ j. IsGoodWritten (written_of j.layout j.format j.group j.config j.faults.items j.init.items j.traces.items) × AreTraces j.layout j.traces.items };
}

impl Job {
    /// How many unit operations the guests have together.
    pub fn operations(&self) -> u32
        ensures exactly { result ≡ operation_count (job_of self.now) }
        ensures good { IsGoodWritten self.now }
    {
        let mut count = 0;
        for trace in &self.traces {
            count += trace.unit_ops();
        }
        count
    }

    /// How many guests there are.
    pub fn guests(&self) -> u8
        ensures exactly { result ≡ guest_count (job_of self.now) }
        ensures few { result ≤ MOST_GUESTS }
    {
        self.traces.len() as u8
    }

    /// How many unit operations a guest has.
    pub fn operations_of(&self, guest: GuestId) -> u32
        requires { guest.0 < guest_count (job_of self.now) }
        ensures { result ≡ length (trace (job_of self.now) guest.0) }
    {
        self.traces[guest.0 as usize].unit_ops()
    }

    /// How many entries the journal of a run has at most.
    pub fn bound(&self) -> u32
        ensures { result ≡ bound (job_of self.now) }
    {
        8 * (self.layout.units() + self.operations()) + 80
    }

    /// A guest's unit operation number k, from 0; it takes time in the logarithm of the guest's operations.
    pub fn unit_op(&self, guest: GuestId, k: u32) -> UnitOp
        requires { k < length (trace (job_of self.now) guest.0) }
        ensures exactly { result ≡ operation (job_of self.now) guest.0 k }
        ensures good { IsGoodWritten self.now }
    {
        let trace = &self.traces[guest.0 as usize];
        trace.unit_op(k)
    }
}
