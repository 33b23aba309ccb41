//! Migrations in memory, and the blanks of their ledgers.

ghost use Rattle.std.specs.Prelude.{◌≡◌, [], IfOk};
ghost use Rattle.xv_model.specs.Job.{guest_count};
ghost use Rattle.xv_job.specs.Written.{job_of};
ghost use Rattle.xv_parts.specs.Memory.{begun_in_memory};
ghost use Rattle.xv_shared.specs.FirstCrew.{other_count};

use std::alloc::Global;
use std::sync::ledger::Blank;
use std::test::Fail;
use xv_job::{Job, read_job};
use xv_parts::{Machine, begin};
use xv_shared::Blanks;

/// The migration over devices and wires in memory of the job that a text says.
pub(crate) fn begun(alloc: Global, text: &[u8]) -> Result<Machine, Fail>
    ensures { IfOk result (λ machine. machine ≡ begun_in_memory machine.job) }
{
    match read_job(alloc, text) {
        Ok((job, _place)) => begun_of(alloc, job),
        Err(_) => Err(Fail::new("no job")),
    }
}

/// The migration over devices and wires in memory of a job.
pub(crate) fn begun_of(alloc: Global, job: Job) -> Result<Machine, Fail>
    ensures { IfOk result (λ machine. machine ≡ begun_in_memory machine.job) }
{
    Ok(begin(alloc, job)?)
}

/// Blanks of as many parts as a job has workers.
pub(crate) fn blanks(job: &Job) -> Blanks
    ensures done { result.done.parts ≡ guest_count (job_of job.now) }
    ensures queued { result.queued.parts ≡ guest_count (job_of job.now) }
    ensures faulted { result.faulted.parts ≡ guest_count (job_of job.now) }
    ensures other { result.other.parts ≡ other_count (job_of job.now) }
{
    let guests = u64::from(job.guests());
    let disks = u64::from(job.layout.disks());
    let streams = u64::from(job.config.streams);
    Blanks {
        done: Blank::new(guests),
        queued: Blank::new(guests),
        faulted: Blank::new(guests),
        other: Blank::new(disks + 2 * streams + 2),
    }
}
