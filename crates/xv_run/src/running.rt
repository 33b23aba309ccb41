//! A job that is run by threads to its end.

ghost use Rattle.std.specs.Prelude.{◌≡◌, IfOk};
ghost use Rattle.xv_model.specs.Job.{guest_count};
ghost use Rattle.xv_job.specs.Written.{job_of};
ghost use Rattle.xv_parts.specs.Memory.{IsInMemory, begun_in_memory};
ghost use Rattle.xv_shared.specs.FirstCrew.{other_count};
ghost use Rattle.xv_run.specs.Run.{HasRunOut, HasEnded};
ghost use Rattle.xv_run.specs.Numbers.{tally};
ghost use Rattle.xv_report.specs.Workers.{AreDistinct};

use crate::numbers::count_workers;
use std::alloc::Global;
use std::marker::Brand;
use std::sync::Wait;
use std::sync::ledger::{Blank, Ledger};
use std::thread::Threads;
use xv_base::NoMemory;
use xv_driver::finish;
use xv_job::Job;
use xv_parts::{Machine, begin};
use xv_report::Counts;
use xv_shared::{Blanks, Gate, Named, Shared, run_workers};

/// Runs a job by a thread for each worker, and by the driver to its end; answers with the migration in memory, and with
/// how many entries of its journal each worker made.
/// Errors: want of memory.
pub fn run_job<G: Gate, X: Threads + Wait + Sync>(
    rt: &X,
    alloc: Global,
    job: Job,
    gate: &G,
) -> Result<(Machine, Counts), NoMemory>
    ensures ended { IfOk result (λ ran. HasEnded job ran.0 ran.1.finish) }
    ensures in_memory { IfOk result (λ ran. IsInMemory ran.0) }
    ensures counted { IfOk result (λ ran. ran.1 ≡ tally (job_of ran.0.job) ran.0.journal ran.1.finish) }
    ensures distinct { IfOk result (λ ran. AreDistinct ran.1.workers) }
{
    let machine = begin(alloc, job)?;
    let blanks = blanks(machine.job());
    let (machine, finish) = run_shared::<Brand, Brand, Brand, Brand, _, _>(
        rt, alloc, blanks, machine, gate,
    )?;
    match count_workers(alloc, machine.job(), machine.journal(), finish) {
        Ok(counts) => Ok((machine, counts)),
        Err(NoMemory) => {
            drop(machine);
            Err(NoMemory)
        }
    }
}

/// Blanks of as many parts as a job has guests, and other workers.
fn blanks(job: &Job) -> Blanks
    ensures done { result.done.parts ≡ guest_count (job_of job.now) }
    ensures queued { result.queued.parts ≡ guest_count (job_of job.now) }
    ensures faulted { result.faulted.parts ≡ guest_count (job_of job.now) }
    ensures other { result.other.parts ≡ other_count (job_of job.now) }
{
    let guests = u64::from(job.guests());
    let disks = u64::from(job.layout.disks());
    let streams = u64::from(job.config.streams);
    Blanks {
        done: Blank::new(guests),
        queued: Blank::new(guests),
        faulted: Blank::new(guests),
        other: Blank::new(disks + 2 * streams + 2),
    }
}

/// Runs a migration that has just begun in memory by its workers, and then by the driver to its end; answers with it and
/// with how many entries the driver made.
/// Errors: want of memory.
fn run_shared<
    D: Named + Send + Sync,
    Q: Ledger + Send + Sync,
    F: Ledger + Send + Sync,
    R: Ledger + Send + Sync,
    G: Gate,
    X: Threads + Wait + Sync,
>(
    rt: &X,
    alloc: Global,
    blanks: Blanks,
    machine: Machine,
    gate: &G,
) -> Result<(Machine, u64), NoMemory>
    requires begun { machine ≡ begun_in_memory machine.job }
    requires named { D.origin ≡ machine }
    requires done { (blanks.done.name ≡ D.name) × (blanks.done.parts ≡ D.parts) × (D.parts ≡ guest_count (job_of D.origin.job)) }
    requires queued { (blanks.queued.name ≡ Q.name) × (blanks.queued.parts ≡ Q.parts) × (Q.parts ≡ guest_count (job_of D.origin.job)) }
    requires faulted { (blanks.faulted.name ≡ F.name) × (blanks.faulted.parts ≡ F.parts) × (F.parts ≡ guest_count (job_of D.origin.job)) }
    requires other { (blanks.other.name ≡ R.name) × (blanks.other.parts ≡ R.parts) × (R.parts ≡ other_count (job_of D.origin.job)) }
    ensures ran { IfOk result (λ ran. HasRunOut machine.job ran.0 ran.1) }
{
    let (shared, mut crew) = match Shared::<_, _, _, D, Q, F, R>::new(alloc, blanks, machine) {
        Ok(made) => made,
        Err(machine) => {
            drop(machine);
            return Err(NoMemory);
        }
    };
    run_workers(rt, &shared, &mut crew, gate);
    let mut machine = shared.close(crew);
    let finish = finish(&mut machine);
    Ok((machine, finish))
}
