//! What the guests' owner holds, beside what the same guests leave without a migration.

ghost use Rattle.std.specs.Prelude.{◌≡◌, ◌≤◌, ℕ, length, IfOk};
ghost use Rattle.xv_model.specs.Job.{trace};
ghost use Rattle.xv_model.specs.Guest.{ended};
ghost use Rattle.xv_job.specs.Written.{job_of};

use std::alloc::Global;
use xv_base::{NoMemory, Phase, UnitId};
use xv_device::{MemDevice, UnitDevice};
use xv_guest::{History, PlainGuest};
use xv_job::Job;
use xv_parts::Machine;

/// Whether the device that has the guests holds in each unit what the same guests leave without a migration, which do the
/// operations that were done, in the order of the history, and whether they have read the same.
/// Errors: want of memory.
pub fn agrees(alloc: Global, machine: &Machine) -> Result<bool, NoMemory> {
    let plain = plain_of(alloc, machine)?;
    let agrees = machine.reads() == plain.reads() && holds(owner(machine), &plain);
    drop(plain);
    Ok(agrees)
}

/// The guests of a migration without it, after all operations that have ended.
/// Errors: want of memory.
fn plain_of(alloc: Global, machine: &Machine) -> Result<PlainGuest, NoMemory>
    ensures { IfOk result (λ plain. plain.shape ≡ machine.now.job.shape) }
{
    // That no guest has ended more operations than it has is told with the journal.
    let _ = machine.journal();
    run_plain(alloc, machine.job(), machine.history())
}

/// The guests of a job without a migration, after this history.
/// Errors: want of memory.
fn run_plain(alloc: Global, job: &Job, history: &History) -> Result<PlainGuest, NoMemory>
    requires { (guest : ℕ) → ended history.now.entries guest ≤ length (trace (job_of job.now) guest) }
    ensures { IfOk result (λ plain. plain.shape ≡ job.now.shape) }
{
    // That the guests' operations act within the units is told with their number.
    let _ = job.operations();
    PlainGuest::run(alloc, &job.layout, &job.init, &job.traces, history)
}

/// The device that has the guests.
fn owner(machine: &Machine) -> &MemDevice
    ensures { result.now.shape ≡ machine.now.job.shape }
{
    // That both devices have the job's units is told with the journal.
    let _ = machine.journal();
    if machine.phase() == Phase::Switched {
        machine.dest()
    } else {
        machine.source()
    }
}

/// Whether a device holds in each unit what these guests leave.
fn holds(device: &MemDevice, plain: &PlainGuest) -> bool
    requires { plain.now.shape ≡ device.now.shape }
{
    for unit in 0..device.layout().units() {
        if device.content(UnitId(unit)) != plain.content(UnitId(unit)) {
            return false;
        }
    }
    true
}
