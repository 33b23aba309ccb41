//! The command `drive`: the job that a number makes, driven to its end.

ghost use Rattle.std.specs.Prelude.{◌≡◌, ◌<◌, ◌≤◌, ◌^◌, ℕ, false, length, IfOk, OnOk, OnErr, IsErrOf};
ghost use Rattle.xv_base.specs.Units.{units};
ghost use Rattle.xv_base.specs.Calls.{CountRose};
ghost use Rattle.xv_io.specs.Io.{TookMore, TookFront};
ghost use Rattle.xv_model.specs.Job.{unit_count, trace};
ghost use Rattle.xv_model.specs.Guest.{ended};
ghost use Rattle.xv_job.specs.Written.{job_of};
ghost use Rattle.xv_job.specs.Made.{made_job};
ghost use Rattle.xv_guest.specs.Plain.{IsUnmigrated};
ghost use Rattle.xv_core.specs.Seen.{Seen};
ghost use Rattle.xv_core.specs.Losing.{LosesNothing};
ghost use Rattle.xv_top.specs.Printed.{IsZeroElsewhere, HasEndedAll};
ghost use Rattle.xv_top.specs.declared.program.Left.TheVariants.{First};
ghost use Rattle.xv_parts.specs.Memory.{IsInMemory, begun_in_memory};
ghost use Rattle.xv_top.specs.Outcome.{OnInput, ReadsNothing, output_over, outcome};
ghost use Rattle.xv_top.specs.Driven.{agreeing, agree_line, agreed_text, drive_text, HasDriven, AreTheGuests, HasHandedOver};
ghost use Rattle.xv_top.specs.Promises.{DrivePromise};

use crate::output::write_out;
use crate::playing::PlayError;
use crate::program::{Left, leave};
use std::alloc::Global;
use xv_base::{LineBuf, NoMemory, Phase, Status, UnitId};
use xv_device::MemDevice;
use xv_driver::finish;
use xv_guest::{History, PlainGuest};
use xv_io::Sink;
use xv_job::{Job, make_job};
use xv_parts::{Machine, begin};
use xv_report::write_report;

/// Makes the job of a number, drives a migration of it over devices and wires in memory to its end, and writes the report
/// and in how many units the guests' owner holds what the unmigrated guest leaves there; `left` is then the migration. It
/// reads nothing.
///
/// Answers `WriteFault` where the output failed, `NoMemory` for want of memory, where nothing was written.
pub fn run_drive<O: Sink>(alloc: Global, number: u16, output: &mut O, left: &mut Left) -> Status
    requires { left.old ≡ Left.Nothing }
    // That the number fits its type is told here, since it is a value's own.
    ensures below { number < 2 ^ 16 }
    ensures promise { (input : OnInput) → ReadsNothing input → DrivePromise number (outcome input (output_over O.taken O.faults O.keeps_back output.old output.new) result left.new) }
    ensures loses_nothing { (m : Seen) → left.new ≡ First m → LosesNothing m × IsZeroElsewhere m }
    ensures ends_all { (m : Seen) → left.new ≡ First m → (m.job ≡ made_job number) × HasEndedAll m }
{
    match drive(alloc, number, output) {
        Ok(machine) => {
            leave(left, Left::First(machine));
            Status::Fine
        }
        Err(PlayError::WriteFault) => Status::WriteFault,
        Err(PlayError::NoMemory) => Status::NoMemory,
    }
}

/// Drives the job of a number to its end, and writes all that `drive` writes.
fn drive<O: Sink>(alloc: Global, number: u16, output: &mut O) -> Result<Machine, PlayError>
    ensures driven { IfOk result (λ m. HasDriven (made_job number) m) }
    ensures handed_over { IfOk result (λ m. HasHandedOver m) }
    ensures in_memory { IfOk result (λ m. IsInMemory m) }
    ensures written { OnOk result (TookMore (O.taken output.old) (O.taken output.new) (drive_text (made_job number))) }
    ensures front { OnErr result (TookFront (O.taken output.old) (O.taken output.new) (drive_text (made_job number))) }
    ensures memory { IsErrOf result PlayError.NoMemory → O.taken output.new ≡ O.taken output.old }
    ensures flushed { OnOk result (O.keeps_back output.new ≡ false) }
    ensures fault { IsErrOf result PlayError.WriteFault → CountRose (O.faults output.old) (O.faults output.new) }
    ensures quiet { ¬ IsErrOf result PlayError.WriteFault → O.faults output.new ≡ O.faults output.old }
{
    let machine = match drive_number(alloc, number) {
        Ok(machine) => machine,
        Err(_) => return Err(PlayError::NoMemory),
    };
    match write_driven(alloc, &machine, output) {
        Ok(()) => Ok(machine),
        Err(error) => {
            drop(machine);
            Err(error)
        }
    }
}

/// A migration in memory of the job of a number, driven to its end.
/// Errors: want of memory.
fn drive_number(alloc: Global, number: u16) -> Result<Machine, NoMemory>
    ensures driven { IfOk result (λ m. HasDriven (made_job number) m) }
    ensures handed_over { IfOk result (λ m. HasHandedOver m) }
    ensures in_memory { IfOk result (λ m. IsInMemory m) }
{
    let job = make_job(alloc, number)?;
    drive_job(alloc, job)
}

/// A migration in memory of any job, driven to its end.
/// Errors: want of memory.
fn drive_job(alloc: Global, job: Job) -> Result<Machine, NoMemory>
    ensures driven { IfOk result (λ m. HasDriven job m) }
    ensures in_memory { IfOk result (λ m. IsInMemory m) }
{
    let mut machine = begin(alloc, job)?;
    drive_to_end(&mut machine);
    Ok(machine)
}

/// Drives a migration that has just begun in memory to its end.
fn drive_to_end(machine: &mut Machine)
    requires { machine.old ≡ begun_in_memory machine.old.job }
    ensures driven { HasDriven machine.old.job machine.new }
    ensures in_memory { IsInMemory machine.new }
{
    let _ = finish(machine);
}

/// Writes the report of a migration, and in how many units the guests' owner agrees with the unmigrated guest; hands all
/// on.
///
/// Errors: `WriteFault` where a write failed, `NoMemory` for want of memory for the unmigrated guest, where nothing was
/// written.
fn write_driven<O: Sink>(alloc: Global, machine: &Machine, output: &mut O) -> Result<(), PlayError>
    requires { IsInMemory machine.now }
    ensures whole { OnOk result (TookMore (O.taken output.old) (O.taken output.new) (agreed_text (job_of machine.now.job) machine.now.journal)) }
    ensures front { OnErr result (TookFront (O.taken output.old) (O.taken output.new) (agreed_text (job_of machine.now.job) machine.now.journal)) }
    ensures memory { IsErrOf result PlayError.NoMemory → O.taken output.new ≡ O.taken output.old }
    ensures flushed { OnOk result (O.keeps_back output.new ≡ false) }
    ensures fault { IsErrOf result PlayError.WriteFault → CountRose (O.faults output.old) (O.faults output.new) }
    ensures quiet { ¬ IsErrOf result PlayError.WriteFault → O.faults output.new ≡ O.faults output.old }
{
    let Ok(count) = agreement(alloc, machine) else {
        return Err(PlayError::NoMemory);
    };
    let Ok(()) = write_report(&machine.totals(), None, output) else {
        return Err(PlayError::WriteFault);
    };
    match write_out(output, print_agree(count).bytes()) {
        Ok(()) => Ok(()),
        Err(_) => Err(PlayError::WriteFault),
    }
}

/// In how many units the guests' owner holds what the unmigrated guest leaves there: in all of them.
/// Errors: want of memory.
fn agreement(alloc: Global, machine: &Machine) -> Result<u32, NoMemory>
    requires { IsInMemory machine.now }
    ensures { IfOk result (λ count. count ≡ unit_count (job_of machine.now.job)) }
{
    let plain = run_plain(alloc, machine.job(), machine.history())?;
    Ok(agreeing(owner(machine), &plain))
}

/// What the guests of a job leave without a migration, after this history.
/// Errors: want of memory.
fn run_plain(alloc: Global, job: &Job, history: &History) -> Result<PlainGuest, NoMemory>
    requires { (guest : ℕ) → ended history.now.entries guest ≤ length (trace (job_of job.now) guest) }
    ensures shape { IfOk result (λ plain. plain.shape ≡ job.now.shape) }
    ensures unmigrated { IfOk result (λ plain. IsUnmigrated (job_of job.now) history.now.entries plain) }
{
    // That the guests' operations act within the units is told with their number.
    let _ = job.operations();
    PlainGuest::run(alloc, &job.layout, &job.init, &job.traces, history)
}

/// The device that has the guests.
fn owner(machine: &Machine) -> &MemDevice
    requires { IsInMemory machine.now }
    ensures shape { result.now.shape ≡ machine.now.job.shape }
    ensures guests { AreTheGuests machine.now result.now.contents }
{
    match machine.phase() {
        Phase::Switched => machine.dest(),
        Phase::Running | Phase::Stunned | Phase::Cancelled | Phase::Failed => machine.source(),
    }
}

/// In how many units a device holds the same as the unmigrated guest.
fn agreeing(device: &MemDevice, plain: &PlainGuest) -> u32
    requires { plain.now.shape ≡ device.now.shape }
    ensures { result ≡ agreeing (units device.now.shape) device.now.contents plain.now.contents }
{
    let mut count = 0;
    for unit in 0..device.layout().units() {
        let unit = UnitId(unit);
        count += u32::from(device.content(unit) == plain.content(unit));
    }
    count
}

/// The line that says in how many units they agree. Takes no memory.
fn print_agree(count: u32) -> LineBuf
    ensures { result ≡ agree_line count }
{
    let mut line = LineBuf::new();
    line.push_all(b"agree ");
    line.push_number(count);
    line.push(b'\n');
    line
}
