//! How a migration begins in memory.

ghost use Rattle.std.specs.Prelude.{◌≡◌, ◌≤◌, ◌<◌, ℕ, [], length, map, get_or, All, IfOk};
ghost use Rattle.std.specs.List.{range_with_len};
ghost use Rattle.xv_base.specs.Units.{units};
ghost use Rattle.xv_device.specs.Memory.{fresh as fresh_device, told as told_device, no_init};
ghost use Rattle.xv_wire.specs.Memory.{told as told_wire};
ghost use Rattle.xv_job.specs.Written.{job_of};
ghost use Rattle.xv_core.specs.Beginning.{IsDeviceFor, BeginsWithJob, IsWireFor, stream_room, back_room};
ghost use Rattle.xv_parts.specs.Plans.{source_plan, dest_plan, back_plan};
ghost use Rattle.xv_parts.specs.Memory.{pipe_begun, stream_pipe, begun_in_memory};

use crate::plans::{back_plan, dest_plan, source_plan, stream_plan};
use std::alloc::Global;
use xv_base::{Init, NoMemory, SINGLE_FORMAT};
use xv_core::{Migration, Parts};
use xv_device::{DevicePlan, MemDevice};
use xv_job::Job;
use xv_wire::{LEAST_PUT, MemWire};

/// The migration over devices and wires in memory.
pub type Machine = Migration<MemDevice, MemDevice, MemWire>;

/// The greatest number of bytes that a take gives.
const PIECE: u32 = 700;

/// How many bytes a frame has beside one message's content, where it is of a message alone, and where it is of a group.
const SINGLE_HEAD: u32 = 24;

const GROUP_HEAD: u32 = 44;

/// A migration of this job over devices and wires in memory, in which nothing has happened. The source begins with the
/// job's contents, and the destination with zeros; a call fails where the job's faults name its number.
/// Errors: want of memory.
pub fn begin(alloc: Global, job: Job) -> Result<Machine, NoMemory>
    ensures begun { IfOk result (λ machine. machine ≡ begun_in_memory job) }
{
    let (source, dest) = make_devices(alloc, &job)?;
    let (wires, back) = make_wires(alloc, &job)?;
    let parts = Parts {
        job,
        source,
        dest,
        wires,
        back,
    };
    match Migration::start(alloc, parts) {
        Ok(machine) => Ok(machine),
        Err(_parts) => Err(NoMemory),
    }
}

/// The devices of a job in memory, the source and then the destination: the source begins with the job's contents, and the
/// destination with zeros; a call fails where the job's faults name its number. A migration of the job may begin with them.
/// Errors: want of memory.
pub fn make_devices(alloc: Global, job: &Job) -> Result<(MemDevice, MemDevice), NoMemory>
    ensures source { IfOk result (λ made. made.0 ≡ fresh_device job.now.shape job.now.init (source_plan job.now.faults)) }
    ensures dest { IfOk result (λ made. made.1 ≡ fresh_device job.now.shape [] (dest_plan job.now.faults)) }
    ensures source_fits { IfOk result (λ made. IsDeviceFor (job_of job.now) (told_device made.0)) }
    ensures source_begins { IfOk result (λ made. BeginsWithJob (job_of job.now) (told_device made.0)) }
    ensures dest_fits { IfOk result (λ made. IsDeviceFor (job_of job.now) (told_device made.1)) }
{
    let source = source(alloc, job)?;
    let dest = dest(alloc, job)?;
    Ok((source, dest))
}

/// The wires of a job in memory, one for each stream in their order, and the wire back: nothing is in transit, each has room
/// for the whole credit, and a call fails where the job's faults name its number. A migration of the job may begin with them.
/// Errors: want of memory.
pub fn make_wires(alloc: Global, job: &Job) -> Result<(Vec<MemWire>, MemWire), NoMemory>
    ensures wires { IfOk result (λ made. made.0.items ≡ map (stream_pipe job.now) (range_with_len 0 job.now.config.streams)) }
    ensures back { IfOk result (λ made. made.1 ≡ pipe_begun (back_room (job_of job.now)) (back_plan job.now.faults)) }
    ensures each_stream { IfOk result (λ made. length made.0.items ≡ job.now.config.streams) }
    ensures wires_fit { IfOk result (λ made. All (λ w. IsWireFor (stream_room (job_of job.now)) (told_wire w)) made.0.items) }
    ensures back_fits { IfOk result (λ made. IsWireFor (back_room (job_of job.now)) (told_wire made.1)) }
{
    let wires = streams(alloc, job)?;
    let back = way_back(alloc, job)?;
    Ok((wires, back))
}

/// The source, whose units begin as the job says.
fn source(alloc: Global, job: &Job) -> Result<MemDevice, NoMemory>
    ensures begun { IfOk result (λ device. device ≡ fresh_device job.now.shape job.now.init (source_plan job.now.faults)) }
    ensures fits { IfOk result (λ device. IsDeviceFor (job_of job.now) (told_device device)) }
{
    let plan = source_plan(alloc, &job.faults)?;
    device(alloc, job, &job.init, plan)
}

/// The destination, whose units begin as zeros.
fn dest(alloc: Global, job: &Job) -> Result<MemDevice, NoMemory>
    ensures begun { IfOk result (λ device. device ≡ fresh_device job.now.shape [] (dest_plan job.now.faults)) }
    ensures fits { IfOk result (λ device. IsDeviceFor (job_of job.now) (told_device device)) }
{
    let plan = dest_plan(alloc, &job.faults)?;
    device(alloc, job, &[], plan)
}

/// A device over the job's units, which begin so.
fn device(alloc: Global, job: &Job, init: &[Init], plan: DevicePlan) -> Result<MemDevice, NoMemory>
    requires { (i : ℕ) → i < length init.now → (get_or init.now i no_init).unit.0 < units job.now.shape }
    ensures fresh { IfOk result (λ device. device ≡ fresh_device job.now.shape init.now plan) }
    ensures fits { IfOk result (λ device. IsDeviceFor (job_of job.now) (told_device device)) }
{
    let device = MemDevice::new(alloc, &job.layout, init, plan)?;
    // That each unit's content has the unit's size is told with the layout.
    let _ = device.layout();
    Ok(device)
}

/// A wire for each stream of the job, in their order.
fn streams(alloc: Global, job: &Job) -> Result<Vec<MemWire>, NoMemory>
    ensures { IfOk result (λ wires. wires.items ≡ map (stream_pipe job.now) (range_with_len 0 job.now.config.streams)) }
{
    let mut wires = Vec::new(alloc);
    for stream in 0..job.config.streams {
        let Ok(()) = wires.push(stream_wire(alloc, job, stream)?) else {
            return Err(NoMemory);
        };
    }
    Ok(wires)
}

/// The wire of a stream, with room for the whole credit in frames of the greatest unit.
fn stream_wire(alloc: Global, job: &Job, stream: u8) -> Result<MemWire, NoMemory>
    ensures { IfOk result (λ wire. wire ≡ stream_pipe job.now stream) }
{
    let plan = stream_plan(alloc, &job.faults, stream)?;
    MemWire::new(alloc, stream_room(job), PIECE, plan)
}

/// The wire back, with room for the whole credit in acknowledgements.
fn way_back(alloc: Global, job: &Job) -> Result<MemWire, NoMemory>
    ensures { IfOk result (λ wire. wire ≡ pipe_begun (back_room (job_of job.now)) (back_plan job.now.faults)) }
{
    let plan = back_plan(alloc, &job.faults)?;
    MemWire::new(alloc, back_room(job), PIECE, plan)
}

/// How many bytes a stream's wire has room for.
fn stream_room(job: &Job) -> u32
    ensures exactly { result ≡ stream_room (job_of job.now) }
    ensures a_frame { LEAST_PUT ≤ result }
{
    let _ = job.operations();
    let head = if job.format == SINGLE_FORMAT {
        SINGLE_HEAD
    } else {
        GROUP_HEAD
    };
    job.config.credit * (head + job.layout.max_size())
}

/// How many bytes the wire back has room for.
fn back_room(job: &Job) -> u32
    ensures exactly { result ≡ back_room (job_of job.now) }
    ensures a_frame { LEAST_PUT ≤ result }
{
    let _ = job.operations();
    SINGLE_HEAD * job.config.credit
}
