//! Runs by the driver to their ends.

ghost use Rattle.std.specs.Prelude.{◌≡◌, length, All, IfOk};
ghost use Rattle.xv_wire.specs.Memory.{told as told_wire};
ghost use Rattle.xv_job.specs.Written.{job_of};
ghost use Rattle.xv_core.specs.Beginning.{IsWireFor, stream_room, back_room};

use std::alloc::Global;
use std::test::Fail;
use xv_base::{Event, NoMemory, Phase, UnitId};
use xv_core::{Migration, Parts};
use xv_device::MemDevice;
use xv_driver::{finish, next};
use xv_job::{Job, read_job};
use xv_parts::{Machine, make_devices};
use xv_wire::{MemWire, WirePlan};

/// The greatest credit and the greatest unit that these tests have wires for.
const CREDIT: u32 = 4;

const BYTES: u32 = 16;

/// A page and a disk of two blocks, and a guest that does nothing.
const FIRST_PATH: &[u8] =
    b"job 1\npages 1 16\ndisk 2 16\nstreams 1\ncredit 4\noutbox 4\nregion 1\nrounds 1\ndirty 0\nguest\nend\n";

/// A job, and how its run by the driver ends: the phase, the length of the history, the bytes that the guests have read, and
/// the byte that fills each unit at its owner.
#[derive(Clone, Copy)]
struct Run {
    text: &'static [u8],
    phase: Phase,
    history: u32,
    reads: &'static [u8],
    units: [u8; 3],
}

/// Runs that end in each phase in which a run can end.
const RUNS: &[Run] = &[
    Run {
        text: b"job 1\npages 1 16\ndisk 2 16\nstreams 1\ncredit 4\noutbox 4\nregion 1\nrounds 1\ndirty 0\ninit 0 a5\ninit 2 5a\nguest\nend\n",
        phase: Phase::Switched,
        history: 0,
        reads: b"",
        units: [0xa5, 0, 0x5a],
    },
    Run {
        text: b"job 1\npages 1 16\ndisk 2 16\nstreams 2\ncredit 2\noutbox 2\nregion 2\nrounds 1\ndirty 0\nguest\nwr 0 1 1 bb\nrd 0 1 2 3\nguest\nst 0 16 cc\nend\n",
        phase: Phase::Switched,
        history: 3,
        reads: b"\xbb\xbb\xbb",
        units: [0xcc, 0, 0xbb],
    },
    Run {
        text: b"job 1\npages 1 16\ndisk 2 16\nstreams 1\ncredit 4\noutbox 4\nregion 1\nrounds 1\ndirty 0\ncancel 1\nguest\nwr 0 0 2 bb\nend\n",
        phase: Phase::Cancelled,
        history: 2,
        reads: b"",
        units: [0, 0xbb, 0xbb],
    },
    Run {
        text: b"job 1\npages 1 16\ndisk 2 16\nstreams 1\ncredit 4\noutbox 4\nregion 1\nrounds 1\ndirty 0\nfault dwrite 1\ninit 0 a5\nguest\nwr 0 0 1 bb\nend\n",
        phase: Phase::Failed,
        history: 1,
        reads: b"",
        units: [0xa5, 0xbb, 0],
    },
];

/// A wire with room for the whole credit, of which no call fails.
fn wire(alloc: Global, job: &Job) -> Result<MemWire, Fail>
    ensures stream { IfOk result (λ wire. IsWireFor (stream_room (job_of job.now)) (told_wire wire)) }
    ensures back { IfOk result (λ wire. IsWireFor (back_room (job_of job.now)) (told_wire wire)) }
{
    if job.config.credit > CREDIT || job.layout.max_size() > BYTES {
        return Err(Fail::new("more than the wires have room for"));
    }
    let plan = WirePlan {
        puts: Vec::new(alloc),
        takes: Vec::new(alloc),
    };
    Ok(MemWire::new(alloc, CREDIT * (44 + BYTES), 10, plan)?)
}

/// A wire for each stream of the job.
fn wires(alloc: Global, job: &Job) -> Result<Vec<MemWire>, Fail>
    ensures each_stream { IfOk result (λ wires. length wires.items ≡ job.now.config.streams) }
    ensures each { IfOk result (λ wires. All (λ w. IsWireFor (stream_room (job_of job.now)) (told_wire w)) wires.items) }
{
    let mut wires = Vec::new(alloc);
    for _stream in 0..job.config.streams {
        wires.push(wire(alloc, job)?)?;
    }
    Ok(wires)
}

/// The same, and the wire back.
fn both_ways(alloc: Global, job: &Job) -> Result<(Vec<MemWire>, MemWire), Fail>
    ensures each_stream { IfOk result (λ made. length made.0.items ≡ job.now.config.streams) }
    ensures wires { IfOk result (λ made. All (λ w. IsWireFor (stream_room (job_of job.now)) (told_wire w)) made.0.items) }
    ensures back { IfOk result (λ made. IsWireFor (back_room (job_of job.now)) (told_wire made.1)) }
{
    let wires = wires(alloc, job)?;
    let back = wire(alloc, job)?;
    Ok((wires, back))
}

/// A migration of the job that a text says, over devices and wires in memory.
fn begun(alloc: Global, text: &[u8]) -> Result<Machine, Fail> {
    match read_job(alloc, text) {
        Ok((job, _place)) => started(alloc, job),
        Err(_) => Err(Fail::new("no job")),
    }
}

/// Drops what a migration was of, here alone: what goes with it is then proved once.
fn let_go(_parts: Parts<MemDevice, MemDevice, MemWire>) {}

/// A migration of this job.
fn started(alloc: Global, job: Job) -> Result<Machine, Fail> {
    let (source, dest) = make_devices(alloc, &job)?;
    let (wires, back) = both_ways(alloc, &job)?;
    let parts = Parts {
        job,
        source,
        dest,
        wires,
        back,
    };
    match Migration::start(alloc, parts) {
        Ok(machine) => Ok(machine),
        Err(parts) => {
            let_go(parts);
            Err(Fail::from(NoMemory))
        }
    }
}

/// Whether each unit of a device is filled with its byte.
fn are_filled(device: &MemDevice, bytes: [u8; 3]) -> bool {
    if device.layout().units() != 3 {
        return false;
    }
    for unit in 0..3 {
        let byte = bytes[unit as usize];
        if device
            .content(UnitId(unit))
            .iter()
            .any(|other| *other != byte)
        {
            return false;
        }
    }
    true
}

/// What the driver steps next.
fn next_of(machine: &Machine) -> Option<Event> {
    next(machine)
}

/// What the driver steps first.
fn first_of(alloc: Global, text: &[u8]) -> Result<Option<Event>, Fail> {
    let machine = begun(alloc, text)?;
    let first = next_of(&machine);
    let_go(machine.into_parts());
    Ok(first)
}

/// A run by the driver from its beginning to its end, and by how much the driver says that the journal has grown.
fn driven(alloc: Global, text: &[u8]) -> Result<(Machine, u64), Fail> {
    let mut machine = begun(alloc, text)?;
    let grown = finish(&mut machine);
    Ok((machine, grown))
}

/// The device that has the guests.
fn owner(machine: &Machine) -> &MemDevice {
    if machine.phase() == Phase::Switched {
        machine.dest()
    } else {
        machine.source()
    }
}

/// Whether the driver has nothing to do, and the journal has as many entries as it says that it has grown by.
fn is_at_its_end(machine: &Machine, grown: u64) -> bool {
    machine.finished() && next_of(machine).is_none() && grown == machine.journal().len() as u64
}

/// Whether a run leaves what is expected.
fn leaves(machine: &Machine, run: &Run) -> bool {
    machine.phase() == run.phase
        && machine.history().len() == run.history
        && machine.reads() == run.reads
        && are_filled(owner(machine), run.units)
}

/// Whether a run by the driver ends so.
fn ends(alloc: Global, run: &Run) -> Result<bool, Fail> {
    let (machine, grown) = driven(alloc, run.text)?;
    let well = is_at_its_end(&machine, grown) && leaves(&machine, run);
    let_go(machine.into_parts());
    Ok(well)
}

#[test]
fn begins_with_the_disk(rt: HostRuntime) -> Result<(), Fail> {
    assert_eq!(rt; first_of(rt.alloc(), FIRST_PATH)?, Some(Event::Begin(0)));
    Ok(())
}

#[test]
fn drives_runs_to_their_ends(rt: HostRuntime) -> Result<(), Fail> {
    for run in RUNS {
        assert!(rt; ends(rt.alloc(), run)?);
    }
    Ok(())
}
