ghost use Rattle.std.specs.Prelude.{◌≡◌, IfOk};
ghost use Rattle.xv_parts.specs.Memory.{begun_in_memory};

use crate::Silent;
use std::alloc::Global;
use std::test::Fail;
use xv_base::{
    Cause, Ended, Entry, MOST_GUESTS, NoMemory, Outcome, Phase, Totals, Turn, UnitId, UnitOp,
};
use xv_core::{Migration, Parts};
use xv_device::{MemDevice, UnitDevice};
use xv_driver::finish;
use xv_job::{Job, read_job};
use xv_parts::{Machine, begin};
use xv_wire::MemWire;

/// A migration over two devices that tell nothing.
type SilentMachine = Migration<Silent, Silent, MemWire>;

/// How many bytes each unit of these jobs has.
const SIZE: usize = 16;

/// Jobs of a page and a disk of two blocks: one of a guest that does nothing, one of two streams and two guests, one of
/// groups, one of which a call of the way back fails, and one that is cancelled.
const JOBS: &[&[u8]] = &[
    b"job 1\npages 1 16\ndisk 2 16\nstreams 1\ncredit 4\noutbox 4\nregion 1\nrounds 1\ndirty 0\ninit 0 a5\ninit 2 5a\nguest\nend\n",
    b"job 1\npages 1 16\ndisk 2 16\nstreams 2\ncredit 2\noutbox 2\nregion 2\nrounds 1\ndirty 0\nguest\nwr 0 1 1 bb\nrd 0 1 2 3\nguest\nst 0 16 cc\nend\n",
    b"job 2\npages 1 16\ndisk 2 16\nstreams 2\ncredit 4\noutbox 4\nregion 1\nrounds 2\ndirty 0\ngroup 2\ninit 1 01\nguest\nst 3 4 dd\nld 0 8\nwr 0 0 2 ee\nend\n",
    b"job 1\npages 1 16\ndisk 2 16\nstreams 1\ncredit 2\noutbox 2\nregion 1\nrounds 1\ndirty 0\nfault ackput 1\nguest\nwr 0 0 2 bb\nld 0 4\nend\n",
    b"job 1\npages 1 16\ndisk 2 16\nstreams 1\ncredit 4\noutbox 4\nregion 1\nrounds 1\ndirty 0\ncancel 1\nguest\nwr 0 0 2 bb\nend\n",
];

/// Of how many of 256 calls each fails.
const RATES: &[u32] = &[0, 6, 40, 128, 256];

/// How many numbers a generator begins with, for each job and rate.
const SEEDS: u32 = 12;

/// What a run leaves: the numbers of its report, the bytes that its guests have read, and what their owner holds.
#[derive(Debug, PartialEq, Drop)]
struct Ending {
    totals: Totals,
    reads: Vec<u8>,
    held: Vec<u8>,
}

/// What is seen of a run in which calls fail: whether its answers tell as many calls of devices that failed as the devices
/// count, whether it has ended as its answers make it end, and whether the guests' owner holds what the same guests leave
/// without a migration.
#[derive(Debug, PartialEq, Drop)]
struct Findings {
    tells_faults: bool,
    ends: bool,
    agrees: bool,
}

/// Drops what a migration was of, here alone: what goes with it is then proved once.
fn let_go<T: UnitDevice + Drop>(_parts: Parts<T, T, MemWire>) {}

/// The migration over devices and wires in memory of the job that a text says.
fn begun(alloc: Global, text: &[u8]) -> Result<Machine, Fail>
    ensures { IfOk result (λ machine. machine ≡ begun_in_memory machine.job) }
{
    match read_job(alloc, text) {
        Ok((job, _place)) => Ok(begin(alloc, job)?),
        Err(_) => Err(Fail::new("no job")),
    }
}

/// The same over devices that tell nothing, of each of whose calls so many of 256 fail.
fn begun_silent(alloc: Global, text: &[u8], rate: u32, seed: u32) -> Result<SilentMachine, Fail> {
    let Parts {
        job,
        source,
        dest,
        wires,
        back,
    } = begun(alloc, text)?.into_parts();
    let parts = Parts {
        job,
        source: Silent::new(source, rate, seed),
        dest: Silent::new(dest, rate, !seed),
        wires,
        back,
    };
    match Migration::start(alloc, parts) {
        Ok(machine) => Ok(machine),
        Err(parts) => {
            let_go(parts);
            Err(Fail::from(NoMemory))
        }
    }
}

/// The migration of a job over devices that tell all, run to its end.
fn finished(alloc: Global, text: &[u8]) -> Result<Machine, Fail> {
    let mut machine = begun(alloc, text)?;
    let _ = finish(&mut machine);
    Ok(machine)
}

/// The same over devices that tell nothing, of each of whose calls so many of 256 fail.
fn finished_silent(
    alloc: Global,
    text: &[u8],
    rate: u32,
    seed: u32,
) -> Result<SilentMachine, Fail> {
    let mut machine = begun_silent(alloc, text, rate, seed)?;
    let _ = finish(&mut machine);
    Ok(machine)
}

/// The device that has the guests.
fn owner<T: UnitDevice>(machine: &Migration<T, T, MemWire>) -> &T {
    if machine.phase() == Phase::Switched {
        machine.dest()
    } else {
        machine.source()
    }
}

/// The device in memory behind the one that has the guests.
fn inner_owner(machine: &SilentMachine) -> &MemDevice {
    owner(machine).device()
}

/// The contents of all units of a device, one after another.
fn image(alloc: Global, device: &MemDevice) -> Result<Vec<u8>, Fail> {
    let mut bytes = Vec::new(alloc);
    for unit in 0..device.layout().units() {
        bytes.extend_from_slice(device.content(UnitId(unit)))?;
    }
    Ok(bytes)
}

/// What a run has left, where this device has the guests.
fn ending_of<T: UnitDevice>(
    alloc: Global,
    machine: &Migration<T, T, MemWire>,
    owner: &MemDevice,
) -> Result<Ending, Fail> {
    let mut reads = Vec::new(alloc);
    reads.extend_from_slice(machine.reads())?;
    Ok(Ending {
        totals: machine.totals(),
        reads,
        held: image(alloc, owner)?,
    })
}

/// What the run of a job leaves over devices that tell all.
fn ending_where_told(alloc: Global, text: &[u8]) -> Result<Ending, Fail> {
    let machine = finished(alloc, text)?;
    let ending = ending_of(alloc, &machine, owner(&machine));
    let_go(machine.into_parts());
    ending
}

/// What it leaves over devices that tell nothing, of whose calls none fails.
fn ending_where_silent(alloc: Global, text: &[u8]) -> Result<Ending, Fail> {
    let machine = finished_silent(alloc, text, 0, 0)?;
    let ending = ending_of(alloc, &machine, inner_owner(&machine));
    let_go(machine.into_parts());
    ending
}

/// What is seen of the run of a job over devices that tell nothing, of whose calls so many of 256 fail.
fn run_silent(alloc: Global, text: &[u8], rate: u32, seed: u32) -> Result<Findings, Fail> {
    let first = first_image(alloc, text)?;
    let machine = finished_silent(alloc, text, rate, seed)?;
    let findings = find(alloc, &machine, first);
    let_go(machine.into_parts());
    findings
}

/// What the source of a job holds at first.
fn first_image(alloc: Global, text: &[u8]) -> Result<Vec<u8>, Fail> {
    let machine = begun(alloc, text)?;
    let first = image(alloc, machine.source());
    let_go(machine.into_parts());
    first
}

/// What is seen of a run whose source held this at first.
fn find(alloc: Global, machine: &SilentMachine, first: Vec<u8>) -> Result<Findings, Fail> {
    let mut plain = first;
    act_all(alloc, machine, &mut plain)?;
    Ok(Findings {
        tells_faults: tells_faults(machine),
        ends: ends(machine),
        agrees: image(alloc, inner_owner(machine))? == plain,
    })
}

/// Whether the answers of a run tell as many calls of devices that failed as the devices count.
fn tells_faults(machine: &SilentMachine) -> bool {
    let counted = machine
        .source()
        .faults()
        .saturating_add(machine.dest().faults());
    faults(machine.journal()) == counted
}

/// How many of these entries tell that a call of a device failed.
fn faults(journal: &[Entry]) -> u64 {
    let mut count = 0u64;
    for entry in journal {
        if is_fault(entry.turn) {
            count = count.saturating_add(1);
        }
    }
    count
}

/// Whether an answer tells that a call of a device failed.
fn is_fault(turn: Turn) -> bool {
    matches!(
        turn,
        Turn::Faulted | Turn::Failed(Cause::SourceRead | Cause::DestWrite | Cause::Flush)
    )
}

/// Whether a run has ended, each guest has done all, and it has failed exactly where an answer says so, and else was
/// cancelled exactly where its job asks for that.
fn ends(machine: &SilentMachine) -> bool {
    let phase = if has_failed(machine.journal()) {
        Phase::Failed
    } else if machine.job().config.cancel.is_some() {
        Phase::Cancelled
    } else {
        Phase::Switched
    };
    machine.phase() == phase && machine.finished()
}

/// Whether one of these entries tells that the migration failed.
fn has_failed(journal: &[Entry]) -> bool {
    for entry in journal {
        if matches!(entry.turn, Turn::Failed(_)) {
            return true;
        }
    }
    false
}

/// Does in the bytes of all units what the guests do without a migration: their operations that were done, in the order of
/// the history.
fn act_all(alloc: Global, machine: &SilentMachine, units: &mut [u8]) -> Result<(), Fail> {
    let mut next = Vec::from_elem(alloc, 0, MOST_GUESTS as usize)?;
    let history = machine.history();
    for i in 0..history.len() {
        act(machine.job(), history.entry(i), &mut next, units)?;
    }
    Ok(())
}

/// Does the next operation of a guest, which has ended; it is then counted.
fn act(job: &Job, ended: Ended, next: &mut [u32], units: &mut [u8]) -> Result<(), Fail> {
    let place = usize::from(ended.guest.0);
    if place >= next.len() || place >= job.traces.len() {
        return Err(Fail::new("no such guest"));
    }
    let k = next[place];
    let trace = &job.traces[place];
    if k >= trace.unit_ops() {
        return Err(Fail::new("no such operation"));
    }
    next[place] = k + 1;
    match ended.outcome {
        Outcome::Done => lay(&trace.unit_op(k), units),
        Outcome::Faulted => Ok(()),
    }
}

/// Does one operation on the bytes of all units.
fn lay(op: &UnitOp, units: &mut [u8]) -> Result<(), Fail> {
    let Some(pattern) = op.write else {
        return Ok(());
    };
    let at = op.unit.0 as usize * SIZE + op.offset as usize;
    let end = at + op.len as usize;
    if end > units.len() {
        return Err(Fail::new("outside the units"));
    }
    pattern.fill(&mut units[at..end]);
    Ok(())
}

#[test]
fn ends_the_same_where_nothing_is_told(rt: HostRuntime) -> Result<(), Fail> {
    let alloc = rt.alloc();
    for text in JOBS {
        assert_eq!(rt;
            ending_where_silent(alloc, text)?,
            ending_where_told(alloc, text)?
        );
    }
    Ok(())
}

#[test]
fn ends_whatever_fails(rt: HostRuntime) -> Result<(), Fail> {
    let alloc = rt.alloc();
    let well = Findings {
        tells_faults: true,
        ends: true,
        agrees: true,
    };
    for text in JOBS {
        for rate in RATES {
            for seed in 0..SEEDS {
                assert_eq!(rt;
                    run_silent(alloc, text, *rate, seed)?,
                    well,
                    "at rate {rate} and seed {seed}"
                );
            }
        }
    }
    Ok(())
}
