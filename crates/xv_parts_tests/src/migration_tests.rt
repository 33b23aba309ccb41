//! What a migration over memory answers, and what it then tells of itself, in three runs.

ghost use Rattle.std.specs.Prelude.{◌≡◌, ◌<◌, true};
ghost use Rattle.xv_model.specs.Job.{unit_count};
ghost use Rattle.xv_job.specs.Written.{job_of};

use crate::fault_tests::{is_fit, job_said, step};
use std::alloc::Global;
use std::process::Abort;
use std::test::Fail;
use xv_base::{Event, GuestId, NoMemory, Note, Phase, Probe, Side, Totals, Turn, UnitId, Why};
use xv_core::Migration;
use xv_device::UnitDevice;
use xv_job::Job;
use xv_parts::{Machine, begin};
use xv_wire::Wire;

/// An event that happens, and the two numbers that it answers.
type Line = (Event, u32, u32);

/// A page and a disk of two blocks, and a guest that does nothing.
const SMALLEST: &[u8] =
    b"job 1\npages 1 16\ndisk 2 16\nstreams 1\ncredit 4\noutbox 4\nregion 1\nrounds 1\ndirty 0\nguest\nend\n";

/// A guest that writes a block and reads from it.
const BEHIND: &[u8] =
    b"job 1\npages 1 16\ndisk 4 16\nstreams 1\ncredit 8\noutbox 8\nregion 1\nrounds 1\ndirty 0\nguest\nwr 0 0 1 bb\nrd 0 0 2 3\nend\n";

/// The copy of the first block, and the guest's write behind it.
const WRITE: &[Line] = &[
    (Event::Begin(0), 1, 0),
    (Event::Read(0), 1, 0),
    (Event::Advance(0), 1, 0),
    (Event::Guest(GuestId(0)), 0, 0),
];

/// The same; then both versions are sent, the first arrives and is written, and the guest reads from the block.
const READ: &[Line] = &[
    (Event::Begin(0), 1, 0),
    (Event::Read(0), 1, 0),
    (Event::Advance(0), 1, 0),
    (Event::Guest(GuestId(0)), 0, 0),
    (Event::Send(0), 1, 1),
    (Event::Send(0), 1, 2),
    (Event::Deliver(0), 1, 1),
    (Event::Apply, 1, 1),
    (Event::Guest(GuestId(0)), 3, 0),
];

/// All that happens where the guest does nothing.
const FIRST_PATH: &[Line] = &[
    (Event::Begin(0), 1, 0),
    (Event::Read(0), 1, 0),
    (Event::Advance(0), 1, 0),
    (Event::Begin(0), 1, 0),
    (Event::Read(0), 2, 0),
    (Event::Advance(0), 1, 0),
    (Event::Round, 1, 0),
    (Event::Page, 0, 1),
    (Event::Send(0), 1, 1),
    (Event::Send(0), 2, 1),
    (Event::Send(0), 0, 1),
    (Event::Deliver(0), 1, 1),
    (Event::Deliver(0), 2, 1),
    (Event::Deliver(0), 0, 1),
    (Event::Apply, 1, 1),
    (Event::Apply, 2, 1),
    (Event::Apply, 0, 1),
    (Event::Ack, 3, 0),
    (Event::Credit, 3, 0),
    (Event::Stun, 0, 0),
    (Event::Switch, 0, 0),
];

/// The report of a guest that has written behind the copy.
const WRITE_REPORT: Totals = Totals {
    phase: Phase::Running,
    history: 1,
    faulted: 0,
    journal: 4,
    stun: None,
    copied: 1,
    rounds: 0,
    messages: 2,
    mirrors: 1,
    applied: 0,
    credit: 8,
};

/// The report of one that has also read.
const READ_REPORT: Totals = Totals {
    phase: Phase::Running,
    history: 2,
    faulted: 0,
    journal: 9,
    stun: None,
    copied: 1,
    rounds: 0,
    messages: 2,
    mirrors: 1,
    applied: 1,
    credit: 6,
};

/// The report of a migration of a guest that does nothing.
const FIRST_PATH_REPORT: Totals = Totals {
    phase: Phase::Switched,
    history: 0,
    faulted: 0,
    journal: 21,
    stun: Some(0),
    copied: 2,
    rounds: 1,
    messages: 3,
    mirrors: 0,
    applied: 3,
    credit: 4,
};

/// A run, and what is told after it.
struct Run {
    job: &'static [u8],
    lines: &'static [Line],
    totals: Totals,
    /// The first block's versions that were made and were written, and its messages in the outbox and on the wires.
    block: (u32, u32, u32, u32),
    /// How many operations came before what the destination holds of it.
    recorded: Option<u32>,
    /// How often either device wrote it.
    written: (u64, u64),
    read: &'static [u8],
    finished: bool,
    /// An event, whether it would happen, and its answer; none where it does not fit the job.
    next: Event,
    can: Option<bool>,
    answer: Option<Turn>,
}

const RUNS: &[Run] = &[
    Run {
        job: BEHIND,
        lines: WRITE,
        totals: WRITE_REPORT,
        block: (2, 0, 2, 0),
        recorded: None,
        written: (1, 0),
        read: &[],
        finished: false,
        next: Event::Round,
        can: Some(false),
        answer: Some(Turn::Wait(Why::NotNow)),
    },
    Run {
        job: BEHIND,
        lines: READ,
        totals: READ_REPORT,
        block: (2, 1, 0, 1),
        recorded: Some(0),
        written: (1, 1),
        read: &[0xbb; 3],
        finished: false,
        next: Event::Begin(0),
        can: Some(true),
        answer: Some(Turn::Done(Note { a: 1, b: 0 })),
    },
    Run {
        job: SMALLEST,
        lines: FIRST_PATH,
        totals: FIRST_PATH_REPORT,
        block: (1, 1, 0, 0),
        recorded: Some(0),
        written: (0, 1),
        read: &[],
        finished: true,
        next: Event::Begin(1),
        can: None,
        answer: None,
    },
];

/// Whether these events happen one after another, and answer so.
fn go_on(machine: &mut Machine, lines: &[Line]) -> bool {
    for (event, a, b) in lines {
        if step(machine, *event) != Some(Turn::Done(Note { a: *a, b: *b })) {
            return false;
        }
    }
    true
}

/// Whether an event would happen; none where it does not fit the job.
fn can(machine: &Machine, event: Event) -> Option<bool> {
    if is_fit(machine, event) {
        Some(machine.can(event))
    } else {
        None
    }
}

fn is_unit(machine: &Machine, unit: UnitId) -> bool
    ensures { result ≡ true → unit.0 < unit_count (job_of machine.now.job) }
{
    unit.0 < machine.job().layout.units()
}

/// What is told of a unit, and how many operations came before what the destination holds of it; none where it is not a unit
/// of the job.
fn told(machine: &Machine, unit: UnitId) -> Option<(Probe, Option<u32>)> {
    if is_unit(machine, unit) {
        Some((machine.probe(unit), machine.recorded(unit)))
    } else {
        None
    }
}

/// How often the source and the destination wrote a unit; none where it is not a unit of the job.
fn written(machine: &Machine, unit: UnitId) -> Option<(u64, u64)> {
    let _ = machine.journal();
    if is_unit(machine, unit) {
        Some((machine.source().written(unit), machine.dest().written(unit)))
    } else {
        None
    }
}

/// The first block behind the copy, with these numbers and nothing held.
fn behind((issued, applied, outbox, wires): (u32, u32, u32, u32)) -> Probe {
    Probe {
        unit: UnitId(1),
        side: Side::Behind,
        issued,
        applied,
        outbox,
        wires,
        held: 0,
    }
}

fn journal_length(machine: &Machine) -> usize {
    machine.journal().len()
}

fn has_read(machine: &Machine, bytes: &[u8]) -> bool {
    machine.reads() == bytes
}

/// Its phase, whether no event can act any more, and whether no guest waits.
fn ends(machine: &Machine) -> (Phase, bool, bool) {
    (machine.phase(), machine.finished(), machine.queues_empty())
}

/// Compares what a migration tells.
fn compares(rt: &impl Abort, machine: &Machine, run: &Run) {
    let want = run.totals;
    assert_eq!(rt; machine.totals(), want);
    assert_eq!(rt; ends(machine), (want.phase, run.finished, true));
    assert_eq!(rt; machine.history().len(), want.history);
    assert_eq!(rt; journal_length(machine), want.journal as usize);
    assert_eq!(rt;
        told(machine, UnitId(1)),
        Some((behind(run.block), run.recorded))
    );
    assert_eq!(rt; written(machine, UnitId(1)), Some(run.written));
    assert!(rt; has_read(machine, run.read));
    assert_eq!(rt; can(machine, run.next), run.can);
}

/// What a thread may be given.
fn sent<V: Send>(value: V) -> V {
    value
}

/// A thread may be given a migration wherever it may be given its devices and wires.
fn sent_whole<S: UnitDevice + Send, T: UnitDevice + Send, W: Wire + Send>(
    machine: Migration<S, T, W>,
) -> Migration<S, T, W> {
    sent(machine)
}

/// The credit of its job, and the number of its wires, as it hands them out.
fn handed_out(machine: Machine) -> (u32, usize) {
    let parts = sent_whole(machine).into_parts();
    let told = (parts.job.config.credit, parts.wires.len());
    drop(parts);
    told
}

/// Plays a run on a migration of its job, and compares what it tells.
fn plays(rt: &impl Abort, alloc: Global, job: Job, run: &Run) -> Result<(), NoMemory> {
    let want = (job.config.credit, usize::from(job.config.streams));
    let mut machine = begin(alloc, job)?;
    assert!(rt; go_on(&mut machine, run.lines));
    compares(rt, &machine, run);
    assert_eq!(rt; step(&mut machine, run.next), run.answer);
    assert_eq!(rt; handed_out(machine), want);
    Ok(())
}

#[test]
fn tells_what_happened(rt: HostRuntime) -> Result<(), Fail> {
    for run in RUNS {
        let job = job_said(rt.alloc(), run.job).ok_or("no job")?;
        plays(&rt, rt.alloc(), job, run)?;
    }
    Ok(())
}
