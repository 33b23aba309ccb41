//! What `replay_on` writes over wires that give few bytes a take, or many, and where the output has too little room. A start
//! that is refused is made again from what it handed back.

ghost use Rattle.std.specs.Prelude.{◌≡◌, ◌<◌, ◌≤◌, ℕ, true, [], length, get_or, All, IfOk};
ghost use Rattle.xv_base.specs.Units.{units};
ghost use Rattle.xv_device.specs.Memory.{fresh, told as told_device, no_init};
ghost use Rattle.xv_wire.specs.Memory.{told as told_wire};
ghost use Rattle.xv_job.specs.Written.{job_of};
ghost use Rattle.xv_script.specs.Script.{IsScriptOf};
ghost use Rattle.xv_core.specs.Beginning.{IsDeviceFor, IsWireFor, AreFit, stream_room, back_room};

use std::alloc::Global;
use std::test::Fail;
use xv_base::{Init, NoMemory};
use xv_core::{Migration, Parts};
use xv_device::{DevicePlan, MemDevice};
use xv_io::MemSink;
use xv_job::{Job, read_job};
use xv_script::{Line, read_events};
use xv_top::replay_on;
use xv_wire::{MemWire, WirePlan};

type Machine = Migration<MemDevice, MemDevice, MemWire>;

type Made = Parts<MemDevice, MemDevice, MemWire>;

/// How many bytes a wire of these tests has room for: a credit of eight in messages of sixteen bytes.
const ROOM: u32 = 480;

/// The copy of a page and of two blocks, to the switchover.
const FIRST: &[u8] =
    b"job 1\npages 1 16\ndisk 2 16\nstreams 1\ncredit 4\noutbox 4\nregion 1\nrounds 1\ndirty 0\nguest\nend\nbegin 0\nread 0\nadvance 0\nbegin 0\nread 0\nadvance 0\nround\npage\nsend 0\nsend 0\nsend 0\ndeliver 0\ndeliver 0\ndeliver 0\napply\napply\napply\nack\ncredit\nstun\nswitch\nstop\n";

const FIRST_OUT: &[u8] =
    b"begin 0 done 1\nread 0 done 1\nadvance 0 done 1\nbegin 0 done 1\nread 0 done 2\nadvance 0 done 1\nround done 1\npage done 0 1\nsend 0 done 1 1\nsend 0 done 2 1\nsend 0 done 0 1\ndeliver 0 done 1 1\ndeliver 0 done 2 1\ndeliver 0 done 0 1\napply done 1 1\napply done 2 1\napply done 0 1\nack done 3\ncredit done 3\nstun done 0\nswitch done\n";

/// Messages that arrive over three streams in reverse order.
const REVERSE: &[u8] =
    b"job 1\npages 1 16\ndisk 4 16\nstreams 3\ncredit 8\noutbox 8\nregion 1\nrounds 2\ndirty 0\nguest\nwr 0 0 1 bb\nwr 0 0 1 dd\nend\nbegin 0\nread 0\nadvance 0\nguest 0\nguest 0\nsend 0\nsend 1\nsend 2\ndeliver 2\ndeliver 1\napply\ndeliver 0\napply\napply\napply\nack\ncredit\nstop\n";

const REVERSE_OUT: &[u8] =
    b"begin 0 done 1\nread 0 done 1\nadvance 0 done 1\nguest 0 done\nguest 0 done\nsend 0 done 1 1\nsend 1 done 1 2\nsend 2 done 1 3\ndeliver 2 done 1 3\ndeliver 1 done 1 2\napply wait nothing-there\ndeliver 0 done 1 1\napply done 1 1\napply done 1 2\napply done 1 3\nack done 3\ncredit done 3\n";

/// Groups of two messages.
const GROUPS: &[u8] =
    b"job 2\npages 1 16\ndisk 2 16\nstreams 1\ncredit 4\noutbox 4\nregion 1\nrounds 1\ndirty 0\ngroup 2\nguest\nend\nbegin 0\nread 0\nadvance 0\nbegin 0\nread 0\nadvance 0\nround\npage\nsend 0\nsend 0\ndeliver 0\ndeliver 0\napply\napply\napply\nack\ncredit\nstun\nswitch\nstop\n";

const GROUPS_OUT: &[u8] =
    b"begin 0 done 1\nread 0 done 1\nadvance 0 done 1\nbegin 0 done 1\nread 0 done 2\nadvance 0 done 1\nround done 1\npage done 0 1\nsend 0 done 2 1\nsend 0 done 1 0\ndeliver 0 done 2 1\ndeliver 0 done 1 0\napply done 1 1\napply done 2 1\napply done 0 1\nack done 3\ncredit done 3\nstun done 0\nswitch done\n";

/// A script, the greatest piece that a take gives, and the room of the output.
struct Case {
    input: &'static [u8],
    piece: u32,
    room: u32,
    /// Whether all was written.
    whole: bool,
    output: &'static [u8],
}

const CASES: &[Case] = &[
    Case {
        input: FIRST,
        piece: 700,
        room: 500,
        whole: true,
        output: FIRST_OUT,
    },
    Case {
        input: REVERSE,
        piece: 1,
        room: 500,
        whole: true,
        output: REVERSE_OUT,
    },
    Case {
        input: REVERSE,
        piece: 23,
        room: 500,
        whole: true,
        output: REVERSE_OUT,
    },
    Case {
        input: REVERSE,
        piece: 24,
        room: 500,
        whole: true,
        output: REVERSE_OUT,
    },
    Case {
        input: REVERSE,
        piece: 25,
        room: 500,
        whole: true,
        output: REVERSE_OUT,
    },
    Case {
        input: REVERSE,
        piece: 700,
        room: 500,
        whole: true,
        output: REVERSE_OUT,
    },
    Case {
        input: GROUPS,
        piece: 1,
        room: 500,
        whole: true,
        output: GROUPS_OUT,
    },
    Case {
        input: GROUPS,
        piece: 700,
        room: 500,
        whole: true,
        output: GROUPS_OUT,
    },
    Case {
        input: GROUPS,
        piece: 24,
        room: 20,
        whole: false,
        output: b"begin 0 done 1\nread ",
    },
];

/// A device over the job's units, which begin so, and of which no call fails.
fn device(alloc: Global, job: &Job, init: &[Init]) -> Result<MemDevice, NoMemory>
    requires { (i : ℕ) → i < length init.now → (get_or init.now i no_init).unit.0 < units job.now.shape }
    ensures fresh { IfOk result (λ device. device ≡ fresh job.now.shape init.now (record { reads = []; writes = []; flushes = [] })) }
    ensures fits { IfOk result (λ device. IsDeviceFor (job_of job.now) (told_device device)) }
{
    let plan = DevicePlan {
        reads: Vec::new(alloc),
        writes: Vec::new(alloc),
        flushes: Vec::new(alloc),
    };
    let device = MemDevice::new(alloc, &job.layout, init, plan)?;
    let _ = device.layout();
    Ok(device)
}

/// Whether a wire of these tests has room for a job's messages and acknowledgements.
fn has_room(job: &Job) -> bool
    ensures { result ≡ true → (stream_room (job_of job.now) ≤ 480) × (back_room (job_of job.now) ≤ 480) }
{
    job.config.credit <= 8 && job.layout.max_size() <= 16
}

/// A wire of which no call fails, and a take gives at most `piece` bytes.
fn wire(alloc: Global, job: &Job, piece: u32) -> Result<MemWire, NoMemory>
    requires piece { 1 ≤ piece }
    requires stream { stream_room (job_of job.now) ≤ 480 }
    requires back { back_room (job_of job.now) ≤ 480 }
    ensures stream { IfOk result (λ wire. IsWireFor (stream_room (job_of job.now)) (told_wire wire)) }
    ensures back { IfOk result (λ wire. IsWireFor (back_room (job_of job.now)) (told_wire wire)) }
{
    let plan = WirePlan {
        puts: Vec::new(alloc),
        takes: Vec::new(alloc),
    };
    let _ = job;
    MemWire::new(alloc, ROOM, piece, plan)
}

/// A wire for each stream of the job.
fn wires(alloc: Global, job: &Job, piece: u32) -> Result<Vec<MemWire>, NoMemory>
    requires piece { 1 ≤ piece }
    requires stream { stream_room (job_of job.now) ≤ 480 }
    requires back { back_room (job_of job.now) ≤ 480 }
    ensures each_stream { IfOk result (λ wires. length wires.items ≡ job.now.config.streams) }
    ensures each { IfOk result (λ wires. All (λ w. IsWireFor (stream_room (job_of job.now)) (told_wire w)) wires.items) }
{
    let mut wires = Vec::new(alloc);
    for _stream in 0..job.config.streams {
        let Ok(()) = wires.push(wire(alloc, job, piece)?) else {
            return Err(NoMemory);
        };
    }
    Ok(wires)
}

/// What a migration of a job is made of: devices and wires in memory, of which no call fails.
fn made(alloc: Global, job: Job, piece: u32) -> Result<Made, NoMemory>
    requires piece { 1 ≤ piece }
    requires stream { stream_room (job_of job) ≤ 480 }
    requires back { back_room (job_of job) ≤ 480 }
    ensures job { IfOk result (λ made. made.job ≡ job) }
    ensures fit { IfOk result (λ made. AreFit told_wire made) }
{
    let _ = job.operations();
    let wires = wires(alloc, &job, piece)?;
    let back = wire(alloc, &job, piece)?;
    let source = device(alloc, &job, &job.init)?;
    let dest = device(alloc, &job, &[])?;
    Ok(Parts {
        job,
        source,
        dest,
        wires,
        back,
    })
}

/// Starts a migration, and where there is no memory for it, once more from what is handed back.
fn started(alloc: Global, made: Made) -> Result<Machine, Made>
    requires { AreFit told_wire made }
    ensures { IfOk result (λ machine. machine.job ≡ made.job) }
{
    match Migration::start(alloc, made) {
        Ok(machine) => Ok(machine),
        Err(again) => Migration::start(alloc, again),
    }
}

/// Whether all lines of a script were written.
fn replayed(
    alloc: Global,
    job: Job,
    lines: &[Line],
    piece: u32,
    sink: &mut MemSink,
) -> Result<bool, Fail>
    requires piece { 1 ≤ piece }
    requires script { IsScriptOf (job_of job) lines.now }
{
    if !has_room(&job) {
        return Err(Fail::new("more than the wires have room for"));
    }
    let made = made(alloc, job, piece)?;
    match started(alloc, made) {
        Ok(mut machine) => {
            let whole = replay_on(&mut machine, lines, sink).is_ok();
            drop(machine);
            Ok(whole)
        }
        Err(made) => {
            drop(made);
            Err(Fail::new("no memory twice"))
        }
    }
}

/// The lines of a script.
#[tactic(auto, using(crate::proofs::Few::few))]
fn lines_behind(alloc: Global, job: &Job, script: &[u8]) -> Result<Vec<Line>, Fail>
    ensures { IfOk result (λ lines. IsScriptOf (job_of job.now) lines.items) }
{
    if script.len() > 4096 {
        return Err(Fail::new("a script that is too long"));
    }
    match read_events(alloc, job, script, 1) {
        Ok(lines) => Ok(lines),
        Err(_) => Err(Fail::new("no script")),
    }
}

/// Whether all of a script's transcript was written, and what was.
fn outcome(alloc: Global, case: &Case) -> Result<(bool, Vec<u8>), Fail> {
    let Ok((job, place)) = read_job(alloc, case.input) else {
        return Err(Fail::new("no job"));
    };
    let lines = lines_behind(alloc, &job, &case.input[place.byte..])?;
    let mut sink = MemSink::new(alloc, case.room, 64, &[])?;
    let whole = replayed(alloc, job, &lines, case.piece.max(1), &mut sink)?;
    Ok((whole, sink.bytes().to_vec(alloc)?))
}

#[test]
fn replays_over_every_piece(rt: HostRuntime) -> Result<(), Fail> {
    for case in CASES {
        let (whole, output) = outcome(rt.alloc(), case)?;
        assert_eq!(rt; whole, case.whole);
        assert_eq!(rt; output.as_slice(), case.output);
    }
    Ok(())
}
