//! How answers read, and why scripts are refused.

use std::alloc::Global;
use std::test::Fail;
use xv_base::{
    Cause, Event, GuestId, LineFault, LineWhy, Note, Probe, Side, TextError, Turn, UnitId, Why,
};
use xv_job::{Job, read_job};
use xv_script::{Line, print_probe, print_turn, read_events};

const GUEST: Event = Event::Guest(GuestId(0));

/// Events and their answers, and the lines that these make where the bytes read are 0a and ff.
const ANSWERS: &[(Event, Turn, &str)] = &[
    (GUEST, Turn::Done(Note { a: 0, b: 0 }), "guest 0 done\n"),
    (
        GUEST,
        Turn::Done(Note { a: 2, b: 0 }),
        "guest 0 read 0aff\n",
    ),
    (
        Event::Send(2),
        Turn::Done(Note { a: 1, b: 20 }),
        "send 2 done 1 20\n",
    ),
    (
        Event::Stun,
        Turn::Wait(Why::CancelDue),
        "stun wait cancel-due\n",
    ),
    (
        Event::Apply,
        Turn::Failed(Cause::Put(7)),
        "apply failed put 7\n",
    ),
    (
        Event::Switch,
        Turn::Done(Note { a: 0, b: 0 }),
        "switch done\n",
    ),
];

/// Texts whose first line has number 10, with the line that is refused and the reason.
const REFUSED: &[(&[u8], u32, LineWhy)] = &[
    (b"stop\nx", 11, LineWhy::Order),
    (b"stop\n\n", 11, LineWhy::Order),
    (b"", 10, LineWhy::Unended),
    (b"stop", 10, LineWhy::Unended),
    (b"round\n", 11, LineWhy::Unended),
    (b"round\nguest 9", 11, LineWhy::Unended),
    (b"\n", 10, LineWhy::BadWord),
    (b"rounds\n", 10, LineWhy::BadWord),
    (b"Stop\n", 10, LineWhy::BadWord),
    (b" round\n", 10, LineWhy::BadWord),
    (b"round \n", 10, LineWhy::BadWord),
    (b"page 0\n", 10, LineWhy::BadWord),
    (b"guest\n", 10, LineWhy::BadWord),
    (b"guest 0 x\n", 10, LineWhy::BadWord),
    (b"guest  0\n", 10, LineWhy::BadWord),
    (b"probe 0 1\n", 10, LineWhy::BadWord),
    (b"cancel 0\n", 10, LineWhy::BadWord),
    (b"guest 00\n", 10, LineWhy::BadNumber),
    (b"guest 4294967296\n", 10, LineWhy::BadNumber),
    (b"guest 4294967295\n", 10, LineWhy::OutOfRange),
    (b"guest 1\nguest 2\n", 11, LineWhy::OutOfRange),
    (b"begin 1\n", 10, LineWhy::OutOfRange),
    (b"send 2\nsend 3\n", 11, LineWhy::OutOfRange),
    (b"deliver 256\n", 10, LineWhy::OutOfRange),
    (b"probe 5\n", 10, LineWhy::OutOfRange),
    (b"release 1\n", 10, LineWhy::OutOfRange),
    (b"begin 0\nguest 2\n", 11, LineWhy::OutOfRange),
    (b"guest 1\nbegin 0\nx\n", 12, LineWhy::BadWord),
];

/// A job of two guests, one disk, three streams and five units.
const JOB: &[u8] =
    b"job 2\npages 1 16\ndisk 4 16\nstreams 3\ncredit 4\noutbox 4\nregion 1\nrounds 1\ndirty 0\ngroup 2\ncancel 0\nguest\nguest\nend\n";

/// A script with every line, and what it says.
const SCRIPT: &[u8] =
    b"guest 1\nbegin 0\nread 0\nguest 0\nadvance 0\nrelease 0\nround\npage\nsend 2\ndeliver 2\nprobe 4\napply\nack\ncredit\nstun\nswitch\ncancel\nstop\n";

const LINES: &[Line] = &[
    Line::Step(Event::Guest(GuestId(1))),
    Line::Step(Event::Begin(0)),
    Line::Step(Event::Read(0)),
    Line::Step(Event::Guest(GuestId(0))),
    Line::Step(Event::Advance(0)),
    Line::Step(Event::Release(0)),
    Line::Step(Event::Round),
    Line::Step(Event::Page),
    Line::Step(Event::Send(2)),
    Line::Step(Event::Deliver(2)),
    Line::Ask(UnitId(4)),
    Line::Step(Event::Apply),
    Line::Step(Event::Ack),
    Line::Step(Event::Credit),
    Line::Step(Event::Stun),
    Line::Step(Event::Switch),
    Line::Step(Event::Cancel),
];

#[test]
fn prints_answers(rt: HostRuntime) {
    for &(event, turn, want) in ANSWERS {
        let line = print_turn(event, turn, &[10, 255]);
        assert_eq!(rt; line.bytes(), want.as_bytes());
    }
}

#[test]
fn prints_a_unit(rt: HostRuntime) {
    let probe = Probe {
        unit: UnitId(4),
        side: Side::Behind,
        issued: 3,
        applied: 0,
        outbox: 2,
        wires: 1,
        held: 0,
    };
    let line = print_probe(probe);
    assert_eq!(rt; line.bytes(), b"probe 4 behind 3 0 2 1 0\n".as_slice());
}

/// What a text of less than 100 bytes is refused for, as a script of a job whose first line has number 10.
#[tactic(auto, using(crate::proofs::Few::few))]
fn refusal(alloc: Global, job: &Job, text: &[u8]) -> Option<TextError> {
    if text.len() < 100 {
        read_events(alloc, job, text, 10).err()
    } else {
        None
    }
}

#[test]
fn refuses_texts(rt: HostRuntime) -> Result<(), Fail> {
    let (job, _place) = read_job(rt.alloc(), JOB).expect(&rt, "a job");
    for &(text, line, why) in REFUSED {
        let want = Some(TextError::Fault(LineFault { line, why }));
        assert_eq!(rt; refusal(rt.alloc(), &job, text), want, "at line {line}");
    }
    drop(job);
    Ok(())
}

#[test]
#[tactic(auto, using(crate::proofs::Few::few))]
fn reads_every_line(rt: HostRuntime) -> Result<(), Fail> {
    let (job, place) = read_job(rt.alloc(), JOB).expect(&rt, "a job");
    assert!(rt; place.line < 100);
    assert!(rt; SCRIPT.len() < 200);
    let lines = read_events(rt.alloc(), &job, SCRIPT, place.line).expect(&rt, "a script");
    drop(job);
    assert_eq!(rt; lines.as_slice(), LINES);
    Ok(())
}
