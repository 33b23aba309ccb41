//! That exactly the calls that a job's faults name fail.

ghost use Rattle.std.specs.Prelude.{◌≡◌};
ghost use Rattle.xv_model.specs.Wait.{fits};
ghost use Rattle.xv_job.specs.Written.{job_of};

use std::alloc::{AllocError, Global};
use std::test::Fail;
use xv_base::{Cause, Event, GuestId, NoMemory, Note, Turn};
use xv_core::fits;
use xv_job::{Job, read_job};
use xv_parts::{Machine, begin};

/// A job but for its faults: a page, a disk of two blocks, two streams, and a guest that writes the second block.
const FRONT: &[u8] =
    b"job 1\npages 1 16\ndisk 2 16\nstreams 2\ncredit 4\noutbox 4\nregion 1\nrounds 1\ndirty 0\n";

const REST: &[u8] = b"guest\nwr 0 1 1 bb\nend\n";

/// A fault, events that happen in spite of it, and what the next event answers.
struct Case {
    fault: &'static [u8],
    before: &'static [Event],
    event: Event,
    answer: Turn,
}

const CASES: &[Case] = &[
    Case {
        fault: b"fault swrite 1\n",
        before: &[],
        event: Event::Guest(GuestId(0)),
        answer: Turn::Faulted,
    },
    Case {
        fault: b"fault sread 2\n",
        before: &[
            Event::Begin(0),
            Event::Read(0),
            Event::Advance(0),
            Event::Begin(0),
        ],
        event: Event::Read(0),
        answer: Turn::Failed(Cause::SourceRead),
    },
    Case {
        fault: b"fault put 1 1\n",
        before: &[Event::Begin(0), Event::Read(0), Event::Advance(0)],
        event: Event::Send(1),
        answer: Turn::Failed(Cause::Put(1)),
    },
    Case {
        fault: b"fault put 0 1\n",
        before: &[Event::Begin(0), Event::Read(0), Event::Advance(0)],
        event: Event::Send(1),
        answer: Turn::Done(Note { a: 1, b: 1 }),
    },
    Case {
        fault: b"fault take 1 1\n",
        before: &[
            Event::Begin(0),
            Event::Read(0),
            Event::Advance(0),
            Event::Send(1),
        ],
        event: Event::Deliver(1),
        answer: Turn::Failed(Cause::Take(1)),
    },
    Case {
        fault: b"fault dwrite 1\n",
        before: &[
            Event::Begin(0),
            Event::Read(0),
            Event::Advance(0),
            Event::Send(1),
            Event::Deliver(1),
        ],
        event: Event::Apply,
        answer: Turn::Failed(Cause::DestWrite),
    },
    Case {
        fault: b"fault ackput 1\n",
        before: &[
            Event::Begin(0),
            Event::Read(0),
            Event::Advance(0),
            Event::Send(1),
            Event::Deliver(1),
            Event::Apply,
        ],
        event: Event::Ack,
        answer: Turn::Failed(Cause::AckPut),
    },
    Case {
        fault: b"fault acktake 1\n",
        before: &[
            Event::Begin(0),
            Event::Read(0),
            Event::Advance(0),
            Event::Send(1),
            Event::Deliver(1),
            Event::Apply,
            Event::Ack,
        ],
        event: Event::Credit,
        answer: Turn::Failed(Cause::AckTake),
    },
];

/// The text of the job with this fault.
fn text_with(alloc: Global, fault: &[u8]) -> Result<Vec<u8>, AllocError> {
    let mut text = Vec::new(alloc);
    text.extend_from_slice(FRONT)?;
    text.extend_from_slice(fault)?;
    text.extend_from_slice(REST)?;
    Ok(text)
}

/// The job that a text says.
pub(crate) fn job_said(alloc: Global, text: &[u8]) -> Option<Job> {
    match read_job(alloc, text) {
        Ok((job, _place)) => Some(job),
        Err(_) => None,
    }
}

/// Whether an event fits a migration's job.
pub(crate) fn is_fit(machine: &Machine, event: Event) -> bool
    ensures { result ≡ fits (job_of machine.now.job) event }
{
    fits(machine.job(), event)
}

/// The answer of an event; none where it does not fit the job.
pub(crate) fn step(machine: &mut Machine, event: Event) -> Option<Turn> {
    if is_fit(machine, event) {
        Some(machine.step(event))
    } else {
        None
    }
}

fn is_done(answer: Option<Turn>) -> bool {
    matches!(answer, Some(Turn::Done(_)))
}

/// Whether these events happen one after another.
fn happen(machine: &mut Machine, events: &[Event]) -> bool {
    for event in events {
        if !is_done(step(machine, *event)) {
            return false;
        }
    }
    true
}

/// What the last event of a case answers; none where one before it does not happen.
fn last_answer(machine: &mut Machine, case: &Case) -> Option<Turn> {
    if happen(machine, case.before) {
        step(machine, case.event)
    } else {
        None
    }
}

/// What the last event of a case answers on a migration of a job.
fn answer(alloc: Global, job: Job, case: &Case) -> Result<Option<Turn>, NoMemory> {
    let mut machine = begin(alloc, job)?;
    let answer = last_answer(&mut machine, case);
    drop(machine);
    Ok(answer)
}

#[test]
fn fails_at_the_planned_calls(rt: HostRuntime) -> Result<(), Fail> {
    for case in CASES {
        let text = text_with(rt.alloc(), case.fault)?;
        let job = job_said(rt.alloc(), &text).ok_or("no job")?;
        assert_eq!(rt; answer(rt.alloc(), job, case)?, Some(case.answer));
    }
    Ok(())
}
