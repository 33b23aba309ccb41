//! A script played from one thread through the passes, with its answers, the bytes of its reads and the numbers of progress.

ghost use Rattle.std.specs.Prelude.{◌≡◌, []};
ghost use Rattle.xv_model.specs.Job.{guest_count};
ghost use Rattle.xv_job.specs.Written.{job_of};
ghost use Rattle.xv_core.specs.Origin.{HasOrigin};
ghost use Rattle.xv_shared.specs.FirstCrew.{other_count};

use crate::made::{begun, blanks};
use crate::play::{Play, Told};
use std::alloc::Global;
use std::marker::Brand;
use std::sync::Wait;
use std::sync::ledger::Ledger;
use std::test::Fail;
use xv_base::{Event, GuestId, Note, Phase, Totals, Turn, Why};
use xv_parts::Machine;
use xv_shared::{Blanks, Named};

/// A page, a disk of one block, and a guest that writes, reads, writes again and reads again.
const AFTER_THE_SWITCH: &[u8] =
    b"job 1\npages 1 16\ndisk 1 16\nstreams 1\ncredit 2\noutbox 2\nregion 1\nrounds 1\ndirty 0\nguest\nwr 0 0 1 5a\nrd 0 0 0 2\nwr 0 0 1 a5\nrd 0 0 14 2\nend\n";

/// Of a call: the place of its pass, its event, its answer, and what its guest has then read last: how many bytes, and the
/// first two.
type Line = (usize, Event, Turn, (u32, u8, u8));

const NONE: (u32, u8, u8) = (0, 0, 0);

/// The places of the passes are those of the workers: guest, copier, pager, sender, receiver, applier.
const LINES: [Line; 21] = [
    (
        0,
        Event::Guest(GuestId(0)),
        Turn::Done(Note { a: 0, b: 0 }),
        NONE,
    ),
    (1, Event::Begin(0), Turn::Done(Note { a: 1, b: 0 }), NONE),
    (1, Event::Read(0), Turn::Done(Note { a: 1, b: 0 }), NONE),
    (1, Event::Advance(0), Turn::Done(Note { a: 1, b: 0 }), NONE),
    (2, Event::Round, Turn::Done(Note { a: 1, b: 0 }), NONE),
    (2, Event::Page, Turn::Done(Note { a: 0, b: 1 }), NONE),
    (3, Event::Send(0), Turn::Done(Note { a: 1, b: 1 }), NONE),
    (3, Event::Send(0), Turn::Done(Note { a: 0, b: 1 }), NONE),
    (4, Event::Deliver(0), Turn::Done(Note { a: 1, b: 1 }), NONE),
    (4, Event::Deliver(0), Turn::Done(Note { a: 0, b: 1 }), NONE),
    (5, Event::Apply, Turn::Done(Note { a: 1, b: 1 }), NONE),
    (5, Event::Apply, Turn::Done(Note { a: 0, b: 1 }), NONE),
    (5, Event::Ack, Turn::Done(Note { a: 2, b: 0 }), NONE),
    (2, Event::Credit, Turn::Done(Note { a: 2, b: 0 }), NONE),
    (2, Event::Stun, Turn::Done(Note { a: 0, b: 0 }), NONE),
    (0, Event::Guest(GuestId(0)), Turn::Wait(Why::Stunned), NONE),
    (2, Event::Switch, Turn::Done(Note { a: 0, b: 0 }), NONE),
    (
        0,
        Event::Guest(GuestId(0)),
        Turn::Done(Note { a: 2, b: 0 }),
        (2, 0x5a, 0x5a),
    ),
    (
        0,
        Event::Guest(GuestId(0)),
        Turn::Done(Note { a: 0, b: 0 }),
        (2, 0x5a, 0x5a),
    ),
    (
        0,
        Event::Guest(GuestId(0)),
        Turn::Done(Note { a: 2, b: 0 }),
        (2, 0xa5, 0xa5),
    ),
    (
        0,
        Event::Guest(GuestId(0)),
        Turn::Wait(Why::TraceEnd),
        (2, 0xa5, 0xa5),
    ),
];

#[test]
fn a_script_is_answered_through_the_passes(rt: HostRuntime) -> Result<(), Fail> {
    let alloc = rt.alloc();
    let machine = begun(alloc, AFTER_THE_SWITCH)?;
    let blanks = blanks(machine.job());
    let shown = played::<Brand, Brand, Brand, Brand, _>(&rt, alloc, blanks, machine)?;
    assert_eq!(rt; shown, (21, (4, 1, 2, 19), report()));
    Ok(())
}

/// The report of the script.
fn report() -> Totals {
    Totals {
        phase: Phase::Switched,
        history: 4,
        faulted: 0,
        journal: 19,
        stun: Some(1),
        copied: 1,
        rounds: 1,
        messages: 2,
        mirrors: 0,
        applied: 2,
        credit: 2,
    }
}

/// How many lines from the first were answered as told with the progress risen by their entries, the numbers of progress at the
/// end, and the report.
type Shown = (usize, (u64, u64, u64, u64), Totals);

/// Plays the lines, and ends the sharing.
fn played<D: Named, Q: Ledger, F: Ledger, R: Ledger, X: Wait>(
    rt: &X,
    alloc: Global,
    blanks: Blanks,
    machine: Machine,
) -> Result<Shown, Fail>
    requires none { machine.journal ≡ [] }
    requires came { HasOrigin D.origin machine }
    requires done { (blanks.done.name ≡ D.name) × (blanks.done.parts ≡ D.parts) × (D.parts ≡ guest_count (job_of D.origin.job)) }
    requires queued { (blanks.queued.name ≡ Q.name) × (blanks.queued.parts ≡ Q.parts) × (Q.parts ≡ guest_count (job_of D.origin.job)) }
    requires faulted { (blanks.faulted.name ≡ F.name) × (blanks.faulted.parts ≡ F.parts) × (F.parts ≡ guest_count (job_of D.origin.job)) }
    requires other { (blanks.other.name ≡ R.name) × (blanks.other.parts ≡ R.parts) × (R.parts ≡ other_count (job_of D.origin.job)) }
{
    let mut play = Play::<D, Q, F, R>::new(alloc, blanks, machine)?;
    let count = right_lines(rt, &mut play);
    let numbers = play.numbers();
    let numbers = (
        numbers.history,
        numbers.copied,
        numbers.applied,
        numbers.journal,
    );
    Ok((count, numbers, play.close()))
}

/// How many lines from the first were answered as told, each with the journal's number as it then is.
fn right_lines<D: Named, Q: Ledger, F: Ledger, R: Ledger, X: Wait>(
    rt: &X,
    play: &mut Play<D, Q, F, R>,
) -> usize {
    let mut journal: u64 = 0;
    for k in 0..LINES.len() {
        let (place, event, turn, read) = LINES[k];
        let (long, first, second) = read;
        let wanted = Told {
            turn,
            long,
            first,
            second,
        };
        journal = journal.wrapping_add(entered(turn));
        if play.turn(rt, place, event) != Some(wanted) || play.numbers().journal != journal {
            return k;
        }
    }
    LINES.len()
}

/// How many entries an answer makes.
fn entered(turn: Turn) -> u64 {
    match turn {
        Turn::Wait(_) => 0,
        Turn::Done(_) | Turn::Queued | Turn::Faulted | Turn::Failed(_) => 1,
    }
}
