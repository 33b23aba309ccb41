//! Planned calls of devices and wires fail in runs by threads, each call by itself: whatever the order, exactly the planned
//! call fails, the status is as the printed journal says, and the guests' owner holds what the same guests leave without a
//! migration.

use crate::printed::parts;
use crate::running::{status_of, words_of};
use std::alloc::Global;
use std::sync::Wait;
use std::test::Fail;
use std::thread::Threads;
use xv_fault_tests::{agrees, calls_of, ends, fails_as_planned, faults};
use xv_io::{MemSink, MemSource};
use xv_parts::Machine;
use xv_shared::FreeGate;
use xv_top::Left;

/// A kind of call as a job names it, and how many of them a run without faults makes at least and at most.
type Kind = (&'static str, u32, u32);

/// A job without faults, cut where the line of a fault may stand.
struct Case {
    head: &'static str,
    tail: &'static str,
    /// The status where no migration fails.
    status: u8,
    kinds: &'static [Kind],
}

/// A page is sent once, over one stream, and acknowledged by itself.
const PAGE: &[Kind] = &[
    ("sread", 1, 1),
    ("swrite", 0, 0),
    ("dread", 0, 0),
    ("dwrite", 1, 1),
    ("flush", 1, 1),
    ("ackput", 1, 1),
    ("acktake", 1, 1),
    ("put 0", 1, 1),
    ("take 0", 1, 1),
];

/// Four blocks and a page are read, and the page again if its store comes late; the load reads at either side. Each of the
/// three writes is written to the destination at most once more, as a message or after the switchover. Each message may go
/// over any stream, and be acknowledged by itself or with all others.
const TWO_GUESTS: &[Kind] = &[
    ("sread", 5, 7),
    ("swrite", 0, 3),
    ("dread", 0, 1),
    ("dwrite", 5, 8),
    ("flush", 1, 1),
    ("ackput", 1, 8),
    ("acktake", 1, 8),
    ("put 0", 0, 8),
    ("take 0", 0, 8),
    ("put 1", 0, 8),
    ("take 1", 0, 8),
];

/// The same, where the migration may be cancelled before it has done anything.
const CANCELLED: &[Kind] = &[
    ("sread", 1, 7),
    ("swrite", 3, 3),
    ("dread", 0, 0),
    ("dwrite", 0, 8),
    ("flush", 0, 0),
    ("ackput", 0, 8),
    ("acktake", 0, 8),
    ("put 0", 0, 8),
    ("take 0", 0, 8),
    ("put 1", 0, 8),
    ("take 1", 0, 8),
];

const ONE_PAGE: Case = Case {
    head: "job 1\npages 1 16\nstreams 1\ncredit 2\noutbox 2\nregion 1\nrounds 1\ndirty 0\n",
    tail: "init 0 a5\nguest\nend\n",
    status: 0,
    kinds: PAGE,
};

const IN_SINGLES: Case = Case {
    head: "job 1\npages 1 16\ndisk 4 16\nstreams 2\ncredit 8\noutbox 8\nregion 2\nrounds 2\ndirty 0\n",
    tail: "guest\nwr 0 0 1 11\nld 0 4\nguest\nwr 0 0 1 22\nst 0 4 33\nend\n",
    status: 0,
    kinds: TWO_GUESTS,
};

const IN_GROUPS: Case = Case {
    head: "job 2\npages 1 16\ndisk 4 16\nstreams 2\ncredit 8\noutbox 8\nregion 2\nrounds 2\ndirty 0\ngroup 2\n",
    tail: "guest\nwr 0 0 1 11\nld 0 4\nguest\nwr 0 0 1 22\nst 0 4 33\nend\n",
    status: 0,
    kinds: TWO_GUESTS,
};

const WITH_CANCEL: Case = Case {
    head: "job 1\npages 1 16\ndisk 4 16\nstreams 2\ncredit 8\noutbox 8\nregion 2\nrounds 2\ndirty 0\ncancel 3\n",
    tail: "guest\nwr 0 0 1 11\nld 0 4\nguest\nwr 0 0 1 22\nst 0 4 33\nend\n",
    status: 7,
    kinds: CANCELLED,
};

/// How often each job is run, since the threads may take turns otherwise each time.
const RUNS: u32 = 4;

/// Room for all that is printed of any job here.
const ROOM: u32 = 20_000;

/// How many bytes a read gives, and a write takes, where it does not matter.
const PIECE: u32 = 4_096;

/// What is seen of a run: its status, whether exactly the planned calls failed and each is answered as its event says, whether
/// it has ended as its answers make it end, whether the guests' owner holds what the same guests leave without a migration,
/// and how many calls have failed, as the journal that is left says it, and as the printed one.
#[derive(Clone, Copy, Debug, PartialEq)]
struct Findings {
    status: u8,
    planned: bool,
    ends: bool,
    agrees: bool,
    faults: u32,
    printed: Printed,
}

/// How many calls of guests and how many others have failed, as it is printed.
#[derive(Clone, Copy, Debug, PartialEq)]
struct Printed {
    faulted: u32,
    failed: u32,
    cancelled: bool,
}

impl Printed {
    /// How many calls have failed.
    fn faults(self) -> u32 {
        self.faulted.saturating_add(self.failed)
    }

    /// The status that the journal asks for.
    fn status(self) -> u8 {
        match self {
            Printed { failed: 1.., .. } => 6,
            Printed {
                cancelled: true,
                ..
            } => 7,
            _ => 0,
        }
    }
}

/// What the printed journal says.
fn printed_of(output: &[u8]) -> Option<Printed> {
    let journal = parts(output)?.journal;
    let mut printed = Printed {
        faulted: 0,
        failed: 0,
        cancelled: false,
    };
    for line in journal.lines() {
        if line.ends_with(" faulted") {
            printed.faulted = printed.faulted.saturating_add(1);
        }
        if line.contains(" failed ") {
            printed.failed = printed.failed.saturating_add(1);
        }
        printed.cancelled = printed.cancelled || line == "cancel done";
    }
    Some(printed)
}

/// What is seen of a run that has left a migration.
fn find(alloc: Global, machine: &Machine, status: u8, output: &[u8]) -> Result<Findings, Fail> {
    let Some(printed) = printed_of(output) else {
        return Err(Fail::new("no journal is printed"));
    };
    let calls = calls_of(alloc, machine)?;
    Ok(Findings {
        status,
        planned: fails_as_planned(machine, &calls),
        ends: ends(machine),
        agrees: agrees(alloc, machine)?,
        faults: faults(machine.journal()),
        printed,
    })
}

/// What is seen of a run by what it has left.
fn find_left(alloc: Global, left: &Left, status: u8, output: &[u8]) -> Result<Findings, Fail> {
    match left {
        Left::First(machine) => find(alloc, machine, status, output),
        Left::Nothing => Err(Fail::new("nothing left")),
    }
}

/// What is seen of the run of a text.
fn found<X: Threads + Wait + Sync>(rt: &X, alloc: Global, text: &str) -> Result<Findings, Fail> {
    let words = words_of(alloc, &["run"])?;
    let mut source = MemSource::new(alloc, text.as_bytes(), PIECE, &[])?;
    let mut sink = MemSink::new(alloc, ROOM, PIECE, &[])?;
    let mut left = Left::Nothing;
    let status = status_of(
        rt,
        alloc,
        &words,
        &mut source,
        &mut sink,
        &FreeGate,
        &mut left,
    );
    let findings = find_left(alloc, &left, status, sink.bytes());
    drop(left);
    findings
}

/// Whether a run is as it has to be, with a planned fault of which it is known that the call is made, or that it is not.
fn is_well(case: &Case, kind: Kind, number: u32, found: &Findings) -> bool {
    let (_, least, most) = kind;
    let fails = found.faults == 1;
    let migration_fails = found.printed.failed == 1;
    found.planned
        && found.ends
        && found.agrees
        && found.faults <= 1
        && found.faults == found.printed.faults()
        && found.status == found.printed.status()
        && (migration_fails || found.status == case.status)
        && (fails || number > least)
        && (!fails || number <= most)
}

/// What is odd of the runs of a job with this planned fault; nothing where all are well.
fn odd_with<X: Threads + Wait + Sync>(
    rt: &X,
    alloc: Global,
    case: &Case,
    kind: Kind,
    number: u32,
) -> Result<Option<Findings>, Fail> {
    let (word, _, _) = kind;
    let text = format!(in alloc; "{}fault {word} {number}\n{}", case.head, case.tail)?;
    for _ in 0..RUNS {
        let found = found(rt, alloc, &text)?;
        if !is_well(case, kind, number, &found) {
            return Ok(Some(found));
        }
    }
    Ok(None)
}

/// The first planned fault, each call of each kind and the one behind the last, with which a run of a job is odd, and what is.
fn odd<X: Threads + Wait + Sync>(
    rt: &X,
    alloc: Global,
    case: &Case,
) -> Result<Option<(&'static str, u32, Findings)>, Fail> {
    for &kind in case.kinds {
        let (word, _, most) = kind;
        for number in 1..=most.saturating_add(1) {
            if let Some(found) = odd_with(rt, alloc, case, kind, number)? {
                return Ok(Some((word, number, found)));
            }
        }
    }
    Ok(None)
}

#[test]
fn each_planned_call_of_a_page_fails_alone(rt: HostRuntime) -> Result<(), Fail> {
    assert_eq!(rt; odd(&rt, rt.alloc(), &ONE_PAGE)?, None);
    Ok(())
}

#[test]
fn each_planned_call_beside_guests_fails_alone(rt: HostRuntime) -> Result<(), Fail> {
    assert_eq!(rt; odd(&rt, rt.alloc(), &IN_SINGLES)?, None);
    Ok(())
}

#[test]
fn each_planned_call_in_groups_fails_alone(rt: HostRuntime) -> Result<(), Fail> {
    assert_eq!(rt; odd(&rt, rt.alloc(), &IN_GROUPS)?, None);
    Ok(())
}

#[test]
fn each_planned_call_before_a_cancel_fails_alone(rt: HostRuntime) -> Result<(), Fail> {
    assert_eq!(rt; odd(&rt, rt.alloc(), &WITH_CANCEL)?, None);
    Ok(())
}
