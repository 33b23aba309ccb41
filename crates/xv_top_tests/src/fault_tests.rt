//! The output fails at each of its calls in turn, the last one its flush: the status is then 4, and what was taken is a front
//! of what is written else, at the flush all of it.

use crate::handover_tests::REPEATS;
use crate::tests::{JOB, READ, status_by};
use std::alloc::Global;
use std::test::Fail;
use xv_io::{MemSink, MemSource};

struct Case {
    name: &'static str,
    words: &'static [&'static str],
    input: &'static [u8],
    room: u32,
    /// The most that a call of the output takes.
    piece: u32,
    /// How many calls of the output there are, its flush the last.
    calls: u32,
    /// The status where none fails.
    status: u8,
}

const CASES: &[Case] = &[
    Case {
        name: "a replay",
        words: &["replay"],
        input: READ,
        room: 600,
        piece: 40,
        calls: 15,
        status: 0,
    },
    Case {
        name: "a replay, its report as JSON",
        words: &["replay", "--json"],
        input: READ,
        room: 600,
        piece: 40,
        calls: 15,
        status: 0,
    },
    Case {
        name: "a handover",
        words: &["handover"],
        input: REPEATS,
        room: 500,
        piece: 40,
        calls: 14,
        status: 0,
    },
    Case {
        name: "a job of a number",
        words: &["gen", "7"],
        input: b"",
        room: 100_000,
        piece: 40_000,
        calls: 3,
        status: 0,
    },
    Case {
        name: "a driven job",
        words: &["drive", "7"],
        input: b"",
        room: 500,
        piece: 500,
        calls: 3,
        status: 0,
    },
    Case {
        name: "a refusal of words",
        words: &["drive"],
        input: b"",
        room: 100,
        piece: 10,
        calls: 3,
        status: 1,
    },
    Case {
        name: "a refusal of a job",
        words: &["replay"],
        input: JOB,
        room: 100,
        piece: 10,
        calls: 4,
        status: 2,
    },
    Case {
        name: "a refusal of a handover",
        words: &["handover"],
        input: b"x\n",
        room: 100,
        piece: 10,
        calls: 4,
        status: 2,
    },
];

/// The status of a run in which this call of the output fails, and what was taken; call 0 is none.
fn outcome(alloc: Global, case: &Case, call: u32) -> Result<(u8, Vec<u8>), Fail> {
    let mut source = MemSource::new(alloc, case.input, 64, &[])?;
    let mut sink = MemSink::new(alloc, case.room, case.piece.max(1), &[call])?;
    let status = status_by(alloc, case.words, &mut source, &mut sink)?;
    Ok((status, sink.bytes().to_vec(alloc)?))
}

#[test]
fn tells_each_failed_call_of_the_output(rt: HostRuntime) -> Result<(), Fail> {
    for case in CASES {
        let name = case.name;
        let (status, whole) = outcome(rt.alloc(), case, 0)?;
        assert_eq!(rt; status, case.status, "{name}");
        for call in 1..=case.calls {
            let (status, front) = outcome(rt.alloc(), case, call)?;
            assert_eq!(rt; status, 4, "{name} {call}");
            assert!(rt;
                whole.get(..front.len()) == Some(front.as_slice()),
                "{name} {call}"
            );
            assert_eq!(rt;
                front.len() == whole.len(),
                call == case.calls,
                "{name} {call}"
            );
        }
        let (status, _) = outcome(rt.alloc(), case, case.calls.saturating_add(1))?;
        assert_eq!(rt; status, case.status, "{name}");
    }
    Ok(())
}
