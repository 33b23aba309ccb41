//! The output fails at each of its calls in turn, the last one its flush: the status is then 4, nothing is left, and what was
//! taken is a front of what is written else, at the flush all of it.

use crate::running::{status_of, words_of};
use crate::single_tests::{BLOCK, PAGE};
use std::alloc::Global;
use std::sync::Wait;
use std::test::Fail;
use std::thread::Threads;
use xv_io::{MemSink, MemSource};
use xv_shared::FreeGate;
use xv_top::Left;

struct Case {
    name: &'static str,
    words: &'static [&'static str],
    input: &'static [u8],
    /// The status where no call fails.
    status: u8,
}

const CASES: &[Case] = &[
    Case {
        name: "a page",
        words: &["run"],
        input: PAGE,
        status: 6,
    },
    Case {
        name: "a page, its report as JSON",
        words: &["run", "--json"],
        input: PAGE,
        status: 6,
    },
    Case {
        name: "blocks, and an image",
        words: &["run"],
        input: BLOCK,
        status: 6,
    },
    Case {
        name: "a refusal of words",
        words: &["run", "7"],
        input: PAGE,
        status: 1,
    },
    Case {
        name: "a refusal of a job",
        words: &["run"],
        input: b"job 2\nend\n",
        status: 2,
    },
];

/// What the output takes in one write.
const TAKES: u32 = 40;

/// What the input gives in one read.
const GIVES: u32 = 64;

const ROOM: u32 = 2_000;

/// More calls of the output than any of these makes.
const CALLS: u32 = 100;

/// The status of a run in which this call of the output fails, and what was taken; call 0 is none.
fn outcome<X: Threads + Wait + Sync>(
    rt: &X,
    alloc: Global,
    case: &Case,
    call: u32,
) -> Result<(u8, Vec<u8>), Fail> {
    let words = words_of(alloc, case.words)?;
    let mut source = MemSource::new(alloc, case.input, GIVES, &[])?;
    let mut sink = MemSink::new(alloc, ROOM, TAKES, &[call])?;
    let mut left = Left::Nothing;
    let status = status_of(
        rt,
        alloc,
        &words,
        &mut source,
        &mut sink,
        &FreeGate,
        &mut left,
    );
    let nothing = matches!(left, Left::Nothing);
    drop(left);
    if status == 4 && !nothing {
        return Err(Fail::new("a migration is left"));
    }
    Ok((status, sink.bytes().to_vec(alloc)?))
}

#[test]
fn tells_each_failed_call_of_the_output(rt: HostRuntime) -> Result<(), Fail> {
    for case in CASES {
        let name = case.name;
        let (status, whole) = outcome(&rt, rt.alloc(), case, 0)?;
        assert_eq!(rt; status, case.status, "{name}");
        // How much was taken at the last call that failed.
        let mut most = 0;
        for call in 1..CALLS {
            let (status, front) = outcome(&rt, rt.alloc(), case, call)?;
            assert!(rt; whole.starts_with(&front), "{name} {call}");
            if status != 4 {
                assert_eq!(rt; status, case.status, "{name} {call}");
                assert_eq!(rt; front.len(), whole.len(), "{name} {call}");
                break;
            }
            most = front.len();
        }
        assert_eq!(rt; most, whole.len(), "{name}");
    }
    Ok(())
}
