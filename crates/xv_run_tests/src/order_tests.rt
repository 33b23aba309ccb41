//! What is printed of jobs whose workers may act in several orders: what every order has to print, and that the journal,
//! played again by one thread, is answered as it is printed.

use crate::printed::{has_line, number, parts, sum};
use crate::running::ran_by;
use std::alloc::Global;
use std::sync::Wait;
use std::test::Fail;
use std::thread::Threads;
use xv_shared::FreeGate;

struct Case {
    name: &'static str,
    input: &'static [u8],
    status: u8,
    /// How the journal ends.
    end: &'static str,
    /// Lines of the report.
    report: &'static [&'static str],
    /// What the source may hold at the end, and the destination.
    source: &'static [&'static str],
    dest: &'static [&'static str],
}

/// How often each job is run, since the threads may take turns otherwise each time.
const RUNS: u32 = 8;

const CASES: &[Case] = &[
    Case {
        name: "a page, and a guest that does nothing",
        input: b"job 1\npages 1 16\nstreams 1\ncredit 2\noutbox 2\nregion 1\nrounds 1\ndirty 0\nguest\nend\n",
        status: 0,
        end: "\nswitch done\n",
        report: &[
            "phase switched",
            "owner destination",
            "history 0",
            "faulted 0",
            "journal 9",
            "stun 0",
            "copied 0",
            "rounds 1",
            "messages 1",
            "mirrors 0",
            "applied 1",
            "credit 2",
        ],
        source: &[""],
        dest: &[""],
    },
    Case {
        name: "a flush that fails",
        input: b"job 1\npages 1 16\nstreams 1\ncredit 2\noutbox 2\nregion 1\nrounds 1\ndirty 0\nfault flush 1\nguest\nend\n",
        status: 6,
        end: "\nswitch failed flush\n",
        report: &[
            "phase failed",
            "owner source",
            "history 0",
            "faulted 0",
            "journal 9",
            "stun 0",
            "copied 0",
            "rounds 1",
            "messages 1",
            "mirrors 0",
            "applied 1",
            "credit 2",
        ],
        source: &[""],
        dest: &[""],
    },
    Case {
        name: "a write of the destination that fails",
        input: b"job 1\npages 1 16\ndisk 4 16\nstreams 3\ncredit 8\noutbox 8\nregion 2\nrounds 2\ndirty 0\nfault dwrite 1\nguest\nwr 0 2 1 ee\nend\n",
        status: 6,
        end: "",
        report: &[
            "phase failed",
            "owner source",
            "history 1",
            "faulted 0",
            "applied 0",
        ],
        source: &["src 3 eeeeeeeeeeeeeeeeeeeeeeeeeeeeeeee\n"],
        dest: &[""],
    },
    Case {
        name: "a cancel at once",
        input: b"job 1\npages 1 16\nstreams 1\ncredit 2\noutbox 2\nregion 1\nrounds 1\ndirty 0\ncancel 0\nguest\nst 0 1 aa\nld 0 2\nend\n",
        status: 7,
        end: "\nguest 0 done\nguest 0 read aa00\n",
        report: &["phase cancelled", "owner source", "history 2", "faulted 0"],
        source: &["src 0 aa000000000000000000000000000000\n"],
        dest: &[""],
    },
    Case {
        name: "a cancel after one operation",
        input: b"job 1\npages 1 16\nstreams 1\ncredit 2\noutbox 2\nregion 1\nrounds 1\ndirty 0\ncancel 1\nguest\nst 0 1 aa\nld 0 2\nend\n",
        status: 7,
        end: "\nguest 0 read aa00\n",
        report: &["phase cancelled", "owner source", "history 2", "faulted 0"],
        source: &["src 0 aa000000000000000000000000000000\n"],
        dest: &["", "dst 0 aa000000000000000000000000000000\n"],
    },
    Case {
        name: "a cancel after all operations",
        input: b"job 1\npages 1 16\nstreams 1\ncredit 2\noutbox 2\nregion 1\nrounds 1\ndirty 0\ncancel 2\nguest\nst 0 1 aa\nld 0 2\nend\n",
        status: 7,
        end: "\ncancel done\n",
        report: &["phase cancelled", "owner source", "history 2", "faulted 0"],
        source: &["src 0 aa000000000000000000000000000000\n"],
        dest: &["", "dst 0 aa000000000000000000000000000000\n"],
    },
    Case {
        name: "writes and reads of a block, before the switchover and after it",
        input: b"job 1\npages 1 16\ndisk 1 16\nstreams 1\ncredit 2\noutbox 2\nregion 1\nrounds 1\ndirty 0\nguest\nwr 0 0 1 5a\nrd 0 0 0 2\nwr 0 0 1 a5\nrd 0 0 14 2\nend\n",
        status: 0,
        end: "",
        report: &[
            "phase switched",
            "owner destination",
            "history 4",
            "faulted 0",
            "copied 1",
            "rounds 1",
            "credit 2",
        ],
        source: &[
            "",
            "src 1 5a5a5a5a5a5a5a5a5a5a5a5a5a5a5a5a\n",
            "src 1 a5a5a5a5a5a5a5a5a5a5a5a5a5a5a5a5\n",
        ],
        dest: &["dst 1 a5a5a5a5a5a5a5a5a5a5a5a5a5a5a5a5\n"],
    },
];

/// What is printed that no order prints, or that is not of the journal; none where all is well.
fn odd(case: &Case, output: &[u8], answers: &[u8]) -> Option<&'static str> {
    let Some(printed) = parts(output) else {
        return Some("the parts");
    };
    if printed.journal.as_bytes() != answers {
        return Some("the answers");
    }
    if !printed.journal.ends_with(case.end) {
        return Some("the end of the journal");
    }
    if !case
        .report
        .iter()
        .all(|line| has_line(printed.report, line))
    {
        return Some("the report");
    }
    if !case.source.contains(&printed.source) || !case.dest.contains(&printed.dest) {
        return Some("the image");
    }
    let journal = number(printed.report, "journal");
    if journal.is_none() || sum(printed.workers) != journal {
        return Some("the sum");
    }
    None
}

/// The status of a run, and what is odd about it.
fn outcome<X: Threads + Wait + Sync>(
    rt: &X,
    alloc: Global,
    case: &Case,
) -> Result<(u8, Option<&'static str>), Fail> {
    let ran = ran_by(rt, alloc, &["run"], case.input, &FreeGate)?;
    let odd = match &ran.played {
        Some(played) => {
            if played.same {
                odd(case, &ran.output, &played.answers)
            } else {
                Some("the units")
            }
        }
        None => Some("nothing left"),
    };
    Ok((ran.status, odd))
}

#[test]
fn every_order_ends_as_the_job_says(rt: HostRuntime) -> Result<(), Fail> {
    for case in CASES {
        let name = case.name;
        for run in 0..RUNS {
            let (status, odd) = outcome(&rt, rt.alloc(), case)?;
            assert_eq!(rt; status, case.status, "{name} {run}");
            assert_eq!(rt; odd, None, "{name} {run}");
        }
    }
    Ok(())
}
