//! The job that is made of 7: what every order prints, and that each of many journals, played again by one thread, is
//! answered as it is printed and leaves the same units.

use crate::printed::{number, parts, sum};
use crate::running::{Ran, ran_by, said};
use std::test::Fail;
use xv_shared::FreeGate;

struct Case {
    words: &'static [&'static str],
    /// What is printed in every order.
    parts: &'static [&'static str],
}

const CASES: &[Case] = &[
    Case {
        words: &["run"],
        parts: &[
            "\nphase switched\nowner destination\nhistory 4400\nfaulted 0\n",
            "\ncopied 6144\n",
            "\ncredit 64\n",
        ],
    },
    Case {
        words: &["run", "--json"],
        parts: &[
            "\"copied\":6144,\"credit\":64,\"faulted\":0,",
            "\"history\":4400,",
            "\"owner\":\"destination\",\"phase\":\"switched\",",
        ],
    },
];

/// How often the job is run, and its journal played again.
const RUNS: u32 = 20;

/// Whether the journal of a run is answered as it is printed when it is played again, and all units are then the same.
fn is_played(ran: &Ran) -> bool {
    match &ran.played {
        Some(played) => played.same && ran.output.starts_with(&played.answers),
        None => false,
    }
}

/// Whether the numbers of the workers and of what was done after them sum to the journal.
fn sums(output: &[u8]) -> bool {
    match parts(output) {
        Some(printed) => {
            let journal = number(printed.report, "journal");
            journal.is_some() && sum(printed.workers) == journal
        }
        None => false,
    }
}

/// Whether all these parts are printed.
fn has_all(output: &[u8], parts: &[&str]) -> bool {
    match str::from_utf8(output) {
        Ok(text) => parts.iter().all(|part| text.contains(*part)),
        Err(_) => false,
    }
}

#[test]
fn every_order_prints_the_same_totals(rt: HostRuntime) -> Result<(), Fail> {
    let alloc = rt.alloc();
    let job = said(alloc, &["gen", "7"])?;
    for case in CASES {
        let ran = ran_by(&rt, alloc, case.words, &job, &FreeGate)?;
        assert_eq!(rt; ran.status, 0);
        assert!(rt; has_all(&ran.output, case.parts));
    }
    Ok(())
}

#[test]
fn each_of_twenty_journals_is_played_again(rt: HostRuntime) -> Result<(), Fail> {
    let alloc = rt.alloc();
    let job = said(alloc, &["gen", "7"])?;
    for run in 0..RUNS {
        let ran = ran_by(&rt, alloc, &["run"], &job, &FreeGate)?;
        assert_eq!(rt; ran.status, 0, "{run}");
        assert!(rt; sums(&ran.output), "{run}");
        assert!(rt; is_played(&ran), "{run}");
    }
    Ok(())
}
