//! Each two calls that the run of a job makes are planned to fail together, and each with one behind the last of a kind. The
//! second may then be made no more.

use crate::cases::{Case, IN_GROUPS, Line, TWO_GUESTS, WITH_QUEUE, lines_of};
use crate::runs::{Findings, found, text_with_both};
use std::alloc::Global;
use std::test::Fail;

const CASES: &[Case] = &[TWO_GUESTS, IN_GROUPS, WITH_QUEUE];

/// What is seen of a run with two planned faults.
fn found_with(alloc: Global, case: &Case, one: &Line, other: &Line) -> Result<Findings, Fail> {
    let text = text_with_both(alloc, case, one, other)?;
    found(alloc, &text)
}

/// Whether a run with two planned faults is as it has to be, and fails at the one that comes first, if any is made.
fn is_well(alloc: Global, case: &Case, one: &Line, other: &Line) -> Result<bool, Fail> {
    let found = found_with(alloc, case, one, other)?;
    let fails = one.made || other.made;
    Ok(
        found.planned
            && found.ends
            && found.agrees
            && found.faults <= 2
            && (found.faults >= 1) == fails,
    )
}

#[test]
fn ends_as_the_guests_whichever_two_calls_fail(rt: HostRuntime) -> Result<(), Fail> {
    let alloc = rt.alloc();
    for case in CASES {
        let name = case.name;
        let lines = lines_of(alloc, case)?;
        for (place, one) in lines.iter().enumerate() {
            let Line { word, number, .. } = *one;
            for other in &lines[place..] {
                let well = is_well(alloc, case, one, other)?;
                assert!(rt;
                    well,
                    "{name}: {word} {number}, {} {}",
                    other.word, other.number
                );
            }
        }
    }
    Ok(())
}
