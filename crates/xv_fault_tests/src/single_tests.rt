//! Each call that the run of a job makes fails by itself, and the call behind the last of each kind.

use crate::cases::{CASES, Case, Line, lines_of};
use crate::runs::{Ending, Findings, found, left_by, makes_its_calls, text_of, text_with};
use std::alloc::Global;
use std::test::Fail;

/// What is seen of a run with a planned fault.
fn found_with(alloc: Global, case: &Case, line: &Line) -> Result<Findings, Fail> {
    let text = text_with(alloc, case, line)?;
    found(alloc, &text)
}

/// All that a run without faults leaves.
fn ending_without(alloc: Global, case: &Case) -> Result<Ending, Fail> {
    let text = text_of(alloc, case)?;
    left_by(alloc, &text)
}

/// All that a run with a planned fault leaves.
fn ending_with(alloc: Global, case: &Case, line: &Line) -> Result<Ending, Fail> {
    let text = text_with(alloc, case, line)?;
    left_by(alloc, &text)
}

#[test]
fn makes_the_calls_that_are_counted(rt: HostRuntime) -> Result<(), Fail> {
    for case in CASES {
        let name = case.name;
        assert!(rt; makes_its_calls(rt.alloc(), case)?, "{name}");
    }
    Ok(())
}

#[test]
fn ends_as_the_guests_whichever_call_fails(rt: HostRuntime) -> Result<(), Fail> {
    let alloc = rt.alloc();
    for case in CASES {
        let name = case.name;
        let lines = lines_of(alloc, case)?;
        let mut failing = 0u32;
        for line in &lines {
            let found = found_with(alloc, case, line)?;
            failing = failing.saturating_add(u32::from(found.failed));
            let expected = Findings {
                planned: true,
                ends: true,
                agrees: true,
                faults: u32::from(line.made),
                failed: found.failed,
            };
            let Line { word, number, .. } = *line;
            assert_eq!(rt; found, expected, "{name}: {word} {number}");
        }
        assert_eq!(rt; failing, case.failing, "{name}");
    }
    Ok(())
}

#[test]
fn a_number_behind_the_last_changes_nothing(rt: HostRuntime) -> Result<(), Fail> {
    let alloc = rt.alloc();
    for case in CASES {
        let name = case.name;
        let lines = lines_of(alloc, case)?;
        let without = ending_without(alloc, case)?;
        for line in &lines {
            let Line { word, number, made } = *line;
            let same = ending_with(alloc, case, line)? == without;
            assert_eq!(rt; same, !made, "{name}: {word} {number}");
        }
    }
    Ok(())
}
