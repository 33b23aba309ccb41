//! Lines of a made job, how much it holds, and that its text is read back.

use crate::job_tests::is_printed_back;
use std::alloc::Global;
use std::test::Fail;
use xv_base::NoMemory;
use xv_job::{make_job, print_job};

/// The text of the job that a number makes.
fn text_of(alloc: Global, number: u16) -> Result<Vec<u8>, NoMemory> {
    let job = make_job(alloc, number)?;
    let mut text = Vec::new(alloc);
    print_job(alloc, &job, &mut text)?;
    Ok(text)
}

/// Whether the line at a place of a text, from 0, is this one.
fn has_line(text: &[u8], at: usize, want: &str) -> bool {
    text.split(|byte| *byte == b'\n').nth(at) == Some(want.as_bytes())
}

/// Lines of the job of number 7, with their places.
const LINES: &[(usize, &str)] = &[
    (0, "job 1"),
    (1, "pages 1024 4096"),
    (2, "disk 4096 512"),
    (3, "disk 2048 512"),
    (4, "streams 4"),
    (5, "credit 64"),
    (6, "outbox 64"),
    (7, "region 16"),
    (8, "rounds 8"),
    (9, "dirty 32"),
    (10, "init 0 08"),
    (25, "init 960 17"),
    (26, "init 1024 08"),
    (41, "init 4864 17"),
    (42, "guest"),
    (43, "st 29120 64 08"),
    (44, "wr 0 38 3 27"),
    (45, "ld 282944 64"),
    (46, "rd 0 100 0 64"),
    (843, "guest"),
    (3246, "end"),
];

#[test]
fn makes_lines(rt: HostRuntime) -> Result<(), Fail> {
    let text = text_of(rt.alloc(), 7)?;
    for &(at, want) in LINES {
        assert!(rt; has_line(&text, at, want), "of line {at}");
    }
    Ok(())
}

#[test]
fn makes_units_and_operations(rt: HostRuntime) -> Result<(), Fail> {
    let job = make_job(rt.alloc(), 7)?;
    assert_eq!(rt; job.layout.units(), 7168);
    assert_eq!(rt; job.operations(), 4400);
    Ok(())
}

#[test]
fn reads_a_made_job_back(rt: HostRuntime) -> Result<(), Fail> {
    let text = text_of(rt.alloc(), 65535)?;
    assert!(rt; is_printed_back(rt.alloc(), &text)?);
    Ok(())
}
