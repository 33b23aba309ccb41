//! Each limit at both edges, each reason of a refusal, the order of two faults, and jobs that are printed back.

use std::alloc::{AllocError, Global};
use std::test::Fail;
use xv_base::{Config, Fault, GuestId, LineFault, LineWhy, TextError, UnitId};
use xv_job::{Job, Place, print_job, read_job};

/// The lines of a small job.
const LINES: &[&str] = &[
    "job 1",
    "pages 4 16",
    "disk 8 16",
    "streams 1",
    "credit 4",
    "outbox 4",
    "region 1",
    "rounds 1",
    "dirty 0",
    "guest",
    "end",
];

/// A job's text in which other lines stand in place of those from `first` to `last`, from 1.
fn text_with(
    alloc: Global,
    first: usize,
    last: usize,
    instead: &str,
) -> Result<Vec<u8>, AllocError> {
    let mut text = Vec::new(alloc);
    for (i, line) in LINES.iter().enumerate() {
        let number = i + 1;
        if number == first {
            text.extend_from_slice(instead.as_bytes())?;
        }
        if number < first || number > last {
            text.extend_from_slice(line.as_bytes())?;
            text.push(b'\n')?;
        }
    }
    Ok(text)
}

/// What is wrong with such a text.
fn fault_of(alloc: Global, first: usize, last: usize, instead: &str) -> Option<TextError> {
    match text_with(alloc, first, last, instead) {
        Ok(text) => read_job(alloc, &text).err(),
        Err(_) => Some(TextError::NoMemory),
    }
}

/// Parts of a job's text that are read: the lines that they stand for, from the first to the last, and the part.
const READ: &[(usize, usize, &str)] = &[
    (2, 2, "pages 1 16\n"),
    (2, 2, "pages 1048568 16\n"),
    (2, 2, "pages 4 4096\n"),
    (3, 3, ""),
    (3, 3, "disk 1 16\ndisk 1 16\ndisk 1 16\ndisk 1 16\n"),
    (3, 3, "disk 1048572 16\n"),
    (3, 3, "disk 8 4096\n"),
    (3, 3, "disk 131071 4096\ndisk 252 16\n"),
    (4, 4, "streams 8\n"),
    (5, 5, "credit 1\n"),
    (5, 5, "credit 1024\n"),
    (6, 6, "outbox 1\n"),
    (6, 7, "outbox 1024\nregion 256\n"),
    (7, 7, "region 4\n"),
    (8, 8, "rounds 64\n"),
    (9, 9, "dirty 1048576\n"),
    (10, 10, "cancel 0\nguest\n"),
    (10, 10, "cancel 1\nguest\nwr 0 0 1 aa\n"),
    (
        10,
        10,
        "fault sread 1\nfault put 0 1\nfault sread 1\nguest\n",
    ),
    (
        10,
        10,
        "fault sread 1\nfault swrite 2\nfault dread 3\nfault dwrite 4\nfault flush 5\nfault take 0 6\nfault ackput 7\nfault acktake 8\nguest\n",
    ),
    (10, 10, "init 3 aa\ninit 11 bb\nguest\n"),
    (
        10,
        10,
        "guest\nst 0 16 aa\nld 63 1\nwr 0 0 8 aa\nrd 0 7 15 1\nguest\n",
    ),
    (
        1,
        1,
        "job 2\npages 1 16\nstreams 1\ncredit 1\noutbox 1\nregion 1\nrounds 1\ndirty 0\ngroup 16\nguest\nend\n",
    ),
    (
        3,
        10,
        "disk 1048572 16\nstreams 1\ncredit 1\noutbox 1\nregion 1\nrounds 1\ndirty 0\nguest\nwr 0 0 1048572 aa\nwr 0 0 4 aa\n",
    ),
];

/// Parts that are refused, with the line and the reason.
const REFUSED: &[(usize, usize, &str, u32, LineWhy)] = &[
    (2, 2, "pages 0 8\n", 2, LineWhy::Limit(2)),
    (2, 2, "pages 1048577 8\n", 2, LineWhy::Limit(2)),
    (2, 2, "pages 131073 8\n", 2, LineWhy::Limit(3)),
    (2, 2, "pages 4 24\n", 2, LineWhy::Limit(3)),
    (2, 2, "pages 131073 8192\n", 2, LineWhy::Limit(3)),
    (2, 2, "pages 1048569 16\n", 3, LineWhy::Limit(6)),
    (2, 2, "pages 131073 4096\n", 2, LineWhy::Limit(7)),
    (
        3,
        3,
        "disk 1 16\ndisk 1 16\ndisk 1 16\ndisk 1 16\ndisk 0 8\n",
        7,
        LineWhy::Limit(4),
    ),
    (3, 3, "disk 0 8\n", 3, LineWhy::Limit(5)),
    (3, 3, "disk 1048577 16\n", 3, LineWhy::Limit(5)),
    (3, 3, "disk 1048573 8\n", 3, LineWhy::Limit(3)),
    (3, 3, "disk 1048573 4096\n", 3, LineWhy::Limit(6)),
    (
        3,
        3,
        "disk 131071 4096\ndisk 253 16\n",
        4,
        LineWhy::Limit(7),
    ),
    (4, 4, "streams 0\n", 4, LineWhy::Limit(8)),
    (4, 4, "streams 9\n", 4, LineWhy::Limit(8)),
    (5, 5, "credit 0\n", 5, LineWhy::Limit(9)),
    (5, 5, "credit 1025\n", 5, LineWhy::Limit(9)),
    (6, 6, "outbox 0\n", 6, LineWhy::Limit(10)),
    (6, 6, "outbox 1025\n", 6, LineWhy::Limit(10)),
    (7, 7, "region 0\n", 7, LineWhy::Limit(11)),
    (7, 7, "region 5\n", 7, LineWhy::Limit(11)),
    (6, 7, "outbox 1024\nregion 257\n", 7, LineWhy::Limit(11)),
    (8, 8, "rounds 0\n", 8, LineWhy::Limit(12)),
    (8, 8, "rounds 65\n", 8, LineWhy::Limit(12)),
    (9, 9, "dirty 1048577\n", 9, LineWhy::Limit(13)),
    (
        10,
        10,
        "cancel 2\nguest\nwr 0 0 1 aa\n",
        13,
        LineWhy::Limit(14),
    ),
    (10, 10, "cancel 9\nguest\n", 12, LineWhy::Limit(14)),
    (10, 10, "fault sread 0\nguest\n", 10, LineWhy::Limit(16)),
    (10, 10, "fault flush 0\nguest\n", 10, LineWhy::Limit(16)),
    (10, 10, "fault put 1 1\nguest\n", 10, LineWhy::Limit(16)),
    (10, 10, "fault take 256 1\nguest\n", 10, LineWhy::Limit(16)),
    (
        1,
        9,
        "job 2\npages 1 16\nstreams 1\ncredit 1\noutbox 1\nregion 1\nrounds 1\ndirty 0\ngroup 0\n",
        9,
        LineWhy::Limit(18),
    ),
    (
        1,
        9,
        "job 2\npages 1 16\ndisk 1 16\nstreams 1\ncredit 1\noutbox 1\nregion 1\nrounds 1\ndirty 0\ngroup 17\n",
        10,
        LineWhy::Limit(18),
    ),
    (10, 11, "guest", 10, LineWhy::Unended),
    (11, 11, "", 11, LineWhy::Unended),
    (1, 1, "\n", 1, LineWhy::BadWord),
    (1, 1, "job 3\n", 1, LineWhy::BadWord),
    (2, 2, "page 4 16\n", 2, LineWhy::BadWord),
    (2, 2, "pages x\n", 2, LineWhy::BadWord),
    (2, 2, "pages 4 16 \n", 2, LineWhy::BadWord),
    (10, 10, "wr 0 0 1 aa\n", 10, LineWhy::BadWord),
    (10, 10, "fault read 0\n", 10, LineWhy::BadWord),
    (10, 10, "fault put 1\n", 10, LineWhy::BadWord),
    (1, 1, "pages x 0\n", 1, LineWhy::Order),
    (1, 1, "job 2\n", 10, LineWhy::Order),
    (9, 9, "dirty 0\ngroup 2\n", 10, LineWhy::Order),
    (10, 10, "", 10, LineWhy::Order),
    (10, 10, "init 3 aa\ncancel 0\n", 11, LineWhy::Order),
    (2, 2, "pages 04 0\n", 2, LineWhy::BadNumber),
    (2, 2, "pages 4294967296 16\n", 2, LineWhy::BadNumber),
    (10, 10, "init x zz\n", 10, LineWhy::BadNumber),
    (10, 10, "init 12 AA\n", 10, LineWhy::BadHex),
    (10, 10, "init 5 aa\ninit 12 aa\n", 11, LineWhy::OutOfRange),
    (10, 10, "init 5 aa\ninit 5 aa\n", 11, LineWhy::Order),
    (10, 10, "guest\nst 64 1 aa\n", 11, LineWhy::OutOfRange),
    (10, 10, "guest\nld 0 0\n", 11, LineWhy::OutOfRange),
    (10, 10, "guest\nst 8 9 aa\n", 11, LineWhy::CrossesPage),
    (
        3,
        10,
        "disk 1048572 16\nstreams 1\ncredit 1\noutbox 1\nregion 1\nrounds 1\ndirty 0\nguest\nwr 0 0 1048572 aa\nwr 0 0 5 aa\n",
        12,
        LineWhy::TooMany,
    ),
];

/// A line that stands several times, how often, what follows it, and how the text is refused; not at all at line 0.
const REPEATED: &[(&str, u32, &str, u32, LineWhy)] = &[
    ("fault ackput 1\n", 32, "guest\n", 0, LineWhy::Order),
    ("fault ackput 1\n", 33, "guest\n", 42, LineWhy::Limit(15)),
    ("guest\n", 16, "", 0, LineWhy::Order),
    ("guest\n", 17, "", 26, LineWhy::Limit(17)),
];

/// A job of format 2 with every kind of line.
const WHOLE: &str =
    "job 2\npages 4 16\ndisk 2 32\nstreams 2\ncredit 5\noutbox 6\nregion 4\nrounds 7\ndirty 1\ngroup 3\ncancel 5\nfault sread 9\nfault put 1 2\ninit 0 00\ninit 5 0fa0\nguest\nst 0 1 aa\nwr 0 0 2 bb\nguest\nld 0 1\nrd 0 1 2 3\nend\n";

#[test]
fn reads_what_is_within_limits(rt: HostRuntime) {
    for &(first, last, instead) in READ {
        assert_eq!(rt;
            fault_of(rt.alloc(), first, last, instead),
            None,
            "of {instead}"
        );
    }
}

#[test]
fn refuses_the_first_fault(rt: HostRuntime) {
    for &(first, last, instead, line, why) in REFUSED {
        let want = Some(TextError::Fault(LineFault { line, why }));
        assert_eq!(rt;
            fault_of(rt.alloc(), first, last, instead),
            want,
            "of {instead}"
        );
    }
}

/// A job's text in which a line stands so many times, and this behind it.
fn text_of_many(
    alloc: Global,
    line_again: &str,
    times: u32,
    last: &str,
) -> Result<Vec<u8>, AllocError> {
    let mut text = text_with(alloc, 10, 11, "")?;
    for _ in 0..times {
        text.extend_from_slice(line_again.as_bytes())?;
    }
    text.extend_from_slice(last.as_bytes())?;
    text.extend_from_slice(b"end\n")?;
    Ok(text)
}

/// What is wrong with such a text.
fn fault_of_many(alloc: Global, line_again: &str, times: u32, last: &str) -> Option<TextError> {
    match text_of_many(alloc, line_again, times, last) {
        Ok(text) => read_job(alloc, &text).err(),
        Err(_) => Some(TextError::NoMemory),
    }
}

#[test]
fn counts_faults_and_guests(rt: HostRuntime) {
    for &(line_again, times, last, line, why) in REPEATED {
        let want = (line > 0).then_some(TextError::Fault(LineFault { line, why }));
        assert_eq!(rt;
            fault_of_many(rt.alloc(), line_again, times, last),
            want,
            "of {times} times {line_again}"
        );
    }
}

/// The job of a text, and where it ends.
fn job_of(alloc: Global, text: &[u8]) -> Result<(Job, Place), TextError> {
    read_job(alloc, text)
}

/// Whether a text is that of its job as it is printed, and ends with it.
pub(crate) fn is_printed_back(alloc: Global, text: &[u8]) -> Result<bool, Fail> {
    let (job, place) = job_of(alloc, text)?;
    let mut printed = Vec::new(alloc);
    print_job(alloc, &job, &mut printed)?;
    Ok(printed.as_slice() == text && place.byte == text.len())
}

/// The format and the group, and how many first contents, guests and unit operations there are.
fn numbers_of(job: &Job) -> (u8, u32, usize, u8, u32) {
    (
        job.format,
        job.group,
        job.init.len(),
        job.guests(),
        job.operations(),
    )
}

#[test]
fn reads_every_line(rt: HostRuntime) -> Result<(), Fail> {
    let (job, _) = job_of(rt.alloc(), WHOLE.as_bytes())?;
    let config = Config {
        streams: 2,
        credit: 5,
        outbox: 6,
        region: 4,
        rounds: 7,
        dirty: 1,
        cancel: Some(5),
    };
    assert_eq!(rt; numbers_of(&job), (2, 3, 2, 2, 5));
    assert_eq!(rt; job.config, config);
    assert_eq!(rt;
        job.faults.as_slice(),
        [Fault::SourceRead(9), Fault::Put(1, 2)].as_slice()
    );
    Ok(())
}

#[test]
fn prints_what_it_reads(rt: HostRuntime) -> Result<(), Fail> {
    let old = text_with(rt.alloc(), 10, 10, "guest\nwr 0 1 2 aabb\nrd 0 7 15 1\n")?;
    assert!(rt; is_printed_back(rt.alloc(), &old)?);
    assert!(rt; is_printed_back(rt.alloc(), WHOLE.as_bytes())?);
    Ok(())
}

/// The unit of the first guest's second unit operation.
fn second_unit(job: &Job) -> Option<UnitId> {
    let guest = GuestId(0);
    if job.guests() > 0 && job.operations_of(guest) > 1 {
        Some(job.unit_op(guest, 1).unit)
    } else {
        None
    }
}

#[test]
fn tells_what_follows_a_job(rt: HostRuntime) -> Result<(), Fail> {
    let mut text = text_with(rt.alloc(), 10, 10, "guest\nwr 0 1 2 aa\n")?;
    text.extend_from_slice(b"begin 0\n")?;
    let (job, place) = job_of(rt.alloc(), &text)?;
    assert_eq!(rt;
        place,
        Place {
            byte: 103,
            line: 13
        }
    );
    assert_eq!(rt; job.traces.len(), 1);
    assert_eq!(rt; job.operations(), 2);
    assert_eq!(rt; second_unit(&job), Some(UnitId(6)));
    Ok(())
}
