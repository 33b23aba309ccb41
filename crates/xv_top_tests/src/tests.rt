//! What no clause says: that the program answers otherwise than by want of memory, and what it writes.

ghost use Rattle.std.specs.Prelude.{◌<◌};

use std::alloc::{AllocError, Global};
use std::process::Abort;
use std::test::Fail;
use xv_base::Status;
use xv_io::{MemSink, MemSource};
use xv_top::{Left, top};

pub const JOB: &[u8] =
    b"job 1\npages 1 16\ndisk 2 16\nstreams 1\ncredit 4\noutbox 4\nregion 1\nrounds 1\ndirty 0\nguest\nend\n";

const EMPTY: &[u8] =
    b"job 1\npages 1 16\ndisk 2 16\nstreams 1\ncredit 4\noutbox 4\nregion 1\nrounds 1\ndirty 0\nguest\nend\nstop\n";

const BEGUN: &[u8] =
    b"job 1\npages 1 16\ndisk 2 16\nstreams 1\ncredit 4\noutbox 4\nregion 1\nrounds 1\ndirty 0\nguest\nend\nbegin 0\nstop\n";

/// A write to a block behind the copy, which fails, and a read of it.
const FAULTED: &[u8] =
    b"job 1\npages 1 16\ndisk 4 16\nstreams 3\ncredit 8\noutbox 8\nregion 1\nrounds 2\ndirty 0\nfault swrite 1\nguest\nwr 0 0 1 bb\nrd 0 0 0 4\nend\nbegin 0\nread 0\nadvance 0\nguest 0\nprobe 1\nguest 0\nstop\n";

const FAULTED_OUT: &[u8] =
    b"begin 0 done 1\nread 0 done 1\nadvance 0 done 1\nguest 0 faulted\nprobe 1 behind 1 0 1 0 0\nguest 0 read 00000000\nphase running\nowner source\nhistory 2\nfaulted 1\njournal 5\nstun none\ncopied 1\nrounds 0\nmessages 1\nmirrors 0\napplied 0\ncredit 8\n";

/// A guest's write and read, and a cancel that is due in between.
const CANCELLED: &[u8] =
    b"job 1\npages 1 16\nstreams 1\ncredit 2\noutbox 2\nregion 1\nrounds 1\ndirty 0\ncancel 1\nguest\nst 0 1 aa\nld 0 2\nend\nstun\ncancel\nguest 0\nguest 0\nround\npage\nstun\nguest 0\nswitch\ncancel\nguest 0\nsend 0\nstop\n";

const CANCELLED_OUT: &[u8] =
    b"stun wait cancel-due\ncancel wait not-now\nguest 0 done\nguest 0 wait cancel-due\nround done 1\npage done 0 1\nstun done 0\nguest 0 wait cancel-due\nswitch wait cancel-due\ncancel done\nguest 0 read aa00\nsend 0 wait not-now\nphase cancelled\nowner source\nhistory 2\nfaulted 0\njournal 6\nstun 1\ncopied 0\nrounds 1\nmessages 1\nmirrors 0\napplied 0\ncredit 2\nsrc 0 aa000000000000000000000000000000\n";

pub const READ: &[u8] =
    b"job 1\npages 1 16\ndisk 2 16\ndisk 1 32\nstreams 1\ncredit 4\noutbox 4\nregion 1\nrounds 1\ndirty 0\ninit 1 5a\nguest\nrd 0 0 2 3\nwr 1 0 1 0102\nend\nguest 0\nguest 0\nguest 0\nstop\n";

const READ_OUT: &[u8] =
    b"guest 0 read 5a5a5a\nguest 0 done\nguest 0 wait trace-end\nphase running\nowner source\nhistory 2\nfaulted 0\njournal 2\nstun none\ncopied 0\nrounds 0\nmessages 0\nmirrors 0\napplied 0\ncredit 4\nsrc 1 5a5a5a5a5a5a5a5a5a5a5a5a5a5a5a5a\nsrc 3 0102010201020102010201020102010201020102010201020102010201020102\n";

const REPORT: &[u8] =
    b"phase running\nowner source\nhistory 0\nfaulted 0\njournal 0\nstun none\ncopied 0\nrounds 0\nmessages 0\nmirrors 0\napplied 0\ncredit 4\n";

pub struct Case {
    pub name: &'static str,
    pub words: &'static [&'static str],
    pub input: &'static [u8],
    /// The calls of the source that fail.
    pub fails: &'static [u32],
    pub room: u32,
    pub status: u8,
    pub output: &'static [u8],
}

const CASES: &[Case] = &[
    Case {
        name: "an empty script",
        words: &["replay"],
        input: EMPTY,
        fails: &[],
        room: 500,
        status: 0,
        output: REPORT,
    },
    Case {
        name: "no words",
        words: &[],
        input: EMPTY,
        fails: &[],
        room: 500,
        status: 1,
        output: b"refused words\n",
    },
    Case {
        name: "an option",
        words: &["replay", "-x"],
        input: EMPTY,
        fails: &[],
        room: 500,
        status: 1,
        output: b"refused words\n",
    },
    Case {
        name: "no script",
        words: &["replay"],
        input: JOB,
        fails: &[],
        room: 500,
        status: 2,
        output: b"refused line 12 unended\n",
    },
    Case {
        name: "a write that fails as planned, and a unit that is asked for",
        words: &["replay"],
        input: FAULTED,
        fails: &[],
        room: 500,
        status: 0,
        output: FAULTED_OUT,
    },
    Case {
        name: "a cancel while stunned",
        words: &["replay"],
        input: CANCELLED,
        fails: &[],
        room: 500,
        status: 0,
        output: CANCELLED_OUT,
    },
    Case {
        name: "a number with a leading zero",
        words: &["replay"],
        input: b"job 1\npages 1 16\ndisk 2 16\nstreams 1\ncredit 04\noutbox 4\n",
        fails: &[],
        room: 500,
        status: 2,
        output: b"refused line 5 bad-number\n",
    },
    Case {
        name: "two faulty lines",
        words: &["replay"],
        input: b"job 1\npages 0 16\ndisk 0 16\n",
        fails: &[],
        room: 500,
        status: 2,
        output: b"refused line 2 limit 2\n",
    },
    Case {
        name: "a region above the outbox",
        words: &["replay"],
        input: b"job 1\npages 1 16\nstreams 1\ncredit 4\noutbox 4\nregion 5\n",
        fails: &[],
        room: 500,
        status: 2,
        output: b"refused line 6 limit 11\n",
    },
    Case {
        name: "a read, and a write of another disk",
        words: &["replay"],
        input: READ,
        fails: &[],
        room: 500,
        status: 0,
        output: READ_OUT,
    },
    Case {
        name: "a second read that fails",
        words: &["replay"],
        input: EMPTY,
        fails: &[2],
        room: 500,
        status: 3,
        output: b"",
    },
    Case {
        name: "a first read that fails",
        words: &["replay"],
        input: EMPTY,
        fails: &[1],
        room: 500,
        status: 3,
        output: b"",
    },
    Case {
        name: "room for five bytes",
        words: &["replay"],
        input: BEGUN,
        fails: &[],
        room: 5,
        status: 4,
        output: b"begin",
    },
    Case {
        name: "a report as JSON",
        words: &["replay", "--json"],
        input: EMPTY,
        fails: &[],
        room: 500,
        status: 0,
        output: b"{\"applied\":0,\"copied\":0,\"credit\":4,\"faulted\":0,\"history\":0,\"journal\":0,\"messages\":0,\"mirrors\":0,\"owner\":\"source\",\"phase\":\"running\",\"rounds\":0,\"stun\":null}\n",
    },
    Case {
        name: "JSON twice",
        words: &["replay", "--json", "--json"],
        input: EMPTY,
        fails: &[],
        room: 500,
        status: 1,
        output: b"refused words\n",
    },
    Case {
        name: "no room for a refusal",
        words: &["replay"],
        input: JOB,
        fails: &[],
        room: 0,
        status: 4,
        output: b"",
    },
];

/// The status of a run that leaves something.
fn status_of(
    alloc: Global,
    words: &[String],
    source: &mut MemSource,
    sink: &mut MemSink,
    left: &mut Left,
) -> u8 {
    top(alloc, words, source, sink, left).code()
}

/// The status of a run.
fn status(alloc: Global, words: &[String], source: &mut MemSource, sink: &mut MemSink) -> u8 {
    let mut left = Left::Nothing;
    let status = status_of(alloc, words, source, sink, &mut left);
    drop(left);
    status
}

/// The status of a run with these words.
pub fn status_by(
    alloc: Global,
    words: &[&str],
    source: &mut MemSource,
    sink: &mut MemSink,
) -> Result<u8, Fail> {
    let words = words_of(alloc, words)?;
    Ok(status(alloc, &words, source, sink))
}

fn words_of(alloc: Global, all: &[&str]) -> Result<Vec<String>, AllocError> {
    let mut words = Vec::new(alloc);
    for word in all {
        words.push(String::from_str(alloc, word)?)?;
    }
    Ok(words)
}

/// The status of a run, and what it wrote; the source gives one byte a read.
fn outcome(alloc: Global, case: &Case) -> Result<(u8, Vec<u8>), Fail> {
    let mut source = MemSource::new(alloc, case.input, 1, case.fails)?;
    let mut sink = MemSink::new(alloc, case.room, 64, &[])?;
    let status = status_by(alloc, case.words, &mut source, &mut sink)?;
    Ok((status, sink.bytes().to_vec(alloc)?))
}

/// Runs each case, and compares its status and what it wrote.
pub fn plays(rt: &impl Abort, alloc: Global, cases: &[Case]) -> Result<(), Fail> {
    for case in cases {
        let (status, output) = outcome(alloc, case)?;
        let name = case.name;
        assert_eq!(rt; status, case.status, "{name}");
        assert_eq!(rt; output.as_slice(), case.output, "{name}");
    }
    Ok(())
}

#[test]
fn answers_as_the_input_says(rt: HostRuntime) -> Result<(), Fail> {
    plays(&rt, rt.alloc(), CASES)
}
