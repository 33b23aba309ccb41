//! Words, inputs and faults that the command answers without a run, and an output that has too little room.

use crate::running::{status_of, words_of};
use crate::single_tests::PAGE;
use std::alloc::Global;
use std::sync::Wait;
use std::test::Fail;
use std::thread::Threads;
use xv_io::{MemSink, MemSource};
use xv_shared::FreeGate;
use xv_top::Left;

struct Case {
    name: &'static str,
    words: &'static [&'static str],
    input: &'static [u8],
    /// The calls of the source that fail; each gives one byte.
    fails: &'static [u32],
    room: u32,
    status: u8,
    output: &'static [u8],
}

const JOB: &[u8] =
    b"job 1\npages 1 16\ndisk 2 16\nstreams 1\ncredit 4\noutbox 4\nregion 1\nrounds 1\ndirty 0\nguest\nend\n";

const CASES: &[Case] = &[
    Case {
        name: "no words",
        words: &[],
        input: JOB,
        fails: &[],
        room: 500,
        status: 1,
        output: b"refused words\n",
    },
    Case {
        name: "another option",
        words: &["run", "-x"],
        input: JOB,
        fails: &[],
        room: 500,
        status: 1,
        output: b"refused words\n",
    },
    Case {
        name: "JSON twice",
        words: &["run", "--json", "--json"],
        input: JOB,
        fails: &[],
        room: 500,
        status: 1,
        output: b"refused words\n",
    },
    Case {
        name: "the option before the command",
        words: &["--json", "run"],
        input: JOB,
        fails: &[],
        room: 500,
        status: 1,
        output: b"refused words\n",
    },
    Case {
        name: "another case",
        words: &["Run"],
        input: JOB,
        fails: &[],
        room: 500,
        status: 1,
        output: b"refused words\n",
    },
    Case {
        name: "a number",
        words: &["run", "7"],
        input: JOB,
        fails: &[],
        room: 500,
        status: 1,
        output: b"refused words\n",
    },
    Case {
        name: "an empty word",
        words: &["run", ""],
        input: JOB,
        fails: &[],
        room: 500,
        status: 1,
        output: b"refused words\n",
    },
    Case {
        name: "the command twice",
        words: &["run", "run"],
        input: JOB,
        fails: &[],
        room: 500,
        status: 1,
        output: b"refused words\n",
    },
    Case {
        name: "a command of one thread",
        words: &["replay"],
        input: JOB,
        fails: &[],
        room: 500,
        status: 1,
        output: b"refused words\n",
    },
    Case {
        name: "a command with a number",
        words: &["gen", "7"],
        input: JOB,
        fails: &[],
        room: 500,
        status: 1,
        output: b"refused words\n",
    },
    Case {
        name: "an empty input",
        words: &["run"],
        input: b"",
        fails: &[],
        room: 500,
        status: 2,
        output: b"refused line 1 unended\n",
    },
    Case {
        name: "a last line that is cut",
        words: &["run"],
        input: b"job 1\npages 1 16\ndisk 2 16\nstreams 1\ncredit 4\noutbox 4\nregion 1\nrounds 1\ndirty 0\nguest\nen",
        fails: &[],
        room: 500,
        status: 2,
        output: b"refused line 11 unended\n",
    },
    Case {
        name: "no line end behind the last word",
        words: &["run"],
        input: b"job 1\npages 1 16\ndisk 2 16\nstreams 1\ncredit 4\noutbox 4\nregion 1\nrounds 1\ndirty 0\nguest\nend",
        fails: &[],
        room: 500,
        status: 2,
        output: b"refused line 11 unended\n",
    },
    Case {
        name: "no last line",
        words: &["run"],
        input: b"job 1\npages 1 16\ndisk 2 16\nstreams 1\ncredit 4\noutbox 4\nregion 1\nrounds 1\ndirty 0\nguest\n",
        fails: &[],
        room: 500,
        status: 2,
        output: b"refused line 11 unended\n",
    },
    Case {
        name: "a region above the outbox",
        words: &["run"],
        input: b"job 1\npages 1 16\ndisk 2 16\nstreams 1\ncredit 4\noutbox 4\nregion 5\nrounds 1\ndirty 0\nguest\nend\n",
        fails: &[],
        room: 500,
        status: 2,
        output: b"refused line 7 limit 11\n",
    },
    Case {
        name: "a store over the end of its page",
        words: &["run"],
        input: b"job 1\npages 1 16\ndisk 2 16\nstreams 1\ncredit 4\noutbox 4\nregion 1\nrounds 1\ndirty 0\nguest\nst 12 5 aa\nend\n",
        fails: &[],
        room: 500,
        status: 2,
        output: b"refused line 11 crosses-page\n",
    },
    Case {
        name: "a pattern that is too long",
        words: &["run"],
        input: b"job 1\npages 1 16\ndisk 2 16\nstreams 1\ncredit 4\noutbox 4\nregion 1\nrounds 1\ndirty 0\nguest\nst 0 1 0000000000000000000000000000000000000000000000000000000000000000000000000000000000000000000000000000000000000000000000000000000000\nend\n",
        fails: &[],
        room: 500,
        status: 2,
        output: b"refused line 11 bad-hex\n",
    },
    Case {
        name: "an unknown word",
        words: &["run"],
        input: b"job 1\npages 1 16\ndisk 2 16\nstreams 1\ncredit 4\noutbox 4\nregion 1\nrounds 1\ndirty 0\nguest\nfoo\nend\n",
        fails: &[],
        room: 500,
        status: 2,
        output: b"refused line 11 bad-word\n",
    },
    Case {
        name: "two lines that are exchanged",
        words: &["run"],
        input: b"job 1\npages 1 16\ndisk 2 16\nstreams 1\ncredit 4\noutbox 4\nregion 1\ndirty 0\nrounds 1\nguest\nend\n",
        fails: &[],
        room: 500,
        status: 2,
        output: b"refused line 8 order\n",
    },
    Case {
        name: "a number with a leading zero",
        words: &["run"],
        input: b"job 1\npages 1 16\ndisk 2 16\nstreams 1\ncredit 04\noutbox 4\nregion 1\nrounds 1\ndirty 0\nguest\nend\n",
        fails: &[],
        room: 500,
        status: 2,
        output: b"refused line 5 bad-number\n",
    },
    Case {
        name: "a script",
        words: &["run"],
        input: b"job 1\npages 1 16\ndisk 2 16\nstreams 1\ncredit 4\noutbox 4\nregion 1\nrounds 1\ndirty 0\nguest\nend\nbegin 0\nstop\n",
        fails: &[],
        room: 500,
        status: 2,
        output: b"refused line 12 order\n",
    },
    Case {
        name: "an empty script",
        words: &["run"],
        input: b"job 1\npages 1 16\ndisk 2 16\nstreams 1\ncredit 4\noutbox 4\nregion 1\nrounds 1\ndirty 0\nguest\nend\nstop\n",
        fails: &[],
        room: 500,
        status: 2,
        output: b"refused line 12 order\n",
    },
    Case {
        name: "an empty line",
        words: &["run"],
        input: b"job 1\npages 1 16\ndisk 2 16\nstreams 1\ncredit 4\noutbox 4\nregion 1\nrounds 1\ndirty 0\nguest\nend\n\n",
        fails: &[],
        room: 500,
        status: 2,
        output: b"refused line 12 order\n",
    },
    Case {
        name: "a byte behind the job",
        words: &["run"],
        input: b"job 1\npages 1 16\ndisk 2 16\nstreams 1\ncredit 4\noutbox 4\nregion 1\nrounds 1\ndirty 0\nguest\nend\nx",
        fails: &[],
        room: 500,
        status: 2,
        output: b"refused line 12 order\n",
    },
    Case {
        name: "the same words with JSON",
        words: &["run", "--json"],
        input: b"job 1\npages 1 16\ndisk 2 16\nstreams 1\ncredit 4\noutbox 4\nregion 1\nrounds 1\ndirty 0\nguest\nend\nstop\n",
        fails: &[],
        room: 500,
        status: 2,
        output: b"refused line 12 order\n",
    },
    Case {
        name: "a first read that fails",
        words: &["run"],
        input: JOB,
        fails: &[1],
        room: 500,
        status: 3,
        output: b"",
    },
    Case {
        name: "a second read that fails",
        words: &["run"],
        input: JOB,
        fails: &[2],
        room: 500,
        status: 3,
        output: b"",
    },
    Case {
        name: "a read behind the last byte that fails",
        words: &["run"],
        input: JOB,
        fails: &[92],
        room: 500,
        status: 3,
        output: b"",
    },
    Case {
        name: "a read that fails, of a job that is refused",
        words: &["run"],
        input: b"job 1\npages 1 16\ndisk 2 16\nstreams 1\ncredit 4\noutbox 4\nregion 5\nrounds 1\ndirty 0\nguest\nend\n",
        fails: &[91],
        room: 500,
        status: 3,
        output: b"",
    },
    Case {
        name: "room for five bytes",
        words: &["run"],
        input: PAGE,
        fails: &[],
        room: 5,
        status: 4,
        output: b"round",
    },
    Case {
        name: "room for five bytes, as JSON",
        words: &["run", "--json"],
        input: PAGE,
        fails: &[],
        room: 5,
        status: 4,
        output: b"round",
    },
    Case {
        name: "room for the journal and a part of the report",
        words: &["run"],
        input: PAGE,
        fails: &[],
        room: 50,
        status: 4,
        output: b"round done 1\npage failed source-read\nphase failed\n",
    },
    Case {
        name: "no room",
        words: &["run"],
        input: PAGE,
        fails: &[],
        room: 0,
        status: 4,
        output: b"",
    },
    Case {
        name: "no room for the refusal of words",
        words: &["run", "-x"],
        input: JOB,
        fails: &[],
        room: 7,
        status: 4,
        output: b"refused",
    },
    Case {
        name: "no room for the refusal of a job",
        words: &["run"],
        input: b"job 1\npages 1 16\ndisk 2 16\nstreams 1\ncredit 4\noutbox 4\nregion 1\nrounds 1\ndirty 0\nguest\nend",
        fails: &[],
        room: 22,
        status: 4,
        output: b"refused line 11 unende",
    },
];

/// What the input gives in one read.
const GIVES: u32 = 1;

/// What the output takes in one write.
const TAKES: u32 = 64;

/// The status of a call, what it wrote, and whether it left nothing.
fn outcome<X: Threads + Wait + Sync>(
    rt: &X,
    alloc: Global,
    case: &Case,
) -> Result<(u8, Vec<u8>, bool), Fail> {
    let words = words_of(alloc, case.words)?;
    let mut source = MemSource::new(alloc, case.input, GIVES, case.fails)?;
    let mut sink = MemSink::new(alloc, case.room, TAKES, &[])?;
    let mut left = Left::Nothing;
    let status = status_of(
        rt,
        alloc,
        &words,
        &mut source,
        &mut sink,
        &FreeGate,
        &mut left,
    );
    let nothing = matches!(left, Left::Nothing);
    drop(left);
    Ok((status, sink.bytes().to_vec(alloc)?, nothing))
}

#[test]
fn refuses_as_replay_does(rt: HostRuntime) -> Result<(), Fail> {
    for case in CASES {
        let name = case.name;
        let (status, output, nothing) = outcome(&rt, rt.alloc(), case)?;
        assert_eq!(rt; status, case.status, "{name}");
        assert_eq!(rt; output.as_slice(), case.output, "{name}");
        assert!(rt; nothing, "{name}");
    }
    Ok(())
}
