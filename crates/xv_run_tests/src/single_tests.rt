//! What is printed of jobs whose run has one journal, whatever the order of the threads: a read of the source fails before
//! two workers could act.

use crate::running::{Ran, ran_by};
use std::alloc::Global;
use std::sync::Wait;
use std::test::Fail;
use std::thread::Threads;
use xv_shared::FreeGate;

/// A page whose read fails.
pub const PAGE: &[u8] =
    b"job 1\npages 1 16\nstreams 1\ncredit 2\noutbox 2\nregion 1\nrounds 1\ndirty 0\nfault sread 1\nguest\nend\n";

pub const PAGE_OUT: &[u8] =
    b"round done 1\npage failed source-read\nphase failed\nowner source\nhistory 0\nfaulted 0\njournal 2\nstun none\ncopied 0\nrounds 1\nmessages 0\nmirrors 0\napplied 0\ncredit 2\nworker guest 0 0\nworker pager 2\nworker sender 0 0\nworker receiver 0 0\nworker applier 0\nfinish 0\n";

pub const PAGE_JSON: &[u8] =
    b"round done 1\npage failed source-read\n{\"applied\":0,\"copied\":0,\"credit\":2,\"faulted\":0,\"finish\":0,\"history\":0,\"journal\":2,\"messages\":0,\"mirrors\":0,\"owner\":\"source\",\"phase\":\"failed\",\"rounds\":1,\"stun\":null,\"workers\":{\"applier\":0,\"guest 0\":0,\"pager\":2,\"receiver 0\":0,\"sender 0\":0}}\n";

/// A disk that begins with a pattern, the second read of which fails.
pub const BLOCK: &[u8] =
    b"job 1\npages 1 16\ndisk 4 16\nstreams 3\ncredit 8\noutbox 8\nregion 2\nrounds 2\ndirty 0\nfault sread 2\ninit 2 0a0b\nguest\nguest\nend\n";

const BLOCK_OUT: &[u8] =
    b"begin 0 done 2\nread 0 done 1\nread 0 failed source-read\nphase failed\nowner source\nhistory 0\nfaulted 0\njournal 3\nstun none\ncopied 0\nrounds 0\nmessages 0\nmirrors 0\napplied 0\ncredit 8\nworker guest 0 0\nworker guest 1 0\nworker copier 0 3\nworker pager 0\nworker sender 0 0\nworker sender 1 0\nworker sender 2 0\nworker receiver 0 0\nworker receiver 1 0\nworker receiver 2 0\nworker applier 0\nfinish 0\nsrc 2 0a0b0a0b0a0b0a0b0a0b0a0b0a0b0a0b\n";

const BLOCK_JSON: &[u8] =
    b"begin 0 done 2\nread 0 done 1\nread 0 failed source-read\n{\"applied\":0,\"copied\":0,\"credit\":8,\"faulted\":0,\"finish\":0,\"history\":0,\"journal\":3,\"messages\":0,\"mirrors\":0,\"owner\":\"source\",\"phase\":\"failed\",\"rounds\":0,\"stun\":null,\"workers\":{\"applier\":0,\"copier 0\":3,\"guest 0\":0,\"guest 1\":0,\"pager\":0,\"receiver 0\":0,\"receiver 1\":0,\"receiver 2\":0,\"sender 0\":0,\"sender 1\":0,\"sender 2\":0}}\nsrc 2 0a0b0a0b0a0b0a0b0a0b0a0b0a0b0a0b\n";

struct Case {
    words: &'static [&'static str],
    input: &'static [u8],
    /// The lines of the journal.
    answers: &'static [u8],
    output: &'static [u8],
}

const CASES: &[Case] = &[
    Case {
        words: &["run"],
        input: PAGE,
        answers: b"round done 1\npage failed source-read\n",
        output: PAGE_OUT,
    },
    Case {
        words: &["run", "--json"],
        input: PAGE,
        answers: b"round done 1\npage failed source-read\n",
        output: PAGE_JSON,
    },
    Case {
        words: &["run"],
        input: BLOCK,
        answers: b"begin 0 done 2\nread 0 done 1\nread 0 failed source-read\n",
        output: BLOCK_OUT,
    },
    Case {
        words: &["run", "--json"],
        input: BLOCK,
        answers: b"begin 0 done 2\nread 0 done 1\nread 0 failed source-read\n",
        output: BLOCK_JSON,
    },
];

/// The status of a run, what it printed, and the answers of the journal that it left, played again.
fn outcome<X: Threads + Wait + Sync>(
    rt: &X,
    alloc: Global,
    case: &Case,
) -> Result<(u8, Vec<u8>, Vec<u8>), Fail> {
    let ran = ran_by(rt, alloc, case.words, case.input, &FreeGate)?;
    let Ran {
        status,
        output,
        played,
    } = ran;
    let answers = match played {
        Some(played) => played.answers,
        None => Vec::new(alloc),
    };
    Ok((status, output, answers))
}

#[test]
fn prints_the_only_journal(rt: HostRuntime) -> Result<(), Fail> {
    for case in CASES {
        let (status, output, answers) = outcome(&rt, rt.alloc(), case)?;
        assert_eq!(rt; status, 6);
        assert_eq!(rt; output.as_slice(), case.output);
        assert_eq!(rt; answers.as_slice(), case.answers);
    }
    Ok(())
}
